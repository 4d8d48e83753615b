//! Problems: the links and the wired interrupts of a row, and what `route_solve` says of them.
use crate::answers::say_numbers;
use crate::words::number;
use route_check::Claim;
use route_model::Link;
use route_solve::{Answer, Problem, Solver, fits, solve};
use route_try::first_least;
use std::alloc::AllocError;
use std::mem;
use test_rows::Exchange;
use test_words::say_path;

/// What a solver gives, if there was the memory for it.
pub fn given<T: Drop>(asked: &mut Exchange, found: Result<T, AllocError>) -> Option<T> {
    match found {
        Ok(found) => Some(found),
        Err(_) => {
            asked.run_out();
            None
        }
    }
}

/// What `solve` answers, where the problem fits.
pub fn solved(asked: &mut Exchange, problem: &Problem) -> Option<Answer> {
    if !fits(problem) {
        return None;
    }
    let found = solve(asked.alloc(), problem);
    given(asked, found)
}

/// What a `Solver` finds, where the problem fits.
fn searched(asked: &mut Exchange, problem: &Problem) -> Option<Answer> {
    if !fits(problem) {
        return None;
    }
    match Solver::new(asked.alloc(), problem) {
        Ok(solver) => Some(solver.search()),
        Err(_) => {
            asked.run_out();
            None
        }
    }
}

/// The first least assignment, found by trying all of them, where the problem fits.
pub fn tried(asked: &mut Exchange, problem: &Problem) -> Option<Vec<u32>> {
    if !fits(problem) {
        return None;
    }
    let found = first_least(asked.alloc(), problem);
    given(asked, found)
}

/// Answers the paths of the links at these places, and `-` where there are none.
fn say_places(asked: &mut Exchange, links: &[Link], places: &[usize]) {
    if places.is_empty() {
        asked.say("-");
    }
    for place in places {
        match links.get(*place) {
            Some(link) => say_path(asked, link.path()),
            None => asked.say_number(*place as u64),
        }
    }
}

/// Answers the interrupts of the links in their order.
pub fn say_choice(asked: &mut Exchange, choice: &[u32]) {
    asked.say("give");
    say_numbers(asked, choice);
}

/// Answers what a solver found: the interrupts of the links in their order, and the set.
fn say_found(asked: &mut Exchange, problem: &Problem, answer: &Answer) {
    asked.say("busiest");
    asked.say_number(u64::from(answer.busiest));
    asked.push(";");
    say_choice(asked, answer.choice.as_slice());
    asked.push("; bound");
    say_places(asked, problem.links.as_slice(), answer.links.as_slice());
    asked.say("over");
    say_numbers(asked, answer.interrupts.as_slice());
}

/// `solve` and `search`: what a solver found, if it found anything.
fn say_answer(asked: &mut Exchange, problem: &Problem, answer: Option<Answer>) {
    match answer {
        Some(answer) => say_found(asked, problem, &answer),
        None => asked.say("does not fit"),
    }
}

/// `try`: the interrupts of the links, found by trying all.
fn say_tried(asked: &mut Exchange, problem: &Problem) {
    match tried(asked, problem) {
        Some(choice) => say_choice(asked, choice.as_slice()),
        None => asked.say("does not fit"),
    }
}

/// Answers four words in hexadecimal digits, the lowest first, and `none` in place of none.
fn say_words(asked: &mut Exchange, words: Option<[u64; 4]>) {
    match words {
        Some(words) => {
            for word in &words {
                asked.say_hexadecimal(*word);
            }
        }
        None => asked.say("none"),
    }
}

/// `bits N`: the row of bits that a `Solver` has of an interrupt, where the problem fits.
fn say_bits(asked: &mut Exchange, problem: &Problem) {
    let n = number(asked);
    if !fits(problem) {
        asked.say("does not fit");
        return;
    }
    match Solver::new(asked.alloc(), problem) {
        Ok(solver) => say_words(asked, solver.row(n)),
        Err(_) => asked.run_out(),
    }
}

/// A question of a problem.
#[derive(Clone, Copy)]
pub enum Ask {
    Fits,
    Solve,
    Search,
    Try,
    Bits,
}

/// Answers a question of a problem.
fn of_problem(asked: &mut Exchange, problem: &Problem, ask: Ask) {
    match ask {
        Ask::Fits => asked.say_whether(fits(problem)),
        Ask::Solve => {
            let answer = solved(asked, problem);
            say_answer(asked, problem, answer);
        }
        Ask::Search => {
            let answer = searched(asked, problem);
            say_answer(asked, problem, answer);
        }
        Ask::Try => say_tried(asked, problem),
        Ask::Bits => say_bits(asked, problem),
    }
}

/// Answers a question of the problem that a claim's links and wired interrupts are.
pub fn answer(asked: &mut Exchange, claim: &mut Claim, ask: Ask) {
    let problem = Problem {
        links: mem::replace(&mut claim.links, Vec::new(asked.alloc())),
        wired: mem::replace(&mut claim.wired, Vec::new(asked.alloc())),
    };
    of_problem(asked, &problem, ask);
    claim.links = problem.links;
    claim.wired = problem.wired;
}
