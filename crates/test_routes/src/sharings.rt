//! Links that share as little as they can: what `route_spread` says of a row's links, and beside other code on
//! generated problems.
use crate::generated_problems::{Kind, generated};
use crate::large_problems::large;
use crate::problems::{given, say_choice};
use crate::small_problems::{small_links, small_wired};
use crate::words::{named, number, numbers};
use route_check::Claim;
use route_solve::{Problem, fits, solve};
use route_spread::{is_least_shared, solve_spread};
use route_try::{is_first_of_all, least_sharing, sorted_loads};
use std::alloc::{AllocError, Global};
use std::mem;
use test_rows::Exchange;

/// The first least assignment of a problem, and a least sharing that is found from it; none where the problem doesn't
/// fit.
fn both(alloc: Global, problem: &Problem) -> Result<Option<(Vec<u32>, Vec<u32>)>, AllocError> {
    if !fits(problem) {
        return Ok(None);
    }
    let first = solve(alloc, problem)?.choice;
    let choice = solve_spread(alloc, &problem.links, &problem.wired, &first)?;
    Ok(Some((first, choice)))
}

/// Whether a choice passes the test of `route_spread` exactly where its loads are these.
fn is_judged(
    alloc: Global,
    problem: &Problem,
    choice: &[u32],
    loads: &[usize],
) -> Result<bool, AllocError> {
    let least = is_least_shared(alloc, &problem.links, &problem.wired, choice)?;
    let own = sorted_loads(alloc, problem, choice)?;
    Ok(least == (own.as_slice() == loads))
}

/// Whether a least sharing has the loads of one that is found on shortest ways, and the test of `route_spread` says
/// yes to it, and to the first least assignment exactly where that has these loads too.
fn is_as_by_ways(alloc: Global, problem: &Problem) -> Result<bool, AllocError> {
    let by_ways = least_sharing(alloc, problem)?;
    let loads = sorted_loads(alloc, problem, &by_ways)?;
    match both(alloc, problem)? {
        Some((first, choice)) => {
            let own = sorted_loads(alloc, problem, &choice)?;
            Ok(
                own.as_slice() == loads.as_slice()
                    && is_judged(alloc, problem, &choice, &loads)?
                    && is_judged(alloc, problem, &first, &loads)?,
            )
        }
        None => Ok(false),
    }
}

/// Whether no assignment has loads that come before those of the least sharing, and the test of `route_spread` says
/// of the first least assignment whether that is so of it.
fn is_as_by_trying(alloc: Global, problem: &Problem) -> Result<bool, AllocError> {
    match both(alloc, problem)? {
        Some((first, choice)) => {
            let least = is_least_shared(alloc, &problem.links, &problem.wired, &first)?;
            Ok(
                is_first_of_all(alloc, problem, &choice)?
                    && least == is_first_of_all(alloc, problem, &first)?,
            )
        }
        None => Ok(false),
    }
}

/// What is compared with the least sharing.
#[derive(Clone, Copy)]
enum Beside {
    Ways,
    Trying,
}

/// Whether both agree on a problem.
fn agree_on(asked: &mut Exchange, problem: &Problem, beside: Beside) -> bool {
    let found = match beside {
        Beside::Ways => is_as_by_ways(asked.alloc(), problem),
        Beside::Trying => is_as_by_trying(asked.alloc(), problem),
    };
    given(asked, found).unwrap_or(false)
}

/// Whether they agree on links with all ways to wire up to two sources.
fn agree_on_links(asked: &mut Exchange, bits: usize) -> bool {
    let mut problem = Problem {
        links: small_links(asked, bits),
        wired: Vec::new(asked.alloc()),
    };
    let mut agree = true;
    for one in 0..5usize {
        for other in 0..one + 1 {
            problem.wired = small_wired(asked, one, other);
            agree = agree_on(asked, &problem, Beside::Trying) && agree;
        }
    }
    agree
}

/// `spread-small`: `agree`, or the offers of the first links on which they don't, as one number.
pub fn on_small(asked: &mut Exchange) {
    for bits in 0..512usize {
        if !agree_on_links(asked, bits) {
            asked.say("differ at");
            asked.say_number(bits as u64);
            return;
        }
    }
    asked.say("agree");
}

/// The kinds of problems, by their names, and what is compared there.
const KINDS: [(&str, (Kind, Beside)); 8] = [
    ("few", (Kind::Few, Beside::Trying)),
    ("sparse", (Kind::Sparse, Beside::Ways)),
    ("dense", (Kind::Dense, Beside::Ways)),
    ("wired", (Kind::Wired, Beside::Ways)),
    ("tight-1", (Kind::Tight(1), Beside::Ways)),
    ("tight-2", (Kind::Tight(2), Beside::Ways)),
    ("tight-wired-1", (Kind::TightWired(1), Beside::Ways)),
    ("tight-wired-2", (Kind::TightWired(2), Beside::Ways)),
];

/// `spread-generated KIND COUNT`: `agree`, or the seed of the first problem on which they don't.
pub fn on_generated(asked: &mut Exchange) {
    let (kind, beside) = named(asked, &KINDS, (Kind::Sparse, Beside::Ways));
    let count = number(asked);
    for seed in 0..count {
        let problem = generated(asked, kind, u64::from(seed));
        if !agree_on(asked, &problem, beside) {
            asked.say("differ at");
            asked.say_number(u64::from(seed));
            return;
        }
    }
    asked.say("agree");
}

/// `spread-large OFFERS SOURCES COUNT`: `agree`, or the seed of the first problem on which they don't.
pub fn on_large(asked: &mut Exchange) {
    let many = number(asked) as usize;
    let most = number(asked) as usize;
    let count = number(asked);
    for seed in 0..count {
        let problem = large(asked, many, most, u64::from(seed));
        if !agree_on(asked, &problem, Beside::Ways) {
            asked.say("differ at");
            asked.say_number(u64::from(seed));
            return;
        }
    }
    asked.say("agree");
}

/// `spread`: the interrupts of the links under a least sharing.
fn say_spread(asked: &mut Exchange, problem: &Problem) {
    let found = both(asked.alloc(), problem);
    match given(asked, found).flatten() {
        Some((_, choice)) => say_choice(asked, choice.as_slice()),
        None => asked.say("does not fit"),
    }
}

/// `least-shared N..`: whether links share as little as they can where they are given these interrupts.
fn say_least_shared(asked: &mut Exchange, problem: &Problem) {
    let choice = numbers(asked);
    let found = is_least_shared(asked.alloc(), &problem.links, &problem.wired, &choice);
    let least = given(asked, found).unwrap_or(false);
    asked.say_whether(least);
}

/// A question of a claim's links and wired interrupts.
#[derive(Clone, Copy)]
pub enum Ask {
    Spread,
    LeastShared,
}

/// Answers a question of the problem that a claim's links and wired interrupts are.
pub fn answer(asked: &mut Exchange, claim: &mut Claim, ask: Ask) {
    let problem = Problem {
        links: mem::replace(&mut claim.links, Vec::new(asked.alloc())),
        wired: mem::replace(&mut claim.wired, Vec::new(asked.alloc())),
    };
    match ask {
        Ask::Spread => say_spread(asked, &problem),
        Ask::LeastShared => say_least_shared(asked, &problem),
    }
    claim.links = problem.links;
    claim.wired = problem.wired;
}
