//! Both solvers on all small problems: up to three links that offer some of three interrupts each, and up to two
//! sources wired to these or to a fourth one.
use crate::problems::{solved, tried};
use route_model::Link;
use route_solve::{Answer, Problem};
use test_rows::Exchange;
use test_words::{add, path_of};

/// Those of three interrupts whose bits are set.
fn interrupts(asked: &mut Exchange, bits: usize) -> Vec<u32> {
    let mut numbers: Vec<u32> = Vec::new(asked.alloc());
    for (bit, number) in [(1, 5), (2, 10), (4, 11)] {
        if bits & bit != 0 {
            add(asked, &mut numbers, number);
        }
    }
    numbers
}

/// Up to two sources wired to three interrupts that links may offer and one that none offers: two
/// numbers of 0 for none and 1 to 4, the first of them not the smaller.
pub fn small_wired(asked: &mut Exchange, one: usize, other: usize) -> Vec<(u32, u32)> {
    let mut counts: Vec<(u32, u32)> = Vec::new(asked.alloc());
    for (place, number) in [(1, 5), (2, 10), (3, 11), (4, 12)] {
        let sources = u32::from(one == place) + u32::from(other == place);
        if sources > 0 {
            add(asked, &mut counts, (number, sources));
        }
    }
    counts
}

/// Adds a link with the offers of these bits, none for 0.
fn add_link(asked: &mut Exchange, links: &mut Vec<Link>, name: &str, bits: usize) {
    if bits != 0 {
        let path = path_of(asked, name);
        let offers = interrupts(asked, bits);
        add(asked, links, Link::new(path, offers));
    }
}

/// The links with the offers of these bits.
pub fn small_links(asked: &mut Exchange, bits: usize) -> Vec<Link> {
    let mut links = Vec::new(asked.alloc());
    add_link(asked, &mut links, "\\LNKA", bits / 64 % 8);
    add_link(asked, &mut links, "\\LNKB", bits / 8 % 8);
    add_link(asked, &mut links, "\\LNKC", bits % 8);
    links
}

/// Whether two solvers gave the same assignment, and both gave one.
fn is_same(answer: &Option<Answer>, choice: &Option<Vec<u32>>) -> bool {
    match (answer, choice) {
        (Some(answer), Some(choice)) => answer.choice.as_slice() == choice.as_slice(),
        _ => false,
    }
}

/// Whether both solvers give the same assignment, where the problem fits.
fn agree_on(asked: &mut Exchange, problem: &Problem) -> bool {
    let answer = solved(asked, problem);
    let choice = tried(asked, problem);
    is_same(&answer, &choice)
}

/// Whether they agree on links with all ways to wire up to two sources.
fn agree_on_links(asked: &mut Exchange, bits: usize) -> bool {
    let mut problem = Problem {
        links: small_links(asked, bits),
        wired: Vec::new(asked.alloc()),
    };
    let mut agree = true;
    for one in 0..5usize {
        for other in 0..one + 1 {
            problem.wired = small_wired(asked, one, other);
            agree = agree_on(asked, &problem) && agree;
        }
    }
    agree
}

/// `both-solvers`: `agree`, or the offers of the first links on which they don't, as bits.
pub fn both_solvers(asked: &mut Exchange) {
    for bits in 0..512usize {
        if !agree_on_links(asked, bits) {
            asked.say("differ at");
            asked.say_number((bits / 64 % 8) as u64);
            asked.say_number((bits / 8 % 8) as u64);
            asked.say_number((bits % 8) as u64);
            return;
        }
    }
    asked.say("agree");
}
