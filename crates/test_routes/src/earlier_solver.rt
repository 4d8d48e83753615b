//! The solver beside the earlier one, on generated problems.
use crate::generated_problems::{Kind, generated};
use crate::problems::{given, solved};
use crate::words::{named, number};
use route_solve::{Answer, Problem};
use route_try::earlier;
use test_rows::Exchange;

/// The kinds of problems, by their names.
const KINDS: [(&str, Kind); 7] = [
    ("sparse", Kind::Sparse),
    ("dense", Kind::Dense),
    ("wired", Kind::Wired),
    ("tight-1", Kind::Tight(1)),
    ("tight-2", Kind::Tight(2)),
    ("tight-wired-1", Kind::TightWired(1)),
    ("tight-wired-2", Kind::TightWired(2)),
];

/// Whether two answers are the same.
fn is_same(one: &Answer, other: &Answer) -> bool {
    one.busiest == other.busiest
        && one.choice.as_slice() == other.choice.as_slice()
        && one.links.as_slice() == other.links.as_slice()
        && one.interrupts.as_slice() == other.interrupts.as_slice()
}

/// Whether the busiest interrupt serves as many sources as problems of a kind are made for.
fn is_as_made(kind: Kind, busiest: u32) -> bool {
    match kind {
        Kind::Tight(limit) | Kind::TightWired(limit) => busiest == limit,
        Kind::Few | Kind::Sparse | Kind::Dense | Kind::Wired => true,
    }
}

/// Whether both solvers give the same answer, which is one of the problem's kind.
fn agree_on(asked: &mut Exchange, kind: Kind, problem: &Problem) -> bool {
    let found = earlier::solve(asked.alloc(), problem);
    let earlier = given(asked, found);
    match (solved(asked, problem), earlier) {
        (Some(answer), Some(earlier)) => {
            is_same(&answer, &earlier) && is_as_made(kind, answer.busiest)
        }
        _ => false,
    }
}

/// `generated KIND COUNT`: `agree`, or the seed of the first problem on which they don't.
pub fn on_generated(asked: &mut Exchange) {
    let kind = named(asked, &KINDS, Kind::Sparse);
    let count = number(asked);
    for seed in 0..count {
        let problem = generated(asked, kind, u64::from(seed));
        if !agree_on(asked, kind, &problem) {
            asked.say("differ at");
            asked.say_number(u64::from(seed));
            return;
        }
    }
    asked.say("agree");
}
