//! All assignments, tried in order.
ghost use Rattle.std.specs.Prelude.{◌≡◌, length};

use crate::loads::busiest;
use route_model::Link;
use route_solve::Problem;
use std::alloc::{AllocError, Global};

/// Finds the first assignment within a limit that gives the links before `at` what they have.
fn first(wired: &[(u32, u32)], links: &[Link], choice: &mut [u32], limit: usize, at: usize) -> bool
    requires { length choice.old ≡ length links.now }
{
    if at >= links.len() {
        return busiest(wired, choice) <= limit;
    }
    let offers = links[at].offers();
    for n in offers {
        choice[at] = *n;
        if first(wired, links, choice, limit, at + 1) {
            return true;
        }
    }
    false
}

/// Finds the first least assignment: the limit is lowered until no assignment is within it.
fn choose(wired: &[(u32, u32)], links: &[Link], choice: &mut [u32])
    requires { length choice.old ≡ length links.now }
{
    let mut limit = usize::MAX;
    while limit > 0 && first(wired, links, choice, limit - 1, 0) {
        limit = busiest(wired, choice).min(limit - 1);
    }
    first(wired, links, choice, limit, 0);
}

/// The first least assignment of a problem that fits. It takes time in line with the number of all assignments.
pub fn first_least(alloc: Global, problem: &Problem) -> Result<Vec<u32>, AllocError> {
    let links = problem.links();
    let mut choice: Vec<u32> = vec![in alloc; 0; links.len()]?;
    choose(problem.wired(), links, choice.as_mut_slice());
    Ok(choice)
}
