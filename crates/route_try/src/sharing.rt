//! How links share interrupts: the loads sorted from the greatest down, and the least of all assignments.
ghost use Rattle.std.specs.Prelude.{◌≡◌, length};

use crate::loads::load;
use route_model::Link;
use route_solve::Problem;
use std::alloc::{AllocError, Global};

/// The interrupts that are offered or wired, each once.
fn all_interrupts(alloc: Global, problem: &Problem) -> Result<Vec<u32>, AllocError> {
    let mut numbers: Vec<u32> = Vec::new(alloc);
    for link in &problem.links {
        numbers.extend_from_slice(link.offers())?;
    }
    for w in &problem.wired {
        numbers.push(w.0)?;
    }
    numbers.sort()?;
    numbers.dedup();
    Ok(numbers)
}

/// How many sources each interrupt serves, sorted from the fewest up.
pub fn sorted_loads(
    alloc: Global,
    problem: &Problem,
    choice: &[u32],
) -> Result<Vec<usize>, AllocError> {
    let numbers = all_interrupts(alloc, problem)?;
    let mut loads: Vec<usize> = Vec::with_capacity(alloc, numbers.len())?;
    for n in &numbers {
        loads.push(load(&problem.wired, choice, *n))?;
    }
    loads.sort()?;
    Ok(loads)
}

/// The loads of fewer than 16 interrupts, each below 32, as one number: each load is a digit's place in base 16, so
/// the smaller number has the loads that come first when they are sorted from the greatest down.
fn profile(wired: &[(u32, u32)], numbers: &[u32], choice: &[u32]) -> u128 {
    let mut total: u128 = 0;
    for n in numbers {
        let place = load(wired, choice, *n).min(31) as u32;
        total = total.saturating_add(1u128 << (4 * place));
    }
    total
}

/// The least profile of all assignments that give the links before `at` what they have.
fn least(
    wired: &[(u32, u32)],
    links: &[Link],
    numbers: &[u32],
    choice: &mut [u32],
    at: usize,
) -> u128
    requires { length choice.old ≡ length links.now }
{
    if at >= links.len() {
        return profile(wired, numbers, choice);
    }
    let mut best = u128::MAX;
    let offers = links[at].offers();
    for n in offers {
        choice[at] = *n;
        best = best.min(least(wired, links, numbers, choice, at + 1));
    }
    best
}

/// Whether no assignment of a small problem has loads that come before those of a choice, when they are sorted from
/// the greatest down. All are tried.
pub fn is_first_of_all(
    alloc: Global,
    problem: &Problem,
    choice: &[u32],
) -> Result<bool, AllocError> {
    let numbers = all_interrupts(alloc, problem)?;
    let mut tried: Vec<u32> = vec![in alloc; 0; problem.links.len()]?;
    let best = least(
        &problem.wired,
        &problem.links,
        &numbers,
        tried.as_mut_slice(),
        0,
    );
    Ok(profile(&problem.wired, &numbers, choice) == best)
}
