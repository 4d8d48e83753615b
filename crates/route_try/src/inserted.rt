//! A solver that puts links in one after the other, each on a shortest way to the interrupt with the fewest sources
//! that it can lead to: successive shortest paths, where an interrupt's next source costs as many as it has.
ghost use Rattle.std.specs.Prelude.{◌≡◌, ◌<◌, length};

use crate::loads::wired_sources;
use crate::rooms::count;
use route_model::Link;
use route_solve::Problem;
use std::alloc::{AllocError, Global};

/// How many sources an interrupt serves so far.
fn load(wired: &[(u32, u32)], choice: &[Option<u32>], n: u32) -> usize {
    wired_sources(wired, n).saturating_add(count(choice, n))
}

/// Links that can be reached from a new one, in the order in which they are.
#[derive(Drop)]
struct Reach {
    /// The links, the new one first.
    queue: Vec<usize>,
    /// For each of these the link that offers what it has.
    from: Vec<usize>,
    /// Whether each of the offered interrupts was seen.
    seen: Vec<bool>,
    /// The interrupt with the fewest sources, the link that offers it, and the number of its sources.
    best: Option<(u32, usize, usize)>,
}

/// Whether an interrupt is seen for the first time.
fn is_new(numbers: &[u32], seen: &mut [bool], n: u32) -> bool {
    match numbers.binary_search(&n) {
        Ok(at) if at < seen.len() && !seen[at] => {
            seen[at] = true;
            true
        }
        _ => false,
    }
}

/// Sees an interrupt that a link offers, and reaches the links that have it.
fn see(
    problem: &Problem,
    numbers: &[u32],
    choice: &[Option<u32>],
    reach: &mut Reach,
    link: usize,
    n: u32,
) -> Result<(), AllocError> {
    if !is_new(numbers, &mut reach.seen, n) {
        return Ok(());
    }
    let sources = load(&problem.wired, choice, n);
    let better = match reach.best {
        Some((_, _, fewest)) => sources < fewest,
        None => true,
    };
    if better {
        reach.best = Some((n, link, sources));
    }
    for j in 0..choice.len() {
        if choice[j] == Some(n) && !reach.queue.contains(&j) {
            reach.queue.push(j)?;
            reach.from.push(link)?;
        }
    }
    Ok(())
}

/// All that can be reached from a new link.
fn reach_from(
    alloc: Global,
    problem: &Problem,
    numbers: &[u32],
    choice: &[Option<u32>],
    link: usize,
) -> Result<Reach, AllocError> {
    let mut reach = Reach {
        queue: vec![in alloc; link]?,
        from: vec![in alloc; link]?,
        seen: vec![in alloc; false; numbers.len()]?,
        best: None,
    };
    for at in 0..choice.len() {
        let from = match reach.queue.get(at) {
            Some(from) => *from,
            None => return Ok(reach),
        };
        if from < problem.links.len() {
            for n in problem.links[from].offers() {
                see(problem, numbers, choice, &mut reach, from, *n)?;
            }
        }
    }
    Ok(reach)
}

/// The link that offers what another one has.
fn parent(reach: &Reach, link: usize) -> usize {
    for (at, l) in reach.queue.iter().enumerate() {
        if *l == link {
            return reach.from.get(at).copied().unwrap_or(link);
        }
    }
    link
}

/// Gives a link the best interrupt, the link that offers what it had that one, and so on to the new link.
fn apply(choice: &mut [Option<u32>], reach: &Reach) {
    if let Some((n, link, _)) = reach.best {
        let mut at = link;
        let mut next = Some(n);
        for _ in 0..choice.len() {
            if at >= choice.len() || next.is_none() {
                return;
            }
            let before = choice[at];
            choice[at] = next;
            next = before;
            at = parent(reach, at);
        }
    }
}

/// All interrupts that a link offers, ascending.
fn offered(alloc: Global, links: &[Link]) -> Result<Vec<u32>, AllocError> {
    let mut numbers: Vec<u32> = Vec::new(alloc);
    for link in links {
        numbers.extend_from_slice(link.offers())?;
    }
    numbers.sort()?;
    numbers.dedup();
    Ok(numbers)
}

/// An assignment under which links share interrupts as little as they can.
pub fn least_sharing(alloc: Global, problem: &Problem) -> Result<Vec<u32>, AllocError> {
    let numbers = offered(alloc, &problem.links)?;
    let mut choice: Vec<Option<u32>> = vec![in alloc; None; problem.links.len()]?;
    for link in 0..problem.links.len() {
        let reach = reach_from(alloc, problem, &numbers, &choice, link)?;
        apply(choice.as_mut_slice(), &reach);
    }
    let mut numbers = Vec::with_capacity(alloc, choice.len())?;
    for n in &choice {
        numbers.push(n.unwrap_or(0))?;
    }
    Ok(numbers)
}
