//! A solver that moves links depth first, and counts in lists of links: what `route_solve` did before it had rows of
//! bits.
ghost use Rattle.std.specs.Prelude.{◌≡◌, ◌<◌, length};

use crate::fixing::fix_all;
use crate::loads::wired_sources;
use crate::placing::place_link;
use crate::rooms::Rooms;
use route_model::Link;
use route_solve::{Answer, Problem};
use std::alloc::{AllocError, Global};

/// The greatest number of sources that are wired to one interrupt.
fn greatest_wired(wired: &[(u32, u32)]) -> usize {
    let mut greatest: usize = 0;
    for w in wired {
        greatest = greatest.max(wired_sources(wired, w.0));
    }
    greatest
}

/// Gives a link its first offer, if it has any.
fn give_first(links: &[Link], choice: &mut [Option<u32>], link: usize)
    requires choices { length choice.old ≡ length links.now }
    requires link { link < length links.now }
{
    let offers = links[link].offers();
    choice[link] = offers.first().copied();
}

/// Places all links within the least limit, and marks the links of the last search that failed.
///
/// The limit is raised where a link can't be placed. All that it offers was full within the old limit, so its first
/// interrupt has room within the new one.
fn place_all(
    wired: &[(u32, u32)],
    links: &[Link],
    choice: &mut [Option<u32>],
    reached: &mut [bool],
    stuck: &mut [bool],
    floor: usize,
) -> usize
    requires choices { length choice.old ≡ length links.now }
    requires marks { length reached.old ≡ length links.now }
    requires more_marks { length stuck.old ≡ length links.now }
{
    let mut limit = floor;
    for link in 0..links.len() {
        let rooms = Rooms {
            limit,
            wired,
            fixed: &[],
        };
        if !place_link(
            &rooms,
            &links[..=link],
            &mut choice[..=link],
            &mut reached[..=link],
            link,
        ) {
            stuck.copy_from_slice(reached);
            limit = limit.saturating_add(1);
            give_first(links, choice, link);
        }
    }
    limit
}

fn is_marked(marks: &[bool], link: usize) -> bool {
    link < marks.len() && marks[link]
}

/// Whether a marked link offers an interrupt.
fn is_offered(links: &[Link], marks: &[bool], n: u32) -> bool {
    for l in 0..links.len() {
        let offers = links[l].offers();
        if is_marked(marks, l) && offers.contains(&n) {
            return true;
        }
    }
    false
}

/// The places of all links, of which those of the set are to stay.
fn all_places(alloc: Global, links: &[Link]) -> Result<Vec<usize>, AllocError> {
    let mut places = Vec::with_capacity(alloc, links.len())?;
    for l in 0..links.len() {
        places.push(l)?;
    }
    Ok(places)
}

/// All interrupts, ascending, of which those of the set are to stay.
fn all_interrupts(alloc: Global, problem: &Problem) -> Result<Vec<u32>, AllocError> {
    let mut interrupts = Vec::new(alloc);
    for link in problem.links() {
        interrupts.extend_from_slice(link.offers())?;
    }
    for w in problem.wired() {
        interrupts.push(w.0)?;
    }
    interrupts.sort()?;
    interrupts.dedup();
    Ok(interrupts)
}

/// Keeps of all links and all interrupts the set that is to be shown.
fn show(
    problem: &Problem,
    stuck: &[bool],
    floor: usize,
    limit: usize,
    places: &mut Vec<usize>,
    interrupts: &mut Vec<u32>,
) {
    if limit == 0 {
        places.clear();
        interrupts.clear();
    } else if limit == floor {
        places.clear();
        interrupts.retain(|n| wired_sources(problem.wired(), *n) == limit);
        interrupts.truncate(1);
    } else {
        places.retain(|l| is_marked(stuck, *l));
        interrupts.retain(|n| is_offered(problem.links(), stuck, *n));
    }
}

/// The interrupts of the links.
fn numbers(alloc: Global, choice: &[Option<u32>]) -> Result<Vec<u32>, AllocError> {
    let mut numbers = Vec::with_capacity(alloc, choice.len())?;
    for n in choice {
        numbers.push(n.unwrap_or(0))?;
    }
    Ok(numbers)
}

/// The first least assignment of a problem that `fits`, and the set that shows why none is less busy.
pub fn solve(alloc: Global, problem: &Problem) -> Result<Answer, AllocError> {
    let links = problem.links();
    let wired = problem.wired();
    let n = links.len();
    let mut places = all_places(alloc, links)?;
    let mut interrupts = all_interrupts(alloc, problem)?;
    let mut choice: Vec<Option<u32>> = vec![in alloc; None; n]?;
    let mut reached: Vec<bool> = vec![in alloc; false; n]?;
    let mut stuck: Vec<bool> = vec![in alloc; false; n]?;
    let floor = greatest_wired(wired);
    let limit = place_all(
        wired,
        links,
        choice.as_mut_slice(),
        reached.as_mut_slice(),
        stuck.as_mut_slice(),
        floor,
    );
    fix_all(
        wired,
        links,
        choice.as_mut_slice(),
        reached.as_mut_slice(),
        limit,
    );
    show(problem, &stuck, floor, limit, &mut places, &mut interrupts);
    Ok(Answer {
        choice: numbers(alloc, &choice)?,
        busiest: u32::try_from(limit).unwrap_or(u32::MAX),
        links: places,
        interrupts,
    })
}
