//! Problems that are generated from a seed, of up to 40 links and 40 interrupts.
ghost use Rattle.std.specs.Prelude.{◌<◌};

use crate::random::Random;
use route_model::Link;
use route_solve::Problem;
use test_rows::Exchange;
use test_words::{add, path_of};

/// How a problem is generated.
#[derive(Clone, Copy)]
pub enum Kind {
    /// Up to five links and four interrupts, of which a link offers about half, and up to three sources wired to each.
    Few,
    /// A link offers about an interrupt in eight.
    Sparse,
    /// A link offers about three interrupts in four.
    Dense,
    /// A link offers about an interrupt in four, and up to three sources are wired to each interrupt.
    Wired,
    /// The busiest interrupt serves so many sources, and all interrupts but one have to be as busy.
    Tight(u32),
    /// The same with sources that are wired.
    TightWired(u32),
}

/// The interrupt at a place among those of a problem.
fn interrupt(at: usize) -> u32 {
    (at % 64) as u32 * 3 + 4
}

/// How many interrupts a problem has: 1 to 40, or so many that 40 links have room.
fn count(random: &mut Random, kind: Kind) -> usize {
    match kind {
        Kind::Tight(limit) | Kind::TightWired(limit) => {
            let most = 40 / limit.max(1) as usize;
            random.below(most.max(2) - 1) + 2
        }
        Kind::Few => random.below(4) + 1,
        Kind::Sparse | Kind::Dense | Kind::Wired => random.below(40) + 1,
    }
}

/// How many sources are wired to an interrupt.
fn sources(random: &mut Random, kind: Kind) -> u32 {
    match kind {
        Kind::Sparse | Kind::Dense | Kind::Tight(_) => 0,
        Kind::Few | Kind::Wired => random.below(4) as u32,
        Kind::TightWired(limit) => random.below(limit as usize + 1) as u32,
    }
}

/// The wired interrupts: all that links may offer but the first, and one more.
fn wired(asked: &mut Exchange, random: &mut Random, kind: Kind, count: usize) -> Vec<(u32, u32)> {
    let mut wired: Vec<(u32, u32)> = Vec::new(asked.alloc());
    for at in 1..count.saturating_add(1) {
        add(asked, &mut wired, (interrupt(at), sources(random, kind)));
    }
    wired
}

/// A bit for each interrupt that a link offers beside the one that it is sure to offer.
fn bits(random: &mut Random, kind: Kind) -> u64 {
    match kind {
        Kind::Dense => random.number() | random.number(),
        Kind::Few => random.number(),
        Kind::Wired => random.number() & random.number(),
        Kind::Sparse | Kind::Tight(_) | Kind::TightWired(_) => {
            random.number() & random.number() & random.number()
        }
    }
}

/// The interrupts that have their bits, of the first so many, and the one at a place.
fn offers(asked: &mut Exchange, count: usize, bits: u64, sure: usize) -> Vec<u32> {
    let mut numbers: Vec<u32> = Vec::new(asked.alloc());
    for at in 0..count {
        if at == sure || bits >> (at % 64) & 1 == 1 {
            add(asked, &mut numbers, interrupt(at));
        }
    }
    numbers
}

/// Adds a link that offers an interrupt and others: `\L000`, `\L001` and so on.
pub fn add_link(asked: &mut Exchange, links: &mut Vec<Link>, offers: Vec<u32>) {
    let number = links.len();
    match format!(in asked.alloc(); "\\L{number:03}") {
        Ok(name) => {
            let path = path_of(asked, name.as_str());
            add(asked, links, Link::new(path, offers));
        }
        Err(_) => asked.run_out(),
    }
}

/// Up to how many links a problem has.
fn most_links(kind: Kind) -> usize
    ensures { 0 < result }
{
    match kind {
        Kind::Few => 5,
        _ => 40,
    }
}

/// 1 to 40 links, or few.
fn some_links(asked: &mut Exchange, random: &mut Random, kind: Kind, count: usize) -> Vec<Link> {
    let mut links = Vec::new(asked.alloc());
    for _ in 0..random.below(most_links(kind)) + 1 {
        let sure = random.below(count.max(1));
        let offers = offers(asked, count, bits(random, kind), sure);
        add_link(asked, &mut links, offers);
    }
    links
}

/// The places of the interrupts, each as often as it can serve a link within a limit.
fn rooms(asked: &mut Exchange, count: usize, wired: &[(u32, u32)], limit: u32) -> Vec<usize> {
    let mut rooms: Vec<usize> = Vec::new(asked.alloc());
    for at in 0..count {
        let sources = wired.iter().filter(|w| w.0 == interrupt(at)).map(|w| w.1);
        for _ in sources.max().unwrap_or(0)..limit {
            add(asked, &mut rooms, at);
        }
    }
    rooms
}

/// Takes one of some places out.
fn take_any(random: &mut Random, places: &mut Vec<usize>) -> usize {
    if places.is_empty() {
        return 0;
    }
    let at = random.below(places.len());
    places.swap_remove(at)
}

/// A link for each room but one, which is sure to offer the interrupt that has it.
fn tight_links(
    asked: &mut Exchange,
    random: &mut Random,
    kind: Kind,
    count: usize,
    rooms: &mut Vec<usize>,
) -> Vec<Link> {
    let mut links = Vec::new(asked.alloc());
    for _ in 1..rooms.len() {
        let sure = take_any(random, rooms);
        let offers = offers(asked, count, bits(random, kind), sure);
        add_link(asked, &mut links, offers);
    }
    links
}

/// The problem of a kind and a seed.
pub fn generated(asked: &mut Exchange, kind: Kind, seed: u64) -> Problem {
    let mut random = Random::new(seed);
    let count = count(&mut random, kind);
    let wired = wired(asked, &mut random, kind, count);
    let links = match kind {
        Kind::Tight(limit) | Kind::TightWired(limit) => {
            let mut rooms = rooms(asked, count, wired.as_slice(), limit);
            tight_links(asked, &mut random, kind, count, &mut rooms)
        }
        Kind::Few | Kind::Sparse | Kind::Dense | Kind::Wired => {
            some_links(asked, &mut random, kind, count)
        }
    };
    Problem { links, wired }
}
