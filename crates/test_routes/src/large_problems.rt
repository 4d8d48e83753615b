//! Problems of 256 links and 255 interrupts that are generated from a seed.
use crate::generated_problems::add_link;
use crate::random::Random;
use route_model::Link;
use route_solve::Problem;
use test_rows::Exchange;
use test_words::add;

/// How many links a problem has.
const LINKS: usize = 256;

/// How many interrupts, from 1 on.
const INTERRUPTS: usize = 255;

/// What a link offers: one interrupt at least, and about so many.
fn offers(asked: &mut Exchange, random: &mut Random, many: usize) -> Vec<u32> {
    let sure = random.below(INTERRUPTS);
    let mut numbers: Vec<u32> = Vec::new(asked.alloc());
    for at in 0..INTERRUPTS {
        if random.below(INTERRUPTS) < many || at == sure {
            add(asked, &mut numbers, at as u32 + 1);
        }
    }
    numbers
}

/// The wired interrupts, each with up to so many sources.
fn wired(asked: &mut Exchange, random: &mut Random, most: usize) -> Vec<(u32, u32)> {
    let mut wired: Vec<(u32, u32)> = Vec::new(asked.alloc());
    for at in 0..INTERRUPTS {
        let sources = random.below(most.min(9) + 1);
        if sources > 0 {
            add(asked, &mut wired, (at as u32 + 1, sources as u32));
        }
    }
    wired
}

/// A problem whose links offer about so many interrupts each, and whose interrupts have up to so many wired sources.
pub fn large(asked: &mut Exchange, many: usize, most: usize, seed: u64) -> Problem {
    let mut random = Random::new(seed);
    let mut links: Vec<Link> = Vec::new(asked.alloc());
    for _ in 0..LINKS {
        let offers = offers(asked, &mut random, many);
        add_link(asked, &mut links, offers);
    }
    let wired = wired(asked, &mut random, most);
    Problem { links, wired }
}
