//! Whether a problem fits: whether it is one that can be solved.
ghost use Rattle.std.specs.Prelude.{◌↔◌, ◌≤◌, ◌<◌, ℕ, IsTrue, [], length, map, slice_index_or, sum_by};
ghost use Rattle.std.specs.List.Sorted.{IsStrictlyIncreasing, IsStrictlySortedBy};
ghost use Rattle.aml_path.specs.Paths.{path_cmp};
ghost use Rattle.route_model.specs.Links.{offers_of, paths_of};
ghost use Rattle.route_solve.specs.Fits.{Fits, IsOffer};

use crate::problem::Problem;
use route_model::Link;
use route_numbers::ascends;

fn links_ascend(links: &[Link]) -> bool
    ensures { IsTrue result ↔ IsStrictlySortedBy path_cmp (paths_of links.now) }
{
    for i in 1..links.len() {
        let before = links[i - 1].path();
        if !before.cmp(links[i].path()).is_lt() {
            return false;
        }
    }
    true
}

fn wired_ascend(wired: &[(u32, u32)]) -> bool
    ensures { IsTrue result ↔ IsStrictlyIncreasing (map (λ w. w.0) wired.now) }
{
    for i in 1..wired.len() {
        if wired[i].0 <= wired[i - 1].0 {
            return false;
        }
    }
    true
}

fn is_offer(offers: &[u32]) -> bool
    ensures { IsTrue result ↔ IsOffer offers.now }
{
    if offers.is_empty() || offers.len() > 255 {
        return false;
    }
    ascends(offers)
}

fn are_offers(links: &[Link]) -> bool
    ensures { IsTrue result ↔ ((k : ℕ) → k < length links.now → IsOffer (slice_index_or (offers_of links.now) k [])) }
{
    for link in links {
        if !is_offer(link.offers()) {
            return false;
        }
    }
    true
}

fn few_sources(wired: &[(u32, u32)]) -> bool
    ensures { IsTrue result ↔ (sum_by (λ w. w.1) wired.now ≤ 4096) }
{
    let mut total: u32 = 0;
    for w in wired {
        if w.1 > 4096 - total {
            return false;
        }
        total += w.1;
    }
    true
}

/// Whether a problem can be solved: at most 256 links in strict path order, each with 1 to 255 interrupts, ascending;
/// wired interrupts ascending, with at most 4,096 sources in all. It takes no memory.
pub fn fits(problem: &Problem) -> bool
    ensures { IsTrue result ↔ Fits problem.now }
{
    let links = problem.links();
    let wired = problem.wired();
    if links.len() > 256 {
        return false;
    }
    if !links_ascend(links) {
        return false;
    }
    if !are_offers(links) {
        return false;
    }
    if !wired_ascend(wired) {
        return false;
    }
    few_sources(wired)
}
