//! How many sources are wired to each offered interrupt.
ghost use Rattle.std.specs.Prelude.{◌≡◌, ◌≤◌, ◌<◌, ◌+◌, ℕ, IfOk, MatchOption, length, map, slice_index_or, sum_by};
ghost use Rattle.std.specs.Prelude.{slice_set};
ghost use Rattle.std.specs.List.Sorted.{IsStrictlyIncreasing};
ghost use Rattle.route_model.specs.Routing.{wired_to};
ghost use Rattle.route_numbers.specs.Numbers.{AreSources};
ghost use Rattle.route_solve.specs.Capacities.{at};

use route_numbers::place_among;
use std::alloc::{AllocError, Global};

/// The place of an interrupt among the wired ones, found by halves.
fn place_wired(wired: &[(u32, u32)], n: u32) -> Option<usize>
    requires ascending { IsStrictlyIncreasing (map (λ w. w.0) wired.now) }
    ensures { MatchOption result (wired_to wired.now n ≡ 0) (λ i. (i < length wired.now) ×
        (wired_to wired.now n ≡ (slice_index_or wired.now i (0, 0)).1)) }
{
    let mut low: usize = 0;
    let mut high: usize = wired.len();
    while low < high {
        let middle = low + (high - low) / 2;
        if wired[middle].0 == n {
            return Some(middle);
        }
        if wired[middle].0 < n {
            low = middle + 1;
        } else {
            high = middle;
        }
    }
    None
}

/// How many sources are wired to an interrupt.
pub(crate) fn wired_sources(wired: &[(u32, u32)], n: u32) -> usize
    requires counts { sum_by (λ w. w.1) wired.now ≤ 4096 }
    requires ascending { IsStrictlyIncreasing (map (λ w. w.0) wired.now) }
    ensures value { result ≡ wired_to wired.now n }
    ensures small { result ≤ 4096 }
{
    match place_wired(wired, n) {
        Some(i) => wired[i].1 as usize,
        None => 0,
    }
}

/// Adds sources to those of the interrupt at a place.
fn add_at(sources: &mut [usize], i: usize, more: u32)
    requires known { i < length sources.old }
    requires few { at sources.old i + more ≤ 4096 }
    ensures { sources.new ≡ slice_set sources.old i (at sources.old i + more) }
{
    sources[i] += more as usize;
}

/// Adds all wired sources of the offered interrupts.
fn add_all(sources: &mut [usize], numbers: &[u32], wired: &[(u32, u32)])
    requires counts { sum_by (λ w. w.1) wired.now ≤ 4096 }
    requires ascending { IsStrictlyIncreasing numbers.now }
    requires long { length sources.old ≡ length numbers.now }
    requires none { (i : ℕ) → at sources.old i ≡ 0 }
    ensures { AreSources numbers.now wired.now sources.new }
{
    for w in wired {
        match place_among(numbers, w.0) {
            Some(i) => add_at(sources, i, w.1),
            None => {}
        }
    }
}

/// How many sources are wired to each interrupt.
pub(crate) fn all_sources(
    alloc: Global,
    numbers: &[u32],
    wired: &[(u32, u32)],
) -> Result<Vec<usize>, AllocError>
    requires counts { sum_by (λ w. w.1) wired.now ≤ 4096 }
    requires ascending { IsStrictlyIncreasing numbers.now }
    ensures { IfOk result (λ sources. AreSources numbers.now wired.now sources.items) }
{
    let mut sources: Vec<usize> = vec![in alloc; 0; numbers.len()]?;
    add_all(&mut sources, numbers, wired);
    Ok(sources)
}
