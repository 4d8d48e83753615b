//! How many sources each offered interrupt serves.
ghost use Rattle.std.specs.Prelude.{◌≡◌, ◌≤◌, ◌<◌, ◌+◌, ◌^◌, ℕ, IfOk, length, slice_set};
ghost use Rattle.std.specs.List.Sorted.{IsStrictlyIncreasing};
ghost use Rattle.route_model.specs.Routing.{given};
ghost use Rattle.route_spread.specs.Marks.{at};
ghost use Rattle.route_numbers.specs.Numbers.{AreSources};

use route_numbers::place_among;
use std::alloc::{AllocError, Global};

/// Adds sources to those of the interrupt at a place.
fn add_at(loads: &mut [u128], i: usize, more: u32)
    requires known { i < length loads.old }
    requires few { at loads.old i ≤ 2 ^ 100 }
    ensures added { loads.new ≡ slice_set loads.old i (at loads.old i + more) }
    ensures small { more < 2 ^ 32 }
{
    loads[i] += u128::from(more);
}

/// Adds all wired sources of the offered interrupts.
pub(crate) fn add_wired(loads: &mut [u128], numbers: &[u32], wired: &[(u32, u32)])
    requires ascending { IsStrictlyIncreasing numbers.now }
    requires long { length loads.old ≡ length numbers.now }
    requires none { (i : ℕ) → at loads.old i ≡ 0 }
    ensures sources { AreSources numbers.now wired.now loads.new }
    ensures small { (i : ℕ) → at loads.new i ≤ 2 ^ 96 }
{
    for w in wired {
        match place_among(numbers, w.0) {
            Some(i) => add_at(loads, i, w.1),
            None => {}
        }
    }
}

/// Adds the links, each to the interrupt that it has.
pub(crate) fn add_links(loads: &mut [u128], choice: &[usize])
    requires known { (k : ℕ) → k < length choice.now → at choice.now k < length loads.old }
    requires small { (i : ℕ) → at loads.old i ≤ 2 ^ 96 }
    ensures added { (i : ℕ) → i < length loads.old → at loads.new i ≡ at loads.old i + given choice.now i }
    ensures small { (i : ℕ) → at loads.new i ≤ 2 ^ 100 }
{
    for i in choice {
        add_at(loads, *i, 1);
    }
}
