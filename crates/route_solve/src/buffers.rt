//! All places and all interrupts, in memory that the search takes its set from.
ghost use Rattle.std.specs.Prelude.{◌≡◌, ◌<◌, ℕ, IfOk, true};
ghost use Rattle.std.specs.List.{range_with_len};
ghost use Rattle.std.specs.List.Sorted.{IsStrictlyIncreasing};
ghost use Rattle.route_model.specs.Routing.{wired_to};
ghost use Rattle.route_numbers.specs.Numbers.{has};

use route_numbers::put_in_order;
use std::alloc::{AllocError, Global};

/// The numbers below n.
pub(crate) fn all_places(alloc: Global, n: usize) -> Result<Vec<usize>, AllocError>
    ensures { IfOk result (λ places. places.items ≡ range_with_len 0 n) }
{
    let mut places = Vec::with_capacity(alloc, n)?;
    for l in 0..n {
        places.push(l)?;
    }
    Ok(places)
}

/// The offered interrupts and those that are wired, ascending.
pub(crate) fn all_interrupts(
    alloc: Global,
    numbers: &[u32],
    wired: &[(u32, u32)],
) -> Result<Vec<u32>, AllocError>
    ensures ascending { IfOk result (λ interrupts. IsStrictlyIncreasing interrupts.items) }
    ensures offered { IfOk result (λ interrupts. (n : ℕ) → has numbers.now n ≡ true → has interrupts.items n ≡ true) }
    ensures sources { IfOk result (λ interrupts. (n : ℕ) → 0 < wired_to wired.now n → has interrupts.items n ≡ true) }
{
    let mut interrupts = Vec::with_capacity(alloc, numbers.len().saturating_add(wired.len()))?;
    interrupts.extend_from_slice(numbers)?;
    for w in wired {
        interrupts.push(w.0)?;
    }
    put_in_order(&mut interrupts)?;
    Ok(interrupts)
}
