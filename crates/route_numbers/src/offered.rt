//! All interrupts that links offer.
ghost use Rattle.std.specs.Prelude.{◌≡◌, ◌<◌, ◌⊎◌, ℕ, Contains, IfOk, IfSome, OnOk, length, slice_index_or};
ghost use Rattle.std.specs.List.Sorted.{IsStrictlyIncreasing};
ghost use Rattle.route_model.specs.Links.{offers_of};
ghost use Rattle.route_numbers.specs.Numbers.{AreTheOffered};

use crate::ascending::put_in_order;
use crate::hints::{HINTS, hinted};
use route_model::Link;
use std::alloc::{AllocError, Global};

/// Looks for a number among the first so many, where it is found if these ascend.
fn among_first(numbers: &[u32], count: usize, n: u32) -> Option<usize>
    ensures { IfSome result (λ i. (i < length numbers.now) × (slice_index_or numbers.now i 0 ≡ n)) }
{
    let first = &numbers[..count.min(numbers.len())];
    match first.binary_search(&n) {
        Ok(i) if numbers[i] == n => Some(i),
        _ => None,
    }
}

/// Adds a number that a link offers, unless it is seen to be there, and keeps its place as a hint.
fn add_offer(
    numbers: &mut Vec<u32>,
    hints: &mut [usize],
    count: usize,
    n: u32,
) -> Result<(), AllocError>
    requires { length hints.old ≡ 256 }
    ensures kept { OnOk result ((m : ℕ) → Contains numbers.old.items m → Contains numbers.new.items m) }
    ensures added { OnOk result (Contains numbers.new.items n) }
    ensures only { OnOk result ((m : ℕ) → Contains numbers.new.items m → Contains numbers.old.items m ⊎ (n ≡ m)) }
{
    match hinted(numbers, hints, n) {
        Some(_) => return Ok(()),
        None => {}
    }
    match among_first(numbers, count, n) {
        Some(i) => hints[n as usize % HINTS] = i,
        None => {
            hints[n as usize % HINTS] = numbers.len();
            numbers.push(n)?;
        }
    }
    Ok(())
}

/// Adds what a link offers, except what is seen to be there.
fn add_offers(
    numbers: &mut Vec<u32>,
    hints: &mut [usize],
    count: usize,
    offers: &[u32],
) -> Result<(), AllocError>
    requires { length hints.old ≡ 256 }
    ensures kept { OnOk result ((n : ℕ) → Contains numbers.old.items n → Contains numbers.new.items n) }
    ensures added { OnOk result ((n : ℕ) → Contains offers.now n → Contains numbers.new.items n) }
    ensures only { OnOk result ((n : ℕ) → Contains numbers.new.items n → Contains numbers.old.items n ⊎
        Contains offers.now n) }
{
    for n in offers {
        add_offer(numbers, hints, count, *n)?;
    }
    Ok(())
}

/// Adds what a link offers to numbers of which the first so many ascend, and gives how many do then: all, if they are
/// at least 512 and at least twice as many.
fn add_and_sort(
    numbers: &mut Vec<u32>,
    hints: &mut [usize],
    count: usize,
    offers: &[u32],
) -> Result<usize, AllocError>
    requires { length hints.old ≡ 256 }
    ensures kept { OnOk result ((n : ℕ) → Contains numbers.old.items n → Contains numbers.new.items n) }
    ensures added { OnOk result ((n : ℕ) → Contains offers.now n → Contains numbers.new.items n) }
    ensures only { OnOk result ((n : ℕ) → Contains numbers.new.items n → Contains numbers.old.items n ⊎
        Contains offers.now n) }
{
    add_offers(numbers, hints, count, offers)?;
    if numbers.len() / 2 < count.max(HINTS) {
        return Ok(count);
    }
    put_in_order(numbers)?;
    Ok(numbers.len())
}

/// All interrupts that a link offers, ascending.
pub fn all_offered(alloc: Global, links: &[Link]) -> Result<Vec<u32>, AllocError>
    ensures ascending { IfOk result (λ numbers. IsStrictlyIncreasing numbers.items) }
    ensures all { IfOk result (λ numbers. AreTheOffered (offers_of links.now) numbers.items) }
{
    let mut numbers = Vec::with_capacity(alloc, HINTS)?;
    let mut hints = [0usize; HINTS];
    let mut count = 0;
    for link in links {
        count = add_and_sort(&mut numbers, &mut hints, count, link.offers())?;
    }
    put_in_order(&mut numbers)?;
    Ok(numbers)
}
