//! The places of interrupts among ascending ones, and the interrupts at places.
ghost use Rattle.std.specs.Prelude.{◌≡◌, ◌<◌, ℕ, Contains, IfOk, MatchOption, length, map, slice_index_or};
ghost use Rattle.std.specs.List.Sorted.{IsStrictlyIncreasing};
ghost use Rattle.route_model.specs.Links.{offers_of};
ghost use Rattle.route_numbers.specs.Numbers.{lists_of, AreTheOffered, IsNumbered};

use crate::hints::{HINTS, keep_hints};
use route_model::Link;
use std::alloc::{AllocError, Global};

/// The place of a number among ascending ones, by binary search; none where it isn't there.
pub fn place_among(numbers: &[u32], n: u32) -> Option<usize>
    requires { IsStrictlyIncreasing numbers.now }
    ensures { MatchOption result (Contains numbers.now n → ⊥) (λ i. (i < length numbers.now) ×
        (slice_index_or numbers.now i 0 ≡ n)) }
{
    let mut low: usize = 0;
    let mut high: usize = numbers.len();
    while low < high {
        let middle = low + (high - low) / 2;
        if numbers[middle] == n {
            return Some(middle);
        }
        if numbers[middle] < n {
            low = middle + 1;
        } else {
            high = middle;
        }
    }
    None
}

/// The place of a number among ascending ones: looks at the place `from` first, then searches; none where it isn't
/// there.
pub fn place_from(numbers: &[u32], from: usize, n: u32) -> Option<usize>
    requires { IsStrictlyIncreasing numbers.now }
    ensures { MatchOption result (Contains numbers.now n → ⊥) (λ i. (i < length numbers.now) ×
        (slice_index_or numbers.now i 0 ≡ n)) }
{
    if from < numbers.len() && numbers[from] == n {
        return Some(from);
    }
    place_among(numbers, n)
}

/// The places of what a link offers: each has to be among `numbers`.
fn places_of(
    alloc: Global,
    numbers: &[u32],
    hints: &[usize],
    offers: &[u32],
) -> Result<Vec<usize>, AllocError>
    requires hints { length hints.now ≡ 256 }
    requires ascending { IsStrictlyIncreasing numbers.now }
    requires all { (n : ℕ) → Contains offers.now n → Contains numbers.now n }
    ensures below { IfOk result (λ places. (i : ℕ) → Contains places.items i → i < length numbers.now) }
    ensures named { IfOk result (λ places. map (λ i. slice_index_or numbers.now i 0) places.items ≡ offers.now) }
{
    let mut places = Vec::with_capacity(alloc, offers.len())?;
    for n in offers {
        match place_from(numbers, hints[*n as usize % HINTS], *n) {
            Some(i) => places.push(i)?,
            None => {}
        }
    }
    Ok(places)
}

/// For each link the places of what it offers.
pub fn all_places_offered(
    alloc: Global,
    numbers: &[u32],
    links: &[Link],
) -> Result<Vec<Vec<usize>>, AllocError>
    requires ascending { IsStrictlyIncreasing numbers.now }
    requires all { AreTheOffered (offers_of links.now) numbers.now }
    ensures { IfOk result (λ places. IsNumbered (offers_of links.now) numbers.now (lists_of places.items)) }
{
    let mut places = Vec::with_capacity(alloc, links.len())?;
    let mut hints = [0usize; HINTS];
    keep_hints(&mut hints, numbers);
    for link in links {
        places.push(places_of(alloc, numbers, &hints, link.offers())?)?;
    }
    Ok(places)
}

/// The places of the interrupts that a choice gives the links: each has to be among `numbers`.
pub fn all_places_chosen(
    alloc: Global,
    numbers: &[u32],
    choice: &[u32],
) -> Result<Vec<usize>, AllocError>
    requires ascending { IsStrictlyIncreasing numbers.now }
    requires all { (n : ℕ) → Contains choice.now n → Contains numbers.now n }
    ensures below { IfOk result (λ places. (i : ℕ) → Contains places.items i → i < length numbers.now) }
    ensures named { IfOk result (λ places. map (λ i. slice_index_or numbers.now i 0) places.items ≡ choice.now) }
{
    let mut hints = [0usize; HINTS];
    keep_hints(&mut hints, numbers);
    places_of(alloc, numbers, &hints, choice)
}

/// The interrupts at places.
pub fn all_numbers(alloc: Global, numbers: &[u32], places: &[usize]) -> Result<Vec<u32>, AllocError>
    requires { (k : ℕ) → k < length places.now → slice_index_or places.now k 0 < length numbers.now }
    ensures { IfOk result (λ list. list.items ≡ map (λ i. slice_index_or numbers.now i 0) places.now) }
{
    let mut list = Vec::with_capacity(alloc, places.len())?;
    for i in places {
        list.push(numbers[*i])?;
    }
    Ok(list)
}
