//! For each offered interrupt a row of 256 bits: bit l is set where link l offers it.
ghost use Rattle.std.specs.Prelude.{◌≡◌, ◌≤◌, ◌<◌, ◌*◌, ◌+◌, ◌⊎◌, ℕ, Contains, IfOk, length, slice_index_or};
ghost use Rattle.route_numbers.specs.Numbers.{lists_of};
ghost use Rattle.route_solve.specs.Rows.{bit_of, AreRows};
ghost use Rattle.route_model.specs.Placement.{Offers};

use std::alloc::{AllocError, Global};

/// Sets a bit of an interrupt's row.
pub(crate) fn set_bit(words: &mut [u64], i: usize, link: usize)
    requires within { 4 * i + 4 ≤ length words.old }
    requires link { link < 256 }
    ensures set { bit_of words.new i link ≡ 1 }
    ensures kept { (l j : ℕ) → bit_of words.old j l ≡ 1 → bit_of words.new j l ≡ 1 }
    ensures only { (l j : ℕ) → l < 256 → bit_of words.new j l ≡ 1 → (bit_of words.old j l ≡ 1) ⊎
        ((j ≡ i) × (l ≡ link)) }
{
    words[4 * i + link / 64] |= 1 << (link % 64);
}

/// Sets the bits of a link in the rows of what it offers.
fn add_link(words: &mut [u64], places: &[usize], link: usize)
    requires within { (i : ℕ) → Contains places.now i → 4 * i + 4 ≤ length words.old }
    requires link { link < 256 }
    ensures set { (i : ℕ) → Contains places.now i → bit_of words.new i link ≡ 1 }
    ensures kept { (l j : ℕ) → bit_of words.old j l ≡ 1 → bit_of words.new j l ≡ 1 }
    ensures only { (l j : ℕ) → l < 256 → bit_of words.new j l ≡ 1 → (bit_of words.old j l ≡ 1) ⊎
        (Contains places.now j × (l ≡ link)) }
{
    for i in places {
        set_bit(words, *i, link);
    }
}

/// Sets the bits of all links.
fn add_links(words: &mut [u64], places: &[Vec<usize>])
    requires few { length places.now ≤ 256 }
    requires within { (l i : ℕ) → Offers (lists_of places.now) l i → 4 * i + 4 ≤ length words.old }
    requires clear { (k : ℕ) → slice_index_or words.old k 0 ≡ 0 }
    ensures has { (l i : ℕ) → Offers (lists_of places.now) l i → bit_of words.new i l ≡ 1 }
    ensures only { (l i : ℕ) → l < 256 → bit_of words.new i l ≡ 1 → Offers (lists_of places.now) l i }
{
    for link in 0..places.len() {
        add_link(words, &places[link], link);
    }
}

/// The rows of the interrupts, four words for each.
pub(crate) fn all_rows(
    alloc: Global,
    numbers: &[u32],
    places: &[Vec<usize>],
) -> Result<Vec<u64>, AllocError>
    requires few { length places.now ≤ 256 }
    requires below { (l i : ℕ) → Offers (lists_of places.now) l i → i < length numbers.now }
    ensures { IfOk result (λ words. AreRows (lists_of places.now) (length numbers.now) words.items) }
{
    let mut words: Vec<u64> = vec![in alloc; 0; 4 * numbers.len()]?;
    add_links(&mut words, places);
    Ok(words)
}

/// The row of the interrupt at a place.
pub(crate) fn row_at(words: &[u64], i: usize) -> [u64; 4]
    requires { 4 * i + 4 ≤ length words.now }
    ensures words { (k : ℕ) → k < 4 → slice_index_or result k 0 ≡ slice_index_or words.now (4 * i + k) 0 }
    ensures four { length result ≡ 4 }
{
    [
        words[4 * i],
        words[4 * i + 1],
        words[4 * i + 2],
        words[4 * i + 3],
    ]
}
