//! The links and interrupts that show why no assignment is less busy.
ghost use Rattle.std.specs.Prelude.{◌≡◌, ◌==◌, ◌≤◌, ◌<◌, ◌+◌, ◌*◌, ◌⊎◌, ℕ, List, [], Contains, MatchOption, Option};
ghost use Rattle.std.specs.Prelude.{filter, length, map, slice_index_or, sum_by, true};
ghost use Rattle.std.specs.Bool.{OnFalse, OnTrue};
ghost use Rattle.std.specs.List.{range_with_len};
ghost use Rattle.std.specs.List.Sorted.{IsStrictlyIncreasing};
ghost use Rattle.route_model.specs.Links.{offers_of};
ghost use Rattle.route_model.specs.Routing.{wired_to};
ghost use Rattle.route_model.specs.Placement.{is_reached};
ghost use Rattle.route_solve.specs.Fits.{IsSolvable};
ghost use Rattle.route_solve.specs.Graphs.{HasNumbers, IsGreatestWired, IsLeastLimitFor};
ghost use Rattle.route_solve.specs.Marks.{is_offered_by, HasAll};
ghost use Rattle.route_numbers.specs.Numbers.{AreTheOffered};
ghost use Rattle.route_solve.specs.Rows.{bit_of, HasBit, HasRows};
ghost use Rattle.route_model.specs.Bound.{IsLowerBound};
ghost use Rattle.route_solve.specs.Shown.{Shown};

use crate::assign::Offered;
use crate::left::next_left;
use crate::rows::set_bit;
use crate::sources::wired_sources;
use route_numbers::place_from;

fn is_marked(marks: &[bool], link: usize) -> bool
    ensures { result ≡ is_reached marks.now link }
{
    link < marks.len() && marks[link]
}

/// Puts the marked links into a row of bits.
fn mark_row(row: &mut [u64], marks: &[bool])
    requires four { length row.old ≡ 4 }
    requires few { length marks.now ≤ 256 }
    ensures all { (l : ℕ) → is_reached marks.now l ≡ true → bit_of row.new 0 l ≡ 1 }
    ensures only { (l : ℕ) → l < 256 → bit_of row.new 0 l ≡ 1 → is_reached marks.now l ≡ true }
{
    row.fill(0);
    for l in 0..marks.len() {
        if is_marked(marks, l) {
            set_bit(row, 0, l);
        }
    }
}

/// Whether a link of a row of bits offers the interrupt at a place.
fn offers_at(rows: &[u64], row: &[u64], i: usize) -> bool
    requires four { length row.now ≡ 4 }
    requires within { 4 * i + 4 ≤ length rows.now }
    ensures yes { OnTrue result ((l : ℕ) × HasBit row.now l × (bit_of rows.now i l ≡ 1)) }
    ensures no { OnFalse result ((l : ℕ) → l < 256 → HasBit row.now l → bit_of rows.now i l ≡ 1 → ⊥) }
{
    for w in 0..4 {
        match next_left(row, rows, i, w) {
            Some(_) => return true,
            None => {}
        }
    }
    false
}

/// Whether a marked link offers an interrupt, whose place is known if any link does.
fn is_offered(
    offered: &Offered<'_>,
    marks: &[bool],
    row: &[u64],
    n: u32,
    place: Option<usize>,
) -> bool
    requires few { length offered.now.problem.now.links ≤ 256 }
    requires numbers { HasNumbers offered.now }
    requires four { length row.now ≡ 4 }
    requires all { (l : ℕ) → is_reached marks.now l ≡ true → bit_of row.now 0 l ≡ 1 }
    requires only { (l : ℕ) → l < 256 → bit_of row.now 0 l ≡ 1 → is_reached marks.now l ≡ true }
    requires place { MatchOption place (Contains offered.now.numbers.now n →
        ⊥) (λ i. (i < length offered.now.numbers.now) × (slice_index_or offered.now.numbers.now i 0 ≡ n)) }
    ensures { result ≡ is_offered_by (offers_of offered.now.problem.now.links) marks.now n }
{
    match place {
        Some(i) => offers_at(offered.rows, row, i),
        None => false,
    }
}

/// The place after one that was found.
fn place_after(place: Option<usize>, next: usize) -> usize {
    match place {
        Some(i) => i.saturating_add(1),
        None => next,
    }
}

/// Keeps the marked links.
fn keep_marked(places: &mut Vec<usize>, marks: &[bool])
    ensures { places.new.items ≡ filter (is_reached marks.now) places.old.items }
{
    let mut kept = 0;
    for i in 0..places.len() {
        let l = places[i];
        if is_marked(marks, l) {
            places[kept] = l;
            kept += 1;
        }
    }
    places.truncate(kept);
}

/// Keeps what the marked links offer.
fn keep_offered(interrupts: &mut Vec<u32>, offered: &Offered<'_>, marks: &[bool])
    requires few { length offered.now.problem.now.links ≤ 256 }
    requires marks { length marks.now ≡ length offered.now.problem.now.links }
    requires numbers { HasNumbers offered.now }
    ensures { interrupts.new.items ≡ filter (is_offered_by (offers_of offered.now.problem.now.links) marks.now)
        interrupts.old.items }
{
    let mut row = [0u64; 4];
    mark_row(&mut row, marks);
    let mut kept = 0;
    let mut next = 0;
    for i in 0..interrupts.len() {
        let n = interrupts[i];
        let place = place_from(offered.numbers, next, n);
        next = place_after(place, next);
        if is_offered(offered, marks, &row, n, place) {
            interrupts[kept] = n;
            kept += 1;
        }
    }
    interrupts.truncate(kept);
}

/// Keeps the interrupts with so many wired sources.
fn keep_busy(interrupts: &mut Vec<u32>, wired: &[(u32, u32)], count: usize)
    requires counts { sum_by (λ w. w.1) wired.now ≤ 4096 }
    requires ascending { IsStrictlyIncreasing (map (λ w. w.0) wired.now) }
    ensures { interrupts.new.items ≡ filter (λ n. wired_to wired.now n == count) interrupts.old.items }
{
    let mut kept = 0;
    for i in 0..interrupts.len() {
        let n = interrupts[i];
        if wired_sources(wired, n) == count {
            interrupts[kept] = n;
            kept += 1;
        }
    }
    interrupts.truncate(kept);
}

/// Makes of all places and all interrupts the set that is to be shown: where the limit is above the greatest wired
/// count, the Hall set that was reached, and all that it offers.
pub(crate) fn show(
    offered: &Offered<'_>,
    reached: &[bool],
    floor: usize,
    limit: usize,
    places: &mut Vec<usize>,
    interrupts: &mut Vec<u32>,
)
    requires fits { IsSolvable offered.now.problem.now }
    requires numbers { HasNumbers offered.now }
    requires floor { IsGreatestWired offered.now.problem.now.wired floor }
    requires limit { IsLeastLimitFor offered.now.problem.now floor limit reached.now }
    requires places { places.old.items ≡ range_with_len 0 (length offered.now.problem.now.links) }
    requires ascending { IsStrictlyIncreasing interrupts.old.items }
    requires all { HasAll (offers_of offered.now.problem.now.links) offered.now.problem.now.wired interrupts.old.items }
    ensures shown { Shown (offers_of offered.now.problem.now.links) offered.now.problem.now.wired limit
        places.new.items interrupts.new.items }
    ensures bound { (limit ≡ 0) ⊎ IsLowerBound (offers_of offered.now.problem.now.links) offered.now.problem.now.wired
        limit places.new.items interrupts.new.items }
{
    if limit == 0 {
        places.clear();
        interrupts.clear();
    } else if limit == floor {
        places.clear();
        keep_busy(interrupts, offered.problem.wired(), limit);
        interrupts.truncate(1);
    } else {
        keep_marked(places, reached);
        keep_offered(interrupts, offered, reached);
    }
}
