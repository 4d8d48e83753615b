//! The links that a search has not come to: a bit for each, in four words.
ghost use Rattle.std.specs.Prelude.{◌≡◌, ◌≤◌, ◌<◌, ◌*◌, ◌+◌, ◌/◌, ◌%◌, ℕ, MatchOption, length};
ghost use Rattle.std.specs.Bool.{OnFalse};
ghost use Rattle.std.specs.Int.{bit_at};
ghost use Rattle.route_solve.specs.Ready.{IsCleared};
ghost use Rattle.route_solve.specs.Rows.{bit_of, HasBit};

/// The bits of a word for the links from one on, up to an end.
fn bits_between(low: usize, end: usize, w: usize) -> u64
    requires { w < 4 }
    ensures all { (j : ℕ) → j / 64 ≡ w → low ≤ j → j < end → bit_at result (j % 64) ≡ 1 }
    ensures only { (j : ℕ) → j / 64 ≡ w → bit_at result (j % 64) ≡ 1 → low ≤ j }
{
    if end <= 64 * w || end <= low || 64 * w + 64 <= low {
        return 0;
    }
    let first = low.saturating_sub(64 * w);
    if 64 * w + 64 <= end {
        return u64::MAX << first;
    }
    (1u64 << (end - 64 * w)) - (1u64 << first)
}

/// Begins with all links from one on, up to an end.
pub(crate) fn begin_left(left: &mut [u64], low: usize, end: usize)
    requires { length left.old ≡ 4 }
    ensures all { (j : ℕ) → j < 256 → low ≤ j → j < end → HasBit left.new j }
    ensures only { (j : ℕ) → HasBit left.new j → low ≤ j }
{
    for w in 0..4 {
        left[w] = bits_between(low, end, w);
    }
}

/// Whether any link is left.
pub(crate) fn has_left(left: &[u64]) -> bool
    ensures { OnFalse result ((j : ℕ) → HasBit left.now j → ⊥) }
{
    for word in left {
        if *word != 0 {
            return true;
        }
    }
    false
}

/// The first link of a word that is left and offers an interrupt.
pub(crate) fn next_left(left: &[u64], rows: &[u64], i: usize, w: usize) -> Option<usize>
    requires four { length left.now ≡ 4 }
    requires within { 4 * i + 4 ≤ length rows.now }
    requires word { w < 4 }
    ensures { MatchOption result ((j : ℕ) → j / 64 ≡ w → HasBit left.now j → bit_of rows.now i j ≡ 1 →
        ⊥) (λ j. (j / 64 ≡ w) × HasBit left.now j × (bit_of rows.now i j ≡ 1)) }
{
    let hits = rows[4 * i + w] & left[w];
    if hits == 0 {
        return None;
    }
    Some(64 * w + hits.trailing_zeros() as usize)
}

/// Takes a link out of those that are left.
pub(crate) fn clear_left(left: &mut [u64], link: usize)
    requires four { length left.old ≡ 4 }
    requires link { link < 256 }
    requires left { HasBit left.old link }
    ensures { IsCleared left.old left.new link }
{
    left[link / 64] &= !(1u64 << (link % 64));
}
