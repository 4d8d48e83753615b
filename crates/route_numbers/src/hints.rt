//! Hints of places: one for each remainder of a number. A hint that is wrong does no harm.
ghost use Rattle.std.specs.Prelude.{◌≡◌, ◌<◌, IfSome, length, slice_index_or};

/// How many hints there are. Most machines have fewer interrupts.
pub(crate) const HINTS: usize = 256;

/// Looks for a number where the hint of its remainder says.
pub(crate) fn hinted(numbers: &[u32], hints: &[usize], n: u32) -> Option<usize>
    requires { length hints.now ≡ 256 }
    ensures { IfSome result (λ i. (i < length numbers.now) × (slice_index_or numbers.now i 0 ≡ n)) }
{
    let i = hints[n as usize % HINTS];
    if i < numbers.len() && numbers[i] == n {
        return Some(i);
    }
    None
}

/// Keeps the places of all numbers as hints.
pub(crate) fn keep_hints(hints: &mut [usize], numbers: &[u32])
    requires { length hints.old ≡ 256 }
{
    for i in 0..numbers.len() {
        hints[numbers[i] as usize % HINTS] = i;
    }
}
