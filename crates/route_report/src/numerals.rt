//! Decimal numbers.
ghost use Rattle.std.specs.Prelude.{◌≡◌, ◌≢◌, ◌+◌, ◌<◌, ◌^◌, ℕ, MatchOption, IfSome, decimal};
ghost use Rattle.route_report.specs.Lines.{number};

use itoa::Buffer;

/// The number below 2^32 that a word writes in decimal, without leading zeros.
#[tactic(auto, using(crate::proofs::Decimals::some_number, crate::proofs::Decimals::no_number))]
pub(crate) fn decimal_of(word: &[u8]) -> Option<u32>
    ensures { result ≡ number word.now }
{
    match of_up_to_three_digits(word) {
        Some(n) => Some(n),
        None => of_any_length(word),
    }
}

/// The value of a digit.
fn digit(c: u8) -> Option<u32>
    ensures { IfSome result (λ d. (d < 10) × (c ≡ 48 + d)) }
{
    if b'0' <= c && c <= b'9' {
        Some(u32::from(c - b'0'))
    } else {
        None
    }
}

/// A number of one to three digits, as most are in a report: it is read digit by digit, with no text made to compare
/// it with.
fn of_up_to_three_digits(word: &[u8]) -> Option<u32>
    ensures { IfSome result (λ n. word.now ≡ decimal n) }
{
    if word.is_empty() || word.len() > 3 {
        return None;
    }
    let first = digit(word[0])?;
    if word.len() == 1 {
        return Some(first);
    }
    let second = digit(word[1])?;
    if first == 0 {
        return None;
    }
    if word.len() == 2 {
        return Some(first * 10 + second);
    }
    let third = digit(word[2])?;
    Some((first * 10 + second) * 10 + third)
}

/// The number below 2^32 that a word of any length writes in decimal, without leading zeros. The number that is
/// parsed is written again, and that text compared with the word: so one with leading zeros or a sign is none.
fn of_any_length(word: &[u8]) -> Option<u32>
    ensures { MatchOption result ((n : ℕ) → n < 2 ^ 32 → word.now ≢ decimal n) (λ n. word.now ≡ decimal n) }
{
    let text = match std::str::from_utf8(word) {
        Ok(text) => text,
        Err(_) => return None,
    };
    match text.parse::<u32>() {
        Ok(n) => {
            let mut buffer = Buffer::new();
            if buffer.format(n) == text {
                Some(n)
            } else {
                None
            }
        }
        Err(_) => None,
    }
}
