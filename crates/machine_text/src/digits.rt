//! Hexadecimal numbers.
ghost use Rattle.std.specs.Prelude.{◌≡◌, ◌≤◌, ◌<◌, ◌+◌, ◌*◌, length, Some, None, IfSome, option_and_then, option_map};
ghost use Rattle.std.specs.Prelude.{if◌then◌else◌};
ghost use Rattle.hex.specs.Hex.{hex_digit_value};
ghost use Rattle.machine_text.specs.Words.{number, number_from, word_bytes};

/// How many digits a number may have.
const MAX_DIGITS: usize = 16;

/// The value of each byte as a digit, of either case, or 255 where it is none.
const VALUES: [u8; 256] = [
    255, 255, 255, 255, 255, 255, 255, 255, 255, 255, 255, 255, 255, 255, 255, 255, 255, 255, 255,
    255, 255, 255, 255, 255, 255, 255, 255, 255, 255, 255, 255, 255, 255, 255, 255, 255, 255, 255,
    255, 255, 255, 255, 255, 255, 255, 255, 255, 255, 0, 1, 2, 3, 4, 5, 6, 7, 8, 9, 255, 255, 255,
    255, 255, 255, 255, 10, 11, 12, 13, 14, 15, 255, 255, 255, 255, 255, 255, 255, 255, 255, 255,
    255, 255, 255, 255, 255, 255, 255, 255, 255, 255, 255, 255, 255, 255, 255, 255, 10, 11, 12, 13,
    14, 15, 255, 255, 255, 255, 255, 255, 255, 255, 255, 255, 255, 255, 255, 255, 255, 255, 255,
    255, 255, 255, 255, 255, 255, 255, 255, 255, 255, 255, 255, 255, 255, 255, 255, 255, 255, 255,
    255, 255, 255, 255, 255, 255, 255, 255, 255, 255, 255, 255, 255, 255, 255, 255, 255, 255, 255,
    255, 255, 255, 255, 255, 255, 255, 255, 255, 255, 255, 255, 255, 255, 255, 255, 255, 255, 255,
    255, 255, 255, 255, 255, 255, 255, 255, 255, 255, 255, 255, 255, 255, 255, 255, 255, 255, 255,
    255, 255, 255, 255, 255, 255, 255, 255, 255, 255, 255, 255, 255, 255, 255, 255, 255, 255, 255,
    255, 255, 255, 255, 255, 255, 255, 255, 255, 255, 255, 255, 255, 255, 255, 255, 255, 255, 255,
    255, 255, 255, 255, 255, 255, 255, 255, 255, 255, 255, 255, 255, 255, 255, 255, 255, 255, 255,
    255, 255, 255,
];

/// The value of a digit, of either case.
fn digit(c: u8) -> Option<u64>
    ensures value { result ≡ hex_digit_value c }
    ensures small { IfSome result (λ d. d < 16) }
{
    let value = VALUES[c as usize];
    if value < 16 {
        Some(u64::from(value))
    } else {
        None
    }
}

/// The byte of two digits.
pub(crate) fn pair(high: u8, low: u8) -> Option<u8>
    ensures { result ≡ option_and_then (λ h. option_map (λ l. h * 16 + l) (hex_digit_value low))
        (hex_digit_value high) }
{
    let high = digit(high)?;
    let low = digit(low)?;
    Some((high * 16 + low) as u8)
}

/// Puts the bytes that pairs of digits stand for into `out`. `false` where a byte of the word is no digit; `out` is
/// then partly written.
pub(crate) fn decode(word: &[u8], out: &mut [u8]) -> bool
    requires { (0 < length out.old) × (length word.now ≡ 2 * length out.old) }
    ensures { word_bytes word.now ≡ (if result then Some out.new else None) }
{
    for i in 0..out.len() {
        match pair(word[2 * i], word[2 * i + 1]) {
            Some(byte) => out[i] = byte,
            None => return false,
        }
    }
    true
}

/// The number of 1 to 16 digits, where it is at most `most`.
#[tactic(auto, unfolding(crate::specs::Words::number))]
pub(crate) fn number(word: &[u8], most: u64) -> Option<u64>
    ensures value { result ≡ number most word.now }
    ensures within { IfSome result (λ n. n ≤ most) }
{
    if word.is_empty() || word.len() > MAX_DIGITS {
        return None;
    }
    let n = digits(word)?;
    if n <= most { Some(n) } else { None }
}

/// The number of some digits.
fn digits(word: &[u8]) -> Option<u64>
    requires { length word.now ≤ MAX_DIGITS }
    ensures { result ≡ number_from 0 word.now }
{
    let mut n = 0u64;
    for c in word {
        n = n * 16 + digit(*c)?;
    }
    Some(n)
}
