//! Binary coded decimal: each hexadecimal digit of a number is a decimal one (ACPI 6.5, 19.6.137, and FromBCD).
ghost use Rattle.std.specs.Prelude.{◌≡◌, ◌≤◌, ◌<◌, ◌^◌, ◌*◌};
ghost use Rattle.ar_space.specs.Outcome.{NotMemory};
ghost use Rattle.aml_convert.specs.Integers.{bytes_of};
ghost use Rattle.aml_convert.specs.Decimals.{respelled, is_coded_decimal, decoded_decimal, coded_decimal};

use ar_space::{IntegerWidth, Refusal, Result, ValueFault};

/// The least number that has more than 8 decimal digits.
const TOO_LARGE_FOR_32_BITS: u64 = 100_000_000;
/// The least number that has more than 16 decimal digits.
const TOO_LARGE_FOR_64_BITS: u64 = 10_000_000_000_000_000;

/// FromBCD: the number that the hexadecimal digits of another spell in decimal.
///
/// A digit above 9 is refused as `WrongType`.
pub fn decode_decimal(number: u64) -> Result<u64>
    ensures answer { result ≡ decoded_decimal number }
    ensures memory { NotMemory result }
{
    if !is_coded_decimal(number) {
        return Err(Refusal::Value(ValueFault::WrongType));
    }
    Ok(respelled(number, 16, 10))
}

/// ToBCD: the number that the decimal digits of another spell in hexadecimal (ACPI 6.5, 19.6.137).
///
/// A number of more than 8 or 16 decimal digits is refused as `WrongType`.
pub fn code_decimal(width: IntegerWidth, number: u64) -> Result<u64>
    ensures answer { result ≡ coded_decimal width number }
    ensures memory { NotMemory result }
{
    if number >= too_large(width) {
        return Err(Refusal::Value(ValueFault::WrongType));
    }
    Ok(respelled(number, 10, 16))
}

/// The least number with more decimal digits than an integer has hexadecimal ones.
fn too_large(width: IntegerWidth) -> u64
    ensures value { result ≡ 10 ^ (2 * bytes_of width) }
    ensures bound { result ≤ 10 ^ 16 }
{
    match width {
        IntegerWidth::Bits32 => TOO_LARGE_FOR_32_BITS,
        IntegerWidth::Bits64 => TOO_LARGE_FOR_64_BITS,
    }
}

/// Whether each hexadecimal digit is a decimal one.
fn is_coded_decimal(number: u64) -> bool
    ensures { result ≡ is_coded_decimal number }
{
    let mut rest = number;
    while rest > 0 {
        if rest % 16 > 9 {
            return false;
        }
        rest /= 16;
    }
    true
}

/// The number that the digits of another, in one base, spell in a second base.
fn respelled(number: u64, from: u64, to: u64) -> u64
    requires from_base { 2 ≤ from }
    requires to_base { 1 ≤ to }
    requires fits { respelled from to number < 2 ^ 64 }
    ensures { result ≡ respelled from to number }
{
    if number == 0 {
        return 0;
    }
    respelled(number / from, from, to) * to + number % from
}
