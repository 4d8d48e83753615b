//! Numbers that bytes write in digits.
ghost use Rattle.std.specs.Prelude.{◌≡◌, ◌<◌, IfSome};
ghost use Rattle.aml_convert.specs.Digits.{base_of, digit_value, leading_number};
ghost use Rattle.aml_convert.specs.declared.digits.Base.TheVariants.{Decimal, Hexadecimal};

use crate::widths::truncate;
use ar_space::IntegerWidth;

/// The base of the digits of a number.
#[derive(Clone, Copy, Debug, PartialEq, Eq)]
pub enum Base {
    Decimal,
    /// With letters of either case.
    Hexadecimal,
}

impl Base {
    fn number(self) -> u128
        ensures { result ≡ base_of self }
    {
        match self {
            Base::Decimal => 10,
            Base::Hexadecimal => 16,
        }
    }

    /// The value of a digit.
    fn value(self, byte: u8) -> Option<u128>
        ensures value { result ≡ digit_value self byte }
        ensures below { IfSome result (λ d. d < base_of self) }
    {
        match self {
            Base::Decimal => decimal_value(byte),
            Base::Hexadecimal => hexadecimal_value(byte),
        }
    }
}

fn decimal_value(byte: u8) -> Option<u128>
    ensures value { result ≡ digit_value Decimal byte }
    ensures below { IfSome result (λ d. d < 10) }
{
    match byte {
        b'0'..=b'9' => Some(u128::from(byte - b'0')),
        _ => None,
    }
}

fn hexadecimal_value(byte: u8) -> Option<u128>
    ensures value { result ≡ digit_value Hexadecimal byte }
    ensures below { IfSome result (λ d. d < 16) }
{
    match byte {
        b'0'..=b'9' => Some(u128::from(byte - b'0')),
        b'A'..=b'F' => Some(u128::from(byte - b'A') + 10),
        b'a'..=b'f' => Some(u128::from(byte - b'a') + 10),
        _ => None,
    }
}

/// The number of the digits that bytes begin with, as an integer keeps it; 0 where there are none.
pub(crate) fn leading_number(width: IntegerWidth, base: Base, bytes: &[u8]) -> u64
    ensures { result ≡ leading_number width base bytes.now }
{
    let mut number = 0u64;
    for byte in bytes {
        match base.value(*byte) {
            None => return number,
            Some(digit) => {
                number = truncate(width, u128::from(number) * base.number() + digit);
            }
        }
    }
    number
}
