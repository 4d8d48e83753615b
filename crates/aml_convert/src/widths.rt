//! How many bits an integer has (ACPI 6.5, 19.3.5).
ghost use Rattle.std.specs.Prelude.{◌≡◌, ◌^◌, ◌<◌, ◌-◌};
ghost use Rattle.aml_convert.specs.Integers.{bits_of, bytes_of, truncated, ones};

use ar_space::IntegerWidth;

/// How many numbers an integer of 32 bits can be.
const NUMBERS_OF_32_BITS: u128 = 0x1_0000_0000;
/// How many numbers an integer of 64 bits can be.
const NUMBERS_OF_64_BITS: u128 = 0x1_0000_0000_0000_0000;

/// How many bits an integer has.
pub(crate) fn bits(width: IntegerWidth) -> u64
    ensures { result ≡ bits_of width }
{
    match width {
        IntegerWidth::Bits32 => 32,
        IntegerWidth::Bits64 => 64,
    }
}

/// How many bytes an integer has.
pub(crate) fn bytes(width: IntegerWidth) -> usize
    ensures { result ≡ bytes_of width }
{
    match width {
        IntegerWidth::Bits32 => 4,
        IntegerWidth::Bits64 => 8,
    }
}

/// How many numbers an integer can be.
pub(crate) fn numbers(width: IntegerWidth) -> u128
    ensures { result ≡ 2 ^ bits_of width }
{
    match width {
        IntegerWidth::Bits32 => NUMBERS_OF_32_BITS,
        IntegerWidth::Bits64 => NUMBERS_OF_64_BITS,
    }
}

/// The integer with all bits set, which is True.
pub(crate) fn ones(width: IntegerWidth) -> u64
    ensures { result ≡ ones width }
{
    match width {
        IntegerWidth::Bits32 => 0xFFFF_FFFF,
        IntegerWidth::Bits64 => 0xFFFF_FFFF_FFFF_FFFF,
    }
}

/// What an integer keeps of a number: its lowest 32 or 64 bits.
pub fn truncate(width: IntegerWidth, number: u128) -> u64
    ensures value { result ≡ truncated width number }
    ensures within { result < 2 ^ bits_of width }
{
    match width {
        IntegerWidth::Bits32 => (number % NUMBERS_OF_32_BITS) as u64,
        IntegerWidth::Bits64 => (number % NUMBERS_OF_64_BITS) as u64,
    }
}

/// What an integer keeps of a number of 64 bits.
pub fn truncate_integer(width: IntegerWidth, number: u64) -> u64
    ensures value { result ≡ truncated width number }
    ensures within { result < 2 ^ bits_of width }
{
    match width {
        IntegerWidth::Bits32 => number % (NUMBERS_OF_32_BITS as u64),
        IntegerWidth::Bits64 => number,
    }
}
