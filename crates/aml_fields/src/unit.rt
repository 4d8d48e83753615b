//! Units: what one access of a field reads or writes (ACPI 6.5, 19.6.46).
ghost use Rattle.std.specs.Prelude.{◌≡◌, ◌≤◌, ◌+◌, ◌*◌, ◌^◌, ◌<◌, length, take, drop};
ghost use Rattle.aml_objects.specs.declared.entry.UpdateRule.TheVariants.{WriteAsOnes};
ghost use Rattle.aml_fields.specs.Bits.{bits_of, bits_from, field_bits, put, extended, bytes_within, number_of};
ghost use Rattle.aml_fields.specs.Bits.{rest_of_unit, merged};

use crate::bits::copy_bits;
use aml_objects::UpdateRule;
use ar_space::Width;
use byteorder::{ByteOrder, LittleEndian};

/// What a unit is written with where the field isn't: what was read from it, ones, or zeros.
pub(crate) fn rest_of_unit(update: UpdateRule, width: Width, old: u64) -> u64
    ensures { result ≡ rest_of_unit update width old }
{
    match update {
        UpdateRule::Preserve => old,
        UpdateRule::WriteAsOnes => ones(width),
        UpdateRule::WriteAsZeros => 0,
    }
}

/// A unit with all bits set.
fn ones(width: Width) -> u64
    ensures { result ≡ rest_of_unit WriteAsOnes width 0 }
{
    match width {
        Width::W8 => 0xFF,
        Width::W16 => 0xFFFF,
        Width::W32 => 0xFFFF_FFFF,
        Width::W64 => 0xFFFF_FFFF_FFFF_FFFF,
    }
}

/// The bytes of a unit, the lowest first.
pub fn bytes_of(unit: u64) -> [u8; 8]
    ensures bits { bits_of result ≡ bits_from unit 0 64 }
    ensures bytes { result ≡ bytes_within 8 (bits_from unit 0 64) }
{
    let mut bytes = [0; 8];
    LittleEndian::write_u64(&mut bytes, unit);
    bytes
}

/// The unit of some bytes, the lowest first.
fn unit_of(bytes: &[u8]) -> u64
    requires { length bytes.now ≡ 8 }
    ensures { result ≡ number_of (bits_of bytes.now) }
{
    LittleEndian::read_u64(bytes)
}

/// What a unit is written with: `count` bits of `source`, from the bit `from` on, stand in it from the bit `first`
/// on, and the other bits are what was read from it (`old`), ones or zeros, as the update rule says.
pub fn merge(
    update: UpdateRule,
    width: Width,
    old: u64,
    first: usize,
    source: &[u8],
    from: usize,
    count: usize,
) -> u64
    requires inside { first + count ≤ 64 }
    requires from { from + count < 2 ^ 64 }
    ensures { result ≡ merged (rest_of_unit update width old) first (field_bits source.now from count) }
{
    let mut unit = bytes_of(rest_of_unit(update, width, old));
    copy_bits(&mut unit, first, source, from, count);
    unit_of(&unit)
}

/// Copies `count` bits of a unit that was read, from the bit `first` on, over those of `target` from the bit `to` on.
pub fn copy_from_unit(target: &mut [u8], to: usize, unit: u64, first: usize, count: usize)
    requires unit { first + count ≤ 64 }
    requires inside { to + count ≤ 8 * length target.old }
    requires to { to + count < 2 ^ 64 }
    ensures bits { bits_of target.new ≡ put to (extended count (drop first (bits_from unit 0 64)))
        (bits_of target.old) }
    ensures bytes { target.new ≡ bytes_within (length target.old)
        (put to (extended count (drop first (bits_from unit 0 64))) (bits_of target.old)) }
    ensures len { length target.new ≡ length target.old }
{
    copy_bits(target, to, &bytes_of(unit), first, count);
}
