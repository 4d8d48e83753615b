//! Fields read and written as numbers (ACPI 6.5, 19.6.46): read where they lie within one unit. Nothing here takes
//! memory.
ghost use Rattle.std.specs.Prelude.{◌≡◌, ◌≤◌, ◌<◌, ◌+◌, ◌*◌, ◌/◌, ◌%◌, ◌^◌, ◌∷◌, [], ℕ, List, Ok, Err, true, false};
ghost use Rattle.std.specs.Prelude.{MatchOption, MatchBool, IfOk, IfErr, IfSome};
ghost use Rattle.ar_space.specs.Accesses.{bit_count};
ghost use Rattle.ar_space.specs.Change.{Does};
ghost use Rattle.ar_space.specs.Outcome.{NotMemory};
ghost use Rattle.aml_fields.specs.Bits.{bits_from, field_bits, packed, merged, rest_of_unit};
ghost use Rattle.aml_fields.specs.Regions.{read_field, write_field, write_unit};
ghost use Rattle.aml_fields.specs.Units.{units_of};

use crate::accesses::{kept, read_unit, write_access, write_field};
use crate::field_units::Unit;
use crate::region::Region;
use crate::unit::{bytes_of, rest_of_unit};
use aml_objects::FieldUnit;
use ar_space::{Result, Space, Width};

/// The number of the unit that holds a bit, and which bit of that unit it is.
#[inline]
fn unit_and_bit(bit: u64, width: Width) -> (u64, u64)
    ensures sum { result.0 * bit_count width + result.1 ≡ bit }
    ensures within { result.1 < bit_count width }
{
    match width {
        Width::W8 => (bit / 8, bit % 8),
        Width::W16 => (bit / 16, bit % 16),
        Width::W32 => (bit / 32, bit % 32),
        Width::W64 => (bit / 64, bit % 64),
    }
}

/// The unit of a field that lies within one, and has a bit at least.
#[inline]
fn one_unit(field: FieldUnit) -> Option<Unit>
    ensures units { IfSome result (λ unit. units_of field.bit_offset field.bits field.access ≡ unit ∷ []) }
    ensures inside { IfSome result (λ unit. unit.first + unit.count ≤ bit_count field.access) }
    ensures count { IfSome result (λ unit. unit.count ≡ field.bits) }
    ensures some { IfSome result (λ unit. 0 < unit.count) }
    ensures position { IfSome result (λ unit. unit.position ≡ 0) }
{
    let (_, first) = unit_and_bit(field.bit_offset, field.access);
    let count = u64::from(field.bits);
    if count == 0 || first + count > u64::from(field.access.bits()) {
        return None;
    }
    Some(Unit {
        offset: (field.bit_offset - first) / 8,
        first: first as usize,
        count: count as usize,
        position: 0,
    })
}

/// So many bits of a number, from one on.
#[inline]
fn bits_within(number: u64, first: usize, count: usize) -> u64
    requires some { 0 < count }
    requires within { first + count ≤ 64 }
    ensures { result ≡ number / 2 ^ first % 2 ^ count }
{
    let from = number >> first;
    if count == 64 {
        return from;
    }
    from % (1 << count)
}

/// The bits of a field that lies within one unit, as a number; none where it doesn't lie within one, and then nothing
/// is read.
///
/// One access reads it. It is refused as `read_field` is.
pub fn read_number<S: Space>(space: &mut S, region: Region, field: FieldUnit) -> Result<Option<u64>>
    ensures read { IfOk result (λ read. MatchOption read (space.new ≡ space.old)
        (λ number. Does (Ok (packed (bits_from number 0 field.bits))) space.new
        (read_field S.accesses region field) space.old)) }
    ensures refused { IfErr result (λ refusal. Does (Err refusal) space.new
        (read_field S.accesses region field) space.old) }
    ensures fits { IfOk result (λ read. IfSome read (λ number. (0 < field.bits) × (number < 2 ^ field.bits))) }
    ensures memory { NotMemory result }
{
    let Some(unit) = one_unit(field) else {
        return Ok(None);
    };
    match read_unit(space, region, field.access, unit) {
        Ok(value) => Ok(Some(bits_within(value, unit.first, unit.count))),
        Err(refusal) => Err(refusal),
    }
}

/// A unit with bits of a number in it, from one on; its other bits are those of what it was.
#[inline]
fn with_bits(old: u64, first: usize, count: usize, number: u64) -> u64
    requires some { 0 < count }
    requires within { first + count ≤ 64 }
    ensures { result ≡ merged old first (bits_from number 0 count) }
{
    if count == 64 {
        return number;
    }
    let low = bits_below(old, first);
    let high = old - bits_below(old, first + count);
    low + ((number % (1 << count)) << first) + high
}

/// The bits of a number that are below one.
#[inline]
fn bits_below(number: u64, bit: usize) -> u64
    requires { bit ≤ 64 }
    ensures value { result ≡ number % 2 ^ bit }
    ensures within { result ≤ number }
{
    if bit == 64 {
        return number;
    }
    number % (1 << bit)
}

/// Writes a number to a field: as many of its bits as the field has. It answers no where the field has more bits than
/// the number, and then nothing is written.
///
/// It is refused as `write_field` is.
pub fn write_number<S: Space>(
    space: &mut S,
    region: Region,
    field: FieldUnit,
    number: u64,
) -> Result<bool>
    ensures written { IfOk result (λ done. MatchBool done ((source : List ℕ) →
        field_bits source 0 field.bits ≡ bits_from number 0 field.bits →
        Does (Ok tt) space.new (write_field S.accesses region field source) space.old) (space.new ≡ space.old)) }
    ensures refused { IfErr result (λ refusal. (source : List ℕ) →
        field_bits source 0 field.bits ≡ bits_from number 0 field.bits →
        Does (Err refusal) space.new (write_field S.accesses region field source) space.old) }
    ensures memory { NotMemory result }
{
    let Some(unit) = one_unit(field) else {
        return write_units_of_number(space, region, field, number);
    };
    match write_in_unit(space, region, field, unit, number) {
        Ok(()) => Ok(true),
        Err(refusal) => Err(refusal),
    }
}

/// The same, unit by unit.
fn write_units_of_number<S: Space>(
    space: &mut S,
    region: Region,
    field: FieldUnit,
    number: u64,
) -> Result<bool>
    ensures written { IfOk result (λ done. MatchBool done ((source : List ℕ) →
        field_bits source 0 field.bits ≡ bits_from number 0 field.bits →
        Does (Ok tt) space.new (write_field S.accesses region field source) space.old) (space.new ≡ space.old)) }
    ensures refused { IfErr result (λ refusal. (source : List ℕ) →
        field_bits source 0 field.bits ≡ bits_from number 0 field.bits →
        Does (Err refusal) space.new (write_field S.accesses region field source) space.old) }
    ensures memory { NotMemory result }
{
    if field.bits > u64::BITS {
        return Ok(false);
    }
    match write_field(space, region, field, &bytes_of(number)) {
        Ok(()) => Ok(true),
        Err(refusal) => Err(refusal),
    }
}

/// Writes bits of a number to a unit.
#[tactic(auto, using(ar_space::proofs::Changes::changing), unfolding(crate::specs::Regions::write_unit))]
fn write_in_unit<S: Space>(
    space: &mut S,
    region: Region,
    field: FieldUnit,
    unit: Unit,
    number: u64,
) -> Result<()>
    requires some { 0 < unit.count }
    requires within { unit.first + unit.count ≤ 64 }
    ensures change { (source : List ℕ) → field_bits source unit.position unit.count ≡ bits_from number 0 unit.count →
        Does result space.new (write_unit S.accesses region field source unit) space.old }
    ensures memory { NotMemory result }
{
    let place = region.place(field.access, unit.offset)?;
    let old = kept(space, field, unit, place)?;
    let rest = rest_of_unit(field.update, field.access, old);
    let value = with_bits(rest, unit.first, unit.count, number);
    write_access(space, place, field.access, value)
}
