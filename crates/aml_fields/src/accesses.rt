//! Reads and writes of fields, unit by unit (ACPI 6.5, 19.6.46).
ghost use Rattle.std.specs.Prelude.{◌≡◌, ◌+◌, ◌≤◌, ◌<◌, ◌^◌};
ghost use Rattle.ar_space.specs.Outcome.{NotMemory, seen};
ghost use Rattle.ar_space.specs.Change.{Does, DoesInPlace};
ghost use Rattle.aml_fields.specs.Regions.{read_access, read_unit, write_access, write_whole, write_unit, write_field};
ghost use Rattle.aml_fields.specs.Regions.{read_field};
ghost use Rattle.aml_fields.specs.UnitByUnit.{kept, kept_by, write_units, bits_read};

use crate::bits::bytes_for;
use crate::field_units::{Unit, units};
use crate::region::Region;
use crate::unit::{copy_from_unit, merge};
use aml_objects::{FieldUnit, UpdateRule};
use ar_space::{Place, Refusal, Result, Space, Width};
use std::alloc::Global;

/// One access that reads.
#[tactic(auto, unfolding(crate::specs::Regions::read_access))]
fn read_access<S: Space>(space: &mut S, place: Place, width: Width) -> Result<u64>
    ensures { DoesInPlace result space.new (read_access S.accesses place width) space.old }
{
    match space.read(place, width) {
        Ok(value) => Ok(value),
        Err(fault) => Err(Refusal::Space(fault)),
    }
}

/// One access that writes.
#[tactic(auto, unfolding(crate::specs::Regions::write_access))]
pub(crate) fn write_access<S: Space>(
    space: &mut S,
    place: Place,
    width: Width,
    value: u64,
) -> Result<()>
    ensures { DoesInPlace result space.new (write_access S.accesses place width value) space.old }
{
    match space.write(place, width, value) {
        Ok(()) => Ok(()),
        Err(fault) => Err(Refusal::Space(fault)),
    }
}

/// Reads a unit. One that doesn't lie within the region is refused as `RegionLimit` before its access.
#[tactic(auto, using(ar_space::proofs::Changes::changing), unfolding(crate::specs::Regions::read_unit))]
pub fn read_unit<S: Space>(space: &mut S, region: Region, width: Width, unit: Unit) -> Result<u64>
    ensures { DoesInPlace result space.new (read_unit S.accesses region width unit) space.old }
{
    let place = region.place(width, unit.offset)?;
    read_access(space, place, width)
}

/// Writes the unit with an offset from the region's start, with a number. One that doesn't lie within the region is
/// refused as `RegionLimit` before its access.
#[tactic(auto, using(ar_space::proofs::Changes::changing), unfolding(crate::specs::Regions::write_whole))]
pub fn write_whole<S: Space>(
    space: &mut S,
    region: Region,
    width: Width,
    offset: u64,
    value: u64,
) -> Result<()>
    ensures { DoesInPlace result space.new (write_whole S.accesses region width offset value) space.old }
{
    let place = region.place(width, offset)?;
    write_access(space, place, width, value)
}

/// What a unit holds that a write keeps: it is read where the field isn't all of it and the update rule is Preserve.
#[tactic(auto, unfolding(crate::specs::UnitByUnit::kept))]
pub(crate) fn kept<S: Space>(
    space: &mut S,
    field: FieldUnit,
    unit: Unit,
    place: Place,
) -> Result<u64>
    ensures { DoesInPlace result space.new (kept field unit (read_access S.accesses place field.access)) space.old }
{
    if unit.count == usize::from(field.access.bits()) {
        return Ok(0);
    }
    match field.update {
        UpdateRule::Preserve => read_access(space, place, field.access),
        UpdateRule::WriteAsOnes => Ok(0),
        UpdateRule::WriteAsZeros => Ok(0),
    }
}

/// Writes a unit.
#[tactic(auto, using(ar_space::proofs::Changes::changing), unfolding(crate::specs::Regions::write_unit))]
fn write_unit<S: Space>(
    space: &mut S,
    region: Region,
    field: FieldUnit,
    unit: Unit,
    source: &[u8],
) -> Result<()>
    requires inside { unit.first + unit.count ≤ 64 }
    requires position { unit.position + unit.count < 2 ^ 64 }
    ensures { DoesInPlace result space.new (write_unit S.accesses region field source.now unit) space.old }
{
    let place = region.place(field.access, unit.offset)?;
    let old = kept(space, field, unit, place)?;
    let value = merge(
        field.update,
        field.access,
        old,
        unit.first,
        source,
        unit.position,
        unit.count,
    );
    write_access(space, place, field.access, value)
}

/// Writes a field of an operation region: the bits of `source`, lowest first, cut or with zeros behind them.
///
/// Each unit is one access, lowest first; one that the field isn't all of is read before it is written where the
/// update rule is Preserve, and else its other bits are written as ones or as zeros. A unit that doesn't lie within
/// the region is refused as `RegionLimit` before its access. A fault of the space ends the write, and what was
/// written stays.
pub fn write_field<S: Space>(
    space: &mut S,
    region: Region,
    field: FieldUnit,
    source: &[u8],
) -> Result<()>
    ensures change { Does result space.new (write_field S.accesses region field source.now) space.old }
    ensures memory { NotMemory result }
{
    for unit in units(field.bit_offset, field.bits, field.access) {
        write_unit(space, region, field, unit, source)?;
    }
    Ok(())
}

/// A read of a field of an operation region: its bits, lowest first, as bytes.
///
/// Each unit is one access, lowest first. A unit that doesn't lie within the region is refused as `RegionLimit`
/// before its access. A fault of the space ends the read.
#[tactic(auto, using(ar_space::proofs::Changes::changing), unfolding(crate::specs::UnitByUnit::bits_read))]
pub fn read_field<S: Space>(
    alloc: Global,
    space: &mut S,
    region: Region,
    field: FieldUnit,
) -> Result<Vec<u8>>
    ensures { Does (seen (λ v. v.items) result) space.new (read_field S.accesses region field) space.old }
{
    let count = field.bits as usize;
    let mut bits = vec![in alloc; 0; bytes_for(count)]?;
    for unit in units(field.bit_offset, field.bits, field.access) {
        let value = read_unit(space, region, field.access, unit)?;
        copy_from_unit(&mut bits, unit.position, value, unit.first, unit.count);
    }
    Ok(bits)
}
