//! Fields behind an index field and a data field, read for a caller outside of AML: the offset of each unit is
//! written to the index field first (ACPI 6.5, 19.6: IndexField).
ghost use Rattle.ar_space.specs.Change.{Does};
ghost use Rattle.ar_space.specs.Outcome.{seen};
ghost use Rattle.aml_fields.specs.UnitByUnit.{bits_read};
ghost use Rattle.aml_world.specs.fields.Fields.{index_unit, index_bits};
ghost use Rattle.aml_meaning.specs.Meaning.{meaning};
ghost use Rattle.aml_frames.specs.Uses.{asking};

use crate::fields::{region_bits, region_written};
use aml_fields::{Unit, bytes_for, bytes_of, copy_from_unit, units};
use aml_frames::unit_of;
use aml_meaning::Running;
use aml_objects::FieldUnit;
use aml_world::RegionField;
use ar_space::{Result, Space, Width};

/// The bits of a field behind the fields with these numbers of declarations.
#[tactic(auto, using(aml_meaning::proofs::Runs::running), unfolding(aml_world::specs::fields::Fields::index_bits))]
pub(crate) fn index_bits<S: Space>(
    run: &mut Running<S>,
    calls: usize,
    index: u64,
    behind: u64,
    field: FieldUnit,
) -> Result<Vec<u8>>
    ensures { Does (seen (λ v. v.items) result) run.new (index_bits S.accesses
        (asking S.accesses (meaning S.accesses) calls) index behind field) run.old }
{
    let index = run.world.field_declared(index)?;
    let behind = run.world.field_declared(behind)?;
    index_reads(run, calls, index, behind, field)
}

/// Each unit is read, lowest first.
#[tactic(auto, using(aml_meaning::proofs::Runs::running))]
fn index_reads<S: Space>(
    run: &mut Running<S>,
    calls: usize,
    index: RegionField,
    behind: RegionField,
    field: FieldUnit,
) -> Result<Vec<u8>>
    ensures { Does (seen (λ v. v.items) result) run.new (bits_read (index_unit S.accesses (asking S.accesses (meaning
        S.accesses) calls) index behind field.access) field) run.old }
{
    let mut bits = vec![in run.world.alloc; 0; bytes_for(field.bits as usize)]?;
    for unit in units(field.bit_offset, field.bits, field.access) {
        let value = index_unit(run, calls, index, behind, field.access, unit)?;
        copy_from_unit(&mut bits, unit.position, value, unit.first, unit.count);
    }
    Ok(bits)
}

/// One unit is read: its offset is written to the index field, and the data field is read.
#[tactic(auto, using(aml_meaning::proofs::Runs::running), unfolding(aml_world::specs::fields::Fields::index_unit))]
fn index_unit<S: Space>(
    run: &mut Running<S>,
    calls: usize,
    index: RegionField,
    behind: RegionField,
    width: Width,
    unit: Unit,
) -> Result<u64>
    ensures { Does result run.new (index_unit S.accesses (asking S.accesses (meaning S.accesses) calls) index behind
        width unit) run.old }
{
    region_written(run, calls, index, &bytes_of(unit.offset))?;
    let bytes = region_bits(run, calls, behind)?;
    Ok(unit_of(width, &bytes))
}
