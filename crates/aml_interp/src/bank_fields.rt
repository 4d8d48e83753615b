//! Fields of a bank, read for a caller outside of AML: the bank is selected before each unit is read (ACPI 6.5, 19.6:
//! BankField).
ghost use Rattle.std.specs.Prelude.{◌≡◌};
ghost use Rattle.ar_space.specs.Change.{Does};
ghost use Rattle.ar_space.specs.Outcome.{seen};
ghost use Rattle.aml_fields.specs.UnitByUnit.{bits_read};
ghost use Rattle.aml_world.specs.fields.Fields.{bank_selected, bank_unit, bank_bits};
ghost use Rattle.aml_meaning.specs.Meaning.{meaning};
ghost use Rattle.aml_frames.specs.Uses.{asking};

use crate::fields::{located, region_written};
use aml_fields::{Region, Unit, bytes_for, bytes_of, copy_from_unit, read_unit, units};
use aml_frames::Selector;
use aml_meaning::Running;
use aml_objects::{Bank, FieldUnit};
use ar_space::{Result, Space, Width};

/// The bits of a field in a bank of the region with the number of a declaration.
#[tactic(auto, using(aml_meaning::proofs::Runs::running), unfolding(aml_world::specs::fields::Fields::bank_bits))]
pub(crate) fn bank_bits<S: Space>(
    run: &mut Running<S>,
    calls: usize,
    region: u64,
    bank: Bank,
    field: FieldUnit,
) -> Result<Vec<u8>>
    ensures { Does (seen (λ v. v.items) result) run.new (bank_bits S.accesses
        (asking S.accesses (meaning S.accesses) calls) region bank field) run.old }
{
    let selector = Selector {
        field: run.world.field_declared(bank.field)?,
        value: bank.value,
    };
    let region = located(run, calls, region)?;
    bank_reads(run, calls, selector, region, field)
}

/// Each unit is read, lowest first.
#[tactic(auto, using(aml_meaning::proofs::Runs::running))]
fn bank_reads<S: Space>(
    run: &mut Running<S>,
    calls: usize,
    bank: Selector,
    region: Region,
    field: FieldUnit,
) -> Result<Vec<u8>>
    ensures { Does (seen (λ v. v.items) result) run.new (bits_read (bank_unit S.accesses
        (asking S.accesses (meaning S.accesses) calls) bank.field bank.value region field.access) field) run.old }
{
    let mut bits = vec![in run.world.alloc; 0; bytes_for(field.bits as usize)]?;
    for unit in units(field.bit_offset, field.bits, field.access) {
        let value = bank_unit(run, calls, bank, (region, field.access), unit)?;
        copy_from_unit(&mut bits, unit.position, value, unit.first, unit.count);
    }
    Ok(bits)
}

/// One unit is read: the bank is selected, and the unit with a width is read in the region.
#[tactic(auto, using(aml_meaning::proofs::Runs::running, crate::proofs::Lent::lent), //
unfolding(aml_world::specs::fields::Fields::bank_unit))]
fn bank_unit<S: Space>(
    run: &mut Running<S>,
    calls: usize,
    bank: Selector,
    lies_in: (Region, Width),
    unit: Unit,
) -> Result<u64>
    ensures { Does result run.new (bank_unit S.accesses (asking S.accesses (meaning S.accesses) calls) bank.field
        bank.value lies_in.0 lies_in.1 unit) run.old }
{
    let (region, width) = lies_in;
    select(run, calls, bank)?;
    read_unit(&mut run.world.space, region, width, unit)
}

/// The bank is selected: its value is written to the bank field. A value that the bank field can't hold is refused.
#[tactic(auto, using(aml_meaning::proofs::Runs::running), unfolding(aml_world::specs::fields::Fields::bank_selected))]
fn select<S: Space>(run: &mut Running<S>, calls: usize, bank: Selector) -> Result<()>
    ensures { Does result run.new (bank_selected S.accesses (asking S.accesses (meaning S.accesses) calls)
        bank.field bank.value) run.old }
{
    bank.field.must_hold(bank.value)?;
    region_written(run, calls, bank.field, &bytes_of(bank.value))
}
