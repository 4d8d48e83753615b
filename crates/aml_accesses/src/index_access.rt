//! Accesses of fields behind an index field and a data field, one unit after another, lowest first (ACPI 6.5, 19.6:
//! IndexField). The offset of a unit is written to the index field before the data field is read or written, and each
//! of these accesses is waited for.
ghost use Rattle.std.specs.Prelude.{◌<◌, ◌+◌, ◌*◌, Ok};
ghost use Rattle.ar_space.specs.Outcome.{Answers};
ghost use Rattle.aml_world.specs.fields.Fields.{unit_bytes};
ghost use Rattle.aml_meaning.specs.Meaning.{meaning};
ghost use Rattle.aml_frames.specs.declared.indexed.UnitsLeft.TheVariants as units_left;
ghost use Rattle.aml_frames.specs.Follow.{number_written_then, ends};
ghost use Rattle.aml_frames.specs.Indexed.{field_accessed, reads_done, writes_done, unit_met, unit_given, unit_behind};
ghost use Rattle.aml_frames.specs.Indexed.{unit_chosen, unit_merged, indexed_done};
ghost use Rattle.aml_frames.specs.Weights.{reads_weight, writes_weight, left_weight, region_weight, field_weight};
ghost use Rattle.aml_frames.specs.Weights.{weight};
ghost use Rattle.aml_frames.specs.Steps.{Steps};

use crate::field_access::finish_read;
use aml_fields::{Unit, bytes_of, units};
use aml_frames::{
    Access, Accessed, Activation, Boxed, Doing, Frame, IndexedField, Next, Reading, UnitReads,
    UnitWrites, UnitsLeft, is_kept, merge_unit, put_unit, value_of_call, zeros,
};
use aml_meaning::{Flow, Running};
use aml_objects::{FieldUnit, Octets};
use aml_world::{RegionField, integer_only};
use ar_space::{Result, Space};
use std::alloc::Global;

/// The index field and the data field with these numbers of declarations are looked up, and the units of a field
/// behind them are accessed.
#[tactic(auto, using(crate::proofs::UnitSteps::indexed))]
pub(crate) fn begin_indexed<S: Space>(
    run: &mut Running<S>,
    act: &Activation,
    calls: usize,
    numbers: (u64, u64),
    access: (FieldUnit, Doing),
) -> Result<Next>
    ensures steps { Steps S.accesses (field_weight calls) result act.now run.new
        (indexed_done S.accesses (meaning S.accesses) calls numbers.0 numbers.1 access.0 access.1, act.now) run.old }
    ensures few { access.0.bits < 4294967296 }
{
    let (unit, doing) = access;
    let left = units(unit.bit_offset, unit.bits, unit.access);
    let index = run.world.field_declared(numbers.0)?;
    let behind = run.world.field_declared(numbers.1)?;
    let field = IndexedField {
        calls,
        index,
        behind,
        field: unit,
    };
    match doing {
        Doing::Read(reading) => {
            let bytes = zeros(run.world.alloc, unit.bits)?;
            let reads = UnitReads {
                field,
                reading,
                bytes,
                left,
            };
            next_read(run, act, reads)
        }
        Doing::Write(bytes) => next_write(run, act, UnitWrites { field, bytes, left }),
    }
}

/// The next unit is read: its offset is written to the index field first. Behind the last unit the bits are read as a
/// value.
#[tactic(auto, using(crate::proofs::UnitSteps::unit_by_unit))]
fn next_read<S: Space>(run: &mut Running<S>, act: &Activation, reads: UnitReads) -> Result<Next>
    ensures { Steps S.accesses (reads_weight reads + 4) result act.now run.new
        (reads_done S.accesses (meaning S.accesses) reads, act.now) run.old }
{
    let mut reads = reads;
    match reads.left.next() {
        None => finish_read(run, act, reads.reading, reads.field.field.bits, reads.bytes),
        Some(unit) => choose(run, act, UnitsLeft::Reads(reads), unit),
    }
}

/// The next unit is written; where bits of it are kept it is read first.
#[tactic(auto, using(crate::proofs::UnitSteps::unit_by_unit))]
pub fn next_write<S: Space>(
    run: &mut Running<S>,
    act: &Activation,
    writes: UnitWrites,
) -> Result<Next>
    ensures { Steps S.accesses (writes_weight writes + 4) result act.now run.new
        (writes_done S.accesses (meaning S.accesses) writes, act.now) run.old }
{
    let mut writes = writes;
    match writes.left.next() {
        None => Ok(Next::Flow(Flow::Next)),
        Some(unit) => {
            if is_kept(writes.field.field, unit) {
                choose(run, act, UnitsLeft::Writes(writes), unit)
            } else {
                write_over(run, act, writes, unit, 0)
            }
        }
    }
}

/// A unit is read: its offset is written to the index field.
#[tactic(auto, using(crate::proofs::UnitSteps::unit_by_unit))]
fn choose<S: Space>(
    run: &Running<S>,
    act: &Activation,
    units: UnitsLeft,
    unit: Unit,
) -> Result<Next>
    ensures { Steps S.accesses (left_weight units + 4 * region_weight (field_accessed units).calls + 2) result act.now
        run.now (unit_chosen S.accesses (meaning S.accesses) units unit, act.now) run.now }
{
    let field = units.field();
    let chosen = (field.index, unit.offset);
    let frame = Frame::UnitChosen(Boxed::new(run.world.alloc, units)?, unit);
    write_then(run, act, field.calls, chosen, frame)
}

/// The offset of a unit was written to the index field: the data field is read.
#[tactic(auto, using(crate::proofs::UnitSteps::unit_by_unit))]
pub fn read_chosen<S: Space>(
    run: &Running<S>,
    act: &Activation,
    units: Boxed<UnitsLeft>,
    unit: Unit,
) -> Result<Next>
    ensures { Steps S.accesses (left_weight units + 3 * region_weight (field_accessed units).calls + 2) result act.now
        run.now (unit_behind S.accesses (meaning S.accesses) units unit, act.now) run.now }
{
    let field = units.get().field();
    let access = Access {
        calls: field.calls,
        object: Accessed::Unit(field.behind),
        doing: Doing::Read(Reading::Unit(field.field.access)),
    };
    Ok(Next::AccessThen(
        Boxed::new(run.world.alloc, access)?,
        Frame::UnitRead(units, unit),
    ))
}

/// The data field was read: its bits are those of the unit. They are put where they are in the field, or kept by the
/// write.
#[tactic(auto, using(crate::proofs::UnitSteps::unit_by_unit))]
pub fn resume_unit<S: Space>(
    run: &mut Running<S>,
    act: &Activation,
    units: Boxed<UnitsLeft>,
    unit: Unit,
    flow: Flow,
) -> Result<Next>
    ensures { Steps S.accesses (left_weight units + 2 * region_weight (field_accessed units).calls + 4) result act.now
        run.new (unit_given S.accesses (meaning S.accesses) units unit flow, act.now) run.old }
{
    let number = integer_only(value_of_call(flow))?;
    match units.into_inner() {
        UnitsLeft::Reads(reads) => {
            let mut reads = reads;
            put_unit(&mut reads.bytes, unit, number);
            next_read(run, act, reads)
        }
        UnitsLeft::Writes(writes) => write_over(run, act, writes, unit, number),
    }
}

/// A unit is written that holds a number: its offset is written to the index field, again where the unit was read.
#[tactic(auto, using(crate::proofs::UnitSteps::unit_by_unit))]
fn write_over<S: Space>(
    run: &Running<S>,
    act: &Activation,
    writes: UnitWrites,
    unit: Unit,
    old: u64,
) -> Result<Next>
    ensures { Steps S.accesses (writes_weight writes + 2 * region_weight writes.field.calls + 2) result act.now run.now
        (unit_met S.accesses (meaning S.accesses) (units_left.Writes writes) unit old, act.now) run.now }
{
    let field = writes.field;
    let number = merge_unit(field.field, writes.bytes.as_slice(), unit, old);
    let again = (field.index, unit.offset);
    let frame = Frame::UnitMerged(Boxed::new(run.world.alloc, writes)?, number);
    write_then(run, act, field.calls, again, frame)
}

/// The offset of a unit was written to the index field: a number is written to the data field.
#[tactic(auto, using(crate::proofs::UnitSteps::unit_by_unit))]
pub fn write_merged<S: Space>(
    run: &Running<S>,
    act: &Activation,
    writes: Boxed<UnitWrites>,
    number: u64,
) -> Result<Next>
    ensures { Steps S.accesses (writes_weight writes + region_weight writes.field.calls + 2) result act.now run.now
        (unit_merged S.accesses (meaning S.accesses) writes number, act.now) run.now }
{
    let field = writes.get().field;
    let frame = Frame::UnitWritten(writes);
    write_then(run, act, field.calls, (field.behind, number), frame)
}

/// A number is written to a field of a region, and then a frame goes on.
#[tactic(auto, using(crate::proofs::UnitSteps::numbers_written))]
pub(crate) fn write_then<S: Space>(
    run: &Running<S>,
    act: &Activation,
    calls: usize,
    written: (RegionField, u64),
    frame: Frame,
) -> Result<Next>
    ensures { Steps S.accesses (region_weight calls + weight frame + 1) result act.now run.now (
      number_written_then S.accesses (meaning S.accesses) calls written.0 written.1 frame act.now,
      ends frame act.now,
    ) run.now }
{
    let bytes = unit_octets(run.world.alloc, written.1)?;
    let access = Access {
        calls,
        object: Accessed::Unit(written.0),
        doing: Doing::Write(bytes),
    };
    Ok(Next::AccessThen(Boxed::new(run.world.alloc, access)?, frame))
}

/// A number as the bytes of a unit, the lowest first.
fn unit_octets(alloc: Global, number: u64) -> Result<Octets>
    ensures { Answers result (Ok (unit_bytes number)) }
{
    Ok(Octets::from_vec(Vec::from_slice(alloc, &bytes_of(number))?))
}
