//! Accesses of fields of a bank, one unit after another, lowest first (ACPI 6.5, 19.6: BankField). The bank is selected
//! before each access of a unit: its value is written to the bank field, which is waited for.
ghost use Rattle.std.specs.Prelude.{◌<◌, ◌+◌, ◌*◌};
ghost use Rattle.aml_fields.specs.Units.{units_of};
ghost use Rattle.aml_meaning.specs.Meaning.{meaning};
ghost use Rattle.aml_frames.specs.declared.banked.BanksLeft.TheVariants as banks_left;
ghost use Rattle.aml_frames.specs.Banked.{field_accessed, units_done, reads_done, writes_done, unit_met, unit_behind};
ghost use Rattle.aml_frames.specs.Banked.{unit_chosen, unit_merged};
ghost use Rattle.aml_frames.specs.Addresses.{banked_done};
ghost use Rattle.aml_frames.specs.Follow.{selected_then, ends};
ghost use Rattle.aml_frames.specs.Weights.{bank_reads_weight, bank_writes_weight, banks_left_weight, units_weight};
ghost use Rattle.aml_frames.specs.Weights.{region_weight, field_weight, weight};
ghost use Rattle.aml_frames.specs.Steps.{Steps};

use crate::field_access::{begin_declared, finish_read, region_of};
use crate::index_access::write_then;
use aml_fields::{Unit, read_unit, units, write_whole};
use aml_frames::{
    Activation, BankReads, BankWrites, BankedField, BanksLeft, Boxed, Doing, Frame, Next,
    RegionAccess, Selector, is_kept, merge_unit, put_unit, zeros,
};
use aml_meaning::{Flow, Running};
use aml_objects::{Bank, FieldUnit};
use aml_world::{RegionField, space_numbered};
use ar_space::{Result, Space};

/// The field that selects a bank and the region with these numbers of declarations are looked up, and the region is
/// located.
#[tactic(auto, using(crate::proofs::BankSteps::banked))]
pub(crate) fn begin_banked<S: Space>(
    run: &mut Running<S>,
    act: &Activation,
    calls: usize,
    lies_in: (u64, Bank),
    access: (FieldUnit, Doing),
) -> Result<Next>
    ensures steps { Steps S.accesses (field_weight calls) result act.now run.new
        (banked_done S.accesses (meaning S.accesses) calls lies_in.0 lies_in.1 access.0 access.1, act.now) run.old }
    ensures few { access.0.bits < 4294967296 }
{
    let (region, bank) = lies_in;
    let (unit, doing) = access;
    let field = run.world.field_declared(bank.field)?;
    let declared = region_of(run, region)?;
    let selector = Selector {
        field,
        value: bank.value,
    };
    let access = RegionAccess {
        calls,
        field: RegionField { region, unit },
        bank: Some(Boxed::new(run.world.alloc, selector)?),
        offset: declared.1.offset,
        length: declared.1.length,
        doing,
    };
    let kind = space_numbered(declared.1.space);
    begin_declared(run, act, access, kind, &declared.0)
}

/// The region is located: the units of the field are accessed.
#[tactic(auto, using(crate::proofs::BankSteps::bank_by_bank))]
pub(crate) fn begin_units<S: Space>(
    run: &mut Running<S>,
    act: &Activation,
    field: BankedField,
    doing: Doing,
) -> Result<Next>
    ensures { Steps S.accesses
        (units_weight field.calls (units_of field.field.bit_offset field.field.bits field.field.access) + 4) result
        act.now run.new (units_done S.accesses (meaning S.accesses) field doing, act.now) run.old }
{
    let unit = field.field;
    let left = units(unit.bit_offset, unit.bits, unit.access);
    match doing {
        Doing::Read(reading) => {
            let bytes = zeros(run.world.alloc, unit.bits)?;
            let reads = BankReads {
                field,
                reading,
                bytes,
                left,
            };
            next_bank_read(run, act, reads)
        }
        Doing::Write(bytes) => next_bank_write(run, act, BankWrites { field, bytes, left }),
    }
}

/// The next unit is read: the bank is selected first. Behind the last unit the bits are read as a value.
#[tactic(auto, using(crate::proofs::BankSteps::bank_by_bank))]
fn next_bank_read<S: Space>(
    run: &mut Running<S>,
    act: &Activation,
    reads: BankReads,
) -> Result<Next>
    ensures { Steps S.accesses (bank_reads_weight reads + 4) result act.now run.new
        (reads_done S.accesses (meaning S.accesses) reads, act.now) run.old }
{
    let mut reads = reads;
    match reads.left.next() {
        None => finish_read(run, act, reads.reading, reads.field.field.bits, reads.bytes),
        Some(unit) => select_to_read(run, act, BanksLeft::Reads(reads), unit),
    }
}

/// The next unit is written; where bits of it are kept it is read first.
#[tactic(auto, using(crate::proofs::BankSteps::bank_by_bank))]
fn next_bank_write<S: Space>(
    run: &mut Running<S>,
    act: &Activation,
    writes: BankWrites,
) -> Result<Next>
    ensures { Steps S.accesses (bank_writes_weight writes + 4) result act.now run.new
        (writes_done S.accesses (meaning S.accesses) writes, act.now) run.old }
{
    let mut writes = writes;
    match writes.left.next() {
        None => Ok(Next::Flow(Flow::Next)),
        Some(unit) => {
            if is_kept(writes.field.field, unit) {
                select_to_read(run, act, BanksLeft::Writes(writes), unit)
            } else {
                select_to_write(run, act, writes, unit, 0)
            }
        }
    }
}

/// A unit is read: the bank is selected.
#[tactic(auto, using(crate::proofs::BankSteps::bank_by_bank))]
fn select_to_read<S: Space>(
    run: &Running<S>,
    act: &Activation,
    units: BanksLeft,
    unit: Unit,
) -> Result<Next>
    ensures { Steps S.accesses (banks_left_weight units + 2 * region_weight (field_accessed units).calls + 2) result
        act.now run.now (unit_chosen S.accesses (meaning S.accesses) units unit, act.now) run.now }
{
    let field = units.field();
    let frame = Frame::BankRead(Boxed::new(run.world.alloc, units)?, unit);
    select_then(run, act, field, frame)
}

/// The bank is selected: a unit is read. Its bits are put where they are in the field, or kept by the write.
#[tactic(auto, using(crate::proofs::BankSteps::bank_by_bank))]
pub fn read_selected<S: Space>(
    run: &mut Running<S>,
    act: &Activation,
    units: Boxed<BanksLeft>,
    unit: Unit,
) -> Result<Next>
    ensures { Steps S.accesses (banks_left_weight units + region_weight (field_accessed units).calls + 4) result act.now
        run.new (unit_behind S.accesses (meaning S.accesses) units unit, act.now) run.old }
{
    let field = units.get().field();
    let number = read_unit(&mut run.world.space, field.region, field.field.access, unit)?;
    meet_unit(run, act, units.into_inner(), unit, number)
}

/// A unit that was read holds a number.
#[tactic(auto, using(crate::proofs::BankSteps::bank_by_bank))]
fn meet_unit<S: Space>(
    run: &mut Running<S>,
    act: &Activation,
    units: BanksLeft,
    unit: Unit,
    number: u64,
) -> Result<Next>
    ensures { Steps S.accesses (banks_left_weight units + region_weight (field_accessed units).calls + 4) result act.now
        run.new (unit_met S.accesses (meaning S.accesses) units unit number, act.now) run.old }
{
    match units {
        BanksLeft::Reads(reads) => {
            let mut reads = reads;
            put_unit(&mut reads.bytes, unit, number);
            next_bank_read(run, act, reads)
        }
        BanksLeft::Writes(writes) => select_to_write(run, act, writes, unit, number),
    }
}

/// A unit is written that holds a number: the bank is selected, again where the unit was read.
#[tactic(auto, using(crate::proofs::BankSteps::bank_by_bank))]
fn select_to_write<S: Space>(
    run: &Running<S>,
    act: &Activation,
    writes: BankWrites,
    unit: Unit,
    old: u64,
) -> Result<Next>
    ensures { Steps S.accesses (bank_writes_weight writes + region_weight writes.field.calls + 2) result act.now run.now
        (unit_met S.accesses (meaning S.accesses) (banks_left.Writes writes) unit old, act.now) run.now }
{
    let field = writes.field;
    let number = merge_unit(field.field, writes.bytes.as_slice(), unit, old);
    let frame = Frame::BankWrite(Boxed::new(run.world.alloc, writes)?, unit.offset, number);
    select_then(run, act, field, frame)
}

/// The bank is selected: the unit with an offset is written with a number, and then the next one.
#[tactic(auto, using(crate::proofs::BankSteps::bank_by_bank))]
pub fn write_selected<S: Space>(
    run: &mut Running<S>,
    act: &Activation,
    writes: Boxed<BankWrites>,
    offset: u64,
    number: u64,
) -> Result<Next>
    ensures { Steps S.accesses (bank_writes_weight writes + 4) result act.now run.new
        (unit_merged S.accesses (meaning S.accesses) writes offset number, act.now) run.old }
{
    let writes = writes.into_inner();
    let field = writes.field;
    write_whole(
        &mut run.world.space,
        field.region,
        field.field.access,
        offset,
        number,
    )?;
    next_bank_write(run, act, writes)
}

/// The bank of a field is selected, and then a frame goes on. A value that the bank field can't hold is refused.
#[tactic(auto, using(crate::proofs::BankSteps::selecting))]
fn select_then<S: Space>(
    run: &Running<S>,
    act: &Activation,
    field: BankedField,
    frame: Frame,
) -> Result<Next>
    ensures { Steps S.accesses (region_weight field.calls + weight frame + 1) result act.now run.now
        (selected_then S.accesses (meaning S.accesses) field frame act.now, ends frame act.now) run.now }
{
    let bank = field.bank;
    bank.field.must_hold(bank.value)?;
    write_then(run, act, field.calls, (bank.field, bank.value), frame)
}
