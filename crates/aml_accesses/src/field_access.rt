//! Accesses of fields of operation regions (ACPI 6.5, 5.5.2.4 and 19.6: OperationRegion, Field, BankField).
ghost use Rattle.std.specs.Prelude.{◌≡◌, ◌≤◌, ◌+◌};
ghost use Rattle.ar_space.specs.Change.{Does};
ghost use Rattle.ar_space.specs.Outcome.{NotMemory};
ghost use Rattle.aml_world.specs.declared.fields.regions.RegionSpace.TheVariants as kinds;
ghost use Rattle.aml_world.specs.fields.Regions.{region_declared};
ghost use Rattle.aml_world.specs.state.Run.{lift};
ghost use Rattle.aml_meaning.specs.Meaning.{meaning};
ghost use Rattle.aml_objects.specs.declared.entry.Field.TheVariants as fields;
ghost use Rattle.aml_frames.specs.declared.uses.Accessed.TheVariants as object;
ghost use Rattle.aml_frames.specs.Addresses.{done_in, space_known, space_run};
ghost use Rattle.aml_frames.specs.Uses.{access_run, access_done, read_as};
ghost use Rattle.aml_frames.specs.Weights.{region_weight, behind_weight, field_weight, access_weight};
ghost use Rattle.aml_frames.specs.Steps.{Steps};

use crate::bank_access::{begin_banked, begin_units};
use crate::index_access::begin_indexed;
use crate::pci::begin_pci;
use aml_fields::{
    AddressSpace, Region, read_buffer_field, read_field, write_buffer_field, write_field,
};
use aml_frames::{
    Access, Accessed, Activation, BankedField, Doing, Next, Reading, RegionAccess, size_or_type,
    unit_of,
};
use aml_meaning::{Flow, Running};
use aml_objects::{BufferField, Field, FieldSource, FieldUnit, Octets, OperationRegion, Value};
use aml_path::Path;
use aml_world::{RegionField, RegionSpace, space_numbered};
use ar_space::{EvaluationFault, Refusal, Result, Space};

/// An access of a field: of a buffer, of a region, or behind an index field and a data field.
#[tactic(auto, using(crate::proofs::Addressing::fields))]
pub fn begin_access<S: Space>(
    run: &mut Running<S>,
    act: &Activation,
    access: Access,
) -> Result<Next>
    ensures { Steps S.accesses (access_weight access) result act.now run.new
        (access_run S.accesses (meaning S.accesses) access, act.now) run.old }
{
    match access.object {
        Accessed::Unit(field) => begin_region(run, act, access.calls, field, access.doing),
        Accessed::Field(Field::Buffer(field)) => {
            access_buffer(run, act, access.calls, field, access.doing)
        }
        Accessed::Field(Field::Unit(unit)) => {
            begin_unit(run, act, access.calls, unit, access.doing)
        }
    }
}

/// An access of a field unit.
#[tactic(auto, using(crate::proofs::Addressing::fields, crate::proofs::UnitSteps::indexed, crate::proofs::BankSteps::banks))]
fn begin_unit<S: Space>(
    run: &mut Running<S>,
    act: &Activation,
    calls: usize,
    unit: FieldUnit,
    doing: Doing,
) -> Result<Next>
    ensures { Steps S.accesses (field_weight calls) result act.now run.new
        (access_done S.accesses (meaning S.accesses) calls (object.Field (fields.Unit unit)) doing, act.now) run.old }
{
    match unit.source {
        FieldSource::Region(region) => {
            begin_region(run, act, calls, RegionField { region, unit }, doing)
        }
        FieldSource::Index(index, behind) => {
            begin_indexed(run, act, calls, (index, behind), (unit, doing))
        }
        FieldSource::Bank(region, bank) => {
            begin_banked(run, act, calls, (region, bank), (unit, doing))
        }
    }
}

/// An access of a buffer field: bits of its buffer.
#[tactic(auto, using(crate::proofs::Addressing::fields))]
fn access_buffer<S: Space>(
    run: &mut Running<S>,
    act: &Activation,
    calls: usize,
    field: BufferField,
    doing: Doing,
) -> Result<Next>
    ensures { Steps S.accesses 4 result act.now run.new
        (access_done S.accesses (meaning S.accesses) calls (object.Field (fields.Buffer field)) doing, act.now)
        run.old }
{
    match doing {
        Doing::Read(reading) => {
            let bytes = read_buffer_field(run.world.alloc, run.world.objects(), field)?;
            finish_read(run, act, reading, field.bits, bytes)
        }
        Doing::Write(bytes) => {
            write_buffer_field(
                run.world.alloc,
                &mut run.world.heap,
                field,
                bytes.as_slice(),
            )?;
            Ok(Next::Flow(Flow::Next))
        }
    }
}

/// An access of a field of a region: the region is looked up, and its address is asked for where it is in PCI_Config.
#[tactic(auto, using(crate::proofs::Addressing::regions), unfolding(aml_frames::specs::Weights::behind_weight))]
pub fn begin_region<S: Space>(
    run: &mut Running<S>,
    act: &Activation,
    calls: usize,
    field: RegionField,
    doing: Doing,
) -> Result<Next>
    ensures { Steps S.accesses (region_weight calls) result act.now run.new
        (access_done S.accesses (meaning S.accesses) calls (object.Unit field) doing, act.now) run.old }
{
    let declared = region_of(run, field.region)?;
    let access = RegionAccess {
        calls,
        field,
        bank: None,
        offset: declared.1.offset,
        length: declared.1.length,
        doing,
    };
    begin_declared(
        run,
        act,
        access,
        space_numbered(declared.1.space),
        &declared.0,
    )
}

/// The region with the number of a declaration, and the scope that it was declared in.
#[tactic(auto, using(aml_meaning::proofs::Runs::running))]
pub(crate) fn region_of<S: Space>(run: &Running<S>, number: u64) -> Result<(Path, OperationRegion)>
    ensures { Does result run.now (lift (region_declared number)) run.now }
{
    run.world.region_declared(number)
}

/// An access of a field of a region of this kind, which was declared in a scope.
#[tactic(auto, using(crate::proofs::Addressing::spaces_known))]
pub(crate) fn begin_declared<S: Space>(
    run: &mut Running<S>,
    act: &Activation,
    access: RegionAccess,
    kind: RegionSpace,
    scope: &Path,
) -> Result<Next>
    ensures steps { Steps S.accesses (region_weight access.calls + behind_weight access) result act.now run.new
        (space_run S.accesses (meaning S.accesses) access kind scope.now, act.now) run.old }
    ensures memory { kind ≡ kinds.Other → NotMemory result }
{
    match kind {
        RegionSpace::SystemMemory => access_space(run, act, access, AddressSpace::Memory),
        RegionSpace::SystemIo => access_space(run, act, access, AddressSpace::Io),
        RegionSpace::PciConfig => begin_pci(run, act, access, scope),
        RegionSpace::Other => Err(Refusal::Evaluation(EvaluationFault::SpaceKind)),
    }
}

/// An access of a field of a region whose address space is known.
#[tactic(auto, using(crate::proofs::BankSteps::spaces))]
pub(crate) fn access_space<S: Space>(
    run: &mut Running<S>,
    act: &Activation,
    access: RegionAccess,
    space: AddressSpace,
) -> Result<Next>
    ensures { Steps S.accesses (4 + behind_weight access) result act.now run.new
        (space_known S.accesses (meaning S.accesses) access space, act.now) run.old }
{
    let RegionAccess {
        calls,
        field,
        bank,
        offset,
        length,
        doing,
    } = access;
    let region = Region {
        space,
        offset,
        length,
    };
    match bank {
        None => access_located(run, act, field, region, doing),
        Some(bank) => {
            let banked = BankedField {
                calls,
                bank: bank.into_inner(),
                region,
                field: field.unit,
            };
            begin_units(run, act, banked, doing)
        }
    }
}

/// An access of a field of a region that is located.
#[tactic(auto, using(crate::proofs::Addressing::reading_as))]
fn access_located<S: Space>(
    run: &mut Running<S>,
    act: &Activation,
    field: RegionField,
    region: Region,
    doing: Doing,
) -> Result<Next>
    ensures { Steps S.accesses 4 result act.now run.new (done_in S.accesses doing field region, act.now) run.old }
{
    let unit = field.unit;
    match doing {
        Doing::Read(reading) => {
            let bytes = read_field(run.world.alloc, &mut run.world.space, region, unit)?;
            finish_read(run, act, reading, unit.bits, bytes)
        }
        Doing::Write(bytes) => {
            write_field(&mut run.world.space, region, unit, bytes.as_slice())?;
            Ok(Next::Flow(Flow::Next))
        }
    }
}

/// What the bits of a field are read as: so many bits.
#[tactic(auto, using(crate::proofs::Addressing::reading_as), unfolding(aml_frames::specs::Uses::read_as))]
pub(crate) fn finish_read<S: Space>(
    run: &mut Running<S>,
    act: &Activation,
    reading: Reading,
    count: u32,
    bytes: Vec<u8>,
) -> Result<Next>
    ensures { Steps S.accesses 4 result act.now run.new (read_as reading count bytes.items, act.now) run.old }
{
    match reading {
        Reading::Value => {
            let value = run.world.value_of_bits(count, Octets::from_vec(bytes))?;
            Ok(Next::Flow(Flow::Value(value)))
        }
        Reading::Integer => {
            let number = run.world.integer_of_bits(&bytes)?;
            Ok(Next::Flow(Flow::Value(Value::Integer(number))))
        }
        Reading::Part => {
            let number = run.world.integer_alone(count, &bytes)?;
            Ok(Next::Flow(Flow::Value(Value::Integer(number))))
        }
        Reading::Unit(width) => Ok(Next::Flow(Flow::Value(Value::Integer(unit_of(width, &bytes))))),
        Reading::Inquire(inquiry) => {
            let referent = run.world.referent_of_bits(count, &bytes)?;
            let value = size_or_type(&run.world, inquiry, referent)?;
            Ok(Next::Flow(Flow::Value(value)))
        }
    }
}
