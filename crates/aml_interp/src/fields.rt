//! Fields that are read for a caller outside of AML (ACPI 6.5, 5.5.2.4 and 19.6: OperationRegion, Field, CreateField).
ghost use Rattle.std.specs.Prelude.{◌≡◌};
ghost use Rattle.ar_space.specs.Change.{Does};
ghost use Rattle.ar_space.specs.Outcome.{seen};
ghost use Rattle.aml_world.specs.fields.Fields.{inherited, pci_address, space_at, located, region_bits, region_written};
ghost use Rattle.aml_world.specs.fields.Fields.{bits_in, field_value, field_given};
ghost use Rattle.aml_world.specs.state.Given.{given_of};
ghost use Rattle.aml_meaning.specs.Meaning.{meaning};
ghost use Rattle.aml_frames.specs.Uses.{asking};

use crate::bank_fields::bank_bits;
use crate::bridges::bus_behind_all;
use crate::index_fields::index_bits;
use aml_evaluation::ask_integer;
use aml_fields::{AddressSpace, Region, read_buffer_field, read_field, write_field};
use aml_meaning::Running;
use aml_objects::{Field, FieldSource, Octets, Value};
use aml_path::{Path, Seg};
use aml_world::{
    Datum, RegionField, RegionSpace, Sought, adr, base_bus, pci_space, segment_group,
    space_numbered,
};
use ar_space::{EvaluationFault, Refusal, Result, Space};

/// The bits of a field, as a value.
#[tactic(auto, using(aml_meaning::proofs::Runs::running), unfolding(aml_world::specs::fields::Fields::field_value))]
pub(crate) fn field_value<S: Space>(
    run: &mut Running<S>,
    calls: usize,
    field: Field,
) -> Result<Value>
    ensures { Does result run.new
        (field_value S.accesses (asking S.accesses (meaning S.accesses) calls) field) run.old }
{
    let bytes = bits_in(run, calls, field)?;
    run.world
        .value_of_bits(field.bits(), Octets::from_vec(bytes))
}

/// The bits of a field, as they are handed out.
#[tactic(auto, using(aml_meaning::proofs::Runs::running), unfolding(aml_world::specs::fields::Fields::field_given))]
pub(crate) fn field_given<S: Space>(
    run: &mut Running<S>,
    calls: usize,
    field: Field,
) -> Result<Datum>
    ensures { Does (seen given_of result) run.new (field_given S.accesses
        (asking S.accesses (meaning S.accesses) calls) field) run.old }
{
    let bytes = bits_in(run, calls, field)?;
    run.world
        .datum_of_bits(field.bits(), Octets::from_vec(bytes))
}

#[tactic(auto, using(aml_meaning::proofs::Runs::running, crate::proofs::Lent::lent))]
fn bits_in<S: Space>(run: &mut Running<S>, calls: usize, field: Field) -> Result<Vec<u8>>
    ensures { Does (seen (λ v. v.items) result) run.new (bits_in S.accesses
        (asking S.accesses (meaning S.accesses) calls) field) run.old }
{
    match field {
        Field::Unit(unit) => match unit.source {
            FieldSource::Region(region) => { region_bits(run, calls, RegionField { region, unit }) }
            FieldSource::Index(index, behind) => { index_bits(run, calls, index, behind, unit) }
            FieldSource::Bank(region, bank) => bank_bits(run, calls, region, bank, unit),
        },
        Field::Buffer(field) => read_buffer_field(run.world.alloc, run.world.objects(), field),
    }
}

/// The bits of a field of a region.
#[tactic(auto, using(aml_meaning::proofs::Runs::running, crate::proofs::Lent::lent), //
unfolding(aml_world::specs::fields::Fields::region_bits))]
pub(crate) fn region_bits<S: Space>(
    run: &mut Running<S>,
    calls: usize,
    field: RegionField,
) -> Result<Vec<u8>>
    ensures { Does (seen (λ v. v.items) result) run.new (region_bits S.accesses
        (asking S.accesses (meaning S.accesses) calls) field) run.old }
{
    let region = located(run, calls, field.region)?;
    read_field(run.world.alloc, &mut run.world.space, region, field.unit)
}

/// Writes a field of a region.
#[tactic(auto, using(aml_meaning::proofs::Runs::running, crate::proofs::Lent::lent), //
unfolding(aml_world::specs::fields::Fields::region_written))]
pub(crate) fn region_written<S: Space>(
    run: &mut Running<S>,
    calls: usize,
    field: RegionField,
    bytes: &[u8],
) -> Result<()>
    ensures { Does result run.new (region_written S.accesses (asking S.accesses (meaning S.accesses) calls)
        field bytes.now) run.old }
{
    let region = located(run, calls, field.region)?;
    write_field(&mut run.world.space, region, field.unit, bytes)
}

/// Where the region with the number of a declaration is; its address is asked for.
#[tactic(auto, using(aml_meaning::proofs::Runs::running), unfolding(aml_world::specs::fields::Fields::located))]
pub(crate) fn located<S: Space>(run: &mut Running<S>, calls: usize, number: u64) -> Result<Region>
    ensures { Does result run.new (located S.accesses (asking S.accesses (meaning S.accesses) calls) number) run.old }
{
    let (scope, region) = run.world.region_declared(number)?;
    let kind = space_numbered(region.space);
    let space = space_at(run, calls, kind, &scope)?;
    Ok(Region {
        space,
        offset: region.offset,
        length: region.length,
    })
}

#[tactic(auto, using(aml_meaning::proofs::Runs::running))]
fn space_at<S: Space>(
    run: &mut Running<S>,
    calls: usize,
    kind: RegionSpace,
    scope: &Path,
) -> Result<AddressSpace>
    ensures { Does result run.new (space_at S.accesses (asking S.accesses (meaning S.accesses) calls)
        kind scope.now) run.old }
{
    match kind {
        RegionSpace::SystemMemory => Ok(AddressSpace::Memory),
        RegionSpace::SystemIo => Ok(AddressSpace::Io),
        RegionSpace::PciConfig => pci_address(run, calls, scope),
        RegionSpace::Other => Err(Refusal::Evaluation(EvaluationFault::SpaceKind)),
    }
}

/// The registers of the PCI function that a scope belongs to: its segment group, its bus, the buses behind the bridges
/// above it and its address are asked for, in this order.
#[tactic(auto, using(aml_meaning::proofs::Runs::running), unfolding(aml_world::specs::fields::Fields::pci_address))]
fn pci_address<S: Space>(run: &mut Running<S>, calls: usize, scope: &Path) -> Result<AddressSpace>
    ensures { Does result run.new
        (pci_address S.accesses (asking S.accesses (meaning S.accesses) calls) scope.now) run.old }
{
    let device = run.world.pci_function(scope)?;
    let bridges = run.world.bridges_above(&device)?;
    let segment = inherited(run, calls, segment_group(), &device)?;
    let bus = inherited(run, calls, base_bus(), &device)?;
    let behind = bus_behind_all(run, calls, segment, bus, bridges)?;
    let object = device.child(run.world.alloc, adr())?;
    let address = ask_integer(run, calls, &object)?;
    pci_space(segment, behind, address)
}

/// What the nearest object of a name answers, from a device on upward; 0 where there is none.
#[tactic(auto, using(aml_meaning::proofs::Runs::running), unfolding(aml_world::specs::fields::Fields::inherited))]
fn inherited<S: Space>(run: &mut Running<S>, calls: usize, name: Seg, device: &Path) -> Result<u64>
    ensures { Does result run.new (inherited S.accesses (asking S.accesses (meaning S.accesses) calls) name
        device.now) run.old }
{
    match run.world.nearest(Sought::Parent(name), device)? {
        None => Ok(0),
        Some(scope) => {
            let object = scope.child(run.world.alloc, name)?;
            ask_integer(run, calls, &object)
        }
    }
}
