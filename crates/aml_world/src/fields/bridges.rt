//! PCI-to-PCI bridges above a function of PCI_Config, and the buses behind them (ACPI 6.5, 5.5.2.4, 6.1.1 and 6.5.5;
//! PCI-to-PCI Bridge Architecture 1.2, 3.2).
ghost use Rattle.std.specs.Prelude.{◌≡◌, ◌≤◌, Some, IfOk, IfErr, OnOk, length, take};
ghost use Rattle.ar_space.specs.declared.refusal.Refusal.TheVariants.{OutOfMemory};
ghost use Rattle.ar_space.specs.declared.space.Width.TheVariants.{W8};
ghost use Rattle.ar_space.specs.Change.{Does, DoesInPlace};
ghost use Rattle.ar_space.specs.Outcome.{AnswersInPlace, seen};
ghost use Rattle.aml_fields.specs.Regions.{read_access};
ghost use Rattle.aml_namespace.specs.Namespace.{numbered};
ghost use Rattle.aml_namespace.specs.Search.{Found};
ghost use Rattle.aml_world.specs.fields.Bridges.{with_scope, bridges_to, bridges_above, header_of, bridge_header};
ghost use Rattle.aml_world.specs.fields.Bridges.{header_byte, secondary_bus};

use crate::fields::pci_functions::{base_bus, has, is_bridge};
use crate::fields::regions::pci_space;
use crate::state::world_state::WorldState;
use aml_fields::{AddressSpace, Region};
use aml_namespace::Names;
use aml_objects::NodeId;
use aml_path::Path;
use ar_space::{EvaluationFault, Place, Refusal, Result, Space, Width};
use std::alloc::Global;
use std::collections::VecDeque;

/// How many bytes the configuration header of a PCI function has.
const HEADER_LENGTH: u64 = 64;
/// Where it holds the header type.
const HEADER_TYPE: u64 = 0x0E;
/// Where that of a bridge holds the number of the bus behind it.
const SECONDARY_BUS: u64 = 0x19;

impl<S> WorldState<S> {
    /// The bridges above a device, from the outermost on: those below the nearest scope that has a base bus number.
    #[tactic(auto, using(crate::proofs::PassedBridges::does_bridges))]
    pub fn bridges_above(&self, device: &Path) -> Result<VecDeque<Path>>
        ensures { Does (seen (λ v. v.items) result) self.now (bridges_above device.now) self.now }
    {
        bridges_to(self.alloc, self.names(), device)
    }
}

/// The bridges above a device, from the outermost on. It goes down the device's path once.
fn bridges_to(alloc: Global, names: &Names, device: &Path) -> Result<VecDeque<Path>>
    ensures bridges { IfOk result (λ v. v.items ≡ bridges_to names.now.map device.now) }
    ensures memory { IfErr result (λ e. e ≡ OutOfMemory) }
{
    let mut bridges = VecDeque::new(alloc);
    let mut current = names.root();
    let mut depth = 0;
    let steps = device.segments();
    for step in steps {
        pass_scope(alloc, names, current, device, depth, &mut bridges)?;
        match names.child_of(current, *step) {
            None => return Ok(bridges),
            Some(next) => current = next,
        }
        depth += 1;
    }
    if has(names, current, base_bus()) {
        return Ok(VecDeque::new(alloc));
    }
    Ok(bridges)
}

/// The scope with so many segments of a device's path is passed on the way down, where these bridges stand above it.
fn pass_scope(
    alloc: Global,
    names: &Names,
    scope: NodeId,
    device: &Path,
    depth: usize,
    bridges: &mut VecDeque<Path>,
) -> Result<()>
    requires { depth ≤ length device.now }
    ensures passed { (f : Found) → numbered scope.number names.now.map ≡ Some f → f.0 ≡ take depth device.now →
        OnOk result (bridges.new.items ≡ with_scope names.now.map (take depth device.now) bridges.old.items) }
    ensures memory { IfErr result (λ e. e ≡ OutOfMemory) }
{
    if has(names, scope, base_bus()) {
        *bridges = VecDeque::new(alloc);
        return Ok(());
    }
    if is_bridge(names, scope) {
        bridges.push_back(device.prefix(alloc, depth)?)?;
    }
    Ok(())
}

/// The bus behind the bridge at a segment group, bus and address (device in the high word, function in the low
/// one). An address that is out of range is refused as `RegionLimit`, a function that is no bridge as `DeepPci`.
#[tactic(auto, using(ar_space::proofs::Changes::changing), unfolding(crate::specs::fields::Bridges::secondary_bus))]
pub fn secondary_bus<S: Space>(space: &mut S, segment: u64, bus: u64, address: u64) -> Result<u64>
    ensures { DoesInPlace result space.new (secondary_bus S.accesses segment bus address) space.old }
{
    let function = pci_space(segment, bus, address)?;
    let kind = header_byte(space, function, HEADER_TYPE)?;
    bridge_header(kind)?;
    header_byte(space, function, SECONDARY_BUS)
}

/// The byte at an offset in the configuration header of a function.
#[tactic(auto, using(ar_space::proofs::Changes::changing), unfolding(aml_fields::specs::Regions::read_unit))]
fn header_byte<S: Space>(space: &mut S, function: AddressSpace, at: u64) -> Result<u64>
    ensures { DoesInPlace result space.new (header_byte S.accesses function at) space.old }
{
    let place = header_of(function).place(Width::W8, at)?;
    read_byte(space, place)
}

/// The configuration header of a function.
fn header_of(function: AddressSpace) -> Region
    ensures { result ≡ header_of function }
{
    Region {
        space: function,
        offset: 0,
        length: HEADER_LENGTH,
    }
}

/// One access that reads a byte.
#[tactic(auto, unfolding(aml_fields::specs::Regions::read_access))]
fn read_byte<S: Space>(space: &mut S, place: Place) -> Result<u64>
    ensures { DoesInPlace result space.new (read_access S.accesses place W8) space.old }
{
    match space.read(place, Width::W8) {
        Ok(value) => Ok(value),
        Err(fault) => Err(Refusal::Space(fault)),
    }
}

/// Whether a header type is that of a bridge; another one is refused as `DeepPci`.
fn bridge_header(kind: u64) -> Result<()>
    ensures { AnswersInPlace result (bridge_header kind) }
{
    let layout = kind % 128;
    if layout == 1 || layout == 2 {
        Ok(())
    } else {
        Err(Refusal::Evaluation(EvaluationFault::DeepPci))
    }
}
