//! The buses that routing tables are for (ACPI 6.5, 6.2.13, 6.5.5 and 6.5.6).
ghost use Rattle.std.specs.Prelude.{◌≡◌, [], ◌∷◌, ◌++◌, Err, IfOk, IfErr, true};
ghost use Rattle.ar_space.specs.declared.refusal.Refusal.TheVariants.{OutOfMemory};
ghost use Rattle.ar_space.specs.Change.{Does};
ghost use Rattle.ar_space.specs.Outcome.{AnswersInPlace, seen};
ghost use Rattle.aml_world.specs.fields.Fields.{bus_behind, bus_behind_all, inherited};
ghost use Rattle.aml_meaning.specs.Calling.{ending, with_steps};
ghost use Rattle.acpi_machine.specs.Stops.{Made};
ghost use Rattle.acpi_machine.specs.Buses.{prt, is_itself, bridges_down_to, bus_numbered};
ghost use Rattle.acpi_machine.specs.Buses.{address_part, bus_of_table, bus_answered, bus_found};

use crate::calls::SPENT;
use crate::machine::Machine;
use aml_evaluation::ask_integer;
use aml_meaning::{Running, World};
use aml_path::{Path, Seg};
use aml_world::{Sought, WorldState, adr, base_bus, secondary_bus, segment_group};
use ar_space::{FieldFault, Refusal, Result, Space};
use std::alloc::Global;
use std::collections::VecDeque;

/// How many calls an object of an address may make one inside another: asking for it counts as one.
const CALLS_OF_AN_ADDRESS: usize = 31;

/// A bus of a PCI segment group.
#[derive(Clone, Copy, Debug, PartialEq, Eq)]
pub struct PciBus {
    pub segment: u16,
    pub bus: u8,
}

/// The name of a routing table.
#[tactic(auto, using(aml_path::proofs::Segments::same_seg))]
pub fn prt() -> Seg
    ensures { result ≡ prt }
{
    Seg::known(*b"_PRT")
}

impl<S: Space> Machine<S> {
    /// The bus that the routing table below a device is for, as the bus of a PCI function is found where AML accesses
    /// its configuration space: `_SEG` and `_BBN` of the nearest of the device and the scopes above it, 0 where there
    /// is none (ACPI 6.5, 6.5.5 and 6.5.6). In the wide profile the bus behind each bridge from there down to the
    /// device itself follows: a bridge is a Device with `_ADR` and without `_HID`, and its secondary bus is read from
    /// its configuration header. It is one evaluation within the machine's steps.
    ///
    /// Each object has to answer an integer, else it is refused as `WrongType`, or as `NoValue` where it answers
    /// nothing. `RegionLimit` where a number is out of range; `DeepPci` where in the core profile the device or one
    /// above it is a bridge, or where what ought to be a bridge has the header of something else; and as evaluations
    /// are. `Spent` where an earlier call ran out of memory; then nothing changes.
    ///
    /// ```
    /// let bus = machine.find_bus(alloc, &device)?;
    /// println!(rt; "{} {}", bus.segment, bus.bus)?;
    /// ```
    #[tactic(auto, using(crate::proofs::Noticed::spending), unfolding(crate::specs::Buses::bus_found))]
    pub fn find_bus(&mut self, alloc: Global, device: &Path) -> Result<PciBus>
        ensures answer { Does result self.new (bus_found S.accesses device.now) self.old }
        ensures memory { IfErr result (λ refusal. refusal ≡ OutOfMemory → self.new.spent ≡ true) }
        ensures evaluated { Made (bus_found S.accesses device.now) self.old self.new }
    {
        if self.spent {
            return Err(SPENT);
        }
        self.bus_noticed(alloc, device)
    }

    #[tactic(auto, using(crate::proofs::Noticed::noticing, crate::proofs::Noticed::worlds))]
    fn bus_noticed(&mut self, alloc: Global, device: &Path) -> Result<PciBus>
        ensures answer { Does result self.new (bus_answered S.accesses device.now) self.old }
        ensures memory { IfErr result (λ refusal. refusal ≡ OutOfMemory → self.new.spent ≡ true) }
    {
        let outcome = ask_bus(alloc, &mut self.world, device, self.steps);
        self.notice(&outcome);
        outcome
    }
}

/// The bus of a routing table, asked within so many steps.
#[tactic(auto, using(aml_meaning::proofs::Runs::calling))]
fn ask_bus<S: Space>(
    alloc: Global,
    world: &mut World<S>,
    device: &Path,
    steps: u64,
) -> Result<PciBus>
    ensures { Does result world.new (ending (with_steps steps (bus_of_table S.accesses device.now))) world.old }
{
    let run = &mut world.running;
    run.world.alloc = alloc;
    run.world.begin_trace(steps);
    let outcome = with_steps(run, device, steps);
    tell_steps(run, &outcome);
    run.world.release_mutexes();
    outcome
}

/// Where an evaluation is refused, its trace tells how many steps were left.
fn tell_steps<S, A>(run: &mut Running<S>, outcome: &Result<A>)
    ensures { run.new ≡ run.old }
{
    if outcome.is_err() {
        run.world.put_trace_steps(run.steps);
    }
}

#[tactic(auto, using(aml_meaning::proofs::Runs::calling))]
fn with_steps<S: Space>(run: &mut Running<S>, device: &Path, steps: u64) -> Result<PciBus>
    ensures { Does result run.new.0 (with_steps steps (bus_of_table S.accesses device.now)) run.old.0 }
{
    run.steps = steps;
    bus_of_table(run, device)
}

#[tactic(auto, using(aml_meaning::proofs::Runs::running), unfolding(crate::specs::Buses::bus_of_table))]
fn bus_of_table<S: Space>(run: &mut Running<S>, device: &Path) -> Result<PciBus>
    ensures { Does result run.new (bus_of_table S.accesses device.now) run.old }
{
    let bridge = run.world.nearest(Sought::Bridge, device)?;
    run.world.ask_behind(bridge)?;
    let bridges = bridges_down_to(&run.world, device)?;
    let segment = inherited(run, segment_group(), device)?;
    let bus = inherited(run, base_bus(), device)?;
    let behind = bus_behind_all(run, segment, bus, bridges)?;
    bus_numbered(segment, behind)
}

/// The bridges from the nearest base bus number down to a device, which is itself among them where it is one.
#[tactic(auto, using(crate::proofs::DownToBuses::down))]
fn bridges_down_to<S>(world: &WorldState<S>, device: &Path) -> Result<VecDeque<Path>>
    ensures { Does (seen (λ v. v.items) result) world.now (bridges_down_to device.now) world.now }
{
    let based = world.nearest(Sought::Parent(base_bus()), device)?;
    let bridge = world.nearest(Sought::Bridge, device)?;
    let bridges = world.bridges_above(device)?;
    if is_itself(based, device) {
        return Ok(bridges);
    }
    if is_itself(bridge, device) {
        return with_device(world.alloc, bridges, device);
    }
    Ok(bridges)
}

/// Bridges and a device below them.
fn with_device(alloc: Global, bridges: VecDeque<Path>, device: &Path) -> Result<VecDeque<Path>>
    ensures all { IfOk result (λ v. v.items ≡ bridges.items ++ device.now ∷ []) }
    ensures memory { IfErr result (λ e. e ≡ OutOfMemory) }
{
    let mut bridges = bridges;
    bridges.push_back(device.copy(alloc)?)?;
    Ok(bridges)
}

/// Whether the nearest of a device and those above it is the device itself.
fn is_itself(nearest: Option<Path>, device: &Path) -> bool
    ensures { result ≡ is_itself nearest device.now }
{
    match nearest {
        None => false,
        Some(path) => path.segments().len() == device.segments().len(),
    }
}

/// What the nearest object of a name answers, from a device on upward; 0 where there is none.
#[tactic(auto, using(aml_meaning::proofs::Runs::running), unfolding(aml_world::specs::fields::Fields::inherited))]
fn inherited<S: Space>(run: &mut Running<S>, name: Seg, device: &Path) -> Result<u64>
    ensures { Does result run.new (inherited S.accesses (address_part S.accesses) name device.now) run.old }
{
    match run.world.nearest(Sought::Parent(name), device)? {
        None => Ok(0),
        Some(scope) => {
            let object = scope.child(run.world.alloc, name)?;
            ask_integer(run, CALLS_OF_AN_ADDRESS, &object)
        }
    }
}

/// The bus behind bridges that stand one below another, the outermost of them on a bus of a segment group.
fn bus_behind_all<S: Space>(
    run: &mut Running<S>,
    segment: u64,
    bus: u64,
    bridges: VecDeque<Path>,
) -> Result<u64>
    ensures { Does result run.new (bus_behind_all S.accesses (address_part S.accesses)
        segment bus bridges.items) run.old }
{
    let mut left = bridges;
    let mut behind = bus;
    while let Some(bridge) = left.pop_front() {
        behind = bus_behind(run, segment, behind, &bridge)?;
    }
    Ok(behind)
}

/// The bus behind one bridge: its address is asked for, and its secondary bus is read.
#[tactic(auto, using(crate::proofs::Bridged::bridging), unfolding(aml_world::specs::fields::Fields::bus_behind))]
fn bus_behind<S: Space>(run: &mut Running<S>, segment: u64, bus: u64, bridge: &Path) -> Result<u64>
    ensures { Does result run.new (bus_behind S.accesses (address_part S.accesses) segment bus bridge.now) run.old }
{
    let object = bridge.child(run.world.alloc, adr())?;
    let address = ask_integer(run, CALLS_OF_AN_ADDRESS, &object)?;
    secondary_bus(&mut run.world.space, segment, bus, address)
}

/// A segment group and a bus, where both are in range.
fn bus_numbered(segment: u64, bus: u64) -> Result<PciBus>
    ensures { AnswersInPlace result (bus_numbered segment bus) }
{
    if segment < 65536 && bus < 256 {
        Ok(PciBus {
            segment: segment as u16,
            bus: bus as u8,
        })
    } else {
        Err(Refusal::Field(FieldFault::RegionLimit))
    }
}
