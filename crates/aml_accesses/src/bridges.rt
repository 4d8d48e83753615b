//! The bus of a function of PCI_Config behind bridges: the address of each is asked for, from the outermost on, and its
//! secondary bus is read (ACPI 6.5, 5.5.2.4 and 6.1.1; PCI-to-PCI Bridge Architecture 1.2, 3.2).
ghost use Rattle.std.specs.Prelude.{◌+◌, ◌*◌, length};
ghost use Rattle.aml_meaning.specs.Meaning.{meaning};
ghost use Rattle.aml_frames.specs.Addresses.{bridges_left, bridge_known, bridge_asked, part_known};
ghost use Rattle.aml_frames.specs.Weights.{part_weight, bridges_weight, address_weight, behind_weight};
ghost use Rattle.aml_frames.specs.Steps.{Steps};

use crate::pci::{ask_address, begin_function, wait};
use aml_frames::{Activation, AddressPart, Asked, Boxed, Frame, FunctionAddress, Next, PciAccess};
use aml_meaning::Running;
use aml_path::Path;
use aml_world::secondary_bus;
use ar_space::{Result, Space};

/// The bus is known of the outermost of the bridges that are left: its address is asked for. Where none is left, it is
/// the bus of the function.
#[tactic(auto, using(crate::proofs::Bridging::bridges))]
pub(crate) fn begin_bridges<S: Space>(
    run: &mut Running<S>,
    act: &Activation,
    pci: PciAccess,
    segment: u64,
    bus: u64,
) -> Result<Next>
    ensures { Steps S.accesses (bridges_weight pci.access.calls (length pci.bridges.items) + part_weight
        pci.access.calls + 14 + behind_weight pci.access) result act.now run.new
        (bridges_left S.accesses (meaning S.accesses) pci.access pci.device pci.bridges.items segment bus, act.now)
        run.old }
{
    let mut pci = pci;
    match pci.bridges.pop_front() {
        None => begin_function(run, act, pci, segment, bus),
        Some(bridge) => begin_bridge(run, act, pci, (segment, bus), &bridge),
    }
}

/// The address of a bridge on a bus of a segment group is asked for.
#[tactic(auto, using(crate::proofs::Bridging::parts_given), unfolding(aml_frames::specs::Addresses::bridge_asked))]
fn begin_bridge<S: Space>(
    run: &mut Running<S>,
    act: &Activation,
    pci: PciAccess,
    on: (u64, u64),
    bridge: &Path,
) -> Result<Next>
    ensures { Steps S.accesses (bridges_weight pci.access.calls (length pci.bridges.items) + 2 * part_weight
        pci.access.calls + 34 + behind_weight pci.access) result act.now run.new (
          bridge_asked S.accesses (meaning S.accesses) pci.access pci.device bridge.now pci.bridges.items on.0 on.1,
          act.now,
        ) run.old }
{
    let (segment, bus) = on;
    let asked = ask_address(run, pci.access.calls, bridge)?;
    let pci = PciAccess {
        part: AddressPart::Bridge(segment, bus),
        ..pci
    };
    match asked {
        Asked::Known(address) => give_part(run, act, pci, address),
        Asked::Waits(waited) => wait(run, act, pci, waited),
    }
}

/// A part of the address that is known is handed to what waits for it.
#[tactic(auto, using(crate::proofs::Bridging::parts_given))]
fn give_part<S: Space>(
    run: &Running<S>,
    act: &Activation,
    pci: PciAccess,
    part: u64,
) -> Result<Next>
    ensures { Steps S.accesses (address_weight pci.part pci.access.calls (length pci.bridges.items) + behind_weight
        pci.access + 4) result act.now run.now (part_known S.accesses (meaning S.accesses) pci part, act.now) run.now }
{
    let waiting = Boxed::new(run.world.alloc, pci)?;
    Ok(Next::IntegerThen(part, Frame::Address(waiting)))
}

/// The address of a bridge is known: the bus behind it is read, and the next bridge is asked for.
#[tactic(auto, using(aml_frames::proofs::Stepping::stepping), unfolding(aml_frames::specs::Addresses::bridge_known))]
pub(crate) fn pass_bridge<S: Space>(
    run: &mut Running<S>,
    act: &Activation,
    pci: PciAccess,
    bridge: FunctionAddress,
) -> Result<Next>
    ensures { Steps S.accesses (bridges_weight pci.access.calls (length pci.bridges.items) + part_weight
        pci.access.calls + 14 + behind_weight pci.access) result act.now run.new (
          bridge_known S.accesses (meaning S.accesses) pci.access pci.device pci.bridges.items bridge.segment bridge.bus
              bridge.address,
          act.now,
        ) run.old }
{
    let bus = secondary_bus(
        &mut run.world.space,
        bridge.segment,
        bridge.bus,
        bridge.address,
    )?;
    begin_bridges(run, act, pci, bridge.segment, bus)
}
