//! The address of a function of PCI_Config: its segment group, its bus and its address are asked for, in this order
//! (ACPI 6.5, 5.5.2.4, 6.1.1, 6.5.5 and 6.5.6), and the bridges above it between the bus and the address. A control
//! method or a field that gives one of them is waited for.
ghost use Rattle.std.specs.Prelude.{◌≤◌, ◌+◌, ◌*◌, ◌++◌, ◌∷◌, [], IfOk, length};
ghost use Rattle.aml_world.specs.fields.Fields.{inherited};
ghost use Rattle.aml_world.specs.fields.PciFunctions.{adr};
ghost use Rattle.aml_meaning.specs.Meaning.{meaning};
ghost use Rattle.aml_frames.specs.Addresses.{pci_run, device_known, bridges_known, segment_known, bus_known};
ghost use Rattle.aml_frames.specs.Addresses.{function_known, waited_met, part_met, Asks};
ghost use Rattle.aml_frames.specs.Uses.{asking};
ghost use Rattle.aml_frames.specs.Weights.{part_weight, bridges_weight, region_weight, address_weight, behind_weight};
ghost use Rattle.aml_frames.specs.Weights.{asked_weight, waited_weight};
ghost use Rattle.aml_frames.specs.Steps.{Steps};

use crate::asking::ask;
use crate::bridges::{begin_bridges, pass_bridge};
use crate::calls::enter_then;
use crate::field_access::access_space;
use aml_frames::{
    Access, Accessed, Activation, AddressPart, Asked, Boxed, Doing, Frame, FunctionAddress, Next,
    PciAccess, Reading, RegionAccess, Waited, value_of_call,
};
use aml_meaning::{Flow, Running};
use aml_path::{Path, Seg};
use aml_world::{Sought, adr, base_bus, integer_only, pci_space, segment_group};
use ar_space::{Result, Space};

/// The function that a scope belongs to is found, and the parts of its address are asked for.
#[tactic(auto, using(crate::proofs::Addressing::regions))]
pub(crate) fn begin_pci<S: Space>(
    run: &mut Running<S>,
    act: &Activation,
    access: RegionAccess,
    scope: &Path,
) -> Result<Next>
    ensures { Steps S.accesses (region_weight access.calls + behind_weight access) result act.now run.new
        (pci_run S.accesses (meaning S.accesses) access scope.now, act.now) run.old }
{
    let device = run.world.pci_function(scope)?;
    begin_device(run, act, access, device)
}

/// The device is known: the bridges above it are found, and the segment group is asked for.
#[tactic(auto, using(crate::proofs::Bridging::devices), unfolding(aml_frames::specs::Addresses::device_known))]
fn begin_device<S: Space>(
    run: &mut Running<S>,
    act: &Activation,
    access: RegionAccess,
    device: Path,
) -> Result<Next>
    ensures { Steps S.accesses (region_weight access.calls + behind_weight access) result act.now run.new
        (device_known S.accesses (meaning S.accesses) access device, act.now) run.old }
{
    let bridges = run.world.bridges_above(&device)?;
    let pci = PciAccess {
        access,
        device,
        bridges,
        part: AddressPart::Segment,
    };
    begin_segment(run, act, pci)
}

/// The segment group is asked for.
#[tactic(auto, using(crate::proofs::Addressing::parts_known), unfolding(aml_frames::specs::Addresses::bridges_known))]
fn begin_segment<S: Space>(run: &mut Running<S>, act: &Activation, pci: PciAccess) -> Result<Next>
    ensures { Steps S.accesses (bridges_weight pci.access.calls (length pci.bridges.items) + 3 * part_weight
        pci.access.calls + 40 + behind_weight pci.access) result act.now run.new
        (bridges_known S.accesses (meaning S.accesses) pci.access pci.device pci.bridges.items, act.now) run.old }
{
    let asked = ask_inherited(run, pci.access.calls, segment_group(), &pci.device)?;
    match asked {
        Asked::Known(segment) => begin_bus(run, act, pci, segment),
        Asked::Waits(waited) => {
            let pci = PciAccess {
                part: AddressPart::Segment,
                ..pci
            };
            wait(run, act, pci, waited)
        }
    }
}

/// The segment group is known: the bus is asked for.
#[tactic(auto, using(crate::proofs::Addressing::parts_known), unfolding(aml_frames::specs::Addresses::segment_known))]
fn begin_bus<S: Space>(
    run: &mut Running<S>,
    act: &Activation,
    pci: PciAccess,
    segment: u64,
) -> Result<Next>
    ensures { Steps S.accesses (bridges_weight pci.access.calls (length pci.bridges.items) + 2 * part_weight
        pci.access.calls + 25 + behind_weight pci.access) result act.now run.new
        (segment_known S.accesses (meaning S.accesses) pci.access pci.device pci.bridges.items segment, act.now)
        run.old }
{
    let asked = ask_inherited(run, pci.access.calls, base_bus(), &pci.device)?;
    match asked {
        Asked::Known(bus) => begin_bridges(run, act, pci, segment, bus),
        Asked::Waits(waited) => {
            let pci = PciAccess {
                part: AddressPart::Bus(segment),
                ..pci
            };
            wait(run, act, pci, waited)
        }
    }
}

/// The bus is known: the address is asked for.
#[tactic(auto, using(crate::proofs::Addressing::parts_known), unfolding(aml_frames::specs::Addresses::bus_known))]
pub(crate) fn begin_function<S: Space>(
    run: &mut Running<S>,
    act: &Activation,
    pci: PciAccess,
    segment: u64,
    bus: u64,
) -> Result<Next>
    ensures { Steps S.accesses (part_weight pci.access.calls + 14 + behind_weight pci.access) result act.now run.new
        (bus_known S.accesses (meaning S.accesses) pci.access pci.device segment bus, act.now) run.old }
{
    let asked = ask_address(run, pci.access.calls, &pci.device)?;
    match asked {
        Asked::Known(address) => {
            let function = FunctionAddress {
                segment,
                bus,
                address,
            };
            access_function(run, act, pci.access, function)
        }
        Asked::Waits(waited) => {
            let pci = PciAccess {
                part: AddressPart::Function(segment, bus),
                ..pci
            };
            wait(run, act, pci, waited)
        }
    }
}

/// The address is known: the registers of the function are accessed.
#[tactic(auto, using(crate::proofs::Addressing::parts_known), unfolding(aml_frames::specs::Addresses::function_known))]
fn access_function<S: Space>(
    run: &mut Running<S>,
    act: &Activation,
    access: RegionAccess,
    function: FunctionAddress,
) -> Result<Next>
    ensures { Steps S.accesses (4 + behind_weight access) result act.now run.new
        (function_known S.accesses (meaning S.accesses) access function.segment function.bus function.address, act.now)
        run.old }
{
    let space = pci_space(function.segment, function.bus, function.address)?;
    access_space(run, act, access, space)
}

/// The address of a device answers.
#[tactic(auto, using(crate::proofs::Addressing::answering))]
pub(crate) fn ask_address<S: Space>(
    run: &mut Running<S>,
    calls: usize,
    device: &Path,
) -> Result<Asked>
    ensures spent { run.new.1 ≤ run.old.1 }
    ensures few { IfOk result (λ a. asked_weight a ≤ part_weight calls) }
    ensures means { Asks S.accesses (meaning S.accesses) result run.new
        (asking S.accesses (meaning S.accesses) calls (device.now ++ adr ∷ [])) run.old }
{
    let object = device.child(run.world.alloc, adr())?;
    ask(run, calls, &object)
}

/// What gives a part of the address is waited for.
#[tactic(auto, using(crate::proofs::Addressing::waiting))]
pub(crate) fn wait<S: Space>(
    run: &mut Running<S>,
    act: &Activation,
    pci: PciAccess,
    waited: Waited,
) -> Result<Next>
    ensures { Steps S.accesses (waited_weight waited + address_weight pci.part pci.access.calls
        (length pci.bridges.items) + behind_weight pci.access + 7) result act.now run.new
        (waited_met S.accesses (meaning S.accesses) waited pci, act.now) run.old }
{
    match waited {
        Waited::Method(depth, path, body) => {
            let held = Boxed::new(run.world.alloc, pci)?;
            enter_then(run, act, depth, (path, body), held)
        }
        Waited::Field(calls, field) => {
            let access = Access {
                calls,
                object: Accessed::Field(field),
                doing: Doing::Read(Reading::Part),
            };
            let access = Boxed::new(run.world.alloc, access)?;
            let waiting = Boxed::new(run.world.alloc, pci)?;
            Ok(Next::AccessThen(access, Frame::Address(waiting)))
        }
    }
}

/// A part of the address that was waited for is there.
#[tactic(auto, using(crate::proofs::Addressing::parts_known))]
pub fn resume_address<S: Space>(
    run: &mut Running<S>,
    act: &Activation,
    pci: Boxed<PciAccess>,
    flow: Flow,
) -> Result<Next>
    ensures { Steps S.accesses (address_weight pci.part pci.access.calls (length pci.bridges.items) + behind_weight
        pci.access + 3) result act.now run.new (part_met S.accesses (meaning S.accesses) pci flow, act.now) run.old }
{
    let number = integer_only(value_of_call(flow))?;
    let pci = pci.into_inner();
    match pci.part {
        AddressPart::Segment => begin_bus(run, act, pci, number),
        AddressPart::Bus(segment) => begin_bridges(run, act, pci, segment, number),
        AddressPart::Bridge(segment, bus) => {
            let bridge = FunctionAddress {
                segment,
                bus,
                address: number,
            };
            pass_bridge(run, act, pci, bridge)
        }
        AddressPart::Function(segment, bus) => {
            let function = FunctionAddress {
                segment,
                bus,
                address: number,
            };
            access_function(run, act, pci.access, function)
        }
    }
}

/// What the nearest object of a name answers, from a device on upward; 0 where there is none.
#[tactic(auto, using(crate::proofs::Addressing::answering), unfolding(aml_world::specs::fields::Fields::inherited))]
fn ask_inherited<S: Space>(
    run: &mut Running<S>,
    calls: usize,
    name: Seg,
    device: &Path,
) -> Result<Asked>
    ensures spent { run.new.1 ≤ run.old.1 }
    ensures few { IfOk result (λ a. asked_weight a ≤ part_weight calls) }
    ensures means { Asks S.accesses (meaning S.accesses) result run.new
        (inherited S.accesses (asking S.accesses (meaning S.accesses) calls) name device.now) run.old }
{
    match run.world.nearest(Sought::Parent(name), device)? {
        None => Ok(Asked::Known(0)),
        Some(scope) => {
            let object = scope.child(run.world.alloc, name)?;
            ask(run, calls, &object)
        }
    }
}
