//! The devices of a machine, and the pins of their routing tables (ACPI 6.5, 6.2.13).
ghost use Rattle.std.specs.Prelude.{◌≡◌, Ok, map};
ghost use Rattle.std.specs.List.{filter_map};
ghost use Rattle.ar_space.specs.Outcome.{Answers, seen};
ghost use Rattle.ar_space.specs.Change.{Does};
ghost use Rattle.acpi_links.specs.Stops.{StopsInDevice, StopsInTables};
ghost use Rattle.acpi_machine.specs.Kinds.{kind_seen};
ghost use Rattle.acpi_links.specs.Devices.{is_device, device_path, devices, pins_at, with_device, pins_of_device};
ghost use Rattle.acpi_links.specs.Devices.{pins_of_each};

use acpi_machine::{Kind, Machine, prt};
use acpi_prt::{Pin, get_irq_routing_table};
use aml_path::Path;
use ar_space::{Result, Space};
use std::alloc::Global;

/// The paths of all devices, in path order.
#[tactic(auto, using(ar_space::proofs::Outcomes::answering), unfolding(crate::specs::Devices::devices))]
pub fn list_devices<S: Space>(alloc: Global, machine: &Machine<S>) -> Result<Vec<Path>>
    ensures { Answers (seen (λ list. list.items) result) (Ok (devices machine.now)) }
{
    only_devices(alloc, machine.walk_namespace(alloc)?)
}

/// The paths of the devices among some names.
fn only_devices(alloc: Global, nodes: Vec<(Path, Kind<'_>)>) -> Result<Vec<Path>>
    ensures { Answers (seen (λ list. list.items) result)
        (Ok (filter_map device_path (map (λ node. (node.0, kind_seen node.1)) nodes.entry.items))) }
{
    let mut list = Vec::new(alloc);
    for (path, kind) in nodes {
        if is_device(kind) {
            list.push(path)?;
        }
    }
    Ok(list)
}

fn is_device(kind: Kind<'_>) -> bool
    ensures { result ≡ is_device (kind_seen kind.entry) }
{
    matches!(kind, Kind::Device)
}

/// The pins of the routing table of each of some devices that have one.
pub(crate) fn pins_of_each<S: Space>(
    alloc: Global,
    machine: &mut Machine<S>,
    devices: &[Path],
) -> Result<Vec<(Path, Pin)>>
    ensures value { Does (seen (λ list. list.items) result) machine.new
        (pins_of_each S.accesses devices.now) machine.old }
    ensures evaluated { StopsInTables S.accesses devices.now machine.old machine.new }
{
    let mut list = Vec::new(alloc);
    for device in devices {
        let mut pins = pins_of_device(alloc, machine, device)?;
        list.append(&mut pins)?;
    }
    Ok(list)
}

/// The pins of the routing table of a device, if it has one, each with the device.
#[tactic(auto, using(ar_space::proofs::Changes::changing), unfolding(crate::specs::Devices::pins_of_device))]
pub fn pins_of_device<S: Space>(
    alloc: Global,
    machine: &mut Machine<S>,
    device: &Path,
) -> Result<Vec<(Path, Pin)>>
    ensures value { Does (seen (λ list. list.items) result) machine.new
        (pins_of_device S.accesses device.now) machine.old }
    ensures evaluated { StopsInDevice S.accesses device.now machine.old machine.new }
{
    let pins = pins_at(alloc, machine, device)?;
    with_device(alloc, device, pins)
}

/// The pins of the routing table of a device, if it has one.
#[tactic(auto, using(crate::proofs::Stopped::tables, ar_space::proofs::Changes::changing))]
fn pins_at<S: Space>(alloc: Global, machine: &mut Machine<S>, device: &Path) -> Result<Vec<Pin>>
    ensures value { Does (seen (λ list. list.items) result) machine.new (pins_at S.accesses device.now) machine.old }
    ensures evaluated { StopsInDevice S.accesses device.now machine.old machine.new }
{
    let has_table = machine.has_child(alloc, device, prt())?;
    if has_table {
        get_irq_routing_table(alloc, machine, device)
    } else {
        Ok(Vec::new(alloc))
    }
}

/// Each pin with the device that has the routing table.
fn with_device(alloc: Global, device: &Path, pins: Vec<Pin>) -> Result<Vec<(Path, Pin)>>
    ensures { Answers (seen (λ list. list.items) result) (Ok (with_device device.now pins.items)) }
{
    let mut list = Vec::new(alloc);
    for pin in pins {
        list.push((device.copy(alloc)?, pin))?;
    }
    Ok(list)
}
