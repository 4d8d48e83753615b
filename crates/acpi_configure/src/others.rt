//! The devices of a machine that are no links, and the interrupts that they have (ACPI 6.5, 6.2.2 and 6.3.7).
ghost use Rattle.std.specs.Prelude.{◌≡◌, IfOk, Ok, [], false, filter, not};
ghost use Rattle.ar_space.specs.Outcome.{Answers, seen};
ghost use Rattle.ar_space.specs.Change.{Does};
ghost use Rattle.route_report.specs.Reports.{after_state};
ghost use Rattle.acpi_configure.specs.Others.{is_link, other_devices, resources_if, present_resources};
ghost use Rattle.acpi_configure.specs.Others.{device_resources, device_asked, devices_asked, others_asked};
ghost use Rattle.acpi_configure.specs.Settling.{attempted, state_told};
ghost use Rattle.acpi_configure.specs.Stops.{StopsIfPresent, StopsInPresent, StopsInDevice};
ghost use Rattle.acpi_configure.specs.Stops.{StopsInDevices, StopsInOthers};

use crate::settling::{after_line, state_of};
use acpi_links::{PresentLink, crs, get_current_resources, is_present, list_devices};
use acpi_machine::Machine;
use acpi_resources::InterruptNumbers;
use aml_path::Path;
use ar_space::{Result, Space};
use route_report::{After, AfterLine};
use std::alloc::Global;

/// A device that was asked: its path, and the interrupts of its `_CRS`, or the number of the refusal. What a link is
/// set to after the choice has the same form.
pub(crate) type AskedDevice = AfterLine;

/// What the devices have that are none of some links, in path order: each that has a `_CRS` and is present is asked
/// for it. None is asked where no device is spared.
#[tactic(auto, unfolding(crate::specs::Others::others_asked))]
pub(crate) fn ask_others<S: Space>(
    alloc: Global,
    machine: &mut Machine<S>,
    spare: bool,
    links: &[PresentLink],
) -> Result<Vec<AskedDevice>>
    ensures value { Does (seen (λ list. list.items) result) machine.new
        (others_asked S.accesses spare links.now) machine.old }
    ensures evaluated { StopsInOthers S.accesses spare links.now machine.old machine.new }
    ensures unasked { IfOk result (λ list. spare ≡ false → list.items ≡ []) }
{
    match spare {
        true => ask_devices_beside(alloc, machine, links),
        false => Ok(Vec::new(alloc)),
    }
}

/// What the devices have that are none of some links.
fn ask_devices_beside<S: Space>(
    alloc: Global,
    machine: &mut Machine<S>,
    links: &[PresentLink],
) -> Result<Vec<AskedDevice>>
    ensures value { Does (seen (λ list. list.items) result) machine.new
        (devices_asked S.accesses (other_devices links.now machine.old)) machine.old }
    ensures evaluated { StopsInDevices S.accesses (other_devices links.now machine.old) machine.old machine.new }
{
    let devices = other_devices(alloc, machine, links)?;
    ask_devices(alloc, machine, &devices)
}

/// The paths of the devices that are none of some links, in path order.
#[tactic(auto, unfolding(crate::specs::Others::other_devices))]
fn other_devices<S: Space>(
    alloc: Global,
    machine: &Machine<S>,
    links: &[PresentLink],
) -> Result<Vec<Path>>
    ensures { Answers (seen (λ list. list.items) result) (Ok (other_devices links.now machine.now)) }
{
    let devices = list_devices(alloc, machine)?;
    beside(alloc, devices, links)
}

/// Those of some paths at which no link stands.
fn beside(alloc: Global, paths: Vec<Path>, links: &[PresentLink]) -> Result<Vec<Path>>
    ensures { Answers (seen (λ list. list.items) result) (Ok (filter (λ p. not (is_link links.now p)) paths.items)) }
{
    let mut list = Vec::new(alloc);
    for path in paths {
        if !is_link(links, &path) {
            list.push(path)?;
        }
    }
    Ok(list)
}

/// Whether one of some links stands at a path.
fn is_link(links: &[PresentLink], path: &Path) -> bool
    ensures { result ≡ is_link links.now path.now }
{
    links.iter().any(|link| &link.0 == path)
}

/// What each of some devices has, in their order.
fn ask_devices<S: Space>(
    alloc: Global,
    machine: &mut Machine<S>,
    devices: &[Path],
) -> Result<Vec<AskedDevice>>
    ensures value { Does (seen (λ list. list.items) result) machine.new
        (devices_asked S.accesses devices.now) machine.old }
    ensures evaluated { StopsInDevices S.accesses devices.now machine.old machine.new }
{
    let mut list = Vec::new(alloc);
    for device in devices {
        let line = ask_device(alloc, machine, device)?;
        list.push(line)?;
    }
    Ok(list)
}

/// What a device has: a refusal is told, but for want of memory.
#[tactic(auto, using(ar_space::proofs::Changes::changing), unfolding(crate::specs::Others::device_asked))]
fn ask_device<S: Space>(
    alloc: Global,
    machine: &mut Machine<S>,
    device: &Path,
) -> Result<AskedDevice>
    ensures value { Does result machine.new (device_asked S.accesses device.now) machine.old }
    ensures evaluated { StopsInDevice S.accesses device.now machine.old machine.new }
{
    let state = try_to_ask(alloc, machine, device)?;
    after_line(alloc, device, state)
}

#[tactic(auto, using(crate::proofs::Settled::does_attempted))]
fn try_to_ask<S: Space>(alloc: Global, machine: &mut Machine<S>, device: &Path) -> Result<After>
    ensures value { Does (seen after_state result) machine.new (attempted state_told
        (device_resources S.accesses device.now)) machine.old }
    ensures evaluated { StopsInDevice S.accesses device.now machine.old machine.new }
{
    let state = device_resources(alloc, machine, device);
    state_of(alloc, state)
}

/// The interrupts of the `_CRS` of a device that has one and is present.
#[tactic(auto, using(crate::proofs::Asked::resources, ar_space::proofs::Changes::changing))]
fn device_resources<S: Space>(
    alloc: Global,
    machine: &mut Machine<S>,
    device: &Path,
) -> Result<Option<InterruptNumbers>>
    ensures value { Does result machine.new (device_resources S.accesses device.now) machine.old }
    ensures evaluated { StopsInDevice S.accesses device.now machine.old machine.new }
{
    let has_resources = machine.has_child(alloc, device, crs())?;
    if has_resources {
        present_resources(alloc, machine, device)
    } else {
        Ok(None)
    }
}

/// The interrupts of the `_CRS` of a device that is present.
#[tactic(auto, using(ar_space::proofs::Changes::changing), unfolding(crate::specs::Others::present_resources))]
fn present_resources<S: Space>(
    alloc: Global,
    machine: &mut Machine<S>,
    device: &Path,
) -> Result<Option<InterruptNumbers>>
    ensures value { Does result machine.new (present_resources S.accesses device.now) machine.old }
    ensures evaluated { StopsInPresent S.accesses device.now machine.old machine.new }
{
    let present = is_present(alloc, machine, device)?;
    resources_if(alloc, machine, present, device)
}

#[tactic(auto, using(ar_space::proofs::Changes::changing), unfolding(crate::specs::Others::resources_if))]
fn resources_if<S: Space>(
    alloc: Global,
    machine: &mut Machine<S>,
    present: bool,
    device: &Path,
) -> Result<Option<InterruptNumbers>>
    ensures value { Does result machine.new (resources_if S.accesses present device.now) machine.old }
    ensures evaluated { StopsIfPresent S.accesses present device.now machine.old machine.new }
{
    match present {
        true => get_current_resources(alloc, machine, device),
        false => Ok(None),
    }
}
