//! Which object is refused where the routing problem of a machine is gathered: it is gathered once more, until one is.
ghost use Rattle.std.specs.Prelude.{◌≡◌, IfOk, IfErr, codes, Ok};
ghost use Rattle.acpi_links.specs.Devices.{devices, pins_of_device, pins_of_each};
ghost use Rattle.acpi_links.specs.Gatherings.{gathered};
ghost use Rattle.acpi_links.specs.Links.{few_pins, few_links, links_named, link_asked, links_of_each, some_left};
ghost use Rattle.acpi_links.specs.Presence.{is_present};
ghost use Rattle.acpi_links.specs.Resources.{possible_resources, current_resources};
ghost use Rattle.acpi_explain.specs.Refused.{IsAsked, AreAnswered};
ghost use Rattle.acpi_explain.specs.Stages.{IsRefusedAt, IsStage};
ghost use Rattle.acpi_explain.specs.Halting.{IsHalted, IsHaltBy, IsHaltOf, IsNamed, IsUnread, IsInLink, IsInLinks};
ghost use Rattle.acpi_explain.specs.Halting.{IsTogether};
ghost use Rattle.acpi_explain.specs.declared.stage.Stage.TheVariants as stages;

use crate::halt::{Halt, is_memory};
use crate::stage::Stage;
use acpi_links::{
    few_links, few_pins, get_current_resources, get_possible_resources, is_present, links_named,
    list_devices, pins_of_device, some_left,
};
use acpi_machine::Machine;
use acpi_prt::{Pin, child_named};
use acpi_resources::{InterruptNumbers, Offer};
use aml_path::Path;
use ar_space::{Refusal, Result, Space};
use std::alloc::{AllocError, Global};

/// A copy of a path, or want of memory.
pub(crate) fn copy_path(alloc: Global, path: &Path) -> Result<Path, AllocError>
    ensures { IfOk result (λ copy. copy ≡ path.now) }
{
    Ok(Path::from_vec(Vec::from_slice(alloc, path.segments())?))
}

/// The halt of a refusal at a stage.
fn halt_at(refusal: &Refusal, stage: Stage) -> Halt
    ensures { IsHaltBy refusal.now (λ s. s ≡ stage) result }
{
    if is_memory(refusal) {
        return Halt::Memory;
    }
    Halt::At(stage)
}

/// The halt where reading the routing table of a device is refused.
fn table_halt(alloc: Global, refusal: &Refusal, device: &Path) -> Halt
    ensures { IsHaltBy refusal.now (λ stage. stage ≡ stages.RoutingTable device.now) result }
{
    match copy_path(alloc, device) {
        Ok(device) => halt_at(refusal, Stage::RoutingTable(device)),
        Err(_) => Halt::Memory,
    }
}

/// The halt where the object of this name below a link is refused.
fn object_halt(alloc: Global, refusal: &Refusal, link: &Path, name: [u8; 4]) -> Halt
    ensures { IsHaltBy refusal.now (IsNamed link.now name) result }
{
    match child_named(alloc, link, name) {
        Ok(path) => halt_at(refusal, Stage::Reading(path)),
        Err(_) => Halt::Memory,
    }
}

/// The halt where what was found is refused, and no object has a part in that.
fn together(outcome: Result<()>) -> Result<(), Halt>
    ensures is { IfOk result (λ _. outcome ≡ Ok tt) }
    ensures halted { IfErr result (IsHaltOf outcome) }
{
    match outcome {
        Ok(()) => Ok(()),
        Err(refusal) => Err(halt_at(&refusal, Stage::Gathering)),
    }
}

/// That pins aren't too many.
fn test_pins(sci: Option<u32>, pins: &[(Path, Pin)]) -> Result<(), Halt>
    ensures is { IfOk result (λ _. few_pins sci pins.now ≡ Ok tt) }
    ensures halted { IfErr result (IsHaltOf (few_pins sci pins.now)) }
{
    together(few_pins(sci, pins))
}

/// That links aren't too many.
fn test_links(links: &[Path]) -> Result<(), Halt>
    ensures is { IfOk result (λ _. few_links links.now ≡ Ok tt) }
    ensures halted { IfErr result (IsHaltOf (few_links links.now)) }
{
    together(few_links(links))
}

/// That something is left of what a link offers.
fn test_offer(alloc: Global, avoid: &[u32], link: &Path, offer: &Offer) -> Result<(), Halt>
    ensures is { IfOk result (λ _. some_left avoid.now link.now offer.now ≡ Ok tt) }
    ensures halted { IfErr result (IsHaltOf (some_left avoid.now link.now offer.now)) }
{
    together(some_left(alloc, avoid, link, offer))
}

/// Reads the routing table of a device, if it has one.
fn read_table<S: Space>(
    alloc: Global,
    machine: &mut Machine<S>,
    device: &Path,
) -> Result<Vec<(Path, Pin)>, Halt>
    ensures read { IfOk result (λ pins. pins_of_device S.accesses device.now machine.old ≡
        (Ok pins.items, machine.new)) }
    ensures halted { IfErr result (IsHalted (pins_of_device S.accesses device.now)
        (λ stage after e. stage ≡ stages.RoutingTable device.now) machine.old machine.new) }
{
    match pins_of_device(alloc, machine, device) {
        Ok(pins) => Ok(pins),
        Err(refusal) => Err(table_halt(alloc, &refusal, device)),
    }
}

/// Reads routing tables one after the other.
fn read_tables<S: Space>(
    alloc: Global,
    machine: &mut Machine<S>,
    devices: &[Path],
) -> Result<Vec<(Path, Pin)>, Halt>
    ensures read { IfOk result (λ pins. pins_of_each S.accesses devices.now machine.old ≡
        (Ok pins.items, machine.new)) }
    ensures halted { IfErr result (IsHalted (pins_of_each S.accesses devices.now)
        (IsUnread S.accesses devices.now machine.old) machine.old machine.new) }
{
    let mut list = Vec::new(alloc);
    for device in devices {
        let mut pins = read_table(alloc, machine, device)?;
        list.append(&mut pins)?;
    }
    Ok(list)
}

/// Whether a link is present.
fn ask_status<S: Space>(alloc: Global, machine: &mut Machine<S>, link: &Path) -> Result<bool, Halt>
    ensures asked { IfOk result (λ present. is_present S.accesses link.now machine.old ≡ (Ok present, machine.new)) }
    ensures halted { IfErr result (IsHalted (is_present S.accesses link.now)
        (λ stage after e. IsNamed link.now (codes "_STA") stage) machine.old machine.new) }
{
    match is_present(alloc, machine, link) {
        Ok(present) => Ok(present),
        Err(refusal) => Err(object_halt(alloc, &refusal, link, *b"_STA")),
    }
}

/// What a link may be set to.
fn ask_offer<S: Space>(alloc: Global, machine: &mut Machine<S>, link: &Path) -> Result<Offer, Halt>
    ensures asked { IfOk result (λ offer. possible_resources S.accesses link.now machine.old ≡
        (Ok offer, machine.new)) }
    ensures halted { IfErr result (IsHalted (possible_resources S.accesses link.now)
        (λ stage after e. IsNamed link.now (codes "_PRS") stage) machine.old machine.new) }
{
    match get_possible_resources(alloc, machine, link) {
        Ok(offer) => Ok(offer),
        Err(refusal) => Err(object_halt(alloc, &refusal, link, *b"_PRS")),
    }
}

/// What a link is set to.
fn ask_setting<S: Space>(
    alloc: Global,
    machine: &mut Machine<S>,
    link: &Path,
) -> Result<Option<InterruptNumbers>, Halt>
    ensures asked { IfOk result (λ now. current_resources S.accesses link.now machine.old ≡ (Ok now, machine.new)) }
    ensures halted { IfErr result (IsHalted (current_resources S.accesses link.now)
        (λ stage after e. IsNamed link.now (codes "_CRS") stage) machine.old machine.new) }
{
    match get_current_resources(alloc, machine, link) {
        Ok(now) => Ok(now),
        Err(refusal) => Err(object_halt(alloc, &refusal, link, *b"_CRS")),
    }
}

/// Asks a link: `_STA`, and where that says that it is present `_PRS` and `_CRS`.
fn ask_link<S: Space>(
    alloc: Global,
    machine: &mut Machine<S>,
    avoid: &[u32],
    link: &Path,
) -> Result<(), Halt>
    ensures asked { IfOk result (λ _. IsAsked (link_asked S.accesses avoid.now link.now) machine.old machine.new) }
    ensures halted { IfErr result (IsHalted (link_asked S.accesses avoid.now link.now)
        (IsInLink S.accesses avoid.now link.now machine.old) machine.old machine.new) }
{
    let present = ask_status(alloc, machine, link)?;
    if !present {
        return Ok(());
    }
    let offer = ask_offer(alloc, machine, link)?;
    test_offer(alloc, avoid, link, &offer)?;
    ask_setting(alloc, machine, link)?;
    Ok(())
}

/// Asks links one after the other.
fn ask_links<S: Space>(
    alloc: Global,
    machine: &mut Machine<S>,
    avoid: &[u32],
    links: &[Path],
) -> Result<(), Halt>
    ensures asked { IfOk result (λ _. AreAnswered (link_asked S.accesses avoid.now) links.now machine.old machine.new) }
    ensures halted { IfErr result (IsHalted (links_of_each S.accesses avoid.now links.now)
        (IsInLinks S.accesses avoid.now links.now machine.old) machine.old machine.new) }
{
    for link in links {
        ask_link(alloc, machine, avoid, link)?;
    }
    Ok(())
}

fn devices<S: Space>(alloc: Global, machine: &Machine<S>) -> Result<Vec<Path>, AllocError>
    ensures { IfOk result (λ list. list.items ≡ devices machine.now) }
{
    match list_devices(alloc, machine) {
        Ok(list) => Ok(list),
        Err(_) => Err(AllocError),
    }
}

fn named(alloc: Global, pins: &[(Path, Pin)]) -> Result<Vec<Path>, AllocError>
    ensures { IfOk result (λ list. list.items ≡ links_named pins.now) }
{
    match links_named(alloc, pins) {
        Ok(list) => Ok(list),
        Err(_) => Err(AllocError),
    }
}

/// Reads all routing tables, and asks the links that they lead to.
fn ask_all<S: Space>(alloc: Global, machine: &mut Machine<S>, avoid: &[u32]) -> Result<(), Halt>
    ensures asked { IfOk result (λ _. IsTogether S.accesses avoid.now machine.old) }
    ensures halted { IfErr result (IsHalted (gathered S.accesses avoid.now)
        (λ stage after e. IsRefusedAt S.accesses avoid.now stage machine.old after e) machine.old machine.new) }
{
    let sci = machine.sci();
    let devices = devices(alloc, machine)?;
    let pins = read_tables(alloc, machine, &devices)?;
    test_pins(sci, &pins)?;
    let links = named(alloc, &pins)?;
    test_links(&links)?;
    ask_links(alloc, machine, avoid, &links)
}

/// Gathers the routing problem of an initialized machine once more, as `acpi_links::gather` does where these interrupts
/// are avoided, and tells what is refused: the routing table of a device, or an object of a link. `Gathering` where no
/// object is: then what was found is refused, or nothing is.
///
/// What comes before it is answered, and it is refused in the world that this leaves.
pub fn refused_object<S: Space>(
    alloc: Global,
    machine: &mut Machine<S>,
    avoid: &[u32],
) -> Result<Stage, AllocError>
    ensures { IfOk result (IsStage S.accesses avoid.now machine.old) }
{
    match ask_all(alloc, machine, avoid) {
        Ok(()) => Ok(Stage::Gathering),
        Err(halt) => halt.into_stage(),
    }
}
