//! A PCI routing table, entry by entry (ACPI 6.5, 6.2.13).
ghost use Rattle.std.specs.Prelude.{◌≡◌, [], ◌∷◌, ◌++◌, Ok, map};
ghost use Rattle.ar_space.specs.Outcome.{Answers, seen};
ghost use Rattle.ar_space.specs.Change.{Does};
ghost use Rattle.acpi_machine.specs.Buses.{prt};
ghost use Rattle.acpi_machine.specs.Stops.{AllOrNone};
ghost use Rattle.aml_world.specs.state.Given.{given_of};
ghost use Rattle.acpi_prt.specs.Stops.{StopsInEntries, StopsInTable};
ghost use Rattle.acpi_prt.specs.RoutingTables.{linked, route_of, pin_among, pin_with, pin_of, pins_from, routing_table};

use crate::entry::{
    BAD_ENTRY, device_number, entries_of, no_index, pin_tested, source_tested, word_of,
};
use crate::first_pins::FirstPins;
use crate::link::link_at;
use crate::pin::{Pin, Route};
use acpi_machine::{Machine, prt};
use aml_path::Path;
use aml_world::Datum;
use ar_space::{Result, Space};
use std::alloc::Global;

/// The pins that the routing table below a device names, in its order: what `_PRT` answers, entry by entry. The first
/// entry of each device number and pin counts; later ones are tested and passed over, and so are entries that were
/// left out.
///
/// Beside what the evaluation of `_PRT` refuses (`NotFound` where there is none) the first of these refuses it:
/// `NotPackage` where the answer is no package; then of each entry `BadEntry` where it is no package of four, its
/// address, pin or source index no integer of at most 32 bits, or its source neither 0 nor a name; `BadPin` where the
/// pin is above 3; `NotALink` where the source names no link device: a Device whose `_HID` is a name that holds
/// EISAID("PNP0C0F") or "PNP0C0F", in the wide profile also a control method that answers one of these, whose own
/// refusal is handed on; `SourceIndex` where the source index at a link device isn't 0. `Spent` where an
/// earlier call ran out of memory.
#[tactic(auto, using(ar_space::proofs::Changes::changing), unfolding(crate::specs::RoutingTables::routing_table))]
pub fn get_irq_routing_table<S: Space>(
    alloc: Global,
    machine: &mut Machine<S>,
    device: &Path,
) -> Result<Vec<Pin>>
    ensures value { Does (seen (λ pins. pins.items) result) machine.new
        (routing_table S.accesses device.now) machine.old }
    ensures evaluated { StopsInTable S.accesses device.now machine.old machine.new }
{
    let path = table_path(alloc, device)?;
    let answer = machine.evaluate_object(alloc, &path, Vec::new(alloc))?;
    let entries = entries_of(&answer)?;
    pins_from(alloc, machine, entries)
}

/// The path of the routing table below a device.
fn table_path(alloc: Global, device: &Path) -> Result<Path>
    ensures { Answers result (Ok (device.now ++ prt ∷ [])) }
{
    device.child(alloc, prt())
}

/// The pins of entries, in their order.
fn pins_from<S: Space>(
    alloc: Global,
    machine: &mut Machine<S>,
    entries: &[Datum],
) -> Result<Vec<Pin>>
    ensures value { Does (seen (λ pins. pins.items) result) machine.new
        (pins_from S.accesses (map given_of entries.now) []) machine.old }
    ensures evaluated { StopsInEntries S.accesses (map given_of entries.now) machine.old machine.new }
{
    let mut pins = FirstPins::new(alloc);
    for entry in entries {
        let pin = pin_of(alloc, machine, entry)?;
        pins = pins.take(pin)?;
    }
    Ok(pins.into_pins())
}

/// The pin of an entry; none of one that was left out.
#[tactic(auto, using(acpi_machine::proofs::Stopping::evaluating, crate::proofs::Rows::rows))]
fn pin_of<S: Space>(alloc: Global, machine: &mut Machine<S>, entry: &Datum) -> Result<Option<Pin>>
    ensures value { Does result machine.new (pin_of S.accesses (given_of entry.now)) machine.old }
    ensures evaluated { AllOrNone (pin_of S.accesses (given_of entry.now)) machine.old machine.new }
{
    match entry {
        Datum::Nothing => Ok(None),
        Datum::Package(parts) => pin_among(alloc, machine, parts.as_slice()),
        _ => Err(BAD_ENTRY),
    }
}

/// The pin of an entry of four parts.
#[tactic(auto, using(crate::proofs::Entries::others_refused, acpi_machine::proofs::Stopping::making))]
fn pin_among<S: Space>(
    alloc: Global,
    machine: &mut Machine<S>,
    parts: &[Datum],
) -> Result<Option<Pin>>
    ensures value { Does result machine.new (pin_among S.accesses (map given_of parts.now)) machine.old }
    ensures evaluated { AllOrNone (pin_among S.accesses (map given_of parts.now)) machine.old machine.new }
{
    if parts.len() != 4 {
        return Err(BAD_ENTRY);
    }
    let (address, pin, source, index) = (&parts[0], &parts[1], &parts[2], &parts[3]);
    pin_with(alloc, machine, address, pin, source, index)
}

#[tactic(auto, using(acpi_machine::proofs::Stopping::evaluating), unfolding(crate::specs::RoutingTables::pin_with))]
fn pin_with<S: Space>(
    alloc: Global,
    machine: &mut Machine<S>,
    address: &Datum,
    pin: &Datum,
    source: &Datum,
    index: &Datum,
) -> Result<Option<Pin>>
    ensures value { Does result machine.new (pin_with S.accesses (given_of address.now) (given_of pin.now)
        (given_of source.now) (given_of index.now)) machine.old }
    ensures evaluated { AllOrNone (pin_with S.accesses (given_of address.now) (given_of pin.now) (given_of source.now)
        (given_of index.now)) machine.old machine.new }
{
    let address = word_of(address)?;
    let pin = word_of(pin)?;
    source_tested(source)?;
    let index = word_of(index)?;
    let letter = pin_tested(pin)?;
    let route = route_of(alloc, machine, source, index)?;
    Ok(Some(Pin {
        number: device_number(address),
        pin: letter,
        route,
    }))
}

/// Where a source leads to with an index.
#[tactic(auto, using(acpi_machine::proofs::Stopping::evaluating))]
fn route_of<S: Space>(
    alloc: Global,
    machine: &mut Machine<S>,
    source: &Datum,
    index: u32,
) -> Result<Route>
    ensures value { Does result machine.new (route_of S.accesses (given_of source.now) index) machine.old }
    ensures evaluated { AllOrNone (route_of S.accesses (given_of source.now) index) machine.old machine.new }
{
    match source {
        Datum::Integer(_) => Ok(Route::Wired(index)),
        Datum::Named(path) => linked(alloc, machine, path, index),
        Datum::Nothing => Err(BAD_ENTRY),
        Datum::Text(_) => Err(BAD_ENTRY),
        Datum::Bytes(_) => Err(BAD_ENTRY),
        Datum::Package(_) => Err(BAD_ENTRY),
        Datum::Reference => Err(BAD_ENTRY),
    }
}

#[tactic(auto, using(ar_space::proofs::Changes::changing), unfolding(crate::specs::RoutingTables::linked))]
fn linked<S: Space>(
    alloc: Global,
    machine: &mut Machine<S>,
    path: &Path,
    index: u32,
) -> Result<Route>
    ensures value { Does result machine.new (linked S.accesses path.now index) machine.old }
    ensures evaluated { AllOrNone (linked S.accesses path.now index) machine.old machine.new }
{
    let link = link_at(alloc, machine, path)?;
    no_index(index)?;
    Ok(Route::Link(link))
}
