//! Interrupt link devices (ACPI 6.5, 6.2.13).
ghost use Rattle.std.specs.Prelude.{◌≡◌, [], ◌∷◌, ◌++◌, Ok, option_map};
ghost use Rattle.ar_space.specs.Outcome.{Answers};
ghost use Rattle.ar_space.specs.Change.{Does};
ghost use Rattle.acpi_machine.specs.Stops.{AllOrNone};
ghost use Rattle.aml_world.specs.state.Given.{given_of};
ghost use Rattle.acpi_machine.specs.Kinds.{kind_seen};
ghost use Rattle.acpi_prt.specs.Children.{child_named};
ghost use Rattle.acpi_prt.specs.Finding.{followed, device_or_not, method_or_not, id_or_not};
ghost use Rattle.acpi_prt.specs.Links.{device_at, id_at, is_link_id, link_id_or_not, link_at};

use acpi_machine::{Kind, Machine, Profile};
use aml_path::{Path, Seg};
use aml_world::Datum;
use ar_space::{Refusal, Result, RoutingTableFault, Space};
use std::alloc::Global;

const NOT_A_LINK: Refusal = Refusal::RoutingTable(RoutingTableFault::NotALink);

/// The hardware id of interrupt link devices, as an integer: EISAID("PNP0C0F").
const LINK_EISA_ID: u64 = 0x0F0C_D041;

/// The path of the link device that stands at a path, or that an alias there leads to; else `NotALink`.
#[tactic(auto, using(acpi_machine::proofs::Stopping::evaluating), unfolding(crate::specs::Links::link_at))]
pub(crate) fn link_at<S: Space>(
    alloc: Global,
    machine: &mut Machine<S>,
    path: &Path,
) -> Result<Path>
    ensures value { Does result machine.new (link_at S.accesses path.now) machine.old }
    ensures evaluated { AllOrNone (link_at S.accesses path.now) machine.old machine.new }
{
    let device = device_at(alloc, machine, path)?;
    let hid = child_named(alloc, &device, *b"_HID")?;
    let id = id_at(alloc, machine, &hid)?;
    let answer = machine.evaluate_object(alloc, &id, Vec::new(alloc))?;
    link_id_or_not(&answer)?;
    Ok(device)
}

/// The path of the device that stands at a path, or that an alias there leads to.
#[tactic(auto, using(crate::proofs::Standing::standing), unfolding(crate::specs::Finding::device_in))]
fn device_at<S: Space>(alloc: Global, machine: &Machine<S>, path: &Path) -> Result<Path>
    ensures { Does result machine.now (device_at path.now) machine.now }
{
    let found = followed(alloc, machine, path)?;
    device_or_not(machine.find_node(&found))?;
    Ok(found)
}

fn device_or_not(kind: Option<Kind<'_>>) -> Result<()>
    ensures { Answers result (device_or_not (option_map kind_seen kind.entry)) }
{
    match kind {
        Some(Kind::Device) => Ok(()),
        _ => Err(NOT_A_LINK),
    }
}

/// The path of the name that holds an integer or a string and stands at a path, or that an alias there leads to; in
/// the wide profile also that of a control method.
#[tactic(auto, using(crate::proofs::Standing::standing), unfolding(crate::specs::Finding::id_in))]
fn id_at<S: Space>(alloc: Global, machine: &Machine<S>, path: &Path) -> Result<Path>
    ensures { Does result machine.now (id_at path.now) machine.now }
{
    let found = followed(alloc, machine, path)?;
    id_or_not(machine.world().profile(), machine.find_node(&found))?;
    Ok(found)
}

fn id_or_not(profile: Profile, kind: Option<Kind<'_>>) -> Result<()>
    ensures { Answers result (id_or_not profile (option_map kind_seen kind.entry)) }
{
    match kind {
        Some(Kind::Integer) => Ok(()),
        Some(Kind::String) => Ok(()),
        Some(Kind::Method(_)) => method_or_not(profile),
        _ => Err(NOT_A_LINK),
    }
}

fn method_or_not(profile: Profile) -> Result<()>
    ensures { Answers result (method_or_not profile) }
{
    match profile {
        Profile::Core => Err(NOT_A_LINK),
        Profile::Wide => Ok(()),
    }
}

/// The target of the alias at a path, or the path itself where no alias stands.
fn followed<S: Space>(alloc: Global, machine: &Machine<S>, path: &Path) -> Result<Path>
    ensures { Answers result (Ok (followed machine.now.world.names.map path.now)) }
{
    match machine.find_node(path) {
        Some(Kind::Alias(target)) => target.copy(alloc),
        _ => path.copy(alloc),
    }
}

/// Whether a hardware id is that of interrupt link devices.
fn is_link_id(id: &Datum) -> bool
    ensures { result ≡ is_link_id (given_of id.now) }
{
    match id {
        Datum::Integer(number) => *number == LINK_EISA_ID,
        Datum::Text(text) => text.as_slice() == b"PNP0C0F".as_slice(),
        _ => false,
    }
}

/// Refuses any other hardware id as `NotALink`.
fn link_id_or_not(id: &Datum) -> Result<()>
    ensures { Answers result (link_id_or_not (given_of id.now)) }
{
    if is_link_id(id) {
        Ok(())
    } else {
        Err(NOT_A_LINK)
    }
}

/// The path of a name of four characters one level below another, or `BadName` where the characters are no name
/// segment.
#[tactic(auto, using(ar_space::proofs::Outcomes::answering), unfolding(crate::specs::Children::child_named))]
pub fn child_named(alloc: Global, path: &Path, name: [u8; 4]) -> Result<Path>
    ensures { Answers result (child_named path.now name) }
{
    let segment = Seg::new(name)?;
    path.child(alloc, segment)
}
