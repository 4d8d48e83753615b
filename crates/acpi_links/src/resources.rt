//! The resources of a link device: what it may be set to, what it is set to, and setting it.
ghost use Rattle.std.specs.Prelude.{◌≡◌, Ok, Err, ◌∷◌, [], map, option_map, Contains};
ghost use Rattle.ar_space.specs.Outcome.{Answers, seen};
ghost use Rattle.ar_space.specs.Change.{Does};
ghost use Rattle.acpi_machine.specs.Stops.{AllOrNone};
ghost use Rattle.ar_space.specs.declared.refusal.Refusal.TheVariants as refusals;
ghost use Rattle.ar_space.specs.declared.refusal.RoutingFault.TheVariants as routing;
ghost use Rattle.aml_path.specs.Text.{text_of};
ghost use Rattle.aml_world.specs.state.Given.{given_of, Bytes};
ghost use Rattle.acpi_resources.specs.Settings.{setting_of};
ghost use Rattle.acpi_links.specs.Settings.{resources_set};
ghost use Rattle.acpi_links.specs.Resources.{possible_resources, offered_bytes, exclusives_in, offer_in};
ghost use Rattle.acpi_links.specs.Resources.{current_resources};

use crate::answers::{bytes_in, numbers_of};
use crate::object_names::{crs, prs, srs};
use acpi_machine::{Machine, Profile};
use acpi_resources::{Exclusives, InterruptNumbers, Offer, possible_as, setting};
use aml_objects::Octets;
use aml_path::Path;
use aml_world::Datum;
use ar_space::{PathText, Refusal, Result, RoutingFault, Space};
use std::alloc::Global;

/// What a link device may be set to, by the buffer that its `_PRS` answers (ACPI 6.5, 6.2.12).
///
/// Without `_PRS` it is refused as `NoOffer`, with the link's path. An answer that is no buffer is refused as
/// `WrongType`, and bytes that are no offer of interrupts as `possible` says, but that the wide profile takes
/// exclusive offers; a refusal of the evaluation is handed on.
#[tactic(auto, using(ar_space::proofs::Changes::changing), unfolding(crate::specs::Resources::possible_resources))]
pub fn get_possible_resources<S: Space>(
    alloc: Global,
    machine: &mut Machine<S>,
    link: &Path,
) -> Result<Offer>
    ensures value { Does result machine.new (possible_resources S.accesses link.now) machine.old }
    ensures evaluated { AllOrNone (possible_resources S.accesses link.now) machine.old machine.new }
{
    let answer = machine.evaluate_child(alloc, link, prs(), Vec::new(alloc))?;
    let bytes = offered_bytes(alloc, link, answer)?;
    offer_in(alloc, machine, bytes.as_slice())
}

/// The bytes that `_PRS` answered; a link device without `_PRS` offers nothing.
fn offered_bytes(alloc: Global, link: &Path, answer: Option<Datum>) -> Result<Octets>
    ensures { Answers result (offered_bytes link.now (option_map given_of answer)) }
{
    match answer {
        None => no_offer(alloc, link),
        Some(answer) => bytes_in(answer),
    }
}

/// A link device offers nothing.
fn no_offer(alloc: Global, link: &Path) -> Result<Octets>
    ensures { Answers result (Err (refusals.Routing (routing.NoOffer (text_of link.now)))) }
{
    let text = link.text(alloc)?;
    Err(Refusal::Routing(RoutingFault::NoOffer(PathText::new(alloc, text)?)))
}

/// What becomes of exclusive offers in a profile.
fn exclusives_in(profile: Profile) -> Exclusives
    ensures { result ≡ exclusives_in profile }
{
    match profile {
        Profile::Core => Exclusives::Refused,
        Profile::Wide => Exclusives::Taken,
    }
}

/// The offer that bytes are, in the machine's profile.
#[tactic(auto, unfolding(crate::specs::Resources::offer_in))]
fn offer_in<S: Space>(alloc: Global, machine: &Machine<S>, bytes: &[u8]) -> Result<Offer>
    ensures { Does result machine.now (offer_in bytes.now) machine.now }
{
    possible_as(alloc, exclusives_in(machine.world().profile()), bytes)
}

/// What a link device is set to, by the buffer that its `_CRS` answers (ACPI 6.5, 6.2.2): none where it has no `_CRS`.
///
/// An answer that is no buffer is refused as `WrongType`, and bytes that are no resource descriptors as `current`
/// says; a refusal of the evaluation is handed on.
#[tactic(auto, using(ar_space::proofs::Changes::changing), unfolding(crate::specs::Resources::current_resources))]
pub fn get_current_resources<S: Space>(
    alloc: Global,
    machine: &mut Machine<S>,
    link: &Path,
) -> Result<Option<InterruptNumbers>>
    ensures value { Does result machine.new (current_resources S.accesses link.now) machine.old }
    ensures evaluated { AllOrNone (current_resources S.accesses link.now) machine.old machine.new }
{
    let answer = machine.evaluate_child(alloc, link, crs(), Vec::new(alloc))?;
    numbers_of(alloc, answer)
}

/// Sets a link device to one of the interrupts that it offers, by its `_SRS` (ACPI 6.5, 6.2.16), and tells whether it
/// has one.
///
/// The argument of `_SRS` is `acpi_resources::setting` of the interrupt. What it answers is dropped; a refusal of its
/// evaluation is handed on.
#[tactic(auto, using(ar_space::proofs::Changes::changing), unfolding(crate::specs::Settings::resources_set))]
pub fn set_current_resources<S: Space>(
    alloc: Global,
    machine: &mut Machine<S>,
    link: &Path,
    offer: &Offer,
    number: u32,
) -> Result<bool>
    requires { Contains offer.now.numbers number }
    ensures value { Does result machine.new (resources_set S.accesses link.now offer.now number) machine.old }
    ensures evaluated { AllOrNone (resources_set S.accesses link.now offer.now number) machine.old machine.new }
{
    let arguments = arguments_of(alloc, offer, number)?;
    let answer = machine.evaluate_child(alloc, link, srs(), arguments)?;
    Ok(answer.is_some())
}

/// A setting, as the one argument.
fn arguments_of(alloc: Global, offer: &Offer, number: u32) -> Result<Vec<Datum>>
    requires { Contains offer.now.numbers number }
    ensures { Answers (seen (λ list. map given_of list.items) result) (Ok (Bytes (setting_of offer.now number) ∷ [])) }
{
    let bytes = setting(alloc, offer, number)?;
    let mut list = Vec::new(alloc);
    list.push(Datum::Bytes(Octets::from_vec(bytes)))?;
    Ok(list)
}
