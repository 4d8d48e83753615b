//! The link devices that pins lead to, and those of them that are present.
ghost use Rattle.std.specs.Prelude.{◌≡◌, ◌≤◌, ◌+◌, [], Some, Ok, Err, OnOk, IfOk, IsErr, IsOkUnless, All, length, map};
ghost use Rattle.std.specs.Prelude.{option_to_list, false};
ghost use Rattle.std.specs.List.{list_any};
ghost use Rattle.std.specs.List.Sorted.{IsStrictlySortedBy};
ghost use Rattle.aml_path.specs.Paths.{path_cmp};
ghost use Rattle.aml_path.specs.Text.{text_of};
ghost use Rattle.ar_space.specs.declared.refusal.Refusal.TheVariants.{OutOfMemory};
ghost use Rattle.ar_space.specs.declared.refusal.Refusal.TheVariants as refusals;
ghost use Rattle.ar_space.specs.declared.refusal.RoutingFault.TheVariants as routing;
ghost use Rattle.ar_space.specs.Outcome.{Answers, NotMemory, seen};
ghost use Rattle.ar_space.specs.Change.{Does};
ghost use Rattle.acpi_links.specs.Stops.{StopsInOffer, StopsIfPresent, StopsInLink, StopsInLinks};
ghost use Rattle.route_model.specs.Avoided.{are_all_avoided};
ghost use Rattle.acpi_links.specs.Links.{few_pins, with_route, links_named, few_links, some_left, link_found, link_if};
ghost use Rattle.acpi_links.specs.Links.{link_asked, with_link, IsAt, HasLeft, IsLeft, links_of_each, is_low, is_high};
ghost use Rattle.acpi_links.specs.Links.{mixed, one_polarity};

use crate::presence::is_present;
use crate::resources::{get_current_resources, get_possible_resources};
use acpi_machine::Machine;
use acpi_prt::{Pin, Route};
use acpi_resources::{InterruptNumbers, Offer, Polarity};
use aml_path::Path;
use ar_space::{MAX_LINKS, MAX_PINS, PathText, Refusal, Result, RoutingFault, Space};
use route_model::are_all_avoided;
use std::alloc::{AllocError, Global};
use std::collections::BTreeSet;

/// A present link: its path, what it offers, and what it is set to.
pub type PresentLink = (Path, Offer, Option<InterruptNumbers>);

/// More than 4,096 pins, the source of the System Control Interrupt counted as one, are refused as `TooMany`.
pub fn few_pins(sci: Option<u32>, pins: &[(Path, Pin)]) -> Result<()>
    ensures value { Answers result (few_pins sci pins.now) }
    ensures memory { NotMemory result }
    ensures few { IfOk result (λ _. length pins.now + length (option_to_list sci) ≤ 4096) }
{
    let most = if sci.is_some() {
        MAX_PINS - 1
    } else {
        MAX_PINS
    };
    if pins.len() > most {
        Err(Refusal::Routing(RoutingFault::TooMany))
    } else {
        Ok(())
    }
}

/// The links that some pins lead to, in path order, each once.
pub fn links_named(alloc: Global, pins: &[(Path, Pin)]) -> Result<Vec<Path>>
    ensures value { Answers (seen (λ list. list.items) result) (Ok (links_named pins.now)) }
    ensures ascending { IfOk result (λ list. IsStrictlySortedBy path_cmp list.items) }
{
    let mut links = BTreeSet::new(alloc);
    for (_, pin) in pins {
        add_route(alloc, &mut links, &pin.route)?;
    }
    Ok(in_order(alloc, links)?)
}

/// The paths of a set.
fn in_order(alloc: Global, links: BTreeSet<Path>) -> Result<Vec<Path>, AllocError>
    ensures value { IfOk result (λ list. list.items ≡ links.keys) }
    ensures ascending { IfOk result (λ list. IsStrictlySortedBy path_cmp list.items) }
{
    Ok(links.into_iter().collect(alloc)?)
}

/// Adds the link that a route leads to, if it leads to one.
fn add_route(alloc: Global, links: &mut BTreeSet<Path>, route: &Route) -> Result<()>
    ensures ok { OnOk result (links.new.keys ≡ with_route links.old.keys route.now) }
    ensures memory { IsOkUnless result OutOfMemory }
{
    match route {
        Route::Wired(_) => {}
        Route::Link(path) => {
            links.insert(path.copy(alloc)?)?;
        }
    }
    Ok(())
}

/// More than 256 links are refused as `TooMany`.
pub fn few_links(links: &[Path]) -> Result<()>
    ensures value { Answers result (few_links links.now) }
    ensures memory { NotMemory result }
    ensures few { IfOk result (λ _. length links.now ≤ 256) }
{
    if links.len() > MAX_LINKS {
        Err(Refusal::Routing(RoutingFault::TooMany))
    } else {
        Ok(())
    }
}

/// Those of some links that are present, each with what it offers and what it is set to.
pub(crate) fn links_of_each<S: Space>(
    alloc: Global,
    machine: &mut Machine<S>,
    avoid: &[u32],
    links: &[Path],
) -> Result<Vec<PresentLink>>
    ensures value { Does (seen (λ list. list.items) result) machine.new
        (links_of_each S.accesses avoid.now links.now) machine.old }
    ensures evaluated { StopsInLinks S.accesses avoid.now links.now machine.old machine.new }
    ensures left { IfOk result (λ list. All (HasLeft avoid.now) list.items) }
    ensures few { IfOk result (λ list. length list.items ≤ length links.now) }
    ensures in_order { IfOk result (λ list. IsStrictlySortedBy path_cmp links.now →
        IsStrictlySortedBy path_cmp (map (λ link. link.0) list.items)) }
{
    let mut list = Vec::new(alloc);
    for link in links {
        let found = link_asked(alloc, machine, avoid, link)?;
        push_found(&mut list, found)?;
    }
    Ok(list)
}

/// Pushes a link that is present.
fn push_found(list: &mut Vec<PresentLink>, found: Option<PresentLink>) -> Result<(), AllocError>
    ensures items { OnOk result (list.new.items ≡ with_link list.old.items found) }
{
    if let Some(link) = found {
        list.push(link)?;
    }
    Ok(())
}

/// A link, if it is present.
#[tactic(auto, using(ar_space::proofs::Changes::changing), unfolding(crate::specs::Links::link_asked))]
fn link_asked<S: Space>(
    alloc: Global,
    machine: &mut Machine<S>,
    avoid: &[u32],
    link: &Path,
) -> Result<Option<PresentLink>>
    ensures value { Does result machine.new (link_asked S.accesses avoid.now link.now) machine.old }
    ensures evaluated { StopsInLink S.accesses avoid.now link.now machine.old machine.new }
    ensures path { IfOk result (λ found. IsAt link.now found) }
    ensures left { IfOk result (λ found. IsLeft avoid.now found) }
{
    let present = is_present(alloc, machine, link)?;
    link_if(alloc, machine, avoid, present, link)
}

#[tactic(auto, using(acpi_machine::proofs::Stopping::evaluating), unfolding(crate::specs::Links::link_if))]
fn link_if<S: Space>(
    alloc: Global,
    machine: &mut Machine<S>,
    avoid: &[u32],
    present: bool,
    link: &Path,
) -> Result<Option<PresentLink>>
    ensures value { Does result machine.new (link_if S.accesses avoid.now present link.now) machine.old }
    ensures evaluated { StopsIfPresent S.accesses avoid.now present link.now machine.old machine.new }
    ensures path { IfOk result (λ found. IsAt link.now found) }
    ensures left { IfOk result (λ found. IsLeft avoid.now found) }
{
    match present {
        true => link_found(alloc, machine, avoid, link),
        false => Ok(None),
    }
}

/// A link that is present.
#[tactic(auto, using(ar_space::proofs::Changes::changing), unfolding(crate::specs::Links::link_found))]
fn link_found<S: Space>(
    alloc: Global,
    machine: &mut Machine<S>,
    avoid: &[u32],
    link: &Path,
) -> Result<Option<PresentLink>>
    ensures value { Does result machine.new (link_found S.accesses avoid.now link.now) machine.old }
    ensures evaluated { StopsInOffer S.accesses avoid.now link.now machine.old machine.new }
    ensures path { IfOk result (λ found. IsAt link.now found) }
    ensures left { IfOk result (λ found. IsLeft avoid.now found) }
{
    let offer = get_possible_resources(alloc, machine, link)?;
    some_left(alloc, avoid, link, &offer)?;
    let now = get_current_resources(alloc, machine, link)?;
    present_link(alloc, link, offer, now)
}

/// A link all of whose possible settings are avoided is refused as `Avoided`, with its path.
pub fn some_left(alloc: Global, avoid: &[u32], link: &Path, offer: &Offer) -> Result<()>
    ensures value { Answers result (some_left avoid.now link.now offer.now) }
    ensures left { IfOk result (λ _. are_all_avoided avoid.now offer.now.numbers ≡ false) }
    ensures memory { are_all_avoided avoid.now offer.now.numbers ≡ false → NotMemory result }
{
    if are_all_avoided(avoid, offer.numbers()) {
        all_avoided(alloc, link)
    } else {
        Ok(())
    }
}

/// A link of whose offer nothing is left, with its path.
pub(crate) fn all_avoided(alloc: Global, link: &Path) -> Result<()>
    ensures value { Answers result (Err (refusals.Routing (routing.Avoided (text_of link.now)))) }
    ensures refused { IsErr result }
{
    let text = link.text(alloc)?;
    Err(Refusal::Routing(RoutingFault::Avoided(PathText::new(alloc, text)?)))
}

fn present_link(
    alloc: Global,
    link: &Path,
    offer: Offer,
    now: Option<InterruptNumbers>,
) -> Result<Option<PresentLink>>
    ensures value { Answers result (Ok (Some (link.now, offer, now))) }
    ensures path { IfOk result (λ found. IsAt link.now found) }
    ensures same { IfOk result (λ found. found ≡ Some (link.now, offer, now)) }
{
    Ok(Some((link.copy(alloc)?, offer, now)))
}

/// Links of both polarities are refused as `MixedPolarity`.
pub(crate) fn one_polarity(links: &[PresentLink]) -> Result<()>
    ensures value { Answers result (one_polarity links.now) }
    ensures memory { NotMemory result }
{
    if mixed(links) {
        Err(Refusal::Routing(RoutingFault::MixedPolarity))
    } else {
        Ok(())
    }
}

fn mixed(links: &[PresentLink]) -> bool
    ensures { result ≡ mixed links.now }
{
    any_low(links) && any_high(links)
}

fn any_low(links: &[PresentLink]) -> bool
    ensures { result ≡ list_any (λ l. is_low l.1.polarity) links.now }
{
    links.iter().any(|link| is_low(link.1.polarity()))
}

fn any_high(links: &[PresentLink]) -> bool
    ensures { result ≡ list_any (λ l. is_high l.1.polarity) links.now }
{
    links.iter().any(|link| is_high(link.1.polarity()))
}

fn is_low(polarity: Polarity) -> bool
    ensures { result ≡ is_low polarity }
{
    matches!(polarity, Polarity::Low)
}

fn is_high(polarity: Polarity) -> bool
    ensures { result ≡ is_high polarity }
{
    matches!(polarity, Polarity::High)
}
