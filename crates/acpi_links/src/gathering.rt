//! Gathers the routing problem of a machine.
ghost use Rattle.std.specs.Prelude.{◌≡◌, ◌≤◌, ◌+◌, All, Ok, IfOk, length, map, option_to_list};
ghost use Rattle.std.specs.List.Sorted.{IsStrictlySortedBy};
ghost use Rattle.ar_space.specs.Outcome.{Answers, seen};
ghost use Rattle.ar_space.specs.Change.{Does};
ghost use Rattle.acpi_links.specs.Stops.{StopsInTables, StopsInFew, StopsInGathering};
ghost use Rattle.aml_path.specs.Paths.{path_cmp};
ghost use Rattle.route_solve.specs.Fits.{Fits};
ghost use Rattle.acpi_machine.specs.MachineStates.{sci_of};
ghost use Rattle.acpi_links.specs.Links.{HasLeft, links_named};
ghost use Rattle.acpi_links.specs.Devices.{devices};
ghost use Rattle.acpi_links.specs.Gatherings.{sci_shown, pins_found, links_found, gathering, gathered};
ghost use Rattle.acpi_links.specs.Problems.{problem_of};

use crate::devices::{list_devices, pins_of_each};
use crate::gathered::Gathered;
use crate::links::{PresentLink, few_links, few_pins, links_named, links_of_each, one_polarity};
use crate::problem::problem_of;
use acpi_machine::Machine;
use acpi_prt::Pin;
use aml_path::Path;
use ar_space::{Result, Space};
use std::alloc::Global;

/// The pins of all routing tables, the present link devices that they lead to, and the routing problem that these pose.
///
/// First the routing table of each Device that has a `_PRT` is read, Devices in path order; more than 4,096 pins that
/// count, the source of the System Control Interrupt, `Machine::sci`, counted as one, or more than 256 links that
/// they lead to, are refused as `TooMany`. Then each such link is asked in path order: `_STA`, and where it is
/// present `_PRS` and `_CRS`; where all that its `_PRS` offers is among the interrupts to avoid, it is refused as
/// `Avoided`, with its path, before its `_CRS` is asked. Links of both polarities are refused as `MixedPolarity`.
/// Refusals of `get_irq_routing_table`, `get_possible_resources`, `get_current_resources` and of evaluations are
/// handed on, and so is `WrongType` where `_STA` answers no integer. No link is set.
///
/// In the problem no link offers an interrupt that is avoided, and the System Control Interrupt is one more wired
/// source. Sources that are wired to an avoided interrupt count as others do.
#[tactic(auto, using(acpi_machine::proofs::Stopping::evaluating), unfolding(crate::specs::Gatherings::gathered))]
pub fn gather<S: Space>(alloc: Global, machine: &mut Machine<S>, avoid: &[u32]) -> Result<Gathered>
    ensures value { Does result machine.new (gathered S.accesses avoid.now) machine.old }
    ensures evaluated { StopsInGathering S.accesses avoid.now machine.old machine.new }
    ensures posed { IfOk result (λ g. g.problem ≡ problem_of avoid.now (sci_of machine.old) g.links g.pins) }
    ensures fits { IfOk result (λ g. Fits g.problem) }
    ensures few_wired { IfOk result (λ g. length g.problem.wired ≤ 4096) }
    ensures few_pins { IfOk result (λ g. length g.pins ≤ 4096) }
    ensures few_sources { IfOk result (λ g. length g.pins + length (option_to_list (sci_of machine.old)) ≤ 4096) }
    ensures few_links { IfOk result (λ g. length g.links ≤ 256) }
    ensures in_order { IfOk result (λ g. IsStrictlySortedBy path_cmp (map (λ link. link.0) g.links)) }
{
    let sci = sci_shown(machine)?;
    let pins = pins_found(alloc, machine, sci)?;
    let links = links_found(alloc, machine, avoid, &pins)?;
    gathering(alloc, avoid, sci, pins, links)
}

/// The source of the System Control Interrupt, in the machine's mode.
#[tactic(auto, unfolding(crate::specs::Gatherings::sci_shown))]
fn sci_shown<S: Space>(machine: &Machine<S>) -> Result<Option<u32>>
    ensures value { Does result machine.now sci_shown machine.now }
    ensures sci { result ≡ Ok (sci_of machine.now) }
{
    Ok(machine.sci())
}

/// The pins of all routing tables.
#[tactic(auto, using(ar_space::proofs::Changes::changing), unfolding(crate::specs::Gatherings::pins_found))]
fn pins_found<S: Space>(
    alloc: Global,
    machine: &mut Machine<S>,
    sci: Option<u32>,
) -> Result<Vec<(Path, Pin)>>
    ensures value { Does (seen (λ list. list.items) result) machine.new (pins_found S.accesses sci) machine.old }
    ensures evaluated { StopsInTables S.accesses (devices machine.old) machine.old machine.new }
    ensures few { IfOk result (λ list. length list.items + length (option_to_list sci) ≤ 4096) }
{
    let list = list_devices(alloc, machine)?;
    let pins = pins_of_each(alloc, machine, &list)?;
    few_pins(sci, &pins)?;
    Ok(pins)
}

/// The present links that some pins lead to.
#[tactic(auto, using(ar_space::proofs::Changes::changing), unfolding(crate::specs::Gatherings::links_found))]
fn links_found<S: Space>(
    alloc: Global,
    machine: &mut Machine<S>,
    avoid: &[u32],
    pins: &[(Path, Pin)],
) -> Result<Vec<PresentLink>>
    ensures value { Does (seen (λ list. list.items) result) machine.new
        (links_found S.accesses avoid.now pins.now) machine.old }
    ensures evaluated { StopsInFew S.accesses avoid.now (links_named pins.now) machine.old machine.new }
    ensures few { IfOk result (λ list. length list.items ≤ 256) }
    ensures in_order { IfOk result (λ list. IsStrictlySortedBy path_cmp (map (λ link. link.0) list.items)) }
    ensures left { IfOk result (λ list. All (HasLeft avoid.now) list.items) }
{
    let named = links_named(alloc, pins)?;
    few_links(&named)?;
    let links = links_of_each(alloc, machine, avoid, &named)?;
    one_polarity(&links)?;
    Ok(links)
}

/// What was found, with the problem that it poses where these interrupts are avoided.
pub(crate) fn gathering(
    alloc: Global,
    avoid: &[u32],
    sci: Option<u32>,
    pins: Vec<(Path, Pin)>,
    links: Vec<PresentLink>,
) -> Result<Gathered>
    requires pins { length pins.items + length (option_to_list sci) ≤ 4096 }
    requires few { length links.items ≤ 256 }
    requires in_order { IsStrictlySortedBy path_cmp (map (λ link. link.0) links.items) }
    requires left { All (HasLeft avoid.now) links.items }
    ensures value { Answers result (Ok (gathering avoid.now sci pins.items links.items)) }
    ensures posed { IfOk result (λ g. g.problem ≡ problem_of avoid.now sci g.links g.pins) }
    ensures fits { IfOk result (λ g. Fits g.problem) }
    ensures few_wired { IfOk result (λ g. length g.problem.wired ≤ 4096) }
    ensures same_pins { IfOk result (λ g. g.pins ≡ pins.items) }
    ensures same_links { IfOk result (λ g. g.links ≡ links.items) }
{
    let problem = problem_of(alloc, avoid, sci, &links, &pins)?;
    Ok(Gathered {
        pins,
        links,
        problem,
    })
}
