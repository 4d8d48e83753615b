//! What was gathered, where more interrupts are avoided than when the links were asked.
ghost use Rattle.std.specs.Prelude.{◌≡◌, ◌≤◌, ◌+◌, All, IfOk, length, map, option_to_list};
ghost use Rattle.std.specs.List.Sorted.{IsStrictlySortedBy};
ghost use Rattle.ar_space.specs.Outcome.{Answers};
ghost use Rattle.aml_path.specs.Paths.{path_cmp};
ghost use Rattle.route_solve.specs.Fits.{Fits};
ghost use Rattle.acpi_links.specs.Links.{HasLeft};
ghost use Rattle.acpi_links.specs.Problems.{problem_of};
ghost use Rattle.acpi_links.specs.Sparing.{all_left, avoiding};

use crate::gathered::Gathered;
use crate::gathering::gathering;
use crate::links::{PresentLink, all_avoided};
use ar_space::Result;
use route_model::are_all_avoided;
use std::alloc::Global;

/// The first of some links of whose offer nothing is left is refused as `Avoided`, with its path.
fn all_left(alloc: Global, avoid: &[u32], links: &[PresentLink]) -> Result<()>
    ensures value { Answers result (all_left avoid.now links.now) }
    ensures left { IfOk result (λ _. All (HasLeft avoid.now) links.now) }
{
    for link in links {
        if are_all_avoided(avoid, link.1.numbers()) {
            return all_avoided(alloc, &link.0);
        }
    }
    Ok(())
}

/// What was gathered, where these interrupts are avoided: the same pins and links, and the problem over what is left
/// of the offers.
///
/// Where nothing of a link's offer is left, it is refused as `Avoided`, with the path of the first such link. `sci`
/// is the source of the System Control Interrupt, as it was when the links were asked.
#[tactic(auto, using(ar_space::proofs::Outcomes::answering), unfolding(crate::specs::Sparing::avoiding))]
pub fn avoid_more(
    alloc: Global,
    avoid: &[u32],
    sci: Option<u32>,
    gathered: Gathered,
) -> Result<Gathered>
    requires pins { length gathered.pins + length (option_to_list sci) ≤ 4096 }
    requires few { length gathered.links ≤ 256 }
    requires in_order { IsStrictlySortedBy path_cmp (map (λ link. link.0) gathered.links) }
    ensures value { Answers result (avoiding avoid.now sci gathered) }
    ensures posed { IfOk result (λ g. g.problem ≡ problem_of avoid.now sci g.links g.pins) }
    ensures fits { IfOk result (λ g. Fits g.problem) }
    ensures few_pins { IfOk result (λ g. length g.pins ≤ 4096) }
{
    let Gathered { pins, links, .. } = gathered;
    all_left(alloc, avoid, &links)?;
    gathering(alloc, avoid, sci, pins, links)
}
