//! The lines of what was chosen.
ghost use Rattle.std.specs.Prelude.{◌≡◌, ◌<◌, ◌==◌, All, Ok, None, Some, length, slice_index_or, []};
ghost use Rattle.ar_space.specs.Outcome.{Answers, seen};
ghost use Rattle.route_check.specs.Claimed.{gives_of, paths_at, bound_for};
ghost use Rattle.route_model.specs.Links.{paths_of};

use aml_path::Path;
use ar_space::Result;
use route_check::Bound;
use route_model::Link;
use route_solve::Answer;
use std::alloc::Global;

/// Each link with what it is given.
pub(crate) fn gives_of(alloc: Global, links: &[Link], choice: &[u32]) -> Result<Vec<(Path, u32)>>
    requires { length choice.now ≡ length links.now }
    ensures { Answers (seen (λ list. list.items) result) (Ok (gives_of links.now choice.now)) }
{
    let mut list = Vec::new(alloc);
    for (i, link) in links.iter().enumerate() {
        let path = link.path().copy(alloc)?;
        list.push((path, choice[i]))?;
    }
    Ok(list)
}

/// The set that shows why no assignment is less busy, where that has to be shown.
#[tactic(auto, using(crate::proofs::Bounds::bounds))]
pub(crate) fn bound_for(alloc: Global, links: &[Link], answer: &Answer) -> Result<Option<Bound>>
    requires { All (λ k. k < length links.now) answer.now.links }
    ensures { Answers result (Ok
        (bound_for answer.now.busiest (record {
          links = paths_at links.now answer.now.links;
          interrupts = answer.now.interrupts;
        }))) }
{
    if answer.busiest == 0 {
        Ok(None)
    } else {
        some_bound(alloc, links, &answer.links, &answer.interrupts)
    }
}

fn some_bound(
    alloc: Global,
    links: &[Link],
    places: &[usize],
    interrupts: &[u32],
) -> Result<Option<Bound>>
    requires { All (λ k. k < length links.now) places.now }
    ensures { Answers result (Ok
        (Some (record { links = paths_at links.now places.now; interrupts = interrupts.now }))) }
{
    let links = paths_at(alloc, links, places)?;
    let interrupts = Vec::from_slice(alloc, interrupts)?;
    Ok(Some(Bound { links, interrupts }))
}

fn paths_at(alloc: Global, links: &[Link], places: &[usize]) -> Result<Vec<Path>>
    requires { All (λ k. k < length links.now) places.now }
    ensures { Answers (seen (λ list. list.items) result) (Ok (paths_at links.now places.now)) }
{
    let mut list = Vec::new(alloc);
    for place in places {
        let path = path_at(alloc, links, *place)?;
        list.push(path)?;
    }
    Ok(list)
}

/// The path of the link at a place.
fn path_at(alloc: Global, links: &[Link], place: usize) -> Result<Path>
    requires { place < length links.now }
    ensures { Answers result (Ok (slice_index_or (paths_of links.now) place [])) }
{
    links[place].path().copy(alloc)
}
