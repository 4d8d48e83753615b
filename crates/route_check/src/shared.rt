//! That links share interrupts as little as they can, by a claim.
ghost use Rattle.std.specs.Prelude.{◌≡◌, ◌↔◌, ◌++◌, IfOk, IsTrue, map, option_to_list};
ghost use Rattle.route_model.specs.Avoided.{without};
ghost use Rattle.route_model.specs.Links.{offers_of};
ghost use Rattle.route_check.specs.Shared.{IsClaimShared};
ghost use Rattle.route_check.specs.Valid.{effective_offers, effective_counts, choice_of, sci_counts};

use crate::avoided::Avoided;
use crate::claim::Claim;
use crate::offered::{are_aligned, given_at};
use aml_path::Path;
use route_model::Link;
use route_spread::is_least_shared;
use std::alloc::{AllocError, Global};

/// What a link may be given.
#[tactic(auto, unfolding(route_model::specs::Avoided::without))]
fn left_of(alloc: Global, avoided: &Avoided<'_>, offers: &[u32]) -> Result<Vec<u32>, AllocError>
    ensures { IfOk result (λ list. list.items ≡ without avoided.now offers.now) }
{
    offers
        .iter()
        .copied()
        .filter(|n| !avoided.has(*n))
        .collect(alloc)
}

/// Links with what these may be given. Their paths are left out: only the offers count here.
fn links_left(alloc: Global, avoided: &Avoided<'_>, links: &[Link]) -> Result<Vec<Link>, AllocError>
    ensures { IfOk result (λ list. offers_of list.items ≡ map (λ l. without avoided.now l.offers) links.now) }
{
    let mut list = Vec::new(alloc);
    for link in links {
        let left = left_of(alloc, avoided, link.offers())?;
        list.push(Link::new(Path::root(alloc), left))?;
    }
    Ok(list)
}

/// The interrupt of the System Control Interrupt, with its one source.
fn sci_counts(alloc: Global, sci: Option<u32>) -> Result<Vec<(u32, u32)>, AllocError>
    ensures { IfOk result (λ list. list.items ≡ sci_counts sci) }
{
    let mut list = Vec::new(alloc);
    if let Some(n) = sci {
        list.push((n, 1))?;
    }
    Ok(list)
}

/// The sources that are wired to interrupts: pins, and the System Control Interrupt.
fn all_counts(alloc: Global, claim: &Claim) -> Result<Vec<(u32, u32)>, AllocError>
    ensures { IfOk result (λ list. list.items ≡ effective_counts claim.now) }
{
    let mut list = sci_counts(alloc, claim.sci())?;
    list.extend_from_slice(claim.wired())?;
    Ok(list)
}

/// What each link is given, in the order of the links.
fn choice_of(alloc: Global, links: &[Link], gives: &[(Path, u32)]) -> Result<Vec<u32>, AllocError>
    ensures { IfOk result (λ list. list.items ≡ choice_of links.now gives.now) }
{
    let aligned = are_aligned(links, gives);
    let mut list = Vec::new(alloc);
    for i in 0..links.len() {
        list.push(given_at(links, gives, aligned, i))?;
    }
    Ok(list)
}

/// Whether links share interrupts as little as they can under what they are given.
pub(crate) fn is_shared(alloc: Global, claim: &Claim) -> Result<bool, AllocError>
    ensures { IfOk result (λ yes. IsTrue yes ↔ IsClaimShared claim.now) }
{
    let links = links_left(alloc, &Avoided::by(claim), claim.links())?;
    let wired = all_counts(alloc, claim)?;
    let choice = choice_of(alloc, claim.links(), claim.gives())?;
    is_least_shared(alloc, &links, &wired, &choice)
}
