//! That the set of a claim proves its busiest interrupt to be the least busy one.
ghost use Rattle.std.specs.Prelude.{◌↔◌, IsTrue, Contains, All, ◌<◌};
ghost use Rattle.std.specs.Ordering.{nat_cmp};
ghost use Rattle.aml_path.specs.Paths.{path_cmp};
ghost use Rattle.route_model.specs.Avoided.{without};
ghost use Rattle.route_check.specs.Ascending.{Ascends};
ghost use Rattle.route_check.specs.Valid.{SomeInterrupt, OffersInside, IsCrowded};

use crate::avoided::Avoided;
use crate::claim::Claim;
use crate::loads::sources_at_all;
use crate::search::{has_number, has_path};
use crate::steps::{numbers_ascend, paths_ascend};
use aml_path::Path;
use route_model::Link;

/// Whether the set has an interrupt.
pub(crate) fn has_interrupt(claim: &Claim) -> bool
    ensures { IsTrue result ↔ SomeInterrupt claim.now }
{
    !claim.set_interrupts().is_empty()
}

/// Whether all interrupts that are offered and that aren't avoided are in the set.
fn all_inside(avoided: &Avoided<'_>, offers: &[u32], interrupts: &[u32], ascend: bool) -> bool
    requires { IsTrue ascend → Ascends nat_cmp (λ m. m) interrupts.now }
    ensures { IsTrue result ↔ All (Contains interrupts.now) (without avoided.now offers.now) }
{
    for n in offers {
        if !has_number(interrupts, ascend, *n) && !avoided.has(*n) {
            return false;
        }
    }
    true
}

/// The links of a set, its interrupts, whether it is known that these ascend, and the interrupts that are avoided.
#[derive(Drop)]
struct Set<'a> {
    links: &'a [Path],
    links_ascend: bool,
    interrupts: &'a [u32],
    interrupts_ascend: bool,
    avoided: Avoided<'a>,
}

/// Whether a link is no link of the set, or offers its interrupts alone, but for those that are avoided.
fn is_inside(link: &Link, set: &Set<'_>) -> bool
    requires links { IsTrue set.now.links_ascend → Ascends path_cmp (λ p. p) set.now.links.now }
    requires interrupts { IsTrue set.now.interrupts_ascend → Ascends nat_cmp (λ m. m) set.now.interrupts.now }
    ensures { IsTrue result ↔ (Contains set.now.links.now link.now.path →
        All (Contains set.now.interrupts.now) (without set.now.avoided link.now.offers)) }
{
    !has_path(set.links, set.links_ascend, link.path())
        || all_inside(
            &set.avoided,
            link.offers(),
            set.interrupts,
            set.interrupts_ascend,
        )
}

fn are_inside(links: &[Link], set: &Set<'_>) -> bool
    requires links { IsTrue set.now.links_ascend → Ascends path_cmp (λ p. p) set.now.links.now }
    requires interrupts { IsTrue set.now.interrupts_ascend → Ascends nat_cmp (λ m. m) set.now.interrupts.now }
    ensures { IsTrue result ↔ All (λ l. Contains set.now.links.now l.path →
        All (Contains set.now.interrupts.now) (without set.now.avoided l.offers)) links.now }
{
    for link in links {
        if !is_inside(link, set) {
            return false;
        }
    }
    true
}

/// Whether the links of the set offer its interrupts alone, but for those that are avoided.
pub(crate) fn offers_inside(claim: &Claim) -> bool
    ensures { IsTrue result ↔ OffersInside claim.now }
{
    let links = claim.set_links();
    let interrupts = claim.set_interrupts();
    let set = Set {
        links,
        links_ascend: paths_ascend(links),
        interrupts,
        interrupts_ascend: numbers_ascend(interrupts),
        avoided: Avoided::by(claim),
    };
    are_inside(claim.links(), &set)
}

/// Whether the sources of the set are too many for one less than the busiest on each of its interrupts.
pub(crate) fn is_crowded(claim: &Claim) -> bool
    requires { 0 < claim.now.busiest }
    ensures { IsTrue result ↔ IsCrowded claim.now }
{
    let interrupts = claim.set_interrupts();
    let sources = sources_at_all(claim, interrupts).saturating_add(claim.set_links().len() as u128);
    u128::from(claim.busiest() - 1) * (interrupts.len() as u128) < sources
}
