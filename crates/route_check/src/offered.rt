//! That each link is given an interrupt which it offers and which isn't avoided.
ghost use Rattle.std.specs.Prelude.{◌≡◌, ◌↔◌, ◌<◌, IsTrue, Contains, All, length, slice_index};
ghost use Rattle.route_model.specs.Avoided.{without};
ghost use Rattle.route_model.specs.Links.{paths_of};
ghost use Rattle.route_check.specs.Ascending.{AreAligned};
ghost use Rattle.route_check.specs.Valid.{keys_of, given_to, choice_of, AllOffered};

use crate::avoided::Avoided;
use crate::claim::Claim;
use crate::search::is_same;
use crate::steps::paths_ascend;
use aml_path::Path;
use route_model::Link;

/// The first interrupt that a link is given, 0 where there is none.
fn given_to(gives: &[(Path, u32)], path: &Path) -> u32
    ensures { result ≡ given_to gives.now path.now }
{
    for give in gives {
        if is_same(&give.0, path) {
            return give.1;
        }
    }
    0
}

/// Whether the gives name the links, in their order.
fn are_in_turn(links: &[Link], gives: &[(Path, u32)]) -> bool
    ensures { IsTrue result → paths_of links.now ≡ keys_of gives.now }
{
    if links.len() != gives.len() {
        return false;
    }
    for i in 0..links.len() {
        if !is_same(links[i].path(), &gives[i].0) {
            return false;
        }
    }
    true
}

/// Whether it is known that each link is given what stands at its own place among the gives.
#[tactic(auto, using(crate::proofs::Aligned::aligned))]
pub(crate) fn are_aligned(links: &[Link], gives: &[(Path, u32)]) -> bool
    ensures { IsTrue result → AreAligned links.now gives.now }
{
    paths_ascend(gives) && are_in_turn(links, gives)
}

/// What the link at a place is given.
pub(crate) fn given_at(links: &[Link], gives: &[(Path, u32)], aligned: bool, i: usize) -> u32
    requires within { i < length links.now }
    requires aligned { IsTrue aligned → AreAligned links.now gives.now }
    ensures { result ≡ slice_index (choice_of links.now gives.now) i }
{
    if aligned {
        gives[i].1
    } else {
        given_to(gives, links[i].path())
    }
}

/// Whether a link may be given an interrupt: it offers it, and it isn't avoided.
fn offers(avoided: &Avoided<'_>, link: &Link, n: u32) -> bool
    ensures { IsTrue result ↔ Contains (without avoided.now link.now.offers) n }
{
    link.offers().contains(&n) && !avoided.has(n)
}

fn are_offered(avoided: &Avoided<'_>, links: &[Link], gives: &[(Path, u32)], aligned: bool) -> bool
    requires { IsTrue aligned → AreAligned links.now gives.now }
    ensures { IsTrue result ↔ All (λ l. Contains (without avoided.now l.offers) (given_to gives.now l.path)) links.now }
{
    for i in 0..links.len() {
        if !offers(avoided, &links[i], given_at(links, gives, aligned, i)) {
            return false;
        }
    }
    true
}

/// Whether each link offers what it is given, and that isn't avoided.
pub(crate) fn all_offered(claim: &Claim) -> bool
    ensures { IsTrue result ↔ AllOffered claim.now }
{
    let links = claim.links();
    let gives = claim.gives();
    are_offered(&Avoided::by(claim), links, gives, are_aligned(links, gives))
}
