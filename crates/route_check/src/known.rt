//! That the links are those which are given interrupts.
ghost use Rattle.std.specs.Prelude.{◌↔◌, IsTrue, Contains, All};
ghost use Rattle.aml_path.specs.Paths.{path_cmp};
ghost use Rattle.route_model.specs.Links.{paths_of};
ghost use Rattle.route_check.specs.Ascending.{Ascends};
ghost use Rattle.route_check.specs.Valid.{keys_of, NoneMissing};

use crate::claim::Claim;
use crate::search::has_path;
use crate::steps::paths_ascend;
use aml_path::Path;
use route_model::Link;

fn all_given(links: &[Link], gives: &[(Path, u32)], ascend: bool) -> bool
    requires { IsTrue ascend → Ascends path_cmp (λ g. g.0) gives.now }
    ensures { IsTrue result ↔ All (λ l. Contains (keys_of gives.now) l.path) links.now }
{
    for link in links {
        if !has_path(gives, ascend, link.path()) {
            return false;
        }
    }
    true
}

fn all_known(gives: &[(Path, u32)], links: &[Link], ascend: bool) -> bool
    requires { IsTrue ascend → Ascends path_cmp (λ l. l.path) links.now }
    ensures { IsTrue result ↔ All (λ g. Contains (paths_of links.now) g.0) gives.now }
{
    for give in gives {
        if !has_path(links, ascend, &give.0) {
            return false;
        }
    }
    true
}

fn all_links(paths: &[Path], links: &[Link], ascend: bool) -> bool
    requires { IsTrue ascend → Ascends path_cmp (λ l. l.path) links.now }
    ensures { IsTrue result ↔ All (Contains (paths_of links.now)) paths.now }
{
    for path in paths {
        if !has_path(links, ascend, path) {
            return false;
        }
    }
    true
}

/// Whether each link is given an interrupt, and all that is given one or is in the set is a link.
pub(crate) fn none_missing(claim: &Claim) -> bool
    ensures { IsTrue result ↔ NoneMissing claim.now }
{
    let links = claim.links();
    let gives = claim.gives();
    if !all_given(links, gives, paths_ascend(gives)) {
        return false;
    }
    let ascend = paths_ascend(links);
    if !all_known(gives, links, ascend) {
        return false;
    }
    all_links(claim.set_links(), links, ascend)
}
