//! Which paths and which numbers a list has: by halves where they ascend.
ghost use Rattle.std.specs.Prelude.{◌≡◌, ◌↔◌, IsTrue, Contains, map};
ghost use Rattle.std.specs.Ordering.{nat_cmp};
ghost use Rattle.aml_path.specs.Paths.{path_cmp, path_eq};
ghost use Rattle.route_check.specs.Ascending.{Ascends};

use crate::keys::{Named, Numbered};
use aml_path::Path;

/// Whether two paths are the same.
#[tactic(auto, using(crate::proofs::SamePath::same))]
pub(crate) fn is_same(one: &Path, other: &Path) -> bool
    ensures test { result ≡ path_eq one.now other.now }
    ensures same { IsTrue result ↔ (one.now ≡ other.now) }
{
    one == other
}

/// Whether a path is among some in any order.
pub(crate) fn is_among_paths<T: Named>(xs: &[T], path: &Path) -> bool
    ensures { IsTrue result ↔ Contains (map T.path xs.now) path.now }
{
    for x in xs {
        if is_same(x.name(), path) {
            return true;
        }
    }
    false
}

/// Whether a number is among some in any order.
pub(crate) fn is_among_numbers<T: Numbered>(xs: &[T], n: u32) -> bool
    ensures { IsTrue result ↔ Contains (map T.number xs.now) n }
{
    for x in xs {
        if x.number() == n {
            return true;
        }
    }
    false
}

/// Whether a path is among some.
pub(crate) fn has_path<T: Named>(xs: &[T], ascend: bool, path: &Path) -> bool
    requires { IsTrue ascend → Ascends path_cmp T.path xs.now }
    ensures { IsTrue result ↔ Contains (map T.path xs.now) path.now }
{
    if ascend {
        xs.binary_search_by(|x| x.name().cmp(path)).is_ok()
    } else {
        is_among_paths(xs, path)
    }
}

/// Whether a number is among some.
pub(crate) fn has_number<T: Numbered>(xs: &[T], ascend: bool, n: u32) -> bool
    requires { IsTrue ascend → Ascends nat_cmp T.number xs.now }
    ensures { IsTrue result ↔ Contains (map T.number xs.now) n }
{
    if ascend {
        xs.binary_search_by(|x| x.number().cmp(&n)).is_ok()
    } else {
        is_among_numbers(xs, n)
    }
}
