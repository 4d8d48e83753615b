//! The lists of a claim in order, so that the order of a report's lines says nothing.
ghost use Rattle.std.specs.Prelude.{◌≡◌, ◌==◌, Ok};
ghost use Rattle.std.specs.List.{dedup};
ghost use Rattle.std.specs.FinMap.{IsAntisymmetric};
ghost use Rattle.aml_path.specs.Paths.{path_cmp};
ghost use Rattle.ar_space.specs.Outcome.{Answers, seen};
ghost use Rattle.route_report.specs.Ordered.{in_order, barred, link_order, give_order, bound_in_order};

use aml_path::Path;
use ar_space::Result;
use route_check::Bound;
use route_model::Link;
use std::cmp::Ordering;

/// A list in the order of its elements, of which none ties with another.
pub(crate) fn in_order<T: Ord>(mut xs: Vec<T>) -> Vec<T>
    requires { IsAntisymmetric T.cmp }
    ensures { result.items ≡ in_order T.cmp xs.items }
{
    xs.sort_unstable();
    xs
}

/// The first two segments of a path as one number, which mostly tells in which order two paths stand.
fn front(path: &Path) -> u64 {
    let segment = |i: usize| match path.segments().get(i) {
        Some(segment) => u64::from(u32::from_be_bytes(segment.bytes())),
        None => 0,
    };
    segment(0).wrapping_mul(1 << 32) | segment(1)
}

/// How two links stand in order: by their paths, and by their offers where these are the same.
fn link_order(one: &Link, other: &Link) -> Ordering
    ensures { result ≡ link_order one.now other.now }
{
    one.path()
        .cmp(other.path())
        .then(one.offers().cmp(other.offers()))
}

/// Links by their paths.
pub(crate) fn links_in_order(mut links: Vec<Link>) -> Vec<Link>
    ensures { result.items ≡ in_order link_order links.items }
{
    links.sort_unstable_by(|one, other| link_order(one, other));
    links
}

/// Gives by their paths.
///
/// Long lists are first sorted by numbers that stand side by side in memory, which a path's segments don't. Where
/// there is no memory for these, nothing is lost but time.
pub(crate) fn gives_in_order(mut gives: Vec<(Path, u32)>) -> Vec<(Path, u32)>
    ensures { result.items ≡ in_order give_order gives.items }
{
    let _ = gives.sort_by_cached_key(|give| front(&give.0));
    in_order(gives)
}

fn paths_in_order(mut paths: Vec<Path>) -> Vec<Path>
    ensures { result.items ≡ in_order path_cmp paths.items }
{
    let _ = paths.sort_by_cached_key(front);
    in_order(paths)
}

/// A list of numbers without those that stand right behind an equal one.
fn without_repeats(mut numbers: Vec<u32>) -> Vec<u32>
    ensures { result.items ≡ dedup ◌==◌ numbers.items }
{
    numbers.dedup();
    numbers
}

/// Numbers that are avoided and numbers that are spared, ascending, each once.
pub(crate) fn barred(mut avoid: Vec<u32>, mut spared: Vec<u32>) -> Result<Vec<u32>>
    ensures { Answers (seen (λ v. v.items) result) (Ok (barred avoid.items spared.items)) }
{
    avoid.append(&mut spared)?;
    Ok(without_repeats(in_order(avoid)))
}

/// Both lists of a bound.
pub(crate) fn bound_in_order(bound: Option<Bound>) -> Option<Bound>
    ensures { result ≡ bound_in_order bound }
{
    match bound {
        Some(bound) => Some(Bound {
            links: paths_in_order(bound.links),
            interrupts: in_order(bound.interrupts),
        }),
        None => None,
    }
}
