//! Whether the elements of a list ascend.
ghost use Rattle.std.specs.Prelude.{◌≡◌, IsTrue, map, ⊤};
ghost use Rattle.std.specs.Ordering.{MatchOrdering, nat_cmp};
ghost use Rattle.aml_path.specs.Paths.{path_cmp};
ghost use Rattle.route_model.specs.Bound.{IsDistinct};
ghost use Rattle.route_check.specs.Ascending.{Ascends};

use crate::keys::{Named, Numbered};
use std::cmp::Ordering;

/// The first step from a path to the next one that doesn't go up: `Less` where all do.
pub(crate) fn path_steps<T: Named>(xs: &[T]) -> Ordering
    ensures { MatchOrdering result (Ascends path_cmp T.path xs.now) (IsDistinct (map T.path xs.now) → ⊥) ⊤ }
{
    for i in 1..xs.len() {
        let step = xs[i - 1].name().cmp(xs[i].name());
        if step.is_ge() {
            return step;
        }
    }
    Ordering::Less
}

/// The first step from a number to the next one that doesn't go up: `Less` where all do.
pub(crate) fn number_steps<T: Numbered>(xs: &[T]) -> Ordering
    ensures { MatchOrdering result (Ascends nat_cmp T.number xs.now) (IsDistinct (map T.number xs.now) → ⊥) ⊤ }
{
    for i in 1..xs.len() {
        let step = xs[i - 1].number().cmp(&xs[i].number());
        if step.is_ge() {
            return step;
        }
    }
    Ordering::Less
}

/// Whether each path is below the next.
#[tactic(auto, using(crate::proofs::Ascending::all_up))]
pub(crate) fn paths_ascend<T: Named>(xs: &[T]) -> bool
    ensures { IsTrue result → Ascends path_cmp T.path xs.now }
{
    path_steps(xs).is_lt()
}

/// Whether each number is below the next.
#[tactic(auto, using(crate::proofs::Ascending::all_up))]
pub(crate) fn numbers_ascend<T: Numbered>(xs: &[T]) -> bool
    ensures { IsTrue result → Ascends nat_cmp T.number xs.now }
{
    number_steps(xs).is_lt()
}
