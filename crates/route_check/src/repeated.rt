//! That nothing is named twice. Neighbours are compared, as long as they ascend; each with all before it where they
//! don't.
ghost use Rattle.std.specs.Prelude.{◌↔◌, IsTrue, map};
ghost use Rattle.route_model.specs.Bound.{IsDistinct};
ghost use Rattle.route_check.specs.Valid.{NoneRepeated};

use crate::claim::Claim;
use crate::keys::{Named, Numbered};
use crate::search::{is_among_numbers, is_among_paths};
use crate::steps::{number_steps, path_steps};
use std::cmp::Ordering;

fn are_paths_apart<T: Named>(xs: &[T]) -> bool
    ensures { IsTrue result ↔ IsDistinct (map T.path xs.now) }
{
    for i in 0..xs.len() {
        if is_among_paths(&xs[..i], xs[i].name()) {
            return false;
        }
    }
    true
}

fn are_numbers_apart<T: Numbered>(xs: &[T]) -> bool
    ensures { IsTrue result ↔ IsDistinct (map T.number xs.now) }
{
    for i in 0..xs.len() {
        if is_among_numbers(&xs[..i], xs[i].number()) {
            return false;
        }
    }
    true
}

fn are_paths_distinct<T: Named>(xs: &[T]) -> bool
    ensures { IsTrue result ↔ IsDistinct (map T.path xs.now) }
{
    match path_steps(xs) {
        Ordering::Less => true,
        Ordering::Equal => false,
        Ordering::Greater => are_paths_apart(xs),
    }
}

fn are_numbers_distinct<T: Numbered>(xs: &[T]) -> bool
    ensures { IsTrue result ↔ IsDistinct (map T.number xs.now) }
{
    match number_steps(xs) {
        Ordering::Less => true,
        Ordering::Equal => false,
        Ordering::Greater => are_numbers_apart(xs),
    }
}

/// Whether no link and no interrupt is named twice where it may stand once.
pub(crate) fn none_repeated(claim: &Claim) -> bool
    ensures { IsTrue result ↔ NoneRepeated claim.now }
{
    if !are_paths_distinct(claim.links()) {
        return false;
    }
    if !are_paths_distinct(claim.gives()) {
        return false;
    }
    if !are_numbers_distinct(claim.wired()) {
        return false;
    }
    if !are_paths_distinct(claim.set_links()) {
        return false;
    }
    are_numbers_distinct(claim.set_interrupts())
}
