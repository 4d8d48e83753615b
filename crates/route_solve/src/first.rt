//! The first of the assignments within a limit.
ghost use Rattle.std.specs.Prelude.{◌≡◌, ◌<◌, ℕ, [], IfSome, Some, length, slice_index_or, take};
ghost use Rattle.std.specs.Bool.{OnTrue};
ghost use Rattle.route_model.specs.Placement.{place_of, Offers, IsWhole};
ghost use Rattle.route_solve.specs.First.{IsFirstOpen, IsLeastAt};
ghost use Rattle.route_solve.specs.Graphs.{capacity, edges, interrupts_in, IsComplete, IsCountBefore, IsGraph, IsSized};
ghost use Rattle.route_solve.specs.Capacities.{IsCounted};

use crate::graph::{Graph, has_room};
use crate::matching::{Matching, count_one};
use crate::moves::place_ready;
use crate::search::Search;

/// The first of a link's interrupts in which the links before it have left room.
fn first_open(graph: &Graph<'_>, kept: &[usize], link: usize) -> Option<usize>
    requires graph { IsGraph graph.now }
    requires link { link < length graph.now.offers.now }
    requires kept { length kept.now ≡ interrupts_in graph.now }
    ensures { IfSome result (IsFirstOpen (capacity graph.now) kept.now (slice_index_or (edges graph.now) link [])) }
{
    let offers: &[usize] = &graph.offers[link];
    for i in offers {
        if has_room(graph, kept, *i) {
            return Some(*i);
        }
    }
    None
}

/// Gives a link that has an interrupt another one, if that has room or is the same.
fn shift(graph: &Graph<'_>, matching: &mut Matching, link: usize, x: usize, i: usize) -> bool
    requires graph { IsGraph graph.now }
    requires matching { IsComplete graph.now matching.old }
    requires link { link < length matching.old.choice.items }
    requires held { place_of matching.old.choice.items link ≡ Some x }
    requires offered { Offers (edges graph.now) link i }
    ensures matching { IsComplete graph.now matching.new }
    ensures kept { take link matching.new.choice.items ≡ take link matching.old.choice.items }
    ensures given { OnTrue result (place_of matching.new.choice.items link ≡ Some i) }
{
    if i == x {
        return true;
    }
    if !has_room(graph, &matching.counts, i) {
        return false;
    }
    matching.free(link, x);
    matching.give(link, i);
    true
}

/// Gives a link the first of its interrupts in which the links before it have left room, if that needs no other link
/// to move. An interrupt that they have filled can't be given to it.
fn fix_directly(graph: &Graph<'_>, matching: &mut Matching, kept: &[usize], link: usize) -> bool
    requires graph { IsGraph graph.now }
    requires matching { IsComplete graph.now matching.old }
    requires link { link < length matching.old.choice.items }
    requires kept { IsCountBefore graph.now matching.old kept.now link }
    ensures matching { IsComplete graph.now matching.new }
    ensures kept { take link matching.new.choice.items ≡ take link matching.old.choice.items }
    ensures least { OnTrue result (IsLeastAt (edges graph.now) (capacity graph.now) matching.new.choice.items link) }
{
    let x = matching.held(link);
    match first_open(graph, kept, link) {
        Some(i) => shift(graph, matching, link, x, i),
        None => false,
    }
}

/// Gives a link the first interrupt with which those after it can be placed, found by a search for augmenting paths.
fn fix_by_search(graph: &Graph<'_>, matching: &mut Matching, search: &mut Search, link: usize)
    requires graph { IsGraph graph.now }
    requires matching { IsComplete graph.now matching.old }
    requires sized { IsSized (interrupts_in graph.now) search.old }
    requires link { link < length matching.old.choice.items }
    ensures matching { IsComplete graph.now matching.new }
    ensures sized { IsSized (interrupts_in graph.now) search.new }
    ensures kept { take link matching.new.choice.items ≡ take link matching.old.choice.items }
    ensures least { IsLeastAt (edges graph.now) (capacity graph.now) matching.new.choice.items link }
{
    let x = matching.held(link);
    matching.free(link, x);
    let here = Graph {
        low: link + 1,
        ..*graph
    };
    place_ready(&here, matching, search, link);
}

/// Gives a link the first interrupt with which those after it can be placed.
fn fix(graph: &Graph<'_>, matching: &mut Matching, kept: &[usize], search: &mut Search, link: usize)
    requires graph { IsGraph graph.now }
    requires matching { IsComplete graph.now matching.old }
    requires sized { IsSized (interrupts_in graph.now) search.old }
    requires link { link < length matching.old.choice.items }
    requires kept { IsCountBefore graph.now matching.old kept.now link }
    ensures matching { IsComplete graph.now matching.new }
    ensures sized { IsSized (interrupts_in graph.now) search.new }
    ensures kept { take link matching.new.choice.items ≡ take link matching.old.choice.items }
    ensures least { IsLeastAt (edges graph.now) (capacity graph.now) matching.new.choice.items link }
{
    if fix_directly(graph, matching, kept, link) {
        return;
    }
    fix_by_search(graph, matching, search, link);
}

/// Gives the links, one after the other, the first interrupts with which those after them can be placed.
pub(crate) fn fix_all(
    graph: &Graph<'_>,
    matching: &mut Matching,
    kept: &mut [usize],
    search: &mut Search,
)
    requires graph { IsGraph graph.now }
    requires matching { IsComplete graph.now matching.old }
    requires sized { IsSized (interrupts_in graph.now) search.old }
    requires kept { length kept.old ≡ interrupts_in graph.now }
    ensures matching { IsComplete graph.now matching.new }
    ensures least { (l : ℕ) → l < length graph.now.offers.now → IsLeastAt (edges graph.now) (capacity graph.now)
        matching.new.choice.items l }
{
    kept.fill(0);
    for link in 0..matching.choice.len() {
        fix(graph, matching, kept, search, link);
        count_one(kept, matching.held(link));
    }
}
