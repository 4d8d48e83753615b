//! Moves links along an augmenting path, so that one more has an interrupt.
ghost use Rattle.std.specs.Prelude.{◌≡◌, ◌≤◌, ◌<◌, ℕ, [], ⊤, Contains, None, Some, MatchOption, false, true, length};
ghost use Rattle.std.specs.Prelude.{slice_index_or};
ghost use Rattle.std.specs.Bool.{OnTrue, OnFalse};
ghost use Rattle.route_model.specs.Placement.{is_reached, place_of, Offers};
ghost use Rattle.route_solve.specs.Graphs.{capacity, edges, interrupts_in, IsBlocked, IsGraph, IsMatching, IsSized};
ghost use Rattle.route_solve.specs.Graphs.{IsUnplaced};
ghost use Rattle.route_solve.specs.Capacities.{at};
ghost use Rattle.route_solve.specs.Ready.{ready_at, AreReady, AreWays, IsAugmented};

use crate::graph::{Graph, has_room};
use crate::matching::Matching;
use crate::search::Search;
use crate::ways::Way;

/// Gives a link the interrupt of a way, along the augmenting path that begins there: where that interrupt is full, a
/// link that has it goes to the next way's, and so on.
fn augment(graph: &Graph<'_>, matching: &mut Matching, ways: &[Way], link: usize, start: usize)
    requires graph { IsGraph graph.now }
    requires matching { IsMatching graph.now matching.old }
    requires ways { AreWays (edges graph.now) (capacity graph.now) matching.old.choice.items graph.now.low
        ways.now (length ways.now) }
    requires link { IsUnplaced matching.old link }
    requires start { start < length ways.now }
    requires offered { Offers (edges graph.now) link (ready_at ways.now start) }
    ensures matching { IsMatching graph.now matching.new }
    ensures augmented { IsAugmented graph.now.low matching.old.choice.items link matching.new.choice.items }
    ensures given { place_of matching.new.choice.items link ≡ Some (ready_at ways.now start) }
{
    let mut to_place = link;
    let mut pos = start;
    while !has_room(graph, &matching.counts, ways[pos].interrupt) {
        let way = ways[pos];
        matching.free(way.link, way.interrupt);
        matching.give(to_place, way.interrupt);
        to_place = way.link;
        pos = way.next;
    }
    matching.give(to_place, ways[pos].interrupt);
}

/// The first of a link's offers that is ready, by its place among them.
fn first_ready(offers: &[usize], visited: &[bool]) -> Option<usize>
    requires { (i : ℕ) → Contains offers.now i → i < length visited.now }
    ensures { MatchOption result ((i : ℕ) → Contains offers.now i →
        is_reached visited.now i ≡ false) (λ k. (k < length offers.now) ×
        (is_reached visited.now (at offers.now k) ≡ true) × ((j : ℕ) → j < k →
        is_reached visited.now (at offers.now j) ≡ false)) }
{
    for k in 0..offers.len() {
        if visited[offers[k]] {
            return Some(k);
        }
    }
    None
}

/// The way of an interrupt that is ready.
fn way_of(ways: &[Way], i: usize) -> usize
    requires { (k : ℕ) × (k < length ways.now) × (ready_at ways.now k ≡ i) }
    ensures within { result < length ways.now }
    ensures there { ready_at ways.now result ≡ i }
{
    for k in 0..ways.len() {
        if ways[k].interrupt == i {
            return k;
        }
    }
    0
}

/// Gives a link that has no interrupt the first of its offers that is ready. Answers the index of that interrupt
/// among the link's offers, or none where none of them is ready.
pub(crate) fn place_ready(
    graph: &Graph<'_>,
    matching: &mut Matching,
    search: &mut Search,
    link: usize,
) -> Option<usize>
    requires graph { IsGraph graph.now }
    requires matching { IsMatching graph.now matching.old }
    requires sized { IsSized (interrupts_in graph.now) search.old }
    requires link { IsUnplaced matching.old link }
    ensures matching { IsMatching graph.now matching.new }
    ensures sized { IsSized (interrupts_in graph.now) search.new }
    ensures ready { AreReady (edges graph.now) (capacity graph.now) matching.old.choice.items graph.now.low
        search.new.visited.items }
    ensures given { MatchOption result (matching.new.choice.items ≡ matching.old.choice.items)
        (λ k. (k < length (slice_index_or (edges graph.now) link [])) ×
        (place_of matching.new.choice.items link ≡ Some (at (slice_index_or (edges graph.now) link []) k))) }
    ensures augmented { MatchOption result ⊤ (λ k. IsAugmented graph.now.low matching.old.choice.items link
        matching.new.choice.items) }
    ensures first { MatchOption result ((i : ℕ) → Offers (edges graph.now) link i →
        is_reached search.new.visited.items i ≡ false) (λ k. (j : ℕ) → j < k →
        is_reached search.new.visited.items (at (slice_index_or (edges graph.now) link []) j) ≡ false) }
{
    search.run(graph, matching);
    let offers: &[usize] = &graph.offers[link];
    let k = first_ready(offers, &search.visited)?;
    let ways = &search.ways[..search.found];
    let start = way_of(ways, offers[k]);
    augment(graph, matching, ways, link, start);
    Some(k)
}

/// The first of some interrupts that has room.
fn first_free(graph: &Graph<'_>, counts: &[usize], offers: &[usize]) -> Option<usize>
    requires known { (i : ℕ) → Contains offers.now i → i < length counts.now }
    requires sources { length counts.now ≡ interrupts_in graph.now }
    ensures { MatchOption result ⊤ (λ i. Contains offers.now i × (at counts.now i < capacity graph.now i)) }
{
    for i in offers {
        if has_room(graph, counts, *i) {
            return Some(*i);
        }
    }
    None
}

/// Gives a link that has no interrupt one, for which others may be moved, if it can be given one.
pub(crate) fn place(
    graph: &Graph<'_>,
    matching: &mut Matching,
    search: &mut Search,
    link: usize,
) -> bool
    requires graph { IsGraph graph.now }
    requires matching { IsMatching graph.now matching.old }
    requires sized { IsSized (interrupts_in graph.now) search.old }
    requires link { IsUnplaced matching.old link }
    ensures matching { IsMatching graph.now matching.new }
    ensures sized { IsSized (interrupts_in graph.now) search.new }
    ensures augmented { OnTrue result (IsAugmented graph.now.low matching.old.choice.items link matching.new.choice.items) }
    ensures unchanged { OnFalse result (matching.new.choice.items ≡ matching.old.choice.items) }
    ensures blocked { OnFalse result (IsBlocked graph.now matching.new link) }
{
    match first_free(graph, &matching.counts, &graph.offers[link]) {
        Some(i) => {
            matching.give(link, i);
            return true;
        }
        None => {}
    }
    match place_ready(graph, matching, search, link) {
        Some(_) => true,
        None => false,
    }
}
