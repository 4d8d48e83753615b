//! The least limit within which all links can be placed.
ghost use Rattle.std.specs.Prelude.{◌≡◌, ◌≤◌, ◌<◌, ℕ, length};
ghost use Rattle.route_model.specs.Placement.{Offers};
ghost use Rattle.route_solve.specs.Graphs.{edges, AreBuffers, IsComplete, IsEmpty, IsGraph, IsLeastLimit};
ghost use Rattle.route_solve.specs.Capacities.{at};

use crate::assign::Buffers;
use crate::graph::Graph;
use crate::hall::mark_hall_set;
use crate::matching::Matching;
use crate::moves::place;

/// The first of a link's offers.
fn first_offer(graph: &Graph<'_>, link: usize) -> usize
    requires graph { IsGraph graph.now }
    requires link { link < length graph.now.offers.now }
    ensures { Offers (edges graph.now) link result }
{
    let items: &[usize] = &graph.offers[link];
    items[0]
}

/// Places all links within the least limit, one after the other, and gives that limit.
///
/// Where a link can't be placed, the limit is too small: all that it offers is full, so that it has room for its
/// first offer within a limit of one more. A search marks a Hall set there. That of the last such link stays: it is
/// for the limit of one less. The links come in path order, on which the set depends that is shown (`IsCrowdedSet`).
pub(crate) fn place_all(graph: &Graph<'_>, matching: &mut Matching, buffers: &mut Buffers) -> usize
    requires graph { IsGraph graph.now }
    requires matching { IsEmpty graph.now matching.old }
    requires sized { AreBuffers graph.now buffers.old }
    requires all { graph.now.low ≡ 0 }
    requires limit { graph.now.limit ≤ 4096 }
    requires wired { (i : ℕ) → at graph.now.sources.now i ≤ graph.now.limit }
    ensures matching { IsComplete (record graph.now { limit = result }) matching.new }
    ensures sized { AreBuffers graph.now buffers.new }
    ensures least { IsLeastLimit graph.now result buffers.new.hall.reached.items }
{
    let mut limit = graph.limit;
    for link in 0..matching.choice.len() {
        let here = Graph { limit, ..*graph };
        if place(&here, matching, &mut buffers.search, link) {
            continue;
        }
        mark_hall_set(&here, matching, &mut buffers.hall, link);
        limit += 1;
        let i = first_offer(graph, link);
        matching.give(link, i);
    }
    limit
}
