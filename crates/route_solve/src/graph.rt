//! The bipartite graph in which links are matched with interrupts.
ghost use Rattle.std.specs.Prelude.{◌≡◌, ◌≤◌, ◌<◌, length};
ghost use Rattle.std.specs.Bool.{OnTrue, OnFalse};
ghost use Rattle.route_solve.specs.Graphs.{capacity, interrupts_in};
ghost use Rattle.route_solve.specs.Capacities.{at};

/// Links and interrupts as the two sides of a graph: an edge joins a link to each interrupt that it offers.
/// Interrupts are known by their places among all that are offered.
///
/// An interrupt has a capacity: how many links may have it, which is the limit less the sources that are wired to it.
#[derive(Clone, Copy)]
pub(crate) struct Graph<'a> {
    /// The edges by links: for each link the interrupts that it offers, ascending.
    pub offers: &'a [Vec<usize>],
    /// The edges by interrupts: for each interrupt a row of bits, one for each link.
    pub rows: &'a [u64],
    /// How many sources are wired to each interrupt.
    pub sources: &'a [usize],
    /// How many sources an interrupt may serve.
    pub limit: usize,
    /// The links before this one keep what they have.
    pub low: usize,
}

/// Whether an interrupt that so many links have is below its capacity.
pub(crate) fn has_room(graph: &Graph<'_>, counts: &[usize], i: usize) -> bool
    requires known { i < length counts.now }
    requires sources { length counts.now ≡ interrupts_in graph.now }
    ensures yes { OnTrue result (at counts.now i < capacity graph.now i) }
    ensures no { OnFalse result (capacity graph.now i ≤ at counts.now i) }
{
    if counts[i] < graph.limit.saturating_sub(graph.sources[i]) {
        return true;
    }
    false
}
