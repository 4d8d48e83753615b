//! A search for augmenting paths, back from the interrupts that have room.
ghost use Rattle.std.specs.Prelude.{◌≡◌, ◌<◌, ℕ, IfOk, true, false, length};
ghost use Rattle.route_model.specs.Placement.{is_reached, taken};
ghost use Rattle.route_solve.specs.Graphs.{capacity, edges, interrupts_in, HasVisitedFree, IsGraph, IsMatching};
ghost use Rattle.route_solve.specs.Graphs.{IsSized, Searches};
ghost use Rattle.route_solve.specs.Ready.{AreReady};

use crate::graph::{Graph, has_room};
use crate::left::{begin_left, has_left};
use crate::matching::Matching;
use crate::ways::{NO_WAY, Way};
use std::alloc::{AllocError, Global};

/// A search back from the interrupts that are below their capacity, along the links that could go there, to all
/// interrupts at which an augmenting path begins: these are ready for one link more.
///
/// It visits each interrupt and each link once at most.
#[derive(Drop)]
pub(crate) struct Search {
    /// The links that it hasn't come to, a bit for each.
    pub left: [u64; 4],
    /// The interrupts that it has visited: they are ready.
    pub visited: Vec<bool>,
    /// The steps of the augmenting paths, in the order in which it found them.
    pub ways: Vec<Way>,
    /// How many steps it has found.
    pub found: usize,
}

/// Nothing is marked.
pub(crate) fn clear_marks(marks: &mut Vec<bool>)
    ensures none { (k : ℕ) → is_reached marks.new.items k ≡ false }
    ensures same { length marks.new.items ≡ length marks.old.items }
{
    marks.fill(false);
}

impl Search {
    /// Takes memory for so many interrupts.
    pub(crate) fn new(alloc: Global, interrupts: usize) -> Result<Search, AllocError>
        ensures { IfOk result (λ search. IsSized interrupts search) }
    {
        Ok(Search {
            left: [0; 4],
            visited: vec![in alloc; false; interrupts]?,
            ways: vec![in alloc; NO_WAY; interrupts]?,
            found: 0,
        })
    }

    /// Begins with the interrupts that have room.
    fn begin(&mut self, graph: &Graph<'_>, matching: &Matching)
        requires graph { IsGraph graph.now }
        requires matching { IsMatching graph.now matching.now }
        requires sized { IsSized (interrupts_in graph.now) self.old }
        ensures search { Searches graph.now matching.now self.new }
        ensures room { HasVisitedFree graph.now matching.now self.new }
    {
        begin_left(&mut self.left, graph.low, matching.choice.len());
        clear_marks(&mut self.visited);
        self.found = 0;
        let counts: &[usize] = &matching.counts;
        for interrupt in 0..counts.len() {
            if has_room(graph, counts, interrupt) {
                let way = Way {
                    interrupt,
                    link: 0,
                    next: 0,
                };
                self.add_way(graph, matching, way);
            }
        }
    }

    /// Visits all interrupts that are ready, where the links from one on may be moved.
    pub(crate) fn run(&mut self, graph: &Graph<'_>, matching: &Matching)
        requires graph { IsGraph graph.now }
        requires matching { IsMatching graph.now matching.now }
        requires sized { IsSized (interrupts_in graph.now) self.old }
        ensures search { Searches graph.now matching.now self.new }
        ensures ready { AreReady (edges graph.now) (capacity graph.now) matching.now.choice.items graph.now.low
            self.new.visited.items }
    {
        self.begin(graph, matching);
        let mut pos = 0;
        while pos < self.found {
            if !has_left(&self.left) {
                return;
            }
            self.visit_from(graph, matching, pos);
            pos += 1;
        }
    }
}
