//! The steps of augmenting paths: from an interrupt that is ready to those of the links that can go there.
ghost use Rattle.std.specs.Prelude.{◌≡◌, ◌≤◌, ◌<◌, ◌/◌, ℕ, Some, true, length};
ghost use Rattle.route_model.specs.Placement.{is_reached, place_of, Offers};
ghost use Rattle.route_solve.specs.Graphs.{capacity, edges, interrupts_in, Extends, HasVisitedFrom, IsGraph};
ghost use Rattle.route_solve.specs.Graphs.{IsMatching, Searches};
ghost use Rattle.route_solve.specs.Ready.{ready_at, IsWay};

use crate::graph::Graph;
use crate::left::{clear_left, next_left};
use crate::matching::Matching;
use crate::search::Search;

/// A step of an augmenting path: an interrupt that is ready, since it has room, or since a link that has it can go to
/// the interrupt of an earlier way.
#[derive(Clone, Copy)]
pub(crate) struct Way {
    /// The interrupt.
    pub interrupt: usize,
    /// The link that would go.
    pub link: usize,
    /// The way to whose interrupt that link would go.
    pub next: usize,
}

/// What stands where no way has been found.
pub(crate) const NO_WAY: Way = Way {
    interrupt: 0,
    link: 0,
    next: 0,
};

impl Search {
    /// Visits the interrupt of a way, unless it was visited.
    pub(crate) fn add_way(&mut self, graph: &Graph<'_>, matching: &Matching, way: Way)
        requires search { Searches graph.now matching.now self.old }
        requires known { way.interrupt < interrupts_in graph.now }
        requires is_way { IsWay (edges graph.now) (capacity graph.now) matching.now.choice.items graph.now.low
            self.old.ways.items self.old.found way }
        ensures search { Searches graph.now matching.now self.new }
        ensures further { Extends self.old self.new }
        ensures left { self.new.left ≡ self.old.left }
        ensures visited { is_reached self.new.visited.items way.interrupt ≡ true }
    {
        if self.visited[way.interrupt] {
            return;
        }
        self.visited[way.interrupt] = true;
        self.ways[self.found] = way;
        self.found += 1;
    }

    /// Visits the interrupt that holds a link, which can go to the interrupt of the way at `pos`.
    fn visit_link(&mut self, graph: &Graph<'_>, matching: &Matching, pos: usize, link: usize)
        requires graph { IsGraph graph.now }
        requires matching { IsMatching graph.now matching.now }
        requires search { Searches graph.now matching.now self.old }
        requires pos { pos < self.old.found }
        requires movable { graph.now.low ≤ link }
        requires offered { Offers (edges graph.now) link (ready_at self.old.ways.items pos) }
        ensures search { Searches graph.now matching.now self.new }
        ensures further { Extends self.old self.new }
        ensures left { self.new.left ≡ self.old.left }
        ensures visited { (x : ℕ) → place_of matching.now.choice.items link ≡ Some x →
            is_reached self.new.visited.items x ≡ true }
    {
        match matching.choice[link] {
            Some(interrupt) => {
                let way = Way {
                    interrupt,
                    link,
                    next: pos,
                };
                self.add_way(graph, matching, way);
            }
            None => {}
        }
    }

    /// The same for the links of one word of the bits: visits each interrupt that holds such a link.
    fn visit_word(
        &mut self,
        graph: &Graph<'_>,
        matching: &Matching,
        pos: usize,
        interrupt: usize,
        w: usize,
    )
        requires graph { IsGraph graph.now }
        requires matching { IsMatching graph.now matching.now }
        requires search { Searches graph.now matching.now self.old }
        requires pos { pos < self.old.found }
        requires way { ready_at self.old.ways.items pos ≡ interrupt }
        requires word { w < 4 }
        ensures search { Searches graph.now matching.now self.new }
        ensures further { Extends self.old self.new }
        ensures visited { (l x : ℕ) → l / 64 ≡ w → graph.now.low ≤ l → Offers (edges graph.now) l interrupt →
            place_of matching.now.choice.items l ≡ Some x → is_reached self.new.visited.items x ≡ true }
    {
        while let Some(link) = next_left(&self.left, graph.rows, interrupt, w) {
            self.visit_link(graph, matching, pos, link);
            clear_left(&mut self.left, link);
        }
    }

    /// Visits each interrupt that holds a link which may be moved, and which can go to the interrupt of the way at
    /// `pos`.
    pub(crate) fn visit_from(&mut self, graph: &Graph<'_>, matching: &Matching, pos: usize)
        requires graph { IsGraph graph.now }
        requires matching { IsMatching graph.now matching.now }
        requires search { Searches graph.now matching.now self.old }
        requires pos { pos < self.old.found }
        ensures search { Searches graph.now matching.now self.new }
        ensures further { Extends self.old self.new }
        ensures visited { HasVisitedFrom graph.now matching.now self.new (ready_at self.old.ways.items pos) }
    {
        let interrupt = self.ways[pos].interrupt;
        for w in 0..4 {
            self.visit_word(graph, matching, pos, interrupt, w);
        }
    }
}
