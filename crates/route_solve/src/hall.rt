//! The Hall set of a limit that is too small: links that offer no other interrupts than those that are full with them.
ghost use Rattle.std.specs.Prelude.{◌≡◌, ◌≤◌, ◌<◌, ℕ, IfOk, IsSome, MatchOption, None, Some, true, false, length};
ghost use Rattle.std.specs.Bool.{OnTrue, OnFalse};
ghost use Rattle.route_model.specs.Placement.{is_reached, place_of, taken, Offers};
ghost use Rattle.route_solve.specs.Certificate.{IsCertificate};
ghost use Rattle.route_solve.specs.Graphs.{capacity, edges, AddsHolders, AreSeen, ExtendsHall, FindsFree};
ghost use Rattle.route_solve.specs.Graphs.{HasReachedHolders, IsBlocked, IsExplored, IsGraph, IsHallSized, IsMatching};
ghost use Rattle.route_solve.specs.Graphs.{IsOfferedByReached, IsSizedFor, IsUnplaced, OffersFree, SearchesHall};
ghost use Rattle.route_solve.specs.Capacities.{at};

use crate::graph::{Graph, has_room};
use crate::matching::Matching;
use crate::search::clear_marks;
use std::alloc::{AllocError, Global};

/// A search by levels from a link that can't be placed: to all links that have what it offers, to those that have
/// what these offer, and so on. If it finds no room, the links that it reached are a Hall set: what they offer is
/// full with them, and they are one more.
#[derive(Drop)]
pub(crate) struct HallSearch {
    /// The links that it has reached.
    pub reached: Vec<bool>,
    /// The same, level after level.
    pub queue: Vec<usize>,
    /// How many links it has reached.
    pub tail: usize,
    /// The interrupts that it has seen: all links that hold one are reached.
    pub seen: Vec<bool>,
}

impl HallSearch {
    /// Takes memory for so many links and interrupts.
    pub(crate) fn new(
        alloc: Global,
        links: usize,
        interrupts: usize,
    ) -> Result<HallSearch, AllocError>
        ensures { IfOk result (λ search. IsSizedFor links interrupts search) }
    {
        Ok(HallSearch {
            reached: vec![in alloc; false; links]?,
            queue: vec![in alloc; 0; links]?,
            tail: 0,
            seen: vec![in alloc; false; interrupts]?,
        })
    }

    /// Begins anew, with no link reached and no interrupt seen.
    fn clear(&mut self)
        ensures reached { (k : ℕ) → is_reached self.new.reached.items k ≡ false }
        ensures seen { (k : ℕ) → is_reached self.new.seen.items k ≡ false }
        ensures tail { self.new.tail ≡ 0 }
        ensures queue { self.new.queue.items ≡ self.old.queue.items }
        ensures same_reached { length self.new.reached.items ≡ length self.old.reached.items }
        ensures same_seen { length self.new.seen.items ≡ length self.old.seen.items }
    {
        clear_marks(&mut self.reached);
        clear_marks(&mut self.seen);
        self.tail = 0;
    }

    /// Begins with one link that has no interrupt.
    fn begin(&mut self, graph: &Graph<'_>, matching: &Matching, link: usize)
        requires matching { IsMatching graph.now matching.now }
        requires sized { IsHallSized graph.now self.old }
        requires link { IsUnplaced matching.now link }
        requires movable { graph.now.low ≤ link }
        ensures search { SearchesHall graph.now matching.now self.new }
        ensures one { self.new.tail ≡ 1 }
        ensures root { at self.new.queue.items 0 ≡ link }
    {
        self.clear();
        self.reached[link] = true;
        self.queue[0] = link;
        self.tail = 1;
    }

    /// Whether link `j` holds interrupt `i` and was not reached.
    fn is_to_reach(&self, matching: &Matching, j: usize, i: usize) -> bool
        requires choices { j < length matching.now.choice.items }
        requires marks { length self.now.reached.items ≡ length matching.now.choice.items }
        ensures yes { OnTrue result ((is_reached self.now.reached.items j ≡ false) ×
            (place_of matching.now.choice.items j ≡ Some i)) }
        ensures no { OnFalse result (place_of matching.now.choice.items j ≡ Some i →
            is_reached self.now.reached.items j ≡ true) }
    {
        if self.reached[j] {
            return false;
        }
        if matching.choice[j] == Some(i) {
            return true;
        }
        false
    }

    /// Reaches all links that hold interrupt `i`, which a reached link offers.
    fn reach(&mut self, graph: &Graph<'_>, matching: &Matching, i: usize)
        requires matching { IsMatching graph.now matching.now }
        requires search { SearchesHall graph.now matching.now self.old }
        requires offered { IsOfferedByReached graph.now self.old i }
        ensures search { SearchesHall graph.now matching.now self.new }
        ensures further { ExtendsHall self.old self.new }
        ensures seen { self.new.seen.items ≡ self.old.seen.items }
        ensures held { (k : ℕ) → self.old.tail ≤ k → k < self.new.tail →
            place_of matching.now.choice.items (at self.new.queue.items k) ≡ Some i }
        ensures holders { HasReachedHolders graph.now matching.now self.new i }
    {
        for j in graph.low..matching.choice.len() {
            if self.is_to_reach(matching, j, i) {
                self.reached[j] = true;
                self.queue[self.tail] = j;
                self.tail += 1;
            }
        }
    }

    /// Looks at what the link at a place of the queue offers, up to an interrupt that has room.
    fn visit(&mut self, graph: &Graph<'_>, matching: &Matching, pos: usize) -> Option<usize>
        requires graph { IsGraph graph.now }
        requires matching { IsMatching graph.now matching.now }
        requires search { SearchesHall graph.now matching.now self.old }
        requires pos { pos < self.old.tail }
        ensures search { SearchesHall graph.now matching.now self.new }
        ensures further { ExtendsHall self.old self.new }
        ensures held { AddsHolders matching.now self.old self.new }
        ensures done { MatchOption result (AreSeen graph.now self.new (at self.old.queue.items pos))
            (OffersFree graph.now matching.now (at self.old.queue.items pos)) }
    {
        let offers: &[usize] = &graph.offers[self.queue[pos]];
        let counts: &[usize] = &matching.counts;
        for i in offers {
            if self.seen[*i] {
                continue;
            }
            if has_room(graph, counts, *i) {
                return Some(*i);
            }
            self.reach(graph, matching, *i);
            self.seen[*i] = true;
        }
        None
    }

    /// Looks at the links of the queue, level after level, up to one that offers an interrupt that has room.
    fn explore(&mut self, graph: &Graph<'_>, matching: &Matching) -> Option<(usize, usize)>
        requires graph { IsGraph graph.now }
        requires matching { IsMatching graph.now matching.now }
        requires search { SearchesHall graph.now matching.now self.old }
        ensures search { SearchesHall graph.now matching.now self.new }
        ensures further { ExtendsHall self.old self.new }
        ensures held { AddsHolders matching.now self.old self.new }
        ensures found { MatchOption result (IsExplored graph.now self.new) (FindsFree graph.now matching.now self.new) }
    {
        let mut pos = 0;
        while pos < self.tail {
            match self.visit(graph, matching, pos) {
                Some(i) => return Some((pos, i)),
                None => {}
            }
            pos += 1;
        }
        None
    }
}

/// Leaves as reached the Hall set of a link that can't be placed beside those before it, since no augmenting path
/// begins there.
pub(crate) fn mark_hall_set(
    graph: &Graph<'_>,
    matching: &Matching,
    hall: &mut HallSearch,
    link: usize,
)
    requires graph { IsGraph graph.now }
    requires matching { IsMatching graph.now matching.now }
    requires sized { IsHallSized graph.now hall.old }
    requires all { graph.now.low ≡ 0 }
    requires link { link < length matching.now.choice.items }
    requires whole { (k : ℕ) → k < link → IsSome (place_of matching.now.choice.items k) }
    requires unplaced { (k : ℕ) → link ≤ k → place_of matching.now.choice.items k ≡ None }
    requires blocked { IsBlocked graph.now matching.now link }
    ensures sized { IsHallSized graph.now hall.new }
    ensures set { IsCertificate (edges graph.now) (capacity graph.now) hall.new.reached.items }
{
    hall.begin(graph, matching, link);
    // No link that it reaches offers room: else an augmenting path would begin at the first one.
    hall.explore(graph, matching);
}
