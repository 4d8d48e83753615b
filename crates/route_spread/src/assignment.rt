//! Links on interrupts, each known by its place, and how links move along a way.
ghost use Rattle.std.specs.Prelude.{◌≡◌, length};
ghost use Rattle.route_spread.specs.InMemory.{CanBeMarked, HasRoomFor, HaveWay, WereMoved};

use crate::holders::Holders;
use crate::marking::{Marks, Way};

/// Links on interrupts that they offer.
#[derive(Drop)]
pub(crate) struct Assignment {
    /// For each link the places of what it offers.
    pub offers: Vec<Vec<usize>>,
    /// For each link the place of the interrupt that it has.
    pub choice: Vec<usize>,
    /// How many sources each interrupt serves.
    pub loads: Vec<u128>,
    /// The links of each interrupt.
    pub holders: Holders,
}

impl Assignment {
    /// Moves links along a way: the link at its end to the target, then, from where that link was, the link for which
    /// that interrupt was raised, and so on to an interrupt that was not raised. This one serves a source less, and
    /// the target one more.
    pub(crate) fn shift(&mut self, marks: &Marks, way: Way)
        requires assigned { CanBeMarked self.old }
        requires room { HasRoomFor (length self.old.loads.items) marks.now }
        requires way { HaveWay self.old marks.now way }
        ensures moved { WereMoved self.old self.new }
        ensures same { (self.new.offers ≡ self.old.offers) × (self.new.holders ≡ self.old.holders) }
        ensures links { length self.new.choice.items ≡ length self.old.choice.items }
        ensures interrupts { length self.new.loads.items ≡ length self.old.loads.items }
    {
        let mut next = way.link;
        let mut to = way.target;
        while marks.raised[self.choice[next]] {
            let interrupt = self.choice[next];
            self.choice[next] = to;
            to = interrupt;
            next = marks.from[interrupt];
        }
        let root = self.choice[next];
        self.choice[next] = to;
        self.loads[root] -= 1;
        self.loads[way.target] += 1;
    }
}
