//! Marks the interrupts that links lead to, from the highest down: each is raised by one at most, or a link can move
//! to it.
ghost use Rattle.std.specs.Prelude.{◌≡◌, ◌≤◌, ◌<◌, ◌+◌, ◌^◌, ◌↔◌, ℕ, Contains, IsTrue, IfOk, MatchOption, length};
ghost use Rattle.std.specs.Prelude.{false};
ghost use Rattle.route_spread.specs.Marks.{at, height_at, is_raised};
ghost use Rattle.route_spread.specs.InMemory.{AreArrangedAt, AreArrangedFor, AreLater, AreRaisedOrFar, CanBeMarked};
ghost use Rattle.route_spread.specs.InMemory.{HasRoomFor};
ghost use Rattle.route_spread.specs.InMemory.{HaveLevelled, HaveMarked, HaveRaised, HaveWay, IsCounted, KnowsHolders};

use crate::assignment::Assignment;
use crate::order::Order;
use std::alloc::{AllocError, Global};

/// A link, and an interrupt that it offers and that is lower by two at least than the link stands.
#[derive(Clone, Copy)]
pub(crate) struct Way {
    pub link: usize,
    pub target: usize,
}

/// What a marking found: the interrupts that are raised, and why.
#[derive(Drop)]
pub(crate) struct Marks {
    /// Whether each interrupt is raised.
    pub raised: Vec<bool>,
    /// For each interrupt that is raised the link that offers it.
    pub from: Vec<usize>,
    /// The interrupts, the highest first.
    pub order: Order,
}

impl Marks {
    /// Marks of so many interrupts, none of them raised.
    pub(crate) fn new(alloc: Global, count: usize) -> Result<Marks, AllocError>
        ensures { IfOk result (λ marks. HasRoomFor count marks) }
    {
        let raised = vec![in alloc; false; count]?;
        let from = vec![in alloc; 0; count]?;
        let order = Order::new(alloc, count)?;
        Ok(Marks {
            raised,
            from,
            order,
        })
    }

    /// The load of an interrupt, and one more where it is raised.
    fn height(&self, loads: &[u128], i: usize) -> u128
        requires within { i < length loads.now }
        requires long { length self.now.raised.items ≡ length loads.now }
        requires small { (x : ℕ) → at loads.now x ≤ 2 ^ 100 }
        ensures { result ≡ height_at loads.now self.now.raised.items i }
    {
        if self.raised[i] {
            loads[i] + 1
        } else {
            loads[i]
        }
    }

    /// Raises interrupt `i` by one where its load is below `top`, and notes `link`, which offers it. `top` is the
    /// height of the interrupt that `link` has. One that was raised before stays as it is.
    fn raise(&mut self, loads: &[u128], link: usize, top: u128, i: usize)
        requires within { i < length loads.now }
        requires room { HasRoomFor (length loads.now) self.old }
        requires arranged { AreArrangedAt loads.now self.old top }
        requires near { top ≤ at loads.now i + 1 }
        ensures room { HasRoomFor (length loads.now) self.new }
        ensures raised { top ≤ height_at loads.now self.new.raised.items i }
        ensures only { HaveRaised loads.now self.old self.new link top (λ x. x ≡ i) }
        ensures arranged { AreArrangedAt loads.now self.new top }
        ensures later { AreLater self.old self.new }
    {
        if loads[i] >= top || self.raised[i] {
            return;
        }
        self.raised[i] = true;
        self.from[i] = link;
        self.order.promote(i);
    }

    /// Raises by one each interrupt that `link` offers and whose load is below `top`, the height of the interrupt
    /// that `link` has. Stops at the first that is lower than `top` by two at least, and answers it.
    fn raise_all(
        &mut self,
        loads: &[u128],
        offers: &[usize],
        link: usize,
        top: u128,
    ) -> Option<usize>
        requires known { (i : ℕ) → Contains offers.now i → i < length loads.now }
        requires room { HasRoomFor (length loads.now) self.old }
        requires arranged { AreArrangedAt loads.now self.old top }
        requires small { (x : ℕ) → at loads.now x ≤ 2 ^ 100 }
        ensures room { HasRoomFor (length loads.now) self.new }
        ensures found { AreRaisedOrFar loads.now offers.now self.new top result }
        ensures only { HaveRaised loads.now self.old self.new link top (λ x. Contains offers.now x) }
        ensures arranged { AreArrangedAt loads.now self.new top }
        ensures later { AreLater self.old self.new }
    {
        for i in offers {
            if is_far(loads, *i, top) {
                return Some(*i);
            }
            self.raise(loads, link, top, *i);
        }
        None
    }

    /// Counts the interrupts that are as high as the i-th.
    fn count_high(&mut self, loads: &[u128], top: u128, i: usize)
        requires room { HasRoomFor (length loads.now) self.old }
        requires arranged { AreArrangedFor loads.now self.old i }
        requires within { i < length loads.now }
        requires top { top ≡ height_at loads.now self.old.raised.items (at self.old.order.interrupts.items i) }
        requires small { (x : ℕ) → at loads.now x ≤ 2 ^ 100 }
        ensures room { HasRoomFor (length loads.now) self.new }
        ensures counted { IsCounted loads.now self.old self.new top i }
    {
        let mut high = self.order.high;
        while high < self.order.interrupts.len()
            && self.height(loads, self.order.interrupts[high]) >= top
        {
            high += 1;
        }
        self.order.high = high;
    }

    /// Raises what the links of the i-th interrupt offer, up to a way.
    fn mark_links(&mut self, assignment: &Assignment, i: usize) -> Option<Way>
        requires assigned { CanBeMarked assignment.now }
        requires holders { KnowsHolders assignment.now }
        requires room { HasRoomFor (length assignment.now.loads.items) self.old }
        requires within { i < length assignment.now.loads.items }
        requires marked { HaveMarked assignment.now self.old i }
        ensures room { HasRoomFor (length assignment.now.loads.items) self.new }
        ensures found { MatchOption result (HaveMarked assignment.now self.new (i + 1))
            (λ way. HaveWay assignment.now self.new way) }
    {
        let loads: &[u128] = &assignment.loads;
        let interrupt = self.order.interrupts[i];
        let top = self.height(loads, interrupt);
        self.count_high(loads, top, i);
        let mut link = assignment.holders.first[interrupt];
        while link < assignment.choice.len() {
            let offers: &[usize] = &assignment.offers[link];
            match self.raise_all(loads, offers, link, top) {
                Some(target) => return Some(Way { link, target }),
                None => {}
            }
            link = assignment.holders.next[link];
        }
        None
    }

    /// Begins: the interrupts are in the order of their loads, and none is raised.
    fn begin(&mut self, loads: &[u128])
        requires { HasRoomFor (length loads.now) self.old }
        ensures room { HasRoomFor (length loads.now) self.new }
        ensures arranged { AreArrangedFor loads.now self.new 0 }
        ensures none { (x : ℕ) → is_raised self.new.raised.items x ≡ false }
    {
        self.raised.fill(false);
        self.order.arrange(loads);
    }

    /// Marks what links lead to from the highest interrupts down, up to a way. Where there is none, no link offers an
    /// interrupt that is lower.
    pub(crate) fn mark(&mut self, assignment: &Assignment) -> Option<Way>
        requires assigned { CanBeMarked assignment.now }
        requires holders { KnowsHolders assignment.now }
        requires room { HasRoomFor (length assignment.now.loads.items) self.old }
        ensures room { HasRoomFor (length assignment.now.loads.items) self.new }
        ensures found { MatchOption result (HaveLevelled assignment.now self.new)
            (λ way. HaveWay assignment.now self.new way) }
    {
        self.begin(&assignment.loads);
        for i in 0..assignment.loads.len() {
            match self.mark_links(assignment, i) {
                Some(way) => return Some(way),
                None => {}
            }
        }
        None
    }
}

/// Whether an interrupt is lower than a link by two at least.
fn is_far(loads: &[u128], i: usize, top: u128) -> bool
    requires within { i < length loads.now }
    requires small { (x : ℕ) → at loads.now x ≤ 2 ^ 100 }
    ensures { IsTrue result ↔ (at loads.now i + 2 ≤ top) }
{
    loads[i] + 2 <= top
}
