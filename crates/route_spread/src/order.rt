//! The interrupts in the order in which a marking comes to them: the highest first.
ghost use Rattle.std.specs.Prelude.{◌≡◌, ◌≤◌, ◌<◌, ◌+◌, ℕ, List, IfOk, length};
ghost use Rattle.std.specs.Ordering.{nat_cmp};
ghost use Rattle.route_spread.specs.Marks.{at, AreByLoads, IsListed};
ghost use Rattle.route_spread.specs.InMemory.{WasPromoted};

use std::alloc::{AllocError, Global};
use std::cmp::Ordering;

/// The interrupts in order.
#[derive(Drop)]
pub(crate) struct Order {
    /// The interrupts, the highest first.
    pub interrupts: Vec<usize>,
    /// For each interrupt its place among these.
    pub ranks: Vec<usize>,
    /// How many of them, from the first on, are as high as the one that the marking has come to.
    pub high: usize,
}

/// The load of an interrupt.
fn load(loads: &[u128], i: usize) -> u128
    ensures { result ≡ at loads.now i }
{
    loads.get(i).copied().unwrap_or(0)
}

/// How two interrupts stand in order: the one with the greater load first.
fn compare(loads: &[u128], one: usize, other: usize) -> Ordering
    ensures { result ≡ nat_cmp (at loads.now other) (at loads.now one) }
{
    load(loads, other).cmp(&load(loads, one))
}

/// The numbers below a number.
fn upto(alloc: Global, count: usize) -> Result<Vec<usize>, AllocError>
    ensures long { IfOk result (λ list. length list.items ≡ count) }
    ensures each { IfOk result (λ list. (i : ℕ) → i < count → at list.items i ≡ i) }
{
    let mut list = Vec::with_capacity(alloc, count)?;
    for i in 0..count {
        list.push(i)?;
    }
    Ok(list)
}

impl Order {
    /// So many interrupts in the order of their places.
    pub(crate) fn new(alloc: Global, count: usize) -> Result<Order, AllocError>
        ensures listed { IfOk result (λ order. IsListed order.interrupts.items order.ranks.items) }
        ensures long { IfOk result (λ order. length order.interrupts.items ≡ count) }
    {
        let interrupts = upto(alloc, count)?;
        let ranks = upto(alloc, count)?;
        Ok(Order {
            interrupts,
            ranks,
            high: 0,
        })
    }

    /// Notes the rank of each interrupt.
    fn rank(&mut self)
        requires listed { (ranks : List ℕ) × IsListed self.old.interrupts.items ranks }
        requires long { length self.old.ranks.items ≡ length self.old.interrupts.items }
        ensures listed { IsListed self.new.interrupts.items self.new.ranks.items }
        ensures same { self.new.interrupts.items ≡ self.old.interrupts.items }
    {
        for j in 0..self.interrupts.len() {
            self.ranks[self.interrupts[j]] = j;
        }
    }

    /// Puts the interrupts in the order of their loads, the greatest first.
    pub(crate) fn arrange(&mut self, loads: &[u128])
        requires { IsListed self.old.interrupts.items self.old.ranks.items }
        ensures listed { IsListed self.new.interrupts.items self.new.ranks.items }
        ensures long { length self.new.interrupts.items ≡ length self.old.interrupts.items }
        ensures falling { AreByLoads loads.now self.new.interrupts.items }
        ensures none { self.new.high ≡ 0 }
    {
        self.interrupts
            .sort_unstable_by(|one, other| compare(loads, *one, *other));
        self.rank();
        self.high = 0;
    }

    /// Puts an interrupt in place of the first of those that are lower.
    pub(crate) fn promote(&mut self, i: usize)
        requires listed { IsListed self.old.interrupts.items self.old.ranks.items }
        requires within { i < length self.old.interrupts.items }
        requires lower { self.old.high ≤ at self.old.ranks.items i }
        ensures promoted { WasPromoted i self.old self.new }
        ensures higher { self.new.high ≡ self.old.high + 1 }
    {
        let rank = self.ranks[i];
        let other = self.interrupts[self.high];
        self.interrupts[rank] = other;
        self.ranks[other] = rank;
        self.interrupts[self.high] = i;
        self.ranks[i] = self.high;
        self.high += 1;
    }
}
