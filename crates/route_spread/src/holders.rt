//! The links of each interrupt.
ghost use Rattle.std.specs.Prelude.{◌≡◌, ◌<◌, ℕ, IfOk, length};
ghost use Rattle.route_spread.specs.Marks.{at, AreHolders};

use std::alloc::{AllocError, Global};

/// The links of each interrupt in ascending order, as a chain.
#[derive(Drop)]
pub(crate) struct Holders {
    /// For each interrupt the first link that has it, or how many links there are.
    pub first: Vec<usize>,
    /// For each link the next link that has the same interrupt, or how many links there are.
    pub next: Vec<usize>,
}

impl Holders {
    /// Room for the links of so many interrupts.
    pub(crate) fn new(alloc: Global, interrupts: usize, links: usize) -> Result<Holders, AllocError>
        ensures first { IfOk result (λ holders. length holders.first.items ≡ interrupts) }
        ensures next { IfOk result (λ holders. length holders.next.items ≡ links) }
    {
        let first = vec![in alloc; 0; interrupts]?;
        let next = vec![in alloc; 0; links]?;
        Ok(Holders { first, next })
    }

    /// Notes the links of each interrupt.
    pub(crate) fn note(&mut self, choice: &[usize])
        requires known { (k : ℕ) → k < length choice.now → at choice.now k < length self.old.first.items }
        requires next { length self.old.next.items ≡ length choice.now }
        ensures holders { AreHolders choice.now self.new.first.items self.new.next.items }
        ensures first { length self.new.first.items ≡ length self.old.first.items }
        ensures next { length self.new.next.items ≡ length self.old.next.items }
    {
        self.first.fill(choice.len());
        let mut link = choice.len();
        while link > 0 {
            link -= 1;
            let interrupt = choice[link];
            self.next[link] = self.first[interrupt];
            self.first[interrupt] = link;
        }
    }
}
