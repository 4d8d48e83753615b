//! A matching: which links have which interrupts.
ghost use Rattle.std.specs.Prelude.{◌≡◌, ◌≤◌, ◌<◌, ◌+◌, IfOk, IsSome, Some, None, length, replicate, slice_set};
ghost use Rattle.route_model.specs.Placement.{place_of};
ghost use Rattle.route_solve.specs.Capacities.{at, IsCounted};

use std::alloc::{AllocError, Global};

/// A matching of links with interrupts, each known by its place among all that are offered.
#[derive(Drop)]
pub(crate) struct Matching {
    /// The interrupt of each link, if it has one.
    pub choice: Vec<Option<usize>>,
    /// How many links have each interrupt.
    pub counts: Vec<usize>,
}

/// Counts one link more at interrupt `i`.
pub(crate) fn count_one(counts: &mut [usize], i: usize)
    requires known { i < length counts.old }
    requires few { at counts.old i ≤ 256 }
    ensures { counts.new ≡ slice_set counts.old i (at counts.old i + 1) }
{
    counts[i] += 1;
}

impl Matching {
    /// Takes memory for so many links and interrupts, where no link has one.
    pub(crate) fn new(
        alloc: Global,
        links: usize,
        interrupts: usize,
    ) -> Result<Matching, AllocError>
        ensures choice { IfOk result (λ m. m.choice.items ≡ replicate links None) }
        ensures counts { IfOk result (λ m. m.counts.items ≡ replicate interrupts 0) }
    {
        Ok(Matching {
            choice: vec![in alloc; None; links]?,
            counts: vec![in alloc; 0; interrupts]?,
        })
    }

    /// The interrupt of a link that has one.
    pub(crate) fn held(&self, link: usize) -> usize
        requires link { link < length self.now.choice.items }
        requires placed { IsSome (place_of self.now.choice.items link) }
        ensures { place_of self.now.choice.items link ≡ Some result }
    {
        match self.choice[link] {
            Some(x) => x,
            None => 0,
        }
    }

    /// Gives a link that has no interrupt one.
    pub(crate) fn give(&mut self, link: usize, i: usize)
        requires link { link < length self.old.choice.items }
        requires known { i < length self.old.counts.items }
        requires few { length self.old.choice.items ≤ 256 }
        requires unplaced { place_of self.old.choice.items link ≡ None }
        requires counted { IsCounted self.old.counts.items self.old.choice.items }
        ensures given { self.new.choice.items ≡ slice_set self.old.choice.items link (Some i) }
        ensures counted { IsCounted self.new.counts.items self.new.choice.items }
        ensures same { length self.new.counts.items ≡ length self.old.counts.items }
    {
        self.counts[i] += 1;
        self.choice[link] = Some(i);
    }

    /// Takes a link's interrupt from it.
    pub(crate) fn free(&mut self, link: usize, x: usize)
        requires link { link < length self.old.choice.items }
        requires known { x < length self.old.counts.items }
        requires held { place_of self.old.choice.items link ≡ Some x }
        requires counted { IsCounted self.old.counts.items self.old.choice.items }
        ensures freed { self.new.choice.items ≡ slice_set self.old.choice.items link None }
        ensures counted { IsCounted self.new.counts.items self.new.choice.items }
        ensures same { length self.new.counts.items ≡ length self.old.counts.items }
    {
        self.counts[x] -= 1;
        self.choice[link] = None;
    }
}
