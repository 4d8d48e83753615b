//! A register space that keeps the list of its accesses.
ghost use Rattle.std.specs.Prelude.{◌≡◌, slice_get};
ghost use Rattle.space_trace.specs.Traces.{untouched, noted};

use crate::access::Access;
use ar_space::{Place, Space, SpaceFault, Width};
use std::marker::Model;

/// How many accesses are kept.
const ROOM: usize = 64;

/// What stands in the list where no access was made yet.
const BLANK: Access = Access::Read(Place::Memory(0), Width::W8);

/// A register space that does what another one does, and keeps the list of the accesses, those that are refused among
/// them.
///
/// An access may take no memory, so the list has a fixed room: the first 64 accesses are kept, and the later ones
/// counted.
#[derive(Drop)]
pub struct Traced<S> {
    inner: S,
    kept: [Access; 64],
    made: usize,
}

impl<S> Model for Traced<S> {
    ghost use Rattle.std.specs.Prelude.{◌≡◌, length, take};
    ghost use Rattle.space_trace.specs.Traces.{Trace, trace_code};

    ghost Value = { Trace S };

    ghost coded = { trace_code S.code };

    ghost view = { λ t. record { inner = t.inner; kept = take t.made t.kept; made = t.made } };

    ghost invariant = { λ t. length t.kept ≡ 64 };
}

impl<S> Traced<S> {
    /// A register space over another one, with no access made yet. It takes no memory.
    pub fn new(inner: S) -> Traced<S>
        ensures { result ≡ untouched inner }
    {
        Traced {
            inner,
            kept: [BLANK; 64],
            made: 0,
        }
    }

    /// The first 64 accesses, the earliest first.
    pub fn accesses(&self) -> &[Access]
        ensures { result.now ≡ self.now.kept }
    {
        if self.made < ROOM {
            &self.kept[..self.made]
        } else {
            &self.kept
        }
    }

    /// One of the first 64 accesses, by its number from 0 on, if so many were made.
    pub fn access(&self, i: usize) -> Option<Access>
        ensures { result ≡ slice_get self.now.kept i }
    {
        self.accesses().get(i).copied()
    }

    /// How many accesses were made in all; of more than 2^64 - 1 that number.
    pub fn count(&self) -> usize
        ensures { result ≡ self.now.made }
    {
        self.made
    }

    /// The register space below.
    pub fn inner(&self) -> &S
        ensures { result.now ≡ self.now.inner }
    {
        &self.inner
    }

    /// The register space below, given back.
    pub fn into_inner(self) -> S
        ensures { result ≡ self.inner }
    {
        self.inner
    }

    /// Notes an access.
    #[tactic(auto, using(std::proofs::lemmas::List::take_all))]
    fn note(&mut self, access: Access)
        ensures { self.new ≡ noted self.old access }
    {
        if self.made < ROOM {
            self.kept[self.made] = access;
        }
        self.made = self.made.saturating_add(1);
    }
}

impl<S: Space> Space for Traced<S> {
    ghost use Rattle.space_trace.specs.Traces.{traced};

    ghost accesses = { traced S.accesses };

    fn read(&mut self, place: Place, width: Width) -> Result<u64, SpaceFault> {
        let answer = self.inner.read(place, width);
        self.note(Access::Read(place, width));
        answer
    }

    fn write(&mut self, place: Place, width: Width, value: u64) -> Result<(), SpaceFault> {
        let answer = self.inner.write(place, width, value);
        self.note(Access::Write(place, width, value));
        answer
    }
}
