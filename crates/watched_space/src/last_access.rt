//! A register space that keeps its last access.
ghost use Rattle.std.specs.Prelude.{◌≡◌, None};
ghost use Rattle.watched_space.specs.Watching.{fault_of};

use ar_space::{Place, Space, SpaceFault, Width};
use std::marker::Model;

/// Whether an access reads or writes.
#[derive(Clone, Copy, Debug, PartialEq, Eq)]
pub enum Direction {
    Read,
    Write,
}

/// An access to a register space, and how it came out.
#[derive(Clone, Copy, Debug, PartialEq, Eq)]
pub struct Accessed {
    pub direction: Direction,
    pub place: Place,
    pub width: Width,
    /// Why it was refused, if it was.
    pub fault: Option<SpaceFault>,
}

/// A register space that does what another one does, and keeps the last access, whether that was refused or not.
#[derive(Drop)]
pub struct LastAccess<S> {
    inner: S,
    last: Option<Accessed>,
}

impl<S> Model for LastAccess<S> {
    ghost use Rattle.watched_space.specs.Watching.{Watch, watch_code};

    ghost Value = { Watch S };

    ghost coded = { watch_code S.code };

    ghost view = { λ w. record { inner = w.inner; last = w.last } };
}

impl<S> LastAccess<S> {
    /// A register space over another one, with no access made yet. It takes no memory.
    pub fn new(inner: S) -> LastAccess<S>
        ensures { result ≡ record { inner = inner; last = None } }
    {
        LastAccess { inner, last: None }
    }

    /// The last access, if one was made.
    pub fn last(&self) -> Option<Accessed>
        ensures { result ≡ self.now.last }
    {
        self.last
    }

    /// The register space below.
    pub fn inner(&self) -> &S
        ensures { result.now ≡ self.now.inner }
    {
        &self.inner
    }

    /// The register space below, given back.
    pub fn into_inner(self) -> S
        ensures { result ≡ self.inner }
    {
        self.inner
    }
}

fn fault_of<A>(answer: &Result<A, SpaceFault>) -> Option<SpaceFault>
    ensures { result ≡ fault_of answer.now }
{
    match answer {
        Ok(_) => None,
        Err(fault) => Some(*fault),
    }
}

impl<S: Space> Space for LastAccess<S> {
    ghost use Rattle.watched_space.specs.Watching.{watched};

    ghost accesses = { watched S.accesses };

    fn read(&mut self, place: Place, width: Width) -> Result<u64, SpaceFault> {
        let answer = self.inner.read(place, width);
        self.last = Some(Accessed {
            direction: Direction::Read,
            place,
            width,
            fault: fault_of(&answer),
        });
        answer
    }

    fn write(&mut self, place: Place, width: Width, value: u64) -> Result<(), SpaceFault> {
        let answer = self.inner.write(place, width, value);
        self.last = Some(Accessed {
            direction: Direction::Write,
            place,
            width,
            fault: fault_of(&answer),
        });
        answer
    }
}
