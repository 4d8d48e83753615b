//! A register space of which one access fails.
ghost use Rattle.std.specs.Prelude.{◌≡◌, Some};
ghost use Rattle.ar_space.specs.Fuses.{burnt};

use crate::refusal::SpaceFault;
use crate::space::{Place, Space, Width};
use std::marker::Model;

/// A register space over another one, of which one access fails: it answers `Device`, and the space below doesn't see
/// it. All others are made by the space below.
///
/// A test of a driver or of a machine refuses each access in turn by it.
#[derive(Drop)]
pub struct Fused<S> {
    inner: S,
    /// How many accesses still come before the one that fails: none once it has failed.
    pass: Option<u64>,
}

impl<S> Model for Fused<S> {
    ghost use Rattle.ar_space.specs.Fuses.{Fuse, fuse_code};

    ghost Value = { Fuse S };

    ghost coded = { fuse_code S.code };

    ghost view = { λ f. record { inner = f.inner; pass = f.pass } };
}

impl<S> Fused<S> {
    /// A register space over another one, which fails after `pass` accesses, once. It takes no memory.
    pub fn new(inner: S, pass: u64) -> Fused<S>
        ensures { result ≡ record { inner = inner; pass = Some pass } }
    {
        Fused {
            inner,
            pass: Some(pass),
        }
    }

    /// The register space below.
    pub fn inner(&self) -> &S
        ensures { result.now ≡ self.now.inner }
    {
        &self.inner
    }

    /// The register space below, given back.
    pub fn into_inner(self) -> S
        ensures { result ≡ self.inner }
    {
        self.inner
    }

    /// Counts an access, and answers whether it is the one that fails.
    fn burn(&mut self) -> bool
        ensures answer { result ≡ (burnt self.old).0 }
        ensures state { self.new ≡ (burnt self.old).1 }
    {
        match self.pass {
            None => false,
            Some(0) => {
                self.pass = None;
                true
            }
            Some(pass) => {
                self.pass = Some(pass - 1);
                false
            }
        }
    }
}

impl<S: Space> Space for Fused<S> {
    ghost use Rattle.ar_space.specs.Fuses.{fused};

    ghost accesses = { fused S.accesses };

    fn read(&mut self, place: Place, width: Width) -> Result<u64, SpaceFault> {
        if self.burn() {
            return Err(SpaceFault::Device);
        }
        self.inner.read(place, width)
    }

    fn write(&mut self, place: Place, width: Width, value: u64) -> Result<(), SpaceFault> {
        if self.burn() {
            return Err(SpaceFault::Device);
        }
        self.inner.write(place, width, value)
    }
}
