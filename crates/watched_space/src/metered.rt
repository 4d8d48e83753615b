//! A register space to which so many accesses are made, and no more.
ghost use Rattle.std.specs.Prelude.{◌≡◌};

use ar_space::{Place, Space, SpaceFault, Width};
use std::marker::Model;

/// A register space over another one, which makes so many accesses and refuses each one behind these: that answers
/// `Device`, and the space below doesn't see it. Without a bound it makes all of them.
///
/// Steps bound the terms that an evaluation begins, and not the registers that it reads and writes: one read of a field
/// whose address is a field in turn may make very many. A caller that has to bound these as well hands in its register
/// space by this one.
#[derive(Drop)]
pub struct Metered<S> {
    inner: S,
    left: Option<u64>,
}

impl<S> Model for Metered<S> {
    ghost use Rattle.watched_space.specs.Metering.{Meter, meter_code};

    ghost Value = { Meter S };

    ghost coded = { meter_code S.code };

    ghost view = { λ m. record { inner = m.inner; left = m.left } };
}

impl<S> Metered<S> {
    /// A register space over another one, which makes so many accesses, or all of them. It takes no memory.
    pub fn new(inner: S, accesses: Option<u64>) -> Metered<S>
        ensures { result ≡ record { inner = inner; left = accesses } }
    {
        Metered {
            inner,
            left: accesses,
        }
    }

    /// How many accesses are still made, where they are bounded. A `Device` fault while some are left is one of the
    /// space below.
    pub fn left(&self) -> Option<u64>
        ensures { result ≡ self.now.left }
    {
        self.left
    }

    /// The register space below.
    pub fn inner(&self) -> &S
        ensures { result.now ≡ self.now.inner }
    {
        &self.inner
    }

    /// The register space below, given back.
    pub fn into_inner(self) -> S
        ensures { result ≡ self.inner }
    {
        self.inner
    }
}

impl<S: Space> Space for Metered<S> {
    ghost use Rattle.watched_space.specs.Metering.{metered};

    ghost accesses = { metered S.accesses };

    fn read(&mut self, place: Place, width: Width) -> Result<u64, SpaceFault> {
        match self.left {
            None => self.inner.read(place, width),
            Some(0) => Err(SpaceFault::Device),
            Some(left) => {
                self.left = Some(left - 1);
                self.inner.read(place, width)
            }
        }
    }

    fn write(&mut self, place: Place, width: Width, value: u64) -> Result<(), SpaceFault> {
        match self.left {
            None => self.inner.write(place, width, value),
            Some(0) => Err(SpaceFault::Device),
            Some(left) => {
                self.left = Some(left - 1);
                self.inner.write(place, width, value)
            }
        }
    }
}
