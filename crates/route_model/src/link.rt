//! A link device and the interrupts that it offers.
ghost use Rattle.std.specs.Prelude.{◌≡◌};

use aml_path::Path;
use std::marker::Model;

/// A PCI interrupt link device: its path in the namespace, and the numbers of the interrupts that it can be set to
/// (ACPI 6.5, 6.2.13). Contracts see both as lists.
#[derive(Debug, Drop)]
pub struct Link {
    path: Path,
    offers: Vec<u32>,
}

impl Model for Link {
    ghost use Rattle.route_model.specs.Links.{OfferingLink};

    ghost Value = { OfferingLink };

    ghost view = { λ l. record { path = l.path; offers = l.offers.items } };
}

impl Link {
    /// A link of this path that offers these interrupts. It takes no memory.
    pub fn new(path: Path, offers: Vec<u32>) -> Link
        ensures { result ≡ record { path = path; offers = offers.items } }
    {
        Link { path, offers }
    }

    /// Its path.
    pub fn path(&self) -> &Path
        ensures { result.now ≡ self.now.path }
    {
        &self.path
    }

    /// The interrupts that it offers, in the order in which they were given.
    pub fn offers(&self) -> &[u32]
        ensures { result.now ≡ self.now.offers }
    {
        &self.offers
    }

    /// The path and the interrupts, given back without taking memory.
    pub fn into_parts(self) -> (Path, Vec<u32>)
        ensures path { result.0 ≡ self.path }
        ensures offers { result.1.items ≡ self.offers }
    {
        (self.path, self.offers)
    }
}
