//! What a report claims of an assignment.
ghost use Rattle.std.specs.Prelude.{◌≡◌};
ghost use Rattle.route_check.specs.Claims.{links_of_bound, interrupts_of_bound};

use aml_path::Path;
use route_model::Link;
use std::marker::Model;

/// Why no assignment has a less busy interrupt: links that offer these interrupts alone, and are too many for them.
#[derive(Debug, Drop)]
pub struct Bound {
    /// The paths of the links.
    pub links: Vec<Path>,
    /// The interrupts.
    pub interrupts: Vec<u32>,
}

impl Model for Bound {
    ghost use Rattle.route_check.specs.Claims.{BoundingSet};

    ghost Value = { BoundingSet };

    ghost view = { λ b. record { links = b.links.items; interrupts = b.interrupts.items } };
}

impl Bound {
    fn links(&self) -> &[Path]
        ensures { result.now ≡ self.now.links }
    {
        &self.links
    }

    fn interrupts(&self) -> &[u32]
        ensures { result.now ≡ self.now.interrupts }
    {
        &self.interrupts
    }
}

/// An assignment, and that it is least busy. Nothing is known of a claim: any of its lists may be in any order, or name
/// something twice.
#[derive(Debug, Drop)]
pub struct Claim {
    /// The links with the interrupts that they offer, those that are avoided among them.
    pub links: Vec<Link>,
    /// Interrupts with the number of pins that are wired to them; in a report of version 1, of all sources but links.
    pub wired: Vec<(u32, u32)>,
    /// The interrupt that the System Control Interrupt is wired to, which has one source more. None in a report of
    /// version 1.
    pub sci: Option<u32>,
    /// The interrupts that no link may be given. A report of version 1 has none.
    pub avoid: Vec<u32>,
    /// Links, by their paths, with the interrupts that they are given.
    pub gives: Vec<(Path, u32)>,
    /// How many sources the busiest interrupt serves.
    pub busiest: u32,
    /// Why no assignment has a less busy one. None is needed where the busiest serves no source.
    pub bound: Option<Bound>,
    /// Whether it is claimed that links share interrupts as little as they can.
    pub spread: bool,
}

impl Model for Claim {
    ghost use Rattle.route_check.specs.Claims.{RoutingClaim};

    ghost Value = { RoutingClaim };

    ghost view = { λ c. record { links = c.links.items; wired = c.wired.items; sci = c.sci; avoid = c.avoid.items; gives = c.gives.items; busiest = c.busiest; bound = c.bound; spread = c.spread } };
}

impl Claim {
    pub(crate) fn links(&self) -> &[Link]
        ensures { result.now ≡ self.now.links }
    {
        &self.links
    }

    pub(crate) fn wired(&self) -> &[(u32, u32)]
        ensures { result.now ≡ self.now.wired }
    {
        &self.wired
    }

    pub(crate) fn sci(&self) -> Option<u32>
        ensures { result ≡ self.now.sci }
    {
        self.sci
    }

    pub(crate) fn avoid(&self) -> &[u32]
        ensures { result.now ≡ self.now.avoid }
    {
        &self.avoid
    }

    pub(crate) fn gives(&self) -> &[(Path, u32)]
        ensures { result.now ≡ self.now.gives }
    {
        &self.gives
    }

    pub(crate) fn busiest(&self) -> u32
        ensures { result ≡ self.now.busiest }
    {
        self.busiest
    }

    pub(crate) fn spread(&self) -> bool
        ensures { result ≡ self.now.spread }
    {
        self.spread
    }

    /// The links of the bound, none where there is no bound.
    pub(crate) fn set_links(&self) -> &[Path]
        ensures { result.now ≡ links_of_bound self.now.bound }
    {
        match &self.bound {
            Some(bound) => bound.links(),
            None => &[],
        }
    }

    /// The interrupts of the bound, none where there is no bound.
    pub(crate) fn set_interrupts(&self) -> &[u32]
        ensures { result.now ≡ interrupts_of_bound self.now.bound }
    {
        match &self.bound {
            Some(bound) => bound.interrupts(),
            None => &[],
        }
    }
}
