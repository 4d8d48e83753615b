//! What is to be solved.
ghost use Rattle.std.specs.Prelude.{◌≡◌};

use route_model::Link;
use std::marker::Model;

/// Links with the interrupts that they offer, and interrupts with the number of sources that are wired to them.
#[derive(Debug, Drop)]
pub struct Problem {
    /// The links, in path order.
    pub links: Vec<Link>,
    /// Interrupts, ascending, with the number of sources that are wired to each.
    pub wired: Vec<(u32, u32)>,
}

impl Model for Problem {
    ghost use Rattle.route_solve.specs.Problems.{RoutingProblem};

    ghost Value = { RoutingProblem };

    ghost view = { λ p. record { links = p.links.items; wired = p.wired.items } };
}

impl Problem {
    /// The links, in path order.
    pub fn links(&self) -> &[Link]
        ensures { result.now ≡ self.now.links }
    {
        &self.links
    }

    /// Interrupts with the number of sources that are wired to each.
    pub fn wired(&self) -> &[(u32, u32)]
        ensures { result.now ≡ self.now.wired }
    {
        &self.wired
    }
}
