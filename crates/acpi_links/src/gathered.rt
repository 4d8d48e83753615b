//! What was gathered of a machine.
use crate::links::PresentLink;
use acpi_prt::Pin;
use aml_path::Path;
use route_solve::Problem;
use std::marker::Model;

/// The pins of a machine, the link devices that they lead to, and the routing problem that they pose.
#[derive(Debug, Drop)]
pub struct Gathered {
    /// Each pin that counts, with the device that has the routing table: devices in path order, pins in the order of
    /// theirs.
    pub pins: Vec<(Path, Pin)>,
    /// The present links that some pin leads to, in path order: the path, what the link may be set to, and what it is
    /// set to, where it has a `_CRS`.
    pub links: Vec<PresentLink>,
    /// The present links with what they offer of the interrupts that aren't avoided, and the interrupts that pins or
    /// the System Control Interrupt are wired to.
    pub problem: Problem,
}

impl Model for Gathered {
    ghost use Rattle.acpi_links.specs.Gatherings.{Gathering};

    ghost Value = { Gathering };

    ghost view = { λ g. record { pins = g.pins.items; links = g.links.items; problem = g.problem } };
}

impl Gathered {
    ghost use Rattle.std.specs.Prelude.{◌≡◌};

    /// Each pin that counts, with its device.
    pub fn pins(&self) -> &[(Path, Pin)]
        ensures { result.now ≡ self.now.pins }
    {
        &self.pins
    }

    /// The present links.
    pub fn links(&self) -> &[PresentLink]
        ensures { result.now ≡ self.now.links }
    {
        &self.links
    }

    /// The routing problem.
    pub fn problem(&self) -> &Problem
        ensures { result.now ≡ self.now.problem }
    {
        &self.problem
    }
}
