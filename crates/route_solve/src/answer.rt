//! What the solver answers.
use std::marker::Model;

/// An assignment, and why none is less busy.
#[derive(Debug, Drop)]
pub struct Answer {
    /// An interrupt for each link of the problem, in their order.
    pub choice: Vec<u32>,
    /// How many sources the busiest interrupt serves: 0 to 4,352.
    pub busiest: u32,
    /// Links of the set, by their places in the problem from 0 on, ascending.
    pub links: Vec<usize>,
    /// Interrupts of the set, ascending.
    pub interrupts: Vec<u32>,
}

impl Model for Answer {
    ghost use Rattle.route_solve.specs.Problems.{RoutingAnswer};

    ghost Value = { RoutingAnswer };

    ghost view = { λ a. record { choice = a.choice.items; busiest = a.busiest; links = a.links.items; interrupts = a.interrupts.items } };
}
