//! The interrupts that links offer, in ascending order: each is known by its place among them. The solvers work with
//! places (from 0), and turn them back into interrupts at the end (`all_numbers` does so for a whole list).
//!
//! From the bottom: whether numbers ascend, and putting them in order (`ascending`); where a number may be found at
//! once (`hints`); all that links offer (`offered`); the place of a number, and the number at a place (`places`).
#![tactic(auto)]

mod ascending;
mod hints;
mod offered;
mod places;

pub use ascending::{ascends, put_in_order};
pub use offered::all_offered;
pub use places::{all_numbers, all_places_chosen, all_places_offered, place_among, place_from};
