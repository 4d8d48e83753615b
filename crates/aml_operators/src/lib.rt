//! Operators, and names that are used as values.
//!
//! Begin with `operators` and `names`. Match is in `searching`, terms of the wide profile alone in `wide`. An operand
//! that is a local, an argument, a string or a buffer needs no frame where `short_values` gives it at once. Targets
//! are in `aml_targets`.
//!
//! The parameters `run`, `act` and `levels` are as in `aml_frames`, whose `specs/` define what these steps mean.
#![tactic(auto)]

mod names;
mod operators;
mod searching;
mod short_values;
mod wide;

pub use names::begin_name;
pub use operators::{begin_operator, resume_first, resume_operand, resume_quotient, resume_second};
pub use searching::{resume_match, resume_matched};
pub use wide::{begin_wide, resume_third, resume_wait};
