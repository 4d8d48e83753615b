//! Statements (ACPI 6.5, 19.2.5.2 and 20.2.5.3): If, While, Break, Continue, Return, and those that wait or give
//! up (Fatal).
//!
//! Begin with `statements`; While is in `loops`.
//!
//! The parameters `run`, `act` and `levels` are as in `aml_frames`, whose `specs/` define what these steps mean.
#![tactic(auto)]

mod loops;
mod statements;

pub use loops::{resume_predicate, resume_turn};
pub use statements::{begin_statement, resume_fatal, resume_if, resume_pause, resume_return};
