//! Targets: what a target names is found, and then it is stored to, counted or acquired, a reference to it is made,
//! or its size or its type is told (ACPI 6.5, 19.3.5 and 20.2.5).
//!
//! Begin with `targets`, which finds what a target names; `target_uses` does with it what is asked. CondRefOf, SizeOf
//! and ObjectType are in `references`.
//!
//! The parameters `run`, `act` and `levels` are as in `aml_frames`, whose `specs/` define what these steps mean.
#![tactic(auto)]

mod references;
mod target_uses;
mod targets;

pub use references::{begin_conditional, begin_inquiry, resume_found, resume_referent};
pub use target_uses::resume_counted;
pub use targets::{begin_target, resume_dereferenced, resume_index_target};
