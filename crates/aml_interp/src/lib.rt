//! Evaluates AML: tables are loaded, and objects are evaluated, as their written meaning says (ACPI 6.5, 5.4, 5.5 and
//! 19.6).
//!
//! Begin with `load` and `answer`. How terms are evaluated stands in `aml_evaluation`: here is what a call from outside
//! does before and behind that.
#![tactic(auto)]

mod answers;
mod bank_fields;
mod bridges;
mod export;
mod fields;
mod index_fields;
mod loading;
mod readings;

pub use answers::{answer, eval};
pub use loading::load;
