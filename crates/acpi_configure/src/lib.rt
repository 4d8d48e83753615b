//! Routes the PCI interrupts of a machine: chooses an interrupt for each link device, sets
//! the links, and reports what was found, chosen and set.
#![tactic(auto)]

mod choice;
mod choosing;
mod chosen_lines;
mod configuring;
mod finding;
mod for_kernels;
pub mod laws;
mod link_lines;
mod madt_lines;
mod options;
mod other_lines;
mod others;
mod pin_lines;
mod pin_names;
mod settling;
mod triggers;

pub use choice::{Choice, choose_with};
pub use configuring::configure;
pub use for_kernels::configure_with;
pub use options::Options;
