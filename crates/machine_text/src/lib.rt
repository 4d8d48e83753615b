//! The machine text: a machine's memory, I/O ports and PCI configuration registers, written down line by line.
#![tactic(auto)]

mod address_space;
mod digits;
mod draft;
pub mod laws;
mod line;
mod machine_lines;
mod osi_texts;
mod words;

pub use machine_lines::{MachineText, read_machine};
pub use osi_texts::OsiTexts;
