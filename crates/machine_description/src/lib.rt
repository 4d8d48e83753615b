//! What the machine of a machine text is loaded from: its tables, the texts that `_OSI` knows, and its registers.
#![tactic(auto)]

mod description;

pub use description::{MachineDescription, describe, read_description};
