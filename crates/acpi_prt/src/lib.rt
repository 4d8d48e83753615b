//! PCI routing tables: which interrupt each pin of a device leads to (ACPI 6.5, 6.2.13).
#![tactic(auto)]

mod entry;
mod first_pins;
pub mod laws;
mod link;
mod pin;
mod routing_table;

pub use link::child_named;
pub use pin::{Pin, Route};
pub use routing_table::get_irq_routing_table;
