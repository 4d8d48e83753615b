//! The ACPI tables of a machine (ACPI 6.5, 5.2), found in an image of its memory from the address of the RSDP on.
#![tactic(auto)]

mod fadt;
mod image_bytes;
pub mod laws;
mod madt;
mod mode;
mod root_pointer;
mod root_table;
mod sci;
mod table;
mod tables;

pub use ar_space::{ByteMap as Image, IntegerWidth};
pub use fadt::Fadt;
pub use madt::{Madt, MadtEntries, MadtEntry, madt_entries};
pub use mode::Mode;
pub use sci::sci_source;
pub use table::Table;
pub use tables::{Ssdts, Tables, find_tables};
