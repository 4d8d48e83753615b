//! Bits of bytes, and the accesses by which firmware's fields are read and written (ACPI 6.5, 19.6.46).
#![tactic(auto)]

mod accesses;
mod bits;
mod buffer_fields;
mod field_units;
pub mod laws;
mod one_unit;
mod region;
mod unit;

pub use accesses::{read_field, read_unit, write_field, write_whole};
pub use bits::{bytes_for, copy_bits, get_bits};
pub use buffer_fields::{new_buffer_field, read_buffer_field, write_buffer_field};
pub use field_units::{FieldUnits, Unit, units};
pub use one_unit::{read_number, write_number};
pub use region::{AddressSpace, Region};
pub use unit::{bytes_of, copy_from_unit, merge};
