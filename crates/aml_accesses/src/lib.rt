//! Reads and writes of fields, and calls of control methods.
//!
//! Begin with `accesses` and `field_access`. To find an address in PCI_Config, objects of the devices
//! above the region are evaluated, which may be control methods (`asking`, `pci`, `bridges`): so an access may have to
//! enter one (`calls`) and wait for it. Fields
//! behind an index field are in `index_access`, those in a bank in `bank_access`.
//!
//! The parameters `run`, `act` and `levels` are as in `aml_frames`, whose `specs/` define what these steps mean.
#![tactic(auto)]

mod accesses;
mod asking;
mod bank_access;
mod bridges;
mod calls;
mod field_access;
mod index_access;
mod pci;

pub use accesses::{begin_read, begin_write, read_access};
pub use asking::ask;
pub use bank_access::{read_selected, write_selected};
pub use calls::{begin_call, enter, resume_argument};
pub use field_access::{begin_access, begin_region};
pub use index_access::{next_write, read_chosen, resume_unit, write_merged};
pub use pci::resume_address;
