//! Integers, strings, buffers and packages, and terms that declare names.
//!
//! Begin with `data` and `declarations`. Integers, strings and buffers are in `data`, packages in `packages`, regions and
//! fields in `regions`, `field_lists` and `bank_fields`.
//!
//! The parameters `run`, `act` and `levels` are as in `aml_frames`, whose `specs/` define what these steps mean.
#![tactic(auto)]

mod bank_fields;
mod data;
mod declarations;
mod field_lists;
mod packages;
mod regions;

pub use bank_fields::begin_bank_fields;
pub use data::{begin_data, make_buffer, make_text, resume_buffer};
pub use declarations::{begin_declaration, resume_named, resume_scope};
pub use packages::{begin_element, resume_element, resume_var_package};
pub use regions::{begin_region_term, resume_declaration};
