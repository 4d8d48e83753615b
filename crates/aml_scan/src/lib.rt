//! Goes over the terms of AML in the bytes of a table or of the body of a control method, by the grammar that
//! `aml_grammar` defines (ACPI 6.5, 20.2). `aml_terms` reads them.
#![tactic(auto)]

mod before;
mod declarations;
mod declared_names;
mod fields;
mod if_else;
mod laws;
mod lists;
mod names;
mod operands;
mod places;
mod positions;
mod reader;
mod row_places;
mod skip_names;
mod table;
mod terms;

pub use aml_arities::{ArgumentCounts, Arities, Arity};
pub use aml_grammar::Mark;
pub use if_else::ELSE;
pub use laws::read_as_spelled;
pub use lists::{Noted, scan, scan_within};
pub use names::{read_name, starts_name};
pub use positions::{EXT_OP_PREFIX, is_if, is_nothing};
pub use reader::{carets, length_of, little_endian, text_length};
pub use row_places::RowPlace;
pub use table::{row_of, row_place};
