//! Reads terms of AML from the bytes of a table or of the body of a control method (ACPI 6.5, 20.2): where they
//! stand, without trees and without memory for terms, or as terms in memory.
//!
//! Begin with `scan_list` and `list_at`, which give a reader of the terms, or with `parse_list`, which copies
//! them. `Cursor::new(0, bytes)` goes over the terms of a scanned list one after another, with `LEVELS` levels.
#![tactic(auto)]

mod at;
mod at_reader;
mod copying;
mod cursor;
mod cursor_terms;
mod lent;
mod operands;
mod parse;
mod places;
mod short;
mod skip;
mod spot;

pub use aml_arities::{ArgumentCounts, Arities, Arity};
pub use aml_grammar::{
    Item, Mark, Opcode, Operand, OperandView, Term, TermCode, TermPart, TermReader,
};
pub use aml_marks::{Marks, scan_list, scan_list_within, scan_table, scan_table_within};
pub use aml_scan::{ELSE, RowPlace, read_as_spelled, read_name};
pub use at::At;
pub use at_reader::lent_bytes;
pub use cursor::Cursor;
pub use cursor_terms::{Call, Coded};
pub use parse::{parse_list, parse_table};
pub use places::{LEVELS, first_term, list_at, term_at};
