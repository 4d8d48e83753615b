//! Scans of tables and of the bodies of control methods, and the marks that they leave (ACPI 6.5, 20.2): by its marks
//! a list is read from its bytes from then on, and never scanned again. `specs/Marked` has the reading by marks, which
//! knows no scope and no arities and refuses nothing; the laws say that it gives the trees of the grammar, and that a
//! term ends behind its beginning and within the bytes that are there.
#![tactic(auto)]

mod laws;
mod marks;
mod scan;
mod search;

pub use aml_arities::{ArgumentCounts, Arities, Arity};
pub use aml_grammar::Mark;
pub use laws::{fewer_levels_only_refuse, marks_give_the_trees_again, terms_only_move_on};
pub use marks::Marks;
pub use scan::{
    ScannedTable, scan_list, scan_list_within, scan_table, scan_table_apart, scan_table_within,
};
pub use search::marked_count;
