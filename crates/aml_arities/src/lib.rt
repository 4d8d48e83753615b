//! How many arguments names take where they are called, and how they are looked up while terms are read (ACPI 6.5, 19.6.85 and
//! 19.6.44): counts by path, in which the newest count of a path decides. The grammar of `aml_grammar` reads them.
#![tactic(auto)]

mod arities;
mod counts;
mod path_tree;

pub use arities::{ArgumentCounts, Arities, Arity, deeper};
pub use counts::Counts;
