//! The grammar of AML as definitions (ACPI 6.5, 20.2): opcodes, what operands a term has, what a list of bytes reads
//! as, and the trees of terms, taken apart through one trait. `aml_terms` reads bytes by it.
#![tactic(auto)]

mod context;
mod kinds;
mod marks;
mod opcode;
mod operand_view;
mod term;
mod term_part;
mod term_reader;

pub use context::{Context, Earlier, Position};
pub use kinds::{Class, OperandKind, OperandKinds, Row};
pub use marks::Mark;
pub use opcode::{Opcode, TermCode};
pub use term::{Operand, Term};
pub use term_part::TermPart;
pub use term_reader::{Item, OperandView, TermReader};
