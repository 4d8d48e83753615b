//! What AML computes from integers, strings and buffers: conversions between them (ACPI 6.5, 19.3.5), and the operators
//! that need nothing else (19.6).
#![tactic(auto)]

mod buffers;
mod comparison;
mod concatenation;
mod decimals;
mod digits;
mod formed;
mod integers;
pub mod laws;
mod logic;
mod matching;
mod operators;
mod strings;
mod texts;
mod widths;

pub use buffers::to_buffer;
pub use comparison::compare;
pub use concatenation::{concat, concat_resources};
pub use decimals::{code_decimal, decode_decimal};
pub use digits::Base;
pub use formed::Formed;
pub use integers::{explicit_integer, to_integer};
pub use logic::{Comparison, LogicalOperator, holds, is_true, lnot, operate_logically, truth};
pub use matching::{MatchOperator, is_match};
pub use operators::{BinaryOperator, Division, UnaryOperator, divide, operate, operate_on_one};
pub use strings::{middle, to_decimal_string, to_hexadecimal_string, to_string};
pub use texts::to_text;
pub use widths::{truncate, truncate_integer};
