//! Texts that are cut at a byte, and the words of a line, parted by single blanks.
#![tactic(auto)]

mod cuts;
mod words;

pub use cuts::{cut, cut_at, place_of};
pub use words::Words;
