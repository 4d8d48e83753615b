//! A register space that answers from a record of accesses, and stops at the first one that the record does not hold.
//! So registers that are no bytes in memory, such as those of hardware, can be accessed by a caller between two runs.
#![tactic(auto)]

mod exchange;
pub mod laws;
mod recorded;

pub use exchange::{Exchange, kept};
pub use recorded::Recorded;
pub use space_trace::Access;
