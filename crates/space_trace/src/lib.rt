//! A register space over another one that keeps the list of the accesses to it, so that a test can say which accesses
//! were made and in which order.
#![tactic(auto)]

mod access;
mod traced;

pub use access::Access;
pub use traced::Traced;
