//! Links and interrupts, and what an assignment of the one to the other is: the definitions that the solver and the
//! checker share, with their laws of counting, the type of a link, and the interrupts that a link may be given.
#![tactic(auto)]

mod avoided;
pub mod laws;
mod link;

pub use avoided::{are_all_avoided, without};
pub use link::Link;
