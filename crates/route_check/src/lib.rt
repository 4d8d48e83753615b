//! Checks a claim on the routing of interrupts: that its links are given interrupts which they offer, that its busiest
//! interrupt is theirs, and that no other assignment has a less busy one. It trusts nothing of whoever wrote the claim.
#![tactic(auto)]

mod avoided;
mod bound;
mod checked;
mod claim;
mod flaw;
mod keys;
mod known;
pub mod laws;
mod loads;
mod offered;
mod repeated;
mod search;
mod shared;
mod steps;

pub use checked::{check, check_all};
pub use claim::{Bound, Claim};
pub use flaw::Flaw;
