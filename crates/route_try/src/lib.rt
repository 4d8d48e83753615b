//! Other solvers, for tests: two that try all assignments, one that moves links depth first, and one that puts links
//! in on shortest ways. They are plain code, proved to be safe and to end and nothing more, so that comparing them
//! with `route_solve` and `route_spread` tests their contracts too.
#![tactic(auto)]

pub mod earlier;
mod fixing;
mod inserted;
mod loads;
mod placing;
mod rooms;
mod sharing;
mod trial;

pub use inserted::least_sharing;
pub use sharing::{is_first_of_all, sorted_loads};
pub use trial::first_least;
