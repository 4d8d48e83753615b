//! Register spaces over another one: two show what a run needed, its last access and the bytes that are missing, and
//! one bounds how many accesses are made.
#![tactic(auto)]

mod last_access;
mod metered;
mod missing_bytes;
mod zero_filled;
mod zeros;

pub use last_access::{Accessed, Direction, LastAccess};
pub use metered::Metered;
pub use missing_bytes::MissingBytes;
pub use zero_filled::ZeroFilled;
