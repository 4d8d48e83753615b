//! One access.
use ar_space::{Place, Width};

/// An access to a register space: where, how wide, and the value of a write.
#[derive(Clone, Copy, Debug, PartialEq, Eq)]
pub enum Access {
    Read(Place, Width),
    Write(Place, Width, u64),
}
