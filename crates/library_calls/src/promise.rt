//! What is promised where memory runs out.
use ar_space::{MachineFault, Refusal, Result};

/// Why the calls end before the last one.
pub(crate) enum Ended {
    /// Memory ran out, and what is promised then holds.
    OutOfMemory,
    /// Something else than what is promised came of a call.
    Broken(&'static str),
}

/// The value of a call that ample memory lets answer: any refusal but want of memory breaks the promise.
pub(crate) fn answered<T: Drop>(call: &'static str, came: Result<T>) -> Result<T, Ended> {
    match came {
        Ok(value) => Ok(value),
        Err(Refusal::OutOfMemory) => Err(Ended::OutOfMemory),
        Err(_) => Err(Ended::Broken(call)),
    }
}

/// Whether a call was refused because an earlier one ran out of memory.
pub(crate) fn is_spent<T>(came: &Result<T>) -> bool {
    matches!(came, Err(Refusal::Machine(MachineFault::Spent)))
}
