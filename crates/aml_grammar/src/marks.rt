//! Marks of calls.

/// A name that takes arguments where a value may stand.
#[derive(Clone, Copy, Debug, PartialEq, Eq)]
pub struct Mark {
    /// Where the name begins, from the first byte of the handed-in list.
    pub offset: usize,
    /// How many arguments follow it, at least one.
    pub count: u8,
}
