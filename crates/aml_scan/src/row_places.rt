//! Places in the table of terms.
ghost use Rattle.std.specs.Prelude.{◌<◌};

/// Where a row stands in the table of terms: one byte in place of the nine parts of a row, most of which nobody looks
/// at.
#[derive(Clone, Copy)]
pub struct RowPlace {
    /// The place, from 0 on.
    pub place: u8,
    ghost within: { place < 112 },
}
