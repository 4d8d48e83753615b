//! Places in lent bytes.
ghost use Rattle.std.specs.Prelude.{◌+◌, ◌<◌, ◌^◌, length};

use aml_marks::Marks;
use aml_scan::RowPlace;

/// What stands at a place of the bytes.
#[derive(Clone, Copy)]
pub(crate) enum Kind {
    /// A term.
    Term,
    /// A term whose opcode was read: what stands behind the opcode, by the place of its row.
    Coded(RowPlace),
    /// An element of a package.
    Element,
    /// An Else.
    Else,
    /// A field element.
    Field,
    /// The items of a list.
    Items,
    /// The elements of a package.
    Elements,
    /// The arguments of a call.
    Arguments,
    /// The field elements of a list.
    Fields,
}

/// A term, or a list of terms, in lent bytes: where it begins, what is left of its list, and the marks of the bytes.
///
/// It reads any bytes by any marks: what is missing is read as zero. Where a list was scanned, its terms are those of
/// the grammar.
#[derive(Clone, Copy)]
pub struct At<'a> {
    pub(crate) at: usize,
    pub(crate) rest: &'a [u8],
    pub(crate) marks: &'a Marks,
    /// How many turns a list has at most.
    pub(crate) turns: usize,
    /// How many levels of terms are read at most.
    pub(crate) levels: u8,
    pub(crate) kind: Kind,
    ghost fits: { at + length rest.now < 2 ^ 64 },
}
