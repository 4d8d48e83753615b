//! Values outside a world.
use aml_objects::Octets;
use aml_path::Path;

/// A value that a caller hands in or is given: it names no object of a world.
#[derive(Debug, Drop)]
pub enum Datum {
    /// No value: a control method without Return, or an element that was left out.
    Nothing,
    /// An integer.
    Integer(u64),
    /// The bytes of a string, which are not always ASCII.
    Text(Octets),
    /// The bytes of a buffer.
    Bytes(Octets),
    /// The elements of a package.
    Package(Vec<Datum>),
    /// A name of the namespace.
    Named(Path),
    /// A reference to anything else.
    Reference,
}
