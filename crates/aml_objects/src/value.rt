//! Values.

/// A slot of a control method's frame.
#[derive(Clone, Copy, Debug, PartialEq, Eq)]
pub enum Slot {
    /// Local0 to Local7.
    Local(u8),
    /// Arg0 to Arg6.
    Argument(u8),
}

/// What a reference refers to. Declarations, frames and objects are given by number; a number is never used again.
///
/// The slot and the number of an object stand first: beside the tag they take no room of their own.
#[derive(Clone, Copy, Debug, PartialEq, Eq)]
pub enum Reference {
    /// A name, by the number of its declaration.
    Name(u64),
    /// A slot, of the frame with this number.
    Slot(Slot, u64),
    /// An element of a package: the package's object, and the element's index.
    Element(u32, usize),
    /// A byte of a string or a buffer: its object, and the byte's index.
    Byte(u32, usize),
}

/// A value (ACPI 6.5, 19.3.5). A string, a buffer or a package is the number of its object.
#[derive(Clone, Copy, Debug, PartialEq, Eq)]
pub enum Value {
    Uninitialized,
    /// An integer, of 32 or 64 bits as the DSDT's revision has it.
    Integer(u64),
    String(u32),
    Buffer(u32),
    Package(u32),
    Reference(Reference),
}

// A value is stored, handed on and answered by every rule of an evaluation.
const _: () = prove!(size_of::<Reference>() == 16);

const _: () = prove!(size_of::<Value>() == 24);
