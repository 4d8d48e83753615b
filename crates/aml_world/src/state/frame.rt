//! Frames of control methods (ACPI 6.5, 5.5.2.3).
use aml_objects::Value;

/// What a call of a control method has of its own: a number that no other frame has, eight locals and seven arguments.
#[derive(Clone, Copy, Debug)]
pub struct Frame {
    /// Given once in a world, and never again.
    pub number: u64,
    /// Local0 to Local7.
    pub locals: [Value; 8],
    /// Arg0 to Arg6; `Uninitialized` behind those that the call has.
    pub arguments: [Value; 7],
}
