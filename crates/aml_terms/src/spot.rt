//! Where an operand of a term stands.

use aml_grammar::OperandKind;

/// What an operand is, where a cursor stands at it: with the levels of terms below it.
#[derive(Clone, Copy)]
pub(crate) enum Spot {
    /// An operand of a kind.
    Operand(OperandKind, u8),
    /// As many arguments of a call.
    Arguments(u8, u8),
    /// An Else, or nothing.
    Else(u8),
    /// A count of bits.
    Bits,
}
