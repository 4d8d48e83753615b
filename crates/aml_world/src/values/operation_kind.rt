//! What terms ask of the values that their operands give.

use aml_convert::{BinaryOperator, Comparison, LogicalOperator, UnaryOperator};

/// A term with two operands and a target.
#[derive(Clone, Copy, Debug, PartialEq, Eq)]
pub enum TwoOperands {
    Integers(BinaryOperator),
    Concatenate,
    ConcatenateResources,
    Index,
}

/// A term with an operand and a target.
#[derive(Clone, Copy, Debug, PartialEq, Eq)]
pub enum OneOperand {
    Integer(UnaryOperator),
    ToBuffer,
    ToInteger,
}

/// A term with two operands, whose value is True or False.
#[derive(Clone, Copy, Debug, PartialEq, Eq)]
pub enum Test {
    Logical(LogicalOperator),
    Compare(Comparison),
}

/// Which term counts, and so which way.
#[derive(Clone, Copy, Debug, PartialEq, Eq)]
pub enum Count {
    Increment,
    Decrement,
}

/// How many bits a buffer field has whose term says it.
#[derive(Clone, Copy, Debug, PartialEq, Eq)]
pub enum BufferFieldSize {
    Bit,
    Byte,
    Word,
    DWord,
    QWord,
}

/// ToDecimalString, ToHexString, FromBCD and ToBCD.
#[derive(Clone, Copy, Debug, PartialEq, Eq)]
pub enum Conversion {
    DecimalString,
    HexadecimalString,
    /// FromBCD.
    FromDecimal,
    /// ToBCD.
    ToDecimal,
}

/// What a term does to the signals of an event that no Wait has taken.
#[derive(Clone, Copy, Debug, PartialEq, Eq)]
pub enum EventChange {
    /// Signal: they are one more.
    Signal,
    /// Reset: none is left.
    Reset,
}
