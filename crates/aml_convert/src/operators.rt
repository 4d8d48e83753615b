//! Operators on integers (ACPI 6.5, 19.6).
ghost use Rattle.std.specs.Prelude.{◌≡◌, ◌+◌, ◌-◌, ◌^◌};
ghost use Rattle.ar_space.specs.Outcome.{NotMemory};
ghost use Rattle.std.specs.Int.RustNames.{bit_and, bit_or, bit_xor};
ghost use Rattle.ar_space.specs.declared.refusal.Refusal.TheVariants.{Value};
ghost use Rattle.ar_space.specs.declared.refusal.ValueFault.TheVariants.{DivideByZero};
ghost use Rattle.aml_convert.specs.Integers.{bits_of, truncated};
ghost use Rattle.aml_convert.specs.Operators.{result_of, unary_result_of, complement, remainder, shifted_left};
ghost use Rattle.aml_convert.specs.Operators.{shifted_right, highest_set_bit, lowest_set_bit, divided};

use crate::widths::{bits, numbers, ones, truncate, truncate_integer};
use ar_space::{IntegerWidth, Refusal, Result, ValueFault};

/// Operators that take two integers and give one.
#[derive(Clone, Copy, Debug, PartialEq, Eq)]
pub enum BinaryOperator {
    Add,
    Subtract,
    Multiply,
    Mod,
    And,
    Nand,
    Or,
    Nor,
    Xor,
    ShiftLeft,
    ShiftRight,
}

/// Operators that take an integer and give one.
#[derive(Clone, Copy, Debug, PartialEq, Eq)]
pub enum UnaryOperator {
    Not,
    /// The number, from 1, of the highest set bit; 0 where none is set.
    FindSetLeftBit,
    /// The number, from 1, of the lowest set bit; 0 where none is set.
    FindSetRightBit,
}

/// What Divide gives.
#[derive(Clone, Copy, Debug, PartialEq, Eq)]
pub struct Division {
    pub quotient: u64,
    pub remainder: u64,
}

/// What an operator gives of two integers of a width, modulo 2^32 or 2^64.
///
/// A shift by the width or more gives 0. Mod by 0 is refused as `DivideByZero`.
pub fn operate(operator: BinaryOperator, width: IntegerWidth, x: u64, y: u64) -> Result<u64>
    ensures answer { result ≡ result_of operator width x y }
    ensures memory { NotMemory result }
{
    match operator {
        BinaryOperator::Add => Ok(truncate(width, u128::from(x) + u128::from(y))),
        BinaryOperator::Subtract => Ok(subtract(width, x, y)),
        BinaryOperator::Multiply => Ok(truncate(width, u128::from(x) * u128::from(y))),
        BinaryOperator::Mod => remainder(x, y),
        BinaryOperator::And => Ok(x & y),
        BinaryOperator::Nand => Ok(complement(width, x & y)),
        BinaryOperator::Or => Ok(x | y),
        BinaryOperator::Nor => Ok(complement(width, x | y)),
        BinaryOperator::Xor => Ok(x ^ y),
        BinaryOperator::ShiftLeft => Ok(shift_left(width, x, y)),
        BinaryOperator::ShiftRight => Ok(shift_right(width, x, y)),
    }
}

/// What an operator gives of one integer of a width.
pub fn operate_on_one(operator: UnaryOperator, width: IntegerWidth, x: u64) -> u64
    ensures { result ≡ unary_result_of operator width x }
{
    match operator {
        UnaryOperator::Not => complement(width, x),
        UnaryOperator::FindSetLeftBit => highest_set_bit(x),
        UnaryOperator::FindSetRightBit => lowest_set_bit(x),
    }
}

/// Divide: the quotient and the remainder of two integers. A divisor of 0 is refused as `DivideByZero`.
pub fn divide(x: u64, y: u64) -> Result<Division>
    ensures answer { result ≡ divided x y }
    ensures memory { NotMemory result }
{
    if y == 0 {
        return Err(Refusal::Value(ValueFault::DivideByZero));
    }
    Ok(Division {
        quotient: x / y,
        remainder: x % y,
    })
}

fn subtract(width: IntegerWidth, x: u64, y: u64) -> u64
    ensures { result ≡ truncated width (x + (2 ^ bits_of width - truncated width y)) }
{
    let taken = truncate_integer(width, y);
    truncate(width, u128::from(x) + (numbers(width) - u128::from(taken)))
}

fn remainder(x: u64, y: u64) -> Result<u64>
    ensures answer { result ≡ remainder x y }
    ensures memory { NotMemory result }
{
    if y == 0 {
        return Err(Refusal::Value(ValueFault::DivideByZero));
    }
    Ok(x % y)
}

fn complement(width: IntegerWidth, x: u64) -> u64
    ensures { result ≡ complement width x }
{
    ones(width) - truncate_integer(width, x)
}

fn shift_left(width: IntegerWidth, x: u64, count: u64) -> u64
    ensures { result ≡ shifted_left width x count }
{
    if count >= bits(width) {
        return 0;
    }
    truncate(width, u128::from(x) << count)
}

fn shift_right(width: IntegerWidth, x: u64, count: u64) -> u64
    ensures { result ≡ shifted_right width x count }
{
    if count >= bits(width) {
        return 0;
    }
    x >> count
}

fn highest_set_bit(x: u64) -> u64
    ensures { result ≡ highest_set_bit x }
{
    64 - u64::from(x.leading_zeros())
}

fn lowest_set_bit(x: u64) -> u64
    ensures { result ≡ lowest_set_bit x }
{
    if x == 0 {
        return 0;
    }
    1 + u64::from(x.trailing_zeros())
}
