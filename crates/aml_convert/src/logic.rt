//! What is true (ACPI 6.5, 19.6.69 to 19.6.76).
ghost use Rattle.std.specs.Prelude.{◌≡◌};
ghost use Rattle.aml_convert.specs.Integers.{truth};
ghost use Rattle.aml_convert.specs.Operators.{is_true, logical_result_of, lnot, holds};

use crate::widths::ones;
use ar_space::IntegerWidth;
use std::cmp::Ordering;

/// Operators on two truth values.
#[derive(Clone, Copy, Debug, PartialEq, Eq)]
pub enum LogicalOperator {
    And,
    Or,
}

/// What a comparison asks of the order of its operands.
#[derive(Clone, Copy, Debug, PartialEq, Eq)]
pub enum Comparison {
    Equal,
    Greater,
    Less,
}

/// A truth value as an integer: all bits set, or none.
pub fn truth(width: IntegerWidth, is_true: bool) -> u64
    ensures { result ≡ truth width is_true }
{
    if is_true { ones(width) } else { 0 }
}

/// Whether an integer is true: it isn't 0.
pub fn is_true(x: u64) -> bool
    ensures { result ≡ is_true x }
{
    x != 0
}

/// LAnd and LOr of two integers.
pub fn operate_logically(operator: LogicalOperator, width: IntegerWidth, x: u64, y: u64) -> u64
    ensures { result ≡ logical_result_of operator width x y }
{
    match operator {
        LogicalOperator::And => truth(width, is_true(x) && is_true(y)),
        LogicalOperator::Or => truth(width, is_true(x) || is_true(y)),
    }
}

/// LNot of an integer.
pub fn lnot(width: IntegerWidth, x: u64) -> u64
    ensures { result ≡ lnot width x }
{
    truth(width, x == 0)
}

/// Whether an order of two values is the one that a comparison asks for.
pub fn holds(comparison: Comparison, order: Ordering) -> bool
    ensures { result ≡ holds comparison order }
{
    match comparison {
        Comparison::Equal => order.is_eq(),
        Comparison::Greater => order.is_gt(),
        Comparison::Less => order.is_lt(),
    }
}
