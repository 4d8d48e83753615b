//! What Match asks of an element of a package (ACPI 6.5, 19.6).
ghost use Rattle.std.specs.Prelude.{◌≡◌, Ok};
ghost use Rattle.ar_space.specs.Outcome.{Answers};
ghost use Rattle.aml_objects.specs.Contents.{content_of};
ghost use Rattle.aml_convert.specs.Conversions.{compared};
ghost use Rattle.aml_convert.specs.Matching.{match_operator, is_met, is_met_by, is_match};

use crate::comparison::compare;
use aml_objects::Content;
use ar_space::{IntegerWidth, Refusal, Result};
use std::alloc::Global;
use std::cmp::Ordering;

/// How Match wants an element to be to its object.
#[derive(Clone, Copy, Debug, PartialEq, Eq)]
pub enum MatchOperator {
    /// MTR: it asks nothing.
    Always,
    /// MEQ.
    Equal,
    /// MLE: at most the object.
    LessOrEqual,
    /// MLT.
    Less,
    /// MGE: at least the object.
    GreaterOrEqual,
    /// MGT.
    Greater,
}

impl MatchOperator {
    /// The operator that a term's byte means; none above 5.
    pub fn from_number(number: u64) -> Option<MatchOperator>
        ensures { result ≡ match_operator number }
    {
        match number {
            0 => Some(MatchOperator::Always),
            1 => Some(MatchOperator::Equal),
            2 => Some(MatchOperator::LessOrEqual),
            3 => Some(MatchOperator::Less),
            4 => Some(MatchOperator::GreaterOrEqual),
            5 => Some(MatchOperator::Greater),
            _ => None,
        }
    }

    /// Whether an element meets the operator, by the order of the object and the element.
    fn is_met(self, order: Ordering) -> bool
        ensures { result ≡ is_met self order }
    {
        match self {
            MatchOperator::Always => true,
            MatchOperator::Equal => order.is_eq(),
            MatchOperator::LessOrEqual => order.is_ge(),
            MatchOperator::Less => order.is_gt(),
            MatchOperator::GreaterOrEqual => order.is_le(),
            MatchOperator::Greater => order.is_lt(),
        }
    }
}

/// Whether an element matches an object under an operator.
///
/// The element is converted to the object's type and compared as LEqual, LGreater and LLess compare, with the object
/// as the first operand. Where that is refused the element does not match. `MatchOperator::Always` is met by every
/// element, which is not converted then. Only want of memory is refused.
pub fn is_match(
    alloc: Global,
    width: IntegerWidth,
    operator: MatchOperator,
    object: Content<'_>,
    element: Content<'_>,
) -> Result<bool>
    ensures { Answers result (Ok (is_match width operator (content_of object.entry) (content_of element.entry))) }
{
    match operator {
        MatchOperator::Always => Ok(true),
        _ => is_in_order(alloc, width, operator, object, element),
    }
}

/// Whether an element can be compared with an object, and is to it as the operator asks.
fn is_in_order(
    alloc: Global,
    width: IntegerWidth,
    operator: MatchOperator,
    object: Content<'_>,
    element: Content<'_>,
) -> Result<bool>
    ensures { Answers result (Ok
        (is_met_by operator (compared width (content_of object.entry) (content_of element.entry)))) }
{
    match compare(alloc, width, object, element) {
        Ok(order) => Ok(operator.is_met(order)),
        Err(Refusal::OutOfMemory) => Err(Refusal::OutOfMemory),
        Err(_) => Ok(false),
    }
}
