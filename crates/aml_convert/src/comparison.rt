//! The order of two values (ACPI 6.5, 19.6.72, 19.6.74 and 19.6.76).
ghost use Rattle.std.specs.Prelude.{◌≡◌};
ghost use Rattle.ar_space.specs.Outcome.{Answers};
ghost use Rattle.aml_objects.specs.Contents.{content_of};
ghost use Rattle.aml_convert.specs.Conversions.{compared};

use crate::buffers::to_buffer;
use crate::integers::to_integer;
use crate::texts::to_text;
use aml_objects::Content;
use ar_space::{IntegerWidth, Refusal, Result, ValueFault};
use std::alloc::Global;
use std::cmp::Ordering;

/// The order of two values.
///
/// The second is converted to the first's type, and refused as that conversion is. Integers are compared as numbers,
/// strings and buffers byte by byte, where one that another begins with comes before it. A first value of another
/// type is refused as `WrongType`.
#[tactic(auto, using(ar_space::proofs::Outcomes::answering), unfolding(crate::specs::Conversions::compared))]
pub fn compare(
    alloc: Global,
    width: IntegerWidth,
    first: Content<'_>,
    second: Content<'_>,
) -> Result<Ordering>
    ensures { Answers result (compared width (content_of first.entry) (content_of second.entry)) }
{
    match first {
        Content::Integer(n) => Ok(n.cmp(&to_integer(width, second)?)),
        Content::String(text) => Ok(text.cmp(to_text(alloc, width, second)?.as_slice())),
        Content::Buffer(buffer) => Ok(buffer.cmp(to_buffer(alloc, width, second)?.as_slice())),
        Content::Other => Err(Refusal::Value(ValueFault::WrongType)),
    }
}
