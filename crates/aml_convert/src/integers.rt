//! Conversion to an integer (ACPI 6.5, 19.3.5.7).
ghost use Rattle.std.specs.Prelude.{◌≡◌};
ghost use Rattle.byteorder.specs.Endian.{little_number};
ghost use Rattle.ar_space.specs.Outcome.{Answers, NotMemory};
ghost use Rattle.aml_objects.specs.Contents.{content_of};
ghost use Rattle.aml_convert.specs.Integers.{bytes_of};
ghost use Rattle.aml_convert.specs.Conversions.{to_integer_of, integer_in_string, integer_in_buffer, numeral};
ghost use Rattle.aml_convert.specs.Conversions.{explicit_integer_of};

use crate::digits::{Base, leading_number};
use crate::widths::bytes;
use aml_objects::Content;
use ar_space::{IntegerWidth, Refusal, Result, ValueFault};
use byteorder::{ByteOrder, LittleEndian};

/// A value as an integer, as operators take their operands.
///
/// An integer is itself. Of a string the hexadecimal digits count that it begins with, of either case, at most 8 or
/// 16 of them; a string without any is 0. Of a buffer the first 4 or 8 bytes count, the lowest first; missing ones
/// are 0. An empty string or buffer is refused as `EmptyValue`, every other value as `WrongType`.
pub fn to_integer(width: IntegerWidth, content: Content<'_>) -> Result<u64>
    ensures answer { result ≡ to_integer_of width (content_of content.entry) }
    ensures step { Answers result (to_integer_of width (content_of content.entry)) }
    ensures memory { NotMemory result }
{
    match content {
        Content::Integer(n) => Ok(n),
        Content::String(text) => integer_in_string(width, text),
        Content::Buffer(buffer) => integer_in_buffer(width, buffer),
        Content::Other => Err(Refusal::Value(ValueFault::WrongType)),
    }
}

/// A value as an integer, as ToInteger gives it (ACPI 6.5, 19.6.141).
///
/// It differs from `to_integer` at strings: the decimal digits count that the string begins with, or after `0x` or
/// `0X` the hexadecimal ones. The number is taken modulo 2^32 or 2^64. Refused are an empty string or buffer as
/// `EmptyValue`, and as `WrongType` anything that is no integer, string or buffer.
pub fn explicit_integer(width: IntegerWidth, content: Content<'_>) -> Result<u64>
    ensures answer { result ≡ explicit_integer_of width (content_of content.entry) }
    ensures memory { NotMemory result }
{
    match content {
        Content::Integer(n) => Ok(n),
        Content::String(text) => numeral(width, text),
        Content::Buffer(buffer) => integer_in_buffer(width, buffer),
        Content::Other => Err(Refusal::Value(ValueFault::WrongType)),
    }
}

fn integer_in_string(width: IntegerWidth, text: &[u8]) -> Result<u64>
    ensures answer { result ≡ integer_in_string width text.now }
    ensures memory { NotMemory result }
{
    if text.is_empty() {
        return Err(Refusal::Value(ValueFault::EmptyValue));
    }
    let digits = text.len().min(2 * bytes(width));
    Ok(leading_number(width, Base::Hexadecimal, &text[..digits]))
}

fn integer_in_buffer(width: IntegerWidth, buffer: &[u8]) -> Result<u64>
    ensures answer { result ≡ integer_in_buffer width buffer.now }
    ensures memory { NotMemory result }
{
    if buffer.is_empty() {
        return Err(Refusal::Value(ValueFault::EmptyValue));
    }
    let room = bytes(width);
    if buffer.len() < room {
        return Ok(LittleEndian::read_uint(buffer, buffer.len()));
    }
    Ok(LittleEndian::read_uint(buffer, room))
}

fn numeral(width: IntegerWidth, text: &[u8]) -> Result<u64>
    ensures answer { result ≡ numeral width text.now }
    ensures memory { NotMemory result }
{
    match text {
        [] => Err(Refusal::Value(ValueFault::EmptyValue)),
        [b'0', b'x' | b'X', digits @ ..] => Ok(leading_number(width, Base::Hexadecimal, digits)),
        digits => Ok(leading_number(width, Base::Decimal, digits)),
    }
}
