//! Conversion to a buffer (ACPI 6.5, 19.3.5.7).
ghost use Rattle.std.specs.Prelude.{◌≡◌, Ok, IfOk};
ghost use Rattle.ar_space.specs.Outcome.{Answers};
ghost use Rattle.aml_objects.specs.Contents.{content_of};
ghost use Rattle.aml_convert.specs.Conversions.{to_buffer_of, integer_bytes, terminated};

use crate::widths::truncate_integer;
use aml_objects::{Content, Octets};
use ar_space::{IntegerWidth, Refusal, Result, ValueFault};
use byteorder::{ByteOrder, LittleEndian};
use std::alloc::{AllocError, Global};

/// A value as a buffer.
///
/// An integer is its 4 or 8 bytes, the lowest first. A string is its bytes and a zero, and an empty one is an empty
/// buffer. A buffer is itself. Every other value is refused as `WrongType`.
pub fn to_buffer(alloc: Global, width: IntegerWidth, content: Content<'_>) -> Result<Octets>
    ensures { Answers result (to_buffer_of width (content_of content.entry)) }
{
    match content {
        Content::Integer(n) => Ok(Octets::from_vec(integer_bytes(alloc, width, n)?)),
        Content::String(text) => Ok(Octets::from_vec(terminated(alloc, text)?)),
        Content::Buffer(buffer) => Ok(Octets::from_vec(Vec::from_slice(alloc, buffer)?)),
        Content::Other => Err(Refusal::Value(ValueFault::WrongType)),
    }
}

/// The bytes of an integer, the lowest first.
pub(crate) fn integer_bytes(
    alloc: Global,
    width: IntegerWidth,
    n: u64,
) -> Result<Vec<u8>, AllocError>
    ensures { IfOk result (λ v. v.items ≡ integer_bytes width n) }
{
    let kept = truncate_integer(width, n);
    match width {
        IntegerWidth::Bits32 => {
            let mut bytes = [0; 4];
            LittleEndian::write_u32(&mut bytes, kept as u32);
            bytes.to_vec(alloc)
        }
        IntegerWidth::Bits64 => {
            let mut bytes = [0; 8];
            LittleEndian::write_u64(&mut bytes, kept);
            bytes.to_vec(alloc)
        }
    }
}

/// The bytes of a string, and a zero unless there are none.
fn terminated(alloc: Global, text: &[u8]) -> Result<Vec<u8>, AllocError>
    ensures { IfOk result (λ v. v.items ≡ terminated text.now) }
{
    let mut bytes = Vec::from_slice(alloc, text)?;
    if !text.is_empty() {
        bytes.push(0)?;
    }
    Ok(bytes)
}
