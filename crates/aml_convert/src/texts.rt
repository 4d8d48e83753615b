//! Conversion to a string (ACPI 6.5, 19.3.5.7).
ghost use Rattle.std.specs.Prelude.{◌≡◌, Ok, ◌∷◌, ◌++◌, [], IfOk, OnOk};
ghost use Rattle.std.specs.List.{join_by, flat_map};
ghost use Rattle.byteorder.specs.Endian.{big_bytes};
ghost use Rattle.hex.specs.Hex.{encode_upper};
ghost use Rattle.ar_space.specs.Outcome.{Answers};
ghost use Rattle.aml_objects.specs.Contents.{content_of};
ghost use Rattle.aml_convert.specs.Integers.{bytes_of, truncated};
ghost use Rattle.aml_convert.specs.Conversions.{to_text_of, two_digits};

use crate::widths::truncate_integer;
use aml_objects::{Content, Octets};
use ar_space::{IntegerWidth, Refusal, Result, ValueFault};
use byteorder::{BigEndian, ByteOrder};
use std::alloc::{AllocError, Global};

/// A value as a string.
///
/// An integer is 8 or 16 upper-case hexadecimal digits, a string is itself, and a buffer is two upper-case hexadecimal
/// digits for each byte, separated by blanks. Every other value is refused as `WrongType`.
pub fn to_text(alloc: Global, width: IntegerWidth, content: Content<'_>) -> Result<Octets>
    ensures { Answers result (to_text_of width (content_of content.entry)) }
{
    match content {
        Content::Integer(n) => integer_text(alloc, width, n),
        Content::String(text) => Ok(Octets::from_vec(Vec::from_slice(alloc, text)?)),
        Content::Buffer(buffer) => Ok(Octets::from_vec(spaced(alloc, buffer)?)),
        Content::Other => Err(Refusal::Value(ValueFault::WrongType)),
    }
}

/// The digits of an integer.
pub(crate) fn integer_text(alloc: Global, width: IntegerWidth, n: u64) -> Result<Octets>
    ensures { Answers result (Ok (encode_upper (big_bytes (bytes_of width) (truncated width n)))) }
{
    let kept = truncate_integer(width, n);
    let mut bytes = [0; 8];
    BigEndian::write_u64(&mut bytes, kept);
    let text = match width {
        IntegerWidth::Bits32 => hex::encode_upper(alloc, &bytes[4..])?,
        IntegerWidth::Bits64 => hex::encode_upper(alloc, &bytes)?,
    };
    Ok(Octets::from_vec(text.into_bytes()))
}

/// Two digits for each byte, separated by blanks.
fn spaced(alloc: Global, bytes: &[u8]) -> Result<Vec<u8>, AllocError>
    ensures { IfOk result (λ v. v.items ≡ join_by two_digits (32 ∷ []) bytes.now) }
{
    match bytes {
        [] => Ok(Vec::new(alloc)),
        [first, others @ ..] => spaced_from(alloc, *first, others),
    }
}

/// Two digits of a byte, and a blank and two digits for each other.
fn spaced_from(alloc: Global, first: u8, others: &[u8]) -> Result<Vec<u8>, AllocError>
    ensures { IfOk result (λ v. v.items ≡ two_digits first ++ flat_map (λ b. 32 ∷ two_digits b) others.now) }
{
    let mut text = Vec::new(alloc);
    push_digits(alloc, &mut text, first)?;
    for byte in others {
        text.push(b' ')?;
        push_digits(alloc, &mut text, *byte)?;
    }
    Ok(text)
}

/// Two digits more.
pub(crate) fn push_digits(alloc: Global, text: &mut Vec<u8>, byte: u8) -> Result<(), AllocError>
    ensures { OnOk result (text.new.items ≡ text.old.items ++ two_digits byte) }
{
    let digits = hex::encode_upper(alloc, [byte])?;
    text.extend_from_slice(digits.as_bytes())
}
