//! Strings that are asked for by name, and parts of values (ACPI 6.5, 19.6.139, 19.6.140, 19.6.143, and Mid).
ghost use Rattle.std.specs.Prelude.{◌≡◌, ◌==◌, ◌≤◌, ◌++◌, ◌∷◌, [], length, take, Ok, IfOk, OnOk, decimal};
ghost use Rattle.std.specs.List.{flat_map, position_or_len};
ghost use Rattle.ar_space.specs.Outcome.{Answers, seen};
ghost use Rattle.aml_objects.specs.Contents.{content_of};
ghost use Rattle.aml_convert.specs.Formed.{formed_content};
ghost use Rattle.aml_convert.specs.Strings.{decimal_string_of, hexadecimal_string_of, listed, prefixed, before_zero};
ghost use Rattle.aml_convert.specs.Strings.{string_of, part, part_of, middle_of};

use crate::buffers::{integer_bytes, to_buffer};
use crate::formed::Formed;
use crate::integers::to_integer;
use crate::texts::{integer_text, push_digits};
use aml_objects::{Content, Octets};
use ar_space::{IntegerWidth, Refusal, Result, ValueFault};
use itoa::Buffer;
use std::alloc::{AllocError, Global};

/// ToDecimalString: a value as a string of decimal numbers (ACPI 6.5, 19.6.139).
///
/// An integer is its decimal digits, without leading zeros. A string is itself. A buffer is each byte as such a
/// number, with commas between them. Every other value is refused as `WrongType`.
pub fn to_decimal_string(alloc: Global, content: Content<'_>) -> Result<Octets>
    ensures { Answers result (decimal_string_of (content_of content.entry)) }
{
    match content {
        Content::Integer(n) => Ok(Octets::from_vec(decimal_digits(alloc, n)?)),
        Content::String(text) => Ok(Octets::from_vec(Vec::from_slice(alloc, text)?)),
        Content::Buffer(buffer) => Ok(Octets::from_vec(listed_in_decimal(alloc, buffer)?)),
        Content::Other => Err(Refusal::Value(ValueFault::WrongType)),
    }
}

/// ToHexString: a value as a string of hexadecimal numbers (ACPI 6.5, 19.6.140).
///
/// An integer is 8 or 16 upper-case digits. A string is itself. A buffer is each byte as `0x` and two upper-case
/// digits, with commas between them. Every other value is refused as `WrongType`.
pub fn to_hexadecimal_string(
    alloc: Global,
    width: IntegerWidth,
    content: Content<'_>,
) -> Result<Octets>
    ensures { Answers result (hexadecimal_string_of width (content_of content.entry)) }
{
    match content {
        Content::Integer(n) => integer_text(alloc, width, n),
        Content::String(text) => Ok(Octets::from_vec(Vec::from_slice(alloc, text)?)),
        Content::Buffer(buffer) => Ok(Octets::from_vec(listed_in_hexadecimal(alloc, buffer)?)),
        Content::Other => Err(Refusal::Value(ValueFault::WrongType)),
    }
}

/// ToString: the bytes of a value, as a buffer, before the first zero, at most as many as are asked for (ACPI 6.5,
/// 19.6.143).
///
/// The source is refused as its conversion to a buffer is, and then the count as its conversion to an integer.
#[tactic(auto, using(ar_space::proofs::Outcomes::answering), unfolding(crate::specs::Strings::string_of))]
pub fn to_string(
    alloc: Global,
    width: IntegerWidth,
    source: Content<'_>,
    count: Content<'_>,
) -> Result<Octets>
    ensures { Answers result (string_of width (content_of source.entry) (content_of count.entry)) }
{
    let bytes = to_buffer(alloc, width, source)?;
    let count = to_integer(width, count)?;
    octets(alloc, before_zero(bytes.as_slice(), count))
}

/// Mid: a part of a value, from a place on, at most as many bytes as are asked for (ACPI 6.5, 19.6).
///
/// Of a string it is a string. Another value is converted to a buffer, refused as that conversion is, and gives a
/// buffer. Then the place and the count are refused as their conversions to integers are. At the end and past it
/// there is nothing.
#[tactic(auto, using(ar_space::proofs::Outcomes::answering), unfolding(crate::specs::Strings::middle_of))]
pub fn middle(
    alloc: Global,
    width: IntegerWidth,
    source: Content<'_>,
    start: Content<'_>,
    count: Content<'_>,
) -> Result<Formed>
    ensures { Answers (seen formed_content result) (middle_of width (content_of source.entry) (content_of start.entry)
        (content_of count.entry)) }
{
    match source {
        Content::Integer(n) => {
            let bytes = integer_bytes(alloc, width, n)?;
            Ok(Formed::Buffer(part_of(alloc, width, &bytes, start, count)?))
        }
        Content::String(text) => Ok(Formed::String(part_of(alloc, width, text, start, count)?)),
        Content::Buffer(buffer) => Ok(Formed::Buffer(part_of(alloc, width, buffer, start, count)?)),
        Content::Other => Err(Refusal::Value(ValueFault::WrongType)),
    }
}

#[tactic(auto, using(ar_space::proofs::Outcomes::answering), unfolding(crate::specs::Strings::part_of))]
fn part_of(
    alloc: Global,
    width: IntegerWidth,
    bytes: &[u8],
    start: Content<'_>,
    count: Content<'_>,
) -> Result<Octets>
    ensures { Answers result (part_of width bytes.now (content_of start.entry) (content_of count.entry)) }
{
    let start = to_integer(width, start)?;
    let count = to_integer(width, count)?;
    octets(alloc, part(bytes, start, count))
}

/// The bytes from a place on, at most as many as are asked for.
fn part(bytes: &[u8], start: u64, count: u64) -> &[u8]
    ensures { result.now ≡ part start count bytes.now }
{
    if start >= bytes.len() as u64 {
        return &[];
    }
    at_most(&bytes[start as usize..], count)
}

/// The bytes before the first zero, at most as many as are asked for.
fn before_zero(bytes: &[u8], count: u64) -> &[u8]
    ensures { result.now ≡ before_zero count bytes.now }
{
    at_most(&bytes[..place_of_zero(bytes)], count)
}

/// Where the first zero stands, or where the bytes end.
fn place_of_zero(bytes: &[u8]) -> usize
    ensures value { result ≡ position_or_len (λ b. b == 0) bytes.now }
    ensures within { result ≤ length bytes.now }
{
    for place in 0..bytes.len() {
        if bytes[place] == 0 {
            return place;
        }
    }
    bytes.len()
}

/// The first bytes, as many as are asked for, or all.
fn at_most(bytes: &[u8], count: u64) -> &[u8]
    ensures { result.now ≡ take count bytes.now }
{
    if count >= bytes.len() as u64 {
        return bytes;
    }
    &bytes[..count as usize]
}

/// A copy of bytes.
fn octets(alloc: Global, bytes: &[u8]) -> Result<Octets>
    ensures { Answers result (Ok bytes.now) }
{
    Ok(Octets::from_vec(Vec::from_slice(alloc, bytes)?))
}

/// A number in decimal digits, without leading zeros.
fn decimal_digits(alloc: Global, number: u64) -> Result<Vec<u8>, AllocError>
    ensures { IfOk result (λ v. v.items ≡ decimal number) }
{
    let mut buffer = Buffer::new();
    Vec::from_slice(alloc, buffer.format(number).as_bytes())
}

/// Each byte in decimal, with commas between them.
fn listed_in_decimal(alloc: Global, bytes: &[u8]) -> Result<Vec<u8>, AllocError>
    ensures { IfOk result (λ v. v.items ≡ listed decimal bytes.now) }
{
    match bytes {
        [] => Ok(Vec::new(alloc)),
        [first, others @ ..] => decimals_from(alloc, *first, others),
    }
}

/// A byte in decimal, and a comma and each other one.
fn decimals_from(alloc: Global, first: u8, others: &[u8]) -> Result<Vec<u8>, AllocError>
    ensures { IfOk result (λ v. v.items ≡ decimal first ++ flat_map (λ b. 44 ∷ decimal b) others.now) }
{
    let mut text = Vec::new(alloc);
    push_decimal(&mut text, first)?;
    for byte in others {
        text.push(b',')?;
        push_decimal(&mut text, *byte)?;
    }
    Ok(text)
}

/// A byte more, in decimal.
fn push_decimal(text: &mut Vec<u8>, byte: u8) -> Result<(), AllocError>
    ensures { OnOk result (text.new.items ≡ text.old.items ++ decimal byte) }
{
    let mut buffer = Buffer::new();
    text.extend_from_slice(buffer.format(byte).as_bytes())
}

/// Each byte in hexadecimal behind `0x`, with commas between them.
fn listed_in_hexadecimal(alloc: Global, bytes: &[u8]) -> Result<Vec<u8>, AllocError>
    ensures { IfOk result (λ v. v.items ≡ listed prefixed bytes.now) }
{
    match bytes {
        [] => Ok(Vec::new(alloc)),
        [first, others @ ..] => hexadecimals_from(alloc, *first, others),
    }
}

/// A byte in hexadecimal behind `0x`, and a comma and each other one.
fn hexadecimals_from(alloc: Global, first: u8, others: &[u8]) -> Result<Vec<u8>, AllocError>
    ensures { IfOk result (λ v. v.items ≡ prefixed first ++ flat_map (λ b. 44 ∷ prefixed b) others.now) }
{
    let mut text = Vec::new(alloc);
    push_prefixed(alloc, &mut text, first)?;
    for byte in others {
        text.push(b',')?;
        push_prefixed(alloc, &mut text, *byte)?;
    }
    Ok(text)
}

/// A byte more, in hexadecimal behind `0x`.
fn push_prefixed(alloc: Global, text: &mut Vec<u8>, byte: u8) -> Result<(), AllocError>
    ensures { OnOk result (text.new.items ≡ text.old.items ++ prefixed byte) }
{
    text.extend_from_slice(b"0x")?;
    push_digits(alloc, text, byte)
}
