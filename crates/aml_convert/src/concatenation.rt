//! Values joined (ACPI 6.5, 19.6.12 and 19.6.13).
ghost use Rattle.std.specs.Prelude.{◌≡◌, ◌++◌, ◌∷◌, [], Ok};
ghost use Rattle.ar_space.specs.Outcome.{Answers, seen};
ghost use Rattle.aml_objects.specs.Contents.{content_of, Integer, String, Buffer};
ghost use Rattle.aml_convert.specs.Concatenation.{concatenated, resources_joined, before_end, buffer_bytes};
ghost use Rattle.aml_convert.specs.Formed.{formed_content};

use crate::buffers::{integer_bytes, to_buffer};
use crate::formed::Formed;
use crate::integers::to_integer;
use crate::texts::to_text;
use acpi_resources::length_before_end_tag;
use aml_objects::{Content, Octets};
use ar_space::{IntegerWidth, Refusal, ResourceFault, Result, ValueFault};
use std::alloc::Global;

/// The end tag of joined resource items, without a checksum.
const END_TAG: [u8; 2] = [0x79, 0x00];

/// Concatenate: two values joined, the second converted to the first's type.
///
/// Two integers are joined as buffers. A first value of another type is refused as `WrongType`, and a second as its
/// conversion is.
#[tactic(auto, using(ar_space::proofs::Outcomes::answering), unfolding(crate::specs::Concatenation::concatenated))]
pub fn concat(
    alloc: Global,
    width: IntegerWidth,
    first: Content<'_>,
    second: Content<'_>,
) -> Result<Formed>
    ensures { Answers (seen formed_content result) (concatenated width (content_of first.entry)
        (content_of second.entry)) }
{
    match first {
        Content::Integer(n) => concat_integers(alloc, width, n, second),
        Content::String(text) => concat_strings(alloc, width, text, second),
        Content::Buffer(buffer) => concat_buffers(alloc, width, buffer, second),
        Content::Other => Err(Refusal::Value(ValueFault::WrongType)),
    }
}

#[tactic(auto, using(ar_space::proofs::Outcomes::answering), unfolding(crate::specs::Concatenation::concatenated))]
fn concat_integers(
    alloc: Global,
    width: IntegerWidth,
    first: u64,
    second: Content<'_>,
) -> Result<Formed>
    ensures { Answers (seen formed_content result) (concatenated width (Integer first) (content_of second.entry)) }
{
    let second = to_integer(width, second)?;
    let front = integer_bytes(alloc, width, first)?;
    let back = integer_bytes(alloc, width, second)?;
    Ok(Formed::Buffer(appended(alloc, &front, &back)?))
}

#[tactic(auto, using(ar_space::proofs::Outcomes::answering), unfolding(crate::specs::Concatenation::concatenated))]
fn concat_strings(
    alloc: Global,
    width: IntegerWidth,
    first: &[u8],
    second: Content<'_>,
) -> Result<Formed>
    ensures { Answers (seen formed_content result) (concatenated width (String first.now) (content_of second.entry)) }
{
    match second {
        Content::String(text) => join_strings(alloc, first, text),
        other => {
            let text = to_text(alloc, width, other)?;
            join_strings(alloc, first, text.as_slice())
        }
    }
}

#[tactic(auto, using(ar_space::proofs::Outcomes::answering), unfolding(crate::specs::Concatenation::concatenated))]
fn concat_buffers(
    alloc: Global,
    width: IntegerWidth,
    first: &[u8],
    second: Content<'_>,
) -> Result<Formed>
    ensures { Answers (seen formed_content result) (concatenated width (Buffer first.now) (content_of second.entry)) }
{
    match second {
        Content::Buffer(bytes) => join_buffers(alloc, first, bytes),
        other => {
            let bytes = to_buffer(alloc, width, other)?;
            join_buffers(alloc, first, bytes.as_slice())
        }
    }
}

/// ConcatenateResTemplate: the resource items of two buffers before their end tags, and an end tag.
///
/// An empty buffer counts as an end tag alone. Values that aren't both buffers are refused as `WrongType`, and then a
/// buffer without a whole end tag among the items that it begins with as `NoEnd`.
#[tactic(auto, using(ar_space::proofs::Outcomes::answering), unfolding(crate::specs::Concatenation::resources_joined))]
pub fn concat_resources(alloc: Global, first: Content<'_>, second: Content<'_>) -> Result<Octets>
    ensures { Answers result (resources_joined (content_of first.entry) (content_of second.entry)) }
{
    let first = buffer_bytes(first)?;
    let second = buffer_bytes(second)?;
    let front = before_end(first)?;
    let back = before_end(second)?;
    with_end_tag(alloc, front, back)
}

/// The bytes of two lists of items, and an end tag.
fn with_end_tag(alloc: Global, front: &[u8], back: &[u8]) -> Result<Octets>
    ensures { Answers result (Ok (front.now ++ back.now ++ 0x79 ∷ 0x00 ∷ [])) }
{
    let mut joined = Vec::from_slice(alloc, front)?;
    joined.extend_from_slice(back)?;
    joined.extend_from_slice(&END_TAG)?;
    Ok(Octets::from_vec(joined))
}

fn buffer_bytes(content: Content<'_>) -> Result<&[u8]>
    ensures { Answers (seen (λ b. b.now) result) (buffer_bytes (content_of content.entry)) }
{
    match content {
        Content::Buffer(buffer) => Ok(buffer),
        Content::Integer(_) => Err(Refusal::Value(ValueFault::WrongType)),
        Content::String(_) => Err(Refusal::Value(ValueFault::WrongType)),
        Content::Other => Err(Refusal::Value(ValueFault::WrongType)),
    }
}

/// The items of a buffer before its end tag.
fn before_end(buffer: &[u8]) -> Result<&[u8]>
    ensures { Answers (seen (λ b. b.now) result) (before_end buffer.now) }
{
    if buffer.is_empty() {
        return Ok(buffer);
    }
    match length_before_end_tag(buffer) {
        None => Err(Refusal::Resource(ResourceFault::NoEnd)),
        Some(count) => Ok(&buffer[..count]),
    }
}

fn join_strings(alloc: Global, first: &[u8], second: &[u8]) -> Result<Formed>
    ensures { Answers (seen formed_content result) (Ok (String (first.now ++ second.now))) }
{
    Ok(Formed::String(appended(alloc, first, second)?))
}

fn join_buffers(alloc: Global, first: &[u8], second: &[u8]) -> Result<Formed>
    ensures { Answers (seen formed_content result) (Ok (Buffer (first.now ++ second.now))) }
{
    Ok(Formed::Buffer(appended(alloc, first, second)?))
}

/// Bytes and those behind them.
fn appended(alloc: Global, front: &[u8], back: &[u8]) -> Result<Octets>
    ensures { Answers result (Ok (front.now ++ back.now)) }
{
    let mut joined = Vec::with_capacity(alloc, front.len().saturating_add(back.len()))?;
    joined.extend_from_slice(front)?;
    joined.extend_from_slice(back)?;
    Ok(Octets::from_vec(joined))
}
