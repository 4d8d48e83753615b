//! How names are spelled (NameString of ACPI 6.5, 20.2.2).
ghost use Rattle.std.specs.Prelude.{◌≡◌, ◌+◌, ◌<◌, ◌≤◌, ◌^◌, ℕ, [], length, OnOk};
ghost use Rattle.ar_space.specs.Outcome.{Answers, NotMemory, seen};
ghost use Rattle.ar_space.specs.Change.{Does};
ghost use Rattle.aml_grammar.specs.State.{times};
ghost use Rattle.aml_grammar.specs.Names.{starts_name, lead_name_char, name_char, segment, counted_segments};
ghost use Rattle.aml_grammar.specs.Names.{multiple_segments, segments_at, segments, rooted_name, relative_name};
ghost use Rattle.aml_grammar.specs.Names.{name_at, name_string};
ghost use Rattle.aml_scan.specs.Reading.{MovesOn, MovesOnInPlace};

use crate::before::Before;
use crate::reader::Reader;
use aml_arities::{ArgumentCounts, Arities};
use aml_path::{NameString, Prefix, Seg, is_lead_name_char, is_name_char};
use ar_space::{NameFault, Refusal, Result};
use std::alloc::Global;
use std::marker::Brand;

/// Whether a name begins with this byte.
#[tactic(auto, unfolding(aml_grammar::specs::Names::starts_name))]
pub fn starts_name(byte: u8) -> bool
    ensures { result ≡ starts_name byte }
{
    byte == b'\\' || byte == b'^' || byte == b'.' || byte == b'/' || is_lead_name_char(byte)
}

#[tactic(auto, using(crate::proofs::Steps::reading), unfolding(aml_grammar::specs::Names::lead_name_char))]
fn lead_name_char<C: ArgumentCounts, B: Before>(reader: &mut Reader<'_, C, B>) -> Result<u8>
    ensures { MovesOnInPlace result reader.new lead_name_char reader.old }
{
    let byte = reader.byte()?;
    if is_lead_name_char(byte) {
        Ok(byte)
    } else {
        Err(Refusal::Name(NameFault::BadName))
    }
}

#[tactic(auto, using(crate::proofs::Steps::reading), unfolding(aml_grammar::specs::Names::name_char))]
fn name_char<C: ArgumentCounts, B: Before>(reader: &mut Reader<'_, C, B>) -> Result<u8>
    ensures { MovesOnInPlace result reader.new name_char reader.old }
{
    let byte = reader.byte()?;
    if is_name_char(byte) {
        Ok(byte)
    } else {
        Err(Refusal::Name(NameFault::BadName))
    }
}

/// One segment.
#[tactic(auto, using(crate::proofs::Steps::reading, crate::proofs::Segments::made_plainly), //
unfolding(aml_grammar::specs::Names::segment))]
pub(crate) fn segment<C: ArgumentCounts, B: Before>(reader: &mut Reader<'_, C, B>) -> Result<Seg>
    ensures reads { Does result reader.new segment reader.old }
    ensures shorter { OnOk result (length reader.new.rest < length reader.old.rest) }
    ensures memory { NotMemory result }
{
    let first = lead_name_char(reader)?;
    let second = name_char(reader)?;
    let third = name_char(reader)?;
    let fourth = name_char(reader)?;
    Seg::new([first, second, third, fourth])
}

fn counted_segments<C: ArgumentCounts, B: Before>(
    reader: &mut Reader<'_, C, B>,
    count: u8,
) -> Result<Vec<Seg>>
    ensures reads { Does (seen (λ v. v.items) result) reader.new (times segment count) reader.old }
    ensures shorter { OnOk result (length reader.new.rest + count ≤ length reader.old.rest) }
{
    let mut list = Vec::new(reader.alloc);
    'segments: for _ in 0..count {
        let next = segment(reader)?;
        list.push(next)?;
    }
    Ok(list)
}

#[tactic(auto, using(crate::proofs::Steps::reading), unfolding(aml_grammar::specs::Names::multiple_segments))]
fn multiple_segments<C: ArgumentCounts, B: Before>(
    reader: &mut Reader<'_, C, B>,
) -> Result<Vec<Seg>>
    ensures reads { Does (seen (λ v. v.items) result) reader.new multiple_segments reader.old }
    ensures shorter { OnOk result (length reader.new.rest < length reader.old.rest) }
{
    let count = reader.byte()?;
    if count == 0 {
        return Err(Refusal::Name(NameFault::BadName));
    }
    counted_segments(reader, count)
}

/// The segments of a name after its prefix.
#[tactic(auto, using(crate::proofs::Steps::reading), unfolding(aml_grammar::specs::Names::segments))]
fn segments<C: ArgumentCounts, B: Before>(reader: &mut Reader<'_, C, B>) -> Result<Vec<Seg>>
    ensures reads { Does (seen (λ v. v.items) result) reader.new segments reader.old }
    ensures shorter { OnOk result (length reader.new.rest < length reader.old.rest) }
{
    let next = reader.peek()?;
    if next == 0 {
        reader.byte()?;
        return Ok(Vec::new(reader.alloc));
    }
    if next == b'.' {
        reader.byte()?;
        return counted_segments(reader, 2);
    }
    if next == b'/' {
        reader.byte()?;
        return multiple_segments(reader);
    }
    counted_segments(reader, 1)
}

#[tactic(auto, using(crate::proofs::Steps::reading), unfolding(aml_grammar::specs::Names::rooted_name))]
fn rooted_name<C: ArgumentCounts, B: Before>(reader: &mut Reader<'_, C, B>) -> Result<NameString>
    ensures { MovesOn result reader.new rooted_name reader.old }
{
    reader.byte()?;
    let segments = segments(reader)?;
    Ok(NameString::new(Prefix::Root, segments))
}

#[tactic(auto, using(crate::proofs::Steps::reading), unfolding(aml_grammar::specs::Names::relative_name))]
fn relative_name<C: ArgumentCounts, B: Before>(reader: &mut Reader<'_, C, B>) -> Result<NameString>
    ensures { MovesOn result reader.new relative_name reader.old }
{
    let count = reader.parents();
    let segments = segments(reader)?;
    Ok(NameString::new(Prefix::Parents(count), segments))
}

/// A name, where nothing else may stand: not the null name alone.
#[tactic(auto, using(crate::proofs::Steps::reading), unfolding(aml_grammar::specs::Names::name_string))]
pub(crate) fn name_string<C: ArgumentCounts, B: Before>(
    reader: &mut Reader<'_, C, B>,
) -> Result<NameString>
    ensures { MovesOn result reader.new name_string reader.old }
{
    let next = reader.peek()?;
    if next == 0 {
        Err(Refusal::Name(NameFault::BadName))
    } else if next == b'\\' {
        rooted_name(reader)
    } else {
        relative_name(reader)
    }
}

/// The name that bytes begin with, which stand at an offset of their list; refused as the grammar refuses it.
#[tactic(auto, using(crate::proofs::Steps::outcomes))]
pub fn read_name(alloc: Global, at: usize, bytes: &[u8]) -> Result<NameString>
    requires { at + length bytes.now < 2 ^ 64 }
    ensures { Answers result (name_string (record { at = at; rest = bytes.now; arities = []; marks = [] })).0 }
{
    let none = Arities::new(alloc);
    let mut reader = Reader::<Arities, Brand>::standing(alloc, at, bytes, &none);
    name_string(&mut reader)
}
