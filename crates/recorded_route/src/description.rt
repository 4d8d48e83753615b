//! What is described of a machine beside its registers: by a machine text, or by its tables as they stand in memory.
ghost use Rattle.std.specs.Prelude.{◌≡◌, ◌==◌, ◌<◌, ◌≤◌, ◌+◌, ◌^◌, IfOk, length, map};
ghost use Rattle.std.specs.FinMap as maps;
ghost use Rattle.ar_space.specs.Change.{Does};
ghost use Rattle.ar_space.specs.Outcome.{Answers, seen};
ghost use Rattle.std.specs.Bool.{OnTrue, OnFalse};
ghost use Rattle.std.specs.List.{slice_split};
ghost use Rattle.recorded_route.specs.Runs.{described, described_tables, texts_in, with_part, with_parts};

use aml_objects::Octets;
use ar_space::{ByteMap, Refusal, Result, TableFault};
use ar_tables::{Tables, find_tables};
use machine_description::describe;
use machine_text::read_machine;
use std::alloc::{AllocError, Global};

/// The tables of a machine, and the texts that `_OSI` knows.
pub(crate) type Description = (Tables, Vec<Octets>);

/// The tables in the memory of a machine text, and the texts that `_OSI` knows. Its registers are passed over.
#[tactic(auto, using(ar_space::proofs::Outcomes::answering), unfolding(crate::specs::Runs::described))]
pub(crate) fn described(alloc: Global, text: &[u8]) -> Result<Description>
    ensures { Answers (seen (λ d. (d.0, d.1.items)) result) (described text.now) }
{
    let said = read_machine(alloc, text)?;
    let machine = describe(alloc, said)?;
    drop(machine.registers);
    Ok((machine.tables, machine.osi))
}

/// A part of a machine's memory in which tables stand; as C has it.
#[repr(C)]
#[derive(Clone, Copy, Debug)]
pub struct TablePart<'a> {
    /// The physical address of its first byte.
    pub address: u64,
    /// Its bytes.
    pub bytes: &'a [u8],
}

/// The tables of a machine as they stand in its memory.
#[derive(Clone, Copy, Debug)]
pub struct TablesInMemory<'a> {
    /// The physical address of the Root System Description Pointer (ACPI 6.5, 5.2.5).
    pub rsdp: u64,
    /// Where the tables stand. Of two parts that have a byte of one address, that of the later one counts.
    pub parts: &'a [TablePart<'a>],
    /// The texts that `_OSI` knows (ACPI 6.5, 5.7.2), parted by single line feeds; where there is no byte, there is
    /// no text.
    pub osi: &'a [u8],
}

/// The texts between line feeds.
fn split_lines<'a>(alloc: Global, text: &'a [u8]) -> Result<Vec<&'a [u8]>, AllocError>
    ensures { IfOk result (λ list. map (λ s. s.now) list.items ≡ slice_split (λ b. b == 10) text.now) }
{
    text.split(|byte| *byte == b'\n').collect(alloc)
}

/// Copies of some texts.
fn copies(alloc: Global, texts: &[&[u8]]) -> Result<Vec<Octets>, AllocError>
    ensures { IfOk result (λ list. list.items ≡ map (λ s. s.now) texts.now) }
{
    let mut list = Vec::new(alloc);
    for text in texts {
        list.push(Octets::from_vec(Vec::from_slice(alloc, text)?))?;
    }
    Ok(list)
}

/// The texts that a text has, parted by single line feeds.
fn texts_in(alloc: Global, text: &[u8]) -> Result<Vec<Octets>, AllocError>
    ensures { IfOk result (λ list. list.items ≡ texts_in text.now) }
{
    if text.is_empty() {
        return Ok(Vec::new(alloc));
    }
    let texts = split_lines(alloc, text)?;
    copies(alloc, texts.as_slice())
}

/// Whether a part lies below 2^64.
fn is_in_memory(part: &TablePart<'_>) -> bool
    ensures yes { OnTrue result (part.now.address + length part.now.bytes.now ≤ 2 ^ 64) }
    ensures no { OnFalse result (2 ^ 64 < part.now.address + length part.now.bytes.now) }
{
    let room = u64::MAX - part.address;
    if part.bytes.is_empty() {
        return true;
    }
    if part.bytes.len() as u64 - 1 <= room {
        return true;
    }
    false
}

/// An image of memory with a part of it.
#[tactic(auto, using(ar_space::proofs::Outcomes::answering), unfolding(crate::specs::Runs::with_part))]
fn with_part(image: ByteMap, part: &TablePart<'_>) -> Result<ByteMap>
    ensures { Answers result (with_part image part.now) }
{
    if !is_in_memory(part) {
        return Err(Refusal::Table(TableFault::NotInImage));
    }
    let mut image = image;
    image.put_all(part.address, part.bytes)?;
    Ok(image)
}

/// An image of memory with these parts of it, a later one over an earlier one.
fn with_parts(image: ByteMap, parts: &[TablePart<'_>]) -> Result<ByteMap>
    ensures { Answers result (with_parts image parts.now) }
{
    let mut image = image;
    for part in parts {
        image = with_part(image, part)?;
    }
    Ok(image)
}

/// The tables by their Root System Description Pointer in parts of memory. A part that doesn't lie below 2^64 is
/// refused as `NotInImage`. Of a table that isn't needed only the signature has to be among the parts.
#[tactic(auto, using(ar_space::proofs::Outcomes::answering), unfolding(crate::specs::Runs::described_tables))]
pub(crate) fn described_tables(alloc: Global, tables: &TablesInMemory<'_>) -> Result<Description>
    ensures { Answers (seen (λ d. (d.0, d.1.items)) result) (described_tables tables.now.rsdp tables.now.parts.now
        tables.now.osi.now) }
{
    let image = with_parts(ByteMap::new(alloc), tables.parts)?;
    let found = find_tables(alloc, &image, tables.rsdp)?;
    let osi = texts_in(alloc, tables.osi)?;
    Ok((found, osi))
}
