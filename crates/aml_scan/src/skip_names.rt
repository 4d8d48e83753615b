//! Names, gone over without a copy (NameString of ACPI 6.5, 20.2.2).
ghost use Rattle.std.specs.Prelude.{◌≡◌, ◌+◌, ◌≤◌, length, OnOk};
ghost use Rattle.ar_space.specs.Outcome.{NotMemory};
ghost use Rattle.ar_space.specs.Change.{Does};
ghost use Rattle.aml_grammar.specs.State.{times};
ghost use Rattle.aml_grammar.specs.Names.{segment, multiple_segments, segments, rooted_name, relative_name};
ghost use Rattle.aml_grammar.specs.Names.{name_string};
ghost use Rattle.aml_scan.specs.Scanned.{scanned};
ghost use Rattle.aml_scan.specs.Reading.{MovesOnInPlace};

use crate::before::Before;
use crate::names::segment;
use crate::reader::Reader;
use aml_arities::ArgumentCounts;
use ar_space::{NameFault, Refusal, Result};

/// As many segments as are asked for.
fn counted_segments<C: ArgumentCounts, B: Before>(
    reader: &mut Reader<'_, C, B>,
    count: u8,
) -> Result<()>
    ensures reads { Does result reader.new (scanned (times segment count)) reader.old }
    ensures shorter { OnOk result (length reader.new.rest + count ≤ length reader.old.rest) }
    ensures memory { NotMemory result }
{
    'segments: for _ in 0..count {
        segment(reader)?;
    }
    Ok(())
}

#[tactic(auto, using(crate::proofs::Scans::scanning), unfolding(aml_grammar::specs::Names::multiple_segments))]
fn multiple_segments<C: ArgumentCounts, B: Before>(reader: &mut Reader<'_, C, B>) -> Result<()>
    ensures { MovesOnInPlace result reader.new (scanned multiple_segments) reader.old }
{
    let count = reader.byte()?;
    if count == 0 {
        return Err(Refusal::Name(NameFault::BadName));
    }
    counted_segments(reader, count)
}

/// The segments of a name after its prefix.
#[tactic(auto, using(crate::proofs::Scans::scanning), unfolding(aml_grammar::specs::Names::segments))]
fn segments<C: ArgumentCounts, B: Before>(reader: &mut Reader<'_, C, B>) -> Result<()>
    ensures { MovesOnInPlace result reader.new (scanned segments) reader.old }
{
    let next = reader.peek()?;
    if next == 0 {
        reader.byte()?;
        return Ok(());
    }
    if next == b'.' {
        reader.byte()?;
        return counted_segments(reader, 2);
    }
    if next == b'/' {
        reader.byte()?;
        return multiple_segments(reader);
    }
    counted_segments(reader, 1)
}

#[tactic(auto, using(crate::proofs::Scans::scanning), unfolding(aml_grammar::specs::Names::rooted_name))]
fn rooted_name<C: ArgumentCounts, B: Before>(reader: &mut Reader<'_, C, B>) -> Result<()>
    ensures { MovesOnInPlace result reader.new (scanned rooted_name) reader.old }
{
    reader.byte()?;
    segments(reader)
}

#[tactic(auto, using(crate::proofs::Scans::scanning), unfolding(aml_grammar::specs::Names::relative_name))]
fn relative_name<C: ArgumentCounts, B: Before>(reader: &mut Reader<'_, C, B>) -> Result<()>
    ensures { MovesOnInPlace result reader.new (scanned relative_name) reader.old }
{
    reader.parents();
    segments(reader)
}

/// A name of which no path is asked. It takes no memory.
#[tactic(auto, using(crate::proofs::Scans::scanning), unfolding(aml_grammar::specs::Names::name_string))]
pub(crate) fn skip_name<C: ArgumentCounts, B: Before>(reader: &mut Reader<'_, C, B>) -> Result<()>
    ensures { MovesOnInPlace result reader.new (scanned name_string) reader.old }
{
    let next = reader.peek()?;
    if next == 0 {
        Err(Refusal::Name(NameFault::BadName))
    } else if next == b'\\' {
        rooted_name(reader)
    } else {
        relative_name(reader)
    }
}
