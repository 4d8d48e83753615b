//! The lines of `why` where a run is refused.
ghost use Rattle.std.specs.Prelude.{◌≡◌, ◌++◌, IfOk, OnOk, codes};
ghost use Rattle.aml_path.specs.Text.{text_of};
ghost use Rattle.acpi_explain.specs.Explaining.{table_words, stage_words, stage_line, direction_word, access_line};
ghost use Rattle.acpi_explain.specs.Explaining.{refusal_line, help_line, IsInLine, refused_text};

use crate::help::Help;
use crate::places::put_place;
use crate::stage::Stage;
use crate::trace_lines::{TraceText, in_line};
use acpiroute_shell::{put_number, put_path, refusal_words};
use aml_path::Path;
use ar_space::Refusal;
use std::alloc::{AllocError, Global};
use watched_space::{Accessed, Direction};

/// `DSDT`, or an SSDT by its number.
pub(crate) fn put_table(text: &mut Vec<u8>, number: usize) -> Result<(), AllocError>
    ensures { OnOk result (text.new.items ≡ text.old.items ++ table_words number) }
{
    if number == 0 {
        return text.extend_from_slice(b"DSDT");
    }
    text.extend_from_slice(b"SSDT ")?;
    put_number(text, number as u64)
}

/// Words, and a path behind them.
fn put_named(alloc: Global, text: &mut Vec<u8>, words: &[u8], path: &Path) -> Result<(), AllocError>
    ensures { OnOk result (text.new.items ≡ text.old.items ++ (words.now ++ text_of path.now)) }
{
    text.extend_from_slice(words)?;
    put_path(alloc, text, path)
}

/// That the object at a path is read again.
fn put_again(alloc: Global, text: &mut Vec<u8>, path: &Path) -> Result<(), AllocError>
    ensures { OnOk result
        (text.new.items ≡ text.old.items ++ (codes "reading " ++ (text_of path.now ++ codes " again"))) }
{
    text.extend_from_slice(b"reading ")?;
    put_path(alloc, text, path)?;
    text.extend_from_slice(b" again")
}

/// What was done.
fn put_stage(alloc: Global, text: &mut Vec<u8>, stage: &Stage) -> Result<(), AllocError>
    ensures { OnOk result (text.new.items ≡ text.old.items ++ stage_words stage.now) }
{
    match stage {
        Stage::Loading(number) => {
            text.extend_from_slice(b"loading ")?;
            put_table(text, *number)
        }
        Stage::Calling(path) => put_named(alloc, text, b"calling ", path),
        Stage::RoutingTable(path) => {
            put_named(alloc, text, b"reading the routing table of ", path)
        }
        Stage::Reading(path) => put_named(alloc, text, b"reading ", path),
        Stage::Setting(path) => put_named(alloc, text, b"setting ", path),
        Stage::ReadingAgain(path) => put_again(alloc, text, path),
        Stage::Gathering => text.extend_from_slice(b"gathering links and pins"),
    }
}

/// `while` and what was done, where that is known.
fn put_stage_line(
    alloc: Global,
    text: &mut Vec<u8>,
    stage: &Option<Stage>,
) -> Result<(), AllocError>
    ensures { OnOk result (text.new.items ≡ text.old.items ++ stage_line stage.now) }
{
    match stage {
        None => Ok(()),
        Some(stage) => {
            text.extend_from_slice(b"while ")?;
            put_stage(alloc, text, stage)?;
            text.extend_from_slice(b"\n")
        }
    }
}

fn put_direction(text: &mut Vec<u8>, direction: Direction) -> Result<(), AllocError>
    ensures { OnOk result (text.new.items ≡ text.old.items ++ direction_word direction) }
{
    match direction {
        Direction::Read => text.extend_from_slice(b"read "),
        Direction::Write => text.extend_from_slice(b"write "),
    }
}

/// `access`, the direction, the place, and how many bytes.
fn put_access(text: &mut Vec<u8>, access: Option<Accessed>) -> Result<(), AllocError>
    ensures { OnOk result (text.new.items ≡ text.old.items ++ access_line access) }
{
    match access {
        None => Ok(()),
        Some(access) => {
            text.extend_from_slice(b"access ")?;
            put_direction(text, access.direction)?;
            put_place(text, access.place)?;
            text.extend_from_slice(b" ")?;
            put_number(text, u64::from(access.width.bytes()))?;
            text.extend_from_slice(b"\n")
        }
    }
}

/// The refusal as its error line has it, and its name.
fn refusal_line(alloc: Global, refusal: &Refusal, name: &[u8]) -> Result<Vec<u8>, AllocError>
    ensures { IfOk result (λ text. text.items ≡ refusal_line refusal.now name.now) }
{
    let mut text = refusal_words(alloc, refusal)?;
    text.extend_from_slice(b" ")?;
    text.extend_from_slice(name)?;
    text.extend_from_slice(b"\n")?;
    Ok(text)
}

pub(crate) fn put_help(text: &mut Vec<u8>, help: &[u8]) -> Result<(), AllocError>
    ensures { OnOk result (text.new.items ≡ text.old.items ++ help_line help.now) }
{
    text.extend_from_slice(b"help ")?;
    text.extend_from_slice(help)?;
    text.extend_from_slice(b"\n")
}

/// The name of a refusal, and what to do, a line each.
#[derive(Drop)]
pub(crate) struct HelpLines {
    pub(crate) name: Vec<u8>,
    pub(crate) help: Vec<u8>,
}

/// What is said of a refusal, a line each.
pub(crate) fn help_lines(alloc: Global, help: &Help) -> Result<HelpLines, AllocError>
    ensures name { IfOk result (λ lines. IsInLine lines.name.items) }
    ensures help { IfOk result (λ lines. IsInLine lines.help.items) }
{
    let name = in_line(alloc, help.name.as_bytes())?;
    let help = in_line(alloc, help.help.as_bytes())?;
    Ok(HelpLines { name, help })
}

/// The lines of a refusal, in their order.
pub(crate) fn refused_text(
    alloc: Global,
    refusal: &Refusal,
    help: &HelpLines,
    stage: &Option<Stage>,
    traced: &TraceText,
    access: Option<Accessed>,
) -> Result<Vec<u8>, AllocError>
    ensures { IfOk result (λ text. text.items ≡ refused_text refusal.now help.now.name.items stage.now
        traced.now.places.items access traced.now.steps.items help.now.help.items) }
{
    let mut text = refusal_line(alloc, refusal, &help.name)?;
    put_stage_line(alloc, &mut text, stage)?;
    text.extend_from_slice(&traced.places)?;
    put_access(&mut text, access)?;
    text.extend_from_slice(&traced.steps)?;
    put_help(&mut text, &help.help)?;
    Ok(text)
}
