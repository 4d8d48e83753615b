//! The lines that tell where evaluation was refused: the terms that were being evaluated, the name that was looked for,
//! and the steps. What the terms and the name are no contract says: rows test it.
ghost use Rattle.std.specs.Prelude.{◌≡◌, ◌++◌, ℕ, Some, IfOk, OnOk};
ghost use Rattle.acpi_explain.specs.Explaining.{line_of, IsInLine, AreTerms, ArePlaces, steps_line, IsSteps};

use crate::explaining::put_table;
use crate::stage::Stage;
use acpiroute_shell::{put_number, put_path};
use aml_scan::row_of;
use aml_world::{Trace, TraceName, TracePlace};
use std::alloc::{AllocError, Global};
use std::io::Write;

/// The lines that tell where evaluation was refused.
#[derive(Drop)]
pub(crate) struct TraceText {
    /// The terms that were being evaluated, the outermost first, and the name.
    pub(crate) places: Vec<u8>,
    /// The steps that they took.
    pub(crate) steps: Vec<u8>,
}

/// The control method, or the table whose list it is at module level. Where the table isn't known it is the scope.
fn put_list(
    alloc: Global,
    text: &mut Vec<u8>,
    place: &TracePlace,
    table: Option<usize>,
) -> Result<(), AllocError> {
    match table {
        Some(number) if !place.is_body => put_table(text, number),
        _ => put_path(alloc, text, &place.scope),
    }
}

/// An opcode and its name. A term that begins with a name has none.
fn put_code(text: &mut Vec<u8>, code: Option<u16>) -> Result<(), AllocError> {
    let Some(code) = code else {
        return text.extend_from_slice(b"- NameString");
    };
    let written = match row_of(code) {
        Some(row) => write!(text, "{code:02X} {:?}", row.0),
        None => write!(text, "{code:02X}"),
    };
    match written {
        Ok(()) => Ok(()),
        Err(_) => Err(AllocError),
    }
}

/// A term that was being evaluated: the list that it stands in, its offset there, its opcode and its name.
fn term_words(
    alloc: Global,
    place: &TracePlace,
    table: Option<usize>,
) -> Result<Vec<u8>, AllocError> {
    let mut text = Vec::new(alloc);
    put_list(alloc, &mut text, place, table)?;
    text.extend_from_slice(b" at ")?;
    put_number(&mut text, place.at as u64)?;
    text.extend_from_slice(b" ")?;
    put_code(&mut text, place.code)?;
    Ok(text)
}

/// The name that was looked for, and the scope that it was looked for from.
fn name_words(alloc: Global, name: &TraceName) -> Result<Vec<u8>, AllocError> {
    let mut text = Vec::new(alloc);
    put_path(alloc, &mut text, &name.path)?;
    text.extend_from_slice(b" from ")?;
    put_path(alloc, &mut text, &name.scope)?;
    Ok(text)
}

/// The bytes but line feeds: what is to stand in one line.
pub(crate) fn in_line(alloc: Global, bytes: &[u8]) -> Result<Vec<u8>, AllocError>
    ensures { IfOk result (λ text. IsInLine text.items) }
{
    let mut text = Vec::new(alloc);
    for byte in bytes {
        if *byte != b'\n' {
            text.push(*byte)?;
        }
    }
    Ok(text)
}

/// A line that begins with a word.
fn put_line(text: &mut Vec<u8>, word: &[u8], rest: &[u8]) -> Result<(), AllocError>
    ensures { OnOk result (text.new.items ≡ text.old.items ++ line_of word.now rest.now) }
{
    text.extend_from_slice(word)?;
    text.extend_from_slice(rest)?;
    text.extend_from_slice(b"\n")
}

/// The lines of the terms of a trace, the outermost first. `table` is the number of the table that was being loaded.
fn term_lines(alloc: Global, trace: &Trace, table: Option<usize>) -> Result<Vec<u8>, AllocError>
    ensures { IfOk result (λ text. AreTerms text.items) }
{
    let mut text = Vec::new(alloc);
    for place in trace.places() {
        let own = term_words(alloc, place, table)?;
        let words = in_line(alloc, &own)?;
        put_line(&mut text, b"in ", &words)?;
    }
    Ok(text)
}

/// The lines of a trace: those of its terms, and behind them that of the name.
fn place_lines(alloc: Global, trace: &Trace, table: Option<usize>) -> Result<Vec<u8>, AllocError>
    ensures { IfOk result (λ text. ArePlaces text.items) }
{
    let mut text = term_lines(alloc, trace, table)?;
    match trace.name() {
        None => Ok(text),
        Some(name) => {
            let own = name_words(alloc, name)?;
            let words = in_line(alloc, &own)?;
            put_line(&mut text, b"name ", &words)?;
            Ok(text)
        }
    }
}

/// The line of the steps that were taken, of those that there were.
fn taken_line(alloc: Global, taken: u64, steps: u64) -> Result<Vec<u8>, AllocError>
    ensures { IfOk result (λ text. text.items ≡ steps_line (Some taken) steps) }
{
    let mut text = Vec::from_slice(alloc, b"steps ")?;
    put_number(&mut text, taken)?;
    text.extend_from_slice(b" of ")?;
    put_number(&mut text, steps)?;
    text.extend_from_slice(b"\n")?;
    Ok(text)
}

/// The line of the steps of a trace; none where no term was being evaluated.
fn steps_line(alloc: Global, trace: &Trace, steps: u64) -> Result<Vec<u8>, AllocError>
    ensures { IfOk result (λ text. IsSteps steps text.items) }
{
    if trace.places().is_empty() {
        return Ok(Vec::new(alloc));
    }
    taken_line(alloc, steps.saturating_sub(trace.steps_left()), steps)
}

/// The number of the table that was being loaded.
fn table_of(stage: &Option<Stage>) -> Option<usize> {
    match stage {
        Some(Stage::Loading(number)) => Some(*number),
        _ => None,
    }
}

/// Whether what was found was put together.
fn is_gathering(stage: &Option<Stage>) -> bool {
    matches!(stage, Some(Stage::Gathering))
}

/// The lines where nothing was being evaluated.
fn no_trace(alloc: Global) -> TraceText
    ensures places { ArePlaces result.places.items }
    ensures steps { (n : ℕ) → IsSteps n result.steps.items }
{
    TraceText {
        places: Vec::new(alloc),
        steps: Vec::new(alloc),
    }
}

/// The lines of a trace, where this was done and so many steps might be taken. Where what was found is put together no
/// evaluation is refused, so the trace may be that of an earlier one, whose refusal was told elsewhere. A trace that
/// was cut, since memory ran out, is told as that.
pub(crate) fn trace_text(
    alloc: Global,
    trace: &Trace,
    stage: &Option<Stage>,
    steps: u64,
) -> Result<TraceText, AllocError>
    ensures places { IfOk result (λ traced. ArePlaces traced.places.items) }
    ensures steps { IfOk result (λ traced. IsSteps steps traced.steps.items) }
{
    if trace.is_cut() {
        return Err(AllocError);
    }
    if is_gathering(stage) {
        return Ok(no_trace(alloc));
    }
    Ok(TraceText {
        places: place_lines(alloc, trace, table_of(stage))?,
        steps: steps_line(alloc, trace, steps)?,
    })
}
