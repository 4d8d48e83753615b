//! Out of the program: a text to the output and a line to the errors.
ghost use Rattle.std.specs.Prelude.{◌≡◌, false, is_err, IfOk};
ghost use Rattle.acpiroute_shell.specs.Deliveries.{Delivered, Told, refusal_told};
ghost use Rattle.acpiroute_shell.specs.ErrorLines.{error_line};
ghost use Rattle.acpiroute_shell.specs.Held.{Takes};

use crate::answer::Answer;
use crate::error_line::write_error_line;
use crate::streams::{Failed, Sink};
use ar_space::{Refusal, Result};
use std::alloc::{AllocError, Global};

/// Writes a text whole, or up to where a write fails.
fn put_all<W: Sink>(writer: &mut W, text: &[u8]) -> Result<(), Failed>
    requires { (W.held writer.old).has_failed ≡ false }
    ensures takes { Takes (W.held writer.old) (W.held writer.new) text.now }
    ensures fault { (W.held writer.new).has_failed ≡ is_err result }
{
    let mut done = 0;
    while done < text.len() {
        done += writer.put(&text[done..])?;
    }
    Ok(())
}

/// Delivers a text, lines for the errors, and a status. Where a write to the output fails, the line of the fault stands
/// behind the lines, and the status is 1; where a write to the errors fails, nothing else changes.
pub fn deliver<W: Sink, E: Sink>(
    text: &[u8],
    line: &[u8],
    status: u8,
    writer: &mut W,
    errors: &mut E,
) -> u8
    requires output { (W.held writer.old).has_failed ≡ false }
    requires errors { (E.held errors.old).has_failed ≡ false }
    ensures { Delivered (record { text = text.now; line = line.now; status = status }) result
        (W.held writer.old) (W.held writer.new) (E.held errors.old) (E.held errors.new) }
{
    let wrote = put_all(writer, text);
    let told = put_all(errors, line);
    if wrote.is_ok() {
        return status;
    }
    if told.is_ok() {
        let _ = put_all(errors, b"refused 142\n"); // WriteFault
    }
    1
}

/// The line of a refusal.
pub(crate) fn line_of(alloc: Global, refusal: &Refusal) -> Result<Vec<u8>, AllocError>
    ensures { IfOk result (λ v. v.items ≡ error_line refusal.now) }
{
    let mut line = Vec::new(alloc);
    match write_error_line(&mut line, refusal) {
        Ok(()) => Ok(line),
        Err(_) => Err(AllocError),
    }
}

/// The line of a refusal, behind these lines; alone where memory ran out.
fn line_behind(alloc: Global, passed: &[u8], refusal: &Refusal) -> Result<Vec<u8>, AllocError>
    ensures { IfOk result (λ v. v.items ≡ refusal_told passed.now refusal.now) }
{
    let line = line_of(alloc, refusal)?;
    if matches!(refusal, Refusal::OutOfMemory) {
        return Ok(line);
    }
    let mut lines = Vec::from_slice(alloc, passed)?;
    lines.extend_from_slice(line.as_slice())?;
    Ok(lines)
}

/// Delivers an answer, and what was passed over, in its lines; or the line of a refusal behind these and nothing
/// else. The lines are made whole before their first byte goes out; where memory runs out for them, the line is that of
/// `OutOfMemory`.
pub fn deliver_outcome<W: Sink, E: Sink>(
    alloc: Global,
    passed: &[u8],
    outcome: Result<Answer>,
    writer: &mut W,
    errors: &mut E,
) -> u8
    requires output { (W.held writer.old).has_failed ≡ false }
    requires errors { (E.held errors.old).has_failed ≡ false }
    ensures { Told passed.now outcome result (W.held writer.old) (W.held writer.new)
        (E.held errors.old) (E.held errors.new) }
{
    match outcome {
        Ok(answer) => deliver(
            answer.text.as_slice(),
            passed,
            answer.completion.status(),
            writer,
            errors,
        ),
        Err(refusal) => match line_behind(alloc, passed, &refusal) {
            Ok(line) => deliver(b"", line.as_slice(), 1, writer, errors),
            Err(_) => deliver(b"", b"refused 99\n", 1, writer, errors),
        },
    }
}
