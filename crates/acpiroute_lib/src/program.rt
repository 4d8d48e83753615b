//! The program, from its words and its input to its output, its error line and its status.
ghost use Rattle.std.specs.Prelude.{◌≡◌, ◌≢◌, ◌<◌, [], length, map, false, IfOk};
ghost use Rattle.clap.specs.Words.{kind_of};
ghost use Rattle.acpiroute_shell.specs.CommandLine.{faults_of};
ghost use Rattle.acpiroute_shell.specs.Deliveries.{Delivered};
ghost use Rattle.acpiroute_shell.specs.Reads.{ReadsWithin};
ghost use Rattle.acpiroute_lib.specs.Runs.{Ran, Served, Shown, bad_avoid, no_memory};

use crate::commands::answer_request;
use acpiroute_shell::{Asked, Request, Sink, Source, deliver, deliver_outcome, parse, read_input};
use clap::Error;
use clap::error::ErrorKind;
use std::alloc::{AllocError, Global};
use std::io::Write;

/// Reads all that is left, and delivers what a request comes to over it.
fn serve<R: Source, W: Sink, E: Sink>(
    alloc: Global,
    request: Request,
    reader: &mut R,
    writer: &mut W,
    errors: &mut E,
) -> u8
    requires input { R.has_failed reader.old ≡ false }
    requires output { (W.held writer.old).has_failed ≡ false }
    requires errors { (E.held errors.old).has_failed ≡ false }
    ensures served { Served request (R.left reader.old) (R.has_failed reader.new) result
        (W.held writer.old) (W.held writer.new) (E.held errors.old) (E.held errors.new) }
    ensures reads { ReadsWithin R.one_read 16777217 reader.old reader.new }
{
    match read_input(alloc, reader) {
        Ok(input) => {
            let mut told = Vec::new(alloc);
            let outcome = answer_request(alloc, request, input, &mut told);
            deliver_outcome(alloc, told.as_slice(), outcome, writer, errors)
        }
        Err(stop) => deliver(b"", stop.line(), 1, writer, errors),
    }
}

/// The text of a faulty command line, by clap. A line in its place where clap has none, so that each fault is told.
fn fault_text(alloc: Global, error: &Error) -> Result<Vec<u8>, AllocError>
    ensures { IfOk result (λ v. 0 < length v.items) }
{
    let mut text = Vec::new(alloc);
    if write!(text, "{error}").is_err() {
        return Err(AllocError);
    }
    if text.is_empty() {
        text.extend_from_slice(b"error\n")?;
    }
    Ok(text)
}

/// Tells that memory ran out before the words were read.
fn show_no_memory<W: Sink, E: Sink>(writer: &mut W, errors: &mut E) -> u8
    requires output { (W.held writer.old).has_failed ≡ false }
    requires errors { (E.held errors.old).has_failed ≡ false }
    ensures { Delivered no_memory result
        (W.held writer.old) (W.held writer.new) (E.held errors.old) (E.held errors.new) }
{
    deliver(b"", b"error: out of memory\n", 2, writer, errors)
}

/// Tells what is wrong with the command line: help goes to the output with status 0, all else to the errors with 2.
#[tactic(auto, using(crate::proofs::Deliveries::showing))]
fn show<W: Sink, E: Sink>(alloc: Global, error: &Error, writer: &mut W, errors: &mut E) -> u8
    requires output { (W.held writer.old).has_failed ≡ false }
    requires errors { (E.held errors.old).has_failed ≡ false }
    ensures { Shown (kind_of error.now) result
        (W.held writer.old) (W.held writer.new) (E.held errors.old) (E.held errors.new) }
{
    if error.kind() == ErrorKind::OutOfMemory {
        return show_no_memory(writer, errors);
    }
    let Ok(text) = fault_text(alloc, error) else {
        return show_no_memory(writer, errors);
    };
    if error.use_stderr() {
        deliver(b"", text.as_slice(), 2, writer, errors)
    } else {
        deliver(text.as_slice(), b"", 0, writer, errors)
    }
}

/// Tells that the text of `--avoid` is no list of interrupts.
fn decline<W: Sink, E: Sink>(writer: &mut W, errors: &mut E) -> u8
    requires output { (W.held writer.old).has_failed ≡ false }
    requires errors { (E.held errors.old).has_failed ≡ false }
    ensures { Delivered bad_avoid result
        (W.held writer.old) (W.held writer.new) (E.held errors.old) (E.held errors.new) }
{
    deliver(b"", b"bad --avoid\n", 2, writer, errors)
}

/// Runs the program: reads the words, the first of which is the program's name, then the whole input, and writes the
/// answer to the output, or one line to the errors.
///
/// The commands:
///
/// - `check`: reads a report, and writes `yes`, or `no` and the number of its flaw.
/// - `eval [--mode apic|pic] [--steps N] [--profile core|wide] [--accesses M] [--calls C] [--levels L] PATH
/// [ARGUMENT..]`: reads a machine text, loads its tables, initializes the machine in the mode, by default `apic`,
/// evaluates the object at the path with these arguments, at most seven, each an integer below 2^64 in decimal digits,
/// `s:` and the bytes of a string, or `b:` and those of a buffer in hexadecimal digits, and writes its value with a
/// line feed: `integer N` in decimal digits; `string H` and `buffer H`, the bytes in upper-case hexadecimal digits, `-`
/// where there is none; `package C ( V.. )`, the count of its elements and the elements, each behind a blank; `name P`,
/// the path of what holds no data; `reference`; `none`, no value.
/// - `names [--steps N] [--profile core|wide] [--accesses M] [--calls C] [--levels L]`: reads a machine text, loads its
/// tables, and writes the names of the namespace, one a line in path order: the path, a blank, and the kind of what
/// stands there, with a method how many arguments it takes, with an alias its target.
/// - `route [--dry] [--mode apic|pic] [--steps N] [--profile core|wide] [--accesses M] [--calls C] [--levels L]
/// [--avoid LIST] [--spare] [--spread] [--kernel]`: reads a machine text, loads its tables, initializes the machine in
/// the mode, by default `apic`, chooses an interrupt for each link device, none of those in the list, sets them, and
/// writes the report of this. With `--dry` no link device is set. With `--spare` no link device is given an interrupt
/// that the `_CRS` of another present device has. With `--spread` link devices share interrupts as little as they can.
/// With `--kernel` the report also tells how interrupts are triggered, and the bus of each routing table. The list is 1
/// to 255 numbers below 2^32 in decimal digits, separated by commas; for any other text, where nothing else is wrong
/// with the words, the errors get the line `bad --avoid`.
/// - `why [options of route]`: makes the run of `route` over a machine text, and writes what ended it, a line each:
/// `refused R` with its detail and the name of the refusal; `while` and what was done then; `in`, a control method and
/// the offset, the opcode and the name of a term that was being evaluated, the outermost first; `name`, the name that
/// was looked for; `access`, the last access of a register, where that tells something; `steps`, how many were taken;
/// `help` and what to do. Where the run isn't refused: `not refused`, and a line for each link that refused its setting
/// or its reading, or that reads back something else than it was given.
/// `why eval PATH [ARGUMENT..]` with the options of `eval` does the same for its run. Only the machine text itself is
/// refused.
/// - `why --registers [options of route]`: makes the run with 0 in place of each byte that the machine text lacks, and
/// writes the lines of these bytes, and behind them a line that begins with `#` and tells how the run ended.
///
/// N is the budget of steps for each table and each evaluation, a number from 1 to 1,000,000,000 in decimal digits, by
/// default 1,000,000. M is how many accesses of registers the run makes, a number below 2^64 in decimal digits: each
/// further one is refused as 2, and by default none is. C is how deep calls may nest, from 1 to 32, and L how deep
/// terms may nest, from 1 to 64, both in decimal digits: by default they are 32 and 64, and where they are smaller,
/// what is deeper is refused as 144. The profile says how much of AML is evaluated, by default `core`. Refusals come in
/// this order: of the machine text, of the tables, of loading, of initializing, of the path's text, of evaluating or
/// routing.
///
/// The result is the exit status: 0 where all went well, 1 for a refusal, 2 for a faulty command line, 3 where
/// setting a link was refused, which the report tells, 4 where `check` says no. A faulty command line is found before
/// any input is read, and `--help` is written to the output with 0.
///
/// `route`, `eval` and `names` write a line to the errors for each refusal that loading and initializing passed over,
/// of which the first 64 are kept: `passed R P`, with what the line of a refusal has behind its number, and the path
/// of the scope, or of what was called. Where there were more, `passed N more` follows.
///
/// A refusal writes nothing to the output and a last line to the errors: `refused R` with its number, and behind it `
/// at N`, an offset, for a fault of AML's terms, ` op XXXX` for a term that isn't evaluated, ` tag N` for a descriptor
/// that isn't taken, ` line N` for a line of a report or of a machine text, ` P` for the path of a link that offers
/// nothing or whose whole offer is avoided. An input of more than 16,777,216 bytes is refused as 143, any error of
/// the reader as 141, and any error of the output's writer as 142; what had gone out then stays. An error of the
/// errors' writer changes nothing. The reader is asked for at most 16,777,217 reads.
#[tactic(auto, using(crate::proofs::Deliveries::running))]
pub fn run<R: Source, W: Sink, E: Sink>(
    alloc: Global,
    words: &[&str],
    reader: &mut R,
    writer: &mut W,
    errors: &mut E,
) -> u8
    requires input { R.has_failed reader.old ≡ false }
    requires output { (W.held writer.old).has_failed ≡ false }
    requires errors { (E.held errors.old).has_failed ≡ false }
    ensures ran { Ran (map (λ s. s.now) words.entry.now) (R.left reader.old) (R.has_failed reader.new) result
        (W.held writer.old) (W.held writer.new) (E.held errors.old) (E.held errors.new) }
    ensures reads { ReadsWithin R.one_read 16777217 reader.old reader.new }
    ensures first { result ≡ 2 → reader.new ≡ reader.old }
    ensures faulty { faults_of (map (λ s. s.now) words.entry.now) ≢ [] → reader.new ≡ reader.old }
{
    match parse(alloc, words) {
        Ok(Asked::For(request)) => serve(alloc, request, reader, writer, errors),
        Ok(Asked::BadAvoid) => decline(writer, errors),
        Err(error) => show(alloc, &error, writer, errors),
    }
}
