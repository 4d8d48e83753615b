//! The lines of a row.
use crate::row::{Row, Wanted};
use crate::streams::{Fault, Faults};
use std::alloc::Global;
use std::rt::Files;
use std::{fs, io};

/// Puts a text and what ends it behind bytes.
fn put(bytes: &mut Vec<u8>, text: &str, end: &[u8]) -> io::Result<()> {
    bytes.extend_from_slice(text.as_bytes())?;
    bytes.extend_from_slice(end)?;
    Ok(())
}

/// Takes a text that a run is to leave: `any` for any but none, or a line.
fn want(wanted: &mut Wanted, text: &str) -> io::Result<()> {
    if text == "any" {
        wanted.is_any = true;
        return Ok(());
    }
    put(&mut wanted.bytes, text, b"\n")
}

/// A text twice.
fn doubled(alloc: Global, text: &[u8]) -> io::Result<Vec<u8>> {
    let mut both = Vec::from_slice(alloc, text)?;
    both.extend_from_slice(text)?;
    Ok(both)
}

/// Puts a text so often behind bytes, by the binary digits of how often.
fn put_times(alloc: Global, bytes: &mut Vec<u8>, times: u32, text: &[u8]) -> io::Result<()> {
    let mut left = times;
    let mut block = Vec::from_slice(alloc, text)?;
    for _ in 0..32 {
        if left % 2 == 1 {
            bytes.extend_from_slice(block.as_slice())?;
        }
        left /= 2;
        if left == 0 {
            break;
        }
        block = doubled(alloc, block.as_slice())?;
    }
    Ok(())
}

/// Puts a text behind bytes, as often as the number before it says. Whether there is a number.
fn repeat(alloc: Global, bytes: &mut Vec<u8>, text: &str) -> io::Result<bool> {
    let (number, what) = text.split_once(' ').unwrap_or((text, ""));
    match number.parse::<u32>() {
        Ok(times) => {
            put_times(alloc, bytes, times, what.as_bytes())?;
            Ok(true)
        }
        Err(_) => Ok(false),
    }
}

/// Takes the fault of a stream. Whether it is one.
fn take_fault(row: &mut Row, stream: &str, text: &str) -> bool {
    let Some(fault) = Fault::from_text(text) else {
        return false;
    };
    let mut faults = row.faults.unwrap_or(Faults::none());
    match stream {
        "reader" => faults.reader = fault,
        "output" => faults.output = fault,
        _ => faults.errors = fault,
    }
    row.faults = Some(faults);
    true
}

/// Takes a line that says what a run is to leave. Whether it is one.
fn take_wanted(row: &mut Row, word: &str, text: &str) -> io::Result<bool> {
    match word {
        "out" => want(&mut row.output, text)?,
        "out+" => put(&mut row.output.bytes, text, b"")?,
        "err" => want(&mut row.errors, text)?,
        "err+" => put(&mut row.errors.bytes, text, b"")?,
        "unread" => {
            row.is_left = true;
            put(&mut row.unread, text, b"")?;
        }
        "told" => row.is_told = text != "no",
        "status" => match text.parse::<u8>() {
            Ok(status) => row.status = status,
            Err(_) => return Ok(false),
        },
        _ => return Ok(false),
    }
    Ok(true)
}

/// Takes a line of a row. Whether it is one.
pub fn take_line<R: Files + AllocGlobal>(rt: &R, row: &mut Row, line: &str) -> io::Result<bool> {
    let (word, text) = line.split_once(' ').unwrap_or((line, ""));
    match word {
        "arg" => row.words.push(text.to_string(rt.alloc())?)?,
        "nameless" => row.words.clear(),
        "in" => put(&mut row.input, text, b"\n")?,
        "in+" => put(&mut row.input, text, b"")?,
        "like" => row.input.extend_from_slice(fs::read(rt, text)?.as_slice())?,
        "times" => return repeat(rt.alloc(), &mut row.input, text),
        "reader" | "output" | "errors" => return Ok(take_fault(row, word, text)),
        _ => return take_wanted(row, word, text),
    }
    Ok(true)
}
