//! Texts of reports: written by a row or printed, and read.
use crate::generated::crowd;
use crate::words::number;
use route_check::Claim;
use route_report::{Report, print, read};
use test_rows::Exchange;
use test_words::refuse;

/// Puts bytes behind a text.
pub fn put(asked: &mut Exchange, text: &mut Vec<u8>, bytes: &[u8]) {
    if text.extend_from_slice(bytes).is_err() {
        asked.run_out();
    }
}

/// Puts a line and its line feed behind a text, so many times.
fn put_lines(asked: &mut Exchange, text: &mut Vec<u8>, count: u32) {
    let line = asked.rest();
    for _ in 0..count {
        put(asked, text, line.as_bytes());
        put(asked, text, b"\n");
    }
}

/// `repeat COUNT LINE`
fn repeat(asked: &mut Exchange, text: &mut Vec<u8>) {
    let count = number(asked);
    put_lines(asked, text, count);
}

/// `bytes BYTES`
fn put_bytes(asked: &mut Exchange, text: &mut Vec<u8>) {
    let bytes = asked.bytes();
    put(asked, text, bytes.as_slice());
}

/// `read`: the text's claim becomes the row's.
pub fn read_text(asked: &mut Exchange, claim: &mut Claim, text: &[u8]) {
    match read(asked.alloc(), text) {
        Ok(said) => *claim = said,
        Err(refusal) => refuse(asked, refusal),
    }
}

/// Reads a report of these lines, a line of bytes that the row says, and lines by which no interrupt is busy.
fn read_between(asked: &mut Exchange, claim: &mut Claim, before: &[u8]) {
    let mut text = Vec::new(asked.alloc());
    put(asked, &mut text, before);
    put_bytes(asked, &mut text);
    put(asked, &mut text, b"\nbusiest 0\nbound none\n");
    read_text(asked, claim, text.as_slice());
}

/// `third BYTES`: reads a report of version 1 that has five lines, of which the third is these bytes.
pub fn read_third(asked: &mut Exchange, claim: &mut Claim) {
    read_between(asked, claim, b"acpiroute 1\nmode apic\n");
}

/// `sci-line BYTES`: reads a report of version 2 that has five lines, of which the third is these bytes.
pub fn read_sci_line(asked: &mut Exchange, claim: &mut Claim) {
    read_between(asked, claim, b"acpiroute 2\navoid -\n");
}

/// `avoid-line BYTES`: the same, with a line of the System Control Interrupt before these bytes.
pub fn read_avoid_line(asked: &mut Exchange, claim: &mut Claim) {
    read_between(asked, claim, b"acpiroute 2\nsci none\n");
}

/// `option-line BYTES`: reads a report of version 3 that has seven lines, of which the fourth is these bytes.
pub fn read_option_line(asked: &mut Exchange, claim: &mut Claim) {
    read_between(asked, claim, b"acpiroute 3\nsci none\navoid -\n");
}

/// How many line feeds a text has.
fn lines(text: &[u8]) -> u64 {
    let mut lines = 0u64;
    for byte in text {
        if *byte == b'\n' {
            lines = lines.saturating_add(1);
        }
    }
    lines
}

/// `print`: the text of the row's report becomes the row's text.
pub fn print_report(asked: &mut Exchange, text: &mut Vec<u8>, report: &Report) {
    match print(asked.alloc(), report) {
        Ok(printed) => *text = printed,
        Err(refusal) => refuse(asked, refusal),
    }
    asked.say_number(lines(text.as_slice()));
    asked.say("lines");
    if !text.ends_with(b"\n") {
        asked.say("and no line feed");
    }
}

/// The bytes of the line of a number, from 1 on; none where there is no such line.
fn line_of(asked: &mut Exchange, text: &[u8], wanted: u32) -> Vec<u8> {
    let mut line = Vec::new(asked.alloc());
    let mut number = 1u32;
    for byte in text {
        if *byte == b'\n' {
            number = number.saturating_add(1);
        } else if number == wanted {
            put(asked, &mut line, &[*byte]);
        }
    }
    line
}

/// `line N`: the line of this number, from 1 on, and `nothing` where it is empty or there is none.
fn line(asked: &mut Exchange, text: &[u8]) {
    let wanted = number(asked);
    let line = line_of(asked, text, wanted);
    if line.is_empty() {
        asked.say("nothing");
    } else {
        let text = String::from_utf8_lossy(asked.alloc(), line.as_slice());
        asked.say_text(text);
    }
}

/// A question of a text.
#[derive(Clone, Copy)]
pub enum Ask {
    Text,
    Bytes,
    Repeat,
    Crowd,
    Line,
}

/// Answers a question of a text.
pub fn answer(asked: &mut Exchange, text: &mut Vec<u8>, ask: Ask) {
    match ask {
        Ask::Text => put_lines(asked, text, 1),
        Ask::Bytes => put_bytes(asked, text),
        Ask::Repeat => repeat(asked, text),
        Ask::Crowd => crowd(asked, text),
        Ask::Line => line(asked, text.as_slice()),
    }
}
