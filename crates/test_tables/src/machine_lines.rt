//! Questions of the machine text: how it is written, and what it says.

use crate::answers::{extend_times, hexadecimal};
use crate::distinct::Distinct;
use crate::row::Row;
use crate::tables::number_of_tables;
use ar_space::Place;
use machine_text::{MachineText, OsiTexts, read_machine};
use std::mem;
use test_rows::Exchange;
use test_words::{add, count, extend, refuse, say_done};

/// `line TEXT`: adds a line to the text.
fn line(asked: &mut Exchange, text: &mut Vec<u8>) {
    let line = asked.rest();
    extend(asked, text, line.as_bytes());
    extend(asked, text, b"\n");
}

/// `text BYTES`: adds bytes to the text.
fn bytes(asked: &mut Exchange, text: &mut Vec<u8>) {
    let bytes = asked.bytes();
    extend(asked, text, bytes.as_slice());
}

/// `times N BYTES`: adds bytes to the text, so many times.
fn times(asked: &mut Exchange, text: &mut Vec<u8>) {
    let times = count(asked);
    let bytes = asked.bytes();
    extend_times(asked, text, bytes.as_slice(), times);
}

/// The text with another line of this number, counted from 1.
fn with_line(asked: &mut Exchange, text: &[u8], at: usize, line: &str) -> Vec<u8> {
    let mut changed = Vec::new(asked.alloc());
    let mut number = 1usize;
    for byte in text {
        let is_end = *byte == b'\n';
        if is_end && number == at {
            extend(asked, &mut changed, line.as_bytes());
        }
        if is_end || number != at {
            extend(asked, &mut changed, &[*byte]);
        }
        number = number.saturating_add(usize::from(is_end));
    }
    changed
}

/// `change N TEXT`: another line in place of the text's line of this number.
fn change(asked: &mut Exchange, text: &mut Vec<u8>) {
    let number = count(asked);
    let line = asked.rest();
    *text = with_line(asked, text.as_slice(), number, line);
}

/// `cut N`: drops so many bytes at the end of the text.
fn cut(asked: &mut Exchange, text: &mut Vec<u8>) {
    let dropped = count(asked);
    text.truncate(text.len().saturating_sub(dropped));
}

/// `read`: the machine of the text; `read BYTES`: that of these bytes.
fn read(asked: &mut Exchange, machine: &mut MachineText, text: &[u8]) {
    let bytes = asked.bytes();
    let read = if bytes.is_empty() {
        text
    } else {
        bytes.as_slice()
    };
    match read_machine(asked.alloc(), read) {
        Ok(said) => *machine = said,
        Err(refusal) => refuse(asked, refusal),
    }
}

/// The number of the refusal of a text, or of the tables of its machine, or 0.
fn number_of_text(asked: &Exchange, text: &[u8]) -> u8 {
    match read_machine(asked.alloc(), text) {
        Ok(machine) => number_of_tables(asked, machine.space.memory(), machine.rsdp),
        Err(refusal) => refusal.number(),
    }
}

/// `text-cuts`: the answers for all beginnings of the text, from its first byte on, that are shorter than it.
fn cuts(asked: &mut Exchange, text: &[u8]) {
    let mut answers = Distinct::new();
    for count in 1..text.len() {
        let beginning = text.get(..count).unwrap_or(text);
        answers.note(number_of_text(asked, beginning));
    }
    answers.say(asked);
}

/// The number of the refusal of the tables while a byte of memory is higher by one.
fn number_raised(asked: &mut Exchange, machine: &mut MachineText, place: Place) -> u8 {
    let Some(byte) = machine.space.byte(place) else {
        asked.misunderstand();
        return 0;
    };
    say_done(asked, machine.space.put(place, byte.wrapping_add(1)));
    let number = number_of_tables(asked, machine.space.memory(), machine.rsdp);
    say_done(asked, machine.space.put(place, byte));
    number
}

/// `raise ADDRESS N`: the answers of the search for tables while one of so many bytes from an address on is higher by
/// one.
fn raise(asked: &mut Exchange, machine: &mut MachineText) {
    let address = hexadecimal(asked);
    let mut answers = Distinct::new();
    for place in 0..asked.number(u64::MAX) {
        let place = Place::Memory(address.wrapping_add(place));
        answers.note(number_raised(asked, machine, place));
    }
    answers.say(asked);
}

/// `osi-of BYTES`: a list of one text; `osi-of`: the list of no texts.
fn osi_of(asked: &mut Exchange, osi: &mut OsiTexts) {
    let text = asked.bytes();
    let mut texts = Vec::new(asked.alloc());
    if !text.is_empty() {
        add(asked, &mut texts, text);
    }
    *osi = OsiTexts::from_vec(texts);
}

/// `osi-text N`: a text that `_OSI` knows, counted from 0.
fn osi_text(asked: &mut Exchange, osi: &OsiTexts) {
    match osi.as_slice().get(count(asked)) {
        Some(text) => asked.say_quoted(text.as_slice()),
        None => asked.misunderstand(),
    }
}

/// `osi-taken`: the texts that the list gives up when it is taken apart.
fn osi_taken(asked: &mut Exchange, osi: &mut OsiTexts) {
    let taken = mem::replace(osi, OsiTexts::new(asked.alloc())).into_vec();
    for text in taken.iter() {
        asked.separate(",");
        asked.say_quoted(text.as_slice());
    }
}

/// A question of the texts that `_OSI` knows.
#[derive(Clone, Copy)]
pub enum OsiAsk {
    Of,
    Texts,
    Text,
    Taken,
}

/// Answers a question of the texts that `_OSI` knows.
pub fn answer_of_osi(asked: &mut Exchange, osi: &mut OsiTexts, ask: OsiAsk) {
    match ask {
        OsiAsk::Of => osi_of(asked, osi),
        OsiAsk::Texts => asked.say_number(osi.as_slice().len() as u64),
        OsiAsk::Text => osi_text(asked, osi),
        OsiAsk::Taken => osi_taken(asked, osi),
    }
}

/// A question that writes the machine text.
#[derive(Clone, Copy)]
pub enum TextAsk {
    Line,
    Text,
    Times,
    Change,
    Cut,
}

/// Answers a question that writes the machine text.
pub fn write(asked: &mut Exchange, text: &mut Vec<u8>, ask: TextAsk) {
    match ask {
        TextAsk::Line => line(asked, text),
        TextAsk::Text => bytes(asked, text),
        TextAsk::Times => times(asked, text),
        TextAsk::Change => change(asked, text),
        TextAsk::Cut => cut(asked, text),
    }
}

/// A question of what the machine text says.
#[derive(Clone, Copy)]
pub enum Ask {
    Read,
    Rsdp,
    TextCuts,
    Raise,
}

/// Answers a question of what the machine text says.
pub fn answer(asked: &mut Exchange, row: &mut Row, ask: Ask) {
    match ask {
        Ask::Read => read(asked, &mut row.machine, row.text.as_slice()),
        Ask::Rsdp => asked.say_hexadecimal(row.machine.rsdp),
        Ask::TextCuts => cuts(asked, row.text.as_slice()),
        Ask::Raise => raise(asked, &mut row.machine),
    }
}
