//! Questions of the register space, of an access's width, and of path texts.

use crate::answers::hexadecimal;
use crate::faults::path_text;
use ar_space::{Refusal, Space, SpaceFault, Sparse};
use test_rows::Exchange;
use test_words::{place, put, refuse, say_byte, say_place, width};

/// The byte at a place.
pub fn byte(asked: &mut Exchange, space: &Sparse) {
    let at = place(asked);
    say_byte(asked, space.byte(at));
}

/// `memory ADDRESS`: the byte at an address of the space's memory.
fn memory(asked: &mut Exchange, space: &Sparse) {
    let address = hexadecimal(asked);
    say_byte(asked, space.memory().byte(address));
}

/// Answers what a read gives.
fn say_read(asked: &mut Exchange, outcome: Result<u64, SpaceFault>) {
    match outcome {
        Ok(value) => asked.say_hexadecimal(value),
        Err(fault) => refuse(asked, Refusal::Space(fault)),
    }
}

/// `load WIDTH PLACE`: an access that reads.
pub fn load<S: Space>(asked: &mut Exchange, space: &mut S) {
    let width = width(asked);
    let at = place(asked);
    say_read(asked, space.read(at, width));
}

/// `store WIDTH PLACE: VALUE`: an access that writes.
pub fn store<S: Space>(asked: &mut Exchange, space: &mut S) {
    let width = width(asked);
    let at = place(asked);
    let value = hexadecimal(asked);
    if let Err(fault) = space.write(at, width, value) {
        refuse(asked, Refusal::Space(fault));
    }
}

/// `beyond N PLACE`: the place that many bytes on.
fn beyond(asked: &mut Exchange) {
    let count = asked.number(0xFF) as u8;
    let at = place(asked);
    match at.offset_by(count) {
        Some(place) => say_place(asked, place),
        None => asked.say("none"),
    }
}

/// `width BITS`: how many bytes and bits an access of this width has.
fn bytes_and_bits(asked: &mut Exchange) {
    let width = width(asked);
    asked.say_number(width.bytes() as u64);
    asked.say("bytes");
    asked.say_number(u64::from(width.bits()));
    asked.say("bits");
}

/// `path TEXT`: the text of a path.
fn path(asked: &mut Exchange) {
    let text = asked.rest();
    if let Some(path) = path_text(asked, text) {
        asked.say(path.as_str());
    }
}

/// A question of the register space.
#[derive(Clone, Copy)]
pub enum Ask {
    Put,
    Byte,
    Memory,
    Load,
    Store,
    Beyond,
    Width,
    Path,
}

/// Answers a question of the register space.
pub fn answer(asked: &mut Exchange, space: &mut Sparse, ask: Ask) {
    match ask {
        Ask::Put => put(asked, space),
        Ask::Byte => byte(asked, space),
        Ask::Memory => memory(asked, space),
        Ask::Load => load(asked, space),
        Ask::Store => store(asked, space),
        Ask::Beyond => beyond(asked),
        Ask::Width => bytes_and_bits(asked),
        Ask::Path => path(asked),
    }
}
