//! Answers in words: what evaluation hands out, and values of a world.
use aml_objects::{Content, Reference, Slot, Value};
use aml_world::Datum;
use ar_space::Result;
use test_rows::Exchange;
use test_words::{push_path, refuse, say_word_and_number};

/// How many bytes an answer shows at most.
const MOST_BYTES: usize = 256;

/// How deep packages are shown within packages.
const DEPTH: u8 = 4;

/// Answers an integer.
fn push_integer(asked: &mut Exchange, number: u64) {
    let text = format!(in asked.alloc(); "integer 0x{number:X}");
    asked.push_text(text);
}

/// Answers bytes behind a word; of many only how many they are.
fn push_bytes(asked: &mut Exchange, kind: &str, bytes: &[u8]) {
    asked.push(kind);
    if bytes.len() > MOST_BYTES {
        say_word_and_number(asked, "of", bytes.len() as u64);
        asked.say("bytes");
    } else {
        asked.say_bytes(bytes);
    }
}

/// Answers what is handed out, but for the elements of a package.
fn push_single(asked: &mut Exchange, datum: &Datum) {
    match datum {
        Datum::Nothing => asked.push("nothing"),
        Datum::Integer(number) => push_integer(asked, *number),
        Datum::Text(text) => push_bytes(asked, "string", text.as_slice()),
        Datum::Bytes(octets) => push_bytes(asked, "buffer", octets.as_slice()),
        Datum::Package(elements) => push_count(asked, elements.as_slice()),
        Datum::Named(path) => {
            asked.push("name ");
            push_path(asked, path);
        }
        Datum::Reference => asked.push("reference"),
    }
}

/// Answers how many elements a package has.
fn push_count(asked: &mut Exchange, elements: &[Datum]) {
    asked.push("package");
    asked.say_number(elements.len() as u64);
}

/// Answers what is handed out, with packages shown so deep.
fn push_within(asked: &mut Exchange, depth: u8, datum: &Datum) {
    push_single(asked, datum);
    let Datum::Package(elements) = datum else {
        return;
    };
    if depth == 0 || elements.is_empty() {
        return;
    }
    for (index, element) in elements.iter().enumerate() {
        asked.push(if index == 0 { " (" } else { ", " });
        push_within(asked, depth - 1, element);
    }
    asked.push(")");
}

/// Answers what evaluation hands out.
pub fn push_datum(asked: &mut Exchange, datum: &Datum) {
    push_within(asked, DEPTH, datum);
}

/// Answers a slot of a frame.
fn say_slot(asked: &mut Exchange, slot: Slot) {
    match slot {
        Slot::Local(number) => say_word_and_number(asked, "local", u64::from(number)),
        Slot::Argument(number) => say_word_and_number(asked, "argument", u64::from(number)),
    }
}

/// Answers a reference within a world.
fn say_reference(asked: &mut Exchange, reference: Reference) {
    asked.say("reference");
    match reference {
        Reference::Name(number) => say_word_and_number(asked, "name", number),
        Reference::Slot(place, frame) => {
            say_word_and_number(asked, "slot", frame);
            say_slot(asked, place);
        }
        Reference::Element(object, index) => {
            say_word_and_number(asked, "element", u64::from(object));
            asked.say_number(index as u64);
        }
        Reference::Byte(object, index) => {
            say_word_and_number(asked, "byte", u64::from(object));
            asked.say_number(index as u64);
        }
    }
}

/// Answers a value of a world.
pub fn say_value(asked: &mut Exchange, value: Value) {
    match value {
        Value::Uninitialized => asked.say("uninitialized"),
        Value::Integer(number) => push_integer(asked, number),
        Value::String(object) => say_word_and_number(asked, "string object", u64::from(object)),
        Value::Buffer(object) => say_word_and_number(asked, "buffer object", u64::from(object)),
        Value::Package(object) => say_word_and_number(asked, "package object", u64::from(object)),
        Value::Reference(other) => say_reference(asked, other),
    }
}

/// Answers a value of a world, or the refusal.
pub fn say_outcome(asked: &mut Exchange, outcome: Result<Value>) {
    match outcome {
        Ok(value) => say_value(asked, value),
        Err(refusal) => refuse(asked, refusal),
    }
}

/// Answers what a value holds.
pub fn say_content(asked: &mut Exchange, content: Content<'_>) {
    match content {
        Content::Integer(number) => push_integer(asked, number),
        Content::String(text) => push_bytes(asked, "string", text),
        Content::Buffer(octets) => push_bytes(asked, "buffer", octets),
        Content::Other => asked.say("other"),
    }
}
