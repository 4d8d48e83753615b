//! How rows write numbers and values.
use aml_objects::{Octets, Reference, Slot, Value};
use test_rows::Exchange;
use test_words::{add, count, extend, hexadecimal8, object_number};

/// A number in decimal digits, or behind `0x` in hexadecimal ones.
pub fn number(asked: &mut Exchange) -> u64 {
    if asked.takes("0x") {
        asked.hexadecimal(u64::MAX)
    } else {
        asked.number(u64::MAX)
    }
}

/// The steps of `in N steps`; there are 1000 where it is left out.
pub fn steps(asked: &mut Exchange) -> u64 {
    if !asked.takes("in ") {
        return 1000;
    }
    let count = number(asked);
    if asked.word() != "steps" {
        asked.misunderstand();
    }
    count
}

/// All that is left, as the bytes of an object.
pub fn octets(asked: &mut Exchange) -> Octets {
    Octets::from_vec(asked.bytes())
}

/// Bytes that are those of a text.
fn text_bytes(asked: &mut Exchange, text: &str) -> Octets {
    let mut bytes = Vec::new(asked.alloc());
    extend(asked, &mut bytes, text.as_bytes());
    Octets::from_vec(bytes)
}

/// `N TEXT`: a text, so often.
pub fn texts(asked: &mut Exchange) -> Vec<Octets> {
    let count = count(asked);
    let text = asked.rest();
    let mut list = Vec::new(asked.alloc());
    for _ in 0..count {
        let bytes = text_bytes(asked, text);
        add(asked, &mut list, bytes);
    }
    list
}

/// A slot of a frame: `local N` or `argument N`.
pub fn slot(asked: &mut Exchange) -> Slot {
    if asked.takes("local ") {
        return Slot::Local(hexadecimal8(asked));
    }
    if !asked.takes("argument ") {
        asked.misunderstand();
    }
    Slot::Argument(hexadecimal8(asked))
}

/// A slot behind the number of its frame, as a reference.
fn slot_reference(asked: &mut Exchange) -> Reference {
    let frame = number(asked);
    Reference::Slot(slot(asked), frame)
}

/// A reference: `name N`, `slot N local N`, `element N N` or `byte N N`.
fn reference(asked: &mut Exchange) -> Reference {
    match asked.word() {
        "name" => Reference::Name(number(asked)),
        "slot" => slot_reference(asked),
        "element" => Reference::Element(object_number(asked), count(asked)),
        "byte" => Reference::Byte(object_number(asked), count(asked)),
        _ => {
            asked.misunderstand();
            Reference::Name(0)
        }
    }
}

/// What a value is.
#[derive(Clone, Copy)]
enum ValueKind {
    Uninitialized,
    Integer,
    String,
    Buffer,
    Package,
    Reference,
}

/// What values are, by their words.
const VALUES: [(&str, ValueKind); 6] = [
    ("uninitialized", ValueKind::Uninitialized),
    ("integer", ValueKind::Integer),
    ("string", ValueKind::String),
    ("buffer", ValueKind::Buffer),
    ("package", ValueKind::Package),
    ("reference", ValueKind::Reference),
];

/// `object N`: the number of an object.
fn object(asked: &mut Exchange) -> u32 {
    if !asked.takes("object ") {
        asked.misunderstand();
    }
    object_number(asked)
}

/// A value of a world: `integer N`, `string object N`, `buffer object N`, `package object N`, a reference,
/// `uninitialized`.
pub fn value(asked: &mut Exchange) -> Value {
    let word = asked.word();
    match asked.one_of(&VALUES, word, ValueKind::Uninitialized) {
        ValueKind::Uninitialized => Value::Uninitialized,
        ValueKind::Integer => Value::Integer(number(asked)),
        ValueKind::String => Value::String(object(asked)),
        ValueKind::Buffer => Value::Buffer(object(asked)),
        ValueKind::Package => Value::Package(object(asked)),
        ValueKind::Reference => Value::Reference(reference(asked)),
    }
}
