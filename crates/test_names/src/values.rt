//! Values, elements of packages, and what stands at names, as text.

use crate::shown::show_name;
use crate::words::{name, number, scope};
use aml_objects::{Element, NamedObject, Reference, Slot, Value};
use ar_space::Result;
use test_rows::Exchange;
use test_words::{object_number, path, refuse, say_path, say_word_and_number};

/// The slot of a frame, as `0 of frame 3`, and its word before it.
fn slot(asked: &mut Exchange, kind: &str) -> Value {
    let index = asked.number(0xFF) as u8;
    if asked.until(" ") != "of" || asked.until(" ") != "frame" {
        asked.misunderstand();
    }
    let frame = number(asked);
    let slot = match kind {
        "Local" => Slot::Local(index),
        _ => Slot::Argument(index),
    };
    Value::Reference(Reference::Slot(slot, frame))
}

/// A value that a question has.
pub fn value(asked: &mut Exchange) -> Value {
    let kind = asked.word();
    match kind {
        "Integer" => Value::Integer(number(asked)),
        "String" => Value::String(object_number(asked)),
        "Buffer" => Value::Buffer(object_number(asked)),
        "Package" => Value::Package(object_number(asked)),
        "Local" | "Arg" => slot(asked, kind),
        "Uninitialized" => Value::Uninitialized,
        _ => {
            asked.misunderstand();
            Value::Uninitialized
        }
    }
}

/// An element of a package that a question has: a value, or `name NAME in SCOPE`.
pub fn element(asked: &mut Exchange) -> Element {
    if asked.takes("name ") {
        let name = name(asked);
        Element::Name(name, scope(asked))
    } else {
        Element::Value(value(asked))
    }
}

/// What is declared at a name, that a question has.
pub fn object(asked: &mut Exchange) -> NamedObject {
    match asked.word() {
        "Device" => NamedObject::Device,
        "Event" => NamedObject::Event(0),
        "Mutex" => NamedObject::Mutex(number(asked)),
        "Data" => NamedObject::Data(value(asked)),
        "Alias" => NamedObject::Alias(path(asked)),
        _ => {
            asked.misunderstand();
            NamedObject::Event(0)
        }
    }
}

/// What a reference refers to.
fn show_reference(asked: &mut Exchange, reference: Reference) {
    let (word, number, of, whole) = match reference {
        Reference::Name(number) => {
            say_word_and_number(asked, "declaration", number);
            return;
        }
        Reference::Slot(Slot::Local(index), frame) => (
            "Local",
            u64::from(index),
            "of frame",
            frame,
        ),
        Reference::Slot(Slot::Argument(index), frame) => {
            ("Arg", u64::from(index), "of frame", frame)
        }
        Reference::Element(object, index) => ("element", index as u64, "of", u64::from(object)),
        Reference::Byte(object, index) => ("byte", index as u64, "of", u64::from(object)),
    };
    say_word_and_number(asked, word, number);
    say_word_and_number(asked, of, whole);
}

/// Answers a value.
fn show_value(asked: &mut Exchange, value: Value) {
    match value {
        Value::Uninitialized => asked.say("Uninitialized"),
        Value::Integer(number) => say_word_and_number(asked, "Integer", number),
        Value::String(object) => say_word_and_number(asked, "String", u64::from(object)),
        Value::Buffer(object) => say_word_and_number(asked, "Buffer", u64::from(object)),
        Value::Package(object) => say_word_and_number(asked, "Package", u64::from(object)),
        Value::Reference(reference) => show_reference(asked, reference),
    }
}

/// Answers a value, or the refusal.
pub fn say_value(asked: &mut Exchange, outcome: Result<Value>) {
    match outcome {
        Ok(value) => show_value(asked, value),
        Err(refusal) => refuse(asked, refusal),
    }
}

/// Answers an element of a package.
pub fn show_element(asked: &mut Exchange, element: &Element) {
    match element {
        Element::Value(value) => show_value(asked, *value),
        Element::Name(name, scope) => {
            asked.say("name ");
            show_name(asked, name);
            asked.say("in");
            say_path(asked, scope);
        }
    }
}

/// The words for what is declared at names.
fn kind_of(object: &NamedObject) -> &'static str {
    match object {
        NamedObject::Scope => "Scope",
        NamedObject::Device => "Device",
        NamedObject::Processor => "Processor",
        NamedObject::PowerResource => "PowerResource",
        NamedObject::ThermalZone => "ThermalZone",
        NamedObject::Method(_) => "Method",
        NamedObject::Data(_) => "Data",
        NamedObject::OperationRegion(_) => "OperationRegion",
        NamedObject::FieldUnit(_) => "FieldUnit",
        NamedObject::BufferField(_) => "BufferField",
        NamedObject::Mutex(_) => "Mutex",
        NamedObject::Event(_) => "Event",
        NamedObject::Alias(_) => "Alias",
    }
}

/// Answers what was declared at a name.
pub fn show_object(asked: &mut Exchange, object: &NamedObject) {
    asked.say(kind_of(object));
    match object {
        NamedObject::Data(value) => show_value(asked, *value),
        NamedObject::Mutex(count) => asked.say_number(*count),
        NamedObject::Alias(path) => say_path(asked, path),
        _ => {}
    }
}
