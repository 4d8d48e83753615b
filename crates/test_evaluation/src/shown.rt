//! Answers in words: paths, and what stands at a path.
use crate::answers::say_path_of;
use crate::telling::say_value;
use acpi_machine::Kind;
use aml_objects::{Method, MethodBody, NamedObject};
use aml_path::Path;
use test_rows::Exchange;
use test_words::{push_path, say_word_and_number};

/// Answers paths in their order, or `none`.
pub fn say_paths(asked: &mut Exchange, found: &[Path]) {
    if found.is_empty() {
        asked.say("none");
    }
    for path in found {
        asked.separate(", ");
        push_path(asked, path);
    }
}

/// Answers a control method: how many arguments it takes, and whether it is the predefined one.
fn say_method(asked: &mut Exchange, method: &Method) {
    let word = match &method.body {
        MethodBody::Osi => "predefined method",
        MethodBody::Aml(_) => "method",
    };
    say_word_and_number(asked, word, u64::from(method.flags.arguments()));
}

/// The word of what a name was declared as, where that says nothing more.
fn object_word(object: &NamedObject) -> &'static str {
    match object {
        NamedObject::Scope => "scope",
        NamedObject::Device => "device",
        NamedObject::Processor => "processor",
        NamedObject::PowerResource => "power resource",
        NamedObject::ThermalZone => "thermal zone",
        NamedObject::OperationRegion(_) => "region",
        NamedObject::FieldUnit(_) => "field",
        NamedObject::BufferField(_) => "buffer field",
        _ => "other",
    }
}

/// Answers what a name was declared as.
pub fn say_object(asked: &mut Exchange, object: &NamedObject) {
    match object {
        NamedObject::Method(method) => say_method(asked, method),
        NamedObject::Data(held) => say_value(asked, *held),
        NamedObject::Mutex(count) => say_word_and_number(asked, "mutex", *count),
        NamedObject::Event(count) => say_word_and_number(asked, "event", *count),
        NamedObject::Alias(path) => say_path_of(asked, "alias", path),
        _ => asked.say(object_word(object)),
    }
}

/// The word of a kind that says nothing more.
fn kind_word(kind: Kind<'_>) -> &'static str {
    match kind {
        Kind::Scope => "scope",
        Kind::Device => "device",
        Kind::Processor => "processor",
        Kind::PowerResource => "power resource",
        Kind::ThermalZone => "thermal zone",
        Kind::Uninitialized => "uninitialized",
        Kind::Integer => "integer",
        Kind::String => "string",
        Kind::Buffer => "buffer",
        Kind::Package => "package",
        Kind::Reference => "reference",
        Kind::FieldUnit => "field",
        Kind::BufferField => "buffer field",
        Kind::Region => "region",
        Kind::Mutex => "mutex",
        Kind::Event => "event",
        _ => "other",
    }
}

/// Answers what a machine shows of a name.
pub fn say_kind(asked: &mut Exchange, kind: Kind<'_>) {
    match kind {
        Kind::Method(count) => say_word_and_number(asked, "method", u64::from(count)),
        Kind::Alias(path) => say_path_of(asked, "alias", path),
        _ => asked.say(kind_word(kind)),
    }
}
