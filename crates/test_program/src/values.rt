//! Values by their names, and the lines that `eval` writes of them.
use acpiroute_lib::value_line;
use aml_world::Datum;
use std::alloc::{AllocError, Global};

/// The value of this name: one that holds no others.
fn single(alloc: Global, name: &str) -> Option<Datum> {
    match name {
        "nothing" => Some(Datum::Nothing),
        "reference" => Some(Datum::Reference),
        "package" => Some(Datum::Package(Vec::new(alloc))),
        _ => None,
    }
}

/// A package of the values of these names.
fn package(alloc: Global, names: &[&str]) -> Result<Option<Datum>, AllocError> {
    let mut elements = Vec::new(alloc);
    for name in names {
        match single(alloc, name) {
            Some(element) => elements.push(element)?,
            None => return Ok(None),
        }
    }
    Ok(Some(Datum::Package(elements)))
}

/// The value that a row names: `nothing`, `reference`, or `package` with the names of its elements behind it.
fn value_named(alloc: Global, text: &str) -> Result<Option<Datum>, AllocError> {
    let names: Vec<&str> = text.split(' ').collect(alloc)?;
    match names.as_slice() {
        ["package", elements @ ..] => package(alloc, elements),
        _ => Ok(single(alloc, text)),
    }
}

/// The line of a value, and nothing else.
fn line(alloc: Global, value: &Datum) -> Result<Vec<u8>, AllocError> {
    value_line(alloc, value)
}

/// The line of the value of this name, without its line feed.
pub fn value_of(alloc: Global, name: &str) -> Result<String, AllocError> {
    let Some(value) = value_named(alloc, name)? else {
        return "no such value".to_string(alloc);
    };
    let line = line(alloc, &value)?;
    let text = str::from_utf8(line.as_slice()).unwrap_or("no text");
    match text.strip_suffix("\n") {
        Some(text) => text.to_string(alloc),
        None => "no line feed".to_string(alloc),
    }
}
