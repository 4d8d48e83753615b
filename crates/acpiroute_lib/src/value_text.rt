//! A value as text, put behind a text.
ghost use Rattle.std.specs.Prelude.{◌≡◌, ◌++◌, IfOk, OnOk, codes, length, map};
ghost use Rattle.aml_world.specs.state.Given as given;
ghost use Rattle.acpiroute_lib.specs.ValueText.{bytes_text, package_text, value_text, elements_text};

use acpiroute_shell::{put_number, put_path};
use aml_path::Path;
use aml_world::Datum;
use std::alloc::{AllocError, Global};

/// Bytes in upper-case hexadecimal digits, `-` where there is none.
fn put_bytes(alloc: Global, text: &mut Vec<u8>, bytes: &[u8]) -> Result<(), AllocError>
    ensures { OnOk result (text.new.items ≡ text.old.items ++ bytes_text bytes.now) }
{
    if bytes.is_empty() {
        return text.extend_from_slice(b"-");
    }
    let digits = hex::encode_upper(alloc, bytes)?;
    text.extend_from_slice(digits.as_bytes())
}

fn put_integer(text: &mut Vec<u8>, integer: u64) -> Result<(), AllocError>
    ensures { OnOk result (text.new.items ≡ text.old.items ++ value_text (given.Integer integer)) }
{
    text.extend_from_slice(b"integer ")?;
    put_number(text, integer)
}

fn put_string(alloc: Global, text: &mut Vec<u8>, bytes: &[u8]) -> Result<(), AllocError>
    ensures { OnOk result (text.new.items ≡ text.old.items ++ value_text (given.Text bytes.now)) }
{
    text.extend_from_slice(b"string ")?;
    put_bytes(alloc, text, bytes)
}

fn put_buffer(alloc: Global, text: &mut Vec<u8>, bytes: &[u8]) -> Result<(), AllocError>
    ensures { OnOk result (text.new.items ≡ text.old.items ++ value_text (given.Bytes bytes.now)) }
{
    text.extend_from_slice(b"buffer ")?;
    put_bytes(alloc, text, bytes)
}

fn put_name(alloc: Global, text: &mut Vec<u8>, path: &Path) -> Result<(), AllocError>
    ensures { OnOk result (text.new.items ≡ text.old.items ++ value_text (given.Named path.now)) }
{
    text.extend_from_slice(b"name ")?;
    put_path(alloc, text, path)
}

/// A value: the word of its kind, and behind it what it is.
#[cycle(values)]
#[tactic(auto, using(crate::proofs::Packages::rows))]
fn put_value(alloc: Global, text: &mut Vec<u8>, value: &Datum) -> Result<(), AllocError>
    ensures { OnOk result (text.new.items ≡ text.old.items ++ value_text (given.given_of value.now)) }
{
    match value {
        Datum::Nothing => text.extend_from_slice(b"none"),
        Datum::Integer(integer) => put_integer(text, *integer),
        Datum::Text(bytes) => put_string(alloc, text, bytes.as_slice()),
        Datum::Bytes(bytes) => put_buffer(alloc, text, bytes.as_slice()),
        Datum::Package(elements) => put_package(alloc, text, elements.as_slice()),
        Datum::Named(path) => put_name(alloc, text, path),
        Datum::Reference => text.extend_from_slice(b"reference"),
    }
}

/// A package: how many elements it has, and the elements between brackets.
#[cycle(values)]
fn put_package(alloc: Global, text: &mut Vec<u8>, elements: &[Datum]) -> Result<(), AllocError>
    ensures { OnOk result (text.new.items ≡ text.old.items ++ package_text (length elements.now)
        (elements_text (given.givens (map given.given_of elements.now)))) }
{
    text.extend_from_slice(b"package ")?;
    put_number(text, elements.len() as u64)?;
    text.extend_from_slice(b" (")?;
    put_elements(alloc, text, elements)?;
    text.extend_from_slice(b" )")
}

/// Elements, each behind a blank.
#[cycle(values)]
fn put_elements(alloc: Global, text: &mut Vec<u8>, elements: &[Datum]) -> Result<(), AllocError>
    ensures { OnOk result (text.new.items ≡ text.old.items ++ elements_text
        (given.givens (map given.given_of elements.now))) }
{
    for element in elements {
        text.extend_from_slice(b" ")?;
        put_value(alloc, text, element)?;
    }
    Ok(())
}

/// A value on a line of its own.
pub fn value_line(alloc: Global, value: &Datum) -> Result<Vec<u8>, AllocError>
    ensures { IfOk result (λ text. text.items ≡ value_text (given.given_of value.now) ++ codes "\n") }
{
    let mut text = Vec::new(alloc);
    put_value(alloc, &mut text, value)?;
    text.extend_from_slice(b"\n")?;
    Ok(text)
}
