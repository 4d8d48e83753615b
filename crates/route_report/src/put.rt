//! Words, put behind a text.
ghost use Rattle.std.specs.Prelude.{◌≡◌, ◌<◌, ◌^◌, All, ◌∷◌, [], ◌++◌, OnOk, IfOk, map, decimal, option_map};
ghost use Rattle.std.specs.Prelude.{string_bytes};
ghost use Rattle.std.specs.Int.{to_be_bytes, w16, w32};
ghost use Rattle.hex.specs.Hex.{encode_upper};
ghost use Rattle.aml_path.specs.Text.{text_of};
ghost use Rattle.route_report.specs.Lines.{spaced};
ghost use Rattle.route_report.specs.Printing.{number_words, path_words, now_words};

use aml_path::Path;
use itoa::Buffer;
use std::alloc::{AllocError, Global};

/// A word behind a blank.
pub(crate) fn word(text: &mut Vec<u8>, word: &[u8]) -> Result<(), AllocError>
    ensures { OnOk result (text.new.items ≡ text.old.items ++ 32 ∷ word.now) }
{
    text.push(b' ')?;
    text.extend_from_slice(word)
}

/// A number.
pub(crate) fn number(text: &mut Vec<u8>, number: u32) -> Result<(), AllocError>
    ensures text { OnOk result (text.new.items ≡ text.old.items ++ 32 ∷ decimal number) }
    ensures small { number < 2 ^ 32 }
{
    let mut buffer = Buffer::new();
    word(text, buffer.format(number).as_bytes())
}

/// The text of a path, which is refused only where memory runs out.
pub fn path_text(alloc: Global, path: &Path) -> Result<String, AllocError>
    ensures { IfOk result (λ t. string_bytes t ≡ text_of path.now) }
{
    match path.text(alloc) {
        Ok(text) => Ok(text),
        Err(_) => Err(AllocError),
    }
}

/// A path.
pub(crate) fn path(alloc: Global, text: &mut Vec<u8>, path: &Path) -> Result<(), AllocError>
    ensures { OnOk result (text.new.items ≡ text.old.items ++ 32 ∷ text_of path.now) }
{
    let path = path_text(alloc, path)?;
    word(text, path.as_bytes())
}

/// Numbers, one after the other.
pub(crate) fn numbers(text: &mut Vec<u8>, numbers: &[u32]) -> Result<(), AllocError>
    ensures text { OnOk result (text.new.items ≡ text.old.items ++ spaced (map decimal numbers.now)) }
    ensures small { All (λ n. n < 2 ^ 32) numbers.now }
{
    for each in numbers {
        number(text, *each)?;
    }
    Ok(())
}

/// Numbers; `-` stands for none.
pub(crate) fn some_numbers(text: &mut Vec<u8>, some: &[u32]) -> Result<(), AllocError>
    ensures text { OnOk result (text.new.items ≡ text.old.items ++ spaced (number_words some.now)) }
    ensures small { All (λ n. n < 2 ^ 32) some.now }
{
    if some.is_empty() {
        word(text, b"-")
    } else {
        numbers(text, some)
    }
}

/// Paths, one after the other.
fn paths(alloc: Global, text: &mut Vec<u8>, paths: &[Path]) -> Result<(), AllocError>
    ensures { OnOk result (text.new.items ≡ text.old.items ++ spaced (map text_of paths.now)) }
{
    for each in paths {
        path(alloc, text, each)?;
    }
    Ok(())
}

/// Paths; `-` stands for none.
pub(crate) fn some_paths(alloc: Global, text: &mut Vec<u8>, some: &[Path]) -> Result<(), AllocError>
    ensures { OnOk result (text.new.items ≡ text.old.items ++ spaced (path_words some.now)) }
{
    if some.is_empty() {
        word(text, b"-")
    } else {
        paths(alloc, text, some)
    }
}

/// The interrupts that a link is set to; `none` without `_CRS`.
pub(crate) fn current(text: &mut Vec<u8>, now: &Option<Vec<u32>>) -> Result<(), AllocError>
    ensures { OnOk result (text.new.items ≡ text.old.items ++ spaced (now_words (option_map (λ v. v.items) now.now))) }
{
    match now {
        Some(numbers) => some_numbers(text, numbers),
        None => word(text, b"none"),
    }
}

/// An address in eight hexadecimal digits.
pub(crate) fn address(alloc: Global, text: &mut Vec<u8>, address: u32) -> Result<(), AllocError>
    ensures { OnOk result (text.new.items ≡ text.old.items ++ 32 ∷ encode_upper (to_be_bytes w32 address)) }
{
    let digits = hex::encode_upper(alloc, address.to_be_bytes())?;
    word(text, digits.as_bytes())
}

/// Flags in four hexadecimal digits.
pub(crate) fn flags(alloc: Global, text: &mut Vec<u8>, flags: u16) -> Result<(), AllocError>
    ensures { OnOk result (text.new.items ≡ text.old.items ++ 32 ∷ encode_upper (to_be_bytes w16 flags)) }
{
    let digits = hex::encode_upper(alloc, flags.to_be_bytes())?;
    word(text, digits.as_bytes())
}

/// The end of a line.
pub(crate) fn end(text: &mut Vec<u8>) -> Result<(), AllocError>
    ensures { OnOk result (text.new.items ≡ text.old.items ++ 10 ∷ []) }
{
    text.extend_from_slice(b"\n")
}
