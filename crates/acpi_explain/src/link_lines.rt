//! The lines of links that are not set as they were to be.
ghost use Rattle.std.specs.Prelude.{◌≡◌, ◌++◌, IfOk, OnOk, codes, decimal, map, Some};
ghost use Rattle.route_report.specs.Lines.{spaced};
ghost use Rattle.route_report.specs.Printing.{number_words, now_words};
ghost use Rattle.acpi_explain.specs.LinkLines.{link_words, refused_setting, unread_line, is_given};
ghost use Rattle.acpi_explain.specs.LinkLines.{other_help, other_line, read_lines};

use crate::explaining::put_help;
use acpi_resources::InterruptNumbers;
use acpiroute_shell::{put_number, put_path};
use aml_path::Path;
use std::alloc::{AllocError, Global};

/// `link`, its path, words and a number.
fn put_link(
    alloc: Global,
    text: &mut Vec<u8>,
    path: &Path,
    words: &[u8],
    number: u32,
) -> Result<(), AllocError>
    ensures { OnOk result (text.new.items ≡ text.old.items ++ link_words path.now words.now number) }
{
    text.extend_from_slice(b"link ")?;
    put_path(alloc, text, path)?;
    text.extend_from_slice(words)?;
    put_number(text, u64::from(number))
}

/// A link that refused its setting by this number.
pub(crate) fn put_refused_setting(
    alloc: Global,
    text: &mut Vec<u8>,
    path: &Path,
    number: u8,
) -> Result<(), AllocError>
    ensures { OnOk result (text.new.items ≡ text.old.items ++ refused_setting path.now number) }
{
    put_link(
        alloc,
        text,
        path,
        b" refused its setting ",
        u32::from(number),
    )?;
    text.extend_from_slice(b"\n")?;
    Ok(())
}

/// A link whose reading was refused by this number.
pub(crate) fn put_unread(
    alloc: Global,
    text: &mut Vec<u8>,
    given: u32,
    path: &Path,
    number: u8,
) -> Result<(), AllocError>
    ensures { OnOk result (text.new.items ≡ text.old.items ++ unread_line given path.now number) }
{
    put_link(alloc, text, path, b" was given ", given)?;
    text.extend_from_slice(b" and refused to be read ")?;
    put_number(text, u64::from(number))?;
    text.extend_from_slice(b"\n")?;
    Ok(())
}

/// Whether a link reads back just the interrupt that it was given.
fn is_given(given: u32, now: &Option<InterruptNumbers>) -> bool
    ensures { result ≡ is_given given now.now }
{
    match now {
        None => false,
        Some(numbers) => is_only(given, numbers.as_slice()),
    }
}

fn is_only(given: u32, numbers: &[u32]) -> bool
    ensures { result ≡ is_given given (Some numbers.now) }
{
    match numbers {
        [number] => *number == given,
        _ => false,
    }
}

/// A number behind a blank.
fn put_next(text: &mut Vec<u8>, number: u32) -> Result<(), AllocError>
    ensures { OnOk result (text.new.items ≡ text.old.items ++ (codes " " ++ decimal number)) }
{
    text.extend_from_slice(b" ")?;
    put_number(text, u64::from(number))
}

/// Numbers, each behind a blank.
fn put_numbers(text: &mut Vec<u8>, numbers: &[u32]) -> Result<(), AllocError>
    ensures { OnOk result (text.new.items ≡ text.old.items ++ spaced (map decimal numbers.now)) }
{
    for number in numbers {
        put_next(text, *number)?;
    }
    Ok(())
}

/// Numbers, each behind a blank; `-` where there is none.
fn put_some(text: &mut Vec<u8>, numbers: &[u32]) -> Result<(), AllocError>
    ensures { OnOk result (text.new.items ≡ text.old.items ++ spaced (number_words numbers.now)) }
{
    if numbers.is_empty() {
        text.extend_from_slice(b" -")
    } else {
        put_numbers(text, numbers)
    }
}

/// What is read back, behind a blank; `none` without `_CRS`.
fn put_now(text: &mut Vec<u8>, now: &Option<InterruptNumbers>) -> Result<(), AllocError>
    ensures { OnOk result (text.new.items ≡ text.old.items ++ spaced (now_words now.now)) }
{
    match now {
        None => text.extend_from_slice(b" none"),
        Some(numbers) => put_some(text, numbers.as_slice()),
    }
}

/// What to do where a link reads back something else.
fn other_help(now: &Option<InterruptNumbers>) -> &'static str
    ensures { result.now ≡ other_help now.now }
{
    match now {
        None => "a link without _CRS doesn't say to what it is set",
        Some(_) => {
            "a link without _SRS, or one that refused its setting, keeps its interrupt; else compare what _SRS writes with what _CRS reads; registers behind an index register share one byte here"
        }
    }
}

/// A link that reads back something else than it was given.
fn put_other(
    alloc: Global,
    text: &mut Vec<u8>,
    given: u32,
    path: &Path,
    now: &Option<InterruptNumbers>,
) -> Result<(), AllocError>
    ensures { OnOk result (text.new.items ≡ text.old.items ++ other_line given path.now now.now) }
{
    put_link(alloc, text, path, b" was given ", given)?;
    text.extend_from_slice(b" and reads back")?;
    put_now(text, now)?;
    text.extend_from_slice(b"\n")?;
    put_help(text, other_help(now).as_bytes())?;
    Ok(())
}

/// The lines of a link that was given an interrupt and reads back this; none where it is that interrupt.
pub(crate) fn read_lines(
    alloc: Global,
    given: u32,
    path: &Path,
    now: &Option<InterruptNumbers>,
) -> Result<Vec<u8>, AllocError>
    ensures { IfOk result (λ text. text.items ≡ read_lines given path.now now.now) }
{
    let mut text = Vec::new(alloc);
    if !is_given(given, now) {
        put_other(alloc, &mut text, given, path, now)?;
    }
    Ok(text)
}
