//! The lines that tell what the wide profile passed over.
ghost use Rattle.std.specs.Prelude.{◌≡◌, ◌++◌, IfOk, OnOk};
ghost use Rattle.acpiroute_shell.specs.PassedLines.{number_words, passed_line, passed_list, more_line, passed_lines};

use crate::put::{put_number, put_path};
use crate::refusal_text::refusal_words;
use aml_world::{PassedItem, PassedOver};
use ar_space::Refusal;
use std::alloc::{AllocError, Global};

/// How many bytes the word `refused` and its blank are.
const WORD: usize = 8;

/// The number of a refusal, with its detail, put behind a text.
fn put_refusal(alloc: Global, text: &mut Vec<u8>, refusal: &Refusal) -> Result<(), AllocError>
    ensures { OnOk result (text.new.items ≡ text.old.items ++ number_words refusal.now) }
{
    let words = refusal_words(alloc, refusal)?;
    text.extend_from_slice(&words[WORD..])
}

/// `passed R P`: a refusal, and the scope that it belongs to.
fn put_item(alloc: Global, text: &mut Vec<u8>, item: &PassedItem) -> Result<(), AllocError>
    ensures { OnOk result (text.new.items ≡ text.old.items ++ passed_line item.now) }
{
    text.extend_from_slice(b"passed ")?;
    put_refusal(alloc, text, &item.refusal)?;
    text.extend_from_slice(b" ")?;
    put_path(alloc, text, &item.scope)?;
    text.extend_from_slice(b"\n")
}

fn put_items(alloc: Global, text: &mut Vec<u8>, items: &[PassedItem]) -> Result<(), AllocError>
    ensures { OnOk result (text.new.items ≡ text.old.items ++ passed_list items.now) }
{
    for item in items {
        put_item(alloc, text, item)?;
    }
    Ok(())
}

/// `passed N more`, where any were not kept.
fn put_more(text: &mut Vec<u8>, count: u64) -> Result<(), AllocError>
    ensures { OnOk result (text.new.items ≡ text.old.items ++ more_line count) }
{
    if count == 0 {
        return Ok(());
    }
    text.extend_from_slice(b"passed ")?;
    put_number(text, count)?;
    text.extend_from_slice(b" more\n")
}

/// A line for each refusal that was passed over and kept, and one for how many more there were, put behind a text.
pub fn put_passed_lines(
    alloc: Global,
    text: &mut Vec<u8>,
    passed: &PassedOver,
) -> Result<(), AllocError>
    ensures { OnOk result (text.new.items ≡ text.old.items ++ passed_lines passed.now) }
{
    let kept = passed.kept();
    put_items(alloc, text, kept)?;
    put_more(text, passed.count().saturating_sub(kept.len() as u64))
}
