//! The words of questions about names, and what calls give as answers.

use aml_path::{NameString, Path, Prefix, Seg};
use ar_space::Result;
use std::alloc::Global;
use test_rows::Exchange;
use test_words::{path_of, path_or_root, refuse, say_path};

/// Answers a path, or the refusal.
pub fn say_outcome(asked: &mut Exchange, outcome: Result<Path>) {
    match outcome {
        Ok(path) => say_path(asked, &path),
        Err(refusal) => refuse(asked, refusal),
    }
}

/// A number in decimal digits.
pub fn number(asked: &mut Exchange) -> u64 {
    asked.number(u64::MAX)
}

/// The path of the scope behind a name: the root where none is given.
pub fn scope(asked: &mut Exchange) -> Path {
    let text = asked.word();
    path_of(asked, if text.is_empty() { "\\" } else { text })
}

/// How many `^` a text has.
fn carets(text: &str) -> usize {
    let mut count = 0usize;
    for byte in text.bytes() {
        if byte == b'^' {
            count = count.saturating_add(1);
        }
    }
    count
}

/// The segments of a name, as the path that they make below the root.
fn below_root(alloc: Global, text: &str) -> Result<Path> {
    let mut below = Vec::from_slice(alloc, b"\\")?;
    for byte in text.bytes() {
        if !matches!(&byte, b'\\' | b'^' | b'-') {
            below.push(byte)?;
        }
    }
    Path::from_text(alloc, below.as_slice())
}

/// The name before ` in `, or that all that is left is, as ASL writes it: `\FOO`, `^^FOO.BAR`, `FOO`, and `-` for the
/// null name.
pub fn name(asked: &mut Exchange) -> NameString {
    let text = asked.until(" in ");
    let prefix = if text.starts_with('\\') {
        Prefix::Root
    } else {
        Prefix::Parents(carets(text))
    };
    let read = below_root(asked.alloc(), text);
    let below = path_or_root(asked, read);
    NameString::new(prefix, below.into_vec())
}

/// The segment of the four bytes that are left.
pub fn segment(asked: &mut Exchange) -> Seg {
    let bytes = asked.bytes();
    if let [first, second, third, fourth] = bytes.as_slice() {
        match Seg::new([*first, *second, *third, *fourth]) {
            Ok(segment) => return segment,
            Err(refusal) => refuse(asked, refusal),
        }
    } else {
        asked.misunderstand();
    }
    Seg::known(*b"____")
}

/// The one byte that is left.
pub fn byte(asked: &mut Exchange) -> u8 {
    let bytes = asked.bytes();
    match bytes.as_slice() {
        [byte] => *byte,
        _ => {
            asked.misunderstand();
            0
        }
    }
}
