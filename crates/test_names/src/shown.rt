//! Names and terms as text: `72(01,0A(5),-)` for an Add of One and 5 without a target.

use aml_path::{NameString, Prefix, Seg};
use aml_terms::{Operand, Term, TermCode};
use std::alloc::{AllocError, Global};
use test_rows::{Exchange, hexadecimal};

/// `[` terms separated by commas `]`.
#[cycle(show)]
pub fn show_list(asked: &mut Exchange, terms: &[Term]) {
    asked.push("[");
    for (index, term) in terms.iter().enumerate() {
        asked.push(if index > 0 { "," } else { "" });
        show_term(asked, term);
    }
    asked.push("]");
}

/// The code of a term, and its operands between brackets if it has any.
#[cycle(show)]
fn show_term(asked: &mut Exchange, term: &Term) {
    show_code(asked, term.code);
    for (index, operand) in term.operands.iter().enumerate() {
        asked.push(if index == 0 { "(" } else { "," });
        show_operand(asked, operand);
    }
    asked.push(if term.operands.is_empty() { "" } else { ")" });
}

/// An operand of a term.
#[cycle(show)]
fn show_operand(asked: &mut Exchange, operand: &Operand) {
    match operand {
        Operand::Null => asked.push("-"),
        Operand::Name(name) => show_name(asked, name),
        Operand::Number(number) => show_number(asked, *number),
        Operand::Bytes(bytes) => show_bytes(asked, bytes),
        Operand::Term(term) => show_term(asked, term),
        Operand::List(terms) => show_list(asked, terms),
    }
}

/// A number in decimal digits.
fn show_number(asked: &mut Exchange, number: u64) {
    let digits = format!(in asked.alloc(); "{number}");
    asked.push_text(digits);
}

/// The words for the terms without an opcode.
fn word_of(code: TermCode) -> &'static str {
    match code {
        TermCode::Opcode(_) => "opcode",
        TermCode::Name => "name",
        TermCode::MethodInvocation => "call",
        TermCode::NamedField => "field",
        TermCode::ReservedField => "reserved",
        TermCode::AccessField => "access",
        TermCode::ExtendedAccessField => "extended",
        TermCode::ConnectField => "connect",
    }
}

/// An opcode in hexadecimal, and a word for a term without one.
pub fn show_code(asked: &mut Exchange, code: TermCode) {
    if let TermCode::Opcode(opcode) = code {
        let digits = format!(in asked.alloc(); "{:02X}", opcode.number());
        asked.push_text(digits);
    } else {
        asked.push(word_of(code));
    }
}

/// The `\` or the `^` that a name begins with.
fn show_prefix(asked: &mut Exchange, prefix: Prefix) {
    match prefix {
        Prefix::Root => asked.push("\\"),
        Prefix::Parents(count) => {
            for _ in 0..count {
                asked.push("^");
            }
        }
    }
}

/// A name as ASL writes it, its segments filled up.
pub fn show_name(asked: &mut Exchange, name: &NameString) {
    show_prefix(asked, name.prefix());
    for (index, segment) in name.segments().iter().enumerate() {
        asked.push(if index > 0 { "." } else { "" });
        show_segment(asked, *segment);
    }
}

/// The four characters of a segment.
pub fn show_segment(asked: &mut Exchange, segment: Seg) {
    show_characters(asked, &segment.bytes());
}

/// Bytes as the characters that they are.
fn characters(alloc: Global, bytes: &[u8]) -> Result<String, AllocError> {
    let mut text = String::new(alloc);
    for byte in bytes {
        text.push(char::from(*byte))?;
    }
    Ok(text)
}

/// Answers bytes as the characters that they are.
pub fn show_characters(asked: &mut Exchange, bytes: &[u8]) {
    let text = characters(asked.alloc(), bytes);
    asked.push_text(text);
}

/// `<` bytes in hexadecimal `>`.
fn show_bytes(asked: &mut Exchange, bytes: &[u8]) {
    asked.push("<");
    if !bytes.is_empty() {
        let digits = hexadecimal(asked.alloc(), bytes);
        asked.push_text(digits);
    }
    asked.push(">");
}
