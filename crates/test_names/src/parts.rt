//! Questions about the parts of terms that were read.

use crate::shown::{show_code, show_name};
use aml_terms::{OperandView, Term, TermPart, TermReader};
use test_rows::Exchange;
use test_words::{count, refuse, say_word_and_number};

/// An item of a list, from 0.
fn item(list: TermPart<'_>, index: usize) -> Option<TermPart<'_>> {
    let mut rest = list;
    for _ in 0..index {
        rest = rest.next()?.rest;
    }
    Some(rest.next()?.first)
}

/// An operand of a term that is a term or a list.
fn inner(term: TermPart<'_>, index: usize) -> Option<TermPart<'_>> {
    match term.operand(index) {
        OperandView::Term(inner) => Some(inner),
        OperandView::List(inner) => Some(inner),
        _ => None,
    }
}

/// An item of a list, or an operand of a term.
fn below(part: TermPart<'_>, index: usize) -> Option<TermPart<'_>> {
    match part {
        TermPart::List(_) => item(part, index),
        TermPart::Term(_) => inner(part, index),
    }
}

/// The part at a place, as `1.0` for the operand 0 of the item 1.
fn part_at<'a>(asked: &mut Exchange, terms: &'a [Term]) -> Option<TermPart<'a>> {
    let mut part = TermPart::List(terms);
    for step in asked.word().split('.') {
        let index = asked.digits(step, 10, u64::MAX) as usize;
        match below(part, index) {
            Some(found) => part = found,
            None => return None,
        }
    }
    Some(part)
}

/// What an operand is.
fn show_operand(asked: &mut Exchange, operand: OperandView<TermPart<'_>>) {
    match operand {
        OperandView::Absent => asked.say("absent"),
        OperandView::Null => asked.say("null"),
        OperandView::Name => asked.say("name"),
        OperandView::Number(number) => say_word_and_number(asked, "number", number),
        OperandView::Bytes => asked.say("bytes"),
        OperandView::Term(_) => asked.say("term"),
        OperandView::List(_) => asked.say("list"),
    }
}

/// The name that is an operand.
fn operand_name(asked: &mut Exchange, part: TermPart<'_>, index: usize) {
    match part.name(asked.alloc(), index) {
        Ok(name) => show_name(asked, &name),
        Err(refusal) => refuse(asked, refusal),
    }
}

/// The bytes that are an operand.
fn operand_bytes(asked: &mut Exchange, part: TermPart<'_>, index: usize) {
    match part.bytes(asked.alloc(), index) {
        Ok(bytes) => asked.say_bytes(bytes.as_slice()),
        Err(refusal) => refuse(asked, refusal),
    }
}

/// Answers a question about an operand of a term.
fn of_operand(asked: &mut Exchange, terms: &[Term], word: &str) {
    let Some(part) = part_at(asked, terms) else {
        asked.misunderstand();
        return;
    };
    let index = count(asked);
    match word {
        "operand" => show_operand(asked, part.operand(index)),
        "operand-name" => operand_name(asked, part, index),
        _ => operand_bytes(asked, part, index),
    }
}

/// The code of the term at a place, and `none` where no term is.
fn code(asked: &mut Exchange, terms: &[Term]) {
    match part_at(asked, terms) {
        Some(part) => show_code(asked, part.code()),
        None => asked.say("none"),
    }
}

/// Answers a question about the parts of terms, and says whether it is one.
pub fn answer(asked: &mut Exchange, terms: &[Term], word: &str) -> bool {
    match word {
        "code" => code(asked, terms),
        "operand" | "operand-name" | "operand-bytes" => of_operand(asked, terms, word),
        _ => return false,
    }
    true
}
