//! Which function answers which question.

use crate::row::Row;
use crate::{bits, conversions, every_field, fields, strings};
use aml_convert::Comparison;
use test_rows::Exchange;
use test_words::put;

/// Questions of values compared and joined, and of operators.
fn of_pairs(asked: &mut Exchange, word: &str) {
    match word {
        "compare" => conversions::compared(asked),
        "LEqual" => conversions::holds_of(asked, Comparison::Equal),
        "LGreater" => conversions::holds_of(asked, Comparison::Greater),
        "LLess" => conversions::holds_of(asked, Comparison::Less),
        "Concatenate" => conversions::joined(asked),
        "ConcatenateResTemplate" => conversions::resources_joined(asked),
        _ => strings::answer(asked, word),
    }
}

/// Questions of conversions.
fn of_conversions(asked: &mut Exchange, word: &str) {
    match word {
        "implicit-integer" => conversions::implicit_integer(asked),
        "ToInteger" => conversions::explicitly_integer(asked),
        "implicit-string" => conversions::implicit_string(asked),
        "implicit-buffer" => conversions::implicit_buffer(asked),
        "truncate" => conversions::truncated(asked),
        "truncate-integer" => conversions::integer_truncated(asked),
        _ => of_pairs(asked, word),
    }
}

/// Questions of bits.
fn of_bits(asked: &mut Exchange, target: &mut Vec<u8>, word: &str) {
    match word {
        "bits" => bits::bits(asked),
        "bytes-for" => bits::bytes_that_hold(asked),
        "target" => *target = asked.bytes(),
        "copy-bits" => bits::copy(asked, target),
        "copy-unit" => bits::copy_unit(asked, target),
        "merge" => bits::merged(asked),
        "unit" => bits::unit(asked),
        _ => of_conversions(asked, word),
    }
}

/// Answers a question: its first word says which it is.
pub fn answer(row: &mut Row, asked: &mut Exchange) {
    let word = asked.word();
    match word {
        "put" => put(asked, &mut row.space),
        "byte" => fields::byte(asked, &row.space),
        "region" => row.region = fields::region(asked),
        "field" => row.field = fields::field(asked),
        "read" => fields::read(asked, row),
        "write" => fields::write(asked, row),
        "every-field" => every_field::every_field(asked),
        _ => of_bits(asked, &mut row.target, word),
    }
}
