//! Questions of the strings and parts that operators give, of binary coded decimal, and of elements that Match looks
//! at.

use crate::answers::say_integer;
use crate::conversions::{say_formed, say_text};
use crate::operands::{integer_width, value_of};
use crate::operators;
use aml_convert::{
    MatchOperator, code_decimal, decode_decimal, is_match, middle, to_decimal_string,
    to_hexadecimal_string, to_string,
};
use test_rows::Exchange;

/// `ToDecimalString VALUE`: what the operator gives.
fn decimal_string(asked: &mut Exchange) {
    let value = value_of(asked);
    let text = to_decimal_string(asked.alloc(), value.content());
    say_text(asked, text);
}

/// `ToHexString WIDTH VALUE`: what the operator gives.
fn hexadecimal_string(asked: &mut Exchange) {
    let width = integer_width(asked);
    let value = value_of(asked);
    let text = to_hexadecimal_string(asked.alloc(), width, value.content());
    say_text(asked, text);
}

/// `ToString WIDTH VALUE and VALUE`: the string of so many bytes.
fn string_of_bytes(asked: &mut Exchange) {
    let width = integer_width(asked);
    let source = value_of(asked);
    let count = value_of(asked);
    let text = to_string(asked.alloc(), width, source.content(), count.content());
    say_text(asked, text);
}

/// `Mid WIDTH VALUE and VALUE and VALUE`: the part from a place on, of so many bytes.
fn part(asked: &mut Exchange) {
    let width = integer_width(asked);
    let source = value_of(asked);
    let start = value_of(asked);
    let count = value_of(asked);
    let formed = middle(
        asked.alloc(),
        width,
        source.content(),
        start.content(),
        count.content(),
    );
    say_formed(asked, formed);
}

/// `ToBCD WIDTH X`: what the operator gives.
fn coded(asked: &mut Exchange) {
    let width = integer_width(asked);
    let number = asked.hexadecimal(u64::MAX);
    say_integer(asked, code_decimal(width, number));
}

/// `FromBCD X`: what the operator gives.
fn decoded(asked: &mut Exchange) {
    let number = asked.hexadecimal(u64::MAX);
    say_integer(asked, decode_decimal(number));
}

/// `Match OPERATOR WIDTH VALUE and VALUE`: whether the second value, an element, matches the first.
fn matched(asked: &mut Exchange) {
    let operator = MatchOperator::from_number(asked.number(255));
    let width = integer_width(asked);
    let object = value_of(asked);
    let element = value_of(asked);
    let Some(operator) = operator else {
        asked.say("no operator");
        return;
    };
    match is_match(
        asked.alloc(),
        width,
        operator,
        object.content(),
        element.content(),
    ) {
        Ok(is_match) => asked.say_whether(is_match),
        Err(refusal) => asked.refuse(refusal.number()),
    }
}

/// Questions of strings, parts and elements.
pub fn answer(asked: &mut Exchange, word: &str) {
    match word {
        "ToDecimalString" => decimal_string(asked),
        "ToHexString" => hexadecimal_string(asked),
        "ToString" => string_of_bytes(asked),
        "Mid" => part(asked),
        "ToBCD" => coded(asked),
        "FromBCD" => decoded(asked),
        "Match" => matched(asked),
        _ => operators::answer(asked, word),
    }
}
