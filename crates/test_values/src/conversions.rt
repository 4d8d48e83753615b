//! Questions of conversions between integers, strings and buffers, and of values compared and joined.

use crate::answers::say_integer;
use crate::operands::{integer_width, value_of};
use aml_convert::{
    Comparison, Formed, compare, concat, concat_resources, explicit_integer, holds, to_buffer,
    to_integer, to_text, truncate, truncate_integer,
};
use aml_objects::Octets;
use ar_space::Result;
use std::cmp::Ordering;
use test_rows::Exchange;

/// The words for how values compare.
const ORDERS: [(&str, Ordering); 3] = [
    ("less", Ordering::Less),
    ("equal", Ordering::Equal),
    ("greater", Ordering::Greater),
];

/// Answers bytes in hexadecimal digits, or the refusal.
fn say_octets(asked: &mut Exchange, outcome: Result<Octets>) {
    match outcome {
        Ok(bytes) => asked.say_bytes(bytes.as_slice()),
        Err(refusal) => asked.refuse(refusal.number()),
    }
}

/// Answers a string, or the refusal.
pub fn say_text(asked: &mut Exchange, outcome: Result<Octets>) {
    match outcome {
        Ok(text) => asked.say_quoted(text.as_slice()),
        Err(refusal) => asked.refuse(refusal.number()),
    }
}

/// Answers a string or a buffer behind its type, or the refusal.
pub fn say_formed(asked: &mut Exchange, outcome: Result<Formed>) {
    match outcome {
        Ok(Formed::String(bytes)) => {
            asked.say("string");
            asked.say_quoted(bytes.as_slice());
        }
        Ok(Formed::Buffer(bytes)) => {
            asked.say("buffer");
            asked.say_bytes(bytes.as_slice());
        }
        Err(refusal) => asked.refuse(refusal.number()),
    }
}

/// `implicit-integer WIDTH VALUE`: the value where an integer is wanted.
pub fn implicit_integer(asked: &mut Exchange) {
    let width = integer_width(asked);
    let value = value_of(asked);
    say_integer(asked, to_integer(width, value.content()));
}

/// `ToInteger WIDTH VALUE`: what the operator gives.
pub fn explicitly_integer(asked: &mut Exchange) {
    let width = integer_width(asked);
    let value = value_of(asked);
    say_integer(asked, explicit_integer(width, value.content()));
}

/// `implicit-string WIDTH VALUE`: the value where a string is wanted.
pub fn implicit_string(asked: &mut Exchange) {
    let width = integer_width(asked);
    let value = value_of(asked);
    let text = to_text(asked.alloc(), width, value.content());
    say_text(asked, text);
}

/// `implicit-buffer WIDTH VALUE`: the value where a buffer is wanted.
pub fn implicit_buffer(asked: &mut Exchange) {
    let width = integer_width(asked);
    let value = value_of(asked);
    let buffer = to_buffer(asked.alloc(), width, value.content());
    say_octets(asked, buffer);
}

/// `compare WIDTH VALUE and VALUE`: how the first compares to the second.
pub fn compared(asked: &mut Exchange) {
    let width = integer_width(asked);
    let first = value_of(asked);
    let second = value_of(asked);
    match compare(asked.alloc(), width, first.content(), second.content()) {
        Ok(Ordering::Less) => asked.say("less"),
        Ok(Ordering::Equal) => asked.say("equal"),
        Ok(Ordering::Greater) => asked.say("greater"),
        Err(refusal) => asked.refuse(refusal.number()),
    }
}

/// `LEqual ORDER`, `LGreater ORDER`, `LLess ORDER`: whether the comparison holds of operands in this order.
pub fn holds_of(asked: &mut Exchange, comparison: Comparison) {
    let word = asked.word();
    let order = asked.one_of(&ORDERS, word, Ordering::Equal);
    asked.say_whether(holds(comparison, order));
}

/// `Concatenate WIDTH VALUE and VALUE`: the two joined.
pub fn joined(asked: &mut Exchange) {
    let width = integer_width(asked);
    let first = value_of(asked);
    let second = value_of(asked);
    let formed = concat(asked.alloc(), width, first.content(), second.content());
    say_formed(asked, formed);
}

/// `ConcatenateResTemplate VALUE and VALUE`: the resource items of both.
pub fn resources_joined(asked: &mut Exchange) {
    let first = value_of(asked);
    let second = value_of(asked);
    let bytes = concat_resources(asked.alloc(), first.content(), second.content());
    say_octets(asked, bytes);
}

/// `truncate WIDTH NUMBER`: the lowest bits of a number of up to 128 bits.
pub fn truncated(asked: &mut Exchange) {
    let width = integer_width(asked);
    match u128::from_str_radix(asked.word(), 16) {
        Ok(number) => asked.say_hexadecimal(truncate(width, number)),
        Err(_) => asked.misunderstand(),
    }
}

/// `truncate-integer WIDTH NUMBER`: the lowest bits of an integer of 64 bits.
pub fn integer_truncated(asked: &mut Exchange) {
    let width = integer_width(asked);
    let number = asked.hexadecimal(u64::MAX);
    asked.say_hexadecimal(truncate_integer(width, number));
}
