//! What calls give, as rows write it.

use ar_space::Result;
use test_rows::Exchange;

/// Answers an integer, or the refusal.
pub fn say_integer(asked: &mut Exchange, outcome: Result<u64>) {
    match outcome {
        Ok(integer) => asked.say_hexadecimal(integer),
        Err(refusal) => asked.refuse(refusal.number()),
    }
}
