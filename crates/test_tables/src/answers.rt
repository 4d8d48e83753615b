//! What calls give, as rows write it, and lists that are filled.

use ar_space::Result;
use test_rows::Exchange;
use test_words::{extend, refuse};

/// What a call gives, if it does not refuse.
pub fn given<T: Drop>(asked: &mut Exchange, outcome: Result<T>) -> Option<T> {
    match outcome {
        Ok(given) => Some(given),
        Err(refusal) => {
            refuse(asked, refusal);
            None
        }
    }
}

/// The number of the refusal of a call, or 0.
pub fn number_of<T: Drop>(outcome: Result<T>) -> u8 {
    match outcome {
        Ok(_) => 0,
        Err(refusal) => refusal.number(),
    }
}

/// Puts more bytes behind others, so many times.
pub fn extend_times(asked: &mut Exchange, bytes: &mut Vec<u8>, more: &[u8], times: usize) {
    for _ in 0..times {
        extend(asked, bytes, more);
    }
}

/// Answers numbers in decimal digits, or `none`.
pub fn say_numbers(asked: &mut Exchange, numbers: &[u32]) {
    if numbers.is_empty() {
        asked.say("none");
    }
    for number in numbers {
        asked.say_number(u64::from(*number));
    }
}

/// An integer in hexadecimal digits.
pub fn hexadecimal(asked: &mut Exchange) -> u64 {
    asked.hexadecimal(u64::MAX)
}
