//! Numbers, and lists that are filled.
use test_rows::Exchange;

/// Reads a number of things in decimal digits, or the place of one.
pub fn count(asked: &mut Exchange) -> usize {
    asked.number(u64::MAX) as usize
}

/// Reads the number of an object in decimal digits.
pub fn object_number(asked: &mut Exchange) -> u32 {
    asked.number(0xFFFF_FFFF) as u32
}

/// Answers a number in decimal digits behind a word.
pub fn say_word_and_number(asked: &mut Exchange, word: &str, number: u64) {
    asked.say(word);
    asked.say_number(number);
}

/// Adds to a list.
pub fn add<T: Drop>(asked: &mut Exchange, items: &mut Vec<T>, item: T) {
    if items.push(item).is_err() {
        asked.run_out();
    }
}

/// Puts more bytes behind others.
pub fn extend(asked: &mut Exchange, bytes: &mut Vec<u8>, more: &[u8]) {
    if bytes.extend_from_slice(more).is_err() {
        asked.run_out();
    }
}
