//! What calls give, as rows write it.
use test_rows::Exchange;

/// Answers numbers, and `-` where there are none.
pub fn say_numbers(asked: &mut Exchange, numbers: &[u32]) {
    if numbers.is_empty() {
        asked.say("-");
    }
    for number in numbers {
        asked.say_number(u64::from(*number));
    }
}
