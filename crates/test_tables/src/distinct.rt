//! The answers of many calls of one kind, each named once.

use test_rows::Exchange;

/// Which numbers of refusals calls gave; 0 stands for a call that did not refuse.
#[derive(Clone, Copy)]
pub struct Distinct {
    seen: [bool; 256],
}

impl Distinct {
    /// No calls yet.
    pub fn new() -> Distinct {
        Distinct { seen: [false; 256] }
    }

    /// Notes what a call gave.
    pub fn note(&mut self, number: u8) {
        self.seen[usize::from(number)] = true;
    }

    /// Answers with the answers, by their numbers: `done`, `refused 13`, `refused 13 or refused 140`.
    pub fn say(&self, asked: &mut Exchange) {
        if self.seen[0] {
            asked.say("done");
        }
        for number in 1..=255u8 {
            if self.seen[usize::from(number)] {
                asked.separate(" or");
                asked.say("refused");
                asked.say_number(u64::from(number));
            }
        }
    }
}
