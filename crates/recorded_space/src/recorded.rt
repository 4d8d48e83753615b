//! A register space that answers from a record.
ghost use Rattle.std.specs.Prelude.{◌≡◌};
ghost use Rattle.recorded_space.specs.Recordings.{begun, next_of, missed};

use crate::exchange::Exchange;
use ar_space::{Place, Space, SpaceFault, Width};
use space_trace::Access;
use std::marker::Model;

/// A register space that answers each access from a record, whose entries it uses in order.
///
/// The first access that isn't that of the next entry, or for which no entry is left, is missing: it is refused as
/// `Device`, and so is each later one, whatever it is. None of them uses an entry.
///
/// So a run over real registers needs no callback. A caller makes the access that is missing on the hardware, appends
/// it with its answer to the record, and runs again from the start, until no access is missing.
#[derive(Drop)]
pub struct Recorded {
    entries: Vec<Exchange>,
    used: usize,
    missing: Option<Access>,
}

impl Model for Recorded {
    ghost use Rattle.std.specs.Prelude.{◌≤◌, length};
    ghost use Rattle.recorded_space.specs.Recordings.{Recording, recording_code};

    ghost Value = { Recording };

    ghost coded = { recording_code };

    ghost view = { λ r. record { entries = r.entries.items; used = r.used; missing = r.missing } };

    ghost invariant = { λ r. r.used ≤ length r.entries.items };
}

impl Recorded {
    /// A register space over a record, of which nothing is used yet. It takes no memory.
    pub fn new(entries: Vec<Exchange>) -> Recorded
        ensures { result ≡ begun entries.items }
    {
        Recorded {
            entries,
            used: 0,
            missing: None,
        }
    }

    /// The record.
    pub fn entries(&self) -> &[Exchange]
        ensures { result.now ≡ self.now.entries }
    {
        &self.entries
    }

    /// The record, given back.
    pub fn into_entries(self) -> Vec<Exchange>
        ensures { result.items ≡ self.entries }
    {
        self.entries
    }

    /// How many entries were used.
    pub fn used(&self) -> usize
        ensures { result ≡ self.now.used }
    {
        self.used
    }

    /// The first access that the record does not hold, if there was one.
    pub fn missing(&self) -> Option<Access>
        ensures { result ≡ self.now.missing }
    {
        self.missing
    }

    /// The entry that is next in order, while no access was missing.
    fn next(&self) -> Option<Exchange>
        ensures { result ≡ next_of self.now }
    {
        match self.missing {
            Some(_) => None,
            None => self.entries.get(self.used).copied(),
        }
    }

    /// Notes an access that is missing, unless an earlier one is.
    fn miss(&mut self, access: Access)
        ensures { self.new ≡ missed self.old access }
    {
        if self.missing.is_none() {
            self.missing = Some(access);
        }
    }
}

impl Space for Recorded {
    ghost use Rattle.recorded_space.specs.Recordings.{recorded};

    ghost accesses = { recorded };

    fn read(&mut self, place: Place, width: Width) -> Result<u64, SpaceFault> {
        let said = self
            .next()
            .and_then(|entry| entry.read_answer(place, width));
        match said {
            Some(answer) => {
                self.used += 1;
                answer
            }
            None => {
                self.miss(Access::Read(place, width));
                Err(SpaceFault::Device)
            }
        }
    }

    fn write(&mut self, place: Place, width: Width, value: u64) -> Result<(), SpaceFault> {
        let said = self
            .next()
            .and_then(|entry| entry.write_answer(place, width, value));
        match said {
            Some(answer) => {
                self.used += 1;
                answer
            }
            None => {
                self.miss(Access::Write(place, width, value));
                Err(SpaceFault::Device)
            }
        }
    }
}
