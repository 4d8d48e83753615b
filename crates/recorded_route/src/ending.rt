//! How a run over a record ends.
ghost use Rattle.std.specs.Prelude.{◌≡◌, Ok, Err};
ghost use Rattle.ar_space.specs.Outcome.{NotMemory};
ghost use Rattle.recorded_route.specs.Endings.{ending_of, wanted_of, NotOutOfMemory};

use ar_space::{Refusal, Result};
use recorded_space::{Access, Recorded};

/// The access that a record lacks, and where.
#[derive(Clone, Copy, Debug)]
pub struct WantedAccess {
    /// The access.
    pub access: Access,
    /// The entry of the record at which it is made, counted from 0. Behind the last entry, at the record's length, it
    /// is the next access of the run. Before that, the entry there is of another access: the record is not of this
    /// run.
    pub entry: usize,
}

/// The access that a record lacks, if it lacks one.
pub(crate) fn wanted_of(recorded: &Recorded) -> Option<WantedAccess>
    ensures { result ≡ wanted_of recorded.now }
{
    let entry = recorded.used();
    match recorded.missing() {
        Some(access) => Some(WantedAccess { access, entry }),
        None => None,
    }
}

/// How a run over a record ends.
#[derive(Debug, Drop)]
pub enum Ending<A> {
    /// The record held every access, and this came of the run.
    Done(A),
    /// The record held every access, and the run is refused; or memory ran out.
    Refused(Refusal),
    /// This access is the first one that the record does not hold.
    Wanted(WantedAccess),
}

/// How a run ends that came out like this, where this access was missing. Want of memory ends it whatever was missing.
pub(crate) fn ending_of<A: Drop>(outcome: Result<A>, missing: Option<WantedAccess>) -> Ending<A>
    ensures told { NotOutOfMemory result → NotMemory outcome × (result ≡ ending_of outcome missing) }
    ensures memory { NotMemory outcome → NotOutOfMemory result }
{
    match outcome {
        Ok(value) => done(value, missing),
        Err(Refusal::OutOfMemory) => Ending::Refused(Refusal::OutOfMemory),
        Err(refusal) => refused(refusal, missing),
    }
}

fn done<A: Drop>(value: A, missing: Option<WantedAccess>) -> Ending<A>
    ensures { result ≡ ending_of (Ok value) missing }
{
    match missing {
        Some(wanted) => Ending::Wanted(wanted),
        None => Ending::Done(value),
    }
}

fn refused<A: Drop>(refusal: Refusal, missing: Option<WantedAccess>) -> Ending<A>
    ensures { result ≡ ending_of (Err refusal) missing }
{
    match missing {
        Some(wanted) => Ending::Wanted(wanted),
        None => Ending::Refused(refusal),
    }
}
