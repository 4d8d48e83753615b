//! What is told of the last access.
ghost use Rattle.std.specs.Prelude.{◌≡◌};
ghost use Rattle.acpi_explain.specs.Told.{shown_access};

use ar_space::{EvaluationFault, Refusal};
use watched_space::Accessed;

/// How far a run came that was refused.
#[derive(Clone, Copy, Debug, PartialEq, Eq)]
pub enum Phase {
    Loading,
    Initializing,
    Running,
}

/// The last access, where it tells something of a refusal: where it is what failed, or where the steps are used up,
/// since a loop that waits for a register reads it last.
pub fn shown_access(refusal: &Refusal, last: Option<Accessed>) -> Option<Accessed>
    ensures { result ≡ shown_access refusal.now last }
{
    match refusal {
        Refusal::Space(_) => last,
        Refusal::Evaluation(EvaluationFault::OutOfSteps) => last,
        _ => None,
    }
}
