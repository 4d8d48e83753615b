//! Where a run that is made again ends.
ghost use Rattle.std.specs.Prelude.{◌≡◌, IfOk};
ghost use Rattle.acpi_explain.specs.declared.halt.Halt.TheVariants as halts;
ghost use Rattle.acpi_explain.specs.Refused.{TellsRefused, is_memory};

use crate::stage::Stage;
use ar_space::{Refusal, Result};
use std::alloc::AllocError;

/// Where a run that is made again ends.
#[derive(Debug, Drop)]
pub(crate) enum Halt {
    /// Memory ran out.
    Memory,
    /// It is refused at this stage.
    At(Stage),
}

impl Halt {
    /// The stage; only want of memory is handed on.
    pub(crate) fn into_stage(self) -> Result<Stage, AllocError>
        ensures { IfOk result (λ stage. self ≡ halts.At stage) }
    {
        match self {
            Halt::At(stage) => Ok(stage),
            Halt::Memory => Err(AllocError),
        }
    }
}

impl From<AllocError> for Halt {
    ghost from_gives = { λ _ r. r ≡ halts.Memory };

    fn from(_error: AllocError) -> Halt {
        Halt::Memory
    }
}

pub(crate) fn is_memory(refusal: &Refusal) -> bool
    ensures { result ≡ is_memory refusal.now }
{
    matches!(refusal, Refusal::OutOfMemory)
}

/// Whether a call was refused; only want of memory is handed on.
pub(crate) fn is_refused<A: Drop>(outcome: Result<A>) -> Result<bool, AllocError>
    ensures { IfOk result (TellsRefused outcome) }
{
    match outcome {
        Ok(_) => Ok(false),
        Err(refusal) => {
            if is_memory(&refusal) {
                return Err(AllocError);
            }
            Ok(true)
        }
    }
}
