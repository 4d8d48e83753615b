//! Whether a link device is present (ACPI 6.5, 6.3.7).
ghost use Rattle.std.specs.Prelude.{Ok, option_map};
ghost use Rattle.ar_space.specs.Outcome.{Answers, NotMemory};
ghost use Rattle.ar_space.specs.Change.{Does};
ghost use Rattle.acpi_machine.specs.Stops.{AllOrNone};
ghost use Rattle.aml_world.specs.state.Given.{given_of};
ghost use Rattle.acpi_links.specs.Presence.{presence_of, is_present};

use crate::object_names::sta;
use acpi_machine::Machine;
use aml_path::Path;
use aml_world::Datum;
use ar_space::{Refusal, Result, Space, ValueFault};
use std::alloc::Global;

/// Whether a device is present: bit 0 of the integer that its `_STA` answers; one without `_STA` is.
///
/// An answer that is no integer is refused as `WrongType`; a refusal of the evaluation is handed on.
#[tactic(auto, using(ar_space::proofs::Changes::changing), unfolding(crate::specs::Presence::is_present))]
pub fn is_present<S: Space>(alloc: Global, machine: &mut Machine<S>, link: &Path) -> Result<bool>
    ensures value { Does result machine.new (is_present S.accesses link.now) machine.old }
    ensures evaluated { AllOrNone (is_present S.accesses link.now) machine.old machine.new }
{
    let answer = machine.evaluate_child(alloc, link, sta(), Vec::new(alloc))?;
    presence_of(answer)
}

fn presence_of(answer: Option<Datum>) -> Result<bool>
    ensures value { Answers result (presence_of (option_map given_of answer)) }
    ensures memory { NotMemory result }
{
    match answer {
        None => Ok(true),
        Some(Datum::Integer(status)) => Ok(status % 2 == 1),
        Some(_) => Err(Refusal::Value(ValueFault::WrongType)),
    }
}
