//! What kind of value the objects of a device answer.
ghost use Rattle.std.specs.Prelude.{option_map};
ghost use Rattle.ar_space.specs.Outcome.{Answers, NotMemory};
ghost use Rattle.aml_world.specs.state.Given.{given_of};
ghost use Rattle.acpi_links.specs.Answered.{bytes_in, numbers_in, numbers_of};

use acpi_resources::{InterruptNumbers, current};
use aml_objects::Octets;
use aml_world::Datum;
use ar_space::{Refusal, Result, ValueFault};
use std::alloc::Global;

/// The bytes of a buffer; `WrongType` for any other value.
pub(crate) fn bytes_in(answer: Datum) -> Result<Octets>
    ensures value { Answers result (bytes_in (given_of answer)) }
    ensures memory { NotMemory result }
{
    match answer {
        Datum::Bytes(bytes) => Ok(bytes),
        _ => Err(Refusal::Value(ValueFault::WrongType)),
    }
}

/// The numbers in the buffer of resource descriptors that was answered, if one was.
pub(crate) fn numbers_of(alloc: Global, answer: Option<Datum>) -> Result<Option<InterruptNumbers>>
    ensures { Answers result (numbers_of (option_map given_of answer)) }
{
    match answer {
        None => Ok(None),
        Some(answer) => numbers_in(alloc, answer),
    }
}

/// The numbers in a buffer of resource descriptors.
#[tactic(auto, using(ar_space::proofs::Outcomes::answering), unfolding(crate::specs::Answered::numbers_in))]
fn numbers_in(alloc: Global, answer: Datum) -> Result<Option<InterruptNumbers>>
    ensures { Answers result (numbers_in (given_of answer)) }
{
    let bytes = bytes_in(answer)?;
    let numbers = current(alloc, bytes.as_slice())?;
    Ok(Some(numbers))
}
