//! `eval`: loads and initializes a machine, evaluates an object, and writes its value.
ghost use Rattle.std.specs.Prelude.{◌≡◌, ◌++◌, IfOk, Ok, map};
ghost use Rattle.ar_space.specs.Outcome.{Answers, NotMemory};
ghost use Rattle.acpiroute_shell.specs.PassedLines.{passed_lines};
ghost use Rattle.acpiroute_lib.specs.Passed.{run_passed};
ghost use Rattle.aml_world.specs.state.Given as given;
ghost use Rattle.acpiroute_lib.specs.EvalCommand.{given_argument, value_written, evaluated_text, eval_answer};

use crate::machine::{Registers, machine_of_text_in};
use crate::value_text::value_line;
use acpi_machine::Machine;
use acpiroute_shell::{Answer, Argument, ArgumentBytes, Arguments, Completion, Evaluation};
use aml_objects::Octets;
use aml_path::Path;
use aml_world::Datum;
use ar_space::{PathText, Result};
use route_report::Mode;
use std::alloc::{AllocError, Global};

/// The bytes of a string or a buffer, of its own.
fn octets(alloc: Global, bytes: &ArgumentBytes) -> Result<Octets, AllocError>
    ensures { IfOk result (λ o. o ≡ bytes.now) }
{
    Ok(Octets::from_vec(Vec::from_slice(alloc, bytes.as_slice())?))
}

/// An argument as a value for the interpreter.
fn datum(alloc: Global, argument: &Argument) -> Result<Datum, AllocError>
    ensures { IfOk result (λ d. given.given_of d ≡ given_argument argument.now) }
{
    match argument {
        Argument::Integer(n) => Ok(Datum::Integer(*n)),
        Argument::Text(bytes) => Ok(Datum::Text(octets(alloc, bytes)?)),
        Argument::Bytes(bytes) => Ok(Datum::Bytes(octets(alloc, bytes)?)),
    }
}

/// Arguments as values for the interpreter.
pub(crate) fn data(alloc: Global, arguments: &[Argument]) -> Result<Vec<Datum>, AllocError>
    ensures { IfOk result (λ list. map given.given_of list.items ≡ map given_argument arguments.now) }
{
    let mut list = Vec::new(alloc);
    for argument in arguments {
        list.push(datum(alloc, argument)?)?;
    }
    Ok(list)
}

/// A value on a line of its own, as `eval` writes it.
pub fn value_answer(alloc: Global, value: &Datum) -> Result<Answer>
    ensures { Answers result (Ok (value_written (given.given_of value.now))) }
{
    Ok(Answer {
        text: value_line(alloc, value)?,
        completion: Completion::Done,
    })
}

/// The value of the object whose path a text is.
#[tactic(auto, using(crate::proofs::Evaluated::evaluating), //
unfolding(crate::specs::EvalCommand::evaluated_text, crate::specs::EvalCommand::value_at))]
fn evaluated_text(
    alloc: Global,
    machine: &mut Machine<Registers>,
    path: &str,
    arguments: &[Argument],
) -> Result<Answer>
    ensures { Answers result (evaluated_text machine.old path.now arguments.now) }
{
    let path = Path::from_text(alloc, path.as_bytes())?;
    let arguments = data(alloc, arguments)?;
    let value = machine.evaluate_object(alloc, &path, arguments)?;
    value_answer(alloc, &value)
}

/// What `eval` answers over a machine text, in a mode, its AML evaluated like this: the value of the object whose
/// path a text is, called with these arguments. Refused are the machine text, its tables, their loading,
/// initializing, then the path's text, and then the evaluation.
#[tactic(auto, using(ar_space::proofs::Outcomes::answering), unfolding(crate::specs::EvalCommand::eval_answer))]
pub(crate) fn eval_answer(
    alloc: Global,
    mode: Mode,
    evaluation: Evaluation,
    called: (&PathText, &Arguments),
    text: Vec<u8>,
    told: &mut Vec<u8>,
) -> Result<Answer>
    ensures answer { Answers result (eval_answer mode evaluation called.entry.0.now
        called.entry.1.now text.items) }
    ensures told { NotMemory result → told.new.items ≡ told.old.items ++
        passed_lines (run_passed mode evaluation text.items) }
{
    let mut machine = machine_of_text_in(alloc, mode, evaluation, text, told)?;
    let (path, arguments) = called;
    let value = evaluated_text(alloc, &mut machine, path.as_str(), arguments.as_slice());
    // (by a call: what a scope drops at its end is dropped part by part, and long to prove)
    drop(machine);
    value
}
