//! `names`: loads a machine, and writes its names.
ghost use Rattle.std.specs.Prelude.{◌≡◌, ◌++◌, Ok};
ghost use Rattle.ar_space.specs.Outcome.{Answers, NotMemory};
ghost use Rattle.acpiroute_shell.specs.PassedLines.{passed_lines};
ghost use Rattle.acpiroute_lib.specs.Passed.{loading_passed};
ghost use Rattle.acpiroute_lib.specs.NamesCommand.{names_answer, names_of_machine};

use crate::machine::{Registers, machine_of_text};
use crate::name_lines::name_lines;
use acpi_machine::Machine;
use acpiroute_shell::{Answer, Completion, Evaluation, put_passed_lines};
use ar_space::Result;
use std::alloc::Global;

/// All names of a machine but the root, in path order, one a line. What was passed over is told.
fn names_of_machine(
    alloc: Global,
    machine: &Machine<Registers>,
    told: &mut Vec<u8>,
) -> Result<Answer>
    ensures answer { Answers result (Ok (names_of_machine machine.now)) }
    ensures told { NotMemory result → told.new.items ≡ told.old.items ++ passed_lines machine.now.world.passed }
{
    put_passed_lines(alloc, told, machine.world().passed_over())?;
    let nodes = machine.walk_namespace(alloc)?;
    Ok(Answer {
        text: name_lines(alloc, nodes.as_slice())?,
        completion: Completion::Done,
    })
}

/// What `names` answers over a machine text, with its tables evaluated like this: its names, one a line. It doesn't
/// initialize the machine. What was passed over is told.
#[tactic(auto, using(ar_space::proofs::Outcomes::answering), unfolding(crate::specs::NamesCommand::names_answer))]
pub(crate) fn names_answer(
    alloc: Global,
    evaluation: Evaluation,
    text: Vec<u8>,
    told: &mut Vec<u8>,
) -> Result<Answer>
    ensures answer { Answers result (names_answer evaluation text.items) }
    ensures told { NotMemory result → told.new.items ≡ told.old.items ++
        passed_lines (loading_passed evaluation text.items) }
{
    let machine = machine_of_text(alloc, evaluation, text, told)?;
    let names = names_of_machine(alloc, &machine, told);
    // (by a call: what a scope drops at its end is dropped part by part, and long to prove)
    drop(machine);
    names
}
