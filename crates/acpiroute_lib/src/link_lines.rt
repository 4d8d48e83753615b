//! The lines of links in a run that isn't refused: a second run over the same registers tells them.
ghost use Rattle.std.specs.Prelude.{◌≡◌, ◌≢◌, IfOk, Ok, Err};
ghost use Rattle.ar_space.specs.Outcome.{Outcome};
ghost use Rattle.ar_space.specs.declared.refusal.Refusal.TheVariants.{OutOfMemory};
ghost use Rattle.ar_tables.specs.FindTables.{tables_of};
ghost use Rattle.acpi_machine.specs.Calls.{initialized};
ghost use Rattle.acpi_machine.specs.MachineStates.{MachineState};
ghost use Rattle.watched_space.specs.Watching.{Watch, watched};
ghost use Rattle.acpiroute_lib.specs.LinksAsked.{AreLinksOf, AreLinksAsked, AreLinksStarted, AreLinksIn};
ghost use Rattle.acpiroute_lib.specs.Machines.{Registers, register_accesses};
ghost use Rattle.acpiroute_lib.specs.WhyCommand.{first_watch, AreLinksFound};

use crate::loading::load;
use crate::machine::Registers;
use crate::machine_end::options_of;
use crate::watched_run::first_watch;
use acpi_configure::Options;
use acpi_explain::explain_links;
use acpi_machine::Machine;
use acpiroute_shell::{Asking, Evaluation, Question};
use aml_objects::Octets;
use ar_space::Refusal;
use ar_tables::Tables;
use machine_description::describe;
use machine_text::{MachineText, read_machine};
use std::alloc::{AllocError, Global};
use watched_space::LastAccess;

/// No lines where the second run is refused; only want of memory is handed on.
fn no_lines(alloc: Global, refusal: Refusal) -> Result<Vec<u8>, AllocError>
    ensures { IfOk result (λ lines. refusal ≢ OutOfMemory) }
{
    match refusal {
        Refusal::OutOfMemory => Err(AllocError),
        _ => Ok(Vec::new(alloc)),
    }
}

/// The lines of an initialized machine.
fn lines_of(
    alloc: Global,
    options: &Options<'_>,
    evaluation: Evaluation,
    machine: &mut Machine<LastAccess<Registers>>,
) -> Result<Vec<u8>, AllocError>
    ensures { IfOk result (λ lines. AreLinksOf register_accesses options.now evaluation.steps machine.old lines.items) }
{
    match explain_links(alloc, machine, options, evaluation) {
        Ok(lines) => Ok(lines),
        Err(refusal) => no_lines(alloc, refusal),
    }
}

/// The lines of what is asked of an initialized machine.
fn asked_lines(
    alloc: Global,
    asking: &Asking,
    machine: &mut Machine<LastAccess<Registers>>,
) -> Result<Vec<u8>, AllocError>
    ensures { IfOk result (λ lines. AreLinksAsked register_accesses asking.now.question asking.now.evaluation.steps
        machine.old lines.items) }
{
    match &asking.question {
        Question::Route { avoid, flags } => {
            let options = options_of(avoid.as_slice(), *flags);
            lines_of(alloc, &options, asking.evaluation, machine)
        }
        Question::Eval { .. } => Ok(Vec::new(alloc)),
    }
}

/// The lines of a machine whose tables are loaded.
fn started_lines(
    alloc: Global,
    asking: &Asking,
    machine: Machine<LastAccess<Registers>>,
) -> Result<Vec<u8>, AllocError>
    ensures { IfOk result (λ lines. AreLinksStarted register_accesses asking.now machine lines.items) }
{
    let mut machine = machine;
    match machine.initialize(alloc, asking.mode) {
        Ok(()) => {
            let lines = asked_lines(alloc, asking, &mut machine);
            // (by a call: what a scope drops at its end is dropped part by part, and long to prove)
            drop(machine);
            lines
        }
        Err(refusal) => {
            drop(machine);
            no_lines(alloc, refusal)
        }
    }
}

/// The lines of tables over a register space.
fn loaded_lines(
    alloc: Global,
    asking: &Asking,
    tables: Tables,
    osi: Vec<Octets>,
    space: LastAccess<Registers>,
) -> Result<Vec<u8>, AllocError>
    ensures { IfOk result (λ lines. AreLinksIn register_accesses asking.now (Ok tables) osi.items space lines.items) }
{
    match load(alloc, asking.evaluation, tables, osi, space) {
        Ok(machine) => started_lines(alloc, asking, machine),
        Err((refusal, space)) => {
            drop(space);
            no_lines(alloc, refusal)
        }
    }
}

/// The lines of what a machine text says.
fn said_lines(alloc: Global, asking: &Asking, said: MachineText) -> Result<Vec<u8>, AllocError>
    ensures { IfOk result (λ lines. AreLinksIn register_accesses asking.now
        (tables_of said.space.memory said.rsdp) said.osi (first_watch asking.now.evaluation said.space) lines.items) }
{
    match describe(alloc, said) {
        Ok(machine) => {
            let space = first_watch(asking.evaluation, machine.registers);
            loaded_lines(alloc, asking, machine.tables, machine.osi, space)
        }
        Err(refusal) => no_lines(alloc, refusal),
    }
}

/// The lines of the links in the run over a machine text, if it is not refused.
pub(crate) fn link_lines(alloc: Global, asking: &Asking, text: &[u8]) -> Result<Vec<u8>, AllocError>
    ensures { IfOk result (λ lines. AreLinksFound asking.now text.now lines.items) }
{
    match read_machine(alloc, text) {
        Ok(said) => said_lines(alloc, asking, said),
        Err(refusal) => no_lines(alloc, refusal),
    }
}
