//! The machine that a machine text describes.
ghost use Rattle.std.specs.Prelude.{◌≡◌, ◌++◌, OnOk, OnErr};
ghost use Rattle.ar_space.specs.Change.{Does};
ghost use Rattle.ar_space.specs.Outcome.{Answers, NotMemory};
ghost use Rattle.machine_text.specs.MachineText.{machine_text};
ghost use Rattle.acpi_machine.specs.Calls.{initialized};
ghost use Rattle.acpiroute_shell.specs.PassedLines.{passed_lines};
ghost use Rattle.acpiroute_lib.specs.Passed.{tables_passed, loading_passed, run_passed};
ghost use Rattle.acpiroute_lib.specs.Machines.{register_accesses, machine_with, machine_of_text};
ghost use Rattle.acpiroute_lib.specs.Machines.{initialized_machine, machine_of_text_in};

use acpi_machine::{Machine, Mode, load_tables_traced};
use acpiroute_shell::{Evaluation, put_passed_lines};
use aml_objects::Octets;
use ar_space::{Result, Sparse};
use ar_tables::Tables;
use machine_description::describe;
use machine_text::{MachineText, read_machine};
use std::alloc::Global;
use watched_space::Metered;

/// The register space of a run: the bytes of a machine text, to which accesses may be bounded.
pub(crate) type Registers = Metered<Sparse>;

/// A machine of these tables over a register space.
#[tactic(auto, unfolding(crate::specs::Machines::machine_with))]
fn machine_with(
    alloc: Global,
    evaluation: Evaluation,
    tables: Tables,
    space: Registers,
    osi: Vec<Octets>,
    told: &mut Vec<u8>,
) -> Result<Machine<Registers>>
    ensures answer { Answers result (machine_with evaluation tables space osi.items) }
    ensures ready { OnOk result (told.new.items ≡ told.old.items) }
    ensures told { OnErr result (NotMemory result → told.new.items ≡ told.old.items ++
        passed_lines (tables_passed evaluation tables space osi.items)) }
{
    match load_tables_traced(
        alloc,
        evaluation.settings,
        tables,
        space,
        evaluation.steps,
        osi,
    ) {
        Ok(machine) => Ok(machine),
        Err((refusal, space, trace, passed)) => {
            drop(space);
            drop(trace);
            put_passed_lines(alloc, told, &passed)?;
            Err(refusal)
        }
    }
}

/// What a machine text says. The text is given up here: the memory that holds it is free before any table is loaded.
fn machine_said(alloc: Global, text: Vec<u8>) -> Result<MachineText>
    ensures { Answers result (machine_text text.items) }
{
    read_machine(alloc, text.as_slice())
}

/// The machine of a machine text, with its tables loaded, and evaluated like this. The text's own refusal comes first,
/// then that of the tables, then that of loading them, which tells what was passed over before.
#[tactic(auto, using(ar_space::proofs::Outcomes::answering), unfolding(crate::specs::Machines::machine_of_text))]
pub(crate) fn machine_of_text(
    alloc: Global,
    evaluation: Evaluation,
    text: Vec<u8>,
    told: &mut Vec<u8>,
) -> Result<Machine<Registers>>
    ensures answer { Answers result (machine_of_text evaluation text.items) }
    ensures ready { OnOk result (told.new.items ≡ told.old.items) }
    ensures told { OnErr result (NotMemory result → told.new.items ≡ told.old.items ++
        passed_lines (loading_passed evaluation text.items)) }
{
    let said = machine_said(alloc, text)?;
    let machine = describe(alloc, said)?;
    let space = Metered::new(machine.registers, evaluation.accesses);
    machine_with(alloc, evaluation, machine.tables, space, machine.osi, told)
}

/// Initializes a machine, and tells what was passed over.
fn initialize(
    alloc: Global,
    mode: Mode,
    machine: &mut Machine<Registers>,
    told: &mut Vec<u8>,
) -> Result<()>
    ensures done { Does result machine.new (initialized register_accesses mode) machine.old }
    ensures told { NotMemory result → told.new.items ≡ told.old.items ++
        passed_lines (initialized register_accesses mode machine.old).1.world.passed }
{
    let outcome = machine.initialize(alloc, mode);
    put_passed_lines(alloc, told, machine.world().passed_over())?;
    outcome
}

#[tactic(auto, using(crate::proofs::Machines::initializing))]
fn initialized_machine(
    alloc: Global,
    mode: Mode,
    machine: Machine<Registers>,
    told: &mut Vec<u8>,
) -> Result<Machine<Registers>>
    ensures answer { Answers result (initialized_machine mode machine) }
    ensures told { NotMemory result → told.new.items ≡ told.old.items ++
        passed_lines (initialized register_accesses mode machine).1.world.passed }
{
    let mut machine = machine;
    match initialize(alloc, mode, &mut machine, told) {
        Ok(()) => Ok(machine),
        Err(refusal) => {
            // (by a call: what a scope drops at its end is dropped part by part, and long to prove)
            drop(machine);
            Err(refusal)
        }
    }
}

/// The machine of a machine text, initialized in a mode. A refusal of initializing comes after those of
/// `machine_of_text`. What was passed over is told.
#[tactic(auto, using(ar_space::proofs::Outcomes::answering), unfolding(crate::specs::Machines::machine_of_text_in))]
pub(crate) fn machine_of_text_in(
    alloc: Global,
    mode: Mode,
    evaluation: Evaluation,
    text: Vec<u8>,
    told: &mut Vec<u8>,
) -> Result<Machine<Registers>>
    ensures answer { Answers result (machine_of_text_in mode evaluation text.items) }
    ensures told { NotMemory result → told.new.items ≡ told.old.items ++
        passed_lines (run_passed mode evaluation text.items) }
{
    let machine = machine_of_text(alloc, evaluation, text, told)?;
    initialized_machine(alloc, mode, machine, told)
}
