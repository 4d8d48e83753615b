//! What was done when a run was refused: it is found by a second run over the same register space.
ghost use Rattle.std.specs.Prelude.{◌≡◌, ◌≢◌, false, IfOk, Some, None, Ok, Err};
ghost use Rattle.acpiroute_lib.specs.Machines.{register_accesses};
ghost use Rattle.ar_space.specs.declared.refusal.Refusal.{Refusal};
ghost use Rattle.ar_space.specs.declared.refusal.Refusal.TheVariants.{OutOfMemory};
ghost use Rattle.ar_tables.specs.FindTables.{tables_of};
ghost use Rattle.aml_path.specs.Text.{path_of_text};
ghost use Rattle.acpi_machine.specs.Calls.{initialized};
ghost use Rattle.acpi_machine.specs.MachineStates.{MachineState};
ghost use Rattle.acpi_explain.specs.Stages.{IsStage};
ghost use Rattle.acpi_explain.specs.declared.stage.Stage.{Stage};
ghost use Rattle.acpi_explain.specs.declared.told.Phase.TheVariants.{Loading, Initializing, Running};
ghost use Rattle.acpiroute_shell.specs.declared.request.Flags.{Flags};
ghost use Rattle.acpiroute_shell.specs.declared.request.Question.TheVariants.{Route};
ghost use Rattle.watched_space.specs.Watching.{watched};
ghost use Rattle.acpiroute_lib.specs.WhyCommand.{IsStageFound, first_watch};
ghost use Rattle.acpiroute_lib.specs.WhyStages.{IsNamedStage, IsCallingStage, IsStageIn};

use crate::loading::load;
use crate::watched_run::first_watch;
use acpi_explain::{Phase, Stage, refused_call, refused_object, refused_table};
use acpi_machine::Machine;
use acpiroute_shell::{Asking, Question};
use aml_objects::Octets;
use aml_path::Path;
use ar_space::{Refusal, Space};
use ar_tables::Tables;
use machine_description::describe;
use machine_text::{MachineText, read_machine};
use std::alloc::{AllocError, Global};

/// No stage where the second run is refused otherwise; only want of memory is handed on.
fn no_stage(refusal: Refusal) -> Result<Option<Stage>, AllocError>
    ensures other { IfOk result (λ stage. refusal ≢ OutOfMemory) }
    ensures none { IfOk result (λ stage. stage ≡ None) }
{
    match refusal {
        Refusal::OutOfMemory => Err(AllocError),
        _ => Ok(None),
    }
}

/// The table that is refused.
fn table_stage<S: Space + Drop>(
    alloc: Global,
    asking: &Asking,
    tables: &Tables,
    osi: Vec<Octets>,
    space: S,
) -> Result<Option<Stage>, AllocError>
    ensures { IfOk result (IsStageIn S.accesses (Some Loading) asking.now (Ok tables.now) osi.items space) }
{
    let evaluation = asking.evaluation;
    let found = refused_table(
        alloc,
        evaluation.settings,
        tables,
        space,
        evaluation.steps,
        osi,
    )?;
    match found {
        Some(number) => Ok(Some(Stage::Loading(number))),
        None => Ok(None),
    }
}

/// The call of initializing that is refused, of a machine whose tables are loaded.
fn call_of<S: Space + Drop>(
    alloc: Global,
    asking: &Asking,
    machine: Machine<S>,
) -> Result<Option<Stage>, AllocError>
    ensures { IfOk result (λ stage. (e : Refusal) (after : MachineState S) → machine.spent ≡ false →
        initialized S.accesses asking.now.mode machine ≡ (Err e, after) →
        IsCallingStage S.accesses asking.now machine e stage) }
{
    let mut machine = machine;
    let found = refused_call(alloc, asking.mode, &mut machine);
    // (by a call: what a scope drops at its end is dropped part by part, and long to prove)
    drop(machine);
    let call = found?;
    match call {
        Some(path) => Ok(Some(Stage::Calling(path))),
        None => Ok(None),
    }
}

/// The call of initializing that is refused.
fn call_stage<S: Space + Drop>(
    alloc: Global,
    asking: &Asking,
    tables: Tables,
    osi: Vec<Octets>,
    space: S,
) -> Result<Option<Stage>, AllocError>
    ensures { IfOk result (IsStageIn S.accesses (Some Initializing) asking.now (Ok tables) osi.items space) }
{
    match load(alloc, asking.evaluation, tables, osi, space) {
        Ok(machine) => call_of(alloc, asking, machine),
        Err((refusal, space)) => {
            drop(space);
            no_stage(refusal)
        }
    }
}

/// The routing table or the object of a link that is refused, of a machine whose tables are loaded.
fn object_of<S: Space + Drop>(
    alloc: Global,
    asking: &Asking,
    avoid: &[u32],
    machine: Machine<S>,
) -> Result<Option<Stage>, AllocError>
    ensures { IfOk result (λ stage. (ready : MachineState S) →
        initialized S.accesses asking.now.mode machine ≡ (Ok tt, ready) →
        (s : Stage) × ((stage ≡ Some s) × IsStage S.accesses avoid.now ready s)) }
{
    let mut machine = machine;
    match machine.initialize(alloc, asking.mode) {
        Ok(()) => {
            let found = refused_object(alloc, &mut machine, avoid);
            // (by a call: what a scope drops at its end is dropped part by part, and long to prove)
            drop(machine);
            let stage = found?;
            Ok(Some(stage))
        }
        Err(refusal) => {
            drop(machine);
            no_stage(refusal)
        }
    }
}

/// The routing table or the object of a link that is refused, where the machine is to be routed and these interrupts
/// are avoided.
fn object_stage<S: Space + Drop>(
    alloc: Global,
    asking: &Asking,
    avoid: &[u32],
    tables: Tables,
    osi: Vec<Octets>,
    space: S,
) -> Result<Option<Stage>, AllocError>
    ensures { IfOk result (λ stage. (flags : Flags) →
        asking.now.question ≡ Route avoid.now flags →
        IsStageIn S.accesses (Some Running) asking.now (Ok tables) osi.items space stage) }
{
    match load(alloc, asking.evaluation, tables, osi, space) {
        Ok(machine) => object_of(alloc, asking, avoid, machine),
        Err((refusal, space)) => {
            drop(space);
            no_stage(refusal)
        }
    }
}

/// The object that is evaluated.
fn named_stage(alloc: Global, path: &str) -> Result<Option<Stage>, AllocError>
    ensures { IfOk result (IsNamedStage (path_of_text path.now)) }
{
    match Path::from_text(alloc, path.as_bytes()) {
        Ok(path) => Ok(Some(Stage::Reading(path))),
        Err(refusal) => no_stage(refusal),
    }
}

/// What was asked of the machine once it was initialized.
fn asked_stage<S: Space + Drop>(
    alloc: Global,
    asking: &Asking,
    tables: Tables,
    osi: Vec<Octets>,
    space: S,
) -> Result<Option<Stage>, AllocError>
    ensures { IfOk result (IsStageIn S.accesses (Some Running) asking.now (Ok tables) osi.items space) }
{
    match &asking.question {
        Question::Route { avoid, .. } => {
            object_stage(alloc, asking, avoid.as_slice(), tables, osi, space)
        }
        Question::Eval { path, .. } => named_stage(alloc, path.as_str()),
    }
}

/// What was done when a run over tables was refused in this phase.
fn stage_in<S: Space + Drop>(
    alloc: Global,
    asking: &Asking,
    phase: Phase,
    tables: Tables,
    osi: Vec<Octets>,
    space: S,
) -> Result<Option<Stage>, AllocError>
    ensures { IfOk result (IsStageIn S.accesses (Some phase) asking.now (Ok tables) osi.items space) }
{
    match phase {
        Phase::Loading => table_stage(alloc, asking, &tables, osi, space),
        Phase::Initializing => call_stage(alloc, asking, tables, osi, space),
        Phase::Running => asked_stage(alloc, asking, tables, osi, space),
    }
}

/// What was done when the run over what a machine text says was refused in this phase.
fn stage_said(
    alloc: Global,
    asking: &Asking,
    phase: Phase,
    said: MachineText,
) -> Result<Option<Stage>, AllocError>
    ensures { IfOk result (IsStageIn (watched register_accesses) (Some phase) asking.now
        (tables_of said.space.memory said.rsdp) said.osi (first_watch asking.now.evaluation said.space)) }
{
    match describe(alloc, said) {
        Ok(machine) => stage_in(
            alloc,
            asking,
            phase,
            machine.tables,
            machine.osi,
            first_watch(asking.evaluation, machine.registers),
        ),
        Err(refusal) => no_stage(refusal),
    }
}

/// What was done when the run over a machine text was refused in this phase.
pub(crate) fn stage_when_refused(
    alloc: Global,
    asking: &Asking,
    phase: Option<Phase>,
    text: &[u8],
) -> Result<Option<Stage>, AllocError>
    ensures { IfOk result (IsStageFound asking.now phase text.now) }
{
    match phase {
        None => Ok(None),
        Some(phase) => match read_machine(alloc, text) {
            Ok(said) => stage_said(alloc, asking, phase, said),
            Err(refusal) => no_stage(refusal),
        },
    }
}
