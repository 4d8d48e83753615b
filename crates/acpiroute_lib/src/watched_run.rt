//! Runs over the bytes of a machine text, with what their register space shows at the end.
ghost use Rattle.std.specs.Prelude.{◌≡◌, IfOk, IfErr, Ok};
ghost use Rattle.ar_space.specs.declared.refusal.Refusal.TheVariants.{OutOfMemory};
ghost use Rattle.ar_tables.specs.FindTables.{tables_of};
ghost use Rattle.acpiroute_lib.specs.WhyCommand.{first_watch, IsWatchedMachine, IsWatched};
ghost use Rattle.acpiroute_lib.specs.WhyCommand.{IsFilledMachine, IsFilledFrom, IsFilled};

use crate::loading::load;
use crate::machine::Registers;
use crate::machine_end::machine_end;
use crate::run_end::RunEnd;
use acpi_explain::Phase;
use acpi_machine::{Machine, load_tables_traced};
use acpiroute_shell::{Asking, Evaluation};
use aml_objects::Octets;
use aml_world::Trace;
use ar_space::{Place, Result, Sparse};
use ar_tables::Tables;
use machine_description::describe;
use machine_text::MachineText;
use std::alloc::Global;
use watched_space::{Accessed, LastAccess, Metered, MissingBytes, ZeroFilled};

/// How a run ended, its last access, and where it was refused.
pub(crate) type Watched = (RunEnd, Option<Accessed>, Trace);

/// How a run ended with 0 in place of each missing byte, and the places of these.
pub(crate) type Filled = (RunEnd, Vec<Place>);

/// The registers of a run that is evaluated like this, to which no access is made yet.
pub(crate) fn first_watch(evaluation: Evaluation, space: Sparse) -> LastAccess<Registers>
    ensures { result ≡ first_watch evaluation space }
{
    LastAccess::new(Metered::new(space, evaluation.accesses))
}

/// The bytes of a machine text, of which these are known to be missing.
fn first_filled(
    evaluation: Evaluation,
    space: Sparse,
    missing: MissingBytes,
) -> Metered<ZeroFilled<Sparse>>
    ensures { result ≡ record { inner = record { inner = space; missing = missing }; left = evaluation.accesses } }
{
    Metered::new(ZeroFilled::new(space, missing), evaluation.accesses)
}

fn watched_machine(
    alloc: Global,
    asking: &Asking,
    machine: Machine<LastAccess<Registers>>,
) -> Watched
    ensures { IsWatchedMachine asking.now machine result.0 result.1 }
{
    let mut machine = machine;
    let end = machine_end(alloc, asking, &mut machine);
    let (space, trace, passed) = machine.into_world().into_parts();
    drop(passed);
    let last = space.last();
    // (by a call: what a scope drops at its end is dropped part by part, and long to prove)
    drop(space);
    (end, last, trace)
}

fn watched_tables(
    alloc: Global,
    asking: &Asking,
    tables: Tables,
    osi: Vec<Octets>,
    space: Sparse,
) -> Watched
    ensures { IsWatched asking.now (Ok tables) osi.items space result.0 result.1 }
{
    let evaluation = asking.evaluation;
    match load_tables_traced(
        alloc,
        evaluation.settings,
        tables,
        first_watch(evaluation, space),
        evaluation.steps,
        osi,
    ) {
        Ok(machine) => watched_machine(alloc, asking, machine),
        Err((refusal, space, trace, passed)) => {
            drop(passed);
            (
                RunEnd::Refused(Some(Phase::Loading), refusal),
                space.last(),
                trace,
            )
        }
    }
}

/// A run over the bytes of a machine text, with its last access.
pub(crate) fn watched_run(alloc: Global, asking: &Asking, said: MachineText) -> Watched
    ensures { IsWatched asking.now (tables_of said.space.memory said.rsdp) said.osi said.space result.0 result.1 }
{
    match describe(alloc, said) {
        Ok(machine) => watched_tables(
            alloc,
            asking,
            machine.tables,
            machine.osi,
            machine.registers,
        ),
        Err(refusal) => (RunEnd::Refused(None, refusal), None, Trace::new(alloc)),
    }
}

fn filled_machine(
    alloc: Global,
    asking: &Asking,
    machine: Machine<Metered<ZeroFilled<Sparse>>>,
) -> Result<Filled>
    ensures memory { IfErr result (λ refusal. refusal ≡ OutOfMemory) }
    ensures run { IfOk result (λ f. IsFilledMachine asking.now machine f.0 f.1.items) }
{
    let mut machine = machine;
    let end = machine_end(alloc, asking, &mut machine);
    let places = machine.space().inner().missing().places(alloc);
    // (by a call: what a scope drops at its end is dropped part by part, and long to prove)
    drop(machine);
    Ok((end, places?))
}

fn filled_tables(
    alloc: Global,
    asking: &Asking,
    tables: Tables,
    osi: Vec<Octets>,
    space: Metered<ZeroFilled<Sparse>>,
) -> Result<Filled>
    ensures memory { IfErr result (λ refusal. refusal ≡ OutOfMemory) }
    ensures run { IfOk result (λ f. IsFilledFrom asking.now (Ok tables) osi.items space f.0 f.1.items) }
{
    match load(alloc, asking.evaluation, tables, osi, space) {
        Ok(machine) => filled_machine(alloc, asking, machine),
        Err((refusal, space)) => {
            let places = space.inner().missing().places(alloc)?;
            Ok((RunEnd::Refused(Some(Phase::Loading), refusal), places))
        }
    }
}

/// A run over the bytes of a machine text with 0 in place of each missing one, with the places of these.
pub(crate) fn filled_run(alloc: Global, asking: &Asking, said: MachineText) -> Result<Filled>
    ensures memory { IfErr result (λ refusal. refusal ≡ OutOfMemory) }
    ensures run { IfOk result (λ f. IsFilled asking.now (tables_of said.space.memory said.rsdp) said.osi said.space
        f.0 f.1.items) }
{
    match describe(alloc, said) {
        Ok(machine) => {
            let missing = MissingBytes::new(alloc)?;
            let space = first_filled(asking.evaluation, machine.registers, missing);
            filled_tables(alloc, asking, machine.tables, machine.osi, space)
        }
        Err(refusal) => Ok((RunEnd::Refused(None, refusal), Vec::new(alloc))),
    }
}
