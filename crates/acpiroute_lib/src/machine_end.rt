//! How the run of a machine ends whose tables are loaded.
ghost use Rattle.std.specs.Prelude.{◌≡◌, map, Some, None};
ghost use Rattle.aml_world.specs.state.Given.{given_of};
ghost use Rattle.aml_path.specs.Text.{path_of_text};
ghost use Rattle.acpi_machine.specs.Calls.{initialized};
ghost use Rattle.acpi_explain.specs.declared.told.Phase.TheVariants.{Running};
ghost use Rattle.acpiroute_lib.specs.WhyStages.{IsPhase, named_phase, started_phase, machine_phase};
ghost use Rattle.acpiroute_lib.specs.RunEnds.{options_of, IsMachineEnd, IsRouted, IsEvaluated, IsEvaluatedAt};
ghost use Rattle.acpiroute_lib.specs.RunEnds.{IsUnnamed};

use crate::eval_command::data;
use crate::run_end::RunEnd;
use acpi_configure::Options;
use acpi_explain::{End, Phase, eval_end, route_end};
use acpi_machine::Machine;
use acpiroute_shell::{Argument, Asking, Flags, Question};
use aml_path::Path;
use aml_world::Datum;
use ar_space::{Refusal, Space};
use route_report::Mode;
use std::alloc::Global;

/// What a run of `route` is asked for, by its words.
pub(crate) fn options_of(avoid: &[u32], flags: Flags) -> Options<'_>
    ensures { result ≡ options_of avoid.now flags }
{
    Options {
        dry: flags.dry,
        avoid,
        spare: flags.spare,
        spread: flags.spread,
        kernel: flags.kernel,
    }
}

/// Routes a machine, once it is initialized.
fn route_machine<S: Space>(
    alloc: Global,
    mode: Mode,
    options: &Options<'_>,
    machine: &mut Machine<S>,
) -> RunEnd
    ensures run { IsRouted S.accesses mode options.now result machine.old machine.new }
    ensures phase { IsPhase (started_phase (Some Running) (initialized S.accesses mode machine.old).0) result }
{
    match route_end(alloc, mode, options, machine) {
        End::Initializing(refusal) => RunEnd::Refused(Some(Phase::Initializing), refusal),
        End::Running(refusal) => RunEnd::Refused(Some(Phase::Running), refusal),
        End::Done(report) => RunEnd::Done(report),
    }
}

/// Evaluates the object at a path, once the machine is initialized.
fn evaluate_path<S: Space>(
    alloc: Global,
    mode: Mode,
    path: &Path,
    arguments: Vec<Datum>,
    machine: &mut Machine<S>,
) -> RunEnd
    ensures run { IsEvaluatedAt S.accesses mode path.now (map given_of arguments.items) result machine.old machine.new }
    ensures phase { IsPhase (started_phase (Some Running) (initialized S.accesses mode machine.old).0) result }
{
    match eval_end(alloc, mode, path, arguments, machine) {
        End::Initializing(refusal) => RunEnd::Refused(Some(Phase::Initializing), refusal),
        End::Running(refusal) => RunEnd::Refused(Some(Phase::Running), refusal),
        End::Done(_) => RunEnd::Done(None),
    }
}

/// The text of a path is refused, once the machine is initialized.
fn refuse_path<S: Space>(
    alloc: Global,
    mode: Mode,
    refusal: Refusal,
    machine: &mut Machine<S>,
) -> RunEnd
    ensures run { IsUnnamed S.accesses mode refusal result machine.old machine.new }
    ensures phase { IsPhase (started_phase None (initialized S.accesses mode machine.old).0) result }
{
    match machine.initialize(alloc, mode) {
        Ok(()) => RunEnd::Refused(None, refusal),
        Err(first) => RunEnd::Refused(Some(Phase::Initializing), first),
    }
}

/// Evaluates the object whose path a text is, once the machine is initialized.
fn evaluate_machine<S: Space>(
    alloc: Global,
    mode: Mode,
    path: &str,
    arguments: &[Argument],
    machine: &mut Machine<S>,
) -> RunEnd
    ensures run { IsEvaluated S.accesses mode path.now arguments.now result machine.old machine.new }
    ensures phase { IsPhase (started_phase (named_phase (path_of_text path.now))
        (initialized S.accesses mode machine.old).0) result }
{
    match Path::from_text(alloc, path.as_bytes()) {
        Ok(path) => match data(alloc, arguments) {
            Ok(arguments) => evaluate_path(alloc, mode, &path, arguments, machine),
            Err(_) => RunEnd::Refused(None, Refusal::OutOfMemory),
        },
        Err(Refusal::OutOfMemory) => RunEnd::Refused(None, Refusal::OutOfMemory),
        Err(refusal) => refuse_path(alloc, mode, refusal, machine),
    }
}

/// Initializes a machine, and asks it.
pub(crate) fn machine_end<S: Space>(
    alloc: Global,
    asking: &Asking,
    machine: &mut Machine<S>,
) -> RunEnd
    ensures run { IsMachineEnd S.accesses asking.now result machine.old machine.new }
    ensures phase { IsPhase (machine_phase S.accesses asking.now machine.old) result }
{
    match &asking.question {
        Question::Route { avoid, flags } => {
            let options = options_of(avoid.as_slice(), *flags);
            route_machine(alloc, asking.mode, &options, machine)
        }
        Question::Eval { path, arguments } => evaluate_machine(
            alloc,
            asking.mode,
            path.as_str(),
            arguments.as_slice(),
            machine,
        ),
    }
}
