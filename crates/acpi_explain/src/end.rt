//! How a run of a machine ended.
ghost use Rattle.std.specs.Prelude.{◌≡◌, map};
ghost use Rattle.aml_world.specs.state.Given.{given_of};
ghost use Rattle.acpi_explain.specs.Ends.{IsRouteEnd, IsEvalEnd};

use acpi_configure::{Options, configure_with};
use acpi_machine::{Machine, Mode};
use aml_path::Path;
use aml_world::Datum;
use ar_space::{Refusal, Space};
use route_report::Report;
use std::alloc::Global;

/// How a run of a machine ended whose tables are loaded.
#[derive(Debug, Drop)]
pub enum End {
    /// Initializing was refused.
    Initializing(Refusal),
    /// The machine was initialized, and then routing or the evaluation was refused.
    Running(Refusal),
    /// Nothing was refused. A run that routes has a report.
    Done(Option<Report>),
}

/// Initializes a machine in a mode and routes it by options, as `Machine::initialize` and `configure_with` do, and
/// tells how that ended.
pub fn route_end<S: Space>(
    alloc: Global,
    mode: Mode,
    options: &Options<'_>,
    machine: &mut Machine<S>,
) -> End
    ensures { IsRouteEnd S.accesses mode options.now machine.old machine.new result }
{
    match machine.initialize(alloc, mode) {
        Err(refusal) => End::Initializing(refusal),
        Ok(()) => match configure_with(alloc, machine, options) {
            Ok(report) => End::Done(Some(report)),
            Err(refusal) => End::Running(refusal),
        },
    }
}

/// Initializes a machine in a mode and evaluates the object at a path, as `Machine::initialize` and
/// `Machine::evaluate_object` do, and tells how that ended.
pub fn eval_end<S: Space>(
    alloc: Global,
    mode: Mode,
    path: &Path,
    arguments: Vec<Datum>,
    machine: &mut Machine<S>,
) -> End
    ensures { IsEvalEnd S.accesses mode path.now (map given_of arguments.items) machine.old machine.new result }
{
    match machine.initialize(alloc, mode) {
        Err(refusal) => End::Initializing(refusal),
        Ok(()) => match machine.evaluate_object(alloc, path, arguments) {
            Ok(_) => End::Done(None),
            Err(fault) => End::Running(fault),
        },
    }
}
