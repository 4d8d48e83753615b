//! Whether an evaluation is refused.
ghost use Rattle.std.specs.Prelude.{IfOk, map};
ghost use Rattle.aml_world.specs.state.Given.{given_of};
ghost use Rattle.acpi_explain.specs.Stages.{IsEvaluation};

use crate::halt::is_refused;
use acpi_machine::Machine;
use aml_path::Path;
use aml_world::Datum;
use ar_space::Space;
use std::alloc::{AllocError, Global};

/// Evaluates the object at a path, as `Machine::evaluate_object` does, and tells whether that is refused.
pub fn refused_evaluation<S: Space>(
    alloc: Global,
    machine: &mut Machine<S>,
    path: &Path,
    arguments: Vec<Datum>,
) -> Result<bool, AllocError>
    ensures { IfOk result (IsEvaluation S.accesses path.now (map given_of arguments.items) machine.old) }
{
    is_refused(machine.evaluate_object(alloc, path, arguments))
}
