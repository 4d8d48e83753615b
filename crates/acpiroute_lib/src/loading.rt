//! Loads the tables of a run.
ghost use Rattle.std.specs.Prelude.{◌≡◌, ◌≢◌, Ok, Err, IfOk, IfErr};
ghost use Rattle.ar_space.specs.declared.refusal.Refusal.TheVariants.{OutOfMemory};
ghost use Rattle.aml_world.specs.state.Predefined.{fresh_as};
ghost use Rattle.acpi_machine.specs.Loading.{loaded_tables};
ghost use Rattle.acpi_machine.specs.MachineStates.{machine_of};

use acpi_machine::{Machine, load_tables_as};
use acpiroute_shell::Evaluation;
use aml_objects::Octets;
use ar_space::{Refusal, Space};
use ar_tables::Tables;
use std::alloc::Global;

/// Loads tables over a register space, with their AML evaluated as `evaluation` says.
pub(crate) fn load<S: Space>(
    alloc: Global,
    evaluation: Evaluation,
    tables: Tables,
    osi: Vec<Octets>,
    space: S,
) -> Result<Machine<S>, (Refusal, S)>
    ensures world { IfOk result (λ machine. loaded_tables S.accesses tables evaluation.steps osi.items
        (fresh_as evaluation.settings tables.width osi.items space) ≡ (Ok tt, machine.world)) }
    ensures machine { IfOk result (λ machine. machine ≡ machine_of tables evaluation.steps machine.world) }
    ensures refusal { IfErr result (λ refused. refused.0 ≢ OutOfMemory →
        (loaded_tables S.accesses tables evaluation.steps osi.items
        (fresh_as evaluation.settings tables.width osi.items space)).0 ≡ Err refused.0) }
    ensures space { IfErr result (λ refused. refused.0 ≢ OutOfMemory →
        (loaded_tables S.accesses tables evaluation.steps osi.items
        (fresh_as evaluation.settings tables.width osi.items space)).1.space ≡ refused.1) }
{
    load_tables_as(
        alloc,
        evaluation.settings,
        tables,
        space,
        evaluation.steps,
        osi,
    )
}
