//! Loads the tables of a machine (ACPI 6.5, 5.4).
ghost use Rattle.std.specs.Prelude.{◌≡◌, ◌≢◌, Ok, Err, IfOk, IfErr};
ghost use Rattle.ar_space.specs.declared.refusal.Refusal.TheVariants.{OutOfMemory};
ghost use Rattle.ar_space.specs.Change.{Does};
ghost use Rattle.ar_space.specs.Outcome.{AnswersInPlace};
ghost use Rattle.aml_world.specs.state.Predefined.{fresh, fresh_as, predefined};
ghost use Rattle.aml_meaning.specs.Calling.{loaded};
ghost use Rattle.acpi_machine.specs.MachineStates.{machine_of};
ghost use Rattle.acpi_machine.specs.Loading.{few_texts, each_loaded, all_loaded, loaded_tables, table_loaded};

use crate::machine::Machine;
use aml_interp::load;
use aml_meaning::World;
use aml_objects::Octets;
use aml_world::{EvaluationSettings, PassedOver, Profile, Trace};
use ar_space::{EvaluationFault, MAX_TEXTS, Refusal, Result, Space};
use ar_tables::{Mode, Table, Tables};
use std::alloc::Global;

/// Loads the tables of a machine over a register space: the DSDT, and then each SSDT in the order of the list of
/// tables, each within `steps` steps, 1 to 1,000,000,000. `osi` are the texts that `_OSI` knows (ACPI 6.5, 5.7.2).
///
/// More than 64 texts are refused as `ObjectLimit`, before anything is loaded. The first table that is refused ends
/// it, and the register space comes back as it is then, with the accesses that were made.
///
/// ```
/// let memory = machine_text::read_machine(alloc, text)?;
/// let tables = ar_tables::find_tables(alloc, memory.space.memory(), memory.rsdp)?;
/// let loaded = load_tables(alloc, tables, memory.space, 1_000_000, Vec::new(alloc));
/// ```
pub fn load_tables<S: Space>(
    alloc: Global,
    tables: Tables,
    space: S,
    steps: u64,
    osi: Vec<Octets>,
) -> Result<Machine<S>, (Refusal, S)>
    ensures world { IfOk result (λ machine. loaded_tables S.accesses tables steps osi.items
        (fresh tables.width osi.items space) ≡ (Ok tt, machine.world)) }
    ensures machine { IfOk result (λ machine. machine ≡ machine_of tables steps machine.world) }
    ensures refusal { IfErr result (λ refused. refused.0 ≢ OutOfMemory →
        (loaded_tables S.accesses tables steps osi.items (fresh tables.width osi.items space)).0 ≡ Err refused.0) }
    ensures space { IfErr result (λ refused. refused.0 ≢ OutOfMemory →
        (loaded_tables S.accesses tables steps osi.items (fresh tables.width osi.items space)).1.space ≡ refused.1) }
{
    let settings = EvaluationSettings::of(Profile::Core);
    load_tables_as(alloc, settings, tables, space, steps, osi)
}

/// As `load_tables`, with the AML evaluated by these settings, which nothing changes: in a profile, which the world
/// shows and which also decides about exclusive offers and about a `_HID` that is a control method, and within a depth
/// of calls and of terms. `EvaluationSettings::of(Profile::Wide)` are those of the wide profile.
pub fn load_tables_as<S: Space>(
    alloc: Global,
    settings: EvaluationSettings,
    tables: Tables,
    space: S,
    steps: u64,
    osi: Vec<Octets>,
) -> Result<Machine<S>, (Refusal, S)>
    ensures world { IfOk result (λ machine. loaded_tables S.accesses tables steps osi.items
        (fresh_as settings tables.width osi.items space) ≡ (Ok tt, machine.world)) }
    ensures machine { IfOk result (λ machine. machine ≡ machine_of tables steps machine.world) }
    ensures refusal { IfErr result (λ refused. refused.0 ≢ OutOfMemory →
        (loaded_tables S.accesses tables steps osi.items (fresh_as settings tables.width osi.items space)).0 ≡
        Err refused.0) }
    ensures space { IfErr result (λ refused. refused.0 ≢ OutOfMemory →
        (loaded_tables S.accesses tables steps osi.items (fresh_as settings tables.width osi.items space)).1.space ≡
        refused.1) }
{
    match load_tables_traced(alloc, settings, tables, space, steps, osi) {
        Ok(machine) => Ok(machine),
        Err((refusal, space, trace, passed)) => {
            drop(trace);
            drop(passed);
            Err((refusal, space))
        }
    }
}

/// As `load_tables_as`. Where a table is refused it also gives what the trace of `Machine::world` would tell of it, and
/// what was passed over before.
pub fn load_tables_traced<S: Space>(
    alloc: Global,
    settings: EvaluationSettings,
    tables: Tables,
    space: S,
    steps: u64,
    osi: Vec<Octets>,
) -> Result<Machine<S>, (Refusal, S, Trace, PassedOver)>
    ensures world { IfOk result (λ machine. loaded_tables S.accesses tables steps osi.items
        (fresh_as settings tables.width osi.items space) ≡ (Ok tt, machine.world)) }
    ensures machine { IfOk result (λ machine. machine ≡ machine_of tables steps machine.world) }
    ensures refusal { IfErr result (λ refused. refused.0 ≢ OutOfMemory →
        (loaded_tables S.accesses tables steps osi.items (fresh_as settings tables.width osi.items space)).0 ≡
        Err refused.0) }
    ensures space { IfErr result (λ refused. refused.0 ≢ OutOfMemory →
        (loaded_tables S.accesses tables steps osi.items (fresh_as settings tables.width osi.items space)).1.space ≡
        refused.1) }
    ensures passed { IfErr result (λ refused. refused.0 ≢ OutOfMemory →
        (loaded_tables S.accesses tables steps osi.items (fresh_as settings tables.width osi.items space)).1.passed ≡
        refused.3) }
{
    match few_texts(&osi) {
        Ok(()) => {}
        Err(refusal) => return Err((refusal, space, Trace::new(alloc), PassedOver::new(alloc))),
    }
    let mut world = match World::with_settings(alloc, settings, tables.width, osi, space) {
        Ok(world) => world,
        Err((refusal, space)) => {
            return Err((refusal, space, Trace::new(alloc), PassedOver::new(alloc)));
        }
    };
    match load_all(alloc, &mut world, &tables, steps) {
        Ok(()) => Ok(Machine {
            world,
            tables,
            mode: Mode::Apic,
            steps,
            spent: false,
        }),
        Err(refusal) => {
            let (space, trace, passed) = parts_of(world);
            Err((refusal, space, trace, passed))
        }
    }
}

/// The register space of a world, given back, where the evaluation that was last begun was refused, and what was passed
/// over.
fn parts_of<S>(world: World<S>) -> (S, Trace, PassedOver)
    ensures space { result.0 ≡ world.space }
    ensures passed { result.2 ≡ world.passed }
{
    world.running.world.into_parts()
}

/// `_OSI` may know so many texts; more are refused as `ObjectLimit`.
pub(crate) fn few_texts(texts: &[Octets]) -> Result<()>
    ensures { AnswersInPlace result (few_texts texts.now) }
{
    if texts.len() > MAX_TEXTS {
        Err(Refusal::Evaluation(EvaluationFault::ObjectLimit))
    } else {
        Ok(())
    }
}

/// Loads the DSDT and the SSDTs.
#[tactic(auto, using(ar_space::proofs::Changes::changing), unfolding(crate::specs::Loading::all_loaded))]
fn load_all<S: Space>(
    alloc: Global,
    world: &mut World<S>,
    tables: &Tables,
    steps: u64,
) -> Result<()>
    ensures { Does result world.new (all_loaded S.accesses tables.now steps) world.old }
{
    load_table(alloc, world, &tables.dsdt, steps)?;
    load_each(alloc, world, tables.ssdts.as_slice(), steps)
}

/// Loads each of some tables.
#[tactic(auto, using(ar_space::proofs::Changes::changing, crate::proofs::Loaded::loading))]
fn load_each<S: Space>(
    alloc: Global,
    world: &mut World<S>,
    tables: &[Table],
    steps: u64,
) -> Result<()>
    ensures { Does result world.new (each_loaded S.accesses steps tables.now) world.old }
{
    for table in tables {
        load_table(alloc, world, table, steps)?;
    }
    Ok(())
}

/// Loads the AML behind the header of a table into a world, within `steps` steps, 1 to 1,000,000,000 (ACPI 6.5, 5.4).
/// It is refused as `load` refuses it.
#[tactic(auto, unfolding(crate::specs::Loading::table_loaded))]
pub fn load_table<S: Space>(
    alloc: Global,
    world: &mut World<S>,
    table: &Table,
    steps: u64,
) -> Result<()>
    ensures { Does result world.new (table_loaded S.accesses steps table.now) world.old }
{
    load(alloc, world, table.body(), steps)
}
