//! A run over a record.
ghost use Rattle.ar_space.specs.Outcome.{NotMemory, seen};
ghost use Rattle.recorded_space.specs.Recordings.{begun, recorded};
ghost use Rattle.recorded_route.specs.Endings.{IsEnding, IsEndingOfTables, IsEndingOver, Leaves, NotOutOfMemory};
ghost use Rattle.recorded_route.specs.Runs.{IsStarted, IsMachineRun, IsRunOver, IsDescribedRun};

use crate::description::{Description, TablesInMemory, described, described_tables};
use crate::ending::{Ending, WantedAccess, ending_of, wanted_of};
use crate::settings::Settings;
use acpi_configure::{Options, configure_with};
use acpi_machine::{Machine, load_tables_as};
use ar_space::{Refusal, Result, Space};
use recorded_space::{Exchange, Recorded};
use route_report::Report;
use std::alloc::Global;

/// How a run came out, and which access was missing.
type Outcome = (Result<Report>, Option<WantedAccess>);

/// Initializes a machine, and configures its links.
#[tactic(auto, using(crate::proofs::Starting::starting))]
fn start<S: Space>(
    alloc: Global,
    machine: &mut Machine<S>,
    settings: &Settings,
    avoid: &[u32],
) -> Result<Report>
    ensures { NotMemory result → IsStarted S.accesses settings.now avoid.now machine.old result machine.new }
{
    machine.initialize(alloc, settings.mode)?;
    let options = Options {
        dry: settings.dry,
        avoid,
        spare: false,
        spread: false,
        kernel: settings.kernel,
    };
    configure_with(alloc, machine, &options)
}

/// Starts a machine whose registers are a record.
fn machine_run(
    alloc: Global,
    machine: Machine<Recorded>,
    settings: &Settings,
    avoid: &[u32],
) -> Outcome
    ensures { NotMemory result.0 → Leaves (IsMachineRun recorded settings.now avoid.now machine result.0) result.1 }
{
    let mut machine = machine;
    let outcome = start(alloc, &mut machine, settings, avoid);
    (outcome, wanted_of(machine.space()))
}

/// Loads what is described over a record, and starts the machine.
fn run_over(
    alloc: Global,
    description: Description,
    settings: &Settings,
    avoid: &[u32],
    space: Recorded,
) -> Outcome
    ensures { NotMemory result.0 →
        Leaves (IsRunOver recorded settings.now avoid.now (description.0, description.1.items)
        space result.0) result.1 }
{
    let (tables, osi) = description;
    match load_tables_as(
        alloc,
        settings.evaluation,
        tables,
        space,
        settings.steps,
        osi,
    ) {
        Ok(machine) => machine_run(alloc, machine, settings, avoid),
        Err((refusal, space)) => (Err(refusal), wanted_of(&space)),
    }
}

/// Runs what is described over a record. Where nothing is, the refusal of the text or of its tables ends the run.
fn run(
    alloc: Global,
    described: Result<Description>,
    settings: &Settings,
    avoid: &[u32],
    space: Recorded,
) -> Outcome
    ensures { NotMemory result.0 →
        Leaves (IsDescribedRun recorded settings.now avoid.now (seen (λ d. (d.0, d.1.items)) described)
        space result.0) result.1 }
{
    match described {
        Ok(description) => run_over(alloc, description, settings, avoid, space),
        Err(refusal) => (Err(refusal), wanted_of(&space)),
    }
}

/// A run over a record, from its first entry on.
fn ending(
    alloc: Global,
    described: Result<Description>,
    settings: &Settings,
    avoid: &[u32],
    entries: &[Exchange],
) -> Ending<Report>
    ensures { NotOutOfMemory result → IsEndingOver settings.now avoid.now
        (seen (λ d. (d.0, d.1.items)) described) entries.now result }
{
    match Vec::from_slice(alloc, entries) {
        Ok(copy) => {
            let (outcome, missing) = run(alloc, described, settings, avoid, Recorded::new(copy));
            ending_of(outcome, missing)
        }
        Err(_) => Ending::Refused(Refusal::OutOfMemory),
    }
}

/// Loads the tables of a machine text, initializes the machine, and configures its links as
/// `acpi_configure::configure_with` does, where each access of a register is answered from a record. Only the memory of
/// the text is read, as the image of the tables, and its texts of `_OSI`: its registers are passed over, and accesses
/// of memory are answered from the record too.
///
/// A caller begins with an empty record. It makes each access that is wanted on its hardware, appends the access with
/// what the hardware answered, and asks again, until no access is wanted. Then the links are set. An access that is
/// wanted before the end of the record shows that the record is not of this run: the text, the settings or an entry
/// was another one.
///
/// Refused are the machine text, its tables, their loading, initializing, and then what the report has to find, but
/// only where the record held every access until then. `Refused(OutOfMemory)` where memory ran out; a call with the
/// same record may then be made again.
///
/// ```
/// let mut record = Vec::new(alloc);
/// loop {
///     match configure_recorded(alloc, text, &settings, &[], record.as_slice()) {
///         Ending::Wanted(wanted) if wanted.entry < record.len() => return Err(another_record()),
///         Ending::Wanted(wanted) => record.push(made_on_the_hardware(wanted.access))?,
///         Ending::Done(report) => return Ok(report),
///         Ending::Refused(refusal) => return Err(refusal),
///     }
/// }
/// ```
pub fn configure_recorded(
    alloc: Global,
    text: &[u8],
    settings: &Settings,
    avoid: &[u32],
    entries: &[Exchange],
) -> Ending<Report>
    ensures { NotOutOfMemory result → IsEnding settings.now avoid.now text.now entries.now result }
{
    let description = described(alloc, text);
    ending(alloc, description, settings, avoid, entries)
}

/// Configures a machine whose tables stand in memory, as `configure_recorded` does that of a machine text.
pub fn configure_tables_recorded(
    alloc: Global,
    tables: &TablesInMemory<'_>,
    settings: &Settings,
    avoid: &[u32],
    entries: &[Exchange],
) -> Ending<Report>
    ensures { NotOutOfMemory result → IsEndingOfTables settings.now avoid.now tables.now.rsdp tables.now.parts.now
        tables.now.osi.now entries.now result }
{
    let description = described_tables(alloc, tables);
    ending(alloc, description, settings, avoid, entries)
}
