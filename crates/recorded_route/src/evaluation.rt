//! An evaluation over a record.
ghost use Rattle.std.specs.Prelude.{◌≡◌, map};
ghost use Rattle.ar_space.specs.Outcome.{NotMemory, seen};
ghost use Rattle.ar_space.specs.Change.{Does};
ghost use Rattle.aml_world.specs.state.Given.{given_of};
ghost use Rattle.recorded_space.specs.Recordings.{recorded};
ghost use Rattle.recorded_route.specs.Evaluations.{object_of, machine_answer, answer_over, evaluation};
ghost use Rattle.recorded_route.specs.Endings.{IsEvaluated, IsEvaluatedOfTables, IsEvaluatedOver, Leaves};
ghost use Rattle.recorded_route.specs.Endings.{NotOutOfMemory, seen_ending};

use crate::description::{Description, TablesInMemory, described, described_tables};
use crate::ending::{Ending, WantedAccess, ending_of, wanted_of};
use crate::settings::Settings;
use acpi_machine::{Machine, load_tables_as};
use aml_path::Path;
use aml_world::Datum;
use ar_space::{Refusal, Result, Space};
use recorded_space::{Exchange, Recorded};
use std::alloc::Global;

/// How an evaluation came out, and which access was missing.
type Outcome = (Result<Datum>, Option<WantedAccess>);

/// An object that is evaluated: the text of its path, and what it is called with.
#[derive(Drop)]
pub struct Question<'a> {
    /// The text of the path from the root, such as `\\_SB_.PCI0._BBN`.
    pub path: &'a [u8],
    /// The arguments.
    pub arguments: Vec<Datum>,
}

/// Initializes a machine, and evaluates an object.
#[tactic(auto, using(ar_space::proofs::Changes::changing), unfolding(crate::specs::Evaluations::object_of))]
fn object_of<S: Space>(
    alloc: Global,
    machine: &mut Machine<S>,
    settings: &Settings,
    question: Question<'_>,
) -> Result<Datum>
    ensures { Does (seen given_of result) machine.new (object_of S.accesses settings.now question.entry.path.now
        (map given_of question.entry.arguments.items)) machine.old }
{
    machine.initialize(alloc, settings.mode)?;
    let path = Path::from_text(alloc, question.path)?;
    machine.evaluate_object(alloc, &path, question.arguments)
}

/// Evaluates an object of a machine whose registers are a record, and tells the access that is missing from it.
fn machine_answer(
    alloc: Global,
    machine: Machine<Recorded>,
    settings: &Settings,
    question: Question<'_>,
) -> Outcome
    ensures { NotMemory result.0 → Leaves (λ after. machine_answer recorded settings.now question.entry.path.now
        (map given_of question.entry.arguments.items) machine ≡ (seen given_of result.0, after)) result.1 }
{
    let mut machine = machine;
    let answer = object_of(alloc, &mut machine, settings, question);
    let wanted = wanted_of(machine.space());
    // (by a call: what a scope drops at its end is dropped part by part, and long to prove)
    drop(machine);
    (answer, wanted)
}

/// Loads what is described over a record, and evaluates an object.
fn answer_over(
    alloc: Global,
    description: Description,
    settings: &Settings,
    question: Question<'_>,
    space: Recorded,
) -> Outcome
    ensures { NotMemory result.0 → Leaves (λ after. answer_over recorded settings.now question.entry.path.now
        (map given_of question.entry.arguments.items) (description.0, description.1.items) space ≡
        (seen given_of result.0, after)) result.1 }
{
    let (tables, osi) = description;
    match load_tables_as(
        alloc,
        settings.evaluation,
        tables,
        space,
        settings.steps,
        osi,
    ) {
        Ok(machine) => machine_answer(alloc, machine, settings, question),
        Err((refusal, space)) => (Err(refusal), wanted_of(&space)),
    }
}

/// Evaluates an object of what is described. Where nothing is, the refusal of the text or of its tables ends it.
fn evaluation(
    alloc: Global,
    described: Result<Description>,
    settings: &Settings,
    question: Question<'_>,
    space: Recorded,
) -> Outcome
    ensures { NotMemory result.0 → Leaves (λ after. evaluation recorded settings.now question.entry.path.now
        (map given_of question.entry.arguments.items) (seen (λ d. (d.0, d.1.items)) described) space ≡
        (seen given_of result.0, after)) result.1 }
{
    match described {
        Ok(description) => answer_over(alloc, description, settings, question, space),
        Err(refusal) => (Err(refusal), wanted_of(&space)),
    }
}

/// An evaluation over a record, from its first entry on.
fn ending(
    alloc: Global,
    described: Result<Description>,
    settings: &Settings,
    question: Question<'_>,
    entries: &[Exchange],
) -> Ending<Datum>
    ensures { NotOutOfMemory result → IsEvaluatedOver settings.now question.entry.path.now
        (map given_of question.entry.arguments.items) (seen (λ d. (d.0, d.1.items)) described) entries.now
        (seen_ending given_of result) }
{
    match Vec::from_slice(alloc, entries) {
        Ok(copy) => {
            let (outcome, missing) = evaluation(
                alloc,
                described,
                settings,
                question,
                Recorded::new(copy),
            );
            ending_of(outcome, missing)
        }
        Err(_) => Ending::Refused(Refusal::OutOfMemory),
    }
}

/// Loads the tables of a machine text, initializes the machine, and evaluates an object (ACPI 6.5, 5.5.2), where each
/// access of a register is answered from a record, as `configure_recorded` does it. `dry` and `kernel` of the settings
/// count for nothing.
///
/// Refused are the machine text, its tables, their loading, initializing, then the text of the path, and the
/// evaluation, but only where the record held every access until then. `Refused(OutOfMemory)` where memory ran out; a
/// call with the same record may then be made again.
///
/// ```
/// let question = Question { path: b"\\_SB_.PCI0._BBN", arguments: Vec::new(alloc) };
/// match evaluate_recorded(alloc, text, &settings, question, record.as_slice()) {
///     Ending::Wanted(wanted) if wanted.entry < record.len() => return Err(another_record()),
///     Ending::Wanted(wanted) => record.push(made_on_the_hardware(wanted.access))?,
///     Ending::Done(value) => return Ok(value),
///     Ending::Refused(refusal) => return Err(refusal),
/// }
/// ```
pub fn evaluate_recorded(
    alloc: Global,
    text: &[u8],
    settings: &Settings,
    question: Question<'_>,
    entries: &[Exchange],
) -> Ending<Datum>
    ensures { NotOutOfMemory result → IsEvaluated settings.now question.entry.path.now
        (map given_of question.entry.arguments.items) text.now entries.now (seen_ending given_of result) }
{
    let description = described(alloc, text);
    ending(alloc, description, settings, question, entries)
}

/// Evaluates an object of a machine whose tables stand in memory, as `evaluate_recorded` does of that of a machine
/// text.
pub fn evaluate_tables_recorded(
    alloc: Global,
    tables: &TablesInMemory<'_>,
    settings: &Settings,
    question: Question<'_>,
    entries: &[Exchange],
) -> Ending<Datum>
    ensures { NotOutOfMemory result → IsEvaluatedOfTables settings.now question.entry.path.now
        (map given_of question.entry.arguments.items) tables.now.rsdp tables.now.parts.now tables.now.osi.now
        entries.now (seen_ending given_of result) }
{
    let description = described_tables(alloc, tables);
    ending(alloc, description, settings, question, entries)
}
