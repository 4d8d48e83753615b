//! `route`: loads and initializes a machine, routes its interrupts, sets its links, and writes the report.
ghost use Rattle.std.specs.Prelude.{◌≡◌, ◌++◌, Ok, IfOk};
ghost use Rattle.std.specs.List.{list_any};
ghost use Rattle.ar_space.specs.Outcome.{Answers, NotMemory};
ghost use Rattle.route_report.specs.Readable.{IsReadable, claim_of_report};
ghost use Rattle.route_report.specs.Reading.{claim_of_text};
ghost use Rattle.acpiroute_shell.specs.PassedLines.{passed_lines};
ghost use Rattle.acpiroute_lib.specs.Passed.{run_passed};
ghost use Rattle.acpiroute_lib.specs.RouteCommand.{is_refused, completion_of, printed, IsRouted, IsRouteAnswer};

use crate::machine::{Registers, machine_of_text_in};
use acpi_configure::{Options, configure_with};
use acpi_machine::Machine;
use acpiroute_shell::{Answer, Completion, Evaluation};
use ar_space::Result;
use route_report::{Mode, Report, SetLine, SetOutcome, print};
use std::alloc::Global;

/// How a run came out that set these links.
pub fn completion_of(sets: &[SetLine]) -> Completion
    ensures { result ≡ completion_of sets.now }
{
    if any_refused(sets) {
        Completion::SettingRefused
    } else {
        Completion::Done
    }
}

fn any_refused(sets: &[SetLine]) -> bool
    ensures { result ≡ list_any (λ line. is_refused line.outcome) sets.now }
{
    sets.iter().any(|line| is_refused(line.outcome))
}

fn is_refused(outcome: SetOutcome) -> bool
    ensures { result ≡ is_refused outcome }
{
    match outcome {
        SetOutcome::Done => false,
        SetOutcome::NoSetting => false,
        SetOutcome::Refused(_) => true,
    }
}

/// What `route` answers of a report: its text, and whether a setting was refused.
pub fn report_answer(alloc: Global, report: &Report) -> Result<Answer>
    ensures text { Answers result (Ok (printed report.now)) }
    ensures read_back { IfOk result (λ w. IsReadable report.now →
        claim_of_text w.text ≡ Ok (claim_of_report report.now)) }
{
    Ok(Answer {
        text: print(alloc, report)?,
        completion: completion_of(&report.sets),
    })
}

/// The report of a machine, whose links are set by these options.
#[tactic(auto, using(crate::proofs::Routes::routing))]
fn routed(alloc: Global, machine: &mut Machine<Registers>, options: &Options<'_>) -> Result<Answer>
    ensures { NotMemory result → IsRouted options.now machine.old result }
{
    let report = configure_with(alloc, machine, options)?;
    report_answer(alloc, &report)
}

/// What `route` answers over a machine text, in a mode, its AML evaluated like this, and with options: its report.
/// Refused are the machine text, its tables, their loading, initializing, and then what the report has to find.
#[tactic(auto, using(crate::proofs::Routes::routing))]
pub(crate) fn route_answer(
    alloc: Global,
    mode: Mode,
    evaluation: Evaluation,
    options: &Options<'_>,
    text: Vec<u8>,
    told: &mut Vec<u8>,
) -> Result<Answer>
    ensures answer { NotMemory result → IsRouteAnswer mode evaluation options.now text.items result }
    ensures told { NotMemory result → told.new.items ≡ told.old.items ++
        passed_lines (run_passed mode evaluation text.items) }
{
    let mut machine = machine_of_text_in(alloc, mode, evaluation, text, told)?;
    let report = routed(alloc, &mut machine, options);
    // (by a call: what a scope drops at its end is dropped part by part, and long to prove)
    drop(machine);
    report
}
