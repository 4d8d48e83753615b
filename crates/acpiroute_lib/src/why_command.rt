//! `why`: makes the run of `route` or `eval`, and tells what ended it.
ghost use Rattle.std.specs.Prelude.{◌≡◌, ◌++◌, IfOk, IfErr, OnOk, Ok, codes};
ghost use Rattle.ar_space.specs.Outcome.{NotMemory};
ghost use Rattle.ar_space.specs.declared.refusal.Refusal.TheVariants.{OutOfMemory};
ghost use Rattle.machine_text.specs.MachineText.{machine_text};
ghost use Rattle.acpiroute_shell.specs.ErrorLines.{error_line};
ghost use Rattle.acpiroute_lib.specs.WhyCommand.{told, IsStageFound, AreLinksFound, IsExplained, IsListed};
ghost use Rattle.acpiroute_lib.specs.WhyCommand.{IsWhy, IsRegisters};
ghost use Rattle.acpiroute_lib.specs.WhyCommand.{IsWhyAnswer, IsRegistersAnswer};

use crate::link_lines::link_lines;
use crate::place_words::missing_lines;
use crate::refused_stage::stage_when_refused;
use crate::run_end::RunEnd;
use crate::watched_run::{filled_run, watched_run};
use acpi_explain::Explanation;
use acpiroute_shell::{Answer, Asking, Completion, write_error_line};
use aml_world::Trace;
use ar_space::{Place, Refusal, Result};
use machine_text::{MachineText, read_machine};
use std::alloc::{AllocError, Global};
use watched_space::Accessed;

fn told(text: Vec<u8>) -> Answer
    ensures { result ≡ told text.items }
{
    Answer {
        text,
        completion: Completion::Done,
    }
}

/// That a run isn't refused, and behind that the lines of its links.
fn done(alloc: Global, lines: &[u8]) -> Result<Answer, AllocError>
    ensures { IfOk result (λ w. w ≡ told (codes "not refused\n" ++ lines.now)) }
{
    let mut text = Vec::from_slice(alloc, b"not refused\n")?;
    text.extend_from_slice(lines)?;
    Ok(told(text))
}

/// The lines of how a run over a machine text ended. Want of memory is told in none.
#[tactic(auto, using(crate::proofs::Telling::telling))]
fn explained(
    alloc: Global,
    asking: &Asking,
    end: RunEnd,
    last: Option<Accessed>,
    trace: &Trace,
    text: &[u8],
) -> Result<Answer>
    ensures memory { IfErr result (λ refusal. refusal ≡ OutOfMemory) }
    ensures lines { IfOk result (IsExplained asking.now.evaluation.steps
        (λ phase e. IsStageFound asking.now phase text.now) (AreLinksFound asking.now text.now) end last) }
{
    match end {
        RunEnd::Refused(_, Refusal::OutOfMemory) => Err(Refusal::OutOfMemory),
        RunEnd::Refused(phase, refusal) => {
            let stage = stage_when_refused(alloc, asking, phase, text)?;
            let why = Explanation::new(alloc, refusal, stage, last, trace, asking.evaluation)?;
            Ok(told(why.text))
        }
        RunEnd::Done(report) => {
            drop(report);
            let lines = link_lines(alloc, asking, text)?;
            Ok(done(alloc, &lines)?)
        }
    }
}

/// What ended the run over what a machine text says.
#[tactic(auto, using(crate::proofs::Telling::telling))]
fn why(alloc: Global, asking: &Asking, said: MachineText, text: &[u8]) -> Result<Answer>
    ensures memory { IfErr result (λ refusal. refusal ≡ OutOfMemory) }
    ensures lines { IfOk result (λ w. machine_text text.now ≡ Ok said → IsWhy asking.now said w) }
{
    let (end, last, trace) = watched_run(alloc, asking, said);
    let answer = explained(alloc, asking, end, last, &trace, text);
    // (by a call: what a scope drops at its end is dropped part by part, and long to prove)
    drop(trace);
    answer
}

/// The line of a refusal, put behind a text.
fn put_refusal(text: &mut Vec<u8>, refusal: &Refusal) -> Result<(), AllocError>
    ensures { OnOk result (text.new.items ≡ text.old.items ++ error_line refusal.now) }
{
    match write_error_line(text, refusal) {
        Ok(()) => Ok(()),
        Err(_) => Err(AllocError),
    }
}

/// Lines, and behind them that the run is refused with 0 there.
fn refused_behind(text: Vec<u8>, refusal: &Refusal) -> Result<Answer, AllocError>
    ensures { IfOk result (λ w. w ≡ told (text.items ++ (codes "# with 0 there: " ++ error_line refusal.now))) }
{
    let mut text = text;
    text.extend_from_slice(b"# with 0 there: ")?;
    put_refusal(&mut text, refusal)?;
    Ok(told(text))
}

/// Lines, and behind them that the run isn't refused with 0 there.
fn done_behind(text: Vec<u8>) -> Result<Answer, AllocError>
    ensures { IfOk result (λ w. w ≡ told (text.items ++ codes "# with 0 there: not refused\n")) }
{
    let mut text = text;
    text.extend_from_slice(b"# with 0 there: not refused\n")?;
    Ok(told(text))
}

/// The lines of missing bytes, and behind them how the run ended. Want of memory is told in none.
fn listed(alloc: Global, end: RunEnd, places: &[Place]) -> Result<Answer>
    ensures memory { IfErr result (λ refusal. refusal ≡ OutOfMemory) }
    ensures lines { IfOk result (IsListed end places.now) }
{
    let text = missing_lines(alloc, places)?;
    match end {
        RunEnd::Refused(_, Refusal::OutOfMemory) => Err(Refusal::OutOfMemory),
        RunEnd::Refused(_, refusal) => Ok(refused_behind(text, &refusal)?),
        RunEnd::Done(report) => {
            drop(report);
            Ok(done_behind(text)?)
        }
    }
}

/// The lines of all bytes that what a machine text says lacks for the run.
#[tactic(auto, using(crate::proofs::Telling::telling))]
fn registers(alloc: Global, asking: &Asking, said: MachineText) -> Result<Answer>
    ensures memory { IfErr result (λ refusal. refusal ≡ OutOfMemory) }
    ensures lines { IfOk result (IsRegisters asking.now said) }
{
    let (end, places) = filled_run(alloc, asking, said)?;
    listed(alloc, end, places.as_slice())
}

/// What `why` answers over a machine text: what ended the run. Only the machine text itself is refused.
#[tactic(auto, using(crate::proofs::Telling::telling))]
pub(crate) fn why_answer(alloc: Global, asking: &Asking, text: &[u8]) -> Result<Answer>
    ensures { NotMemory result → IsWhyAnswer asking.now text.now result }
{
    let said = read_machine(alloc, text)?;
    why(alloc, asking, said, text)
}

/// What `why --registers` answers over a machine text: which registers are missing for the run.
#[tactic(auto, using(crate::proofs::Telling::telling))]
pub(crate) fn registers_answer(alloc: Global, asking: &Asking, text: &[u8]) -> Result<Answer>
    ensures { NotMemory result → IsRegistersAnswer asking.now text.now result }
{
    let said = read_machine(alloc, text)?;
    registers(alloc, asking, said)
}
