//! The links that are not set as they were to be, each with what explains it.
ghost use Rattle.std.specs.Prelude.{◌≡◌, ◌≢◌, ◌++◌, Contains, IfOk, IfErr, Ok, Err, length, map, zip};
ghost use Rattle.std.specs.List.{AllZip};
ghost use Rattle.ar_space.specs.Outcome.{NotMemory};
ghost use Rattle.ar_space.specs.declared.refusal.Refusal.TheVariants.{OutOfMemory};
ghost use Rattle.acpi_machine.specs.MachineStates.{sci_of};
ghost use Rattle.acpi_configure.specs.WithOptions.{found_by};
ghost use Rattle.watched_space.specs.Watching.{watched};
ghost use Rattle.acpi_explain.specs.declared.stage.Stage.TheVariants.{Setting, ReadingAgain};
ghost use Rattle.acpi_explain.specs.LinkLines.{refused_setting, unread_line, IsExplainedBy, IsToldBelow};
ghost use Rattle.acpi_explain.specs.LinkLines.{IsSetTold, IsLinkSet, IsReadTold, IsLinkRead, AreLinksToldUnless};
ghost use Rattle.acpi_explain.specs.LinkLines.{AreTold, AreLinksTold, AreLinksExplained};

use crate::explanation::Explanation;
use crate::link_lines::{put_refused_setting, put_unread, read_lines};
use crate::objects::copy_path;
use crate::stage::Stage;
use acpi_configure::{Choice, Options, choose_with};
use acpi_links::{PresentLink, get_current_resources, set_current_resources};
use acpi_machine::Machine;
use acpi_resources::InterruptNumbers;
use acpiroute_shell::Evaluation;
use aml_path::Path;
use ar_space::{Refusal, Result, Space};
use std::alloc::{AllocError, Global};
use watched_space::LastAccess;

/// The text of what explains a refusal that was just answered.
fn explained<S: Space>(
    alloc: Global,
    machine: &Machine<LastAccess<S>>,
    stage: Stage,
    refusal: Refusal,
    evaluation: Evaluation,
) -> Result<Vec<u8>, AllocError>
    ensures { IfOk result (λ text. IsExplainedBy S.accesses evaluation.steps stage refusal machine.now text.items) }
{
    let last = machine.space().last();
    let trace = machine.world().trace();
    let why = Explanation::new(alloc, refusal, Some(stage), last, trace, evaluation)?;
    Ok(why.text)
}

/// A refusal that isn't want of memory; that is handed on.
fn not_memory(refusal: Refusal) -> Result<Refusal, AllocError>
    ensures same { IfOk result (λ e. e ≡ refusal) }
    ensures other { IfOk result (λ _. refusal ≢ OutOfMemory) }
{
    match refusal {
        Refusal::OutOfMemory => Err(AllocError),
        _ => Ok(refusal),
    }
}

/// The lines of a link that refused its setting.
fn refused_setting_lines<S: Space>(
    alloc: Global,
    machine: &Machine<LastAccess<S>>,
    path: &Path,
    refusal: Refusal,
    evaluation: Evaluation,
) -> Result<Vec<u8>, AllocError>
    ensures told { IfOk result (λ text. IsToldBelow S.accesses evaluation.steps (refused_setting path.now)
        (Setting path.now) refusal machine.now text.items) }
    ensures other { IfOk result (λ _. refusal ≢ OutOfMemory) }
{
    let refusal = not_memory(refusal)?;
    let mut text = Vec::new(alloc);
    put_refused_setting(alloc, &mut text, path, refusal.number())?;
    let stage = Stage::Setting(copy_path(alloc, path)?);
    let below = explained(alloc, machine, stage, refusal, evaluation)?;
    text.extend_from_slice(&below)?;
    Ok(text)
}

/// The lines of a link that was set, by what came of that.
fn set_lines<S: Space>(
    alloc: Global,
    machine: &Machine<LastAccess<S>>,
    path: &Path,
    came: Result<bool>,
    evaluation: Evaluation,
) -> Result<Vec<u8>, AllocError>
    ensures told { IfOk result (λ text. IsSetTold S.accesses evaluation.steps path.now came machine.now text.items) }
    ensures plain { IfOk result (λ _. NotMemory came) }
{
    match came {
        Ok(_) => Ok(Vec::new(alloc)),
        Err(refusal) => refused_setting_lines(alloc, machine, path, refusal, evaluation),
    }
}

/// Sets a link to the interrupt that it is given; the lines where it refuses that.
fn set_link<S: Space>(
    alloc: Global,
    machine: &mut Machine<LastAccess<S>>,
    link: &PresentLink,
    number: u32,
    evaluation: Evaluation,
) -> Result<Vec<u8>, AllocError>
    requires { Contains link.now.1.numbers number }
    ensures { IfOk result (λ text. IsLinkSet S.accesses evaluation.steps (link.now, number) machine.old machine.new
        text.items) }
{
    let came = set_current_resources(alloc, machine, &link.0, &link.1, number);
    set_lines(alloc, machine, &link.0, came, evaluation)
}

/// The lines of a link that was given an interrupt and refused to be read.
fn unread_lines<S: Space>(
    alloc: Global,
    machine: &Machine<LastAccess<S>>,
    given: u32,
    path: &Path,
    refusal: Refusal,
    evaluation: Evaluation,
) -> Result<Vec<u8>, AllocError>
    ensures told { IfOk result (λ text. IsToldBelow S.accesses evaluation.steps (unread_line given path.now)
        (ReadingAgain path.now) refusal machine.now text.items) }
    ensures other { IfOk result (λ _. refusal ≢ OutOfMemory) }
{
    let refusal = not_memory(refusal)?;
    let mut text = Vec::new(alloc);
    put_unread(alloc, &mut text, given, path, refusal.number())?;
    let stage = Stage::ReadingAgain(copy_path(alloc, path)?);
    let below = explained(alloc, machine, stage, refusal, evaluation)?;
    text.extend_from_slice(&below)?;
    Ok(text)
}

/// The lines of a link that was read, by what came of that.
fn read_back_lines<S: Space>(
    alloc: Global,
    machine: &Machine<LastAccess<S>>,
    given: u32,
    path: &Path,
    came: Result<Option<InterruptNumbers>>,
    evaluation: Evaluation,
) -> Result<Vec<u8>, AllocError>
    ensures told { IfOk result (λ text. IsReadTold S.accesses evaluation.steps given path.now came machine.now
        text.items) }
    ensures plain { IfOk result (λ _. NotMemory came) }
{
    match came {
        Ok(now) => read_lines(alloc, given, path, &now),
        Err(refusal) => unread_lines(alloc, machine, given, path, refusal, evaluation),
    }
}

/// Reads what a link is set to; the lines where that is refused, or is something else than it was given.
fn read_link<S: Space>(
    alloc: Global,
    machine: &mut Machine<LastAccess<S>>,
    link: &PresentLink,
    number: u32,
    evaluation: Evaluation,
) -> Result<Vec<u8>, AllocError>
    ensures { IfOk result (λ text. IsLinkRead S.accesses evaluation.steps (link.now, number) machine.old machine.new
        text.items) }
{
    let came = get_current_resources(alloc, machine, &link.0);
    read_back_lines(alloc, machine, number, &link.0, came, evaluation)
}

/// Sets links, each to the interrupt that it is given.
fn set_links<S: Space>(
    alloc: Global,
    machine: &mut Machine<LastAccess<S>>,
    links: &[PresentLink],
    choice: &[u32],
    evaluation: Evaluation,
) -> Result<Vec<u8>, AllocError>
    requires each { length choice.now ≡ length links.now }
    requires offered { AllZip Contains (map (λ link. link.1.numbers) links.now) choice.now }
    ensures { IfOk result (λ text. AreTold (IsLinkSet S.accesses evaluation.steps) (zip links.now choice.now)
        machine.old machine.new text.items) }
{
    let mut text = Vec::new(alloc);
    for (i, link) in links.iter().enumerate() {
        let lines = set_link(alloc, machine, link, choice[i], evaluation)?;
        text.extend_from_slice(&lines)?;
    }
    Ok(text)
}

/// Reads what links are set to.
fn read_links<S: Space>(
    alloc: Global,
    machine: &mut Machine<LastAccess<S>>,
    links: &[PresentLink],
    choice: &[u32],
    evaluation: Evaluation,
) -> Result<Vec<u8>, AllocError>
    requires each { length choice.now ≡ length links.now }
    ensures { IfOk result (λ text. AreTold (IsLinkRead S.accesses evaluation.steps) (zip links.now choice.now)
        machine.old machine.new text.items) }
{
    let mut text = Vec::new(alloc);
    for (i, link) in links.iter().enumerate() {
        let lines = read_link(alloc, machine, link, choice[i], evaluation)?;
        text.extend_from_slice(&lines)?;
    }
    Ok(text)
}

/// Sets all links, and then reads what they are set to.
fn link_texts<S: Space>(
    alloc: Global,
    machine: &mut Machine<LastAccess<S>>,
    links: &[PresentLink],
    choice: &[u32],
    evaluation: Evaluation,
) -> Result<Vec<u8>, AllocError>
    requires each { length choice.now ≡ length links.now }
    requires offered { AllZip Contains (map (λ link. link.1.numbers) links.now) choice.now }
    ensures { IfOk result (λ text. AreLinksTold S.accesses evaluation.steps (zip links.now choice.now) machine.old
        machine.new text.items) }
{
    let mut text = set_links(alloc, machine, links, choice, evaluation)?;
    let reads = read_links(alloc, machine, links, choice, evaluation)?;
    text.extend_from_slice(&reads)?;
    Ok(text)
}

/// The lines of the links of a choice; none in a dry run.
fn choice_texts<S: Space>(
    alloc: Global,
    machine: &mut Machine<LastAccess<S>>,
    dry: bool,
    choice: &Choice,
    evaluation: Evaluation,
) -> Result<Vec<u8>, AllocError>
    requires each { length choice.now.answer.choice ≡ length choice.now.gathered.links }
    requires offered { AllZip Contains (map (λ link. link.1.numbers) choice.now.gathered.links)
        choice.now.answer.choice }
    ensures { IfOk result (λ text. AreLinksToldUnless S.accesses evaluation.steps dry
        (zip choice.now.gathered.links choice.now.answer.choice) machine.old machine.new text.items) }
{
    match dry {
        true => Ok(Vec::new(alloc)),
        false => link_texts(
            alloc,
            machine,
            choice.gathered.links(),
            &choice.answer.choice,
            evaluation,
        ),
    }
}

/// Makes the run of `acpi_configure::configure_with` step by step, and gives the lines of `why` for it: a line for each
/// link that refused its setting, whose `_CRS` was refused then, or that reads back something else than it was given.
/// Below that line stands what explains it, as `Explanation` has it. A link that is set as it was to be has no line; in
/// a dry run none has. `evaluation` is what the machine was loaded with: its steps and its profile stand in the lines.
///
/// ```
/// // a machine that was loaded over a `LastAccess`
/// machine.initialize(alloc, Mode::Apic)?;
/// let lines = explain_links(alloc, &mut machine, &options, evaluation)?;
/// ```
pub fn explain_links<S: Space>(
    alloc: Global,
    machine: &mut Machine<LastAccess<S>>,
    options: &Options<'_>,
    evaluation: Evaluation,
) -> Result<Vec<u8>>
    ensures lines { IfOk result (λ text. AreLinksExplained S.accesses evaluation.steps options.now machine.old
        machine.new text.items) }
    ensures refusal { IfErr result (λ refusal. refusal ≢ OutOfMemory →
        found_by (watched S.accesses) options.now (sci_of machine.old) machine.old ≡ (Err refusal, machine.new)) }
{
    let choice = choose_with(alloc, machine, options)?;
    let text = choice_texts(alloc, machine, options.dry, &choice, evaluation);
    // (by a call: what a scope drops at its end is dropped part by part, and long to prove)
    drop(choice);
    Ok(text?)
}
