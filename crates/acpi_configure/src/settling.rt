//! Links are set, and then what each of them is set to is read (ACPI 6.5, 6.2.16 and 6.2.2).
ghost use Rattle.std.specs.Prelude.{◌≡◌, ◌≢◌, ◌++◌, ◌∷◌, [], false, Ok, Err, IfErr, Contains, length, map, option_map};
ghost use Rattle.std.specs.List.{AllZip};
ghost use Rattle.ar_space.specs.declared.refusal.Refusal.{Refusal};
ghost use Rattle.ar_space.specs.declared.refusal.Refusal.TheVariants.{OutOfMemory};
ghost use Rattle.ar_space.specs.Outcome.{NotMemory, Answers, seen};
ghost use Rattle.ar_space.specs.Change.{Does};
ghost use Rattle.acpi_machine.specs.Stops.{AllOrNone};
ghost use Rattle.route_report.specs.Reports.{after_state};
ghost use Rattle.acpi_links.specs.Resources.{current_resources};
ghost use Rattle.acpi_links.specs.Settings.{resources_set};
ghost use Rattle.acpi_configure.specs.Settling.{attempted, set_told, state_told, link_set, links_set, link_read};
ghost use Rattle.acpi_configure.specs.Settling.{links_read, settled, settled_unless};
ghost use Rattle.acpi_configure.specs.Stops.{StopsInSets, StopsInReads, StopsInSettling};

use crate::link_lines::numbers_now;
use acpi_links::{PresentLink, get_current_resources, set_current_resources};
use acpi_machine::Machine;
use acpi_resources::InterruptNumbers;
use aml_path::Path;
use ar_space::{Refusal, Result, Space};
use route_report::{After, AfterLine, SetLine, SetOutcome};
use std::alloc::Global;

/// What came of setting the links, and what they are set to then.
pub(crate) type Settings = (Vec<SetLine>, Vec<AfterLine>);

/// Sets each of some links to the interrupt that it is given, and then reads what each is set to; neither where no
/// link is to be set. Only want of memory refuses it: any other refusal is told in the line of its link, and the next
/// link follows.
#[tactic(auto, using(acpi_machine::proofs::Stopping::evaluating), unfolding(crate::specs::Settling::settled_unless))]
pub(crate) fn settle_unless<S: Space>(
    alloc: Global,
    machine: &mut Machine<S>,
    dry: bool,
    links: &[PresentLink],
    choice: &[u32],
) -> Result<Settings>
    requires each { length choice.now ≡ length links.now }
    requires offered { AllZip Contains (map (λ link. link.1.numbers) links.now) choice.now }
    ensures value { Does (seen (λ x. (x.0.items, x.1.items)) result) machine.new
        (settled_unless S.accesses dry links.now choice.now) machine.old }
    ensures evaluated { StopsInSettling S.accesses dry links.now choice.now machine.old machine.new }
    ensures memory { IfErr result (λ refusal. refusal ≡ OutOfMemory) }
{
    match dry {
        true => Ok((Vec::new(alloc), Vec::new(alloc))),
        false => settle(alloc, machine, links, choice),
    }
}

#[tactic(auto, using(ar_space::proofs::Changes::changing), unfolding(crate::specs::Settling::settled))]
fn settle<S: Space>(
    alloc: Global,
    machine: &mut Machine<S>,
    links: &[PresentLink],
    choice: &[u32],
) -> Result<Settings>
    requires each { length choice.now ≡ length links.now }
    requires offered { AllZip Contains (map (λ link. link.1.numbers) links.now) choice.now }
    ensures value { Does (seen (λ x. (x.0.items, x.1.items)) result) machine.new
        (settled S.accesses links.now choice.now) machine.old }
    ensures evaluated { StopsInSettling S.accesses false links.now choice.now machine.old machine.new }
    ensures memory { IfErr result (λ refusal. refusal ≡ OutOfMemory) }
{
    let sets = set_links(alloc, machine, links, choice)?;
    let afters = read_links(alloc, machine, links)?;
    Ok((sets, afters))
}

/// Each link is set to the interrupt that it is given, in the order of the links.
fn set_links<S: Space>(
    alloc: Global,
    machine: &mut Machine<S>,
    links: &[PresentLink],
    choice: &[u32],
) -> Result<Vec<SetLine>>
    requires each { length choice.now ≡ length links.now }
    requires offered { AllZip Contains (map (λ link. link.1.numbers) links.now) choice.now }
    ensures value { Does (seen (λ list. list.items) result) machine.new
        (links_set S.accesses links.now choice.now []) machine.old }
    ensures evaluated { StopsInSets S.accesses links.now choice.now machine.old machine.new }
    ensures memory { IfErr result (λ refusal. refusal ≡ OutOfMemory) }
{
    let mut list = Vec::new(alloc);
    for (i, link) in links.iter().enumerate() {
        let line = set_link(alloc, machine, link, choice[i])?;
        list.push(line)?;
    }
    Ok(list)
}

/// One link is set, and what came of it is told.
#[tactic(auto, using(ar_space::proofs::Changes::changing), unfolding(crate::specs::Settling::link_set))]
fn set_link<S: Space>(
    alloc: Global,
    machine: &mut Machine<S>,
    link: &PresentLink,
    number: u32,
) -> Result<SetLine>
    requires { Contains link.now.1.numbers number }
    ensures value { Does result machine.new (link_set S.accesses link.now number) machine.old }
    ensures evaluated { AllOrNone (link_set S.accesses link.now number) machine.old machine.new }
    ensures memory { IfErr result (λ refusal. refusal ≡ OutOfMemory) }
{
    let outcome = try_to_set(alloc, machine, link, number)?;
    set_line(alloc, &link.0, outcome)
}

#[tactic(auto, using(crate::proofs::Settled::does_attempted))]
fn try_to_set<S: Space>(
    alloc: Global,
    machine: &mut Machine<S>,
    link: &PresentLink,
    number: u32,
) -> Result<SetOutcome>
    requires { Contains link.now.1.numbers number }
    ensures value { Does result machine.new
        (attempted set_told (resources_set S.accesses link.now.0 link.now.1 number)) machine.old }
    ensures evaluated { AllOrNone (attempted set_told (resources_set S.accesses link.now.0 link.now.1 number))
        machine.old machine.new }
    ensures memory { IfErr result (λ refusal. refusal ≡ OutOfMemory) }
{
    let outcome = set_current_resources(alloc, machine, &link.0, &link.1, number);
    set_outcome(outcome)
}

fn set_line(alloc: Global, path: &Path, outcome: SetOutcome) -> Result<SetLine>
    ensures value { Answers result (Ok (record { path = path.now; outcome = outcome })) }
    ensures memory { IfErr result (λ refusal. refusal ≡ OutOfMemory) }
{
    Ok(SetLine {
        path: path.copy(alloc)?,
        outcome,
    })
}

/// What is told of setting a link; want of memory is no outcome.
fn set_outcome(outcome: Result<bool>) -> Result<SetOutcome>
    ensures told { NotMemory outcome → Answers result (Ok (set_told outcome)) }
    ensures plain { NotMemory outcome → NotMemory result }
    ensures memory { outcome ≡ Err OutOfMemory → result ≡ Err OutOfMemory }
    ensures only { IfErr result (λ refusal. refusal ≡ OutOfMemory) }
{
    match outcome {
        Ok(true) => Ok(SetOutcome::Done),
        Ok(false) => Ok(SetOutcome::NoSetting),
        Err(Refusal::OutOfMemory) => Err(Refusal::OutOfMemory),
        Err(refusal) => Ok(SetOutcome::Refused(refusal.number())),
    }
}

/// What each link is set to, in the order of the links.
fn read_links<S: Space>(
    alloc: Global,
    machine: &mut Machine<S>,
    links: &[PresentLink],
) -> Result<Vec<AfterLine>>
    ensures value { Does (seen (λ list. list.items) result) machine.new (links_read S.accesses links.now) machine.old }
    ensures evaluated { StopsInReads S.accesses links.now machine.old machine.new }
    ensures memory { IfErr result (λ refusal. refusal ≡ OutOfMemory) }
{
    let mut list = Vec::new(alloc);
    for link in links {
        let line = read_link(alloc, machine, link)?;
        list.push(line)?;
    }
    Ok(list)
}

/// What one link is set to.
#[tactic(auto, using(ar_space::proofs::Changes::changing), unfolding(crate::specs::Settling::link_read))]
fn read_link<S: Space>(
    alloc: Global,
    machine: &mut Machine<S>,
    link: &PresentLink,
) -> Result<AfterLine>
    ensures value { Does result machine.new (link_read S.accesses link.now) machine.old }
    ensures evaluated { AllOrNone (link_read S.accesses link.now) machine.old machine.new }
    ensures memory { IfErr result (λ refusal. refusal ≡ OutOfMemory) }
{
    let state = try_to_read(alloc, machine, link)?;
    after_line(alloc, &link.0, state)
}

#[tactic(auto, using(crate::proofs::Settled::does_attempted))]
fn try_to_read<S: Space>(
    alloc: Global,
    machine: &mut Machine<S>,
    link: &PresentLink,
) -> Result<After>
    ensures value { Does (seen after_state result) machine.new (attempted state_told
        (current_resources S.accesses link.now.0)) machine.old }
    ensures evaluated { AllOrNone (attempted state_told (current_resources S.accesses link.now.0))
        machine.old machine.new }
    ensures memory { IfErr result (λ refusal. refusal ≡ OutOfMemory) }
{
    let state = get_current_resources(alloc, machine, &link.0);
    state_of(alloc, state)
}

pub(crate) fn after_line(alloc: Global, path: &Path, state: After) -> Result<AfterLine>
    ensures value { Answers result (Ok (record { path = path.now; state = after_state state })) }
    ensures memory { IfErr result (λ refusal. refusal ≡ OutOfMemory) }
{
    Ok(AfterLine {
        path: path.copy(alloc)?,
        state,
    })
}

/// What is told of reading a link; want of memory is no outcome.
pub(crate) fn state_of(alloc: Global, state: Result<Option<InterruptNumbers>>) -> Result<After>
    ensures told { NotMemory state → Answers (seen after_state result) (Ok (state_told state)) }
    ensures plain { (e : Refusal) → state ≡ Err e → e ≢ OutOfMemory → NotMemory (seen after_state result) }
    ensures memory { state ≡ Err OutOfMemory → seen after_state result ≡ Err OutOfMemory }
    ensures only { IfErr result (λ refusal. refusal ≡ OutOfMemory) }
{
    match state {
        Ok(now) => Ok(After::Now(numbers_now(alloc, &now)?)),
        Err(Refusal::OutOfMemory) => Err(Refusal::OutOfMemory),
        Err(refusal) => Ok(After::Refused(refusal.number())),
    }
}
