//! What a run finds and chooses, before it sets a link.
ghost use Rattle.std.specs.Prelude.{◌≡◌, ◌≢◌, Contains, Ok, Err, IfOk, IfErr, length, map};
ghost use Rattle.std.specs.List.{AllZip};
ghost use Rattle.ar_space.specs.declared.refusal.Refusal.TheVariants.{OutOfMemory};
ghost use Rattle.acpi_machine.specs.MachineStates.{sci_of};
ghost use Rattle.acpi_configure.specs.Stops.{StopsInFinding};
ghost use Rattle.acpi_configure.specs.WithOptions.{found_by, IsChoice};

use crate::choosing::choose;
use crate::finding::{Found, find};
use crate::options::Options;
use acpi_links::Gathered;
use acpi_machine::Machine;
use ar_space::{Result, Space};
use route_solve::Answer;
use std::alloc::Global;

/// What a run finds and chooses, before it sets a link.
#[derive(Debug, Drop)]
pub struct Choice {
    /// The links and pins that were found, and the routing problem that they pose.
    pub gathered: Gathered,
    /// The answer to that problem: the interrupt of each link, in the order of the links.
    pub answer: Answer,
}

/// Finds and chooses what `configure_with` does by these options, sets no link, and makes no report. Whoever sets the
/// links then by `acpi_links::set_current_resources`, in their order, and reads them by
/// `acpi_links::get_current_resources`, makes the run of `configure_with` step by step, and sees each refusal.
///
/// ```
/// let choice = choose_with(alloc, &mut machine, &options)?;
/// for (i, link) in choice.gathered.links().iter().enumerate() {
///     let set = set_current_resources(alloc, &mut machine, &link.0, &link.1, choice.answer.choice[i]);
/// }
/// ```
pub fn choose_with<S: Space>(
    alloc: Global,
    machine: &mut Machine<S>,
    options: &Options<'_>,
) -> Result<Choice>
    ensures choice { IfOk result (λ c. IsChoice S.accesses options.now machine.old machine.new c.gathered c.answer) }
    ensures evaluated { StopsInFinding S.accesses options.now machine.old machine.new }
    ensures each { IfOk result (λ c. length c.answer.choice ≡ length c.gathered.links) }
    ensures offered { IfOk result (λ c. AllZip Contains (map (λ link. link.1.numbers) c.gathered.links)
        c.answer.choice) }
    ensures refusal { IfErr result (λ refusal. refusal ≢ OutOfMemory →
        found_by S.accesses options.now (sci_of machine.old) machine.old ≡ (Err refusal, machine.new)) }
{
    let sci = machine.sci();
    let found = find(alloc, machine, sci, options)?;
    let Found { asked, gathered } = found;
    drop(asked);
    let answer = choose(alloc, gathered.problem(), options.spread)?;
    Ok(Choice { gathered, answer })
}
