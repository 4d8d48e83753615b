//! Gathers, chooses, sets, reports.
ghost use Rattle.std.specs.Prelude.{◌≡◌, ◌≢◌, ◌<◌, ◌≤◌, All, Contains, Ok, Err, IfOk, IfErr, length, map};
ghost use Rattle.ar_space.specs.declared.refusal.Refusal.TheVariants.{OutOfMemory};
ghost use Rattle.std.specs.List.{AllZip};
ghost use Rattle.ar_space.specs.Outcome.{Answers, seen};
ghost use Rattle.ar_space.specs.Change.{Does};
ghost use Rattle.acpi_links.specs.Gatherings.{gathered};
ghost use Rattle.acpi_machine.specs.MachineStates.{sci_of};
ghost use Rattle.route_report.specs.Readable.{IsReadableOffer};
ghost use Rattle.acpi_configure.specs.Configured.{report_of, with_settings, IsReport};
ghost use Rattle.acpi_configure.specs.Settling.{settled_unless};
ghost use Rattle.acpi_configure.specs.Stops.{StopsInSettling, StopsInRun, StopsInRunWith};
ghost use Rattle.acpi_configure.specs.WithOptions.{found_by, with_options, all_lines, IsReportWith};

use crate::choosing::{answer_to, choose};
use crate::chosen_lines::{bound_for, gives_of};
use crate::finding::{Found, find};
use crate::link_lines::link_lines;
use crate::madt_lines::madt_lines;
use crate::options::Options;
use crate::other_lines::option_lines;
use crate::pin_lines::pin_lines;
use crate::settling::{Settings, settle_unless};
use acpi_links::laws::{
    as_many_sources_are_wired_as_pins, pins_are_counted_in_order, the_numbers_of_a_set_ascend,
};
use acpi_links::{Gathered, gather, pin_counts, set_of};
use acpi_machine::Machine;
use ar_space::{Result, Space};
use route_check::laws::an_assignment_with_its_bound_is_valid;
use route_report::laws::{a_claim_in_order_stays, the_claim_of_an_assignment_is_in_order};
use route_report::{OptionLines, Report};
use route_solve::Answer;
use std::alloc::Global;

/// Chooses an interrupt for each link device of a machine, none of those to `avoid`, sets the links unless `dry`, and
/// reports what was found, chosen and set.
///
/// What is found is what `gather` gives, and its refusals are handed on. Sources are the present links, the pins that
/// are wired to an interrupt, and the System Control Interrupt: `Machine::sci`. The choice is the first of the
/// assignments whose busiest interrupt serves the fewest sources: compared link by link in path order, the smaller
/// interrupt first. The bound is the set of links and interrupts that shows why none is less busy; there is none
/// where no interrupt serves a source.
///
/// Then each present link is set in path order, as `set_current_resources` does it, and after that what each is set
/// to is read, as `get_current_resources` does it. Each has a line of its own in the report, with the number of the
/// refusal where it is refused: the next link follows. Only want of memory ends the run then. A dry report has none
/// of these lines.
///
/// The text of the report can be read back; what it claims then is just this answer, and `route_check::check` says
/// that the claim is valid.
///
/// ```
/// machine.initialize(alloc, Mode::Apic)?;
/// let report = configure(alloc, &mut machine, false, &[3, 4])?;
/// let text = route_report::print(alloc, &report)?;
/// ```
pub fn configure<S: Space>(
    alloc: Global,
    machine: &mut Machine<S>,
    dry: bool,
    avoid: &[u32],
) -> Result<Report>
    ensures report { IfOk result (λ report. IsReport S.accesses dry avoid.now machine.old machine.new report) }
    ensures evaluated { StopsInRun S.accesses dry avoid.now machine.old machine.new }
    ensures refusal { IfErr result (λ refusal. refusal ≢ OutOfMemory →
        gathered S.accesses avoid.now machine.old ≡ (Err refusal, machine.new)) }
{
    let sci = machine.sci();
    let gathered = gather(alloc, machine, avoid)?;
    let answer = answer_to(alloc, gathered.problem())?;
    // the laws that the claim of the report rests on
    an_assignment_with_its_bound_is_valid();
    the_claim_of_an_assignment_is_in_order();
    a_claim_in_order_stays();
    as_many_sources_are_wired_as_pins();
    pins_are_counted_in_order();
    the_numbers_of_a_set_ascend();
    let report = report_of(alloc, machine, sci, avoid, &gathered, &answer)?;
    let settings = settle_answer(alloc, machine, dry, &gathered, &answer)?;
    Ok(with_settings(report, settings))
}

/// Finds, chooses, sets and reports what options ask for, but for the lines for a kernel.
pub(crate) fn configure_plainly<S: Space>(
    alloc: Global,
    machine: &mut Machine<S>,
    options: &Options<'_>,
) -> Result<Report>
    ensures report { IfOk result (λ report. IsReportWith S.accesses options.now machine.old machine.new report) }
    ensures evaluated { StopsInRunWith S.accesses options.now machine.old machine.new }
    ensures refusal { IfErr result (λ refusal. refusal ≢ OutOfMemory →
        found_by S.accesses options.now (sci_of machine.old) machine.old ≡ (Err refusal, machine.new)) }
{
    let sci = machine.sci();
    let found = find(alloc, machine, sci, options)?;
    let answer = choose(alloc, found.gathered.problem(), options.spread)?;
    // the laws that the claim of the report rests on
    an_assignment_with_its_bound_is_valid();
    the_claim_of_an_assignment_is_in_order();
    a_claim_in_order_stays();
    as_many_sources_are_wired_as_pins();
    pins_are_counted_in_order();
    the_numbers_of_a_set_ascend();
    let report = all_lines(alloc, machine, sci, options, &found, &answer)?;
    let settings = settle_answer(alloc, machine, options.dry, &found.gathered, &answer)?;
    Ok(with_settings(report, settings))
}

/// The report of what was found and chosen, with what options add, without the lines of what was set.
fn all_lines<S: Space>(
    alloc: Global,
    machine: &Machine<S>,
    sci: Option<u32>,
    options: &Options<'_>,
    found: &Found,
    answer: &Answer,
) -> Result<Report>
    requires pins { length found.now.gathering.pins ≤ 4096 }
    requires each { length answer.now.choice ≡ length found.now.gathering.problem.links }
    requires placed { All (λ k. k < length found.now.gathering.problem.links) answer.now.links }
    ensures lines { Answers result (Ok (all_lines options.now machine.now sci found.now answer.now)) }
    ensures offers { IfOk result (λ report. All (λ l. IsReadableOffer l.offers) report.links) }
{
    let lines = option_lines(alloc, options.spare, options.spread, &found.asked)?;
    let report = report_of(alloc, machine, sci, options.avoid, &found.gathered, answer)?;
    Ok(with_options(report, lines))
}

/// A report with what options add.
fn with_options(report: Report, options: Option<OptionLines>) -> Report
    ensures { result ≡ with_options report options }
{
    Report { options, ..report }
}

/// A report with what came of setting the links, and what they are set to then.
fn with_settings(report: Report, settings: Settings) -> Report
    ensures { result ≡ with_settings report (settings.0.items, settings.1.items) }
{
    let (sets, afters) = settings;
    Report {
        sets,
        afters,
        ..report
    }
}

/// Sets each link that was gathered to its interrupt of an answer, and reads what each is set to, unless the run is
/// dry.
fn settle_answer<S: Space>(
    alloc: Global,
    machine: &mut Machine<S>,
    dry: bool,
    gathered: &Gathered,
    answer: &Answer,
) -> Result<Settings>
    requires each { length answer.now.choice ≡ length gathered.now.links }
    requires offered { AllZip Contains (map (λ link. link.1.numbers) gathered.now.links) answer.now.choice }
    ensures value { Does (seen (λ x. (x.0.items, x.1.items)) result) machine.new
        (settled_unless S.accesses dry gathered.now.links answer.now.choice) machine.old }
    ensures evaluated { StopsInSettling S.accesses dry gathered.now.links answer.now.choice machine.old machine.new }
    ensures memory { IfErr result (λ refusal. refusal ≡ OutOfMemory) }
{
    settle_unless(alloc, machine, dry, gathered.links(), &answer.choice)
}

/// The report of what was found and chosen, without the lines of what was set.
fn report_of<S: Space>(
    alloc: Global,
    machine: &Machine<S>,
    sci: Option<u32>,
    avoid: &[u32],
    gathered: &Gathered,
    answer: &Answer,
) -> Result<Report>
    requires pins { length gathered.now.pins ≤ 4096 }
    requires each { length answer.now.choice ≡ length gathered.now.problem.links }
    requires placed { All (λ k. k < length gathered.now.problem.links) answer.now.links }
    ensures lines { Answers result (Ok (report_of machine.now sci avoid.now gathered.now answer.now)) }
    ensures offers { IfOk result (λ report. All (λ l. IsReadableOffer l.offers) report.links) }
{
    let problem = gathered.problem();
    let (io_apics, overrides) = madt_lines(alloc, machine.madt())?;
    let links = link_lines(alloc, gathered.links())?;
    let avoid = set_of(alloc, avoid)?;
    let wired = pin_counts(alloc, gathered.pins())?;
    let gives = gives_of(alloc, problem.links(), &answer.choice)?;
    let pins = pin_lines(alloc, &gives, gathered.pins())?;
    let bound = bound_for(alloc, problem.links(), answer)?;
    Ok(Report {
        mode: machine.mode(),
        io_apics,
        overrides,
        sci,
        avoid,
        options: None,
        links,
        wired,
        pins,
        gives,
        busiest: answer.busiest,
        bound,
        sets: Vec::new(alloc),
        afters: Vec::new(alloc),
    })
}
