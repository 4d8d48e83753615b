//! What a kernel wants of a report, told behind all else.
ghost use Rattle.std.specs.Prelude.{◌≡◌, ◌≢◌, ◌++◌, ◌∷◌, [], false, true, filter, Ok, Err, IfOk, IfErr};
ghost use Rattle.ar_space.specs.declared.refusal.Refusal.TheVariants.{OutOfMemory};
ghost use Rattle.ar_space.specs.Outcome.{Answers, NotMemory, seen};
ghost use Rattle.ar_space.specs.Change.{Does};
ghost use Rattle.acpi_machine.specs.Stops.{AllOrNone};
ghost use Rattle.acpi_machine.specs.Buses.{bus_found};
ghost use Rattle.acpi_machine.specs.MachineStates.{sci_of};
ghost use Rattle.route_report.specs.ForKernels.{kernel_options, with_kernel_lines};
ghost use Rattle.acpi_configure.specs.ForKernels.{has_table, devices_with_tables, bus_told, bus_asked, buses_asked};
ghost use Rattle.acpi_configure.specs.ForKernels.{lines_told, kernel_told, told_if, IsReportFor};
ghost use Rattle.acpi_configure.specs.KernelStops.{StopsInBuses, StopsInTelling, StopsInRunFor};
ghost use Rattle.acpi_configure.specs.Settling.{attempted};
ghost use Rattle.acpi_configure.specs.WithOptions.{found_by};

use crate::configuring::configure_plainly;
use crate::options::Options;
use crate::triggers::triggers_of;
use acpi_links::list_devices;
use acpi_machine::{Machine, PciBus, prt};
use aml_path::Path;
use ar_space::{Refusal, Result, Space};
use route_report::laws::lines_for_a_kernel_claim_nothing;
use route_report::{BusLine, BusState, OptionLines, Report, Rule, TriggerLine};
use std::alloc::Global;

/// Chooses an interrupt for each link device of a machine as `configure` does, with options: `spare`, that no link is
/// given an interrupt of another device; `spread`, that links share interrupts as little as they can; and `kernel`,
/// that the report has lines for a kernel. Without them the report is that of `configure`.
///
/// With `spare`, once the links were asked, each other Device that has a `_CRS` is asked in path order: `_STA`, and
/// where it is present `_CRS` (ACPI 6.5, 6.3.7 and 6.2.2). What a `_CRS` gives is avoided as the interrupts to
/// `avoid` are: a link of whose offer nothing is left is refused as `Avoided`, with its path, the first such link in
/// path order. A device has a line in the report where it has interrupts, or where its `_STA` or its `_CRS` is
/// refused, with the number of the refusal: then nothing is known of its interrupts, and none are avoided for it.
///
/// With `spread` the assignment is one whose loads are least as a whole: first the busiest interrupt serves as few
/// sources as possible, then as few interrupts as possible serve that many, and so on. It isn't said which of several
/// such assignments it is.
///
/// With `kernel` the report tells, behind all else, how each interrupt is triggered: a link's as its offer says, those
/// of wired pins and the System Control Interrupt level and low, unless in `Apic` mode an interrupt source override of
/// the MADT says otherwise (ACPI 6.5, 5.2.9 and 5.2.12.5). And once the links are set, each Device that has a `_PRT`
/// is asked in path order which bus that is for, as `Machine::find_bus` does it; a refusal is told in the line, and
/// the next follows.
///
/// The text of the report can be read back; `route_check::check_all` says that its claim holds, and with `spread` it
/// claims that links share interrupts as little as they can.
///
/// ```
/// let options = Options { dry: false, avoid: &[], spare: true, spread: true, kernel: false };
/// let report = configure_with(alloc, &mut machine, &options)?;
/// ```
pub fn configure_with<S: Space>(
    alloc: Global,
    machine: &mut Machine<S>,
    options: &Options<'_>,
) -> Result<Report>
    ensures report { IfOk result (λ report. IsReportFor S.accesses options.now machine.old machine.new report) }
    ensures evaluated { StopsInRunFor S.accesses options.now machine.old machine.new }
    ensures refusal { IfErr result (λ refusal. refusal ≢ OutOfMemory →
        found_by S.accesses options.now (sci_of machine.old) machine.old ≡ (Err refusal, machine.new)) }
{
    let report = configure_plainly(alloc, machine, options)?;
    // the law that reading the text back rests on
    lines_for_a_kernel_claim_nothing();
    tell_if(alloc, machine, options.kernel, report)
}

/// The report with the lines for a kernel, where it wants them.
#[tactic(auto, unfolding(crate::specs::ForKernels::told_if))]
fn tell_if<S: Space>(
    alloc: Global,
    machine: &mut Machine<S>,
    kernel: bool,
    report: Report,
) -> Result<Report>
    ensures value { Does result machine.new (told_if S.accesses kernel report) machine.old }
    ensures evaluated { StopsInTelling S.accesses kernel machine.old machine.new }
    ensures memory { IfErr result (λ refusal. refusal ≡ OutOfMemory) }
{
    match kernel {
        true => tell_kernel(alloc, machine, report),
        false => Ok(report),
    }
}

/// The report with the lines for a kernel.
#[tactic(auto, unfolding(crate::specs::ForKernels::kernel_told))]
fn tell_kernel<S: Space>(alloc: Global, machine: &mut Machine<S>, report: Report) -> Result<Report>
    ensures value { Does result machine.new (kernel_told S.accesses report) machine.old }
    ensures evaluated { StopsInTelling S.accesses true machine.old machine.new }
    ensures memory { IfErr result (λ refusal. refusal ≡ OutOfMemory) }
{
    let own = machine.fadt().sci_interrupt();
    let devices = devices_with_tables(alloc, machine)?;
    tell_lines(alloc, machine, &devices, own, report)
}

/// The report with the lines for a kernel, of these devices with a routing table.
#[tactic(auto, using(ar_space::proofs::Changes::changing), unfolding(crate::specs::ForKernels::lines_told))]
fn tell_lines<S: Space>(
    alloc: Global,
    machine: &mut Machine<S>,
    devices: &[Path],
    own: u16,
    report: Report,
) -> Result<Report>
    ensures value { Does result machine.new (lines_told S.accesses devices.now own report) machine.old }
    ensures evaluated { StopsInBuses S.accesses devices.now machine.old machine.new }
    ensures memory { IfErr result (λ refusal. refusal ≡ OutOfMemory) }
{
    let buses = ask_buses(alloc, machine, devices)?;
    let triggers = triggers_of(alloc, u32::from(own), &report)?;
    Ok(with_kernel_lines(alloc, report, triggers, buses))
}

/// What options add, with these lines for a kernel.
fn kernel_options(
    alloc: Global,
    options: Option<OptionLines>,
    triggers: Vec<TriggerLine>,
    buses: Vec<BusLine>,
) -> OptionLines
    ensures { result ≡ kernel_options options triggers.items buses.items }
{
    match options {
        Some(options) => OptionLines {
            triggers,
            buses,
            ..options
        },
        None => OptionLines {
            spared: Vec::new(alloc),
            unread: Vec::new(alloc),
            rule: Rule::First,
            triggers,
            buses,
        },
    }
}

/// A report with these lines for a kernel.
fn with_kernel_lines(
    alloc: Global,
    report: Report,
    triggers: Vec<TriggerLine>,
    buses: Vec<BusLine>,
) -> Report
    ensures { result ≡ with_kernel_lines report triggers.items buses.items }
{
    let mut report = report;
    let options = kernel_options(alloc, report.options.take(), triggers, buses);
    report.options = Some(options);
    report
}

/// The paths of the devices that have a routing table, in path order.
#[tactic(auto, using(ar_space::proofs::Outcomes::answering), unfolding(crate::specs::ForKernels::devices_with_tables))]
fn devices_with_tables<S: Space>(alloc: Global, machine: &Machine<S>) -> Result<Vec<Path>>
    ensures value { Answers (seen (λ list. list.items) result) (Ok (devices_with_tables machine.now)) }
    ensures memory { IfErr result (λ refusal. refusal ≡ OutOfMemory) }
{
    let devices = list_devices(alloc, machine)?;
    with_tables(alloc, machine, devices)
}

/// Those of some devices that have a routing table.
#[tactic(auto, using(crate::proofs::Telling::tabling))]
fn with_tables<S: Space>(
    alloc: Global,
    machine: &Machine<S>,
    devices: Vec<Path>,
) -> Result<Vec<Path>>
    ensures value { Answers (seen (λ list. list.items) result) (Ok (filter (has_table machine.now) devices.items)) }
    ensures memory { IfErr result (λ refusal. refusal ≡ OutOfMemory) }
{
    let mut list = Vec::new(alloc);
    for device in devices {
        if machine.has_child(alloc, &device, prt())? {
            list.push(device)?;
        }
    }
    Ok(list)
}

/// The bus of the routing table of each of some devices, in their order.
fn ask_buses<S: Space>(
    alloc: Global,
    machine: &mut Machine<S>,
    devices: &[Path],
) -> Result<Vec<BusLine>>
    ensures value { Does (seen (λ list. list.items) result) machine.new
        (buses_asked S.accesses devices.now) machine.old }
    ensures evaluated { StopsInBuses S.accesses devices.now machine.old machine.new }
    ensures memory { IfErr result (λ refusal. refusal ≡ OutOfMemory) }
{
    let mut list = Vec::new(alloc);
    for device in devices {
        let line = ask_bus(alloc, machine, device)?;
        list.push(line)?;
    }
    Ok(list)
}

/// The bus of the routing table of one device: a refusal is told, but for want of memory.
#[tactic(auto, using(ar_space::proofs::Changes::changing), unfolding(crate::specs::ForKernels::bus_asked))]
fn ask_bus<S: Space>(alloc: Global, machine: &mut Machine<S>, device: &Path) -> Result<BusLine>
    ensures value { Does result machine.new (bus_asked S.accesses device.now) machine.old }
    ensures evaluated { AllOrNone (bus_asked S.accesses device.now) machine.old machine.new }
    ensures memory { IfErr result (λ refusal. refusal ≡ OutOfMemory) }
{
    let state = try_to_find(alloc, machine, device)?;
    bus_line(alloc, device, state)
}

#[tactic(auto, using(crate::proofs::Settled::does_attempted))]
fn try_to_find<S: Space>(alloc: Global, machine: &mut Machine<S>, device: &Path) -> Result<BusState>
    ensures value { Does result machine.new (attempted bus_told (bus_found S.accesses device.now)) machine.old }
    ensures evaluated { AllOrNone (attempted bus_told (bus_found S.accesses device.now)) machine.old machine.new }
    ensures memory { IfErr result (λ refusal. refusal ≡ OutOfMemory) }
{
    let bus = machine.find_bus(alloc, device);
    bus_state(bus)
}

fn bus_line(alloc: Global, device: &Path, state: BusState) -> Result<BusLine>
    ensures value { Answers result (Ok (record { device = device.now; state = state })) }
    ensures memory { IfErr result (λ refusal. refusal ≡ OutOfMemory) }
{
    Ok(BusLine {
        device: device.copy(alloc)?,
        state,
    })
}

/// What is told of a bus; want of memory is no outcome.
fn bus_state(bus: Result<PciBus>) -> Result<BusState>
    ensures told { NotMemory bus → Answers result (Ok (bus_told bus)) }
    ensures plain { NotMemory bus → NotMemory result }
    ensures memory { bus ≡ Err OutOfMemory → result ≡ Err OutOfMemory }
    ensures only { IfErr result (λ refusal. refusal ≡ OutOfMemory) }
{
    match bus {
        Ok(PciBus { segment, bus }) => Ok(BusState::Known { segment, bus }),
        Err(Refusal::OutOfMemory) => Err(Refusal::OutOfMemory),
        Err(refusal) => Ok(BusState::Refused(refusal.number())),
    }
}
