//! The routing of a report as plain values: each pin whose interrupt is known, how that is triggered, whether its link
//! is set to it, and the bus that the pin is on.
ghost use Rattle.std.specs.Prelude.{◌≡◌, IfOk, Some, option_map};
ghost use Rattle.std.specs.List.{filter_map};
ghost use Rattle.route_report.specs.Readable.{triggers_told, buses_told};
ghost use Rattle.route_report.specs.Reports.{after_state};
ghost use Rattle.recorded_route.specs.Pins.{is_done, took_setting, is_only, is_read_back, is_link_set};
ghost use Rattle.recorded_route.specs.Pins.{is_route_set, bus_in, bus_of, routed, routed_sci};
ghost use Rattle.recorded_route.specs.Pins.{pin_with, pin_of, pins_of};

use crate::triggering::{Source, Triggering, level_of, plainly, triggering_where};
use acpi_machine::PciBus;
use aml_path::Path;
use route_report::{
    After, AfterLine, BusLine, BusState, OptionLines, PinLine, PinName, PinRoute, Report, SetLine,
    SetOutcome, TriggerLine,
};
use std::alloc::{AllocError, Global};

/// An interrupt, and how it is triggered.
#[derive(Clone, Copy, Debug, PartialEq, Eq)]
pub struct RoutedInterrupt {
    /// Its number: of 8259 controllers their line, of I/O APICs the global system interrupt.
    pub interrupt: u32,
    pub triggering: Triggering,
}

/// A pin of a PCI device whose interrupt is known.
#[derive(Clone, Copy, Debug, PartialEq, Eq)]
pub struct Pin {
    /// Its interrupt.
    pub interrupt: u32,
    /// How that is triggered.
    pub triggering: Triggering,
    /// Whether the pin is wired to it, or its link is set to it as far as the link tells: it reads back just this
    /// interrupt, or it has no `_CRS` and took its setting.
    pub is_set: bool,
    /// The bus that its device is on, if that is known.
    pub bus: Option<PciBus>,
    /// The number of its device on that bus.
    pub device: u16,
    /// Its name.
    pub pin: PinName,
}

fn bus_in(state: BusState) -> Option<PciBus>
    ensures { result ≡ bus_in state }
{
    match state {
        BusState::Known { segment, bus } => Some(PciBus { segment, bus }),
        BusState::Refused(_) => None,
    }
}

/// The bus of the routing table of a device, where its line tells it.
fn bus_of(lines: &[BusLine], device: &Path) -> Option<PciBus>
    ensures { result ≡ bus_of device.now lines.now }
{
    for line in lines {
        if line.device == *device {
            return bus_in(line.state);
        }
    }
    None
}

fn is_done(outcome: SetOutcome) -> bool
    ensures { result ≡ is_done outcome }
{
    match outcome {
        SetOutcome::Done => true,
        SetOutcome::NoSetting => false,
        SetOutcome::Refused(_) => false,
    }
}

/// Whether a link took its setting.
fn took_setting(lines: &[SetLine], link: &Path) -> bool
    ensures { result ≡ took_setting link.now lines.now }
{
    for line in lines {
        if line.path == *link {
            return is_done(line.outcome);
        }
    }
    false
}

fn is_only(interrupt: u32, numbers: &[u32]) -> bool
    ensures { result ≡ is_only interrupt numbers.now }
{
    match numbers {
        [number] => *number == interrupt,
        _ => false,
    }
}

/// Whether a link reads back just this interrupt, or, where it has no `_CRS`, took its setting.
fn is_read_back(interrupt: u32, taken: bool, after: &After) -> bool
    ensures { result ≡ is_read_back interrupt taken (after_state after.now) }
{
    match after {
        After::Now(None) => taken,
        After::Now(Some(numbers)) => is_only(interrupt, numbers.as_slice()),
        After::Refused(_) => false,
    }
}

/// Whether a link is set to an interrupt, as far as it tells.
fn is_link_set(interrupt: u32, link: &Path, taken: bool, lines: &[AfterLine]) -> bool
    ensures { result ≡ is_link_set interrupt link.now taken lines.now }
{
    for line in lines {
        if line.path == *link {
            return is_read_back(interrupt, taken, &line.state);
        }
    }
    false
}

/// Whether a pin has its interrupt without a link, or its link is set to it.
fn is_route_set(report: &Report, route: &PinRoute) -> bool
    ensures { result ≡ is_route_set report.now route.now }
{
    match route {
        PinRoute::Link(n, path) => {
            let taken = took_setting(&report.sets, path);
            is_link_set(*n, path, taken, &report.afters)
        }
        PinRoute::Wired(_) => true,
        PinRoute::Absent(_) => false,
    }
}

/// The interrupt of a pin, and how it is triggered.
fn routed(report: &Report, route: &PinRoute) -> Option<RoutedInterrupt>
    ensures { result ≡ routed report.now route.now }
{
    let triggers = triggers_told(&report.options);
    match route {
        PinRoute::Link(n, path) => Some(RoutedInterrupt {
            interrupt: *n,
            triggering: triggering_where(
                triggers,
                Source::Link(path),
                level_of(&report.links, path),
            ),
        }),
        PinRoute::Wired(n) => Some(RoutedInterrupt {
            interrupt: *n,
            triggering: triggering_where(triggers, Source::Wired(*n), plainly()),
        }),
        PinRoute::Absent(_) => None,
    }
}

fn pin_with(
    line: &PinLine,
    bus: Option<PciBus>,
    is_set: bool,
    route: Option<RoutedInterrupt>,
) -> Option<Pin>
    ensures { result ≡ pin_with line.now bus is_set route }
{
    match route {
        None => None,
        Some(
            RoutedInterrupt {
                interrupt,
                triggering,
            },
        ) => Some(Pin {
            interrupt,
            triggering,
            is_set,
            bus,
            device: line.number,
            pin: line.pin,
        }),
    }
}

fn pin_of(report: &Report, line: &PinLine) -> Option<Pin>
    ensures { result ≡ pin_of report.now line.now }
{
    let bus = bus_of(buses_told(&report.options), &line.device);
    let is_set = is_route_set(report, &line.route);
    pin_with(line, bus, is_set, routed(report, &line.route))
}

fn triggers_told(options: &Option<OptionLines>) -> &[TriggerLine]
    ensures { result.now ≡ triggers_told options.now }
{
    match options {
        None => &[],
        Some(options) => &options.triggers,
    }
}

fn buses_told(options: &Option<OptionLines>) -> &[BusLine]
    ensures { result.now ≡ buses_told options.now }
{
    match options {
        None => &[],
        Some(options) => &options.buses,
    }
}

/// The pins of a report whose interrupt is known, in the order of its lines `pin`. How an interrupt is triggered and
/// which bus a pin is on is told by the lines for a kernel: without them a link's interrupt is a level, of the polarity
/// of its line `link`, that of a wired pin is level and low, and no bus is known.
///
/// ```
/// let settings = Settings { kernel: true, ..settings };
/// if let Ending::Done(report) = configure_recorded(alloc, text, &settings, &[], record.as_slice()) {
///     for pin in pins_of(alloc, &report)? {
///         program(pin);
///     }
/// }
/// ```
#[tactic(auto, using(crate::proofs::Kept::keeping))]
pub fn pins_of(alloc: Global, report: &Report) -> Result<Vec<Pin>, AllocError>
    ensures { IfOk result (λ pins. pins.items ≡ pins_of report.now) }
{
    let mut pins = Vec::new(alloc);
    for line in &report.pins {
        if let Some(pin) = pin_of(report, line) {
            pins.push(pin)?;
        }
    }
    Ok(pins)
}

/// The System Control Interrupt of a report, and how it is triggered, by the lines for a kernel: without them it is
/// level and low. None where the report names none: the FADT has none for it.
pub fn sci_of(report: &Report) -> Option<RoutedInterrupt>
    ensures { result ≡ routed_sci report.now }
{
    let triggers = triggers_told(&report.options);
    match report.sci {
        None => None,
        Some(interrupt) => Some(RoutedInterrupt {
            interrupt,
            triggering: triggering_where(triggers, Source::Sci(interrupt), plainly()),
        }),
    }
}
