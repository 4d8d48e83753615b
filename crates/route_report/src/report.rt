//! What a run reports: a field for each kind of line.
use acpi_resources::{Form, Polarity};
use aml_path::Path;
use ar_tables::Mode;
use route_check::Bound;
use std::marker::Model;

/// A pin of a PCI device.
#[derive(Clone, Copy, Debug, PartialEq, Eq)]
pub enum PinName {
    A,
    B,
    C,
    D,
}

/// An I/O APIC of the MADT (ACPI 6.5, 5.2.12.3).
#[derive(Clone, Copy, Debug, PartialEq, Eq)]
pub struct IoApicLine {
    pub id: u8,
    pub address: u32,
    pub gsi_base: u32,
}

/// An interrupt source override of the MADT (ACPI 6.5, 5.2.12.5).
#[derive(Clone, Copy, Debug, PartialEq, Eq)]
pub struct OverrideLine {
    pub source: u8,
    pub gsi: u32,
    pub flags: u16,
}

/// A present link device: what it offers, and what it is set to before the choice.
#[derive(Debug, Drop)]
pub struct LinkLine {
    pub path: Path,
    pub form: Form,
    pub polarity: Polarity,
    /// Ascending, those that are avoided among them.
    pub offers: Vec<u32>,
    /// The interrupts that `_CRS` gives; none without `_CRS`.
    pub now: Option<Vec<u32>>,
}

impl Model for LinkLine {
    ghost use Rattle.std.specs.Prelude.{option_map};
    ghost use Rattle.route_report.specs.Reports.{ReportedLink};

    ghost Value = { ReportedLink };

    ghost view = { λ l. record { path = l.path; form = l.form; polarity = l.polarity; offers = l.offers.items; now = option_map (λ v. v.items) l.now } };
}

/// Where a pin leads.
#[derive(Debug, Drop)]
pub enum PinRoute {
    /// To a link, which is given this interrupt.
    Link(u32, Path),
    /// To this interrupt, without a link.
    Wired(u32),
    /// To a link that isn't present.
    Absent(Path),
}

/// A pin of a routing table (ACPI 6.5, 6.2.13).
#[derive(Debug, Drop)]
pub struct PinLine {
    /// The device that has the routing table.
    pub device: Path,
    /// The number of the PCI device that has the pin.
    pub number: u16,
    pub pin: PinName,
    pub route: PinRoute,
}

/// What came of setting a link.
#[derive(Clone, Copy, Debug, PartialEq, Eq)]
pub enum SetOutcome {
    Done,
    /// The link has no `_SRS`.
    NoSetting,
    /// The number of the refusal.
    Refused(u8),
}

/// What came of setting one link.
#[derive(Debug, Drop)]
pub struct SetLine {
    pub path: Path,
    pub outcome: SetOutcome,
}

/// What a link is set to after the choice.
#[derive(Debug, Drop)]
pub enum After {
    /// The interrupts that `_CRS` gives; none without `_CRS`.
    Now(Option<Vec<u32>>),
    /// The number of the refusal.
    Refused(u8),
}

/// What one link is set to after the choice.
#[derive(Debug, Drop)]
pub struct AfterLine {
    pub path: Path,
    pub state: After,
}

impl Model for AfterLine {
    ghost use Rattle.route_report.specs.Reports.{ReportedAfter, after_state};

    ghost Value = { ReportedAfter };

    ghost view = { λ a. record { path = a.path; state = after_state a.state } };
}

/// A device that is no link, and the interrupts that it has: no link is given them.
#[derive(Debug, Drop)]
pub struct SparedLine {
    pub device: Path,
    /// At least one.
    pub interrupts: Vec<u32>,
}

impl Model for SparedLine {
    ghost use Rattle.route_report.specs.Reports.{SparedDevice};

    ghost Value = { SparedDevice };

    ghost view = { λ s. record { device = s.device; interrupts = s.interrupts.items } };
}

/// A device that is no link, whose interrupts couldn't be read.
#[derive(Debug, Drop)]
pub struct UnreadLine {
    pub device: Path,
    /// The number of the refusal.
    pub refusal: u8,
}

/// Which of the least busy assignments is chosen.
#[derive(Clone, Copy, Debug, PartialEq, Eq)]
pub enum Rule {
    /// The first one: links in path order, the smaller interrupt first.
    First,
    /// One under which links share interrupts as little as they can: first the busiest interrupt serves as few
    /// sources as possible, then as few interrupts as possible serve that many, and so on.
    Spread,
}

impl Rule {
    ghost use Rattle.std.specs.Prelude.{◌≡◌};
    ghost use Rattle.route_report.specs.Reports.{is_spread};

    /// Whether links are said to share interrupts as little as they can.
    pub fn is_spread(self) -> bool
        ensures { result ≡ is_spread self }
    {
        match self {
            Rule::First => false,
            Rule::Spread => true,
        }
    }
}

/// What has an interrupt.
#[derive(Debug, Drop)]
pub enum InterruptSource {
    /// The link at a path.
    Link(Path),
    /// Pins that are wired to this interrupt.
    Wired(u32),
    /// The System Control Interrupt, which is wired to this one.
    Sci(u32),
}

/// How an interrupt is triggered.
#[derive(Clone, Copy, Debug, PartialEq, Eq)]
pub enum Trigger {
    Level,
    Edge,
}

/// How the interrupt of one source is triggered.
#[derive(Debug, Drop)]
pub struct TriggerLine {
    pub source: InterruptSource,
    pub trigger: Trigger,
    pub polarity: Polarity,
}

/// Which bus a routing table is for.
#[derive(Clone, Copy, Debug, PartialEq, Eq)]
pub enum BusState {
    /// This bus of this PCI segment group.
    Known { segment: u16, bus: u8 },
    /// The number of the refusal.
    Refused(u8),
}

/// Which bus the routing table of one device is for: the bus that its pins' devices are on.
#[derive(Debug, Drop)]
pub struct BusLine {
    pub device: Path,
    pub state: BusState,
}

/// The lines that a report has in version 3 alone.
#[derive(Debug, Drop)]
pub struct OptionLines {
    /// The devices whose interrupts no link is given, in path order.
    pub spared: Vec<SparedLine>,
    /// The devices whose interrupts couldn't be read, in path order.
    pub unread: Vec<UnreadLine>,
    pub rule: Rule,
    /// For a kernel, how each interrupt is triggered: first those of links, then of wired pins, then the System
    /// Control Interrupt. Empty where no kernel wants it.
    pub triggers: Vec<TriggerLine>,
    /// For a kernel, the bus of each routing table, in the path order of their devices. Empty where no kernel wants
    /// it.
    pub buses: Vec<BusLine>,
}

impl Model for OptionLines {
    ghost use Rattle.route_report.specs.Reports.{ReportedOptions};

    ghost Value = { ReportedOptions };

    ghost view = { λ o. record { spared = o.spared.items; unread = o.unread.items; rule = o.rule; triggers = o.triggers.items; buses = o.buses.items } };
}

/// What a run found and chose. `print` writes its lines in the order of the fields, but for those for a kernel, which
/// stand behind all others.
#[derive(Debug, Drop)]
pub struct Report {
    pub mode: Mode,
    pub io_apics: Vec<IoApicLine>,
    pub overrides: Vec<OverrideLine>,
    /// The interrupt that the System Control Interrupt is wired to, if there is one: it has one source more.
    pub sci: Option<u32>,
    /// The interrupts that no link is given, ascending, each once.
    pub avoid: Vec<u32>,
    /// What options of the run add: with these a report is of version 3, without them of version 2.
    pub options: Option<OptionLines>,
    /// The present links, in path order.
    pub links: Vec<LinkLine>,
    /// Interrupts with the number of pins that are wired to them, ascending.
    pub wired: Vec<(u32, u32)>,
    /// The pins that count, device by device.
    pub pins: Vec<PinLine>,
    /// What each present link is given.
    pub gives: Vec<(Path, u32)>,
    /// How many sources the busiest interrupt serves.
    pub busiest: u32,
    /// Why no assignment has a less busy one.
    pub bound: Option<Bound>,
    /// What came of setting each present link; empty where none was to be set.
    pub sets: Vec<SetLine>,
    /// What each present link is set to then; empty where none was to be set.
    pub afters: Vec<AfterLine>,
}

impl Model for Report {
    ghost use Rattle.route_report.specs.Reports.{RoutingReport};

    ghost Value = { RoutingReport };

    ghost view = { λ r. record {
      mode = r.mode;
      io_apics = r.io_apics.items;
      overrides = r.overrides.items;
      sci = r.sci;
      avoid = r.avoid.items;
      options = r.options;
      links = r.links.items;
      wired = r.wired.items;
      pins = r.pins.items;
      gives = r.gives.items;
      busiest = r.busiest;
      bound = r.bound;
      sets = r.sets.items;
      afters = r.afters.items;
    } };
}
