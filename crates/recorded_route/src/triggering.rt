//! How interrupts are triggered, by the lines of a report.
ghost use Rattle.std.specs.Prelude.{◌≡◌};
ghost use Rattle.acpi_links.specs.Links.{is_low};
ghost use Rattle.recorded_route.specs.Triggers.{plainly, is_level, triggering_in, is_link, is_wired, is_sci};
ghost use Rattle.recorded_route.specs.Triggers.{is_source, triggering_where, level_of};

use aml_path::Path;
use route_report::{InterruptSource, LinkLine, Polarity, Trigger, TriggerLine};

/// How an interrupt is triggered.
#[derive(Clone, Copy, Debug, PartialEq, Eq)]
pub struct Triggering {
    /// By a level, and not by an edge.
    pub is_level: bool,
    /// Active low, and not active high.
    pub is_low: bool,
}

/// What an interrupt comes from.
#[derive(Clone, Copy, Debug)]
pub(crate) enum Source<'a> {
    /// The link at a path.
    Link(&'a Path),
    /// Pins that are wired to it.
    Wired(u32),
    /// The System Control Interrupt, by its number.
    Sci(u32),
}

/// Level and low, as those of PCI are.
pub(crate) fn plainly() -> Triggering
    ensures { result ≡ plainly }
{
    Triggering {
        is_level: true,
        is_low: true,
    }
}

fn is_level(trigger: Trigger) -> bool
    ensures { result ≡ is_level trigger }
{
    match trigger {
        Trigger::Level => true,
        Trigger::Edge => false,
    }
}

fn is_low(polarity: Polarity) -> bool
    ensures { result ≡ is_low polarity }
{
    match polarity {
        Polarity::Low => true,
        Polarity::High => false,
    }
}

fn triggering_in(line: &TriggerLine) -> Triggering
    ensures { result ≡ triggering_in line.now }
{
    Triggering {
        is_level: is_level(line.trigger),
        is_low: is_low(line.polarity),
    }
}

fn is_link(source: &InterruptSource, link: &Path) -> bool
    ensures { result ≡ is_link link.now source.now }
{
    match source {
        InterruptSource::Link(path) => path == link,
        InterruptSource::Wired(_) => false,
        InterruptSource::Sci(_) => false,
    }
}

fn is_wired(source: &InterruptSource, interrupt: u32) -> bool
    ensures { result ≡ is_wired interrupt source.now }
{
    match source {
        InterruptSource::Link(_) => false,
        InterruptSource::Wired(n) => *n == interrupt,
        InterruptSource::Sci(_) => false,
    }
}

fn is_sci(source: &InterruptSource, interrupt: u32) -> bool
    ensures { result ≡ is_sci interrupt source.now }
{
    match source {
        InterruptSource::Link(_) => false,
        InterruptSource::Wired(_) => false,
        InterruptSource::Sci(n) => *n == interrupt,
    }
}

/// Whether a line `trigger` is of this source.
fn is_source(named: &InterruptSource, source: Source<'_>) -> bool
    ensures { result ≡ is_source source.entry named.now }
{
    match source {
        Source::Link(link) => is_link(named, link),
        Source::Wired(interrupt) => is_wired(named, interrupt),
        Source::Sci(interrupt) => is_sci(named, interrupt),
    }
}

/// How the interrupt of a source is triggered, by its first line; where it has none, plainly so.
pub(crate) fn triggering_where(
    lines: &[TriggerLine],
    source: Source<'_>,
    plain: Triggering,
) -> Triggering
    ensures { result ≡ triggering_where plain (is_source source.entry) lines.now }
{
    for line in lines {
        if is_source(&line.source, source) {
            return triggering_in(line);
        }
    }
    plain
}

/// How the interrupt of a link is triggered by its line `link`: links offer levels alone.
pub(crate) fn level_of(lines: &[LinkLine], link: &Path) -> Triggering
    ensures { result ≡ level_of link.now lines.now }
{
    for line in lines {
        if line.path == *link {
            return Triggering {
                is_level: true,
                is_low: is_low(line.polarity),
            };
        }
    }
    plainly()
}
