//! The lines that a report has in version 3 alone.
use crate::words::{named, number, numbers};
use route_report::{
    BusLine, BusState, InterruptSource, OptionLines, Polarity, Report, Rule, SparedLine, Trigger,
    TriggerLine, UnreadLine,
};
use std::alloc::Global;
use test_rows::Exchange;
use test_words::{add, path};

/// A line that makes a report one of version 3.
#[derive(Clone, Copy)]
pub enum Ask {
    Spared,
    Unread,
    First,
    Trigger,
    Bus,
}

/// What has an interrupt.
#[derive(Clone, Copy)]
enum Has {
    Link,
    Wired,
    Sci,
}

/// What has an interrupt, by its word.
const SOURCES: [(&str, Has); 3] = [
    ("link", Has::Link),
    ("wired", Has::Wired),
    ("sci", Has::Sci),
];

/// How an interrupt is triggered.
const TRIGGERS: [(&str, Trigger); 2] = [("level", Trigger::Level), ("edge", Trigger::Edge)];

/// At which level an interrupt is signaled.
const POLARITIES: [(&str, Polarity); 2] = [("low", Polarity::Low), ("high", Polarity::High)];

/// Lines of version 3 that say nothing but how the choice is made.
fn empty_options(alloc: Global) -> OptionLines {
    OptionLines {
        spared: Vec::new(alloc),
        unread: Vec::new(alloc),
        rule: Rule::First,
        triggers: Vec::new(alloc),
        buses: Vec::new(alloc),
    }
}

/// `spared D N..`
fn add_spared(asked: &mut Exchange, options: &mut OptionLines) {
    let device = path(asked);
    let interrupts = numbers(asked);
    add(
        asked,
        &mut options.spared,
        SparedLine { device, interrupts },
    );
}

/// `unread D R`
fn add_unread(asked: &mut Exchange, options: &mut OptionLines) {
    let device = path(asked);
    let refusal = asked.number(0xFF) as u8;
    add(asked, &mut options.unread, UnreadLine { device, refusal });
}

/// `link P`, `wired N` or `sci N`
fn source(asked: &mut Exchange) -> InterruptSource {
    match named(asked, &SOURCES, Has::Link) {
        Has::Link => InterruptSource::Link(path(asked)),
        Has::Wired => InterruptSource::Wired(number(asked)),
        Has::Sci => InterruptSource::Sci(number(asked)),
    }
}

/// `trigger link P level high`
fn add_trigger(asked: &mut Exchange, options: &mut OptionLines) {
    let source = source(asked);
    let trigger = named(asked, &TRIGGERS, Trigger::Level);
    let polarity = named(asked, &POLARITIES, Polarity::Low);
    let line = TriggerLine {
        source,
        trigger,
        polarity,
    };
    add(asked, &mut options.triggers, line);
}

/// `bus D S B`, or `bus D refused R`
fn add_bus(asked: &mut Exchange, options: &mut OptionLines) {
    let device = path(asked);
    let state = if asked.takes("refused ") {
        BusState::Refused(asked.number(0xFF) as u8)
    } else {
        BusState::Known {
            segment: asked.number(0xFFFF) as u16,
            bus: asked.number(0xFF) as u8,
        }
    };
    add(asked, &mut options.buses, BusLine { device, state });
}

/// Adds a line of version 3.
pub fn add_option(asked: &mut Exchange, report: &mut Report, ask: Ask) {
    let mut options = report
        .options
        .take()
        .unwrap_or(empty_options(asked.alloc()));
    match ask {
        Ask::Spared => add_spared(asked, &mut options),
        Ask::Unread => add_unread(asked, &mut options),
        Ask::First => options.rule = Rule::First,
        Ask::Trigger => add_trigger(asked, &mut options),
        Ask::Bus => add_bus(asked, &mut options),
    }
    report.options = Some(options);
}
