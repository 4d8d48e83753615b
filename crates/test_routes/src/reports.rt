//! Reports that are put together line by line, each line in the words in which it is printed.
use crate::option_lines::{self, add_option};
use crate::pins::{add_after, add_pin, add_set};
use crate::words::{
    add_give, add_wired, named, number, numbers, numbers_of, pass, set_bound, source,
};
use route_report::{Form, IoApicLine, LinkLine, Mode, OverrideLine, Polarity, Report};
use std::alloc::Global;
use test_rows::Exchange;
use test_words::{add, path};

/// The modes of interrupt controllers.
const MODES: [(&str, Mode); 2] = [("apic", Mode::Apic), ("pic", Mode::Pic)];

/// The descriptors that an offer may be.
const FORMS: [(&str, Form); 2] = [("small", Form::Small), ("extended", Form::Extended)];

/// The levels at which interrupts are signaled.
const POLARITIES: [(&str, Polarity); 2] = [("low", Polarity::Low), ("high", Polarity::High)];

/// A report of a machine that has nothing.
pub fn empty_report(alloc: Global) -> Report {
    Report {
        mode: Mode::Apic,
        io_apics: Vec::new(alloc),
        overrides: Vec::new(alloc),
        sci: None,
        avoid: Vec::new(alloc),
        options: None,
        links: Vec::new(alloc),
        wired: Vec::new(alloc),
        pins: Vec::new(alloc),
        gives: Vec::new(alloc),
        busiest: 0,
        bound: None,
        sets: Vec::new(alloc),
        afters: Vec::new(alloc),
    }
}

/// What a link is set to: `none` without `_CRS`, `-` for no interrupt, or interrupts.
pub fn setting(asked: &mut Exchange) -> Option<Vec<u32>> {
    if asked.takes("none") {
        None
    } else {
        Some(numbers(asked))
    }
}

/// `ioapic I at A base G`
fn add_io_apic(asked: &mut Exchange, report: &mut Report) {
    let id = asked.number(0xFF) as u8;
    pass(asked, "at");
    let address = asked.hexadecimal(0xFFFF_FFFF) as u32;
    pass(asked, "base");
    let gsi_base = number(asked);
    add(
        asked,
        &mut report.io_apics,
        IoApicLine {
            id,
            address,
            gsi_base,
        },
    );
}

/// `override S to G flags F`
fn add_override(asked: &mut Exchange, report: &mut Report) {
    let source = asked.number(0xFF) as u8;
    pass(asked, "to");
    let gsi = number(asked);
    pass(asked, "flags");
    let flags = asked.hexadecimal(0xFFFF) as u16;
    add(
        asked,
        &mut report.overrides,
        OverrideLine { source, gsi, flags },
    );
}

/// `link P small low offers N.. now V`
fn add_link(asked: &mut Exchange, report: &mut Report) {
    let path = path(asked);
    let form = named(asked, &FORMS, Form::Small);
    let polarity = named(asked, &POLARITIES, Polarity::Low);
    pass(asked, "offers");
    let offers = asked.until(" now ");
    let offers = numbers_of(asked, offers);
    let now = setting(asked);
    add(
        asked,
        &mut report.links,
        LinkLine {
            path,
            form,
            polarity,
            offers,
            now,
        },
    );
}

/// A line of a report.
#[derive(Clone, Copy)]
enum Line {
    Mode,
    IoApic,
    Override,
    Sci,
    Avoid,
    Option(option_lines::Ask),
    Link,
    Wired,
    Pin,
    Give,
    Busiest,
    Bound,
    Set,
    After,
}

/// The lines of a report, by their first words.
const LINES: [(&str, Line); 18] = [
    ("mode", Line::Mode),
    ("ioapic", Line::IoApic),
    ("override", Line::Override),
    ("sci", Line::Sci),
    ("avoid", Line::Avoid),
    ("spared", Line::Option(option_lines::Ask::Spared)),
    ("unread", Line::Option(option_lines::Ask::Unread)),
    ("first", Line::Option(option_lines::Ask::First)),
    ("trigger", Line::Option(option_lines::Ask::Trigger)),
    ("bus", Line::Option(option_lines::Ask::Bus)),
    ("link", Line::Link),
    ("wired", Line::Wired),
    ("pin", Line::Pin),
    ("give", Line::Give),
    ("busiest", Line::Busiest),
    ("bound", Line::Bound),
    ("set", Line::Set),
    ("after", Line::After),
];

/// Adds a line of what was found.
fn add_found(asked: &mut Exchange, report: &mut Report, line: Line) {
    match line {
        Line::IoApic => add_io_apic(asked, report),
        Line::Override => add_override(asked, report),
        Line::Link => add_link(asked, report),
        Line::Wired => add_wired(asked, &mut report.wired),
        Line::Pin => add_pin(asked, report),
        _ => report.mode = named(asked, &MODES, Mode::Apic),
    }
}

/// `report LINE`
pub fn add_line(asked: &mut Exchange, report: &mut Report) {
    let line = named(asked, &LINES, Line::Mode);
    match line {
        Line::Give => add_give(asked, &mut report.gives),
        Line::Sci => report.sci = source(asked),
        Line::Avoid => report.avoid = numbers(asked),
        Line::Option(ask) => add_option(asked, report, ask),
        Line::Busiest => report.busiest = number(asked),
        Line::Bound => set_bound(asked, &mut report.bound),
        Line::Set => add_set(asked, report),
        Line::After => add_after(asked, report),
        _ => add_found(asked, report, line),
    }
}
