//! The lines of a report that tell of pins, and of what came of setting links.
use crate::reports::setting;
use crate::words::{named, number_of};
use route_report::{After, AfterLine, PinLine, PinName, PinRoute, Report, SetLine, SetOutcome};
use test_rows::Exchange;
use test_words::{add, path, path_of};

/// The pins of a device.
const PINS: [(&str, PinName); 4] = [
    ("A", PinName::A),
    ("B", PinName::B),
    ("C", PinName::C),
    ("D", PinName::D),
];

/// What comes of setting a link that does not refuse.
const OUTCOMES: [(&str, SetOutcome); 2] = [
    ("ok", SetOutcome::Done),
    ("none", SetOutcome::NoSetting),
];

/// `N P`, `N wired` or `absent P`
fn pin_route(asked: &mut Exchange) -> PinRoute {
    let first = asked.word();
    if first == "absent" {
        return PinRoute::Absent(path(asked));
    }
    let interrupt = number_of(asked, first);
    match asked.word() {
        "wired" => PinRoute::Wired(interrupt),
        name => PinRoute::Link(interrupt, path_of(asked, name)),
    }
}

/// `pin D n X N P`, `pin D n X N wired` or `pin D n X absent P`
pub fn add_pin(asked: &mut Exchange, report: &mut Report) {
    let device = path(asked);
    let number = asked.number(0xFFFF) as u16;
    let pin = named(asked, &PINS, PinName::A);
    let route = pin_route(asked);
    add(
        asked,
        &mut report.pins,
        PinLine {
            device,
            number,
            pin,
            route,
        },
    );
}

/// The number of a refusal.
fn refused(asked: &mut Exchange) -> u8 {
    asked.number(0xFF) as u8
}

/// `ok`, `none` or `refused R`
fn outcome(asked: &mut Exchange) -> SetOutcome {
    match asked.word() {
        "refused" => SetOutcome::Refused(refused(asked)),
        word => asked.one_of(&OUTCOMES, word, SetOutcome::Done),
    }
}

/// `set P ok`, `set P none` or `set P refused R`
pub fn add_set(asked: &mut Exchange, report: &mut Report) {
    let path = path(asked);
    let outcome = outcome(asked);
    add(asked, &mut report.sets, SetLine { path, outcome });
}

/// `refused R`, or what a link is set to
fn state(asked: &mut Exchange) -> After {
    if asked.takes("refused ") {
        After::Refused(refused(asked))
    } else {
        After::Now(setting(asked))
    }
}

/// `after P V` or `after P refused R`
pub fn add_after(asked: &mut Exchange, report: &mut Report) {
    let path = path(asked);
    let state = state(asked);
    add(asked, &mut report.afters, AfterLine { path, state });
}
