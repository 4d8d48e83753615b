//! Answers to the questions of a row.
use crate::machine::{TracedMachine, initialize, machine_of};
use crate::row::Row;
use acpi_configure::configure;
use ar_space::{Place, Refusal};
use route_report::{Report, print};
use test_rows::Exchange;
use test_words::say_accesses;

/// Adds bytes to the machine text.
fn add(asked: &mut Exchange, text: &mut Vec<u8>, bytes: &[u8]) {
    if text.extend_from_slice(bytes).is_err() {
        asked.run_out();
    }
}

/// Adds a line to the machine text.
fn add_line(asked: &mut Exchange, text: &mut Vec<u8>, word: &str) {
    let rest = asked.rest();
    add(asked, text, word.as_bytes());
    add(asked, text, b" ");
    add(asked, text, rest.as_bytes());
    add(asked, text, b"\n");
}

/// Answers the number of a refusal.
fn refuse(asked: &mut Exchange, refusal: Refusal) {
    asked.refuse(refusal.number());
}

/// Answers the lines of a report that tell what came of setting links and what they are set to, or `none`.
fn say_settings(asked: &mut Exchange, text: &[u8]) {
    let mut is_none = true;
    for line in text.split(|byte| *byte == b'\n') {
        if line.starts_with(b"set ") || line.starts_with(b"after ") {
            asked.separate(", ");
            asked.push(str::from_utf8(line).unwrap_or("no text"));
            is_none = false;
        }
    }
    if is_none {
        asked.say("none");
    }
}

fn say_report(asked: &mut Exchange, report: &Report) {
    match print(asked.alloc(), report) {
        Ok(text) => say_settings(asked, text.as_slice()),
        Err(refusal) => refuse(asked, refusal),
    }
}

/// Routes the interrupts of a machine.
fn route(asked: &mut Exchange, machine: &mut TracedMachine, dry: bool) {
    match configure(asked.alloc(), machine, dry, &[]) {
        Ok(report) => say_report(asked, &report),
        Err(refusal) => refuse(asked, refusal),
    }
}

/// How many accesses are made before the one that fails; where none does, more than any row makes.
fn passed(asked: &mut Exchange) -> u64 {
    if asked.takes("failing ") {
        asked.number(u64::MAX).saturating_sub(1)
    } else {
        u64::MAX
    }
}

/// Initializes a machine in the mode `apic`, and routes its interrupts.
fn route_initialized(asked: &mut Exchange, machine: &mut TracedMachine, dry: bool) {
    match initialize(asked.alloc(), machine) {
        Ok(()) => route(asked, machine, dry),
        Err(refusal) => refuse(asked, refusal),
    }
}

/// `configure`: makes the machine of the text, and routes its interrupts.
fn configured(asked: &mut Exchange, row: &mut Row) {
    let pass = passed(asked);
    let dry = asked.takes("dry");
    match machine_of(asked.alloc(), row.text.as_slice(), pass) {
        Ok(mut machine) => {
            route_initialized(asked, &mut machine, dry);
            drop(row.machine.replace(machine));
        }
        Err(refusal) => refuse(asked, refusal),
    }
}

/// `accesses`: the accesses to the registers since the tables were loaded, the loading among them.
fn accesses(asked: &mut Exchange, machine: &Option<TracedMachine>) {
    match machine {
        Some(machine) => say_accesses(asked, machine.space().accesses()),
        None => asked.misunderstand(),
    }
}

/// The byte of a port.
fn say_byte(asked: &mut Exchange, machine: &TracedMachine, port: u16) {
    match machine.space().inner().inner().byte(Place::Io(port)) {
        Some(byte) => asked.say_bytes(&[byte]),
        None => asked.say("none"),
    }
}

/// `port PORT`: the byte of a port.
fn port(asked: &mut Exchange, machine: &Option<TracedMachine>) {
    let port = asked.hexadecimal(0xFFFF) as u16;
    match machine {
        Some(machine) => say_byte(asked, machine, port),
        None => asked.misunderstand(),
    }
}

/// Answers a question, or takes a line of the machine text.
pub fn answer(asked: &mut Exchange, row: &mut Row) {
    let word = asked.word();
    match word {
        "configure" => configured(asked, row),
        "accesses" => accesses(asked, &row.machine),
        "port" => port(asked, &row.machine),
        _ => add_line(asked, &mut row.text, word),
    }
}
