//! Machines that are made from images of their tables.
use crate::answers::{say_path_of, say_table};
use crate::given;
use crate::loading::say_answered;
use crate::reading::texts;
use crate::shown::say_kind;
use acpi_machine::{Kind, Machine, Mode};
use acpi_prt::{Pin, Route, get_irq_routing_table};
use aml_objects::Octets;
use aml_path::Path;
use aml_world::Datum;
use ar_space::{Result, Sparse};
use std::alloc::Global;
use test_rows::Exchange;
use test_words::{count, path, push_path, refuse, say_done};

/// Answers names and what stands there, or `none`.
fn say_nodes(asked: &mut Exchange, nodes: &[(Path, Kind<'_>)]) {
    if nodes.is_empty() {
        asked.say("none");
    }
    for node in nodes {
        asked.separate(", ");
        push_path(asked, &node.0);
        say_kind(asked, node.1);
    }
}

/// All names but the root, in the order of their paths, and what stands there.
fn walked(alloc: Global, machine: &Machine<Sparse>) -> Result<Vec<(Path, Kind<'_>)>> {
    machine.walk_namespace(alloc)
}

/// `nodes`: all names but the root, in the order of their paths, and what stands there.
fn nodes(asked: &mut Exchange, machine: &Machine<Sparse>) {
    match walked(asked.alloc(), machine) {
        Ok(nodes) => say_nodes(asked, nodes.as_slice()),
        Err(refusal) => refuse(asked, refusal),
    }
}

/// `node PATH`: what stands at a path.
fn node(asked: &mut Exchange, machine: &Machine<Sparse>) {
    let path = path(asked);
    match machine.find_node(&path) {
        Some(kind) => say_kind(asked, kind),
        None => asked.say("nothing"),
    }
}

/// The signature of a table.
fn signature(asked: &mut Exchange) -> [u8; 4] {
    match asked.word().as_bytes() {
        [first, second, third, fourth] => [*first, *second, *third, *fourth],
        _ => {
            asked.misunderstand();
            [0; 4]
        }
    }
}

/// `table SIGNATURE N`: the bytes of the Nth table of a signature.
fn table(asked: &mut Exchange, machine: &Machine<Sparse>) {
    let signature = signature(asked);
    let number = count(asked);
    say_table(asked, machine.get_table(signature, number));
}

/// `madt`: the bytes of the MADT.
fn madt(asked: &mut Exchange, machine: &Machine<Sparse>) {
    match machine.madt() {
        Some(madt) => asked.say_bytes(madt.as_slice()),
        None => asked.say("none"),
    }
}

/// `mode`: how the machine delivers interrupts.
fn mode(asked: &mut Exchange, mode: Mode) {
    asked.say(match mode {
        Mode::Pic => "pic",
        Mode::Apic => "apic",
    });
}

/// The modes, by their words.
const MODES: [(&str, Mode); 2] = [("pic", Mode::Pic), ("apic", Mode::Apic)];

/// Tells the firmware the mode.
fn initialized(alloc: Global, machine: &mut Machine<Sparse>, mode: Mode) -> Result<()> {
    machine.initialize(alloc, mode)
}

/// `initialize pic` or `initialize apic`: tells the firmware the mode.
fn initialize(asked: &mut Exchange, machine: &mut Machine<Sparse>) {
    let word = asked.word();
    let mode = asked.one_of(&MODES, word, Mode::Apic);
    let outcome = initialized(asked.alloc(), machine, mode);
    say_done(asked, outcome);
}

/// What the name at a path answers.
fn evaluated(
    alloc: Global,
    machine: &mut Machine<Sparse>,
    path: &Path,
    arguments: Vec<Datum>,
) -> Result<Datum> {
    machine.evaluate_object(alloc, path, arguments)
}

/// `evaluate PATH [with ARGUMENTS]`: what the name at a path answers.
fn evaluate(asked: &mut Exchange, machine: &mut Machine<Sparse>) {
    let path = path(asked);
    let arguments = given::data(asked);
    let outcome = evaluated(asked.alloc(), machine, &path, arguments);
    say_answered(asked, outcome);
}

/// Has `_OSI` know these texts, and no other.
fn known(machine: &mut Machine<Sparse>, texts: Vec<Octets>) -> Result<()> {
    machine.set_osi(texts)
}

/// `know N TEXT`: `_OSI` knows this text from now on, so often, and no other.
fn know(asked: &mut Exchange, machine: &mut Machine<Sparse>) {
    let texts = texts(asked);
    say_done(asked, known(machine, texts));
}

/// The letter of a pin.
fn letter(pin: u8) -> &'static str {
    match pin {
        0 => "A",
        1 => "B",
        2 => "C",
        3 => "D",
        _ => "?",
    }
}

/// Answers a pin, and where it leads to.
fn push_pin(asked: &mut Exchange, pin: &Pin) {
    let number = format!(in asked.alloc(); "{}", pin.number);
    asked.push_text(number);
    asked.say(letter(pin.pin));
    match &pin.route {
        Route::Wired(interrupt) => {
            asked.say("wired");
            asked.say_number(u64::from(*interrupt));
        }
        Route::Link(path) => say_path_of(asked, "link", path),
    }
}

/// Answers pins, or `none`.
fn say_pins(asked: &mut Exchange, pins: &[Pin]) {
    if pins.is_empty() {
        asked.say("none");
    }
    for pin in pins {
        asked.separate(", ");
        push_pin(asked, pin);
    }
}

/// The pins of the routing table below a device.
fn routed(alloc: Global, machine: &mut Machine<Sparse>, device: &Path) -> Result<Vec<Pin>> {
    get_irq_routing_table(alloc, machine, device)
}

/// `pins PATH`: the pins that the routing table below a device names, and where they lead to.
fn pins(asked: &mut Exchange, machine: &mut Machine<Sparse>) {
    let device = path(asked);
    match routed(asked.alloc(), machine, &device) {
        Ok(pins) => say_pins(asked, pins.as_slice()),
        Err(refusal) => refuse(asked, refusal),
    }
}

/// A question of a machine.
#[derive(Clone, Copy)]
pub enum Ask {
    Nodes,
    Node,
    Table,
    Madt,
    Mode,
    Initialize,
    Evaluate,
    Know,
    Pins,
}

/// Answers a question of the machine that stands.
fn answer_of_machine(asked: &mut Exchange, machine: &mut Machine<Sparse>, ask: Ask) {
    match ask {
        Ask::Nodes => nodes(asked, machine),
        Ask::Node => node(asked, machine),
        Ask::Table => table(asked, machine),
        Ask::Madt => madt(asked, machine),
        Ask::Mode => mode(asked, machine.mode()),
        Ask::Initialize => initialize(asked, machine),
        Ask::Evaluate => evaluate(asked, machine),
        Ask::Know => know(asked, machine),
        Ask::Pins => pins(asked, machine),
    }
}

/// Answers a question of this group.
pub fn answer(asked: &mut Exchange, machine: &mut Option<Machine<Sparse>>, ask: Ask) {
    match machine {
        Some(machine) => answer_of_machine(asked, machine, ask),
        None => asked.misunderstand(),
    }
}
