//! Tables that are loaded into a world, and what its names answer.
use crate::evaluation::Aside;
use crate::given;
use crate::reading::{number, steps};
use crate::telling::{push_datum, say_value};
use aml_meaning::World;
use aml_objects::Value;
use aml_path::Path;
use aml_world::Datum;
use ar_space::{Result, Sparse};
use space_trace::Traced;
use std::alloc::Global;
use test_rows::Exchange;
use test_words::{extend, path, path_of, refuse, say_accesses, say_done};

/// How many steps the table of a control method may take.
const METHOD_STEPS: u64 = 1000;

/// Loads a table in so many steps.
fn loaded(
    alloc: Global,
    world: &mut World<Traced<Sparse>>,
    table: &[u8],
    steps: u64,
) -> Result<()> {
    aml_interp::load(alloc, world, table, steps)
}

/// Answers what loading a table in so many steps gives.
fn load(asked: &mut Exchange, world: &mut World<Traced<Sparse>>, table: &[u8], steps: u64) {
    let outcome = loaded(asked.alloc(), world, table, steps);
    say_done(asked, outcome);
}

/// `load [in N steps] BYTES`, or `aml` in place of the bytes: loads a table, which is given without its header.
fn load_bytes(asked: &mut Exchange, world: &mut World<Traced<Sparse>>, aml: &[u8]) {
    let steps = steps(asked);
    if asked.takes("aml") {
        load(asked, world, aml, steps);
    } else {
        let table = asked.bytes();
        load(asked, world, table.as_slice(), steps);
    }
}

/// The table of a control method `M000` with these flags and this body.
fn method_table(asked: &mut Exchange, flags: u8, body: &[u8]) -> Vec<u8> {
    let length = body.len().saturating_add(7);
    let low = 0x40 + (length % 16) as u8;
    let high = (length / 16 % 256) as u8;
    let mut bytes = Vec::new(asked.alloc());
    extend(asked, &mut bytes, &[0x14, low, high]);
    extend(asked, &mut bytes, b"M000");
    extend(asked, &mut bytes, &[flags]);
    extend(asked, &mut bytes, body);
    bytes
}

/// Loads the control method `M000` with these flags and the body that is left, and says whether it is loaded.
fn load_method(asked: &mut Exchange, world: &mut World<Traced<Sparse>>, flags: u8) -> bool {
    let body = asked.bytes();
    let table = method_table(asked, flags, body.as_slice());
    match loaded(asked.alloc(), world, table.as_slice(), METHOD_STEPS) {
        Ok(()) => true,
        Err(refusal) => {
            refuse(asked, refusal);
            false
        }
    }
}

/// `method FLAGS BYTES`: loads the control method `M000` with these flags and this body.
fn declare_method(asked: &mut Exchange, world: &mut World<Traced<Sparse>>) {
    let flags = number(asked);
    load_method(asked, world, (flags % 256) as u8);
}

/// What the name at a path answers.
fn answered(
    alloc: Global,
    world: &mut World<Traced<Sparse>>,
    path: &Path,
    arguments: Vec<Datum>,
    steps: u64,
) -> Result<Datum> {
    aml_interp::answer(alloc, world, path, arguments, steps)
}

/// Answers a datum, or the refusal.
pub fn say_answered(asked: &mut Exchange, outcome: Result<Datum>) {
    match outcome {
        Ok(datum) => push_datum(asked, &datum),
        Err(refusal) => refuse(asked, refusal),
    }
}

/// `body [in N steps] BYTES`: loads the control method `M000` that takes no arguments and has this body, and calls it.
fn call_body(asked: &mut Exchange, world: &mut World<Traced<Sparse>>) {
    let steps = steps(asked);
    if load_method(asked, world, 0) {
        let path = path_of(asked, "\\M000");
        let outcome = answered(asked.alloc(), world, &path, Vec::new(asked.alloc()), steps);
        say_answered(asked, outcome);
    }
}

/// `answer PATH [in N steps] [with ARGUMENTS]`: what the name at a path answers.
fn answer_path(asked: &mut Exchange, world: &mut World<Traced<Sparse>>) {
    let path = path(asked);
    let steps = steps(asked);
    let arguments = given::data(asked);
    let outcome = answered(asked.alloc(), world, &path, arguments, steps);
    say_answered(asked, outcome);
}

/// The value of the name at a path, and how many steps are left.
pub fn valued(
    alloc: Global,
    world: &mut World<Traced<Sparse>>,
    path: &Path,
    arguments: Vec<Value>,
    steps: u64,
) -> Result<(Value, u64)> {
    aml_interp::eval(alloc, world, path, arguments, steps)
}

/// `value PATH [in N steps] [with VALUES]`: the value of the name at a path, within the world.
fn value_of_path(asked: &mut Exchange, world: &mut World<Traced<Sparse>>, left: &mut u64) {
    let path = path(asked);
    let steps = steps(asked);
    let arguments = given::values(asked, world);
    match valued(asked.alloc(), world, &path, arguments, steps) {
        Ok((value, rest)) => {
            *left = rest;
            say_value(asked, value);
        }
        Err(refusal) => refuse(asked, refusal),
    }
}

/// A question of what is loaded into a world and evaluated in it.
#[derive(Clone, Copy)]
pub enum Ask {
    Load,
    Method,
    Body,
    Answer,
    Value,
    Accesses,
}

/// Answers a question of this group.
pub fn answer(
    asked: &mut Exchange,
    world: &mut World<Traced<Sparse>>,
    aside: &mut Aside,
    ask: Ask,
) {
    match ask {
        Ask::Load => load_bytes(asked, world, aside.aml.as_slice()),
        Ask::Method => declare_method(asked, world),
        Ask::Body => call_body(asked, world),
        Ask::Answer => answer_path(asked, world),
        Ask::Value => value_of_path(asked, world, &mut aside.left),
        Ask::Accesses => say_accesses(asked, world.space().accesses()),
    }
}
