//! Where evaluation is refused: the terms that were being evaluated, and the name that was looked for. All of this
//! is done once evaluation is refused, and changes nothing that a contract sees.
ghost use Rattle.std.specs.Prelude.{◌≡◌};

use crate::activation::{Activation, between};
use crate::frames::{Frame, Loop, Next};
use crate::position::MethodPath;
use aml_meaning::Running;
use aml_path::{NameString, Path};
use aml_world::{TracePlace, WorldState};
use ar_space::{Refusal, Result};
use std::alloc::Global;

/// The opcode of While.
const WHILE: u8 = 0xA2;

/// The first byte of an opcode of two bytes.
const EXTENDED: u8 = 0x5B;

/// A frame that waits is given up. The predicate of a While is no item of a list, so the trace names its While.
/// Where names stand in a scope of their own in the body of a control method, the scope around it is kept.
pub fn give_up(act: &mut Activation, outer: &mut Option<MethodPath>, frame: Frame)
    ensures { act.new ≡ act.old }
{
    match frame {
        Frame::Predicate(turn) => tell_loop(act, turn),
        Frame::Scope(path, _) => *outer = Some(path),
        other => drop(other),
    }
}

/// The last list that is given up, which is the outermost one: the trace is told whole.
pub fn tell_last<S>(run: &mut Running<S>, act: &Activation, outer: &Option<MethodPath>)
    ensures { run.new ≡ run.old }
{
    tell_place(run, act, outer);
    run.world.end_trace(run.steps);
}

/// The list that is given up, with the scope that was around those in the body of a control method. One without bytes
/// is none: no term stands in it.
pub fn tell_place<S>(run: &mut Running<S>, act: &Activation, outer: &Option<MethodPath>)
    ensures { run.new ≡ run.old }
{
    if act.bytes.as_slice().is_empty() {
        return;
    }
    let place = place_of(run.world.alloc, act, outer);
    run.world.put_trace_place(place);
}

/// The place of the term that was being evaluated in a list.
fn place_of(alloc: Global, act: &Activation, outer: &Option<MethodPath>) -> Result<TracePlace> {
    let is_body = act.depth() > 0;
    let scope = if is_body {
        method_of(act, outer)
    } else {
        act.scope().path
    };
    Ok(TracePlace {
        scope: scope.copy(alloc)?,
        is_body,
        at: act.start(),
        code: code_at(act.bytes.as_slice(), act.start()),
    })
}

/// The path of the control method whose body this is: the scope that was around those in it, or the one that names
/// stand in.
fn method_of<'a>(act: &'a Activation, outer: &'a Option<MethodPath>) -> &'a Path {
    match outer {
        Some(method) => method.path(),
        None => act.scope().path,
    }
}

/// The opcode of the term that begins at an offset: one byte, or both of one that has two. None where a name begins.
fn code_at(bytes: &[u8], at: usize) -> Option<u16> {
    match between(bytes, at, bytes.len()) {
        [EXTENDED, second, ..] => Some(0x5B00 + u16::from(*second)),
        [first, ..] => code_of(*first),
        [] => None,
    }
}

/// The opcode that a byte is; none of one that begins a name.
fn code_of(first: u8) -> Option<u16> {
    match first {
        b'A'..=b'Z' | b'_' | b'\\' | b'^' | b'.' | b'/' => None,
        _ => Some(u16::from(first)),
    }
}

/// What came of a name, which the trace tells where it is refused.
#[inline(always)]
pub fn told<S, A>(
    world: &mut WorldState<S>,
    act: &Activation,
    name: &NameString,
    outcome: Result<A>,
) -> Result<A>
    ensures same { result ≡ outcome }
    ensures world { world.new ≡ world.old }
{
    match outcome {
        Ok(value) => Ok(value),
        Err(refusal) => {
            world.put_trace_name(name, act.scope().path);
            Err(refusal)
        }
    }
}

/// What came of the name that stands next, which the trace tells where it is refused.
#[inline(always)]
pub fn told_here<S, A>(world: &mut WorldState<S>, act: &Activation, outcome: Result<A>) -> Result<A>
    ensures same { result ≡ outcome }
    ensures world { world.new ≡ world.old }
{
    match outcome {
        Ok(value) => Ok(value),
        Err(refusal) => {
            tell_name(world, act);
            Err(refusal)
        }
    }
}

/// The name that stands next is told.
#[cold]
fn tell_name<S>(world: &mut WorldState<S>, act: &Activation)
    ensures { world.new ≡ world.old }
{
    match act.name(world.alloc) {
        Ok(name) => world.put_trace_name(&name, act.scope().path),
        Err(_) => {}
    }
}

/// What came of the object at a path, which the trace tells where it is refused.
pub fn told_path<S, A>(world: &mut WorldState<S>, path: &Path, outcome: Result<A>) -> Result<A>
    ensures same { result ≡ outcome }
    ensures world { world.new ≡ world.old }
{
    match outcome {
        Ok(value) => Ok(value),
        Err(refusal) => {
            world.put_trace_path(path);
            Err(refusal)
        }
    }
}

/// The predicate of a While is refused: the While is told.
#[cold]
pub fn told_loop(act: &mut Activation, turn: Loop, refusal: Refusal) -> Refusal
    ensures same { result ≡ refusal }
    ensures act { act.new ≡ act.old }
{
    tell_loop(act, turn);
    refusal
}

/// What came of the predicate of a While at a further turn: where it is refused, the While is told.
#[inline(always)]
pub fn told_turn(act: &mut Activation, turn: Loop, outcome: Result<Next>) -> Result<Next>
    ensures same { result ≡ outcome }
    ensures act { act.new ≡ act.old }
{
    match outcome {
        Ok(next) => Ok(next),
        Err(refusal) => Err(told_loop(act, turn, refusal)),
    }
}

/// A While is told, whose predicate is no item of a list.
fn tell_loop(act: &mut Activation, turn: Loop)
    ensures { act.new ≡ act.old }
{
    let start = loop_start(act.bytes.as_slice(), turn.predicate.at, turn.outer.at);
    act.tell_from(start);
}

/// Where a While begins, by where its predicate does and by its end: its opcode and its length, of one to four bytes,
/// stand before the predicate.
fn loop_start(bytes: &[u8], predicate: usize, end: usize) -> usize {
    for count in 2..=5 {
        let start = predicate.saturating_sub(count);
        let length = end.saturating_sub(start).saturating_sub(1);
        if opens_loop(between(bytes, start, predicate), length) {
            return start;
        }
    }
    predicate
}

/// Whether these bytes are the opcode of a While and a length.
fn opens_loop(bytes: &[u8], length: usize) -> bool {
    match bytes {
        [WHILE, lead] => *lead < 64 && usize::from(*lead) == length,
        [WHILE, lead, low] => long_length(*lead, 1, [*low, 0, 0]) == Some(length),
        [WHILE, lead, low, high] => long_length(*lead, 2, [*low, *high, 0]) == Some(length),
        [WHILE, lead, low, high, top] => {
            long_length(*lead, 3, [*low, *high, *top]) == Some(length)
        }
        _ => false,
    }
}

/// The length that a lead byte and the bytes behind it say, where it tells that so many follow.
fn long_length(lead: u8, count: u8, rest: [u8; 3]) -> Option<usize> {
    if lead / 64 != count {
        return None;
    }
    let [low, high, top] = rest;
    let length = usize::from(lead % 16)
        + 16 * usize::from(low)
        + 4096 * usize::from(high)
        + 1048576 * usize::from(top);
    Some(length)
}
