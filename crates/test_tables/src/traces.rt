//! Questions of a register space that keeps the list of its accesses.

use crate::registers::{byte, load, store};
use ar_space::{Place, Space, Sparse, Width};
use space_trace::{Access, Traced};
use std::mem;
use test_rows::Exchange;
use test_words::{count, put, say_place};

/// A space whose accesses are kept.
type Trace = Traced<Sparse>;

/// `trace of PLACE: BYTES`: a new space with these bytes.
fn trace_of(asked: &mut Exchange, trace: &mut Trace) {
    let mut space = Sparse::new(asked.alloc());
    put(asked, &mut space);
    *trace = Traced::new(space);
}

/// `trace loads N`: reads of a byte at each of so many addresses of memory from 0 on, whatever they answer.
fn loads(asked: &mut Exchange, trace: &mut Trace) {
    for address in 0..asked.number(u64::MAX) {
        let _ = trace.read(Place::Memory(address), Width::W8);
    }
}

/// Answers an access.
fn say_access(asked: &mut Exchange, access: Access) {
    let (word, at, width) = match access {
        Access::Read(at, width) => ("load", at, width),
        Access::Write(at, width, _) => ("store", at, width),
    };
    asked.say(word);
    asked.say_number(u64::from(width.bits()));
    say_place(asked, at);
    if let Access::Write(_, _, value) = access {
        asked.push(":");
        asked.say_hexadecimal(value);
    }
}

/// `trace accesses`: all accesses that are kept.
fn accesses(asked: &mut Exchange, trace: &Trace) {
    for access in trace.accesses() {
        asked.separate(",");
        say_access(asked, *access);
    }
}

/// `trace access N`: the access after N others, or `none`.
fn access(asked: &mut Exchange, trace: &Trace) {
    match trace.access(count(asked)) {
        Some(access) => say_access(asked, access),
        None => asked.say("none"),
    }
}

/// `trace taken PLACE`: the byte at a place of the space below, taken out.
fn taken(asked: &mut Exchange, trace: &mut Trace) {
    let space = mem::replace(trace, Traced::new(Sparse::new(asked.alloc()))).into_inner();
    byte(asked, &space);
}

/// A question that begins with `trace`.
#[derive(Clone, Copy)]
enum Ask {
    Of,
    Load,
    Store,
    Loads,
    Accesses,
    Access,
    Count,
    Byte,
    Taken,
}

/// The questions that begin with `trace`, by their second words.
const QUESTIONS: [(&str, Ask); 9] = [
    ("of", Ask::Of),
    ("load", Ask::Load),
    ("store", Ask::Store),
    ("loads", Ask::Loads),
    ("accesses", Ask::Accesses),
    ("access", Ask::Access),
    ("count", Ask::Count),
    ("byte", Ask::Byte),
    ("taken", Ask::Taken),
];

/// Answers a question that begins with `trace`.
pub fn answer(asked: &mut Exchange, trace: &mut Trace) {
    let word = asked.word();
    match asked.one_of(&QUESTIONS, word, Ask::Count) {
        Ask::Of => trace_of(asked, trace),
        Ask::Load => load(asked, trace),
        Ask::Store => store(asked, trace),
        Ask::Loads => loads(asked, trace),
        Ask::Accesses => accesses(asked, trace),
        Ask::Access => access(asked, trace),
        Ask::Count => asked.say_number(trace.count() as u64),
        Ask::Byte => byte(asked, trace.inner()),
        Ask::Taken => taken(asked, trace),
    }
}
