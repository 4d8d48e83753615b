//! Short terms, where they give integers: locals, arguments, constants and integers behind their opcodes (ACPI 6.5, 19.6
//! and 20.2.3).
//!
//! `short_integer`, `put_integer_to_slot` and `count_slot` act at once, or change nothing: then the term is evaluated as
//! any other is. `slot_value` does the same of a local or an argument that holds any value.
ghost use Rattle.std.specs.Prelude.{◌≡◌, ◌≤◌, ◌<◌, ℕ, Ok, None, take, IfSome};
ghost use Rattle.ar_space.specs.Change.{Does};
ghost use Rattle.aml_grammar.specs.State.{little_endian};
ghost use Rattle.aml_marks.specs.Marked.{an_integer};
ghost use Rattle.aml_objects.specs.declared.value.Value.TheVariants as values;
ghost use Rattle.aml_meaning.specs.declared.flow.Flow.TheVariants as flows;
ghost use Rattle.aml_meaning.specs.Meaning.{meaning};
ghost use Rattle.aml_frames.specs.declared.at_once.short_terms.Short.TheVariants as shorts;
ghost use Rattle.aml_frames.specs.declared.uses.TargetUse.TheVariants as uses;
ghost use Rattle.aml_frames.specs.Follow.{term_run};
ghost use Rattle.aml_frames.specs.Places.{behind_term};
ghost use Rattle.aml_frames.specs.at_once.ShortTerms.{row_alone, IsShort};
ghost use Rattle.aml_frames.specs.at_once.Known.{CountedTarget, ShortInteger, TakenTarget};

use crate::activation::Activation;
use aml_convert::truncate_integer;
use aml_meaning::Running;
use aml_objects::{Slot, Value};
use aml_scan::little_endian;
use aml_world::Count;
use ar_space::Space;

/// What a byte says of the term that it begins, if it is an opcode by itself.
#[derive(Clone, Copy)]
pub(crate) enum Short {
    /// A local or an argument.
    Slot(Slot),
    /// An integer that the opcode says.
    Constant(u64),
    /// An integer of so many bytes, which follow the opcode.
    Number(usize),
    /// Anything else.
    Other,
}

/// The short term of a byte that is an opcode by itself.
#[inline(always)]
#[tactic(auto, unfolding(aml_grammar::specs::Table::row_of, aml_grammar::specs::Names::starts_name))]
fn short_at(byte: u8) -> Short
    ensures short { IsShort result (row_alone byte) }
    ensures bound { (count : ℕ) → result ≡ shorts.Number count → count ≤ 8 }
{
    match byte {
        0x00 => Short::Constant(0),
        0x01 => Short::Constant(1),
        0x0A => Short::Number(1),
        0x0B => Short::Number(2),
        0x0C => Short::Number(4),
        0x0E => Short::Number(8),
        0x60 => Short::Slot(Slot::Local(0)),
        0x61 => Short::Slot(Slot::Local(1)),
        0x62 => Short::Slot(Slot::Local(2)),
        0x63 => Short::Slot(Slot::Local(3)),
        0x64 => Short::Slot(Slot::Local(4)),
        0x65 => Short::Slot(Slot::Local(5)),
        0x66 => Short::Slot(Slot::Local(6)),
        0x67 => Short::Slot(Slot::Local(7)),
        0x68 => Short::Slot(Slot::Argument(0)),
        0x69 => Short::Slot(Slot::Argument(1)),
        0x6A => Short::Slot(Slot::Argument(2)),
        0x6B => Short::Slot(Slot::Argument(3)),
        0x6C => Short::Slot(Slot::Argument(4)),
        0x6D => Short::Slot(Slot::Argument(5)),
        0x6E => Short::Slot(Slot::Argument(6)),
        0xFF => Short::Constant(u64::MAX),
        _ => Short::Other,
    }
}

/// The integer of a short term that stands next: a local or an argument that holds an integer, a constant, or an
/// integer behind its opcode. It takes a step, and evaluation goes behind the term. In every other case, also where no
/// step or no level is left, nothing changes.
#[inline(always)]
pub fn short_integer<S: Space>(
    run: &mut Running<S>,
    act: &mut Activation,
    levels: u8,
) -> Option<u64>
    ensures { ShortInteger S.accesses result act.new run.new levels act.old run.old }
{
    if levels == 0 || run.steps == 0 {
        return None;
    }
    let number = match short_at(act.next_byte()) {
        Short::Slot(slot) => {
            let Some(number) = run.world.slot_integer(slot) else {
                return None;
            };
            act.advance(1);
            number
        }
        Short::Constant(number) => {
            act.advance(1);
            truncate_integer(run.world.width(), number)
        }
        Short::Number(count) => {
            act.advance(1);
            let number = number_at(act, count);
            act.advance(count);
            truncate_integer(run.world.width(), number)
        }
        Short::Other => return None,
    };
    run.steps -= 1;
    Some(number)
}

/// The value of the next local or argument, if it holds one. It takes a step, and evaluation goes behind the term. In
/// every other case, also where no step or no level is left, nothing changes.
pub fn slot_value<S: Space>(run: &mut Running<S>, act: &mut Activation, levels: u8) -> Option<Value>
    ensures value { IfSome result (λ value. Does (Ok (flows.Value value)) run.new
        (term_run S.accesses (meaning S.accesses) act.old levels) run.old) }
    ensures paid { IfSome result (λ value. run.new.1 < run.old.1) }
    ensures behind { IfSome result (λ value. act.new ≡ behind_term act.old levels) }
    ensures none { result ≡ None → run.new ≡ run.old }
    ensures stays { result ≡ None → act.new ≡ act.old }
{
    if levels == 0 || run.steps == 0 {
        return None;
    }
    let Short::Slot(slot) = short_at(act.next_byte()) else {
        return None;
    };
    // A slot that holds nothing is refused where its term is evaluated.
    let Ok(value) = run.world.slot_read(slot) else {
        return None;
    };
    run.steps -= 1;
    act.advance(1);
    Some(value)
}

/// The integer of the next bytes, the lowest first; missing ones are zero. Reads of one, two and four bytes are inlined;
/// `number_of`, for eight bytes or missing ones, isn't.
#[inline(always)]
#[tactic(auto, using(crate::proofs::Forming::bytes))]
fn number_at(act: &Activation, count: usize) -> u64
    requires { count ≤ 8 }
    ensures { result ≡ (an_integer count act.now.place).0 }
{
    match count {
        1 => u64::from(act.next_byte()),
        2 => word_of(act.rest()),
        4 => double_word_of(act.rest()),
        _ => number_of(act.rest(), count),
    }
}

/// The number of the first two bytes.
#[inline(always)]
fn word_of(bytes: &[u8]) -> u64
    ensures { result ≡ little_endian (take 2 bytes.now) }
{
    match bytes {
        [low, high, ..] => u64::from(*low) + 256 * u64::from(*high),
        _ => number_of(bytes, 2),
    }
}

/// The number of the first four bytes.
#[inline(always)]
fn double_word_of(bytes: &[u8]) -> u64
    ensures { result ≡ little_endian (take 4 bytes.now) }
{
    match bytes {
        [lowest, low, high, highest, ..] => {
            u64::from(*lowest)
                + 256 * u64::from(*low)
                + 65536 * u64::from(*high)
                + 16777216 * u64::from(*highest)
        }
        _ => number_of(bytes, 4),
    }
}

/// The number of so many bytes, the first ones.
#[inline(never)]
fn number_of(bytes: &[u8], count: usize) -> u64
    requires { count ≤ 8 }
    ensures { result ≡ little_endian (take count bytes.now) }
{
    let here = count.min(bytes.len());
    little_endian(&bytes[..here])
}

/// Stores an integer to a local or an argument that stands next. Where another term stands, no level is left, there is
/// no frame of slots, or the argument holds a reference, it answers no, and nothing changes.
#[inline(always)]
pub(crate) fn put_integer_to_slot<S: Space>(
    run: &mut Running<S>,
    act: &mut Activation,
    levels: u8,
    number: u64,
) -> bool
    ensures { TakenTarget S.accesses result (flows.Value (values.Integer number)) act.new run.new
        (uses.Store (values.Integer number)) levels act.old run.old }
{
    if levels == 0 {
        return false;
    }
    let Short::Slot(slot) = short_at(act.next_byte()) else {
        return false;
    };
    if !run.world.put_slot_integer(slot, number) {
        return false;
    }
    act.advance(1);
    true
}

/// Increments or decrements a local or an argument that stands next and holds an integer, and gives its new value. In
/// every other case nothing changes.
#[inline(always)]
pub(crate) fn count_slot<S: Space>(
    run: &mut Running<S>,
    act: &mut Activation,
    levels: u8,
    kind: Count,
) -> Option<u64>
    ensures { CountedTarget S.accesses result act.new run.new kind levels act.old run.old }
{
    if levels == 0 {
        return None;
    }
    let Short::Slot(slot) = short_at(act.next_byte()) else {
        return None;
    };
    let Some(before) = run.world.slot_integer(slot) else {
        return None;
    };
    let after = run.world.count_integer(kind, before);
    if !run.world.put_slot_integer(slot, after) {
        return None;
    }
    act.advance(1);
    Some(after)
}
