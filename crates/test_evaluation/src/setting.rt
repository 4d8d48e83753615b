//! What stands before a world or a machine is made, and single bytes of the registers.
use crate::evaluation::Evaluation;
use crate::reading::texts;
use aml_objects::Octets;
use ar_space::{IntegerWidth, Sparse};
use test_rows::Exchange;
use test_words::{SpaceKind, place, place_in, put_from, say_byte, say_done};

/// The widths of integers, by their bits.
const WIDTHS: [(&str, IntegerWidth); 2] = [
    ("32", IntegerWidth::Bits32),
    ("64", IntegerWidth::Bits64),
];

/// `width 32` or `width 64`: how wide the integers of the world are.
fn width(asked: &mut Exchange) -> IntegerWidth {
    let bits = asked.word();
    asked.one_of(&WIDTHS, bits, IntegerWidth::Bits64)
}

/// `osi N TEXT`: the world or the machine knows this text, so often.
fn set_texts(asked: &mut Exchange, osi: &mut Vec<Octets>) {
    *osi = texts(asked);
}

/// `aml BYTES`: puts AML aside that `load aml` loads.
fn put_aside(asked: &mut Exchange, aml: &mut Vec<u8>) {
    *aml = asked.bytes();
}

/// `io PORT BYTES`, `memory ADDRESS BYTES` or `pci SEGMENT BUS DEVICE FUNCTION REGISTER BYTES`: bytes that stand in
/// registers.
fn put(asked: &mut Exchange, space: &mut Sparse, kind: SpaceKind) {
    let first = place_in(asked, kind);
    put_from(asked, space, first);
}

/// The same, before there is a world or a machine.
fn put_alone(asked: &mut Exchange, row: &mut Evaluation, kind: SpaceKind) {
    if row.world.is_none() && row.machine.is_none() {
        put(asked, &mut row.space, kind);
    } else {
        asked.misunderstand();
    }
}

/// The registers, wherever they are.
fn registers(row: &Evaluation) -> &Sparse {
    if let Some(world) = &row.world {
        return world.space().inner();
    }
    match &row.machine {
        Some(machine) => machine.space(),
        None => &row.space,
    }
}

/// `byte io PORT` and so on: the byte that stands there now.
fn byte(asked: &mut Exchange, registers: &Sparse) {
    let at = place(asked);
    say_byte(asked, registers.byte(at));
}

/// A question of what stands before a world or a machine.
#[derive(Clone, Copy)]
pub enum Ask {
    Width,
    Osi,
    Aml,
    Put(SpaceKind),
    Byte,
}

/// Answers a question of this group.
pub fn answer(asked: &mut Exchange, row: &mut Evaluation, ask: Ask) {
    match ask {
        Ask::Width => row.width = width(asked),
        Ask::Osi => set_texts(asked, &mut row.osi),
        Ask::Aml => put_aside(asked, &mut row.aside.aml),
        Ask::Put(kind) => put_alone(asked, row, kind),
        Ask::Byte => byte(asked, registers(row)),
    }
}
