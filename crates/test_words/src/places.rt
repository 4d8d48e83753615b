//! Places of bytes, and widths of accesses.
use crate::refusals::say_done;
use ar_space::{Place, Sparse, Width};
use test_rows::Exchange;

/// An address space.
#[derive(Clone, Copy)]
pub enum SpaceKind {
    /// The ports of the processor: a place is a port of 16 bits.
    Io,
    /// Physical memory: a place is an address of 64 bits.
    Memory,
    /// The configuration space of PCI: a place is a segment, a bus, a device, a function and a register.
    Pci,
}

/// The address spaces, by their words.
const SPACES: [(&str, SpaceKind); 3] = [
    ("io", SpaceKind::Io),
    ("memory", SpaceKind::Memory),
    ("pci", SpaceKind::Pci),
];

/// The widths of accesses, by their bits.
const WIDTHS: [(&str, Width); 4] = [
    ("8", Width::W8),
    ("16", Width::W16),
    ("32", Width::W32),
    ("64", Width::W64),
];

/// Reads a width of accesses, by its bits.
pub fn width(asked: &mut Exchange) -> Width {
    let bits = asked.word();
    asked.one_of(&WIDTHS, bits, Width::W8)
}

/// Reads a number of 16 bits in hexadecimal digits.
pub fn hexadecimal16(asked: &mut Exchange) -> u16 {
    asked.hexadecimal(0xFFFF) as u16
}

/// Reads a number of 8 bits in hexadecimal digits.
pub fn hexadecimal8(asked: &mut Exchange) -> u8 {
    asked.hexadecimal(0xFF) as u8
}

/// Reads a place in an address space: `PORT`, `ADDRESS`, or `SEGMENT BUS DEVICE FUNCTION REGISTER`.
pub fn place_in(asked: &mut Exchange, space: SpaceKind) -> Place {
    match space {
        SpaceKind::Io => Place::Io(hexadecimal16(asked)),
        SpaceKind::Memory => Place::Memory(asked.hexadecimal(u64::MAX)),
        SpaceKind::Pci => Place::Pci {
            seg: hexadecimal16(asked),
            bus: hexadecimal8(asked),
            dev: hexadecimal8(asked),
            func: hexadecimal8(asked),
            reg: hexadecimal16(asked),
        },
    }
}

/// Reads a place: `io PORT`, `memory ADDRESS`, or `pci SEGMENT BUS DEVICE FUNCTION REGISTER`.
pub fn place(asked: &mut Exchange) -> Place {
    let word = asked.word();
    let space = asked.one_of(&SPACES, word, SpaceKind::Memory);
    place_in(asked, space)
}

/// Answers a word and numbers in hexadecimal digits.
fn say_hexadecimals(asked: &mut Exchange, word: &str, numbers: &[u64]) {
    asked.say(word);
    for number in numbers {
        asked.say_hexadecimal(*number);
    }
}

/// Answers a place, as [`place`] reads it.
pub fn say_place(asked: &mut Exchange, place: Place) {
    match place {
        Place::Memory(address) => say_hexadecimals(asked, "memory", &[address]),
        Place::Io(port) => say_hexadecimals(asked, "io", &[u64::from(port)]),
        Place::Pci {
            seg,
            bus,
            dev,
            func,
            reg,
        } => say_hexadecimals(
            asked,
            "pci",
            &[
                u64::from(seg),
                u64::from(bus),
                u64::from(dev),
                u64::from(func),
                u64::from(reg),
            ],
        ),
    }
}

/// Reads `BYTES`, and puts them into registers from a place on.
pub fn put_from(asked: &mut Exchange, space: &mut Sparse, first: Place) {
    let mut next = Some(first);
    let bytes = asked.bytes();
    for byte in bytes.iter() {
        match next {
            Some(at) => {
                say_done(asked, space.put(at, *byte));
                next = at.offset_by(1);
            }
            None => asked.misunderstand(),
        }
    }
}

/// Reads `PLACE: BYTES`, and puts the bytes into registers from the place on.
pub fn put(asked: &mut Exchange, space: &mut Sparse) {
    let first = place(asked);
    put_from(asked, space, first);
}

/// Answers a byte as two hexadecimal digits, or `none`.
pub fn say_byte(asked: &mut Exchange, byte: Option<u8>) {
    match byte {
        Some(byte) => asked.say_bytes(&[byte]),
        None => asked.say("none"),
    }
}
