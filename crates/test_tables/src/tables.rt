//! Questions of the tables that are found in memory.

use crate::answers::{given, hexadecimal, number_of};
use crate::distinct::Distinct;
use crate::row::Row;
use crate::structures::{Structure, image_of};
use ar_tables::{
    Image, IntegerWidth, MadtEntry, Ssdts, Table, Tables, find_tables, madt_entries, sci_source,
};
use test_rows::Exchange;
use test_words::{add, count, say_byte, say_done, say_word_and_number};

/// `image-put ADDRESS: BYTE`: puts a byte into a plain image.
fn image_put(asked: &mut Exchange, image: &mut Image) {
    let address = hexadecimal(asked);
    let byte = asked.hexadecimal(0xFF) as u8;
    say_done(asked, image.put(address, byte));
}

/// `image-byte ADDRESS`: the byte of a plain image.
fn image_byte(asked: &mut Exchange, image: &Image) {
    let address = hexadecimal(asked);
    say_byte(asked, image.byte(address));
}

/// Finds the tables of an image, from an RSDP on.
fn find(asked: &mut Exchange, tables: &mut Option<Tables>, image: &Image, rsdp: u64) {
    let outcome = find_tables(asked.alloc(), image, rsdp);
    *tables = given(asked, outcome);
}

/// `tables RSDP`: the tables of the structures.
fn find_at(asked: &mut Exchange, tables: &mut Option<Tables>, structures: &[Structure]) {
    let rsdp = hexadecimal(asked);
    let image = image_of(asked, structures, 0, usize::MAX);
    find(asked, tables, &image, rsdp);
}

/// The number of the refusal of the tables of an image, or 0.
pub fn number_of_tables(asked: &Exchange, image: &Image, rsdp: u64) -> u8 {
    number_of(find_tables(asked.alloc(), image, rsdp))
}

/// How many bytes the structure at an address has.
fn length_at(structures: &[Structure], address: u64) -> usize {
    for structure in structures {
        if structure.address == address {
            return structure.bytes.len();
        }
    }
    0
}

/// `cuts ADDRESS from RSDP`: the answers of all searches in which the structure at that address is cut before one of
/// its bytes.
fn cuts(asked: &mut Exchange, structures: &[Structure]) {
    let address = asked.until(" from ");
    let address = asked.digits(address, 16, u64::MAX);
    let rsdp = hexadecimal(asked);
    let mut answers = Distinct::new();
    for count in 0..length_at(structures, address) {
        let image = image_of(asked, structures, address, count);
        answers.note(number_of_tables(asked, &image, rsdp));
    }
    answers.say(asked);
}

/// A table by its name: `dsdt`, or `ssdt` and its place in the list, from 0 on.
fn named<'a>(asked: &mut Exchange, tables: &'a Tables) -> &'a Table {
    let found = match asked.word() {
        "dsdt" => Some(&tables.dsdt),
        "ssdt" => tables.ssdts.as_slice().get(count(asked)),
        _ => None,
    };
    if found.is_none() {
        asked.misunderstand();
    }
    found.unwrap_or(&tables.dsdt)
}

/// `body TABLE`: the bytes behind the header of a table.
fn body(asked: &mut Exchange, tables: &Tables) {
    let table = named(asked, tables);
    asked.say_bytes(table.body());
}

/// `length TABLE`: how many bytes a table has.
fn length(asked: &mut Exchange, tables: &Tables) {
    let table = named(asked, tables);
    asked.say_number(table.as_slice().len() as u64);
}

/// `bytes madt`: the bytes of the MADT, or `none`.
fn bytes_of_madt(asked: &mut Exchange, tables: &Tables) {
    match &tables.madt {
        Some(madt) => asked.say_bytes(madt.as_slice()),
        None => asked.say("none"),
    }
}

/// `bytes TABLE`: the bytes of a table, or `none`.
fn bytes_of_table(asked: &mut Exchange, tables: &Tables) {
    if asked.takes("fadt") {
        asked.say_bytes(tables.fadt.as_slice());
    } else if asked.takes("madt") {
        bytes_of_madt(asked, tables);
    } else {
        let table = named(asked, tables);
        asked.say_bytes(table.as_slice());
    }
}

/// Answers a structure of a MADT.
fn say_entry(asked: &mut Exchange, entry: MadtEntry) {
    match entry {
        MadtEntry::IoApic {
            id,
            address,
            gsi_base,
        } => {
            say_word_and_number(asked, "io apic", u64::from(id));
            asked.say("at");
            asked.say_hexadecimal(u64::from(address));
            say_word_and_number(asked, "base", u64::from(gsi_base));
        }
        MadtEntry::SourceOverride {
            bus,
            source,
            gsi,
            flags,
        } => {
            say_word_and_number(asked, "override bus", u64::from(bus));
            say_word_and_number(asked, "source", u64::from(source));
            say_word_and_number(asked, "to", u64::from(gsi));
            asked.say("flags");
            asked.say_bytes(&flags.to_be_bytes());
        }
    }
}

/// `sci-source apic` or `sci-source pic`: the interrupt source of the System Control Interrupt.
fn say_sci_source(asked: &mut Exchange, tables: &Tables) {
    let apic = asked.word() == "apic";
    match sci_source(tables, apic) {
        Some(interrupt) => asked.say_number(u64::from(interrupt)),
        None => asked.say("none"),
    }
}

/// `madt-entry N`: what the walk over the MADT's structures gives after N others.
fn madt_entry(asked: &mut Exchange, tables: &Tables) {
    let Some(madt) = &tables.madt else {
        asked.misunderstand();
        return;
    };
    let mut entries = madt_entries(madt);
    for _ in 0..count(asked) {
        let _passed = entries.next();
    }
    match entries.next() {
        Some(entry) => say_entry(asked, entry),
        None => asked.say("none"),
    }
}

/// Answers the bytes that a list of one SSDT gives back.
fn say_given_back(asked: &mut Exchange, table: Table) {
    let mut list = Vec::new(asked.alloc());
    add(asked, &mut list, table);
    match Ssdts::from_vec(list).into_vec().pop() {
        Some(table) => asked.say_bytes(table.into_vec().as_slice()),
        None => asked.say("none"),
    }
}

/// `ssdt-of BYTES`: the bytes that a list of one SSDT, made of these bytes, gives back.
fn given_back(asked: &mut Exchange) {
    let bytes = asked.bytes();
    if bytes.len() < 36 {
        asked.misunderstand();
    } else {
        say_given_back(asked, Table::from_vec(bytes));
    }
}

/// How many bits integers have.
fn integers(width: IntegerWidth) -> &'static str {
    match width {
        IntegerWidth::Bits32 => "32 bits",
        IntegerWidth::Bits64 => "64 bits",
    }
}

/// A question of tables that were found.
#[derive(Clone, Copy)]
pub enum FoundAsk {
    Bytes,
    Body,
    Length,
    Ssdts,
    DsdtAddress,
    SystemControlInterrupt,
    SciSource,
    Integers,
    MadtEntry,
}

/// Answers a question of tables that were found.
fn of_found(asked: &mut Exchange, tables: &Tables, ask: FoundAsk) {
    match ask {
        FoundAsk::Bytes => bytes_of_table(asked, tables),
        FoundAsk::Body => body(asked, tables),
        FoundAsk::Length => length(asked, tables),
        FoundAsk::Ssdts => asked.say_number(tables.ssdts.as_slice().len() as u64),
        FoundAsk::DsdtAddress => asked.say_hexadecimal(tables.fadt.dsdt_address()),
        FoundAsk::SystemControlInterrupt => {
            asked.say_number(u64::from(tables.fadt.sci_interrupt()));
        }
        FoundAsk::SciSource => say_sci_source(asked, tables),
        FoundAsk::Integers => asked.say(integers(tables.width)),
        FoundAsk::MadtEntry => madt_entry(asked, tables),
    }
}

/// Answers a question of the tables that were found.
pub fn answer_of_found(asked: &mut Exchange, tables: &Option<Tables>, ask: FoundAsk) {
    match tables {
        Some(tables) => of_found(asked, tables, ask),
        None => asked.misunderstand(),
    }
}

/// A question of an image, or one that finds tables.
#[derive(Clone, Copy)]
pub enum Ask {
    ImagePut,
    ImageByte,
    Tables,
    MachineTables,
    Cuts,
    SsdtOf,
}

/// Answers a question of an image, or one that finds tables.
pub fn answer(asked: &mut Exchange, row: &mut Row, ask: Ask) {
    match ask {
        Ask::ImagePut => image_put(asked, &mut row.image),
        Ask::ImageByte => image_byte(asked, &row.image),
        Ask::Tables => find_at(asked, &mut row.tables, row.structures.as_slice()),
        Ask::MachineTables => {
            let machine = &row.machine;
            find(asked, &mut row.tables, machine.space.memory(), machine.rsdp);
        }
        Ask::Cuts => cuts(asked, row.structures.as_slice()),
        Ask::SsdtOf => given_back(asked),
    }
}
