//! Which function answers which question.

use crate::descriptors::OfferAsk;
use crate::machine_lines::{OsiAsk, TextAsk};
use crate::row::Row;
use crate::tables::FoundAsk;
use crate::{descriptors, faults, machine_lines, registers, structures, tables, traces};
use test_rows::Exchange;

/// A question, by what it is about.
#[derive(Clone, Copy)]
enum Ask {
    Number,
    Says,
    Trace,
    Registers(registers::Ask),
    Structures(structures::Ask),
    Tables(tables::Ask),
    Found(FoundAsk),
    Text(TextAsk),
    Machine(machine_lines::Ask),
    Osi(OsiAsk),
    Descriptors(descriptors::Ask),
    Offer(OfferAsk),
}

/// The questions, by their first words.
const QUESTIONS: [(&str, Ask); 53] = [
    ("number", Ask::Number),
    ("says", Ask::Says),
    ("trace", Ask::Trace),
    ("put", Ask::Registers(registers::Ask::Put)),
    ("byte", Ask::Registers(registers::Ask::Byte)),
    ("memory", Ask::Registers(registers::Ask::Memory)),
    ("load", Ask::Registers(registers::Ask::Load)),
    ("store", Ask::Registers(registers::Ask::Store)),
    ("beyond", Ask::Registers(registers::Ask::Beyond)),
    ("width", Ask::Registers(registers::Ask::Width)),
    ("path", Ask::Registers(registers::Ask::Path)),
    ("structure", Ask::Structures(structures::Ask::Structure)),
    ("table", Ask::Structures(structures::Ask::Table)),
    ("header", Ask::Structures(structures::Ask::Header)),
    ("list", Ask::Structures(structures::Ask::List)),
    ("image-put", Ask::Tables(tables::Ask::ImagePut)),
    ("image-byte", Ask::Tables(tables::Ask::ImageByte)),
    ("tables", Ask::Tables(tables::Ask::Tables)),
    ("machine-tables", Ask::Tables(tables::Ask::MachineTables)),
    ("cuts", Ask::Tables(tables::Ask::Cuts)),
    ("ssdt-of", Ask::Tables(tables::Ask::SsdtOf)),
    ("bytes", Ask::Found(FoundAsk::Bytes)),
    ("body", Ask::Found(FoundAsk::Body)),
    ("length", Ask::Found(FoundAsk::Length)),
    ("ssdts", Ask::Found(FoundAsk::Ssdts)),
    ("dsdt-address", Ask::Found(FoundAsk::DsdtAddress)),
    (
        "system-control-interrupt",
        Ask::Found(FoundAsk::SystemControlInterrupt),
    ),
    ("sci-source", Ask::Found(FoundAsk::SciSource)),
    ("integers", Ask::Found(FoundAsk::Integers)),
    ("madt-entry", Ask::Found(FoundAsk::MadtEntry)),
    ("line", Ask::Text(TextAsk::Line)),
    ("text", Ask::Text(TextAsk::Text)),
    ("times", Ask::Text(TextAsk::Times)),
    ("change", Ask::Text(TextAsk::Change)),
    ("cut", Ask::Text(TextAsk::Cut)),
    ("read", Ask::Machine(machine_lines::Ask::Read)),
    ("rsdp", Ask::Machine(machine_lines::Ask::Rsdp)),
    ("text-cuts", Ask::Machine(machine_lines::Ask::TextCuts)),
    ("raise", Ask::Machine(machine_lines::Ask::Raise)),
    ("osi-of", Ask::Osi(OsiAsk::Of)),
    ("osi-texts", Ask::Osi(OsiAsk::Texts)),
    ("osi-text", Ask::Osi(OsiAsk::Text)),
    ("osi-taken", Ask::Osi(OsiAsk::Taken)),
    ("possible", Ask::Descriptors(descriptors::Ask::Possible)),
    ("current", Ask::Descriptors(descriptors::Ask::Current)),
    ("set-count", Ask::Descriptors(descriptors::Ask::SetCount)),
    ("set-taken", Ask::Descriptors(descriptors::Ask::SetTaken)),
    ("numbers", Ask::Offer(OfferAsk::Numbers)),
    ("form", Ask::Offer(OfferAsk::Form)),
    ("polarity", Ask::Offer(OfferAsk::Polarity)),
    ("flags", Ask::Offer(OfferAsk::Flags)),
    ("contains", Ask::Offer(OfferAsk::Contains)),
    ("setting", Ask::Offer(OfferAsk::Setting)),
];

/// Answers a question of the machine text, of resource descriptors, or of accesses that are kept.
fn of_others(row: &mut Row, asked: &mut Exchange, ask: Ask) {
    match ask {
        Ask::Text(ask) => machine_lines::write(asked, &mut row.text, ask),
        Ask::Machine(ask) => machine_lines::answer(asked, row, ask),
        Ask::Osi(ask) => machine_lines::answer_of_osi(asked, &mut row.machine.osi, ask),
        Ask::Descriptors(ask) => descriptors::answer(asked, row, ask),
        Ask::Offer(ask) => descriptors::answer_of_offer(asked, &row.offer, ask),
        _ => traces::answer(asked, &mut row.trace),
    }
}

/// Answers a question: its first word says which it is.
pub fn answer(row: &mut Row, asked: &mut Exchange) {
    let word = asked.word();
    let ask = asked.one_of(&QUESTIONS, word, Ask::Number);
    match ask {
        Ask::Number => faults::number(asked),
        Ask::Says => faults::says(asked),
        Ask::Registers(ask) => registers::answer(asked, &mut row.machine.space, ask),
        Ask::Structures(ask) => structures::answer(asked, &mut row.structures, ask),
        Ask::Tables(ask) => tables::answer(asked, row, ask),
        Ask::Found(ask) => tables::answer_of_found(asked, &row.tables, ask),
        _ => of_others(row, asked, ask),
    }
}
