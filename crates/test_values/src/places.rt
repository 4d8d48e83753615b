//! Address spaces, and what a write does with the bits beside a field.

use aml_fields::AddressSpace;
use aml_objects::UpdateRule;
use test_rows::Exchange;
use test_words::{hexadecimal8, hexadecimal16};

/// What a write does with the other bits of a unit, by its name in ASL.
const RULES: [(&str, UpdateRule); 3] = [
    ("Preserve", UpdateRule::Preserve),
    ("WriteAsOnes", UpdateRule::WriteAsOnes),
    ("WriteAsZeros", UpdateRule::WriteAsZeros),
];

/// An address space: `memory`, `io`, or `pci SEGMENT BUS DEVICE FUNCTION`.
pub fn address_space(asked: &mut Exchange) -> AddressSpace {
    match asked.word() {
        "memory" => AddressSpace::Memory,
        "io" => AddressSpace::Io,
        "pci" => AddressSpace::Pci {
            seg: hexadecimal16(asked),
            bus: hexadecimal8(asked),
            dev: hexadecimal8(asked),
            func: hexadecimal8(asked),
        },
        _ => {
            asked.misunderstand();
            AddressSpace::Memory
        }
    }
}

/// What a write does with the other bits of a unit.
pub fn update_rule(asked: &mut Exchange) -> UpdateRule {
    let name = asked.word();
    asked.one_of(&RULES, name, UpdateRule::Preserve)
}
