//! Every field of up to 70 bits at each of the first 70 bits of a region, against a plain list of bits.

use crate::places::update_rule;
use aml_fields::{AddressSpace, Region, read_field, write_field};
use aml_objects::{FieldSource, FieldUnit, UpdateRule};
use ar_space::{Place, Result, Sparse};
use std::alloc::Global;
use test_rows::Exchange;
use test_words::width;

/// How many bytes the region has: the units of the last field end there.
const BYTES: usize = 24;

const REGION: Region = Region {
    space: AddressSpace::Memory,
    offset: 0x1000,
    length: 24,
};

/// What is written into each field.
const SOURCE: [u8; 9] = [0x3A, 0xC5, 0x0F, 0x96, 0x71, 0xE8, 0x5B, 0x24, 0xD3];

/// The first place of the region's byte of this number.
fn place_of(number: usize) -> Place {
    Place::Memory(0x1000u64.wrapping_add(number as u64))
}

/// What stands in the region before each write.
fn before(number: usize) -> u8 {
    (number.wrapping_mul(37).wrapping_add(11) % 256) as u8
}

/// Whether a bit of a byte is set.
fn is_set(byte: u8, bit: usize) -> bool {
    (byte >> (bit % 8)) & 1 == 1
}

/// Whether a bit of what is written is set.
fn is_written(bit: usize) -> bool {
    match SOURCE.get(bit / 8) {
        None => false,
        Some(byte) => is_set(*byte, bit),
    }
}

/// Whether a bit of the region is set after a write, by the words of the specification.
fn is_set_after(field: FieldUnit, bit: usize) -> bool {
    let first = field.bit_offset as usize;
    let end = first.saturating_add(field.bits as usize);
    if bit >= first && bit < end {
        return is_written(bit - first);
    }
    let size = usize::from(field.access.bits());
    let is_in_a_unit = bit / size >= first / size && bit / size <= end.saturating_sub(1) / size;
    match field.update {
        UpdateRule::WriteAsOnes if is_in_a_unit => true,
        UpdateRule::WriteAsZeros if is_in_a_unit => false,
        _ => is_set(before(bit / 8), bit),
    }
}

/// Whether a bit of what is read from a field is set.
fn is_read(field: FieldUnit, bit: usize) -> bool {
    bit < field.bits as usize && is_written(bit)
}

/// Puts into the region what stands there before each write.
fn fill(space: &mut Sparse) -> Result<()> {
    for number in 0..BYTES {
        space.put(place_of(number), before(number))?;
    }
    Ok(())
}

/// Whether each bit of the region's byte of this number is as it has to be after a write.
fn is_byte_well(byte: u8, field: FieldUnit, number: usize) -> bool {
    for n in 0..8usize {
        let bit = number.saturating_mul(8).saturating_add(n);
        if is_set(byte, n) != is_set_after(field, bit) {
            return false;
        }
    }
    true
}

/// Whether the region is as it has to be after a write.
fn is_region_well(space: &Sparse, field: FieldUnit) -> bool {
    for number in 0..BYTES {
        let byte = space.byte(place_of(number)).unwrap_or(0);
        if !is_byte_well(byte, field, number) {
            return false;
        }
    }
    true
}

/// Whether each bit of a byte of this number, of those that were read, is as it has to be.
fn is_byte_read_well(byte: u8, field: FieldUnit, number: usize) -> bool {
    for n in 0..8usize {
        let bit = number.saturating_mul(8).saturating_add(n);
        if is_set(byte, n) != is_read(field, bit) {
            return false;
        }
    }
    true
}

/// Whether the bytes that were read are as they have to be.
fn is_read_well(read: &[u8], field: FieldUnit) -> bool {
    if read.len() != field.bits.div_ceil(8) as usize {
        return false;
    }
    for (number, byte) in read.iter().enumerate() {
        if !is_byte_read_well(*byte, field, number) {
            return false;
        }
    }
    true
}

/// Writes a field, and says whether the region is well.
fn is_written_well(space: &mut Sparse, field: FieldUnit) -> Result<bool> {
    fill(space)?;
    write_field(space, REGION, field, &SOURCE)?;
    Ok(is_region_well(space, field))
}

/// Writes a field and reads it again, and says whether both are well.
fn is_field_well(alloc: Global, space: &mut Sparse, field: FieldUnit) -> bool {
    let Ok(true) = is_written_well(space, field) else {
        return false;
    };
    match read_field(alloc, space, REGION, field) {
        Ok(read) => is_read_well(read.as_slice(), field),
        Err(_) => false,
    }
}

/// The first field of up to 70 bits at a bit that is not well.
fn first_ill(alloc: Global, space: &mut Sparse, shape: FieldUnit) -> Option<u32> {
    for bits in 1..=70u32 {
        if !is_field_well(alloc, space, FieldUnit { bits, ..shape }) {
            return Some(bits);
        }
    }
    None
}

/// Answers with the first field at a bit that is not well, if there is one.
fn say_first_ill(asked: &mut Exchange, space: &mut Sparse, shape: FieldUnit) {
    if let Some(bits) = first_ill(asked.alloc(), space, shape) {
        asked.say("not the");
        asked.say_number(u64::from(bits));
        asked.say("bits from");
        asked.say_number(shape.bit_offset);
    }
}

/// `every-field WIDTH RULE`: `done`, or the first field that is not written and read as the specification says.
pub fn every_field(asked: &mut Exchange) {
    let access = width(asked);
    let update = update_rule(asked);
    let mut space = Sparse::new(asked.alloc());
    for bit_offset in 0..70u64 {
        let shape = FieldUnit {
            source: FieldSource::Region(1),
            bit_offset,
            bits: 1,
            access,
            update,
        };
        say_first_ill(asked, &mut space, shape);
    }
}
