//! Questions of the register space, and of fields of operation regions in it.

use crate::places::{address_space, update_rule};
use crate::row::Row;
use aml_fields::{Region, read_field, write_field};
use aml_objects::{FieldSource, FieldUnit};
use ar_space::Sparse;
use test_rows::Exchange;
use test_words::{place, say_byte, say_done, width};

/// `byte PLACE`: the byte at a place.
pub fn byte(asked: &mut Exchange, space: &Sparse) {
    let at = place(asked);
    say_byte(asked, space.byte(at));
}

/// `region OFFSET LENGTH SPACE`: the operation region that fields lie in.
pub fn region(asked: &mut Exchange) -> Option<Region> {
    let offset = asked.hexadecimal(u64::MAX);
    let length = asked.number(u64::MAX);
    let space = address_space(asked);
    Some(Region {
        space,
        offset,
        length,
    })
}

/// `field OFFSET BITS WIDTH RULE`: a field of the region.
pub fn field(asked: &mut Exchange) -> Option<FieldUnit> {
    let bit_offset = asked.number(u64::MAX);
    let bits = asked.number(0xFFFF_FFFF) as u32;
    let access = width(asked);
    let update = update_rule(asked);
    Some(FieldUnit {
        source: FieldSource::Region(1),
        bit_offset,
        bits,
        access,
        update,
    })
}

/// `read`: the bits of the field.
pub fn read(asked: &mut Exchange, row: &mut Row) {
    let (Some(region), Some(field)) = (row.region, row.field) else {
        asked.misunderstand();
        return;
    };
    match read_field(asked.alloc(), &mut row.space, region, field) {
        Ok(bits) => asked.say_bytes(bits.as_slice()),
        Err(refusal) => asked.refuse(refusal.number()),
    }
}

/// `write BYTES`: writes these bits into the field.
pub fn write(asked: &mut Exchange, row: &mut Row) {
    let bytes = asked.bytes();
    let (Some(region), Some(field)) = (row.region, row.field) else {
        asked.misunderstand();
        return;
    };
    say_done(
        asked,
        write_field(&mut row.space, region, field, bytes.as_slice()),
    );
}
