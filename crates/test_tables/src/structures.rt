//! Structures in the memory of a machine: what stands at which address, and the image of it all.

use crate::answers::{extend_times, hexadecimal};
use ar_tables::Image;
use test_rows::Exchange;
use test_words::{add, extend, say_done};

/// The bytes of a structure, and where it stands.
#[derive(Drop)]
pub struct Structure {
    pub address: u64,
    pub bytes: Vec<u8>,
}

/// Puts bytes into an image, from an address on.
fn lay(asked: &mut Exchange, image: &mut Image, address: u64, bytes: &[u8]) {
    for (place, byte) in bytes.iter().enumerate() {
        let outcome = image.put(address.wrapping_add(place as u64), *byte);
        say_done(asked, outcome);
    }
}

/// The image of these structures, with no more than so many bytes of the one at an address.
pub fn image_of(
    asked: &mut Exchange,
    structures: &[Structure],
    address: u64,
    count: usize,
) -> Image {
    let mut image = Image::new(asked.alloc());
    for structure in structures {
        let bytes = structure.bytes.as_slice();
        let kept = if structure.address == address {
            bytes.get(..count).unwrap_or(bytes)
        } else {
            bytes
        };
        lay(asked, &mut image, structure.address, kept);
    }
    image
}

/// Notes a structure, in place of the one that stands at its address, if one does.
fn note(asked: &mut Exchange, structures: &mut Vec<Structure>, address: u64, bytes: Vec<u8>) {
    structures.retain(|structure| structure.address != address);
    add(asked, structures, Structure { address, bytes });
}

/// The sum of bytes, as a checksum counts it.
fn sum_of(bytes: &[u8]) -> u8 {
    let mut sum = 0u8;
    for byte in bytes {
        sum = sum.wrapping_add(*byte);
    }
    sum
}

/// A table of a signature, a revision and a length, with a right checksum and these bytes behind its header.
fn table_of(
    asked: &mut Exchange,
    signature: &str,
    revision: u8,
    length: u32,
    body: &[u8],
) -> Vec<u8> {
    let length = length.to_le_bytes();
    let sum = sum_of(signature.as_bytes())
        .wrapping_add(sum_of(&length))
        .wrapping_add(revision)
        .wrapping_add(sum_of(body));
    let mut bytes = Vec::new(asked.alloc());
    extend(asked, &mut bytes, signature.as_bytes());
    extend(asked, &mut bytes, &length);
    extend(asked, &mut bytes, &[revision, 0u8.wrapping_sub(sum)]);
    extend(asked, &mut bytes, &[0; 26]);
    extend(asked, &mut bytes, body);
    bytes
}

/// The length of a table with a body of so many bytes.
fn length_with(body: &[u8]) -> u32 {
    u32::try_from(body.len()).unwrap_or(0).saturating_add(36)
}

/// `structure ADDRESS: BYTES`: a structure of these bytes.
fn put_structure(asked: &mut Exchange, structures: &mut Vec<Structure>) {
    let address = hexadecimal(asked);
    let bytes = asked.bytes();
    note(asked, structures, address, bytes);
}

/// `table ADDRESS: SIGNATURE REVISION BODY`: a table whose length and checksum are right.
fn put_table(asked: &mut Exchange, structures: &mut Vec<Structure>) {
    let address = hexadecimal(asked);
    let signature = asked.word();
    let revision = asked.number(0xFF) as u8;
    let body = asked.bytes();
    let length = length_with(body.as_slice());
    let bytes = table_of(asked, signature, revision, length, body.as_slice());
    note(asked, structures, address, bytes);
}

/// `header ADDRESS: SIGNATURE REVISION LENGTH`: the header of a table that says it has so many bytes.
fn put_header(asked: &mut Exchange, structures: &mut Vec<Structure>) {
    let address = hexadecimal(asked);
    let signature = asked.word();
    let revision = asked.number(0xFF) as u8;
    let length = asked.number(0xFFFF_FFFF) as u32;
    let bytes = table_of(asked, signature, revision, length, &[]);
    note(asked, structures, address, bytes);
}

/// Adds an address of a list as often as is written: `4000`, or `4000*256`.
fn add_addresses(asked: &mut Exchange, body: &mut Vec<u8>, word: &str) {
    let (address, times) = word.split_once('*').unwrap_or((word, "1"));
    let address = asked.digits(address, 16, u64::MAX).to_le_bytes();
    let times = asked.digits(times, 10, u64::MAX);
    extend_times(asked, body, &address, times as usize);
}

/// `list ADDRESS: ADDRESSES`: an XSDT of these addresses.
fn put_list(asked: &mut Exchange, structures: &mut Vec<Structure>) {
    let address = hexadecimal(asked);
    let mut body = Vec::new(asked.alloc());
    for word in asked.rest().split(' ') {
        add_addresses(asked, &mut body, word);
    }
    let length = length_with(body.as_slice());
    let bytes = table_of(asked, "XSDT", 1, length, body.as_slice());
    note(asked, structures, address, bytes);
}

/// A question that makes a structure.
#[derive(Clone, Copy)]
pub enum Ask {
    Structure,
    Table,
    Header,
    List,
}

/// Answers a question that makes a structure.
pub fn answer(asked: &mut Exchange, structures: &mut Vec<Structure>, ask: Ask) {
    match ask {
        Ask::Structure => put_structure(asked, structures),
        Ask::Table => put_table(asked, structures),
        Ask::Header => put_header(asked, structures),
        Ask::List => put_list(asked, structures),
    }
}
