//! Questions of bits of bytes, and of the units of a field.

ghost use Rattle.std.specs.Prelude.{◌≤◌};

use crate::places::update_rule;
use aml_fields::{bytes_for, copy_bits, copy_from_unit, get_bits, merge, units};
use test_rows::Exchange;
use test_words::width;

/// A number of bits, or of a bit, in decimal digits.
fn number(asked: &mut Exchange) -> usize
    ensures { result ≤ 65535 }
{
    asked.number(0xFFFF) as usize
}

/// `bits FIRST COUNT: BYTES`: these bits of bytes.
pub fn bits(asked: &mut Exchange) {
    let first = number(asked);
    let count = number(asked);
    let bytes = asked.bytes();
    match get_bits(asked.alloc(), bytes.as_slice(), first, count) {
        Ok(found) => asked.say_bytes(found.as_slice()),
        Err(_) => asked.run_out(),
    }
}

/// `bytes-for COUNT`: how many bytes hold so many bits.
pub fn bytes_that_hold(asked: &mut Exchange) {
    let count = number(asked);
    asked.say_number(bytes_for(count) as u64);
}

/// `copy-bits TO FIRST COUNT: BYTES`: copies bits of these bytes over those of the target from a bit on.
pub fn copy(asked: &mut Exchange, target: &mut Vec<u8>) {
    let to = number(asked);
    let first = number(asked);
    let count = number(asked);
    let bytes = asked.bytes();
    if (to + count + 7) / 8 > target.len() {
        asked.misunderstand();
        return;
    }
    copy_bits(target.as_mut_slice(), to, bytes.as_slice(), first, count);
    asked.say_bytes(target.as_slice());
}

/// `copy-unit TO FIRST COUNT: VALUE`: copies bits of a unit that was read over those of the target from a bit on.
pub fn copy_unit(asked: &mut Exchange, target: &mut Vec<u8>) {
    let to = number(asked);
    let first = number(asked);
    let count = number(asked);
    let value = asked.hexadecimal(u64::MAX);
    if (to + count + 7) / 8 > target.len() || first + count > 64 {
        asked.misunderstand();
        return;
    }
    copy_from_unit(target.as_mut_slice(), to, value, first, count);
    asked.say_bytes(target.as_slice());
}

/// `merge RULE WIDTH OLD TO FIRST COUNT: BYTES`: what a unit of an old value is written with.
pub fn merged(asked: &mut Exchange) {
    let rule = update_rule(asked);
    let width = width(asked);
    let old = asked.hexadecimal(u64::MAX);
    let to = number(asked);
    let first = number(asked);
    let count = number(asked);
    let bytes = asked.bytes();
    if to + count > 64 {
        asked.misunderstand();
        return;
    }
    let unit = merge(rule, width, old, to, bytes.as_slice(), first, count);
    asked.say_hexadecimal(unit);
}

/// Answers a number behind its name.
fn say_named(asked: &mut Exchange, name: &str, number: u64) {
    asked.say(name);
    asked.say_number(number);
}

/// `unit N: OFFSET BITS WIDTH`: what the walk over the units of a field gives after N others.
pub fn unit(asked: &mut Exchange) {
    let passed = asked.number(u64::MAX);
    let offset = asked.number(u64::MAX);
    let bits = asked.number(0xFFFF_FFFF) as u32;
    let mut units = units(offset, bits, width(asked));
    for _ in 0..passed {
        let _passed = units.next();
    }
    match units.next() {
        Some(unit) => {
            say_named(asked, "offset", unit.offset);
            say_named(asked, "first", unit.first as u64);
            say_named(asked, "count", unit.count as u64);
            say_named(asked, "position", unit.position as u64);
        }
        None => asked.say("none"),
    }
}
