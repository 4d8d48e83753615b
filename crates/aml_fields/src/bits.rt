//! Bits of bytes, the lowest first.
ghost use Rattle.std.specs.Prelude.{◌≡◌, ◌≤◌, ◌+◌, ◌*◌, ◌^◌, ◌<◌, false, length, slice_index_or, slice_set, drop, IfOk};
ghost use Rattle.aml_fields.specs.Bits.{bits_of, field_bits, put, bytes_within, packed, byte_count};

use std::alloc::{AllocError, Global};

/// How many bits a byte has.
const BYTE_BITS: usize = 8;

/// One bit; it isn't set past the end.
fn bit(bytes: &[u8], index: usize) -> bool
    ensures { result ≡ slice_index_or (bits_of bytes.now) index false }
{
    let place = index / BYTE_BITS;
    if place >= bytes.len() {
        return false;
    }
    (bytes[place] >> (index % BYTE_BITS)) & 1 == 1
}

/// Sets one bit to a value.
fn set_bit(bytes: &mut [u8], index: usize, value: bool)
    requires { index < 8 * length bytes.old }
    ensures bits { bits_of bytes.new ≡ slice_set (bits_of bytes.old) index value }
    ensures len { length bytes.new ≡ length bytes.old }
{
    if bit(bytes, index) != value {
        let place = index / BYTE_BITS;
        bytes[place] = bytes[place] ^ (1 << (index % BYTE_BITS));
    }
}

/// Copies `count` bits of `source`, from the bit `from` on, over those of `target` from the bit `to` on. Bits past the
/// end of `source` are 0.
pub fn copy_bits(target: &mut [u8], to: usize, source: &[u8], from: usize, count: usize)
    requires inside { to + count ≤ 8 * length target.old }
    requires to { to + count < 2 ^ 64 }
    requires from { from + count < 2 ^ 64 }
    ensures bits { bits_of target.new ≡ put to (field_bits source.now from count) (bits_of target.old) }
    ensures bytes { target.new ≡ bytes_within (length target.old)
        (put to (field_bits source.now from count) (bits_of target.old)) }
    ensures len { length target.new ≡ length target.old }
{
    for n in 0..count {
        set_bit(target, to + n, bit(source, from + n));
    }
}

/// `count` bits of bytes, from the bit `offset` on, as bytes; bits past the end are 0, and so are those of the last
/// byte that are not the field's.
pub fn get_bits(
    alloc: Global,
    bytes: &[u8],
    offset: usize,
    count: usize,
) -> Result<Vec<u8>, AllocError>
    requires offset { offset + count < 2 ^ 64 }
    requires count { count + 7 < 2 ^ 64 }
    ensures { IfOk result (λ v. v.items ≡ packed (field_bits bytes.now offset count)) }
{
    let mut field = vec![in alloc; 0; bytes_for(count)]?;
    copy_bits(&mut field, 0, bytes, offset, count);
    Ok(field)
}

/// How many bytes so many bits take.
pub fn bytes_for(count: usize) -> usize
    requires { count + 7 < 2 ^ 64 }
    ensures { result ≡ byte_count count }
{
    (count + 7) / BYTE_BITS
}
