//! Buffer fields, which are read and written in place, without accesses (ACPI 6.5, 19.6: CreateField and its like).
ghost use Rattle.std.specs.Prelude.{◌≡◌, ◌≤◌, ◌+◌, ◌*◌, ◌<◌, ◌^◌, length, true, OnOk};
ghost use Rattle.ar_space.specs.Change.{Does, DoesInPlace};
ghost use Rattle.ar_space.specs.Outcome.{Answers, AnswersInPlace, NotMemory, seen};
ghost use Rattle.aml_fields.specs.Bits.{packed, field_bits};
ghost use Rattle.aml_fields.specs.BufferFields.{lies_within, field_within, new_buffer_field, still_within};
ghost use Rattle.aml_fields.specs.BufferFields.{read_buffer_field, with_field, write_buffer_field};

use crate::bits::{copy_bits, get_bits};
use aml_objects::{BufferField, Heap, Octets};
use ar_space::{EvaluationFault, FieldFault, Refusal, Result};
use std::alloc::Global;

/// A new buffer field of so many bits, from one bit of a buffer on. Refused as `WrongType` where the object is no
/// buffer, and as `FieldLimit` where the field doesn't lie within it.
#[tactic(auto, using(ar_space::proofs::Changes::changing), unfolding(crate::specs::BufferFields::new_buffer_field))]
pub fn new_buffer_field(
    heap: &Heap,
    object: u32,
    bit_offset: u128,
    bits: u32,
) -> Result<BufferField>
    requires { bit_offset + bits < 2 ^ 128 }
    ensures { DoesInPlace result heap.now (new_buffer_field object bit_offset bits) heap.now }
{
    let bytes = heap.buffer_bytes(object)?;
    field_within(object, bit_offset, bits, bytes)
}

/// The bits of a buffer field, lowest first, as bytes. Refused as `WrongType` where its object is no buffer, and as
/// `DeadReference` where it doesn't lie within it.
#[tactic(auto, using(ar_space::proofs::Changes::changing), unfolding(crate::specs::BufferFields::read_buffer_field))]
pub fn read_buffer_field(alloc: Global, heap: &Heap, field: BufferField) -> Result<Vec<u8>>
    ensures { Does (seen (λ v. v.items) result) heap.now (read_buffer_field field) heap.now }
{
    let bytes = heap.buffer_bytes(field.buffer)?;
    still_within(field, bytes)?;
    bits_of_field(alloc, field, bytes)
}

/// Writes a buffer field: the bits of `source`, lowest first, cut or with zeros behind them. The other bits of the
/// buffer stay. Refused as `read_buffer_field` is, and then nothing changes.
#[tactic(auto, using(ar_space::proofs::Changes::changing), unfolding(crate::specs::BufferFields::write_buffer_field))]
pub fn write_buffer_field(
    alloc: Global,
    heap: &mut Heap,
    field: BufferField,
    source: &[u8],
) -> Result<()>
    ensures change { Does result heap.new (write_buffer_field field source.now) heap.old }
    ensures memory { NotMemory result }
{
    let bytes = heap.buffer_bytes(field.buffer)?;
    still_within(field, bytes)?;
    // The bytes are taken out while they are written, so that a write costs no copy of the buffer.
    let bytes = heap.exchange_buffer(field.buffer, Octets::new(alloc))?;
    let mut bytes = bytes.into_vec();
    copy_bits(
        &mut bytes,
        field.bit_offset as usize,
        source,
        0,
        field.bits as usize,
    );
    heap.exchange_buffer(field.buffer, Octets::from_vec(bytes))?;
    Ok(())
}

fn field_within(buffer: u32, bit_offset: u128, bits: u32, bytes: &[u8]) -> Result<BufferField>
    requires { bit_offset + bits < 2 ^ 128 }
    ensures { AnswersInPlace result (field_within buffer bit_offset bits bytes.now) }
{
    if lies_within(bit_offset, bits, bytes) {
        Ok(BufferField {
            buffer,
            bit_offset: bit_offset as u64,
            bits,
        })
    } else {
        Err(Refusal::Field(FieldFault::FieldLimit))
    }
}

fn still_within(field: BufferField, bytes: &[u8]) -> Result<()>
    ensures answer { Answers result (still_within field bytes.now) }
    ensures within { OnOk result (lies_within field.bit_offset field.bits bytes.now ≡ true) }
    ensures memory { NotMemory result }
{
    if lies_within(u128::from(field.bit_offset), field.bits, bytes) {
        Ok(())
    } else {
        Err(Refusal::Evaluation(EvaluationFault::DeadReference))
    }
}

/// Whether so many bits lie within a buffer.
fn lies_within(bit_offset: u128, bits: u32, bytes: &[u8]) -> bool
    requires { bit_offset + bits < 2 ^ 128 }
    ensures { result ≡ lies_within bit_offset bits bytes.now }
{
    let end = bit_offset + u128::from(bits);
    end < LIMIT && end <= 8 * bytes.len() as u128
}

/// Bits of a buffer are counted below this.
const LIMIT: u128 = 1 << 64;

/// The bits of a field that lies within a buffer.
fn bits_of_field(alloc: Global, field: BufferField, bytes: &[u8]) -> Result<Vec<u8>>
    requires { lies_within field.bit_offset field.bits bytes.now ≡ true }
    ensures { Answers (seen (λ v. v.items) result) (Ok (packed (field_bits bytes.now field.bit_offset field.bits))) }
{
    Ok(get_bits(alloc, bytes, field.bit_offset as usize, field.bits as usize)?)
}
