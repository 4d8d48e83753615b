//! Buffer fields: bits of a buffer. Where a term reads or writes such a field, it is done so
//! (`a_field_is_accessed_by_its_source`).
ghost use Rattle.std.specs.Prelude.{◌≡◌, ◌≢◌, ◌⊎◌, ◌<◌, ◌≤◌, ◌+◌, ◌*◌};
ghost use Rattle.std.specs.Prelude.{ℕ, List, false, length, get_or, slice_get, Some, Ok};
ghost use Rattle.aml_objects.specs.Objects.{Objects, buffer_at};
ghost use Rattle.aml_objects.specs.declared.object.Object.TheVariants as object;
ghost use Rattle.aml_objects.specs.declared.entry.BufferField.{BufferField};
ghost use Rattle.aml_fields.specs.Bits.{bits_of, field_bits, packed};
ghost use Rattle.aml_fields.specs.BufferFields.{read_buffer_field, write_buffer_field};

/// A buffer field is read as it was written: after a write that isn't refused, a read gives the bits of the source, cut
/// or with zeros behind them, as `a_source_ends_with_zeros` says, and changes nothing. A field that is read from
/// another bit than it is written to, or in another order, is refused by this.
#[tactic(auto, using(crate::proofs::BufferFieldWrites::reads_as_written))]
pub fn a_buffer_field_is_read_as_it_was_written()
    ensures read { (field : BufferField) (source : List ℕ) (before after : Objects) →
        write_buffer_field field source before ≡ (Ok tt, after) →
        read_buffer_field field after ≡ (Ok (packed (field_bits source 0 field.bits)), after) }
{}

/// A write of a buffer field leaves the length of the buffer, each bit of it that is outside the field, and all other
/// objects. A write that fills the rest of a byte, or that makes another buffer, is refused by this.
#[tactic(auto, using(crate::proofs::BufferFieldWrites::a_write_of_a_buffer_field_leaves_other_bits))]
pub fn a_write_of_a_buffer_field_leaves_other_bits()
    ensures length { (field : BufferField) (source : List ℕ) (before after : Objects) (old new : List ℕ) →
        write_buffer_field field source before ≡ (Ok tt, after) → (buffer_at field.buffer before).0 ≡ Ok old →
        (buffer_at field.buffer after).0 ≡ Ok new → length new ≡ length old }
    ensures bits { (field : BufferField) (source : List ℕ) (before after : Objects) (old new : List ℕ) (k : ℕ) →
        write_buffer_field field source before ≡ (Ok tt, after) → (buffer_at field.buffer before).0 ≡ Ok old →
        (buffer_at field.buffer after).0 ≡ Ok new → (k < field.bit_offset) ⊎ (field.bit_offset + field.bits ≤ k) →
        get_or (bits_of new) k false ≡ get_or (bits_of old) k false }
    ensures objects { (field : BufferField) (source : List ℕ) (before after : Objects) (o : ℕ) →
        write_buffer_field field source before ≡ (Ok tt, after) → o ≢ field.buffer →
        slice_get after o ≡ slice_get before o }
{}

/// A buffer field whose bits lie within its buffer is read, as those bits, and is written. A field that is refused
/// where it ends with its buffer, or that is read from another bit, is refused by this.
#[tactic(auto, using(crate::proofs::BufferFieldAnswers::a_buffer_field_within_its_buffer_is_accessed))]
pub fn a_buffer_field_within_its_buffer_is_accessed()
    ensures read { (field : BufferField) (objects : Objects) (bytes : List ℕ) →
        slice_get objects field.buffer ≡ Some (object.Buffer bytes) → length bytes ≤ 1048576 →
        field.bit_offset + field.bits ≤ 8 * length bytes →
        read_buffer_field field objects ≡ (Ok (packed (field_bits bytes field.bit_offset field.bits)), objects) }
    ensures written { (field : BufferField) (objects : Objects) (bytes source : List ℕ) →
        slice_get objects field.buffer ≡ Some (object.Buffer bytes) → length bytes ≤ 1048576 →
        field.bit_offset + field.bits ≤ 8 * length bytes →
        (after : Objects) × (write_buffer_field field source objects ≡ (Ok tt, after)) }
{}
