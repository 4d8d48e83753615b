//! Laws of the definitions that the contracts cite, in the words of the subject. These functions do nothing.
ghost use Rattle.std.specs.Prelude.{◌≡◌, ◌<◌, ◌≤◌, ◌+◌, ◌^◌, ℕ, List, Ok, slice_index};
ghost use Rattle.ar_space.specs.declared.space.Width.{Width};
ghost use Rattle.aml_fields.specs.Bits.{bits_from, bits_of, field_bits, number_of, packed};
ghost use Rattle.aml_fields.specs.SpaceBits.{IsPlain, AreBytes, OthersAreSame, IsOutside, bit_of};
ghost use Rattle.aml_fields.specs.Regions.{read_field, write_field};
ghost use Rattle.aml_fields.specs.declared.region.Region.{Region};
ghost use Rattle.aml_objects.specs.declared.entry.FieldUnit.{FieldUnit};
ghost use Rattle.aml_objects.specs.declared.entry.UpdateRule.TheVariants.{Preserve};
ghost use Rattle.ar_space.specs.Bytes.{Bytes, byte_accesses};
ghost use Rattle.aml_fields.specs.Units.{units_of};
ghost use Rattle.aml_fields.specs.Covering.{Cover};

/// The units of a field are aligned, and hold its bits in order, each bit once.
pub fn units_hold_each_bit_once()
    ensures { (bit_offset bits : ℕ) (width : Width) → Cover bit_offset bits width 0 (units_of bit_offset bits width) }
{}

/// A number is that of its bits.
pub fn a_number_is_that_of_its_bits()
    ensures { (n count : ℕ) → n < 2 ^ count → number_of (bits_from n 0 count) ≡ n }
{}

/// Bytes are what their bits are packed into.
pub fn bytes_are_their_bits_packed()
    ensures { (bytes : List ℕ) → ((i : ℕ) → slice_index bytes i < 256) → packed (bits_of bytes) ≡ bytes }
{}

/// A write of a field of SystemMemory or SystemIO, with the update rule Preserve, over a space of bytes: where it isn't
/// refused, every bit outside the field stays as it was, and so do the other address spaces.
pub fn a_write_that_preserves_leaves_other_bits()
    ensures { (region : Region) (field : FieldUnit) (source : List ℕ) (before after : Bytes)
        → IsPlain region.space → field.update ≡ Preserve → AreBytes region.space before
        → write_field byte_accesses region field source before ≡ (Ok tt, after)
        → OthersAreSame region.space before after × ((k : ℕ) → IsOutside region field k →
        bit_of region.space after k ≡ bit_of region.space before k) }
{}

/// A read after such a write gives the bits that were written.
pub fn a_field_is_read_as_it_was_written()
    ensures { (region : Region) (field : FieldUnit) (source : List ℕ) (before after : Bytes)
        → IsPlain region.space → field.update ≡ Preserve → AreBytes region.space before
        → write_field byte_accesses region field source before ≡ (Ok tt, after)
        → read_field byte_accesses region field after ≡ (Ok (packed (field_bits source 0 field.bits)), after) }
{}
