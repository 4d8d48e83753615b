//! The update rules of fields.
ghost use Rattle.std.specs.Prelude.{◌≡◌, ◌≢◌, ◌<◌, ◌≤◌, ◌+◌, ◌*◌, ◌/◌, ◌%◌};
ghost use Rattle.std.specs.Prelude.{ℕ, List, true, false, length, get_or, slice_get, Some, Ok, Err};
ghost use Rattle.ar_space.specs.declared.refusal.Refusal.TheVariants as refusal;
ghost use Rattle.ar_space.specs.declared.refusal.SpaceFault.{SpaceFault};
ghost use Rattle.ar_space.specs.declared.space.Place.{Place};
ghost use Rattle.ar_space.specs.Accesses.{Accesses, bit_count};
ghost use Rattle.ar_space.specs.Outcome.{Outcome};
ghost use Rattle.aml_objects.specs.declared.entry.FieldUnit.{FieldUnit};
ghost use Rattle.aml_objects.specs.declared.entry.UpdateRule.TheVariants.{Preserve, WriteAsOnes, WriteAsZeros};
ghost use Rattle.aml_fields.specs.declared.region.Region.{Region};
ghost use Rattle.aml_fields.specs.declared.field_units.Unit.{Unit as Access};
ghost use Rattle.aml_fields.specs.Bits.{bit, field_bits};
ghost use Rattle.aml_fields.specs.Regions.{unit_place, write_unit, write_field};
ghost use Rattle.aml_laws.specs.UnitPlaces.{IsUnitAt, WritesOnce};
ghost use Rattle.aml_laws.specs.UnitValues.{Reads, with_reads, IsFilledWith, IsMergedInto};

/// The bits that a field takes of a source are as many as the field has: the source's own bits, those of its first byte
/// first and of each byte the lowest first, and zeros from the end of the source on. A source that is filled up with
/// ones is refused by this.
#[tactic(auto, using(crate::proofs::BitsOfSources::a_source_ends_with_zeros))]
pub fn a_source_ends_with_zeros()
    ensures count { (source : List ℕ) (offset count : ℕ) → length (field_bits source offset count) ≡ count }
    ensures own { (source : List ℕ) (offset count m b : ℕ) → m < count →
        slice_get source ((offset + m) / 8) ≡ Some b →
        get_or (field_bits source offset count) m false ≡ bit b ((offset + m) % 8) }
    ensures behind { (source : List ℕ) (offset count m : ℕ) → m < count → 8 * length source ≤ offset + m →
        get_or (field_bits source offset count) m true ≡ false }
{}

/// Under the update rules WriteAsOnes and WriteAsZeros a write of a field reads nothing: it comes to the same, whatever
/// reads are answered with. An access of a unit of it that has a place comes to one write there, with the bits of the
/// field, and all other bits of the access ones, or zeros: what is written is below two to the width of the access.
/// Which units a field has, and that none of them stands there twice,
/// `a_field_has_one_unit_for_each_piece_that_it_touches` says. A rule that reads the unit first, or that keeps what it
/// held, a write of bits above the access, and an access of a unit that writes it twice, are refused by this.
#[tactic(auto, using(crate::proofs::UnreadUnits::ones_and_zeros_read_nothing))]
pub fn ones_and_zeros_read_nothing<S>()
    ensures unread { (accesses : Accesses S) (reads : Reads S) (region : Region) (field : FieldUnit) (source : List ℕ)
        (s : S) → field.update ≢ Preserve →
        write_field (with_reads accesses reads) region field source s ≡ write_field accesses region field source s }
    ensures ones { (accesses : Accesses S) (region : Region) (field : FieldUnit) (source : List ℕ) (unit : Access)
        (place : Place) (s : S) → field.update ≡ WriteAsOnes → unit.first + unit.count ≤ bit_count field.access →
        unit_place region field.access unit.offset ≡ Ok place →
        (value : ℕ) × IsFilledWith true field source unit value × ((end : Outcome (Unit {0}) × S) →
        WritesOnce accesses place field.access value s end → write_unit accesses region field source unit s ≡ end) }
    ensures zeros { (accesses : Accesses S) (region : Region) (field : FieldUnit) (source : List ℕ) (unit : Access)
        (place : Place) (s : S) → field.update ≡ WriteAsZeros → unit.first + unit.count ≤ bit_count field.access →
        unit_place region field.access unit.offset ≡ Ok place →
        (value : ℕ) × IsFilledWith false field source unit value × ((end : Outcome (Unit {0}) × S) →
        WritesOnce accesses place field.access value s end → write_unit accesses region field source unit s ≡ end) }
{}

/// Under the update rule Preserve a write of a unit that the field covers whole comes to one write of it, and nothing
/// is read. That of a unit that it covers in part comes to one read, and then one write of the number that was read
/// with the bits of the field in it, which is below two to the width of the access where the number is; where the read
/// faults, the unit is refused so, and it isn't written. A unit that is covered whole and read, and one that is read
/// twice for one write, are refused by this. That no unit stands twice among those of a field
/// `a_field_has_one_unit_for_each_piece_that_it_touches` says.
pub fn a_unit_that_keeps_bits_is_read_once<S>()
    ensures whole { (accesses : Accesses S) (region : Region) (field : FieldUnit) (source : List ℕ) (unit : Access)
        (place : Place) (s : S) → field.update ≡ Preserve → unit.first + unit.count ≤ bit_count field.access →
        IsUnitAt region field.access unit.offset place → unit.count ≡ bit_count field.access →
        (value : ℕ) × IsMergedInto 0 field source unit value × ((end : Outcome (Unit {0}) × S) →
        WritesOnce accesses place field.access value s end → write_unit accesses region field source unit s ≡ end) }
    ensures part { (accesses : Accesses S) (region : Region) (field : FieldUnit) (source : List ℕ) (unit : Access)
        (place : Place) (s : S) → field.update ≡ Preserve → unit.first + unit.count ≤ bit_count field.access →
        IsUnitAt region field.access unit.offset place → (unit.count ≡ bit_count field.access → ⊥) →
        (old : ℕ) (between : S) → accesses.reads s place field.access ≡ (Ok old, between) →
        (value : ℕ) × IsMergedInto old field source unit value × ((end : Outcome (Unit {0}) × S) →
        WritesOnce accesses place field.access value between end →
        write_unit accesses region field source unit s ≡ end) }
    ensures fault { (accesses : Accesses S) (region : Region) (field : FieldUnit) (source : List ℕ) (unit : Access)
        (place : Place) (s : S) → field.update ≡ Preserve → unit.first + unit.count ≤ bit_count field.access →
        IsUnitAt region field.access unit.offset place → (unit.count ≡ bit_count field.access → ⊥) →
        (fault : SpaceFault) (between : S) → accesses.reads s place field.access ≡ (Err fault, between) →
        write_unit accesses region field source unit s ≡ (Err (refusal.Space fault), between) }
{}
