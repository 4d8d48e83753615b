//! Bits of fields as bytes and as integers.
ghost use Rattle.std.specs.Prelude.{◌≡◌, ◌<◌, ◌≤◌, ◌+◌, ℕ, suc, List, Bool, length, slice_get, Some, Ok};
ghost use Rattle.std.specs.Int.{bit_at};
ghost use Rattle.ar_space.specs.Accesses.{Accesses};
ghost use Rattle.ar_space.specs.Change.{Change};
ghost use Rattle.aml_path.specs.declared.segment.Seg.{Seg};
ghost use Rattle.aml_path.specs.Paths.{Name};
ghost use Rattle.aml_objects.specs.Objects.{Objects};
ghost use Rattle.aml_objects.specs.declared.entry.BufferField.{BufferField};
ghost use Rattle.aml_objects.specs.declared.entry.Field.{Field};
ghost use Rattle.aml_objects.specs.declared.entry.FieldUnit.{FieldUnit};
ghost use Rattle.aml_objects.specs.declared.entry.NamedObject.{NamedObject};
ghost use Rattle.aml_objects.specs.declared.object.Object.TheVariants as object;
ghost use Rattle.aml_convert.specs.Integers.{bits_of};
ghost use Rattle.aml_fields.specs.declared.field_units.Unit.{Unit as Access};
ghost use Rattle.aml_fields.specs.Bits.{packed};
ghost use Rattle.aml_fields.specs.BufferFields.{read_buffer_field, write_buffer_field};
ghost use Rattle.aml_fields.specs.Units.{units_of};
ghost use Rattle.aml_fields.specs.UnitByUnit.{bits_read};
ghost use Rattle.aml_world.specs.fields.Fields.{bits_in};
ghost use Rattle.aml_world.specs.state.Run.{Run};
ghost use Rattle.aml_world.specs.state.State.{State};
ghost use Rattle.aml_laws.specs.FieldNames.{IsField, NamesField, bits_read_at};
ghost use Rattle.aml_laws.specs.NamesUsed.{use_of};
ghost use Rattle.aml_laws.specs.OperatorTerms.{Gives};
ghost use Rattle.aml_laws.specs.PackedBits.{ArePackedBits, IsIntegerOf, Packs, bit_in, bit_of};
ghost use Rattle.aml_laws.specs.UnitValues.{IsFilledWith, IsMergedInto};
ghost use Rattle.aml_laws.specs.UnitsInTurn.{InTurn, bits_in_units};

/// A field of any number of bits is read as bytes, as many as its bits need: their number divided by eight, rounded up.
/// Bit k of the field is bit k mod 8 of byte k / 8, and the bits of the last byte above the field are 0 (ACPI 6.5,
/// 5.5.2.4 and 19.6: Field, CreateField). This is said of any list of bits, of the bits that the units of a field hold,
/// one unit after another, and of a field in a buffer. Of any other read of a field the law says the number of bytes
/// and the zeros. A read that drops the bits after the last whole byte, and one that pads at the low end, are refused
/// by this.
pub fn a_field_is_read_in_as_many_bytes_as_its_bits_need<S>()
    ensures packed { (bits : List Bool) → Packs (length bits) (bit_in bits) (packed bits) }
    ensures units { (read : Access → Change S ℕ) (field : FieldUnit) (s : S) (numbers : List ℕ) (after : S) →
        InTurn read (units_of field.bit_offset field.bits field.access) s numbers after → (bytes : List ℕ) ×
        ((bits_read read field s ≡ (Ok bytes, after)) × Packs field.bits
        (bit_in (bits_in_units (units_of field.bit_offset field.bits field.access) numbers)) bytes) }
    ensures in_buffer { (field : BufferField) (objects after : Objects) (buffer bytes : List ℕ) →
        slice_get objects field.buffer ≡ Some (object.Buffer buffer) →
        read_buffer_field field objects ≡ (Ok bytes, after) →
        Packs field.bits (λ k. bit_of buffer (field.bit_offset + k)) bytes }
    ensures any { (accesses : Accesses S) (call : List Seg → Run S ℕ) (o : NamedObject) (f : Field) (bits : ℕ) →
        IsField o f bits → (s : State S × ℕ) (bytes : List ℕ) (after : State S × ℕ) →
        bits_in accesses call f s ≡ (Ok bytes, after) → ArePackedBits bits bytes }
{}

/// A field of at least one bit, and of no more bits than an integer has, gives an integer where its name stands for a
/// value (ACPI 6.5, 19.6: Field). If its bits are read without a refusal, bit k of the integer is bit k of what was
/// read, and the integer has no further bit. A field of 7 bits that is refused because it fills no byte, and one of 12
/// bits that gives its lowest 8, are refused by this.
pub fn a_field_of_few_bits_is_the_integer_of_its_bits<S>()
    ensures { (accesses : Accesses S) (scope : List Seg) (depth : ℕ) (w : State S) (steps : ℕ) (n : Name) (f : Field)
        (bits : ℕ) (bytes : List ℕ) (after : State S × ℕ) → NamesField w scope n f bits → 1 ≤ bits →
        bits_read_at accesses depth f (w, steps) ≡ (Ok bytes, after) → bits ≤ bits_of after.0.width → (m : ℕ) ×
        (Gives accesses scope depth (use_of n) (w, suc steps) m after × IsIntegerOf bits (bit_of bytes) m) }
{}

/// A field of any number of bits is written with the bits of its source, the lowest first, and with zeros after the end
/// of the source (ACPI 6.5, 19.3.5.8): bit k of the field becomes bit k mod 8 of byte k / 8 of the source. The clause
/// `in_buffer` says this of a write of a buffer field; `filled` and `merged` say it of the values with which
/// `ones_and_zeros_read_nothing` and `a_unit_that_keeps_bits_is_read_once` write a unit. Bits in another order, and a
/// source that is read from its start for each unit, are refused by this.
pub fn a_field_is_written_with_the_bits_of_its_source()
    ensures in_buffer { (field : BufferField) (source : List ℕ) (before after : Objects) (buffer : List ℕ) →
        write_buffer_field field source before ≡ (Ok tt, after) →
        slice_get after field.buffer ≡ Some (object.Buffer buffer) → (k : ℕ) → k < field.bits →
        bit_of buffer (field.bit_offset + k) ≡ bit_of source k }
    ensures filled { (other : Bool) (field : FieldUnit) (source : List ℕ) (unit : Access) (value : ℕ) →
        IsFilledWith other field source unit value → (k : ℕ) → k < unit.count →
        bit_at value (unit.first + k) ≡ bit_of source (unit.position + k) }
    ensures merged { (old : ℕ) (field : FieldUnit) (source : List ℕ) (unit : Access) (value : ℕ) →
        IsMergedInto old field source unit value → (k : ℕ) → k < unit.count →
        bit_at value (unit.first + k) ≡ bit_of source (unit.position + k) }
{}
