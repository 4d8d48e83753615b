//! Fields in a bank of an operation region.
ghost use Rattle.std.specs.Prelude.{◌≡◌, ◌<◌, ◌≤◌, ◌^◌, ℕ, List, Ok, Err};
ghost use Rattle.ar_space.specs.Accesses.{Accesses, bit_count};
ghost use Rattle.ar_space.specs.declared.refusal.FieldFault.TheVariants.{RegionLimit};
ghost use Rattle.ar_space.specs.declared.refusal.Refusal.{Refusal};
ghost use Rattle.ar_space.specs.declared.refusal.Refusal.TheVariants as refusal;
ghost use Rattle.aml_path.specs.declared.segment.Seg.{Seg};
ghost use Rattle.aml_objects.specs.declared.entry.Bank.{Bank};
ghost use Rattle.aml_objects.specs.declared.entry.FieldUnit.{FieldUnit};
ghost use Rattle.aml_fields.specs.UnitByUnit.{bits_read, write_units};
ghost use Rattle.aml_fields.specs.Units.{units_of};
ghost use Rattle.aml_fields.specs.Regions.{write_field};
ghost use Rattle.aml_fields.specs.declared.region.Region.{Region};
ghost use Rattle.aml_world.specs.declared.fields.regions.RegionField.{RegionField};
ghost use Rattle.aml_world.specs.state.State.{State, on_space};
ghost use Rattle.aml_world.specs.state.Run.{Run, lift};
ghost use Rattle.aml_world.specs.fields.Fields.{bank_bits, bank_selected, bank_written, located};
ghost use Rattle.aml_laws.specs.IndexRegisters.{Register, IsRegister};
ghost use Rattle.aml_laws.specs.BankFields.{IsFieldUnit, eight_bytes, read_in_its_bank, written_in_its_bank};
ghost use Rattle.aml_laws.specs.BankRegisters.{selected_and_read, selected_and_written};
ghost use Rattle.aml_laws.specs.PlainRegions.{IsPlainRegion};

/// A field in a bank of a region of SystemMemory or SystemIO, whose bank field is a register that holds the value, is
/// read unit by unit, in the order of `units_are_accessed_lowest_first`: the value is written to the bank register, and
/// right behind that the unit is read. It is written so too, and where bits of a unit are kept, the unit is read so
/// before. There are no other accesses, nothing else of the world changes, and no step is taken. A bank that is
/// selected once for all units, or behind the unit, or not again between the read and the write of a unit, is refused
/// by this.
#[tactic(auto, using(crate::proofs::BankedFields::read_in_bank, crate::proofs::BankedFields::written_in_bank))]
pub fn a_bank_is_selected_before_each_unit<S>()
    ensures read { (w : State S) (steps : ℕ) (accesses : Accesses S) (call : List Seg → Run S ℕ) (n : ℕ) (bank : Bank)
        (register : Register) (region : Region) → IsRegister w bank.field register →
        IsPlainRegion w n region → bank.value < 2 ^ bit_count register.width →
        (field : FieldUnit) → bank_bits accesses call n bank field (w, steps) ≡
        lift (on_space (bits_read (selected_and_read accesses register bank.value region field.access) field))
        (w, steps) }
    ensures written { (w : State S) (steps : ℕ) (accesses : Accesses S) (call : List Seg → Run S ℕ) (n : ℕ)
        (bank : Bank) (register : Register) (region : Region) → IsRegister w bank.field register →
        IsPlainRegion w n region → bank.value < 2 ^ bit_count register.width →
        (field : FieldUnit) (source : List ℕ) → bank_written accesses call n bank field source (w, steps) ≡
        lift (on_space (write_units (selected_and_written accesses register bank.value region field source)
        (units_of field.bit_offset field.bits field.access))) (w, steps) }
{}

/// A bank is selected by one write of its bank field with the value, whatever bits the field has and by whatever rule
/// it updates its units, which may read them first: the bank field lies in a region of SystemMemory or SystemIO and
/// holds the value. A field in such a bank is read and written unit by unit, in the order of
/// `units_are_accessed_lowest_first`, each unit right behind such a write, and where bits of a unit are kept, it is
/// read so before. There are no other accesses, nothing else of the world changes, and no step is taken. A bank field
/// of a part of a unit that is written whole, or without the bits that it keeps, is refused by this.
#[tactic(auto, using(crate::proofs::BanksSelected::a_bank_is_selected_by_a_write_of_its_field))]
pub fn a_bank_is_selected_by_a_write_of_its_field<S>()
    ensures selected { (w : State S) (steps : ℕ) (accesses : Accesses S) (call : List Seg → Run S ℕ)
        (field : RegionField) (value : ℕ) (at : Region) → IsPlainRegion w field.region at →
        value < 2 ^ field.unit.bits → bank_selected accesses call field value (w, steps) ≡
        lift (on_space (write_field accesses at field.unit (eight_bytes value))) (w, steps) }
    ensures read { (w : State S) (steps : ℕ) (accesses : Accesses S) (call : List Seg → Run S ℕ) (n : ℕ) (bank : Bank)
        (held : RegionField) → IsFieldUnit w bank.field held → (at region : Region) →
        IsPlainRegion w held.region at → IsPlainRegion w n region →
        bank.value < 2 ^ held.unit.bits → (field : FieldUnit) → bank_bits accesses call n bank field (w, steps) ≡
        lift (on_space (bits_read (read_in_its_bank accesses at held.unit bank.value region field.access) field))
        (w, steps) }
    ensures written { (w : State S) (steps : ℕ) (accesses : Accesses S) (call : List Seg → Run S ℕ) (n : ℕ)
        (bank : Bank) (held : RegionField) → IsFieldUnit w bank.field held → (at region : Region) →
        IsPlainRegion w held.region at → IsPlainRegion w n region →
        bank.value < 2 ^ held.unit.bits → (field : FieldUnit) (source : List ℕ) →
        bank_written accesses call n bank field source (w, steps) ≡
        lift (on_space (write_units (written_in_its_bank accesses at held.unit bank.value region field source)
        (units_of field.bit_offset field.bits field.access))) (w, steps) }
{}

/// A field of some bits in a bank whose bank field doesn't hold the value is refused as `RegionLimit`, read or written:
/// in a region of SystemMemory or SystemIO nothing is accessed, and the world and the steps are as they were. In any
/// other region they are as locating it left them. A value that is cut to the bank field is refused by this.
pub fn a_bank_that_its_field_cannot_hold_is_refused<S>()
    ensures read { (w : State S) (steps : ℕ) (accesses : Accesses S) (call : List Seg → Run S ℕ) (n : ℕ) (bank : Bank)
        (held : RegionField) (region : Region) → IsFieldUnit w bank.field held →
        IsPlainRegion w n region → 2 ^ held.unit.bits ≤ bank.value → (field : FieldUnit) →
        0 < field.bits → bank_bits accesses call n bank field (w, steps) ≡
        (Err (refusal.Field RegionLimit), (w, steps)) }
    ensures written { (w : State S) (steps : ℕ) (accesses : Accesses S) (call : List Seg → Run S ℕ) (n : ℕ)
        (bank : Bank) (held : RegionField) (region : Region) → IsFieldUnit w bank.field held →
        IsPlainRegion w n region → 2 ^ held.unit.bits ≤ bank.value → (field : FieldUnit) →
        0 < field.bits → (source : List ℕ) → bank_written accesses call n bank field source (w, steps) ≡
        (Err (refusal.Field RegionLimit), (w, steps)) }
    ensures read_anywhere { (s after : State S × ℕ) (accesses : Accesses S) (call : List Seg → Run S ℕ) (n : ℕ)
        (bank : Bank) (held : RegionField) (region : Region) → IsFieldUnit s.0 bank.field held →
        located accesses call n s ≡ (Ok region, after) → 2 ^ held.unit.bits ≤ bank.value → (field : FieldUnit) →
        0 < field.bits → bank_bits accesses call n bank field s ≡ (Err (refusal.Field RegionLimit), after) }
    ensures written_anywhere { (s after : State S × ℕ) (accesses : Accesses S) (call : List Seg → Run S ℕ) (n : ℕ)
        (bank : Bank) (held : RegionField) (region : Region) → IsFieldUnit s.0 bank.field held →
        located accesses call n s ≡ (Ok region, after) → 2 ^ held.unit.bits ≤ bank.value → (field : FieldUnit) →
        0 < field.bits → (source : List ℕ) → bank_written accesses call n bank field source s ≡
        (Err (refusal.Field RegionLimit), after) }
{}

/// Where the region of a field in a bank can't be located, the field is refused so before any bank is selected: the
/// world and the steps are as locating the region left them. A bank that is selected first is refused by this.
pub fn a_region_is_located_before_its_bank_is_selected<S>()
    ensures read { (s after : State S × ℕ) (accesses : Accesses S) (call : List Seg → Run S ℕ) (n : ℕ) (bank : Bank)
        (held : RegionField) (e : Refusal) → IsFieldUnit s.0 bank.field held →
        located accesses call n s ≡ (Err e, after) → (field : FieldUnit) →
        bank_bits accesses call n bank field s ≡ (Err e, after) }
    ensures written { (s after : State S × ℕ) (accesses : Accesses S) (call : List Seg → Run S ℕ) (n : ℕ)
        (bank : Bank) (held : RegionField) (e : Refusal) → IsFieldUnit s.0 bank.field held →
        located accesses call n s ≡ (Err e, after) → (field : FieldUnit) (source : List ℕ) →
        bank_written accesses call n bank field source s ≡ (Err e, after) }
{}
