//! Fields in a bank, and behind an index field and a data field, wherever the regions of these lie.
ghost use Rattle.std.specs.Prelude.{◌≡◌, ◌<◌, ◌^◌, ℕ, List, Ok};
ghost use Rattle.ar_space.specs.Accesses.{Accesses};
ghost use Rattle.aml_path.specs.declared.segment.Seg.{Seg};
ghost use Rattle.aml_objects.specs.declared.entry.Bank.{Bank};
ghost use Rattle.aml_objects.specs.declared.entry.FieldSource.TheVariants as sources;
ghost use Rattle.aml_objects.specs.declared.entry.FieldUnit.{FieldUnit};
ghost use Rattle.aml_fields.specs.UnitByUnit.{bits_read, write_units};
ghost use Rattle.aml_fields.specs.Units.{units_of};
ghost use Rattle.aml_fields.specs.declared.region.Region.{Region};
ghost use Rattle.aml_world.specs.declared.fields.regions.RegionField.{RegionField};
ghost use Rattle.aml_world.specs.state.State.{State};
ghost use Rattle.aml_world.specs.state.Run.{Run};
ghost use Rattle.aml_world.specs.fields.Fields.{bank_bits, bank_selected, bank_written, located, index_bits};
ghost use Rattle.aml_world.specs.fields.Fields.{index_written};
ghost use Rattle.aml_laws.specs.BankFields.{IsFieldUnit};
ghost use Rattle.aml_laws.specs.LocatedFields.{number_written, read_behind_bank_field, written_behind_bank_field};
ghost use Rattle.aml_laws.specs.LocatedFields.{read_behind_index_field, written_behind_index_field};

/// A bank is selected by a write of its bank field with the value, which that field holds, wherever the bank field and
/// the region of the bank lie, PCI_Config too: the write is that of a field of an operation region
/// (`a_field_of_a_region_is_accessed_in_it`). A field in such a bank is read and written unit by unit, in the order of
/// `units_are_accessed_lowest_first`, in the region where it was located once before any unit: each unit right behind
/// such a write, and where bits of a unit are kept, it is read so before. There are no other accesses, and what else a
/// write of the bank field does, as locating it in PCI_Config, is all that happens. A region of PCI_Config whose bank
/// isn't selected is refused by this.
pub fn a_bank_is_selected_wherever_its_region_lies<S>()
    ensures selected { (accesses : Accesses S) (call : List Seg → Run S ℕ) (bank : RegionField) (value : ℕ)
        (s : State S × ℕ) → bank.unit.source ≡ sources.Region bank.region → value < 2 ^ bank.unit.bits →
        bank_selected accesses call bank value s ≡ number_written accesses call bank.unit value s }
    ensures read { (s after : State S × ℕ) (accesses : Accesses S) (call : List Seg → Run S ℕ) (n : ℕ) (bank : Bank)
        (held : RegionField) (region : Region) → IsFieldUnit s.0 bank.field held →
        located accesses call n s ≡ (Ok region, after) → bank.value < 2 ^ held.unit.bits → (field : FieldUnit) →
        bank_bits accesses call n bank field s ≡
        bits_read (read_behind_bank_field accesses call held.unit bank.value region field.access) field after }
    ensures written { (s after : State S × ℕ) (accesses : Accesses S) (call : List Seg → Run S ℕ) (n : ℕ) (bank : Bank)
        (held : RegionField) (region : Region) → IsFieldUnit s.0 bank.field held →
        located accesses call n s ≡ (Ok region, after) → bank.value < 2 ^ held.unit.bits → (field : FieldUnit)
        (source : List ℕ) → bank_written accesses call n bank field source s ≡
        write_units (written_behind_bank_field accesses call held.unit bank.value region field source)
        (units_of field.bit_offset field.bits field.access) after }
{}

/// A unit behind an index field is chosen by a write of the index field with the unit's offset in bytes, whatever bits
/// the index field and the data field have, by whatever rules they update their units, and wherever their regions lie,
/// PCI_Config too: these are accesses of fields of an operation region (`a_field_of_a_region_is_accessed_in_it`). A
/// field behind them is read unit by unit, in the order of `units_are_accessed_lowest_first`: right behind the write
/// the data field is read, and its lowest bits are the unit. It is written so, too, and the data field is written in
/// place of the read; where bits of a unit are kept, the unit is read so before. Nothing else happens. An index field
/// of a part of a unit that is written with the number of a unit is refused by this.
pub fn a_unit_behind_an_index_field_is_chosen_by_its_offset<S>()
    ensures read { (s : State S × ℕ) (accesses : Accesses S) (call : List Seg → Run S ℕ) (i d : ℕ)
        (index behind : RegionField) → IsFieldUnit s.0 i index → IsFieldUnit s.0 d behind → (field : FieldUnit) →
        index_bits accesses call i d field s ≡
        bits_read (read_behind_index_field accesses call index.unit behind.unit field.access) field s }
    ensures written { (s : State S × ℕ) (accesses : Accesses S) (call : List Seg → Run S ℕ) (i d : ℕ)
        (index behind : RegionField) → IsFieldUnit s.0 i index → IsFieldUnit s.0 d behind → (field : FieldUnit)
        (source : List ℕ) → index_written accesses call i d field source s ≡
        write_units (written_behind_index_field accesses call index.unit behind.unit field source)
        (units_of field.bit_offset field.bits field.access) s }
{}
