//! Fields behind an index field and a data field.
ghost use Rattle.std.specs.Prelude.{◌≡◌, ◌≢◌, ℕ, List};
ghost use Rattle.ar_space.specs.Accesses.{Accesses};
ghost use Rattle.aml_path.specs.declared.segment.Seg.{Seg};
ghost use Rattle.aml_objects.specs.declared.entry.FieldUnit.{FieldUnit};
ghost use Rattle.aml_objects.specs.declared.entry.UpdateRule.TheVariants.{Preserve};
ghost use Rattle.aml_fields.specs.UnitByUnit.{bits_read, write_units};
ghost use Rattle.aml_fields.specs.Units.{units_of};
ghost use Rattle.aml_world.specs.state.State.{State, on_space};
ghost use Rattle.aml_world.specs.state.Run.{Run, lift};
ghost use Rattle.aml_world.specs.fields.Fields.{index_bits, index_written};
ghost use Rattle.aml_laws.specs.IndexRegisters.{Register, IsRegister};
ghost use Rattle.aml_laws.specs.IndexRegisters.{chosen_and_read, chosen_and_written, kept_and_written};

/// A field behind an index register and a data register of SystemMemory or SystemIO is accessed unit by unit, in the
/// order of `units_are_accessed_lowest_first`. To read a unit, its offset is written to the index register, and then
/// the data register is read. Under the update rules WriteAsOnes and WriteAsZeros a unit is written so, too: its offset
/// is written to the index register, and then its bits to the data register. Under Preserve a unit that the field
/// covers whole is written in the same way; one that it covers in part is first read, which writes its offset, and then
/// its offset is written again, and the unit with its other bits as they were. There are no other accesses, nothing
/// else of the world changes, and no step is taken. The law excludes a read that goes on in the data register without
/// the next unit's offset, an access that writes the number of a unit, and a write that reads a unit which the field
/// covers whole.
#[tactic(auto, using(crate::proofs::IndexedFields::index_fields_are_accessed_unit_by_unit))]
pub fn index_fields_are_accessed_unit_by_unit<S>()
    ensures read { (w : State S) (steps : ℕ) (accesses : Accesses S) (call : List Seg → Run S ℕ) (i d : ℕ)
        (index behind : Register) → IsRegister w i index → IsRegister w d behind → (field : FieldUnit) →
        field.access ≡ behind.width → index_bits accesses call i d field (w, steps) ≡
        lift (on_space (bits_read (chosen_and_read accesses index behind) field)) (w, steps) }
    ensures written { (w : State S) (steps : ℕ) (accesses : Accesses S) (call : List Seg → Run S ℕ) (i d : ℕ)
        (index behind : Register) → IsRegister w i index → IsRegister w d behind → (field : FieldUnit)
        (source : List ℕ) → field.update ≢ Preserve → index_written accesses call i d field source (w, steps) ≡
        lift (on_space (write_units (chosen_and_written accesses index behind field source)
        (units_of field.bit_offset field.bits field.access))) (w, steps) }
    ensures kept { (w : State S) (steps : ℕ) (accesses : Accesses S) (call : List Seg → Run S ℕ) (i d : ℕ)
        (index behind : Register) → IsRegister w i index → IsRegister w d behind → (field : FieldUnit)
        (source : List ℕ) → field.update ≡ Preserve → field.access ≡ behind.width →
        index_written accesses call i d field source (w, steps) ≡
        lift (on_space (write_units (kept_and_written accesses index behind field source)
        (units_of field.bit_offset field.bits field.access))) (w, steps) }
{}
