//! How a field is accessed: by what it was declared in (ACPI 6.5, 19.6: Field, IndexField, BankField).
ghost use Rattle.std.specs.Prelude.{◌≡◌, ℕ, List, Ok, Err};
ghost use Rattle.ar_space.specs.Accesses.{Accesses};
ghost use Rattle.ar_space.specs.declared.refusal.Refusal.{Refusal};
ghost use Rattle.aml_path.specs.declared.segment.Seg.{Seg};
ghost use Rattle.aml_objects.specs.declared.entry.Bank.{Bank};
ghost use Rattle.aml_objects.specs.declared.entry.BufferField.{BufferField};
ghost use Rattle.aml_objects.specs.declared.entry.Field.TheVariants as field;
ghost use Rattle.aml_objects.specs.declared.entry.FieldSource.TheVariants as sources;
ghost use Rattle.aml_objects.specs.declared.entry.FieldUnit.{FieldUnit};
ghost use Rattle.aml_fields.specs.declared.region.Region.{Region};
ghost use Rattle.aml_fields.specs.BufferFields.{read_buffer_field, write_buffer_field};
ghost use Rattle.aml_fields.specs.Regions.{read_field, write_field};
ghost use Rattle.aml_world.specs.fields.Regions.{field_declared};
ghost use Rattle.aml_world.specs.state.State.{State, on_objects, on_space};
ghost use Rattle.aml_world.specs.state.Run.{Run, lift};
ghost use Rattle.aml_world.specs.fields.Fields.{bits_in, written_in, located, region_bits, region_written, index_bits};
ghost use Rattle.aml_world.specs.fields.Fields.{index_written};
ghost use Rattle.aml_world.specs.fields.Fields.{bank_bits, bank_written};
ghost use Rattle.aml_laws.specs.PlainRegions.{IsPlainRegion};

/// A field of an operation region is read and written there, one of an IndexField by its index and data fields, one of a
/// BankField in its bank, and one of a buffer as bits of its buffer (the laws of buffer fields), without an access and a
/// step. A field of a bank that is accessed as one of the region, and one of a buffer that can't be read or that a Store
/// doesn't write, are refused by this.
#[tactic(auto, using(crate::proofs::FieldSources::a_field_is_accessed_by_its_source))]
pub fn a_field_is_accessed_by_its_source<S>()
    ensures region { (accesses : Accesses S) (call : List Seg → Run S ℕ) (f : FieldUnit) (n : ℕ) →
        f.source ≡ sources.Region n → (bits_in accesses call (field.Unit f) ≡
        region_bits accesses call (record { region = n; unit = f })) ×
        ((bytes : List ℕ) → written_in accesses call (field.Unit f) bytes ≡
        region_written accesses call (record { region = n; unit = f }) bytes) }
    ensures index { (accesses : Accesses S) (call : List Seg → Run S ℕ) (f : FieldUnit) (i d : ℕ) →
        f.source ≡ sources.Index i d → (bits_in accesses call (field.Unit f) ≡ index_bits accesses call i d f) ×
        ((bytes : List ℕ) → written_in accesses call (field.Unit f) bytes ≡ index_written accesses call i d f bytes) }
    ensures bank { (accesses : Accesses S) (call : List Seg → Run S ℕ) (f : FieldUnit) (n : ℕ) (bank : Bank) →
        f.source ≡ sources.Bank n bank → (bits_in accesses call (field.Unit f) ≡ bank_bits accesses call n bank f) ×
        ((bytes : List ℕ) → written_in accesses call (field.Unit f) bytes ≡
        bank_written accesses call n bank f bytes) }
    ensures buffer { (accesses : Accesses S) (call : List Seg → Run S ℕ) (b : BufferField) →
        (bits_in accesses call (field.Buffer b) ≡ lift (on_objects (read_buffer_field b))) ×
        ((bytes : List ℕ) → written_in accesses call (field.Buffer b) bytes ≡
        lift (on_objects (write_buffer_field b bytes))) }
{}

/// A field of an operation region is read and written in that very region, as `aml_fields` reads and writes fields: of
/// SystemMemory (the address space 0) and SystemIO (1) at its offset and of its length, with no other access and no
/// step, which is where it is located; of any other where it is located; and where it can't be located the field is
/// refused so. A field that is accessed at another offset of the region, and a region of SystemMemory that can't be
/// located, are refused by this.
#[tactic(auto, using(crate::proofs::FieldSources::a_field_of_a_region_is_accessed_in_it))]
pub fn a_field_of_a_region_is_accessed_in_it<S>()
    ensures located { (accesses : Accesses S) (call : List Seg → Run S ℕ) (w : State S) (steps n : ℕ)
        (region : Region) → IsPlainRegion w n region →
        located accesses call n (w, steps) ≡ (Ok region, (w, steps)) }
    ensures read { (accesses : Accesses S) (call : List Seg → Run S ℕ) (f : FieldUnit) (n : ℕ) (w : State S) (steps : ℕ)
        (region : Region) → f.source ≡ sources.Region n → IsPlainRegion w n region →
        bits_in accesses call (field.Unit f) (w, steps) ≡ lift (on_space (read_field accesses region f)) (w, steps) }
    ensures written { (accesses : Accesses S) (call : List Seg → Run S ℕ) (f : FieldUnit) (n : ℕ) (w : State S)
        (steps : ℕ) (region : Region) (bytes : List ℕ) → f.source ≡ sources.Region n →
        IsPlainRegion w n region → written_in accesses call (field.Unit f) bytes (w, steps) ≡
        lift (on_space (write_field accesses region f bytes)) (w, steps) }
    ensures located_read { (accesses : Accesses S) (call : List Seg → Run S ℕ) (f : FieldUnit) (n : ℕ)
        (s after : State S × ℕ) (region : Region) → f.source ≡ sources.Region n →
        located accesses call n s ≡ (Ok region, after) →
        bits_in accesses call (field.Unit f) s ≡ lift (on_space (read_field accesses region f)) after }
    ensures located_written { (accesses : Accesses S) (call : List Seg → Run S ℕ) (f : FieldUnit) (n : ℕ)
        (s after : State S × ℕ) (region : Region) (bytes : List ℕ) → f.source ≡ sources.Region n →
        located accesses call n s ≡ (Ok region, after) → written_in accesses call (field.Unit f) bytes s ≡
        lift (on_space (write_field accesses region f bytes)) after }
    ensures read_nowhere { (accesses : Accesses S) (call : List Seg → Run S ℕ) (f : FieldUnit) (n : ℕ)
        (s after : State S × ℕ) (e : Refusal) → f.source ≡ sources.Region n →
        located accesses call n s ≡ (Err e, after) → bits_in accesses call (field.Unit f) s ≡ (Err e, after) }
    ensures written_nowhere { (accesses : Accesses S) (call : List Seg → Run S ℕ) (f : FieldUnit) (n : ℕ)
        (s after : State S × ℕ) (e : Refusal) (bytes : List ℕ) → f.source ≡ sources.Region n →
        located accesses call n s ≡ (Err e, after) →
        written_in accesses call (field.Unit f) bytes s ≡ (Err e, after) }
{}

/// Where the bank field of a field is gone, the field is refused for that, before its region is located: nothing has
/// changed.
pub fn a_bank_field_is_found_first<S>()
    ensures read { (accesses : Accesses S) (call : List Seg → Run S ℕ) (f : FieldUnit) (n : ℕ) (bank : Bank)
        (s : State S × ℕ) (e : Refusal) → lift (field_declared bank.field) s ≡ (Err e, s) →
        bank_bits accesses call n bank f s ≡ (Err e, s) }
    ensures written { (accesses : Accesses S) (call : List Seg → Run S ℕ) (f : FieldUnit) (n : ℕ) (bank : Bank)
        (bytes : List ℕ) (s : State S × ℕ) (e : Refusal) → lift (field_declared bank.field) s ≡ (Err e, s) →
        bank_written accesses call n bank f bytes s ≡ (Err e, s) }
{}
