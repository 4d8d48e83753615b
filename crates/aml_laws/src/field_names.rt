//! Names of fields where values stand, and where values are stored to.
ghost use Rattle.std.specs.Prelude.{◌≡◌, ◌<◌, ◌≤◌, ◌+◌, ◌%◌, ◌^◌, ◌∷◌, ℕ, suc, List, length, take, Ok, Err};
ghost use Rattle.ar_space.specs.Accesses.{Accesses};
ghost use Rattle.ar_space.specs.declared.refusal.Refusal.{Refusal};
ghost use Rattle.aml_path.specs.declared.segment.Seg.{Seg};
ghost use Rattle.aml_path.specs.Paths.{Name};
ghost use Rattle.aml_grammar.specs.Tree.{Tree, name};
ghost use Rattle.aml_grammar.specs.declared.opcode.Opcode.TheVariants as opcodes;
ghost use Rattle.aml_objects.specs.Contents.{content_in};
ghost use Rattle.aml_objects.specs.declared.entry.Field.{Field};
ghost use Rattle.aml_objects.specs.declared.object.Object.TheVariants as object;
ghost use Rattle.aml_objects.specs.declared.value.Value.{Value};
ghost use Rattle.aml_objects.specs.declared.value.Value.TheVariants as value;
ghost use Rattle.aml_convert.specs.Conversions.{to_buffer_of};
ghost use Rattle.aml_convert.specs.Integers.{bits_of, bytes_of};
ghost use Rattle.aml_namespace.specs.Numbering.{Numbered};
ghost use Rattle.aml_world.specs.state.State.{State};
ghost use Rattle.aml_laws.specs.ObjectTerms.{on_target};
ghost use Rattle.aml_laws.specs.FieldsReached.{CountsField};
ghost use Rattle.aml_laws.specs.OperatorTerms.{of_one, one_to, GivesValue, Gives, IsRefused};
ghost use Rattle.aml_laws.specs.NamesUsed.{use_of};
ghost use Rattle.aml_laws.specs.JoinedTerms.{with_object, Fits};
ghost use Rattle.aml_laws.specs.IntegersOfValues.{lowest_first};
ghost use Rattle.aml_laws.specs.FieldNames.{NamesField, bits_read_at, bits_written_at};

/// A name of a field, where a value stands, reads the field: its bits are an integer where they are no more than an
/// integer has, and a new buffer where they are more (ACPI 6.5, 19.6: Field, CreateField). Where the field can't be
/// read the name is refused for that. A name of a field that gives a reference, and bits that are a buffer from a byte
/// on, are refused by this.
pub fn a_name_of_a_field_reads_its_bits<S>()
    ensures integer { (accesses : Accesses S) (scope : List Seg) (depth : ℕ) (w : State S) (steps : ℕ) (n : Name)
        (f : Field) (bits b : ℕ) (bytes : List ℕ) (after : State S × ℕ) → NamesField w scope n f bits →
        bits_read_at accesses depth f (w, steps) ≡ (Ok (b ∷ bytes), after) → bits ≤ bits_of after.0.width →
        Gives accesses scope depth (use_of n) (w, suc steps)
        (lowest_first (take (bytes_of after.0.width) (b ∷ bytes))) after }
    ensures buffer { (accesses : Accesses S) (scope : List Seg) (depth : ℕ) (w : State S) (steps : ℕ) (n : Name)
        (f : Field) (bits : ℕ) (bytes : List ℕ) (after : State S × ℕ) → NamesField w scope n f bits →
        bits_read_at accesses depth f (w, steps) ≡ (Ok bytes, after) → bits_of after.0.width < bits →
        Fits after.0 bytes →
        GivesValue accesses scope depth (use_of n) (w, suc steps) (value.Buffer (length after.0.objects)) (
          with_object after.0 (object.Buffer bytes),
          after.1,
        ) }
    ensures refused { (accesses : Accesses S) (scope : List Seg) (depth : ℕ) (w : State S) (steps : ℕ) (n : Name)
        (f : Field) (bits : ℕ) (e : Refusal) (after : State S × ℕ) → NamesField w scope n f bits →
        bits_read_at accesses depth f (w, steps) ≡ (Err e, after) →
        IsRefused accesses scope depth (use_of n) (w, suc steps) e after }
{}

/// A Store to a name of a field, and a CopyObject, write the field: the value is converted to bytes first, and these
/// are written as the field's bits (ACPI 6.5, 19.3.5.8). Where it doesn't convert, or the field can't be written, the
/// term is refused for that. A Store that writes no register is refused by this.
pub fn a_store_to_a_name_of_a_field_writes_its_bits<S>()
    ensures written { (accesses : Accesses S) (scope : List Seg) (depth : ℕ) (x : Tree) (n : Name) (w : State S)
        (steps : ℕ) (v : Value) (between : State S × ℕ) → GivesValue accesses scope depth x (w, steps) v between →
        (f : Field) (bits : ℕ) → NamesField between.0 scope n f bits → (bytes : List ℕ) (after : State S × ℕ) →
        to_buffer_of between.0.width (content_in between.0.objects v) ≡ Ok bytes →
        bits_written_at accesses depth f bytes between ≡ (Ok tt, after) →
        GivesValue accesses scope depth (one_to opcodes.Store x (name n)) (w, suc steps) v after ×
        GivesValue accesses scope depth (one_to opcodes.CopyObject x (name n)) (w, suc steps) v after }
    ensures unwritten { (accesses : Accesses S) (scope : List Seg) (depth : ℕ) (x : Tree) (n : Name) (w : State S)
        (steps : ℕ) (v : Value) (between : State S × ℕ) → GivesValue accesses scope depth x (w, steps) v between →
        (f : Field) (bits : ℕ) → NamesField between.0 scope n f bits → (bytes : List ℕ) (e : Refusal)
        (after : State S × ℕ) → to_buffer_of between.0.width (content_in between.0.objects v) ≡ Ok bytes →
        bits_written_at accesses depth f bytes between ≡ (Err e, after) →
        IsRefused accesses scope depth (one_to opcodes.Store x (name n)) (w, suc steps) e after ×
        IsRefused accesses scope depth (one_to opcodes.CopyObject x (name n)) (w, suc steps) e after }
    ensures unconverted { (accesses : Accesses S) (scope : List Seg) (depth : ℕ) (x : Tree) (n : Name) (w : State S)
        (steps : ℕ) (v : Value) (between : State S × ℕ) → GivesValue accesses scope depth x (w, steps) v between →
        (f : Field) (bits : ℕ) → NamesField between.0 scope n f bits → (e : Refusal) →
        to_buffer_of between.0.width (content_in between.0.objects v) ≡ Err e →
        IsRefused accesses scope depth (one_to opcodes.Store x (name n)) (w, suc steps) e between ×
        IsRefused accesses scope depth (one_to opcodes.CopyObject x (name n)) (w, suc steps) e between }
{}

/// DerefOf of a reference to a name of a field reads the field, as the name does where a value stands (ACPI 6.5,
/// 19.6: DerefOf). So it is where the numbers of declarations are apart, as they are and do in each world that
/// evaluations make of the predefined names. A field that is 0 behind a reference is refused by this.
pub fn a_field_is_read_through_a_reference<S>()
    ensures integer { (accesses : Accesses S) (scope : List Seg) (depth : ℕ) (w : State S) (steps : ℕ) (n : Name)
        (f : Field) (bits : ℕ) → NamesField w scope n f bits → Numbered w.names → (b : ℕ) (bytes : List ℕ)
        (after : State S × ℕ) → bits_read_at accesses depth f (w, steps) ≡ (Ok (b ∷ bytes), after) →
        bits ≤ bits_of after.0.width →
        Gives accesses scope depth (of_one opcodes.DerefOf (on_target opcodes.RefOf (name n))) (w, suc (suc steps))
        (lowest_first (take (bytes_of after.0.width) (b ∷ bytes))) after }
    ensures buffer { (accesses : Accesses S) (scope : List Seg) (depth : ℕ) (w : State S) (steps : ℕ) (n : Name)
        (f : Field) (bits : ℕ) → NamesField w scope n f bits → Numbered w.names → (bytes : List ℕ)
        (after : State S × ℕ) → bits_read_at accesses depth f (w, steps) ≡ (Ok bytes, after) →
        bits_of after.0.width < bits → Fits after.0 bytes →
        GivesValue accesses scope depth (of_one opcodes.DerefOf (on_target opcodes.RefOf (name n)))
        (w, suc (suc steps)) (value.Buffer (length after.0.objects)) (
          with_object after.0 (object.Buffer bytes),
          after.1,
        ) }
    ensures refused { (accesses : Accesses S) (scope : List Seg) (depth : ℕ) (w : State S) (steps : ℕ) (n : Name)
        (f : Field) (bits : ℕ) → NamesField w scope n f bits → Numbered w.names → (e : Refusal)
        (after : State S × ℕ) → bits_read_at accesses depth f (w, steps) ≡ (Err e, after) →
        IsRefused accesses scope depth (of_one opcodes.DerefOf (on_target opcodes.RefOf (name n)))
        (w, suc (suc steps)) e after }
{}

/// Increment and Decrement of a name of a field read the integer that its bits are, and write the next one, or the
/// one before it, as the field's bits; this is their value. An Increment that writes nothing, and one that counts
/// from 0, are refused by this.
pub fn a_count_of_a_field_is_written_back<S>()
    ensures up { CountsField S opcodes.Increment (λ width a m. m ≡ (a + 1) % 2 ^ bits_of width) }
    ensures down { CountsField S opcodes.Decrement (λ width a m.
        (m < 2 ^ bits_of width) × ((m + 1) % 2 ^ bits_of width ≡ a % 2 ^ bits_of width)) }
{}
