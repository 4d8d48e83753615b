//! Terms that act on the target that an operand names, by itself or behind RefOf, DerefOf and Index.
ghost use Rattle.std.specs.Prelude.{◌≡◌, ◌<◌, ◌≤◌, ◌⊎◌, ℕ, suc, List, ◌∷◌, length, Ok, Err};
ghost use Rattle.ar_space.specs.Accesses.{Accesses};
ghost use Rattle.ar_space.specs.declared.refusal.Refusal.{Refusal};
ghost use Rattle.ar_space.specs.declared.refusal.Refusal.TheVariants as refusal;
ghost use Rattle.ar_space.specs.declared.refusal.EvaluationFault.TheVariants.{DeadReference, NoValue};
ghost use Rattle.ar_space.specs.declared.refusal.ValueFault.TheVariants.{WrongType};
ghost use Rattle.aml_path.specs.declared.segment.Seg.{Seg};
ghost use Rattle.aml_grammar.specs.Tree.{Tree, Part, inner};
ghost use Rattle.aml_grammar.specs.declared.opcode.Opcode.TheVariants as opcodes;
ghost use Rattle.aml_objects.specs.Contents.{content_in};
ghost use Rattle.aml_objects.specs.declared.entry.Field.{Field};
ghost use Rattle.aml_objects.specs.declared.entry.NamedObject.{NamedObject};
ghost use Rattle.aml_objects.specs.declared.value.Reference.{Reference};
ghost use Rattle.aml_objects.specs.declared.value.Value.{Value};
ghost use Rattle.aml_objects.specs.declared.value.Value.TheVariants as value;
ghost use Rattle.aml_convert.specs.Conversions.{to_buffer_of};
ghost use Rattle.aml_convert.specs.Integers.{bits_of};
ghost use Rattle.aml_world.specs.declared.values.object_type.ObjectType.{ObjectType};
ghost use Rattle.aml_world.specs.declared.values.object_type.ObjectType.TheVariants as types;
ghost use Rattle.aml_world.specs.declared.values.object_type.Referent.{Referent};
ghost use Rattle.aml_world.specs.declared.values.object_type.Referent.TheVariants as referent;
ghost use Rattle.aml_world.specs.declared.state.profile.Profile.TheVariants as profiles;
ghost use Rattle.aml_world.specs.declared.values.store_target.StoreTarget.{StoreTarget};
ghost use Rattle.aml_world.specs.declared.values.store_target.Stored.TheVariants as store;
ghost use Rattle.aml_world.specs.state.Mutexes.{acquired_at, given_back_at};
ghost use Rattle.aml_world.specs.values.Operations.{type_number};
ghost use Rattle.aml_world.specs.state.State.{State};
ghost use Rattle.aml_world.specs.values.StoreTargets.{reference_of};
ghost use Rattle.aml_world.specs.values.Stores.{copied_to};
ghost use Rattle.aml_laws.specs.FieldNames.{IsField, bits_read_at, bits_written_at};
ghost use Rattle.aml_laws.specs.FieldsLedTo.{AsksOf, HasNoSize};
ghost use Rattle.aml_laws.specs.ObjectTerms.{acquire, on_target, on_target_with, Passes, Declared, Undeclared};
ghost use Rattle.aml_laws.specs.OperatorTerms.{one_to, GivesValue, GivesNothing, Gives, IsRefused};
ghost use Rattle.aml_laws.specs.ReferringTerms.{HasParts, size_of, object_type, IsNumbered};
ghost use Rattle.aml_laws.specs.TargetsNamed.{NamesAt, NamesNone, NamesGone, IsReferring};

/// Acquire and Release act on the mutex that their operand names, also behind a RefOf or a DerefOf
/// (`a_term_that_refers_names_its_target`), as `acquisitions_are_counted_one_by_one` says of what it names (ACPI 6.5,
/// 19.6: Acquire, Release). Where that is refused, or the operand names no target, so are they. An Acquire of a
/// DerefOf that acquires nothing is refused by this.
pub fn mutexes_are_found_behind_references<S>()
    ensures acquired { (accesses : Accesses S) (scope : List Seg) (depth : ℕ) (p : Part) (t : StoreTarget) (w : State S)
        (steps : ℕ) (between : State S × ℕ) → NamesAt accesses scope depth (w, steps) p t between → (end : State S)
        (time : ℕ) → (acquired_at t between.0 ≡ (Ok tt, end) →
        Gives accesses scope depth (acquire p time) (w, suc steps) 0 (end, between.1)) × ((e : Refusal) →
        acquired_at t between.0 ≡ (Err e, end) →
        IsRefused accesses scope depth (acquire p time) (w, suc steps) e (end, between.1)) }
    ensures released { (accesses : Accesses S) (scope : List Seg) (depth : ℕ) (p : Part) (t : StoreTarget) (w : State S)
        (steps : ℕ) (between : State S × ℕ) → NamesAt accesses scope depth (w, steps) p t between → (end : State S) →
        (given_back_at t between.0 ≡ (Ok tt, end) →
        Passes accesses scope depth (on_target opcodes.Release p) (w, suc steps) (end, between.1)) × ((e : Refusal) →
        given_back_at t between.0 ≡ (Err e, end) →
        IsRefused accesses scope depth (on_target opcodes.Release p) (w, suc steps) e (end, between.1)) }
    ensures unnamed { (accesses : Accesses S) (scope : List Seg) (depth : ℕ) (p : Part) (w : State S) (steps : ℕ)
        (e : Refusal) (after : State S × ℕ) → NamesNone accesses scope depth (w, steps) p e after →
        ((time : ℕ) → IsRefused accesses scope depth (acquire p time) (w, suc steps) e after) ×
        IsRefused accesses scope depth (on_target opcodes.Release p) (w, suc steps) e after }
{}

/// RefOf gives a reference to what its operand names, also to what a RefOf, a DerefOf or an Index in it names
/// (`a_reference_refers_to_its_target`), which isn't read (ACPI 6.5, 19.6: RefOf). Where that has no reference, or the
/// operand names no target, it is refused so. A RefOf of a DerefOf that is refused is refused by this.
pub fn a_reference_is_given_of_what_a_term_names<S>()
    ensures given { (accesses : Accesses S) (scope : List Seg) (depth : ℕ) (p : Part) (t : StoreTarget) (w : State S)
        (steps : ℕ) (between : State S × ℕ) → NamesAt accesses scope depth (w, steps) p t between → (end : State S) →
        ((r : Reference) → reference_of t between.0 ≡ (Ok r, end) → GivesValue accesses scope depth
        (on_target opcodes.RefOf p) (w, suc steps) (value.Reference r) (end, between.1)) × ((e : Refusal) →
        reference_of t between.0 ≡ (Err e, end) →
        IsRefused accesses scope depth (on_target opcodes.RefOf p) (w, suc steps) e (end, between.1)) }
    ensures unnamed { (accesses : Accesses S) (scope : List Seg) (depth : ℕ) (p : Part) (w : State S) (steps : ℕ)
        (e : Refusal) (after : State S × ℕ) → NamesNone accesses scope depth (w, steps) p e after →
        IsRefused accesses scope depth (on_target opcodes.RefOf p) (w, suc steps) e after }
{}

/// Notify finds what its first operand names, also behind a RefOf or a DerefOf, before it evaluates the second one,
/// and nobody is told (ACPI 6.5, 19.6: Notify). Where the first names no target, Notify is refused as the search for
/// it is; and where the second is refused, as this is, or as `NoValue` where it gives nothing. A Notify that looks at
/// nothing is refused by this.
pub fn a_notify_finds_its_object_first<S>()
    ensures notified { (accesses : Accesses S) (scope : List Seg) (depth : ℕ) (p : Part) (t : StoreTarget) (w : State S)
        (steps : ℕ) (between : State S × ℕ) → NamesAt accesses scope depth (w, steps) p t between → (x : Tree)
        (v : Value) (after : State S × ℕ) → GivesValue accesses scope depth x between v after →
        Passes accesses scope depth (on_target_with opcodes.Notify p x) (w, suc steps) after }
    ensures unvalued { (accesses : Accesses S) (scope : List Seg) (depth : ℕ) (p : Part) (t : StoreTarget) (w : State S)
        (steps : ℕ) (between : State S × ℕ) → NamesAt accesses scope depth (w, steps) p t between → (x : Tree)
        (after : State S × ℕ) → ((e : Refusal) → IsRefused accesses scope depth x between e after →
        IsRefused accesses scope depth (on_target_with opcodes.Notify p x) (w, suc steps) e after) ×
        (GivesNothing accesses scope depth x between after → IsRefused accesses scope depth
        (on_target_with opcodes.Notify p x) (w, suc steps) (refusal.Evaluation NoValue) after) }
    ensures unnamed { (accesses : Accesses S) (scope : List Seg) (depth : ℕ) (p : Part) (w : State S) (steps : ℕ)
        (e : Refusal) (after : State S × ℕ) → NamesNone accesses scope depth (w, steps) p e after → (x : Tree) →
        IsRefused accesses scope depth (on_target_with opcodes.Notify p x) (w, suc steps) e after }
{}

/// CopyObject evaluates its source, then finds what its target names, also behind a RefOf, a DerefOf or an Index, and
/// copies the value there (ACPI 6.5, 19.6: CopyObject). Where what is found so is a field, the value is written as
/// its bits, once it is converted to bytes. A copy that is refused, a value that isn't converted, and a field that
/// isn't written, refuse the term; so does a target that isn't found. A CopyObject to a DerefOf that copies nothing
/// is refused by this.
pub fn a_copy_goes_to_what_its_target_names<S>()
    ensures copied { (accesses : Accesses S) (scope : List Seg) (depth : ℕ) (x : Tree) (p : Part) (w : State S)
        (steps : ℕ) (v : Value) (between : State S × ℕ) → GivesValue accesses scope depth x (w, steps) v between →
        (t : StoreTarget) (after : State S × ℕ) → NamesAt accesses scope depth between p t after → (end : State S) →
        (copied_to t v after.0 ≡ (Ok store.Done, end) →
        GivesValue accesses scope depth (one_to opcodes.CopyObject x p) (w, suc steps) v (end, after.1)) ×
        ((e : Refusal) → copied_to t v after.0 ≡ (Err e, end) →
        IsRefused accesses scope depth (one_to opcodes.CopyObject x p) (w, suc steps) e (end, after.1)) }
    ensures written { (accesses : Accesses S) (scope : List Seg) (depth : ℕ) (x : Tree) (p : Part) (w : State S)
        (steps : ℕ) (v : Value) (between : State S × ℕ) → GivesValue accesses scope depth x (w, steps) v between →
        (t : StoreTarget) (after : State S × ℕ) → NamesAt accesses scope depth between p t after → (f : Field)
        (there : State S) → copied_to t v after.0 ≡ (Ok (store.Field f), there) → (bytes : List ℕ)
        (end : State S × ℕ) → to_buffer_of there.width (content_in there.objects v) ≡ Ok bytes →
        (bits_written_at accesses depth f bytes (there, after.1) ≡ (Ok tt, end) →
        GivesValue accesses scope depth (one_to opcodes.CopyObject x p) (w, suc steps) v end) × ((e : Refusal) →
        bits_written_at accesses depth f bytes (there, after.1) ≡ (Err e, end) →
        IsRefused accesses scope depth (one_to opcodes.CopyObject x p) (w, suc steps) e end) }
    ensures unconverted { (accesses : Accesses S) (scope : List Seg) (depth : ℕ) (x : Tree) (p : Part) (w : State S)
        (steps : ℕ) (v : Value) (between : State S × ℕ) → GivesValue accesses scope depth x (w, steps) v between →
        (t : StoreTarget) (after : State S × ℕ) → NamesAt accesses scope depth between p t after → (f : Field)
        (there : State S) → copied_to t v after.0 ≡ (Ok (store.Field f), there) → (e : Refusal) →
        to_buffer_of there.width (content_in there.objects v) ≡ Err e →
        IsRefused accesses scope depth (one_to opcodes.CopyObject x p) (w, suc steps) e (there, after.1) }
    ensures unnamed { (accesses : Accesses S) (scope : List Seg) (depth : ℕ) (x : Tree) (p : Part) (w : State S)
        (steps : ℕ) (v : Value) (between : State S × ℕ) → GivesValue accesses scope depth x (w, steps) v between →
        (e : Refusal) (after : State S × ℕ) → NamesNone accesses scope depth between p e after →
        IsRefused accesses scope depth (one_to opcodes.CopyObject x p) (w, suc steps) e after }
{}

/// In the wide profile Signal, Reset and Wait of an argument that holds a reference to a name whose declaration is
/// gone are refused as a dead reference, also behind a RefOf, and a Wait before it evaluates its timeout (ACPI 6.5,
/// 19.6: Reset, Signal, Wait). A Wait takes no signal where its timeout is refused, or gives nothing: it is refused
/// as the timeout is, or as `NoValue`, whether its operand names an event or not. Where the operand names no target, as
/// a name that isn't found, all three are refused so, a Wait before it evaluates its timeout. A dead reference that is
/// of another type, a Wait that evaluates its timeout first, one that takes its signal all the same, and a Signal of a
/// name that isn't found that passes, are refused by this.
pub fn a_wait_finds_its_event_and_then_its_timeout<S>()
    ensures gone { (accesses : Accesses S) (scope : List Seg) (depth : ℕ) (p : Part) (t : StoreTarget) (w : State S)
        (steps : ℕ) (between : State S × ℕ) → w.profile ≡ profiles.Wide →
        NamesAt accesses scope depth (w, steps) p t between → NamesGone between.0 t → IsRefused accesses scope depth
        (on_target opcodes.Signal p) (w, suc steps) (refusal.Evaluation DeadReference) between × IsRefused accesses scope
        depth (on_target opcodes.Reset p) (w, suc steps) (refusal.Evaluation DeadReference) between × ((x : Tree) →
        IsRefused accesses scope depth (on_target_with opcodes.Wait p x) (w, suc steps)
        (refusal.Evaluation DeadReference) between) }
    ensures untimed { (accesses : Accesses S) (scope : List Seg) (depth : ℕ) (p : Part) (t : StoreTarget) (w : State S)
        (steps : ℕ) (between : State S × ℕ) → w.profile ≡ profiles.Wide →
        NamesAt accesses scope depth (w, steps) p t between → (at : ℕ) →
        Declared between.0 t at ⊎ Undeclared between.0 t → (x : Tree) (after : State S × ℕ) → ((e : Refusal) →
        IsRefused accesses scope depth x between e after →
        IsRefused accesses scope depth (on_target_with opcodes.Wait p x) (w, suc steps) e after) ×
        (GivesNothing accesses scope depth x between after → IsRefused accesses scope depth
        (on_target_with opcodes.Wait p x) (w, suc steps) (refusal.Evaluation NoValue) after) }
    ensures unnamed { (accesses : Accesses S) (scope : List Seg) (depth : ℕ) (p : Part) (w : State S) (steps : ℕ)
        (e : Refusal) (after : State S × ℕ) → w.profile ≡ profiles.Wide →
        NamesNone accesses scope depth (w, steps) p e after → IsRefused accesses scope depth
        (on_target opcodes.Signal p) (w, suc steps) e after × IsRefused accesses scope depth
        (on_target opcodes.Reset p) (w, suc steps) e after × ((x : Tree) → IsRefused accesses scope depth
        (on_target_with opcodes.Wait p x) (w, suc steps) e after) }
{}

/// SizeOf and ObjectType tell of what their operand leads to in the end (ACPI 6.5, 19.6: ObjectType, SizeOf). A RefOf, a
/// DerefOf or an Index is evaluated, and leads there by its value; a local, an argument or a name leads there by what it
/// holds. A value stands for itself, and where it is a reference, for what at most 64 references lead to. Where that
/// is a slot or an element without a value, ObjectType gives 0, and SizeOf is refused as `NoValue`. Where a RefOf, a
/// DerefOf or an Index is refused, they are. An ObjectType of a RefOf, and one of a local that holds a reference, that
/// tell of the reference, and one that is refused where a reference leads to an empty element, are refused by this.
pub fn sizes_and_types_are_told_of_what_values_lead_to<S>()
    ensures sizes { (accesses : Accesses S) (scope : List Seg) (depth : ℕ) (p : Part) (w : State S) (steps : ℕ)
        (r : Value) (n : ℕ) (f : ℕ → Reference) (after : State S × ℕ) →
        AsksOf accesses scope depth (w, steps) p (referent.Value r) after → HasParts after.0 r n f →
        Gives accesses scope depth (size_of p) (w, suc steps) n after }
    ensures types { (accesses : Accesses S) (scope : List Seg) (depth : ℕ) (p : Part) (w : State S) (steps : ℕ)
        (r : Value) (k : ℕ) (after : State S × ℕ) →
        AsksOf accesses scope depth (w, steps) p (referent.Value r) after → IsNumbered r k →
        Gives accesses scope depth (object_type p) (w, suc steps) k after }
    ensures named_types { (accesses : Accesses S) (scope : List Seg) (depth : ℕ) (p : Part) (w : State S)
        (steps : ℕ) (t : ObjectType) (after : State S × ℕ) →
        AsksOf accesses scope depth (w, steps) p (referent.Object t) after →
        Gives accesses scope depth (object_type p) (w, suc steps) (type_number t) after }
    ensures no_value { (accesses : Accesses S) (scope : List Seg) (depth : ℕ) (p : Part) (w : State S) (steps : ℕ)
        (after : State S × ℕ) → AsksOf accesses scope depth (w, steps) p (referent.Value value.Uninitialized) after →
        Gives accesses scope depth (object_type p) (w, suc steps) 0 after ×
        IsRefused accesses scope depth (size_of p) (w, suc steps) (refusal.Evaluation NoValue) after }
    ensures refused { (accesses : Accesses S) (scope : List Seg) (depth : ℕ) (u : Tree) (w : State S) (steps : ℕ) →
        IsReferring u → (e : Refusal) (after : State S × ℕ) → IsRefused accesses scope depth u (w, steps) e after →
        IsRefused accesses scope depth (size_of (inner u)) (w, suc steps) e after ×
        IsRefused accesses scope depth (object_type (inner u)) (w, suc steps) e after }
{}

/// SizeOf and ObjectType tell of a field to which their operand leads: a RefOf, a DerefOf or an Index by its value,
/// and a local, an argument or a name by what it holds, over at most 64 references (ACPI 6.5, 19.6: ObjectType,
/// SizeOf). Where they lead to the declaration of a field, ObjectType gives 5 for a field unit and 14 for a buffer
/// field, SizeOf is refused as `WrongType`, and the field isn't read. Where they lead to an element of a package that
/// names a field, the element stands for the value of the field, which is read once: where its bits fit an integer,
/// ObjectType gives 1, and SizeOf is refused as `WrongType`; where they don't, ObjectType gives 3, and SizeOf the
/// number of its bytes, and no buffer is made; where the field can't be read, both are refused for that. SizeOf of
/// anything else that has no size is refused, too: of an integer, of a name that holds no value, of a byte and of
/// Debug as `WrongType`, and of a slot that holds nothing as `NoValue`. A field in a package of which ObjectType
/// tells the type of a field, and a field that has the size 0, are refused by this.
pub fn sizes_and_types_are_told_of_fields<S>()
    ensures units { (accesses : Accesses S) (scope : List Seg) (depth : ℕ) (p : Part) (w : State S) (steps : ℕ)
        (after : State S × ℕ) → AsksOf accesses scope depth (w, steps) p (referent.Object types.FieldUnit) after →
        Gives accesses scope depth (object_type p) (w, suc steps) 5 after }
    ensures buffer_fields { (accesses : Accesses S) (scope : List Seg) (depth : ℕ) (p : Part) (w : State S) (steps : ℕ)
        (after : State S × ℕ) → AsksOf accesses scope depth (w, steps) p (referent.Object types.BufferField) after →
        Gives accesses scope depth (object_type p) (w, suc steps) 14 after }
    ensures without_size { (accesses : Accesses S) (scope : List Seg) (depth : ℕ) (p : Part) (w : State S) (steps : ℕ)
        (after : State S × ℕ) (x : Referent) (e : Refusal) → AsksOf accesses scope depth (w, steps) p x after →
        HasNoSize x e → IsRefused accesses scope depth (size_of p) (w, suc steps) e after }
    ensures short_fields { (accesses : Accesses S) (scope : List Seg) (depth : ℕ) (p : Part) (w : State S) (steps : ℕ)
        (f : Field) (between : State S × ℕ) → AsksOf accesses scope depth (w, steps) p (referent.Field f) between →
        (o : NamedObject) (bits : ℕ) → IsField o f bits → (b : ℕ) (bytes : List ℕ) (after : State S × ℕ) →
        bits_read_at accesses depth f between ≡ (Ok (b ∷ bytes), after) → bits ≤ bits_of after.0.width →
        Gives accesses scope depth (object_type p) (w, suc steps) 1 after ×
        IsRefused accesses scope depth (size_of p) (w, suc steps) (refusal.Value WrongType) after }
    ensures long_fields { (accesses : Accesses S) (scope : List Seg) (depth : ℕ) (p : Part) (w : State S) (steps : ℕ)
        (f : Field) (between : State S × ℕ) → AsksOf accesses scope depth (w, steps) p (referent.Field f) between →
        (o : NamedObject) (bits : ℕ) → IsField o f bits → (bytes : List ℕ) (after : State S × ℕ) →
        bits_read_at accesses depth f between ≡ (Ok bytes, after) → bits_of after.0.width < bits →
        Gives accesses scope depth (object_type p) (w, suc steps) 3 after ×
        Gives accesses scope depth (size_of p) (w, suc steps) (length bytes) after }
    ensures unread { (accesses : Accesses S) (scope : List Seg) (depth : ℕ) (p : Part) (w : State S) (steps : ℕ)
        (f : Field) (between : State S × ℕ) → AsksOf accesses scope depth (w, steps) p (referent.Field f) between →
        (e : Refusal) (after : State S × ℕ) → bits_read_at accesses depth f between ≡ (Err e, after) →
        IsRefused accesses scope depth (object_type p) (w, suc steps) e after ×
        IsRefused accesses scope depth (size_of p) (w, suc steps) e after }
{}
