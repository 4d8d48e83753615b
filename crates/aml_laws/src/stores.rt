//! Stores to names.
ghost use Rattle.std.specs.Prelude.{◌≡◌, ◌<◌, ◌≤◌, ℕ, List, [], length, Some, Ok, Err, slice_get};
ghost use Rattle.std.specs.FinMap.{get};
ghost use Rattle.ar_space.specs.declared.refusal.Refusal.{Refusal};
ghost use Rattle.ar_space.specs.declared.refusal.Refusal.TheVariants as refusal;
ghost use Rattle.ar_space.specs.declared.refusal.ValueFault.TheVariants.{WrongType};
ghost use Rattle.aml_path.specs.declared.segment.Seg.{Seg};
ghost use Rattle.aml_objects.specs.Contents.{content_in};
ghost use Rattle.aml_objects.specs.declared.object.Object.TheVariants as object;
ghost use Rattle.aml_objects.specs.declared.value.Value.{Value};
ghost use Rattle.aml_objects.specs.declared.value.Value.TheVariants as value;
ghost use Rattle.aml_convert.specs.Conversions.{to_text_of, to_buffer_of};
ghost use Rattle.aml_world.specs.state.State.{State};
ghost use Rattle.aml_world.specs.state.Readings.{integer_in};
ghost use Rattle.aml_world.specs.values.Stores.{stored, copied_to};
ghost use Rattle.aml_world.specs.declared.values.store_target.StoreTarget.TheVariants as targets;
ghost use Rattle.aml_world.specs.declared.values.store_target.Stored.TheVariants as store;
ghost use Rattle.aml_laws.specs.StoredNames.{data_entry, with_integer, with_object_numbered, cut_or_filled};

/// A Store to a name converts to what the name holds (ACPI 6.5, 19.3.5.8). A name that holds an integer then holds
/// the integer that the value converts to, under the number of its declaration. One that holds a string keeps its
/// object, which has the text that the value converts to; one that holds a buffer of some bytes keeps its object and
/// its length, and has the bytes that the value converts to, cut or with zeros behind them; an empty buffer takes
/// them all. Nothing else of the world changes. One that holds a package takes a copy of another package, as
/// CopyObject leaves it. A value that doesn't convert (`what_has_no_conversion_is_refused` says which those are), and
/// any but a package where a package is held, is refused, and the world stays as it was. A Store that puts the value
/// itself into the name, that makes another object, that changes the length of a buffer, or that shares a package is
/// refused by this.
#[tactic(auto, using(crate::proofs::StoredNames::a_store_converts_to_what_its_name_holds))]
pub fn a_store_converts_to_what_its_name_holds<S>()
    ensures integer { (w : State S) (path : List Seg) (number : ℕ) (v : Value) (m n : ℕ) →
        get w.names.map path ≡ Some (data_entry number (value.Integer m)) → integer_in v w ≡ (Ok n, w) →
        stored (targets.Name path) v w ≡ (Ok store.Done, with_integer w path number n) }
    ensures string { (w : State S) (path : List Seg) (number : ℕ) (v : Value) (o : ℕ) (old text : List ℕ) →
        get w.names.map path ≡ Some (data_entry number (value.String o)) →
        slice_get w.objects o ≡ Some (object.String old) → to_text_of w.width (content_in w.objects v) ≡ Ok text →
        length text ≤ 1048576 →
        stored (targets.Name path) v w ≡ (Ok store.Done, with_object_numbered w o (object.String text)) }
    ensures buffer { (w : State S) (path : List Seg) (number : ℕ) (v : Value) (o : ℕ) (old bytes : List ℕ) →
        get w.names.map path ≡ Some (data_entry number (value.Buffer o)) →
        slice_get w.objects o ≡ Some (object.Buffer old) → to_buffer_of w.width (content_in w.objects v) ≡ Ok bytes →
        0 < length old → length (cut_or_filled (length old) bytes) ≤ 1048576 →
        stored (targets.Name path) v w ≡ (
          Ok store.Done,
          with_object_numbered w o (object.Buffer (cut_or_filled (length old) bytes)),
        ) }
    ensures empty_buffer { (w : State S) (path : List Seg) (number : ℕ) (v : Value) (o : ℕ) (bytes : List ℕ) →
        get w.names.map path ≡ Some (data_entry number (value.Buffer o)) →
        slice_get w.objects o ≡ Some (object.Buffer []) → to_buffer_of w.width (content_in w.objects v) ≡ Ok bytes →
        length bytes ≤ 1048576 →
        stored (targets.Name path) v w ≡ (Ok store.Done, with_object_numbered w o (object.Buffer bytes)) }
    ensures package { (w : State S) (path : List Seg) (number m o : ℕ) →
        get w.names.map path ≡ Some (data_entry number (value.Package m)) →
        stored (targets.Name path) (value.Package o) w ≡ copied_to (targets.Name path) (value.Package o) w }
    ensures no_integer { (w : State S) (path : List Seg) (number : ℕ) (v : Value) (m : ℕ) (e : Refusal) →
        get w.names.map path ≡ Some (data_entry number (value.Integer m)) → integer_in v w ≡ (Err e, w) →
        stored (targets.Name path) v w ≡ (Err e, w) }
    ensures no_string { (w : State S) (path : List Seg) (number : ℕ) (v : Value) (o : ℕ) (e : Refusal) →
        get w.names.map path ≡ Some (data_entry number (value.String o)) →
        to_text_of w.width (content_in w.objects v) ≡ Err e → stored (targets.Name path) v w ≡ (Err e, w) }
    ensures no_buffer { (w : State S) (path : List Seg) (number : ℕ) (v : Value) (o : ℕ) (e : Refusal) →
        get w.names.map path ≡ Some (data_entry number (value.Buffer o)) →
        to_buffer_of w.width (content_in w.objects v) ≡ Err e → stored (targets.Name path) v w ≡ (Err e, w) }
    ensures no_package { (w : State S) (path : List Seg) (number : ℕ) (v : Value) (m : ℕ) →
        get w.names.map path ≡ Some (data_entry number (value.Package m)) → ((o : ℕ) → v ≡ value.Package o → ⊥) →
        stored (targets.Name path) v w ≡ (Err (refusal.Value WrongType), w) }
{}
