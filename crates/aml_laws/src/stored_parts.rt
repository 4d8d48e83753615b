//! Stores and copies to no target, to slots, to parts of objects, and to names that take copies.
ghost use Rattle.std.specs.Prelude.{◌≡◌, ◌≢◌, ◌<◌, ◌≤◌, ◌+◌, ℕ, suc, List, [], length, slice_get, Some, Ok, Err};
ghost use Rattle.std.specs.FinMap.{get};
ghost use Rattle.ar_space.specs.declared.refusal.Refusal.{Refusal};
ghost use Rattle.ar_space.specs.declared.refusal.Refusal.TheVariants as refusal;
ghost use Rattle.ar_space.specs.declared.refusal.ValueFault.TheVariants.{WrongType, EmptyValue};
ghost use Rattle.aml_path.specs.declared.segment.Seg.{Seg};
ghost use Rattle.aml_objects.specs.Copies.{copied};
ghost use Rattle.aml_objects.specs.declared.entry.Entry.{Entry};
ghost use Rattle.aml_objects.specs.declared.object.Element.{Element};
ghost use Rattle.aml_objects.specs.declared.object.Object.{Object};
ghost use Rattle.aml_objects.specs.declared.object.Object.TheVariants as object;
ghost use Rattle.aml_objects.specs.declared.value.Reference.{Reference};
ghost use Rattle.aml_objects.specs.declared.value.Reference.TheVariants as reference;
ghost use Rattle.aml_objects.specs.declared.value.Slot.{Slot};
ghost use Rattle.aml_objects.specs.declared.value.Slot.TheVariants.{Argument};
ghost use Rattle.aml_objects.specs.declared.value.Value.{Value};
ghost use Rattle.aml_objects.specs.declared.value.Value.TheVariants as value;
ghost use Rattle.aml_world.specs.declared.state.frame.Frame.{Frame};
ghost use Rattle.aml_world.specs.state.State.{State};
ghost use Rattle.aml_world.specs.state.Slots.{frame_index};
ghost use Rattle.aml_world.specs.values.Stores.{stored, copied_to};
ghost use Rattle.aml_world.specs.declared.values.store_target.StoreTarget.TheVariants as targets;
ghost use Rattle.aml_world.specs.declared.values.store_target.Stored.TheVariants as store;
ghost use Rattle.aml_laws.specs.Copyable.{IsCopyable};
ghost use Rattle.aml_laws.specs.Limits.{IsLink};
ghost use Rattle.aml_laws.specs.StoredNames.{data_entry, with_object_numbered};
ghost use Rattle.aml_laws.specs.StoredParts.{ArgumentHolds, TakesCopies, SlotTakesCopy, ElementTakesCopy, NameTakesCopy};
ghost use Rattle.aml_laws.specs.StoredParts.{TakesUnconverted, GivesByte, ByteTaken, IsNoData, HoldsNothing};

/// A Store and a CopyObject to no target, and to Debug, are done and change nothing, whatever the value is: none is
/// refused, and no copy is made (ACPI 6.5, 19.6: Debug, and 20.2.2: Target). So an operator without a target gives what
/// it formed, and makes no further object. The law excludes a store to Debug that refuses strings, and one that makes
/// an object.
pub fn a_store_to_no_target_changes_nothing<S>()
    ensures stored { (w : State S) (v : Value) → stored targets.Nowhere v w ≡ (Ok store.Done, w) }
    ensures copied { (w : State S) (v : Value) → copied_to targets.Nowhere v w ≡ (Ok store.Done, w) }
{}

/// A Store and a CopyObject of a value that can be copied (`what_is_within_the_limits_is_copied`) to a local of the
/// control method that runs, or to an argument of it that holds no reference, put a copy of the value there. As many
/// objects are made as the value has, and the copy shares none with anything that was there before. The same holds
/// through a reference to such a slot of any control method that hasn't ended, a caller too. Its frame is found by its
/// number (`a_frame_that_stands_is_found_by_its_number`), and the slot of that frame takes the copy. Nothing else of
/// the world changes (`a_store_changes_its_slot_alone`). Where the value can't be copied, the term is refused as its
/// copy is, and nothing changes. The law excludes a Store to a local that is refused, one to an argument that does
/// nothing, and one through a reference to a local of the caller that changes a local of the control method that runs.
pub fn slots_take_copies<S>()
    ensures latest { (before : State S) (last : ℕ) (f : Frame) (slot : Slot) (v : Value) (count : ℕ) →
        length before.frames ≡ suc last → slice_get before.frames last ≡ Some f → TakesCopies f slot →
        IsCopyable before.objects 64 count v → length before.objects + count ≤ 262144 → (after : State S) ×
        ((stored (targets.Slot slot) v before ≡ (Ok store.Done, after)) ×
        ((copied_to (targets.Slot slot) v before ≡ (Ok store.Done, after)) ×
        SlotTakesCopy before after last slot v count)) }
    ensures referred { (before : State S) (n k : ℕ) (f : Frame) (slot : Slot) (v : Value) (count : ℕ) →
        frame_index n before.frames ≡ Some k → slice_get before.frames k ≡ Some f → TakesCopies f slot →
        IsCopyable before.objects 64 count v → length before.objects + count ≤ 262144 → (after : State S) ×
        ((stored (targets.Refers (reference.Slot slot n)) v before ≡ (Ok store.Done, after)) ×
        ((copied_to (targets.Refers (reference.Slot slot n)) v before ≡ (Ok store.Done, after)) ×
        SlotTakesCopy before after k slot v count)) }
    ensures latest_refused { (w : State S) (last : ℕ) (f : Frame) (slot : Slot) (v : Value) (e : Refusal) →
        length w.frames ≡ suc last → slice_get w.frames last ≡ Some f → TakesCopies f slot →
        (copied v w.objects).0 ≡ Err e → (stored (targets.Slot slot) v w ≡ (Err e, w)) ×
        (copied_to (targets.Slot slot) v w ≡ (Err e, w)) }
    ensures referred_refused { (w : State S) (n k : ℕ) (f : Frame) (slot : Slot) (v : Value) (e : Refusal) →
        frame_index n w.frames ≡ Some k → slice_get w.frames k ≡ Some f → TakesCopies f slot →
        (copied v w.objects).0 ≡ Err e → (stored (targets.Refers (reference.Slot slot n)) v w ≡ (Err e, w)) ×
        (copied_to (targets.Refers (reference.Slot slot n)) v w ≡ (Err e, w)) }
{}

/// A Store of a value that can be copied to an element of a package puts a copy of the value there. As many objects are
/// made as the value has, the copy shares none with anything that was there before, and nothing else of the world
/// changes. Where the value can't be copied, the Store is refused as its copy is, and nothing changes. The law excludes
/// a Store that does nothing, and one that shares a string, a buffer or a package.
pub fn elements_take_copies<S>()
    ensures part { (before : State S) (o i : ℕ) (es : List Element) →
        slice_get before.objects o ≡ Some (object.Package es) → i < length es → (v : Value) (count : ℕ) →
        IsCopyable before.objects 64 count v → length before.objects + count ≤ 262144 → (after : State S) ×
        ((stored (targets.Refers (reference.Element o i)) v before ≡ (Ok store.Done, after)) ×
        ElementTakesCopy before after o i es v count) }
    ensures refused { (w : State S) (o i : ℕ) (es : List Element) → slice_get w.objects o ≡ Some (object.Package es) →
        i < length es → (v : Value) (e : Refusal) → (copied v w.objects).0 ≡ Err e →
        stored (targets.Refers (reference.Element o i)) v w ≡ (Err e, w) }
{}

/// A CopyObject of a value that can be copied to a name that holds a value puts a copy there, under the number of the
/// name's declaration. So does a Store of a package to a name that holds one, and each Store of such a value to a name
/// that holds a reference or no value. As many objects are made as the value has, the copy shares none with anything
/// that was there before, and nothing else of the world changes. Where the value can't be copied, the term is refused
/// as its copy is, and nothing changes. That a CopyObject and a Store through a reference to the name go to the name,
/// `a_reference_to_a_name_finds_its_declaration` and `a_reference_refers_to_its_target` say. The law excludes a
/// CopyObject to a name that is refused, and one that makes an object too many.
pub fn names_take_copies<S>()
    ensures copied { (before : State S) (path : List Seg) (number : ℕ) (old v : Value) (count : ℕ) →
        get before.names.map path ≡ Some (data_entry number old) → IsCopyable before.objects 64 count v →
        length before.objects + count ≤ 262144 → (after : State S) ×
        ((copied_to (targets.Name path) v before ≡ (Ok store.Done, after)) ×
        NameTakesCopy before after path number v count) }
    ensures stored { (before : State S) (path : List Seg) (number : ℕ) (old v : Value) (count : ℕ) →
        get before.names.map path ≡ Some (data_entry number old) → TakesUnconverted old v →
        IsCopyable before.objects 64 count v → length before.objects + count ≤ 262144 → (after : State S) ×
        ((stored (targets.Name path) v before ≡ (Ok store.Done, after)) ×
        NameTakesCopy before after path number v count) }
    ensures refused { (w : State S) (path : List Seg) (number : ℕ) (old v : Value) (e : Refusal) →
        get w.names.map path ≡ Some (data_entry number old) → (copied v w.objects).0 ≡ Err e →
        (copied_to (targets.Name path) v w ≡ (Err e, w)) ×
        (TakesUnconverted old v → stored (targets.Name path) v w ≡ (Err e, w)) }
{}

/// CopyObject to a local or an argument, and through a reference to an element of a package or to a byte of a string or
/// of a buffer, does what a Store does there, whatever comes of it: `slots_take_copies`, `elements_take_copies` and
/// `a_byte_takes_the_first_byte_of_a_value` say it of both. So an argument that holds a reference to an element or a
/// byte takes what is stored to it there (`an_argument_stands_for_what_it_refers_to`). The law excludes a CopyObject to
/// an element or a byte that is refused as `DeadReference`.
pub fn copies_to_slots_and_parts_are_stores<S>()
    ensures slot { (w : State S) (slot : Slot) (v : Value) →
        copied_to (targets.Slot slot) v w ≡ stored (targets.Slot slot) v w }
    ensures element { (w : State S) (o i : ℕ) (v : Value) →
        copied_to (targets.Refers (reference.Element o i)) v w ≡ stored (targets.Refers (reference.Element o i)) v w }
    ensures byte { (w : State S) (o i : ℕ) (v : Value) →
        copied_to (targets.Refers (reference.Byte o i)) v w ≡ stored (targets.Refers (reference.Byte o i)) v w }
{}

/// A Store to an argument of the control method that runs, where the argument holds a reference, goes where CopyObject
/// through this reference goes: to what it refers to, and to a name without conversion (ACPI 6.5, 19.3.5.8.1). So does
/// CopyObject to the argument, and a Store through a reference to an argument that holds a reference, of any control
/// method that hasn't ended yet. Where CopyObject through a reference goes,
/// `a_reference_to_a_name_finds_its_declaration` says of names, `slots_take_copies` of locals and of arguments that
/// hold no reference, `copies_to_slots_and_parts_are_stores` of elements and bytes, and
/// `at_most_64_references_are_followed` of arguments that hold references. The law excludes an argument that is
/// overwritten, and a Store that converts.
pub fn an_argument_stands_for_what_it_refers_to<S>()
    ensures stored { (w : State S) (i last : ℕ) (r : Reference) (v : Value) →
        ArgumentHolds w i last (value.Reference r) →
        stored (targets.Slot (Argument i)) v w ≡ copied_to (targets.Refers r) v w }
    ensures copied { (w : State S) (i last : ℕ) (r : Reference) (v : Value) →
        ArgumentHolds w i last (value.Reference r) →
        copied_to (targets.Slot (Argument i)) v w ≡ copied_to (targets.Refers r) v w }
    ensures referred { (w : State S) (q r : Reference) (v : Value) → IsLink w q r →
        stored (targets.Refers q) v w ≡ copied_to (targets.Refers r) v w }
{}

/// A Store to a byte of a string or of a buffer takes an integer modulo 256, and of a string or a buffer the first
/// byte; nothing else of the world changes. An empty string or buffer is refused, and so is a value of any other type.
/// The law excludes a byte that is written elsewhere.
pub fn a_byte_takes_the_first_byte_of_a_value<S>()
    ensures stored { (w : State S) (o i : ℕ) (v : Value) (b : ℕ) (old new : Object) →
        slice_get w.objects o ≡ Some old → GivesByte w v b → ByteTaken i b old new →
        stored (targets.Refers (reference.Byte o i)) v w ≡ (Ok store.Done, with_object_numbered w o new) }
    ensures empty { (w : State S) (o i p : ℕ) (old new : Object) → slice_get w.objects o ≡ Some old →
        ByteTaken i 0 old new → (slice_get w.objects p ≡ Some (object.String []) →
        stored (targets.Refers (reference.Byte o i)) (value.String p) w ≡ (Err (refusal.Value EmptyValue), w)) ×
        (slice_get w.objects p ≡ Some (object.Buffer []) →
        stored (targets.Refers (reference.Byte o i)) (value.Buffer p) w ≡ (Err (refusal.Value EmptyValue), w)) }
    ensures no_byte { (w : State S) (o i : ℕ) (v : Value) (old new : Object) → slice_get w.objects o ≡ Some old →
        ByteTaken i 0 old new → IsNoData v →
        stored (targets.Refers (reference.Byte o i)) v w ≡ (Err (refusal.Value WrongType), w) }
{}

/// A Store to a name that holds a reference takes a copy of the value without conversion, as CopyObject does. One to a
/// name that holds neither a value nor a field is refused, and so is a CopyObject.
pub fn what_holds_no_data_takes_no_conversion<S>()
    ensures over_reference { (w : State S) (path : List Seg) (number : ℕ) (r : Reference) (v : Value) →
        get w.names.map path ≡ Some (data_entry number (value.Reference r)) →
        stored (targets.Name path) v w ≡ copied_to (targets.Name path) v w }
    ensures over_nothing { (w : State S) (path : List Seg) (e : Entry) (v : Value) → get w.names.map path ≡ Some e →
        HoldsNothing e.object → (stored (targets.Name path) v w ≡ (Err (refusal.Value WrongType), w)) ×
        (copied_to (targets.Name path) v w ≡ (Err (refusal.Value WrongType), w)) }
{}
