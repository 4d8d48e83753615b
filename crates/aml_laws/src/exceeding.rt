//! What exceeds a limit: nothing of it is made.
ghost use Rattle.std.specs.Prelude.{◌≡◌, ◌≤◌, ◌<◌, ◌+◌, ℕ, suc, List, [], length, slice_get, Some, Ok, Err};
ghost use Rattle.std.specs.FinMap.{get};
ghost use Rattle.ar_space.specs.Accesses.{Accesses};
ghost use Rattle.ar_space.specs.declared.refusal.Refusal.{Refusal};
ghost use Rattle.ar_space.specs.declared.refusal.Refusal.TheVariants as refusal;
ghost use Rattle.ar_space.specs.declared.refusal.EvaluationFault.TheVariants.{ObjectLimit};
ghost use Rattle.aml_path.specs.declared.segment.Seg.{Seg};
ghost use Rattle.aml_path.specs.Paths.{Name};
ghost use Rattle.aml_grammar.specs.Tree.{Tree, Trees, Part, name};
ghost use Rattle.aml_grammar.specs.declared.opcode.Opcode.TheVariants as opcodes;
ghost use Rattle.aml_objects.specs.Contents.{Content, content_in};
ghost use Rattle.aml_objects.specs.Objects.{Objects, make_string, make_buffer, make_package};
ghost use Rattle.aml_objects.specs.Copies.{copied};
ghost use Rattle.aml_objects.specs.declared.entry.Field.{Field};
ghost use Rattle.aml_objects.specs.declared.object.Element.{Element};
ghost use Rattle.aml_objects.specs.declared.object.Object.TheVariants as object;
ghost use Rattle.aml_objects.specs.declared.value.Value.{Value};
ghost use Rattle.aml_objects.specs.declared.value.Value.TheVariants as value;
ghost use Rattle.aml_convert.specs.Concatenation.{resources_joined};
ghost use Rattle.aml_convert.specs.Conversions.{to_text_of, to_buffer_of};
ghost use Rattle.aml_convert.specs.Integers.{bits_of};
ghost use Rattle.aml_convert.specs.Strings.{decimal_string_of, hexadecimal_string_of};
ghost use Rattle.aml_namespace.specs.Numbering.{Numbered};
ghost use Rattle.aml_world.specs.state.Given.{Given};
ghost use Rattle.aml_world.specs.state.State.{State};
ghost use Rattle.aml_world.specs.state.Importing.{imported};
ghost use Rattle.aml_world.specs.values.Stores.{stored};
ghost use Rattle.aml_world.specs.declared.state.profile.Profile.TheVariants as profiles;
ghost use Rattle.aml_world.specs.declared.values.store_target.StoreTarget.TheVariants as targets;
ghost use Rattle.aml_laws.specs.BeyondLimits.{AreTooMany};
ghost use Rattle.aml_laws.specs.Copyable.{IsCopyable};
ghost use Rattle.aml_laws.specs.DataTerms.{string_term, buffer_term, package_term, var_package_term};
ghost use Rattle.aml_laws.specs.DataTerms.{filled_with_zeros, filled_with_none, GivesElements};
ghost use Rattle.aml_laws.specs.FieldNames.{NamesField, bits_read_at};
ghost use Rattle.aml_laws.specs.HandedIn.{MayBeHandedIn};
ghost use Rattle.aml_laws.specs.JoinedTerms.{IsJoined};
ghost use Rattle.aml_laws.specs.MatchedValues.{Exceeds};
ghost use Rattle.aml_laws.specs.NamesUsed.{use_of};
ghost use Rattle.aml_laws.specs.ObjectTerms.{on_target};
ghost use Rattle.aml_laws.specs.OperatorTerms.{of_one, one_to, two_to, GivesValue, IsRefused, OneInteger};
ghost use Rattle.aml_laws.specs.StoredNames.{data_entry, cut_or_filled};
ghost use Rattle.aml_laws.specs.StoreTerms.{IsNoBuffer, IsNoString};
ghost use Rattle.aml_laws.specs.TestTerms.{TwoValues};

/// Where 262,144 objects stand, no string, no buffer and no package is made: each is refused as `ObjectLimit`, however
/// short it is, and nothing changes. The law excludes an object that is put behind these.
pub fn no_object_is_made_behind_the_last()
    ensures strings { (bytes : List ℕ) (objects : Objects) → 262144 ≤ length objects →
        make_string bytes objects ≡ (Err (refusal.Evaluation ObjectLimit), objects) }
    ensures buffers { (bytes : List ℕ) (objects : Objects) → 262144 ≤ length objects →
        make_buffer bytes objects ≡ (Err (refusal.Evaluation ObjectLimit), objects) }
    ensures packages { (elements : List Element) (objects : Objects) → 262144 ≤ length objects →
        make_package elements objects ≡ (Err (refusal.Evaluation ObjectLimit), objects) }
{}

/// A copy that is refused, and data that is handed in and is refused, make no object, however much of it was copied or
/// handed in before the refusal; nothing changes. The law excludes objects that are left of a package of which an
/// element was refused.
pub fn what_is_refused_leaves_no_object<S>()
    ensures copied { (objects after : Objects) (v : Value) (e : Refusal) → copied v objects ≡ (Err e, after) →
        after ≡ objects }
    ensures handed_in { (w after : State S) (g : Given) (e : Refusal) → imported g w ≡ (Err e, after) → after ≡ w }
{}

/// A value that can be copied (`what_is_within_the_limits_is_copied`), and data that can be handed in
/// (`what_is_within_the_limits_is_handed_in`), are refused as `ObjectLimit` where there isn't room for all their
/// objects, and nothing changes. The law excludes a copy that leaves out what has no room, and one that is made
/// nevertheless.
pub fn what_has_no_room_is_refused<S>()
    ensures copied { (objects : Objects) (count : ℕ) (v : Value) → IsCopyable objects 64 count v →
        length objects ≤ 262144 → 262144 < length objects + count →
        copied v objects ≡ (Err (refusal.Evaluation ObjectLimit), objects) }
    ensures handed_in { (w : State S) (count : ℕ) (g : Given) → MayBeHandedIn w.names.map 64 count g →
        length w.objects ≤ 262144 → 262144 < length w.objects + count →
        imported g w ≡ (Err (refusal.Evaluation ObjectLimit), w) }
{}

/// A string, a Buffer, a Package and a VarPackage are refused as `ObjectLimit`, once their operands and elements are
/// evaluated, where there is no room for what they form: where it has more than 1,048,576 bytes or 65,535 elements,
/// with those that fill it up, or where 262,144 objects stand. A VarPackage that counts more than 65,535 elements is
/// refused so before any of them is evaluated. No object is formed. The law excludes a Buffer that is cut to its limit,
/// and one that is refused as of the wrong type.
pub fn what_has_no_room_is_not_formed<S>()
    ensures string { (accesses : Accesses S) (scope : List Seg) (depth : ℕ) (text : List ℕ) (w : State S) (steps : ℕ) →
        Exceeds w text → IsRefused accesses scope depth (string_term text) (w, suc steps)
        (refusal.Evaluation ObjectLimit) (w, steps) }
    ensures buffer { (accesses : Accesses S) (scope : List Seg) (depth : ℕ) (x : Tree) (written : List ℕ) (w : State S)
        (steps n : ℕ) (after : State S × ℕ) → OneInteger accesses scope depth x (w, steps) n after →
        Exceeds after.0 (filled_with_zeros n written) →
        IsRefused accesses scope depth (buffer_term x written) (w, suc steps) (refusal.Evaluation ObjectLimit) after }
    ensures package { (accesses : Accesses S) (scope : List Seg) (depth n : ℕ) (ts : Trees) (w : State S) (steps : ℕ)
        (es : List Element) (after : State S × ℕ) → GivesElements accesses scope depth n ts (w, steps) es after →
        AreTooMany after.0 (filled_with_none n es) →
        IsRefused accesses scope depth (package_term n ts) (w, suc steps) (refusal.Evaluation ObjectLimit) after }
    ensures counted { (accesses : Accesses S) (scope : List Seg) (depth : ℕ) (x : Tree) (n : ℕ) (ts : Trees)
        (w : State S) (steps : ℕ) (after : State S × ℕ) → OneInteger accesses scope depth x (w, steps) n after →
        65535 < n →
        IsRefused accesses scope depth (var_package_term x ts) (w, suc steps) (refusal.Evaluation ObjectLimit) after }
    ensures sized { (accesses : Accesses S) (scope : List Seg) (depth : ℕ) (x : Tree) (n : ℕ) (ts : Trees) (w : State S)
        (steps : ℕ) (between : State S × ℕ) (es : List Element) (after : State S × ℕ) →
        OneInteger accesses scope depth x (w, steps) n between → n ≤ 65535 →
        GivesElements accesses scope depth n ts between es after → AreTooMany after.0 (filled_with_none n es) →
        IsRefused accesses scope depth (var_package_term x ts) (w, suc steps) (refusal.Evaluation ObjectLimit) after }
{}

/// Concatenate and ConcatenateResTemplate are refused as `ObjectLimit`, once both operands are evaluated, where there
/// is no room for what they join: where it has more than 1,048,576 bytes, or where 262,144 objects stand. So are
/// ToBuffer, and in the wide profile ToDecimalString and ToHexString, where there is no room for what their operand
/// converts to. Nothing is formed, and nothing is stored. The law excludes a text that is cut to its limit.
pub fn what_has_no_room_is_not_joined<S>()
    ensures values { (accesses : Accesses S) (scope : List Seg) (depth : ℕ) (x y : Tree) (w : State S) (steps : ℕ)
        (v u : Value) (after : State S × ℕ) → TwoValues accesses scope depth x y (w, steps) v u after → (c : Content)
        (bytes : List ℕ) (p : Part) →
        IsJoined after.0.width (content_in after.0.objects v) (content_in after.0.objects u) c bytes →
        Exceeds after.0 bytes → IsRefused accesses scope depth (two_to opcodes.Concat x y p) (w, suc steps)
        (refusal.Evaluation ObjectLimit) after }
    ensures resources { (accesses : Accesses S) (scope : List Seg) (depth : ℕ) (x y : Tree) (w : State S) (steps : ℕ)
        (v u : Value) (after : State S × ℕ) → TwoValues accesses scope depth x y (w, steps) v u after →
        (bytes : List ℕ) (p : Part) →
        resources_joined (content_in after.0.objects v) (content_in after.0.objects u) ≡ Ok bytes →
        Exceeds after.0 bytes → IsRefused accesses scope depth (two_to opcodes.ConcatRes x y p) (w, suc steps)
        (refusal.Evaluation ObjectLimit) after }
    ensures buffer { (accesses : Accesses S) (scope : List Seg) (depth : ℕ) (x : Tree) (p : Part) (w : State S)
        (steps : ℕ) (v : Value) (after : State S × ℕ) → GivesValue accesses scope depth x (w, steps) v after →
        (bytes : List ℕ) → IsNoBuffer v → to_buffer_of after.0.width (content_in after.0.objects v) ≡ Ok bytes →
        Exceeds after.0 bytes → IsRefused accesses scope depth (one_to opcodes.ToBuffer x p) (w, suc steps)
        (refusal.Evaluation ObjectLimit) after }
    ensures decimal { (accesses : Accesses S) (scope : List Seg) (depth : ℕ) (x : Tree) (p : Part) (w : State S)
        (steps : ℕ) → w.profile ≡ profiles.Wide → (v : Value) (after : State S × ℕ) (text : List ℕ) →
        GivesValue accesses scope depth x (w, steps) v after → IsNoString v →
        decimal_string_of (content_in after.0.objects v) ≡ Ok text → Exceeds after.0 text →
        IsRefused accesses scope depth (one_to opcodes.ToDecimalString x p) (w, suc steps)
        (refusal.Evaluation ObjectLimit) after }
    ensures hexadecimal { (accesses : Accesses S) (scope : List Seg) (depth : ℕ) (x : Tree) (p : Part) (w : State S)
        (steps : ℕ) → w.profile ≡ profiles.Wide → (v : Value) (after : State S × ℕ) (text : List ℕ) →
        GivesValue accesses scope depth x (w, steps) v after → IsNoString v →
        hexadecimal_string_of after.0.width (content_in after.0.objects v) ≡ Ok text → Exceeds after.0 text →
        IsRefused accesses scope depth (one_to opcodes.ToHexString x p) (w, suc steps)
        (refusal.Evaluation ObjectLimit) after }
{}

/// A Store to a name is refused as `ObjectLimit`, and nothing changes, where it would write more than 1,048,576 bytes:
/// to a name that holds a string, the text that the value converts to; to a name that holds an empty buffer, the bytes
/// that it converts to; and to a name that holds any other buffer, these bytes cut or filled to the length of this
/// buffer. In worlds that evaluations make no buffer is so long (`integers_stay_below_two_to_the_width`), so there a
/// Store of the last kind is never refused so. The law excludes a text that is cut, or stored nevertheless.
pub fn what_is_too_long_is_not_stored<S>()
    ensures string { (w : State S) (path : List Seg) (number : ℕ) (v : Value) (o : ℕ) (old text : List ℕ) →
        get w.names.map path ≡ Some (data_entry number (value.String o)) →
        slice_get w.objects o ≡ Some (object.String old) → to_text_of w.width (content_in w.objects v) ≡ Ok text →
        1048576 < length text → stored (targets.Name path) v w ≡ (Err (refusal.Evaluation ObjectLimit), w) }
    ensures buffer { (w : State S) (path : List Seg) (number : ℕ) (v : Value) (o : ℕ) (old bytes : List ℕ) →
        get w.names.map path ≡ Some (data_entry number (value.Buffer o)) →
        slice_get w.objects o ≡ Some (object.Buffer old) → to_buffer_of w.width (content_in w.objects v) ≡ Ok bytes →
        0 < length old → 1048576 < length (cut_or_filled (length old) bytes) →
        stored (targets.Name path) v w ≡ (Err (refusal.Evaluation ObjectLimit), w) }
    ensures empty_buffer { (w : State S) (path : List Seg) (number : ℕ) (v : Value) (o : ℕ) (bytes : List ℕ) →
        get w.names.map path ≡ Some (data_entry number (value.Buffer o)) →
        slice_get w.objects o ≡ Some (object.Buffer []) → to_buffer_of w.width (content_in w.objects v) ≡ Ok bytes →
        1048576 < length bytes → stored (targets.Name path) v w ≡ (Err (refusal.Evaluation ObjectLimit), w) }
{}

/// A field of more bits than an integer has becomes a new buffer where its name stands as a value, and in a DerefOf of
/// a reference to the name. Where there is no room for this buffer, the term is refused as `ObjectLimit`, once the
/// field is read. In worlds that evaluations make a field has at most 8,388,608 bits
/// (`integers_stay_below_two_to_the_width`), which are as many bytes as a buffer may have; so there is no room where no
/// object is left, and only there. The law excludes bytes that are cut to the limit.
pub fn a_field_without_room_is_refused<S>()
    ensures named { (accesses : Accesses S) (scope : List Seg) (depth : ℕ) (w : State S) (steps : ℕ) (n : Name)
        (f : Field) (bits : ℕ) (bytes : List ℕ) (after : State S × ℕ) → NamesField w scope n f bits →
        bits_read_at accesses depth f (w, steps) ≡ (Ok bytes, after) → bits_of after.0.width < bits →
        Exceeds after.0 bytes →
        IsRefused accesses scope depth (use_of n) (w, suc steps) (refusal.Evaluation ObjectLimit) after }
    ensures referred { (accesses : Accesses S) (scope : List Seg) (depth : ℕ) (w : State S) (steps : ℕ) (n : Name)
        (f : Field) (bits : ℕ) → NamesField w scope n f bits → Numbered w.names → (bytes : List ℕ)
        (after : State S × ℕ) → bits_read_at accesses depth f (w, steps) ≡ (Ok bytes, after) →
        bits_of after.0.width < bits → Exceeds after.0 bytes →
        IsRefused accesses scope depth (of_one opcodes.DerefOf (on_target opcodes.RefOf (name n)))
        (w, suc (suc steps)) (refusal.Evaluation ObjectLimit) after }
{}
