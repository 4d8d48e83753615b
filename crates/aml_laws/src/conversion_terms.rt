//! Terms of conversions, and the targets of what they form.
ghost use Rattle.std.specs.Prelude.{◌≡◌, ◌≢◌, ◌<◌, ℕ, suc, List, length, Some, Ok, Err};
ghost use Rattle.std.specs.FinMap.{get};
ghost use Rattle.ar_space.specs.Accesses.{Accesses};
ghost use Rattle.ar_space.specs.declared.refusal.Refusal.{Refusal};
ghost use Rattle.ar_space.specs.declared.refusal.Refusal.TheVariants as refusal;
ghost use Rattle.ar_space.specs.declared.refusal.ValueFault.TheVariants.{WrongType};
ghost use Rattle.aml_path.specs.declared.segment.Seg.{Seg};
ghost use Rattle.aml_path.specs.Paths.{Name};
ghost use Rattle.aml_grammar.specs.Tree.{Tree, Part, name};
ghost use Rattle.aml_grammar.specs.declared.opcode.Opcode.TheVariants as opcodes;
ghost use Rattle.aml_objects.specs.Contents.{Integer, String, content_in};
ghost use Rattle.aml_objects.specs.declared.entry.Entry.{Entry};
ghost use Rattle.aml_objects.specs.declared.entry.Field.{Field};
ghost use Rattle.aml_objects.specs.declared.object.Object.TheVariants as object;
ghost use Rattle.aml_objects.specs.declared.value.Reference.{Reference};
ghost use Rattle.aml_objects.specs.declared.value.Reference.TheVariants as reference;
ghost use Rattle.aml_objects.specs.declared.value.Slot.{Slot};
ghost use Rattle.aml_objects.specs.declared.value.Value.{Value};
ghost use Rattle.aml_objects.specs.declared.value.Value.TheVariants as value;
ghost use Rattle.aml_convert.specs.Conversions.{explicit_integer_of, to_buffer_of};
ghost use Rattle.aml_convert.specs.Strings.{decimal_string_of, hexadecimal_string_of};
ghost use Rattle.aml_convert.specs.Decimals.{coded_decimal, decoded_decimal};
ghost use Rattle.aml_world.specs.declared.state.profile.Profile.TheVariants as profiles;
ghost use Rattle.aml_world.specs.declared.values.store_target.StoreTarget.TheVariants as targets;
ghost use Rattle.aml_world.specs.declared.values.store_target.Stored.TheVariants as store;
ghost use Rattle.aml_world.specs.state.State.{State};
ghost use Rattle.aml_world.specs.values.Stores.{stored, copied_to};
ghost use Rattle.aml_world.specs.values.StoreTargets.{reference_of};
ghost use Rattle.aml_namespace.specs.Numbering.{Numbered};
ghost use Rattle.aml_world.specs.values.FormedStores.{formed_to};
ghost use Rattle.aml_laws.specs.OperatorTerms.{one_to, two_to, StoresTo, GivesValue, Gives, IsRefused, OneInteger};
ghost use Rattle.aml_laws.specs.JoinedTerms.{middle, with_object, Fits};
ghost use Rattle.aml_laws.specs.ReferringTerms.{IsNumbered};
ghost use Rattle.aml_laws.specs.FieldNames.{IsField, NamesField, bits_written_at};
ghost use Rattle.aml_laws.specs.StoredNames.{data_entry};
ghost use Rattle.aml_laws.specs.StoredParts.{HoldsNothing, IsNoData};
ghost use Rattle.aml_laws.specs.StoreTerms.{FormsTo, IsNoBuffer, IsNoString};
ghost use Rattle.aml_laws.specs.TestTerms.{TwoValues};

/// ToInteger gives the integer that its operand is (`explicit_integers_are_read_by_their_prefix`), and ToBuffer a new
/// buffer of the bytes that it converts to, or the very buffer that it is; both store this to their target. An operand
/// that doesn't convert is refused, and nothing is stored (ACPI 6.5, 19.6: ToBuffer, ToInteger). Two terms that are
/// exchanged are refused by this.
pub fn conversions_to_integers_and_buffers_are_stored<S>()
    ensures integer { (accesses : Accesses S) (scope : List Seg) (depth : ℕ) (x : Tree) (p : Part) (w : State S)
        (steps : ℕ) (v : Value) (after : State S × ℕ) → GivesValue accesses scope depth x (w, steps) v after →
        (n : ℕ) (end : State S) → explicit_integer_of after.0.width (content_in after.0.objects v) ≡ Ok n →
        StoresTo scope p (value.Integer n) after.0 end →
        Gives accesses scope depth (one_to opcodes.ToInteger x p) (w, suc steps) n (end, after.1) }
    ensures new_buffer { (accesses : Accesses S) (scope : List Seg) (depth : ℕ) (x : Tree) (p : Part) (w : State S)
        (steps : ℕ) (v : Value) (after : State S × ℕ) → GivesValue accesses scope depth x (w, steps) v after →
        (bytes : List ℕ) (end : State S) → IsNoBuffer v →
        to_buffer_of after.0.width (content_in after.0.objects v) ≡ Ok bytes → Fits after.0 bytes →
        StoresTo scope p (value.Buffer (length after.0.objects)) (with_object after.0 (object.Buffer bytes)) end →
        GivesValue accesses scope depth (one_to opcodes.ToBuffer x p) (w, suc steps)
        (value.Buffer (length after.0.objects)) (end, after.1) }
    ensures same_buffer { (accesses : Accesses S) (scope : List Seg) (depth : ℕ) (x : Tree) (p : Part) (w : State S)
        (steps o : ℕ) (after : State S × ℕ) (end : State S) →
        GivesValue accesses scope depth x (w, steps) (value.Buffer o) after →
        StoresTo scope p (value.Buffer o) after.0 end →
        GivesValue accesses scope depth (one_to opcodes.ToBuffer x p) (w, suc steps) (value.Buffer o)
        (end, after.1) }
    ensures refused { (accesses : Accesses S) (scope : List Seg) (depth : ℕ) (x : Tree) (p : Part) (w : State S)
        (steps : ℕ) (v : Value) (after : State S × ℕ) → GivesValue accesses scope depth x (w, steps) v after →
        (e : Refusal) → (explicit_integer_of after.0.width (content_in after.0.objects v) ≡ Err e →
        IsRefused accesses scope depth (one_to opcodes.ToInteger x p) (w, suc steps) e after) × (IsNoBuffer v →
        to_buffer_of after.0.width (content_in after.0.objects v) ≡ Err e →
        IsRefused accesses scope depth (one_to opcodes.ToBuffer x p) (w, suc steps) e after) }
{}

/// In the wide profile ToDecimalString and ToHexString give a new string of the text that their operand converts to,
/// or the very string that it is, and FromBCD and ToBCD the integer; each stores this to its target, without another
/// conversion (ACPI 6.5, 19.6: FromBCD, ToBCD, ToDecimalString, ToHexString). Two of them that are exchanged, and a
/// string that is formed anew, are refused by this.
pub fn conversions_of_the_wide_profile_are_stored<S>()
    ensures decimal { (accesses : Accesses S) (scope : List Seg) (depth : ℕ) (x : Tree) (p : Part) (w : State S)
        (steps : ℕ) → w.profile ≡ profiles.Wide → (v : Value) (after : State S × ℕ) (text : List ℕ) (end : State S) →
        GivesValue accesses scope depth x (w, steps) v after → IsNoString v →
        decimal_string_of (content_in after.0.objects v) ≡ Ok text → Fits after.0 text →
        FormsTo scope p (value.String (length after.0.objects)) (with_object after.0 (object.String text)) end →
        GivesValue accesses scope depth (one_to opcodes.ToDecimalString x p) (w, suc steps)
        (value.String (length after.0.objects)) (end, after.1) }
    ensures hexadecimal { (accesses : Accesses S) (scope : List Seg) (depth : ℕ) (x : Tree) (p : Part) (w : State S)
        (steps : ℕ) → w.profile ≡ profiles.Wide → (v : Value) (after : State S × ℕ) (text : List ℕ) (end : State S) →
        GivesValue accesses scope depth x (w, steps) v after → IsNoString v →
        hexadecimal_string_of after.0.width (content_in after.0.objects v) ≡ Ok text → Fits after.0 text →
        FormsTo scope p (value.String (length after.0.objects)) (with_object after.0 (object.String text)) end →
        GivesValue accesses scope depth (one_to opcodes.ToHexString x p) (w, suc steps)
        (value.String (length after.0.objects)) (end, after.1) }
    ensures same_string { (accesses : Accesses S) (scope : List Seg) (depth : ℕ) (x : Tree) (p : Part) (w : State S)
        (steps : ℕ) → w.profile ≡ profiles.Wide → (o : ℕ) (after : State S × ℕ) (end : State S) →
        GivesValue accesses scope depth x (w, steps) (value.String o) after →
        FormsTo scope p (value.String o) after.0 end →
        GivesValue accesses scope depth (one_to opcodes.ToDecimalString x p) (w, suc steps) (value.String o)
        (end, after.1) × GivesValue accesses scope depth (one_to opcodes.ToHexString x p) (w, suc steps)
        (value.String o) (end, after.1) }
    ensures decoded { (accesses : Accesses S) (scope : List Seg) (depth : ℕ) (x : Tree) (p : Part) (w : State S)
        (steps : ℕ) → w.profile ≡ profiles.Wide → (code n : ℕ) (after : State S × ℕ) (end : State S) →
        OneInteger accesses scope depth x (w, steps) code after → decoded_decimal code ≡ Ok n →
        FormsTo scope p (value.Integer n) after.0 end →
        Gives accesses scope depth (one_to opcodes.FromBcd x p) (w, suc steps) n (end, after.1) }
    ensures coded { (accesses : Accesses S) (scope : List Seg) (depth : ℕ) (x : Tree) (p : Part) (w : State S)
        (steps : ℕ) → w.profile ≡ profiles.Wide → (n code : ℕ) (after : State S × ℕ) (end : State S) →
        OneInteger accesses scope depth x (w, steps) n after → coded_decimal after.0.width n ≡ Ok code →
        FormsTo scope p (value.Integer code) after.0 end →
        Gives accesses scope depth (one_to opcodes.ToBcd x p) (w, suc steps) code (end, after.1) }
{}

/// In the wide profile ToDecimalString, ToHexString, ToString and Mid of what is neither an integer nor a string nor a
/// buffer are refused as `WrongType` once all their operands are evaluated, whatever the others are; FromBCD is refused
/// where a number is no binary coded decimal, and ToBCD where it has too many digits
/// (`what_is_no_coded_decimal_is_refused`). Nothing is formed, and nothing is stored. A package whose part is an empty
/// buffer, or whose string is empty, and a length that is looked at before what it is a length of, are refused by this.
pub fn conversions_of_the_wide_profile_refuse_what_has_no_bytes<S>()
    ensures strings { (accesses : Accesses S) (scope : List Seg) (depth : ℕ) (x : Tree) (p : Part) (w : State S)
        (steps : ℕ) → w.profile ≡ profiles.Wide → (v : Value) (after : State S × ℕ) →
        GivesValue accesses scope depth x (w, steps) v after → IsNoData v →
        IsRefused accesses scope depth (one_to opcodes.ToDecimalString x p) (w, suc steps) (refusal.Value WrongType)
        after × IsRefused accesses scope depth (one_to opcodes.ToHexString x p) (w, suc steps)
        (refusal.Value WrongType) after }
    ensures text { (accesses : Accesses S) (scope : List Seg) (depth : ℕ) (x y : Tree) (w : State S) (steps : ℕ)
        (v u : Value) (after : State S × ℕ) → TwoValues accesses scope depth x y (w, steps) v u after →
        w.profile ≡ profiles.Wide → IsNoData v → (p : Part) →
        IsRefused accesses scope depth (two_to opcodes.ToString x y p) (w, suc steps) (refusal.Value WrongType) after }
    ensures part { (accesses : Accesses S) (scope : List Seg) (depth : ℕ) (x y z : Tree) (w : State S) (steps : ℕ)
        (v u r : Value) (behind after : State S × ℕ) → TwoValues accesses scope depth x y (w, steps) v u behind →
        GivesValue accesses scope depth z behind r after → w.profile ≡ profiles.Wide → IsNoData v → (p : Part) →
        IsRefused accesses scope depth (middle x y z p) (w, suc steps) (refusal.Value WrongType) after }
    ensures decoded { (accesses : Accesses S) (scope : List Seg) (depth : ℕ) (x : Tree) (p : Part) (w : State S)
        (steps : ℕ) → w.profile ≡ profiles.Wide → (code : ℕ) (after : State S × ℕ) →
        OneInteger accesses scope depth x (w, steps) code after → (e : Refusal) → decoded_decimal code ≡ Err e →
        IsRefused accesses scope depth (one_to opcodes.FromBcd x p) (w, suc steps) e after }
    ensures coded { (accesses : Accesses S) (scope : List Seg) (depth : ℕ) (x : Tree) (p : Part) (w : State S)
        (steps : ℕ) → w.profile ≡ profiles.Wide → (n : ℕ) (after : State S × ℕ) →
        OneInteger accesses scope depth x (w, steps) n after → (e : Refusal) →
        coded_decimal after.0.width n ≡ Err e →
        IsRefused accesses scope depth (one_to opcodes.ToBcd x p) (w, suc steps) e after }
{}

/// What a conversion of the wide profile formed isn't converted again: a name that holds an integer, a string or a
/// buffer takes a value of another of these types as a CopyObject does, and one of its own type as a Store does. A
/// name that holds a package, a reference or a field, a local, an argument, and a part of an object take it as a
/// Store does, and Debug as nothing. A name that holds nothing refuses it. Through a reference to a name it is taken
/// as by the name itself, where the numbers of declarations are apart. A target that converts once more, by its name
/// or through a reference, is refused by this.
pub fn what_a_conversion_formed_is_not_converted_again<S>()
    ensures other_type { (w : State S) (path : List Seg) (number : ℕ) (old v : Value) (k j : ℕ) →
        get w.names.map path ≡ Some (data_entry number old) → IsNumbered old k → IsNumbered v j → k ≢ j → k < 4 →
        formed_to (targets.Name path) v w ≡ copied_to (targets.Name path) v w }
    ensures one_type { (w : State S) (path : List Seg) (number : ℕ) (old v : Value) (k : ℕ) →
        get w.names.map path ≡ Some (data_entry number old) → IsNumbered old k → IsNumbered v k →
        formed_to (targets.Name path) v w ≡ stored (targets.Name path) v w }
    ensures over_package { (w : State S) (path : List Seg) (number m : ℕ) (v : Value) →
        get w.names.map path ≡ Some (data_entry number (value.Package m)) →
        formed_to (targets.Name path) v w ≡ stored (targets.Name path) v w }
    ensures slots { (w : State S) (s : Slot) (v : Value) →
        (formed_to (targets.Slot s) v w ≡ stored (targets.Slot s) v w) ×
        (formed_to targets.Nowhere v w ≡ (Ok store.Done, w)) }
    ensures over_reference { (w : State S) (path : List Seg) (number : ℕ) (r : Reference) (v : Value) →
        get w.names.map path ≡ Some (data_entry number (value.Reference r)) →
        formed_to (targets.Name path) v w ≡ stored (targets.Name path) v w }
    ensures over_field { (w : State S) (path : List Seg) (e : Entry) (f : Field) (bits : ℕ) (v : Value) →
        get w.names.map path ≡ Some e → IsField e.object f bits →
        formed_to (targets.Name path) v w ≡ stored (targets.Name path) v w }
    ensures over_nothing { (w : State S) (path : List Seg) (e : Entry) (v : Value) → get w.names.map path ≡ Some e →
        HoldsNothing e.object → formed_to (targets.Name path) v w ≡ (Err (refusal.Value WrongType), w) }
    ensures parts { (w : State S) (o i : ℕ) (v : Value) → (formed_to (targets.Refers (reference.Element o i)) v w ≡
        stored (targets.Refers (reference.Element o i)) v w) ×
        (formed_to (targets.Refers (reference.Byte o i)) v w ≡ stored (targets.Refers (reference.Byte o i)) v w) }
    ensures referred_slot { (w : State S) (s : Slot) (frame : ℕ) (v : Value) →
        formed_to (targets.Refers (reference.Slot s frame)) v w ≡
        stored (targets.Refers (reference.Slot s frame)) v w }
    ensures referred_name { (w : State S) (path : List Seg) (r : Reference) (v : Value) → Numbered w.names →
        (reference_of (targets.Name path) w).0 ≡ Ok r →
        formed_to (targets.Refers r) v w ≡ formed_to (targets.Name path) v w }
{}

/// ToHexString and FromBCD, in the wide profile, write to a target that is a name of a field what they formed as the
/// field's bits, once this is converted to bytes. A conversion that writes no register is refused by this.
pub fn a_conversion_to_a_name_of_a_field_writes_its_bits<S>()
    ensures hexadecimal { (accesses : Accesses S) (scope : List Seg) (depth : ℕ) (x : Tree) (n : Name) (w : State S)
        (steps : ℕ) → w.profile ≡ profiles.Wide → (v : Value) (after : State S × ℕ) (text : List ℕ) →
        GivesValue accesses scope depth x (w, steps) v after → IsNoString v →
        hexadecimal_string_of after.0.width (content_in after.0.objects v) ≡ Ok text → Fits after.0 text →
        (f : Field) (bits : ℕ) → NamesField (with_object after.0 (object.String text)) scope n f bits →
        (bytes : List ℕ) (end : State S × ℕ) → to_buffer_of after.0.width (String text) ≡ Ok bytes →
        bits_written_at accesses depth f bytes (with_object after.0 (object.String text), after.1) ≡ (Ok tt, end) →
        GivesValue accesses scope depth (one_to opcodes.ToHexString x (name n)) (w, suc steps)
        (value.String (length after.0.objects)) end }
    ensures decoded { (accesses : Accesses S) (scope : List Seg) (depth : ℕ) (x : Tree) (n : Name) (w : State S)
        (steps : ℕ) → w.profile ≡ profiles.Wide → (code m : ℕ) (after : State S × ℕ) →
        OneInteger accesses scope depth x (w, steps) code after → decoded_decimal code ≡ Ok m → (f : Field)
        (bits : ℕ) → NamesField after.0 scope n f bits → (bytes : List ℕ) (end : State S × ℕ) →
        to_buffer_of after.0.width (Integer m) ≡ Ok bytes → bits_written_at accesses depth f bytes after ≡ (Ok tt, end) →
        Gives accesses scope depth (one_to opcodes.FromBcd x (name n)) (w, suc steps) m end }
{}
