//! Strings and buffers that terms form of others.
ghost use Rattle.std.specs.Prelude.{◌≡◌, ℕ, suc, List, length, Ok};
ghost use Rattle.ar_space.specs.declared.refusal.Refusal.{Refusal};
ghost use Rattle.ar_space.specs.declared.refusal.Refusal.TheVariants as refusal;
ghost use Rattle.ar_space.specs.declared.refusal.EvaluationFault.TheVariants.{ObjectLimit};
ghost use Rattle.ar_space.specs.declared.refusal.ValueFault.TheVariants.{WrongType};
ghost use Rattle.ar_space.specs.Accesses.{Accesses};
ghost use Rattle.aml_path.specs.declared.segment.Seg.{Seg};
ghost use Rattle.aml_grammar.specs.Tree.{Tree, Part};
ghost use Rattle.aml_grammar.specs.declared.opcode.Opcode.TheVariants as opcodes;
ghost use Rattle.aml_objects.specs.Contents.{Content, content_in};
ghost use Rattle.aml_objects.specs.declared.object.Object.TheVariants as object;
ghost use Rattle.aml_objects.specs.declared.value.Value.{Value};
ghost use Rattle.aml_objects.specs.declared.value.Value.TheVariants as value;
ghost use Rattle.aml_convert.specs.Concatenation.{resources_joined};
ghost use Rattle.aml_world.specs.state.State.{State};
ghost use Rattle.aml_laws.specs.OperatorTerms.{two_to, StoresTo, GivesValue, IsRefused};
ghost use Rattle.aml_laws.specs.MatchedValues.{Exceeds};
ghost use Rattle.aml_laws.specs.StoreTerms.{FormsTo};
ghost use Rattle.aml_laws.specs.StoredParts.{IsNoData};
ghost use Rattle.aml_laws.specs.TestTerms.{TwoValues};
ghost use Rattle.aml_laws.specs.JoinedTerms.{with_object, Fits, IsJoined, IsUnjoined, AreNoTemplates, IsNew};
ghost use Rattle.aml_laws.specs.JoinedTerms.{middle, IsPart, TakesPart, HasBytes, TakesText, IsTextOf};

/// Concatenate gives a new object: of a string the string and what the second value is as a string, of a buffer the
/// buffer and what it is as one, and of an integer the bytes of it and of the integer that the second value converts
/// to. It stores this to its target. Values that are joined the other way round, or by the type of the second one,
/// are refused by this. ConcatenateResTemplate does the same with the items of its two buffers, of which
/// `joined_resources_have_the_items_of_both` says which they are.
pub fn joined_values_begin_with_the_first<S>()
    ensures resources { (accesses : Accesses S) (scope : List Seg) (depth : ℕ) (x y : Tree) (w : State S) (steps : ℕ)
        (v u : Value) (after : State S × ℕ) → TwoValues accesses scope depth x y (w, steps) v u after →
        (bytes : List ℕ) (end : State S) (p : Part) →
        resources_joined (content_in after.0.objects v) (content_in after.0.objects u) ≡ Ok bytes →
        Fits after.0 bytes →
        StoresTo scope p (value.Buffer (length after.0.objects)) (with_object after.0 (object.Buffer bytes)) end →
        GivesValue accesses scope depth (two_to opcodes.ConcatRes x y p) (w, suc steps)
        (value.Buffer (length after.0.objects)) (end, after.1) }
    ensures values { (accesses : Accesses S) (scope : List Seg) (depth : ℕ) (x y : Tree) (w : State S) (steps : ℕ)
        (v u : Value) (after : State S × ℕ) → TwoValues accesses scope depth x y (w, steps) v u after → (c : Content)
        (bytes : List ℕ) (r : Value) (formed end : State S) (p : Part) →
        IsJoined after.0.width (content_in after.0.objects v) (content_in after.0.objects u) c bytes →
        Fits after.0 bytes → IsNew after.0 c r formed → StoresTo scope p r formed end →
        GivesValue accesses scope depth (two_to opcodes.Concat x y p) (w, suc steps) r (end, after.1) }
{}

/// Concatenate is refused as `WrongType` where its first value is neither an integer nor a string nor a buffer, and
/// else as the conversion of the second one to its type is. ConcatenateResTemplate is refused as `WrongType` where one
/// of its two values is no buffer, and else as `NoEnd` where one of them has bytes, but no end tag among its resource
/// items. Nothing is formed, and nothing is stored. A buffer without an end tag that is joined, or that is refused
/// otherwise, and a package that counts as an empty buffer, are refused by this.
pub fn what_cannot_be_joined_is_refused<S>()
    ensures first { (accesses : Accesses S) (scope : List Seg) (depth : ℕ) (x y : Tree) (w : State S) (steps : ℕ)
        (v u : Value) (after : State S × ℕ) → TwoValues accesses scope depth x y (w, steps) v u after → IsNoData v →
        (p : Part) → IsRefused accesses scope depth (two_to opcodes.Concat x y p) (w, suc steps)
        (refusal.Value WrongType) after }
    ensures second { (accesses : Accesses S) (scope : List Seg) (depth : ℕ) (x y : Tree) (w : State S) (steps : ℕ)
        (v u : Value) (after : State S × ℕ) → TwoValues accesses scope depth x y (w, steps) v u after → (e : Refusal) →
        IsUnjoined after.0.width (content_in after.0.objects v) (content_in after.0.objects u) e → (p : Part) →
        IsRefused accesses scope depth (two_to opcodes.Concat x y p) (w, suc steps) e after }
    ensures resources { (accesses : Accesses S) (scope : List Seg) (depth : ℕ) (x y : Tree) (w : State S) (steps : ℕ)
        (v u : Value) (after : State S × ℕ) → TwoValues accesses scope depth x y (w, steps) v u after → (e : Refusal) →
        AreNoTemplates (content_in after.0.objects v) (content_in after.0.objects u) e → (p : Part) →
        IsRefused accesses scope depth (two_to opcodes.ConcatRes x y p) (w, suc steps) e after }
{}

/// Mid, in the wide profile, gives a new string, or a new buffer, of the bytes from its index on, as many as its length
/// says, or up to the end; of an integer it takes the bytes of the buffer that this converts to. It stores this to its
/// target. Where there is no room for the part, it is refused as too much, and nothing is stored. A part that begins at
/// 1, or that is cut at another byte, is refused by this.
pub fn a_part_is_taken_from_its_index_on<S>()
    ensures { (accesses : Accesses S) (scope : List Seg) (depth : ℕ) (x y z : Tree) (w : State S) (steps : ℕ)
        (v : Value) (i n : ℕ) (after : State S × ℕ) → TakesPart accesses scope depth x y z (w, steps) v i n after →
        (whole : List ℕ) (made : List ℕ → Content) → HasBytes after.0.width (content_in after.0.objects v) whole made →
        (bytes : List ℕ) × IsPart i n whole bytes × ((r : Value) (formed end : State S) (p : Part) →
        Fits after.0 bytes → IsNew after.0 (made bytes) r formed → StoresTo scope p r formed end →
        GivesValue accesses scope depth (middle x y z p) (w, suc steps) r (end, after.1)) × ((p : Part) →
        Exceeds after.0 bytes → IsRefused accesses scope depth (middle x y z p) (w, suc steps)
        (refusal.Evaluation ObjectLimit) after) }
{}

/// ToString, in the wide profile, gives a new string of the bytes of a buffer before the first that is 0, at most as
/// many as its length says, and stores it to its target without another conversion. Where there is no room for them, it
/// is refused as too much, and nothing is stored. One that stores nothing is refused by this.
pub fn a_text_ends_before_the_first_zero<S>()
    ensures { (accesses : Accesses S) (scope : List Seg) (depth : ℕ) (x y : Tree) (w : State S) (steps : ℕ)
        (bytes : List ℕ) (n : ℕ) (after : State S × ℕ) →
        TakesText accesses scope depth x y (w, steps) bytes n after → (text : List ℕ) × IsTextOf n bytes text ×
        ((p : Part) (end : State S) → Fits after.0 text →
        FormsTo scope p (value.String (length after.0.objects)) (with_object after.0 (object.String text)) end →
        GivesValue accesses scope depth (two_to opcodes.ToString x y p) (w, suc steps)
        (value.String (length after.0.objects)) (end, after.1)) × ((p : Part) → Exceeds after.0 text →
        IsRefused accesses scope depth (two_to opcodes.ToString x y p) (w, suc steps)
        (refusal.Evaluation ObjectLimit) after) }
{}
