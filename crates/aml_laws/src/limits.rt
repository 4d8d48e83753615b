//! Limits.
ghost use Rattle.std.specs.Prelude.{◌≡◌, ◌≤◌, ◌<◌, ◌+◌, ◌++◌, ◌∷◌, [], ℕ, List, length, Some, Ok, Err};
ghost use Rattle.std.specs.FinMap.{get};
ghost use Rattle.ar_space.specs.declared.refusal.Refusal.TheVariants.{Evaluation};
ghost use Rattle.ar_space.specs.declared.refusal.EvaluationFault.TheVariants.{ObjectLimit, CallDepth, DepthSetting, DeadReference};
ghost use Rattle.ar_space.specs.Accesses.{Accesses};
ghost use Rattle.aml_path.specs.declared.segment.Seg.{Seg};
ghost use Rattle.aml_objects.specs.Objects.{Objects, make, make_string, make_buffer, make_package};
ghost use Rattle.aml_objects.specs.declared.object.Element.{Element};
ghost use Rattle.aml_objects.specs.declared.object.Object.{Object};
ghost use Rattle.aml_objects.specs.declared.object.Object.TheVariants as object;
ghost use Rattle.aml_objects.specs.declared.value.Value.{Value};
ghost use Rattle.aml_objects.specs.declared.value.Value.TheVariants as value;
ghost use Rattle.aml_objects.specs.declared.value.Reference.{Reference};
ghost use Rattle.aml_objects.specs.declared.value.Slot.{Slot};
ghost use Rattle.aml_objects.specs.declared.entry.Entry.{Entry};
ghost use Rattle.aml_objects.specs.declared.entry.NamedObject.TheVariants as named;
ghost use Rattle.aml_world.specs.declared.values.store_target.StoreTarget.TheVariants as targets;
ghost use Rattle.aml_world.specs.declared.values.object_type.Referent.{Referent};
ghost use Rattle.aml_world.specs.state.State.{State};
ghost use Rattle.aml_world.specs.values.StoreTargets.{own_slot, target_referent};
ghost use Rattle.aml_world.specs.values.Stores.{copied_to};
ghost use Rattle.aml_world.specs.state.Importing.{imported};
ghost use Rattle.aml_meaning.specs.Calls.{invoked};
ghost use Rattle.aml_meaning.specs.Meaning.{meaning};
ghost use Rattle.aml_meaning.specs.Exporting.{exported};
ghost use Rattle.aml_laws.specs.Calls.{body_frame};
ghost use Rattle.aml_laws.specs.Limits.{Chain, ArgumentChain, IsLink, nested, IsNested};

/// What is above a limit is refused, and leaves everything as it was. Refused as `ObjectLimit` are an object where
/// 262,144 stand, a string and a buffer of more than 1,048,576 bytes, and a package of more than 65,535 elements; a
/// call inside 32 others is refused as `CallDepth`, and one inside fewer, but inside as many as the world allows or
/// more, as `DepthSetting`. Where fewer than 262,144 objects stand, an object is made.
/// `no_object_is_made_behind_the_last` says that strings, buffers and packages are refused by the limit of objects. The
/// law excludes a limit of objects that is one too low or one too high, and any other limit that is one too high.
#[tactic(auto, using(crate::proofs::LimitsRefused::limits_are_refused))]
pub fn limits_are_refused<S>()
    ensures made { (x : Object) (objects : Objects) → length objects < 262144 →
        make x objects ≡ (Ok (length objects), objects ++ x ∷ []) }
    ensures objects { (x : Object) (objects : Objects) → 262144 ≤ length objects →
        make x objects ≡ (Err (Evaluation ObjectLimit), objects) }
    ensures strings { (bytes : List ℕ) (objects : Objects) → 1048576 < length bytes →
        make_string bytes objects ≡ (Err (Evaluation ObjectLimit), objects) }
    ensures buffers { (bytes : List ℕ) (objects : Objects) → 1048576 < length bytes →
        make_buffer bytes objects ≡ (Err (Evaluation ObjectLimit), objects) }
    ensures packages { (elements : List Element) (objects : Objects) → 65535 < length elements →
        make_package elements objects ≡ (Err (Evaluation ObjectLimit), objects) }
    ensures calls { (accesses : Accesses S) (depth : ℕ) (p : List Seg) (body : List ℕ) (arguments : List Value)
        (s : State S × ℕ) → 32 ≤ depth →
        invoked (meaning accesses) depth p body arguments s ≡ (Err (Evaluation CallDepth), s) }
    ensures setting { (accesses : Accesses S) (depth : ℕ) (p : List Seg) (body : List ℕ) (arguments : List Value)
        (s : State S × ℕ) → depth < 32 → s.0.nesting.calls ≤ depth →
        invoked (meaning accesses) depth p body arguments s ≡ (Err (Evaluation DepthSetting), s) }
{}

/// What is within a limit is taken: a string or a buffer of 1,048,576 bytes and a package of 65,535 elements, or
/// fewer, where there is room for an object; and a call inside fewer than 32 others, and fewer than the world allows,
/// begins as the outermost one does.
/// With `limits_are_refused` each of these is refused exactly above its limit.
#[tactic(auto, using(crate::proofs::LimitsTaken::what_is_within_the_limits_is_taken))]
pub fn what_is_within_the_limits_is_taken<S>()
    ensures strings { (bytes : List ℕ) (objects : Objects) → length bytes ≤ 1048576 → length objects < 262144 →
        make_string bytes objects ≡ (Ok (value.String (length objects)), objects ++ object.String bytes ∷ []) }
    ensures buffers { (bytes : List ℕ) (objects : Objects) → length bytes ≤ 1048576 → length objects < 262144 →
        make_buffer bytes objects ≡ (Ok (value.Buffer (length objects)), objects ++ object.Buffer bytes ∷ []) }
    ensures packages { (elements : List Element) (objects : Objects) → length elements ≤ 65535 →
        length objects < 262144 →
        make_package elements objects ≡ (Ok (value.Package (length objects)), objects ++ object.Package elements ∷ []) }
    ensures calls { (depth : ℕ) (p : List Seg) (body : List ℕ) (arguments : List Value) (w : State S) → depth < 32 →
        depth < w.nesting.calls → body_frame depth p body arguments w ≡ body_frame 0 p body arguments w }
{}

/// SizeOf and ObjectType follow a chain of at most 64 references to its end, and answer what the last one refers to: a
/// value, the type of a name that holds no value, a field that a package names, or a byte. A longer chain is refused as
/// `DeadReference`. Neither changes anything. A name or a slot that holds a reference stands for it. CopyObject follows
/// references to arguments, each of which holds the next reference, in the same way. Through at most 64 references it
/// does what it does through the last one alone, if that one doesn't refer to an argument that holds a reference;
/// through more it is refused as `DeadReference`, and changes nothing. The law excludes an answer that is another
/// name's type, or that stops at a reference on the way, and a CopyObject that is refused where at most 64 references
/// lead on.
#[tactic(auto, using(crate::proofs::ReferenceChains::at_most_64_references_are_followed))]
pub fn at_most_64_references_are_followed<S>()
    ensures followed { (w : State S) (n : ℕ) (r : Reference) (x : Referent) → Chain w n r x → n ≤ 64 →
        target_referent (targets.Refers r) w ≡ (Ok x, w) }
    ensures refused { (w : State S) (n : ℕ) (r : Reference) (x : Referent) → Chain w n r x → 64 < n →
        target_referent (targets.Refers r) w ≡ (Err (Evaluation DeadReference), w) }
    ensures names { (w : State S) (path : List Seg) (e : Entry) (r : Reference) → get w.names.map path ≡ Some e →
        e.object ≡ named.Data (value.Reference r) → target_referent (targets.Name path) w ≡
        target_referent (targets.Refers r) w }
    ensures slots { (w : State S) (slot : Slot) (r : Reference) → own_slot slot w ≡ (Ok (value.Reference r), w) →
        target_referent (targets.Slot slot) w ≡ target_referent (targets.Refers r) w }
    ensures stored { (w : State S) (v : Value) (n : ℕ) (r end : Reference) → ArgumentChain w n r end → n ≤ 64 →
        ((q : Reference) → IsLink w end q → ⊥) →
        copied_to (targets.Refers r) v w ≡ copied_to (targets.Refers end) v w }
    ensures not_stored { (w : State S) (v : Value) (n : ℕ) (r end : Reference) → ArgumentChain w n r end → 64 < n →
        copied_to (targets.Refers r) v w ≡ (Err (Evaluation DeadReference), w) }
{}

/// Packages that are handed in, each the only element of the next, are taken where at most 64 of them nest and there is
/// room for their objects; where more nest, they are refused as `ObjectLimit`. Of packages that are handed out, where
/// more than 64 are first elements one of another and there are steps for 64 elements, the answer is refused as
/// `ObjectLimit`. Of all other data `what_is_within_the_limits_is_handed_in` and `data_nests_at_most_64_deep` speak.
#[tactic(auto, using(crate::proofs::LimitsTaken::packages_nest_at_most_64_deep))]
pub fn packages_nest_at_most_64_deep<S>()
    ensures taken { (w : State S) (n : ℕ) → n ≤ 64 → length w.objects + n ≤ 262144 →
        (v : Value) × ((imported (nested n) w).0 ≡ Ok v) }
    ensures refused { (w : State S) (n : ℕ) → 64 < n →
        (imported (nested n) w).0 ≡ Err (Evaluation ObjectLimit) }
    ensures handed_out { (accesses : Accesses S) (w : State S) (n o steps : ℕ) → IsNested w.objects n o → 64 < n →
        64 ≤ steps → (exported accesses (value.Package o) (w, steps)).0 ≡ Err (Evaluation ObjectLimit) }
{}
