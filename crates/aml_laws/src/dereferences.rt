//! DerefOf, dead references, references that come to no end, and those that lead to a name that isn't found.
ghost use Rattle.std.specs.Prelude.{◌≡◌, ◌≢◌, ◌<◌, ◌≤◌, ◌∷◌, ℕ, suc, List, length, take, Some, Ok, Err};
ghost use Rattle.ar_space.specs.Accesses.{Accesses};
ghost use Rattle.ar_space.specs.declared.refusal.Refusal.{Refusal};
ghost use Rattle.ar_space.specs.declared.refusal.Refusal.TheVariants as refusal;
ghost use Rattle.ar_space.specs.declared.refusal.EvaluationFault.TheVariants.{DeadReference, NoValue};
ghost use Rattle.ar_space.specs.declared.refusal.ValueFault.TheVariants.{WrongType};
ghost use Rattle.aml_path.specs.declared.segment.Seg.{Seg};
ghost use Rattle.aml_path.specs.Paths.{Name};
ghost use Rattle.aml_grammar.specs.Tree.{Tree, Part, name, inner};
ghost use Rattle.aml_grammar.specs.declared.opcode.Opcode.TheVariants as opcodes;
ghost use Rattle.aml_objects.specs.Fields.{bits_of_field};
ghost use Rattle.aml_objects.specs.declared.entry.Entry.{Entry};
ghost use Rattle.aml_objects.specs.declared.entry.Field.{Field};
ghost use Rattle.aml_objects.specs.declared.object.Object.TheVariants as object;
ghost use Rattle.aml_objects.specs.declared.value.Reference.{Reference};
ghost use Rattle.aml_objects.specs.declared.value.Reference.TheVariants as reference;
ghost use Rattle.aml_objects.specs.declared.value.Value.{Value};
ghost use Rattle.aml_objects.specs.declared.value.Value.TheVariants as value;
ghost use Rattle.aml_convert.specs.Integers.{bits_of, bytes_of};
ghost use Rattle.aml_namespace.specs.Namespace.{numbered};
ghost use Rattle.aml_namespace.specs.Search.{found};
ghost use Rattle.aml_world.specs.state.State.{State};
ghost use Rattle.aml_world.specs.values.StoreTargets.{dereferenced, target_referent};
ghost use Rattle.aml_world.specs.values.Stores.{stored, copied_to};
ghost use Rattle.aml_world.specs.declared.values.object_type.Referent.TheVariants as referent;
ghost use Rattle.aml_world.specs.declared.values.store_target.Held.TheVariants as held;
ghost use Rattle.aml_world.specs.declared.values.store_target.StoreTarget.{StoreTarget};
ghost use Rattle.aml_world.specs.declared.values.store_target.StoreTarget.TheVariants as targets;
ghost use Rattle.aml_laws.specs.Dereferenced.{Holds, IsEmpty, IsDead, Leads, HasNoEnd, EndsUnfound};
ghost use Rattle.aml_laws.specs.FieldNames.{bits_read_at};
ghost use Rattle.aml_laws.specs.IntegersOfValues.{lowest_first};
ghost use Rattle.aml_laws.specs.JoinedTerms.{with_object, Fits};
ghost use Rattle.aml_laws.specs.Limits.{ArgumentChain};
ghost use Rattle.aml_laws.specs.OperatorTerms.{of_one, NamesTarget, TargetHolds, GivesValue, Gives, IsRefused};
ghost use Rattle.aml_laws.specs.ReferringTerms.{size_of, object_type};
ghost use Rattle.aml_laws.specs.StoredParts.{HoldsNothing};
ghost use Rattle.aml_laws.specs.TargetsNamed.{IsReferring};

/// DerefOf evaluates its operand, and reads what the reference that this gives refers to, following no further
/// reference (ACPI 6.5, 19.6: DerefOf): the value that a name, a local, an argument or an element of a package holds,
/// or the byte of a string or of a buffer, which is an integer. Of a name that holds neither a value nor a field it
/// gives the reference again. It is refused as `DeadReference` where what the reference referred to is gone, as
/// `NoValue` where a slot or an element holds no value yet, and as `WrongType` where the operand gives anything but a
/// reference, for example a string that could be a path. In general it gives what `dereferenced` says: the value, or
/// the refusal, and of a field what its bits are. The law excludes a DerefOf that gives 0 of a local, one that gives
/// nothing of a dead reference, and one that searches for a string as a name.
pub fn a_dereference_reads_what_its_operand_refers_to<S>()
    ensures held { (accesses : Accesses S) (scope : List Seg) (depth : ℕ) (x : Tree) (w : State S) (steps : ℕ)
        (r : Reference) (after : State S × ℕ) →
        GivesValue accesses scope depth x (w, steps) (value.Reference r) after → (v : Value) → Holds after.0 r v →
        v ≢ value.Uninitialized → GivesValue accesses scope depth (of_one opcodes.DerefOf x) (w, suc steps) v after }
    ensures no_value { (accesses : Accesses S) (scope : List Seg) (depth : ℕ) (x : Tree) (w : State S) (steps : ℕ)
        (r : Reference) (after : State S × ℕ) →
        GivesValue accesses scope depth x (w, steps) (value.Reference r) after → (n : ℕ) (path : List Seg) (e : Entry) →
        r ≡ reference.Name n → numbered n after.0.names.map ≡ Some (path, e) → HoldsNothing e.object →
        GivesValue accesses scope depth (of_one opcodes.DerefOf x) (w, suc steps) (value.Reference r) after }
    ensures empty { (accesses : Accesses S) (scope : List Seg) (depth : ℕ) (x : Tree) (w : State S) (steps : ℕ)
        (r : Reference) (after : State S × ℕ) →
        GivesValue accesses scope depth x (w, steps) (value.Reference r) after → IsEmpty after.0 r →
        IsRefused accesses scope depth (of_one opcodes.DerefOf x) (w, suc steps) (refusal.Evaluation NoValue) after }
    ensures dead { (accesses : Accesses S) (scope : List Seg) (depth : ℕ) (x : Tree) (w : State S) (steps : ℕ)
        (r : Reference) (after : State S × ℕ) →
        GivesValue accesses scope depth x (w, steps) (value.Reference r) after → IsDead after.0 r →
        IsRefused accesses scope depth (of_one opcodes.DerefOf x) (w, suc steps) (refusal.Evaluation DeadReference)
        after }
    ensures no_reference { (accesses : Accesses S) (scope : List Seg) (depth : ℕ) (x : Tree) (w : State S) (steps : ℕ)
        (after : State S × ℕ) (v : Value) → GivesValue accesses scope depth x (w, steps) v after →
        ((r : Reference) → v ≢ value.Reference r) →
        IsRefused accesses scope depth (of_one opcodes.DerefOf x) (w, suc steps) (refusal.Value WrongType) after }
    ensures value { (accesses : Accesses S) (scope : List Seg) (depth : ℕ) (x : Tree) (w : State S) (steps : ℕ)
        (r : Reference) (after : State S × ℕ) →
        GivesValue accesses scope depth x (w, steps) (value.Reference r) after → (v : Value) →
        dereferenced r after.0 ≡ (Ok (held.Value v), after.0) →
        GivesValue accesses scope depth (of_one opcodes.DerefOf x) (w, suc steps) v after }
    ensures refused { (accesses : Accesses S) (scope : List Seg) (depth : ℕ) (x : Tree) (w : State S) (steps : ℕ)
        (r : Reference) (after : State S × ℕ) →
        GivesValue accesses scope depth x (w, steps) (value.Reference r) after → (e : Refusal) →
        dereferenced r after.0 ≡ (Err e, after.0) →
        IsRefused accesses scope depth (of_one opcodes.DerefOf x) (w, suc steps) e after }
    ensures short_field { (accesses : Accesses S) (scope : List Seg) (depth : ℕ) (x : Tree) (w : State S) (steps : ℕ)
        (r : Reference) (after : State S × ℕ) →
        GivesValue accesses scope depth x (w, steps) (value.Reference r) after → (f : Field) (b : ℕ) (bytes : List ℕ)
        (end : State S × ℕ) → dereferenced r after.0 ≡ (Ok (held.Field f), after.0) →
        bits_read_at accesses depth f after ≡ (Ok (b ∷ bytes), end) → bits_of_field f ≤ bits_of end.0.width →
        Gives accesses scope depth (of_one opcodes.DerefOf x) (w, suc steps)
        (lowest_first (take (bytes_of end.0.width) (b ∷ bytes))) end }
    ensures long_field { (accesses : Accesses S) (scope : List Seg) (depth : ℕ) (x : Tree) (w : State S) (steps : ℕ)
        (r : Reference) (after : State S × ℕ) →
        GivesValue accesses scope depth x (w, steps) (value.Reference r) after → (f : Field) (bytes : List ℕ)
        (end : State S × ℕ) → dereferenced r after.0 ≡ (Ok (held.Field f), after.0) →
        bits_read_at accesses depth f after ≡ (Ok bytes, end) → bits_of end.0.width < bits_of_field f →
        Fits end.0 bytes → GivesValue accesses scope depth (of_one opcodes.DerefOf x) (w, suc steps)
        (value.Buffer (length end.0.objects)) (with_object end.0 (object.Buffer bytes), end.1) }
    ensures unread_field { (accesses : Accesses S) (scope : List Seg) (depth : ℕ) (x : Tree) (w : State S) (steps : ℕ)
        (r : Reference) (after : State S × ℕ) →
        GivesValue accesses scope depth x (w, steps) (value.Reference r) after → (f : Field) (e : Refusal)
        (end : State S × ℕ) → dereferenced r after.0 ≡ (Ok (held.Field f), after.0) →
        bits_read_at accesses depth f after ≡ (Err e, end) →
        IsRefused accesses scope depth (of_one opcodes.DerefOf x) (w, suc steps) e end }
{}

/// SizeOf and ObjectType refuse references without an end as `DeadReference`; nothing changes but what evaluating the
/// operand changes. There is no end where 64 references or more lead on, each to the next; where the last of them is
/// dead; and where one leads back to itself, at once or by way of others. It is said of a RefOf, a DerefOf or an Index
/// that gives such a reference, and of a local, an argument or a name that holds one. A slot or an element that holds
/// no value yet, to which fewer than 64 lead, is an end: it is what is found. Of other ends
/// `at_most_64_references_are_followed` speaks. The law excludes a circle that is left after one turn, and a dead
/// reference that counts as one that holds no value yet.
pub fn references_without_an_end_are_dead<S>()
    ensures dead { (w : State S) (r : Reference) → HasNoEnd w r →
        target_referent (targets.Refers r) w ≡ (Err (refusal.Evaluation DeadReference), w) }
    ensures empty { (w : State S) (n : ℕ) (r q : Reference) → Leads w n r q → n < 64 → IsEmpty w q →
        target_referent (targets.Refers r) w ≡ (Ok (referent.Value value.Uninitialized), w) }
    ensures terms { (accesses : Accesses S) (scope : List Seg) (depth : ℕ) (u : Tree) (w : State S) (steps : ℕ) →
        IsReferring u → (r : Reference) (after : State S × ℕ) →
        GivesValue accesses scope depth u (w, steps) (value.Reference r) after → HasNoEnd after.0 r →
        IsRefused accesses scope depth (size_of (inner u)) (w, suc steps) (refusal.Evaluation DeadReference) after ×
        IsRefused accesses scope depth (object_type (inner u)) (w, suc steps) (refusal.Evaluation DeadReference) after }
    ensures holders { (accesses : Accesses S) (scope : List Seg) (depth : ℕ) (p : Part) (w : State S) (steps : ℕ)
        (t : StoreTarget) (r : Reference) → NamesTarget scope w p t → TargetHolds w t (value.Reference r) →
        HasNoEnd w r → IsRefused accesses scope depth (size_of p) (w, suc steps) (refusal.Evaluation DeadReference)
        (w, steps) × IsRefused accesses scope depth (object_type p) (w, suc steps) (refusal.Evaluation DeadReference)
        (w, steps) }
{}

/// SizeOf and ObjectType of a name that isn't found are refused as the search for it is. The same holds where fewer
/// than 64 references lead, each to the next, to an element of a package that is a name, and this name isn't found from
/// the scope where the package was made. The first reference is given by a RefOf, a DerefOf or an Index, or held by a
/// local, an argument or a name. Nothing changes but what evaluating the operand changes. The law excludes an
/// ObjectType that is 0 of a name that isn't found, and one of an element whose name is taken for no value.
pub fn sizes_and_types_are_refused_as_searches_are<S>()
    ensures names { (accesses : Accesses S) (scope : List Seg) (depth : ℕ) (w : State S) (steps : ℕ) (n : Name)
        (e : Refusal) → found w.names.map scope n ≡ Err e →
        IsRefused accesses scope depth (size_of (name n)) (w, suc steps) e (w, steps) ×
        IsRefused accesses scope depth (object_type (name n)) (w, suc steps) e (w, steps) }
    ensures elements { (w : State S) (r : Reference) (e : Refusal) → EndsUnfound w r e →
        target_referent (targets.Refers r) w ≡ (Err e, w) }
    ensures terms { (accesses : Accesses S) (scope : List Seg) (depth : ℕ) (u : Tree) (w : State S) (steps : ℕ) →
        IsReferring u → (r : Reference) (after : State S × ℕ) →
        GivesValue accesses scope depth u (w, steps) (value.Reference r) after → (e : Refusal) →
        EndsUnfound after.0 r e → IsRefused accesses scope depth (size_of (inner u)) (w, suc steps) e after ×
        IsRefused accesses scope depth (object_type (inner u)) (w, suc steps) e after }
    ensures holders { (accesses : Accesses S) (scope : List Seg) (depth : ℕ) (p : Part) (w : State S) (steps : ℕ)
        (t : StoreTarget) (r : Reference) → NamesTarget scope w p t → TargetHolds w t (value.Reference r) →
        (e : Refusal) → EndsUnfound w r e → IsRefused accesses scope depth (size_of p) (w, suc steps) e (w, steps) ×
        IsRefused accesses scope depth (object_type p) (w, suc steps) e (w, steps) }
{}

/// A Store and a CopyObject through a dead reference are refused as `DeadReference`, and change nothing. So is a
/// CopyObject through a reference to an argument where arguments, each of which holds a reference to the next, lead to
/// a dead one. The law excludes a store to a name that is gone that is done nevertheless.
#[tactic(auto, using(crate::proofs::DeadStores::dead_is_not_stored_to, crate::proofs::DeadStores::dead_is_not_copied_to))]
pub fn a_dead_reference_takes_nothing<S>()
    ensures stored { (w : State S) (v : Value) (r : Reference) → IsDead w r →
        stored (targets.Refers r) v w ≡ (Err (refusal.Evaluation DeadReference), w) }
    ensures copied { (w : State S) (v : Value) (n : ℕ) (r end : Reference) → ArgumentChain w n r end →
        IsDead w end → copied_to (targets.Refers r) v w ≡ (Err (refusal.Evaluation DeadReference), w) }
{}
