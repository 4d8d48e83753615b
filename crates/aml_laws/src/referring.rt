//! References to parts of objects and to names, and what is asked of objects.
ghost use Rattle.std.specs.Prelude.{◌≡◌, ◌≢◌, ◌<◌, ◌≤◌, ◌+◌, ◌%◌, ◌^◌, ℕ, suc, List, Some, Ok, Err};
ghost use Rattle.std.specs.FinMap.{get};
ghost use Rattle.ar_space.specs.Accesses.{Accesses};
ghost use Rattle.ar_space.specs.declared.refusal.Refusal.{Refusal};
ghost use Rattle.ar_space.specs.declared.refusal.Refusal.TheVariants as refusal;
ghost use Rattle.ar_space.specs.declared.refusal.EvaluationFault.TheVariants.{IndexLimit, NoValue};
ghost use Rattle.ar_space.specs.declared.refusal.NamespaceFault.TheVariants.{NotFound};
ghost use Rattle.ar_space.specs.declared.refusal.ValueFault.TheVariants.{WrongType};
ghost use Rattle.aml_path.specs.declared.segment.Seg.{Seg};
ghost use Rattle.aml_path.specs.Paths.{Name};
ghost use Rattle.aml_grammar.specs.Tree.{Tree, Part, name, inner};
ghost use Rattle.aml_grammar.specs.declared.opcode.Opcode.{Opcode};
ghost use Rattle.aml_grammar.specs.declared.opcode.Opcode.TheVariants as opcodes;
ghost use Rattle.aml_objects.specs.declared.entry.Entry.{Entry};
ghost use Rattle.aml_objects.specs.declared.value.Reference.{Reference};
ghost use Rattle.aml_objects.specs.declared.value.Reference.TheVariants as reference;
ghost use Rattle.aml_objects.specs.declared.value.Slot.{Slot};
ghost use Rattle.aml_objects.specs.declared.value.Value.{Value};
ghost use Rattle.aml_objects.specs.declared.value.Value.TheVariants as value;
ghost use Rattle.aml_convert.specs.Integers.{bits_of};
ghost use Rattle.aml_namespace.specs.Search.{found};
ghost use Rattle.aml_world.specs.declared.values.store_target.StoreTarget.{StoreTarget};
ghost use Rattle.aml_world.specs.declared.values.store_target.StoreTarget.TheVariants as targets;
ghost use Rattle.aml_world.specs.declared.values.store_target.Stored.TheVariants as store;
ghost use Rattle.aml_world.specs.state.State.{State};
ghost use Rattle.aml_world.specs.values.Stores.{stored};
ghost use Rattle.aml_meaning.specs.TargetTerms.{target_of};
ghost use Rattle.aml_meaning.specs.Meaning.{meaning};
ghost use Rattle.aml_laws.specs.OperatorTerms.{alone, one_to, two_to, NamesSlot, NamesTarget, StoresTo, SlotHolds, SlotIsEmpty, TargetHolds, GivesValue, Gives, IsRefused};
ghost use Rattle.aml_laws.specs.IndexTargets.{CountsPart};
ghost use Rattle.aml_laws.specs.Dereferenced.{IsEmpty};
ghost use Rattle.aml_laws.specs.PutIntoTargets.{PutsReferenceAfter, PutsReference};
ghost use Rattle.aml_laws.specs.ReferencesOfTargets.{RefersTo, IsReferable};
ghost use Rattle.aml_laws.specs.ReferringTerms.{HasParts, HasNoParts, HasPart, Indexes, part_read, size_of, object_type, IsNumbered, IsNamedKind, conditional, IsNumberedLast};
ghost use Rattle.aml_laws.specs.TargetsNamed.{NamesAt, NamesNone};
ghost use Rattle.aml_laws.specs.TestTerms.{TwoValues};

/// Index gives a reference to the element of a package, or to the byte of a string or of a buffer, that its second
/// operand counts from 0, and stores it to its target; from the end on it is refused. DerefOf of it gives that element,
/// where it holds a value, or that byte. An index that counts from 1, and one past the end, are refused by this.
pub fn an_index_refers_to_a_part<S>()
    ensures refers { (accesses : Accesses S) (scope : List Seg) (depth : ℕ) (x y : Tree) (w : State S) (steps : ℕ)
        (v : Value) (i : ℕ) (after : State S × ℕ) → Indexes accesses scope depth x y (w, steps) v i after → (n : ℕ)
        (f : ℕ → Reference) → HasParts after.0 v n f → i < n → (p : Part) (end : State S) →
        StoresTo scope p (value.Reference (f i)) after.0 end → GivesValue accesses scope depth
        (two_to opcodes.Index x y p) (w, suc steps) (value.Reference (f i)) (end, after.1) }
    ensures past { (accesses : Accesses S) (scope : List Seg) (depth : ℕ) (x y : Tree) (w : State S) (steps : ℕ)
        (v : Value) (i : ℕ) (after : State S × ℕ) → Indexes accesses scope depth x y (w, steps) v i after → (n : ℕ)
        (f : ℕ → Reference) → HasParts after.0 v n f → n ≤ i → (p : Part) → IsRefused accesses scope depth
        (two_to opcodes.Index x y p) (w, suc steps) (refusal.Evaluation IndexLimit) after }
    ensures read { (accesses : Accesses S) (scope : List Seg) (depth : ℕ) (x y : Tree) (w : State S) (steps : ℕ)
        (v r : Value) (i : ℕ) (after : State S × ℕ) → Indexes accesses scope depth x y (w, steps) v i after →
        HasPart after.0 v i r → r ≢ value.Uninitialized →
        GivesValue accesses scope depth (part_read x y) (w, suc (suc steps)) r after }
{}

/// An Index where a target stands is the part that it refers to, and its own target takes the reference first (ACPI
/// 6.5, 19.6: Index; 20.2.2: SuperName). So a Store to an Index evaluates its source, then the Index, and stores the
/// source's value to the part, and an Increment or a Decrement of an Index without a target counts the part, where this
/// is a value or a byte. A Store to an Index that stores nothing is refused by this.
pub fn an_index_is_a_target<S>()
    ensures target { (accesses : Accesses S) (scope : List Seg) (depth : ℕ) (x y : Tree) (w : State S) (steps : ℕ)
        (v : Value) (i : ℕ) (after : State S × ℕ) → Indexes accesses scope depth x y (w, steps) v i after → (n : ℕ)
        (f : ℕ → Reference) → HasParts after.0 v n f → i < n → (p : Part) (end : State S) →
        StoresTo scope p (value.Reference (f i)) after.0 end →
        target_of (meaning accesses) scope depth (two_to opcodes.Index x y p) (w, suc steps) ≡
        (Ok (targets.Refers (f i)), (end, after.1)) }
    ensures stored { (accesses : Accesses S) (scope : List Seg) (depth : ℕ) (z x y : Tree) (w : State S) (steps : ℕ)
        (u : Value) (between : State S) (rest : ℕ) →
        GivesValue accesses scope depth z (w, steps) u (between, suc rest) → (v : Value) (i : ℕ)
        (after : State S × ℕ) → Indexes accesses scope depth x y (between, rest) v i after → (n : ℕ)
        (f : ℕ → Reference) → HasParts after.0 v n f → i < n → (p : Part) (referred : State S) →
        StoresTo scope p (value.Reference (f i)) after.0 referred → (end : State S) →
        stored (targets.Refers (f i)) u referred ≡ (Ok store.Done, end) → GivesValue accesses scope depth
        (one_to opcodes.Store z (inner (two_to opcodes.Index x y p))) (w, suc steps) u (end, after.1) }
    ensures counted_up { CountsPart S opcodes.Increment (λ width a m. m ≡ (a + 1) % 2 ^ bits_of width) }
    ensures counted_down { CountsPart S opcodes.Decrement (λ width a m.
        (m < 2 ^ bits_of width) × ((m + 1) % 2 ^ bits_of width ≡ a % 2 ^ bits_of width)) }
{}

/// SizeOf of a local, an argument or a name gives the number of bytes of the string or the buffer that it holds, or of
/// the elements of the package; of a DerefOf of an Index that of the part of an object. Nothing changes but what
/// evaluating the Index changes.
pub fn a_size_counts_bytes_and_elements<S>()
    ensures held { (accesses : Accesses S) (scope : List Seg) (depth : ℕ) (p : Part) (w : State S) (steps : ℕ)
        (t : StoreTarget) (v : Value) (n : ℕ) (f : ℕ → Reference) → NamesTarget scope w p t → TargetHolds w t v →
        HasParts w v n f → Gives accesses scope depth (size_of p) (w, suc steps) n (w, steps) }
    ensures parts { (accesses : Accesses S) (scope : List Seg) (depth : ℕ) (x y : Tree) (w : State S) (steps : ℕ)
        (v r : Value) (i n : ℕ) (f : ℕ → Reference) (after : State S × ℕ) →
        Indexes accesses scope depth x y (w, steps) v i after → HasPart after.0 v i r → HasParts after.0 r n f →
        Gives accesses scope depth (size_of (inner (part_read x y))) (w, suc (suc (suc steps))) n after }
{}

/// SizeOf of what holds an integer, of a name that stands for no value, as that of a device or of a field, of Debug,
/// and of a DerefOf of an Index that is an integer, is refused as `WrongType`, and of what holds no value yet as
/// `NoValue`; nothing changes but what evaluating the Index changes. An Index of an integer or of a reference is
/// refused as `WrongType` once both its operands are evaluated, and stores nothing. An integer that has the size of its
/// bytes, and an Index of one that gives it, are refused by this.
pub fn what_has_no_parts_is_neither_counted_nor_indexed<S>()
    ensures size { (accesses : Accesses S) (scope : List Seg) (depth : ℕ) (p : Part) (w : State S) (steps : ℕ)
        (t : StoreTarget) (n : ℕ) → NamesTarget scope w p t → TargetHolds w t (value.Integer n) →
        IsRefused accesses scope depth (size_of p) (w, suc steps) (refusal.Value WrongType) (w, steps) }
    ensures nothing_yet { (accesses : Accesses S) (scope : List Seg) (depth : ℕ) (p : Part) (w : State S) (steps : ℕ)
        (s : Slot) → NamesTarget scope w p (targets.Slot s) → SlotIsEmpty w s →
        IsRefused accesses scope depth (size_of p) (w, suc steps) (refusal.Evaluation NoValue) (w, steps) }
    ensures no_value { (accesses : Accesses S) (scope : List Seg) (depth : ℕ) (p : Part) (w : State S) (steps : ℕ)
        (t : StoreTarget) → NamesTarget scope w p t → TargetHolds w t value.Uninitialized →
        IsRefused accesses scope depth (size_of p) (w, suc steps) (refusal.Evaluation NoValue) (w, steps) }
    ensures names { (accesses : Accesses S) (scope : List Seg) (depth : ℕ) (p : Part) (w : State S) (steps : ℕ)
        (path : List Seg) (e : Entry) (k : ℕ) → NamesTarget scope w p (targets.Name path) →
        get w.names.map path ≡ Some e → IsNamedKind e.object k →
        IsRefused accesses scope depth (size_of p) (w, suc steps) (refusal.Value WrongType) (w, steps) }
    ensures debug { (accesses : Accesses S) (scope : List Seg) (depth : ℕ) (w : State S) (steps : ℕ) →
        IsRefused accesses scope depth (size_of (inner (alone opcodes.Debug))) (w, suc steps)
        (refusal.Value WrongType) (w, steps) }
    ensures parts { (accesses : Accesses S) (scope : List Seg) (depth : ℕ) (x y : Tree) (w : State S) (steps : ℕ)
        (v : Value) (i n : ℕ) (after : State S × ℕ) → Indexes accesses scope depth x y (w, steps) v i after →
        HasPart after.0 v i (value.Integer n) → IsRefused accesses scope depth (size_of (inner (part_read x y)))
        (w, suc (suc (suc steps))) (refusal.Value WrongType) after }
    ensures index { (accesses : Accesses S) (scope : List Seg) (depth : ℕ) (x y : Tree) (w : State S) (steps : ℕ)
        (v u : Value) (after : State S × ℕ) → TwoValues accesses scope depth x y (w, steps) v u after →
        HasNoParts v → (p : Part) → IsRefused accesses scope depth (two_to opcodes.Index x y p) (w, suc steps)
        (refusal.Value WrongType) after }
{}

/// ObjectType of a local, an argument or a name that holds a value gives the number of the type of this value, of a
/// name that holds none that of what it names, of a slot that holds none 0, and of Debug 16 (ACPI 6.5, 19.6:
/// ObjectType, its table). Of a DerefOf of an Index it is that of the element, and of a byte that of an integer.
/// Nothing changes but what evaluating the Index changes.
pub fn object_types_have_their_numbers<S>()
    ensures values { (accesses : Accesses S) (scope : List Seg) (depth : ℕ) (p : Part) (w : State S) (steps : ℕ)
        (t : StoreTarget) (v : Value) (k : ℕ) → NamesTarget scope w p t → TargetHolds w t v → IsNumbered v k →
        Gives accesses scope depth (object_type p) (w, suc steps) k (w, steps) }
    ensures names { (accesses : Accesses S) (scope : List Seg) (depth : ℕ) (p : Part) (w : State S) (steps : ℕ)
        (path : List Seg) (e : Entry) (k : ℕ) → NamesTarget scope w p (targets.Name path) →
        get w.names.map path ≡ Some e → IsNamedKind e.object k →
        Gives accesses scope depth (object_type p) (w, suc steps) k (w, steps) }
    ensures parts { (accesses : Accesses S) (scope : List Seg) (depth : ℕ) (x y : Tree) (w : State S) (steps : ℕ)
        (v r : Value) (i k : ℕ) (after : State S × ℕ) → Indexes accesses scope depth x y (w, steps) v i after →
        HasPart after.0 v i r → IsNumbered r k →
        Gives accesses scope depth (object_type (inner (part_read x y))) (w, suc (suc (suc steps))) k after }
    ensures nothing_yet { (accesses : Accesses S) (scope : List Seg) (depth : ℕ) (p : Part) (w : State S) (steps : ℕ)
        (s : Slot) → NamesTarget scope w p (targets.Slot s) → SlotIsEmpty w s →
        Gives accesses scope depth (object_type p) (w, suc steps) 0 (w, steps) }
    ensures debug { (accesses : Accesses S) (scope : List Seg) (depth : ℕ) (w : State S) (steps : ℕ) →
        Gives accesses scope depth (object_type (inner (alone opcodes.Debug))) (w, suc steps) 16 (w, steps) }
{}

/// CondRefOf of a name that is found puts a reference to its declaration into its target and gives Ones; where none is
/// found it stores nothing and gives Zero. A name that is refused for another reason, as one that leads above the
/// root, is refused here, too. Of a local or an argument it does the same by whether it holds a value. Where its
/// target doesn't take the reference, as a field doesn't, it is refused so. What it refers to isn't evaluated, and it
/// changes nothing but its target. One that stores in either case, one that gives One, and one that is done where its
/// target refuses, are refused by this.
pub fn a_conditional_reference_tells_what_is_found<S>()
    ensures name_found { (accesses : Accesses S) (scope : List Seg) (depth : ℕ) (w : State S) (steps : ℕ) (q : Part)
        (n : Name) (path : List Seg) (e : Entry) → found w.names.map scope n ≡ Ok (path, e) →
        PutsReference accesses scope depth (conditional (name n) q) (w, steps) q (reference.Name e.number) }
    ensures no_name { (accesses : Accesses S) (scope : List Seg) (depth : ℕ) (w : State S) (steps : ℕ) (q : Part)
        (n : Name) → found w.names.map scope n ≡ Err (refusal.Namespace NotFound) →
        Gives accesses scope depth (conditional (name n) q) (w, suc steps) 0 (w, steps) }
    ensures no_path { (accesses : Accesses S) (scope : List Seg) (depth : ℕ) (w : State S) (steps : ℕ) (q : Part)
        (n : Name) (e : Refusal) → found w.names.map scope n ≡ Err e → e ≢ refusal.Namespace NotFound →
        IsRefused accesses scope depth (conditional (name n) q) (w, suc steps) e (w, steps) }
    ensures slot_with_value { (accesses : Accesses S) (scope : List Seg) (depth : ℕ) (w : State S) (steps : ℕ) (q : Part)
        (op : Opcode) (s : Slot) (v : Value) → NamesSlot op s → (h : SlotHolds w s v) →
        IsNumberedLast w h.frame h.last → PutsReference accesses scope depth (conditional (inner (alone op)) q)
        (w, steps) q (reference.Slot s h.frame.number) }
    ensures empty_slot { (accesses : Accesses S) (scope : List Seg) (depth : ℕ) (w : State S) (steps : ℕ) (q : Part)
        (op : Opcode) (s : Slot) → NamesSlot op s → (h : SlotIsEmpty w s) → IsNumberedLast w h.frame h.last →
        Gives accesses scope depth (conditional (inner (alone op)) q) (w, suc steps) 0 (w, steps) }
{}

/// CondRefOf of Debug, a local, an argument, a RefOf, a DerefOf or an Index finds what this names first. Where that has
/// a reference (`each_target_but_debug_has_a_reference`), it puts it into its target and gives Ones; but where the
/// reference is one to a slot or to an element that holds no value yet, it stores nothing and gives Zero. An element
/// that is a name holds one, whatever this finds. Debug, itself or behind a RefOf, is refused as `WrongType`, and where
/// no target is found, CondRefOf is refused so. What the reference refers to isn't read. One that gives Zero of each
/// element, and one that refers to an element that holds nothing, are refused by this.
pub fn a_conditional_reference_finds_what_a_term_names<S>()
    ensures with_value { (accesses : Accesses S) (scope : List Seg) (depth : ℕ) (u : Tree) (w : State S) (steps : ℕ)
        (q : Part) (t : StoreTarget) (after : State S × ℕ) →
        NamesAt accesses scope depth (w, steps) (inner u) t after → (r : Reference) → RefersTo after.0 t r →
        IsReferable after.0 r →
        PutsReferenceAfter accesses scope depth (conditional (inner u) q) (w, steps) after q r }
    ensures empty { (accesses : Accesses S) (scope : List Seg) (depth : ℕ) (u : Tree) (w : State S) (steps : ℕ)
        (q : Part) (t : StoreTarget) (after : State S × ℕ) →
        NamesAt accesses scope depth (w, steps) (inner u) t after → (r : Reference) → RefersTo after.0 t r →
        IsEmpty after.0 r → Gives accesses scope depth (conditional (inner u) q) (w, suc steps) 0 after }
    ensures debug { (accesses : Accesses S) (scope : List Seg) (depth : ℕ) (u : Tree) (w : State S) (steps : ℕ)
        (q : Part) (after : State S × ℕ) →
        NamesAt accesses scope depth (w, steps) (inner u) targets.Nowhere after → IsRefused accesses scope depth
        (conditional (inner u) q) (w, suc steps) (refusal.Value WrongType) after }
    ensures unnamed { (accesses : Accesses S) (scope : List Seg) (depth : ℕ) (u : Tree) (w : State S) (steps : ℕ)
        (q : Part) (e : Refusal) (after : State S × ℕ) →
        NamesNone accesses scope depth (w, steps) (inner u) e after →
        IsRefused accesses scope depth (conditional (inner u) q) (w, suc steps) e after }
{}
