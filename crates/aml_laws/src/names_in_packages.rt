//! Names that stand in packages, where they are used.
ghost use Rattle.std.specs.Prelude.{◌≡◌, ◌<◌, ◌≤◌, ◌+◌, ◌-◌, ◌%◌, ◌^◌, ◌∷◌, [], ℕ, suc, List, take, slice_get, Some, Ok, Err};
ghost use Rattle.ar_space.specs.Accesses.{Accesses};
ghost use Rattle.ar_space.specs.declared.refusal.Refusal.{Refusal};
ghost use Rattle.aml_path.specs.declared.segment.Seg.{Seg};
ghost use Rattle.aml_path.specs.Paths.{Name};
ghost use Rattle.aml_grammar.specs.Tree.{Tree, null, inner};
ghost use Rattle.aml_grammar.specs.declared.opcode.Opcode.TheVariants as opcodes;
ghost use Rattle.aml_objects.specs.declared.entry.Entry.{Entry};
ghost use Rattle.aml_objects.specs.declared.entry.Field.{Field};
ghost use Rattle.aml_objects.specs.declared.entry.NamedObject.TheVariants as named;
ghost use Rattle.aml_objects.specs.declared.object.Element.TheVariants as element;
ghost use Rattle.aml_objects.specs.declared.object.Object.TheVariants as object;
ghost use Rattle.aml_objects.specs.declared.value.Reference.TheVariants as reference;
ghost use Rattle.aml_objects.specs.declared.value.Value.{Value};
ghost use Rattle.aml_objects.specs.declared.value.Value.TheVariants as value;
ghost use Rattle.aml_convert.specs.Integers.{bits_of, bytes_of};
ghost use Rattle.aml_convert.specs.declared.matching.MatchOperator.{MatchOperator};
ghost use Rattle.aml_namespace.specs.Search.{found};
ghost use Rattle.aml_world.specs.state.Given.{Given, Package, none, more};
ghost use Rattle.aml_world.specs.state.State.{State};
ghost use Rattle.aml_meaning.specs.Exporting.{exported};
ghost use Rattle.aml_laws.specs.NamesCounted.{CountsName, CountsNoName};
ghost use Rattle.aml_laws.specs.FieldNames.{NamesField, bits_read_at};
ghost use Rattle.aml_laws.specs.HandedOut.{IsHandedOut, IsKeptBack};
ghost use Rattle.aml_laws.specs.IntegersOfValues.{lowest_first};
ghost use Rattle.aml_laws.specs.MatchedNames.{MatchesName};
ghost use Rattle.aml_laws.specs.MatchedTerms.{match, IsNumberOf, IsMet};
ghost use Rattle.aml_laws.specs.NamesInPackages.{HoldsName, NameIsHandedOut};
ghost use Rattle.aml_laws.specs.NamesUsed.{IsGivenBy};
ghost use Rattle.aml_laws.specs.OperatorTerms.{two_to, GivesValue, Gives, IsRefused};
ghost use Rattle.aml_laws.specs.ReferringTerms.{Indexes, part_read, object_type, IsNumbered};
ghost use Rattle.aml_laws.specs.StoredParts.{HoldsNothing};

/// A name in a package is searched for when it is used, from the scope where the package was made. DerefOf of the
/// element gives the data that the name finds, reads the field that it finds, where its bits fit an integer, and gives
/// a reference to anything else; where the search is refused, so is DerefOf. ObjectType of the element tells the type
/// of the data. The law excludes a name that is searched for from the root.
pub fn a_name_in_a_package_is_searched_where_it_is_used<S>()
    ensures held { (accesses : Accesses S) (scope : List Seg) (depth : ℕ) (x y : Tree) (w : State S) (steps o i : ℕ)
        (after : State S × ℕ) → Indexes accesses scope depth x y (w, steps) (value.Package o) i after → (n : Name)
        (home : List Seg) → HoldsName after.0 o i n home → (path : List Seg) (e : Entry) (v r : Value) →
        found after.0.names.map home n ≡ Ok (path, e) → e.object ≡ named.Data v → IsGivenBy e.number v r →
        GivesValue accesses scope depth (part_read x y) (w, suc (suc steps)) r after }
    ensures no_data { (accesses : Accesses S) (scope : List Seg) (depth : ℕ) (x y : Tree) (w : State S)
        (steps o i : ℕ) (after : State S × ℕ) → Indexes accesses scope depth x y (w, steps) (value.Package o) i after →
        (n : Name) (home : List Seg) → HoldsName after.0 o i n home → (path : List Seg) (e : Entry) →
        found after.0.names.map home n ≡ Ok (path, e) → HoldsNothing e.object → GivesValue accesses scope depth
        (part_read x y) (w, suc (suc steps)) (value.Reference (reference.Name e.number)) after }
    ensures field { (accesses : Accesses S) (scope : List Seg) (depth : ℕ) (x y : Tree) (w : State S) (steps o i : ℕ)
        (after : State S × ℕ) → Indexes accesses scope depth x y (w, steps) (value.Package o) i after → (n : Name)
        (home : List Seg) → HoldsName after.0 o i n home → (f : Field) (bits b : ℕ) (bytes : List ℕ)
        (end : State S × ℕ) → NamesField after.0 home n f bits →
        bits_read_at accesses depth f after ≡ (Ok (b ∷ bytes), end) → bits ≤ bits_of end.0.width →
        Gives accesses scope depth (part_read x y) (w, suc (suc steps))
        (lowest_first (take (bytes_of end.0.width) (b ∷ bytes))) end }
    ensures unfound { (accesses : Accesses S) (scope : List Seg) (depth : ℕ) (x y : Tree) (w : State S)
        (steps o i : ℕ) (after : State S × ℕ) → Indexes accesses scope depth x y (w, steps) (value.Package o) i after →
        (n : Name) (home : List Seg) → HoldsName after.0 o i n home → (e : Refusal) →
        found after.0.names.map home n ≡ Err e →
        IsRefused accesses scope depth (part_read x y) (w, suc (suc steps)) e after }
    ensures typed { (accesses : Accesses S) (scope : List Seg) (depth : ℕ) (x y : Tree) (w : State S) (steps o i : ℕ)
        (after : State S × ℕ) → Indexes accesses scope depth x y (w, steps) (value.Package o) i after → (n : Name)
        (home : List Seg) → HoldsName after.0 o i n home → (path : List Seg) (e : Entry) (v : Value) (k : ℕ) →
        found after.0.names.map home n ≡ Ok (path, e) → e.object ≡ named.Data v → IsNumbered v k →
        Gives accesses scope depth (object_type (inner (two_to opcodes.Index x y null))) (w, suc (suc steps)) k
        after }
{}

/// Where an answer hands out a package whose only element is a name, the name is searched for from the scope where the
/// package was made, and is handed out as the integer, the string or the buffer that it finds. Where it finds a
/// reference, or what holds neither data nor a field, it is handed out as the path of what it finds; where nothing is
/// found, as the path that it would have. This costs the step of an element. The law excludes a name that is handed out
/// as nothing, as the link of an entry of a routing table.
pub fn a_name_in_a_package_is_handed_out_as_what_it_finds<S>()
    ensures { (accesses : Accesses S) (w : State S) (steps o : ℕ) (n : Name) (home : List Seg) (g : Given) →
        slice_get w.objects o ≡ Some (object.Package (element.Name n home ∷ [])) → NameIsHandedOut w n home g →
        exported accesses (value.Package o) (w, suc steps) ≡ (Ok (Package (more g none)), (w, steps)) }
{}

/// An answer hands out a package element by element, from the first on, each of which costs a step. An element that is
/// a name is searched for then, from the scope where the package was made, and is handed out as what it finds: a
/// package with all its elements, which nest at most 64 deep, also through names; a field as its bits, read as in a
/// call of its own, which are an integer where they are no more than an integer has, and else bytes; other data as it
/// is; and anything else as its path. The first element that can't be handed out refuses the answer: no step is left
/// for it, a package nests too deep, a field can't be read, or a name leads above the root. The law excludes a package
/// that a name finds and that is handed out as its path or as nothing, and a field that is handed out as 0.
pub fn a_package_is_handed_out_with_what_its_names_find<S>()
    ensures handed_out { (accesses : Accesses S) (v : Value) (s : State S × ℕ) (g : Given) (end : State S × ℕ) →
        IsHandedOut accesses 64 v s g end → exported accesses v s ≡ (Ok g, end) }
    ensures kept_back { (accesses : Accesses S) (v : Value) (s : State S × ℕ) (e : Refusal) (end : State S × ℕ) →
        IsKeptBack accesses 64 v s e end → exported accesses v s ≡ (Err e, end) }
{}

/// Increment and Decrement of an element of a package that is a name search for it from the scope where the package was
/// made, and read the integer of what it finds: of its data, or of the bits of the field, which is read once. The next
/// integer, or the one before it, is their value, and takes the place of the name in the element; the field isn't
/// written, and what the name finds stays (ACPI 6.5, 19.6: Decrement, Increment). Where the name finds no integer, as
/// one that holds no value yet, they are refused as `WrongType`. Where it finds nothing, where what it finds doesn't
/// convert, and where the field can't be read, they are refused for that. The name stays in each of these cases. The
/// law excludes an Increment that writes the field, and one that leaves the name.
pub fn a_name_in_a_package_is_counted_and_replaced<S>()
    ensures up { CountsName S opcodes.Increment (λ width a m. m ≡ (a + 1) % 2 ^ bits_of width) }
    ensures down { CountsName S opcodes.Decrement (λ width a m.
        (m < 2 ^ bits_of width) × ((m + 1) % 2 ^ bits_of width ≡ a % 2 ^ bits_of width)) }
    ensures up_refused { CountsNoName S opcodes.Increment }
    ensures down_refused { CountsNoName S opcodes.Decrement }
{}

/// Match compares an element that is a name by the integer that the name finds, searched for from the scope where the
/// package was made: the element is found where this integer meets both tests, and else not. The law excludes a name
/// that matches nothing, and one that is searched for from the root.
pub fn a_match_compares_what_a_name_finds<S>()
    ensures met { (accesses : Accesses S) (scope : List Seg) (depth : ℕ) (p x y i : Tree) (w : State S) (steps : ℕ)
        (n : Name) (home : List Seg) (a b : ℕ) (after : State S × ℕ) →
        MatchesName accesses scope depth p x y i (w, steps) n home a b after → (path : List Seg) (e : Entry) (q : ℕ) →
        found after.0.names.map home n ≡ Ok (path, e) → e.object ≡ named.Data (value.Integer q) → (j m : ℕ)
        (k l : MatchOperator) → IsNumberOf j k → IsNumberOf m l → IsMet k q a → IsMet l q b →
        Gives accesses scope depth (match p j x m y i) (w, suc steps) 0 after }
    ensures unmet { (accesses : Accesses S) (scope : List Seg) (depth : ℕ) (p x y i : Tree) (w : State S) (steps : ℕ)
        (n : Name) (home : List Seg) (a b : ℕ) (after : State S × ℕ) →
        MatchesName accesses scope depth p x y i (w, steps) n home a b after → (path : List Seg) (e : Entry) (q : ℕ) →
        found after.0.names.map home n ≡ Ok (path, e) → e.object ≡ named.Data (value.Integer q) → (j m : ℕ)
        (k l : MatchOperator) → IsNumberOf j k → IsNumberOf m l → (IsMet k q a × IsMet l q b → ⊥) →
        Gives accesses scope depth (match p j x m y i) (w, suc steps) (2 ^ bits_of after.0.width - 1) after }
{}
