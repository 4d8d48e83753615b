//! Data that is handed in and handed out again.
ghost use Rattle.std.specs.Prelude.{◌≡◌, ◌⊎◌, ◌≤◌, ◌<◌, ◌++◌, ◌+◌, ◌%◌, ◌^◌, [], ℕ, List, length, Some, Ok, Err};
ghost use Rattle.std.specs.FinMap.{get};
ghost use Rattle.ar_space.specs.Accesses.{Accesses};
ghost use Rattle.ar_space.specs.declared.refusal.Refusal.{Refusal};
ghost use Rattle.ar_space.specs.declared.refusal.Refusal.TheVariants as refusal;
ghost use Rattle.ar_space.specs.declared.refusal.EvaluationFault.TheVariants.{ArityChanged, ObjectLimit};
ghost use Rattle.ar_space.specs.declared.refusal.ValueFault.TheVariants.{WrongType};
ghost use Rattle.aml_path.specs.declared.segment.Seg.{Seg};
ghost use Rattle.aml_objects.specs.Objects.{Objects};
ghost use Rattle.aml_objects.specs.declared.entry.Entry.{Entry};
ghost use Rattle.aml_objects.specs.declared.value.Reference.TheVariants as reference;
ghost use Rattle.aml_objects.specs.declared.value.Value.{Value};
ghost use Rattle.aml_objects.specs.declared.value.Value.TheVariants as value;
ghost use Rattle.aml_namespace.specs.Namespace.{Map};
ghost use Rattle.aml_namespace.specs.Numbering.{Numbered};
ghost use Rattle.aml_namespace.specs.Search.{found};
ghost use Rattle.aml_convert.specs.Integers.{bits_of};
ghost use Rattle.aml_world.specs.state.Given.{Given, Integer, Named, Reference};
ghost use Rattle.aml_world.specs.state.State.{State};
ghost use Rattle.aml_world.specs.state.Importing.{imported};
ghost use Rattle.aml_meaning.specs.Exporting.{exported};
ghost use Rattle.aml_meaning.specs.Calling.{answered};
ghost use Rattle.aml_meaning.specs.Calls.{method_value};
ghost use Rattle.aml_meaning.specs.Meaning.{meaning};
ghost use Rattle.aml_laws.specs.CallTerms.{method_entry, HandedInTurn};
ghost use Rattle.aml_laws.specs.HandedBack.{ComesBack, elements_of};
ghost use Rattle.aml_laws.specs.HandedIn.{NestsWithin, HasPaths, MayBeHandedIn, FirstRefusedPart, with_integers_cut};
ghost use Rattle.aml_laws.specs.NamesFound.{LeadsTo};
ghost use Rattle.aml_laws.specs.NamesWritten.{from_root};

/// What is handed in is handed out as it was, to its last element: integers that fit the width, texts, bytes, packages
/// of these, and paths at which a name stands that is no alias. It costs a step for each element, and changes nothing.
/// The numbers of declarations are apart, as they are in each world that evaluations make of the predefined names.
/// Elements in another order or left out, a text that is handed out as bytes, and a reference that finds another name
/// are refused by this.
#[tactic(auto, using(crate::proofs::HandedBack::handed_back))]
pub fn what_is_handed_in_is_handed_out_as_it_was<S>()
    ensures same { (accesses : Accesses S) (g : Given) (v : Value) (w after : State S) (steps rest : ℕ) →
        Numbered w.names → ComesBack w.width w.names.map g → imported g w ≡ (Ok v, after) →
        steps ≡ elements_of g + rest → exported accesses v (after, steps) ≡ (Ok g, (after, rest)) }
{}

/// An integer n is handed in as n mod 2^width, so one that doesn't fit keeps its lowest bits; nothing changes. The same
/// holds at any depth of packages: to hand data in is to hand in the same data with its integers cut so. The law
/// excludes a definition by which an integer that doesn't fit becomes 0.
pub fn integers_are_handed_in_modulo_two_to_the_width<S>()
    ensures alone { (w : State S) (n : ℕ) →
        imported (Integer n) w ≡ (Ok (value.Integer (n % 2 ^ bits_of w.width)), w) }
    ensures inside { (w : State S) (g : Given) → imported g w ≡ imported (with_integers_cut w.width g) w }
{}

/// What is within the limits is handed in: texts and bytes of at most 1,048,576 bytes, packages of at most 65,535
/// elements that nest at most 64 deep, and paths at which a name stands, or an alias of one, where there is room for an
/// object for each text, each list of bytes and each package. That many are made and no more, and nothing else changes.
/// Which value it is `what_is_handed_in_is_handed_out_as_it_was` says. One that refuses all packages is refused by
/// this.
#[tactic(auto, using(crate::proofs::HandedIn::handed_in))]
pub fn what_is_within_the_limits_is_handed_in<S>()
    ensures { (w : State S) (count : ℕ) (g : Given) → MayBeHandedIn w.names.map 64 count g →
        length w.objects + count ≤ 262144 → (v : Value) × ((made : Objects) ×
        ((imported g w ≡ (Ok v, record w { objects = w.objects ++ made })) × (length made ≡ count))) }
{}

/// Whatever is handed in and isn't refused, and whatever an object answers, nests at most 64 packages deep, wherever in
/// a package the next one stands and whether a name leads to it. An answer that goes on through names is refused by
/// this.
#[tactic(auto, using(crate::proofs::NestedData::handed_in_nests, crate::proofs::NestedData::answer_nests))]
pub fn data_nests_at_most_64_deep<S>()
    ensures handed_in { (g : Given) (w : State S) (v : Value) → (imported g w).0 ≡ Ok v → NestsWithin 64 g }
    ensures answers { (accesses : Accesses S) (path : List Seg) (arguments : List Given) (steps : ℕ) (w : State S)
        (g : Given) → (answered accesses path arguments steps w).0 ≡ Ok g → NestsWithin 64 g }
{}

/// A reference without a path, as one to a local or to a byte is handed out, can't be handed in: it is refused as one
/// of the wrong type, and nothing changes. Whatever is handed in and isn't refused has none, wherever in a package it
/// would stand. One that is handed in as nothing is refused by this.
pub fn a_reference_without_a_path_is_not_handed_in<S>()
    ensures alone { (w : State S) → imported Reference w ≡ (Err (refusal.Value WrongType), w) }
    ensures inside { (g : Given) (w : State S) (v : Value) → (imported g w).0 ≡ Ok v → HasPaths g }
{}

/// What a control method answers to a caller is what it gives, called with the arguments that are handed in, in their
/// order: each is taken in before the next one, and the first stands first. Another number of arguments than the
/// control method takes is refused as `ArityChanged`. Arguments that are exchanged on their way in are refused by
/// this.
pub fn arguments_are_handed_in_in_their_order<S>()
    ensures answered { (accesses : Accesses S) (p path : List Seg) (gs : List Given) (w : State S) (number flags : ℕ)
        (body : List ℕ) (steps : ℕ) → found w.names.map [] (from_root p) ≡ Ok (path, method_entry number flags body) →
        (vs : List Value) (inside : State S) (v : Value) (after end : State S × ℕ) (g : Given) →
        flags % 8 ≡ length gs → HandedInTurn gs w vs inside →
        method_value (meaning accesses) 0 path body vs (inside, steps) ≡ (Ok v, after) →
        exported accesses v after ≡ (Ok g, end) → (answered accesses p gs steps w).0 ≡ Ok g }
    ensures other_number { (accesses : Accesses S) (p path : List Seg) (gs : List Given) (w : State S)
        (number flags : ℕ) (body : List ℕ) (steps : ℕ) →
        found w.names.map [] (from_root p) ≡ Ok (path, method_entry number flags body) →
        (flags % 8 ≡ length gs → ⊥) →
        (answered accesses p gs steps w).0 ≡ Err (refusal.Evaluation ArityChanged) }
{}

/// The path of a name is handed in as a reference to that name, the path of an alias as one to what the alias leads to.
/// The path of a name that isn't found is refused as the search for it is. Nothing changes in either case. A path that
/// is handed in as nothing, and the path of an alias that becomes a reference to the alias, are refused by this.
pub fn a_path_is_handed_in_as_a_reference_to_what_it_finds<S>()
    ensures there { (w : State S) (path at : List Seg) (entry other : Entry) → get w.names.map path ≡ Some entry →
        LeadsTo w.names.map path entry (Ok (at, other)) →
        imported (Named path) w ≡ (Ok (value.Reference (reference.Name other.number)), w) }
    ensures nowhere { (w : State S) (path : List Seg) (e : Refusal) → found w.names.map [] (from_root path) ≡ Err e →
        imported (Named path) w ≡ (Err e, w) }
{}

/// Data that is handed in is refused by its first part that can't be handed in, from left to right and at any depth of
/// packages, if there is room for the objects of the parts before it; else as `ObjectLimit`, since one of these refuses
/// it first. A text or bytes of more than 1,048,576 bytes, a package inside 64 others, and a package of more than
/// 65,535 elements are refused as `ObjectLimit`; the last one only after all its elements. A reference without a path is
/// refused as `WrongType`, and the path of a name that isn't found as the search for it. Nothing changes. Data without
/// such a part may be handed in. Another refusal of such a part, and one by a later part, also where an earlier one has
/// no room, are refused by this.
#[tactic(auto, using(crate::proofs::PathsHandedIn::refused_by_its_part, crate::proofs::PartsWithoutRoom::refused_without_room))]
pub fn the_first_part_that_cannot_be_handed_in_refuses_it<S>()
    ensures room { (w : State S) (count : ℕ) (g : Given) (e : Refusal) →
        FirstRefusedPart w.names.map e 64 count g → length w.objects + count ≤ 262144 → imported g w ≡ (Err e, w) }
    ensures no_room { (w : State S) (count : ℕ) (g : Given) (e : Refusal) →
        FirstRefusedPart w.names.map e 64 count g → length w.objects ≤ 262144 → 262144 < length w.objects + count →
        imported g w ≡ (Err (refusal.Evaluation ObjectLimit), w) }
    ensures either { (names : Map) (g : Given) → ((count : ℕ) × MayBeHandedIn names 64 count g)
        ⊎ ((e : Refusal) × (count : ℕ) × FirstRefusedPart names e 64 count g) }
{}
