//! Which elements of a package a Match finds.
ghost use Rattle.std.specs.Prelude.{◌≡◌, ◌⊎◌, ◌<◌, ◌≤◌, ◌-◌, ◌^◌, ℕ, suc, List, Err};
ghost use Rattle.ar_space.specs.Accesses.{Accesses};
ghost use Rattle.ar_space.specs.declared.refusal.Refusal.{Refusal};
ghost use Rattle.ar_space.specs.declared.refusal.Refusal.TheVariants as refusal;
ghost use Rattle.ar_space.specs.declared.refusal.EvaluationFault.TheVariants.{IndexLimit};
ghost use Rattle.ar_space.specs.declared.refusal.ValueFault.TheVariants.{WrongType};
ghost use Rattle.aml_path.specs.declared.segment.Seg.{Seg};
ghost use Rattle.aml_grammar.specs.Tree.{Tree};
ghost use Rattle.aml_objects.specs.Contents.{Content};
ghost use Rattle.aml_objects.specs.declared.object.Element.{Element};
ghost use Rattle.aml_objects.specs.declared.value.Value.{Value};
ghost use Rattle.aml_objects.specs.declared.value.Value.TheVariants as value;
ghost use Rattle.aml_convert.specs.Integers.{bits_of};
ghost use Rattle.aml_convert.specs.declared.matching.MatchOperator.{MatchOperator};
ghost use Rattle.aml_world.specs.state.Readings.{integer_in};
ghost use Rattle.aml_world.specs.state.State.{State};
ghost use Rattle.aml_laws.specs.OperatorTerms.{Gives, IsRefused};
ghost use Rattle.aml_laws.specs.MatchedTerms.{match, IsNumberOf, GivesOperands};
ghost use Rattle.aml_laws.specs.MatchedValues.{Searches, IsCompared, MeetsTests, ElementHolds, ElementRefuses, ElementStands, ArePassed};

/// Match, in the wide profile, of a package of any values and names gives the index of the first element, from the
/// start index on, that meets both tests (ACPI 6.5, 19.6: Match). An element stands on the left of the operator, and
/// the object of the test, an integer, a string or a buffer, on the right. The element meets the test by the order of
/// the two, the element taken as a value of the object's type; MTR needs no order. A name that is an element is
/// searched for from the scope beside it. It stands for the value that the name holds, for the bits of a field, which
/// is read then, and for no data where an object holds none. An element that holds nothing, and a name that isn't
/// found, are passed over, also under MTR. The elements are looked at in turn, and a field that one of them names is
/// read. Where no element matches, the term gives Ones. A start index past the end, one that is no integer, an operator
/// of a number above 5, and an element that can't be looked at, refuse it. The law excludes a Match that finds no
/// strings, one that compares a string with an integer by the type of the element, one that reads no fields, and one
/// that begins at 0 where its start index is no integer.
pub fn a_match_finds_values_of_any_type<S>()
    ensures first { (accesses : Accesses S) (scope : List Seg) (depth : ℕ) (p x y i : Tree) (w : State S) (steps : ℕ)
        (source count : ℕ) (u v : Value) (start : ℕ) (after : State S × ℕ) →
        Searches accesses scope depth p x y i (w, steps) source count u v start after → (j m : ℕ)
        (k l : MatchOperator) → IsNumberOf j k → IsNumberOf m l → (q : ℕ) (between : State S × ℕ) →
        ArePassed accesses depth k l u v source start after q between → q < count → (e : Element) (c : Content)
        (end : State S × ℕ) → ElementStands between.0 source q e → ElementHolds accesses depth between e c end →
        MeetsTests end.0 k l u v c → Gives accesses scope depth (match p j x m y i) (w, suc steps) q end }
    ensures none { (accesses : Accesses S) (scope : List Seg) (depth : ℕ) (p x y i : Tree) (w : State S) (steps : ℕ)
        (source count : ℕ) (u v : Value) (start : ℕ) (after : State S × ℕ) →
        Searches accesses scope depth p x y i (w, steps) source count u v start after → (j m : ℕ)
        (k l : MatchOperator) → IsNumberOf j k → IsNumberOf m l → start < count → (end : State S × ℕ) →
        ArePassed accesses depth k l u v source start after count end →
        Gives accesses scope depth (match p j x m y i) (w, suc steps) (2 ^ bits_of end.0.width - 1) end }
    ensures unread { (accesses : Accesses S) (scope : List Seg) (depth : ℕ) (p x y i : Tree) (w : State S)
        (steps : ℕ) (source count : ℕ) (u v : Value) (start : ℕ) (after : State S × ℕ) →
        Searches accesses scope depth p x y i (w, steps) source count u v start after → (j m : ℕ)
        (k l : MatchOperator) → IsNumberOf j k → IsNumberOf m l → (q : ℕ) (between : State S × ℕ) →
        ArePassed accesses depth k l u v source start after q between → q < count → (e : Element) (r : Refusal)
        (end : State S × ℕ) → ElementStands between.0 source q e → ElementRefuses accesses depth between e r end →
        IsRefused accesses scope depth (match p j x m y i) (w, suc steps) r end }
    ensures past { (accesses : Accesses S) (scope : List Seg) (depth : ℕ) (p x y i : Tree) (w : State S) (steps : ℕ)
        (source count : ℕ) (u v : Value) (start : ℕ) (after : State S × ℕ) →
        Searches accesses scope depth p x y i (w, steps) source count u v start after → (j m : ℕ)
        (k l : MatchOperator) → IsNumberOf j k → IsNumberOf m l → count ≤ start → IsRefused accesses scope depth
        (match p j x m y i) (w, suc steps) (refusal.Evaluation IndexLimit) after }
    ensures no_operator { (accesses : Accesses S) (scope : List Seg) (depth : ℕ) (p x y i : Tree) (w : State S)
        (steps : ℕ) (c u v t : Value) (after : State S × ℕ) →
        GivesOperands accesses scope depth p x y i (w, steps) c u v t after → (j m : ℕ) → (5 < j) ⊎ (5 < m) →
        IsRefused accesses scope depth (match p j x m y i) (w, suc steps) (refusal.Value WrongType) after }
    ensures no_start { (accesses : Accesses S) (scope : List Seg) (depth : ℕ) (p x y i : Tree) (w : State S)
        (steps source : ℕ) (u v t : Value) (after : State S × ℕ) →
        GivesOperands accesses scope depth p x y i (w, steps) (value.Package source) u v t after → (j m : ℕ)
        (k l : MatchOperator) → IsNumberOf j k → IsNumberOf m l → IsCompared u → IsCompared v → (e : Refusal) →
        integer_in t after.0 ≡ (Err e, after.0) →
        IsRefused accesses scope depth (match p j x m y i) (w, suc steps) e after }
{}
