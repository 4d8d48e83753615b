//! What tests of values tell.
ghost use Rattle.std.specs.Prelude.{◌≡◌, ◌⊎◌, ◌<◌, ◌≤◌, ◌-◌, ◌^◌, ℕ, suc, List, length, Err, true, false};
ghost use Rattle.std.specs.declared.cmp.Ordering.{Ordering};
ghost use Rattle.ar_space.specs.Accesses.{Accesses};
ghost use Rattle.ar_space.specs.declared.integer_width.IntegerWidth.{IntegerWidth};
ghost use Rattle.ar_space.specs.declared.refusal.Refusal.{Refusal};
ghost use Rattle.ar_space.specs.declared.refusal.Refusal.TheVariants as refusal;
ghost use Rattle.ar_space.specs.declared.refusal.ValueFault.TheVariants.{WrongType};
ghost use Rattle.ar_space.specs.declared.refusal.EvaluationFault.TheVariants.{IndexLimit};
ghost use Rattle.aml_path.specs.declared.segment.Seg.{Seg};
ghost use Rattle.aml_grammar.specs.Tree.{Tree};
ghost use Rattle.aml_grammar.specs.declared.opcode.Opcode.{Opcode};
ghost use Rattle.aml_grammar.specs.declared.opcode.Opcode.TheVariants as opcodes;
ghost use Rattle.aml_objects.specs.Contents.{Content};
ghost use Rattle.aml_objects.specs.declared.object.Element.{Element};
ghost use Rattle.aml_objects.specs.declared.value.Value.{Value};
ghost use Rattle.aml_convert.specs.Conversions.{compared};
ghost use Rattle.aml_convert.specs.Integers.{bits_of};
ghost use Rattle.aml_convert.specs.Matching.{is_match};
ghost use Rattle.aml_convert.specs.declared.matching.MatchOperator.{MatchOperator};
ghost use Rattle.aml_world.specs.state.State.{State};
ghost use Rattle.aml_laws.specs.OperatorTerms.{Gives, IsRefused};
ghost use Rattle.aml_laws.specs.TestTerms.{TellsOfOne, TellsOfTwo, ComparesIntegers, Asks, ComparesValues};
ghost use Rattle.aml_laws.specs.MatchedTerms.{match, IsNumberOf, GivesOperands, Matches, MeetsBoth, IsNoPackage};
ghost use Rattle.aml_laws.specs.StoredParts.{IsNoData};

/// LAnd is True where both of its integers are not 0, LOr where one of them isn't, LNot where its integer is 0: and
/// else they are False. Both operands are evaluated in any case, from left to right.
pub fn logical_operators_tell_of_truth<S>()
    ensures both { TellsOfTwo S opcodes.LAnd (λ a b. (0 < a) × (0 < b)) }
    ensures any { TellsOfTwo S opcodes.LOr (λ a b. (0 < a) ⊎ (0 < b)) }
    ensures other { TellsOfOne S opcodes.LNot (λ a. a ≡ 0) }
{}

/// LEqual, LGreater and LLess of an integer are True where it is equal to, greater than or less than the integer that
/// the second operand converts to, and else False. Of any values they tell the order of the values, and where these
/// have none they are refused so. Each evaluates its operands from left to right, and changes nothing. Comparisons
/// that are exchanged, or whose operands are, are refused by this.
pub fn terms_of_comparisons_tell_the_order<S>()
    ensures equal { ComparesIntegers S opcodes.LEqual (λ a b. a ≡ b) }
    ensures greater { ComparesIntegers S opcodes.LGreater (λ a b. b < a) }
    ensures less { ComparesIntegers S opcodes.LLess (λ a b. a < b) }
    ensures values { (op : Opcode) (wanted : Ordering) → Asks op wanted → ComparesValues S op wanted }
{}

/// Match, in the wide profile, of a package whose elements hold integers or nothing, gives the index of the first
/// element, from the start index on, that holds an integer which is so to both integers as their operators ask: MTR
/// any, MEQ equal, MLE less or equal, MLT less, MGE greater or equal, MGT greater, which are the numbers from 0 to 5.
/// A name that is an element is searched for from the scope that stands beside it. What is uninitialized and a name
/// that isn't found hold nothing, and match under no operator. Where no element matches, the term gives Ones; a start
/// index past the end is refused, and so is an operator of any other number. The element stands on the left of the
/// operator: a search that has it on the right, and one that finds an element that holds nothing, are refused by
/// this.
pub fn a_match_finds_the_first_element<S>()
    ensures first { (accesses : Accesses S) (scope : List Seg) (depth : ℕ) (p x y i : Tree) (w : State S) (steps : ℕ)
        (es : List Element) (a b start : ℕ) (after : State S × ℕ) →
        Matches accesses scope depth p x y i (w, steps) es a b start after → (j m : ℕ) (k l : MatchOperator) →
        IsNumberOf j k → IsNumberOf m l → (q : ℕ) → start ≤ q → MeetsBoth after.0 k l es a b q → ((e : ℕ) → start ≤ e →
        e < q → MeetsBoth after.0 k l es a b e → ⊥) → Gives accesses scope depth (match p j x m y i) (w, suc steps) q after }
    ensures none { (accesses : Accesses S) (scope : List Seg) (depth : ℕ) (p x y i : Tree) (w : State S) (steps : ℕ)
        (es : List Element) (a b start : ℕ) (after : State S × ℕ) →
        Matches accesses scope depth p x y i (w, steps) es a b start after → (j m : ℕ) (k l : MatchOperator) →
        IsNumberOf j k → IsNumberOf m l → start < length es → ((e : ℕ) → start ≤ e → e < length es →
        MeetsBoth after.0 k l es a b e → ⊥) →
        Gives accesses scope depth (match p j x m y i) (w, suc steps) (2 ^ bits_of after.0.width - 1) after }
    ensures past { (accesses : Accesses S) (scope : List Seg) (depth : ℕ) (p x y i : Tree) (w : State S) (steps : ℕ)
        (es : List Element) (a b start : ℕ) (after : State S × ℕ) →
        Matches accesses scope depth p x y i (w, steps) es a b start after → (j m : ℕ) (k l : MatchOperator) →
        IsNumberOf j k → IsNumberOf m l → length es ≤ start → IsRefused accesses scope depth
        (match p j x m y i) (w, suc steps) (refusal.Evaluation IndexLimit) after }
    ensures no_first_operator { (accesses : Accesses S) (scope : List Seg) (depth : ℕ) (p x y i : Tree) (w : State S)
        (steps : ℕ) (es : List Element) (a b start : ℕ) (after : State S × ℕ) →
        Matches accesses scope depth p x y i (w, steps) es a b start after → (j m : ℕ) → 5 < j → IsRefused accesses
        scope depth (match p j x m y i) (w, suc steps) (refusal.Value WrongType) after }
    ensures no_second_operator { (accesses : Accesses S) (scope : List Seg) (depth : ℕ) (p x y i : Tree) (w : State S)
        (steps : ℕ) (es : List Element) (a b start : ℕ) (after : State S × ℕ) →
        Matches accesses scope depth p x y i (w, steps) es a b start after → (j m : ℕ) (k : MatchOperator) →
        IsNumberOf j k → 5 < m → IsRefused accesses scope depth (match p j x m y i) (w, suc steps)
        (refusal.Value WrongType) after }
{}

/// In the wide profile Match of what is no package, and one with an object that is neither an integer nor a string
/// nor a buffer, is refused, once all its operands are evaluated (ACPI 6.5, 19.6: Match). A package as an object that
/// elements are compared with is refused by this.
pub fn a_match_asks_for_a_package_and_for_data<S>()
    ensures { (accesses : Accesses S) (scope : List Seg) (depth : ℕ) (p x y i : Tree) (w : State S) (steps : ℕ)
        (c u v t : Value) (after : State S × ℕ) →
        GivesOperands accesses scope depth p x y i (w, steps) c u v t after → (j m : ℕ) →
        IsNoPackage c ⊎ (IsNoData u ⊎ IsNoData v) → IsRefused accesses scope depth (match p j x m y i)
        (w, suc steps) (refusal.Value WrongType) after }
{}

/// What an element holds that has no order with the object of a test, since it doesn't convert to the object's type,
/// meets no test but MTR, which whatever an element holds meets (ACPI 6.5, 19.6: Match); an element that holds
/// nothing meets none at all (`a_match_finds_the_first_element`). One that matches all the same is refused by this.
pub fn what_does_not_convert_matches_no_object()
    ensures other { (width : IntegerWidth) (j : ℕ) (k : MatchOperator) (object element : Content) (e : Refusal) →
        IsNumberOf j k → 0 < j → compared width object element ≡ Err e → is_match width k object element ≡ false }
    ensures mtr { (width : IntegerWidth) (k : MatchOperator) (object element : Content) → IsNumberOf 0 k →
        is_match width k object element ≡ true }
{}
