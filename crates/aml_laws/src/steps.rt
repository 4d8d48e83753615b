//! How many steps an evaluation takes.
ghost use Rattle.std.specs.Prelude.{◌≡◌, ◌≤◌, ◌<◌, ◌+◌, ℕ, List};
ghost use Rattle.ar_space.specs.Accesses.{Accesses};
ghost use Rattle.aml_path.specs.declared.segment.Seg.{Seg};
ghost use Rattle.aml_grammar.specs.Tree.{Trees};
ghost use Rattle.aml_objects.specs.declared.value.Value.{Value};
ghost use Rattle.aml_world.specs.state.State.{State};
ghost use Rattle.aml_world.specs.state.Run.{Run};
ghost use Rattle.aml_world.specs.state.Given.{Given};
ghost use Rattle.aml_meaning.specs.declared.flow.Flow.{Flow};
ghost use Rattle.aml_meaning.specs.Tasks.{Task, in_turn};
ghost use Rattle.aml_meaning.specs.Calls.{invoked};
ghost use Rattle.aml_meaning.specs.Calling.{loaded, evaluated, answered};
ghost use Rattle.aml_meaning.specs.Evaluation.{rule};
ghost use Rattle.aml_meaning.specs.Meaning.{meaning, step_and_rule};
ghost use Rattle.aml_laws.specs.Counted.{terms_begun, without_counter, with_counter, outcome_without_counter};
ghost use Rattle.aml_laws.specs.Counted.{counted_meaning, begin_and_rule};
ghost use Rattle.aml_laws.specs.CountedEvaluations.{counted_loaded, counted_evaluated, counted_answered};
ghost use Rattle.aml_laws.specs.Parts.{SameUpTo};

/// Each term costs a step when it begins, and is then evaluated by its rule over what its parts mean; no evaluation
/// leaves more steps than it got, and a term that begins leaves fewer, however it ends. The rule asks for no part
/// with more steps than it began with. `terms_that_begin_are_counted` says how many terms begin at most.
#[tactic(auto, using(aml_meaning::proofs::Meanings::meaning_is, aml_meaning::proofs::Meanings::meaning_less, aml_meaning::proofs::Meanings::meaning_charged, crate::proofs::RuleByParts::rule_by_parts))]
pub fn no_more_terms_than_steps<S>()
    ensures costs { (accesses : Accesses S) (t : Task) (s : State S × ℕ) →
        meaning accesses t s ≡ step_and_rule accesses t s }
    ensures bounded { (accesses : Accesses S) (t : Task) (s : State S × ℕ) → (meaning accesses t s).1.1 ≤ s.1 }
    ensures paid { (accesses : Accesses S) (t : Task) (s : State S × ℕ) → 0 < s.1 → (meaning accesses t s).1.1 < s.1 }
    ensures parts { (accesses : Accesses S) (ev ew : Task → Run S Flow) (t : Task) (w : State S) (n : ℕ) →
        SameUpTo n ev ew → rule accesses ev t (w, n) ≡ rule accesses ew t (w, n) }
{}

/// An evaluation begins at most as many terms as it has steps. A counter beside the register space, which no access
/// reaches, counts each term where it begins; the terms that have begun and the steps that are left are never more
/// together than before, however a term, a list of terms or a call of a control method ends. The count never falls,
/// so no term that has begun is forgotten, and a term for which a step is left adds at least one. Counting changes
/// nothing else: the outcome, the world and the steps that are left are those of the evaluation without it.
#[tactic(auto, using(crate::proofs::CountedTerms::no_more_than_steps, crate::proofs::CountedTerms::counted_where_it_begins, crate::proofs::CountedTerms::term_is_bounded, crate::proofs::CountedTerms::list_is_bounded, crate::proofs::CountedTerms::call_is_bounded, crate::proofs::CountedTerms::term_is_the_same, crate::proofs::CountedTerms::list_is_the_same, crate::proofs::CountedTerms::call_is_the_same, crate::proofs::CountNeverFalls::term_never_lowers_count, crate::proofs::CountNeverFalls::term_raises_count, crate::proofs::CountNeverFalls::list_never_lowers_count, crate::proofs::CountNeverFalls::call_never_lowers_count))]
pub fn terms_that_begin_are_counted<S>()
    ensures at_most { (accesses : Accesses S) (t : Task) (w : State S) (steps : ℕ) →
        terms_begun (counted_meaning accesses t (with_counter 0 w, steps)).1.0 ≤ steps }
    ensures counted { (accesses : Accesses S) (t : Task) (s : State (S × ℕ) × ℕ) →
        counted_meaning accesses t s ≡ begin_and_rule accesses t s }
    ensures term_bounded { (accesses : Accesses S) (t : Task) (s : State (S × ℕ) × ℕ) →
        terms_begun (counted_meaning accesses t s).1.0 + (counted_meaning accesses t s).1.1 ≤ terms_begun s.0 + s.1 }
    ensures list_bounded { (accesses : Accesses S) (scope : List Seg) (depth : ℕ) (ts : Trees) (s : State (S × ℕ) × ℕ) →
        terms_begun (in_turn (counted_meaning accesses) scope depth ts s).1.0 +
        (in_turn (counted_meaning accesses) scope depth ts s).1.1 ≤ terms_begun s.0 + s.1 }
    ensures call_bounded { (accesses : Accesses S) (depth : ℕ) (p : List Seg) (body : List ℕ) (arguments : List Value)
        (s : State (S × ℕ) × ℕ) →
        terms_begun (invoked (counted_meaning accesses) depth p body arguments s).1.0 +
        (invoked (counted_meaning accesses) depth p body arguments s).1.1 ≤ terms_begun s.0 + s.1 }
    ensures term_never_falls { (accesses : Accesses S) (t : Task) (s : State (S × ℕ) × ℕ) →
        terms_begun s.0 ≤ terms_begun (counted_meaning accesses t s).1.0 }
    ensures term_adds_one { (accesses : Accesses S) (t : Task) (s : State (S × ℕ) × ℕ) → 0 < s.1 →
        terms_begun s.0 < terms_begun (counted_meaning accesses t s).1.0 }
    ensures list_never_falls { (accesses : Accesses S) (scope : List Seg) (depth : ℕ) (ts : Trees)
        (s : State (S × ℕ) × ℕ) →
        terms_begun s.0 ≤ terms_begun (in_turn (counted_meaning accesses) scope depth ts s).1.0 }
    ensures call_never_falls { (accesses : Accesses S) (depth : ℕ) (p : List Seg) (body : List ℕ)
        (arguments : List Value) (s : State (S × ℕ) × ℕ) →
        terms_begun s.0 ≤ terms_begun (invoked (counted_meaning accesses) depth p body arguments s).1.0 }
    ensures term_same { (accesses : Accesses S) (t : Task) (s : State (S × ℕ) × ℕ) →
        meaning accesses t (without_counter s.0, s.1) ≡ outcome_without_counter (counted_meaning accesses t s) }
    ensures list_same { (accesses : Accesses S) (scope : List Seg) (depth : ℕ) (ts : Trees) (s : State (S × ℕ) × ℕ) →
        in_turn (meaning accesses) scope depth ts (without_counter s.0, s.1) ≡
        outcome_without_counter (in_turn (counted_meaning accesses) scope depth ts s) }
    ensures call_same { (accesses : Accesses S) (depth : ℕ) (p : List Seg) (body : List ℕ) (arguments : List Value)
        (s : State (S × ℕ) × ℕ) →
        invoked (meaning accesses) depth p body arguments (without_counter s.0, s.1) ≡
        outcome_without_counter (invoked (counted_meaning accesses) depth p body arguments s) }
{}

/// A table that is loaded, an object that is evaluated and one that answers a caller begin at most as many terms as
/// they have steps, however they end. Counting changes nothing else: the value, the answer or the refusal, the steps
/// that are left of a value, and the world are those without it.
#[tactic(auto, using(crate::proofs::CountedEvaluations::terms_of_tables_and_answers_are_counted))]
pub fn terms_of_tables_and_answers_are_counted<S>()
    ensures table_bounded { (accesses : Accesses S) (bytes : List ℕ) (steps : ℕ) (w : State (S × ℕ)) →
        terms_begun (counted_loaded accesses (counted_meaning accesses) bytes steps w).1 ≤ terms_begun w + steps }
    ensures table_same { (accesses : Accesses S) (bytes : List ℕ) (steps : ℕ) (w : State (S × ℕ)) →
        loaded accesses bytes steps (without_counter w) ≡ (
          (counted_loaded accesses (counted_meaning accesses) bytes steps w).0,
          without_counter (counted_loaded accesses (counted_meaning accesses) bytes steps w).1,
        ) }
    ensures value_bounded { (accesses : Accesses S) (p : List Seg) (arguments : List Value) (steps : ℕ)
        (w : State (S × ℕ)) →
        terms_begun (counted_evaluated accesses (counted_meaning accesses) p arguments steps w).1 ≤
        terms_begun w + steps }
    ensures value_same { (accesses : Accesses S) (p : List Seg) (arguments : List Value) (steps : ℕ)
        (w : State (S × ℕ)) →
        evaluated accesses p arguments steps (without_counter w) ≡ (
          (counted_evaluated accesses (counted_meaning accesses) p arguments steps w).0,
          without_counter
              (counted_evaluated accesses (counted_meaning accesses) p arguments steps w).1,
        ) }
    ensures answer_bounded { (accesses : Accesses S) (p : List Seg) (arguments : List Given) (steps : ℕ)
        (w : State (S × ℕ)) →
        terms_begun (counted_answered accesses (counted_meaning accesses) p arguments steps w).1 ≤
        terms_begun w + steps }
    ensures answer_same { (accesses : Accesses S) (p : List Seg) (arguments : List Given) (steps : ℕ)
        (w : State (S × ℕ)) →
        answered accesses p arguments steps (without_counter w) ≡ (
          (counted_answered accesses (counted_meaning accesses) p arguments steps w).0,
          without_counter
              (counted_answered accesses (counted_meaning accesses) p arguments steps w).1,
        ) }
{}
