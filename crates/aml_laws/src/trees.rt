//! What each tree costs.
ghost use Rattle.std.specs.Prelude.{◌≡◌, ◌≤◌, ◌<◌, ◌+◌, ℕ, List, Some, Ok};
ghost use Rattle.ar_space.specs.Accesses.{Accesses};
ghost use Rattle.aml_path.specs.declared.segment.Seg.{Seg};
ghost use Rattle.aml_path.specs.Paths.{Name};
ghost use Rattle.aml_grammar.specs.declared.opcode.TermCode.{TermCode};
ghost use Rattle.aml_grammar.specs.Tree.{Tree, Trees, term, null, name, inner, Parts, part};
ghost use Rattle.aml_grammar.specs.Apart.{operand_of};
ghost use Rattle.aml_objects.specs.declared.object.Element.{Element};
ghost use Rattle.aml_objects.specs.declared.value.Slot.{Slot};
ghost use Rattle.aml_objects.specs.declared.value.Value.{Value};
ghost use Rattle.aml_world.specs.declared.values.store_target.StoreTarget.TheVariants as targets;
ghost use Rattle.aml_world.specs.state.State.{State};
ghost use Rattle.aml_world.specs.state.Run.{Run};
ghost use Rattle.aml_world.specs.state.Given.{Given};
ghost use Rattle.aml_meaning.specs.declared.term_kind.TargetKind.TheVariants as kinds;
ghost use Rattle.aml_meaning.specs.declared.flow.Flow.{Flow};
ghost use Rattle.aml_meaning.specs.Tasks.{Task, task, in_turn};
ghost use Rattle.aml_meaning.specs.Terms.{target_kind};
ghost use Rattle.aml_meaning.specs.TargetTerms.{target_of, target_at, first_target};
ghost use Rattle.aml_meaning.specs.DataTerms.{named_element};
ghost use Rattle.aml_meaning.specs.Evaluation.{rule};
ghost use Rattle.aml_meaning.specs.Calls.{invoked};
ghost use Rattle.aml_meaning.specs.Exporting.{element_exported, held_exported, package_exported};
ghost use Rattle.aml_meaning.specs.Calling.{loaded, evaluated, answered};
ghost use Rattle.aml_meaning.specs.Meaning.{meaning};
ghost use Rattle.aml_laws.specs.Counted.{without_counter, with_counter, outcome_without_counter};
ghost use Rattle.aml_laws.specs.CountedTrees.{trees_begun, counting_trees, LeavesNoMore, begin_and_count, followed_by, both_counted};
ghost use Rattle.aml_laws.specs.CountedTrees.{counted_trees};
ghost use Rattle.aml_laws.specs.CountedEvaluations.{counted_loaded, counted_evaluated, counted_answered};
ghost use Rattle.aml_laws.specs.StepsTaken.{TakenInTerm, TakenByParts};
ghost use Rattle.aml_laws.specs.CostsOfTrees.{CostsOneStep, CostsNothing, operand_referred, element_named};

/// Each tree costs one step when it begins: a term that is evaluated, a RefOf or a DerefOf that names a target, and a
/// name in a package. Where no step is left it is refused and nothing changes; else it goes on with one step less, by
/// its rule or with its operand, and leaves no more than that, however it ends. So no more trees begin than there are
/// steps. A tree that costs nothing, or two steps, is refused by this. That rules take no steps besides
/// `a_rule_takes_no_step_of_its_own` says.
#[tactic(auto, using(crate::proofs::TreesCost::each_tree_costs_a_step))]
pub fn each_tree_costs_a_step<S>()
    ensures term { (accesses : Accesses S) (t : Task) →
        CostsOneStep (meaning accesses t) (rule accesses (meaning accesses) t) }
    ensures reference { (accesses : Accesses S) (scope : List Seg) (depth : ℕ) (c : TermCode) (ps : Parts) →
        target_kind c ≡ kinds.RefOf → CostsOneStep (target_of (meaning accesses) scope depth (term c ps))
        (first_target (meaning accesses) scope depth ps) }
    ensures dereference { (accesses : Accesses S) (scope : List Seg) (depth : ℕ) (c : TermCode) (ps : Parts) →
        target_kind c ≡ kinds.DerefOf → CostsOneStep (target_of (meaning accesses) scope depth (term c ps))
        (operand_referred (meaning accesses) scope depth (term c ps)) }
    ensures name { (accesses : Accesses S) (scope : List Seg) (t : Tree) →
        CostsOneStep (named_element (meaning accesses) scope t) (element_named scope t) }
    ensures name_alone { (accesses : Accesses S) (scope : List Seg) (t : Tree) →
        CostsNothing {S = S} (element_named scope t) }
{}

/// A target that is a name, a local, an argument or Debug costs no step, nor does the null target, nor what a RefOf
/// refers to where that is a name or null; and what is no target is refused without a step. A store that takes a step
/// for its target is refused by this.
#[tactic(auto, using(crate::proofs::TreesCost::plain_targets_cost_nothing))]
pub fn plain_targets_cost_nothing<S>()
    ensures slots { (accesses : Accesses S) (scope : List Seg) (depth : ℕ) (c : TermCode) (ps : Parts) (slot : Slot)
        (s : State S × ℕ) → target_kind c ≡ kinds.Slot slot →
        target_of (meaning accesses) scope depth (term c ps) s ≡ (Ok (targets.Slot slot), s) }
    ensures debug { (accesses : Accesses S) (scope : List Seg) (depth : ℕ) (c : TermCode) (ps : Parts)
        (s : State S × ℕ) → target_kind c ≡ kinds.Nowhere →
        target_of (meaning accesses) scope depth (term c ps) s ≡ (Ok targets.Nowhere, s) }
    ensures null { (accesses : Accesses S) (scope : List Seg) (depth : ℕ) (t : Tree) (i : ℕ) (s : State S × ℕ) →
        operand_of t i ≡ Some null → target_at (meaning accesses) scope depth t i s ≡ (Ok targets.Nowhere, s) }
    ensures names { (accesses : Accesses S) (scope : List Seg) (depth : ℕ) (t : Tree) (i : ℕ) (n : Name) →
        operand_of t i ≡ Some (name n) → CostsNothing (target_at (meaning accesses) scope depth t i) }
    ensures referred_names { (accesses : Accesses S) (scope : List Seg) (depth : ℕ) (n : Name) (ps : Parts) →
        CostsNothing (first_target (meaning accesses) scope depth (part (name n) ps)) }
    ensures referred_null { (accesses : Accesses S) (scope : List Seg) (depth : ℕ) (ps : Parts) →
        CostsNothing (first_target (meaning accesses) scope depth (part null ps)) }
    ensures no_target { (accesses : Accesses S) (scope : List Seg) (depth : ℕ) (c : TermCode) (ps : Parts) →
        target_kind c ≡ kinds.Other → CostsNothing (target_of (meaning accesses) scope depth (term c ps)) }
{}

/// Any other target takes the steps of terms, and no step besides: an Index those of its term, and what a DerefOf
/// refers to those of its operand. An operand that is a term is the target that this term names, and so is that of a
/// RefOf, which may be a RefOf again: behind the step of `each_tree_costs_a_step` it takes what this target does. An
/// Index that names a target and takes a step of its own is refused by this.
#[tactic(auto, using(crate::proofs::TreesCost::a_target_takes_the_steps_of_its_terms))]
pub fn a_target_takes_the_steps_of_its_terms<S>()
    ensures index { (accesses : Accesses S) (scope : List Seg) (depth : ℕ) (c : TermCode) (ps : Parts)
        (s : State S × ℕ) → target_kind c ≡ kinds.Index → (target_of (meaning accesses) scope depth (term c ps) s).1.1 ≡
        (meaning accesses (task scope depth (term c ps)) s).1.1 }
    ensures dereferenced { (accesses : Accesses S) (scope : List Seg) (depth : ℕ) (t u : Tree) (s : State S × ℕ) →
        operand_of t 0 ≡ Some (inner u) → (operand_referred (meaning accesses) scope depth t s).1.1 ≡
        (meaning accesses (task scope depth u) s).1.1 }
    ensures referred { (accesses : Accesses S) (scope : List Seg) (depth : ℕ) (u : Tree) (ps : Parts)
        (s : State S × ℕ) → first_target (meaning accesses) scope depth (part (inner u) ps) s ≡
        target_of (meaning accesses) scope depth u s }
    ensures operand { (accesses : Accesses S) (scope : List Seg) (depth : ℕ) (t u : Tree) (i : ℕ) (s : State S × ℕ) →
        operand_of t i ≡ Some (inner u) → target_at (meaning accesses) scope depth t i s ≡
        target_of (meaning accesses) scope depth u s }
{}

/// A rule takes no step of its own: those that it takes are taken by its parts, by the targets that its operands name,
/// and by names among the elements of a package. A list of terms and a call take none but those of their terms. By
/// `each_tree_costs_a_step`, `plain_targets_cost_nothing` and `a_target_takes_the_steps_of_its_terms` each of these
/// steps is one that a tree begins with. A rule that takes a step besides is refused by this.
#[tactic(auto, using(crate::proofs::StepsOfTerms::a_rule_takes_no_step_of_its_own))]
pub fn a_rule_takes_no_step_of_its_own<S>()
    ensures rules { (accesses : Accesses S) (ev : Task → Run S Flow) (t : Task) (s : State S × ℕ) →
        TakenInTerm ev t s.1 (rule accesses ev t s).1.1 }
    ensures lists { (accesses : Accesses S) (ev : Task → Run S Flow) (scope : List Seg) (depth : ℕ) (ts : Trees)
        (s : State S × ℕ) → TakenByParts ev s.1 (in_turn ev scope depth ts s).1.1 }
    ensures calls { (accesses : Accesses S) (ev : Task → Run S Flow) (depth : ℕ) (p : List Seg) (body : List ℕ)
        (arguments : List Value) (s : State S × ℕ) →
        TakenByParts ev s.1 (invoked ev depth p body arguments s).1.1 }
{}

/// An evaluation begins at most as many trees as it has steps: terms, and a RefOf or a DerefOf that names a target and
/// names in packages as well. They are counted where they begin, by the steps that they take: each adds one to a
/// counter beside the register space, and goes on; what is done one after another is counted one after another, and
/// what takes no step adds nothing. Those that have begun and the steps that are left are together as many as before,
/// however a term, a list of terms or a call of a control method ends. The count never falls, and a term for which a
/// step is left adds at least one. Counting changes nothing else. That nothing but a tree is counted
/// `a_rule_takes_no_step_of_its_own` says.
#[tactic(auto, using(crate::proofs::CountedTrees::trees_that_begin_are_counted))]
pub fn trees_that_begin_are_counted<S, A, B>()
    ensures at_most { (accesses : Accesses S) (t : Task) (w : State S) (steps : ℕ) →
        trees_begun (counting_trees (meaning accesses t) (with_counter 0 w, steps)).1.0 ≤ steps }
    ensures begins { (m rest : Run S A) (s : State (S × ℕ) × ℕ) → CostsOneStep m rest →
        counting_trees m s ≡ begin_and_count rest s }
    ensures in_turn { (m : Run S A) (k : A → Run S B) (s : State (S × ℕ) × ℕ) → LeavesNoMore m →
        ((a : A) → LeavesNoMore (k a)) →
        counting_trees (followed_by m k) s ≡ both_counted m k s }
    ensures nothing { (m : Run S A) (s : State (S × ℕ) × ℕ) → CostsNothing m →
        trees_begun (counting_trees m s).1.0 ≡ trees_begun s.0 }
    ensures term_total { (accesses : Accesses S) (t : Task) (s : State (S × ℕ) × ℕ) →
        trees_begun (counting_trees (meaning accesses t) s).1.0 + (counting_trees (meaning accesses t) s).1.1 ≡
        trees_begun s.0 + s.1 }
    ensures list_total { (accesses : Accesses S) (scope : List Seg) (depth : ℕ) (ts : Trees) (s : State (S × ℕ) × ℕ) →
        trees_begun (counting_trees (in_turn (meaning accesses) scope depth ts) s).1.0 +
        (counting_trees (in_turn (meaning accesses) scope depth ts) s).1.1 ≡ trees_begun s.0 + s.1 }
    ensures call_total { (accesses : Accesses S) (depth : ℕ) (p : List Seg) (body : List ℕ) (arguments : List Value)
        (s : State (S × ℕ) × ℕ) →
        trees_begun (counting_trees (invoked (meaning accesses) depth p body arguments) s).1.0 +
        (counting_trees (invoked (meaning accesses) depth p body arguments) s).1.1 ≡ trees_begun s.0 + s.1 }
    ensures adds_one { (accesses : Accesses S) (t : Task) (s : State (S × ℕ) × ℕ) → 0 < s.1 →
        trees_begun s.0 < trees_begun (counting_trees (meaning accesses t) s).1.0 }
    ensures never_falls { (m : Run S A) (s : State (S × ℕ) × ℕ) →
        trees_begun s.0 ≤ trees_begun (counting_trees m s).1.0 }
    ensures same { (m : Run S A) (s : State (S × ℕ) × ℕ) →
        m (without_counter s.0, s.1) ≡ outcome_without_counter (counting_trees m s) }
{}

/// A table that is loaded, an object that is evaluated and one that answers a caller begin at most as many trees as
/// they have steps, however they end. Counted are the trees of each term that is evaluated in them, as
/// `trees_that_begin_are_counted` counts them: those of control methods that a field's PCI address asks are among
/// them. An element of a package that is handed out takes one step, too, and then those of what it holds; it is no
/// tree, and isn't counted. Counting changes nothing else: the value, the answer or the refusal, the steps that are
/// left of a value, and the world are those without it. A table that takes a step more than it has, and an element
/// that costs nothing, are refused by this.
#[tactic(auto, using(crate::proofs::CountedEvaluations::trees_of_tables_and_answers_are_counted, crate::proofs::ElementsCost::element_handed_out))]
pub fn trees_of_tables_and_answers_are_counted<S>()
    ensures table_bounded { (accesses : Accesses S) (bytes : List ℕ) (steps : ℕ) (w : State (S × ℕ)) →
        trees_begun (counted_loaded accesses (counted_trees accesses) bytes steps w).1 ≤ trees_begun w + steps }
    ensures table_same { (accesses : Accesses S) (bytes : List ℕ) (steps : ℕ) (w : State (S × ℕ)) →
        loaded accesses bytes steps (without_counter w) ≡ (
          (counted_loaded accesses (counted_trees accesses) bytes steps w).0,
          without_counter (counted_loaded accesses (counted_trees accesses) bytes steps w).1,
        ) }
    ensures value_bounded { (accesses : Accesses S) (p : List Seg) (arguments : List Value) (steps : ℕ)
        (w : State (S × ℕ)) →
        trees_begun (counted_evaluated accesses (counted_trees accesses) p arguments steps w).1 ≤
        trees_begun w + steps }
    ensures value_same { (accesses : Accesses S) (p : List Seg) (arguments : List Value) (steps : ℕ)
        (w : State (S × ℕ)) →
        evaluated accesses p arguments steps (without_counter w) ≡ (
          (counted_evaluated accesses (counted_trees accesses) p arguments steps w).0,
          without_counter
              (counted_evaluated accesses (counted_trees accesses) p arguments steps w).1,
        ) }
    ensures answer_bounded { (accesses : Accesses S) (p : List Seg) (arguments : List Given) (steps : ℕ)
        (w : State (S × ℕ)) →
        trees_begun (counted_answered accesses (counted_trees accesses) p arguments steps w).1 ≤
        trees_begun w + steps }
    ensures answer_same { (accesses : Accesses S) (p : List Seg) (arguments : List Given) (steps : ℕ)
        (w : State (S × ℕ)) →
        answered accesses p arguments steps (without_counter w) ≡ (
          (counted_answered accesses (counted_trees accesses) p arguments steps w).0,
          without_counter
              (counted_answered accesses (counted_trees accesses) p arguments steps w).1,
        ) }
    ensures element { (accesses : Accesses S) (depth : ℕ) (e : Element) →
        CostsOneStep (element_exported accesses (package_exported accesses depth) e)
        (held_exported accesses (package_exported accesses depth) e) }
{}
