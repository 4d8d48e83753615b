//! The budget of steps, which only bounds an evaluation.
ghost use Rattle.std.specs.Prelude.{◌≡◌, ◌≢◌, ◌+◌, ℕ, List, length, Err};
ghost use Rattle.ar_space.specs.declared.refusal.Refusal.TheVariants.{Evaluation};
ghost use Rattle.ar_space.specs.declared.refusal.EvaluationFault.TheVariants.{OutOfSteps};
ghost use Rattle.ar_space.specs.Accesses.{Accesses};
ghost use Rattle.aml_path.specs.declared.segment.Seg.{Seg};
ghost use Rattle.aml_grammar.specs.Tree.{Trees};
ghost use Rattle.aml_objects.specs.declared.value.Value.{Value};
ghost use Rattle.aml_world.specs.state.Given.{Given};
ghost use Rattle.aml_world.specs.state.State.{State};
ghost use Rattle.aml_meaning.specs.Tasks.{Task, in_turn};
ghost use Rattle.aml_meaning.specs.Calls.{invoked};
ghost use Rattle.aml_meaning.specs.Meaning.{meaning};
ghost use Rattle.aml_meaning.specs.Calling.{loaded, evaluated, answered, at_root, called, answer_exported};
ghost use Rattle.aml_laws.specs.Ends.{TableRunsOut};
ghost use Rattle.aml_laws.specs.Steps.{with_more_left, value_with_more_left};

/// More steps change nothing but how many are left: where an evaluation isn't refused for want of steps, it comes to
/// the same value or refusal and the same world with any number of steps more, and leaves as many more. A rule that
/// reads the steps that are left, or takes more of them where there are more, is refused by this.
#[tactic(auto, using(crate::proofs::MoreSteps::steps_only_bound_an_evaluation))]
pub fn steps_only_bound_an_evaluation<S>()
    ensures terms { (accesses : Accesses S) (t : Task) (w : State S) (steps more : ℕ) →
        (meaning accesses t (w, steps)).0 ≢ Err (Evaluation OutOfSteps) →
        meaning accesses t (w, steps + more) ≡ with_more_left more (meaning accesses t (w, steps)) }
    ensures lists { (accesses : Accesses S) (scope : List Seg) (depth : ℕ) (ts : Trees) (w : State S)
        (steps more : ℕ) →
        (in_turn (meaning accesses) scope depth ts (w, steps)).0 ≢ Err (Evaluation OutOfSteps) →
        in_turn (meaning accesses) scope depth ts (w, steps + more) ≡ with_more_left more
        (in_turn (meaning accesses) scope depth ts (w, steps)) }
    ensures calls { (accesses : Accesses S) (depth : ℕ) (p : List Seg) (body : List ℕ) (arguments : List Value)
        (w : State S) (steps more : ℕ) →
        (invoked (meaning accesses) depth p body arguments (w, steps)).0 ≢ Err (Evaluation OutOfSteps) →
        invoked (meaning accesses) depth p body arguments (w, steps + more) ≡ with_more_left more
        (invoked (meaning accesses) depth p body arguments (w, steps)) }
    ensures tables { (accesses : Accesses S) (bytes : List ℕ) (steps more : ℕ) (w : State S) →
        (loaded accesses bytes steps w).0 ≢ Err (Evaluation OutOfSteps) →
        loaded accesses bytes (steps + more) w ≡ loaded accesses bytes steps w }
    ensures values { (accesses : Accesses S) (p : List Seg) (arguments : List Value) (steps more : ℕ) (w : State S) →
        (evaluated accesses p arguments steps w).0 ≢ Err (Evaluation OutOfSteps) →
        evaluated accesses p arguments (steps + more) w ≡ value_with_more_left more
        (evaluated accesses p arguments steps w) }
    ensures answers { (accesses : Accesses S) (p : List Seg) (arguments : List Given) (steps more : ℕ)
        (w : State S) → (answered accesses p arguments steps w).0 ≢ Err (Evaluation OutOfSteps) →
        answered accesses p arguments (steps + more) w ≡ answered accesses p arguments steps w }
{}

/// An evaluation is refused for want of steps only where none is left: a term, a list of terms, a call of a control
/// method, the terms of a table, the value of an object and what it answers. A table that is loaded, an object that is
/// evaluated and an answer tell no rest where they are refused; they are refused so only where the terms of the table,
/// evaluated in turn at the root, or the evaluation of the object, are, with just the steps that are given, and none of
/// these is left. A rule that gives up early, as a loop after a number of turns of its own, and an evaluation that
/// begins with a step less than it is given, are refused by this.
#[tactic(auto, using(crate::proofs::OutOfSteps::no_step_is_left_where_steps_run_out, crate::proofs::RunsOut::table_runs_out, crate::proofs::RunsOut::value_runs_out, crate::proofs::RunsOut::answer_runs_out))]
pub fn no_step_is_left_where_steps_run_out<S>()
    ensures term { (accesses : Accesses S) (t : Task) (s : State S × ℕ) →
        (meaning accesses t s).0 ≡ Err (Evaluation OutOfSteps) → (meaning accesses t s).1.1 ≡ 0 }
    ensures list { (accesses : Accesses S) (scope : List Seg) (depth : ℕ) (ts : Trees) (s : State S × ℕ) →
        (in_turn (meaning accesses) scope depth ts s).0 ≡ Err (Evaluation OutOfSteps) →
        (in_turn (meaning accesses) scope depth ts s).1.1 ≡ 0 }
    ensures call { (accesses : Accesses S) (depth : ℕ) (p : List Seg) (body : List ℕ) (arguments : List Value)
        (s : State S × ℕ) →
        (invoked (meaning accesses) depth p body arguments s).0 ≡ Err (Evaluation OutOfSteps) →
        (invoked (meaning accesses) depth p body arguments s).1.1 ≡ 0 }
    ensures table { (accesses : Accesses S) (ts : Trees) (s : State S × ℕ) →
        (at_root accesses ts s).0 ≡ Err (Evaluation OutOfSteps) → (at_root accesses ts s).1.1 ≡ 0 }
    ensures value { (accesses : Accesses S) (p : List Seg) (arguments : List Value) (s : State S × ℕ) →
        (called accesses p arguments s).0 ≡ Err (Evaluation OutOfSteps) → (called accesses p arguments s).1.1 ≡ 0 }
    ensures answer { (accesses : Accesses S) (p : List Seg) (count : ℕ) (arguments : List Given)
        (s : State S × ℕ) → (answer_exported accesses p count arguments s).0 ≡ Err (Evaluation OutOfSteps) →
        (answer_exported accesses p count arguments s).1.1 ≡ 0 }
    ensures loaded { (accesses : Accesses S) (bytes : List ℕ) (steps : ℕ) (w : State S) →
        (loaded accesses bytes steps w).0 ≡ Err (Evaluation OutOfSteps) → TableRunsOut accesses bytes steps w }
    ensures evaluated { (accesses : Accesses S) (p : List Seg) (arguments : List Value) (steps : ℕ) (w : State S) →
        (evaluated accesses p arguments steps w).0 ≡ Err (Evaluation OutOfSteps) →
        ((called accesses p arguments (w, steps)).0 ≡ Err (Evaluation OutOfSteps)) ×
        ((called accesses p arguments (w, steps)).1.1 ≡ 0) }
    ensures answered { (accesses : Accesses S) (p : List Seg) (arguments : List Given) (steps : ℕ) (w : State S) →
        (answered accesses p arguments steps w).0 ≡ Err (Evaluation OutOfSteps) →
        ((answer_exported accesses p (length arguments) arguments (w, steps)).0 ≡ Err (Evaluation OutOfSteps)) ×
        ((answer_exported accesses p (length arguments) arguments (w, steps)).1.1 ≡ 0) }
{}
