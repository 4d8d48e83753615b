//! Integers, which are below two to the width.
ghost use Rattle.std.specs.Prelude.{◌≡◌, ◌<◌, ℕ, List, slice_index, Ok};
ghost use Rattle.ar_space.specs.Accesses.{Accesses};
ghost use Rattle.ar_space.specs.declared.integer_width.IntegerWidth.{IntegerWidth};
ghost use Rattle.aml_path.specs.declared.segment.Seg.{Seg};
ghost use Rattle.aml_grammar.specs.Tree.{Trees};
ghost use Rattle.aml_objects.specs.declared.value.Value.{Value};
ghost use Rattle.aml_world.specs.state.Given.{Given};
ghost use Rattle.aml_world.specs.state.Predefined.{fresh_as, predefined};
ghost use Rattle.aml_world.specs.declared.values.operation_kind.OneOperand.{OneOperand};
ghost use Rattle.aml_world.specs.declared.values.operation_kind.TwoOperands.{TwoOperands};
ghost use Rattle.aml_world.specs.declared.values.operation_kind.Test.{Test};
ghost use Rattle.aml_world.specs.declared.values.operation_kind.Count.{Count};
ghost use Rattle.aml_convert.specs.declared.operators.Division.{Division};
ghost use Rattle.aml_world.specs.declared.state.settings.EvaluationSettings.{EvaluationSettings};
ghost use Rattle.aml_world.specs.state.State.{State};
ghost use Rattle.aml_world.specs.state.Readings.{integer_kept, integer_in};
ghost use Rattle.aml_world.specs.fields.Regions.{value_of_bits};
ghost use Rattle.aml_world.specs.values.Operations.{divided_in, lnot_in};
ghost use Rattle.aml_world.specs.values.Operations.{result_of_two, result_of_one, result_of_test, counted_by};
ghost use Rattle.aml_meaning.specs.declared.flow.Flow.TheVariants as flow;
ghost use Rattle.aml_meaning.specs.Tasks.{Task, in_turn};
ghost use Rattle.aml_meaning.specs.Meaning.{meaning};
ghost use Rattle.aml_meaning.specs.Calling.{loaded, evaluated, answered};
ghost use Rattle.aml_laws.specs.AllWithin.{Each, AllWithin};
ghost use Rattle.aml_laws.specs.Handed.{PlainGiven, GivenWithin};
ghost use Rattle.aml_laws.specs.Plain.{AreBytes, PlainTree, PlainTrees};
ghost use Rattle.aml_laws.specs.Within.{Below, Within, WithinWidth, FormsWithin};

/// Each integer that a constant, an operator, a conversion or a field forms is below two to the width, where the
/// operands hold integers below it, or bytes below 256.
#[tactic(auto, using(crate::proofs::IntegersOfOperators::operators_form_integers_of_the_width))]
pub fn operators_form_integers_of_the_width<S>()
    ensures constants { (w : State S) (n : ℕ) → FormsWithin w (integer_kept n) }
    ensures read { (w : State S) (v : Value) (n : ℕ) → Within w v → (integer_in v w).0 ≡ Ok n → Below w n }
    ensures two_operands { (w : State S) (k : TwoOperands) (v u : Value) → Within w v → Within w u →
        FormsWithin w (result_of_two k v u) }
    ensures one_operand { (w : State S) (k : OneOperand) (v : Value) → Within w v → FormsWithin w (result_of_one k v) }
    ensures divided { (w : State S) (v u : Value) (d : Division) → Within w v → (divided_in v u w).0 ≡ Ok d →
        Below w d.quotient × Below w d.remainder }
    ensures tests { (w : State S) (k : Test) (v u : Value) → FormsWithin w (result_of_test k v u) }
    ensures lnot { (w : State S) (v : Value) → FormsWithin w (lnot_in v) }
    ensures counted { (w : State S) (k : Count) (n : ℕ) → FormsWithin w (counted_by k n) }
    ensures fields { (w : State S) (count : ℕ) (bytes : List ℕ) → ((i : ℕ) → slice_index bytes i < 256) →
        FormsWithin w (value_of_bits count bytes) }
{}

/// Every integer is below two to the width: where those of the world are (in names, objects and frames), and bytes
/// below 256 in objects, in the bodies of control methods, in the terms and in what is handed in, they are after an
/// evaluation, however it ends; and a value that it gives is, or that an answer hands out. Integers that are handed in
/// may be any. So it is from the predefined names on, in either profile. A string or a buffer has at most 1,048,576
/// bytes, a package at most 65,535 elements, a field at most 8,388,608 bits.
#[tactic(auto, using(crate::proofs::IntegersOfTables::term_value_within))]
pub fn integers_stay_below_two_to_the_width<S>()
    ensures first { (settings : EvaluationSettings) (width : IntegerWidth) (osi : List (List ℕ)) (space : S) →
        AllWithin width (predefined (fresh_as settings width osi space)).1 }
    ensures terms { (width : IntegerWidth) (accesses : Accesses S) (t : Task) (s : State S × ℕ) → PlainTree t.term →
        AllWithin width s.0 → AllWithin width (meaning accesses t s).1.0 }
    ensures values { (width : IntegerWidth) (accesses : Accesses S) (t : Task) (s : State S × ℕ) (v : Value) →
        PlainTree t.term → AllWithin width s.0 → (meaning accesses t s).0 ≡ Ok (flow.Value v) → WithinWidth width v }
    ensures lists { (width : IntegerWidth) (accesses : Accesses S) (scope : List Seg) (depth : ℕ) (ts : Trees)
        (s : State S × ℕ) → PlainTrees ts → AllWithin width s.0 →
        AllWithin width (in_turn (meaning accesses) scope depth ts s).1.0 }
    ensures tables { (width : IntegerWidth) (accesses : Accesses S) (bytes : List ℕ) (steps : ℕ) (w : State S) →
        AreBytes bytes → AllWithin width w → AllWithin width (loaded accesses bytes steps w).1 }
    ensures objects { (width : IntegerWidth) (accesses : Accesses S) (path : List Seg) (arguments : List Value)
        (steps : ℕ) (w : State S) → Each (WithinWidth width) arguments → AllWithin width w →
        AllWithin width (evaluated accesses path arguments steps w).1 }
    ensures object_values { (width : IntegerWidth) (accesses : Accesses S) (path : List Seg) (arguments : List Value)
        (steps : ℕ) (w : State S) (x : Value × ℕ) → Each (WithinWidth width) arguments → AllWithin width w →
        (evaluated accesses path arguments steps w).0 ≡ Ok x → WithinWidth width x.0 }
    ensures answers { (width : IntegerWidth) (accesses : Accesses S) (path : List Seg) (arguments : List Given)
        (steps : ℕ) (w : State S) → Each PlainGiven arguments → AllWithin width w →
        AllWithin width (answered accesses path arguments steps w).1 }
    ensures answer_values { (width : IntegerWidth) (accesses : Accesses S) (path : List Seg) (arguments : List Given)
        (steps : ℕ) (w : State S) (x : Given) → Each PlainGiven arguments → AllWithin width w →
        (answered accesses path arguments steps w).0 ≡ Ok x → GivenWithin width x }
{}
