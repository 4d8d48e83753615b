//! Lists of terms, and the statements that leave them.
ghost use Rattle.std.specs.Prelude.{◌≡◌, ℕ, suc, List, Ok};
ghost use Rattle.ar_space.specs.Accesses.{Accesses};
ghost use Rattle.ar_space.specs.declared.refusal.Refusal.{Refusal};
ghost use Rattle.aml_path.specs.declared.segment.Seg.{Seg};
ghost use Rattle.aml_grammar.specs.Tree.{Tree, Trees, no_trees, tree};
ghost use Rattle.aml_grammar.specs.declared.opcode.Opcode.TheVariants as opcodes;
ghost use Rattle.aml_objects.specs.declared.value.Value.{Value};
ghost use Rattle.aml_world.specs.state.State.{State};
ghost use Rattle.aml_meaning.specs.declared.flow.Flow.TheVariants as flow;
ghost use Rattle.aml_meaning.specs.Meaning.{meaning};
ghost use Rattle.aml_meaning.specs.Tasks.{task, in_turn};
ghost use Rattle.aml_laws.specs.OperatorTerms.{alone, of_one, GivesValue, IsRefused};

/// The items of a list are evaluated one after another: behind one that gives nothing, and one that gives a value,
/// which nobody takes, the list goes on in the world and with the steps that the item left. An item that returns a
/// value, a Break and a Continue end the list, and what they tell is told of the list, so that it leaves the lists
/// round it, too, up to the loop or the control method that it ends. A list that comes to its end gives nothing. A
/// list that goes on behind a Return is refused by this.
pub fn items_are_evaluated_one_after_another<S>()
    ensures nothing { (accesses : Accesses S) (scope : List Seg) (depth : ℕ) (t : Tree) (ts : Trees)
        (s after : State S × ℕ) → meaning accesses (task scope depth t) s ≡ (Ok flow.Next, after) →
        in_turn (meaning accesses) scope depth (tree t ts) s ≡ in_turn (meaning accesses) scope depth ts after }
    ensures value { (accesses : Accesses S) (scope : List Seg) (depth : ℕ) (t : Tree) (ts : Trees)
        (s after : State S × ℕ) (v : Value) → GivesValue accesses scope depth t s v after →
        in_turn (meaning accesses) scope depth (tree t ts) s ≡ in_turn (meaning accesses) scope depth ts after }
    ensures returned { (accesses : Accesses S) (scope : List Seg) (depth : ℕ) (t : Tree) (ts : Trees)
        (s after : State S × ℕ) (v : Value) → meaning accesses (task scope depth t) s ≡ (Ok (flow.Return v), after) →
        in_turn (meaning accesses) scope depth (tree t ts) s ≡ (Ok (flow.Return v), after) }
    ensures broken { (accesses : Accesses S) (scope : List Seg) (depth : ℕ) (t : Tree) (ts : Trees)
        (s after : State S × ℕ) → meaning accesses (task scope depth t) s ≡ (Ok flow.Break, after) →
        in_turn (meaning accesses) scope depth (tree t ts) s ≡ (Ok flow.Break, after) }
    ensures continued { (accesses : Accesses S) (scope : List Seg) (depth : ℕ) (t : Tree) (ts : Trees)
        (s after : State S × ℕ) → meaning accesses (task scope depth t) s ≡ (Ok flow.Continue, after) →
        in_turn (meaning accesses) scope depth (tree t ts) s ≡ (Ok flow.Continue, after) }
    ensures end { (accesses : Accesses S) (scope : List Seg) (depth : ℕ) (s : State S × ℕ) →
        in_turn (meaning accesses) scope depth no_trees s ≡ (Ok flow.Next, s) }
{}

/// A Return gives back the value of its operand, and is refused as its operand is. Break, Continue, Noop and BreakPoint
/// have no operand, and change nothing: a Break and a Continue leave the list in which they stand, and a Noop and a
/// BreakPoint, which is for debuggers alone, give nothing (ACPI 6.5, 19.6: Break, BreakPoint, Continue, Noop, Return).
/// Each takes a step. A Return that gives nothing, a Break that is a Continue, and a BreakPoint that is a Break, are
/// refused by this.
pub fn return_break_and_continue_leave_their_list<S>()
    ensures returned { (accesses : Accesses S) (scope : List Seg) (depth : ℕ) (x : Tree) (w : State S) (steps : ℕ)
        (v : Value) (after : State S × ℕ) → GivesValue accesses scope depth x (w, steps) v after →
        meaning accesses (task scope depth (of_one opcodes.Return x)) (w, suc steps) ≡ (Ok (flow.Return v), after) }
    ensures refused { (accesses : Accesses S) (scope : List Seg) (depth : ℕ) (x : Tree) (w : State S) (steps : ℕ)
        (e : Refusal) (after : State S × ℕ) → IsRefused accesses scope depth x (w, steps) e after →
        IsRefused accesses scope depth (of_one opcodes.Return x) (w, suc steps) e after }
    ensures broken { (accesses : Accesses S) (scope : List Seg) (depth : ℕ) (w : State S) (steps : ℕ) →
        meaning accesses (task scope depth (alone opcodes.Break)) (w, suc steps) ≡ (Ok flow.Break, (w, steps)) }
    ensures continued { (accesses : Accesses S) (scope : List Seg) (depth : ℕ) (w : State S) (steps : ℕ) →
        meaning accesses (task scope depth (alone opcodes.Continue)) (w, suc steps) ≡ (Ok flow.Continue, (w, steps)) }
    ensures nothing { (accesses : Accesses S) (scope : List Seg) (depth : ℕ) (w : State S) (steps : ℕ) →
        (meaning accesses (task scope depth (alone opcodes.Noop)) (w, suc steps) ≡ (Ok flow.Next, (w, steps))) ×
        (meaning accesses (task scope depth (alone opcodes.BreakPoint)) (w, suc steps) ≡ (Ok flow.Next, (w, steps))) }
{}
