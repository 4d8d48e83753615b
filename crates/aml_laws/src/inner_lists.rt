//! Lists of terms within terms.
ghost use Rattle.std.specs.Prelude.{◌≡◌, ◌<◌, ℕ, suc, List, Some, Ok, Err};
ghost use Rattle.ar_space.specs.Accesses.{Accesses};
ghost use Rattle.ar_space.specs.declared.refusal.Refusal.{Refusal};
ghost use Rattle.ar_space.specs.declared.refusal.Refusal.TheVariants as refusal;
ghost use Rattle.ar_space.specs.declared.refusal.ValueFault.TheVariants.{WrongType};
ghost use Rattle.aml_path.specs.declared.segment.Seg.{Seg};
ghost use Rattle.aml_path.specs.Paths.{Name, resolved};
ghost use Rattle.aml_grammar.specs.declared.opcode.Opcode.{Opcode as Opcodes};
ghost use Rattle.aml_grammar.specs.declared.opcode.Opcode.TheVariants as opcodes;
ghost use Rattle.aml_grammar.specs.declared.opcode.TermCode.TheVariants as codes;
ghost use Rattle.aml_grammar.specs.Tree.{Tree, Trees, inner, list};
ghost use Rattle.aml_grammar.specs.Apart.{code_of, operand_of, name_of};
ghost use Rattle.aml_objects.specs.declared.entry.Entry.{Entry};
ghost use Rattle.aml_objects.specs.declared.entry.NamedObject.{NamedObject};
ghost use Rattle.aml_objects.specs.declared.value.Value.{Value};
ghost use Rattle.aml_namespace.specs.Search.{found};
ghost use Rattle.aml_world.specs.state.Declaring.{new_name};
ghost use Rattle.aml_world.specs.state.State.{State};
ghost use Rattle.aml_meaning.specs.declared.flow.Flow.TheVariants as flow;
ghost use Rattle.aml_meaning.specs.Meaning.{meaning};
ghost use Rattle.aml_meaning.specs.Tasks.{task, module_level, in_turn};
ghost use Rattle.aml_laws.specs.InnerLists.{OpensScope, DeclaresScope, Tests, Turns};

/// The list of a Scope is evaluated in turn in the scope that its name finds, where that is a predefined scope, a
/// Device, a Processor, a PowerResource or a ThermalZone. A Scope whose name finds any other object is refused as one
/// of the wrong type, and one whose name isn't found as the search for it is, and nothing changes (ACPI 6.5, 19.6:
/// Scope). The list of a Device, a Processor, a PowerResource or a ThermalZone is evaluated in turn in the scope that
/// this term declares, where it declares one: `a_declaration_leaves_what_its_term_says` says where that is, and of
/// which kind. Each is evaluated as deep in calls as the term itself: so at module level it is a list at module
/// level, and goes on behind an item that is passed over by `a_list_goes_on_behind_an_item_that_is_passed_over`. A
/// Scope whose list is evaluated where the term stands, one of a name that holds data, and one whose list isn't at its
/// level, are refused by this.
pub fn lists_of_scopes_are_evaluated_in_turn<S>()
    ensures scopes { (accesses : Accesses S) (scope p : List Seg) (depth : ℕ) (t : Tree) (n : Name) (e : Entry)
        (ts : Trees) (w : State S) (steps : ℕ) → code_of t ≡ codes.Opcode opcodes.Scope →
        name_of (operand_of t 0) ≡ Ok n → operand_of t 1 ≡ Some (list ts) → found w.names.map scope n ≡ Ok (p, e) →
        OpensScope e.object →
        meaning accesses (task scope depth t) (w, suc steps) ≡ in_turn (meaning accesses) p depth ts (w, steps) }
    ensures no_scope { (accesses : Accesses S) (scope p : List Seg) (depth : ℕ) (t : Tree) (n : Name) (e : Entry)
        (w : State S) (steps : ℕ) → code_of t ≡ codes.Opcode opcodes.Scope → name_of (operand_of t 0) ≡ Ok n →
        found w.names.map scope n ≡ Ok (p, e) → (OpensScope e.object → ⊥) →
        meaning accesses (task scope depth t) (w, suc steps) ≡ (Err (refusal.Value WrongType), (w, steps)) }
    ensures not_found { (accesses : Accesses S) (scope : List Seg) (depth : ℕ) (t : Tree) (n : Name) (e : Refusal)
        (w : State S) (steps : ℕ) → code_of t ≡ codes.Opcode opcodes.Scope → name_of (operand_of t 0) ≡ Ok n →
        found w.names.map scope n ≡ Err e →
        meaning accesses (task scope depth t) (w, suc steps) ≡ (Err e, (w, steps)) }
    ensures declared { (accesses : Accesses S) (code : Opcodes) (o : NamedObject) (i : ℕ) (scope p : List Seg)
        (depth : ℕ) (t : Tree) (n : Name) (ts : Trees) (w after : State S) (steps number : ℕ) →
        DeclaresScope code o i → code_of t ≡ codes.Opcode code → name_of (operand_of t 0) ≡ Ok n →
        resolved n scope ≡ Ok p → new_name (module_level depth) p o w ≡ (Ok number, after) →
        operand_of t i ≡ Some (list ts) →
        meaning accesses (task scope depth t) (w, suc steps) ≡ in_turn (meaning accesses) p depth ts (after, steps) }
{}

/// The list of an If whose condition holds, which is any integer but 0, is evaluated in turn, in the scope of the If
/// and as deep in calls, and so is that of an Else, which is evaluated where the condition doesn't hold. So at module
/// level these are lists at module level, too. Where the condition doesn't hold and there is no Else, the If gives
/// nothing, and the list in which it stands goes on. A branch whose list isn't at its level, and an If that ends the
/// list round it, are refused by this.
pub fn lists_of_branches_are_evaluated_in_turn<S>()
    ensures holds { (accesses : Accesses S) (scope : List Seg) (depth : ℕ) (t : Tree) (ts : Trees) (w : State S)
        (steps x : ℕ) (after : State S × ℕ) → Tests accesses scope depth opcodes.If t ts (w, steps) x after → 0 < x →
        meaning accesses (task scope depth t) (w, suc steps) ≡ in_turn (meaning accesses) scope depth ts after }
    ensures fails { (accesses : Accesses S) (scope : List Seg) (depth : ℕ) (t : Tree) (ts : Trees) (w : State S)
        (steps : ℕ) (after : State S × ℕ) → Tests accesses scope depth opcodes.If t ts (w, steps) 0 after →
        (e : Tree) → operand_of t 2 ≡ Some (inner e) →
        meaning accesses (task scope depth t) (w, suc steps) ≡ meaning accesses (task scope depth e) after }
    ensures no_else { (accesses : Accesses S) (scope : List Seg) (depth : ℕ) (t : Tree) (ts : Trees) (w : State S)
        (steps : ℕ) (after : State S × ℕ) → Tests accesses scope depth opcodes.If t ts (w, steps) 0 after →
        ((e : Tree) → operand_of t 2 ≡ Some (inner e) → ⊥) →
        meaning accesses (task scope depth t) (w, suc steps) ≡ (Ok flow.Next, after) }
    ensures otherwise { (accesses : Accesses S) (scope : List Seg) (depth : ℕ) (t : Tree) (ts : Trees) (w : State S)
        (steps : ℕ) → code_of t ≡ codes.Opcode opcodes.Else → operand_of t 0 ≡ Some (list ts) →
        meaning accesses (task scope depth t) (w, suc steps) ≡ in_turn (meaning accesses) scope depth ts (w, steps) }
{}

/// While the condition of a While holds, which is any integer but 0, its list is evaluated in turn, in the scope of
/// the While and as deep in calls: so at module level it is a list at module level, too. The While ends as its list
/// is refused, and with what is returned there; a Break ends it, and the list in which it stands goes on. At the end
/// of its list and at a Continue it begins anew in the world that the list left, for a step that isn't taken again.
/// Where the condition doesn't hold it is over. A loop that ends behind an item that is passed over, one that ends at
/// a Continue, and a Return that ends its loop alone are refused by this.
pub fn lists_of_loops_are_evaluated_in_turn<S>()
    ensures refused { (accesses : Accesses S) (scope : List Seg) (depth : ℕ) (t : Tree) (w : State S) (steps : ℕ)
        (e : Refusal) (end : State S × ℕ) → Turns accesses scope depth t (w, steps) (Err e) end →
        meaning accesses (task scope depth t) (w, suc steps) ≡ (Err e, end) }
    ensures broken { (accesses : Accesses S) (scope : List Seg) (depth : ℕ) (t : Tree) (w : State S) (steps : ℕ)
        (end : State S × ℕ) → Turns accesses scope depth t (w, steps) (Ok flow.Break) end →
        meaning accesses (task scope depth t) (w, suc steps) ≡ (Ok flow.Next, end) }
    ensures returned { (accesses : Accesses S) (scope : List Seg) (depth : ℕ) (t : Tree) (w : State S) (steps : ℕ)
        (v : Value) (end : State S × ℕ) → Turns accesses scope depth t (w, steps) (Ok (flow.Return v)) end →
        meaning accesses (task scope depth t) (w, suc steps) ≡ (Ok (flow.Return v), end) }
    ensures goes_on { (accesses : Accesses S) (scope : List Seg) (depth : ℕ) (t : Tree) (w : State S) (steps : ℕ)
        (u : State S) (left : ℕ) → Turns accesses scope depth t (w, steps) (Ok flow.Next) (u, left) →
        meaning accesses (task scope depth t) (w, suc steps) ≡
        meaning accesses (task scope depth t) (u, suc left) }
    ensures continued { (accesses : Accesses S) (scope : List Seg) (depth : ℕ) (t : Tree) (w : State S) (steps : ℕ)
        (u : State S) (left : ℕ) → Turns accesses scope depth t (w, steps) (Ok flow.Continue) (u, left) →
        meaning accesses (task scope depth t) (w, suc steps) ≡
        meaning accesses (task scope depth t) (u, suc left) }
    ensures over { (accesses : Accesses S) (scope : List Seg) (depth : ℕ) (t : Tree) (w : State S) (steps : ℕ)
        (ts : Trees) (after : State S × ℕ) → Tests accesses scope depth opcodes.While t ts (w, steps) 0 after →
        meaning accesses (task scope depth t) (w, suc steps) ≡ (Ok flow.Next, after) }
{}
