//! RefOf, DerefOf and Index where a target stands, and events behind them.
ghost use Rattle.std.specs.Prelude.{◌≡◌, ℕ, suc, List, Some, Ok, Err};
ghost use Rattle.ar_space.specs.Accesses.{Accesses};
ghost use Rattle.ar_space.specs.declared.refusal.Refusal.{Refusal};
ghost use Rattle.ar_space.specs.declared.refusal.Refusal.TheVariants as refusal;
ghost use Rattle.ar_space.specs.declared.refusal.ValueFault.TheVariants.{WrongType};
ghost use Rattle.aml_path.specs.declared.segment.Seg.{Seg};
ghost use Rattle.aml_grammar.specs.Tree.{Tree, inner};
ghost use Rattle.aml_grammar.specs.declared.opcode.Opcode.TheVariants as opcodes;
ghost use Rattle.aml_objects.specs.declared.value.Value.{Value};
ghost use Rattle.aml_world.specs.declared.state.profile.Profile.TheVariants as profiles;
ghost use Rattle.aml_world.specs.declared.values.store_target.StoreTarget.{StoreTarget};
ghost use Rattle.aml_world.specs.declared.values.operation_kind.EventChange.TheVariants as changes;
ghost use Rattle.aml_world.specs.state.State.{State};
ghost use Rattle.aml_world.specs.state.Events.{event_changed, waited};
ghost use Rattle.aml_meaning.specs.TargetTerms.{target_of};
ghost use Rattle.aml_meaning.specs.Meaning.{meaning};
ghost use Rattle.aml_laws.specs.ObjectTerms.{on_target, on_target_with, Passes, Declared, Undeclared};
ghost use Rattle.aml_laws.specs.OperatorTerms.{GivesValue, IsRefused};
ghost use Rattle.aml_laws.specs.ReferringTargets.{NamesBehind, NamesNothingBehind};

/// A RefOf where a target stands is the target that its operand names, which may be such a term again. A DerefOf is
/// what the reference that its operand gives refers to, which isn't read and has to stand; an Index is what its value
/// refers to (ACPI 6.5, 19.6: DerefOf, Index, RefOf). The target is refused as the operand of the RefOf or of the
/// DerefOf is, or as the Index; a DerefOf of nothing as `NoValue`, of what is no reference as `WrongType`, and of a
/// reference to what is gone as `DeadReference`. A DerefOf that goes on through the reference that it finds, one that
/// isn't tested, and a RefOf or an Index that names nothing where it is refused, are refused by this.
pub fn a_term_that_refers_names_its_target<S>()
    ensures named { (accesses : Accesses S) (scope : List Seg) (depth : ℕ) (u : Tree) (s : State S × ℕ)
        (t : StoreTarget) (after : State S × ℕ) → NamesBehind accesses scope depth u s t after →
        target_of (meaning accesses) scope depth u s ≡ (Ok t, after) }
    ensures unnamed { (accesses : Accesses S) (scope : List Seg) (depth : ℕ) (u : Tree) (s : State S × ℕ) (e : Refusal)
        (after : State S × ℕ) → NamesNothingBehind accesses scope depth u s e after →
        target_of (meaning accesses) scope depth u s ≡ (Err e, after) }
{}

/// In the wide profile Signal, Reset and Wait find the event that a RefOf or a DerefOf names
/// (`a_term_that_refers_names_its_target`): the operand of the RefOf, also an argument that holds a reference to it,
/// and the declaration that the DerefOf's reference refers to. What they do then is what
/// `signals_are_counted_one_by_one` says, or they are refused so. A RefOf of Debug, of a local, or of an argument that
/// holds no reference to a name names no event, nor does a DerefOf of a reference to a local, to an argument, to an
/// element or to a byte, whatever these hold, nor an Index: then they are refused as `WrongType`, a Wait once its
/// timeout is evaluated. Where the target is refused, they are refused so, and a Wait evaluates no timeout. An element
/// that stands for the event to which it refers, and a RefOf that changes no event, are refused by this.
pub fn events_are_found_behind_references<S>()
    ensures signaled { (accesses : Accesses S) (scope : List Seg) (depth : ℕ) (u : Tree) (w : State S) (steps : ℕ) →
        w.profile ≡ profiles.Wide → (t : StoreTarget) (between : State S × ℕ) →
        NamesBehind accesses scope depth u (w, steps) t between → (at : ℕ) (end : State S) →
        Declared between.0 t at → (event_changed changes.Signal (Some at) between.0 ≡ (Ok tt, end) →
        Passes accesses scope depth (on_target opcodes.Signal (inner u)) (w, suc steps) (end, between.1)) ×
        ((e : Refusal) → event_changed changes.Signal (Some at) between.0 ≡ (Err e, end) →
        IsRefused accesses scope depth (on_target opcodes.Signal (inner u)) (w, suc steps) e (end, between.1)) }
    ensures reset { (accesses : Accesses S) (scope : List Seg) (depth : ℕ) (u : Tree) (w : State S) (steps : ℕ) →
        w.profile ≡ profiles.Wide → (t : StoreTarget) (between : State S × ℕ) →
        NamesBehind accesses scope depth u (w, steps) t between → (at : ℕ) (end : State S) →
        Declared between.0 t at → (event_changed changes.Reset (Some at) between.0 ≡ (Ok tt, end) →
        Passes accesses scope depth (on_target opcodes.Reset (inner u)) (w, suc steps) (end, between.1)) ×
        ((e : Refusal) → event_changed changes.Reset (Some at) between.0 ≡ (Err e, end) →
        IsRefused accesses scope depth (on_target opcodes.Reset (inner u)) (w, suc steps) e (end, between.1)) }
    ensures waited { (accesses : Accesses S) (scope : List Seg) (depth : ℕ) (u : Tree) (w : State S) (steps : ℕ) →
        w.profile ≡ profiles.Wide → (t : StoreTarget) (between : State S × ℕ) →
        NamesBehind accesses scope depth u (w, steps) t between → (at : ℕ) → Declared between.0 t at → (x : Tree)
        (v : Value) (after : State S × ℕ) (end : State S) → GivesValue accesses scope depth x between v after →
        ((r : Value) → waited (Some at) v after.0 ≡ (Ok r, end) →
        GivesValue accesses scope depth (on_target_with opcodes.Wait (inner u) x) (w, suc steps) r (end, after.1)) ×
        ((e : Refusal) → waited (Some at) v after.0 ≡ (Err e, end) →
        IsRefused accesses scope depth (on_target_with opcodes.Wait (inner u) x) (w, suc steps) e (end, after.1)) }
    ensures no_event { (accesses : Accesses S) (scope : List Seg) (depth : ℕ) (u : Tree) (w : State S) (steps : ℕ) →
        w.profile ≡ profiles.Wide → (t : StoreTarget) (between : State S × ℕ) →
        NamesBehind accesses scope depth u (w, steps) t between → Undeclared between.0 t → IsRefused accesses scope
        depth (on_target opcodes.Signal (inner u)) (w, suc steps) (refusal.Value WrongType) between × IsRefused
        accesses scope depth (on_target opcodes.Reset (inner u)) (w, suc steps) (refusal.Value WrongType) between ×
        ((x : Tree) (v : Value) (after : State S × ℕ) → GivesValue accesses scope depth x between v after → IsRefused
        accesses scope depth (on_target_with opcodes.Wait (inner u) x) (w, suc steps) (refusal.Value WrongType)
        after) }
    ensures refused { (accesses : Accesses S) (scope : List Seg) (depth : ℕ) (u : Tree) (w : State S) (steps : ℕ) →
        w.profile ≡ profiles.Wide → (e : Refusal) (end : State S × ℕ) →
        target_of (meaning accesses) scope depth u (w, steps) ≡ (Err e, end) →
        IsRefused accesses scope depth (on_target opcodes.Signal (inner u)) (w, suc steps) e end × IsRefused accesses
        scope depth (on_target opcodes.Reset (inner u)) (w, suc steps) e end × ((x : Tree) → IsRefused accesses scope
        depth (on_target_with opcodes.Wait (inner u) x) (w, suc steps) e end) }
{}
