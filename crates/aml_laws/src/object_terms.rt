//! Terms that act on mutexes and events, that refer to names, and that end or pause.
ghost use Rattle.std.specs.Prelude.{◌≡◌, ℕ, suc, List, Some, Ok, Err};
ghost use Rattle.ar_space.specs.Accesses.{Accesses};
ghost use Rattle.ar_space.specs.declared.refusal.Refusal.{Refusal};
ghost use Rattle.ar_space.specs.declared.refusal.Refusal.TheVariants as refusal;
ghost use Rattle.ar_space.specs.declared.refusal.EvaluationFault.TheVariants.{Fatal};
ghost use Rattle.ar_space.specs.declared.refusal.ValueFault.TheVariants.{WrongType};
ghost use Rattle.aml_path.specs.declared.segment.Seg.{Seg};
ghost use Rattle.aml_path.specs.Paths.{Name};
ghost use Rattle.aml_grammar.specs.Tree.{Tree, Part, name};
ghost use Rattle.aml_grammar.specs.declared.opcode.Opcode.TheVariants as opcodes;
ghost use Rattle.aml_objects.specs.declared.value.Reference.{Reference};
ghost use Rattle.aml_objects.specs.declared.value.Value.{Value};
ghost use Rattle.aml_objects.specs.declared.value.Value.TheVariants as value;
ghost use Rattle.aml_namespace.specs.Search.{found};
ghost use Rattle.aml_world.specs.declared.state.profile.Profile.TheVariants as profiles;
ghost use Rattle.aml_world.specs.declared.values.store_target.StoreTarget.{StoreTarget};
ghost use Rattle.aml_world.specs.declared.values.operation_kind.EventChange.TheVariants as changes;
ghost use Rattle.aml_world.specs.state.State.{State};
ghost use Rattle.aml_world.specs.values.StoreTargets.{reference_of};
ghost use Rattle.aml_world.specs.state.Mutexes.{acquired_at, given_back_at};
ghost use Rattle.aml_world.specs.state.Events.{event_changed, waited};
ghost use Rattle.aml_laws.specs.OperatorTerms.{of_one, NamesTarget, GivesValue, Gives, IsRefused};
ghost use Rattle.aml_laws.specs.ObjectTerms.{acquire, on_target, on_target_with, fatal, Passes, NamesDeclaration, NamesNoDeclaration};

/// Acquire acquires the mutex that its operand names, and gives False, which is 0: it never waits. Release gives it
/// back once. Where that is refused, the term is (ACPI 6.5, 19.6: Acquire, Release;
/// `acquisitions_are_counted_one_by_one` says what both do). An Acquire that tells of a timeout, and a Release that
/// does nothing, are refused by this.
pub fn mutexes_are_acquired_and_released_by_their_terms<S>()
    ensures acquired { (accesses : Accesses S) (scope : List Seg) (depth : ℕ) (p : Part) (t : StoreTarget) (w : State S)
        (steps : ℕ) → NamesTarget scope w p t → (end : State S) (time : ℕ) → (acquired_at t w ≡ (Ok tt, end) →
        Gives accesses scope depth (acquire p time) (w, suc steps) 0 (end, steps)) × ((e : Refusal) →
        acquired_at t w ≡ (Err e, end) →
        IsRefused accesses scope depth (acquire p time) (w, suc steps) e (end, steps)) }
    ensures released { (accesses : Accesses S) (scope : List Seg) (depth : ℕ) (p : Part) (t : StoreTarget) (w : State S)
        (steps : ℕ) → NamesTarget scope w p t → (end : State S) → (given_back_at t w ≡ (Ok tt, end) →
        Passes accesses scope depth (on_target opcodes.Release p) (w, suc steps) (end, steps)) × ((e : Refusal) →
        given_back_at t w ≡ (Err e, end) →
        IsRefused accesses scope depth (on_target opcodes.Release p) (w, suc steps) e (end, steps)) }
{}

/// RefOf gives a reference to what its operand names (`a_reference_refers_to_its_target`), which isn't read.
pub fn a_reference_is_given_of_what_is_named<S>()
    ensures { (accesses : Accesses S) (scope : List Seg) (depth : ℕ) (p : Part) (t : StoreTarget) (w : State S)
        (steps : ℕ) → NamesTarget scope w p t → (end : State S) (r : Reference) → reference_of t w ≡ (Ok r, end) →
        GivesValue accesses scope depth (on_target opcodes.RefOf p) (w, suc steps) (value.Reference r)
        (end, steps) }
{}

/// In the wide profile Signal and Reset change the event that their operand names, and Wait waits for it, once its
/// timeout is evaluated: it gives what `signals_are_counted_one_by_one` says (ACPI 6.5, 19.6: Reset, Signal, Wait).
/// The operand here is the event's name, or an argument that holds a reference to it. Where that is refused, as it is
/// of what is no event (`what_is_no_event_takes_no_signal`), the term is. Debug, a local, also one that holds an
/// event, and an argument that holds no reference to a name are refused. A Signal and a Reset that are exchanged, and
/// a local that stands for the event of the number 0, are refused by this.
pub fn events_are_signaled_and_waited_for_by_their_terms<S>()
    ensures signaled { (accesses : Accesses S) (scope : List Seg) (depth : ℕ) (p : Part) (at : ℕ) (w : State S)
        (steps : ℕ) → w.profile ≡ profiles.Wide → NamesDeclaration scope w p at → (end : State S) →
        (event_changed changes.Signal (Some at) w ≡ (Ok tt, end) →
        Passes accesses scope depth (on_target opcodes.Signal p) (w, suc steps) (end, steps)) × ((e : Refusal) →
        event_changed changes.Signal (Some at) w ≡ (Err e, end) →
        IsRefused accesses scope depth (on_target opcodes.Signal p) (w, suc steps) e (end, steps)) }
    ensures reset { (accesses : Accesses S) (scope : List Seg) (depth : ℕ) (p : Part) (at : ℕ) (w : State S)
        (steps : ℕ) → w.profile ≡ profiles.Wide → NamesDeclaration scope w p at → (end : State S) →
        (event_changed changes.Reset (Some at) w ≡ (Ok tt, end) →
        Passes accesses scope depth (on_target opcodes.Reset p) (w, suc steps) (end, steps)) × ((e : Refusal) →
        event_changed changes.Reset (Some at) w ≡ (Err e, end) →
        IsRefused accesses scope depth (on_target opcodes.Reset p) (w, suc steps) e (end, steps)) }
    ensures waited { (accesses : Accesses S) (scope : List Seg) (depth : ℕ) (p : Part) (at : ℕ) (w : State S)
        (steps : ℕ) → w.profile ≡ profiles.Wide → NamesDeclaration scope w p at → (x : Tree) (v : Value)
        (after : State S × ℕ) (end : State S) → GivesValue accesses scope depth x (w, steps) v after → ((r : Value) →
        waited (Some at) v after.0 ≡ (Ok r, end) →
        GivesValue accesses scope depth (on_target_with opcodes.Wait p x) (w, suc steps) r (end, after.1)) ×
        ((e : Refusal) → waited (Some at) v after.0 ≡ (Err e, end) →
        IsRefused accesses scope depth (on_target_with opcodes.Wait p x) (w, suc steps) e (end, after.1)) }
    ensures unnamed { (accesses : Accesses S) (scope : List Seg) (depth : ℕ) (p : Part) (w : State S) (steps : ℕ) →
        w.profile ≡ profiles.Wide → NamesNoDeclaration scope w p → IsRefused accesses scope depth
        (on_target opcodes.Signal p) (w, suc steps) (refusal.Value WrongType) (w, steps) × IsRefused accesses scope
        depth (on_target opcodes.Reset p) (w, suc steps) (refusal.Value WrongType) (w, steps) × ((x : Tree) (v : Value)
        (after : State S × ℕ) → GivesValue accesses scope depth x (w, steps) v after → IsRefused accesses scope depth
        (on_target_with opcodes.Wait p x) (w, suc steps) (refusal.Value WrongType) after) }
{}

/// Fatal ends the evaluation, once its argument is evaluated. Sleep and Stall evaluate their operand, and no time
/// passes. Notify finds what its first operand names, and then evaluates its second one, and nobody is told; a name
/// that isn't found is refused before that (ACPI 6.5, 19.6: Fatal, Notify, Sleep, Stall). A Fatal that goes on, and a
/// Notify of a name that doesn't exist, are refused by this.
pub fn a_fatal_term_ends_and_others_pass<S>()
    ensures fatal { (accesses : Accesses S) (scope : List Seg) (depth : ℕ) (x : Tree) (w : State S) (steps : ℕ)
        (v : Value) (after : State S × ℕ) → GivesValue accesses scope depth x (w, steps) v after → (kind code : ℕ) →
        IsRefused accesses scope depth (fatal kind code x) (w, suc steps) (refusal.Evaluation Fatal) after }
    ensures pauses { (accesses : Accesses S) (scope : List Seg) (depth : ℕ) (x : Tree) (w : State S) (steps : ℕ)
        (v : Value) (after : State S × ℕ) → GivesValue accesses scope depth x (w, steps) v after →
        Passes accesses scope depth (of_one opcodes.Sleep x) (w, suc steps) after ×
        Passes accesses scope depth (of_one opcodes.Stall x) (w, suc steps) after }
    ensures notified { (accesses : Accesses S) (scope : List Seg) (depth : ℕ) (x : Tree) (w : State S) (steps : ℕ)
        (v : Value) (after : State S × ℕ) → GivesValue accesses scope depth x (w, steps) v after → (p : Part)
        (t : StoreTarget) → NamesTarget scope w p t →
        Passes accesses scope depth (on_target_with opcodes.Notify p x) (w, suc steps) after }
    ensures unfound { (accesses : Accesses S) (scope : List Seg) (depth : ℕ) (x : Tree) (w : State S) (steps : ℕ)
        (n : Name) (e : Refusal) → found w.names.map scope n ≡ Err e →
        IsRefused accesses scope depth (on_target_with opcodes.Notify (name n) x) (w, suc steps) e (w, steps) }
{}
