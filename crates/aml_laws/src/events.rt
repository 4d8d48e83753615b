//! Events.
ghost use Rattle.std.specs.Prelude.{◌≡◌, ◌<◌, ◌+◌, ◌-◌, ◌^◌, ℕ, suc, List, length, Some, Ok, Err};
ghost use Rattle.std.specs.FinMap.{get};
ghost use Rattle.ar_space.specs.declared.refusal.Refusal.{Refusal};
ghost use Rattle.ar_space.specs.declared.refusal.Refusal.TheVariants as refusal;
ghost use Rattle.ar_space.specs.declared.refusal.EvaluationFault.TheVariants.{DeadReference, ObjectLimit};
ghost use Rattle.ar_space.specs.declared.refusal.ValueFault.TheVariants.{WrongType};
ghost use Rattle.ar_space.specs.Accesses.{Accesses};
ghost use Rattle.aml_path.specs.declared.segment.Seg.{Seg};
ghost use Rattle.aml_grammar.specs.Tree.{Tree, Part};
ghost use Rattle.aml_grammar.specs.declared.opcode.Opcode.TheVariants as opcodes;
ghost use Rattle.aml_namespace.specs.Numbering.{Numbered};
ghost use Rattle.aml_objects.specs.declared.entry.Entry.{Entry};
ghost use Rattle.aml_objects.specs.declared.value.Value.{Value};
ghost use Rattle.aml_objects.specs.declared.value.Value.TheVariants.{Integer};
ghost use Rattle.aml_convert.specs.Integers.{ones};
ghost use Rattle.aml_world.specs.declared.state.profile.Profile.TheVariants as profiles;
ghost use Rattle.aml_world.specs.declared.values.store_target.StoreTarget.{StoreTarget};
ghost use Rattle.aml_world.specs.declared.values.operation_kind.EventChange.TheVariants.{Signal, Reset};
ghost use Rattle.aml_world.specs.state.Given.{Given};
ghost use Rattle.aml_world.specs.state.State.{State};
ghost use Rattle.aml_world.specs.state.Readings.{integer_in};
ghost use Rattle.aml_world.specs.state.Events.{event_changed, waited};
ghost use Rattle.aml_meaning.specs.Calling.{with_steps, table_run, loaded, answer_exported, answered};
ghost use Rattle.aml_laws.specs.Events.{event_entry, with_signals, IsNoEvent, NoDeclarationHas};
ghost use Rattle.aml_laws.specs.ObjectTerms.{on_target_with, Declared};
ghost use Rattle.aml_laws.specs.OperatorTerms.{GivesValue, IsRefused};
ghost use Rattle.aml_laws.specs.TargetsNamed.{NamesAt};

/// A Wait takes what a Signal of the same event gave: it gives False, and the world is the one before both. Where its
/// timeout doesn't convert to an integer it is refused for that, and leaves the signal. A Wait that leaves the count,
/// or takes it all, is refused by this. That the numbers of declarations are apart holds of all worlds
/// (`numbers_are_given_once`).
pub fn a_wait_takes_a_signal<S>()
    ensures taken { (w after : State S) (path : List Seg) (number count time : ℕ) (timeout : Value) → Numbered w.names →
        get w.names.map path ≡ Some (event_entry number count) →
        event_changed Signal (Some number) w ≡ (Ok tt, after) → integer_in timeout after ≡ (Ok time, after) →
        waited (Some number) timeout after ≡ (Ok (Integer 0), w) }
    ensures refused { (w after : State S) (path : List Seg) (number count : ℕ) (timeout : Value) (e : Refusal) →
        Numbered w.names → get w.names.map path ≡ Some (event_entry number count) →
        event_changed Signal (Some number) w ≡ (Ok tt, after) → integer_in timeout after ≡ (Err e, after) →
        waited (Some number) timeout after ≡ (Err e, after) }
{}

/// The signals of an event are counted one by one: a Signal adds one, or is refused where 2^64 - 1 are counted; a Reset
/// leaves none; a Wait takes one and gives False, or gives True where there is none. Nothing else of the world changes;
/// and nothing at all where the timeout of a Wait doesn't convert to an integer, which it is refused for then. A Signal
/// of two that a Wait of two takes back is refused by this.
#[tactic(auto, using(crate::proofs::EventsCounted::signals_are_counted_one_by_one))]
pub fn signals_are_counted_one_by_one<S>()
    ensures added { (w : State S) (path : List Seg) (number count : ℕ) → Numbered w.names →
        get w.names.map path ≡ Some (event_entry number count) → count < 2 ^ 64 - 1 →
        event_changed Signal (Some number) w ≡ (Ok tt, with_signals w path number (count + 1)) }
    ensures full { (w : State S) (path : List Seg) (number : ℕ) → Numbered w.names →
        get w.names.map path ≡ Some (event_entry number (2 ^ 64 - 1)) →
        event_changed Signal (Some number) w ≡ (Err (refusal.Evaluation ObjectLimit), w) }
    ensures reset { (w : State S) (path : List Seg) (number count : ℕ) → Numbered w.names →
        get w.names.map path ≡ Some (event_entry number count) →
        event_changed Reset (Some number) w ≡ (Ok tt, with_signals w path number 0) }
    ensures taken { (w : State S) (path : List Seg) (number count : ℕ) (timeout : Value) (time : ℕ) →
        Numbered w.names → get w.names.map path ≡ Some (event_entry number count) → 0 < count →
        integer_in timeout w ≡ (Ok time, w) →
        waited (Some number) timeout w ≡ (Ok (Integer 0), with_signals w path number (count - 1)) }
    ensures none { (w : State S) (path : List Seg) (number : ℕ) (timeout : Value) (time : ℕ) → Numbered w.names →
        get w.names.map path ≡ Some (event_entry number 0) → integer_in timeout w ≡ (Ok time, w) →
        waited (Some number) timeout w ≡ (Ok (Integer (ones w.width)), w) }
    ensures left { (w : State S) (path : List Seg) (number count : ℕ) (timeout : Value) (e : Refusal) →
        Numbered w.names → get w.names.map path ≡ Some (event_entry number count) →
        integer_in timeout w ≡ (Err e, w) → waited (Some number) timeout w ≡ (Err e, w) }
{}

/// What is declared as anything but an event can neither be signaled nor reset nor waited for (ACPI 6.5, 19.6: Reset,
/// Signal, Wait), and nothing changes. A mutex that becomes an event is refused by this.
pub fn what_is_no_event_takes_no_signal<S>()
    ensures { (w : State S) (path : List Seg) (e : Entry) → Numbered w.names → get w.names.map path ≡ Some e →
        IsNoEvent e.object → (event_changed Signal (Some e.number) w ≡ (Err (refusal.Value WrongType), w)) ×
        (event_changed Reset (Some e.number) w ≡ (Err (refusal.Value WrongType), w)) × ((timeout : Value) →
        waited (Some e.number) timeout w ≡ (Err (refusal.Value WrongType), w)) }
{}

/// An event whose declaration is gone can't be signaled, reset or waited for: Signal, Reset and Wait are refused as
/// `DeadReference`, whatever the timeout of the Wait is, and nothing changes (ACPI 6.5, 19.6: Reset, Signal, Wait). In
/// the wide profile this also holds of a Wait term that finds its event and loses it while the timeout is evaluated, for
/// example by a call of a control method that removes it; the world is then the one that the timeout left. A Wait that
/// treats an event that is gone as one without signals is refused by this.
pub fn an_event_that_is_gone_takes_no_signal<S>()
    ensures gone { (w : State S) (number : ℕ) → NoDeclarationHas w number →
        (event_changed Signal (Some number) w ≡ (Err (refusal.Evaluation DeadReference), w)) ×
        (event_changed Reset (Some number) w ≡ (Err (refusal.Evaluation DeadReference), w)) × ((timeout : Value) →
        waited (Some number) timeout w ≡ (Err (refusal.Evaluation DeadReference), w)) }
    ensures meanwhile { (accesses : Accesses S) (scope : List Seg) (depth : ℕ) (p : Part) (t : StoreTarget)
        (w : State S) (steps : ℕ) (between : State S × ℕ) → w.profile ≡ profiles.Wide →
        NamesAt accesses scope depth (w, steps) p t between → (number : ℕ) → Declared between.0 t number → (x : Tree)
        (timeout : Value) (after : State S × ℕ) → GivesValue accesses scope depth x between timeout after →
        NoDeclarationHas after.0 number → IsRefused accesses scope depth (on_target_with opcodes.Wait p x) (w, suc steps)
        (refusal.Evaluation DeadReference) after }
{}

/// Signals that no Wait took outlive the table or the answer in which they were given: where it ends, all mutexes are
/// released, and this leaves what the event counts. That it ends with the world that its terms left
/// `a_table_leaves_what_its_terms_left` and `an_answer_leaves_what_its_evaluation_left` say.
#[tactic(auto, using(crate::proofs::EventsCounted::signals_outlive_an_answer))]
pub fn signals_outlive_an_answer<S>()
    ensures tables { (path : List Seg) (number count : ℕ) (accesses : Accesses S) (bytes : List ℕ) (steps : ℕ)
        (w : State S) → get (table_run accesses steps bytes w).1.names.map path ≡ Some (event_entry number count) →
        get (loaded accesses bytes steps w).1.names.map path ≡ Some (event_entry number count) }
    ensures answers { (path : List Seg) (number count : ℕ) (accesses : Accesses S) (p : List Seg)
        (arguments : List Given) (steps : ℕ) (w : State S) →
        get (with_steps steps (answer_exported accesses p (length arguments) arguments) w).1.names.map path ≡
        Some (event_entry number count) →
        get (answered accesses p arguments steps w).1.names.map path ≡ Some (event_entry number count) }
{}
