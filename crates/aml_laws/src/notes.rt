//! The accesses that an evaluation makes of the register space.
ghost use Rattle.std.specs.Prelude.{◌≡◌, ℕ, List};
ghost use Rattle.ar_space.specs.Accesses.{Accesses};
ghost use Rattle.aml_path.specs.declared.segment.Seg.{Seg};
ghost use Rattle.aml_grammar.specs.Tree.{Trees};
ghost use Rattle.aml_objects.specs.declared.value.Value.{Value};
ghost use Rattle.aml_objects.specs.declared.entry.FieldUnit.{FieldUnit};
ghost use Rattle.aml_fields.specs.declared.region.Region.{Region};
ghost use Rattle.aml_fields.specs.Regions.{read_field, write_field};
ghost use Rattle.aml_world.specs.state.State.{State};
ghost use Rattle.aml_world.specs.state.Given.{Given};
ghost use Rattle.aml_meaning.specs.Tasks.{Task, in_turn};
ghost use Rattle.aml_meaning.specs.Calls.{invoked};
ghost use Rattle.aml_meaning.specs.Meaning.{meaning};
ghost use Rattle.aml_meaning.specs.Calling.{loaded, evaluated, answered};
ghost use Rattle.aml_laws.specs.Noted.{WithNotes, noted, without_notes, outcome_without_notes, TellsNotes};

/// The accesses of a register space can be noted, each with its answer, and that changes nothing: the value or the
/// refusal of a term, a list of terms, a call of a control method, a table, an object with arguments, an answer or an
/// access of a field is the one without notes, and so are the world, with its space, and the steps that are left.
#[tactic(auto, using(crate::proofs::Noting::noting_changes_nothing))]
pub fn noting_changes_nothing<S>()
    ensures term { (accesses : Accesses S) (t : Task) (s : State (WithNotes S) × ℕ) →
        meaning accesses t (without_notes s.0, s.1) ≡ outcome_without_notes (meaning (noted accesses) t s) }
    ensures list { (accesses : Accesses S) (scope : List Seg) (depth : ℕ) (ts : Trees) (s : State (WithNotes S) × ℕ) →
        in_turn (meaning accesses) scope depth ts (without_notes s.0, s.1) ≡
        outcome_without_notes (in_turn (meaning (noted accesses)) scope depth ts s) }
    ensures call { (accesses : Accesses S) (depth : ℕ) (p : List Seg) (body : List ℕ) (arguments : List Value)
        (s : State (WithNotes S) × ℕ) →
        invoked (meaning accesses) depth p body arguments (without_notes s.0, s.1) ≡
        outcome_without_notes (invoked (meaning (noted accesses)) depth p body arguments s) }
    ensures table { (accesses : Accesses S) (bytes : List ℕ) (steps : ℕ) (w : State (WithNotes S)) →
        loaded accesses bytes steps (without_notes w) ≡ (
          (loaded (noted accesses) bytes steps w).0,
          without_notes (loaded (noted accesses) bytes steps w).1,
        ) }
    ensures value { (accesses : Accesses S) (p : List Seg) (arguments : List Value) (steps : ℕ)
        (w : State (WithNotes S)) →
        evaluated accesses p arguments steps (without_notes w) ≡ (
          (evaluated (noted accesses) p arguments steps w).0,
          without_notes (evaluated (noted accesses) p arguments steps w).1,
        ) }
    ensures answer { (accesses : Accesses S) (p : List Seg) (arguments : List Given) (steps : ℕ)
        (w : State (WithNotes S)) →
        answered accesses p arguments steps (without_notes w) ≡ (
          (answered (noted accesses) p arguments steps w).0,
          without_notes (answered (noted accesses) p arguments steps w).1,
        ) }
    ensures field_read { (accesses : Accesses S) (r : Region) (f : FieldUnit) (s : WithNotes S) →
        read_field accesses r f s.0 ≡ ((read_field (noted accesses) r f s).0, (read_field (noted accesses) r f s).1.0) }
    ensures field_written { (accesses : Accesses S) (r : Region) (f : FieldUnit) (source : List ℕ) (s : WithNotes S) →
        write_field accesses r f source s.0 ≡ (
          (write_field (noted accesses) r f source s).0,
          (write_field (noted accesses) r f source s).1.0,
        ) }
{}

/// Where a term, a list of terms, a call of a control method, a table, an object with arguments, an answer or an
/// access of a field is refused by a fault of the register space, the last of its own accesses is answered with that
/// fault, and all those before it with values. However else it ends, all its accesses are answered with values: no
/// fault of the register space is passed over.
#[tactic(auto, using(crate::proofs::SpaceFaultsNoted::space_faults_are_answers_of_the_last_access))]
pub fn space_faults_are_answers_of_the_last_access<S>()
    ensures term { (accesses : Accesses S) (t : Task) (s : State (WithNotes S) × ℕ) →
        TellsNotes (meaning (noted accesses) t s).0 s.0.space (meaning (noted accesses) t s).1.0.space }
    ensures list { (accesses : Accesses S) (scope : List Seg) (depth : ℕ) (ts : Trees) (s : State (WithNotes S) × ℕ) →
        TellsNotes (in_turn (meaning (noted accesses)) scope depth ts s).0 s.0.space
        (in_turn (meaning (noted accesses)) scope depth ts s).1.0.space }
    ensures call { (accesses : Accesses S) (depth : ℕ) (p : List Seg) (body : List ℕ) (arguments : List Value)
        (s : State (WithNotes S) × ℕ) →
        TellsNotes (invoked (meaning (noted accesses)) depth p body arguments s).0 s.0.space
        (invoked (meaning (noted accesses)) depth p body arguments s).1.0.space }
    ensures table { (accesses : Accesses S) (bytes : List ℕ) (steps : ℕ) (w : State (WithNotes S)) →
        TellsNotes (loaded (noted accesses) bytes steps w).0 w.space (loaded (noted accesses) bytes steps w).1.space }
    ensures value { (accesses : Accesses S) (p : List Seg) (arguments : List Value) (steps : ℕ)
        (w : State (WithNotes S)) →
        TellsNotes (evaluated (noted accesses) p arguments steps w).0 w.space
        (evaluated (noted accesses) p arguments steps w).1.space }
    ensures answer { (accesses : Accesses S) (p : List Seg) (arguments : List Given) (steps : ℕ)
        (w : State (WithNotes S)) →
        TellsNotes (answered (noted accesses) p arguments steps w).0 w.space
        (answered (noted accesses) p arguments steps w).1.space }
    ensures field_read { (accesses : Accesses S) (r : Region) (f : FieldUnit) (s : WithNotes S) →
        TellsNotes (read_field (noted accesses) r f s).0 s (read_field (noted accesses) r f s).1 }
    ensures field_written { (accesses : Accesses S) (r : Region) (f : FieldUnit) (source : List ℕ) (s : WithNotes S) →
        TellsNotes (write_field (noted accesses) r f source s).0 s (write_field (noted accesses) r f source s).1 }
{}
