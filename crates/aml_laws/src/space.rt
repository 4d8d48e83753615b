//! The register space.
ghost use Rattle.std.specs.Prelude.{◌≡◌, ◌≢◌, ℕ, List, Bool, true, Err};
ghost use Rattle.ar_space.specs.declared.refusal.SpaceFault.{SpaceFault};
ghost use Rattle.ar_space.specs.declared.refusal.Refusal.TheVariants.{Space};
ghost use Rattle.ar_space.specs.Accesses.{Accesses};
ghost use Rattle.aml_path.specs.declared.segment.Seg.{Seg};
ghost use Rattle.aml_grammar.specs.Tree.{Trees};
ghost use Rattle.aml_objects.specs.declared.value.Value.{Value};
ghost use Rattle.aml_objects.specs.declared.entry.FieldUnit.{FieldUnit};
ghost use Rattle.aml_fields.specs.declared.region.Region.{Region};
ghost use Rattle.aml_fields.specs.Regions.{read_field, write_field};
ghost use Rattle.aml_world.specs.state.State.{State};
ghost use Rattle.aml_world.specs.state.Given.{Given};
ghost use Rattle.aml_meaning.specs.Tasks.{Task, in_turn};
ghost use Rattle.aml_meaning.specs.Calls.{invoked};
ghost use Rattle.aml_meaning.specs.Meaning.{meaning};
ghost use Rattle.aml_meaning.specs.Calling.{loaded, evaluated, answered};
ghost use Rattle.aml_laws.specs.Becomes.{Becomes};
ghost use Rattle.aml_laws.specs.Reached.{Reached, KeptByAccesses};
ghost use Rattle.aml_laws.specs.SpaceFaults.{LastFaults, NeverFaults};

/// Whatever is evaluated reaches the register space by reads and writes alone. So what every read and every write
/// keeps of the space, every evaluation keeps.
#[tactic(auto, using(crate::proofs::SpaceReached::space_reached, crate::proofs::SpaceReached::space_keeps_test))]
pub fn space_is_reached_by_accesses<S>()
    ensures reached { (accesses : Accesses S) (w v : State S) → Becomes accesses w v →
        Reached accesses w.space v.space }
    ensures kept { (accesses : Accesses S) (test : S → Bool) (w v : State S) → KeptByAccesses accesses test →
        Becomes accesses w v → test w.space ≡ true → test v.space ≡ true }
{}

/// Where a term, a list of terms, a call of a control method, a table, an object with arguments, an answer or an
/// access of a field is refused by a fault of the register space, accesses that are all answered with values lead
/// from the space before it to a space at which one more is answered with that fault, and the space is left as that
/// access leaves it. Of the accesses that were made themselves `space_faults_are_answers_of_the_last_access` says so.
#[tactic(auto, using(crate::proofs::SpaceFaultsExplained::space_faults_are_reached_by_accesses))]
pub fn space_faults_are_reached_by_accesses<S>()
    ensures term { (accesses : Accesses S) (fault : SpaceFault) (t : Task) (s : State S × ℕ) →
        (meaning accesses t s).0 ≡ Err (Space fault) → LastFaults accesses fault s.0.space
        (meaning accesses t s).1.0.space }
    ensures list { (accesses : Accesses S) (fault : SpaceFault) (scope : List Seg) (depth : ℕ)
        (ts : Trees) (s : State S × ℕ) →
        (in_turn (meaning accesses) scope depth ts s).0 ≡ Err (Space fault) →
        LastFaults accesses fault s.0.space (in_turn (meaning accesses) scope depth ts s).1.0.space }
    ensures call { (accesses : Accesses S) (fault : SpaceFault) (depth : ℕ) (p : List Seg) (body : List ℕ)
        (arguments : List Value) (s : State S × ℕ) →
        (invoked (meaning accesses) depth p body arguments s).0 ≡ Err (Space fault) →
        LastFaults accesses fault s.0.space (invoked (meaning accesses) depth p body arguments s).1.0.space }
    ensures table { (accesses : Accesses S) (fault : SpaceFault) (bytes : List ℕ) (steps : ℕ) (w : State S) →
        (loaded accesses bytes steps w).0 ≡ Err (Space fault) → LastFaults accesses fault w.space
        (loaded accesses bytes steps w).1.space }
    ensures value { (accesses : Accesses S) (fault : SpaceFault) (p : List Seg) (arguments : List Value)
        (steps : ℕ) (w : State S) →
        (evaluated accesses p arguments steps w).0 ≡ Err (Space fault) →
        LastFaults accesses fault w.space (evaluated accesses p arguments steps w).1.space }
    ensures answer { (accesses : Accesses S) (fault : SpaceFault) (p : List Seg) (arguments : List Given)
        (steps : ℕ) (w : State S) →
        (answered accesses p arguments steps w).0 ≡ Err (Space fault) →
        LastFaults accesses fault w.space (answered accesses p arguments steps w).1.space }
    ensures field_read { (accesses : Accesses S) (fault : SpaceFault) (r : Region) (f : FieldUnit) (s : S) →
        (read_field accesses r f s).0 ≡ Err (Space fault) → LastFaults accesses fault s (read_field accesses r f s).1 }
    ensures field_written { (accesses : Accesses S) (fault : SpaceFault) (r : Region) (f : FieldUnit)
        (source : List ℕ) (s : S) →
        (write_field accesses r f source s).0 ≡ Err (Space fault) →
        LastFaults accesses fault s (write_field accesses r f source s).1 }
{}

/// Where no access ever answers with a fault, no table, object or answer is refused by it.
#[tactic(auto, using(crate::proofs::SpaceFaultsExplained::faults_that_no_access_answers_are_never_refused))]
pub fn faults_that_no_access_answers_are_never_refused<S>()
    ensures table { (accesses : Accesses S) (fault : SpaceFault) (bytes : List ℕ) (steps : ℕ) (w : State S) →
        NeverFaults accesses fault → (loaded accesses bytes steps w).0 ≢ Err (Space fault) }
    ensures value { (accesses : Accesses S) (fault : SpaceFault) (p : List Seg) (arguments : List Value)
        (steps : ℕ) (w : State S) →
        NeverFaults accesses fault → (evaluated accesses p arguments steps w).0 ≢ Err (Space fault) }
    ensures answer { (accesses : Accesses S) (fault : SpaceFault) (p : List Seg) (arguments : List Given)
        (steps : ℕ) (w : State S) →
        NeverFaults accesses fault → (answered accesses p arguments steps w).0 ≢ Err (Space fault) }
{}
