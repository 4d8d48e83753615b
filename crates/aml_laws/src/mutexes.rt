//! Mutexes.
ghost use Rattle.std.specs.Prelude.{◌≡◌, ◌<◌, ◌+◌, ◌-◌, ◌^◌, ℕ, List, Some, Ok, Err};
ghost use Rattle.std.specs.FinMap.{get};
ghost use Rattle.ar_space.specs.declared.refusal.Refusal.TheVariants.{Evaluation, Value};
ghost use Rattle.ar_space.specs.declared.refusal.EvaluationFault.TheVariants.{NotAcquired, ObjectLimit};
ghost use Rattle.ar_space.specs.declared.refusal.ValueFault.TheVariants.{WrongType};
ghost use Rattle.ar_space.specs.Accesses.{Accesses};
ghost use Rattle.aml_path.specs.declared.segment.Seg.{Seg};
ghost use Rattle.aml_objects.specs.declared.entry.Entry.{Entry};
ghost use Rattle.aml_objects.specs.declared.value.Reference.{Reference};
ghost use Rattle.aml_objects.specs.declared.value.Reference.TheVariants as reference;
ghost use Rattle.aml_objects.specs.declared.value.Slot.{Slot};
ghost use Rattle.aml_namespace.specs.Numbering.{Numbered};
ghost use Rattle.aml_world.specs.declared.values.store_target.StoreTarget.TheVariants as targets;
ghost use Rattle.aml_world.specs.state.Given.{Given};
ghost use Rattle.aml_world.specs.state.State.{State};
ghost use Rattle.aml_world.specs.state.Mutexes.{acquired, given_back, acquired_at, given_back_at};
ghost use Rattle.aml_meaning.specs.Calling.{loaded, answered};
ghost use Rattle.aml_laws.specs.Mutexes.{mutex_entry, with_acquisitions, AllFree, IsNoMutex};

/// No mutex is held after a table or an answer, however it ended.
#[tactic(auto, using(crate::proofs::MutexesFree::no_mutex_stays_acquired))]
pub fn no_mutex_stays_acquired<S>()
    ensures tables { (accesses : Accesses S) (bytes : List ℕ) (steps : ℕ) (w : State S) →
        AllFree (loaded accesses bytes steps w).1 }
    ensures answers { (accesses : Accesses S) (path : List Seg) (arguments : List Given) (steps : ℕ) (w : State S) →
        AllFree (answered accesses path arguments steps w).1 }
{}

/// How often a mutex is acquired is counted one by one: Acquire adds one, or is refused where 2^64 - 1 are counted;
/// Release takes one, or is refused where there is none. Nothing else of the world changes. A target that is a name
/// acquires and releases what stands at its path. A Release that frees the mutex at once, and an Acquire of a name
/// that acquires nothing, are refused by this.
#[tactic(auto, using(crate::proofs::MutexesCounted::acquisitions_are_counted_one_by_one))]
pub fn acquisitions_are_counted_one_by_one<S>()
    ensures added { (w : State S) (path : List Seg) (number count : ℕ) →
        get w.names.map path ≡ Some (mutex_entry number count) → count < 2 ^ 64 - 1 →
        acquired path w ≡ (Ok tt, with_acquisitions w path number (count + 1)) }
    ensures full { (w : State S) (path : List Seg) (number : ℕ) →
        get w.names.map path ≡ Some (mutex_entry number (2 ^ 64 - 1)) →
        acquired path w ≡ (Err (Evaluation ObjectLimit), w) }
    ensures taken { (w : State S) (path : List Seg) (number count : ℕ) →
        get w.names.map path ≡ Some (mutex_entry number count) → 0 < count →
        given_back path w ≡ (Ok tt, with_acquisitions w path number (count - 1)) }
    ensures free { (w : State S) (path : List Seg) (number : ℕ) →
        get w.names.map path ≡ Some (mutex_entry number 0) → given_back path w ≡ (Err (Evaluation NotAcquired), w) }
    ensures named { (w : State S) (path : List Seg) → (acquired_at (targets.Name path) w ≡ acquired path w) ×
        (given_back_at (targets.Name path) w ≡ given_back path w) }
{}

/// A name that is declared as anything but a mutex can neither be acquired nor released (ACPI 6.5, 19.6: Acquire,
/// Release), and nothing changes; nor can Debug, a local and an argument, nor a slot, an element and a byte by a
/// reference. A reference to a declaration acquires and releases what its name does. A device that becomes a mutex is
/// refused by this.
pub fn what_is_no_mutex_is_neither_acquired_nor_released<S>()
    ensures names { (w : State S) (path : List Seg) (e : Entry) → get w.names.map path ≡ Some e → IsNoMutex e.object →
        (acquired_at (targets.Name path) w ≡ (Err (Value WrongType), w)) ×
        (given_back_at (targets.Name path) w ≡ (Err (Value WrongType), w)) }
    ensures others { (w : State S) (s : Slot) → (acquired_at (targets.Slot s) w ≡ (Err (Value WrongType), w)) ×
        (given_back_at (targets.Slot s) w ≡ (Err (Value WrongType), w)) ×
        (acquired_at targets.Nowhere w ≡ (Err (Value WrongType), w)) ×
        (given_back_at targets.Nowhere w ≡ (Err (Value WrongType), w)) }
    ensures referred { (w : State S) (path : List Seg) (e : Entry) → Numbered w.names →
        get w.names.map path ≡ Some e →
        (acquired_at (targets.Refers (reference.Name e.number)) w ≡ acquired_at (targets.Name path) w) ×
        (given_back_at (targets.Refers (reference.Name e.number)) w ≡ given_back_at (targets.Name path) w) }
    ensures other_references { (w : State S) (r : Reference) → ((number : ℕ) → r ≡ reference.Name number → ⊥) →
        (acquired_at (targets.Refers r) w ≡ (Err (Value WrongType), w)) ×
        (given_back_at (targets.Refers r) w ≡ (Err (Value WrongType), w)) }
{}
