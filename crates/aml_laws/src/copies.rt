//! Copies of values.
ghost use Rattle.std.specs.Prelude.{◌≡◌, ◌≤◌, ◌<◌, ◌++◌, ◌+◌, ℕ, List, length, Ok, Err};
ghost use Rattle.ar_space.specs.declared.refusal.Refusal.TheVariants.{Evaluation};
ghost use Rattle.ar_space.specs.declared.refusal.EvaluationFault.TheVariants.{ObjectLimit};
ghost use Rattle.aml_path.specs.declared.segment.Seg.{Seg};
ghost use Rattle.aml_objects.specs.Objects.{Objects};
ghost use Rattle.aml_objects.specs.Copies.{copied};
ghost use Rattle.aml_objects.specs.declared.value.Value.{Value};
ghost use Rattle.aml_objects.specs.declared.value.Value.TheVariants as value;
ghost use Rattle.aml_objects.specs.declared.value.Slot.TheVariants.{Local};
ghost use Rattle.aml_world.specs.declared.values.store_target.StoreTarget.TheVariants as targets;
ghost use Rattle.aml_world.specs.declared.values.store_target.Stored.TheVariants as store;
ghost use Rattle.aml_world.specs.state.State.{State};
ghost use Rattle.aml_world.specs.values.Stores.{stored, copied_to};
ghost use Rattle.aml_laws.specs.Copied.{IsCopy, StandsAt};
ghost use Rattle.aml_laws.specs.Copyable.{IsCopyable};
ghost use Rattle.aml_laws.specs.Limits.{IsNested};
ghost use Rattle.aml_laws.specs.StoredCopies.{NameHoldsCopy, LocalHoldsCopy};

/// A copy holds the same integers, bytes and references as its source, element by element, and shares no object with
/// it: each string, buffer and package of the copy, however deep, is an object that was not there before, and all that
/// were stay as they are. Nor do two parts of the copy share one: each of its objects stands at one place of it, so that
/// a Store into one part changes no other. A copy that shares a package inside, one whose equal parts are one object, one
/// that leaves an element out, and one that resolves a name in a package are refused by this.
#[tactic(auto, using(crate::proofs::CopiesApart::copy_is_apart, crate::proofs::CopiesApart::copy_adds, crate::proofs::CopiesApart::copy_stands_once))]
pub fn a_copy_is_the_same_apart_from_its_source()
    ensures same { (before after : Objects) (v u : Value) → copied v before ≡ (Ok u, after) →
        IsCopy (length before) after v u }
    ensures added { (before after : Objects) (v u : Value) → copied v before ≡ (Ok u, after) →
        (made : Objects) × (after ≡ before ++ made) }
    ensures once { (before after : Objects) (v u : Value) → copied v before ≡ (Ok u, after) →
        (place other : List ℕ) (o : ℕ) → StandsAt after place o u → StandsAt after other o u → place ≡ other }
{}

/// A value is copied where its objects stand, its packages nest at most 64 deep, and there is room for as many objects
/// as it has: the copy makes that many and no more. So no copy is refused that is within the limits, and one that makes
/// an object for an integer, or none for a string, is refused by this.
#[tactic(auto, using(crate::proofs::CopiesAnswered::copy_answers))]
pub fn what_is_within_the_limits_is_copied()
    ensures { (objects : Objects) (count : ℕ) (v : Value) → IsCopyable objects 64 count v →
        length objects + count ≤ 262144 → (u : Value) × ((made : Objects) ×
        ((copied v objects ≡ (Ok u, objects ++ made)) × (length made ≡ count))) }
{}

/// Any other value whose objects stand, and whose strings and buffers are within their limit, is refused as too much:
/// one whose packages nest more than 64 deep, and one that has more objects than there is room for. So is a package
/// that has another as its first element, and so on 65 deep or deeper, whatever else stands in it. Nothing changes
/// then. With `what_is_within_the_limits_is_copied` a copy is refused exactly above its limits, and one that is made of
/// packages 65 deep, or that leaves the objects that it made before it was refused, is refused by this.
#[tactic(auto, using(crate::proofs::CopiesRefused::what_is_beyond_the_limits_is_not_copied))]
pub fn what_is_beyond_the_limits_is_not_copied()
    ensures deep { (objects : Objects) (deep count : ℕ) (v : Value) → IsCopyable objects deep count v →
        (IsCopyable objects 64 count v → ⊥) → copied v objects ≡ (Err (Evaluation ObjectLimit), objects) }
    ensures room { (objects : Objects) (deep count : ℕ) (v : Value) → IsCopyable objects deep count v →
        length objects ≤ 262144 → 262144 < length objects + count →
        copied v objects ≡ (Err (Evaluation ObjectLimit), objects) }
    ensures nested { (objects : Objects) (n o : ℕ) → IsNested objects n o → 64 < n →
        copied (value.Package o) objects ≡ (Err (Evaluation ObjectLimit), objects) }
{}

/// What CopyObject leaves in a name that held a value, and what Store and CopyObject leave in a local, is a copy of
/// the value, as `a_copy_is_the_same_apart_from_its_source` says. The name keeps the number of its declaration. Nothing
/// else of the world changes but that objects stand behind all that were there before, among them those of the copy.
/// When it is done, and that the copy's objects are the only ones, `names_take_copies` and `slots_take_copies` say. A
/// store that keeps the very object of its source, and one that declares the name anew, are refused by this.
pub fn what_is_stored_is_a_copy<S>()
    ensures named { (before after : State S) (path : List Seg) (v : Value) →
        copied_to (targets.Name path) v before ≡ (Ok store.Done, after) → NameHoldsCopy before after path v }
    ensures local { (before after : State S) (i : ℕ) (v : Value) →
        stored (targets.Slot (Local i)) v before ≡ (Ok store.Done, after) → LocalHoldsCopy before after i v }
    ensures local_copied { (before after : State S) (i : ℕ) (v : Value) →
        copied_to (targets.Slot (Local i)) v before ≡ (Ok store.Done, after) → LocalHoldsCopy before after i v }
{}
