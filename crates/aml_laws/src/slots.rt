//! Slots of control methods that have called others.
ghost use Rattle.std.specs.Prelude.{◌≡◌, ℕ, List, [], Some, Ok, slice_get};
ghost use Rattle.ar_space.specs.Accesses.{Accesses};
ghost use Rattle.aml_path.specs.declared.segment.Seg.{Seg};
ghost use Rattle.aml_grammar.specs.Tree.{Trees};
ghost use Rattle.aml_objects.specs.declared.value.Slot.{Slot};
ghost use Rattle.aml_objects.specs.declared.value.Value.{Value};
ghost use Rattle.aml_world.specs.declared.state.frame.Frame.{Frame};
ghost use Rattle.aml_world.specs.state.State.{State};
ghost use Rattle.aml_world.specs.state.Slots.{frame_index, slot_of};
ghost use Rattle.aml_world.specs.values.Stores.{slot_put};
ghost use Rattle.aml_meaning.specs.Tasks.{Task, in_turn};
ghost use Rattle.aml_meaning.specs.Calls.{invoked};
ghost use Rattle.aml_meaning.specs.Meaning.{meaning};
ghost use Rattle.aml_laws.specs.Numbers.{numbers_of, RiseTo};
ghost use Rattle.aml_laws.specs.Unreferenced.{FrameStands, FrameStandsBelow, HasSlot, LeavesAlone};

/// A store to a local or an argument changes that slot alone: the slot holds the value, each other slot of its frame
/// and all slots of all other frames hold what they held, and nothing else of the world changes.
#[tactic(auto, using(crate::proofs::SlotsPut::slot_takes, crate::proofs::SlotsPut::others_stay, crate::proofs::SlotsPut::numbers_stay, crate::proofs::SlotsPut::rest_stays))]
pub fn a_store_changes_its_slot_alone<S>()
    ensures takes { (w : State S) (n k : ℕ) (f : Frame) (slot : Slot) (v : Value) → frame_index n w.frames ≡ Some k →
        slice_get w.frames k ≡ Some f → HasSlot f slot → (slot_of n slot (slot_put k slot v w).1).0 ≡ Ok v }
    ensures others { (w : State S) (n k : ℕ) (f : Frame) (slot other : Slot) (v : Value) →
        slice_get w.frames k ≡ Some f → (n ≡ f.number → other ≡ slot → ⊥) →
        (slot_of n other (slot_put k slot v w).1).0 ≡ (slot_of n other w).0 }
    ensures frames { (w : State S) (k : ℕ) (slot : Slot) (v : Value) →
        numbers_of (slot_put k slot v w).1.frames ≡ numbers_of w.frames }
    ensures rest { (w : State S) (k : ℕ) (slot : Slot) (v : Value) →
        (slot_put k slot v w).1 ≡ record w { frames = (slot_put k slot v w).1.frames } }
{}

/// Terms that are evaluated change no slot of a frame below the latest one to which no reference can be reached: it
/// holds what it held, however they end and whatever refers to other slots of the frame, and still no reference to it
/// can be reached, nor is one given. What another slot of the frame holds is reached only by a reference to it; and no
/// string, buffer or package that can't be reached is changed. Of slots to which a reference can be reached this says
/// nothing. A RefOf that refers to a local of the caller, and a local of a control method that is taken for one of the
/// outermost one, are refused by this.
pub fn slots_change_through_references_alone<S>()
    ensures terms { (accesses : Accesses S) (n : ℕ) (s : State S × ℕ) (t : Task) →
        RiseTo s.0.started (numbers_of s.0.frames) → FrameStandsBelow n (numbers_of s.0.frames) →
        LeavesAlone n s.0 [] (meaning accesses t s) }
    ensures lists { (accesses : Accesses S) (n : ℕ) (s : State S × ℕ) (scope : List Seg) (depth : ℕ) (ts : Trees) →
        RiseTo s.0.started (numbers_of s.0.frames) → FrameStandsBelow n (numbers_of s.0.frames) →
        LeavesAlone n s.0 [] (in_turn (meaning accesses) scope depth ts s) }
{}

/// A call of a control method changes no slot of its caller, or of another frame that stands, to which no reference can
/// be reached: where neither its arguments nor anything else that can be reached refers to it, it holds after the call
/// what it held, however it ends and whatever refers to other slots of the frame, and still nothing that can be reached
/// refers to it. Strings, buffers and packages that only such slots lead to are as they were, too. That the end of a
/// call changes no slot of another frame at all `the_end_of_a_call_takes_its_frame_and_names_away` says.
pub fn a_call_changes_no_slot_of_its_caller<S>()
    ensures { (accesses : Accesses S) (n : ℕ) (s : State S × ℕ) (depth : ℕ) (p : List Seg) (body : List ℕ)
        (arguments : List Value) → RiseTo s.0.started (numbers_of s.0.frames) → FrameStands n (numbers_of s.0.frames) →
        LeavesAlone n s.0 arguments (invoked (meaning accesses) depth p body arguments s) }
{}
