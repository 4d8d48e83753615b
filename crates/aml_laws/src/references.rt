//! References: what RefOf gives, and what is read, stored and acquired through it.
ghost use Rattle.std.specs.Prelude.{◌≡◌, ℕ, List, length, Ok, Err, Some};
ghost use Rattle.std.specs.FinMap.{get};
ghost use Rattle.ar_space.specs.declared.refusal.Refusal.TheVariants as refusal;
ghost use Rattle.ar_space.specs.declared.refusal.EvaluationFault.TheVariants.{DeadReference};
ghost use Rattle.ar_space.specs.declared.refusal.ValueFault.TheVariants.{WrongType};
ghost use Rattle.aml_path.specs.declared.segment.Seg.{Seg};
ghost use Rattle.aml_objects.specs.declared.entry.Entry.{Entry};
ghost use Rattle.aml_objects.specs.declared.value.Reference.{Reference};
ghost use Rattle.aml_objects.specs.declared.value.Reference.TheVariants as reference;
ghost use Rattle.aml_objects.specs.declared.value.Slot.{Slot};
ghost use Rattle.aml_objects.specs.declared.value.Slot.TheVariants.{Local};
ghost use Rattle.aml_objects.specs.declared.value.Value.{Value};
ghost use Rattle.aml_namespace.specs.Numbering.{Numbered};
ghost use Rattle.aml_world.specs.declared.values.store_target.Held.{Held};
ghost use Rattle.aml_world.specs.declared.values.store_target.StoreTarget.{StoreTarget};
ghost use Rattle.aml_world.specs.declared.values.store_target.StoreTarget.TheVariants as targets;
ghost use Rattle.aml_world.specs.state.State.{State};
ghost use Rattle.aml_world.specs.values.StoreTargets.{declaration, reference_of, dereferenced, target_read};
ghost use Rattle.aml_world.specs.values.Stores.{stored, copied_to};
ghost use Rattle.aml_world.specs.state.Mutexes.{acquired_at, given_back_at};
ghost use Rattle.aml_laws.specs.Numbers.{numbers_of, RiseTo};
ghost use Rattle.aml_laws.specs.ReferencesOfTargets.{RefersTo};
ghost use Rattle.aml_laws.specs.StoredParts.{IsRead};

/// RefOf of a name gives a reference to the declaration that stands at its path, and to no other: the number of that
/// declaration finds its path and its object. What is read through the reference is the value or the field that stands
/// there, and where the name stands for neither, the reference again: the term DerefOf gives what is read so
/// (`a_dereference_reads_what_its_operand_refers_to`). CopyObject through it takes its copy to the name.
#[tactic(auto, using(crate::proofs::ReferencesToNames::a_reference_to_a_name_finds_its_declaration))]
pub fn a_reference_to_a_name_finds_its_declaration<S>()
    ensures given { (w : State S) (path : List Seg) (e : Entry) → get w.names.map path ≡ Some e →
        (reference_of (targets.Name path) w).0 ≡ Ok (reference.Name e.number) }
    ensures found { (w : State S) (path : List Seg) (e : Entry) → Numbered w.names → get w.names.map path ≡ Some e →
        (declaration e.number w).0 ≡ Ok (path, e) }
    ensures read { (w : State S) (path : List Seg) (e : Entry) (h : Held) → Numbered w.names →
        get w.names.map path ≡ Some e → IsRead e.number e.object h →
        (dereferenced (reference.Name e.number) w).0 ≡ Ok h }
    ensures copied { (w : State S) (path : List Seg) (r : Reference) (v : Value) → Numbered w.names →
        (reference_of (targets.Name path) w).0 ≡ Ok r → copied_to (targets.Refers r) v w ≡
        copied_to (targets.Name path) v w }
{}

/// RefOf of a local or an argument gives a reference to that slot of the control method that runs: reading through it
/// gives, or is refused, just as the slot is read, and the term DerefOf does so
/// (`a_dereference_reads_what_its_operand_refers_to`). CopyObject through a reference to a local copies to that local.
#[tactic(auto, using(crate::proofs::ReferencesToSlots::slot_reads, crate::proofs::ReferencesToSlots::local_copies))]
pub fn a_reference_to_a_slot_reads_that_slot<S>()
    ensures read { (w : State S) (slot : Slot) (r : Reference) → RiseTo w.started (numbers_of w.frames) →
        (reference_of (targets.Slot slot) w).0 ≡ Ok r → dereferenced r w ≡ target_read (targets.Slot slot) w }
    ensures copied { (w : State S) (i : ℕ) (r : Reference) (v : Value) → RiseTo w.started (numbers_of w.frames) →
        (reference_of (targets.Slot (Local i)) w).0 ≡ Ok r → copied_to (targets.Refers r) v w ≡
        copied_to (targets.Slot (Local i)) v w }
{}

/// Each target but Debug has a reference, which RefOf gives (`a_reference_is_given_of_what_a_term_names`): that of a
/// name refers to the declaration that stands at its path, that of a local or an argument to this slot of the control
/// method that runs, and that of what another reference refers to is this very reference. Debug has none and is refused
/// as `WrongType`, and so is a local or an argument where no control method runs, as a dead one. Nothing changes. A
/// RefOf of an Index or of a DerefOf that is refused is refused by this.
pub fn each_target_but_debug_has_a_reference<S>()
    ensures given { (w : State S) (t : StoreTarget) (r : Reference) → RefersTo w t r → reference_of t w ≡ (Ok r, w) }
    ensures debug { (w : State S) → reference_of targets.Nowhere w ≡ (Err (refusal.Value WrongType), w) }
    ensures no_method { (w : State S) (slot : Slot) → length w.frames ≡ 0 →
        reference_of (targets.Slot slot) w ≡ (Err (refusal.Evaluation DeadReference), w) }
{}

/// The reference that a target has (`each_target_but_debug_has_a_reference`) refers to just what its operand names: a
/// name, a local, an argument, or what another reference refers to. What is read through it is what the operand holds,
/// and the term DerefOf gives what is read so
/// (`a_dereference_reads_what_its_operand_refers_to`); a Store to what it refers to is a Store to the operand, and
/// a mutex is acquired and released through it as by the operand. So it is where the numbers of declarations are
/// apart and those of frames rise, as they are and do in each world that evaluations make of the predefined names,
/// and in each frame that is opened then. Giving the reference and reading through it change nothing.
#[tactic(auto, using(crate::proofs::ReferencesToTargets::reads_as_target, crate::proofs::ReferencesToTargets::stores_as_target, crate::proofs::ReferencesToTargets::acquires_as_target, crate::proofs::ReferencesToTargets::gives_back_as_target, crate::proofs::ChangesNothing::reference_of_changes_nothing, crate::proofs::ChangesNothing::dereferenced_changes_nothing))]
pub fn a_reference_refers_to_its_target<S>()
    ensures read { (w : State S) (at : StoreTarget) (r : Reference) (held : Held) → Numbered w.names →
        RiseTo w.started (numbers_of w.frames) → (reference_of at w).0 ≡ Ok r → (target_read at w).0 ≡ Ok held →
        (dereferenced r w).0 ≡ Ok held }
    ensures stored { (w : State S) (at : StoreTarget) (r : Reference) (v : Value) → Numbered w.names →
        RiseTo w.started (numbers_of w.frames) → (reference_of at w).0 ≡ Ok r →
        stored (targets.Refers r) v w ≡ stored at v w }
    ensures acquired { (w : State S) (at : StoreTarget) (r : Reference) → Numbered w.names →
        RiseTo w.started (numbers_of w.frames) → (reference_of at w).0 ≡ Ok r →
        acquired_at (targets.Refers r) w ≡ acquired_at at w }
    ensures given_back { (w : State S) (at : StoreTarget) (r : Reference) → Numbered w.names →
        RiseTo w.started (numbers_of w.frames) → (reference_of at w).0 ≡ Ok r →
        given_back_at (targets.Refers r) w ≡ given_back_at at w }
    ensures given_unchanged { (w : State S) (at : StoreTarget) → (reference_of at w).1 ≡ w }
    ensures read_unchanged { (w : State S) (r : Reference) → (dereferenced r w).1 ≡ w }
{}
