//! Fields of which a part is gone.
ghost use Rattle.std.specs.Prelude.{◌≡◌, ℕ, List, Err};
ghost use Rattle.ar_space.specs.declared.refusal.EvaluationFault.TheVariants.{DeadReference};
ghost use Rattle.ar_space.specs.declared.refusal.Refusal.TheVariants as refusal;
ghost use Rattle.ar_space.specs.Accesses.{Accesses};
ghost use Rattle.aml_path.specs.declared.segment.Seg.{Seg};
ghost use Rattle.aml_objects.specs.declared.entry.Bank.{Bank};
ghost use Rattle.aml_objects.specs.declared.entry.FieldSource.TheVariants as sources;
ghost use Rattle.aml_objects.specs.declared.entry.FieldUnit.{FieldUnit};
ghost use Rattle.aml_world.specs.state.State.{State};
ghost use Rattle.aml_world.specs.state.Run.{Run};
ghost use Rattle.aml_world.specs.fields.Fields.{located};
ghost use Rattle.aml_laws.specs.GoneFields.{RegionGone, FieldGone, IsDead};

/// A field whose operation region stands no longer is refused as `DeadReference`, read or written, and so is one whose
/// index field, data field or bank field stands no longer, or is none of an operation region (ACPI 6.5, 19.6: Field,
/// IndexField, BankField): nothing is accessed, and the world and the steps are as they were. A region that stands no
/// longer is never located. A field that goes on in the first region that stands is refused by this.
pub fn a_field_of_what_is_gone_is_dead<S>()
    ensures region { (w : State S) (n : ℕ) → RegionGone w n → (accesses : Accesses S) (call : List Seg → Run S ℕ)
        (f : FieldUnit) (steps : ℕ) → f.source ≡ sources.Region n → IsDead accesses call f (w, steps) }
    ensures index { (w : State S) (i : ℕ) → FieldGone w i → (accesses : Accesses S) (call : List Seg → Run S ℕ)
        (f : FieldUnit) (d steps : ℕ) → f.source ≡ sources.Index i d → IsDead accesses call f (w, steps) }
    ensures data { (w : State S) (d : ℕ) → FieldGone w d → (accesses : Accesses S) (call : List Seg → Run S ℕ)
        (f : FieldUnit) (i steps : ℕ) → f.source ≡ sources.Index i d → IsDead accesses call f (w, steps) }
    ensures bank { (w : State S) (bank : Bank) → FieldGone w bank.field → (accesses : Accesses S)
        (call : List Seg → Run S ℕ) (f : FieldUnit) (n steps : ℕ) → f.source ≡ sources.Bank n bank →
        IsDead accesses call f (w, steps) }
    ensures region_of_bank { (w : State S) (n : ℕ) → RegionGone w n → (accesses : Accesses S)
        (call : List Seg → Run S ℕ) (f : FieldUnit) (bank : Bank) (steps : ℕ) → f.source ≡ sources.Bank n bank →
        IsDead accesses call f (w, steps) }
    ensures nowhere { (w : State S) (n : ℕ) → RegionGone w n → (accesses : Accesses S) (call : List Seg → Run S ℕ)
        (steps : ℕ) → located accesses call n (w, steps) ≡ (Err (refusal.Evaluation DeadReference), (w, steps)) }
{}
