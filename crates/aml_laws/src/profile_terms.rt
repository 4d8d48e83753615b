//! Terms that a profile doesn't evaluate.
ghost use Rattle.std.specs.Prelude.{◌≡◌, ℕ, suc, List};
ghost use Rattle.ar_space.specs.Accesses.{Accesses};
ghost use Rattle.ar_space.specs.declared.refusal.Refusal.TheVariants as refusal;
ghost use Rattle.ar_space.specs.declared.refusal.EvaluationFault.TheVariants.{Unsupported};
ghost use Rattle.aml_path.specs.declared.segment.Seg.{Seg};
ghost use Rattle.aml_path.specs.Paths.{Name};
ghost use Rattle.aml_grammar.specs.Tree.{Parts, Trees};
ghost use Rattle.aml_grammar.specs.declared.opcode.Opcode.{Opcode};
ghost use Rattle.aml_world.specs.declared.state.profile.Profile.TheVariants as profiles;
ghost use Rattle.aml_world.specs.state.State.{State};
ghost use Rattle.aml_laws.specs.OperatorTerms.{of_opcode, IsRefused};
ghost use Rattle.aml_laws.specs.RegionTerms.{field, index_field};
ghost use Rattle.aml_laws.specs.ProfileTerms.{IsOfTheWide, IsOfNone, Connects};

/// The core profile refuses each term that the wide one evaluates beyond it, and each Field and IndexField term in
/// whose list a Connection stands, by the number of its opcode (ACPI 6.5, 20.3). No profile evaluates Load,
/// LoadTable, Timer and DataRegion, nor Debug where a value stands. So it is before any operand is evaluated: but for
/// the term's step nothing has changed. A core profile that evaluates any of them is refused by this.
pub fn the_core_profile_refuses_the_terms_of_the_wide_one<S>()
    ensures terms { (accesses : Accesses S) (scope : List Seg) (depth : ℕ) (op : Opcode) (number : ℕ) (ps : Parts)
        (w : State S) (steps : ℕ) → IsOfTheWide op number → w.profile ≡ profiles.Core →
        IsRefused accesses scope depth (of_opcode op ps) (w, suc steps) (refusal.Evaluation (Unsupported number))
        (w, steps) }
    ensures connections { (accesses : Accesses S) (scope : List Seg) (depth flags : ℕ) (fields : Trees) (w : State S)
        (steps : ℕ) → Connects fields → w.profile ≡ profiles.Core → (region index behind : Name) →
        IsRefused accesses scope depth (field region flags fields) (w, suc steps)
        (refusal.Evaluation (Unsupported 0x5B81)) (w, steps) ×
        IsRefused accesses scope depth (index_field index behind flags fields) (w, suc steps)
        (refusal.Evaluation (Unsupported 0x5B86)) (w, steps) }
    ensures of_none { (accesses : Accesses S) (scope : List Seg) (depth : ℕ) (op : Opcode) (number : ℕ) (ps : Parts)
        (w : State S) (steps : ℕ) → IsOfNone op number → IsRefused accesses scope depth (of_opcode op ps)
        (w, suc steps) (refusal.Evaluation (Unsupported number)) (w, steps) }
{}
