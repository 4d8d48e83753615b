//! The profile of a world.
ghost use Rattle.std.specs.Prelude.{◌≡◌, ◌⊎◌, ℕ, List};
ghost use Rattle.ar_space.specs.Accesses.{Accesses};
ghost use Rattle.ar_space.specs.declared.integer_width.IntegerWidth.{IntegerWidth};
ghost use Rattle.aml_world.specs.declared.state.settings.EvaluationSettings.{EvaluationSettings};
ghost use Rattle.aml_world.specs.state.State.{State};
ghost use Rattle.aml_world.specs.state.Predefined.{fresh_as, predefined};
ghost use Rattle.aml_path.specs.declared.segment.Seg.{Seg};
ghost use Rattle.aml_objects.specs.declared.value.Value.{Value};
ghost use Rattle.aml_world.specs.state.Given.{Given};
ghost use Rattle.aml_meaning.specs.Tasks.{Task};
ghost use Rattle.aml_meaning.specs.Meaning.{meaning};
ghost use Rattle.aml_meaning.specs.Calling.{loaded, evaluated, answered};
ghost use Rattle.aml_laws.specs.Becomes.{Becomes};
ghost use Rattle.aml_laws.specs.Widened.{widened, outcome_widened, IsLeftOut, IsLeftOutAt};

/// A world keeps its profile: no evaluation changes it, however it ends. It is the one that the world was made with.
#[tactic(auto, using(crate::proofs::ProfileKept::profile_is_kept, crate::proofs::ProfileKept::profile_is_given))]
pub fn evaluation_keeps_the_profile<S>()
    ensures kept { (accesses : Accesses S) (w v : State S) → Becomes accesses w v → v.profile ≡ w.profile }
    ensures given { (accesses : Accesses S) (settings : EvaluationSettings) (width : IntegerWidth) (osi : List (List ℕ))
        (space : S) (w : State S) → Becomes accesses (predefined (fresh_as settings width osi space)).1 w →
        w.profile ≡ settings.profile }
{}

/// What the core profile answers, the wide one answers too: where an evaluation isn't refused for what the profile
/// leaves out (a term, `Unsupported`, or what lies behind a bridge, `DeepPci`), it gives the same in the wide profile,
/// with as many steps left, and leaves the same world. At module level a refusal that the wide profile passes over is
/// another exception, and so is such a one of a table.
#[tactic(auto, using(crate::proofs::Widening::the_wide_profile_answers_what_the_core_one_does))]
pub fn the_wide_profile_answers_what_the_core_one_does<S>()
    ensures terms { (accesses : Accesses S) (t : Task) (s : State S × ℕ) →
        IsLeftOutAt t.depth (meaning accesses t s).0 ⊎ (meaning accesses t (widened s.0, s.1) ≡
        outcome_widened (meaning accesses t s)) }
    ensures tables { (accesses : Accesses S) (bytes : List ℕ) (steps : ℕ) (w : State S) →
        IsLeftOutAt 0 (loaded accesses bytes steps w).0 ⊎
        (loaded accesses bytes steps (widened w) ≡ (
          (loaded accesses bytes steps w).0,
          widened (loaded accesses bytes steps w).1,
        )) }
    ensures values { (accesses : Accesses S) (p : List Seg) (arguments : List Value) (steps : ℕ) (w : State S) →
        IsLeftOut (evaluated accesses p arguments steps w).0 ⊎
        (evaluated accesses p arguments steps (widened w) ≡ (
          (evaluated accesses p arguments steps w).0,
          widened (evaluated accesses p arguments steps w).1,
        )) }
    ensures answers { (accesses : Accesses S) (p : List Seg) (arguments : List Given) (steps : ℕ) (w : State S) →
        IsLeftOut (answered accesses p arguments steps w).0 ⊎
        (answered accesses p arguments steps (widened w) ≡ (
          (answered accesses p arguments steps w).0,
          widened (answered accesses p arguments steps w).1,
        )) }
    ensures predefined { (accesses : Accesses S) (w : State S) → IsLeftOut (predefined w).0 ⊎
        (predefined (widened w) ≡ ((predefined w).0, widened (predefined w).1)) }
{}
