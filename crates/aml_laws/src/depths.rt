//! How deep calls and terms may be.
ghost use Rattle.std.specs.Prelude.{◌≡◌, ◌⊎◌, ℕ, List};
ghost use Rattle.ar_space.specs.Accesses.{Accesses};
ghost use Rattle.ar_space.specs.declared.integer_width.IntegerWidth.{IntegerWidth};
ghost use Rattle.aml_path.specs.declared.segment.Seg.{Seg};
ghost use Rattle.aml_objects.specs.declared.value.Value.{Value};
ghost use Rattle.aml_world.specs.declared.state.settings.Nesting.{Nesting};
ghost use Rattle.aml_world.specs.declared.state.settings.EvaluationSettings.{EvaluationSettings};
ghost use Rattle.aml_world.specs.state.State.{State};
ghost use Rattle.aml_world.specs.state.Predefined.{fresh_as, predefined};
ghost use Rattle.aml_world.specs.state.Given.{Given};
ghost use Rattle.aml_meaning.specs.Tasks.{Task};
ghost use Rattle.aml_meaning.specs.Meaning.{meaning};
ghost use Rattle.aml_meaning.specs.Calling.{loaded, evaluated, answered};
ghost use Rattle.aml_laws.specs.Becomes.{Becomes};
ghost use Rattle.aml_laws.specs.Deepened.{deepened, outcome_deepened, IsDepthSetting};

/// A world keeps the depth that it was made with: no evaluation changes it, however it ends.
#[tactic(auto, using(crate::proofs::NestingKept::nesting_is_kept, crate::proofs::NestingKept::nesting_is_given))]
pub fn evaluation_keeps_the_depth<S>()
    ensures kept { (accesses : Accesses S) (w v : State S) → Becomes accesses w v → v.nesting ≡ w.nesting }
    ensures given { (accesses : Accesses S) (settings : EvaluationSettings) (width : IntegerWidth) (osi : List (List ℕ))
        (space : S) (w : State S) → Becomes accesses (predefined (fresh_as settings width osi space)).1 w →
        w.nesting ≡ settings.nesting }
{}

/// What a depth answers, a greater one answers too: where an evaluation isn't refused for the setting (`DepthSetting`),
/// it gives the same where calls and terms may be deeper, with as many steps left, and leaves the same world.
#[tactic(auto, using(crate::proofs::Deepening::a_depth_answers_what_a_smaller_one_does))]
pub fn a_depth_answers_what_a_smaller_one_does<S>()
    ensures terms { (accesses : Accesses S) (more : Nesting) (t : Task) (s : State S × ℕ) →
        IsDepthSetting (meaning accesses t s).0 ⊎ (meaning accesses t (deepened more s.0, s.1) ≡
        outcome_deepened more (meaning accesses t s)) }
    ensures tables { (accesses : Accesses S) (more : Nesting) (bytes : List ℕ) (steps : ℕ) (w : State S) →
        IsDepthSetting (loaded accesses bytes steps w).0 ⊎
        (loaded accesses bytes steps (deepened more w) ≡ (
          (loaded accesses bytes steps w).0,
          deepened more (loaded accesses bytes steps w).1,
        )) }
    ensures values { (accesses : Accesses S) (more : Nesting) (p : List Seg) (arguments : List Value) (steps : ℕ)
        (w : State S) →
        IsDepthSetting (evaluated accesses p arguments steps w).0 ⊎
        (evaluated accesses p arguments steps (deepened more w) ≡ (
          (evaluated accesses p arguments steps w).0,
          deepened more (evaluated accesses p arguments steps w).1,
        )) }
    ensures answers { (accesses : Accesses S) (more : Nesting) (p : List Seg) (arguments : List Given) (steps : ℕ)
        (w : State S) →
        IsDepthSetting (answered accesses p arguments steps w).0 ⊎
        (answered accesses p arguments steps (deepened more w) ≡ (
          (answered accesses p arguments steps w).0,
          deepened more (answered accesses p arguments steps w).1,
        )) }
{}
