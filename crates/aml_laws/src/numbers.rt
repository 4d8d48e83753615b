//! The numbers of declarations.
ghost use Rattle.std.specs.Prelude.{◌≡◌, ◌<◌, ◌≤◌, ℕ, List, None};
ghost use Rattle.ar_space.specs.Accesses.{Accesses};
ghost use Rattle.ar_space.specs.declared.integer_width.IntegerWidth.{IntegerWidth};
ghost use Rattle.aml_objects.specs.declared.value.Value.{Value};
ghost use Rattle.aml_namespace.specs.Namespace.{numbered};
ghost use Rattle.aml_namespace.specs.Numbering.{Numbered};
ghost use Rattle.aml_world.specs.declared.state.settings.EvaluationSettings.{EvaluationSettings};
ghost use Rattle.aml_world.specs.state.State.{State};
ghost use Rattle.aml_world.specs.state.Slots.{opened};
ghost use Rattle.aml_world.specs.state.Predefined.{fresh_as, predefined};
ghost use Rattle.aml_laws.specs.Becomes.{Becomes};

/// The numbers of the next declaration and the next frame never fall.
#[tactic(auto, using(crate::proofs::NumbersRise::next_declaration_rises, crate::proofs::NumbersRise::next_frame_rises))]
pub fn numbers_never_fall<S>()
    ensures declarations { (accesses : Accesses S) (w v : State S) → Becomes accesses w v →
        w.names.next ≤ v.names.next }
    ensures frames { (accesses : Accesses S) (w v : State S) → Becomes accesses w v → w.started ≤ v.started }
{}

/// Each declaration's number is below the next one, and no two that stand have the same: so it is after whatever is
/// evaluated from the predefined names on, in either profile, and in the frame of a control method that is opened then.
#[tactic(auto, using(crate::proofs::DeclarationNumbers::numbers_are_given_once))]
pub fn numbers_are_given_once<S>()
    ensures kept { (accesses : Accesses S) (w v : State S) → Becomes accesses w v →
        Numbered w.names → Numbered v.names }
    ensures always { (accesses : Accesses S) (settings : EvaluationSettings) (width : IntegerWidth) (osi : List (List ℕ))
        (space : S) (w : State S) → Becomes accesses (predefined (fresh_as settings width osi space)).1 w →
        Numbered w.names }
    ensures opened { (arguments : List Value) (w : State S) → Numbered w.names → Numbered (opened arguments w).1.names }
{}

/// The number of a declaration that is gone never finds another.
#[tactic(auto, using(crate::proofs::DeclarationNumbers::gone_stays))]
pub fn what_is_gone_stays_gone<S>()
    ensures gone { (accesses : Accesses S) (w v : State S) (number : ℕ) → Becomes accesses w v →
        number < w.names.next → numbered number w.names.map ≡ None → numbered number v.names.map ≡ None }
{}
