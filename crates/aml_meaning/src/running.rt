//! The state of a world, and the steps that are left to evaluation in it.
ghost use Rattle.std.specs.Prelude.{◌≡◌, ◌≤◌, ◌<◌, OnOk, IfErr};
ghost use Rattle.ar_space.specs.declared.refusal.Refusal.TheVariants.{Evaluation};
ghost use Rattle.ar_space.specs.declared.refusal.EvaluationFault.TheVariants.{OutOfSteps};
ghost use Rattle.ar_space.specs.Change.{Does};
ghost use Rattle.ar_space.specs.Outcome.{NotMemory};
ghost use Rattle.aml_world.specs.state.Run.{charge};

use aml_world::WorldState;
use ar_space::{EvaluationFault, Refusal, Result};
use std::marker::Model;

/// The state of a world, and how many steps are left to what is evaluated in it (ACPI 6.5, 5.5: no evaluation runs
/// for ever).
///
/// Between two evaluations the steps mean nothing: each call that evaluates is told how many it may take.
#[derive(Drop)]
pub struct Running<S> {
    /// The state of the world.
    pub world: WorldState<S>,
    /// The steps that are left.
    pub steps: u64,
}

impl<S> Model for Running<S> {
    ghost use Rattle.std.specs.Prelude.{ℕ};
    ghost use Rattle.std.specs.Coded.{coded×, coded_ℕ};
    ghost use Rattle.aml_world.specs.state.State.{State, state_code};

    ghost Value = { State S × ℕ };

    ghost coded = { coded× (state_code S.code) coded_ℕ };

    ghost view = { λ r. (r.world, r.steps) };
}

impl<S> Running<S> {
    /// One step, which each term takes when it begins; refused as `OutOfSteps` where none is left.
    #[tactic(auto, unfolding(aml_world::specs::state::Run::charge))]
    pub fn charge(&mut self) -> Result<()>
        ensures does { Does result self.new charge self.old }
        ensures spent { self.new.1 ≤ self.old.1 }
        ensures paid { OnOk result (self.new.1 < self.old.1) }
        ensures refused { IfErr result (λ e. e ≡ Evaluation OutOfSteps) }
        ensures memory { NotMemory result }
    {
        if self.steps == 0 {
            return Err(Refusal::Evaluation(EvaluationFault::OutOfSteps));
        }
        self.steps -= 1;
        Ok(())
    }
}
