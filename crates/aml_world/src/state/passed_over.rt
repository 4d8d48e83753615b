//! What the wide profile passes over, and goes on behind: items of lists at module level that are refused, and calls
//! of initializing.
ghost use Rattle.std.specs.Prelude.{◌≡◌, OnOk};
ghost use Rattle.ar_space.specs.Change.{Does};
ghost use Rattle.aml_world.specs.state.PassedOver.{nothing_passed, is_passable, is_passable_field, kept_with};
ghost use Rattle.aml_world.specs.state.PassedOver.{is_passable_evaluation, counted_on};
ghost use Rattle.aml_world.specs.state.Noting.{noted, passed_over};

use crate::state::world_state::WorldState;
use aml_path::Path;
use ar_space::{EvaluationFault, FieldFault, Refusal, Result};
use std::alloc::{AllocError, Global};
use std::marker::Model;

/// How many refusals are kept; all are counted.
const MOST_KEPT: usize = 64;

/// A refusal that was passed over.
#[derive(Debug, Drop)]
pub struct PassedItem {
    /// Why the item was refused.
    pub refusal: Refusal,
    /// The scope of the list that the item stands in; in initializing the path that was called.
    pub scope: Path,
}

/// The refusals that a world has passed over, of all its tables and of initializing.
#[derive(Debug, Drop)]
pub struct PassedOver {
    count: u64,
    kept: Vec<PassedItem>,
}

impl Model for PassedOver {
    ghost use Rattle.aml_world.specs.state.PassedOver.{PassedOver, passed_code};

    ghost Value = { PassedOver };

    ghost coded = { passed_code };

    ghost view = { λ p. record { count = p.count; kept = p.kept.items } };
}

impl PassedOver {
    /// Nothing is passed over. It takes no memory.
    pub fn new(alloc: Global) -> PassedOver
        ensures { result ≡ nothing_passed }
    {
        PassedOver {
            count: 0,
            kept: Vec::new(alloc),
        }
    }

    /// How many there were in all, up to 2^64 - 1.
    pub fn count(&self) -> u64
        ensures { result ≡ self.now.count }
    {
        self.count
    }

    /// The first 64 of them, in their order.
    pub fn kept(&self) -> &[PassedItem]
        ensures { result.now ≡ self.now.kept }
    {
        &self.kept
    }

    #[tactic(auto, using(ar_space::proofs::Changes::changing), unfolding(crate::specs::state::Noting::noted))]
    fn note(&mut self, alloc: Global, scope: &Path, refusal: Refusal) -> Result<()>
        ensures { Does result self.new (noted scope.now refusal) self.old }
    {
        keep(alloc, &mut self.kept, scope, refusal)?;
        self.count = counted_on(self.count);
        Ok(())
    }
}

/// A refusal is put behind those that are kept, if it is among the first 64.
fn keep(
    alloc: Global,
    kept: &mut Vec<PassedItem>,
    scope: &Path,
    refusal: Refusal,
) -> Result<(), AllocError>
    ensures { OnOk result (kept.new.items ≡ kept_with (record { refusal = refusal; scope = scope.now })
        kept.old.items) }
{
    if kept.len() >= MOST_KEPT {
        return Ok(());
    }
    match scope.copy(alloc) {
        Ok(scope) => {
            kept.push(PassedItem { refusal, scope })?;
            Ok(())
        }
        Err(_) => Err(AllocError),
    }
}

/// One more, up to 2^64 - 1.
fn counted_on(count: u64) -> u64
    ensures { result ≡ counted_on count }
{
    if count == u64::MAX { count } else { count + 1 }
}

/// Whether the wide profile passes over what is refused so: faults of values, of names, and of what a field or a
/// reference leads to.
pub fn is_passable(refusal: &Refusal) -> bool
    ensures { result ≡ is_passable refusal.now }
{
    match refusal {
        Refusal::Value(_) => true,
        Refusal::Namespace(_) => true,
        Refusal::Field(fault) => is_passable_field(*fault),
        Refusal::Evaluation(fault) => is_passable_evaluation(*fault),
        _ => false,
    }
}

fn is_passable_field(fault: FieldFault) -> bool
    ensures { result ≡ is_passable_field fault }
{
    match fault {
        FieldFault::FieldLimit => true,
        FieldFault::RegionLimit => false,
    }
}

fn is_passable_evaluation(fault: EvaluationFault) -> bool
    ensures { result ≡ is_passable_evaluation fault }
{
    match fault {
        EvaluationFault::Unsupported(_) => true,
        EvaluationFault::SpaceKind => true,
        EvaluationFault::DeadReference => true,
        EvaluationFault::NoValue => true,
        EvaluationFault::IndexLimit => true,
        EvaluationFault::OutOfSteps => false,
        EvaluationFault::CallDepth => false,
        EvaluationFault::ArityChanged => false,
        EvaluationFault::Fatal => false,
        EvaluationFault::DeepPci => false,
        EvaluationFault::NotAcquired => false,
        EvaluationFault::ObjectLimit => false,
        EvaluationFault::DepthSetting => false,
    }
}

impl<S> WorldState<S> {
    /// Passes over a refusal, which belongs to a scope: it is noted, and what was told of where evaluation was refused
    /// is forgotten. Another refusal than those that are passed over is handed back, and then nothing changes.
    #[tactic(auto, using(crate::proofs::Lifted::passing))]
    pub fn pass_over(&mut self, scope: &Path, refusal: Refusal) -> Result<()>
        ensures { Does result self.new (passed_over scope.now refusal) self.old }
    {
        if !is_passable(&refusal) {
            return Err(refusal);
        }
        self.forget_trace();
        self.passed.note(self.alloc, scope, refusal)
    }
}
