//! What an object answers that is a part of an address (ACPI 6.5, 5.5.2.4): one more call is made, of those that may
//! be made one inside another.
ghost use Rattle.std.specs.Prelude.{◌≤◌, ◌<◌, ◌-◌, IfOk};
ghost use Rattle.ar_space.specs.Change.{settle};
ghost use Rattle.ar_space.specs.Outcome.{NotMemory};
ghost use Rattle.aml_world.specs.fields.Regions.{integer_only};
ghost use Rattle.aml_meaning.specs.Meaning.{meaning};
ghost use Rattle.aml_meaning.specs.FieldCalls.{answer_within, answer_over, asked};
ghost use Rattle.aml_frames.specs.Addresses.{Asks};
ghost use Rattle.aml_frames.specs.Uses.{asking};
ghost use Rattle.aml_frames.specs.Weights.{part_weight, asked_weight};

use crate::accesses::MAX_CALLS;
use aml_frames::{Asked, Waited, invocation_at, told_path};
use aml_meaning::Running;
use aml_objects::Value;
use aml_path::Path;
use aml_world::{Invocation, integer_only};
use ar_space::{EvaluationFault, Refusal, Result, Space, ValueFault};

/// The integer that the object at a path answers, where so many calls may still be made, or what gives it.
#[tactic(auto, using(crate::proofs::Addressing::answering), unfolding(aml_meaning::specs::FieldCalls::asked))]
pub fn ask<S: Space>(run: &mut Running<S>, calls: usize, path: &Path) -> Result<Asked>
    ensures spent { run.new.1 ≤ run.old.1 }
    ensures few { IfOk result (λ a. asked_weight a ≤ part_weight calls) }
    ensures means { Asks S.accesses (meaning S.accesses) result run.new
        (asking S.accesses (meaning S.accesses) calls path.now) run.old }
{
    let answered = invocation_at(&run.world, path, 0);
    let found = told_path(&mut run.world, path, answered)?;
    answer(run, calls, found)
}

/// What was found answers, where so many calls may still be made, this one among them.
#[tactic(auto, using(crate::proofs::Addressing::answering))]
fn answer<S: Space>(run: &Running<S>, calls: usize, found: Invocation) -> Result<Asked>
    ensures memory { NotMemory result }
    ensures few { IfOk result (λ a. asked_weight a ≤ part_weight calls) }
    ensures means { Asks S.accesses (meaning S.accesses) result run.now
        (answer_within S.accesses (meaning S.accesses) calls found) run.now }
{
    if calls == 0 {
        return Err(Refusal::Evaluation(EvaluationFault::CallDepth));
    }
    run.world.call_allowed(MAX_CALLS.saturating_sub(calls))?;
    answer_allowed(run, calls, found)
}

/// What was found answers, where one more call may be made: so many may with it.
#[tactic(auto, using(crate::proofs::Addressing::answering))]
fn answer_allowed<S: Space>(run: &Running<S>, calls: usize, found: Invocation) -> Result<Asked>
    requires { 0 < calls }
    ensures memory { NotMemory result }
    ensures few { IfOk result (λ a. asked_weight a ≤ part_weight calls) }
    ensures means { Asks S.accesses (meaning S.accesses) result run.now (answer_over S.accesses (meaning S.accesses)
        (calls - 1) (asked (answer_within S.accesses (meaning S.accesses) (calls - 1))) found) run.now }
{
    match found {
        Invocation::Value(value) => known(run, value),
        Invocation::Field(field) => Ok(Asked::Waits(Waited::Field(calls - 1, field))),
        Invocation::Method(path, body) => {
            Ok(Asked::Waits(Waited::Method(MAX_CALLS.saturating_sub(calls), path, body)))
        }
        Invocation::Osi => Err(Refusal::Value(ValueFault::WrongType)),
    }
}

/// A value answers where it is an integer.
#[tactic(auto, using(crate::proofs::Addressing::answering))]
fn known<S: Space>(run: &Running<S>, value: Value) -> Result<Asked>
    ensures memory { NotMemory result }
    ensures few { IfOk result (λ a. asked_weight a ≤ 0) }
    ensures means { Asks S.accesses (meaning S.accesses) result run.now (settle (integer_only value)) run.now }
{
    match integer_only(value) {
        Ok(number) => Ok(Asked::Known(number)),
        Err(refusal) => Err(refusal),
    }
}
