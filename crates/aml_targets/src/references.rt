//! References, and what they refer to (ACPI 6.5, 19.6: CondRefOf; SizeOf and ObjectType follow references).
ghost use Rattle.std.specs.Prelude.{◌≡◌, ◌+◌, ◌*◌, true};
ghost use Rattle.ar_space.specs.Change.{Does};
ghost use Rattle.aml_grammar.specs.Names.{starts_name};
ghost use Rattle.aml_marks.specs.Marked.{first, a_name};
ghost use Rattle.aml_world.specs.state.Run.{lift};
ghost use Rattle.ar_space.specs.Outcome.{NotMemory};
ghost use Rattle.aml_world.specs.values.StoreTargets.{reference_if_found};
ghost use Rattle.aml_meaning.specs.Meaning.{meaning};
ghost use Rattle.aml_meaning.specs.declared.term_kind.OperatorKind.TheVariants as operators;
ghost use Rattle.aml_frames.specs.declared.frames.Frame.TheVariants as frames;
ghost use Rattle.aml_frames.specs.Follow.{inquiry_kind};
ghost use Rattle.aml_frames.specs.Uses.{optional, behind_target, found_next, RefersToNoField};
ghost use Rattle.aml_frames.specs.Weights.{most};
ghost use Rattle.aml_frames.specs.Steps.{Steps, frame_at, operator_and_end};

use crate::target_uses::inquire;
use crate::targets::begin_target;
use aml_frames::{Activation, Frame, Inquiry, Next, Target, TargetUse, told_here};
use aml_meaning::{Flow, Running, TargetKind};
use aml_objects::{Reference, Value};
use ar_space::{Result, Space};

/// SizeOf and ObjectType: of a term that refers its value is evaluated, and else the target is found.
#[tactic(auto, using(aml_frames::proofs::Using::operating))]
pub fn begin_inquiry<S: Space>(
    run: &mut Running<S>,
    act: &mut Activation,
    levels: u8,
    inquiry: Inquiry,
) -> Result<Next>
    ensures { Steps S.accesses (3 * most + 100) result act.new run.new
        (operator_and_end S.accesses (inquiry_kind inquiry) act.old levels) run.old }
{
    if act.is_at_name() {
        return begin_target(
            run,
            act,
            Target::super_name(levels),
            TargetUse::Inquire(inquiry),
        );
    }
    match act.target_kind(levels) {
        TargetKind::RefOf => Ok(Next::Term(levels, Frame::Referent(inquiry))),
        TargetKind::DerefOf => Ok(Next::Term(levels, Frame::Referent(inquiry))),
        TargetKind::Index => Ok(Next::Term(levels, Frame::Referent(inquiry))),
        TargetKind::Nowhere | TargetKind::Slot(_) | TargetKind::Other => {
            begin_target(
                run,
                act,
                Target::super_name(levels),
                TargetUse::Inquire(inquiry),
            )
        }
    }
}

/// SizeOf or ObjectType of a term that refers, whose value was evaluated: references are followed.
#[tactic(auto, using(aml_frames::proofs::Using::using_targets))]
pub fn resume_referent<S: Space>(
    run: &mut Running<S>,
    act: &Activation,
    inquiry: Inquiry,
    flow: Flow,
) -> Result<Next>
    ensures steps { Steps S.accesses (most + 4) result act.now run.new
        (frame_at S.accesses (frames.Referent inquiry) act.now flow) run.old }
    ensures memory { RefersToNoField flow run.old.0 → NotMemory result }
{
    let value = flow.value()?;
    let referent = run.world.value_referent(value)?;
    inquire(run, act, inquiry, referent)
}

/// CondRefOf: a name is looked for, or the target is found.
#[tactic(auto, using(aml_frames::proofs::Using::operating))]
pub fn begin_conditional<S: Space>(
    run: &mut Running<S>,
    act: &mut Activation,
    levels: u8,
) -> Result<Next>
    ensures { Steps S.accesses (3 * most + 100) result act.new run.new
        (operator_and_end S.accesses operators.CondRefOf act.old levels) run.old }
{
    if act.is_at_name() {
        return begin_sought(run, act, levels);
    }
    begin_target(
        run,
        act,
        Target::super_name(levels),
        TargetUse::CondRefOf(levels),
    )
}

/// CondRefOf of a name: it is looked for.
#[tactic(auto, using(aml_frames::proofs::Using::seeking), unfolding(aml_marks::specs::Marked::a_name))]
fn begin_sought<S: Space>(run: &mut Running<S>, act: &mut Activation, levels: u8) -> Result<Next>
    requires { starts_name (first act.old.place.rest) ≡ true }
    ensures { Steps S.accesses (3 * most + 100) result act.new run.new
        (operator_and_end S.accesses operators.CondRefOf act.old levels) run.old }
{
    let sought = reference_at_name(run, act);
    let found = told_here(&mut run.world, act, sought)?;
    act.over_name();
    begin_found(run, act, levels, found)
}

/// A reference to what the name finds that stands next, if it finds something.
#[tactic(auto, using(aml_meaning::proofs::Runs::running))]
fn reference_at_name<S: Space>(run: &Running<S>, act: &Activation) -> Result<Option<Reference>>
    ensures { Does result run.now (lift (reference_if_found act.now.scope (a_name act.now.place).0)) run.now }
{
    let name = act.name(run.world.alloc)?;
    run.world.reference_if_found(act.scope(), &name)
}

/// CondRefOf: a reference is stored and it gives True, or nothing is stored and it gives False.
#[tactic(auto, using(aml_frames::proofs::Using::using_targets), unfolding(aml_frames::specs::Uses::found_next))]
pub(crate) fn begin_found<S: Space>(
    run: &Running<S>,
    act: &mut Activation,
    levels: u8,
    found: Option<Reference>,
) -> Result<Next>
    ensures steps { Steps S.accesses (most + 20) result act.new run.now
        (found_next S.accesses (meaning S.accesses) levels found act.old, behind_target (optional levels) act.old)
        run.now }
    ensures memory { NotMemory result }
{
    match found {
        None => {
            act.over_target(levels);
            Ok(Next::Flow(Flow::Value(Value::Integer(0))))
        }
        Some(reference) => Ok(Next::Found(levels, reference)),
    }
}

/// A CondRefOf whose reference is stored gives True.
#[tactic(auto, using(aml_frames::proofs::Using::using_targets))]
pub fn resume_found<S: Space>(run: &Running<S>, act: &Activation, flow: Flow) -> Result<Next>
    ensures steps { Steps S.accesses 6 result act.now run.now (frame_at S.accesses frames.Found act.now flow) run.now }
    ensures memory { NotMemory result }
{
    let value = run.world.integer_kept(u64::MAX)?;
    Ok(Next::Flow(Flow::Value(value)))
}
