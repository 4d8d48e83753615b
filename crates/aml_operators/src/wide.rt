//! Terms of the wide profile (ACPI 6.5, 19.6 and 20.2.5.4). The operands stand next.
ghost use Rattle.std.specs.Prelude.{◌+◌};
ghost use Rattle.ar_space.specs.Outcome.{NotMemory};
ghost use Rattle.aml_meaning.specs.Meaning.{meaning};
ghost use Rattle.aml_frames.specs.declared.frames.Frame.TheVariants as frames;
ghost use Rattle.aml_frames.specs.Follow.{asked_run, behind_wide_at};
ghost use Rattle.aml_frames.specs.Weights.{most, step_weight};
ghost use Rattle.aml_frames.specs.Steps.{Steps, frame_at, wide_at};

use crate::operators::{begin_dyadic, begin_monadic};
use crate::searching::begin_match;
use aml_declarations::begin_bank_fields;
use aml_frames::{Activation, Dyadic, Monadic, Next, Target, TargetUse};
use aml_grammar::Opcode;
use aml_meaning::{Flow, Running, WideKind};
use aml_objects::Value;
use aml_targets::begin_target;
use ar_space::{Result, Space};

/// A term of the wide profile: a world of another one refuses it.
#[tactic(auto, using(aml_frames::proofs::Using::using_targets, aml_frames::proofs::Knowing::going_on))]
pub fn begin_wide<S: Space>(
    run: &mut Running<S>,
    act: &mut Activation,
    levels: u8,
    opcode: Opcode,
    kind: WideKind,
) -> Result<Next>
    ensures { Steps S.accesses step_weight result act.new run.new
        (asked_run S.accesses (meaning S.accesses) opcode kind act.old levels, behind_wide_at kind act.old levels)
        run.old }
{
    run.world.ask_for(opcode)?;
    begin_asked(run, act, levels, kind)
}

/// A term of the wide profile, in a world of that profile: its first operand is evaluated.
#[tactic(auto, using(aml_frames::proofs::Using::using_targets, aml_frames::proofs::Knowing::going_on, crate::proofs::WideSteps::beginning_events))]
fn begin_asked<S: Space>(
    run: &mut Running<S>,
    act: &mut Activation,
    levels: u8,
    kind: WideKind,
) -> Result<Next>
    ensures { Steps S.accesses step_weight result act.new run.new (wide_at S.accesses kind act.old levels) run.old }
{
    match kind {
        WideKind::Convert(conversion) => {
            begin_monadic(run, act, Monadic::Convert(conversion), levels)
        }
        WideKind::ToString => begin_dyadic(run, act, Dyadic::ToString, levels),
        WideKind::Mid => begin_dyadic(run, act, Dyadic::Mid, levels),
        WideKind::Match => begin_match(run, act, levels),
        WideKind::Event(change) => {
            let event = Target::super_name(levels);
            begin_target(run, act, event, TargetUse::Event(change))
        }
        WideKind::Wait => {
            let event = Target::super_name(levels);
            begin_target(run, act, event, TargetUse::Wait(levels))
        }
        WideKind::BankField => begin_bank_fields(run, act, levels),
    }
}

/// A Mid whose third operand was evaluated, with the first two.
#[tactic(auto, using(aml_frames::proofs::Using::using_targets))]
pub fn resume_third<S: Space>(
    run: &mut Running<S>,
    act: &mut Activation,
    levels: u8,
    before: (Value, Value),
    flow: Flow,
) -> Result<Next>
    ensures { Steps S.accesses (most + 15) result act.new run.new
        (frame_at S.accesses (frames.Third levels before.0 before.1) act.old flow) run.old }
{
    let count = flow.value()?;
    let (source, start) = before;
    let result = run.world.middle(source, start, count)?;
    begin_target(run, act, Target::optional(levels), TargetUse::Store(result))
}

/// A Wait whose timeout was evaluated, for the event that its operand names.
#[tactic(auto, using(aml_frames::proofs::Stepping::stepping))]
pub fn resume_wait<S: Space>(
    run: &mut Running<S>,
    act: &mut Activation,
    event: Option<u64>,
    flow: Flow,
) -> Result<Next>
    ensures steps { Steps S.accesses 6 result act.new run.new (frame_at S.accesses (frames.Wait event) act.old flow)
        run.old }
    ensures memory { NotMemory result }
{
    let timeout = flow.value()?;
    let value = run.world.wait(event, timeout)?;
    Ok(Next::Flow(Flow::Value(value)))
}
