//! Operators: terms that evaluate operands, form a value and store it to targets (ACPI 6.5, 19.6 and 20.2.5.4). The
//! operands stand next.
ghost use Rattle.std.specs.Prelude.{◌≡◌, ◌<◌, ◌+◌, ◌*◌, IfErr};
ghost use Rattle.ar_space.specs.declared.refusal.Refusal.TheVariants.{OutOfMemory};
ghost use Rattle.ar_space.specs.Outcome.{NotMemory};
ghost use Rattle.aml_objects.specs.declared.value.Value.{Value as AnyValue};
ghost use Rattle.aml_world.specs.declared.values.store_target.Held.TheVariants as helds;
ghost use Rattle.aml_meaning.specs.Meaning.{meaning};
ghost use Rattle.aml_frames.specs.declared.frames.Frame.TheVariants as frames;
ghost use Rattle.aml_frames.specs.declared.frames.Next.TheVariants as next;
ghost use Rattle.aml_frames.specs.declared.uses.TargetUse.TheVariants as uses;
ghost use Rattle.aml_frames.specs.Uses.{super, held_given, monadic_done, monadic_ends, dyadic_done, dyadic_ends};
ghost use Rattle.aml_frames.specs.Weights.{most, target_weight};
ghost use Rattle.aml_frames.specs.Steps.{Steps, frame_at, next_at, operator_and_end, next_target};

use crate::short_values::short_value;
use aml_accesses::begin_read;
use aml_frames::{
    Activation, Dyadic, Frame, Inquiry, Monadic, Next, Reading, SecondOperand, Target, TargetUse,
    acquire_at_name, known_integer, leave,
};
use aml_meaning::{Flow, OperatorKind, Running};
use aml_objects::Value;
use aml_targets::{begin_conditional, begin_inquiry, begin_target};
use aml_world::{Held, reference_in};
use ar_space::{Result, Space};

/// Begins an operator. A local or an argument gives its value; any other operator evaluates its first operand, or finds
/// the target that this operand names (Increment, RefOf, Acquire).
#[inline(always)]
#[tactic(auto, using(aml_frames::proofs::Using::operating, aml_frames::proofs::Knowing::going_on), unfolding(aml_meaning::specs::OperatorTerms::slot_rule))]
pub fn begin_operator<S: Space>(
    run: &mut Running<S>,
    act: &mut Activation,
    levels: u8,
    kind: OperatorKind,
) -> Result<Next>
    ensures { Steps S.accesses (3 * most + 100) result act.new run.new (operator_and_end S.accesses kind act.old levels)
        run.old }
{
    let name = Target::super_name(levels);
    match kind {
        OperatorKind::Slot(slot) => {
            let value = run.world.slot_read(slot)?;
            leave(Flow::Value(value))
        }
        OperatorKind::Store => begin_monadic(run, act, Monadic::Store, levels),
        OperatorKind::CopyObject => begin_monadic(run, act, Monadic::CopyObject, levels),
        OperatorKind::Two(two) => begin_dyadic(run, act, Dyadic::Two(two), levels),
        OperatorKind::Divide => begin_dyadic(run, act, Dyadic::Divide, levels),
        OperatorKind::One(one) => begin_monadic(run, act, Monadic::One(one), levels),
        OperatorKind::Test(test) => begin_dyadic(run, act, Dyadic::Test(test), levels),
        OperatorKind::LNot => begin_monadic(run, act, Monadic::LNot, levels),
        OperatorKind::Count(count) => begin_target(run, act, name, TargetUse::Count(count)),
        OperatorKind::SizeOf => begin_inquiry(run, act, levels, Inquiry::SizeOf),
        OperatorKind::ObjectType => begin_inquiry(run, act, levels, Inquiry::ObjectType),
        OperatorKind::Acquire => begin_acquire(run, act, levels),
        OperatorKind::RefOf => begin_target(run, act, name, TargetUse::RefOf),
        OperatorKind::CondRefOf => begin_conditional(run, act, levels),
        OperatorKind::DerefOf => begin_monadic(run, act, Monadic::DerefOf, levels),
    }
}

/// Acquire: a mutex that a name of one segment names is acquired at once.
#[tactic(auto, using(aml_frames::proofs::Knowing::knowing))]
fn begin_acquire<S: Space>(run: &mut Running<S>, act: &mut Activation, levels: u8) -> Result<Next>
    ensures { Steps S.accesses (target_weight uses.Acquire + 1) result act.new run.new
        (next_target S.accesses (super levels) uses.Acquire act.old) run.old }
{
    if acquire_at_name(run, act, levels) {
        return Ok(Next::Flow(Flow::Value(Value::Integer(0))));
    }
    begin_target(run, act, Target::super_name(levels), TargetUse::Acquire)
}

/// An operator with one operand: an integer that is there already is used at once.
#[inline(always)]
#[tactic(auto, using(aml_frames::proofs::Knowing::taking_known))]
pub(crate) fn begin_monadic<S: Space>(
    run: &mut Running<S>,
    act: &mut Activation,
    kind: Monadic,
    levels: u8,
) -> Result<Next>
    ensures steps { Steps S.accesses (most + 15) result act.new run.new
        (next_at S.accesses (next.Term levels (frames.Operand kind levels)) act.old) run.old }
    ensures memory { IfErr result (λ e. e ≡ OutOfMemory → run.new.1 < run.old.1) }
{
    match known_integer(run, act, levels)? {
        Some(number) => finish_monadic(run, act, kind, levels, Value::Integer(number)),
        None => begin_monadic_value(run, act, kind, levels),
    }
}

/// The same, where `known_integer` gives none: the operand's value is used at once, or a frame waits for it.
#[inline(never)]
#[tactic(auto, using(aml_frames::proofs::Knowing::taking_known))]
fn begin_monadic_value<S: Space>(
    run: &mut Running<S>,
    act: &mut Activation,
    kind: Monadic,
    levels: u8,
) -> Result<Next>
    ensures steps { Steps S.accesses (most + 15) result act.new run.new
        (next_at S.accesses (next.Term levels (frames.Operand kind levels)) act.old) run.old }
    ensures memory { IfErr result (λ e. e ≡ OutOfMemory → run.new.1 < run.old.1) }
{
    match short_value(run, act, levels)? {
        Some(value) => finish_monadic(run, act, kind, levels, value),
        None => Ok(Next::Term(levels, Frame::Operand(kind, levels))),
    }
}

/// An operator with two operands.
#[inline(always)]
#[tactic(auto, using(aml_frames::proofs::Knowing::taking_known))]
pub(crate) fn begin_dyadic<S: Space>(
    run: &mut Running<S>,
    act: &mut Activation,
    kind: Dyadic,
    levels: u8,
) -> Result<Next>
    ensures steps { Steps S.accesses (2 * most + 25) result act.new run.new
        (next_at S.accesses (next.Term levels (frames.First kind levels)) act.old) run.old }
    ensures memory { IfErr result (λ e. e ≡ OutOfMemory → run.new.1 < run.old.1) }
{
    match known_integer(run, act, levels)? {
        Some(first) => begin_second(
            run,
            act,
            SecondOperand {
                kind,
                levels,
                first: Value::Integer(first),
            },
        ),
        None => begin_dyadic_value(run, act, kind, levels),
    }
}

/// The same, where `known_integer` gives none: the first operand's value is used at once, or a frame waits for it.
#[inline(never)]
#[tactic(auto, using(aml_frames::proofs::Knowing::taking_known))]
fn begin_dyadic_value<S: Space>(
    run: &mut Running<S>,
    act: &mut Activation,
    kind: Dyadic,
    levels: u8,
) -> Result<Next>
    ensures steps { Steps S.accesses (2 * most + 25) result act.new run.new
        (next_at S.accesses (next.Term levels (frames.First kind levels)) act.old) run.old }
    ensures memory { IfErr result (λ e. e ≡ OutOfMemory → run.new.1 < run.old.1) }
{
    match short_value(run, act, levels)? {
        Some(first) => begin_second(
            run,
            act,
            SecondOperand {
                kind,
                levels,
                first,
            },
        ),
        None => Ok(Next::Term(levels, Frame::First(kind, levels))),
    }
}

/// The second operand of an operator.
#[inline(always)]
#[tactic(auto, using(aml_frames::proofs::Knowing::taking_known))]
fn begin_second<S: Space>(
    run: &mut Running<S>,
    act: &mut Activation,
    operator: SecondOperand,
) -> Result<Next>
    ensures steps { Steps S.accesses (2 * most + 25) result act.new run.new
        (next_at S.accesses (next.Term operator.levels (frames.Second operator)) act.old) run.old }
    ensures memory { IfErr result (λ e. e ≡ OutOfMemory → run.new.1 < run.old.1) }
{
    match known_integer(run, act, operator.levels)? {
        Some(second) => finish_dyadic(run, act, operator, Value::Integer(second)),
        None => begin_second_value(run, act, operator),
    }
}

/// The same, where `known_integer` gives none: the operand's value is used at once, or a frame waits for it.
#[inline(never)]
#[tactic(auto, using(aml_frames::proofs::Knowing::taking_known))]
fn begin_second_value<S: Space>(
    run: &mut Running<S>,
    act: &mut Activation,
    operator: SecondOperand,
) -> Result<Next>
    ensures steps { Steps S.accesses (2 * most + 25) result act.new run.new
        (next_at S.accesses (next.Term operator.levels (frames.Second operator)) act.old) run.old }
    ensures memory { IfErr result (λ e. e ≡ OutOfMemory → run.new.1 < run.old.1) }
{
    match short_value(run, act, operator.levels)? {
        Some(second) => finish_dyadic(run, act, operator, second),
        None => Ok(Next::Term(operator.levels, Frame::Second(operator))),
    }
}

/// An operator whose only operand was evaluated.
#[inline(always)]
#[tactic(auto, using(aml_frames::proofs::Using::using_targets))]
pub fn resume_operand<S: Space>(
    run: &mut Running<S>,
    act: &mut Activation,
    kind: Monadic,
    levels: u8,
    flow: Flow,
) -> Result<Next>
    ensures { Steps S.accesses (most + 15) result act.new run.new
        (frame_at S.accesses (frames.Operand kind levels) act.old flow) run.old }
{
    let value = flow.value()?;
    finish_monadic(run, act, kind, levels, value)
}

/// What an operator does with the value of its only operand.
#[inline(always)]
#[tactic(auto, using(aml_frames::proofs::Using::using_targets))]
fn finish_monadic<S: Space>(
    run: &mut Running<S>,
    act: &mut Activation,
    kind: Monadic,
    levels: u8,
    value: Value,
) -> Result<Next>
    ensures { Steps S.accesses (most + 15) result act.new run.new
        (monadic_done S.accesses (meaning S.accesses) kind levels value act.old, monadic_ends kind levels act.old)
        run.old }
{
    let name = Target::super_name(levels);
    let target = Target::optional(levels);
    match kind {
        Monadic::Store => begin_target(run, act, name, TargetUse::Store(value)),
        Monadic::CopyObject => begin_target(run, act, name, TargetUse::CopyObject(value)),
        Monadic::One(one) => {
            let result = run.world.operate_on_one(one, value)?;
            begin_target(run, act, target, TargetUse::Store(result))
        }
        Monadic::Convert(conversion) => {
            let result = run.world.convert(conversion, value)?;
            begin_target(run, act, target, TargetUse::Form(result))
        }
        Monadic::LNot => {
            let result = run.world.lnot(value)?;
            leave(Flow::Value(result))
        }
        Monadic::DerefOf => {
            let reference = reference_in(value)?;
            let held = run.world.dereference(reference)?;
            give_held(run, act, held)
        }
    }
}

/// The value of what a reference leads to: a field is read.
#[tactic(auto, using(aml_frames::proofs::Using::using_targets))]
fn give_held<S: Space>(run: &mut Running<S>, act: &Activation, held: Held) -> Result<Next>
    ensures steps { Steps S.accesses (most + 4) result act.now run.new
        (held_given S.accesses (meaning S.accesses) held act.now, act.now) run.old }
    ensures memory { (value : AnyValue) → held ≡ helds.Value value → NotMemory result }
{
    match held {
        Held::Value(value) => Ok(Next::Flow(Flow::Value(value))),
        Held::Field(field) => begin_read(run, act, field, Reading::Value),
    }
}

/// An operator whose first operand was evaluated: its second operand is next.
#[inline(always)]
#[tactic(auto, using(aml_frames::proofs::Using::using_targets, aml_frames::proofs::Knowing::going_on))]
pub fn resume_first<S: Space>(
    run: &mut Running<S>,
    act: &mut Activation,
    kind: Dyadic,
    levels: u8,
    flow: Flow,
) -> Result<Next>
    ensures { Steps S.accesses (2 * most + 25) result act.new run.new
        (frame_at S.accesses (frames.First kind levels) act.old flow) run.old }
{
    let value = flow.value()?;
    let operator = SecondOperand {
        kind,
        levels,
        first: value,
    };
    begin_second(run, act, operator)
}

/// An operator whose second operand was evaluated.
#[inline(always)]
#[tactic(auto, using(aml_frames::proofs::Using::using_targets))]
pub fn resume_second<S: Space>(
    run: &mut Running<S>,
    act: &mut Activation,
    operator: SecondOperand,
    flow: Flow,
) -> Result<Next>
    ensures { Steps S.accesses (2 * most + 25) result act.new run.new
        (frame_at S.accesses (frames.Second operator) act.old flow) run.old }
{
    let second = flow.value()?;
    finish_dyadic(run, act, operator, second)
}

/// What an operator does with the values of its two operands.
#[inline(always)]
#[tactic(auto, using(aml_frames::proofs::Using::using_targets))]
fn finish_dyadic<S: Space>(
    run: &mut Running<S>,
    act: &mut Activation,
    operator: SecondOperand,
    second: Value,
) -> Result<Next>
    ensures { Steps S.accesses (2 * most + 25) result act.new run.new (
      dyadic_done S.accesses (meaning S.accesses) operator second act.old,
      dyadic_ends operator.kind operator.levels act.old,
    ) run.old }
{
    let SecondOperand {
        kind,
        levels,
        first,
    } = operator;
    match kind {
        Dyadic::Two(two) => {
            let result = run.world.operate_on_two(two, first, second)?;
            begin_target(run, act, Target::optional(levels), TargetUse::Store(result))
        }
        Dyadic::Divide => {
            let division = run.world.divide(first, second)?;
            Ok(Next::Division(
                levels,
                Value::Integer(division.remainder),
                Value::Integer(division.quotient),
            ))
        }
        Dyadic::Test(test) => {
            let result = run.world.test(test, first, second)?;
            leave(Flow::Value(result))
        }
        Dyadic::ToString => {
            let result = run.world.to_string(first, second)?;
            begin_target(run, act, Target::optional(levels), TargetUse::Form(result))
        }
        Dyadic::Mid => Ok(Next::Term(levels, Frame::Third(levels, first, second))),
    }
}

/// A Divide whose remainder is stored: its quotient is stored to the target that stands next.
#[tactic(auto, using(aml_frames::proofs::Using::using_targets))]
pub fn resume_quotient<S: Space>(
    run: &mut Running<S>,
    act: &mut Activation,
    levels: u8,
    quotient: Value,
    flow: Flow,
) -> Result<Next>
    ensures { Steps S.accesses (most + 13) result act.new run.new
        (frame_at S.accesses (frames.Quotient levels quotient) act.old flow) run.old }
{
    begin_target(
        run,
        act,
        Target::optional(levels),
        TargetUse::Store(quotient),
    )
}
