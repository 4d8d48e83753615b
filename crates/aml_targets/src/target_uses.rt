//! What is done with a target that was found (ACPI 6.5, 19.6).
ghost use Rattle.std.specs.Prelude.{◌≢◌, ◌+◌, ◌*◌};
ghost use Rattle.ar_space.specs.Outcome.{NotMemory};
ghost use Rattle.aml_objects.specs.declared.entry.Field.{Field as AnyField};
ghost use Rattle.aml_world.specs.declared.values.object_type.Referent.TheVariants as referents;
ghost use Rattle.aml_meaning.specs.Meaning.{meaning};
ghost use Rattle.aml_frames.specs.declared.frames.Frame.TheVariants as frames;
ghost use Rattle.aml_frames.specs.declared.uses.TargetUse.TheVariants as uses;
ghost use Rattle.aml_frames.specs.Uses.{inquired, put_complete, put_back, stored_at};
ghost use Rattle.aml_frames.specs.Weights.{most, use_weight};
ghost use Rattle.aml_frames.specs.Steps.{Steps, frame_at, use_at};

use crate::references::begin_found;
use aml_accesses::{begin_read, begin_write, read_access};
use aml_frames::{
    Activation, Boxed, Frame, Inquiry, Next, Reading, TargetUse, integer_of, size_or_type,
};
use aml_meaning::{Flow, Running};
use aml_objects::{Field, Value};
use aml_world::{Count, EventChange, Held, Referent, StoreTarget, Stored, WorldState};
use ar_space::{Result, Space};

/// How many bytes the timeout of Acquire takes.
const TIMEOUT_LENGTH: usize = 2;

/// What is done with a target.
#[tactic(auto, using(aml_frames::proofs::Using::using_targets))]
pub(crate) fn use_target<S: Space>(
    run: &mut Running<S>,
    act: &mut Activation,
    target: StoreTarget,
    target_use: TargetUse,
) -> Result<Next>
    ensures { Steps S.accesses (use_weight target_use) result act.new run.new
        (use_at S.accesses target_use act.old target) run.old }
{
    match target_use {
        TargetUse::Store(value) => store_value(run, act, &target, value),
        TargetUse::CopyObject(value) => {
            let stored = run.world.copy_to(&target, value)?;
            complete(run, act, stored, value)
        }
        TargetUse::Form(value) => {
            let stored = run.world.store_formed(&target, value)?;
            complete(run, act, stored, value)
        }
        TargetUse::Count(count) => count_target(run, act, target, count),
        TargetUse::Inquire(inquiry) => {
            let referent = run.world.target_referent(&target)?;
            inquire(run, act, inquiry, referent)
        }
        TargetUse::Acquire => {
            run.world.acquire(&target)?;
            act.advance(TIMEOUT_LENGTH);
            Ok(Next::Flow(Flow::Value(Value::Integer(0))))
        }
        TargetUse::Release => {
            run.world.release(&target)?;
            Ok(Next::Flow(Flow::Next))
        }
        TargetUse::RefOf => {
            let reference = run.world.reference_of(&target)?;
            Ok(Next::Flow(Flow::Value(Value::Reference(reference))))
        }
        TargetUse::CondRefOf(levels) => {
            let reference = run.world.reference_of(&target)?;
            let found = run.world.if_initialized(reference)?;
            begin_found(run, act, levels, found)
        }
        TargetUse::Notify(levels) => Ok(Next::Term(levels, Frame::Pause)),
        TargetUse::Event(change) => change_event(run, act, &target, change),
        TargetUse::Wait(levels) => begin_wait(run, act, &target, levels),
    }
}

/// Signal and Reset of the event that a target names.
#[tactic(auto, using(aml_frames::proofs::Using::using_targets))]
fn change_event<S: Space>(
    run: &mut Running<S>,
    act: &Activation,
    target: &StoreTarget,
    change: EventChange,
) -> Result<Next>
    ensures { Steps S.accesses (use_weight (uses.Event change)) result act.now run.new
        (use_at S.accesses (uses.Event change) act.now target.now) run.old }
{
    let event = run.world.event_named(target)?;
    run.world.change_event(change, event)?;
    Ok(Next::Flow(Flow::Next))
}

/// Wait: the event is found before the timeout is evaluated.
#[tactic(auto, using(aml_frames::proofs::Using::using_targets, crate::proofs::Waiting::waiting))]
fn begin_wait<S: Space>(
    run: &Running<S>,
    act: &Activation,
    target: &StoreTarget,
    levels: u8,
) -> Result<Next>
    ensures { Steps S.accesses (use_weight (uses.Wait levels)) result act.now run.now
        (use_at S.accesses (uses.Wait levels) act.now target.now) run.now }
{
    let event = run.world.event_named(target)?;
    Ok(Next::Term(levels, Frame::Wait(event)))
}

/// A value is stored to a target, and is the value of the term.
#[tactic(auto, using(aml_frames::proofs::Using::using_targets), unfolding(aml_frames::specs::Uses::stored_at, aml_meaning::specs::FieldCalls::stored_to))]
fn store_value<S: Space>(
    run: &mut Running<S>,
    act: &Activation,
    target: &StoreTarget,
    value: Value,
) -> Result<Next>
    ensures { Steps S.accesses (most + 4) result act.now run.new
        (stored_at S.accesses (meaning S.accesses) value act.now target.now, act.now) run.old }
{
    let stored = run.world.store(target, value)?;
    complete(run, act, stored, value)
}

/// A store is done, or a field is written next.
#[tactic(auto, using(aml_frames::proofs::Using::using_targets))]
fn complete<S: Space>(
    run: &Running<S>,
    act: &Activation,
    stored: Stored,
    value: Value,
) -> Result<Next>
    ensures { Steps S.accesses (most + 4) result act.now run.now
        (put_complete S.accesses (meaning S.accesses) stored value act.now, act.now) run.now }
{
    match stored {
        Stored::Done => Ok(Next::Flow(Flow::Value(value))),
        Stored::Field(field) => begin_write(run, act, field, value),
    }
}

/// Increment and Decrement: what the target holds is read; that of a field is waited for.
#[tactic(auto, using(aml_frames::proofs::Using::using_targets), unfolding(aml_frames::specs::Uses::counted_back))]
fn count_target<S: Space>(
    run: &mut Running<S>,
    act: &Activation,
    target: StoreTarget,
    count: Count,
) -> Result<Next>
    ensures { Steps S.accesses (2 * most + 12) result act.now run.new
        (use_at S.accesses (uses.Count count) act.now target) run.old }
{
    let held = run.world.target_read(&target)?;
    match held {
        Held::Value(value) => {
            let number = integer_of(&run.world, value)?;
            let result = run.world.count(count, number)?;
            store_back(run, act, &target, held, result)
        }
        Held::Field(field) => {
            let access = read_access(act, field, Reading::Integer);
            let access = Boxed::new(run.world.alloc, access)?;
            let counted = Boxed::new(run.world.alloc, (target, field))?;
            Ok(Next::AccessThen(access, Frame::Counted(count, counted)))
        }
    }
}

/// Increment or Decrement of a field that was read.
#[tactic(auto, using(aml_frames::proofs::Using::using_targets), unfolding(aml_frames::specs::Uses::counted_back))]
pub fn resume_counted<S: Space>(
    run: &mut Running<S>,
    act: &Activation,
    count: Count,
    counted: Boxed<(StoreTarget, Field)>,
    flow: Flow,
) -> Result<Next>
    ensures { Steps S.accesses (most + 4) result act.now run.new
        (frame_at S.accesses (frames.Counted count counted) act.now flow) run.old }
{
    let value = flow.value()?;
    let number = integer_of(&run.world, value)?;
    let result = run.world.count(count, number)?;
    let (target, field) = counted.into_inner();
    store_back(run, act, &target, Held::Field(field), result)
}

/// A store to a target whose value was read before; a field that was read is the one that is written, unless an
/// element of a package named it: then the element is replaced.
#[tactic(auto, using(aml_frames::proofs::Using::using_targets), unfolding(aml_frames::specs::Uses::stored_at))]
fn store_back<S: Space>(
    run: &mut Running<S>,
    act: &Activation,
    target: &StoreTarget,
    held: Held,
    value: Value,
) -> Result<Next>
    ensures { Steps S.accesses (most + 4) result act.now run.new
        (put_back S.accesses (meaning S.accesses) held target.now value act.now, act.now) run.old }
{
    if target.is_element() {
        return store_value(run, act, target, value);
    }
    match held {
        Held::Value(_) => store_value(run, act, target, value),
        Held::Field(field) => begin_write(run, act, field, value),
    }
}

/// What SizeOf and ObjectType tell of a referent; a field that an element of a package names is read first.
#[tactic(auto, using(aml_frames::proofs::Using::using_targets), unfolding(aml_frames::specs::Uses::inquired))]
pub(crate) fn inquire<S: Space>(
    run: &mut Running<S>,
    act: &Activation,
    inquiry: Inquiry,
    referent: Referent,
) -> Result<Next>
    ensures steps { Steps S.accesses (most + 4) result act.now run.new
        (inquired S.accesses (meaning S.accesses) inquiry act.now referent, act.now) run.old }
    ensures memory { ((field : AnyField) → referent ≢ referents.Field field) → NotMemory result }
{
    match referent {
        Referent::Field(field) => begin_read(run, act, field, Reading::Inquire(inquiry)),
        Referent::Value(_) | Referent::Object(_) | Referent::Bytes(_) => {
            let value = size_or_type(&run.world, inquiry, referent)?;
            Ok(Next::Flow(Flow::Value(value)))
        }
    }
}
