//! What is there already when a term needs it: operands that are integers, and targets that take or hold one. They
//! are read and stored to at once. Where these functions answer none, nothing has changed, and the caller tries
//! something else or makes a frame.
ghost use Rattle.std.specs.Prelude.{◌≡◌, ◌≤◌, None, Ok, IfSome};
ghost use Rattle.ar_space.specs.Change.{Does};
ghost use Rattle.aml_objects.specs.declared.value.Value.TheVariants as values;
ghost use Rattle.aml_meaning.specs.declared.flow.Flow.TheVariants as flows;
ghost use Rattle.aml_meaning.specs.Meaning.{meaning};
ghost use Rattle.aml_frames.specs.declared.uses.TargetUse.TheVariants as uses;
ghost use Rattle.aml_frames.specs.Uses.{super, behind_target, target_run};
ghost use Rattle.aml_frames.specs.at_once.Known.{KnownInteger, UsedTarget};

use crate::activation::Activation;
use crate::at_once::short_names::{count_at_name, integer_at_name, put_integer_at_name};
use crate::at_once::short_operations::operation_integer;
use crate::at_once::short_terms::{count_slot, put_integer_to_slot, short_integer};
use crate::uses::TargetUse;
use aml_meaning::Running;
use aml_objects::Value;
use aml_world::Count;
use ar_space::{Result, Space};

/// The integer of the next term, where no frame is needed: that of a local, an argument, a constant, a name, a field
/// unit whose bits are read at once, or an operator without a target over short terms or over such operators. It takes
/// the steps of the term. A refusal is that of the term, and comes from the read of a field unit. Where it answers none, nothing
/// changes.
#[inline(always)]
pub fn known_integer<S: Space>(
    run: &mut Running<S>,
    act: &mut Activation,
    levels: u8,
) -> Result<Option<u64>>
    ensures { KnownInteger S.accesses result act.new run.new levels act.old run.old }
{
    if let Some(number) = short_integer(run, act, levels) {
        return Ok(Some(number));
    }
    if let Some(number) = operation_integer(run, act, levels) {
        return Ok(Some(number));
    }
    integer_at_name(run, act, levels)
}

/// Uses the next target at once, where it can: stores an integer to a local, an argument, a name that holds an integer,
/// or a field unit, or increments or decrements the integer that a local, an argument or a name holds. It gives the
/// value of the term, takes no step, and is refused as the term is. Where it answers none, nothing changes.
#[inline(always)]
pub fn use_known<S: Space>(
    run: &mut Running<S>,
    act: &mut Activation,
    levels: u8,
    target_use: TargetUse,
) -> Result<Option<Value>>
    ensures { UsedTarget S.accesses result act.new run.new target_use levels act.old run.old }
{
    match target_use {
        TargetUse::Store(Value::Integer(number)) => put_known(run, act, levels, number),
        TargetUse::Count(count) => Ok(count_known(run, act, levels, count)),
        _ => Ok(None),
    }
}

/// Stores an integer to the next local, argument, name that holds an integer, or field unit.
#[inline(always)]
fn put_known<S: Space>(
    run: &mut Running<S>,
    act: &mut Activation,
    levels: u8,
    number: u64,
) -> Result<Option<Value>>
    ensures { UsedTarget S.accesses result act.new run.new (uses.Store (values.Integer number)) levels act.old run.old }
{
    if put_integer_to_slot(run, act, levels, number) {
        return Ok(Some(Value::Integer(number)));
    }
    if put_integer_at_name(run, act, levels, number)? {
        return Ok(Some(Value::Integer(number)));
    }
    Ok(None)
}

/// Increments or decrements the integer that the next local, argument or name holds.
#[inline(always)]
fn count_known<S: Space>(
    run: &mut Running<S>,
    act: &mut Activation,
    levels: u8,
    count: Count,
) -> Option<Value>
    ensures done { IfSome result (λ value. Does (Ok (flows.Value value)) run.new
        (target_run S.accesses (meaning S.accesses) (super levels) (uses.Count count) act.old) run.old) }
    ensures spent { run.new.1 ≤ run.old.1 }
    ensures behind { IfSome result (λ value. act.new ≡ behind_target (super levels) act.old) }
    ensures none { result ≡ None → run.new ≡ run.old }
    ensures stays { result ≡ None → act.new ≡ act.old }
{
    match count_slot(run, act, levels, count) {
        Some(number) => Some(Value::Integer(number)),
        None => match count_at_name(run, act, levels, count) {
            Some(number) => Some(Value::Integer(number)),
            None => None,
        },
    }
}
