//! What the object at a path answers (ACPI 6.5, 5.5).
ghost use Rattle.std.specs.Prelude.{◌≡◌, length, map};
ghost use Rattle.ar_space.specs.Outcome.{seen};
ghost use Rattle.ar_space.specs.Change.{Does};
ghost use Rattle.aml_world.specs.state.Given.{given_of};
ghost use Rattle.aml_meaning.specs.Calling.{called, counted, evaluated, with_rest, with_steps, answer_exported};
ghost use Rattle.aml_meaning.specs.Calling.{answered, invocation_exported, value_of};

use crate::export::value_exported;
use crate::fields::{field_given, field_value};
use aml_evaluation::call_method;
use aml_frames::invocation_at;
use aml_meaning::{Running, World};
use aml_objects::Value;
use aml_path::Path;
use aml_world::{Datum, Invocation};
use ar_space::{MAX_NESTING, Result, Space};
use std::alloc::Global;

/// How many calls the address of a field may make one inside another: reading the field counts as one.
pub(crate) const CALLS_OF_A_FIELD: usize = 31;

/// The value of the object at a path, and how many of the steps are left.
///
/// A control method is called. A name that holds a value has that value, a field its bits, any other is a reference
/// to it; reading one costs no step, but what the address of a field calls does. An alias at the path stands for its
/// target. Refused: `NotFound` where nothing stands at the path, `ArityChanged` where it takes another number of
/// arguments, and as its evaluation is. `OutOfMemory` where memory runs out: then nothing is said of the world.
#[tactic(auto, using(aml_meaning::proofs::Runs::calling), unfolding(aml_meaning::specs::Calling::evaluated))]
pub fn eval<S: Space>(
    alloc: Global,
    world: &mut World<S>,
    path: &Path,
    arguments: Vec<Value>,
    budget: u64,
) -> Result<(Value, u64)>
    ensures { Does result world.new (evaluated S.accesses path.now arguments.items budget) world.old }
{
    let run = &mut world.running;
    run.world.alloc = alloc;
    run.world.begin_trace(budget);
    run.steps = budget;
    let value = call(run, path, &arguments);
    tell_steps(run, &value);
    with_rest(value, run.steps)
}

fn with_rest(value: Result<Value>, rest: u64) -> Result<(Value, u64)>
    ensures { result ≡ with_rest value rest }
{
    match value {
        Ok(value) => Ok((value, rest)),
        Err(refusal) => Err(refusal),
    }
}

/// What the object at a path answers, in so many steps: its value, with each package element costing a step.
///
/// The value names no object of the world: a name that stands is given as its path, and so is an element of a package
/// that is a name without a value, or that finds nothing.
///
/// Refused as `eval` is. After `NotFound` and `ArityChanged` of the object, and before it is evaluated, an argument
/// is refused as `WrongType` where it is or holds a `Datum::Reference`, as `NotFound` where nothing stands at the
/// path of a `Datum::Named`, and as `ObjectLimit` where it is too large, nests packages more than 64 deep, or makes
/// too many objects. The value is refused as `ObjectLimit` where its packages nest more than 64 deep, and as
/// `OutOfSteps` where no step is left for an element. `OutOfMemory` where memory runs out: then nothing is said of
/// the world. However else it ends, all mutexes are free after it.
#[tactic(auto, using(crate::proofs::Steps::answering))]
pub fn answer<S: Space>(
    alloc: Global,
    world: &mut World<S>,
    path: &Path,
    arguments: Vec<Datum>,
    budget: u64,
) -> Result<Datum>
    ensures { Does (seen given_of result) world.new (answered S.accesses path.now
        (map given_of arguments.items) budget) world.old }
{
    let run = &mut world.running;
    run.world.alloc = alloc;
    run.world.begin_trace(budget);
    let outcome = with_steps(run, path, &arguments, budget);
    tell_steps(run, &outcome);
    run.world.release_mutexes();
    outcome
}

/// Where an evaluation is refused, its trace tells how many steps were left.
fn tell_steps<S, A>(run: &mut Running<S>, outcome: &Result<A>)
    ensures { run.new ≡ run.old }
{
    if outcome.is_err() {
        run.world.put_trace_steps(run.steps);
    }
}

#[tactic(auto, using(aml_meaning::proofs::Runs::calling))]
fn with_steps<S: Space>(
    run: &mut Running<S>,
    path: &Path,
    arguments: &[Datum],
    steps: u64,
) -> Result<Datum>
    ensures { Does (seen given_of result) run.new.0 (with_steps steps
        (answer_exported S.accesses path.now (length arguments.now) (map given_of arguments.now))) run.old.0 }
{
    run.steps = steps;
    answer_exported(run, path, arguments)
}

#[tactic(auto, using(aml_meaning::proofs::Runs::calling), unfolding(aml_meaning::specs::Calling::answer_exported))]
fn answer_exported<S: Space>(
    run: &mut Running<S>,
    path: &Path,
    arguments: &[Datum],
) -> Result<Datum>
    ensures { Does (seen given_of result) run.new (answer_exported S.accesses path.now (length arguments.now)
        (map given_of arguments.now)) run.old }
{
    let found = invocation_at(&run.world, path, arguments.len());
    let invocation = told(run, path, found)?;
    let values = run.world.import_all(arguments)?;
    invocation_exported(run, invocation, &values)
}

/// What the object at a path gives, handed out: the bits of a field as they are, and of any other its value.
#[tactic(auto, using(aml_meaning::proofs::Runs::calling), unfolding(aml_meaning::specs::Exporting::exported))]
fn invocation_exported<S: Space>(
    run: &mut Running<S>,
    invocation: Invocation,
    arguments: &[Value],
) -> Result<Datum>
    ensures { Does (seen given_of result) run.new (invocation_exported S.accesses invocation arguments.now) run.old }
{
    match invocation {
        Invocation::Field(field) => field_given(run, CALLS_OF_A_FIELD, field),
        other => {
            let value = value_of(run, other, arguments)?;
            value_exported(run, MAX_NESTING, value)
        }
    }
}

/// The value of the object at a path, with these arguments.
#[tactic(auto, using(aml_meaning::proofs::Runs::calling), unfolding(aml_meaning::specs::Calling::called))]
fn call<S: Space>(run: &mut Running<S>, path: &Path, arguments: &[Value]) -> Result<Value>
    ensures { Does result run.new (called S.accesses path.now arguments.now) run.old }
{
    let found = invocation_at(&run.world, path, arguments.len());
    let invocation = told(run, path, found)?;
    value_of(run, invocation, arguments)
}

/// Where the object at a path is refused, its trace tells the path.
fn told<S>(run: &mut Running<S>, path: &Path, found: Result<Invocation>) -> Result<Invocation>
    ensures same { result ≡ found }
    ensures run { run.new ≡ run.old }
{
    if found.is_err() {
        run.world.put_trace_path(path);
    }
    found
}

#[tactic(auto, using(aml_meaning::proofs::Runs::calling))]
fn value_of<S: Space>(
    run: &mut Running<S>,
    invocation: Invocation,
    arguments: &[Value],
) -> Result<Value>
    ensures { Does result run.new (value_of S.accesses invocation arguments.now) run.old }
{
    match invocation {
        Invocation::Value(value) => Ok(value),
        Invocation::Field(field) => field_value(run, CALLS_OF_A_FIELD, field),
        Invocation::Method(path, body) => call_method(run, 0, (path, body), arguments),
        Invocation::Osi => run.world.osi(arguments),
    }
}
