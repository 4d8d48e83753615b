//! Evaluations from outside: a call of a control method, and the integer that an object answers (ACPI 6.5, 5.5).
ghost use Rattle.std.specs.Prelude.{◌≡◌, ℕ, [], Ok};
ghost use Rattle.ar_space.specs.Change.{Does};
ghost use Rattle.ar_space.specs.Outcome.{Answers, seen};
ghost use Rattle.aml_world.specs.fields.Fields.{field_part};
ghost use Rattle.aml_meaning.specs.FieldCalls.{method_integer};
ghost use Rattle.aml_meaning.specs.Calls.{invoked, method_value};
ghost use Rattle.aml_meaning.specs.Meaning.{meaning};
ghost use Rattle.aml_frames.specs.Addresses.{waited_run};
ghost use Rattle.aml_frames.specs.Uses.{asking};

use crate::stack::{access_field, evaluate};
use aml_accesses::{ask, enter};
use aml_frames::{Activation, Asked, MethodPath, Waited, value_of_call};
use aml_meaning::{Flow, Running};
use aml_objects::{Body, Field, Octets, Value};
use aml_path::Path;
use aml_terms::{Arities, scan_list};
use aml_world::integer_only;
use ar_space::{Result, Space};

/// Calls the control method at a path, with its body, where so many are being called already, and gives its value;
/// one that gives none is uninitialized. However its body ends, unless memory runs out, the call ends: its frame of
/// slots, and the names below it.
///
/// Refused: `CallDepth` where 32 are being called, as a scan of the body refuses it, and as its evaluation is.
/// `OutOfMemory` where memory runs out: then nothing is said of the world.
#[tactic(auto, using(aml_meaning::proofs::Runs::running), unfolding(aml_meaning::specs::Calls::method_value))]
pub fn call_method<S: Space>(
    run: &mut Running<S>,
    depth: usize,
    called: (Path, Body),
    arguments: &[Value],
) -> Result<Value>
    ensures { Does result run.new (method_value (meaning S.accesses) depth called.0 called.1 arguments.now) run.old }
{
    let flow = run_method(run, depth, called, arguments)?;
    Ok(value_of_call(flow))
}

/// The same, and what the call leaves.
#[tactic(auto, using(aml_accesses::proofs::Entering::entered))]
fn run_method<S: Space>(
    run: &mut Running<S>,
    depth: usize,
    called: (Path, Body),
    arguments: &[Value],
) -> Result<Flow>
    ensures { Does result run.new (invoked (meaning S.accesses) depth called.0 called.1 arguments.now) run.old }
{
    match enter(run, depth, called, None, arguments) {
        Ok(body) => evaluate(run, body.into_inner()),
        Err(refusal) => Err(refusal),
    }
}

/// The integer that the object at a path answers, without arguments, where so many calls may still be made one inside
/// another.
///
/// Refused: `NotFound` where nothing stands there, `ArityChanged` where it takes arguments, `CallDepth` where no call
/// is left, `NoValue` where it has no value, `WrongType` where it answers another one than an integer, and as its
/// evaluation is.
#[tactic(auto, using(aml_accesses::proofs::Entering::asked_whole))]
pub fn ask_integer<S: Space>(run: &mut Running<S>, calls: usize, path: &Path) -> Result<u64>
    ensures { Does result run.new (asking S.accesses (meaning S.accesses) calls path.now) run.old }
{
    match ask(run, calls, path) {
        Ok(Asked::Known(number)) => Ok(number),
        Ok(Asked::Waits(waited)) => await_integer(run, waited),
        Err(refusal) => Err(refusal),
    }
}

/// The integer that is waited for.
fn await_integer<S: Space>(run: &mut Running<S>, waited: Waited) -> Result<u64>
    ensures { Does result run.new (waited_run S.accesses (meaning S.accesses) waited) run.old }
{
    match waited {
        Waited::Method(depth, path, body) => call_integer(run, depth, (path, body)),
        Waited::Field(calls, field) => field_integer(run, calls, field),
    }
}

/// The integer that a control method answers.
#[tactic(auto, using(aml_meaning::proofs::Runs::running), unfolding(aml_meaning::specs::FieldCalls::method_integer))]
fn call_integer<S: Space>(run: &mut Running<S>, depth: usize, called: (Path, Body)) -> Result<u64>
    ensures { Does result run.new (method_integer S.accesses (meaning S.accesses) depth called.0 called.1) run.old }
{
    let value = call_method(run, depth, called, &[])?;
    integer_only(value)
}

/// The integer that a field holds.
#[tactic(auto, using(aml_accesses::proofs::Entering::parted))]
fn field_integer<S: Space>(run: &mut Running<S>, calls: usize, field: Field) -> Result<u64>
    ensures { Does result run.new (field_part S.accesses (asking S.accesses (meaning S.accesses) calls) field) run.old }
{
    let nowhere = nowhere(run)?;
    let flow = access_field(run, nowhere, calls, field)?;
    integer_only(value_of_call(flow))
}

/// A list without terms: an access of a field needs no more of it. Only want of memory refuses it.
#[tactic(auto, using(aml_accesses::proofs::Entering::standing))]
fn nowhere<S: Space>(run: &Running<S>) -> Result<Activation>
    ensures { Answers {A = ℕ} (seen (λ a. 0) result) (Ok 0) }
{
    let root = Path::root(run.world.alloc);
    let marks = scan_list(
        run.world.alloc,
        &[],
        &root,
        true,
        &Arities::new(run.world.alloc),
    )?;
    let bytes = Body::new(run.world.alloc, Octets::new(run.world.alloc))?;
    let node = run.world.scope(&root).node;
    let scope = MethodPath::new(run.world.alloc, root)?;
    Ok(Activation::new(bytes, marks, scope, node, 0))
}
