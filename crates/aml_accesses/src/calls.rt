//! Calls of control methods (ACPI 6.5, 5.5.2 and 20.2.5: MethodInvocation).
ghost use Rattle.std.specs.Prelude.{◌≡◌, ◌≤◌, ◌+◌, IfErr, slice_index_or};
ghost use Rattle.aml_objects.specs.declared.value.Value.TheVariants.{Uninitialized};
ghost use Rattle.aml_meaning.specs.Meaning.{meaning};
ghost use Rattle.aml_meaning.specs.Calls.{frame_arguments, invoked};
ghost use Rattle.aml_frames.specs.declared.frames.Frame.TheVariants as frames;
ghost use Rattle.aml_frames.specs.Entering.{Enters};
ghost use Rattle.aml_frames.specs.Follow.{called, entered_then, arguments_left, behind_arguments, ends};
ghost use Rattle.aml_frames.specs.Weights.{weight};
ghost use Rattle.aml_frames.specs.Steps.{Steps, frame_at};

use aml_frames::{
    Activation, Boxed, Call, Callee, Frame, MethodPath, Next, PciAccess, known_integer, told_path,
};
use aml_meaning::{Flow, Running};
use aml_objects::{Body, NodeId, Value};
use aml_path::Path;
use aml_world::WorldState;
use ar_space::{Result, Space};

/// Evaluates the arguments that are left of a call, and then makes it. Arguments that `known_integer` gives need no
/// frame; for any other one the call waits (`Frame::Argument`).
#[tactic(auto, using(aml_frames::proofs::Stepping::calls, crate::proofs::Arguments::arguing))]
pub fn begin_call<S: Space>(run: &mut Running<S>, act: &mut Activation, call: Call) -> Result<Next>
    ensures { Steps S.accesses 6 result act.new run.new
        (arguments_left S.accesses (meaning S.accesses) call call.done.items act.old, behind_arguments call act.old)
        run.old }
{
    let mut call = call;
    'arguments: while call.left > 0 {
        let levels = call.levels;
        let known = known_integer(run, act, levels)?;
        call.left -= 1;
        match known {
            None => {
                let waiting = Boxed::new(run.world.alloc, call)?;
                return Ok(Next::Term(levels, Frame::Argument(waiting)));
            }
            Some(number) => call.done.push(Value::Integer(number))?,
        }
    }
    begin_callee(run, act, call)
}

/// A call whose argument was evaluated.
#[tactic(auto, using(aml_frames::proofs::Stepping::stepping))]
pub fn resume_argument<S: Space>(
    run: &mut Running<S>,
    act: &mut Activation,
    call: Boxed<Call>,
    flow: Flow,
) -> Result<Next>
    ensures { Steps S.accesses 6 result act.new run.new (frame_at S.accesses (frames.Argument call) act.old flow)
        run.old }
{
    let value = flow.value()?;
    let mut call = call.into_inner();
    call.done.push(value)?;
    begin_call(run, act, call)
}

/// Makes a call whose arguments are evaluated: a control method is entered, and `\_OSI` answers at once.
#[tactic(auto, using(aml_frames::proofs::Stepping::calls, crate::proofs::Entering::entered))]
fn begin_callee<S: Space>(run: &mut Running<S>, act: &Activation, call: Call) -> Result<Next>
    ensures steps { Steps S.accesses 6 result act.now run.new
        (called S.accesses (meaning S.accesses) call.callee act.now.depth call.done.items, act.now) run.old }
    ensures closed { IfErr result (λ e. run.new ≡ run.old) }
{
    let node = call.node;
    let done = call.done;
    match call.callee {
        Callee::Method(path, body) => {
            match enter(run, act.depth(), (path, body), node, &done) {
                Ok(entered) => Ok(Next::Body(entered)),
                Err(refusal) => Err(refusal),
            }
        }
        Callee::Osi => {
            run.world.call_allowed(act.depth())?;
            let value = run.world.osi(&done)?;
            Ok(Next::Flow(Flow::Value(value)))
        }
    }
}

/// Enters a control method without arguments that gives a part of an address, where `depth` control methods are being
/// called: its body is next, and then what is left of the access.
#[tactic(auto, using(crate::proofs::Entering::entered))]
pub(crate) fn enter_then<S: Space>(
    run: &mut Running<S>,
    act: &Activation,
    depth: usize,
    called: (Path, Body),
    asked: Boxed<PciAccess>,
) -> Result<Next>
    ensures steps { Steps S.accesses (weight (frames.Address asked) + 6) result act.now run.new (
      entered_then S.accesses (meaning S.accesses) depth called.0 called.1 (frames.Address asked) act.now,
      ends (frames.Address asked) act.now,
    ) run.old }
    ensures closed { IfErr result (λ e. run.new ≡ run.old) }
{
    match enter(run, depth, called, None, &[]) {
        Ok(entered) => Ok(Next::BodyThen(entered, asked)),
        Err(refusal) => Err(refusal),
    }
}

/// Enters a control method, whose node this is where it is known: tests the depth of calls, scans the body, and opens a
/// frame of slots. Gives the activation at the first byte of the body. Where it is refused, or memory runs out, nothing
/// changes that a contract sees: no frame is open.
#[tactic(auto, using(crate::proofs::Entering::entering), unfolding(aml_meaning::specs::Calls::invoked))]
pub fn enter<S: Space>(
    run: &mut Running<S>,
    depth: usize,
    called: (Path, Body),
    node: Option<NodeId>,
    arguments: &[Value],
) -> Result<Boxed<Activation>>
    ensures spent { run.new.1 ≤ run.old.1 }
    ensures closed { IfErr result (λ e. run.new ≡ run.old) }
    ensures means { Enters S.accesses (meaning S.accesses) result run.new
        (invoked (meaning S.accesses) depth called.0 called.1 arguments.now) run.old }
{
    let (path, body) = called;
    run.world.call_allowed(depth)?;
    let marks = run.world.body_marks(&path, &body);
    let marks = told_path(&mut run.world, &path, marks)?;
    let node = first_node(&run.world, node, &path);
    let method = MethodPath::new(run.world.alloc, path)?;
    let entered = Activation::new(body, marks, method, node, depth + 1);
    let entered = Boxed::new(run.world.alloc, entered)?;
    run.world.open_frame(frame_arguments(arguments))?;
    Ok(entered)
}

/// Where the scope of a control method is looked for first: at its node, where that is known.
fn first_node<S>(world: &WorldState<S>, node: Option<NodeId>, method: &Path) -> NodeId {
    match node {
        Some(id) => id,
        None => world.scope(method).node,
    }
}

/// The slots of a frame for these arguments.
fn frame_arguments(arguments: &[Value]) -> [Value; 7]
    ensures { result ≡ frame_arguments arguments.now }
{
    [
        argument(arguments, 0),
        argument(arguments, 1),
        argument(arguments, 2),
        argument(arguments, 3),
        argument(arguments, 4),
        argument(arguments, 5),
        argument(arguments, 6),
    ]
}

fn argument(arguments: &[Value], index: usize) -> Value
    ensures { result ≡ slice_index_or arguments.now index Uninitialized }
{
    match arguments.get(index) {
        None => Value::Uninitialized,
        Some(value) => *value,
    }
}
