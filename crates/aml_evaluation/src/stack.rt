//! The machine: a loop over a stack of frames.
ghost use Rattle.std.specs.Prelude.{◌≡◌, ◌≢◌, ◌≤◌, ◌<◌, ◌+◌, [], ◌∷◌, ◌++◌, true, OnOk, OnErr, IfOk, IfErr};
ghost use Rattle.ar_space.specs.Change.{Does, stop};
ghost use Rattle.ar_space.specs.Outcome.{NotMemory, seen};
ghost use Rattle.ar_space.specs.declared.refusal.Refusal.TheVariants.{OutOfMemory};
ghost use Rattle.aml_world.specs.state.Invocations.{left};
ghost use Rattle.aml_world.specs.state.PassedOver.{is_passable};
ghost use Rattle.aml_meaning.specs.Calls.{returned_by};
ghost use Rattle.aml_meaning.specs.Meaning.{meaning};
ghost use Rattle.aml_frames.specs.declared.frames.Control.TheVariants as control;
ghost use Rattle.aml_frames.specs.declared.frames.Entry.TheVariants as entry;
ghost use Rattle.aml_frames.specs.declared.frames.Next.TheVariants as next;
ghost use Rattle.aml_frames.specs.declared.uses.Accessed.TheVariants as object;
ghost use Rattle.aml_frames.specs.declared.uses.Doing.TheVariants as doing;
ghost use Rattle.aml_frames.specs.declared.uses.Reading.TheVariants as reading;
ghost use Rattle.aml_frames.specs.Follow.{body_run, list_run, all_left};
ghost use Rattle.aml_marks.specs.Marked.{walk_levels};
ghost use Rattle.aml_frames.specs.Uses.{access_done};
ghost use Rattle.aml_frames.specs.Stack.{whole, then_all, machine, stack_weight, entry_weight, control_weight};
ghost use Rattle.aml_frames.specs.Stack.{Goes, Stepped, Follows, Turns, Waits};
ghost use Rattle.aml_frames.specs.Weights.{next_weight, target_weight, access_weight, charged};

use crate::lists::{next_item, step_items};
use crate::passing::{meet_item, pass_item_over};
use crate::resuming::resume;
use crate::terms::begin_term;
use crate::waiting::{Stack, go_to_flow, go_to_items, go_to_package, go_to_target};
use aml_accesses::begin_access;
use aml_declarations::begin_element;
use aml_frames::{
    Access, Accessed, Activation, Boxed, Control, Doing, Entry, Frame, Items, MethodPath, Next,
    Package, PciAccess, Position, Reading, Target, TargetUse, give_up, tell_last, tell_place,
};
use aml_meaning::{Flow, Running};
use aml_objects::{Field, NodeId, Reference, Value};
use aml_path::Path;
use aml_targets::begin_target;
use aml_terms::LEVELS;
use aml_world::is_passable;
use ar_space::{Refusal, Result, Space};

/// Evaluates the body of a control method whose slots stand already, in one loop; `body` stands at its first byte.
/// However the body ends, its call ends, unless memory runs out: its frame of slots is closed, and the names below it
/// are removed.
#[tactic(auto, using(crate::proofs::Machine::beginning))]
pub fn evaluate<S: Space>(run: &mut Running<S>, body: Activation) -> Result<Flow>
    ensures { Does result run.new (body_run S.accesses (meaning S.accesses) body) run.old }
{
    let path = match body.scope_path().share() {
        Ok(path) => path,
        Err(refusal) => {
            end_call(run, body.scope().path);
            return Err(refusal);
        }
    };
    let list = whole(&body);
    let stack = Stack::new(run.world.alloc, body);
    let outcome = execute(run, stack, Control::Items(list));
    end_call(run, path.path());
    of_call(outcome)
}

/// Evaluates the terms of a list one after another, in one loop, in the slots that stand: those of a table at the root,
/// say.
#[tactic(auto, using(crate::proofs::Machine::listing))]
pub fn evaluate_list<S: Space>(run: &mut Running<S>, list: Activation) -> Result<Flow>
    ensures { Does result run.new (list_run S.accesses (meaning S.accesses) list (all_left list walk_levels)) run.old }
{
    let items = whole(&list);
    let stack = Stack::new(run.world.alloc, list);
    execute(run, stack, Control::Items(items))
}

/// Reads a field as a part of an address, in one loop, where so many calls may still be made.
#[tactic(auto, using(crate::proofs::Machine::listing))]
pub(crate) fn access_field<S: Space>(
    run: &mut Running<S>,
    act: Activation,
    calls: usize,
    field: Field,
) -> Result<Flow>
    ensures { Does result run.new (access_done S.accesses (meaning S.accesses) calls (object.Field field)
        (doing.Read reading.Part)) run.old }
{
    let access = Access {
        calls,
        object: Accessed::Field(field),
        doing: Doing::Read(Reading::Part),
    };
    let held = Boxed::new(run.world.alloc, access)?;
    let stack = Stack::new(run.world.alloc, act);
    execute(run, stack, Control::Access(held))
}

/// What a call leaves whose body leaves this.
fn of_call(outcome: Result<Flow>) -> Result<Flow>
    ensures { result ≡ seen returned_by outcome }
{
    match outcome {
        Ok(flow) => Ok(flow.of_call()),
        Err(refusal) => Err(refusal),
    }
}

/// All of a list, of a body or of a table. Nothing is evaluated behind it, so where it ends doesn't matter.
fn whole(body: &Activation) -> Items
    ensures { result ≡ whole body.now }
{
    body.items(LEVELS, Position { at: 0, end: 0 })
}

/// The loop. Where a step is refused, it goes on behind an item that is passed over, or ends.
#[tactic(auto, using(crate::proofs::Answering::unwound))]
fn execute<S: Space>(run: &mut Running<S>, stack: Stack, first: Control) -> Result<Flow>
    ensures { Does result run.new (machine S.accesses (meaning S.accesses) first stack.act
        stack.entries.items) run.old }
{
    let mut stack = stack;
    let mut control = first;
    'refusals: loop {
        match take_steps(run, &mut stack, control) {
            Ok(flow) => return Ok(flow),
            Err(refusal) => control = unwind(run, &mut stack, refusal)?,
        }
    }
}

/// Steps are taken until nothing waits, or one is refused.
#[tactic(auto, using(crate::proofs::Answering::stepped))]
fn take_steps<S: Space>(run: &mut Running<S>, stack: &mut Stack, first: Control) -> Result<Flow>
    ensures refused { IfErr result (λ e. is_passable e ≡ true →
        charged run.new.1 + (stack_weight stack.new.entries.items + 1) <
        charged run.old.1 + (stack_weight stack.old.entries.items + control_weight first)) }
    ensures means { Stepped S.accesses (meaning S.accesses) result stack.new.act stack.new.entries.items run.new
        (machine S.accesses (meaning S.accesses) first stack.old.act stack.old.entries.items) run.old }
{
    let mut control = first;
    'steps: loop {
        match control {
            Control::Term(levels) => control = step_term(run, stack, levels)?,
            Control::Items(items) => control = step_items(run, stack, items)?,
            Control::Package(filling) => control = step_package(run, stack, filling)?,
            Control::Target(target, aim) => {
                control = step_target(run, stack, target, aim)?;
            }
            Control::Access(access) => control = step_access(run, stack, access)?,
            Control::Flow(flow) => match stack.entries.pop() {
                None => return Ok(flow),
                Some(top) => control = step_entry(run, stack, top, flow)?,
            },
        }
    }
}

/// A term begins.
#[inline(always)]
#[tactic(auto, using(crate::proofs::Machine::taking))]
fn step_term<S: Space>(run: &mut Running<S>, stack: &mut Stack, levels: u8) -> Result<Control>
    ensures { Turns S.accesses (stack_weight stack.old.entries.items) result stack.new.act stack.new.entries.items
        run.new (machine S.accesses (meaning S.accesses) (control.Term levels) stack.old.act stack.old.entries.items)
        run.old }
{
    let next = begin_term(run, &mut stack.act, levels)?;
    follow(run, stack, next)
}

/// The next element of a package begins.
#[inline(always)]
#[tactic(auto, using(crate::proofs::Machine::taking))]
fn step_package<S: Space>(
    run: &mut Running<S>,
    stack: &mut Stack,
    filling: Boxed<Package>,
) -> Result<Control>
    ensures { Turns S.accesses (stack_weight stack.old.entries.items + 4) result stack.new.act stack.new.entries.items
        run.new (machine S.accesses (meaning S.accesses) (control.Package filling) stack.old.act
        stack.old.entries.items) run.old }
{
    let next = begin_element(run, &mut stack.act, filling)?;
    follow(run, stack, next)
}

/// A target is found, and used.
#[inline(always)]
#[tactic(auto, using(crate::proofs::Machine::taking))]
fn step_target<S: Space>(
    run: &mut Running<S>,
    stack: &mut Stack,
    target: Target,
    target_use: TargetUse,
) -> Result<Control>
    ensures { Turns S.accesses (stack_weight stack.old.entries.items + target_weight target_use) result stack.new.act
        stack.new.entries.items run.new (machine S.accesses (meaning S.accesses) (control.Target target target_use)
        stack.old.act stack.old.entries.items) run.old }
{
    let next = begin_target(run, &mut stack.act, target, target_use)?;
    follow(run, stack, next)
}

/// A field is accessed.
#[inline(always)]
#[tactic(auto, using(crate::proofs::Machine::taking))]
fn step_access<S: Space>(
    run: &mut Running<S>,
    stack: &mut Stack,
    access: Boxed<Access>,
) -> Result<Control>
    ensures { Turns S.accesses (stack_weight stack.old.entries.items + access_weight access) result stack.new.act
        stack.new.entries.items run.new (machine S.accesses (meaning S.accesses) (control.Access access) stack.old.act
        stack.old.entries.items) run.old }
{
    let next = begin_access(run, &stack.act, access.into_inner())?;
    follow(run, stack, next)
}

/// What was on top of the stack goes on with the flow that it waited for.
#[inline(always)]
#[tactic(auto, using(crate::proofs::Machine::taking))]
fn step_entry<S: Space>(
    run: &mut Running<S>,
    stack: &mut Stack,
    top: Entry,
    flow: Flow,
) -> Result<Control>
    ensures { Turns S.accesses (stack_weight stack.old.entries.items + entry_weight top + 3) result stack.new.act
        stack.new.entries.items run.new (machine S.accesses (meaning S.accesses) (control.Flow flow) stack.old.act
        (stack.old.entries.items ++ top ∷ [])) run.old }
{
    match top {
        Entry::Frame(Frame::Items(items)) => next_item(run, stack, items, flow),
        Entry::Item(item) => meet_item(run, stack, item, flow),
        Entry::Frame(frame) => {
            let next = resume(run, &mut stack.act, frame, flow)?;
            follow(run, stack, next)
        }
        Entry::Leave(caller, method) => {
            end_call(run, method.path());
            stack.act = caller.into_inner();
            Ok(Control::Flow(flow.of_call()))
        }
    }
}

/// What a step leaves to do is what the machine does next, and what waits for it is put on the stack.
#[inline(always)]
#[tactic(auto, using(crate::proofs::Machine::going))]
pub(crate) fn follow<S: Space>(
    run: &mut Running<S>,
    stack: &mut Stack,
    next: Next,
) -> Result<Control>
    ensures { Follows S.accesses (stack_weight stack.old.entries.items + next_weight next) result stack.new.act
        stack.new.entries.items run.new next stack.old.act stack.old.entries.items run.old }
{
    match next {
        Next::Flow(flow) => go_to_flow(flow),
        Next::Term(levels, frame) => stack.wait_for_term(levels, frame),
        Next::Items(items) => go_to_items(items),
        Next::Turn(turn) => stack.wait_for_turn(turn),
        Next::Scope(items, path, node) => stack.wait_for_scope(items, path, node),
        Next::Package(filling) => go_to_package(filling),
        Next::Target(target, target_use) => go_to_target(target, target_use),
        Next::Division(levels, remainder, quotient) => stack.wait_for_remainder(
            levels, remainder, quotient,
        ),
        Next::Found(levels, reference) => stack.wait_for_reference(levels, reference),
        Next::AccessThen(access, frame) => stack.wait_for_access(access, frame),
        Next::IntegerThen(number, frame) => stack.wait_for_integer(number, frame),
        Next::Body(body) => run_in(run, stack, body),
        Next::BodyThen(body, asked) => run_then(run, stack, body, asked),
    }
}

/// Goes into the body of a control method that gives a part of an address, for which the access waits.
#[tactic(auto, using(crate::proofs::Machine::going))]
fn run_then<S: Space>(
    run: &mut Running<S>,
    stack: &mut Stack,
    body: Boxed<Activation>,
    asked: Boxed<PciAccess>,
) -> Result<Control>
    ensures { Follows S.accesses (stack_weight stack.old.entries.items + next_weight (next.BodyThen body asked)) result
        stack.new.act stack.new.entries.items run.new (next.BodyThen body asked) stack.old.act stack.old.entries.items
        run.old }
{
    push_frame(run, stack, body.get(), Frame::Address(asked))?;
    run_in(run, stack, body)
}

/// A frame is put on the stack, to wait for a call whose slots stand already: without memory for it the call ends.
fn push_frame<S: Space>(
    run: &mut Running<S>,
    stack: &mut Stack,
    body: &Activation,
    frame: Frame,
) -> Result<()>
    ensures steps { run.new.1 ≡ run.old.1 }
    ensures kept { OnOk result (run.new ≡ run.old) }
    ensures act { stack.new.act ≡ stack.old.act }
    ensures pushed { OnOk result (stack.new.entries.items ≡ stack.old.entries.items ++ entry.Frame frame ∷ []) }
    ensures ended { IfErr result (λ e. run.new ≡ (left body.now.scope run.old.0, run.old.1)) }
    ensures memory { IfErr result (λ e. e ≡ OutOfMemory) }
{
    match stack.entries.push(Entry::Frame(frame)) {
        Ok(()) => Ok(()),
        Err(failed) => {
            end_call(run, body.scope().path);
            Err(Refusal::from(failed))
        }
    }
}

/// Goes into the body of a control method whose slots stand already; its caller waits (`Entry::Leave`). Without memory
/// for that the call ends.
fn run_in<S: Space>(
    run: &mut Running<S>,
    stack: &mut Stack,
    body: Boxed<Activation>,
) -> Result<Control>
    ensures steps { run.new.1 ≡ run.old.1 }
    ensures kept { OnOk result (run.new ≡ run.old) }
    ensures waits { Waits result stack.new.act stack.new.entries.items (entry.Leave stack.old.act body.scope)
        (control.Items (whole body)) body stack.old.entries.items }
    ensures ended { IfErr result (λ e. run.new ≡ (left body.scope run.old.0, run.old.1)) }
{
    let method = match body.get().scope_path().share() {
        Ok(method) => method,
        Err(refusal) => {
            end_call(run, body.get().scope().path);
            return Err(refusal);
        }
    };
    let list = whole(body.get());
    let mut caller = body;
    caller.swap(&mut stack.act);
    match stack.entries.push(Entry::Leave(caller, method)) {
        Ok(()) => Ok(Control::Items(list)),
        Err(failed) => {
            end_call(run, stack.act.scope().path);
            Err(Refusal::from(failed))
        }
    }
}

/// A refusal, which is handed on: what waits is given up, and each call that is being evaluated ends, up to an item
/// of a list that is passed over. Where there is none, the trace tells the terms that were being evaluated. Of a
/// refusal for want of memory its clauses say only that no step is taken.
#[cold]
fn unwind<S: Space>(run: &mut Running<S>, stack: &mut Stack, refusal: Refusal) -> Result<Control>
    ensures steps { run.new.1 ≡ run.old.1 }
    ensures passable { OnOk result (is_passable refusal ≡ true) }
    ensures falls { IfOk result (λ c. stack_weight stack.new.entries.items + control_weight c ≤
        stack_weight stack.old.entries.items + 1) }
    ensures ended { OnErr result (NotMemory result → stack.new.entries.items ≡ []) }
    ensures known { OnErr result (NotMemory result → refusal ≢ OutOfMemory) }
    ensures means { Goes S.accesses (meaning S.accesses) result stack.new.act stack.new.entries.items run.new
        (then_all S.accesses (meaning S.accesses) (stop refusal) stack.old.act stack.old.entries.items) run.old }
{
    let mut outer = None;
    'entries: loop {
        match stack.entries.pop() {
            None => {
                tell_last(run, &stack.act, &outer);
                return Err(refusal);
            }
            Some(Entry::Frame(frame)) => give_up(&mut stack.act, &mut outer, frame),
            Some(Entry::Item(item)) => {
                if is_passable(&refusal) {
                    return pass_item_over(run, stack, item.into_inner(), refusal);
                }
            }
            Some(Entry::Leave(caller, method)) => {
                tell_place(run, &stack.act, &outer);
                outer = None;
                end_call(run, method.path());
                stack.act = caller.into_inner();
            }
        }
    }
}

/// The call of the control method at a path ends: its frame of slots is closed, and the names below it are removed.
pub(crate) fn end_call<S: Space>(run: &mut Running<S>, method: &Path)
    ensures { run.new ≡ (left method.now run.old.0, run.old.1) }
{
    run.world.leave(method);
}
