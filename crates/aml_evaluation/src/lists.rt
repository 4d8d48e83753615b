//! Lists of terms (ACPI 6.5, 20.2.5). An item is finished in the turn of the machine's loop that comes to it, or leaves
//! a part of it to be evaluated: a `Next` other than `Next::Flow`. Only then are the items behind it put on the stack;
//! at module level the wide profile puts them there before each item.
ghost use Rattle.std.specs.Prelude.{◌≡◌, ◌<◌, ◌+◌, [], ◌∷◌, ◌++◌, OnOk, IfOk, IfErr, IsOk};
ghost use Rattle.ar_space.specs.declared.refusal.Refusal.TheVariants.{OutOfMemory};
ghost use Rattle.aml_meaning.specs.Meaning.{meaning};
ghost use Rattle.aml_frames.specs.declared.frames.Control.TheVariants as control;
ghost use Rattle.aml_frames.specs.declared.frames.Entry.TheVariants as entry;
ghost use Rattle.aml_frames.specs.declared.frames.Frame.TheVariants as frames;
ghost use Rattle.aml_frames.specs.Stack.{machine, given_up, Goes, stack_weight, control_weight, Follows, Turns};
ghost use Rattle.aml_frames.specs.Weights.{next_weight};

use crate::passing::{passes_over, push_passable_item};
use crate::stack::{end_call, follow};
use crate::terms::begin_term;
use crate::turns::end_list;
use crate::waiting::{Stack, go_to_flow, go_to_items};
use aml_frames::{Control, Entry, Frame, Items, Next, take_operator, try_operator};
use aml_meaning::{Flow, Running};
use aml_operators::begin_operator;
use ar_space::{Refusal, Result, Space};

/// The next item of a list begins, or the list ends. Store, Increment, Decrement, and operators on two integers are
/// finished here where `try_operator` can. The rest of the list waits on the stack only for an item that isn't finished
/// at once.
#[inline(always)]
#[tactic(auto, using(crate::proofs::Machine::listing_on))]
pub(crate) fn step_items<S: Space>(
    run: &mut Running<S>,
    stack: &mut Stack,
    items: Items,
) -> Result<Control>
    ensures { Turns S.accesses (stack_weight stack.old.entries.items + 4) result stack.new.act stack.new.entries.items
        run.new (machine S.accesses (meaning S.accesses) (control.Items items) stack.old.act stack.old.entries.items)
        run.old }
{
    let rest = stack.act.rest().len();
    if items.left == 0 || rest == 0 {
        stack.act.go_to(items.outer);
        return end_list(run, stack);
    }
    stack.act.tell_from_here();
    let behind = Items {
        left: items.left - 1,
        ..items
    };
    if passes_over(run, &stack.act) {
        return push_passable_item(run.world.alloc, stack, behind);
    }
    let next = match take_operator(run, &mut stack.act, items.levels) {
        None => begin_term(run, &mut stack.act, items.levels)?,
        Some(kind) => match try_operator(run, &mut stack.act, items.levels - 1, kind) {
            // The operator is done; a list has no use for its integer.
            Some(_) => return Ok(Control::Items(behind)),
            None => begin_operator(run, &mut stack.act, items.levels - 1, kind)?,
        },
    };
    follow_item(run, stack, behind, next)
}

/// Where an item is finished (`Next::Flow`), the list goes on, or ends with the item's flow. Else what the item leaves
/// to do is put on the stack, above the items behind it.
#[inline(always)]
#[tactic(auto, using(crate::proofs::Machine::listing_on))]
fn follow_item<S: Space>(
    run: &mut Running<S>,
    stack: &mut Stack,
    behind: Items,
    next: Next,
) -> Result<Control>
    ensures { Follows S.accesses (stack_weight stack.old.entries.items + 3 + next_weight next) result stack.new.act
        stack.new.entries.items run.new next stack.old.act
        (stack.old.entries.items ++ entry.Frame (frames.Items behind) ∷ []) run.old }
{
    match next {
        Next::Flow(flow) => next_item(run, stack, behind, flow),
        next => follow_above(run, stack, behind, next),
    }
}

/// What an item leaves to do is put on the stack, above the items behind it.
#[inline(always)]
#[tactic(auto, using(crate::proofs::Machine::listing_on))]
fn follow_above<S: Space>(
    run: &mut Running<S>,
    stack: &mut Stack,
    behind: Items,
    next: Next,
) -> Result<Control>
    ensures { Follows S.accesses (stack_weight stack.old.entries.items + 3 + next_weight next) result stack.new.act
        stack.new.entries.items run.new next stack.old.act
        (stack.old.entries.items ++ entry.Frame (frames.Items behind) ∷ []) run.old }
{
    push_list(run, stack, behind, &next)?;
    follow(run, stack, next)
}

/// An item is done, and its list goes on, or ends with the same flow.
#[inline(always)]
#[tactic(auto, using(crate::proofs::Machine::listing_on))]
pub(crate) fn next_item<S: Space>(
    run: &Running<S>,
    stack: &mut Stack,
    items: Items,
    flow: Flow,
) -> Result<Control>
    ensures falls { IfOk result (λ c. stack_weight stack.new.entries.items + control_weight c <
        stack_weight stack.old.entries.items + 6) }
    ensures given { IsOk result }
    ensures means { Goes S.accesses (meaning S.accesses) result stack.new.act stack.new.entries.items run.now
        (machine S.accesses (meaning S.accesses) (control.Flow flow) stack.old.act
        (stack.old.entries.items ++ entry.Frame (frames.Items items) ∷ [])) run.now }
{
    if flow.goes_on() {
        return go_to_items(items);
    }
    stack.act.go_to(items.outer);
    go_to_flow(flow)
}

/// The items behind one that isn't finished at once are put on the stack. Without memory for them the call that the
/// item has begun is ended.
#[inline(always)]
fn push_list<S: Space>(
    run: &mut Running<S>,
    stack: &mut Stack,
    behind: Items,
    next: &Next,
) -> Result<()>
    ensures kept { OnOk result (run.new ≡ run.old) }
    ensures act { stack.new.act ≡ stack.old.act }
    ensures pushed { OnOk result (stack.new.entries.items ≡ stack.old.entries.items ++
        entry.Frame (frames.Items behind) ∷ []) }
    ensures ended { IfErr result (λ e. run.new ≡ given_up next.now run.old) }
    ensures memory { IfErr result (λ e. e ≡ OutOfMemory) }
{
    match stack.entries.push(Entry::Frame(Frame::Items(behind))) {
        Ok(()) => Ok(()),
        Err(failed) => {
            give_up_begun(run, next);
            Err(Refusal::from(failed))
        }
    }
}

/// What a step leaves to do is given up: a call ends that it has begun.
#[cold]
fn give_up_begun<S: Space>(run: &mut Running<S>, next: &Next)
    ensures { run.new ≡ given_up next.now run.old }
{
    match next {
        Next::Body(body) => end_call(run, body.get().scope().path),
        Next::BodyThen(body, _) => end_call(run, body.get().scope().path),
        _ => {}
    }
}
