//! The turns of a While (ACPI 6.5, 19.6): where the list of one ends and its predicate holds, the next turn begins at
//! once, and what is left of the While stays on the stack.
ghost use Rattle.std.specs.Prelude.{◌+◌, IfSome};
ghost use Rattle.aml_meaning.specs.declared.flow.Flow.TheVariants as flows;
ghost use Rattle.aml_meaning.specs.Meaning.{meaning};
ghost use Rattle.aml_frames.specs.declared.frames.Control.TheVariants as control;
ghost use Rattle.aml_frames.specs.Stack.{machine, TurnWaits, stack_weight, Turns};

use crate::stack::follow;
use crate::waiting::{Stack, go_to_flow, go_to_items};
use aml_frames::{Control, Entry, Frame, Loop, Next};
use aml_meaning::{Flow, Running};
use aml_statements::resume_turn;
use ar_space::{Result, Space};

/// The While that waits on the top of the stack, if one does.
#[inline(always)]
fn waiting_loop(stack: &Stack) -> Option<Loop>
    ensures { IfSome result (λ turn. TurnWaits turn stack.now.entries.items) }
{
    match stack.entries.last() {
        Some(Entry::Frame(Frame::Turn(turn))) => Some(*turn),
        _ => None,
    }
}

/// A list has ended without Break, Continue or Return. Where a While waits for it, that goes on here; whatever else
/// waits is handed `Flow::Next`.
#[tactic(auto, using(crate::proofs::LoopTurns::turning))]
pub(crate) fn end_list<S: Space>(run: &mut Running<S>, stack: &mut Stack) -> Result<Control>
    ensures { Turns S.accesses (stack_weight stack.old.entries.items + 4) result stack.new.act stack.new.entries.items
        run.new (machine S.accesses (meaning S.accesses) (control.Flow flows.Next) stack.old.act
        stack.old.entries.items) run.old }
{
    match waiting_loop(stack) {
        None => go_to_flow(Flow::Next),
        Some(turn) => end_turn(run, stack, turn),
    }
}

/// The list of the While has ended that waits on top of the stack. Its frame stays for the next turn; it is taken off
/// where the predicate doesn't hold, isn't an integer that is there already, or is refused.
#[inline(always)]
#[tactic(auto, using(crate::proofs::LoopTurns::turning))]
fn end_turn<S: Space>(run: &mut Running<S>, stack: &mut Stack, turn: Loop) -> Result<Control>
    requires { TurnWaits turn stack.old.entries.items }
    ensures { Turns S.accesses (stack_weight stack.old.entries.items + 4) result stack.new.act stack.new.entries.items
        run.new (machine S.accesses (meaning S.accesses) (control.Flow flows.Next) stack.old.act
        stack.old.entries.items) run.old }
{
    match resume_turn(run, &mut stack.act, turn, Flow::Next) {
        Ok(Next::Turn(again)) => go_to_items(stack.act.items(again.levels, again.outer)),
        Ok(next) => {
            let _ = stack.entries.pop();
            follow(run, stack, next)
        }
        Err(refusal) => {
            let _ = stack.entries.pop();
            Err(refusal)
        }
    }
}
