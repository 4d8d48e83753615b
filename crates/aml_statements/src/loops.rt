//! While, whose predicate is evaluated before each turn (ACPI 6.5, 19.6.155 and 20.2.5.3).
ghost use Rattle.std.specs.Prelude.{◌≡◌, ◌≤◌, ◌<◌, ◌+◌, Ok, IfOk};
ghost use Rattle.ar_space.specs.Outcome.{NotMemory};
ghost use Rattle.aml_meaning.specs.Meaning.{meaning};
ghost use Rattle.aml_meaning.specs.declared.term_kind.StatementKind.TheVariants as statements;
ghost use Rattle.aml_frames.specs.declared.frames.Frame.TheVariants as frames;
ghost use Rattle.aml_frames.specs.declared.frames.Loop.{Loop};
ghost use Rattle.aml_frames.specs.declared.frames.Next.TheVariants as next;
ghost use Rattle.aml_frames.specs.Follow.{at_position, turn_left, resumed, ends};
ghost use Rattle.aml_frames.specs.Follow.{Leads, EndsAt};
ghost use Rattle.aml_frames.specs.Weights.{next_weight, charged};
ghost use Rattle.aml_frames.specs.Steps.{Steps, frame_at, next_at, statement_at};

use aml_convert::is_true;
use aml_frames::{Activation, Frame, Loop, Next, integer_of, known_integer, told_loop, told_turn};
use aml_meaning::{Flow, Running};
use ar_space::{Result, Space};

/// While: its predicate is evaluated.
#[tactic(auto, using(aml_frames::proofs::Stepping::looping, aml_frames::proofs::Knowing::going_on))]
pub(crate) fn begin_while<S: Space>(
    run: &mut Running<S>,
    act: &mut Activation,
    levels: u8,
) -> Result<Next>
    ensures steps { Steps S.accesses 6 result act.new run.new (statement_at S.accesses statements.While act.old levels)
        run.old }
    ensures memory { NotMemory result }
{
    let outer = act.open();
    let predicate = act.position();
    let turn = Loop {
        levels,
        predicate,
        outer,
    };
    begin_predicate(run, act, turn)
}

/// The predicate of a While stands next: an integer that is there already decides at once, and for any other term the
/// While waits (`Frame::Predicate`).
#[inline(always)]
#[tactic(auto, using(aml_frames::proofs::Knowing::taking_known))]
fn begin_predicate<S: Space>(run: &mut Running<S>, act: &mut Activation, turn: Loop) -> Result<Next>
    ensures steps { Steps S.accesses 6 result act.new run.new
        (next_at S.accesses (next.Term turn.levels (frames.Predicate turn)) act.old) run.old }
    ensures falls { IfOk result (λ n. charged run.new.1 + next_weight n < charged run.old.1 + 4) }
    ensures same { IfOk result (λ n. (again : Loop) → n ≡ next.Turn again → again ≡ turn) }
    ensures memory { NotMemory result }
{
    match known_integer(run, act, turn.levels)? {
        Some(number) => Ok(next_turn(run, act, turn, is_true(number))),
        None => Ok(Next::Term(turn.levels, Frame::Predicate(turn))),
    }
}

/// A While whose predicate was evaluated. Where it is refused the trace names the While, since a predicate is no item
/// of a list.
#[tactic(auto, using(aml_frames::proofs::Stepping::stepping))]
pub fn resume_predicate<S: Space>(
    run: &mut Running<S>,
    act: &mut Activation,
    turn: Loop,
    flow: Flow,
) -> Result<Next>
    ensures steps { Steps S.accesses 6 result act.new run.new (frame_at S.accesses (frames.Predicate turn) act.old flow)
        run.old }
    ensures memory { NotMemory result }
{
    let value = match flow.value() {
        Ok(value) => value,
        Err(refusal) => return Err(told_loop(act, turn, refusal)),
    };
    match integer_of(&run.world, value) {
        Ok(number) => Ok(next_turn(run, act, turn, is_true(number))),
        Err(refusal) => Err(told_loop(act, turn, refusal)),
    }
}

/// Where the predicate of a While holds, its list is next; else the While ends.
#[tactic(auto, using(aml_frames::proofs::Stepping::looping))]
fn next_turn<S: Space>(run: &Running<S>, act: &mut Activation, turn: Loop, holds: bool) -> Next
    ensures steps { Steps S.accesses 6 (Ok result) act.new run.now
        (turn_left S.accesses (meaning S.accesses) turn act.old holds, at_position act.old turn.outer) run.now }
    ensures same { (again : Loop) → result ≡ next.Turn again → again ≡ turn }
{
    if holds {
        Next::Turn(turn)
    } else {
        act.go_to(turn.outer);
        Next::Flow(Flow::Next)
    }
}

/// The list of a While is done: after Break or Return the While ends, and else its predicate stands next again. Its
/// frame was taken off the stack (`step_entry`), or is still there (`end_turn`).
#[tactic(auto, using(aml_frames::proofs::Stepping::looping, aml_frames::proofs::Knowing::going_on))]
pub fn resume_turn<S: Space>(
    run: &mut Running<S>,
    act: &mut Activation,
    turn: Loop,
    flow: Flow,
) -> Result<Next>
    ensures spent { run.new.1 ≤ run.old.1 }
    ensures same { IfOk result (λ n. (again : Loop) → n ≡ next.Turn again → again ≡ turn) }
    ensures falls { IfOk result (λ n. charged run.new.1 + next_weight n < charged run.old.1 + 4) }
    ensures memory { NotMemory result }
    ensures means { Leads S.accesses (meaning S.accesses) result act.new run.new
        (resumed S.accesses (meaning S.accesses) (frames.Turn turn) act.old flow) run.old }
    ensures ends { EndsAt result act.new (ends (frames.Turn turn) act.old) }
{
    match flow.loop_end() {
        None => {
            act.go_to(turn.predicate);
            let next = begin_predicate(run, act, turn);
            told_turn(act, turn, next)
        }
        Some(last) => {
            act.go_to(turn.outer);
            Ok(Next::Flow(last))
        }
    }
}
