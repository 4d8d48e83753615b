//! Statements: what is done before their first part is evaluated (ACPI 6.5, 19.6 and 20.2.5.3). The operands stand
//! next.
ghost use Rattle.std.specs.Prelude.{◌+◌, ◌*◌, Some};
ghost use Rattle.aml_marks.specs.Marked.{maybe_else};
ghost use Rattle.ar_space.specs.Outcome.{NotMemory};
ghost use Rattle.aml_meaning.specs.Meaning.{meaning};
ghost use Rattle.aml_meaning.specs.StatementTerms.{otherwise};
ghost use Rattle.aml_meaning.specs.Terms.{else_of};
ghost use Rattle.aml_meaning.specs.declared.term_kind.StatementKind.TheVariants as statements;
ghost use Rattle.aml_frames.specs.declared.frames.Frame.TheVariants as frames;
ghost use Rattle.aml_frames.specs.declared.frames.Next.TheVariants as next;
ghost use Rattle.aml_frames.specs.Places.{at_place, terms};
ghost use Rattle.aml_frames.specs.Follow.{behind_else, branch_at};
ghost use Rattle.aml_frames.specs.declared.uses.TargetUse.TheVariants as uses;
ghost use Rattle.aml_frames.specs.Uses.{super};
ghost use Rattle.aml_frames.specs.Weights.{most, target_weight};
ghost use Rattle.aml_frames.specs.Steps.{Steps, frame_at, next_at, statement_at, next_target};

use crate::loops::begin_while;
use aml_convert::is_true;
use aml_frames::{
    Activation, Frame, Next, Position, Target, TargetUse, integer_of, known_integer, leave,
    release_at_name,
};
use aml_meaning::{Flow, Running, StatementKind};
use aml_objects::Value;
use aml_targets::begin_target;
use aml_terms::ELSE;
use ar_space::{EvaluationFault, Refusal, Result, Space};

/// A statement: its first part is evaluated, or it is done.
#[inline(always)]
#[tactic(auto, using(aml_frames::proofs::Using::operating))]
pub fn begin_statement<S: Space>(
    run: &mut Running<S>,
    act: &mut Activation,
    levels: u8,
    kind: StatementKind,
) -> Result<Next>
    ensures { Steps S.accesses (3 * most + 100) result act.new run.new (statement_at S.accesses kind act.old levels)
        run.old }
{
    match kind {
        StatementKind::If => begin_if(run, act, levels),
        StatementKind::Else => begin_else(run, act, levels),
        StatementKind::While => begin_while(run, act, levels),
        StatementKind::Break => leave(Flow::Break),
        StatementKind::Continue => leave(Flow::Continue),
        StatementKind::Noop => leave(Flow::Next),
        StatementKind::Return => begin_return(run, act, levels),
        StatementKind::Release => begin_release(run, act, levels),
        StatementKind::Notify => {
            begin_target(
                run,
                act,
                Target::super_name(levels),
                TargetUse::Notify(levels),
            )
        }
        StatementKind::Pause => begin_pause(run, act, levels),
        StatementKind::Fatal => begin_fatal(run, act, levels),
    }
}

/// Release: a mutex that a name of one segment names is released at once.
#[tactic(auto, using(aml_frames::proofs::Knowing::knowing))]
fn begin_release<S: Space>(run: &mut Running<S>, act: &mut Activation, levels: u8) -> Result<Next>
    ensures { Steps S.accesses (target_weight uses.Release + 1) result act.new run.new
        (next_target S.accesses (super levels) uses.Release act.old) run.old }
{
    if release_at_name(run, act, levels) {
        return Ok(Next::Flow(Flow::Next));
    }
    begin_target(run, act, Target::super_name(levels), TargetUse::Release)
}

/// Return: its argument is evaluated; an integer that is there already is returned at once.
#[tactic(auto, using(aml_frames::proofs::Knowing::returning))]
fn begin_return<S: Space>(run: &mut Running<S>, act: &mut Activation, levels: u8) -> Result<Next>
    ensures steps { Steps S.accesses 6 result act.new run.new (statement_at S.accesses statements.Return act.old levels)
        run.old }
    ensures memory { NotMemory result }
{
    match known_integer(run, act, levels)? {
        Some(number) => Ok(Next::Flow(Flow::Return(Value::Integer(number)))),
        None => Ok(Next::Term(levels, Frame::Return)),
    }
}

/// Stall and Sleep: the time is evaluated.
#[tactic(auto, using(aml_frames::proofs::Stepping::stepping), unfolding(aml_meaning::specs::StatementTerms::pause_rule))]
fn begin_pause<S: Space>(run: &mut Running<S>, act: &mut Activation, levels: u8) -> Result<Next>
    ensures steps { Steps S.accesses 6 result act.new run.new (statement_at S.accesses statements.Pause act.old levels)
        run.old }
    ensures memory { NotMemory result }
{
    Ok(Next::Term(levels, Frame::Pause))
}

/// Fatal: its argument is evaluated, which stands behind a byte and a double word.
#[tactic(auto, using(aml_frames::proofs::Stepping::leads_fatal))]
fn begin_fatal<S: Space>(run: &mut Running<S>, act: &mut Activation, levels: u8) -> Result<Next>
    ensures steps { Steps S.accesses 6 result act.new run.new (statement_at S.accesses statements.Fatal act.old levels)
        run.old }
    ensures memory { NotMemory result }
{
    act.advance(1);
    act.advance(4);
    Ok(Next::Term(levels, Frame::Fatal))
}

/// If: its predicate is evaluated.
#[tactic(auto, using(aml_frames::proofs::Stepping::branching, aml_frames::proofs::Knowing::going_on))]
fn begin_if<S: Space>(run: &mut Running<S>, act: &mut Activation, levels: u8) -> Result<Next>
    ensures steps { Steps S.accesses 6 result act.new run.new (statement_at S.accesses statements.If act.old levels)
        run.old }
    ensures memory { NotMemory result }
{
    let outer = act.open();
    choose_branch(run, act, levels, outer)
}

/// The predicate of an If, which stands next: an integer that is there already chooses at once.
#[inline(always)]
#[tactic(auto, using(aml_frames::proofs::Knowing::taking_known))]
fn choose_branch<S: Space>(
    run: &mut Running<S>,
    act: &mut Activation,
    levels: u8,
    outer: Position,
) -> Result<Next>
    ensures steps { Steps S.accesses 6 result act.new run.new
        (next_at S.accesses (next.Term levels (frames.If levels outer)) act.old) run.old }
    ensures memory { NotMemory result }
{
    match known_integer(run, act, levels)? {
        Some(number) => next_branch(run, act, levels, outer, is_true(number)),
        None => Ok(Next::Term(levels, Frame::If(levels, outer))),
    }
}

/// The list of an If, or the Else behind it.
#[tactic(auto, using(aml_frames::proofs::Stepping::branching))]
fn next_branch<S: Space>(
    run: &mut Running<S>,
    act: &mut Activation,
    levels: u8,
    outer: Position,
    holds: bool,
) -> Result<Next>
    ensures steps { Steps S.accesses 6 result act.new run.new
        (branch_at S.accesses (meaning S.accesses) act.old levels outer holds, behind_else act.old levels outer)
        run.old }
    ensures memory { NotMemory result }
{
    if holds {
        let behind = act.behind_else(outer);
        Ok(Next::Items(act.items(levels, behind)))
    } else {
        act.go_to(outer);
        next_otherwise(run, act, levels)
    }
}

/// The Else of an If, where it has one: it costs a step.
#[tactic(auto, using(aml_frames::proofs::Stepping::elses), unfolding(aml_marks::specs::Marked::maybe_else, aml_marks::specs::Marked::gives))]
fn next_otherwise<S: Space>(run: &mut Running<S>, act: &mut Activation, levels: u8) -> Result<Next>
    ensures steps { Steps S.accesses 6 result act.new run.new (
      otherwise (meaning S.accesses) act.old.scope act.old.depth
          (else_of (Some (maybe_else (terms act.old levels) act.old.place).0)),
      at_place act.old (maybe_else (terms act.old levels) act.old.place).1,
    ) run.old }
    ensures memory { NotMemory result }
{
    if act.is_next(ELSE) {
        run.charge()?;
        act.advance(1);
        begin_else(run, act, levels)
    } else {
        leave(Flow::Next)
    }
}

/// Else: its list is evaluated.
#[tactic(auto, using(aml_frames::proofs::Stepping::stepping))]
fn begin_else<S: Space>(run: &Running<S>, act: &mut Activation, levels: u8) -> Result<Next>
    ensures steps { Steps S.accesses 6 result act.new run.now (statement_at S.accesses statements.Else act.old levels)
        run.now }
    ensures memory { NotMemory result }
{
    let outer = act.open();
    Ok(Next::Items(act.items(levels, outer)))
}

/// An If whose predicate was evaluated.
#[tactic(auto, using(aml_frames::proofs::Stepping::stepping))]
pub fn resume_if<S: Space>(
    run: &mut Running<S>,
    act: &mut Activation,
    levels: u8,
    outer: Position,
    flow: Flow,
) -> Result<Next>
    ensures steps { Steps S.accesses 6 result act.new run.new
        (frame_at S.accesses (frames.If levels outer) act.old flow) run.old }
    ensures memory { NotMemory result }
{
    let value = flow.value()?;
    let number = integer_of(&run.world, value)?;
    next_branch(run, act, levels, outer, is_true(number))
}

/// A Return whose argument was evaluated.
#[tactic(auto, using(aml_frames::proofs::Stepping::stepping))]
pub fn resume_return<S: Space>(
    run: &mut Running<S>,
    act: &mut Activation,
    flow: Flow,
) -> Result<Next>
    ensures steps { Steps S.accesses 6 result act.new run.new (frame_at S.accesses frames.Return act.old flow) run.old }
    ensures memory { NotMemory result }
{
    let value = flow.value()?;
    Ok(Next::Flow(Flow::Return(value)))
}

/// A Stall, a Sleep or a Notify, whose last operand was evaluated: no time passes, and nobody is notified.
#[tactic(auto, using(aml_frames::proofs::Stepping::stepping))]
pub fn resume_pause<S: Space>(
    run: &mut Running<S>,
    act: &mut Activation,
    flow: Flow,
) -> Result<Next>
    ensures steps { Steps S.accesses 6 result act.new run.new (frame_at S.accesses frames.Pause act.old flow) run.old }
    ensures memory { NotMemory result }
{
    let _time = flow.value()?;
    Ok(Next::Flow(Flow::Next))
}

/// Fatal ends the evaluation.
#[tactic(auto, using(aml_frames::proofs::Stepping::stepping))]
pub fn resume_fatal<S: Space>(
    run: &mut Running<S>,
    act: &mut Activation,
    flow: Flow,
) -> Result<Next>
    ensures steps { Steps S.accesses 6 result act.new run.new (frame_at S.accesses frames.Fatal act.old flow) run.old }
    ensures memory { NotMemory result }
{
    let _argument = flow.value()?;
    Err(Refusal::Evaluation(EvaluationFault::Fatal))
}
