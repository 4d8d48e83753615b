//! What frames do with the flows that they wait for.
ghost use Rattle.std.specs.Prelude.{◌≤◌, ◌<◌, ◌+◌, IfOk};
ghost use Rattle.ar_space.specs.Outcome.{NotMemory};
ghost use Rattle.aml_meaning.specs.Meaning.{meaning};
ghost use Rattle.aml_frames.specs.declared.frames.Frame.TheVariants as frames;
ghost use Rattle.aml_frames.specs.Follow.{resumed, ends, Leads, EndsAt};
ghost use Rattle.aml_frames.specs.Weights.{weight, next_weight, charged};
ghost use Rattle.aml_frames.specs.Steps.{Steps, frame_at};

use aml_accesses::{
    next_write, read_chosen, read_selected, resume_address, resume_argument, resume_unit,
    write_merged, write_selected,
};
use aml_declarations::{
    resume_buffer, resume_declaration, resume_element, resume_named, resume_scope,
    resume_var_package,
};
use aml_frames::{Activation, Frame, Items, Next, leave};
use aml_meaning::{Flow, Running};
use aml_operators::{
    resume_first, resume_match, resume_matched, resume_operand, resume_quotient, resume_second,
    resume_third, resume_wait,
};
use aml_statements::{
    resume_fatal, resume_if, resume_pause, resume_predicate, resume_return, resume_turn,
};
use aml_targets::{
    resume_counted, resume_dereferenced, resume_found, resume_index_target, resume_referent,
};
use ar_space::{Result, Space};

/// A list goes on behind an item, or it ends. The loop doesn't come here: it takes such a frame itself (`next_item` in
/// `lists`), and this says the same as a step.
#[tactic(auto, using(aml_frames::proofs::Stepping::listing))]
#[inline(always)]
fn resume_items<S: Space>(
    run: &Running<S>,
    act: &mut Activation,
    items: Items,
    flow: Flow,
) -> Result<Next>
    ensures steps { Steps S.accesses 6 result act.new run.now (frame_at S.accesses (frames.Items items) act.old flow)
        run.now }
    ensures memory { NotMemory result }
{
    if flow.goes_on() {
        Ok(Next::Items(items))
    } else {
        act.go_to(items.outer);
        Ok(Next::Flow(flow))
    }
}

/// A frame goes on with a flow.
#[inline(always)]
#[tactic(auto, using(aml_frames::proofs::Knowing::resuming))]
pub fn resume<S: Space>(
    run: &mut Running<S>,
    act: &mut Activation,
    frame: Frame,
    flow: Flow,
) -> Result<Next>
    ensures spent { run.new.1 ≤ run.old.1 }
    ensures falls { IfOk result (λ n. charged run.new.1 + next_weight n < charged run.old.1 + (weight frame + 3)) }
    ensures means { Leads S.accesses (meaning S.accesses) result act.new run.new
        (resumed S.accesses (meaning S.accesses) frame act.old flow) run.old }
    ensures ends { EndsAt result act.new (ends frame act.old) }
{
    match frame {
        Frame::Items(items) => resume_items(run, act, items, flow),
        Frame::If(levels, outer) => resume_if(run, act, levels, outer, flow),
        Frame::Predicate(turn) => resume_predicate(run, act, turn, flow),
        Frame::Turn(turn) => resume_turn(run, act, turn, flow),
        Frame::Return => resume_return(run, act, flow),
        Frame::Pause => resume_pause(run, act, flow),
        Frame::Fatal => resume_fatal(run, act, flow),
        Frame::Argument(call) => resume_argument(run, act, call, flow),
        Frame::Buffer(outer) => resume_buffer(run, act, outer, flow),
        Frame::VarPackage(levels, end) => resume_var_package(run, act, levels, end, flow),
        Frame::Element(filling) => resume_element(run, act, filling, flow),
        Frame::Operand(kind, levels) => resume_operand(run, act, kind, levels, flow),
        Frame::First(kind, levels) => resume_first(run, act, kind, levels, flow),
        Frame::Second(operator) => resume_second(run, act, operator, flow),
        Frame::Third(levels, value, at) => resume_third(run, act, levels, (value, at), flow),
        Frame::Give(value) => leave(Flow::Value(value)),
        Frame::Quotient(levels, value) => resume_quotient(run, act, levels, value, flow),
        Frame::Found => resume_found(run, act, flow),
        Frame::IndexTarget(target_use) => resume_index_target(run, act, target_use, flow),
        Frame::DerefTarget(target_use) => resume_dereferenced(run, act, target_use, flow),
        Frame::Referent(inquiry) => resume_referent(run, act, inquiry, flow),
        Frame::Address(pci) => resume_address(run, act, pci, flow),
        Frame::UnitChosen(units, unit) => read_chosen(run, act, units, unit),
        Frame::UnitRead(units, unit) => resume_unit(run, act, units, unit, flow),
        Frame::UnitMerged(writes, number) => write_merged(run, act, writes, number),
        Frame::UnitWritten(writes) => next_write(run, act, writes.into_inner()),
        Frame::BankRead(units, unit) => read_selected(run, act, units, unit),
        Frame::BankWrite(unit, at, number) => write_selected(run, act, unit, at, number),
        Frame::Named(name) => resume_named(run, act, name, flow),
        Frame::Declaration(part) => resume_declaration(run, act, part, flow),
        Frame::Scope(scope, node) => resume_scope(run, act, scope, node, flow),
        Frame::Counted(count, counted) => resume_counted(run, act, count, counted, flow),
        Frame::Match(levels, part) => resume_match(run, act, levels, part, flow),
        Frame::Matched(searching) => resume_matched(run, act, searching, flow),
        Frame::Wait(event) => resume_wait(run, act, event, flow),
    }
}
