//! Data that terms form: integers, strings and buffers; how packages begin (ACPI 6.5, 19.6 and 20.2.3). The parts
//! stand next.
ghost use Rattle.std.specs.Prelude.{◌≡◌, OnOk, Ok};
ghost use Rattle.ar_space.specs.Change.{Does};
ghost use Rattle.ar_space.specs.Outcome.{Answers, NotMemory};
ghost use Rattle.aml_marks.specs.Marked.{a_text};
ghost use Rattle.aml_meaning.specs.declared.term_kind.DataKind.TheVariants as datas;
ghost use Rattle.aml_meaning.specs.Meaning.{meaning};
ghost use Rattle.aml_meaning.specs.DataTerms.{constant_rule};
ghost use Rattle.aml_frames.specs.declared.frames.Frame.TheVariants as frames;
ghost use Rattle.aml_frames.specs.declared.frames.Next.TheVariants as next;
ghost use Rattle.aml_frames.specs.Places.{at_place};
ghost use Rattle.aml_frames.specs.Operands.{outside_at};
ghost use Rattle.aml_frames.specs.Data.{data_run, behind_data_at, string_run, text_made, buffer_run, buffer_filled};
ghost use Rattle.aml_frames.specs.Follow.{ends};
ghost use Rattle.aml_frames.specs.Steps.{Steps, frame_at, next_at};

use crate::packages::{begin_package, begin_var_package};
use aml_frames::{Activation, Frame, Next, Position, integer_of, known_integer, leave};
use aml_meaning::{DataKind, Flow, Running};
use aml_objects::{Octets, Value};
use aml_scan::text_length;
use aml_terms::RowPlace;
use ar_space::{Result, Space};
use std::alloc::Global;

/// Data, by its kind and the place of its row: it is formed, or its first part is evaluated.
#[tactic(auto, using(aml_frames::proofs::Stepping::stepping))]
pub fn begin_data<S: Space>(
    run: &mut Running<S>,
    act: &mut Activation,
    levels: u8,
    place: RowPlace,
    kind: DataKind,
) -> Result<Next>
    ensures { Steps S.accesses 6 result act.new run.new
        (data_run (meaning S.accesses) kind place act.old levels, behind_data_at kind place act.old levels) run.old }
{
    match kind {
        DataKind::Constant(number) => begin_constant(run, act, number),
        DataKind::Integer => begin_integer(run, act, levels, place),
        DataKind::String => begin_string(run, act),
        DataKind::Buffer => begin_buffer(run, act, levels),
        DataKind::Package => begin_package(run, act, levels),
        DataKind::VarPackage => Ok(begin_var_package(run, act, levels)),
    }
}

/// An integer that an opcode says.
#[tactic(auto, using(aml_frames::proofs::Stepping::stepping), unfolding(aml_meaning::specs::DataTerms::constant_rule))]
fn begin_constant<S: Space>(run: &Running<S>, act: &Activation, number: u64) -> Result<Next>
    ensures steps { Steps S.accesses 6 result act.now run.now (constant_rule (meaning S.accesses) number, act.now)
        run.now }
    ensures memory { NotMemory result }
{
    let value = run.world.integer_kept(number)?;
    Ok(Next::Flow(Flow::Value(value)))
}

/// An integer that follows its opcode.
#[tactic(auto, using(aml_frames::proofs::Stepping::stepping), unfolding(aml_meaning::specs::DataTerms::integer_rule))]
fn begin_integer<S: Space>(
    run: &Running<S>,
    act: &mut Activation,
    levels: u8,
    place: RowPlace,
) -> Result<Next>
    ensures steps { Steps S.accesses 6 result act.new run.now (
      data_run (meaning S.accesses) datas.Integer place act.old levels,
      behind_data_at datas.Integer place act.old levels,
    ) run.now }
    ensures memory { NotMemory result }
{
    let number = act.number(levels, place)?;
    act.over_operands(levels, place);
    begin_constant(run, act, number)
}

/// A string: the characters that stand before the next zero.
#[tactic(auto, using(aml_frames::proofs::Stepping::stepping), unfolding(aml_meaning::specs::DataTerms::string_rule))]
fn begin_string<S: Space>(run: &mut Running<S>, act: &mut Activation) -> Result<Next>
    ensures { Steps S.accesses 6 result act.new run.new
        (string_run (meaning S.accesses) act.old, at_place act.old (a_text act.old.place).1) run.old }
{
    let value = make_text(run, act)?;
    leave(Flow::Value(value))
}

/// A string of the characters that stand before the next zero. Evaluation goes over them and the zero.
#[tactic(auto, using(aml_meaning::proofs::Runs::running, aml_world::proofs::Lifted::parts))]
pub fn make_text<S: Space>(run: &mut Running<S>, act: &mut Activation) -> Result<Value>
    ensures steps { run.new.1 ≡ run.old.1 }
    ensures made { Does result run.new (text_made act.old) run.old }
    ensures behind { OnOk result (act.new ≡ at_place act.old (a_text act.old.place).1) }
{
    let text = take_text(run.world.alloc, act)?;
    run.world.heap.make_string(text)
}

/// A copy of the text that stands next. Evaluation goes over it and its zero.
fn take_text(alloc: Global, act: &mut Activation) -> Result<Octets>
    ensures text { Answers result (Ok (a_text act.old.place).0) }
    ensures behind { OnOk result (act.new ≡ at_place act.old (a_text act.old.place).1) }
{
    let bytes = act.rest();
    let length = text_length(bytes);
    let text = copied(alloc, &bytes[..length])?;
    act.advance(length + 1);
    Ok(text)
}

/// A Buffer: its size is evaluated, and the bytes behind its size are its first ones.
#[tactic(auto, using(aml_frames::proofs::Forming::buffers, aml_frames::proofs::Knowing::going_on))]
fn begin_buffer<S: Space>(run: &mut Running<S>, act: &mut Activation, levels: u8) -> Result<Next>
    ensures { Steps S.accesses 6 result act.new run.new
        (buffer_run (meaning S.accesses) act.old levels, at_place act.old (outside_at act.old.place)) run.old }
{
    let outer = act.open();
    begin_size(run, act, levels, outer)
}

/// The size of a Buffer, which stands next: with an integer that is there already the buffer is made at once.
#[tactic(auto, using(aml_frames::proofs::Knowing::taking_known))]
fn begin_size<S: Space>(
    run: &mut Running<S>,
    act: &mut Activation,
    levels: u8,
    outer: Position,
) -> Result<Next>
    ensures { Steps S.accesses 6 result act.new run.new
        (next_at S.accesses (next.Term levels (frames.Buffer outer)) act.old) run.old }
{
    match known_integer(run, act, levels)? {
        Some(size) => {
            let buffer = make_buffer(run, act, outer, size)?;
            leave(Flow::Value(buffer))
        }
        None => Ok(Next::Term(levels, Frame::Buffer(outer))),
    }
}

/// A Buffer whose size was evaluated.
#[tactic(auto, using(aml_frames::proofs::Stepping::stepping))]
pub fn resume_buffer<S: Space>(
    run: &mut Running<S>,
    act: &mut Activation,
    outer: Position,
    flow: Flow,
) -> Result<Next>
    ensures { Steps S.accesses 6 result act.new run.new (frame_at S.accesses (frames.Buffer outer) act.old flow)
        run.old }
{
    let value = flow.value()?;
    let size = integer_of(&run.world, value)?;
    let buffer = make_buffer(run, act, outer, size)?;
    leave(Flow::Value(buffer))
}

/// A Buffer of so many bytes, whose first ones stand next; of as many as stand there, where these are more. Evaluation
/// goes on at `outer`, behind the term.
#[tactic(auto, using(aml_meaning::proofs::Runs::running))]
pub fn make_buffer<S: Space>(
    run: &mut Running<S>,
    act: &mut Activation,
    outer: Position,
    size: u64,
) -> Result<Value>
    ensures steps { run.new.1 ≡ run.old.1 }
    ensures made { Does result run.new (buffer_filled size act.old) run.old }
    ensures behind { OnOk result (act.new ≡ ends (frames.Buffer outer) act.old) }
{
    let bytes = copied(run.world.alloc, act.rest())?;
    let buffer = run.world.new_buffer(size, bytes)?;
    act.go_to(outer);
    Ok(buffer)
}

fn copied(alloc: Global, bytes: &[u8]) -> Result<Octets>
    ensures { Answers result (Ok bytes.now) }
{
    Ok(Octets::from_vec(Vec::from_slice(alloc, bytes)?))
}
