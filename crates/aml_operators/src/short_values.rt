//! Operands of operators that are done at once and may give other values than integers: locals, arguments, strings, and
//! buffers whose size is an integer that a short term gives (ACPI 6.5, 19.6, 20.2.3, 20.2.5.4 and 20.2.6). Arguments of
//! calls, predicates and Return don't ask for these.
ghost use Rattle.std.specs.Prelude.{◌≡◌};
ghost use Rattle.aml_meaning.specs.Meaning.{meaning};
ghost use Rattle.aml_frames.specs.Data.{buffer_run};
ghost use Rattle.aml_frames.specs.Operands.{outside_at};
ghost use Rattle.aml_frames.specs.Places.{at_place, behind_term};
ghost use Rattle.aml_frames.specs.Follow.{begun_run, coded_run, behind_coded};
ghost use Rattle.aml_frames.specs.at_once.ShortTerms.{is_made};
ghost use Rattle.aml_frames.specs.at_once.Known.{MadeValue, ShortValue};

use aml_declarations::{make_buffer, make_text};
use aml_frames::{Activation, short_integer, slot_value};
use aml_meaning::{DataKind, Running, TermKind, kind_of};
use aml_objects::Value;
use aml_terms::RowPlace;
use ar_space::{Result, Space};

/// Whether a byte is the opcode of a string or of a buffer, which are made in memory.
fn is_made(byte: u8) -> bool
    ensures { result ≡ is_made byte }
{
    byte == 0x0D || byte == 0x11
}

/// The value of the next term, where it is a local or an argument that holds one, a string, or a buffer whose size is
/// an integer that a short term gives. It takes the steps of the term. A refusal is that of the term, or want of memory
/// for a string or a buffer. In every other case, also where no step or no level is left for the term or its size, it
/// answers none, and nothing changes.
pub(crate) fn short_value<S: Space>(
    run: &mut Running<S>,
    act: &mut Activation,
    levels: u8,
) -> Result<Option<Value>>
    ensures { ShortValue S.accesses result act.new run.new levels act.old run.old }
{
    match slot_value(run, act, levels) {
        Some(value) => Ok(Some(value)),
        None => made_value(run, act, levels),
    }
}

/// The same of a string or a buffer alone.
fn made_value<S: Space>(
    run: &mut Running<S>,
    act: &mut Activation,
    levels: u8,
) -> Result<Option<Value>>
    ensures { ShortValue S.accesses result act.new run.new levels act.old run.old }
{
    if run.steps == 0 {
        return Ok(None);
    }
    if !is_made(act.next_byte()) {
        return Ok(None);
    }
    let steps = run.steps;
    let position = act.position();
    run.steps -= 1;
    match paid_value(run, act, levels)? {
        None => {
            run.steps = steps;
            act.go_to(position);
            Ok(None)
        }
        Some(value) => Ok(Some(value)),
    }
}

/// The same of a term whose step is taken. Where it answers none, the caller has to restore the steps and the place;
/// nothing else has changed.
fn paid_value<S: Space>(
    run: &mut Running<S>,
    act: &mut Activation,
    levels: u8,
) -> Result<Option<Value>>
    ensures { MadeValue S.accesses result act.new run.new
        (begun_run S.accesses (meaning S.accesses) act.old levels, behind_term act.old levels) act.old run.old }
{
    match act.take_opcode(levels) {
        None => Ok(None),
        Some(place) => coded_value(run, act, levels - 1, place),
    }
}

/// The same of a term whose opcode was read, by the place of its row.
#[tactic(auto, using(aml_frames::proofs::Using::beginning_terms, aml_frames::proofs::Stepping::coding))]
fn coded_value<S: Space>(
    run: &mut Running<S>,
    act: &mut Activation,
    levels: u8,
    place: RowPlace,
) -> Result<Option<Value>>
    ensures { MadeValue S.accesses result act.new run.new
        (coded_run S.accesses (meaning S.accesses) place act.old levels, behind_coded place act.old levels) act.old
        run.old }
{
    match kind_of(place.row().0) {
        TermKind::Data(DataKind::String) => {
            let text = make_text(run, act)?;
            Ok(Some(text))
        }
        TermKind::Data(DataKind::Buffer) => sized_buffer(run, act, levels),
        _ => Ok(None),
    }
}

/// The same of a Buffer whose opcode was read. A size that isn't a short term is left to `begin_buffer`.
#[tactic(auto, using(aml_frames::proofs::Forming::buffers))]
fn sized_buffer<S: Space>(
    run: &mut Running<S>,
    act: &mut Activation,
    levels: u8,
) -> Result<Option<Value>>
    ensures { MadeValue S.accesses result act.new run.new
        (buffer_run (meaning S.accesses) act.old levels, at_place act.old (outside_at act.old.place)) act.old run.old }
{
    let outer = act.open();
    let Some(size) = short_integer(run, act, levels) else {
        return Ok(None);
    };
    let buffer = make_buffer(run, act, outer, size)?;
    Ok(Some(buffer))
}
