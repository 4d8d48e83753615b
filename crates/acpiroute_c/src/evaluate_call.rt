//! A call that evaluates an object: its value in the caller's buffers, or the access that is wanted.
ghost use Rattle.std.specs.Prelude.{◌≡◌, IfOk, IfErr, map};
ghost use Rattle.aml_world.specs.state.Given as given;
ghost use Rattle.recorded_route.specs.Endings.{IsEvaluatedOver, NotOutOfMemory, seen_ending};
ghost use Rattle.acpiroute_lib.specs.EvalCommand.{value_written};
ghost use Rattle.acpiroute_c.specs.Sources.{described_by};
ghost use Rattle.acpiroute_c.specs.RecordCalls.{IsSaidOf, IsMalformed};
ghost use Rattle.acpiroute_c.specs.Evaluating.{IsAnswerOf, IsValueSaid, IsEvaluateCall};
ghost use Rattle.acpiroute_c.specs.declared.call_access.Unmade.TheVariants.{Malformed};

use crate::call_access::{CallAccess, CallWanted, Unmade, exchanges_of, wanted_form};
use crate::call_reply::{CallReply, give};
use crate::call_settings::{CallSettings, settings_of};
use crate::record_call::{Said, code_of_unmade, reply_to};
use crate::table_source::TableSource;
use acpiroute_lib::value_answer;
use aml_world::Datum;
use recorded_route::{
    Ending, Exchange, Question, Settings, evaluate_recorded, evaluate_tables_recorded,
};
use std::alloc::{AllocError, Global};

/// An object that is asked for: the text of its path, and the integers that it is called with.
#[derive(Clone, Copy)]
pub(crate) struct Asked<'a> {
    pub path: &'a [u8],
    pub arguments: &'a [u64],
}

/// Integers as values for the interpreter.
fn integers(alloc: Global, arguments: &[u64]) -> Result<Vec<Datum>, AllocError>
    ensures { IfOk result (λ list. map given.given_of list.items ≡ map given.Integer arguments.now) }
{
    let mut list = Vec::new(alloc);
    for n in arguments {
        list.push(Datum::Integer(*n))?;
    }
    Ok(list)
}

/// How an evaluation over these entries ends.
fn answer_over(
    alloc: Global,
    settings: &Settings,
    question: Question<'_>,
    source: TableSource<'_>,
    entries: &[Exchange],
) -> Ending<Datum>
    ensures { NotOutOfMemory result → IsEvaluatedOver settings.now question.entry.path.now
        (map given.given_of question.entry.arguments.items) (described_by source.entry) entries.now
        (seen_ending given.given_of result) }
{
    match source {
        TableSource::Text(text) => evaluate_recorded(alloc, text, settings, question, entries),
        TableSource::Memory(tables) => {
            evaluate_tables_recorded(alloc, &tables, settings, question, entries)
        }
    }
}

/// How the evaluation over the record ends.
fn answer(
    alloc: Global,
    settings: &CallSettings,
    asked: Asked<'_>,
    source: TableSource<'_>,
    accesses: &[CallAccess],
) -> Result<Ending<Datum>, Unmade>
    ensures answer { IfOk result (λ ending. IsAnswerOf settings.now asked.entry.path.now asked.entry.arguments.now
        source.entry accesses.now (seen_ending given.given_of ending)) }
    ensures fault { IfErr result (λ why. why ≡ Malformed → IsMalformed settings.now accesses.now) }
{
    let Some(settings) = settings_of(settings) else {
        return Err(Unmade::Malformed);
    };
    let Ok(arguments) = integers(alloc, asked.arguments) else {
        return Err(Unmade::OutOfMemory);
    };
    let question = Question {
        path: asked.path,
        arguments,
    };
    match exchanges_of(alloc, accesses) {
        Ok(exchanges) => Ok(answer_over(alloc, &settings, question, source, exchanges.as_slice())),
        Err(unmade) => Err(unmade),
    }
}

/// What an ending says.
fn said_of(alloc: Global, ending: Ending<Datum>) -> Result<Said, AllocError>
    ensures { IfOk result (λ said. IsSaidOf value_written (seen_ending given.given_of ending) said) }
{
    let outcome = match ending {
        Ending::Wanted(wanted) => return Ok(Said::Wanted(wanted)),
        Ending::Done(value) => value_answer(alloc, &value),
        Ending::Refused(refusal) => Err(refusal),
    };
    Ok(Said::Reply(reply_to(alloc, outcome)?))
}

/// What there is to say of an evaluation over a record.
fn evaluated(
    alloc: Global,
    settings: &CallSettings,
    asked: Asked<'_>,
    source: TableSource<'_>,
    accesses: &[CallAccess],
) -> Result<Said, Unmade>
    ensures said { IfOk result (λ said. IsValueSaid settings.now asked.entry.path.now asked.entry.arguments.now
        source.entry accesses.now said) }
    ensures fault { IfErr result (λ why. why ≡ Malformed → IsMalformed settings.now accesses.now) }
{
    match answer(alloc, settings, asked, source, accesses) {
        Ok(ending) => match said_of(alloc, ending) {
            Ok(said) => Ok(said),
            Err(_) => Err(Unmade::OutOfMemory),
        },
        Err(unmade) => Err(unmade),
    }
}

/// Makes a call over a record, and tells how it came out.
pub(crate) fn evaluate_call(
    alloc: Global,
    settings: &CallSettings,
    asked: Asked<'_>,
    source: TableSource<'_>,
    accesses: &[CallAccess],
    text: &mut [u8],
    line: &mut [u8],
    reply: &mut CallReply,
    wanted: &mut CallWanted,
) -> u32
    ensures { IsEvaluateCall settings.now asked.entry.path.now asked.entry.arguments.now source.entry accesses.now
        result (record {
          filled = record { text = text.old; line = line.old; reply = reply.old };
          wanted = wanted.old;
        }) (record {
          filled = record { text = text.new; line = line.new; reply = reply.new };
          wanted = wanted.new;
        }) }
{
    match evaluated(alloc, settings, asked, source, accesses) {
        Ok(Said::Reply(said)) => give(&said, text, line, reply),
        Ok(Said::Wanted(missing)) => {
            *wanted = wanted_form(missing);
            4
        }
        Err(unmade) => code_of_unmade(unmade),
    }
}
