//! A call that configures a machine: the reply in the caller's buffers, or the access that is wanted.
ghost use Rattle.std.specs.Prelude.{◌≡◌, IfOk, IfErr};
ghost use Rattle.recorded_route.specs.Endings.{IsEndingOver, NotOutOfMemory};
ghost use Rattle.acpiroute_lib.specs.RouteCommand.{printed};
ghost use Rattle.acpiroute_c.specs.Sources.{described_by};
ghost use Rattle.acpiroute_c.specs.RecordCalls.{IsSaidOf, IsMalformed};
ghost use Rattle.acpiroute_c.specs.Configuring.{IsEndingOf, IsSaid, IsConfigureCall};
ghost use Rattle.acpiroute_c.specs.declared.call_access.Unmade.TheVariants.{Malformed};

use crate::call_access::{CallAccess, CallWanted, Unmade, exchanges_of, wanted_form};
use crate::call_reply::{CallReply, give};
use crate::call_settings::{CallSettings, settings_of};
use crate::record_call::{Said, code_of_unmade, reply_to};
use crate::table_source::TableSource;
use acpiroute_lib::report_answer;
use recorded_route::{Ending, Exchange, Settings, configure_recorded, configure_tables_recorded};
use route_report::Report;
use std::alloc::{AllocError, Global};

/// How a run over these entries ends.
pub(crate) fn ending_over(
    alloc: Global,
    settings: &Settings,
    avoid: &[u32],
    source: TableSource<'_>,
    entries: &[Exchange],
) -> Ending<Report>
    ensures { NotOutOfMemory result → IsEndingOver settings.now avoid.now
        (described_by source.entry) entries.now result }
{
    match source {
        TableSource::Text(text) => configure_recorded(alloc, text, settings, avoid, entries),
        TableSource::Memory(tables) => {
            configure_tables_recorded(alloc, &tables, settings, avoid, entries)
        }
    }
}

/// How the run over the record ends.
fn ending(
    alloc: Global,
    settings: &CallSettings,
    avoid: &[u32],
    source: TableSource<'_>,
    accesses: &[CallAccess],
) -> Result<Ending<Report>, Unmade>
    ensures ending { IfOk result (λ ending. IsEndingOf settings.now avoid.now source.entry accesses.now ending) }
    ensures fault { IfErr result (λ why. why ≡ Malformed → IsMalformed settings.now accesses.now) }
{
    let Some(settings) = settings_of(settings) else {
        return Err(Unmade::Malformed);
    };
    match exchanges_of(alloc, accesses) {
        Ok(exchanges) => Ok(ending_over(alloc, &settings, avoid, source, exchanges.as_slice())),
        Err(unmade) => Err(unmade),
    }
}

/// What an ending says.
fn said_of(alloc: Global, ending: Ending<Report>) -> Result<Said, AllocError>
    ensures { IfOk result (λ said. IsSaidOf printed ending said) }
{
    let outcome = match ending {
        Ending::Wanted(wanted) => return Ok(Said::Wanted(wanted)),
        Ending::Done(report) => report_answer(alloc, &report),
        Ending::Refused(refusal) => Err(refusal),
    };
    Ok(Said::Reply(reply_to(alloc, outcome)?))
}

/// What there is to say of a run over a record.
fn configured(
    alloc: Global,
    settings: &CallSettings,
    avoid: &[u32],
    source: TableSource<'_>,
    accesses: &[CallAccess],
) -> Result<Said, Unmade>
    ensures said { IfOk result (λ said. IsSaid settings.now avoid.now source.entry accesses.now said) }
    ensures fault { IfErr result (λ why. why ≡ Malformed → IsMalformed settings.now accesses.now) }
{
    match ending(alloc, settings, avoid, source, accesses) {
        Ok(ending) => match said_of(alloc, ending) {
            Ok(said) => Ok(said),
            Err(_) => Err(Unmade::OutOfMemory),
        },
        Err(unmade) => Err(unmade),
    }
}

/// Makes a call over a record, and tells how it came out.
pub(crate) fn configure_call(
    alloc: Global,
    settings: &CallSettings,
    avoid: &[u32],
    source: TableSource<'_>,
    accesses: &[CallAccess],
    text: &mut [u8],
    line: &mut [u8],
    reply: &mut CallReply,
    wanted: &mut CallWanted,
) -> u32
    ensures { IsConfigureCall settings.now avoid.now source.entry accesses.now result
        (record { filled = record { text = text.old; line = line.old; reply = reply.old }; wanted = wanted.old })
        (record { filled = record { text = text.new; line = line.new; reply = reply.new }; wanted = wanted.new }) }
{
    match configured(alloc, settings, avoid, source, accesses) {
        Ok(Said::Reply(said)) => give(&said, text, line, reply),
        Ok(Said::Wanted(missing)) => {
            *wanted = wanted_form(missing);
            4
        }
        Err(unmade) => code_of_unmade(unmade),
    }
}
