//! A call that configures a machine, where its pins are wanted and no text.
ghost use Rattle.std.specs.Prelude.{◌≡◌, true, IfOk, IfErr};
ghost use Rattle.recorded_route.specs.declared.ending.Ending.TheVariants as ends;
ghost use Rattle.acpiroute_c.specs.RecordCalls.{IsMalformed};
ghost use Rattle.acpiroute_c.specs.PinCalls.{IsKernelEndingOf, IsPinsOf, IsPinsSaidOf, ArePinsSaid, IsPinsCall};
ghost use Rattle.acpiroute_c.specs.declared.call_access.Unmade.TheVariants.{Malformed};

use crate::call_access::{CallAccess, CallWanted, Unmade, exchanges_of, wanted_form};
use crate::call_pin::{CallPin, PinsReply, PinsSaid, SaidPins, give_pins, pin_forms, sci_form};
use crate::call_settings::{CallSettings, settings_of};
use crate::configure_call::ending_over;
use crate::record_call::{code_of_unmade, reply_to};
use crate::table_source::TableSource;
use acpiroute_lib::completion_of;
use ar_space::Refusal;
use recorded_route::{Ending, Settings, pins_of, sci_of};
use route_report::Report;
use std::alloc::{AllocError, Global};

/// What a report says.
fn said_of_report(alloc: Global, report: &Report) -> Result<SaidPins, AllocError>
    ensures { IfOk result (λ said. IsPinsOf (ends.Done report.now) said) }
{
    let pins = pins_of(alloc, report)?;
    Ok(SaidPins {
        pins: pin_forms(alloc, &pins)?,
        line: Vec::new(alloc),
        sci: sci_form(sci_of(report)),
        status: completion_of(&report.sets).status(),
    })
}

/// What a refusal says.
fn said_of_refusal(alloc: Global, refusal: Refusal) -> Result<SaidPins, AllocError>
    ensures { IfOk result (λ said. IsPinsOf (ends.Refused refusal) said) }
{
    let reply = reply_to(alloc, Err(refusal))?;
    Ok(SaidPins {
        pins: Vec::new(alloc),
        line: reply.line,
        sci: sci_form(None),
        status: reply.status,
    })
}

/// What an ending says.
fn said_of(alloc: Global, ending: Ending<Report>) -> Result<PinsSaid, AllocError>
    ensures { IfOk result (λ said. IsPinsSaidOf ending said) }
{
    match ending {
        Ending::Wanted(wanted) => Ok(PinsSaid::Wanted(wanted)),
        Ending::Done(report) => Ok(PinsSaid::Pins(said_of_report(alloc, &report)?)),
        Ending::Refused(refusal) => Ok(PinsSaid::Pins(said_of_refusal(alloc, refusal)?)),
    }
}

/// These settings, with the lines for a kernel.
fn for_kernels(settings: Settings) -> Settings
    ensures { result ≡ record settings { kernel = true } }
{
    Settings {
        kernel: true,
        ..settings
    }
}

/// How the run over the record ends, with the lines for a kernel.
fn ending(
    alloc: Global,
    settings: &CallSettings,
    avoid: &[u32],
    source: TableSource<'_>,
    accesses: &[CallAccess],
) -> Result<Ending<Report>, Unmade>
    ensures ending { IfOk result (λ ending. IsKernelEndingOf settings.now avoid.now source.entry accesses.now ending) }
    ensures fault { IfErr result (λ why. why ≡ Malformed → IsMalformed settings.now accesses.now) }
{
    let Some(settings) = settings_of(settings) else {
        return Err(Unmade::Malformed);
    };
    let wanting = for_kernels(settings);
    match exchanges_of(alloc, accesses) {
        Ok(exchanges) => Ok(ending_over(alloc, &wanting, avoid, source, exchanges.as_slice())),
        Err(unmade) => Err(unmade),
    }
}

/// What there is to say of a run over a record.
fn configured(
    alloc: Global,
    settings: &CallSettings,
    avoid: &[u32],
    source: TableSource<'_>,
    accesses: &[CallAccess],
) -> Result<PinsSaid, Unmade>
    ensures said { IfOk result (λ said. ArePinsSaid settings.now avoid.now source.entry accesses.now said) }
    ensures fault { IfErr result (λ why. why ≡ Malformed → IsMalformed settings.now accesses.now) }
{
    match ending(alloc, settings, avoid, source, accesses) {
        Ok(ending) => match said_of(alloc, ending) {
            Ok(said) => Ok(said),
            Err(_) => Err(Unmade::OutOfMemory),
        },
        Err(unmade) => Err(unmade),
    }
}

/// Makes a call over a record, and tells how it came out.
pub(crate) fn pins_call(
    alloc: Global,
    settings: &CallSettings,
    avoid: &[u32],
    source: TableSource<'_>,
    accesses: &[CallAccess],
    pins: &mut [CallPin],
    line: &mut [u8],
    reply: &mut PinsReply,
    wanted: &mut CallWanted,
) -> u32
    ensures { IsPinsCall settings.now avoid.now source.entry accesses.now result
        (record { filled = record { pins = pins.old; line = line.old; reply = reply.old }; wanted = wanted.old })
        (record { filled = record { pins = pins.new; line = line.new; reply = reply.new }; wanted = wanted.new }) }
{
    match configured(alloc, settings, avoid, source, accesses) {
        Ok(PinsSaid::Pins(said)) => give_pins(&said, pins, line, reply),
        Ok(PinsSaid::Wanted(missing)) => {
            *wanted = wanted_form(missing);
            4
        }
        Err(unmade) => code_of_unmade(unmade),
    }
}
