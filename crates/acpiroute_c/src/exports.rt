//! What C calls. `include/acpiroute.h` says how.
ghost use Rattle.std.specs.Prelude.{codes};
ghost use Rattle.acpiroute_c.specs.Calls.{IsCall};
ghost use Rattle.acpiroute_c.specs.Configuring.{IsConfigureCall};
ghost use Rattle.acpiroute_c.specs.Evaluating.{IsEvaluateCall};
ghost use Rattle.acpiroute_c.specs.PinCalls.{IsPinsCall};
ghost use Rattle.acpiroute_c.specs.declared.table_source.TableSource.TheVariants as source;

use crate::call::call;
use crate::call_access::{CallAccess, CallWanted};
use crate::call_pin::{CallPin, PinsReply};
use crate::call_reply::CallReply;
use crate::call_settings::CallSettings;
use crate::configure_call::configure_call;
use crate::evaluate_call::{Asked, evaluate_call};
use crate::pins_call::pins_call;
use crate::table_source::TableSource;
use recorded_route::{TablePart, TablesInMemory};
use std::alloc::Global;

/// `route` over a machine text.
#[unsafe(no_mangle)]
pub extern "C" fn acpiroute_route(
    alloc: Global,
    options: &[u8],
    machine: &[u8],
    text: &mut [u8],
    line: &mut [u8],
    reply: &mut CallReply,
) -> u32
    ensures { IsCall (codes "route") options.now machine.now result
        (record { text = text.old; line = line.old; reply = reply.old })
        (record { text = text.new; line = line.new; reply = reply.new }) }
{
    call(alloc, "route", options, machine, text, line, reply)
}

/// `check` over the text of a report.
#[unsafe(no_mangle)]
pub extern "C" fn acpiroute_check(
    alloc: Global,
    options: &[u8],
    report: &[u8],
    text: &mut [u8],
    line: &mut [u8],
    reply: &mut CallReply,
) -> u32
    ensures { IsCall (codes "check") options.now report.now result
        (record { text = text.old; line = line.old; reply = reply.old })
        (record { text = text.new; line = line.new; reply = reply.new }) }
{
    call(alloc, "check", options, report, text, line, reply)
}

/// `names` over a machine text.
#[unsafe(no_mangle)]
pub extern "C" fn acpiroute_names(
    alloc: Global,
    options: &[u8],
    machine: &[u8],
    text: &mut [u8],
    line: &mut [u8],
    reply: &mut CallReply,
) -> u32
    ensures { IsCall (codes "names") options.now machine.now result
        (record { text = text.old; line = line.old; reply = reply.old })
        (record { text = text.new; line = line.new; reply = reply.new }) }
{
    call(alloc, "names", options, machine, text, line, reply)
}

/// `eval` over a machine text; the path and the arguments are among the options.
#[unsafe(no_mangle)]
pub extern "C" fn acpiroute_eval(
    alloc: Global,
    options: &[u8],
    machine: &[u8],
    text: &mut [u8],
    line: &mut [u8],
    reply: &mut CallReply,
) -> u32
    ensures { IsCall (codes "eval") options.now machine.now result
        (record { text = text.old; line = line.old; reply = reply.old })
        (record { text = text.new; line = line.new; reply = reply.new }) }
{
    call(alloc, "eval", options, machine, text, line, reply)
}

/// `why` over a machine text: what ended the run of `route`, or of `eval` where that is the first of the options.
#[unsafe(no_mangle)]
pub extern "C" fn acpiroute_why(
    alloc: Global,
    options: &[u8],
    machine: &[u8],
    text: &mut [u8],
    line: &mut [u8],
    reply: &mut CallReply,
) -> u32
    ensures { IsCall (codes "why") options.now machine.now result
        (record { text = text.old; line = line.old; reply = reply.old })
        (record { text = text.new; line = line.new; reply = reply.new }) }
{
    call(alloc, "why", options, machine, text, line, reply)
}

/// `route` over the tables of a machine text, whose registers answer from a record of accesses.
#[unsafe(no_mangle)]
pub extern "C" fn acpiroute_configure(
    alloc: Global,
    settings: &CallSettings,
    avoid: &[u32],
    machine: &[u8],
    accesses: &[CallAccess],
    text: &mut [u8],
    line: &mut [u8],
    reply: &mut CallReply,
    wanted: &mut CallWanted,
) -> u32
    ensures { IsConfigureCall settings.now avoid.now (source.Text machine.entry) accesses.now result
        (record { filled = record { text = text.old; line = line.old; reply = reply.old }; wanted = wanted.old })
        (record { filled = record { text = text.new; line = line.new; reply = reply.new }; wanted = wanted.new }) }
{
    configure_call(
        alloc,
        settings,
        avoid,
        TableSource::Text(machine),
        accesses,
        text,
        line,
        reply,
        wanted,
    )
}

/// `eval` over the tables of a machine text, whose registers answer from a record of accesses; the path is a text,
/// and the arguments are integers.
#[unsafe(no_mangle)]
pub extern "C" fn acpiroute_evaluate(
    alloc: Global,
    settings: &CallSettings,
    path: &[u8],
    arguments: &[u64],
    machine: &[u8],
    accesses: &[CallAccess],
    text: &mut [u8],
    line: &mut [u8],
    reply: &mut CallReply,
    wanted: &mut CallWanted,
) -> u32
    ensures { IsEvaluateCall settings.now path.now arguments.now (source.Text machine.entry) accesses.now result
        (record { filled = record { text = text.old; line = line.old; reply = reply.old }; wanted = wanted.old })
        (record { filled = record { text = text.new; line = line.new; reply = reply.new }; wanted = wanted.new }) }
{
    let asked = Asked { path, arguments };
    evaluate_call(
        alloc,
        settings,
        asked,
        TableSource::Text(machine),
        accesses,
        text,
        line,
        reply,
        wanted,
    )
}

/// `acpiroute_configure` over the tables as they stand in memory.
#[unsafe(no_mangle)]
pub extern "C" fn acpiroute_configure_tables(
    alloc: Global,
    settings: &CallSettings,
    avoid: &[u32],
    rsdp: u64,
    parts: &[TablePart<'_>],
    osi: &[u8],
    accesses: &[CallAccess],
    text: &mut [u8],
    line: &mut [u8],
    reply: &mut CallReply,
    wanted: &mut CallWanted,
) -> u32
    ensures { IsConfigureCall settings.now avoid.now (source.Memory
        (record { rsdp = rsdp; parts = parts.entry; osi = osi.entry })) accesses.now result
        (record { filled = record { text = text.old; line = line.old; reply = reply.old }; wanted = wanted.old })
        (record { filled = record { text = text.new; line = line.new; reply = reply.new }; wanted = wanted.new }) }
{
    configure_call(
        alloc,
        settings,
        avoid,
        TableSource::Memory(TablesInMemory { rsdp, parts, osi }),
        accesses,
        text,
        line,
        reply,
        wanted,
    )
}

/// `acpiroute_evaluate` over the tables as they stand in memory.
#[unsafe(no_mangle)]
pub extern "C" fn acpiroute_evaluate_tables(
    alloc: Global,
    settings: &CallSettings,
    path: &[u8],
    arguments: &[u64],
    rsdp: u64,
    parts: &[TablePart<'_>],
    osi: &[u8],
    accesses: &[CallAccess],
    text: &mut [u8],
    line: &mut [u8],
    reply: &mut CallReply,
    wanted: &mut CallWanted,
) -> u32
    ensures { IsEvaluateCall settings.now path.now arguments.now (source.Memory
        (record { rsdp = rsdp; parts = parts.entry; osi = osi.entry })) accesses.now result
        (record { filled = record { text = text.old; line = line.old; reply = reply.old }; wanted = wanted.old })
        (record { filled = record { text = text.new; line = line.new; reply = reply.new }; wanted = wanted.new }) }
{
    let asked = Asked { path, arguments };
    evaluate_call(
        alloc,
        settings,
        asked,
        TableSource::Memory(TablesInMemory { rsdp, parts, osi }),
        accesses,
        text,
        line,
        reply,
        wanted,
    )
}

/// `acpiroute_configure`, of whose report the pins are given and no text.
#[unsafe(no_mangle)]
pub extern "C" fn acpiroute_configure_pins(
    alloc: Global,
    settings: &CallSettings,
    avoid: &[u32],
    machine: &[u8],
    accesses: &[CallAccess],
    pins: &mut [CallPin],
    line: &mut [u8],
    reply: &mut PinsReply,
    wanted: &mut CallWanted,
) -> u32
    ensures { IsPinsCall settings.now avoid.now (source.Text machine.entry) accesses.now result
        (record { filled = record { pins = pins.old; line = line.old; reply = reply.old }; wanted = wanted.old })
        (record { filled = record { pins = pins.new; line = line.new; reply = reply.new }; wanted = wanted.new }) }
{
    pins_call(
        alloc,
        settings,
        avoid,
        TableSource::Text(machine),
        accesses,
        pins,
        line,
        reply,
        wanted,
    )
}

/// `acpiroute_configure_pins` over the tables as they stand in memory.
#[unsafe(no_mangle)]
pub extern "C" fn acpiroute_configure_tables_pins(
    alloc: Global,
    settings: &CallSettings,
    avoid: &[u32],
    rsdp: u64,
    parts: &[TablePart<'_>],
    osi: &[u8],
    accesses: &[CallAccess],
    pins: &mut [CallPin],
    line: &mut [u8],
    reply: &mut PinsReply,
    wanted: &mut CallWanted,
) -> u32
    ensures { IsPinsCall settings.now avoid.now (source.Memory
        (record { rsdp = rsdp; parts = parts.entry; osi = osi.entry })) accesses.now result
        (record { filled = record { pins = pins.old; line = line.old; reply = reply.old }; wanted = wanted.old })
        (record { filled = record { pins = pins.new; line = line.new; reply = reply.new }; wanted = wanted.new }) }
{
    pins_call(
        alloc,
        settings,
        avoid,
        TableSource::Memory(TablesInMemory { rsdp, parts, osi }),
        accesses,
        pins,
        line,
        reply,
        wanted,
    )
}
