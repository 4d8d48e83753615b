//! A machine with the registers of the chipset.
use crate::chipset::Chipset;
use acpi_configure::{Options, configure_with};
use acpi_machine::{EvaluationSettings, Machine, Mode, Nesting, Profile, load_tables_as};
use ar_space::{Refusal, Result, Space, SpaceFault};
use machine_description::read_description;
use recorded_route::{Access, Ending, Exchange, Settings, configure_recorded};
use route_report::{Report, print};
use std::alloc::Global;

const SETTINGS: Settings = Settings {
    evaluation: EvaluationSettings {
        profile: Profile::Core,
        nesting: Nesting {
            calls: 32,
            levels: 64,
        },
    },
    mode: Mode::Apic,
    steps: 1_000_000,
    dry: false,
    kernel: true,
};

/// The tables in the memory of a machine text, over the registers of a chipset.
fn machine(alloc: Global, text: &[u8]) -> Result<Machine<Chipset>> {
    let machine = read_description(alloc, text)?;
    match load_tables_as(
        alloc,
        SETTINGS.evaluation,
        machine.tables,
        Chipset::new(),
        SETTINGS.steps,
        machine.osi,
    ) {
        Ok(machine) => Ok(machine),
        Err((refusal, _)) => Err(refusal),
    }
}

/// A report as text.
fn text_of(alloc: Global, report: &Report) -> anyhow::Result<String> {
    Ok(String::from_utf8(print(alloc, report)?)?)
}

/// The report of a machine.
fn report_of(alloc: Global, machine: &mut Machine<Chipset>) -> anyhow::Result<String> {
    machine.initialize(alloc, SETTINGS.mode)?;
    let options = Options {
        dry: SETTINGS.dry,
        avoid: &[],
        spare: false,
        spread: false,
        kernel: SETTINGS.kernel,
    };
    let report = configure_with(alloc, machine, &options)?;
    text_of(alloc, &report)
}

/// The report of a machine whose registers are the chipset's.
pub fn report_over_registers(alloc: Global, text: &[u8]) -> anyhow::Result<String> {
    let mut machine = machine(alloc, text)?;
    let report = report_of(alloc, &mut machine);
    // (by a call: what a scope drops at its end is dropped part by part, and long to prove)
    drop(machine);
    report
}

/// An access, made on the chipset, with its answer.
fn made(chipset: &mut Chipset, access: Access) -> Exchange {
    match access {
        Access::Read(place, width) => Exchange::Read(place, width, chipset.read(place, width)),
        Access::Write(place, width, value) => {
            Exchange::Write(place, width, value, chipset.write(place, width, value))
        }
    }
}

/// How many accesses are made at most.
const MAX_ACCESSES: usize = 1000;

/// The report of a machine whose registers are a record of accesses, which grows with each run until none is wanted.
pub fn report_by_record(alloc: Global, text: &[u8]) -> anyhow::Result<String> {
    let mut chipset = Chipset::new();
    let mut record = Vec::new(alloc);
    for _ in 0..MAX_ACCESSES {
        match configure_recorded(alloc, text, &SETTINGS, &[], record.as_slice()) {
            Ending::Wanted(wanted) if wanted.entry < record.len() => break,
            Ending::Wanted(wanted) => record.push(made(&mut chipset, wanted.access))?,
            Ending::Done(report) => return text_of(alloc, &report),
            Ending::Refused(refusal) => return Err(refusal.into()),
        }
    }
    Err(Refusal::Space(SpaceFault::Device).into())
}
