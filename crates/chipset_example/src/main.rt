//! Routes the interrupts of a machine over registers of its own, and prints the report, with the lines for a kernel:
//! once over the registers themselves, and once over a record of their accesses. The tables are those of a machine
//! text on the standard input.
#![tactic(auto)]

mod chipset;
mod routing;

use crate::routing::{report_by_record, report_over_registers};
use std::io::Read;
use std::process::ExitCode;

fn main(rt: HostRuntime) -> anyhow::Result<ExitCode> {
    let alloc = rt.alloc();
    let mut text = Vec::new(alloc);
    rt.reader().read_to_end(&mut text)?;
    let report = report_over_registers(alloc, &text)?;
    let recorded = report_by_record(alloc, &text)?;
    if report != recorded {
        println!(rt; "the reports differ")?;
        return Ok(ExitCode::from(1));
    }
    print!(rt; "{report}")?;
    Ok(ExitCode::SUCCESS)
}
