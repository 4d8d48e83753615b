//! Makes the main calls of the libraries once each, over a small machine, and tells whether what is promised of want
//! of memory holds.
//!
//! With ample memory each call answers. Where memory runs out in a call, the call says so; after a call of the
//! machine itself each later one is refused as spent, and after a call of a library above it the machine goes on,
//! unless it is spent. After a table that was not read no name takes arguments. Run it with each allocation refused
//! in turn: `tools/refuse_memory.py` with `--calls`.
#![tactic(auto)]

mod machine;
mod machine_calls;
mod promise;
mod route_calls;
mod term_calls;

use crate::machine::TEXT;
use crate::machine_calls::call_machine;
use crate::promise::{Ended, answered};
use crate::route_calls::call_routes;
use crate::term_calls::call_terms;
use acpi_machine::{Machine, load_tables};
use ar_space::{Refusal, Sparse};
use machine_description::read_description;
use std::alloc::Global;
use std::io;
use std::process::ExitCode;

/// How many steps each table and each evaluation may take.
const STEPS: u64 = 1_000_000;

/// The machine of the text, with its tables loaded. Where loading is refused, the register space comes back.
fn loaded(alloc: Global) -> Result<Machine<Sparse>, Ended> {
    let described = answered("read_description", read_description(alloc, TEXT))?;
    match load_tables(
        alloc,
        described.tables,
        described.registers,
        STEPS,
        described.osi,
    ) {
        Ok(machine) => Ok(machine),
        Err((Refusal::OutOfMemory, _space)) => Err(Ended::OutOfMemory),
        Err(_) => Err(Ended::Broken("load_tables")),
    }
}

/// Every call of a machine, and every call that routes over it, once.
fn call_over(alloc: Global, machine: &mut Machine<Sparse>) -> Result<(), Ended> {
    call_machine(alloc, machine)?;
    call_routes(alloc, machine)
}

/// Every call, once.
fn call_all(alloc: Global) -> Result<(), Ended> {
    call_terms(alloc)?;
    let mut machine = loaded(alloc)?;
    let came = call_over(alloc, &mut machine);
    // (by a call: what a scope drops at its end is dropped part by part, and long to prove)
    drop(machine);
    came
}

fn main(rt: HostRuntime) -> io::Result<ExitCode> {
    let (line, status) = match call_all(rt.alloc()) {
        Ok(()) => ("every call answers", 0),
        Err(Ended::OutOfMemory) => ("memory ran out, as promised", 0),
        Err(Ended::Broken(call)) => (call, 1),
    };
    println!(rt; "{line}")?;
    Ok(ExitCode::from(status))
}
