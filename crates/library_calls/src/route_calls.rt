//! The calls that route a machine's interrupts.
use crate::machine_calls::over_machine;
use crate::promise::{Ended, answered};
use acpi_configure::configure;
use acpi_links::{
    Gathered, gather, get_current_resources, get_possible_resources, set_current_resources,
};
use acpi_machine::Machine;
use acpi_prt::get_irq_routing_table;
use aml_path::Path;
use ar_space::Sparse;
use route_check::check;
use route_report::{Report, print, read};
use route_solve::{fits, solve};
use std::alloc::Global;

/// The path of a text.
fn path(alloc: Global, text: &[u8]) -> Result<Path, Ended> {
    answered("Path::from_text", Path::from_text(alloc, text))
}

/// The routing table of a bus.
fn call_routing_table(alloc: Global, machine: &mut Machine<Sparse>) -> Result<(), Ended> {
    let bus = path(alloc, b"\\_SB_.PCI0")?;
    let result = get_irq_routing_table(alloc, machine, &bus);
    over_machine(alloc, machine, "get_irq_routing_table", result)?;
    Ok(())
}

/// What a link may be set to, setting it, and what it is set to.
fn call_link(alloc: Global, machine: &mut Machine<Sparse>) -> Result<(), Ended> {
    let link = path(alloc, b"\\_SB_.LNKA")?;
    let result = get_possible_resources(alloc, machine, &link);
    let offer = over_machine(alloc, machine, "get_possible_resources", result)?;
    if let Some(number) = offer.numbers().first() {
        let result = set_current_resources(alloc, machine, &link, &offer, *number);
        over_machine(alloc, machine, "set_current_resources", result)?;
    }
    let result = get_current_resources(alloc, machine, &link);
    over_machine(alloc, machine, "get_current_resources", result)?;
    Ok(())
}

/// The answer to a machine's problem.
fn call_solver(alloc: Global, gathered: &Gathered) -> Result<(), Ended> {
    let problem = gathered.problem();
    if !fits(problem) {
        return Err(Ended::Broken("fits"));
    }
    match solve(alloc, problem) {
        Ok(_) => Ok(()),
        Err(_) => Err(Ended::OutOfMemory),
    }
}

/// The problem of a machine, and its answer.
fn call_gather(alloc: Global, machine: &mut Machine<Sparse>) -> Result<(), Ended> {
    let result = gather(alloc, machine, &[3]);
    let gathered = over_machine(alloc, machine, "gather", result)?;
    call_solver(alloc, &gathered)
}

/// A report as text, and what its text claims.
fn call_report(alloc: Global, report: &Report) -> Result<(), Ended> {
    let text = answered("print", print(alloc, report))?;
    let claim = answered("read", read(alloc, &text))?;
    if check(&claim).is_err() {
        return Err(Ended::Broken("check"));
    }
    Ok(())
}

/// Every call that routes, once; setting the links only where that is wanted.
pub(crate) fn call_routes(alloc: Global, machine: &mut Machine<Sparse>) -> Result<(), Ended> {
    call_routing_table(alloc, machine)?;
    call_link(alloc, machine)?;
    call_gather(alloc, machine)?;
    let result = configure(alloc, machine, true, &[3]);
    over_machine(alloc, machine, "configure, dry", result)?;
    let result = configure(alloc, machine, false, &[3]);
    let report = over_machine(alloc, machine, "configure", result)?;
    call_report(alloc, &report)
}
