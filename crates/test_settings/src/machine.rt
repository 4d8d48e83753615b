//! The machine that a machine text describes.
use acpi_machine::{Machine, Mode, load_tables};
use ar_space::{Fused, Result, Sparse};
use machine_description::read_description;
use space_trace::Traced;
use std::alloc::Global;

/// How many steps each table and each evaluation may take.
const STEPS: u64 = 1_000_000;

/// A machine over registers that keep their accesses, and of which one access can fail.
pub type TracedMachine = Machine<Traced<Fused<Sparse>>>;

/// The machine of a machine text. Loading accesses registers too. After `pass` accesses, one fails.
pub fn machine_of(alloc: Global, text: &[u8], pass: u64) -> Result<TracedMachine> {
    let machine = read_description(alloc, text)?;
    let space = Traced::new(Fused::new(machine.registers, pass));
    match load_tables(alloc, machine.tables, space, STEPS, machine.osi) {
        Ok(machine) => Ok(machine),
        Err((refusal, _)) => Err(refusal),
    }
}

/// Tells the firmware the mode `apic`.
pub fn initialize(alloc: Global, machine: &mut TracedMachine) -> Result<()> {
    machine.initialize(alloc, Mode::Apic)
}
