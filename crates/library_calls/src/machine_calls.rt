//! The calls of a machine, and what a machine answers after want of memory.
use crate::promise::{Ended, answered, is_spent};
use acpi_machine::{Machine, Mode};
use aml_path::Path;
use ar_space::{Result, Sparse};
use std::alloc::Global;

/// An object that every machine of these calls has.
const OBJECT: &[u8] = b"\\_SB_.LNKA._PRS";

/// Whether each call that changes the machine is refused as spent, or none of them is.
fn is_promised(alloc: Global, machine: &mut Machine<Sparse>, path: &Path) -> bool {
    let evaluated = machine.evaluate_object(alloc, path, Vec::new(alloc));
    let initialized = machine.initialize(alloc, Mode::Apic);
    let texts = machine.set_osi(Vec::new(alloc));
    let spent = is_spent(&evaluated);
    is_spent(&initialized) == spent && is_spent(&texts) == spent && evaluated.is_ok() != spent
}

/// What a call comes to that was refused for want of memory: the machine is spent then, where the call is one of its
/// own.
fn after_want(
    alloc: Global,
    machine: &mut Machine<Sparse>,
    own: bool,
    call: &'static str,
) -> Ended {
    let Ok(path) = Path::from_text(alloc, OBJECT) else {
        return Ended::Broken("Path::from_text");
    };
    let spent = is_spent(&machine.evaluate_object(alloc, &path, Vec::new(alloc)));
    if (spent || !own) && is_promised(alloc, machine, &path) {
        Ended::OutOfMemory
    } else {
        Ended::Broken(call)
    }
}

/// The value of a call of the machine, and what is promised where memory ran out in it.
pub(crate) fn of_machine<T: Drop>(
    alloc: Global,
    machine: &mut Machine<Sparse>,
    call: &'static str,
    came: Result<T>,
) -> Result<T, Ended> {
    match answered(call, came) {
        Err(Ended::OutOfMemory) => Err(after_want(alloc, machine, true, call)),
        other => other,
    }
}

/// The value of a call of a library above the machine, which may want memory of its own, and what is promised where
/// memory ran out in it.
pub(crate) fn over_machine<T: Drop>(
    alloc: Global,
    machine: &mut Machine<Sparse>,
    call: &'static str,
    came: Result<T>,
) -> Result<T, Ended> {
    match answered(call, came) {
        Err(Ended::OutOfMemory) => Err(after_want(alloc, machine, false, call)),
        other => other,
    }
}

/// Every call of a machine, once.
pub(crate) fn call_machine(alloc: Global, machine: &mut Machine<Sparse>) -> Result<(), Ended> {
    let path = answered("Path::from_text", Path::from_text(alloc, OBJECT))?;
    let result = machine.initialize(alloc, Mode::Apic);
    of_machine(alloc, machine, "initialize", result)?;
    let result = machine.evaluate_object(alloc, &path, Vec::new(alloc));
    of_machine(alloc, machine, "evaluate_object", result)?;
    let result = machine.set_osi(Vec::new(alloc));
    of_machine(alloc, machine, "set_osi", result)?;
    answered("walk_namespace", machine.walk_namespace(alloc))?;
    if machine.find_node(&path).is_none() {
        return Err(Ended::Broken("find_node"));
    }
    if machine.get_table(*b"DSDT", 1).is_none() {
        return Err(Ended::Broken("get_table"));
    }
    if machine.madt().is_some() || machine.sci().is_none() || machine.mode() != Mode::Apic {
        return Err(Ended::Broken("madt, sci or mode"));
    }
    Ok(())
}
