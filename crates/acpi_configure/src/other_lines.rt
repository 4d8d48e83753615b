//! The lines of the devices that are no links, and the interrupts that no link is given for them.
ghost use Rattle.std.specs.Prelude.{◌≡◌, ◌<◌, ◌++◌, IfOk, Ok, true, length};
ghost use Rattle.std.specs.List.{filter_map};
ghost use Rattle.ar_space.specs.Outcome.{Answers, seen};
ghost use Rattle.route_report.specs.Reports.{after_state};
ghost use Rattle.acpi_configure.specs.Others.{numbers_at, numbers_in, barred_if, spared_device, spared_line};
ghost use Rattle.acpi_configure.specs.Others.{unread_line, rule_if, all_options, options_if};

use crate::others::AskedDevice;
use acpi_links::set_of;
use aml_path::Path;
use ar_space::Result;
use route_report::{After, OptionLines, Rule, SparedLine, UnreadLine};
use std::alloc::{AllocError, Global};

/// The interrupts that a device has.
fn numbers_at(state: &After) -> &[u32]
    ensures { result.now ≡ numbers_at (after_state state.now) }
{
    match state {
        After::Now(Some(numbers)) => numbers,
        _ => &[],
    }
}

/// Some interrupts, and those of all devices that were asked.
fn with_numbers(alloc: Global, avoid: &[u32], asked: &[AskedDevice]) -> Result<Vec<u32>, AllocError>
    ensures { IfOk result (λ list. list.items ≡ avoid.now ++ numbers_in asked.now) }
{
    let mut list = Vec::from_slice(alloc, avoid)?;
    for line in asked {
        list.extend_from_slice(numbers_at(&line.state))?;
    }
    Ok(list)
}

/// The interrupts that no link is given, ascending and each once: those to avoid, and those of the devices that were
/// asked.
pub(crate) fn barred(
    alloc: Global,
    avoid: &[u32],
    asked: &[AskedDevice],
) -> Result<Vec<u32>, AllocError>
    ensures { IfOk result (λ list. list.items ≡ barred_if true avoid.now asked.now) }
{
    let list = with_numbers(alloc, avoid, asked)?;
    set_of(alloc, &list)
}

/// The line of a device that has interrupts.
fn spared_line(alloc: Global, line: &AskedDevice) -> Result<Option<SparedLine>>
    ensures { Answers result (Ok (spared_line line.now)) }
{
    let numbers = numbers_at(&line.state);
    if numbers.is_empty() {
        Ok(None)
    } else {
        spared_device(alloc, &line.path, numbers)
    }
}

fn spared_device(alloc: Global, device: &Path, numbers: &[u32]) -> Result<Option<SparedLine>>
    requires { 0 < length numbers.now }
    ensures { Answers result (Ok (spared_device device.now numbers.now)) }
{
    let device = device.copy(alloc)?;
    let interrupts = Vec::from_slice(alloc, numbers)?;
    Ok(Some(SparedLine { device, interrupts }))
}

/// The lines of the devices that have interrupts.
fn spared_lines(alloc: Global, asked: &[AskedDevice]) -> Result<Vec<SparedLine>>
    ensures { Answers (seen (λ list. list.items) result) (Ok (filter_map spared_line asked.now)) }
{
    let mut list = Vec::new(alloc);
    for line in asked {
        if let Some(spared) = spared_line(alloc, line)? {
            list.push(spared)?;
        }
    }
    Ok(list)
}

/// The line of a device that refused.
fn unread_line(alloc: Global, line: &AskedDevice) -> Result<Option<UnreadLine>>
    ensures { Answers result (Ok (unread_line line.now)) }
{
    match &line.state {
        After::Now(_) => Ok(None),
        After::Refused(refusal) => Ok(Some(UnreadLine {
            device: line.path.copy(alloc)?,
            refusal: *refusal,
        })),
    }
}

/// The lines of the devices that refused.
fn unread_lines(alloc: Global, asked: &[AskedDevice]) -> Result<Vec<UnreadLine>>
    ensures { Answers (seen (λ list. list.items) result) (Ok (filter_map unread_line asked.now)) }
{
    let mut list = Vec::new(alloc);
    for line in asked {
        if let Some(unread) = unread_line(alloc, line)? {
            list.push(unread)?;
        }
    }
    Ok(list)
}

fn rule_if(spread: bool) -> Rule
    ensures { result ≡ rule_if spread }
{
    match spread {
        true => Rule::Spread,
        false => Rule::First,
    }
}

fn all_options(alloc: Global, spread: bool, asked: &[AskedDevice]) -> Result<OptionLines>
    ensures { Answers result (Ok (all_options spread asked.now)) }
{
    let spared = spared_lines(alloc, asked)?;
    let unread = unread_lines(alloc, asked)?;
    Ok(OptionLines {
        spared,
        unread,
        rule: rule_if(spread),
        triggers: Vec::new(alloc),
        buses: Vec::new(alloc),
    })
}

/// The lines that options add, none without an option.
pub(crate) fn option_lines(
    alloc: Global,
    spare: bool,
    spread: bool,
    asked: &[AskedDevice],
) -> Result<Option<OptionLines>>
    ensures { Answers result (Ok (options_if spare spread asked.now)) }
{
    if spare || spread {
        Ok(Some(all_options(alloc, spread, asked)?))
    } else {
        Ok(None)
    }
}
