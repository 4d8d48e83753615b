//! How interrupts are triggered (ACPI 6.5, 5.2.9, 5.2.12.5 and 6.2.13).
ghost use Rattle.std.specs.Prelude.{◌≡◌, Ok, IfOk, IfErr, map};
ghost use Rattle.ar_space.specs.declared.refusal.Refusal.TheVariants.{OutOfMemory};
ghost use Rattle.ar_space.specs.Outcome.{Answers, seen};
ghost use Rattle.acpi_configure.specs.Triggers.{polarity_by, trigger_by, triggered_by, flags_to, flags_of};
ghost use Rattle.acpi_configure.specs.Triggers.{overrides_used, link_trigger, wired_trigger, sci_trigger};
ghost use Rattle.acpi_configure.specs.Triggers.{triggers_with, triggers_of};

use acpi_resources::Polarity;
use ar_space::Result;
use ar_tables::Mode;
use route_report::{InterruptSource, LinkLine, OverrideLine, Report, Trigger, TriggerLine};
use std::alloc::{AllocError, Global};

/// The polarity that the flags of an override say.
fn polarity_by(flags: u16) -> Polarity
    ensures { result ≡ polarity_by flags }
{
    if flags % 4 == 1 {
        Polarity::High
    } else {
        Polarity::Low
    }
}

/// The trigger mode that they say.
fn trigger_by(flags: u16) -> Trigger
    ensures { result ≡ trigger_by flags }
{
    if flags / 4 % 4 == 1 {
        Trigger::Edge
    } else {
        Trigger::Level
    }
}

/// How an interrupt is triggered by such flags.
fn triggered_by(flags: u16, source: InterruptSource) -> TriggerLine
    ensures { result ≡ triggered_by flags source }
{
    TriggerLine {
        source,
        trigger: trigger_by(flags),
        polarity: polarity_by(flags),
    }
}

/// The flags of the first override to a global system interrupt; 0 where there is none.
fn flags_to(gsi: u32, overrides: &[OverrideLine]) -> u16
    ensures { result ≡ flags_to gsi overrides.now }
{
    for line in overrides {
        if line.gsi == gsi {
            return line.flags;
        }
    }
    0
}

/// The flags of the first override of a source; 0 where there is none.
fn flags_of(source: u32, overrides: &[OverrideLine]) -> u16
    ensures { result ≡ flags_of source overrides.now }
{
    for line in overrides {
        if u32::from(line.source) == source {
            return line.flags;
        }
    }
    0
}

/// The overrides that count: none where 8259 controllers are used.
fn overrides_used(mode: Mode, overrides: &[OverrideLine]) -> &[OverrideLine]
    ensures { result.now ≡ overrides_used mode overrides.now }
{
    match mode {
        Mode::Apic => overrides,
        Mode::Pic => &[],
    }
}

fn link_trigger(alloc: Global, link: &LinkLine) -> Result<TriggerLine>
    ensures value { Answers result (Ok (link_trigger link.entry.now)) }
    ensures memory { IfErr result (λ refusal. refusal ≡ OutOfMemory) }
{
    Ok(TriggerLine {
        source: InterruptSource::Link(link.path.copy(alloc)?),
        trigger: Trigger::Level,
        polarity: link.polarity,
    })
}

/// How those of links are triggered.
fn link_triggers(alloc: Global, links: &[LinkLine]) -> Result<Vec<TriggerLine>>
    ensures value { Answers (seen (λ list. list.items) result) (Ok (map link_trigger links.now)) }
    ensures memory { IfErr result (λ refusal. refusal ≡ OutOfMemory) }
{
    let mut list = Vec::new(alloc);
    for link in links {
        let line = link_trigger(alloc, link)?;
        list.push(line)?;
    }
    Ok(list)
}

fn wired_trigger(overrides: &[OverrideLine], interrupt: u32, count: u32) -> TriggerLine
    ensures { result ≡ wired_trigger overrides.now (interrupt, count) }
{
    triggered_by(
        flags_to(interrupt, overrides),
        InterruptSource::Wired(interrupt),
    )
}

/// How those of wired pins are triggered.
fn wired_triggers(
    alloc: Global,
    overrides: &[OverrideLine],
    wired: &[(u32, u32)],
) -> Result<Vec<TriggerLine>, AllocError>
    ensures { IfOk result (λ list. list.items ≡ map (wired_trigger overrides.now) wired.now) }
{
    let mut list = Vec::new(alloc);
    for (interrupt, count) in wired {
        list.push(wired_trigger(overrides, *interrupt, *count))?;
    }
    Ok(list)
}

/// How the System Control Interrupt is triggered, if there is one; its own source is the one before an override.
fn sci_trigger(
    alloc: Global,
    overrides: &[OverrideLine],
    own: u32,
    sci: Option<u32>,
) -> Result<Vec<TriggerLine>, AllocError>
    ensures { IfOk result (λ list. list.items ≡ sci_trigger overrides.now own sci) }
{
    let mut list = Vec::new(alloc);
    if let Some(interrupt) = sci {
        list.push(triggered_by(flags_of(own, overrides), InterruptSource::Sci(interrupt)))?;
    }
    Ok(list)
}

fn triggers_with(
    alloc: Global,
    overrides: &[OverrideLine],
    own: u32,
    report: &Report,
) -> Result<Vec<TriggerLine>>
    ensures value { Answers (seen (λ list. list.items) result) (Ok (triggers_with overrides.now own report.now)) }
    ensures memory { IfErr result (λ refusal. refusal ≡ OutOfMemory) }
{
    let mut list = link_triggers(alloc, &report.links)?;
    let mut wired = wired_triggers(alloc, overrides, &report.wired)?;
    let mut sci = sci_trigger(alloc, overrides, own, report.sci)?;
    wired.append(&mut sci)?;
    list.append(&mut wired)?;
    Ok(list)
}

/// How the interrupts of a report are triggered: those of links, of wired pins, and the System Control Interrupt,
/// whose own source is the one before an override.
#[tactic(auto, unfolding(crate::specs::Triggers::triggers_of))]
pub(crate) fn triggers_of(alloc: Global, own: u32, report: &Report) -> Result<Vec<TriggerLine>>
    ensures value { Answers (seen (λ list. list.items) result) (Ok (triggers_of own report.now)) }
    ensures memory { IfErr result (λ refusal. refusal ≡ OutOfMemory) }
{
    let overrides = overrides_used(report.mode, &report.overrides);
    triggers_with(alloc, overrides, own, report)
}
