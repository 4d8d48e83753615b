//! How a machine is configured, as C has it.
ghost use Rattle.std.specs.Prelude.{◌≡◌};
ghost use Rattle.acpiroute_c.specs.RecordCalls.{mode_of, flag_of, steps_of, settings_of};
ghost use Rattle.acpiroute_c.specs.RecordCalls.{calls_of, levels_of, nesting_of};

use acpi_machine::{EvaluationSettings, Mode, Nesting, Profile};
use recorded_route::Settings;

/// How a machine is configured.
#[repr(C)]
#[derive(Clone, Copy, Debug)]
pub struct CallSettings {
    /// The budget of steps for each table and each evaluation, from 1 to 1,000,000,000.
    pub steps: u64,
    /// 0 for the 8259 controllers, 1 for I/O APICs; 2 more in the wide profile.
    pub mode: u8,
    /// 1 where no link is to be set, and else 0.
    pub dry: u8,
    /// 1 where the report is to have the lines for a kernel, and else 0.
    pub kernel: u8,
    /// How deep calls may nest (control methods, `_OSI`, `_SEG`, `_BBN` and `_ADR`), from 1 to 32; 0 for 32.
    pub calls: u8,
    /// How deep terms may nest, from 1 to 64; 0 for 64.
    pub levels: u8,
}

/// The profile and the interrupt controllers.
fn mode_of(mode: u8) -> Option<(Profile, Mode)>
    ensures { result ≡ mode_of mode }
{
    match mode {
        0 => Some((Profile::Core, Mode::Pic)),
        1 => Some((Profile::Core, Mode::Apic)),
        2 => Some((Profile::Wide, Mode::Pic)),
        3 => Some((Profile::Wide, Mode::Apic)),
        _ => None,
    }
}

fn flag_of(flag: u8) -> Option<bool>
    ensures { result ≡ flag_of flag }
{
    match flag {
        0 => Some(false),
        1 => Some(true),
        _ => None,
    }
}

fn steps_of(steps: u64) -> Option<u64>
    ensures { result ≡ steps_of steps }
{
    if steps == 0 || steps > 1_000_000_000 {
        None
    } else {
        Some(steps)
    }
}

fn calls_of(calls: u8) -> Option<usize>
    ensures { result ≡ calls_of calls }
{
    if calls == 0 {
        Some(32)
    } else if calls > 32 {
        None
    } else {
        Some(usize::from(calls))
    }
}

fn levels_of(levels: u8) -> Option<usize>
    ensures { result ≡ levels_of levels }
{
    if levels == 0 {
        Some(64)
    } else if levels > 64 {
        None
    } else {
        Some(usize::from(levels))
    }
}

/// How deep calls and terms may be, where both numbers mean something.
fn nesting_of(calls: u8, levels: u8) -> Option<Nesting>
    ensures { result ≡ nesting_of calls levels }
{
    let calls = calls_of(calls)?;
    let levels = levels_of(levels)?;
    Some(Nesting { calls, levels })
}

/// The settings, where each of them means something.
pub(crate) fn settings_of(settings: &CallSettings) -> Option<Settings>
    ensures { result ≡ settings_of settings.now }
{
    let (profile, mode) = mode_of(settings.mode)?;
    let steps = steps_of(settings.steps)?;
    let dry = flag_of(settings.dry)?;
    let kernel = flag_of(settings.kernel)?;
    let nesting = nesting_of(settings.calls, settings.levels)?;
    Some(Settings {
        evaluation: EvaluationSettings { profile, nesting },
        mode,
        steps,
        dry,
        kernel,
    })
}
