//! What a mode says.
ghost use Rattle.std.specs.Prelude.{◌≡◌};
ghost use Rattle.acpi_machine.specs.Calls.{mode_number};
ghost use Rattle.acpi_machine.specs.MachineStates.{is_apic};

use ar_tables::Mode;

/// The argument of `\_PIC` that stands for a mode: 0 or 1.
pub fn mode_number(mode: Mode) -> u64
    ensures { result ≡ mode_number mode }
{
    match mode {
        Mode::Pic => 0,
        Mode::Apic => 1,
    }
}

/// Whether I/O APICs are used.
pub(crate) fn is_apic(mode: Mode) -> bool
    ensures { result ≡ is_apic mode }
{
    match mode {
        Mode::Pic => false,
        Mode::Apic => true,
    }
}
