//! The two forms of an interrupt descriptor, and what their flag bytes say.
ghost use Rattle.std.specs.Prelude.{◌≡◌, if◌then◌else◌};
ghost use Rattle.acpi_resources.specs.declared.form.Polarity.TheVariants.{Low, High};
ghost use Rattle.acpi_resources.specs.FlagByte.{is_edge, is_shared, polarity_of};

use crate::flags::{ExtendedInterruptFlags, IrqFlags};
use bitflags::Flags;

/// Which descriptor names the interrupts.
#[derive(Clone, Copy, Debug, PartialEq, Eq)]
pub enum Form {
    /// The small IRQ descriptor, with a mask of the interrupts 0 to 15 (ACPI 6.5, 6.4.2.1).
    Small,
    /// The large Extended Interrupt descriptor, with a table of interrupts (ACPI 6.5, 6.4.3.6).
    Extended,
}

/// At which level an interrupt is signaled.
#[derive(Clone, Copy, Debug, PartialEq, Eq)]
pub enum Polarity {
    Low,
    High,
}

impl Form {
    /// Whether a byte of flags says edge-triggered.
    pub(crate) fn is_edge(self, flags: u8) -> bool
        ensures { result ≡ is_edge self flags }
    {
        match self {
            Form::Small => IrqFlags::from_bits_retain(flags).contains(IrqFlags::EDGE),
            Form::Extended => ExtendedInterruptFlags::from_bits_retain(flags).contains(
                ExtendedInterruptFlags::EDGE,
            ),
        }
    }

    /// Whether a byte of flags says shared.
    pub(crate) fn is_shared(self, flags: u8) -> bool
        ensures { result ≡ is_shared self flags }
    {
        match self {
            Form::Small => IrqFlags::from_bits_retain(flags).contains(IrqFlags::SHARED),
            Form::Extended => ExtendedInterruptFlags::from_bits_retain(flags).contains(
                ExtendedInterruptFlags::SHARED,
            ),
        }
    }

    /// Whether a byte of flags says active low.
    pub(crate) fn is_low(self, flags: u8) -> bool
        ensures { polarity_of self flags ≡ (if result then Low else High) }
    {
        match self {
            Form::Small => IrqFlags::from_bits_retain(flags).contains(IrqFlags::ACTIVE_LOW),
            Form::Extended => ExtendedInterruptFlags::from_bits_retain(flags).contains(
                ExtendedInterruptFlags::ACTIVE_LOW,
            ),
        }
    }
}
