//! Resource descriptors (ACPI 6.5, 6.4): what an item means.
ghost use Rattle.std.specs.Prelude.{◌≡◌, ◌≤◌, length};
ghost use Rattle.acpi_resources.specs.Descriptors.{descriptor_of, extended_interrupt_descriptor, irq_descriptor};

use crate::flags::IrqFlags;
use crate::interrupts::{Interrupts, Listed, NUMBER_BYTES};
use crate::item::Item;
use ar_space::{Refusal, ResourceFault, Result};
use bitflags::Flags;
use byteorder::{ByteOrder, LittleEndian};

// First bytes of items. That of a small item has its name in bits 6 to 3 and its length in bits 2 to 0.

/// IRQ, of two bytes: without flags (ACPI 6.5, 6.4.2.1).
const IRQ_WITHOUT_FLAGS: u8 = 0x22;
/// IRQ, of three bytes (ACPI 6.5, 6.4.2.1).
pub(crate) const IRQ: u8 = 0x23;
/// Start of dependent functions (ACPI 6.5, 6.4.2.3).
const START_DEPENDENT: u8 = 0x30;
/// Start of dependent functions, with a byte of priority (ACPI 6.5, 6.4.2.3).
const START_DEPENDENT_WITH_PRIORITY: u8 = 0x31;
/// End of dependent functions (ACPI 6.5, 6.4.2.4).
const END_DEPENDENT: u8 = 0x38;
/// End tag, with a byte that may be a checksum (ACPI 6.5, 6.4.2.9).
pub(crate) const END_TAG: u8 = 0x79;
/// Extended Interrupt (ACPI 6.5, 6.4.3.6).
pub(crate) const EXTENDED_INTERRUPT: u8 = 0x89;

/// What an item means.
#[derive(Drop)]
pub(crate) enum Descriptor<'a> {
    Interrupts(Interrupts<'a>),
    DependentFunctions,
    EndTag,
    /// Another descriptor, by its first byte.
    Other(u8),
}

impl<'a> Descriptor<'a> {
    /// What an item means. It refuses `ResourceFault::Descriptor` where an Extended Interrupt descriptor is too short
    /// for its own count.
    #[tactic(auto, unfolding(crate::specs::Descriptors::descriptor_of))]
    pub(crate) fn of(item: &Item<'a>) -> Result<Descriptor<'a>>
        ensures { result ≡ descriptor_of item.now }
    {
        let body = item.body;
        match item.tag {
            IRQ_WITHOUT_FLAGS => Ok(Descriptor::Interrupts(irq(body, IrqFlags::EDGE.bits()))),
            IRQ => Ok(Descriptor::Interrupts(irq(body, body[2]))),
            EXTENDED_INTERRUPT => extended_interrupt(body),
            END_TAG => Ok(Descriptor::EndTag),
            START_DEPENDENT | START_DEPENDENT_WITH_PRIORITY | END_DEPENDENT => {
                Ok(Descriptor::DependentFunctions)
            }
            tag => Ok(Descriptor::Other(tag)),
        }
    }
}

/// An IRQ descriptor with these flags (ACPI 6.5, 6.4.2.1).
fn irq(body: &[u8], flags: u8) -> Interrupts<'_>
    requires { 2 ≤ length body.now }
    ensures { result ≡ irq_descriptor body.now flags }
{
    Interrupts {
        flags,
        listed: Listed::Mask(LittleEndian::read_u16(body)),
        has_source: false,
    }
}

/// An Extended Interrupt descriptor (ACPI 6.5, 6.4.3.6): flags, a count, so many numbers, and the resource source.
#[tactic(auto, unfolding(crate::specs::Descriptors::extended_interrupt_descriptor))]
fn extended_interrupt(body: &[u8]) -> Result<Descriptor<'_>>
    ensures { result ≡ extended_interrupt_descriptor body.now }
{
    let [flags, count, bytes @ ..] = body else {
        return Err(Refusal::Resource(ResourceFault::Descriptor(EXTENDED_INTERRUPT)));
    };
    let size = NUMBER_BYTES * usize::from(*count);
    if size > bytes.len() {
        return Err(Refusal::Resource(ResourceFault::Descriptor(EXTENDED_INTERRUPT)));
    }
    Ok(Descriptor::Interrupts(Interrupts {
        flags: *flags,
        listed: Listed::Table(&bytes[..size]),
        has_source: size < bytes.len(),
    }))
}
