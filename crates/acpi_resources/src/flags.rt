//! The flag bytes of the interrupt descriptors (ACPI 6.5, 6.4.2.1 and 6.4.3.6).
ghost use Rattle.std.specs.Prelude.{⊤, [], ◌∷◌, codes};

use bitflags::{Flag, Flags, bitflag_items};

/// The flags of an IRQ descriptor (ACPI 6.5, 6.4.2.1, byte 3).
#[derive(Clone, Copy, PartialEq, Eq, Debug)]
pub(crate) struct IrqFlags(u8);

bitflag_items! {
    impl IrqFlags: u8 {
        const EDGE = 0x01;
        const ACTIVE_LOW = 0x08;
        const SHARED = 0x10;
    }
}

impl Flags for IrqFlags {
    type Bits = u8;

    ghost exact = { ⊤ };

    ghost table = { (codes "EDGE", 0x01) ∷ (codes "ACTIVE_LOW", 0x08) ∷ (codes "SHARED", 0x10) ∷ [] };

    ghost set_of = { λ f. f.0 };

    fn flags<'a>() -> &'a [Flag<IrqFlags>] {
        IrqFlags::FLAGS
    }

    fn bits(&self) -> u8 {
        self.0
    }

    fn from_bits_retain(bits: u8) -> IrqFlags {
        IrqFlags(bits)
    }
}

/// The flags of an Extended Interrupt descriptor (ACPI 6.5, 6.4.3.6, byte 3).
#[derive(Clone, Copy, PartialEq, Eq, Debug)]
pub(crate) struct ExtendedInterruptFlags(u8);

bitflag_items! {
    impl ExtendedInterruptFlags: u8 {
        const EDGE = 0x02;
        const ACTIVE_LOW = 0x04;
        const SHARED = 0x08;
    }
}

impl Flags for ExtendedInterruptFlags {
    type Bits = u8;

    ghost exact = { ⊤ };

    ghost table = { (codes "EDGE", 0x02) ∷ (codes "ACTIVE_LOW", 0x04) ∷ (codes "SHARED", 0x08) ∷ [] };

    ghost set_of = { λ f. f.0 };

    fn flags<'a>() -> &'a [Flag<ExtendedInterruptFlags>] {
        ExtendedInterruptFlags::FLAGS
    }

    fn bits(&self) -> u8 {
        self.0
    }

    fn from_bits_retain(bits: u8) -> ExtendedInterruptFlags {
        ExtendedInterruptFlags(bits)
    }
}
