//! Operation regions, and the places of the units in them (ACPI 6.5, 5.5.2.4).
ghost use Rattle.std.specs.Prelude.{◌≡◌};
ghost use Rattle.ar_space.specs.Outcome.{AnswersInPlace};
ghost use Rattle.aml_fields.specs.Regions.{place_in, unit_place};

use ar_space::{FieldFault, Place, Refusal, Result, Width};

/// An address space whose registers can be accessed.
#[derive(Clone, Copy, Debug, PartialEq, Eq)]
pub enum AddressSpace {
    /// SystemMemory, by physical addresses.
    Memory,
    /// SystemIO, by ports.
    Io,
    /// PCI_Config of one function, by registers.
    Pci {
        seg: u16,
        bus: u8,
        dev: u8,
        func: u8,
    },
}

/// An operation region: where it begins in its address space, and how many bytes it has.
#[derive(Clone, Copy, Debug, PartialEq, Eq)]
pub struct Region {
    pub space: AddressSpace,
    /// The address, port or register of its first byte.
    pub offset: u64,
    /// In bytes.
    pub length: u64,
}

impl AddressSpace {
    /// The place with a number, if the address space has it.
    fn place(self, number: u128) -> Option<Place>
        ensures { result ≡ place_in self number }
    {
        match self {
            AddressSpace::Memory => Some(Place::Memory(u64::try_from(number).ok()?)),
            AddressSpace::Io => Some(Place::Io(u16::try_from(number).ok()?)),
            AddressSpace::Pci {
                seg,
                bus,
                dev,
                func,
            } => {
                if number >= REGISTERS {
                    return None;
                }
                let reg = number as u16;
                Some(Place::Pci {
                    seg,
                    bus,
                    dev,
                    func,
                    reg,
                })
            }
        }
    }
}

/// How many registers a PCI function has.
const REGISTERS: u128 = 4096;

impl Region {
    /// The place of a unit, by its offset from the region's start.
    ///
    /// A unit that isn't wholly within the region, or begins where the address space has no place, is refused as
    /// `RegionLimit`.
    #[tactic(auto, unfolding(crate::specs::Regions::unit_place))]
    pub fn place(self, width: Width, offset: u64) -> Result<Place>
        ensures { AnswersInPlace result (unit_place self width offset) }
    {
        if u128::from(offset) + u128::from(width.bytes()) > u128::from(self.length) {
            return Err(Refusal::Field(FieldFault::RegionLimit));
        }
        match self
            .space
            .place(u128::from(self.offset) + u128::from(offset))
        {
            None => Err(Refusal::Field(FieldFault::RegionLimit)),
            Some(place) => Ok(place),
        }
    }
}
