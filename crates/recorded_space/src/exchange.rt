//! One access with its answer.
ghost use Rattle.std.specs.Prelude.{◌≡◌, ◌^◌, nat_lt};
ghost use Rattle.ar_space.specs.Accesses.{bit_count};
ghost use Rattle.recorded_space.specs.Exchanges.{access_of, read_answer, write_answer, is_same_place, is_same_width};
ghost use Rattle.recorded_space.specs.Exchanges.{kept};

use ar_space::{Place, SpaceFault, Width};
use space_trace::Access;

/// An access to a register space, and what the space answered.
#[derive(Clone, Copy, Debug, PartialEq, Eq)]
pub enum Exchange {
    /// A read, with the value that was read.
    Read(Place, Width, Result<u64, SpaceFault>),
    /// A write of a value.
    Write(Place, Width, u64, Result<(), SpaceFault>),
}

impl Exchange {
    /// The access alone.
    pub fn access(&self) -> Access
        ensures { result ≡ access_of self.now }
    {
        match *self {
            Exchange::Read(place, width, _) => Access::Read(place, width),
            Exchange::Write(place, width, value, _) => Access::Write(place, width, value),
        }
    }

    /// What it says of this read: nothing where it is another access, or where its value does not fit the width.
    pub(crate) fn read_answer(self, place: Place, width: Width) -> Option<Result<u64, SpaceFault>>
        ensures { result ≡ read_answer place width self }
    {
        match self {
            Exchange::Read(at, wide, answer) => {
                if is_same_place(at, place) && is_same_width(wide, width) {
                    kept(width, answer)
                } else {
                    None
                }
            }
            Exchange::Write(_, _, _, _) => None,
        }
    }

    /// What it says of this write: nothing where it is another access.
    pub(crate) fn write_answer(
        self,
        place: Place,
        width: Width,
        value: u64,
    ) -> Option<Result<(), SpaceFault>>
        ensures { result ≡ write_answer place width value self }
    {
        match self {
            Exchange::Read(_, _, _) => None,
            Exchange::Write(at, wide, written, answer) => {
                if is_same_place(at, place) && is_same_width(wide, width) && written == value {
                    Some(answer)
                } else {
                    None
                }
            }
        }
    }
}

/// An answer whose value fits the width; nothing where it doesn't.
pub fn kept(width: Width, answer: Result<u64, SpaceFault>) -> Option<Result<u64, SpaceFault>>
    ensures { result ≡ kept width answer }
{
    match answer {
        Ok(value) => {
            if fits(width, value) {
                Some(Ok(value))
            } else {
                None
            }
        }
        Err(fault) => Some(Err(fault)),
    }
}

fn fits(width: Width, value: u64) -> bool
    ensures { result ≡ nat_lt value (2 ^ bit_count width) }
{
    match width {
        Width::W8 => value < 0x100,
        Width::W16 => value < 0x1_0000,
        Width::W32 => value < 0x1_0000_0000,
        Width::W64 => true,
    }
}

fn is_same_width(one: Width, other: Width) -> bool
    ensures { result ≡ is_same_width one other }
{
    one.bits() == other.bits()
}

fn is_same_place(one: Place, other: Place) -> bool
    ensures { result ≡ is_same_place one other }
{
    match (one, other) {
        (Place::Memory(address), Place::Memory(other)) => address == other,
        (Place::Io(port), Place::Io(other)) => port == other,
        (
            Place::Pci {
                seg,
                bus,
                dev,
                func,
                reg,
            },
            Place::Pci {
                seg: other_seg,
                bus: other_bus,
                dev: other_dev,
                func: other_func,
                reg: other_reg,
            },
        ) => {
            seg == other_seg
                && bus == other_bus
                && dev == other_dev
                && func == other_func
                && reg == other_reg
        }
        _ => false,
    }
}
