//! A chipset as a register space of its own: the routing registers of a PCI interrupt router.
ghost use Rattle.std.specs.Prelude.{◌≡◌};
ghost use Rattle.chipset_example.specs.Routing.{line_of, register_at, value_of, with_value};

use ar_space::{Place, Space, SpaceFault, Width};

/// A pin of the interrupt router, A to D.
#[derive(Clone, Copy, Debug, PartialEq, Eq)]
pub enum RouterPin {
    A,
    B,
    C,
    D,
}

/// An interrupt router: function 0 of device 1 on bus 0 has a register of one byte for each pin, from 60 to 63.
/// Nothing else answers.
#[derive(Drop)]
pub struct Chipset {
    a: u8,
    b: u8,
    c: u8,
    d: u8,
}

impl Chipset {
    /// A router as it is after a reset: no pin is routed.
    pub fn new() -> Chipset
        ensures { result ≡ record { a = 0x80; b = 0x80; c = 0x80; d = 0x80 } }
    {
        Chipset {
            a: 0x80,
            b: 0x80,
            c: 0x80,
            d: 0x80,
        }
    }

    fn value(&self, pin: RouterPin) -> u8
        ensures { result ≡ value_of self.now pin }
    {
        match pin {
            RouterPin::A => self.a,
            RouterPin::B => self.b,
            RouterPin::C => self.c,
            RouterPin::D => self.d,
        }
    }

    fn set(&mut self, pin: RouterPin, value: u8)
        ensures { self.new ≡ with_value self.old pin value }
    {
        match pin {
            RouterPin::A => self.a = value,
            RouterPin::B => self.b = value,
            RouterPin::C => self.c = value,
            RouterPin::D => self.d = value,
        }
    }
}

fn pin_of(register: u16) -> Option<RouterPin>
    ensures { result ≡ line_of register }
{
    match register {
        0x60 => Some(RouterPin::A),
        0x61 => Some(RouterPin::B),
        0x62 => Some(RouterPin::C),
        0x63 => Some(RouterPin::D),
        _ => None,
    }
}

/// The pin whose register an access of this width meets.
fn register_at(place: Place, width: Width) -> Option<RouterPin>
    ensures { result ≡ register_at place width }
{
    match (place, width) {
        (
            Place::Pci {
                seg: 0,
                bus: 0,
                dev: 1,
                func: 0,
                reg,
            },
            Width::W8,
        ) => pin_of(reg),
        _ => None,
    }
}

impl Space for Chipset {
    ghost use Rattle.chipset_example.specs.Routing.{routed};

    ghost accesses = { routed };

    fn read(&mut self, place: Place, width: Width) -> Result<u64, SpaceFault> {
        match register_at(place, width) {
            Some(pin) => Ok(u64::from(self.value(pin))),
            None => Err(SpaceFault::NoRegister),
        }
    }

    fn write(&mut self, place: Place, width: Width, value: u64) -> Result<(), SpaceFault> {
        match register_at(place, width) {
            Some(pin) => {
                self.set(pin, (value % 256) as u8);
                Ok(())
            }
            None => Err(SpaceFault::NoRegister),
        }
    }
}
