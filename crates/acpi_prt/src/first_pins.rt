//! The pins of a routing table that count: the first of each device number and pin.
ghost use Rattle.std.specs.Prelude.{◌≡◌, [], Ok};
ghost use Rattle.ar_space.specs.Outcome.{Answers};
ghost use Rattle.acpi_prt.specs.FirstPins.{place_of};
ghost use Rattle.acpi_prt.specs.Pins.{taken, taken_new};

use crate::pin::Pin;
use ar_space::Result;
use std::alloc::Global;
use std::collections::BTreeSet;
use std::marker::Model;

/// A device number and a pin of the device.
#[derive(Clone, Copy, Debug, PartialEq, Eq, PartialOrd, Ord)]
pub(crate) struct PinPlace {
    number: u16,
    pin: u8,
}

/// The first pin of each device number and pin, in the order in which they came. A pin's place is found by halving,
/// so that a long routing table takes no long time.
#[derive(Drop)]
pub(crate) struct FirstPins {
    pins: Vec<Pin>,
    places: BTreeSet<PinPlace>,
}

impl Model for FirstPins {
    ghost use Rattle.std.specs.Prelude.{List};
    ghost use Rattle.acpi_prt.specs.declared.pin.Pin.{Pin};
    ghost use Rattle.acpi_prt.specs.FirstPins.{HasPlaces};

    ghost Value = { List Pin };

    ghost view = { λ first. first.pins.items };

    ghost invariant = { λ first. HasPlaces first.pins.items first.places };
}

fn place_of(pin: &Pin) -> PinPlace
    ensures { result ≡ place_of pin.now }
{
    PinPlace {
        number: pin.number,
        pin: pin.pin,
    }
}

impl FirstPins {
    /// No pin. It takes no memory.
    pub(crate) fn new(alloc: Global) -> FirstPins
        ensures { result ≡ [] }
    {
        FirstPins {
            pins: Vec::new(alloc),
            places: BTreeSet::new(alloc),
        }
    }

    /// A pin more, unless it is none, or one of the same device number and pin stands already.
    pub(crate) fn take(self, pin: Option<Pin>) -> Result<FirstPins>
        ensures { Answers result (Ok (taken self pin)) }
    {
        match pin {
            None => Ok(self),
            Some(pin) => self.take_new(pin),
        }
    }

    fn take_new(self, pin: Pin) -> Result<FirstPins>
        ensures { Answers result (Ok (taken_new self pin)) }
    {
        let FirstPins {
            mut pins,
            mut places,
        } = self;
        if !places.insert(place_of(&pin))? {
            return Ok(FirstPins { pins, places });
        }
        pins.push(pin)?;
        Ok(FirstPins { pins, places })
    }

    /// The pins.
    pub(crate) fn into_pins(self) -> Vec<Pin>
        ensures { result.items ≡ self }
    {
        self.pins
    }
}
