//! What a link device may be set to.
ghost use Rattle.std.specs.Prelude.{◌≡◌, ◌↔◌, IsTrue, Contains};
ghost use Rattle.acpi_resources.specs.Records.{interrupt_offer};
ghost use Rattle.acpi_resources.specs.Sound.{IsOffer};

use crate::form::{Form, Polarity};
use crate::interrupt_numbers::InterruptNumbers;
use std::marker::Model;

/// The interrupts that a link device may be set to, by its _PRS: level-triggered, at least one and at most 255. Only
/// `possible` and `possible_as` make an offer; those of `possible` say that the interrupts are shared.
#[derive(Drop, Debug)]
pub struct Offer {
    numbers: Vec<u32>,
    form: Form,
    flags: u8,
}

impl Model for Offer {
    ghost use Rattle.acpi_resources.specs.Records.{InterruptOffer, interrupt_offer};
    ghost use Rattle.acpi_resources.specs.Sound.{IsOffer};

    ghost Value = { InterruptOffer };

    ghost view = { λ o. interrupt_offer o.numbers.items o.form o.flags };

    ghost invariant = { λ o. IsOffer (interrupt_offer o.numbers.items o.form o.flags) };
}

impl Offer {
    pub(crate) fn new(numbers: InterruptNumbers, form: Form, flags: u8) -> Offer
        requires { IsOffer (interrupt_offer numbers form flags) }
        ensures { result ≡ interrupt_offer numbers form flags }
    {
        Offer {
            numbers: numbers.into_vec(),
            form,
            flags,
        }
    }

    /// The numbers of the interrupts, ascending.
    pub fn numbers(&self) -> &[u32]
        ensures value { result.now ≡ self.now.numbers }
        ensures sound { IsOffer self.now }
    {
        &self.numbers
    }

    /// Whether an interrupt is offered.
    pub fn contains(&self, n: u32) -> bool
        ensures { IsTrue result ↔ Contains self.now.numbers n }
    {
        self.numbers().contains(&n)
    }

    /// Which descriptor offers the interrupts.
    pub fn form(&self) -> Form
        ensures value { result ≡ self.now.form }
        ensures sound { IsOffer self.now }
    {
        self.form
    }

    /// At which level the interrupts are signaled.
    pub fn polarity(&self) -> Polarity
        ensures value { result ≡ self.now.polarity }
        ensures sound { IsOffer self.now }
    {
        if self.form.is_low(self.flags) {
            Polarity::Low
        } else {
            Polarity::High
        }
    }

    /// The descriptor's byte of flags, with all its bits.
    pub fn flags(&self) -> u8
        ensures value { result ≡ self.now.flags }
        ensures sound { IsOffer self.now }
    {
        self.flags
    }
}
