//! What an interrupt descriptor says (ACPI 6.5, 6.4.2.1 and 6.4.3.6).
ghost use Rattle.std.specs.Prelude.{◌≡◌, ◌<◌, IfOk, OnOk};
ghost use Rattle.std.specs.List.Sorted.{IsStrictlyIncreasing};
ghost use Rattle.acpi_resources.specs.FlagByte.{has_bit};
ghost use Rattle.acpi_resources.specs.Numbers.{numbers_of_mask, numbers_of_table, set_of, with_numbers};

use crate::form::Form;
use crate::interrupt_numbers::InterruptNumbers;
use byteorder::{ByteOrder, LittleEndian};
use std::alloc::{AllocError, Global};
use std::collections::BTreeSet;
use std::marker::Model;

/// How many interrupts a mask has.
const MASK_BITS: u32 = 16;
/// How many bytes a number of a table has.
pub(crate) const NUMBER_BYTES: usize = 4;

/// The numbers that an interrupt descriptor lists.
#[derive(Clone, Copy)]
pub(crate) enum Listed<'a> {
    /// Bit n is interrupt n.
    Mask(u16),
    /// Numbers of 32 bits, the lowest byte first.
    Table(&'a [u8]),
}

/// An interrupt descriptor.
#[derive(Drop)]
pub(crate) struct Interrupts<'a> {
    pub(crate) flags: u8,
    pub(crate) listed: Listed<'a>,
    /// Whether a resource source follows the numbers: they are then those of another interrupt controller.
    pub(crate) has_source: bool,
}

impl<'a> Model for Interrupts<'a> {
    ghost use Rattle.acpi_resources.specs.Records.{InterruptDescriptor};
    ghost use Rattle.acpi_resources.specs.Listings.{interrupt_descriptor};
    ghost use Rattle.acpi_resources.specs.Sound.{IsInterruptDescriptor};

    ghost Value = { InterruptDescriptor };

    ghost view = { λ d. interrupt_descriptor d.flags d.listed d.has_source };

    ghost invariant = { λ d. IsInterruptDescriptor (interrupt_descriptor d.flags d.listed d.has_source) };
}

impl<'a> Listed<'a> {
    ghost use Rattle.acpi_resources.specs.Listings.{form_of, listed_numbers};

    /// The form of the descriptor.
    pub(crate) fn form(&self) -> Form
        ensures { result ≡ form_of self.now }
    {
        match self {
            Listed::Mask(_) => Form::Small,
            Listed::Table(_) => Form::Extended,
        }
    }

    /// The set of the numbers.
    pub(crate) fn set(&self, alloc: Global) -> Result<InterruptNumbers, AllocError>
        ensures value { IfOk result (λ s. s ≡ set_of (listed_numbers self.now)) }
        ensures ascending { IfOk result IsStrictlyIncreasing }
    {
        let mut numbers = BTreeSet::new(alloc);
        self.add_to(&mut numbers)?;
        InterruptNumbers::from_set(alloc, numbers)
    }

    /// Adds the numbers to a set.
    pub(crate) fn add_to(&self, numbers: &mut BTreeSet<u32>) -> Result<(), AllocError>
        ensures { OnOk result
            (numbers.new.keys ≡ with_numbers numbers.old.keys (listed_numbers self.now)) }
    {
        match self {
            Listed::Mask(mask) => add_mask(*mask, numbers),
            Listed::Table(table) => add_table(table, numbers),
        }
    }
}

/// Whether a mask has an interrupt.
fn is_in_mask(mask: u16, n: u32) -> bool
    requires { n < MASK_BITS }
    ensures { result ≡ has_bit mask n }
{
    let bit = 1u16 << n;
    mask & bit == bit
}

/// Adds the interrupts of a mask to a set.
#[tactic(auto, using(crate::proofs::Listed::mask_none, crate::proofs::Listed::mask_taken, crate::proofs::Listed::mask_passed, crate::proofs::Listed::mask_all))]
fn add_mask(mask: u16, numbers: &mut BTreeSet<u32>) -> Result<(), AllocError>
    ensures { OnOk result
        (numbers.new.keys ≡ with_numbers numbers.old.keys (numbers_of_mask mask)) }
{
    for n in 0..MASK_BITS {
        if is_in_mask(mask, n) {
            numbers.insert(n)?;
        }
    }
    Ok(())
}

/// Adds the numbers of a table to a set.
#[tactic(auto, using(crate::proofs::Listed::table_more, crate::proofs::Listed::table_all))]
fn add_table(table: &[u8], numbers: &mut BTreeSet<u32>) -> Result<(), AllocError>
    ensures { OnOk result
        (numbers.new.keys ≡ with_numbers numbers.old.keys (numbers_of_table table.now)) }
{
    for place in 0..table.len() / NUMBER_BYTES {
        numbers.insert(LittleEndian::read_u32(&table[NUMBER_BYTES * place..]))?;
    }
    Ok(())
}
