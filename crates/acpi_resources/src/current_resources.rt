//! What a link device is set to, read from the value of its _CRS (ACPI 6.5, 6.2.2).
ghost use Rattle.ar_space.specs.Outcome.{Answers};
ghost use Rattle.acpi_resources.specs.Current.{current_of};

use crate::descriptor::Descriptor;
use crate::interrupt_numbers::InterruptNumbers;
use crate::item::Items;
use ar_space::{Refusal, ResourceFault, Result};
use std::alloc::Global;
use std::collections::BTreeSet;

/// The set of all numbers of the interrupt descriptors up to the end tag, whatever their flags; it may be empty.
///
/// Other descriptors are passed over. Items are tested one by one, and the first with a fault decides: `NoEnd` an item
/// that ends past the bytes, or bytes that end where an item should begin; `Descriptor` an Extended Interrupt
/// descriptor too short for its count. `OutOfMemory` where memory runs out.
#[tactic(auto, using(ar_space::proofs::Outcomes::answering))]
pub fn current(alloc: Global, bytes: &[u8]) -> Result<InterruptNumbers>
    ensures { Answers result (current_of bytes.now) }
{
    let mut numbers = BTreeSet::new(alloc);
    for item in Items::new(bytes) {
        match Descriptor::of(&item)? {
            Descriptor::Interrupts(interrupts) => interrupts.listed.add_to(&mut numbers)?,
            Descriptor::DependentFunctions | Descriptor::Other(_) => {}
            Descriptor::EndTag => return Ok(InterruptNumbers::from_set(alloc, numbers)?),
        }
    }
    Err(Refusal::Resource(ResourceFault::NoEnd))
}
