//! What a link device may be set to, read from the value of its _PRS (ACPI 6.5, 6.2.12).
ghost use Rattle.ar_space.specs.Outcome.{Answers};
ghost use Rattle.acpi_resources.specs.Offers.{offer_of, possible_as, possible_of, the_offer};

use crate::descriptor::Descriptor;
use crate::exclusives::Exclusives;
use crate::interrupts::Interrupts;
use crate::item::Items;
use crate::offer::Offer;
use ar_space::{Refusal, ResourceFault, Result};
use std::alloc::Global;

/// The offer of the one interrupt descriptor up to the end tag; bytes behind the end tag don't count.
///
/// Items are tested one by one, and the first with a fault decides. Of one item it refuses, in this order: `NoEnd` an
/// item that ends past the bytes, or bytes that end where an item should begin; `Dependent` dependent functions;
/// `Descriptor` any other descriptor, by its first byte, or an Extended Interrupt descriptor too short for its count;
/// `Several` a second interrupt descriptor; `Edge`, `Exclusive`, `Source` a resource source; `NoInterrupt` where no
/// interrupt is listed. `NoInterrupt` also where the end tag comes with no interrupt descriptor. `OutOfMemory` where
/// memory runs out.
pub fn possible(alloc: Global, bytes: &[u8]) -> Result<Offer>
    ensures { Answers result (possible_of bytes.now) }
{
    possible_as(alloc, Exclusives::Refused, bytes)
}

/// The same, where the caller says what becomes of exclusive offers. Where they are taken, `Exclusive` is not refused
/// and all other tests are made in their order; the offer has the descriptor's flags as they are.
pub fn possible_as(alloc: Global, exclusives: Exclusives, bytes: &[u8]) -> Result<Offer>
    ensures { Answers result (possible_as exclusives bytes.now) }
{
    let mut found = None;
    for item in Items::new(bytes) {
        match Descriptor::of(&item)? {
            Descriptor::Interrupts(interrupts) => {
                found = Some(only_offer(alloc, exclusives, &found, &interrupts)?);
            }
            Descriptor::DependentFunctions => {
                return Err(Refusal::Resource(ResourceFault::Dependent));
            }
            Descriptor::Other(tag) => {
                return Err(Refusal::Resource(ResourceFault::Descriptor(tag)));
            }
            Descriptor::EndTag => {
                return found.ok_or(Refusal::Resource(ResourceFault::NoInterrupt));
            }
        }
    }
    Err(Refusal::Resource(ResourceFault::NoEnd))
}

/// The offer of an interrupt descriptor, after what was found before it.
#[tactic(auto, using(ar_space::proofs::Outcomes::answering), unfolding(crate::specs::Offers::the_offer))]
fn only_offer(
    alloc: Global,
    exclusives: Exclusives,
    found: &Option<Offer>,
    interrupts: &Interrupts<'_>,
) -> Result<Offer>
    ensures { Answers result (the_offer exclusives found.now interrupts.now) }
{
    match found {
        Some(_) => Err(Refusal::Resource(ResourceFault::Several)),
        None => offer_of_one(alloc, exclusives, interrupts),
    }
}

/// The offer of one interrupt descriptor.
#[tactic(auto, using(ar_space::proofs::Outcomes::answering), unfolding(crate::specs::Offers::offer_of))]
fn offer_of_one(alloc: Global, exclusives: Exclusives, interrupts: &Interrupts<'_>) -> Result<Offer>
    ensures { Answers result (offer_of exclusives interrupts.now) }
{
    let flags = interrupts.flags;
    let form = interrupts.listed.form();
    if form.is_edge(flags) {
        return Err(Refusal::Resource(ResourceFault::Edge));
    }
    if exclusives.bar(form, flags) {
        return Err(Refusal::Resource(ResourceFault::Exclusive));
    }
    if interrupts.has_source {
        return Err(Refusal::Resource(ResourceFault::Source));
    }
    let numbers = interrupts.listed.set(alloc)?;
    if numbers.as_slice().is_empty() {
        return Err(Refusal::Resource(ResourceFault::NoInterrupt));
    }
    Ok(Offer::new(numbers, form, flags))
}
