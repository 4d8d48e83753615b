//! The bytes that set a link device to an interrupt: the argument of its _SRS (ACPI 6.5, 6.2.16).
ghost use Rattle.std.specs.Prelude.{◌≡◌, ◌<◌, IfOk, Ok, Contains, false};
ghost use Rattle.ar_space.specs.Outcome.{Answers, seen};
ghost use Rattle.acpi_resources.specs.declared.form.Form.TheVariants.{Small, Extended};
ghost use Rattle.acpi_resources.specs.declared.exclusives.Exclusives.{Exclusives};
ghost use Rattle.acpi_resources.specs.Offers.{is_barred, possible_as};
ghost use Rattle.acpi_resources.specs.Settings.{offer_of_one, setting_bytes, setting_of};

use crate::descriptor::{END_TAG, EXTENDED_INTERRUPT, IRQ};
use crate::form::Form;
use crate::offer::Offer;
use ar_space::Result;
use byteorder::{ByteOrder, LittleEndian};
use std::alloc::{AllocError, Global};

/// The setting of a link device to one of the interrupts that it offers: a descriptor of the offer's form with that
/// interrupt alone and the offer's byte of flags, and the end tag. Read as an offer it has that interrupt alone, and
/// the form, polarity and flags of the offer; read where exclusive offers are refused too, unless the offer is
/// exclusive. It refuses only `OutOfMemory`.
#[tactic(auto, using(crate::proofs::ReadsBack::reads_back))]
pub fn setting(alloc: Global, offer: &Offer, n: u32) -> Result<Vec<u8>>
    requires { Contains offer.now.numbers n }
    ensures bytes { Answers (seen (λ v. v.items) result) (Ok (setting_of offer.now n)) }
    ensures reads_back { (exclusives : Exclusives) → is_barred exclusives offer.now.form offer.now.flags ≡ false →
        possible_as exclusives (setting_of offer.now n) ≡ Ok (offer_of_one offer.now n) }
{
    let flags = offer.flags();
    let bytes = match offer.form() {
        Form::Small => irq(alloc, flags, n)?,
        Form::Extended => extended_interrupt(alloc, flags, n)?,
    };
    Ok(bytes)
}

/// The IRQ descriptor of one interrupt, and the end tag.
fn irq(alloc: Global, flags: u8, n: u32) -> Result<Vec<u8>, AllocError>
    requires { n < 16 }
    ensures { IfOk result (λ v. v.items ≡ setting_bytes Small flags n) }
{
    let mut bytes = [IRQ, 0, 0, flags, END_TAG, 0];
    LittleEndian::write_u16(&mut bytes[1..], 1 << n);
    bytes.to_vec(alloc)
}

/// The Extended Interrupt descriptor of one interrupt, and the end tag.
fn extended_interrupt(alloc: Global, flags: u8, n: u32) -> Result<Vec<u8>, AllocError>
    ensures { IfOk result (λ v. v.items ≡ setting_bytes Extended flags n) }
{
    let mut bytes = [EXTENDED_INTERRUPT, 6, 0, flags, 1, 0, 0, 0, 0, END_TAG, 0];
    LittleEndian::write_u32(&mut bytes[5..], n);
    bytes.to_vec(alloc)
}
