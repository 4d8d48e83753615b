//! Banks of operation regions: the value that selects one (ACPI 6.5, 19.6: BankField).
ghost use Rattle.std.specs.Prelude.{◌≡◌, ◌^◌, nat_lt};
ghost use Rattle.ar_space.specs.Outcome.{AnswersInPlace};
ghost use Rattle.aml_world.specs.fields.Regions.{bank_held};

use crate::fields::regions::RegionField;
use ar_space::{FieldFault, Refusal, Result};

impl RegionField {
    /// A bank field has to hold the value that selects a bank; one that has too few bits is refused as `RegionLimit`.
    pub fn must_hold(self, value: u64) -> Result<()>
        ensures { AnswersInPlace result (bank_held self value) }
    {
        if is_held(self.unit.bits, value) {
            Ok(())
        } else {
            Err(Refusal::Field(FieldFault::RegionLimit))
        }
    }
}

/// Whether so many bits hold a value.
fn is_held(bits: u32, value: u64) -> bool
    ensures { result ≡ nat_lt value (2 ^ bits) }
{
    match 2_u64.checked_pow(bits) {
        Some(end) => value < end,
        None => true,
    }
}
