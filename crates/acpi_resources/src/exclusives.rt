//! Offers of interrupts that a link would have for itself alone.
ghost use Rattle.std.specs.Prelude.{◌≡◌};
ghost use Rattle.acpi_resources.specs.Offers.{is_barred};

use crate::form::Form;

/// What becomes of exclusive offers: those of an interrupt that no other device shares (ACPI 6.5, 6.4.2.1 and 6.4.3.6).
#[derive(Clone, Copy, Debug, PartialEq, Eq)]
pub enum Exclusives {
    /// They are refused as `Exclusive`.
    Refused,
    /// They are taken as shared ones.
    Taken,
}

impl Exclusives {
    /// Whether an offer by a descriptor of this form with these flags is refused.
    pub(crate) fn bar(self, form: Form, flags: u8) -> bool
        ensures { result ≡ is_barred self form flags }
    {
        match self {
            Exclusives::Refused => !form.is_shared(flags),
            Exclusives::Taken => false,
        }
    }
}
