//! The pins, as the report names them.
ghost use Rattle.std.specs.Prelude.{◌≡◌};
ghost use Rattle.acpi_configure.specs.Lines.{letter_of};

use route_report::PinName;

/// The pin of a number from 0 to 3.
pub(crate) fn letter_of(pin: u8) -> PinName
    ensures { result ≡ letter_of pin }
{
    if pin == 0 {
        PinName::A
    } else if pin == 1 {
        PinName::B
    } else if pin == 2 {
        PinName::C
    } else {
        PinName::D
    }
}
