//! The parts of an entry of a routing table, and their tests (ACPI 6.5, table 6.15).
ghost use Rattle.std.specs.Prelude.{◌≡◌, ◌<◌, ◌≤◌, ◌^◌, IfOk, Ok, map};
ghost use Rattle.ar_space.specs.Outcome.{Answers, seen};
ghost use Rattle.aml_world.specs.state.Given.{given_of};
ghost use Rattle.acpi_prt.specs.Entries.{word_of, fits_word, pin_tested, source_tested, no_index, device_number};
ghost use Rattle.acpi_prt.specs.Entries.{entries_of};

use aml_world::Datum;
use ar_space::{Refusal, Result, RoutingTableFault};

pub(crate) const NOT_PACKAGE: Refusal = Refusal::RoutingTable(RoutingTableFault::NotPackage);

pub(crate) const BAD_ENTRY: Refusal = Refusal::RoutingTable(RoutingTableFault::BadEntry);

/// The entries of a routing table, which is a package: else `NotPackage`.
#[tactic(auto, using(crate::proofs::Rows::rows))]
pub(crate) fn entries_of(table: &Datum) -> Result<&[Datum]>
    ensures { Answers (seen (λ list. map given_of list.now) result) (entries_of (given_of table.now)) }
{
    match table {
        Datum::Package(entries) => Ok(entries.as_slice()),
        _ => Err(NOT_PACKAGE),
    }
}

/// An integer of at most 32 bits: else `BadEntry`.
pub(crate) fn word_of(part: &Datum) -> Result<u32>
    ensures { Answers result (word_of (given_of part.now)) }
{
    match part {
        Datum::Integer(number) => fits_word(*number),
        _ => Err(BAD_ENTRY),
    }
}

fn fits_word(number: u64) -> Result<u32>
    ensures { Answers result (fits_word number) }
{
    if number < 0x1_0000_0000 {
        Ok(number as u32)
    } else {
        Err(BAD_ENTRY)
    }
}

/// A source is a name, or the integer 0: else `BadEntry`.
pub(crate) fn source_tested(part: &Datum) -> Result<()>
    ensures { Answers result (source_tested (given_of part.now)) }
{
    match part {
        Datum::Integer(0) => Ok(()),
        Datum::Named(_) => Ok(()),
        _ => Err(BAD_ENTRY),
    }
}

/// A pin is 0 to 3, for A to D: else `BadPin`.
pub(crate) fn pin_tested(pin: u32) -> Result<u8>
    ensures { Answers result (pin_tested pin) }
{
    if pin > 3 {
        Err(Refusal::RoutingTable(RoutingTableFault::BadPin))
    } else {
        Ok(pin as u8)
    }
}

/// The source index at a link device is 0: else `SourceIndex`.
pub(crate) fn no_index(index: u32) -> Result<()>
    ensures { Answers result (no_index index) }
{
    if index == 0 {
        Ok(())
    } else {
        Err(Refusal::RoutingTable(RoutingTableFault::SourceIndex))
    }
}

/// The device number: the high word of an address (ACPI 6.5, 6.1.1). The function number below it doesn't count.
pub(crate) fn device_number(address: u32) -> u16
    ensures { result ≡ device_number address }
{
    (address >> 16) as u16
}
