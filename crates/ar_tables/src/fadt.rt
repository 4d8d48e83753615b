//! The Fixed ACPI Description Table (ACPI 6.5, 5.2.9).
ghost use Rattle.std.specs.Prelude.{◌≡◌, ◌≤◌, length};
ghost use Rattle.ar_tables.specs.Fadts.{x_dsdt, dsdt_address, sci_interrupt};

use crate::table::Table;
use byteorder::{ByteOrder, LittleEndian};
use std::marker::Model;

// Where the fields stand.
const DSDT: usize = 40;

const SCI_INT: usize = 46;

const X_DSDT: usize = 140;

/// An FADT.
#[derive(Debug, Drop)]
pub struct Fadt {
    bytes: Vec<u8>,
}

impl Model for Fadt {
    ghost use Rattle.std.specs.Prelude.{◌≤◌, List, ℕ, length};

    ghost Value = { List ℕ };

    ghost view = { λ f. f.bytes.items };

    ghost invariant = { λ f. 44 ≤ length f.bytes.items };
}

impl Fadt {
    pub(crate) fn new(table: Table) -> Fadt
        requires { 44 ≤ length table }
        ensures { result ≡ table }
    {
        Fadt {
            bytes: table.into_vec(),
        }
    }

    /// All bytes of the table, with its header.
    pub fn as_slice(&self) -> &[u8]
        ensures { result.now ≡ self.now }
    {
        &self.bytes
    }

    /// The address of the DSDT: X_DSDT where the table has it and it isn't zero, else DSDT.
    pub fn dsdt_address(&self) -> u64
        ensures { result ≡ dsdt_address self.now }
    {
        let extended = self.x_dsdt();
        if extended == 0 {
            u64::from(LittleEndian::read_u32(&self.bytes[DSDT..]))
        } else {
            extended
        }
    }

    /// X_DSDT: 0 where the table ends before it.
    fn x_dsdt(&self) -> u64
        ensures { result ≡ x_dsdt self.now }
    {
        let bytes = self.as_slice();
        if bytes.len() >= X_DSDT + 8 {
            LittleEndian::read_u64(&bytes[X_DSDT..])
        } else {
            0
        }
    }

    /// The interrupt of the System Control Interrupt, SCI_INT: 0 where the table ends before it.
    pub fn sci_interrupt(&self) -> u16
        ensures { result ≡ sci_interrupt self.now }
    {
        let bytes = self.as_slice();
        if bytes.len() >= SCI_INT + 2 {
            LittleEndian::read_u16(&bytes[SCI_INT..])
        } else {
            0
        }
    }
}
