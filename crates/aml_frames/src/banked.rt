//! Fields of a bank: the units of such a field, which are accessed one by one (ACPI 6.5, 19.6: BankField).
ghost use Rattle.std.specs.Prelude.{◌≡◌};
ghost use Rattle.aml_frames.specs.Banked.{field_accessed};

use crate::uses::Reading;
use aml_fields::{FieldUnits, Region};
use aml_objects::{FieldUnit, Octets};
use aml_world::RegionField;

/// The bank field that selects a bank, which was looked up, and the value that is written to it.
#[derive(Clone, Copy, Debug)]
pub struct Selector {
    pub field: RegionField,
    pub value: u64,
}

/// A field of a bank whose region was located.
#[derive(Clone, Copy, Debug)]
pub struct BankedField {
    /// How many calls may be made one inside another.
    pub calls: usize,
    /// What selects the bank.
    pub bank: Selector,
    pub region: Region,
    pub field: FieldUnit,
}

/// A read of such a field, while its units are read.
#[derive(Drop)]
pub struct BankReads {
    pub field: BankedField,
    /// What the bits are read as.
    pub reading: Reading,
    /// The bits of the units that were read, and zeros for the others.
    pub bytes: Vec<u8>,
    /// The units that are left, lowest first.
    pub left: FieldUnits,
}

/// A write of such a field, while its units are written.
#[derive(Drop)]
pub struct BankWrites {
    pub field: BankedField,
    /// What is written.
    pub bytes: Octets,
    /// The units that are left, lowest first.
    pub left: FieldUnits,
}

/// An access of such a field, of which a unit is read now.
#[derive(Drop)]
pub enum BanksLeft {
    Reads(BankReads),
    /// The unit is read since its write keeps bits of it.
    Writes(BankWrites),
}

impl BanksLeft {
    /// The field that is accessed.
    pub fn field(&self) -> BankedField
        ensures { result ≡ field_accessed self.now }
    {
        match self {
            BanksLeft::Reads(reads) => reads.field,
            BanksLeft::Writes(writes) => writes.field,
        }
    }
}
