//! The tables of a machine (ACPI 6.5, 5.2).
ghost use Rattle.std.specs.Prelude.{◌≡◌, ◌≤◌, length, map};
ghost use Rattle.ar_space.specs.Outcome.{Answers, seen};
ghost use Rattle.ar_tables.specs.FindTables.{root_table, fadt_at, dsdt_at, ssdts_at, structured_madt, madt_at};
ghost use Rattle.ar_tables.specs.FindTables.{width_of, tables_in, tables_of};

use crate::fadt::Fadt;
use crate::madt::{Madt, well_structured};
use crate::root_pointer::{RootKind, RootPointer, root_pointer};
use crate::root_table::{Addresses, Entries, EntryKind, few};
use crate::table::{Table, TableKind, table_at};
use ar_space::{ByteMap, IntegerWidth, Refusal, Result, TableFault};
use std::alloc::Global;
use std::marker::Model;

/// Where the revision of a table stands in its header.
const REVISION: usize = 8;

/// The SSDTs of a machine, in the order of the list of its tables.
#[derive(Debug, Drop)]
pub struct Ssdts {
    tables: Vec<Table>,
}

impl Model for Ssdts {
    ghost use Rattle.std.specs.Prelude.{List, ℕ};

    ghost Value = { List (List ℕ) };

    ghost view = { λ s. s.tables.items };
}

impl Ssdts {
    /// These SSDTs, in this order. It takes no memory.
    pub fn from_vec(tables: Vec<Table>) -> Ssdts
        ensures { result ≡ tables.items }
    {
        Ssdts { tables }
    }

    /// The SSDTs.
    pub fn as_slice(&self) -> &[Table]
        ensures { result.now ≡ self.now }
    {
        &self.tables
    }

    /// The SSDTs, in a `Vec` of their own. It takes no memory.
    pub fn into_vec(self) -> Vec<Table>
        ensures { result.items ≡ self }
    {
        self.tables
    }
}

/// The tables that are used of a machine: each has its signature, a length that it may have, and bytes that add up to
/// zero.
#[derive(Debug, Drop)]
pub struct Tables {
    pub dsdt: Table,
    pub ssdts: Ssdts,
    pub fadt: Fadt,
    pub madt: Option<Madt>,
    pub width: IntegerWidth,
}

/// The tables of the machine whose RSDP stands at an address.
///
/// The XSDT is used where the RSDP's revision is 2 or more and its XSDT address isn't zero, else the RSDT. Addresses of
/// zero in the list are passed over. The first FADT and the first MADT count, and every SSDT; of other tables only the
/// signature is read.
///
/// Refused is the first fault of the structures in this order: the RSDP, the list, the signatures of its tables
/// (`NotInImage`), more than 256 SSDTs (`BadLength`), the FADT (`NoFadt` where there is none), the DSDT (`NoDsdt` where
/// its address is zero), the SSDTs in the order of the list, the MADT, its interrupt controller structures
/// (`BadLength`). Of each structure the tests come in this order: `NotInImage` where a byte of its header is not in the
/// image, `BadSignature`, `BadLength`, `NotInImage` where another byte isn't, `BadChecksum`. A byte past the last
/// address, 2^64 - 1, is in no image. `OutOfMemory` where memory runs out.
#[tactic(auto, using(ar_space::proofs::Outcomes::answering), unfolding(crate::specs::FindTables::tables_of))]
pub fn find_tables(alloc: Global, image: &ByteMap, rsdp: u64) -> Result<Tables>
    ensures { Answers result (tables_of image.now rsdp) }
{
    let root = root_pointer(alloc, image, rsdp)?;
    let list = root_table(alloc, image, &root)?;
    let entries = Entries::read(alloc, image, root.kind, &list)?;
    tables_in(alloc, image, &entries)
}

/// The RSDT or XSDT.
#[tactic(auto, using(ar_space::proofs::Outcomes::answering), unfolding(crate::specs::FindTables::root_table))]
fn root_table(alloc: Global, image: &ByteMap, root: &RootPointer) -> Result<Table>
    ensures { Answers result (root_table image.now root.now) }
{
    match root.kind {
        RootKind::Rsdt => table_at(alloc, image, TableKind::Rsdt, root.address),
        RootKind::Xsdt => table_at(alloc, image, TableKind::Xsdt, root.address),
    }
}

/// The tables by the list of them.
#[tactic(auto, using(ar_space::proofs::Outcomes::answering), unfolding(crate::specs::FindTables::tables_in))]
fn tables_in(alloc: Global, image: &ByteMap, entries: &Entries) -> Result<Tables>
    ensures { Answers result (tables_in image.now entries.now) }
{
    let ssdt_addresses = entries.addresses(alloc, EntryKind::Ssdt)?;
    few(&ssdt_addresses)?;
    let fadt_addresses = entries.addresses(alloc, EntryKind::Fadt)?;
    let fadt = fadt_at(alloc, image, &fadt_addresses)?;
    let dsdt = dsdt_at(alloc, image, &fadt)?;
    let ssdts = ssdts_at(alloc, image, &ssdt_addresses)?;
    let madt_addresses = entries.addresses(alloc, EntryKind::Madt)?;
    let madt = madt_at(alloc, image, &madt_addresses)?;
    let width = width_of(&dsdt);
    Ok(Tables {
        dsdt,
        ssdts,
        fadt,
        madt,
        width,
    })
}

/// The first FADT of the list.
#[tactic(auto, using(ar_space::proofs::Outcomes::answering), unfolding(crate::specs::FindTables::fadt_at))]
fn fadt_at(alloc: Global, image: &ByteMap, addresses: &Addresses) -> Result<Fadt>
    ensures { Answers result (fadt_at image.now addresses.now) }
{
    match addresses.as_slice() {
        [] => Err(Refusal::Table(TableFault::NoFadt)),
        [address, ..] => Ok(Fadt::new(table_at(alloc, image, TableKind::Fadt, *address)?)),
    }
}

/// The DSDT that the FADT names.
#[tactic(auto, using(ar_space::proofs::Outcomes::answering), unfolding(crate::specs::FindTables::dsdt_at))]
fn dsdt_at(alloc: Global, image: &ByteMap, fadt: &Fadt) -> Result<Table>
    ensures { Answers result (dsdt_at image.now fadt.now) }
{
    let address = fadt.dsdt_address();
    if address == 0 {
        return Err(Refusal::Table(TableFault::NoDsdt));
    }
    table_at(alloc, image, TableKind::Dsdt, address)
}

/// Every SSDT of the list.
#[tactic(auto, using(ar_space::proofs::Outcomes::answering))]
fn ssdts_at(alloc: Global, image: &ByteMap, addresses: &Addresses) -> Result<Ssdts>
    ensures { Answers result (ssdts_at image.now addresses.now) }
{
    let tables = each_ssdt(alloc, image, addresses.as_slice())?;
    Ok(Ssdts { tables })
}

fn each_ssdt(alloc: Global, image: &ByteMap, addresses: &[u64]) -> Result<Vec<Table>>
    ensures { Answers (seen (λ v. v.items) result) (ssdts_at image.now addresses.now) }
{
    let mut tables = Vec::new(alloc);
    for address in addresses {
        tables.push(table_at(alloc, image, TableKind::Ssdt, *address)?)?;
    }
    Ok(tables)
}

/// The first MADT of the list, if there is one.
#[tactic(auto, using(ar_space::proofs::Outcomes::answering), unfolding(crate::specs::FindTables::madt_at))]
fn madt_at(alloc: Global, image: &ByteMap, addresses: &Addresses) -> Result<Option<Madt>>
    ensures { Answers result (madt_at image.now addresses.now) }
{
    match addresses.as_slice() {
        [] => Ok(None),
        [address, ..] => structured_madt(alloc, image, *address),
    }
}

/// The MADT at an address, with the test of its structures.
#[tactic(auto, using(ar_space::proofs::Outcomes::answering), unfolding(crate::specs::FindTables::structured_madt))]
fn structured_madt(alloc: Global, image: &ByteMap, address: u64) -> Result<Option<Madt>>
    ensures { Answers result (structured_madt image.now address) }
{
    let table = table_at(alloc, image, TableKind::Madt, address)?;
    well_structured(&table)?;
    Ok(Some(Madt::new(table)))
}

/// How wide integers are, by the revision of the DSDT.
fn width_of(dsdt: &Table) -> IntegerWidth
    ensures { result ≡ width_of dsdt.now }
{
    if dsdt.as_slice()[REVISION] < 2 {
        IntegerWidth::Bits32
    } else {
        IntegerWidth::Bits64
    }
}
