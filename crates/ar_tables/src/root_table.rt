//! The tables that the RSDT (ACPI 6.5, 5.2.7) or the XSDT (5.2.8) lists.
ghost use Rattle.std.specs.Prelude.{◌≡◌, ◌≤◌, IfOk, Ok, length, drop};
ghost use Rattle.byteorder.specs.Endian.{little_number};
ghost use Rattle.ar_space.specs.Outcome.{Answers, seen};
ghost use Rattle.ar_space.specs.Each.{each};
ghost use Rattle.ar_tables.specs.Lists.{table_kind, address_size, addresses_in, entry_kind, entry_at, entries_at};
ghost use Rattle.ar_tables.specs.Lists.{listed, is_kind, addresses_of, few};

use crate::image_bytes::ImageBytes;
use crate::root_pointer::RootKind;
use crate::table::{RSDT_ADDRESS_BYTES, Table, TableKind, XSDT_ADDRESS_BYTES};
use ar_space::{ByteMap, Refusal, Result, TableFault};
use byteorder::{ByteOrder, LittleEndian};
use std::alloc::{AllocError, Global};
use std::marker::Model;

/// How many bytes a signature has.
const SIGNATURE_BYTES: usize = 4;
/// The address in a list that is passed over.
const NO_TABLE: u64 = 0;
/// How many SSDTs there may be.
const MAX_SSDTS: usize = 256;

impl RootKind {
    /// The table itself.
    pub(crate) fn table(self) -> TableKind
        ensures { result ≡ table_kind self }
    {
        match self {
            RootKind::Rsdt => TableKind::Rsdt,
            RootKind::Xsdt => TableKind::Xsdt,
        }
    }

    /// How many bytes each address of the list has.
    fn address_size(self) -> usize
        ensures { result ≡ address_size self }
    {
        match self {
            RootKind::Rsdt => RSDT_ADDRESS_BYTES,
            RootKind::Xsdt => XSDT_ADDRESS_BYTES,
        }
    }

    /// The address that bytes begin with.
    fn address(self, bytes: &[u8]) -> u64
        requires { address_size self ≤ length bytes.now }
        ensures { result ≡ little_number (address_size self) bytes.now }
    {
        match self {
            RootKind::Rsdt => u64::from(LittleEndian::read_u32(bytes)),
            RootKind::Xsdt => LittleEndian::read_u64(bytes),
        }
    }
}

/// Addresses of tables.
#[derive(Drop)]
pub(crate) struct Addresses {
    items: Vec<u64>,
}

impl Model for Addresses {
    ghost use Rattle.std.specs.Prelude.{List, ℕ};

    ghost Value = { List ℕ };

    ghost view = { λ a. a.items.items };
}

impl Addresses {
    /// The addresses that a root table lists, those that are zero left out.
    fn read(alloc: Global, root: RootKind, table: &Table) -> Result<Addresses>
        ensures { Answers result (Ok (addresses_in root (drop 36 table.now))) }
    {
        let items = addresses_in(alloc, root, table.body())?;
        Ok(Addresses { items })
    }

    pub(crate) fn as_slice(&self) -> &[u64]
        ensures { result.now ≡ self.now }
    {
        &self.items
    }
}

fn addresses_in(alloc: Global, root: RootKind, list: &[u8]) -> Result<Vec<u64>, AllocError>
    ensures { IfOk result (λ v. v.items ≡ addresses_in root list.now) }
{
    let mut addresses = Vec::new(alloc);
    let size = root.address_size();
    for n in 0..list.len() / size {
        let (_, rest) = list.split_at(size * n);
        let address = root.address(rest);
        if address != NO_TABLE {
            addresses.push(address)?;
        }
    }
    Ok(addresses)
}

/// Which of the tables that are read from a list.
#[derive(Clone, Copy)]
pub(crate) enum EntryKind {
    Fadt,
    Madt,
    Ssdt,
    Other,
}

impl EntryKind {
    fn of(signature: &[u8]) -> EntryKind
        ensures { result ≡ entry_kind signature.now }
    {
        if signature == b"FACP".as_slice() {
            EntryKind::Fadt
        } else if signature == b"APIC".as_slice() {
            EntryKind::Madt
        } else if signature == b"SSDT".as_slice() {
            EntryKind::Ssdt
        } else {
            EntryKind::Other
        }
    }

    fn is(self, kind: EntryKind) -> bool
        ensures { result ≡ is_kind self kind }
    {
        match (self, kind) {
            (EntryKind::Fadt, EntryKind::Fadt) => true,
            (EntryKind::Madt, EntryKind::Madt) => true,
            (EntryKind::Ssdt, EntryKind::Ssdt) => true,
            (EntryKind::Other, EntryKind::Other) => true,
            _ => false,
        }
    }
}

/// A table of the list.
#[derive(Clone, Copy)]
pub(crate) struct Entry {
    kind: EntryKind,
    address: u64,
}

#[tactic(auto, using(ar_space::proofs::Outcomes::answering), unfolding(crate::specs::Lists::entry_at))]
fn entry_at(alloc: Global, image: &ByteMap, address: u64) -> Result<Entry>
    ensures { Answers result (entry_at image.now address) }
{
    let signature = ImageBytes::read(alloc, image, address, SIGNATURE_BYTES)?;
    Ok(Entry {
        kind: EntryKind::of(signature.as_slice()),
        address,
    })
}

/// The tables of the list, in its order.
#[derive(Drop)]
pub(crate) struct Entries {
    items: Vec<Entry>,
}

impl Model for Entries {
    ghost use Rattle.std.specs.Prelude.{List};
    ghost use Rattle.ar_tables.specs.declared.root_table.Entry.{Entry};

    ghost Value = { List Entry };

    ghost view = { λ e. e.items.items };
}

impl Entries {
    /// The tables that a root table lists, or `NotInImage` where a signature isn't in the image.
    #[tactic(auto, using(ar_space::proofs::Outcomes::answering), unfolding(crate::specs::Lists::listed))]
    pub(crate) fn read(
        alloc: Global,
        image: &ByteMap,
        root: RootKind,
        table: &Table,
    ) -> Result<Entries>
        ensures { Answers result (listed image.now root table.now) }
    {
        let addresses = Addresses::read(alloc, root, table)?;
        entries_at(alloc, image, &addresses)
    }

    /// The addresses of the tables of one kind.
    pub(crate) fn addresses(&self, alloc: Global, kind: EntryKind) -> Result<Addresses>
        ensures { Answers result (Ok (addresses_of kind self.now)) }
    {
        let items = addresses_of(alloc, self.items.as_slice(), kind)?;
        Ok(Addresses { items })
    }
}

#[tactic(auto, using(ar_space::proofs::Outcomes::answering))]
fn entries_at(alloc: Global, image: &ByteMap, addresses: &Addresses) -> Result<Entries>
    ensures { Answers result (entries_at image.now addresses.now) }
{
    let items = each_entry(alloc, image, addresses.as_slice())?;
    Ok(Entries { items })
}

fn each_entry(alloc: Global, image: &ByteMap, addresses: &[u64]) -> Result<Vec<Entry>>
    ensures { Answers (seen (λ v. v.items) result) (entries_at image.now addresses.now) }
{
    let mut entries = Vec::new(alloc);
    for address in addresses {
        entries.push(entry_at(alloc, image, *address)?)?;
    }
    Ok(entries)
}

fn addresses_of(alloc: Global, entries: &[Entry], kind: EntryKind) -> Result<Vec<u64>, AllocError>
    ensures { IfOk result (λ v. v.items ≡ addresses_of kind entries.now) }
{
    entries
        .iter()
        .filter(|entry| entry.kind.is(kind))
        .map(|entry| entry.address)
        .collect(alloc)
}

/// Whether the SSDTs are no more than there may be.
#[tactic(auto, using(ar_space::proofs::Outcomes::answering), unfolding(crate::specs::Lists::few))]
pub(crate) fn few(addresses: &Addresses) -> Result<()>
    ensures { Answers result (few addresses.now) }
{
    if addresses.as_slice().len() <= MAX_SSDTS {
        Ok(())
    } else {
        Err(Refusal::Table(TableFault::BadLength))
    }
}
