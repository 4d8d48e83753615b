//! The Multiple APIC Description Table (ACPI 6.5, 5.2.12).
ghost use Rattle.std.specs.Prelude.{◌≡◌, ◌≤◌, ◌<◌, [], ◌∷◌, IfOk, IfSome, MatchOption, Some, None, length, true};
ghost use Rattle.std.specs.Iterator.{YieldsFirst, item_count};
ghost use Rattle.ar_space.specs.Outcome.{Answers};
ghost use Rattle.ar_tables.specs.Structures.{begins_well, least_length, entry_in, first_structure, are_structures};
ghost use Rattle.ar_tables.specs.Structures.{entries_in, structures_of, well_structured};

use crate::table::Table;
use ar_space::{Refusal, Result, TableFault};
use byteorder::{ByteOrder, LittleEndian};
use std::marker::Model;

/// Where the interrupt controller structures begin.
const STRUCTURES: usize = 44;
/// The type of an I/O APIC structure (ACPI 6.5, 5.2.12.3).
const IO_APIC: u8 = 1;
/// The type of an interrupt source override structure (ACPI 6.5, 5.2.12.5).
const SOURCE_OVERRIDE: u8 = 2;

/// A MADT, whose interrupt controller structures are each as long as their type needs.
#[derive(Debug, Drop)]
pub struct Madt {
    bytes: Vec<u8>,
}

impl Model for Madt {
    ghost use Rattle.std.specs.Prelude.{◌≡◌, ◌≤◌, List, ℕ, length, true};
    ghost use Rattle.ar_tables.specs.Structures.{are_structures, structures_of};

    ghost Value = { List ℕ };

    ghost view = { λ m. m.bytes.items };

    ghost invariant = { λ m. (44 ≤ length m.bytes.items) × (are_structures (structures_of m.bytes.items) ≡ true) };
}

impl Madt {
    pub(crate) fn new(table: Table) -> Madt
        requires len { 44 ≤ length table }
        requires structured { are_structures (structures_of table) ≡ true }
        ensures { result ≡ table }
    {
        Madt {
            bytes: table.into_vec(),
        }
    }

    /// All bytes of the table, with its header.
    pub fn as_slice(&self) -> &[u8]
        ensures { result.now ≡ self.now }
    {
        &self.bytes
    }

    fn structures(&self) -> &[u8]
        ensures { result.now ≡ structures_of self.now }
    {
        let (_, structures) = self.bytes.split_at(STRUCTURES);
        structures
    }
}

/// An interrupt controller structure of a MADT.
#[derive(Clone, Copy, Debug, PartialEq, Eq)]
pub enum MadtEntry {
    /// An I/O APIC: its id, the physical address of its registers, and the first of its global system interrupts.
    IoApic {
        id: u8,
        address: u32,
        gsi_base: u32,
    },
    /// An interrupt source of a bus (0 is ISA) that is another global system interrupt than its own number, and its
    /// MPS INTI flags (ACPI 6.5, table 5.26).
    SourceOverride {
        bus: u8,
        source: u8,
        gsi: u32,
        flags: u16,
    },
}

/// The I/O APIC and interrupt source override structures of a MADT, in its order. Structures of other types are passed
/// over. It takes no memory.
pub fn madt_entries(madt: &Madt) -> MadtEntries<'_>
    ensures { result ≡ entries_in (structures_of madt.now) }
{
    MadtEntries {
        rest: madt.structures(),
    }
}

/// The entries of a MADT, one after another.
#[derive(Drop)]
pub struct MadtEntries<'a> {
    rest: &'a [u8],
}

impl<'a> Model for MadtEntries<'a> {
    ghost use Rattle.std.specs.Prelude.{List};
    ghost use Rattle.ar_tables.specs.declared.madt.MadtEntry.{MadtEntry};
    ghost use Rattle.ar_tables.specs.Structures.{entries_in};

    ghost Value = { List MadtEntry };

    ghost view = { λ e. entries_in e.rest.now };
}

impl<'a> Iterator for MadtEntries<'a> {
    type Item = MadtEntry;

    ghost next_gives = { YieldsFirst (λ rest. rest) };

    ghost remaining = { item_count (λ rest. rest) };

    fn next(&mut self) -> Option<MadtEntry> {
        let (entry, rest) = next_entry(self.rest);
        self.rest = rest;
        entry
    }
}

/// The first entry of bytes, and the bytes behind it.
#[tactic(auto, using(crate::proofs::Structures::entries))]
fn next_entry(bytes: &[u8]) -> (Option<MadtEntry>, &[u8])
    ensures { MatchOption result.0 ((entries_in bytes.now ≡ []) × (entries_in result.1.now ≡ []))
        (λ entry. entries_in bytes.now ≡ entry ∷ entries_in result.1.now) }
{
    let mut rest = bytes;
    while let Some((entry, behind)) = split_structure(rest) {
        rest = behind;
        if entry.is_some() {
            return (entry, rest);
        }
    }
    (None, rest)
}

/// The structure that bytes begin with and the bytes behind it, or `None` where they begin with none.
#[tactic(auto, unfolding(crate::specs::Structures::begins_well, crate::specs::Structures::first_structure))]
fn split_structure(bytes: &[u8]) -> Option<(Option<MadtEntry>, &[u8])>
    ensures value { MatchOption result (first_structure bytes.now ≡ None)
        (λ found. first_structure bytes.now ≡ Some (found.0, found.1.now)) }
    ensures shorter { IfSome result (λ found. length found.1.now < length bytes.now) }
{
    if !begins_well(bytes) {
        return None;
    }
    let (_, behind) = bytes.split_at(usize::from(bytes[1]));
    Some((entry_in(bytes), behind))
}

/// How many bytes a structure of this type has at least.
fn least_length(structure_type: u8) -> u8
    ensures { result ≡ least_length structure_type }
{
    match structure_type {
        IO_APIC => 12,
        SOURCE_OVERRIDE => 10,
        _ => 2,
    }
}

/// Whether bytes begin with a structure that is as long as its type needs and doesn't end past them.
#[tactic(auto, unfolding(crate::specs::Structures::begins_well))]
fn begins_well(bytes: &[u8]) -> bool
    ensures { result ≡ begins_well bytes.now }
{
    bytes.len() >= 2 && bytes[1] >= least_length(bytes[0]) && usize::from(bytes[1]) <= bytes.len()
}

/// What the structure says that bytes begin with, where its type is known.
#[tactic(auto, unfolding(crate::specs::Structures::begins_well, crate::specs::Structures::entry_in))]
fn entry_in(bytes: &[u8]) -> Option<MadtEntry>
    requires { begins_well bytes.now ≡ true }
    ensures { result ≡ entry_in bytes.now }
{
    match bytes[0] {
        IO_APIC => Some(MadtEntry::IoApic {
            id: bytes[2],
            address: LittleEndian::read_u32(&bytes[4..]),
            gsi_base: LittleEndian::read_u32(&bytes[8..]),
        }),
        SOURCE_OVERRIDE => Some(MadtEntry::SourceOverride {
            bus: bytes[2],
            source: bytes[3],
            gsi: LittleEndian::read_u32(&bytes[4..]),
            flags: LittleEndian::read_u16(&bytes[8..]),
        }),
        _ => None,
    }
}

/// Whether each structure of a MADT is as long as its type needs and the last ends with the table: else `BadLength`.
#[tactic(auto, using(ar_space::proofs::Outcomes::answering), unfolding(crate::specs::Structures::well_structured))]
pub(crate) fn well_structured(table: &Table) -> Result<()>
    requires { 44 ≤ length table.now }
    ensures value { Answers result (well_structured table.now) }
    ensures structured { IfOk result (λ _. are_structures (structures_of table.now) ≡ true) }
{
    let (_, structures) = table.as_slice().split_at(STRUCTURES);
    if are_structures(structures) {
        Ok(())
    } else {
        Err(Refusal::Table(TableFault::BadLength))
    }
}

#[tactic(auto, using(crate::proofs::Structures::are_none, crate::proofs::Structures::are_more))]
fn are_structures(bytes: &[u8]) -> bool
    ensures { result ≡ are_structures bytes.now }
{
    let mut rest = bytes;
    while let Some((_, behind)) = split_structure(rest) {
        rest = behind;
    }
    rest.is_empty()
}
