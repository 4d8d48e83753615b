//! Tables by their description header (ACPI 6.5, 5.2.6).
ghost use Rattle.std.specs.Prelude.{◌≡◌, ◌≤◌, ◌&&◌, IfOk, length, drop, true, nat_le};
ghost use Rattle.ar_space.specs.Outcome.{Answers};
ghost use Rattle.ar_tables.specs.Headers.{signature_of, is_length, signed, length_in, summed, table_at};

use crate::image_bytes::ImageBytes;
use ar_space::{ByteMap, Refusal, Result, TableFault};
use byteorder::{ByteOrder, LittleEndian};
use std::alloc::Global;
use std::marker::Model;

/// How many bytes a description header has.
pub(crate) const HEADER_BYTES: usize = 36;
/// Where the length of a table stands in its header.
const LENGTH: usize = 4;
/// How many bytes a table may have.
const MAX_BYTES: usize = 1_048_576;

/// How many bytes an address in an RSDT has.
pub(crate) const RSDT_ADDRESS_BYTES: usize = 4;
/// How many bytes an address in an XSDT has.
pub(crate) const XSDT_ADDRESS_BYTES: usize = 8;
/// How many bytes an FADT has at least: it goes on to its address of the DSDT.
const MIN_FADT_BYTES: usize = 44;
/// How many bytes a MADT has at least: it goes on to its flags.
const MIN_MADT_BYTES: usize = 44;

/// The tables that are read whole.
#[derive(Clone, Copy)]
pub(crate) enum TableKind {
    Rsdt,
    Xsdt,
    Fadt,
    Madt,
    Dsdt,
    Ssdt,
}

impl TableKind {
    /// The signature of the table.
    fn signature(self) -> &'static [u8]
        ensures { result.now ≡ signature_of self }
    {
        match self {
            TableKind::Rsdt => b"RSDT",
            TableKind::Xsdt => b"XSDT",
            TableKind::Fadt => b"FACP",
            TableKind::Madt => b"APIC",
            TableKind::Dsdt => b"DSDT",
            TableKind::Ssdt => b"SSDT",
        }
    }

    /// Whether the table may have so many bytes.
    fn has_length(self, count: usize) -> bool
        ensures { result ≡ is_length self count }
    {
        match self {
            TableKind::Rsdt => {
                is_within(count, HEADER_BYTES) && (count - HEADER_BYTES) % RSDT_ADDRESS_BYTES == 0
            }
            TableKind::Xsdt => {
                is_within(count, HEADER_BYTES) && (count - HEADER_BYTES) % XSDT_ADDRESS_BYTES == 0
            }
            TableKind::Fadt => is_within(count, MIN_FADT_BYTES),
            TableKind::Madt => is_within(count, MIN_MADT_BYTES),
            TableKind::Dsdt | TableKind::Ssdt => is_within(count, HEADER_BYTES),
        }
    }
}

/// Whether a table may have so many bytes, of which it needs some.
fn is_within(count: usize, least: usize) -> bool
    ensures { result ≡ (nat_le least count && nat_le count MAX_BYTES) }
{
    count >= least && count <= MAX_BYTES
}

/// A table: its bytes, of which the first 36 are its header.
#[derive(Debug, Drop)]
pub struct Table {
    bytes: Vec<u8>,
}

impl Model for Table {
    ghost use Rattle.std.specs.Prelude.{List, ℕ, ◌≤◌, length};

    ghost Value = { List ℕ };

    ghost view = { λ t. t.bytes.items };

    ghost invariant = { λ t. 36 ≤ length t.bytes.items };
}

impl Table {
    /// The table of these bytes, of which the first 36 are its header. It takes no memory.
    pub fn from_vec(bytes: Vec<u8>) -> Table
        requires { 36 ≤ length bytes.items }
        ensures { result ≡ bytes.items }
    {
        Table { bytes }
    }

    /// All bytes of the table, in a `Vec` of their own. It takes no memory.
    pub fn into_vec(self) -> Vec<u8>
        ensures { result.items ≡ self }
    {
        self.bytes
    }

    /// All bytes of the table, with its header.
    pub fn as_slice(&self) -> &[u8]
        ensures value { result.now ≡ self.now }
        ensures header { 36 ≤ length self.now }
    {
        &self.bytes
    }

    /// The bytes behind the header: the AML of a DSDT or SSDT.
    pub fn body(&self) -> &[u8]
        ensures { result.now ≡ drop 36 self.now }
    {
        let (_, body) = self.as_slice().split_at(HEADER_BYTES);
        body
    }
}

/// The table at an address, tested in this order: `NotInImage` where a byte of its header is not in the image,
/// `BadSignature`, `BadLength`, `NotInImage` where another byte isn't, `BadChecksum`.
#[tactic(auto, using(ar_space::proofs::Outcomes::answering), unfolding(crate::specs::Headers::table_at))]
pub(crate) fn table_at(
    alloc: Global,
    image: &ByteMap,
    kind: TableKind,
    address: u64,
) -> Result<Table>
    ensures value { Answers result (table_at image.now kind address) }
    ensures len { IfOk result (λ t. is_length kind (length t) ≡ true) }
{
    let header = ImageBytes::read(alloc, image, address, HEADER_BYTES)?;
    signed(kind, &header)?;
    let count = length_in(kind, &header)?;
    let bytes = ImageBytes::read(alloc, image, address, count)?;
    bytes.summed()?;
    Ok(Table::from_vec(bytes.into_vec()))
}

/// Whether a header has the signature of the table.
#[tactic(auto, using(ar_space::proofs::Outcomes::answering), unfolding(crate::specs::Headers::signed))]
fn signed(kind: TableKind, header: &ImageBytes) -> Result<()>
    requires { 36 ≤ length header.now }
    ensures { Answers result (signed kind header.now) }
{
    if &header.as_slice()[..4] == kind.signature() {
        Ok(())
    } else {
        Err(Refusal::Table(TableFault::BadSignature))
    }
}

/// The length of the table, by its header.
#[tactic(auto, using(ar_space::proofs::Outcomes::answering), unfolding(crate::specs::Headers::length_in))]
fn length_in(kind: TableKind, header: &ImageBytes) -> Result<usize>
    requires { 36 ≤ length header.now }
    ensures value { Answers result (length_in kind header.now) }
    ensures len { IfOk result (λ count. is_length kind count ≡ true) }
{
    let count = LittleEndian::read_u32(&header.as_slice()[LENGTH..]) as usize;
    if kind.has_length(count) {
        Ok(count)
    } else {
        Err(Refusal::Table(TableFault::BadLength))
    }
}
