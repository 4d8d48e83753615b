//! The Root System Description Pointer (ACPI 6.5, 5.2.5.3).
ghost use Rattle.std.specs.Prelude.{◌≡◌, ◌≤◌, IfOk, length};
ghost use Rattle.ar_space.specs.Outcome.{Answers};
ghost use Rattle.ar_tables.specs.RootPointers.{is_extended, rsdp_signed, rsdp_length, first_summed, to_rsdt, to_xsdt};
ghost use Rattle.ar_tables.specs.RootPointers.{first_root, extended_root, root_by, root_pointer};

use crate::image_bytes::{ImageBytes, summed};
use ar_space::{ByteMap, Refusal, Result, TableFault};
use byteorder::{ByteOrder, LittleEndian};
use std::alloc::Global;

/// How many bytes an RSDP of revision 0 or 1 has.
const FIRST_BYTES: usize = 20;
/// How many bytes an RSDP of a later revision has at least.
const EXTENDED_BYTES: usize = 36;
/// The first revision with an extended part.
const EXTENDED_REVISION: u8 = 2;

/// The signature, with a blank at its end.
const SIGNATURE: &[u8] = b"RSD PTR ";

// Where the fields stand.
const REVISION: usize = 15;

const RSDT_ADDRESS: usize = 16;

const LENGTH: usize = 20;

const XSDT_ADDRESS: usize = 24;

/// Which table lists the others.
#[derive(Clone, Copy)]
pub(crate) enum RootKind {
    Rsdt,
    Xsdt,
}

/// The table that lists the others, by its address.
#[derive(Clone, Copy)]
pub(crate) struct RootPointer {
    pub(crate) kind: RootKind,
    pub(crate) address: u64,
}

/// Where the list of the tables stands, by the RSDP at an address: the XSDT in revision 2 or later where its address
/// isn't zero, else the RSDT.
///
/// It is tested in this order: `NotInImage` where a byte of the first 20 (from revision 2 on: 36) is not in the image,
/// `BadSignature`, `BadLength`, `NotInImage` where another byte isn't, `BadChecksum` of the first 20 bytes or of all.
#[tactic(auto, using(ar_space::proofs::Outcomes::answering), unfolding(crate::specs::RootPointers::root_pointer))]
pub(crate) fn root_pointer(alloc: Global, image: &ByteMap, address: u64) -> Result<RootPointer>
    ensures { Answers result (root_pointer image.now address) }
{
    let first = ImageBytes::read(alloc, image, address, FIRST_BYTES)?;
    root_by(alloc, image, address, &first)
}

#[tactic(auto, using(ar_space::proofs::Outcomes::answering))]
fn root_by(alloc: Global, image: &ByteMap, address: u64, first: &ImageBytes) -> Result<RootPointer>
    requires { length first.now ≡ FIRST_BYTES }
    ensures { Answers result (root_by image.now address first.now) }
{
    if first.as_slice()[REVISION] >= EXTENDED_REVISION {
        extended_root(alloc, image, address)
    } else {
        first_root(first)
    }
}

/// The RSDT of an RSDP of revision 0 or 1.
#[tactic(auto, using(ar_space::proofs::Outcomes::answering), unfolding(crate::specs::RootPointers::first_root))]
fn first_root(rsdp: &ImageBytes) -> Result<RootPointer>
    requires { FIRST_BYTES ≤ length rsdp.now }
    ensures { Answers result (first_root rsdp.now) }
{
    rsdp_signed(rsdp)?;
    rsdp.summed()?;
    Ok(to_rsdt(rsdp))
}

/// The table that an RSDP of revision 2 or later leads to.
#[tactic(auto, using(ar_space::proofs::Outcomes::answering), unfolding(crate::specs::RootPointers::extended_root))]
fn extended_root(alloc: Global, image: &ByteMap, address: u64) -> Result<RootPointer>
    ensures { Answers result (extended_root image.now address) }
{
    let header = ImageBytes::read(alloc, image, address, EXTENDED_BYTES)?;
    rsdp_signed(&header)?;
    let count = rsdp_length(&header)?;
    let rsdp = ImageBytes::read(alloc, image, address, count)?;
    first_summed(&rsdp)?;
    rsdp.summed()?;
    Ok(to_xsdt(&rsdp))
}

#[tactic(auto, using(ar_space::proofs::Outcomes::answering), unfolding(crate::specs::RootPointers::rsdp_signed))]
fn rsdp_signed(rsdp: &ImageBytes) -> Result<()>
    requires { FIRST_BYTES ≤ length rsdp.now }
    ensures { Answers result (rsdp_signed rsdp.now) }
{
    if &rsdp.as_slice()[..SIGNATURE.len()] == SIGNATURE {
        Ok(())
    } else {
        Err(Refusal::Table(TableFault::BadSignature))
    }
}

#[tactic(auto, using(ar_space::proofs::Outcomes::answering), unfolding(crate::specs::RootPointers::rsdp_length))]
fn rsdp_length(rsdp: &ImageBytes) -> Result<usize>
    requires { EXTENDED_BYTES ≤ length rsdp.now }
    ensures value { Answers result (rsdp_length rsdp.now) }
    ensures least { IfOk result (λ count. EXTENDED_BYTES ≤ count) }
{
    let count = LittleEndian::read_u32(&rsdp.as_slice()[LENGTH..]) as usize;
    if count >= EXTENDED_BYTES {
        Ok(count)
    } else {
        Err(Refusal::Table(TableFault::BadLength))
    }
}

#[tactic(auto, using(ar_space::proofs::Outcomes::answering), unfolding(crate::specs::RootPointers::first_summed))]
fn first_summed(rsdp: &ImageBytes) -> Result<()>
    requires { FIRST_BYTES ≤ length rsdp.now }
    ensures { Answers result (first_summed rsdp.now) }
{
    summed(&rsdp.as_slice()[..FIRST_BYTES])
}

fn to_rsdt(rsdp: &ImageBytes) -> RootPointer
    requires { FIRST_BYTES ≤ length rsdp.now }
    ensures { result ≡ to_rsdt rsdp.now }
{
    RootPointer {
        kind: RootKind::Rsdt,
        address: u64::from(LittleEndian::read_u32(&rsdp.as_slice()[RSDT_ADDRESS..])),
    }
}

fn to_xsdt(rsdp: &ImageBytes) -> RootPointer
    requires { EXTENDED_BYTES ≤ length rsdp.now }
    ensures { result ≡ to_xsdt rsdp.now }
{
    let address = LittleEndian::read_u64(&rsdp.as_slice()[XSDT_ADDRESS..]);
    if address == 0 {
        return to_rsdt(rsdp);
    }
    RootPointer {
        kind: RootKind::Xsdt,
        address,
    }
}
