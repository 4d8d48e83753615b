//! Fields behind an index field and a data field: the units of such a field, which are accessed one by one (ACPI 6.5,
//! 19.6: IndexField).
ghost use Rattle.std.specs.Prelude.{◌≡◌, ◌≤◌, ◌+◌, length, replicate, Ok};
ghost use Rattle.ar_space.specs.Accesses.{bit_count};
ghost use Rattle.ar_space.specs.Outcome.{Answers, seen};
ghost use Rattle.aml_fields.specs.Bits.{byte_count};
ghost use Rattle.aml_world.specs.fields.Fields.{unit_of};
ghost use Rattle.aml_frames.specs.Indexed.{field_accessed, is_kept, unit_within, put_unit, merged_unit};

use crate::uses::Reading;
use aml_fields::{FieldUnits, Unit, bytes_for, copy_from_unit, merge};
use aml_objects::{FieldUnit, Octets, UpdateRule};
use aml_world::RegionField;
use ar_space::{Result, Width};
use std::alloc::Global;

/// How many bytes of a field are read at most: more than any field has.
const MAX_BYTES: usize = 536_870_912;

/// A field behind an index field and a data field that were looked up.
#[derive(Clone, Copy, Debug)]
pub struct IndexedField {
    /// How many calls may be made one inside another.
    pub calls: usize,
    /// The field that the offset of a unit is written to.
    pub index: RegionField,
    /// The field that the unit is read from or written to then.
    pub behind: RegionField,
    pub field: FieldUnit,
}

/// A read of such a field, while its units are read.
#[derive(Drop)]
pub struct UnitReads {
    pub field: IndexedField,
    /// What the bits are read as.
    pub reading: Reading,
    /// The bits of the units that were read, and zeros for the others.
    pub bytes: Vec<u8>,
    /// The units that are left, lowest first.
    pub left: FieldUnits,
}

/// A write of such a field, while its units are written.
#[derive(Drop)]
pub struct UnitWrites {
    pub field: IndexedField,
    /// What is written.
    pub bytes: Octets,
    /// The units that are left, lowest first.
    pub left: FieldUnits,
}

/// An access of such a field, of which a unit is read now.
#[derive(Drop)]
pub enum UnitsLeft {
    Reads(UnitReads),
    /// The unit is read since its write keeps bits of it.
    Writes(UnitWrites),
}

impl UnitsLeft {
    /// The field that is accessed.
    pub fn field(&self) -> IndexedField
        ensures { result ≡ field_accessed self.now }
    {
        match self {
            UnitsLeft::Reads(reads) => reads.field,
            UnitsLeft::Writes(writes) => writes.field,
        }
    }
}

/// The bytes of so many bits, all zero.
pub fn zeros(alloc: Global, bits: u32) -> Result<Vec<u8>>
    ensures { Answers (seen (λ v. v.items) result) (Ok (replicate (byte_count bits) 0)) }
{
    Ok(vec![in alloc; 0; bytes_for(bits as usize)]?)
}

/// The bits of a unit that was read are put where they are in the field.
#[tactic(auto, unfolding(crate::specs::Indexed::put_unit))]
pub fn put_unit(bits: &mut [u8], unit: Unit, number: u64)
    ensures put { bits.new ≡ put_unit bits.old unit number }
    ensures len { length bits.new ≡ length bits.old }
{
    let within = unit_within(8 * bits.len().min(MAX_BYTES), unit);
    copy_from_unit(bits, within.position, number, within.first, within.count);
}

/// What of a unit lies within 64 bits and within so many bits of the field: all of it.
fn unit_within(bits: usize, unit: Unit) -> Unit
    ensures is { result ≡ unit_within bits unit }
    ensures inside { result.first + result.count ≤ 64 }
    ensures within { result.position + result.count ≤ bits }
{
    let first = unit.first.min(64);
    let position = unit.position.min(bits);
    Unit {
        offset: unit.offset,
        first,
        count: unit.count.min((64 - first).min(bits - position)),
        position,
    }
}

/// Whether a write keeps bits of a unit: where the field isn't all of it, and the update rule is Preserve.
pub fn is_kept(field: FieldUnit, unit: Unit) -> bool
    ensures { result ≡ is_kept field unit }
{
    if unit.count == usize::from(field.access.bits()) {
        return false;
    }
    match field.update {
        UpdateRule::Preserve => true,
        UpdateRule::WriteAsOnes => false,
        UpdateRule::WriteAsZeros => false,
    }
}

/// What a unit is written with that holds a number.
#[tactic(auto, unfolding(crate::specs::Indexed::merged_unit))]
pub fn merge_unit(field: FieldUnit, source: &[u8], unit: Unit, old: u64) -> u64
    ensures { result ≡ merged_unit field source.now unit old }
{
    let within = unit_within(field.bits as usize, unit);
    merge(
        field.update,
        field.access,
        old,
        within.first,
        source,
        within.position,
        within.count,
    )
}

/// The unit that the bits of a data field make, cut or with zeros behind them.
pub fn unit_of(width: Width, bytes: &[u8]) -> u64
    ensures { result ≡ unit_of width bytes.now }
{
    merge(
        UpdateRule::WriteAsZeros,
        width,
        0,
        0,
        bytes,
        0,
        bit_count(width),
    )
}

/// How many bits an access of a width has.
fn bit_count(width: Width) -> usize
    ensures count { result ≡ bit_count width }
    ensures few { result ≤ 64 }
{
    match width {
        Width::W8 => 8,
        Width::W16 => 16,
        Width::W32 => 32,
        Width::W64 => 64,
    }
}
