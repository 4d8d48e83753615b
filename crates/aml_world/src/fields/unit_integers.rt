//! Field units in SystemMemory or SystemIO, read (where they lie within one access unit) and written as integers: no
//! object of an address is called, and no memory is taken (ACPI 6.5, 5.5.2.4 and 19.6.46).
ghost use Rattle.std.specs.Prelude.{◌≡◌, ℕ, List, Ok, Err, MatchOption, MatchBool, IfOk, IfErr, IfSome};
ghost use Rattle.std.specs.Prelude.{option_and_then, option_map};
ghost use Rattle.ar_space.specs.Change.{Does};
ghost use Rattle.ar_space.specs.Outcome.{NotMemory};
ghost use Rattle.ar_space.specs.Accesses.{Accesses};
ghost use Rattle.aml_path.specs.declared.segment.Seg.{Seg as Segment};
ghost use Rattle.aml_objects.specs.declared.entry.Field.TheVariants as field;
ghost use Rattle.aml_objects.specs.declared.value.Value.TheVariants.{Integer};
ghost use Rattle.aml_world.specs.fields.Fields.{field_value, field_stored};
ghost use Rattle.aml_world.specs.fields.PlainRegions.{plain_space, plain_region, region_at, IsPlainRegion};
ghost use Rattle.aml_world.specs.state.Run.{Run};

use crate::fields::regions::is_wide;
use crate::state::world_state::WorldState;
use aml_fields::{AddressSpace, Region, read_number, write_number};
use aml_objects::{FieldSource, FieldUnit, NamedObject, NodeId, OperationRegion};
use ar_space::{Result, Space};

impl<S> WorldState<S> {
    /// The region in which a field unit lies, where it is one of SystemMemory or SystemIO; none of a unit of an
    /// IndexField or a BankField.
    fn plain_region(&self, unit: FieldUnit) -> Option<Region>
        ensures { IfSome result (λ region. IsPlainRegion self.now unit.source region) }
    {
        match unit.source {
            FieldSource::Region(number) => match self.names().node(NodeId::numbered(number)) {
                None => None,
                Some(entry) => plain_region_of(&entry.object),
            },
            FieldSource::Index(_, _) => None,
            FieldSource::Bank(_, _) => None,
        }
    }
}

impl<S: Space> WorldState<S> {
    /// The value of a field unit as an integer, or none, and then nothing changes. Refused as `read_field` refuses it.
    /// It answers an integer for a unit that lies within one access unit of a region of SystemMemory or SystemIO and
    /// has no more bits than an integer, unless the unit is of an IndexField or a BankField. No clause says for which
    /// units it answers one.
    pub fn unit_integer(&mut self, unit: FieldUnit) -> Result<Option<u64>>
        ensures read { IfOk result (λ read. MatchOption read (self.new ≡ self.old) (λ number. (call : List Segment → Run
            S ℕ) (steps : ℕ) → Does (Ok (Integer number)) (self.new, steps) (field_value S.accesses call (field.Unit
            unit)) (self.old, steps))) }
        ensures refused { IfErr result (λ refusal. (call : List Segment → Run S ℕ) (steps : ℕ) →
            Does (Err refusal) (self.new, steps) (field_value S.accesses call (field.Unit unit)) (self.old, steps)) }
        ensures memory { NotMemory result }
    {
        if is_wide(self.width, unit.bits) {
            return Ok(None);
        }
        let Some(region) = self.plain_region(unit) else {
            return Ok(None);
        };
        read_number(&mut self.space, region, unit)
    }

    /// Stores an integer to a field unit, or answers no, and then nothing changes. Refused as `write_field` refuses it.
    /// It stores to a unit of a region of SystemMemory or SystemIO that has no more bits than an integer, unless the
    /// unit is of an IndexField or a BankField. No clause says for which units it stores.
    pub fn put_unit_integer(&mut self, unit: FieldUnit, number: u64) -> Result<bool>
        ensures written { IfOk result (λ done. MatchBool done ((call : List Segment → Run S ℕ) (steps : ℕ) →
            Does (Ok tt) (self.new, steps) (field_stored S.accesses call (field.Unit unit) (Integer number))
            (self.old, steps)) (self.new ≡ self.old)) }
        ensures refused { IfErr result (λ refusal. (call : List Segment → Run S ℕ) (steps : ℕ) → Does (Err refusal)
            (self.new, steps) (field_stored S.accesses call (field.Unit unit) (Integer number)) (self.old, steps)) }
        ensures memory { NotMemory result }
    {
        if is_wide(self.width, unit.bits) {
            return Ok(false);
        }
        let Some(region) = self.plain_region(unit) else {
            return Ok(false);
        };
        write_number(&mut self.space, region, unit, number)
    }
}

/// The region that an object is, where it is one of SystemMemory or SystemIO.
fn plain_region_of(object: &NamedObject) -> Option<Region>
    ensures { result ≡ plain_region object.now }
{
    match object {
        NamedObject::OperationRegion(region) => region_at(*region),
        _ => None,
    }
}

/// An operation region of SystemMemory or SystemIO, where it is one.
fn region_at(region: OperationRegion) -> Option<Region>
    ensures { result ≡ region_at region }
{
    match plain_space(region.space) {
        None => None,
        Some(space) => Some(Region {
            space,
            offset: region.offset,
            length: region.length,
        }),
    }
}

/// SystemMemory or SystemIO, by its number.
fn plain_space(number: u8) -> Option<AddressSpace>
    ensures { result ≡ plain_space number }
{
    if number == 0 {
        Some(AddressSpace::Memory)
    } else if number == 1 {
        Some(AddressSpace::Io)
    } else {
        None
    }
}
