//! Declarations of fields (ACPI 6.5, 19.6: Field, IndexField, BankField; 20.2.5.2: FieldFlags, FieldList).
ghost use Rattle.std.specs.Prelude.{◌≡◌};
ghost use Rattle.ar_space.specs.Outcome.{AnswersInPlace};
ghost use Rattle.ar_space.specs.Change.{Does, DoesInPlace};
ghost use Rattle.aml_world.specs.fields.FieldLayouts.{width_numbered, access_width, rule_numbered, update_rule, sized};
ghost use Rattle.aml_world.specs.fields.FieldLayouts.{further, new_field, region_number, region_found, in_region};
ghost use Rattle.aml_world.specs.fields.FieldLayouts.{field_number, field_found, connection_buffer, connection_found};

use crate::fields::buffer_fields::buffer_of;
use crate::state::world_state::WorldState;
use aml_namespace::Scope;
use aml_objects::{FieldSource, FieldUnit, NamedObject, UpdateRule};
use aml_path::{NameString, Path};
use ar_space::{FieldFault, Refusal, Result, ValueFault, Width};

/// How many bits a field may have.
const MAX_BITS: u64 = 8_388_608;

/// What the fields of a list have in common: what they lie in, and what a write does with the other bits of a unit.
#[derive(Clone, Copy, Debug, PartialEq, Eq)]
pub struct FieldGroup {
    pub source: FieldSource,
    pub update: UpdateRule,
}

/// Where the next field of a list begins, and how wide its accesses are.
#[derive(Clone, Copy, Debug, PartialEq, Eq)]
pub struct FieldLayout {
    /// In bits, from the front of the region or of what lies behind the index field.
    pub bit_offset: u64,
    pub access: Width,
}

impl FieldLayout {
    /// So many bits further on; an offset of 2^64 and more is refused as `FieldLimit`.
    pub fn further(self, count: u64) -> Result<FieldLayout>
        ensures { AnswersInPlace result (further self count) }
    {
        match self.bit_offset.checked_add(count) {
            Some(bit_offset) => Ok(FieldLayout {
                bit_offset,
                access: self.access,
            }),
            None => Err(Refusal::Field(FieldFault::FieldLimit)),
        }
    }

    /// The same place, with other accesses.
    pub fn with_access(self, flags: u64) -> FieldLayout
        ensures { result ≡ record self { access = access_width flags } }
    {
        FieldLayout {
            bit_offset: self.bit_offset,
            access: access_width(flags),
        }
    }
}

/// How wide the accesses are that field flags or an access type ask for: their lowest four bits. Any other than word,
/// double word and quad word access is byte access.
pub fn access_width(flags: u64) -> Width
    ensures { result ≡ access_width flags }
{
    let access = flags % 16;
    if access == 2 {
        Width::W16
    } else if access == 3 {
        Width::W32
    } else if access == 4 {
        Width::W64
    } else {
        Width::W8
    }
}

/// The update rule of field flags: their bits 5 and 6. The number 3, which has no meaning, is read as 0.
pub fn update_rule(flags: u64) -> UpdateRule
    ensures { result ≡ update_rule flags }
{
    let update = flags / 32 % 4;
    if update == 1 {
        UpdateRule::WriteAsOnes
    } else if update == 2 {
        UpdateRule::WriteAsZeros
    } else {
        UpdateRule::Preserve
    }
}

impl<S> WorldState<S> {
    /// Declares a field unit of so many bits where a list of fields has come to, and gives where it goes on.
    ///
    /// A field of no bits, or of more than 8,388,608, is refused as `FieldLimit`, and its name as `new_name` refuses
    /// it.
    #[tactic(auto, using(ar_space::proofs::Changes::changing), unfolding(crate::specs::fields::FieldLayouts::new_field))]
    pub fn new_field(
        &mut self,
        group: FieldGroup,
        module_level: bool,
        path: Path,
        at: FieldLayout,
        count: u64,
    ) -> Result<FieldLayout>
        ensures { Does result self.new (new_field group module_level path at count) self.old }
    {
        let bits = field_size(count)?;
        let unit = FieldUnit {
            source: group.source,
            bit_offset: at.bit_offset,
            bits,
            access: at.access,
            update: group.update,
        };
        self.new_name(module_level, path, NamedObject::FieldUnit(unit))?;
        at.further(count)
    }

    /// The number of the declaration of the operation region that a name finds; anything else is refused as
    /// `WrongType`, and a name that isn't found as `Names::lookup` refuses it.
    #[tactic(auto, using(ar_space::proofs::Changes::changing), unfolding(crate::specs::fields::FieldLayouts::region_found))]
    pub fn region_found(&self, scope: Scope<'_>, name: &NameString) -> Result<u64>
        ensures { DoesInPlace result self.now (region_found scope.entry.path.now name.now) self.now }
    {
        let entry = self.entry_in(scope, name)?;
        region_number(entry.number, &entry.object)
    }

    /// The number of the declaration of the field that a name finds, which Field declared; anything else is refused
    /// as `WrongType`, and a name that isn't found as `Names::lookup` refuses it.
    #[tactic(auto, using(ar_space::proofs::Changes::changing), unfolding(crate::specs::fields::FieldLayouts::field_found))]
    pub fn field_found(&self, scope: Scope<'_>, name: &NameString) -> Result<u64>
        ensures { DoesInPlace result self.now (field_found scope.entry.path.now name.now) self.now }
    {
        let entry = self.entry_in(scope, name)?;
        field_number(entry.number, &entry.object)
    }

    /// The buffer that a name in a Connection finds; anything else is refused as `WrongType`, and a name that isn't
    /// found as `Names::lookup` refuses it.
    #[tactic(auto, using(ar_space::proofs::Changes::changing), unfolding(crate::specs::fields::FieldLayouts::connection_found))]
    pub fn connection_found(&self, scope: Scope<'_>, name: &NameString) -> Result<u32>
        ensures { DoesInPlace result self.now (connection_found scope.entry.path.now name.now) self.now }
    {
        let entry = self.entry_in(scope, name)?;
        connection_buffer(&entry.object)
    }
}

/// How many bits a named field has: 1 to 8,388,608; any other number is refused as `FieldLimit`.
pub fn field_size(count: u64) -> Result<u32>
    ensures { AnswersInPlace result (sized count) }
{
    if count == 0 || MAX_BITS < count {
        Err(Refusal::Field(FieldFault::FieldLimit))
    } else {
        Ok(count as u32)
    }
}

fn region_number(number: u64, object: &NamedObject) -> Result<u64>
    ensures { AnswersInPlace result (region_number number object.now) }
{
    match object {
        NamedObject::OperationRegion(_) => Ok(number),
        _ => Err(Refusal::Value(ValueFault::WrongType)),
    }
}

fn connection_buffer(object: &NamedObject) -> Result<u32>
    ensures { AnswersInPlace result (connection_buffer object.now) }
{
    match object {
        NamedObject::Data(value) => buffer_of(*value),
        _ => Err(Refusal::Value(ValueFault::WrongType)),
    }
}

fn field_number(number: u64, object: &NamedObject) -> Result<u64>
    ensures { AnswersInPlace result (field_number number object.now) }
{
    match object {
        NamedObject::FieldUnit(unit) => in_region(number, unit.source),
        _ => Err(Refusal::Value(ValueFault::WrongType)),
    }
}

fn in_region(number: u64, source: FieldSource) -> Result<u64>
    ensures { AnswersInPlace result (in_region number source) }
{
    match source {
        FieldSource::Region(_) => Ok(number),
        FieldSource::Index(_, _) => Err(Refusal::Value(ValueFault::WrongType)),
        FieldSource::Bank(_, _) => Err(Refusal::Value(ValueFault::WrongType)),
    }
}
