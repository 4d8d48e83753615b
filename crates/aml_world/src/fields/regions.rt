//! Operation regions and the field units in them, as they were declared (ACPI 6.5, 5.5.2.4).
ghost use Rattle.std.specs.Prelude.{◌≡◌, nat_lt};
ghost use Rattle.ar_space.specs.Change.{Does, DoesInPlace};
ghost use Rattle.ar_space.specs.Outcome.{AnswersInPlace, NotMemory, seen};
ghost use Rattle.aml_convert.specs.Integers.{bits_of};
ghost use Rattle.aml_namespace.specs.Namespace.{above};
ghost use Rattle.aml_world.specs.fields.Regions.{space_numbered, integer_only, pci_space, region_of_object};
ghost use Rattle.aml_world.specs.fields.Regions.{region_declared};
ghost use Rattle.aml_world.specs.fields.Regions.{region_field, field_of_object, field_declared, integer_of_bits};
ghost use Rattle.aml_world.specs.fields.Regions.{integer_value, value_of_bits, integer_alone, given_of_bits};
ghost use Rattle.aml_world.specs.fields.Regions.{referent_of_bits};
ghost use Rattle.aml_world.specs.state.Given.{given_of};

use crate::state::datum::Datum;
use crate::state::world_state::WorldState;
use crate::values::object_type::Referent;
use aml_convert::to_integer;
use aml_fields::AddressSpace;
use aml_objects::{Content, FieldSource, FieldUnit, NamedObject, Octets, OperationRegion, Value};
use aml_path::Path;
use ar_space::{EvaluationFault, FieldFault, IntegerWidth, Refusal, Result, ValueFault};

/// The address space of an operation region.
#[derive(Clone, Copy, Debug, PartialEq, Eq)]
pub enum RegionSpace {
    SystemMemory,
    SystemIo,
    PciConfig,
    /// Any other, whose registers are not accessed.
    Other,
}

/// A field unit that lies in an operation region, which the number of its declaration gives.
#[derive(Clone, Copy, Debug, PartialEq, Eq)]
pub struct RegionField {
    pub region: u64,
    pub unit: FieldUnit,
}

/// The address space with a number.
pub fn space_numbered(number: u8) -> RegionSpace
    ensures { result ≡ space_numbered number }
{
    if number == 0 {
        RegionSpace::SystemMemory
    } else if number == 1 {
        RegionSpace::SystemIo
    } else if number == 2 {
        RegionSpace::PciConfig
    } else {
        RegionSpace::Other
    }
}

/// What an object answers that is a part of an address: an integer. Nothing is refused as `NoValue`, anything else as
/// `WrongType`; no value is converted.
pub fn integer_only(value: Value) -> Result<u64>
    ensures { AnswersInPlace result (integer_only value) }
{
    match value {
        Value::Uninitialized => Err(Refusal::Evaluation(EvaluationFault::NoValue)),
        Value::Integer(number) => Ok(number),
        Value::String(_) => Err(Refusal::Value(ValueFault::WrongType)),
        Value::Buffer(_) => Err(Refusal::Value(ValueFault::WrongType)),
        Value::Package(_) => Err(Refusal::Value(ValueFault::WrongType)),
        Value::Reference(_) => Err(Refusal::Value(ValueFault::WrongType)),
    }
}

/// The registers of a PCI function, by its segment group, its bus, and its address (device in the high word, function
/// in the low one). A number that is out of range is refused as `RegionLimit`.
pub fn pci_space(segment: u64, bus: u64, address: u64) -> Result<AddressSpace>
    ensures { AnswersInPlace result (pci_space segment bus address) }
{
    let device = address / 65536;
    let function = address % 65536;
    if segment < 65536 && (bus < 256 && (device < 32 && function < 8)) {
        Ok(AddressSpace::Pci {
            seg: segment as u16,
            bus: bus as u8,
            dev: device as u8,
            func: function as u8,
        })
    } else {
        Err(Refusal::Field(FieldFault::RegionLimit))
    }
}

impl<S> WorldState<S> {
    /// The operation region with the number of a declaration, and the scope that it was declared in; one that is gone
    /// is refused as `DeadReference`.
    #[tactic(auto, using(ar_space::proofs::Changes::changing), unfolding(crate::specs::fields::Regions::region_declared))]
    pub fn region_declared(&self, number: u64) -> Result<(Path, OperationRegion)>
        ensures { Does result self.now (region_declared number) self.now }
    {
        let (path, entry) = self.placed_declaration(number)?;
        let region = region_of_object(&entry.object)?;
        Ok((above(path.into_path()), region))
    }

    /// The field unit of a region with the number of a declaration; one that is gone is refused as `DeadReference`.
    #[tactic(auto, using(ar_space::proofs::Changes::changing, crate::proofs::Declared::declared), unfolding(crate::specs::fields::Regions::field_declared))]
    pub fn field_declared(&self, number: u64) -> Result<RegionField>
        ensures { DoesInPlace result self.now (field_declared number) self.now }
    {
        let entry = self.declaration(number)?;
        field_of_object(&entry.object)
    }

    /// The bits of a field as a value: an integer where they are no more than an integer has, else a new buffer,
    /// refused as `make_buffer` refuses it.
    #[tactic(auto, unfolding(crate::specs::fields::Regions::value_of_bits))]
    pub fn value_of_bits(&mut self, count: u32, bytes: Octets) -> Result<Value>
        ensures { Does result self.new (value_of_bits count bytes) self.old }
    {
        if is_wide(self.width, count) {
            self.heap.make_buffer(bytes)
        } else {
            self.integer_value(bytes.as_slice())
        }
    }

    /// The bits of a field as an integer, converted as a buffer is.
    #[tactic(auto, unfolding(crate::specs::fields::Regions::integer_of_bits))]
    pub fn integer_of_bits(&self, bytes: &[u8]) -> Result<u64>
        ensures { DoesInPlace result self.now (integer_of_bits bytes.now) self.now }
    {
        to_integer(self.width, Content::Buffer(bytes))
    }

    /// The bits of a field as a part of an address; more than an integer has are refused as `WrongType`.
    #[tactic(auto, unfolding(crate::specs::fields::Regions::integer_alone))]
    pub fn integer_alone(&self, count: u32, bytes: &[u8]) -> Result<u64>
        ensures { DoesInPlace result self.now (integer_alone count bytes.now) self.now }
    {
        if is_wide(self.width, count) {
            Err(Refusal::Value(ValueFault::WrongType))
        } else {
            self.integer_of_bits(bytes)
        }
    }

    /// The bits of a field as they are handed out: an integer where they are no more than an integer has, else bytes.
    /// No object is made.
    #[tactic(auto, unfolding(crate::specs::fields::Regions::given_of_bits))]
    pub fn datum_of_bits(&self, count: u32, bytes: Octets) -> Result<Datum>
        ensures answer { Does (seen given_of result) self.now (given_of_bits count bytes) self.now }
        ensures memory { NotMemory result }
    {
        if is_wide(self.width, count) {
            return Ok(Datum::Bytes(bytes));
        }
        match to_integer(self.width, Content::Buffer(bytes.as_slice())) {
            Ok(number) => Ok(Datum::Integer(number)),
            Err(refusal) => Err(refusal),
        }
    }

    /// The bits of a field as what SizeOf and ObjectType speak of: an integer where they are no more than an integer
    /// has, else so many bytes. No object is made.
    #[tactic(auto, unfolding(crate::specs::fields::Regions::referent_of_bits))]
    pub fn referent_of_bits(&self, count: u32, bytes: &[u8]) -> Result<Referent>
        ensures { DoesInPlace result self.now (referent_of_bits count bytes.now) self.now }
    {
        if is_wide(self.width, count) {
            return Ok(Referent::Bytes(bytes.len()));
        }
        match to_integer(self.width, Content::Buffer(bytes)) {
            Ok(number) => Ok(Referent::Value(Value::Integer(number))),
            Err(refusal) => Err(refusal),
        }
    }

    #[tactic(auto, using(ar_space::proofs::Changes::changing), unfolding(crate::specs::fields::Regions::integer_value))]
    fn integer_value(&self, bytes: &[u8]) -> Result<Value>
        ensures { DoesInPlace result self.now (integer_value bytes.now) self.now }
    {
        let number = self.integer_of_bits(bytes)?;
        Ok(Value::Integer(number))
    }
}

/// The path one level up; the root stands for its own.
fn above(path: Path) -> Path
    ensures { result ≡ above path }
{
    let mut segments = path.into_vec();
    segments.pop();
    Path::from_vec(segments)
}

/// Whether so many bits are more than an integer has.
pub(crate) fn is_wide(width: IntegerWidth, count: u32) -> bool
    ensures { result ≡ nat_lt (bits_of width) count }
{
    u32::from(integer_bits(width)) < count
}

/// How many bits integers have.
fn integer_bits(width: IntegerWidth) -> u8
    ensures { result ≡ bits_of width }
{
    match width {
        IntegerWidth::Bits32 => 32,
        IntegerWidth::Bits64 => 64,
    }
}

fn region_of_object(object: &NamedObject) -> Result<OperationRegion>
    ensures { AnswersInPlace result (region_of_object object.now) }
{
    match object {
        NamedObject::OperationRegion(region) => Ok(*region),
        _ => Err(Refusal::Evaluation(EvaluationFault::DeadReference)),
    }
}

fn field_of_object(object: &NamedObject) -> Result<RegionField>
    ensures { AnswersInPlace result (field_of_object object.now) }
{
    match object {
        NamedObject::FieldUnit(unit) => region_field(unit.source, *unit),
        _ => Err(Refusal::Evaluation(EvaluationFault::DeadReference)),
    }
}

fn region_field(source: FieldSource, unit: FieldUnit) -> Result<RegionField>
    ensures { AnswersInPlace result (region_field source unit) }
{
    match source {
        FieldSource::Region(region) => Ok(RegionField { region, unit }),
        FieldSource::Index(_, _) => Err(Refusal::Evaluation(EvaluationFault::DeadReference)),
        FieldSource::Bank(_, _) => Err(Refusal::Evaluation(EvaluationFault::DeadReference)),
    }
}
