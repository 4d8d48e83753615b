//! The types of objects (ACPI 6.5, 19.6, ObjectType).
ghost use Rattle.std.specs.Prelude.{◌≡◌};
ghost use Rattle.aml_world.specs.values.Operations.{type_number, type_of_value, type_of_field, type_of_referent};

use aml_objects::{Field, Value};

/// The type of an object.
#[derive(Clone, Copy, Debug, PartialEq, Eq)]
pub enum ObjectType {
    /// An uninitialized slot; a predefined scope has this type, too.
    Uninitialized,
    Integer,
    String,
    Buffer,
    Package,
    FieldUnit,
    Device,
    Event,
    Method,
    Mutex,
    OperationRegion,
    PowerResource,
    Processor,
    ThermalZone,
    /// A part of a buffer, or a byte of a buffer or a string.
    BufferField,
    DebugObject,
}

/// What a target holds when references are followed.
#[derive(Clone, Copy, Debug, PartialEq, Eq)]
pub enum Referent {
    /// A value that is no reference.
    Value(Value),
    /// An object that is no value.
    Object(ObjectType),
    /// A field that an element of a package names: the element stands for the field's value, which is read next.
    Field(Field),
    /// So many bytes that no object holds: the value of a field that is wider than integers are.
    Bytes(usize),
}

impl ObjectType {
    /// The number by which ObjectType tells it.
    pub fn number(self) -> u64
        ensures { result ≡ type_number self }
    {
        match self {
            ObjectType::Uninitialized => 0,
            ObjectType::Integer => 1,
            ObjectType::String => 2,
            ObjectType::Buffer => 3,
            ObjectType::Package => 4,
            ObjectType::FieldUnit => 5,
            ObjectType::Device => 6,
            ObjectType::Event => 7,
            ObjectType::Method => 8,
            ObjectType::Mutex => 9,
            ObjectType::OperationRegion => 10,
            ObjectType::PowerResource => 11,
            ObjectType::Processor => 12,
            ObjectType::ThermalZone => 13,
            ObjectType::BufferField => 14,
            ObjectType::DebugObject => 16,
        }
    }
}

impl Referent {
    /// Its type. A field that isn't read is one.
    pub fn object_type(self) -> ObjectType
        ensures { result ≡ type_of_referent self }
    {
        match self {
            Referent::Value(value) => type_of(value),
            Referent::Object(object_type) => object_type,
            Referent::Field(field) => type_of_field(field),
            Referent::Bytes(_) => ObjectType::Buffer,
        }
    }
}

fn type_of_field(field: Field) -> ObjectType
    ensures { result ≡ type_of_field field }
{
    match field {
        Field::Unit(_) => ObjectType::FieldUnit,
        Field::Buffer(_) => ObjectType::BufferField,
    }
}

fn type_of(value: Value) -> ObjectType
    ensures { result ≡ type_of_value value }
{
    match value {
        Value::Uninitialized => ObjectType::Uninitialized,
        Value::Integer(_) => ObjectType::Integer,
        Value::String(_) => ObjectType::String,
        Value::Buffer(_) => ObjectType::Buffer,
        Value::Package(_) => ObjectType::Package,
        Value::Reference(_) => ObjectType::Uninitialized,
    }
}
