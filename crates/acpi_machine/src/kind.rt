//! What stands at a path, as callers are shown it.
ghost use Rattle.std.specs.Prelude.{◌≡◌};
ghost use Rattle.acpi_machine.specs.Kinds.{kind_seen, kind_of, kind_of_value};

use aml_objects::{NamedObject, Value};
use aml_path::Path;

/// What stands at a path of the namespace (ACPI 6.5, 5.3 and 19.3.5).
#[derive(Clone, Copy, Debug)]
pub enum Kind<'a> {
    /// A predefined scope, or the root.
    Scope,
    Device,
    Processor,
    PowerResource,
    ThermalZone,
    /// A control method, and how many arguments it takes: 0 to 7.
    Method(u8),
    /// A name that holds no value. No declaration or store leaves one.
    Uninitialized,
    /// A name that holds an integer.
    Integer,
    /// A name that holds a string.
    String,
    /// A name that holds a buffer.
    Buffer,
    /// A name that holds a package.
    Package,
    /// A name that holds a reference.
    Reference,
    FieldUnit,
    BufferField,
    /// An operation region.
    Region,
    Mutex,
    Event,
    /// Another name for what stands at this path.
    Alias(&'a Path),
}

/// What a declared object is shown as.
pub(crate) fn kind_of(object: &NamedObject) -> Kind<'_>
    ensures { kind_seen result ≡ kind_of object.now }
{
    match object {
        NamedObject::Scope => Kind::Scope,
        NamedObject::Device => Kind::Device,
        NamedObject::Processor => Kind::Processor,
        NamedObject::PowerResource => Kind::PowerResource,
        NamedObject::ThermalZone => Kind::ThermalZone,
        NamedObject::Method(method) => Kind::Method(method.flags.arguments()),
        NamedObject::Data(value) => kind_of_value(*value),
        NamedObject::OperationRegion(_) => Kind::Region,
        NamedObject::FieldUnit(_) => Kind::FieldUnit,
        NamedObject::BufferField(_) => Kind::BufferField,
        NamedObject::Mutex(_) => Kind::Mutex,
        NamedObject::Event(_) => Kind::Event,
        NamedObject::Alias(path) => Kind::Alias(path),
    }
}

/// What a name is shown as that holds a value.
fn kind_of_value(value: Value) -> Kind<'static>
    ensures { kind_seen result ≡ kind_of_value value }
{
    match value {
        Value::Uninitialized => Kind::Uninitialized,
        Value::Integer(_) => Kind::Integer,
        Value::String(_) => Kind::String,
        Value::Buffer(_) => Kind::Buffer,
        Value::Package(_) => Kind::Package,
        Value::Reference(_) => Kind::Reference,
    }
}
