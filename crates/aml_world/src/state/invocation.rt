//! What a name is where a value stands.

use aml_objects::{Body, Field, Value};
use aml_path::Path;

/// What a name is where a value stands (ACPI 6.5, 19.3.5 and 20.2.5, MethodInvocation).
#[derive(Debug, Drop)]
pub enum Invocation {
    /// A value: that which the name holds, or a reference to the name.
    Value(Value),
    /// The bits of a field.
    Field(Field),
    /// A call of the control method at this path, with this body.
    Method(Path, Body),
    /// A call of the predefined control method `\_OSI`.
    Osi,
}
