//! The strings and buffers that operators form.

use aml_objects::Octets;

/// A string or a buffer that an operator forms, before it is an object.
#[derive(Debug, Drop)]
pub enum Formed {
    String(Octets),
    Buffer(Octets),
}
