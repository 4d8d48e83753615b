//! What a value holds, as conversions and operators see it.
ghost use Rattle.std.specs.Prelude.{◌≡◌, slice_get};
ghost use Rattle.aml_objects.specs.Contents.{content_of, content_in, string_held, buffer_held};

use crate::heap::Heap;
use crate::object::Object;
use crate::value::Value;

/// What a value holds, as conversions and operators see it (ACPI 6.5, 19.3.5): an integer, the bytes of a string or
/// of a buffer, or something else, which none of them takes.
#[derive(Clone, Copy)]
pub enum Content<'a> {
    Integer(u64),
    String(&'a [u8]),
    Buffer(&'a [u8]),
    Other,
}

impl Heap {
    /// What a value holds. It takes no memory.
    pub fn content(&self, value: Value) -> Content<'_>
        ensures { content_of result ≡ content_in self.now value }
    {
        match value {
            Value::Integer(n) => Content::Integer(n),
            Value::String(object) => self.string_content(object),
            Value::Buffer(object) => self.buffer_content(object),
            Value::Uninitialized => Content::Other,
            Value::Package(_) => Content::Other,
            Value::Reference(_) => Content::Other,
        }
    }

    fn string_content(&self, object: u32) -> Content<'_>
        ensures { content_of result ≡ string_held (slice_get self.now object) }
    {
        match self.object(object) {
            None => Content::Other,
            Some(found) => match found {
                Object::String(bytes) => Content::String(bytes.as_slice()),
                Object::Buffer(_) => Content::Other,
                Object::Package(_) => Content::Other,
            },
        }
    }

    fn buffer_content(&self, object: u32) -> Content<'_>
        ensures { content_of result ≡ buffer_held (slice_get self.now object) }
    {
        match self.object(object) {
            None => Content::Other,
            Some(found) => match found {
                Object::Buffer(bytes) => Content::Buffer(bytes.as_slice()),
                Object::String(_) => Content::Other,
                Object::Package(_) => Content::Other,
            },
        }
    }
}
