//! Which values are a world's own.
ghost use Rattle.std.specs.Prelude.{◌≡◌, nat_lt, length};
ghost use Rattle.aml_world.specs.state.Validity.{is_object, is_valid_reference, is_valid_value};

use crate::state::world_state::WorldState;
use aml_objects::{Reference, Value};

impl<S> WorldState<S> {
    /// Whether a value is one of this world: each object, declaration and frame that it names was given its number by
    /// this world, though a declaration or a frame may have ended since. Neither the elements of a package are looked
    /// at, nor whether an object is of the value's kind. It takes no memory.
    pub fn is_valid(&self, value: &Value) -> bool
        ensures { result ≡ is_valid_value self.now value.now }
    {
        match *value {
            Value::Uninitialized => true,
            Value::Integer(_) => true,
            Value::String(object) => self.has_object(object),
            Value::Buffer(object) => self.has_object(object),
            Value::Package(object) => self.has_object(object),
            Value::Reference(reference) => self.is_valid_reference(reference),
        }
    }

    fn is_valid_reference(&self, reference: Reference) -> bool
        ensures { result ≡ is_valid_reference self.now reference }
    {
        match reference {
            Reference::Name(number) => self.names().was_given(number),
            Reference::Slot(_, number) => number < self.started,
            Reference::Element(object, _) => self.has_object(object),
            Reference::Byte(object, _) => self.has_object(object),
        }
    }

    fn has_object(&self, object: u32) -> bool
        ensures { result ≡ is_object self.now object }
    {
        (object as usize) < self.heap.len()
    }
}
