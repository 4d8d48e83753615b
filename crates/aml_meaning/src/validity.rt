//! Which values are a world's own.
ghost use Rattle.std.specs.Prelude.{◌≡◌};
ghost use Rattle.aml_world.specs.state.Validity.{is_valid_value};

use crate::world::World;
use aml_objects::Value;

impl<S> World<S> {
    /// Whether a value is one of this world: each object, declaration and frame that it names was given its number by
    /// this world, though a declaration or a frame may have ended since. Neither the elements of a package are looked
    /// at, nor whether an object is of the value's kind. It takes no memory.
    pub fn is_valid(&self, value: &Value) -> bool
        ensures { result ≡ is_valid_value self.now value.now }
    {
        self.running.world.is_valid(value)
    }
}
