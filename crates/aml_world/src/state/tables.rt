//! The arguments that names take, and freeing all mutexes (ACPI 6.5, 5.4).
ghost use Rattle.std.specs.Prelude.{◌≡◌, []};
ghost use Rattle.aml_world.specs.state.Mutexes.{released};

use crate::state::world_state::WorldState;
use aml_arities::Arities;

impl<S> WorldState<S> {
    /// The arguments that names take, as the tables so far have declared them, and as Externals told.
    pub fn arities(&self) -> &Arities
        ensures { result.now ≡ self.now.arities }
    {
        &self.declarations.arities
    }

    /// Hands out the arguments that names take, and keeps none: they are set again once more are declared. It takes
    /// no memory.
    pub fn take_arities(&mut self) -> Arities
        ensures arities { result ≡ self.old.arities }
        ensures none { self.new ≡ record self.old { arities = [] } }
    {
        self.declarations.replace_arities(Arities::new(self.alloc))
    }

    /// Takes over the arguments that names take from now on. It takes no memory.
    pub fn set_arities(&mut self, arities: Arities)
        ensures { self.new ≡ record self.old { arities = arities } }
    {
        self.declarations.replace_arities(arities);
    }

    /// Frees all mutexes, as at the end of each evaluation. It takes no memory.
    pub fn release_mutexes(&mut self)
        ensures { self.new ≡ released self.old }
    {
        self.declarations.release_mutexes();
    }
}
