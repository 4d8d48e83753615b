//! Declarations in the world's namespace (ACPI 6.5, 5.3 and 19.6).
ghost use Rattle.std.specs.Prelude.{◌≡◌, OnErr};
ghost use Rattle.ar_space.specs.Outcome.{AnswersInPlace};
ghost use Rattle.ar_space.specs.Change.{Does};
ghost use Rattle.aml_namespace.specs.Namespace.{declared, without_below};
ghost use Rattle.aml_world.specs.state.State.{on_names};
ghost use Rattle.aml_world.specs.state.Declaring.{not_in_method, no_method, new_name, new_method};

use crate::state::world_state::WorldState;
use aml_objects::{Body, Method, MethodBody, MethodFlags, NamedObject, Octets};
use aml_path::Path;
use ar_space::{NamespaceFault, Refusal, Result};

impl<S> WorldState<S> {
    /// Declares a name, and gives the number of the declaration, which is never given again.
    ///
    /// A name whose parent doesn't stand is refused as `NotFound`, one that stands already as `Exists`, and one for
    /// which no number is left as `ObjectLimit`. Where a name is refused, nothing changes.
    #[tactic(auto, using(crate::proofs::Lifted::parts))]
    pub fn declare(&mut self, path: Path, object: NamedObject) -> Result<u64>
        ensures world { Does result self.new (on_names (declared path object)) self.old }
        ensures space { self.new.space ≡ self.old.space }
        ensures refused { OnErr result (self.new ≡ self.old) }
    {
        self.declarations.insert(path, object)
    }

    /// Declares a name; at module level its parent may be no control method, which is refused as `NotFound`, too.
    #[tactic(auto, using(ar_space::proofs::Changes::changing), unfolding(crate::specs::state::Declaring::new_name))]
    pub fn new_name(&mut self, module_level: bool, path: Path, object: NamedObject) -> Result<u64>
        ensures change { Does result self.new (new_name module_level path object) self.old }
        ensures refused { OnErr result (self.new ≡ self.old) }
    {
        self.not_in_method(module_level, &path)?;
        self.declare(path, object)
    }

    /// Declares a control method with its flags and its body; refused as `new_name` refuses it, and then nothing
    /// changes.
    #[tactic(auto, unfolding(crate::specs::state::Declaring::new_method))]
    pub fn new_method(
        &mut self,
        module_level: bool,
        path: Path,
        flags: MethodFlags,
        body: Octets,
    ) -> Result<u64>
        ensures change { Does result self.new (new_method module_level path flags body) self.old }
        ensures refused { OnErr result (self.new ≡ self.old) }
    {
        match Body::new(self.alloc, body) {
            Ok(body) => {
                let body = MethodBody::Aml(body);
                let method = NamedObject::Method(Method { flags, body });
                self.new_name(module_level, path, method)
            }
            Err(refusal) => Err(refusal),
        }
    }

    #[tactic(auto, unfolding(crate::specs::state::Declaring::not_in_method))]
    fn not_in_method(&self, module_level: bool, path: &Path) -> Result<()>
        ensures { Does result self.now (not_in_method module_level path.now) self.now }
    {
        if !module_level {
            return Ok(());
        }
        let above = path.prefix(self.alloc, path.depth().saturating_sub(1))?;
        match self.names().get(&above) {
            None => Ok(()),
            Some(entry) => no_method(&entry.object),
        }
    }

    /// Removes the names below a path, and not the name at it. It takes no memory.
    pub fn remove_below(&mut self, path: &Path)
        ensures { self.new ≡ record self.old { names = without_below path.now self.old.names } }
    {
        self.declarations.remove_below(path);
    }
}

fn no_method(object: &NamedObject) -> Result<()>
    ensures { AnswersInPlace result (no_method object.now) }
{
    match object {
        NamedObject::Method(_) => Err(Refusal::Namespace(NamespaceFault::NotFound)),
        _ => Ok(()),
    }
}
