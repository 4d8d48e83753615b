//! What an element of a package stands for that is a name.
ghost use Rattle.ar_space.specs.Change.{Does};
ghost use Rattle.ar_space.specs.Outcome.{Answers, seen};
ghost use Rattle.aml_path.specs.Paths.{resolved};
ghost use Rattle.aml_namespace.specs.Search.{found};
ghost use Rattle.aml_world.specs.state.NameUses.{name_use, value_or_path, held_or_path, path_of};
ghost use Rattle.aml_world.specs.state.Given.{given_of};
ghost use Rattle.aml_world.specs.declared.state.name_use.NameUse.TheVariants as uses;

use crate::state::datum::Datum;
use crate::state::world_state::WorldState;
use aml_objects::{Field, NamedObject, NodeId, Value};
use aml_path::{NameString, Path};
use ar_space::Result;
use std::alloc::Global;

/// What an element of a package stands for that is a name.
#[derive(Drop)]
pub enum NameUse {
    /// The value that the name holds.
    Value(Value),
    /// The bits of a field.
    Field(Field),
    /// The path of what holds no value, or the path that the name would have where nothing is found.
    Path(Path),
}

impl<S> WorldState<S> {
    /// What an element of a package stands for that is a name, searched for from the scope where the package was made.
    #[tactic(auto, unfolding(crate::specs::state::NameUses::name_use))]
    pub fn name_use(&self, name: &NameString, scope: &Path) -> Result<NameUse>
        ensures { Does result self.now (name_use name.now scope.now) self.now }
    {
        match self.names().lookup(scope, name) {
            Ok(entry) => self.held_or_path(&entry.object, name, scope),
            Err(_) => path_it_would_have(self.alloc, name, scope),
        }
    }

    fn held_or_path(&self, object: &NamedObject, name: &NameString, scope: &Path) -> Result<NameUse>
        ensures { Answers result (held_or_path object.now (seen (λ f. f.0)
            (found self.now.names.map scope.now name.now))) }
    {
        match object {
            NamedObject::Data(value) => self.value_or_path(*value, name, scope),
            NamedObject::FieldUnit(unit) => Ok(NameUse::Field(Field::Unit(*unit))),
            NamedObject::BufferField(field) => Ok(NameUse::Field(Field::Buffer(*field))),
            _ => self.path_found(name, scope),
        }
    }

    /// A name that holds a reference stands for itself, any other for its value.
    fn value_or_path(&self, value: Value, name: &NameString, scope: &Path) -> Result<NameUse>
        ensures { Answers result (value_or_path value (seen (λ f. f.0) (found self.now.names.map scope.now name.now))) }
    {
        match value {
            Value::Uninitialized => Ok(NameUse::Value(Value::Uninitialized)),
            Value::Integer(number) => Ok(NameUse::Value(Value::Integer(number))),
            Value::String(object) => Ok(NameUse::Value(Value::String(object))),
            Value::Buffer(object) => Ok(NameUse::Value(Value::Buffer(object))),
            Value::Package(object) => Ok(NameUse::Value(Value::Package(object))),
            Value::Reference(_) => self.path_found(name, scope),
        }
    }

    fn path_found(&self, name: &NameString, scope: &Path) -> Result<NameUse>
        ensures { Answers result (seen uses.Path (seen (λ f. f.0) (found self.now.names.map scope.now name.now))) }
    {
        match self.names().locate(self.alloc, scope, name) {
            Ok(path) => Ok(NameUse::Path(path)),
            Err(refusal) => Err(refusal),
        }
    }

    /// What the name of a declaration is handed out as: its path while it stands, and a reference to nothing else.
    #[tactic(auto, unfolding(crate::specs::state::NameUses::path_of))]
    pub fn path_of(&self, number: u64) -> Result<Datum>
        ensures { Does (seen given_of result) self.now (path_of number) self.now }
    {
        match self.names().path_of(self.alloc, NodeId::numbered(number))? {
            None => Ok(Datum::Reference),
            Some(path) => Ok(Datum::Named(path)),
        }
    }
}

fn path_it_would_have(alloc: Global, name: &NameString, scope: &Path) -> Result<NameUse>
    ensures { Answers result (seen uses.Path (resolved name.now scope.now)) }
{
    match name.resolve_in(alloc, scope) {
        Ok(path) => Ok(NameUse::Path(path)),
        Err(refusal) => Err(refusal),
    }
}
