//! What names find, and what values are, in a world (ACPI 6.5, 5.3 and 19.3.5).
ghost use Rattle.std.specs.Prelude.{◌≡◌};
ghost use Rattle.ar_space.specs.Change.{Does, DoesInPlace};
ghost use Rattle.ar_space.specs.Outcome.{AnswersInPlace, NotMemory, seen};
ghost use Rattle.aml_world.specs.state.Readings.{integer_kept, integer_in, entry_found, path_found, is_scope};
ghost use Rattle.aml_world.specs.state.Readings.{scope_or_not};
ghost use Rattle.aml_world.specs.state.Readings.{scope_found, arguments_of, arguments_found, as_many, read_as};

use crate::state::world_state::WorldState;
use aml_convert::{to_integer, truncate_integer};
use aml_namespace::{Located, Scope};
use aml_objects::{Entry, NamedObject, Reference, Value};
use aml_path::{NameString, Path};
use ar_space::{EvaluationFault, Refusal, Result, ValueFault};

impl<S> WorldState<S> {
    /// A number as an integer keeps it: its lowest 32 or 64 bits.
    #[tactic(auto, unfolding(crate::specs::state::Readings::integer_kept))]
    pub fn integer_kept(&self, number: u64) -> Result<Value>
        ensures { DoesInPlace result self.now (integer_kept number) self.now }
    {
        Ok(Value::Integer(truncate_integer(self.width, number)))
    }

    /// A value where an integer is wanted, converted to one; it is refused as conversions are.
    #[tactic(auto, unfolding(crate::specs::state::Readings::integer_in))]
    pub fn integer_in(&self, value: Value) -> Result<u64>
        ensures { DoesInPlace result self.now (integer_in value) self.now }
    {
        to_integer(self.width, self.heap.content(value))
    }

    /// What a name finds from a scope; refused as `Names::lookup` refuses it.
    #[tactic(auto, unfolding(crate::specs::state::Readings::entry_found))]
    pub(crate) fn entry(&self, scope: &Path, name: &NameString) -> Result<&Entry>
        ensures answer { Does (seen (λ e. e.now) result) self.now (entry_found scope.now name.now) self.now }
        ensures memory { NotMemory result }
    {
        self.names().lookup(scope, name)
    }

    /// The same from a scope.
    #[tactic(auto, unfolding(crate::specs::state::Readings::entry_found))]
    pub(crate) fn entry_in(&self, scope: Scope<'_>, name: &NameString) -> Result<&Entry>
        ensures answer { Does (seen (λ e. e.now) result) self.now (entry_found scope.entry.path.now name.now) self.now }
        ensures memory { NotMemory result }
    {
        self.names().lookup_in(scope, name)
    }

    /// The scope at a path, with the node that stands there.
    pub fn scope<'a>(&self, path: &'a Path) -> Scope<'a>
        ensures { result.path.now ≡ path.now }
    {
        self.names().scope(path)
    }

    /// The path of what a name finds from a scope, with the node that is found; refused as `Names::locate` refuses it.
    #[tactic(auto, unfolding(crate::specs::state::Readings::path_found))]
    pub fn locate(&self, scope: Scope<'_>, name: &NameString) -> Result<Located>
        ensures { Does result self.now (path_found scope.entry.path.now name.now) self.now }
    {
        self.names().locate_in(self.alloc, scope, name)
    }

    /// The path of the scope that a name finds: a predefined scope, a device, a processor, a power resource or a
    /// thermal zone. Anything else is refused as `WrongType` (ACPI 6.5, 19.6, Scope).
    #[tactic(auto, using(ar_space::proofs::Changes::changing), unfolding(crate::specs::state::Readings::scope_found))]
    pub fn locate_scope(&self, scope: Scope<'_>, name: &NameString) -> Result<Located>
        ensures { Does result self.now (scope_found scope.entry.path.now name.now) self.now }
    {
        let entry = self.entry_in(scope, name)?;
        scope_or_not(&entry.object)?;
        self.locate(scope, name)
    }

    /// How many arguments it takes to evaluate what a name finds: those of a control method, none of anything else.
    /// Refused as `Names::lookup` refuses it.
    #[tactic(auto, using(ar_space::proofs::Changes::changing), unfolding(crate::specs::state::Readings::arguments_found))]
    pub fn arguments(&self, scope: Scope<'_>, name: &NameString) -> Result<u8>
        ensures { DoesInPlace result self.now (arguments_found scope.entry.path.now name.now) self.now }
    {
        let entry = self.entry_in(scope, name)?;
        Ok(arguments_of(&entry.object))
    }
}

fn scope_or_not(object: &NamedObject) -> Result<()>
    ensures { AnswersInPlace result (scope_or_not object.now) }
{
    if is_scope(object) {
        Ok(())
    } else {
        Err(Refusal::Value(ValueFault::WrongType))
    }
}

/// Whether names may be declared in what stands there by a Scope term.
fn is_scope(object: &NamedObject) -> bool
    ensures { result ≡ is_scope object.now }
{
    match object {
        NamedObject::Scope => true,
        NamedObject::Device => true,
        NamedObject::Processor => true,
        NamedObject::PowerResource => true,
        NamedObject::ThermalZone => true,
        _ => false,
    }
}

pub(crate) fn as_many(wanted: u8, count: usize) -> Result<()>
    ensures { AnswersInPlace result (as_many wanted count) }
{
    if usize::from(wanted) == count {
        Ok(())
    } else {
        Err(Refusal::Evaluation(EvaluationFault::ArityChanged))
    }
}

/// How many arguments it takes to evaluate an object.
pub(crate) fn arguments_of(object: &NamedObject) -> u8
    ensures { result ≡ arguments_of object.now }
{
    match object {
        NamedObject::Method(method) => method.flags.arguments(),
        _ => 0,
    }
}

/// What a name is read as that holds a value: the value, or a reference to the name where that is a reference.
pub(crate) fn read_as(number: u64, value: Value) -> Value
    ensures { result ≡ read_as number value }
{
    match value {
        Value::Uninitialized => Value::Uninitialized,
        Value::Integer(number) => Value::Integer(number),
        Value::String(object) => Value::String(object),
        Value::Buffer(object) => Value::Buffer(object),
        Value::Package(object) => Value::Package(object),
        Value::Reference(_) => Value::Reference(Reference::Name(number)),
    }
}
