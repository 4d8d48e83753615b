//! Values that steps take apart.
ghost use Rattle.std.specs.Prelude.{◌≡◌};
ghost use Rattle.ar_space.specs.Change.{Does};
ghost use Rattle.ar_space.specs.Outcome.{NotMemory};
ghost use Rattle.aml_world.specs.state.Readings.{integer_in};
ghost use Rattle.aml_meaning.specs.Calls.{value_of_call};
ghost use Rattle.aml_frames.specs.Uses.{told};

use crate::uses::Inquiry;
use aml_meaning::Flow;
use aml_objects::Value;
use aml_world::{Referent, WorldState};
use ar_space::Result;

/// The integer that a value is converted to: an integer is it already.
#[inline(always)]
#[tactic(auto, unfolding(aml_world::specs::state::Readings::integer_in))]
pub fn integer_of<S>(world: &WorldState<S>, value: Value) -> Result<u64>
    ensures answer { Does result world.now (integer_in value) world.now }
    ensures memory { NotMemory result }
{
    match value {
        Value::Integer(number) => Ok(number),
        _ => world.integer_in(value),
    }
}

/// The value of a call.
pub fn value_of_call(flow: Flow) -> Value
    ensures { result ≡ value_of_call flow }
{
    match flow {
        Flow::Value(value) => value,
        Flow::Next => Value::Uninitialized,
        Flow::Break => Value::Uninitialized,
        Flow::Continue => Value::Uninitialized,
        Flow::Return(_) => Value::Uninitialized,
    }
}

/// What SizeOf and ObjectType tell of a referent that is no field.
#[tactic(auto, using(aml_meaning::proofs::Runs::running))]
pub fn size_or_type<S>(world: &WorldState<S>, inquiry: Inquiry, referent: Referent) -> Result<Value>
    ensures answer { Does result world.now (told inquiry referent) world.now }
    ensures memory { NotMemory result }
{
    match inquiry {
        Inquiry::SizeOf => world.size(referent),
        Inquiry::ObjectType => Ok(Value::Integer(referent.object_type().number())),
    }
}
