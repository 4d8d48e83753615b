//! How objects are made, and how many of them.
ghost use Rattle.std.specs.Prelude.{◌++◌};
ghost use Rattle.ar_space.specs.Change.{Does};
ghost use Rattle.ar_space.specs.Outcome.{Answers};
ghost use Rattle.aml_objects.specs.Objects.{fits, few, make, make_string, make_buffer, make_package};

use crate::object::{Elements, Object, Octets};
use crate::value::Value;
use ar_space::{EvaluationFault, Refusal, Result};

/// How many objects a machine may have: the number of each is a `u32`.
const MAX_OBJECTS: usize = 262_144;

/// How many bytes a string or a buffer may have.
pub(crate) const MAX_BYTES: usize = 1_048_576;

/// How many elements a package may have.
const MAX_ELEMENTS: usize = 65_535;

/// A new object behind those of two lists, and its number; one too many is refused as `ObjectLimit`.
#[tactic(auto, unfolding(crate::specs::Objects::make))]
pub(crate) fn make(before: &[Object], objects: &mut Vec<Object>, object: Object) -> Result<u32>
    ensures { Does result (before.now ++ objects.new.items) (make object) (before.now ++ objects.old.items) }
{
    if objects.len() >= MAX_OBJECTS.saturating_sub(before.len()) {
        return Err(Refusal::Evaluation(EvaluationFault::ObjectLimit));
    }
    let number = before.len() + objects.len();
    objects.push(object)?;
    Ok(number as u32)
}

/// A package may have so many elements.
#[tactic(auto, unfolding(crate::specs::Objects::few))]
fn few(elements: &Elements) -> Result<()>
    ensures { Answers result (few elements.now) }
{
    if elements.as_slice().len() > MAX_ELEMENTS {
        return Err(Refusal::Evaluation(EvaluationFault::ObjectLimit));
    }
    Ok(())
}

/// A string or a buffer may have so many bytes.
#[tactic(auto, unfolding(crate::specs::Objects::fits))]
fn fits(bytes: &Octets) -> Result<()>
    ensures { Answers result (fits bytes.now) }
{
    if bytes.as_slice().len() > MAX_BYTES {
        return Err(Refusal::Evaluation(EvaluationFault::ObjectLimit));
    }
    Ok(())
}

/// A new string behind the objects of two lists.
#[tactic(auto, using(ar_space::proofs::Changes::changing), unfolding(crate::specs::Objects::make_string))]
pub(crate) fn make_string(
    before: &[Object],
    objects: &mut Vec<Object>,
    bytes: Octets,
) -> Result<Value>
    ensures { Does result (before.now ++ objects.new.items) (make_string bytes) (before.now ++ objects.old.items) }
{
    fits(&bytes)?;
    let number = make(before, objects, Object::String(bytes))?;
    Ok(Value::String(number))
}

/// A new buffer behind the objects of two lists.
#[tactic(auto, using(ar_space::proofs::Changes::changing), unfolding(crate::specs::Objects::make_buffer))]
pub(crate) fn make_buffer(
    before: &[Object],
    objects: &mut Vec<Object>,
    bytes: Octets,
) -> Result<Value>
    ensures { Does result (before.now ++ objects.new.items) (make_buffer bytes) (before.now ++ objects.old.items) }
{
    fits(&bytes)?;
    let number = make(before, objects, Object::Buffer(bytes))?;
    Ok(Value::Buffer(number))
}

/// A new package behind the objects of two lists.
#[tactic(auto, using(ar_space::proofs::Changes::changing), unfolding(crate::specs::Objects::make_package))]
pub(crate) fn make_package(
    before: &[Object],
    objects: &mut Vec<Object>,
    elements: Elements,
) -> Result<Value>
    ensures { Does result (before.now ++ objects.new.items) (make_package elements) (before.now ++ objects.old.items) }
{
    few(&elements)?;
    let number = make(before, objects, Object::Package(elements))?;
    Ok(Value::Package(number))
}
