//! What references refer to in the end (ACPI 6.5, 19.6: SizeOf, ObjectType).
ghost use Rattle.std.specs.Prelude.{◌≡◌};
ghost use Rattle.ar_space.specs.Change.{DoesInPlace};
ghost use Rattle.aml_world.specs.values.StoreTargets.{referent_of, element_named, value_followed, referent_followed};
ghost use Rattle.aml_world.specs.values.StoreTargets.{declared_followed, slot_followed, name_followed};
ghost use Rattle.aml_world.specs.values.StoreTargets.{element_followed};
ghost use Rattle.aml_world.specs.values.StoreTargets.{held_followed, byte_followed, reference_followed, followed};
ghost use Rattle.aml_world.specs.values.StoreTargets.{most_references, slot_referent, declared_referent, name_referent};
ghost use Rattle.aml_world.specs.values.StoreTargets.{target_referent};

use crate::state::readings::read_as;
use crate::state::world_state::WorldState;
use crate::values::object_type::{ObjectType, Referent};
use crate::values::store_target::StoreTarget;
use aml_namespace::Located;
use aml_objects::{Element, Field, NamedObject, Reference, Slot, Value};
use aml_path::{NameString, Path};
use ar_space::{EvaluationFault, NamespaceFault, Refusal, Result};

/// How many references are followed one after another.
pub(crate) const MOST_REFERENCES: usize = 64;

impl<S> WorldState<S> {
    /// What a target holds when references are followed, at most 64 of them. A field that an element of a package names
    /// is handed back, for its value to be read. A reference to what is gone, and a longer chain, are refused as
    /// `DeadReference`.
    #[tactic(auto, using(ar_space::proofs::Changes::changing))]
    pub fn target_referent(&self, target: &StoreTarget) -> Result<Referent>
        ensures { DoesInPlace result self.now (target_referent target.now) self.now }
    {
        match target {
            StoreTarget::Nowhere => Ok(Referent::Object(ObjectType::DebugObject)),
            StoreTarget::Slot(slot) => self.slot_referent(*slot),
            StoreTarget::Name(path) => self.name_referent(path),
            StoreTarget::Refers(reference) => follow(self, MOST_REFERENCES, *reference),
        }
    }

    /// What a value refers to when references are followed, at most 64 of them; itself where it is no reference.
    pub fn value_referent(&self, value: Value) -> Result<Referent>
        ensures { DoesInPlace result self.now (value_followed (followed most_references) value) self.now }
    {
        value_followed(self, MOST_REFERENCES, value)
    }

    #[tactic(auto, using(ar_space::proofs::Changes::changing), unfolding(crate::specs::values::StoreTargets::slot_referent))]
    fn slot_referent(&self, slot: Slot) -> Result<Referent>
        ensures { DoesInPlace result self.now (slot_referent slot) self.now }
    {
        let value = self.own_slot(slot)?;
        value_followed(self, MOST_REFERENCES, value)
    }

    #[tactic(auto, using(ar_space::proofs::Changes::changing), unfolding(crate::specs::values::StoreTargets::name_referent))]
    fn name_referent(&self, path: &Located) -> Result<Referent>
        ensures { DoesInPlace result self.now (name_referent path.now) self.now }
    {
        let referent = self.declared_referent(path)?;
        referent_followed(self, MOST_REFERENCES, referent)
    }

    #[tactic(auto, unfolding(crate::specs::values::StoreTargets::declared_referent))]
    fn declared_referent(&self, path: &Located) -> Result<Referent>
        ensures { DoesInPlace result self.now (declared_referent path.now) self.now }
    {
        match self.names().get_located(path) {
            None => Err(Refusal::Namespace(NamespaceFault::NotFound)),
            Some(entry) => Ok(referent_of(&entry.object)),
        }
    }
}

fn referent_of(object: &NamedObject) -> Referent
    ensures { result ≡ referent_of object.now }
{
    match object {
        NamedObject::Data(value) => Referent::Value(*value),
        NamedObject::Scope => Referent::Object(ObjectType::Uninitialized),
        NamedObject::Device => Referent::Object(ObjectType::Device),
        NamedObject::Processor => Referent::Object(ObjectType::Processor),
        NamedObject::PowerResource => Referent::Object(ObjectType::PowerResource),
        NamedObject::ThermalZone => Referent::Object(ObjectType::ThermalZone),
        NamedObject::Method(_) => Referent::Object(ObjectType::Method),
        NamedObject::OperationRegion(_) => Referent::Object(ObjectType::OperationRegion),
        NamedObject::FieldUnit(_) => Referent::Object(ObjectType::FieldUnit),
        NamedObject::BufferField(_) => Referent::Object(ObjectType::BufferField),
        NamedObject::Mutex(_) => Referent::Object(ObjectType::Mutex),
        NamedObject::Event(_) => Referent::Object(ObjectType::Event),
        NamedObject::Alias(_) => Referent::Object(ObjectType::Uninitialized),
    }
}

#[cycle(following)]
#[tactic(auto, using(ar_space::proofs::Changes::changing))]
fn value_followed<S>(world: &WorldState<S>, levels: usize, value: Value) -> Result<Referent>
    ensures { DoesInPlace result world.now (value_followed (followed levels) value) world.now }
{
    match value {
        Value::Uninitialized => Ok(Referent::Value(Value::Uninitialized)),
        Value::Integer(number) => Ok(Referent::Value(Value::Integer(number))),
        Value::String(object) => Ok(Referent::Value(Value::String(object))),
        Value::Buffer(object) => Ok(Referent::Value(Value::Buffer(object))),
        Value::Package(object) => Ok(Referent::Value(Value::Package(object))),
        Value::Reference(reference) => follow(world, levels, reference),
    }
}

#[cycle(following)]
#[tactic(auto, using(ar_space::proofs::Changes::changing))]
fn referent_followed<S>(
    world: &WorldState<S>,
    levels: usize,
    referent: Referent,
) -> Result<Referent>
    ensures { DoesInPlace result world.now (referent_followed (followed levels) referent) world.now }
{
    match referent {
        Referent::Value(value) => value_followed(world, levels, value),
        Referent::Object(object_type) => Ok(Referent::Object(object_type)),
        Referent::Field(field) => Ok(Referent::Field(field)),
        Referent::Bytes(count) => Ok(Referent::Bytes(count)),
    }
}

/// What a reference refers to in the end, at most so many followed one after another.
#[cycle(following)]
#[tactic(auto, using(crate::proofs::Following::following))]
fn follow<S>(world: &WorldState<S>, levels: usize, reference: Reference) -> Result<Referent>
    ensures { DoesInPlace result world.now (followed levels reference) world.now }
{
    if levels == 0 {
        return Err(Refusal::Evaluation(EvaluationFault::DeadReference));
    }
    reference_followed(world, levels - 1, reference)
}

#[cycle(following)]
#[tactic(auto, using(ar_space::proofs::Changes::changing))]
fn reference_followed<S>(
    world: &WorldState<S>,
    levels: usize,
    reference: Reference,
) -> Result<Referent>
    ensures { DoesInPlace result world.now (reference_followed (followed levels) reference) world.now }
{
    match reference {
        Reference::Name(number) => declared_followed(world, levels, number),
        Reference::Slot(slot, number) => slot_followed(world, levels, number, slot),
        Reference::Element(object, index) => held_followed(world, levels, object, index),
        Reference::Byte(object, index) => byte_followed(world, object, index),
    }
}

#[cycle(following)]
#[tactic(auto, using(ar_space::proofs::Changes::changing, crate::proofs::Declared::declared), unfolding(crate::specs::values::StoreTargets::declared_followed))]
fn declared_followed<S>(world: &WorldState<S>, levels: usize, number: u64) -> Result<Referent>
    ensures { DoesInPlace result world.now (declared_followed (followed levels) number) world.now }
{
    let entry = world.declaration(number)?;
    referent_followed(world, levels, referent_of(&entry.object))
}

#[cycle(following)]
#[tactic(auto, using(ar_space::proofs::Changes::changing), unfolding(crate::specs::values::StoreTargets::slot_followed))]
fn slot_followed<S>(
    world: &WorldState<S>,
    levels: usize,
    number: u64,
    slot: Slot,
) -> Result<Referent>
    ensures { DoesInPlace result world.now (slot_followed (followed levels) number slot) world.now }
{
    let index = world.frame_found(number)?;
    let value = world.slot_held(index, slot)?;
    value_followed(world, levels, value)
}

#[cycle(following)]
#[tactic(auto, using(crate::proofs::Lifted::reading), unfolding(crate::specs::values::StoreTargets::held_followed))]
fn held_followed<S>(
    world: &WorldState<S>,
    levels: usize,
    object: u32,
    index: usize,
) -> Result<Referent>
    ensures { DoesInPlace result world.now (held_followed (followed levels) object index) world.now }
{
    let element = world.objects().element(object, index)?;
    element_followed(world, levels, element)
}

#[cycle(following)]
#[tactic(auto, using(ar_space::proofs::Changes::changing))]
fn element_followed<S>(world: &WorldState<S>, levels: usize, element: &Element) -> Result<Referent>
    ensures { DoesInPlace result world.now (element_followed (followed levels) element.now) world.now }
{
    match element {
        Element::Value(value) => value_followed(world, levels, *value),
        Element::Name(name, scope) => name_followed(world, levels, name, scope),
    }
}

#[cycle(following)]
#[tactic(auto, using(ar_space::proofs::Changes::changing), unfolding(crate::specs::values::StoreTargets::name_followed))]
fn name_followed<S>(
    world: &WorldState<S>,
    levels: usize,
    name: &NameString,
    scope: &Path,
) -> Result<Referent>
    ensures { DoesInPlace result world.now (name_followed (followed levels) name.now scope.now) world.now }
{
    let entry = world.entry(scope, name)?;
    element_named(world, levels, entry.number, &entry.object)
}

/// What the name in an element of a package stands for: the value of its data or of its field, and else a reference
/// to it.
#[cycle(following)]
#[tactic(auto, using(ar_space::proofs::Changes::changing))]
fn element_named<S>(
    world: &WorldState<S>,
    levels: usize,
    number: u64,
    object: &NamedObject,
) -> Result<Referent>
    ensures { DoesInPlace result world.now (element_named (followed levels) number object.now) world.now }
{
    match object {
        NamedObject::Data(value) => value_followed(world, levels, read_as(number, *value)),
        NamedObject::FieldUnit(unit) => Ok(Referent::Field(Field::Unit(*unit))),
        NamedObject::BufferField(field) => Ok(Referent::Field(Field::Buffer(*field))),
        _ => follow(world, levels, Reference::Name(number)),
    }
}

#[tactic(auto, using(crate::proofs::Lifted::reading), unfolding(crate::specs::values::StoreTargets::byte_followed))]
fn byte_followed<S>(world: &WorldState<S>, object: u32, index: usize) -> Result<Referent>
    ensures { DoesInPlace result world.now (byte_followed object index) world.now }
{
    world.objects().byte(object, index)?;
    Ok(Referent::Object(ObjectType::BufferField))
}
