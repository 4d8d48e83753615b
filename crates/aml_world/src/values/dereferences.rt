//! What references refer to, one step on, and references to what targets name (ACPI 6.5, 19.6: DerefOf, RefOf,
//! CondRefOf).
ghost use Rattle.std.specs.Prelude.{◌≡◌, option_map};
ghost use Rattle.ar_space.specs.Change.{DoesInPlace};
ghost use Rattle.ar_space.specs.Outcome.{AnswersInPlace, seen};
ghost use Rattle.aml_namespace.specs.Search.{found};
ghost use Rattle.aml_world.specs.values.StoreTargets.{name_tested, frame_tested, byte_tested, tested, once};
ghost use Rattle.aml_world.specs.values.StoreTargets.{declared_once};
ghost use Rattle.aml_world.specs.values.StoreTargets.{value_once, slot_once, named_once, name_once, element_once};
ghost use Rattle.aml_world.specs.values.StoreTargets.{held_once};
ghost use Rattle.aml_world.specs.values.StoreTargets.{byte_once, dereferenced, number_in_frame, frame_number};
ghost use Rattle.aml_world.specs.values.StoreTargets.{slot_reference, number_in_entry, declared_number, name_reference};
ghost use Rattle.aml_world.specs.values.StoreTargets.{reference_of, unless_empty, slot_initialized};
ghost use Rattle.aml_world.specs.values.StoreTargets.{unless_empty_element};
ghost use Rattle.aml_world.specs.values.StoreTargets.{element_initialized, if_initialized, where_found};
ghost use Rattle.aml_world.specs.values.StoreTargets.{reference_if_found};
ghost use Rattle.aml_world.specs.values.StoreTargets.{reference_in};

use crate::state::readings::read_as;
use crate::state::world_state::WorldState;
use crate::values::store_target::{Held, StoreTarget};
use crate::values::targets::initialized;
use aml_namespace::{Located, Scope};
use aml_objects::{Element, Field, NamedObject, Reference, Slot, Value};
use aml_path::{NameString, Path};
use ar_space::{EvaluationFault, NamespaceFault, Refusal, Result, ValueFault};

impl<S> WorldState<S> {
    /// Tests that what a reference refers to still stands: the name, the frame, the element or the byte. Refused as
    /// `DeadReference`.
    #[tactic(auto, using(crate::proofs::Lifted::reading))]
    pub fn test_reference(&self, reference: Reference) -> Result<()>
        ensures { DoesInPlace result self.now (tested reference) self.now }
    {
        match reference {
            Reference::Name(number) => self.test_name(number),
            Reference::Slot(_, number) => self.test_frame(number),
            Reference::Element(object, index) => self.objects().element_there(object, index),
            Reference::Byte(object, index) => self.test_byte(object, index),
        }
    }

    #[tactic(auto, using(ar_space::proofs::Changes::changing, crate::proofs::Declared::declared), unfolding(crate::specs::values::StoreTargets::name_tested))]
    pub(crate) fn test_name(&self, number: u64) -> Result<()>
        ensures { DoesInPlace result self.now (name_tested number) self.now }
    {
        self.declaration(number)?;
        Ok(())
    }

    #[tactic(auto, using(ar_space::proofs::Changes::changing), unfolding(crate::specs::values::StoreTargets::frame_tested))]
    fn test_frame(&self, number: u64) -> Result<()>
        ensures { DoesInPlace result self.now (frame_tested number) self.now }
    {
        self.frame_found(number)?;
        Ok(())
    }

    #[tactic(auto, using(crate::proofs::Lifted::reading), unfolding(crate::specs::values::StoreTargets::byte_tested))]
    fn test_byte(&self, object: u32, index: usize) -> Result<()>
        ensures { DoesInPlace result self.now (byte_tested object index) self.now }
    {
        self.objects().byte(object, index)?;
        Ok(())
    }

    /// What a reference refers to, one step on: a value, or a field, whose bits are read next. A name that holds no
    /// value is a reference to it again. Refused: what is gone as `DeadReference`, what is uninitialized as
    /// `NoValue`, and a name in a package that isn't found as `NotFound`.
    #[tactic(auto, using(ar_space::proofs::Changes::changing))]
    pub fn dereference(&self, reference: Reference) -> Result<Held>
        ensures { DoesInPlace result self.now (dereferenced reference) self.now }
    {
        match reference {
            Reference::Name(number) => self.declared_once(number),
            Reference::Slot(slot, number) => self.slot_once(number, slot),
            Reference::Element(object, index) => self.held_once(object, index),
            Reference::Byte(object, index) => self.byte_once(object, index),
        }
    }

    #[tactic(auto, using(ar_space::proofs::Changes::changing, crate::proofs::Declared::declared), unfolding(crate::specs::values::StoreTargets::declared_once))]
    fn declared_once(&self, number: u64) -> Result<Held>
        ensures { DoesInPlace result self.now (declared_once number) self.now }
    {
        let entry = self.declaration(number)?;
        Ok(once(number, &entry.object))
    }

    #[tactic(auto, using(ar_space::proofs::Changes::changing), unfolding(crate::specs::values::StoreTargets::value_once))]
    fn value_once(&self, value: Value) -> Result<Held>
        ensures { DoesInPlace result self.now (value_once value) self.now }
    {
        let value = initialized(value)?;
        Ok(Held::Value(value))
    }

    #[tactic(auto, using(ar_space::proofs::Changes::changing), unfolding(crate::specs::values::StoreTargets::slot_once))]
    fn slot_once(&self, number: u64, slot: Slot) -> Result<Held>
        ensures { DoesInPlace result self.now (slot_once number slot) self.now }
    {
        let index = self.frame_found(number)?;
        let value = self.slot_held(index, slot)?;
        self.value_once(value)
    }

    #[tactic(auto, using(crate::proofs::Lifted::reading), unfolding(crate::specs::values::StoreTargets::held_once))]
    fn held_once(&self, object: u32, index: usize) -> Result<Held>
        ensures { DoesInPlace result self.now (held_once object index) self.now }
    {
        let element = self.objects().element(object, index)?;
        self.element_once(element)
    }

    #[tactic(auto, using(ar_space::proofs::Changes::changing))]
    fn element_once(&self, element: &Element) -> Result<Held>
        ensures { DoesInPlace result self.now (element_once element.now) self.now }
    {
        match element {
            Element::Value(value) => self.value_once(*value),
            Element::Name(name, scope) => self.name_once(name, scope),
        }
    }

    #[tactic(auto, using(ar_space::proofs::Changes::changing), unfolding(crate::specs::values::StoreTargets::name_once))]
    fn name_once(&self, name: &NameString, scope: &Path) -> Result<Held>
        ensures { DoesInPlace result self.now (name_once name.now scope.now) self.now }
    {
        let entry = self.entry(scope, name)?;
        Ok(named_once(entry.number, &entry.object))
    }

    #[tactic(auto, using(crate::proofs::Lifted::reading), unfolding(crate::specs::values::StoreTargets::byte_once))]
    fn byte_once(&self, object: u32, index: usize) -> Result<Held>
        ensures { DoesInPlace result self.now (byte_once object index) self.now }
    {
        let byte = self.objects().byte(object, index)?;
        Ok(Held::Value(Value::Integer(u64::from(byte))))
    }

    /// A reference to what a target names; Debug has none, which is refused as `WrongType`.
    #[tactic(auto, using(ar_space::proofs::Changes::changing))]
    pub fn reference_of(&self, target: &StoreTarget) -> Result<Reference>
        ensures { DoesInPlace result self.now (reference_of target.now) self.now }
    {
        match target {
            StoreTarget::Nowhere => Err(Refusal::Value(ValueFault::WrongType)),
            StoreTarget::Slot(slot) => self.slot_reference(*slot),
            StoreTarget::Name(path) => self.name_reference(path),
            StoreTarget::Refers(reference) => Ok(*reference),
        }
    }

    #[tactic(auto, using(ar_space::proofs::Changes::changing), unfolding(crate::specs::values::StoreTargets::slot_reference))]
    fn slot_reference(&self, slot: Slot) -> Result<Reference>
        ensures { DoesInPlace result self.now (slot_reference slot) self.now }
    {
        let index = self.latest_frame()?;
        let number = self.frame_number(index)?;
        Ok(Reference::Slot(slot, number))
    }

    /// The number of the frame at an index.
    #[tactic(auto, unfolding(crate::specs::values::StoreTargets::frame_number))]
    fn frame_number(&self, index: usize) -> Result<u64>
        ensures { DoesInPlace result self.now (frame_number index) self.now }
    {
        match self.frames.get(index) {
            None => Err(Refusal::Evaluation(EvaluationFault::DeadReference)),
            Some(frame) => Ok(frame.number),
        }
    }

    #[tactic(auto, using(ar_space::proofs::Changes::changing), unfolding(crate::specs::values::StoreTargets::name_reference))]
    fn name_reference(&self, path: &Located) -> Result<Reference>
        ensures { DoesInPlace result self.now (name_reference path.now) self.now }
    {
        let number = self.declared_number(path)?;
        Ok(Reference::Name(number))
    }

    /// The number of the declaration at a path.
    #[tactic(auto, unfolding(crate::specs::values::StoreTargets::declared_number))]
    pub(crate) fn declared_number(&self, path: &Located) -> Result<u64>
        ensures { DoesInPlace result self.now (declared_number path.now) self.now }
    {
        match self.names().get_located(path) {
            None => Err(Refusal::Namespace(NamespaceFault::NotFound)),
            Some(entry) => Ok(entry.number),
        }
    }

    /// A reference, unless it refers to a slot or an element that holds no value yet. Refused as `DeadReference`
    /// where what it refers to is gone.
    #[tactic(auto, using(ar_space::proofs::Changes::changing))]
    pub fn if_initialized(&self, reference: Reference) -> Result<Option<Reference>>
        ensures { DoesInPlace result self.now (if_initialized reference) self.now }
    {
        match reference {
            Reference::Name(number) => Ok(Some(Reference::Name(number))),
            Reference::Slot(slot, number) => self.slot_initialized(number, slot),
            Reference::Element(object, index) => self.element_initialized(object, index),
            Reference::Byte(object, index) => Ok(Some(Reference::Byte(object, index))),
        }
    }

    #[tactic(auto, using(ar_space::proofs::Changes::changing), unfolding(crate::specs::values::StoreTargets::slot_initialized))]
    fn slot_initialized(&self, number: u64, slot: Slot) -> Result<Option<Reference>>
        ensures { DoesInPlace result self.now (slot_initialized number slot) self.now }
    {
        let index = self.frame_found(number)?;
        let value = self.slot_held(index, slot)?;
        Ok(unless_empty(value, Reference::Slot(slot, number)))
    }

    #[tactic(auto, using(crate::proofs::Lifted::reading), unfolding(crate::specs::values::StoreTargets::element_initialized))]
    fn element_initialized(&self, object: u32, index: usize) -> Result<Option<Reference>>
        ensures { DoesInPlace result self.now (element_initialized object index) self.now }
    {
        let element = self.objects().element(object, index)?;
        Ok(unless_empty_element(element, Reference::Element(object, index)))
    }

    /// A reference to the name that is found, and none where none is; `AboveRoot` is refused.
    #[tactic(auto, unfolding(crate::specs::values::StoreTargets::reference_if_found))]
    pub fn reference_if_found(
        &self,
        scope: Scope<'_>,
        name: &NameString,
    ) -> Result<Option<Reference>>
        ensures { DoesInPlace result self.now (reference_if_found scope.entry.path.now name.now) self.now }
    {
        match self.names().lookup_in(scope, name) {
            Ok(entry) => Ok(Some(Reference::Name(entry.number))),
            Err(Refusal::Namespace(NamespaceFault::NotFound)) => Ok(None),
            Err(refusal) => Err(refusal),
        }
    }
}

/// The reference that a value is; any other value is refused as `WrongType`.
pub fn reference_in(value: Value) -> Result<Reference>
    ensures { AnswersInPlace result (reference_in value) }
{
    match value {
        Value::Reference(reference) => Ok(reference),
        Value::Uninitialized => Err(Refusal::Value(ValueFault::WrongType)),
        Value::Integer(_) => Err(Refusal::Value(ValueFault::WrongType)),
        Value::String(_) => Err(Refusal::Value(ValueFault::WrongType)),
        Value::Buffer(_) => Err(Refusal::Value(ValueFault::WrongType)),
        Value::Package(_) => Err(Refusal::Value(ValueFault::WrongType)),
    }
}

/// What a named object holds, one step on; a name that holds no value is a reference to it again.
fn once(number: u64, object: &NamedObject) -> Held
    ensures { result ≡ once number object.now }
{
    match object {
        NamedObject::Data(value) => Held::Value(*value),
        NamedObject::FieldUnit(unit) => Held::Field(Field::Unit(*unit)),
        NamedObject::BufferField(field) => Held::Field(Field::Buffer(*field)),
        _ => Held::Value(Value::Reference(Reference::Name(number))),
    }
}

/// What the name in an element of a package stands for: its data or its field, and else a reference to it.
pub(crate) fn named_once(number: u64, object: &NamedObject) -> Held
    ensures { result ≡ named_once number object.now }
{
    match object {
        NamedObject::Data(value) => Held::Value(read_as(number, *value)),
        NamedObject::FieldUnit(unit) => Held::Field(Field::Unit(*unit)),
        NamedObject::BufferField(field) => Held::Field(Field::Buffer(*field)),
        _ => Held::Value(Value::Reference(Reference::Name(number))),
    }
}

fn unless_empty(value: Value, reference: Reference) -> Option<Reference>
    ensures { result ≡ unless_empty value reference }
{
    match value {
        Value::Uninitialized => None,
        Value::Integer(_) => Some(reference),
        Value::String(_) => Some(reference),
        Value::Buffer(_) => Some(reference),
        Value::Package(_) => Some(reference),
        Value::Reference(_) => Some(reference),
    }
}

fn unless_empty_element(element: &Element, reference: Reference) -> Option<Reference>
    ensures { result ≡ unless_empty_element element.now reference }
{
    match element {
        Element::Value(value) => unless_empty(*value, reference),
        Element::Name(_, _) => Some(reference),
    }
}
