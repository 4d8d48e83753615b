//! What stands where values are stored (ACPI 6.5, 19.3.5).
ghost use Rattle.std.specs.Prelude.{◌≡◌, ◌<◌, IfOk, length};
ghost use Rattle.ar_space.specs.Change.{Does, DoesInPlace};
ghost use Rattle.ar_space.specs.Outcome.{AnswersInPlace, NotMemory, seen};
ghost use Rattle.aml_world.specs.values.StoreTargets.{holding_of, held_at, latest_frame, frame_found, slot_held};
ghost use Rattle.aml_world.specs.values.StoreTargets.{own_slot};
ghost use Rattle.aml_world.specs.values.StoreTargets.{initialized, slot_read, held_in, held_in_slot, name_read};
ghost use Rattle.aml_world.specs.values.StoreTargets.{target_read};
ghost use Rattle.aml_world.specs.values.StoreTargets.{declaration, entry_declared};
ghost use Rattle.aml_world.specs.values.StoreTargets.{target_named};

use crate::state::slots::frame_index;
use crate::state::world_state::WorldState;
use crate::values::store_target::{Held, Holding, StoreTarget};
use aml_namespace::{Located, Scope};
use aml_objects::{Entry, Field, NamedObject, NodeId, Slot, Value};
use aml_path::NameString;
use ar_space::{EvaluationFault, NamespaceFault, Refusal, Result, ValueFault};

impl<S> WorldState<S> {
    /// The target that a name stands for; refused as `Names::locate` refuses it.
    #[tactic(auto, using(ar_space::proofs::Changes::changing), unfolding(crate::specs::values::StoreTargets::target_named))]
    pub fn target_named(&self, scope: Scope<'_>, name: &NameString) -> Result<StoreTarget>
        ensures { Does result self.now (target_named scope.entry.path.now name.now) self.now }
    {
        let located = self.locate(scope, name)?;
        Ok(StoreTarget::Name(located))
    }

    /// What the name at a path holds; refused as `NotFound` where none stands there.
    #[tactic(auto, unfolding(crate::specs::values::StoreTargets::held_at))]
    pub(crate) fn held_at(&self, path: &Located) -> Result<Holding>
        ensures { DoesInPlace result self.now (held_at path.now) self.now }
    {
        match self.names().get_located(path) {
            None => Err(Refusal::Namespace(NamespaceFault::NotFound)),
            Some(entry) => Ok(holding_of(&entry.object)),
        }
    }

    /// The index of the frame of the control method that runs.
    #[tactic(auto, unfolding(crate::specs::values::StoreTargets::latest_frame))]
    pub(crate) fn latest_frame(&self) -> Result<usize>
        ensures { DoesInPlace result self.now latest_frame self.now }
    {
        match self.frames.len() {
            0 => Err(Refusal::Evaluation(EvaluationFault::DeadReference)),
            count => Ok(count - 1),
        }
    }

    /// The index of the frame with a number; one that ended is refused as `DeadReference`.
    #[tactic(auto, unfolding(crate::specs::values::StoreTargets::frame_found))]
    pub(crate) fn frame_found(&self, number: u64) -> Result<usize>
        ensures { DoesInPlace result self.now (frame_found number) self.now }
    {
        match frame_index(&self.frames, number) {
            None => Err(Refusal::Evaluation(EvaluationFault::DeadReference)),
            Some(index) => Ok(index),
        }
    }

    /// What a slot of the frame at an index holds.
    #[tactic(auto, unfolding(crate::specs::values::StoreTargets::slot_held))]
    pub(crate) fn slot_held(&self, index: usize, slot: Slot) -> Result<Value>
        ensures { DoesInPlace result self.now (slot_held index slot) self.now }
    {
        match self.frames.get(index) {
            None => Err(Refusal::Evaluation(EvaluationFault::DeadReference)),
            Some(frame) => Ok(frame.slot(slot)),
        }
    }

    /// What a slot of the control method that runs holds.
    #[tactic(auto, using(ar_space::proofs::Changes::changing), unfolding(crate::specs::values::StoreTargets::own_slot))]
    pub(crate) fn own_slot(&self, slot: Slot) -> Result<Value>
        ensures { DoesInPlace result self.now (own_slot slot) self.now }
    {
        let index = self.latest_frame()?;
        self.slot_held(index, slot)
    }

    /// The value of a local or an argument; one that is uninitialized is refused as `NoValue`.
    #[tactic(auto, using(ar_space::proofs::Changes::changing), unfolding(crate::specs::values::StoreTargets::slot_read))]
    pub fn slot_read(&self, slot: Slot) -> Result<Value>
        ensures { DoesInPlace result self.now (slot_read slot) self.now }
    {
        let value = self.own_slot(slot)?;
        initialized(value)
    }

    /// What a target holds, for what is stored there next. A target that holds no value is refused as `WrongType`,
    /// and an uninitialized slot as `NoValue`.
    #[tactic(auto, using(ar_space::proofs::Changes::changing))]
    pub fn target_read(&self, target: &StoreTarget) -> Result<Held>
        ensures { DoesInPlace result self.now (target_read target.now) self.now }
    {
        match target {
            StoreTarget::Nowhere => Err(Refusal::Value(ValueFault::WrongType)),
            StoreTarget::Slot(slot) => self.held_in_slot(*slot),
            StoreTarget::Name(path) => self.name_read(path),
            StoreTarget::Refers(reference) => self.dereference(*reference),
        }
    }

    #[tactic(auto, using(ar_space::proofs::Changes::changing), unfolding(crate::specs::values::StoreTargets::held_in_slot))]
    fn held_in_slot(&self, slot: Slot) -> Result<Held>
        ensures { DoesInPlace result self.now (held_in_slot slot) self.now }
    {
        let value = self.slot_read(slot)?;
        Ok(Held::Value(value))
    }

    #[tactic(auto, using(ar_space::proofs::Changes::changing), unfolding(crate::specs::values::StoreTargets::name_read))]
    fn name_read(&self, path: &Located) -> Result<Held>
        ensures { DoesInPlace result self.now (name_read path.now) self.now }
    {
        let held = self.held_at(path)?;
        held_in(held)
    }

    /// What stands under the number of a declaration; one that was removed is refused as `DeadReference`.
    #[tactic(auto, unfolding(crate::specs::values::StoreTargets::entry_declared))]
    pub(crate) fn declaration(&self, number: u64) -> Result<&Entry>
        ensures answer { Does (seen (λ e. e.now) result) self.now (entry_declared number) self.now }
        ensures memory { NotMemory result }
    {
        match self.names().node(NodeId::numbered(number)) {
            None => Err(Refusal::Evaluation(EvaluationFault::DeadReference)),
            Some(entry) => Ok(entry),
        }
    }

    /// The same, with the path of the declaration.
    #[tactic(auto, unfolding(crate::specs::values::StoreTargets::declaration))]
    pub(crate) fn placed_declaration(&self, number: u64) -> Result<(Located, &Entry)>
        ensures { Does (seen (λ d. (d.0, d.1.now)) result) self.now (declaration number) self.now }
    {
        let Some(entry) = self.names().node(NodeId::numbered(number)) else {
            return Err(Refusal::Evaluation(EvaluationFault::DeadReference));
        };
        match self.names().locate_numbered(self.alloc, number)? {
            None => Err(Refusal::Evaluation(EvaluationFault::DeadReference)),
            Some(located) => Ok((located, entry)),
        }
    }
}

/// What a named object holds.
pub(crate) fn holding_of(object: &NamedObject) -> Holding
    ensures { result ≡ holding_of object.now }
{
    match object {
        NamedObject::Data(value) => Holding::Value(*value),
        NamedObject::FieldUnit(unit) => Holding::Field(Field::Unit(*unit)),
        NamedObject::BufferField(field) => Holding::Field(Field::Buffer(*field)),
        _ => Holding::Nothing,
    }
}

pub(crate) fn initialized(value: Value) -> Result<Value>
    ensures { AnswersInPlace result (initialized value) }
{
    match value {
        Value::Uninitialized => Err(Refusal::Evaluation(EvaluationFault::NoValue)),
        Value::Integer(number) => Ok(Value::Integer(number)),
        Value::String(object) => Ok(Value::String(object)),
        Value::Buffer(object) => Ok(Value::Buffer(object)),
        Value::Package(object) => Ok(Value::Package(object)),
        Value::Reference(reference) => Ok(Value::Reference(reference)),
    }
}

fn held_in(held: Holding) -> Result<Held>
    ensures { AnswersInPlace result (held_in held) }
{
    match held {
        Holding::Value(value) => Ok(Held::Value(value)),
        Holding::Field(field) => Ok(Held::Field(field)),
        Holding::Nothing => Err(Refusal::Value(ValueFault::WrongType)),
    }
}
