//! Storing values (ACPI 6.5, 19.3.5.8 and 19.6: Store, CopyObject).
ghost use Rattle.std.specs.Prelude.{◌≡◌};
ghost use Rattle.ar_space.specs.Change.{Does, DoesInPlace};
ghost use Rattle.aml_objects.specs.declared.entry.NamedObject.TheVariants.{Data};
ghost use Rattle.aml_namespace.specs.Namespace.{replaced};
ghost use Rattle.aml_world.specs.state.State.{on_names};
ghost use Rattle.aml_world.specs.values.Stores.{slot_put, copy_into_slot, copy_into_name, copy_over, text_in, bytes_in};
ghost use Rattle.aml_world.specs.values.Stores.{store_integer, store_text, store_bytes, store_package};
ghost use Rattle.aml_world.specs.values.Stores.{store_over_value};
ghost use Rattle.aml_world.specs.values.Stores.{store_over, store_in_slot, store_in_name, stored, copy_in_name};
ghost use Rattle.aml_world.specs.values.Stores.{copied_to};

use crate::state::world_state::WorldState;
use crate::values::references::{store_in_frame, store_through};
use crate::values::referents::MOST_REFERENCES;
use crate::values::store_target::{Holding, StoreTarget, Stored};
use aml_convert::{to_buffer, to_text};
use aml_namespace::Located;
use aml_objects::{NamedObject, Octets, Slot, Value};
use ar_space::{Refusal, Result, ValueFault};

impl<S> WorldState<S> {
    /// Stores a value to a target.
    ///
    /// A local takes a copy. So does an argument; where it holds a reference, that is followed, at most 64 times
    /// (`DeadReference`). A name that holds an integer, a string or a buffer takes the value converted, as
    /// conversions are refused; one that holds a package takes a copy of a package alone, and one that holds a
    /// reference a copy of anything. Where the target is a field, nothing is stored yet: the caller writes it next.
    /// Other names are refused as `WrongType`. A refused store changes nothing.
    #[tactic(auto, using(ar_space::proofs::Changes::changing))]
    pub fn store(&mut self, target: &StoreTarget, value: Value) -> Result<Stored>
        ensures { Does result self.new (stored target.now value) self.old }
    {
        match target {
            StoreTarget::Nowhere => Ok(Stored::Done),
            StoreTarget::Slot(slot) => self.store_in_slot(*slot, value),
            StoreTarget::Name(path) => self.store_in_name(path, value),
            StoreTarget::Refers(reference) => self.store_to(*reference, value),
        }
    }

    /// Stores a copy of a value to a target, without conversion: a name that holds a value holds the copy after it.
    /// Anything else is as `store` has it.
    #[inline(never)]
    #[tactic(auto, using(ar_space::proofs::Changes::changing))]
    pub fn copy_to(&mut self, target: &StoreTarget, value: Value) -> Result<Stored>
        ensures { Does result self.new (copied_to target.now value) self.old }
    {
        match target {
            StoreTarget::Nowhere => Ok(Stored::Done),
            StoreTarget::Slot(slot) => self.store_in_slot(*slot, value),
            StoreTarget::Name(path) => self.copy_in_name(path, value),
            StoreTarget::Refers(reference) => {
                store_through(self, MOST_REFERENCES, *reference, value)
            }
        }
    }

    #[tactic(auto, using(ar_space::proofs::Changes::changing), unfolding(crate::specs::values::Stores::store_in_slot))]
    pub(crate) fn store_in_slot(&mut self, slot: Slot, value: Value) -> Result<Stored>
        ensures { Does result self.new (store_in_slot slot value) self.old }
    {
        let frame = self.latest_frame()?;
        store_in_frame(self, MOST_REFERENCES, frame, slot, value)
    }

    #[tactic(auto, using(ar_space::proofs::Changes::changing), unfolding(crate::specs::values::Stores::store_in_name))]
    fn store_in_name(&mut self, path: &Located, value: Value) -> Result<Stored>
        ensures { Does result self.new (store_in_name path.now value) self.old }
    {
        let held = self.held_at(path)?;
        self.store_over(held, path, value)
    }

    #[tactic(auto, using(ar_space::proofs::Changes::changing), unfolding(crate::specs::values::Stores::copy_in_name))]
    fn copy_in_name(&mut self, path: &Located, value: Value) -> Result<Stored>
        ensures { Does result self.new (copy_in_name path.now value) self.old }
    {
        let held = self.held_at(path)?;
        self.copy_over(held, path, value)
    }

    #[tactic(auto, using(ar_space::proofs::Changes::changing))]
    pub(crate) fn store_over(
        &mut self,
        held: Holding,
        path: &Located,
        value: Value,
    ) -> Result<Stored>
        ensures { Does result self.new (store_over held path.now value) self.old }
    {
        match held {
            Holding::Value(old) => self.store_over_value(old, path, value),
            Holding::Field(field) => Ok(Stored::Field(field)),
            Holding::Nothing => Err(Refusal::Value(ValueFault::WrongType)),
        }
    }

    #[tactic(auto, using(ar_space::proofs::Changes::changing))]
    pub(crate) fn store_over_value(
        &mut self,
        old: Value,
        path: &Located,
        value: Value,
    ) -> Result<Stored>
        ensures { Does result self.new (store_over_value old path.now value) self.old }
    {
        match old {
            Value::Integer(_) => self.store_integer(path, value),
            Value::String(object) => self.store_text(object, value),
            Value::Buffer(object) => self.store_bytes(object, value),
            Value::Package(_) => self.store_package(path, value),
            Value::Reference(_) => self.copy_into_name(path, value),
            Value::Uninitialized => self.copy_into_name(path, value),
        }
    }

    #[tactic(auto, using(ar_space::proofs::Changes::changing), unfolding(crate::specs::values::Stores::store_integer))]
    fn store_integer(&mut self, path: &Located, value: Value) -> Result<Stored>
        ensures { DoesInPlace result self.new (store_integer path.now value) self.old }
    {
        let number = self.integer_in(value)?;
        self.put_data(path, Value::Integer(number))?;
        Ok(Stored::Done)
    }

    #[tactic(auto, using(crate::proofs::Lifted::writing), unfolding(crate::specs::values::Stores::store_text))]
    fn store_text(&mut self, object: u32, value: Value) -> Result<Stored>
        ensures { Does result self.new (store_text object value) self.old }
    {
        let bytes = self.text_in(value)?;
        self.heap.write_string(object, bytes)?;
        Ok(Stored::Done)
    }

    #[tactic(auto, using(crate::proofs::Lifted::writing), unfolding(crate::specs::values::Stores::store_bytes))]
    fn store_bytes(&mut self, object: u32, value: Value) -> Result<Stored>
        ensures { Does result self.new (store_bytes object value) self.old }
    {
        let bytes = self.bytes_in(value)?;
        self.heap.write_buffer(object, bytes)?;
        Ok(Stored::Done)
    }

    #[tactic(auto, using(ar_space::proofs::Changes::changing))]
    fn store_package(&mut self, path: &Located, value: Value) -> Result<Stored>
        ensures { Does result self.new (store_package path.now value) self.old }
    {
        match value {
            Value::Package(object) => self.copy_into_name(path, Value::Package(object)),
            Value::Uninitialized => Err(Refusal::Value(ValueFault::WrongType)),
            Value::Integer(_) => Err(Refusal::Value(ValueFault::WrongType)),
            Value::String(_) => Err(Refusal::Value(ValueFault::WrongType)),
            Value::Buffer(_) => Err(Refusal::Value(ValueFault::WrongType)),
            Value::Reference(_) => Err(Refusal::Value(ValueFault::WrongType)),
        }
    }

    /// A name that holds a value holds a copy of another.
    #[tactic(auto, using(ar_space::proofs::Changes::changing))]
    pub(crate) fn copy_over(
        &mut self,
        held: Holding,
        path: &Located,
        value: Value,
    ) -> Result<Stored>
        ensures { Does result self.new (copy_over held path.now value) self.old }
    {
        match held {
            Holding::Value(_) => self.copy_into_name(path, value),
            Holding::Field(field) => Ok(Stored::Field(field)),
            Holding::Nothing => Err(Refusal::Value(ValueFault::WrongType)),
        }
    }

    #[tactic(auto, using(crate::proofs::Lifted::writing), unfolding(crate::specs::values::Stores::copy_into_name))]
    pub(crate) fn copy_into_name(&mut self, path: &Located, value: Value) -> Result<Stored>
        ensures { Does result self.new (copy_into_name path.now value) self.old }
    {
        let copy = self.heap.copy(self.alloc, value)?;
        self.put_data(path, copy)?;
        Ok(Stored::Done)
    }

    /// The name at a path holds a value from now on.
    #[tactic(auto, using(crate::proofs::Lifted::parts))]
    fn put_data(&mut self, path: &Located, value: Value) -> Result<()>
        ensures { DoesInPlace result self.new (on_names (replaced path.now (Data value))) self.old }
    {
        self.declarations
            .replace_located(path, NamedObject::Data(value))
    }

    #[tactic(auto, using(crate::proofs::Lifted::writing), unfolding(crate::specs::values::Stores::copy_into_slot))]
    pub(crate) fn copy_into_slot(
        &mut self,
        frame: usize,
        slot: Slot,
        value: Value,
    ) -> Result<Stored>
        ensures { Does result self.new (copy_into_slot frame slot value) self.old }
    {
        let copy = self.heap.copy(self.alloc, value)?;
        self.slot_put(frame, slot, copy)?;
        Ok(Stored::Done)
    }

    /// A slot of the frame at an index holds a value from now on.
    #[tactic(auto, unfolding(crate::specs::values::Stores::slot_put))]
    fn slot_put(&mut self, frame: usize, slot: Slot, value: Value) -> Result<()>
        ensures { DoesInPlace result self.new (slot_put frame slot value) self.old }
    {
        if frame < self.frames.len() {
            self.frames[frame].put_slot(slot, value);
        }
        Ok(())
    }

    /// A value as a string.
    #[tactic(auto, unfolding(crate::specs::values::Stores::text_in))]
    fn text_in(&self, value: Value) -> Result<Octets>
        ensures { Does result self.now (text_in value) self.now }
    {
        to_text(self.alloc, self.width, self.heap.content(value))
    }

    /// A value as a buffer, converted to one; it is refused as conversions are.
    #[tactic(auto, unfolding(crate::specs::values::Stores::bytes_in))]
    pub fn bytes_in(&self, value: Value) -> Result<Octets>
        ensures { Does result self.now (bytes_in value) self.now }
    {
        to_buffer(self.alloc, self.width, self.heap.content(value))
    }
}
