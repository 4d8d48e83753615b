//! Stores of what an explicit conversion formed (ACPI 6.5, 19.3.5).
ghost use Rattle.std.specs.Prelude.{◌≡◌};
ghost use Rattle.ar_space.specs.Change.{Does};
ghost use Rattle.aml_world.specs.values.FormedStores.{is_integer, is_string, is_buffer, formed_over_value, formed_over};
ghost use Rattle.aml_world.specs.values.FormedStores.{formed_in_name, formed_in_declared, formed_through, formed_to};

use crate::state::world_state::WorldState;
use crate::values::store_target::{Holding, StoreTarget, Stored};
use crate::values::targets::holding_of;
use aml_namespace::Located;
use aml_objects::{Reference, Value};
use ar_space::{Refusal, Result, ValueFault};

impl<S> WorldState<S> {
    /// Stores what an explicit conversion formed to a target. It is not converted again: a name that holds an
    /// integer, a string or a buffer of another type holds a copy after it. Anything else is as `store` has it.
    #[inline(never)]
    #[tactic(auto, using(ar_space::proofs::Changes::changing))]
    pub fn store_formed(&mut self, target: &StoreTarget, value: Value) -> Result<Stored>
        ensures { Does result self.new (formed_to target.now value) self.old }
    {
        match target {
            StoreTarget::Nowhere => Ok(Stored::Done),
            StoreTarget::Slot(slot) => self.store_in_slot(*slot, value),
            StoreTarget::Name(path) => self.formed_in_name(path, value),
            StoreTarget::Refers(reference) => self.formed_through(*reference, value),
        }
    }

    #[tactic(auto, using(ar_space::proofs::Changes::changing), unfolding(crate::specs::values::FormedStores::formed_in_name))]
    fn formed_in_name(&mut self, path: &Located, value: Value) -> Result<Stored>
        ensures { Does result self.new (formed_in_name path.now value) self.old }
    {
        let held = self.held_at(path)?;
        self.formed_over(held, path, value)
    }

    /// What a reference refers to.
    #[tactic(auto, using(ar_space::proofs::Changes::changing))]
    fn formed_through(&mut self, reference: Reference, value: Value) -> Result<Stored>
        ensures { Does result self.new (formed_through reference value) self.old }
    {
        match reference {
            Reference::Name(number) => self.formed_in_declared(number, value),
            Reference::Slot(slot, number) => { self.store_to(Reference::Slot(slot, number), value) }
            Reference::Element(object, index) => {
                self.store_to(Reference::Element(object, index), value)
            }
            Reference::Byte(object, index) => {
                self.store_to(Reference::Byte(object, index), value)
            }
        }
    }

    #[tactic(auto, using(ar_space::proofs::Changes::changing), unfolding(crate::specs::values::FormedStores::formed_in_declared))]
    fn formed_in_declared(&mut self, number: u64, value: Value) -> Result<Stored>
        ensures { Does result self.new (formed_in_declared number value) self.old }
    {
        let (path, entry) = self.placed_declaration(number)?;
        let held = holding_of(&entry.object);
        self.formed_over(held, &path, value)
    }

    #[tactic(auto, using(ar_space::proofs::Changes::changing))]
    fn formed_over(&mut self, held: Holding, path: &Located, value: Value) -> Result<Stored>
        ensures { Does result self.new (formed_over held path.now value) self.old }
    {
        match held {
            Holding::Value(old) => self.formed_over_value(old, path, value),
            Holding::Field(field) => Ok(Stored::Field(field)),
            Holding::Nothing => Err(Refusal::Value(ValueFault::WrongType)),
        }
    }

    /// A name that holds a value: a store that would convert copies.
    #[tactic(auto, using(ar_space::proofs::Changes::changing))]
    fn formed_over_value(&mut self, old: Value, path: &Located, value: Value) -> Result<Stored>
        ensures { Does result self.new (formed_over_value old path.now value) self.old }
    {
        let is_kept = match old {
            Value::Integer(_) => is_integer(value),
            Value::String(_) => is_string(value),
            Value::Buffer(_) => is_buffer(value),
            Value::Package(_) | Value::Reference(_) | Value::Uninitialized => true,
        };
        if is_kept {
            self.store_over_value(old, path, value)
        } else {
            self.copy_into_name(path, value)
        }
    }
}

fn is_integer(value: Value) -> bool
    ensures { result ≡ is_integer value }
{
    matches!(value, Value::Integer(_))
}

fn is_string(value: Value) -> bool
    ensures { result ≡ is_string value }
{
    matches!(value, Value::String(_))
}

fn is_buffer(value: Value) -> bool
    ensures { result ≡ is_buffer value }
{
    matches!(value, Value::Buffer(_))
}
