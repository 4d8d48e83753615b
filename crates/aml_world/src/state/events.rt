//! Events (ACPI 6.5, 19.6: Signal, Reset, Wait). The signals that no Wait has taken are counted; nobody else signals.
ghost use Rattle.std.specs.Prelude.{◌≡◌};
ghost use Rattle.ar_space.specs.Change.{DoesInPlace};
ghost use Rattle.ar_space.specs.Outcome.{AnswersInPlace};
ghost use Rattle.aml_world.specs.state.Events.{name_referred, named_by_reference, named_by_value, named_by_argument};
ghost use Rattle.aml_world.specs.state.Events.{named_by_slot, name_at, event_named, named_or_not, signals_of};
ghost use Rattle.aml_world.specs.state.Events.{signals_under, put_signals, signals_after, event_changed};
ghost use Rattle.aml_world.specs.state.Events.{signal_taken, taken_or_not, waited};

use crate::state::mutexes::once_more;
use crate::state::world_state::WorldState;
use crate::values::operation_kind::EventChange;
use crate::values::store_target::StoreTarget;
use aml_namespace::Located;
use aml_objects::{NamedObject, NodeId, Reference, Slot, Value};
use ar_space::{Refusal, Result, ValueFault};

impl<S> WorldState<S> {
    /// The number of the declaration that a target names: a name, the name that a reference refers to, or the one
    /// that an argument refers to. None where it names something else; a reference to a name that is gone is refused
    /// as `DeadReference`.
    #[tactic(auto, using(ar_space::proofs::Changes::changing))]
    pub fn event_named(&self, target: &StoreTarget) -> Result<Option<u64>>
        ensures { DoesInPlace result self.now (event_named target.now) self.now }
    {
        match target {
            StoreTarget::Nowhere => Ok(None),
            StoreTarget::Slot(slot) => self.named_by_slot(*slot),
            StoreTarget::Name(path) => self.name_at(path),
            StoreTarget::Refers(reference) => self.named_by_reference(*reference),
        }
    }

    /// Signal and Reset: the event under a number has one signal more, or none. Refused: what is no event as
    /// `WrongType`, one that is gone as `DeadReference`, and a signal more than 2^64 - 1 as `ObjectLimit`.
    #[tactic(auto, using(ar_space::proofs::Changes::changing), unfolding(crate::specs::state::Events::event_changed))]
    pub fn change_event(&mut self, change: EventChange, event: Option<u64>) -> Result<()>
        ensures { DoesInPlace result self.new (event_changed change event) self.old }
    {
        let number = named_or_not(event)?;
        let count = self.signals_under(number)?;
        let after = signals_after(change, count)?;
        self.put_signals(number, after)
    }

    /// Wait: a signal of the event under a number is taken, which gives False; where it has none, True. Refused: what
    /// is no event as `WrongType`, one that is gone as `DeadReference`, and then a timeout that is no integer.
    #[tactic(auto, using(ar_space::proofs::Changes::changing), unfolding(crate::specs::state::Events::waited))]
    pub fn wait(&mut self, event: Option<u64>, timeout: Value) -> Result<Value>
        ensures { DoesInPlace result self.new (waited event timeout) self.old }
    {
        let number = named_or_not(event)?;
        let count = self.signals_under(number)?;
        let _time = self.integer_in(timeout)?;
        self.take_signal(number, count)
    }

    #[tactic(auto, using(ar_space::proofs::Changes::changing))]
    fn named_by_slot(&self, slot: Slot) -> Result<Option<u64>>
        ensures { DoesInPlace result self.now (named_by_slot slot) self.now }
    {
        match slot {
            Slot::Local(_) => Ok(None),
            Slot::Argument(index) => self.named_by_argument(index),
        }
    }

    #[tactic(auto, using(ar_space::proofs::Changes::changing), unfolding(crate::specs::state::Events::named_by_argument))]
    fn named_by_argument(&self, index: u8) -> Result<Option<u64>>
        ensures { DoesInPlace result self.now (named_by_argument index) self.now }
    {
        let value = self.own_slot(Slot::Argument(index))?;
        self.named_by_value(value)
    }

    #[tactic(auto, using(ar_space::proofs::Changes::changing))]
    fn named_by_value(&self, value: Value) -> Result<Option<u64>>
        ensures { DoesInPlace result self.now (named_by_value value) self.now }
    {
        match value {
            Value::Reference(reference) => self.named_by_reference(reference),
            Value::Uninitialized
            | Value::Integer(_)
            | Value::String(_)
            | Value::Buffer(_)
            | Value::Package(_) => Ok(None),
        }
    }

    #[tactic(auto, using(ar_space::proofs::Changes::changing))]
    fn named_by_reference(&self, reference: Reference) -> Result<Option<u64>>
        ensures { DoesInPlace result self.now (named_by_reference reference) self.now }
    {
        match reference {
            Reference::Name(number) => self.name_referred(number),
            Reference::Slot(_, _) | Reference::Element(_, _) | Reference::Byte(_, _) => Ok(None),
        }
    }

    #[tactic(auto, using(ar_space::proofs::Changes::changing), unfolding(crate::specs::state::Events::name_referred))]
    fn name_referred(&self, number: u64) -> Result<Option<u64>>
        ensures { DoesInPlace result self.now (name_referred number) self.now }
    {
        self.test_name(number)?;
        Ok(Some(number))
    }

    #[tactic(auto, using(ar_space::proofs::Changes::changing), unfolding(crate::specs::state::Events::name_at))]
    fn name_at(&self, path: &Located) -> Result<Option<u64>>
        ensures { DoesInPlace result self.now (name_at path.now) self.now }
    {
        let number = self.declared_number(path)?;
        Ok(Some(number))
    }

    /// How many signals the event under a number has.
    #[tactic(auto, using(ar_space::proofs::Changes::changing, crate::proofs::Declared::declared), unfolding(crate::specs::state::Events::signals_under))]
    fn signals_under(&self, number: u64) -> Result<u64>
        ensures { DoesInPlace result self.now (signals_under number) self.now }
    {
        let entry = self.declaration(number)?;
        signals_of(&entry.object)
    }

    /// Puts so many signals to the event under a number. It takes no memory.
    #[tactic(auto, using(ar_space::proofs::Changes::changing, crate::proofs::Declared::declared), unfolding(crate::specs::state::Events::put_signals))]
    fn put_signals(&mut self, number: u64, count: u64) -> Result<()>
        ensures { DoesInPlace result self.new (put_signals number count) self.old }
    {
        self.declaration(number)?;
        self.declarations
            .replace_node(NodeId::numbered(number), NamedObject::Event(count));
        Ok(())
    }

    #[tactic(auto, using(ar_space::proofs::Changes::changing))]
    fn take_signal(&mut self, number: u64, count: u64) -> Result<Value>
        ensures { DoesInPlace result self.new (taken_or_not number count) self.old }
    {
        if count == 0 {
            return self.integer_kept(u64::MAX);
        }
        self.signal_taken(number, count - 1)
    }

    #[tactic(auto, using(ar_space::proofs::Changes::changing), unfolding(crate::specs::state::Events::signal_taken))]
    fn signal_taken(&mut self, number: u64, fewer: u64) -> Result<Value>
        ensures { DoesInPlace result self.new (signal_taken number fewer) self.old }
    {
        self.put_signals(number, fewer)?;
        Ok(Value::Integer(0))
    }
}

/// The number of what is named, if anything is.
fn named_or_not(event: Option<u64>) -> Result<u64>
    ensures { AnswersInPlace result (named_or_not event) }
{
    match event {
        None => Err(Refusal::Value(ValueFault::WrongType)),
        Some(number) => Ok(number),
    }
}

/// How many signals an event has.
fn signals_of(object: &NamedObject) -> Result<u64>
    ensures { AnswersInPlace result (signals_of object.now) }
{
    match object {
        NamedObject::Event(count) => Ok(*count),
        _ => Err(Refusal::Value(ValueFault::WrongType)),
    }
}

/// How many signals an event has after a change.
fn signals_after(change: EventChange, count: u64) -> Result<u64>
    ensures { AnswersInPlace result (signals_after change count) }
{
    match change {
        EventChange::Signal => once_more(count),
        EventChange::Reset => Ok(0),
    }
}
