//! Storing values to what references refer to (ACPI 6.5, 19.3.5.8).
ghost use Rattle.std.specs.Prelude.{◌≡◌};
ghost use Rattle.ar_space.specs.Outcome.{AnswersInPlace};
ghost use Rattle.ar_space.specs.Change.{Does, DoesInPlace};
ghost use Rattle.aml_objects.specs.Contents.{content_of};
ghost use Rattle.aml_world.specs.values.Stores.{first_byte, byte_of, byte_in, store_byte, copy_into_element};
ghost use Rattle.aml_world.specs.values.Stores.{copy_into_declared, store_in_declared, store_to, store_over_slot};
ghost use Rattle.aml_world.specs.values.Stores.{store_in_frame, store_in_frame_numbered, store_at_reference};
ghost use Rattle.aml_world.specs.values.Stores.{stored_through};

use crate::state::world_state::WorldState;
use crate::values::referents::MOST_REFERENCES;
use crate::values::store_target::Stored;
use crate::values::targets::holding_of;
use aml_objects::{Content, Element, Reference, Slot, Value};
use ar_space::{EvaluationFault, Refusal, Result, ValueFault};

/// Stores a value to a slot of the frame at an index: an argument that holds a reference stands for what that refers
/// to.
#[cycle(through)]
#[tactic(auto, using(ar_space::proofs::Changes::changing), unfolding(crate::specs::values::Stores::store_in_frame))]
pub(crate) fn store_in_frame<S>(
    world: &mut WorldState<S>,
    levels: usize,
    frame: usize,
    slot: Slot,
    value: Value,
) -> Result<Stored>
    ensures { Does result world.new (store_in_frame (stored_through levels) frame slot value) world.old }
{
    let held = world.slot_held(frame, slot)?;
    store_over_slot(world, levels, frame, slot, held, value)
}

#[cycle(through)]
#[tactic(auto, using(ar_space::proofs::Changes::changing))]
fn store_over_slot<S>(
    world: &mut WorldState<S>,
    levels: usize,
    frame: usize,
    slot: Slot,
    held: Value,
    value: Value,
) -> Result<Stored>
    ensures { Does result world.new (store_over_slot (stored_through levels) frame slot held value) world.old }
{
    match (slot, held) {
        (Slot::Argument(_), Value::Reference(reference)) => {
            store_through(world, levels, reference, value)
        }
        (Slot::Local(index), _) => world.copy_into_slot(frame, Slot::Local(index), value),
        (Slot::Argument(index), _) => { world.copy_into_slot(frame, Slot::Argument(index), value) }
    }
}

/// Stores a value to what a reference refers to, at most so many followed one after another.
#[cycle(through)]
#[tactic(auto, using(crate::proofs::Following::following))]
pub(crate) fn store_through<S>(
    world: &mut WorldState<S>,
    levels: usize,
    reference: Reference,
    value: Value,
) -> Result<Stored>
    ensures { Does result world.new (stored_through levels reference value) world.old }
{
    if levels == 0 {
        return Err(Refusal::Evaluation(EvaluationFault::DeadReference));
    }
    store_at_reference(world, levels - 1, reference, value)
}

#[cycle(through)]
#[tactic(auto, using(ar_space::proofs::Changes::changing))]
fn store_at_reference<S>(
    world: &mut WorldState<S>,
    levels: usize,
    reference: Reference,
    value: Value,
) -> Result<Stored>
    ensures { Does result world.new (store_at_reference (stored_through levels) reference value) world.old }
{
    match reference {
        Reference::Name(number) => world.copy_into_declared(number, value),
        Reference::Slot(slot, number) => {
            store_in_frame_numbered(world, levels, number, slot, value)
        }
        Reference::Element(object, index) => world.copy_into_element(object, index, value),
        Reference::Byte(object, index) => world.store_byte(object, index, value),
    }
}

#[cycle(through)]
#[tactic(auto, using(ar_space::proofs::Changes::changing), unfolding(crate::specs::values::Stores::store_in_frame_numbered))]
fn store_in_frame_numbered<S>(
    world: &mut WorldState<S>,
    levels: usize,
    number: u64,
    slot: Slot,
    value: Value,
) -> Result<Stored>
    ensures { Does result world.new (store_in_frame_numbered (stored_through levels) number slot value) world.old }
{
    let frame = world.frame_found(number)?;
    store_in_frame(world, levels, frame, slot, value)
}

impl<S> WorldState<S> {
    /// The name of a declaration holds a copy of a value from now on.
    #[tactic(auto, using(ar_space::proofs::Changes::changing), unfolding(crate::specs::values::Stores::copy_into_declared))]
    fn copy_into_declared(&mut self, number: u64, value: Value) -> Result<Stored>
        ensures { Does result self.new (copy_into_declared number value) self.old }
    {
        let (path, entry) = self.placed_declaration(number)?;
        let held = holding_of(&entry.object);
        self.copy_over(held, &path, value)
    }

    #[tactic(auto, using(crate::proofs::Lifted::writing), unfolding(crate::specs::values::Stores::copy_into_element))]
    fn copy_into_element(&mut self, object: u32, index: usize, value: Value) -> Result<Stored>
        ensures { Does result self.new (copy_into_element object index value) self.old }
    {
        self.objects().element_there(object, index)?;
        let copy = self.heap.copy(self.alloc, value)?;
        self.heap
            .write_element(object, index, Element::Value(copy))?;
        Ok(Stored::Done)
    }

    #[tactic(auto, using(crate::proofs::Lifted::writing), unfolding(crate::specs::values::Stores::store_byte))]
    fn store_byte(&mut self, object: u32, index: usize, value: Value) -> Result<Stored>
        ensures { DoesInPlace result self.new (store_byte object index value) self.old }
    {
        self.objects().byte(object, index)?;
        let byte = self.byte_in(value)?;
        self.heap.write_byte(object, index, byte)?;
        Ok(Stored::Done)
    }

    /// The name of a declaration takes a value, converted to what it holds.
    #[tactic(auto, using(ar_space::proofs::Changes::changing), unfolding(crate::specs::values::Stores::store_in_declared))]
    fn store_in_declared(&mut self, number: u64, value: Value) -> Result<Stored>
        ensures { Does result self.new (store_in_declared number value) self.old }
    {
        let (path, entry) = self.placed_declaration(number)?;
        let held = holding_of(&entry.object);
        self.store_over(held, &path, value)
    }

    /// Stores a value to what a reference refers to, with conversion; an argument that is met on the way takes a copy.
    #[tactic(auto, using(ar_space::proofs::Changes::changing))]
    pub(crate) fn store_to(&mut self, reference: Reference, value: Value) -> Result<Stored>
        ensures { Does result self.new (store_to reference value) self.old }
    {
        match reference {
            Reference::Name(number) => self.store_in_declared(number, value),
            Reference::Slot(slot, number) => {
                store_in_frame_numbered(self, MOST_REFERENCES, number, slot, value)
            }
            Reference::Element(object, index) => { self.copy_into_element(object, index, value) }
            Reference::Byte(object, index) => self.store_byte(object, index, value),
        }
    }

    /// What a byte of a string or a buffer takes of a value.
    #[tactic(auto, unfolding(crate::specs::values::Stores::byte_in))]
    fn byte_in(&self, value: Value) -> Result<u8>
        ensures { DoesInPlace result self.now (byte_in value) self.now }
    {
        byte_of(self.heap.content(value))
    }
}

fn byte_of(content: Content<'_>) -> Result<u8>
    ensures { AnswersInPlace result (byte_of (content_of content.entry)) }
{
    match content {
        Content::Integer(number) => Ok((number % 256) as u8),
        Content::String(bytes) => first_byte(bytes),
        Content::Buffer(bytes) => first_byte(bytes),
        Content::Other => Err(Refusal::Value(ValueFault::WrongType)),
    }
}

fn first_byte(bytes: &[u8]) -> Result<u8>
    ensures { AnswersInPlace result (first_byte bytes.now) }
{
    match bytes {
        [] => Err(Refusal::Value(ValueFault::EmptyValue)),
        [byte, ..] => Ok(*byte),
    }
}
