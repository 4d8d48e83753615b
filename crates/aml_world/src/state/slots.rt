//! Frames, and the slots in them (ACPI 6.5, 5.5.2.3 and 19.6: ArgX, LocalX).
ghost use Rattle.std.specs.Prelude.{◌≡◌, ◌≢◌, ◌==◌, ◌<◌, ℕ, Ok, true, false, not, length, position, slice_index_or};
ghost use Rattle.std.specs.Prelude.{slice_set, IfSome, IfNone, OnErr};
ghost use Rattle.ar_space.specs.Change.{Does, DoesInPlace};
ghost use Rattle.aml_world.specs.state.Slots.{slot_in, with_slot, slot_of, opened, closed};
ghost use Rattle.aml_world.specs.state.SlotIntegers.{integer_held, is_reference, takes_copy};
ghost use Rattle.aml_world.specs.values.StoreTargets.{own_slot, slot_read};
ghost use Rattle.aml_world.specs.values.Stores.{stored};
ghost use Rattle.aml_world.specs.declared.values.store_target.StoreTarget.TheVariants as targets;
ghost use Rattle.aml_world.specs.declared.values.store_target.Stored.TheVariants.{Done};
ghost use Rattle.aml_objects.specs.declared.value.Value.{Value as AnyValue};
ghost use Rattle.aml_objects.specs.declared.value.Value.TheVariants.{Uninitialized, Integer};

use crate::state::frame::Frame;
use crate::state::world_state::WorldState;
use aml_objects::{Slot, Value};
use ar_space::{EvaluationFault, Refusal, Result};

/// The index of the frame with a number.
pub(crate) fn frame_index(frames: &[Frame], number: u64) -> Option<usize>
    ensures index { result ≡ position (λ f. f.number == number) frames.now }
    ensures within { IfSome result (λ i. i < length frames.now) }
{
    frames.iter().position(|frame| frame.number == number)
}

impl Frame {
    /// What a slot holds.
    pub(crate) fn slot(&self, slot: Slot) -> Value
        ensures { result ≡ slot_in self.now slot }
    {
        match slot {
            Slot::Local(index) => value_at(&self.locals, index),
            Slot::Argument(index) => value_at(&self.arguments, index),
        }
    }

    /// Puts a value into a slot.
    pub(crate) fn put_slot(&mut self, slot: Slot, value: Value)
        ensures { self.new ≡ with_slot self.old slot value }
    {
        match slot {
            Slot::Local(index) => put(&mut self.locals, index, value),
            Slot::Argument(index) => put(&mut self.arguments, index, value),
        }
    }
}

impl Frame {
    /// The integer that a slot holds, if it holds one.
    #[inline(always)]
    fn integer(&self, slot: Slot) -> Option<u64>
        ensures { result ≡ integer_held (slot_in self.now slot) }
    {
        match slot {
            Slot::Local(index) => integer_at(&self.locals, index),
            Slot::Argument(index) => integer_at(&self.arguments, index),
        }
    }

    /// Puts an integer into a slot, unless the slot is an argument that holds a reference.
    #[inline(always)]
    fn put_integer(&mut self, slot: Slot, number: u64) -> bool
        ensures put { result ≡ true → self.new ≡ with_slot self.old slot (Integer number) }
        ensures taken { result ≡ takes_copy slot (slot_in self.old slot) }
        ensures unchanged { result ≡ false → self.new ≡ self.old }
    {
        match slot {
            Slot::Local(index) => {
                put(&mut self.locals, index, Value::Integer(number));
                true
            }
            Slot::Argument(index) => put_unless_reference(&mut self.arguments, index, number),
        }
    }
}

/// Puts an integer at an index, unless a reference is there.
#[inline(always)]
fn put_unless_reference(values: &mut [Value], index: u8, number: u64) -> bool
    ensures put { result ≡ true → values.new ≡ slice_set values.old index (Integer number) }
    ensures taken { result ≡ not (is_reference (slice_index_or values.old index Uninitialized)) }
    ensures unchanged { result ≡ false → values.new ≡ values.old }
{
    if is_reference_at(values, index) {
        return false;
    }
    put(values, index, Value::Integer(number));
    true
}

/// Whether a reference is at an index.
#[inline(always)]
fn is_reference_at(values: &[Value], index: u8) -> bool
    ensures { result ≡ is_reference (slice_index_or values.now index Uninitialized) }
{
    match values.get(usize::from(index)) {
        Some(Value::Reference(_)) => true,
        _ => false,
    }
}

/// The integer at an index, if one is there.
#[inline(always)]
fn integer_at(values: &[Value], index: u8) -> Option<u64>
    ensures { result ≡ integer_held (slice_index_or values.now index Uninitialized) }
{
    match values.get(usize::from(index)) {
        Some(Value::Integer(number)) => Some(*number),
        _ => None,
    }
}

/// The value at an index, and no value past the end.
pub(crate) fn value_at(values: &[Value], index: u8) -> Value
    ensures { result ≡ slice_index_or values.now index Uninitialized }
{
    match values.get(usize::from(index)) {
        None => Value::Uninitialized,
        Some(value) => *value,
    }
}

/// Puts a value at an index; past the end nothing changes.
fn put(values: &mut [Value], index: u8, value: Value)
    ensures { values.new ≡ slice_set values.old index value }
{
    let index = usize::from(index);
    if index < values.len() {
        values[index] = value;
    }
}

impl<S> WorldState<S> {
    /// What a slot of the frame with a number holds; a frame that ended is refused as `DeadReference`.
    #[tactic(auto, unfolding(crate::specs::state::Slots::slot_of))]
    pub fn slot(&self, number: u64, slot: Slot) -> Result<Value>
        ensures { DoesInPlace result self.now (slot_of number slot) self.now }
    {
        match frame_index(&self.frames, number) {
            None => Err(Refusal::Evaluation(EvaluationFault::DeadReference)),
            Some(index) => Ok(self.frames[index].slot(slot)),
        }
    }

    /// The integer that a local or an argument of the latest frame holds, if it holds one; none where no frame
    /// stands. It takes no memory.
    #[inline(always)]
    pub fn slot_integer(&self, slot: Slot) -> Option<u64>
        ensures held { IfSome result (λ number. Does (Ok (Integer number)) self.now (slot_read slot) self.now) }
        ensures other { IfNone result ((number : ℕ) → (slot_read slot self.now).0 ≢ Ok (Integer number)) }
    {
        let count = self.frames.len();
        if count == 0 {
            return None;
        }
        self.frames[count - 1].integer(slot)
    }

    /// Stores an integer to a local or an argument of the latest frame. Where an argument holds a reference, or no
    /// frame stands, it answers no, and nothing changes: `store` says what comes of it. It takes no memory.
    #[inline(always)]
    pub fn put_slot_integer(&mut self, slot: Slot, number: u64) -> bool
        ensures change { result ≡ true →
            Does (Ok Done) self.new (stored (targets.Slot slot) (Integer number)) self.old }
        ensures reference { result ≡ false → (held : AnyValue) → (own_slot slot self.old).0 ≡ Ok held →
            takes_copy slot held ≡ false }
        ensures unchanged { result ≡ false → self.new ≡ self.old }
    {
        let count = self.frames.len();
        if count == 0 {
            return false;
        }
        self.frames[count - 1].put_integer(slot, number)
    }

    /// Opens a frame with these arguments, and gives its number, which is never given again; refused as `ObjectLimit`
    /// where no number is left. Where it is refused, or memory runs out, nothing changes.
    #[tactic(auto, unfolding(crate::specs::state::Slots::opened))]
    pub fn open_frame(&mut self, arguments: [Value; 7]) -> Result<u64>
        ensures change { Does result self.new (opened arguments) self.old }
        ensures refused { OnErr result (self.new ≡ self.old) }
    {
        if self.started == u64::MAX {
            return Err(Refusal::Evaluation(EvaluationFault::ObjectLimit));
        }
        let number = self.started;
        self.frames.push(Frame {
            number,
            locals: [Value::Uninitialized; 8],
            arguments,
        })?;
        self.started += 1;
        Ok(number)
    }

    /// Ends the latest frame.
    pub fn close_frame(&mut self)
        ensures { self.new ≡ closed self.old }
    {
        let _ = self.frames.pop();
    }
}
