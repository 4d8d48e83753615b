//! Deep copies of values.
ghost use Rattle.std.specs.Prelude.{◌≡◌, ◌≤◌, List, [], length, take};
ghost use Rattle.ar_space.specs.Change.{Does};
ghost use Rattle.aml_objects.specs.Copies.{string_copy, buffer_copy, value_copy, held_copy, element_copy, copies_of};
ghost use Rattle.aml_objects.specs.Copies.{whole_copy, package_copy, copied};

use crate::heap::Heap;
use crate::object::{Element, Elements, Object};
use crate::value::Value;
use ar_space::{EvaluationFault, MAX_NESTING, Refusal, Result};
use std::alloc::Global;

impl Heap {
    /// A copy of a value, packages deeply. A refused one makes no object.
    #[tactic(auto, using(crate::proofs::Copying::copying))]
    pub fn copy(&mut self, alloc: Global, value: Value) -> Result<Value>
        ensures { Does result self.new (copied value) self.old }
    {
        let before = self.len();
        match copy_value(alloc, self, MAX_NESTING, value) {
            Ok(copy) => Ok(copy),
            Err(e) => {
                self.truncate(before);
                Err(e)
            }
        }
    }
}

#[cycle(copies)]
#[tactic(auto, using(ar_space::proofs::Changes::changing), unfolding(crate::specs::Copies::value_copy))]
fn copy_value(alloc: Global, heap: &mut Heap, levels: usize, value: Value) -> Result<Value>
    ensures { Does result heap.new (value_copy (package_copy levels) value) heap.old }
{
    match value {
        Value::Uninitialized => Ok(Value::Uninitialized),
        Value::Integer(n) => Ok(Value::Integer(n)),
        Value::String(object) => copy_string(alloc, heap, object),
        Value::Buffer(object) => copy_buffer(alloc, heap, object),
        Value::Package(object) => copy_package(alloc, heap, levels, object),
        Value::Reference(reference) => Ok(Value::Reference(reference)),
    }
}

#[tactic(auto, using(ar_space::proofs::Changes::changing), unfolding(crate::specs::Copies::string_copy))]
fn copy_string(alloc: Global, heap: &mut Heap, object: u32) -> Result<Value>
    ensures { Does result heap.new (string_copy object) heap.old }
{
    let bytes = heap.string(alloc, object)?;
    heap.make_string(bytes)
}

#[tactic(auto, using(ar_space::proofs::Changes::changing), unfolding(crate::specs::Copies::buffer_copy))]
fn copy_buffer(alloc: Global, heap: &mut Heap, object: u32) -> Result<Value>
    ensures { Does result heap.new (buffer_copy object) heap.old }
{
    let bytes = heap.buffer(alloc, object)?;
    heap.make_buffer(bytes)
}

#[cycle(copies)]
#[tactic(auto, using(crate::proofs::Copying::copying))]
fn copy_package(alloc: Global, heap: &mut Heap, levels: usize, object: u32) -> Result<Value>
    ensures { Does result heap.new (package_copy levels object) heap.old }
{
    if levels == 0 {
        return Err(Refusal::Evaluation(EvaluationFault::ObjectLimit));
    }
    copy_whole(alloc, heap, levels - 1, object)
}

#[cycle(copies)]
#[tactic(auto, using(ar_space::proofs::Changes::changing), unfolding(crate::specs::Copies::whole_copy))]
fn copy_whole(alloc: Global, heap: &mut Heap, levels: usize, object: u32) -> Result<Value>
    ensures { Does result heap.new (whole_copy (package_copy levels) object) heap.old }
{
    let elements = heap.elements(alloc, object)?;
    let copies = copy_each(alloc, heap, levels, elements.as_slice())?;
    let number = heap.make(Object::Package(copies))?;
    Ok(Value::Package(number))
}

#[cycle(copies)]
#[tactic(auto, using(ar_space::proofs::Changes::changing))]
fn copy_each(
    alloc: Global,
    heap: &mut Heap,
    levels: usize,
    elements: &[Element],
) -> Result<Elements>
    ensures { Does result heap.new (copies_of (package_copy levels) elements.now []) heap.old }
{
    let mut done = Elements::new(alloc);
    for element in elements {
        let copy = copy_element(alloc, heap, levels, element)?;
        done.push(copy)?;
    }
    Ok(done)
}

#[cycle(copies)]
#[tactic(auto, using(ar_space::proofs::Changes::changing), unfolding(crate::specs::Copies::element_copy))]
fn copy_element(alloc: Global, heap: &mut Heap, levels: usize, element: &Element) -> Result<Element>
    ensures { Does result heap.new (element_copy (package_copy levels) element.now) heap.old }
{
    match element {
        Element::Value(value) => copy_held(alloc, heap, levels, *value),
        Element::Name(_, _) => element.copy(alloc),
    }
}

#[cycle(copies)]
#[tactic(auto, using(ar_space::proofs::Changes::changing), unfolding(crate::specs::Copies::held_copy))]
fn copy_held(alloc: Global, heap: &mut Heap, levels: usize, value: Value) -> Result<Element>
    ensures { Does result heap.new (held_copy (package_copy levels) value) heap.old }
{
    let copy = copy_value(alloc, heap, levels, value)?;
    Ok(Element::Value(copy))
}
