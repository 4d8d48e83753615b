//! The objects, each by its number.
ghost use Rattle.std.specs.Prelude.{◌≡◌, ◌<◌, ◌++◌, ◌∷◌, [], List, length, take, ◌==◌, slice_get, slice_set, nat_lt};
ghost use Rattle.std.specs.Prelude.{if◌then◌else◌, option_map, Some, Ok, Err, OnOk, OnErr, IsOkUnless};
ghost use Rattle.ar_space.specs.Outcome.{Answers, NotMemory, seen};
ghost use Rattle.ar_space.specs.declared.refusal.Refusal.TheVariants.{OutOfMemory};
ghost use Rattle.ar_space.specs.Change.{Does, DoesInPlace};
ghost use Rattle.aml_objects.specs.Objects.{make, make_string, make_buffer, make_package, string_at, buffer_at};
ghost use Rattle.aml_objects.specs.Objects.{elements_at, write_buffer, write_string, fitted_to, buffer_in};
ghost use Rattle.aml_objects.specs.Objects.{exchange_buffer, exchanged_with, write_byte, byte_outcome, byte_written};
ghost use Rattle.aml_objects.specs.Objects.{or_dead, element_at, byte_at, element_there, write_element};
ghost use Rattle.aml_objects.specs.Objects.{element_outcome, element_written};

use crate::draft::Draft;
use crate::making::{MAX_BYTES, make, make_buffer, make_package, make_string};
use crate::object::{Element, Elements, Object, Octets};
use crate::value::Value;
use ar_space::{EvaluationFault, Refusal, Result, ValueFault};
use std::alloc::Global;
use std::marker::Model;
use std::mem;

/// The objects. The list of them only grows: none is given back, and each keeps its number.
#[derive(Debug, Drop)]
pub struct Heap {
    objects: Vec<Object>,
}

impl Model for Heap {
    ghost use Rattle.std.specs.Prelude.{List};
    ghost use Rattle.aml_objects.specs.declared.object.Object.{Object};

    ghost Value = { List Object };

    ghost view = { λ h. h.objects.items };
}

impl Heap {
    /// No objects. It takes no memory.
    pub fn new(alloc: Global) -> Heap
        ensures { result ≡ [] }
    {
        Heap {
            objects: Vec::new(alloc),
        }
    }

    /// How many objects there are.
    pub fn len(&self) -> usize
        ensures { result ≡ length self.now }
    {
        self.objects.len()
    }

    /// Whether there is no object yet.
    pub fn is_empty(&self) -> bool
        ensures { result ≡ (length self.now == 0) }
    {
        self.len() == 0
    }

    /// The object with a number. It takes no memory.
    pub fn object(&self, number: u32) -> Option<&Object>
        ensures { option_map (λ o. o.now) result ≡ slice_get self.now number }
    {
        self.objects.get(number as usize)
    }

    /// The objects of a draft, behind those that are here. Only want of memory refuses it, and then nothing changes.
    pub fn append(&mut self, draft: Draft) -> Result<()>
        ensures ok { OnOk result (self.new ≡ self.old ++ draft) }
        ensures refused { OnErr result (self.new ≡ self.old) }
        ensures memory { IsOkUnless result OutOfMemory }
    {
        let mut made = draft.into_vec();
        self.objects.append(&mut made)?;
        Ok(())
    }

    /// The objects.
    pub(crate) fn as_slice(&self) -> &[Object]
        ensures { result.now ≡ self.now }
    {
        &self.objects
    }

    /// Takes back the objects from a number on, which a refused copy made. It takes no memory.
    pub(crate) fn truncate(&mut self, count: usize)
        ensures { self.new ≡ take count self.old }
    {
        self.objects.truncate(count);
    }

    /// A new object, and its number; one too many is refused as `ObjectLimit`.
    pub(crate) fn make(&mut self, object: Object) -> Result<u32>
        ensures { Does result self.new (make object) self.old }
    {
        make(&[], &mut self.objects, object)
    }

    /// A new string.
    ///
    /// Too many bytes, and one object too many, are refused as `ObjectLimit`, and then nothing changes.
    pub fn make_string(&mut self, bytes: Octets) -> Result<Value>
        ensures { Does result self.new (make_string bytes) self.old }
    {
        make_string(&[], &mut self.objects, bytes)
    }

    /// A new package; too many elements, and one object too many, are refused as `ObjectLimit`, and then nothing
    /// changes.
    pub fn make_package(&mut self, elements: Elements) -> Result<Value>
        ensures { Does result self.new (make_package elements) self.old }
    {
        make_package(&[], &mut self.objects, elements)
    }

    /// A new buffer; too many bytes, and one object too many, are refused as `ObjectLimit`, and then nothing changes.
    pub fn make_buffer(&mut self, bytes: Octets) -> Result<Value>
        ensures { Does result self.new (make_buffer bytes) self.old }
    {
        make_buffer(&[], &mut self.objects, bytes)
    }

    /// The bytes of a string; another kind of object is refused as `WrongType`.
    #[tactic(auto, unfolding(crate::specs::Objects::string_at))]
    pub fn string(&self, alloc: Global, object: u32) -> Result<Octets>
        ensures { Does result self.now (string_at object) self.now }
    {
        if object as usize >= self.objects.len() {
            return Err(Refusal::Value(ValueFault::WrongType));
        }
        match &self.objects[object as usize] {
            Object::String(bytes) => bytes.copy(alloc),
            Object::Buffer(_) => Err(Refusal::Value(ValueFault::WrongType)),
            Object::Package(_) => Err(Refusal::Value(ValueFault::WrongType)),
        }
    }

    /// The bytes of a buffer; another kind of object is refused as `WrongType`.
    #[tactic(auto, unfolding(crate::specs::Objects::buffer_at))]
    pub fn buffer(&self, alloc: Global, object: u32) -> Result<Octets>
        ensures { Does result self.now (buffer_at object) self.now }
    {
        if object as usize >= self.objects.len() {
            return Err(Refusal::Value(ValueFault::WrongType));
        }
        match &self.objects[object as usize] {
            Object::Buffer(bytes) => bytes.copy(alloc),
            Object::String(_) => Err(Refusal::Value(ValueFault::WrongType)),
            Object::Package(_) => Err(Refusal::Value(ValueFault::WrongType)),
        }
    }

    /// The bytes of a buffer, lent; another kind of object is refused as `WrongType`.
    #[tactic(auto, unfolding(crate::specs::Objects::buffer_at))]
    pub fn buffer_bytes(&self, object: u32) -> Result<&[u8]>
        ensures answer { Does (seen (λ bytes. bytes.now) result) self.now (buffer_at object) self.now }
        ensures memory { NotMemory result }
    {
        match self.object(object) {
            None => Err(Refusal::Value(ValueFault::WrongType)),
            Some(found) => found.buffer_bytes(),
        }
    }

    /// Puts bytes in place of those of a buffer, which are given back; another kind of object is refused as
    /// `WrongType`, and then nothing changes.
    #[tactic(auto, unfolding(crate::specs::Objects::exchange_buffer))]
    pub fn exchange_buffer(&mut self, object: u32, bytes: Octets) -> Result<Octets>
        ensures { DoesInPlace result self.new (exchange_buffer object bytes) self.old }
    {
        if object as usize >= self.objects.len() {
            return Err(Refusal::Value(ValueFault::WrongType));
        }
        exchanged(&mut self.objects[object as usize], bytes)
    }

    /// The elements of a package; another kind of object is refused as `WrongType`.
    #[tactic(auto, unfolding(crate::specs::Objects::elements_at))]
    pub fn elements(&self, alloc: Global, object: u32) -> Result<Elements>
        ensures { Does result self.now (elements_at object) self.now }
    {
        if object as usize >= self.objects.len() {
            return Err(Refusal::Value(ValueFault::WrongType));
        }
        match &self.objects[object as usize] {
            Object::Package(elements) => elements.copy(alloc),
            Object::String(_) => Err(Refusal::Value(ValueFault::WrongType)),
            Object::Buffer(_) => Err(Refusal::Value(ValueFault::WrongType)),
        }
    }

    /// Writes one byte of a string or a buffer. Past its end, and of another object, this is refused as
    /// `DeadReference`.
    #[tactic(auto, unfolding(crate::specs::Objects::write_byte))]
    pub fn write_byte(&mut self, object: u32, index: usize, byte: u8) -> Result<()>
        ensures { DoesInPlace result self.new (write_byte object index byte) self.old }
    {
        if object as usize >= self.objects.len() {
            return Err(Refusal::Evaluation(EvaluationFault::DeadReference));
        }
        write_into(&mut self.objects[object as usize], index, byte)
    }

    /// One element of a package. Past its end, and of another object, this is refused as `DeadReference`.
    #[tactic(auto, unfolding(crate::specs::Objects::element_at))]
    pub fn element(&self, object: u32, index: usize) -> Result<&Element>
        ensures answer { Does (seen (λ e. e.now) result) self.now (element_at object index) self.now }
        ensures memory { NotMemory result }
    {
        if object as usize >= self.objects.len() {
            return Err(Refusal::Evaluation(EvaluationFault::DeadReference));
        }
        match &self.objects[object as usize] {
            Object::Package(elements) => elements.at(index),
            Object::String(_) => Err(Refusal::Evaluation(EvaluationFault::DeadReference)),
            Object::Buffer(_) => Err(Refusal::Evaluation(EvaluationFault::DeadReference)),
        }
    }

    /// One byte of a string or a buffer. Past its end, and of another object, this is refused as `DeadReference`.
    #[tactic(auto, unfolding(crate::specs::Objects::byte_at))]
    pub fn byte(&self, object: u32, index: usize) -> Result<u8>
        ensures { DoesInPlace result self.now (byte_at object index) self.now }
    {
        if object as usize >= self.objects.len() {
            return Err(Refusal::Evaluation(EvaluationFault::DeadReference));
        }
        match &self.objects[object as usize] {
            Object::Package(_) => Err(Refusal::Evaluation(EvaluationFault::DeadReference)),
            Object::String(bytes) => byte_of(bytes, index),
            Object::Buffer(bytes) => byte_of(bytes, index),
        }
    }

    /// Tests that a package has an element at an index. Past its end, and of another object, this is refused as
    /// `DeadReference`.
    #[tactic(auto, unfolding(crate::specs::Objects::element_there))]
    pub fn element_there(&self, object: u32, index: usize) -> Result<()>
        ensures { DoesInPlace result self.now (element_there object index) self.now }
    {
        match self.object(object) {
            None => Err(Refusal::Evaluation(EvaluationFault::DeadReference)),
            Some(found) => element_stands(found, index),
        }
    }

    /// Replaces one element of a package. Past its end, and of another object, this is refused as `DeadReference`.
    #[tactic(auto, unfolding(crate::specs::Objects::write_element))]
    pub fn write_element(&mut self, object: u32, index: usize, element: Element) -> Result<()>
        ensures { DoesInPlace result self.new (write_element object index element) self.old }
    {
        if object as usize >= self.objects.len() {
            return Err(Refusal::Evaluation(EvaluationFault::DeadReference));
        }
        element_into(&mut self.objects[object as usize], index, element)
    }

    /// Stores bytes into a buffer, cut or zero-filled to its length; an empty one takes them whole.
    ///
    /// Another kind of object is refused as `WrongType`, too many bytes as `ObjectLimit`.
    #[tactic(auto, unfolding(crate::specs::Objects::write_buffer))]
    pub fn write_buffer(&mut self, object: u32, bytes: Octets) -> Result<()>
        ensures { Does result self.new (write_buffer object bytes) self.old }
    {
        if object as usize >= self.objects.len() {
            return Err(Refusal::Value(ValueFault::WrongType));
        }
        let room = match &self.objects[object as usize] {
            Object::Buffer(old) => old.as_slice().len(),
            Object::String(_) => return Err(Refusal::Value(ValueFault::WrongType)),
            Object::Package(_) => return Err(Refusal::Value(ValueFault::WrongType)),
        };
        let fitted = fitted(bytes, room)?;
        if fitted.as_slice().len() > MAX_BYTES {
            return Err(Refusal::Evaluation(EvaluationFault::ObjectLimit));
        }
        self.objects[object as usize] = Object::Buffer(fitted);
        Ok(())
    }

    /// Stores bytes into a string, which takes their length.
    ///
    /// Another kind of object is refused as `WrongType`, too many bytes as `ObjectLimit`.
    #[tactic(auto, unfolding(crate::specs::Objects::write_string))]
    pub fn write_string(&mut self, object: u32, bytes: Octets) -> Result<()>
        ensures { DoesInPlace result self.new (write_string object bytes) self.old }
    {
        if object as usize >= self.objects.len() {
            return Err(Refusal::Value(ValueFault::WrongType));
        }
        match &self.objects[object as usize] {
            Object::String(_) => {}
            Object::Buffer(_) => return Err(Refusal::Value(ValueFault::WrongType)),
            Object::Package(_) => return Err(Refusal::Value(ValueFault::WrongType)),
        }
        if bytes.as_slice().len() > MAX_BYTES {
            return Err(Refusal::Evaluation(EvaluationFault::ObjectLimit));
        }
        self.objects[object as usize] = Object::String(bytes);
        Ok(())
    }
}

/// Other bytes in place of a buffer's.
fn exchanged(object: &mut Object, bytes: Octets) -> Result<Octets>
    ensures outcome { result ≡ buffer_in (Some object.old) }
    ensures object { object.new ≡ exchanged_with bytes object.old }
{
    match object {
        Object::String(_) => Err(Refusal::Value(ValueFault::WrongType)),
        Object::Buffer(old) => Ok(mem::replace(old, bytes)),
        Object::Package(_) => Err(Refusal::Value(ValueFault::WrongType)),
    }
}

/// Bytes that are cut or zero-filled to a length, unless that is 0.
fn fitted(bytes: Octets, room: usize) -> Result<Octets>
    ensures { Answers result (Ok (fitted_to room bytes)) }
{
    if room == 0 {
        return Ok(bytes);
    }
    let mut list = bytes.into_vec();
    list.resize(room, 0)?;
    Ok(Octets::from_vec(list))
}

fn byte_of(bytes: &Octets, index: usize) -> Result<u8>
    ensures { result ≡ or_dead (slice_get bytes.now index) }
{
    if index >= bytes.as_slice().len() {
        return Err(Refusal::Evaluation(EvaluationFault::DeadReference));
    }
    Ok(bytes.as_slice()[index])
}

fn element_stands(object: &Object, index: usize) -> Result<()>
    ensures { result ≡ element_outcome index object.now }
{
    match object {
        Object::String(_) => Err(Refusal::Evaluation(EvaluationFault::DeadReference)),
        Object::Buffer(_) => Err(Refusal::Evaluation(EvaluationFault::DeadReference)),
        Object::Package(elements) => elements.stands(index),
    }
}

fn element_into(object: &mut Object, index: usize, element: Element) -> Result<()>
    ensures outcome { result ≡ element_outcome index object.old }
    ensures written { object.new ≡ element_written index element object.old }
{
    match object {
        Object::String(_) => Err(Refusal::Evaluation(EvaluationFault::DeadReference)),
        Object::Buffer(_) => Err(Refusal::Evaluation(EvaluationFault::DeadReference)),
        Object::Package(elements) => elements.set(index, element),
    }
}

fn write_into(object: &mut Object, index: usize, byte: u8) -> Result<()>
    ensures outcome { result ≡ byte_outcome index object.old }
    ensures written { object.new ≡ byte_written index byte object.old }
{
    match object {
        Object::String(bytes) => bytes.set(index, byte),
        Object::Buffer(bytes) => bytes.set(index, byte),
        Object::Package(_) => Err(Refusal::Evaluation(EvaluationFault::DeadReference)),
    }
}
