//! Questions about objects: strings, buffers and packages, each with a number of its own.

use crate::shown::show_characters;
use crate::values::{element, say_value, show_element, value};
use crate::words::byte;
use aml_objects::{Element, Elements, Heap, Octets, Value};
use ar_space::Result;
use std::alloc::Global;
use std::mem;
use test_rows::Exchange;
use test_words::{count, object_number, refuse, say_done};

/// The objects, and the elements of the package that is made next.
#[derive(Drop)]
pub struct Objects {
    heap: Heap,
    elements: Elements,
}

/// Bytes that a question has.
fn octets(asked: &mut Exchange) -> Octets {
    Octets::from_vec(asked.bytes())
}

/// So many zero bytes, or bytes that are written out.
fn zeros_or_octets(asked: &mut Exchange, are_zeros: bool) -> Octets {
    if !are_zeros {
        return octets(asked);
    }
    let mut bytes = Vec::new(asked.alloc());
    if bytes.resize(count(asked), 0).is_err() {
        asked.run_out();
    }
    Octets::from_vec(bytes)
}

impl Objects {
    /// No objects.
    pub fn new(alloc: Global) -> Objects {
        Objects {
            heap: Heap::new(alloc),
            elements: Elements::new(alloc),
        }
    }

    /// Makes a string.
    fn make_string(&mut self, asked: &mut Exchange, of_zeros: bool) {
        let bytes = zeros_or_octets(asked, of_zeros);
        say_value(asked, self.heap.make_string(bytes));
    }

    /// Makes a buffer.
    fn make_buffer(&mut self, asked: &mut Exchange, of_zeros: bool) {
        let bytes = zeros_or_octets(asked, of_zeros);
        say_value(asked, self.heap.make_buffer(bytes));
    }

    /// Makes a package of the elements that were put down for it.
    fn make_package(&mut self, asked: &mut Exchange) {
        let elements = mem::replace(&mut self.elements, Elements::new(asked.alloc()));
        say_value(asked, self.heap.make_package(elements));
    }

    /// Makes so many empty strings.
    fn make_strings(&mut self, asked: &mut Exchange) {
        for _ in 0..count(asked) {
            let made = self
                .heap
                .make_string(Octets::from_vec(Vec::new(asked.alloc())));
            if let Err(refusal) = made {
                refuse(asked, refusal);
            }
        }
    }

    /// Makes so many packages, each of the one before, the first of an integer: the outermost.
    fn nest(&mut self, alloc: Global, levels: usize) -> Result<Value> {
        let mut value = Value::Integer(7);
        for _ in 0..levels {
            let mut elements = Elements::new(alloc);
            elements.push(Element::Value(value))?;
            value = self.heap.make_package(elements)?;
        }
        Ok(value)
    }

    /// Makes an object.
    fn make(&mut self, asked: &mut Exchange) {
        match asked.word() {
            "string" => self.make_string(asked, false),
            "buffer" => self.make_buffer(asked, false),
            "zero-string" => self.make_string(asked, true),
            "zero-buffer" => self.make_buffer(asked, true),
            "package" => self.make_package(asked),
            "strings" => self.make_strings(asked),
            "nest" => self.make_nest(asked),
            _ => asked.misunderstand(),
        }
    }

    /// Answers the outermost of so many packages, each in the next.
    fn make_nest(&mut self, asked: &mut Exchange) {
        let levels = count(asked);
        let outermost = self.nest(asked.alloc(), levels);
        say_value(asked, outermost);
    }

    /// Puts down an element of the package that is made next.
    fn put(&mut self, asked: &mut Exchange) {
        let element = element(asked);
        say_done(asked, self.elements.push(element));
    }

    /// Puts down so many uninitialized elements of the package that is made next.
    fn fill(&mut self, asked: &mut Exchange) {
        for _ in 0..count(asked) {
            say_done(
                asked,
                self.elements.push(Element::Value(Value::Uninitialized)),
            );
        }
    }

    /// The characters of a string.
    fn string(&self, asked: &mut Exchange) {
        let object = object_number(asked);
        match self.heap.string(asked.alloc(), object) {
            Ok(bytes) => show_characters(asked, bytes.as_slice()),
            Err(refusal) => refuse(asked, refusal),
        }
    }

    /// The bytes of a buffer.
    fn buffer(&self, asked: &mut Exchange) {
        let object = object_number(asked);
        match self.heap.buffer(asked.alloc(), object) {
            Ok(bytes) => asked.say_bytes(bytes.as_slice()),
            Err(refusal) => refuse(asked, refusal),
        }
    }

    /// How many elements a package has.
    fn elements(&self, asked: &mut Exchange) {
        let object = object_number(asked);
        match self.heap.elements(asked.alloc(), object) {
            Ok(elements) => asked.say_number(elements.as_slice().len() as u64),
            Err(refusal) => refuse(asked, refusal),
        }
    }

    /// A byte of a string or a buffer.
    fn byte(&self, asked: &mut Exchange) {
        let object = object_number(asked);
        let index = count(asked);
        match self.heap.byte(object, index) {
            Ok(byte) => asked.say_bytes(&[byte]),
            Err(refusal) => refuse(asked, refusal),
        }
    }

    /// An element of a package.
    fn element(&self, asked: &mut Exchange) {
        let object = object_number(asked);
        let index = count(asked);
        match self.heap.element(object, index) {
            Ok(element) => show_element(asked, element),
            Err(refusal) => refuse(asked, refusal),
        }
    }

    /// A deep copy of a value.
    fn copy(&mut self, asked: &mut Exchange) {
        let value = value(asked);
        let copy = self.heap.copy(asked.alloc(), value);
        say_value(asked, copy);
    }

    /// Writes the bytes of a string.
    fn write_string(&mut self, asked: &mut Exchange) {
        let object = object_number(asked);
        let bytes = octets(asked);
        say_done(asked, self.heap.write_string(object, bytes));
    }

    /// Writes the bytes of a buffer.
    fn write_buffer(&mut self, asked: &mut Exchange) {
        let object = object_number(asked);
        let bytes = octets(asked);
        say_done(asked, self.heap.write_buffer(object, bytes));
    }

    /// Writes a byte of a string or a buffer.
    fn write_byte(&mut self, asked: &mut Exchange) {
        let object = object_number(asked);
        let index = count(asked);
        let byte = byte(asked);
        say_done(asked, self.heap.write_byte(object, index, byte));
    }

    /// Writes an element of a package.
    fn write_element(&mut self, asked: &mut Exchange) {
        let object = object_number(asked);
        let index = count(asked);
        let element = element(asked);
        say_done(asked, self.heap.write_element(object, index, element));
    }

    /// Writes an object, or a part of it.
    fn write(&mut self, asked: &mut Exchange) {
        match asked.word() {
            "string" => self.write_string(asked),
            "buffer" => self.write_buffer(asked),
            "byte" => self.write_byte(asked),
            "element" => self.write_element(asked),
            _ => asked.misunderstand(),
        }
    }

    /// Answers a question about objects, and says whether it is one.
    pub fn answer(&mut self, asked: &mut Exchange, word: &str) -> bool {
        match word {
            "objects" => asked.say_number(self.heap.len() as u64),
            "empty" => asked.say_whether(self.heap.is_empty()),
            "make" => self.make(asked),
            "put" => self.put(asked),
            "fill" => self.fill(asked),
            "string" => self.string(asked),
            "buffer" => self.buffer(asked),
            "elements" => self.elements(asked),
            "byte" => self.byte(asked),
            "element" => self.element(asked),
            "copy" => self.copy(asked),
            "write" => self.write(asked),
            _ => return false,
        }
        true
    }
}
