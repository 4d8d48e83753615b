//! The objects and the frames of a world.
use crate::reading::{number, octets, slot, value};
use crate::telling::{say_content, say_outcome};
use aml_meaning::World;
use aml_objects::{Element, Elements, Value};
use ar_space::{Result, Sparse};
use space_trace::Traced;
use test_rows::Exchange;
use test_words::{object_number, refuse, say_done, say_word_and_number};

/// `string BYTES`: a new string.
fn new_string(asked: &mut Exchange, world: &mut World<Traced<Sparse>>) {
    let bytes = octets(asked);
    say_outcome(asked, world.running.world.heap.make_string(bytes));
}

/// `buffer BYTES`: a new buffer.
fn new_buffer(asked: &mut Exchange, world: &mut World<Traced<Sparse>>) {
    let bytes = octets(asked);
    say_outcome(asked, world.running.world.heap.make_buffer(bytes));
}

/// Elements of which there is one.
fn one_element(asked: &mut Exchange, value: Value) -> Elements {
    let mut elements = Elements::new(asked.alloc());
    say_done(asked, elements.push(Element::Value(value)));
    elements
}

/// `package VALUE`: a new package of one element.
fn new_package(asked: &mut Exchange, world: &mut World<Traced<Sparse>>) {
    let value = value(asked);
    let elements = one_element(asked, value);
    say_outcome(asked, world.running.world.heap.make_package(elements));
}

/// `copy VALUE`: a deep copy of a value.
fn copy(asked: &mut Exchange, world: &mut World<Traced<Sparse>>) {
    let value = value(asked);
    let outcome = world
        .running
        .world
        .heap
        .copy(world.running.world.alloc, value);
    say_outcome(asked, outcome);
}

/// `contents VALUE`: what a value holds.
fn contents(asked: &mut Exchange, world: &World<Traced<Sparse>>) {
    let value = value(asked);
    say_content(asked, world.running.world.objects().content(value));
}

/// The elements of the package with a number.
fn elements(world: &World<Traced<Sparse>>, object: u32) -> Result<Elements> {
    world
        .running
        .world
        .objects()
        .elements(world.running.world.alloc, object)
}

/// `count OBJECT`: how many elements the package with this number has.
fn count(asked: &mut Exchange, world: &World<Traced<Sparse>>) {
    let object = object_number(asked);
    match elements(world, object) {
        Ok(elements) => asked.say_number(elements.as_slice().len() as u64),
        Err(refusal) => refuse(asked, refusal),
    }
}

/// Stores the bytes that are left into the string whose number comes next.
fn write_string(asked: &mut Exchange, world: &mut World<Traced<Sparse>>) {
    let object = object_number(asked);
    let bytes = octets(asked);
    say_done(asked, world.running.world.heap.write_string(object, bytes));
}

/// Stores the bytes that are left into the buffer whose number comes next.
fn write_buffer(asked: &mut Exchange, world: &mut World<Traced<Sparse>>) {
    let object = object_number(asked);
    let bytes = octets(asked);
    say_done(asked, world.running.world.heap.write_buffer(object, bytes));
}

/// `write string OBJECT BYTES` or `write buffer OBJECT BYTES`: stores bytes into an object.
fn write(asked: &mut Exchange, world: &mut World<Traced<Sparse>>) {
    if asked.takes("string ") {
        write_string(asked, world);
    } else if asked.takes("buffer ") {
        write_buffer(asked, world);
    } else {
        asked.misunderstand();
    }
}

/// `holds VALUE`: whether all that a value names was given by the world.
fn holds(asked: &mut Exchange, world: &World<Traced<Sparse>>) {
    let value = value(asked);
    asked.say_whether(world.is_valid(&value));
}

/// `frame VALUE`: opens the frame of a call in which Arg1 has this value, and gives its number.
fn open_frame(asked: &mut Exchange, world: &mut World<Traced<Sparse>>) {
    let mut arguments = [Value::Uninitialized; 7];
    arguments[1] = value(asked);
    match world.running.world.open_frame(arguments) {
        Ok(number) => say_word_and_number(asked, "frame", number),
        Err(refusal) => refuse(asked, refusal),
    }
}

/// `slot FRAME local N` or `slot FRAME argument N`: what a slot of a frame holds.
fn slot_value(asked: &mut Exchange, world: &World<Traced<Sparse>>) {
    let frame = number(asked);
    let slot = slot(asked);
    say_outcome(asked, world.running.world.slot(frame, slot));
}

/// A question of the objects and the frames of a world.
#[derive(Clone, Copy)]
pub enum Ask {
    String,
    Buffer,
    Package,
    Copy,
    Contents,
    Count,
    Write,
    Holds,
    Frame,
    Slot,
    Close,
}

/// Answers a question of this group.
pub fn answer(asked: &mut Exchange, world: &mut World<Traced<Sparse>>, ask: Ask) {
    match ask {
        Ask::String => new_string(asked, world),
        Ask::Buffer => new_buffer(asked, world),
        Ask::Package => new_package(asked, world),
        Ask::Copy => copy(asked, world),
        Ask::Contents => contents(asked, world),
        Ask::Count => count(asked, world),
        Ask::Write => write(asked, world),
        Ask::Holds => holds(asked, world),
        Ask::Frame => open_frame(asked, world),
        Ask::Slot => slot_value(asked, world),
        Ask::Close => world.running.world.close_frame(),
    }
}
