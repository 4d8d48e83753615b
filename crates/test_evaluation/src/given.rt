//! Arguments that rows hand to control methods.
use crate::loading::valued;
use crate::reading::{number, value};
use aml_meaning::World;
use aml_objects::{Reference, Value};
use aml_world::Datum;
use ar_space::Sparse;
use space_trace::Traced;
use test_rows::Exchange;
use test_words::{add, count, path_of};

/// A package of one element.
fn package_of(asked: &mut Exchange, datum: Datum) -> Datum {
    let mut elements = Vec::new(asked.alloc());
    add(asked, &mut elements, datum);
    Datum::Package(elements)
}

/// The integer 1 within so many packages, one within another.
fn packages(asked: &mut Exchange, count: u64) -> Datum {
    let mut datum = Datum::Integer(1);
    for _ in 0..count {
        datum = package_of(asked, datum);
    }
    datum
}

/// An argument: `integer N`, `name PATH`, or `packages N`.
fn datum(asked: &mut Exchange, part: &mut Exchange) -> Datum {
    match part.word() {
        "integer" => Datum::Integer(number(part)),
        "name" => Datum::Named(path_of(asked, part.word())),
        "packages" => packages(asked, number(part)),
        _ => {
            asked.misunderstand();
            Datum::Nothing
        }
    }
}

/// Ends the reading of a part, of which all has to be understood.
fn end(asked: &mut Exchange, part: &mut Exchange) {
    if !part.is_well() || !part.rest().is_empty() {
        asked.misunderstand();
    }
}

/// The argument that a text is.
fn datum_in(asked: &mut Exchange, text: &str) -> Datum {
    let mut part = Exchange::new(asked.alloc(), text);
    let datum = datum(asked, &mut part);
    end(asked, &mut part);
    datum
}

/// The arguments of a text `with ARGUMENT, ARGUMENT`.
pub fn data(asked: &mut Exchange) -> Vec<Datum> {
    let mut list = Vec::new(asked.alloc());
    if asked.takes("with ") {
        for text in asked.rest().split(", ") {
            let datum = datum_in(asked, text);
            add(asked, &mut list, datum);
        }
    }
    list
}

/// The number of the package that the name at a path holds.
fn package_at(asked: &mut Exchange, world: &mut World<Traced<Sparse>>, path: &str) -> Option<u32> {
    let path = path_of(asked, path);
    match valued(asked.alloc(), world, &path, Vec::new(asked.alloc()), 1000) {
        Ok((Value::Package(object), _)) => Some(object),
        Ok(_) => {
            asked.misunderstand();
            None
        }
        Err(refusal) => {
            asked.refuse(refusal.number());
            None
        }
    }
}

/// A reference to an element of the package that the name at a path holds: `INDEX of PATH`.
fn element(asked: &mut Exchange, world: &mut World<Traced<Sparse>>, part: &mut Exchange) -> Value {
    let index = count(part);
    if !part.takes("of ") {
        part.misunderstand();
    }
    match package_at(asked, world, part.word()) {
        Some(object) => Value::Reference(Reference::Element(object, index)),
        None => Value::Uninitialized,
    }
}

/// An argument that is a value of the world: a value, or `element INDEX of PATH`.
fn argument(asked: &mut Exchange, world: &mut World<Traced<Sparse>>, text: &str) -> Value {
    let mut part = Exchange::new(asked.alloc(), text);
    let value = if part.takes("element ") {
        element(asked, world, &mut part)
    } else {
        value(&mut part)
    };
    end(asked, &mut part);
    value
}

/// The arguments of a text `with ARGUMENT, ARGUMENT` that are values of the world.
pub fn values(asked: &mut Exchange, world: &mut World<Traced<Sparse>>) -> Vec<Value> {
    let mut list = Vec::new(asked.alloc());
    if asked.takes("with ") {
        for text in asked.rest().split(", ") {
            let value = argument(asked, world, text);
            add(asked, &mut list, value);
        }
    }
    list
}
