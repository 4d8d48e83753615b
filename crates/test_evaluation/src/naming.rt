//! The names of a world.
use crate::reading::number;
use crate::shown::{say_object, say_paths};
use aml_meaning::World;
use aml_namespace::Names;
use aml_objects::NamedObject;
use aml_path::{NameString, Path, Prefix};
use ar_space::{IntegerWidth, Result, Sparse};
use space_trace::Traced;
use test_rows::Exchange;
use test_words::{path, refuse, say_word_and_number};

/// `names`: all names but the root, in the order of their paths.
fn names(asked: &mut Exchange, names: &Names) {
    match names.walk(asked.alloc()) {
        Ok(paths) => say_paths(asked, paths.as_slice()),
        Err(refusal) => refuse(asked, refusal),
    }
}

/// `object PATH`: what stands at a path.
fn object(asked: &mut Exchange, names: &Names) {
    let path = path(asked);
    match names.get(&path) {
        Some(entry) => say_object(asked, &entry.object),
        None => asked.say("nothing"),
    }
}

/// `lookup NAME`: what a name of one segment finds that is searched for from the root.
fn lookup(asked: &mut Exchange, names: &Names) {
    let name = NameString::new(Prefix::Parents(0), path(asked).into_vec());
    let root = Path::root(asked.alloc());
    match names.lookup(&root, &name) {
        Ok(entry) => say_object(asked, &entry.object),
        Err(refusal) => refuse(asked, refusal),
    }
}

/// Declares a name.
fn declared(world: &mut World<Traced<Sparse>>, path: Path, object: NamedObject) -> Result<u64> {
    world.running.world.declare(path, object)
}

/// `device`, or `mutex COUNT`: what is declared.
fn declaration(asked: &mut Exchange) -> NamedObject {
    if asked.takes("device ") {
        return NamedObject::Device;
    }
    if !asked.takes("mutex ") {
        asked.misunderstand();
    }
    NamedObject::Mutex(number(asked))
}

/// `declare device PATH` or `declare mutex COUNT PATH`: declares a name, and gives the number of its declaration.
fn declare(asked: &mut Exchange, world: &mut World<Traced<Sparse>>) {
    let object = declaration(asked);
    let path = path(asked);
    match declared(world, path, object) {
        Ok(number) => say_word_and_number(asked, "number", number),
        Err(refusal) => refuse(asked, refusal),
    }
}

/// `remove below PATH`: removes the names below a path.
fn remove(asked: &mut Exchange, world: &mut World<Traced<Sparse>>) {
    if !asked.takes("below ") {
        asked.misunderstand();
    }
    let path = path(asked);
    world.running.world.remove_below(&path);
}

/// `integers`: how many bits integers have.
fn integers(width: IntegerWidth) -> &'static str {
    match width {
        IntegerWidth::Bits32 => "32",
        IntegerWidth::Bits64 => "64",
    }
}

/// A question of the names of a world.
#[derive(Clone, Copy)]
pub enum Ask {
    Names,
    Object,
    Lookup,
    Declare,
    Remove,
    Integers,
}

/// Answers a question of this group.
pub fn answer(asked: &mut Exchange, world: &mut World<Traced<Sparse>>, ask: Ask) {
    match ask {
        Ask::Names => names(asked, world.names()),
        Ask::Object => object(asked, world.names()),
        Ask::Lookup => lookup(asked, world.names()),
        Ask::Declare => declare(asked, world),
        Ask::Remove => remove(asked, world),
        Ask::Integers => asked.say(integers(world.running.world.width())),
    }
}
