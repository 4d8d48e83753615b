//! Which function answers which question.
use crate::evaluation::{Aside, Evaluation};
use crate::{loading, machines, making, naming, objects, setting};
use aml_meaning::World;
use ar_space::Sparse;
use space_trace::Traced;
use test_rows::Exchange;
use test_words::SpaceKind;

/// A question of a world, by what it is about.
#[derive(Clone, Copy)]
enum OfWorld {
    Loading(loading::Ask),
    Names(naming::Ask),
    Objects(objects::Ask),
}

/// A question, by what it is about.
#[derive(Clone, Copy)]
enum Ask {
    Setting(setting::Ask),
    Making(making::Ask),
    World(OfWorld),
    Left,
    Machine(machines::Ask),
}

/// The questions, by their first words.
const QUESTIONS: [(&str, Ask); 45] = [
    ("width", Ask::Setting(setting::Ask::Width)),
    ("osi", Ask::Setting(setting::Ask::Osi)),
    ("aml", Ask::Setting(setting::Ask::Aml)),
    ("io", Ask::Setting(setting::Ask::Put(SpaceKind::Io))),
    ("memory", Ask::Setting(setting::Ask::Put(SpaceKind::Memory))),
    ("pci", Ask::Setting(setting::Ask::Put(SpaceKind::Pci))),
    ("byte", Ask::Setting(setting::Ask::Byte)),
    ("world", Ask::Making(making::Ask::World)),
    ("left", Ask::Left),
    ("space", Ask::Making(making::Ask::Space)),
    ("load", Ask::World(OfWorld::Loading(loading::Ask::Load))),
    ("method", Ask::World(OfWorld::Loading(loading::Ask::Method))),
    ("body", Ask::World(OfWorld::Loading(loading::Ask::Body))),
    ("answer", Ask::World(OfWorld::Loading(loading::Ask::Answer))),
    ("value", Ask::World(OfWorld::Loading(loading::Ask::Value))),
    (
        "accesses",
        Ask::World(OfWorld::Loading(loading::Ask::Accesses)),
    ),
    ("names", Ask::World(OfWorld::Names(naming::Ask::Names))),
    ("object", Ask::World(OfWorld::Names(naming::Ask::Object))),
    ("lookup", Ask::World(OfWorld::Names(naming::Ask::Lookup))),
    ("declare", Ask::World(OfWorld::Names(naming::Ask::Declare))),
    ("remove", Ask::World(OfWorld::Names(naming::Ask::Remove))),
    (
        "integers",
        Ask::World(OfWorld::Names(naming::Ask::Integers)),
    ),
    ("string", Ask::World(OfWorld::Objects(objects::Ask::String))),
    ("buffer", Ask::World(OfWorld::Objects(objects::Ask::Buffer))),
    (
        "package",
        Ask::World(OfWorld::Objects(objects::Ask::Package)),
    ),
    ("copy", Ask::World(OfWorld::Objects(objects::Ask::Copy))),
    (
        "contents",
        Ask::World(OfWorld::Objects(objects::Ask::Contents)),
    ),
    ("count", Ask::World(OfWorld::Objects(objects::Ask::Count))),
    ("write", Ask::World(OfWorld::Objects(objects::Ask::Write))),
    ("holds", Ask::World(OfWorld::Objects(objects::Ask::Holds))),
    ("frame", Ask::World(OfWorld::Objects(objects::Ask::Frame))),
    ("slot", Ask::World(OfWorld::Objects(objects::Ask::Slot))),
    ("close", Ask::World(OfWorld::Objects(objects::Ask::Close))),
    ("image", Ask::Making(making::Ask::Image)),
    ("tables", Ask::Making(making::Ask::Tables)),
    ("machine", Ask::Making(making::Ask::Machine)),
    ("nodes", Ask::Machine(machines::Ask::Nodes)),
    ("node", Ask::Machine(machines::Ask::Node)),
    ("table", Ask::Machine(machines::Ask::Table)),
    ("madt", Ask::Machine(machines::Ask::Madt)),
    ("mode", Ask::Machine(machines::Ask::Mode)),
    ("initialize", Ask::Machine(machines::Ask::Initialize)),
    ("evaluate", Ask::Machine(machines::Ask::Evaluate)),
    ("know", Ask::Machine(machines::Ask::Know)),
    ("pins", Ask::Machine(machines::Ask::Pins)),
];

/// Answers a question of the world that stands.
fn of_world(
    asked: &mut Exchange,
    world: &mut World<Traced<Sparse>>,
    aside: &mut Aside,
    ask: OfWorld,
) {
    match ask {
        OfWorld::Loading(ask) => loading::answer(asked, world, aside, ask),
        OfWorld::Names(ask) => naming::answer(asked, world, ask),
        OfWorld::Objects(ask) => objects::answer(asked, world, ask),
    }
}

/// Answers a question of a world, which is made where none stands.
fn of_any_world(asked: &mut Exchange, row: &mut Evaluation, ask: OfWorld) {
    if row.world.is_none() {
        making::make_world(asked, row);
    }
    if let Some(world) = &mut row.world {
        of_world(asked, world, &mut row.aside, ask);
    }
}

/// Answers a question: its first word says which it is.
pub fn answer(asked: &mut Exchange, row: &mut Evaluation) {
    let word = asked.word();
    match asked.one_of(&QUESTIONS, word, Ask::Left) {
        Ask::Setting(ask) => setting::answer(asked, row, ask),
        Ask::Making(ask) => making::answer(asked, row, ask),
        Ask::World(ask) => of_any_world(asked, row, ask),
        Ask::Left => asked.say_number(row.aside.left),
        Ask::Machine(ask) => machines::answer(asked, &mut row.machine, ask),
    }
}
