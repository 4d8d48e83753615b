//! Worlds and machines that are made over the registers that stand.
use crate::evaluation::Evaluation;
use acpi_machine::{Machine, load_tables};
use aml_meaning::World;
use aml_objects::Octets;
use ar_space::{IntegerWidth, Refusal, Result, Sparse};
use ar_tables::{Image, Tables, find_tables};
use space_trace::Traced;
use std::alloc::Global;
use std::mem;
use test_rows::Exchange;
use test_words::{refuse, say_done};

/// How many steps each table and each evaluation of a machine may take.
const STEPS: u64 = 1_000_000;

/// Ends the world if one stands, and takes the registers out.
fn taken_space(asked: &Exchange, row: &mut Evaluation) -> Sparse {
    match row.world.take() {
        Some(world) => world.into_space().into_inner(),
        None => mem::replace(&mut row.space, Sparse::new(asked.alloc())),
    }
}

/// Takes the texts out that `_OSI` is to know.
fn taken_texts(asked: &Exchange, osi: &mut Vec<Octets>) -> Vec<Octets> {
    mem::replace(osi, Vec::new(asked.alloc()))
}

/// A world over registers, or these where it is refused.
fn new_world(
    alloc: Global,
    width: IntegerWidth,
    texts: Vec<Octets>,
    space: Sparse,
) -> Result<World<Traced<Sparse>>, (Refusal, Traced<Sparse>)> {
    World::new(alloc, width, texts, Traced::new(space))
}

/// Ends the machine if one stands.
fn end_machine(machine: &mut Option<Machine<Sparse>>) {
    drop(machine.take());
}

/// Puts a world where none stands.
fn put_world(place: &mut Option<World<Traced<Sparse>>>, world: World<Traced<Sparse>>) {
    drop(place.replace(world));
}

/// Puts registers where none are.
fn put_space(place: &mut Sparse, space: Sparse) {
    *place = space;
}

/// Makes a world over registers.
fn world_over(asked: &mut Exchange, row: &mut Evaluation, space: Sparse) {
    let texts = taken_texts(asked, &mut row.osi);
    match new_world(asked.alloc(), row.width, texts, space) {
        Ok(world) => put_world(&mut row.world, world),
        Err((refusal, space)) => {
            refuse(asked, refusal);
            put_space(&mut row.space, space.into_inner());
        }
    }
}

/// `world`: a new world, over the registers as they are.
pub fn make_world(asked: &mut Exchange, row: &mut Evaluation) {
    let space = taken_space(asked, row);
    end_machine(&mut row.machine);
    world_over(asked, row, space);
}

/// `space`: ends the world, which gives its registers back.
fn give_back(asked: &mut Exchange, row: &mut Evaluation) {
    let space = taken_space(asked, row);
    end_machine(&mut row.machine);
    put_space(&mut row.space, space);
}

/// Puts bytes into an image from an address on.
fn put_all(asked: &mut Exchange, image: &mut Image, first: u64, bytes: &[u8]) {
    let mut next = Some(first);
    for byte in bytes {
        match next {
            Some(address) => {
                say_done(asked, image.put(address, *byte));
                next = address.checked_add(1);
            }
            None => asked.misunderstand(),
        }
    }
}

/// `image ADDRESS BYTES`: bytes of the memory that tables are found in.
fn put_image(asked: &mut Exchange, image: &mut Image) {
    let first = asked.hexadecimal(u64::MAX);
    let bytes = asked.bytes();
    put_all(asked, image, first, bytes.as_slice());
}

/// The tables that are found from the address of the RSDP on.
fn found(alloc: Global, image: &Image, rsdp: u64) -> Result<Tables> {
    find_tables(alloc, image, rsdp)
}

/// `tables ADDRESS`: finds the tables from the address of the RSDP on.
fn find(asked: &mut Exchange, tables: &mut Option<Tables>, image: &Image) {
    let rsdp = asked.hexadecimal(u64::MAX);
    match found(asked.alloc(), image, rsdp) {
        Ok(found) => *tables = Some(found),
        Err(refusal) => refuse(asked, refusal),
    }
}

/// Loads tables over registers.
fn loaded(
    alloc: Global,
    tables: Tables,
    space: Sparse,
    texts: Vec<Octets>,
) -> Result<Machine<Sparse>, (Refusal, Sparse)> {
    load_tables(alloc, tables, space, STEPS, texts)
}

/// Puts a machine where none stands.
fn put_machine(place: &mut Option<Machine<Sparse>>, machine: Machine<Sparse>) {
    drop(place.replace(machine));
}

/// Loads tables over the registers that stand.
fn make_of(asked: &mut Exchange, row: &mut Evaluation, tables: Tables) {
    let space = taken_space(asked, row);
    let texts = taken_texts(asked, &mut row.osi);
    match loaded(asked.alloc(), tables, space, texts) {
        Ok(machine) => put_machine(&mut row.machine, machine),
        Err((refusal, space)) => {
            refuse(asked, refusal);
            put_space(&mut row.space, space);
            end_machine(&mut row.machine);
        }
    }
}

/// `machine`: loads the tables that were found. Where that is refused the registers are given back.
fn make_machine(asked: &mut Exchange, row: &mut Evaluation) {
    match row.tables.take() {
        Some(tables) => make_of(asked, row, tables),
        None => asked.misunderstand(),
    }
}

/// A question that makes a world or a machine, or what it is made of.
#[derive(Clone, Copy)]
pub enum Ask {
    World,
    Space,
    Image,
    Tables,
    Machine,
}

/// Answers a question of this group.
pub fn answer(asked: &mut Exchange, row: &mut Evaluation, ask: Ask) {
    match ask {
        Ask::World => make_world(asked, row),
        Ask::Space => give_back(asked, row),
        Ask::Image => put_image(asked, &mut row.image),
        Ask::Tables => find(asked, &mut row.tables, &row.image),
        Ask::Machine => make_machine(asked, row),
    }
}
