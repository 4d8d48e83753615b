//! Words that several programs of rows share: how they write numbers, paths, places, refusals and accesses.
#![tactic(auto)]

mod accesses;
mod lists;
mod paths;
mod places;
mod refusals;

pub use accesses::say_accesses;
pub use lists::{add, count, extend, object_number, say_word_and_number};
pub use paths::{path, path_of, path_or_root, push_path, say_path};
pub use places::{
    SpaceKind, hexadecimal8, hexadecimal16, place, place_in, put, put_from, say_byte, say_place,
    width,
};
pub use refusals::{refuse, say_done};
