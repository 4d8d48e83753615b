//! The state of a world, and what changes it: names, frames of slots, settings, what tables declare, and what is
//! handed in.

pub(crate) mod argument_counts;
pub(crate) mod body_marks;
pub(crate) mod datum;
pub(crate) mod declarations;
pub(crate) mod events;
pub(crate) mod frame;
pub(crate) mod import;
pub(crate) mod invocation;
pub(crate) mod invocations;
pub(crate) mod known_names;
pub(crate) mod mutexes;
pub(crate) mod name_use;
pub(crate) mod new_objects;
pub(crate) mod osi;
pub(crate) mod passed_over;
pub(crate) mod predefined;
pub(crate) mod profile;
pub(crate) mod readings;
pub(crate) mod settings;
pub(crate) mod slots;
pub(crate) mod tables;
pub(crate) mod trace;
pub(crate) mod validity;
pub(crate) mod world_state;
