//! Values of a world: where they are read and stored, and what operators make of them.

pub(crate) mod dereferences;
pub(crate) mod formed_stores;
pub(crate) mod integer_operations;
pub(crate) mod node_integers;
pub(crate) mod object_type;
pub(crate) mod operation_kind;
pub(crate) mod operations;
pub(crate) mod references;
pub(crate) mod referents;
pub(crate) mod searches;
pub(crate) mod store_target;
pub(crate) mod stores;
pub(crate) mod targets;
pub(crate) mod wide_operations;
