//! The namespace: what stands at each path, and what a name finds from a scope (ACPI 6.5, 5.3).
#![tactic(auto)]

mod calls;
mod climb;
mod hints;
mod index;
pub mod laws;
mod located;
mod mutexes;
mod names;
mod nearest;
mod node;
mod node_objects;
mod nodes;
mod parents;
mod removal;
mod scope;
mod search;
mod taken_places;
mod tree;
mod walk;

pub use calls::{Call, PathList, Reply, SegmentList};
pub use located::Located;
pub use names::Names;
pub use scope::Scope;
