//! A node of the namespace.

use aml_objects::{Entry, NodeId};
use aml_path::Seg;

/// A node: the last segment of its path, the node above it, and what stands there. The root's segment and parent say
/// nothing.
#[derive(Drop)]
pub(crate) struct Node {
    pub(crate) segment: Seg,
    pub(crate) parent: NodeId,
    pub(crate) entry: Entry,
}
