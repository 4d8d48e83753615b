//! The removal of the names below one.
ghost use Rattle.std.specs.Prelude.{◌≡◌, Some, is_some, not, true, false};
ghost use Rattle.aml_namespace.specs.declared.node.Node.{Node};
ghost use Rattle.std.specs.FinMap as map;
ghost use Rattle.aml_path.specs.Paths.{is_below};
ghost use Rattle.aml_namespace.specs.Namespace.{HasBelow, without_below};
ghost use Rattle.aml_namespace.specs.Tree.{child_in, path_to, map_of, Linked, Cut};

use crate::index::Index;
use crate::names::{Names, root_id};
use crate::nodes::Nodes;
use crate::tree::{cut, descend};
use aml_objects::NodeId;
use aml_path::Path;

impl Names {
    /// Removes the names below a path, and not the name at it; whether there were any. It takes no memory.
    pub fn remove_below(&mut self, path: &Path) -> bool
        ensures left { self.new ≡ without_below path.now self.old }
        ensures kept { result ≡ false → self.new ≡ self.old }
        ensures removed { result ≡ true → HasBelow path.now self.old.map }
    {
        match descend(&self.nodes, &self.index, root_id(), path.segments()) {
            None => false,
            Some(start) => cut_below(&mut self.nodes, &mut self.index, self.next, start),
        }
    }
}

/// Removes the nodes below one that stands: down to a leaf by first children, and on from the leaf's parent once it
/// is removed. Every number is below the next one. It tells whether there were any.
fn cut_below(nodes: &mut Nodes, index: &mut Index, next: u64, start: NodeId) -> bool
    requires linked { Linked nodes.old (child_in index.old) next }
    requires stands { is_some (map.get nodes.old start.number) ≡ true }
    ensures linked { Linked nodes.new (child_in index.new) next }
    ensures left { map_of nodes.new ≡ map.retain_keys (map_of nodes.old)
        (λ q. not (is_below (path_to nodes.old start.number) q)) }
    ensures kept { result ≡ false → nodes.new ≡ nodes.old }
    ensures removed { result ≡ true → HasBelow (path_to nodes.old start.number) (map_of nodes.old) }
{
    let mut current = start;
    let mut removed = false;
    'nodes: loop {
        match index.first_child(current.number) {
            Some((_, child)) => current = child,
            None => {
                if current.number == start.number {
                    return removed;
                }
                current = cut_leaf(nodes, index, current);
                removed = true;
            }
        }
    }
}

/// Removes a node, and gives its parent; where none stands with the id, the id itself.
fn cut_leaf(nodes: &mut Nodes, index: &mut Index, id: NodeId) -> NodeId
    ensures { (x : Node) → map.get nodes.old id.number ≡ Some x →
        Cut nodes.old nodes.new (child_in index.old) (child_in index.new) id.number x result.number }
{
    match nodes.get(id) {
        None => id,
        Some(node) => {
            let parent = node.parent;
            let segment = node.segment;
            cut(nodes, index, id, parent.number, segment);
            parent
        }
    }
}
