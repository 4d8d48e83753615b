//! The tree of nodes, and ways down it.
ghost use Rattle.std.specs.Prelude.{◌≡◌, ℕ, Some, None, OnOk, OnErr, IsOkUnless, option_map, cond};
ghost use Rattle.std.specs.FinMap as map;
ghost use Rattle.std.specs.Ordering.{eq_by_cmp};
ghost use Rattle.aml_path.specs.declared.segment.Seg.{Seg};
ghost use Rattle.ar_space.specs.declared.refusal.Refusal.TheVariants.{OutOfMemory};
ghost use Rattle.aml_namespace.specs.Tree.{index_cmp, child_in, down, AllListed};

use crate::index::Index;
use crate::node::Node;
use crate::nodes::Nodes;
use aml_objects::NodeId;
use aml_path::Seg;
use ar_space::Result;

/// The child of a node that has this segment. Most that don't stand are known by a mark, and a hint finds most that
/// do, however many nodes there are. Else the index says it. The root is nobody's child, though it has a segment and
/// a parent.
pub(crate) fn child(nodes: &Nodes, index: &Index, parent: u64, segment: Seg) -> Option<NodeId>
    requires listed { AllListed nodes.now (child_in index.now) }
    ensures { option_map (λ id. id.number) result ≡ child_in index.now parent segment }
{
    if !index.may_have_child(parent, segment) {
        return None;
    }
    match nodes.hinted(parent, segment) {
        Some(id) if id.number > 0 => Some(id),
        _ => index.find(parent, segment),
    }
}

/// The node that some segments lead to, from a node down.
pub(crate) fn descend(
    nodes: &Nodes,
    index: &Index,
    start: NodeId,
    segments: &[Seg],
) -> Option<NodeId>
    requires listed { AllListed nodes.now (child_in index.now) }
    ensures { option_map (λ id. id.number) result ≡ down (child_in index.now) start.number segments.now }
{
    let mut current = start;
    for segment in segments {
        match child(nodes, index, current.number, *segment) {
            None => return None,
            Some(next) => current = next,
        }
    }
    Some(current)
}

/// Puts a node under its parent. Where there is no memory for it, nothing changes.
pub(crate) fn put(nodes: &mut Nodes, index: &mut Index, node: Node) -> Result<()>
    requires new { map.get nodes.old node.entry.number ≡ None }
    requires free { child_in index.old node.parent.number node.segment ≡ None }
    ensures nodes { OnOk result (nodes.new ≡ map.insert nodes.old node.entry.number node) }
    ensures children { OnOk result ((p : ℕ) (s : Seg) → child_in index.new p s ≡
        cond (eq_by_cmp index_cmp (node.parent.number, node.segment) (p, s)) (Some node.entry.number)
        (child_in index.old p s)) }
    ensures nodes_unchanged { OnErr result (nodes.new ≡ nodes.old) }
    ensures index_unchanged { OnErr result (index.new ≡ index.old) }
    ensures memory { IsOkUnless result OutOfMemory }
{
    let parent = node.parent.number;
    let segment = node.segment;
    let id = nodes.insert(node)?;
    match index.insert(parent, segment, id) {
        Ok(()) => Ok(()),
        Err(refusal) => {
            nodes.remove(id);
            Err(refusal)
        }
    }
}

/// Takes the node with an id, which lies below a parent by a segment, out of the tree. It takes no memory.
pub(crate) fn cut(nodes: &mut Nodes, index: &mut Index, id: NodeId, parent: u64, segment: Seg)
    ensures nodes { nodes.new ≡ map.remove nodes.old id.number }
    ensures children { (p : ℕ) (s : Seg) → child_in index.new p s ≡
        cond (eq_by_cmp index_cmp (parent, segment) (p, s)) None (child_in index.old p s) }
{
    nodes.remove(id);
    index.remove(parent, segment);
}
