//! Ways through the tree by ids: up to the nodes above, and down to those below.
ghost use Rattle.std.specs.Prelude.{◌≡◌, ◌<◌, ◌++◌, List, [], ◌∷◌, None, Some, Ok, IfSome, MatchOption, length};
ghost use Rattle.std.specs.Prelude.{option_map};
ghost use Rattle.ar_space.specs.Outcome.{Answers};
ghost use Rattle.aml_path.specs.declared.segment.Seg.{Seg};
ghost use Rattle.aml_objects.specs.declared.entry.Entry.{Entry};
ghost use Rattle.aml_namespace.specs.Namespace.{numbered};
ghost use Rattle.aml_namespace.specs.Search.{at_path, IsParent, IsAncestor};

use crate::names::{Names, root_id};
use crate::tree::{child, descend};
use aml_objects::NodeId;
use aml_path::{Path, Seg};
use ar_space::Result;
use std::alloc::Global;

impl Names {
    /// The root, which always stands. It takes no memory.
    pub fn root(&self) -> NodeId
        ensures { (e : Entry) × (numbered result.number self.now.map ≡ Some ([], e)) }
    {
        // The names are read for their invariant.
        let _next = self.next;
        root_id()
    }

    /// The node above one that stands, and the segment between them; none above the root.
    pub(crate) fn above(&self, id: NodeId) -> Option<(NodeId, Seg)>
        ensures lower { IfSome result (λ above. above.0.number < id.number) }
        ensures parent { (f : List Seg × Entry) → numbered id.number self.now.map ≡ Some f →
            MatchOption result (f.0 ≡ []) (λ above. IsParent self.now.map f.0 above.0.number above.1) }
    {
        // The nodes are read for the invariant of the names.
        let nodes = &self.nodes;
        if id.number == 0 {
            return None;
        }
        match nodes.get(id) {
            None => None,
            Some(node) => Some((node.parent, node.segment)),
        }
    }

    /// The node so many levels above one that stands, if it has so many.
    pub(crate) fn ancestor(&self, id: NodeId, count: usize) -> Option<NodeId>
        ensures { (f : List Seg × Entry) → numbered id.number self.now.map ≡ Some f →
            MatchOption result (length f.0 < count) (λ above. IsAncestor self.now.map f.0 above.number count) }
    {
        let mut current = id;
        for level in 0..count {
            match self.above(current) {
                None => return None,
                Some((parent, _)) => current = parent,
            }
        }
        Some(current)
    }

    /// The node that some segments lead to, from one that stands.
    pub(crate) fn below(&self, id: NodeId, segments: &[Seg]) -> Option<NodeId>
        ensures { (f : List Seg × Entry) → numbered id.number self.now.map ≡ Some f →
            option_map (λ id. numbered id.number self.now.map) result ≡
            option_map Some (at_path self.now.map (f.0 ++ segments.now)) }
    {
        descend(&self.nodes, &self.index, id, segments)
    }

    /// The node one segment below one that stands. Where there is none, nothing stands further below either. It takes
    /// no memory.
    pub fn child_of(&self, id: NodeId, segment: Seg) -> Option<NodeId>
        ensures here { (f : List Seg × Entry) → numbered id.number self.now.map ≡ Some f →
            option_map (λ id. numbered id.number self.now.map) result ≡
            option_map Some (at_path self.now.map (f.0 ++ segment ∷ [])) }
        ensures deeper { (f : List Seg × Entry) → numbered id.number self.now.map ≡ Some f → result ≡ None →
            (rest : List Seg) → at_path self.now.map (f.0 ++ segment ∷ rest) ≡ None }
    {
        child(&self.nodes, &self.index, id.number, segment)
    }

    /// The path of the node with an id; none where its declaration doesn't stand.
    pub fn path_of(&self, alloc: Global, id: NodeId) -> Result<Option<Path>>
        ensures { Answers result (Ok (option_map (λ f. f.0) (numbered id.number self.now.map))) }
    {
        let Some(_) = self.node(id) else {
            return Ok(None);
        };
        let mut segments = Vec::new(alloc);
        let mut current = id;
        'levels: while let Some((parent, segment)) = self.above(current) {
            segments.push(segment)?;
            current = parent;
        }
        segments.reverse();
        Ok(Some(Path::from_vec(segments)))
    }
}
