//! The nearest scope in which a name stands, found from the root down.
ghost use Rattle.std.specs.Prelude.{◌≡◌, ◌-◌, Some, length, option_map};
ghost use Rattle.aml_namespace.specs.Namespace.{numbered};
ghost use Rattle.aml_namespace.specs.Search.{search_up, or_else};

use crate::names::Names;
use aml_objects::NodeId;
use aml_path::{Path, Seg};

impl Names {
    /// What stands at some segments in a scope's path, or in the nearest scope above it: how many segments of the
    /// path lead to that scope, and the node. The scope need not stand. It takes no memory.
    ///
    /// It goes down the path once, as far as nodes stand.
    pub fn nearest(&self, scope: &Path, segments: &[Seg]) -> Option<(usize, NodeId)>
        ensures node { option_map (λ near. numbered near.1.number self.now.map) result ≡
            option_map Some (search_up self.now.map scope.now segments.now (length scope.now)) }
        ensures depth { option_map (λ near. near.0) result ≡ option_map (λ f. length f.0 - length segments.now)
            (search_up self.now.map scope.now segments.now (length scope.now)) }
    {
        let mut current = self.root();
        let mut depth = 0;
        let mut nearest = nearest_so_far(None, depth, self.below(current, segments));
        let steps = scope.segments();
        for step in steps {
            match self.child_of(current, *step) {
                None => return nearest,
                Some(next) => current = next,
            }
            depth += 1;
            nearest = nearest_so_far(nearest, depth, self.below(current, segments));
        }
        nearest
    }
}

/// The node that was found at a depth, or else what was found so far.
fn nearest_so_far(
    so_far: Option<(usize, NodeId)>,
    depth: usize,
    here: Option<NodeId>,
) -> Option<(usize, NodeId)>
    ensures { result ≡ or_else (option_map (λ id. (depth, id)) here) so_far }
{
    match here {
        None => so_far,
        Some(id) => Some((depth, id)),
    }
}
