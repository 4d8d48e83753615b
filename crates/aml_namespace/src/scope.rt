//! Scopes that names are searched from: a path, and the node that is expected there.
ghost use Rattle.std.specs.Prelude.{◌≡◌, Some, true, option_map, IsErr, [], ◌∷◌, length};
ghost use Rattle.std.specs.FinMap.{get};
ghost use Rattle.aml_objects.specs.declared.entry.Entry.{Entry};
ghost use Rattle.ar_space.specs.Outcome.{Answers, NotMemory, seen};
ghost use Rattle.aml_namespace.specs.Namespace.{numbered};
ghost use Rattle.aml_namespace.specs.OneSegment.{segment_name};
ghost use Rattle.aml_namespace.specs.Search.{found, found_or_not, search_up};

use crate::located::Located;
use crate::names::{Names, root_id};
use crate::search::found_or_not;
use aml_objects::{Entry, NodeId};
use aml_path::{NameString, Path, Seg};
use ar_space::{NamespaceFault, Refusal, Result};
use std::alloc::Global;

/// A scope: its path, and the node that is expected to stand there.
///
/// The path alone says which scope it is. The node is a hint: while it stands at this path, the scope is found on the
/// way up from it, without a search. Any other node costs the way down from the root.
#[derive(Clone, Copy)]
pub struct Scope<'a> {
    pub path: &'a Path,
    pub node: NodeId,
}

impl Names {
    /// The scope at a path, with the node that stands there, if one does. It takes no memory.
    pub fn scope<'a>(&self, path: &'a Path) -> Scope<'a>
        ensures path { result.path.now ≡ path.now }
        ensures node { (e : Entry) → get self.now.map path.now ≡ Some e → result.node.number ≡ e.number }
    {
        match self.find(path) {
            Some(node) => Scope { path, node },
            None => Scope {
                path,
                node: root_id(),
            },
        }
    }

    /// The node that a name finds from a scope, refused as `lookup` is. It takes no memory.
    pub fn search_in(&self, scope: Scope<'_>, name: &NameString) -> Result<NodeId>
        ensures answer { seen (λ id. numbered id.number self.now.map) result ≡
            seen Some (found self.now.map scope.entry.path.now name.now) }
        ensures memory { NotMemory result }
    {
        if self.is_at(scope.node, scope.path.segments()) {
            self.search(scope.node, name)
        } else {
            self.search_at(scope.path, name)
        }
    }

    /// The node that a name of one segment, without a prefix, finds from a scope; none where `lookup` refuses that
    /// name, which it does as `NotFound` alone. No name is made, and it takes no memory.
    pub fn search_segment(&self, scope: Scope<'_>, segment: Seg) -> Option<NodeId>
        ensures { seen (λ id. numbered id.number self.now.map) (found_or_not result) ≡
            seen Some (found self.now.map scope.entry.path.now (segment_name segment)) }
    {
        match self.nearest_in(scope, segment) {
            None => None,
            Some(first) => self.end_of(first),
        }
    }

    /// The node with a segment in a scope, or in the nearest scope above it, aliases not followed.
    fn nearest_in(&self, scope: Scope<'_>, segment: Seg) -> Option<NodeId>
        ensures { option_map (λ id. numbered id.number self.now.map) result ≡
            option_map Some (search_up self.now.map scope.entry.path.now (segment ∷ []) (length scope.entry.path.now)) }
    {
        let segments = [segment];
        if self.is_at(scope.node, scope.path.segments()) {
            self.search_above(scope.node, &segments)
        } else {
            self.search_from(scope.path, &segments)
        }
    }

    /// What a name finds from a scope, refused as `lookup` is. It takes no memory.
    pub fn lookup_in(&self, scope: Scope<'_>, name: &NameString) -> Result<&Entry>
        ensures answer { seen (λ entry. entry.now) result ≡ seen (λ f. f.1)
            (found self.now.map scope.entry.path.now name.now) }
        ensures memory { NotMemory result }
    {
        match self.search_in(scope, name) {
            Ok(id) => found_or_not(self.node(id)),
            Err(refusal) => Err(refusal),
        }
    }

    /// The path of what a name finds from a scope, with the node that is found; refused as `lookup` is.
    pub fn locate_in(&self, alloc: Global, scope: Scope<'_>, name: &NameString) -> Result<Located>
        ensures answer { Answers result (seen (λ f. f.0) (found self.now.map scope.entry.path.now name.now)) }
        ensures memory { IsErr (found self.now.map scope.entry.path.now name.now) → NotMemory result }
    {
        match self.search_in(scope, name) {
            Ok(id) => match self.locate_node(alloc, id)? {
                Some(located) => Ok(located),
                None => Err(Refusal::Namespace(NamespaceFault::NotFound)),
            },
            Err(refusal) => Err(refusal),
        }
    }

    /// Whether a node stands at a path. It goes up from the node. Where it says no, it may stand there all the same:
    /// the search then finds the scope from the root.
    pub(crate) fn is_at(&self, id: NodeId, segments: &[Seg]) -> bool
        ensures { result ≡ true → option_map (λ f. f.0) (numbered id.number self.now.map) ≡ Some segments.now }
    {
        if self.node(id).is_none() {
            return false;
        }
        let mut depth = segments.len();
        let mut current = id;
        'levels: while let Some((parent, segment)) = self.above(current) {
            if depth == 0 || segments[depth - 1] != segment {
                return false;
            }
            depth -= 1;
            current = parent;
        }
        depth == 0
    }
}
