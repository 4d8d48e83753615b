//! Names that were found: a path, and the node that is expected there.
ghost use Rattle.std.specs.Prelude.{◌≡◌, Some, Ok, option_map};
ghost use Rattle.std.specs.FinMap as map;
ghost use Rattle.ar_space.specs.Change.{Does};
ghost use Rattle.ar_space.specs.Outcome.{Answers, NotMemory};
ghost use Rattle.aml_namespace.specs.Namespace.{numbered, replaced};
ghost use Rattle.aml_namespace.specs.Search.{at_path};

use crate::names::Names;
use crate::scope::Scope;
use aml_objects::{Entry, NamedObject, NodeId};
use aml_path::Path;
use ar_space::{NamespaceFault, Refusal, Result};
use std::alloc::Global;
use std::marker::Model;

/// A name that was found: its path, and the node that stood there.
///
/// The path alone says which name it is, so it is seen as its path; what is declared there anew stands for it from
/// then on. The node is a hint: while it stands at this path, it is gone to at once. Any other node costs the way
/// down from the root.
#[derive(Debug, Drop)]
pub struct Located {
    path: Path,
    node: NodeId,
}

impl Model for Located {
    ghost use Rattle.std.specs.Prelude.{List};
    ghost use Rattle.aml_path.specs.declared.segment.Seg.{Seg as Segment};

    ghost Value = { List Segment };

    ghost view = { λ l. l.path };
}

impl Located {
    /// A path, and the node that is expected there.
    pub fn new(path: Path, node: NodeId) -> Located
        ensures { result ≡ path }
    {
        Located { path, node }
    }

    /// The path.
    pub fn into_path(self) -> Path
        ensures { result ≡ self }
    {
        self.path
    }

    /// The name as a scope.
    pub fn scope(&self) -> Scope<'_>
        ensures { result.path.now ≡ self.now }
    {
        Scope {
            path: &self.path,
            node: self.node,
        }
    }
}

impl Names {
    /// The path of the node with an id, and that node; none where its declaration doesn't stand.
    pub fn locate_node(&self, alloc: Global, node: NodeId) -> Result<Option<Located>>
        ensures { Answers result (Ok (option_map (λ f. f.0) (numbered node.number self.now.map))) }
    {
        match self.path_of(alloc, node)? {
            None => Ok(None),
            Some(path) => Ok(Some(Located { path, node })),
        }
    }

    /// The path of the declaration with a number, and its node; none where it doesn't stand.
    pub fn locate_numbered(&self, alloc: Global, number: u64) -> Result<Option<Located>>
        ensures { Answers result (Ok (option_map (λ f. f.0) (numbered number self.now.map))) }
    {
        let node = self.nodes.id_of(number);
        self.locate_node(alloc, node)
    }

    /// The node that stands at the path of a name that was found. It takes no memory.
    fn node_at(&self, located: &Located) -> Option<NodeId>
        ensures { option_map (λ id. numbered id.number self.now.map) result ≡
            option_map Some (at_path self.now.map located.now) }
    {
        if self.is_at(located.node, located.path.segments()) {
            Some(located.node)
        } else {
            self.at(&[], located.path.segments())
        }
    }

    /// What stands at the path of a name that was found, as `get` has it. It takes no memory.
    pub fn get_located(&self, located: &Located) -> Option<&Entry>
        ensures { option_map (λ entry. entry.now) result ≡ map.get self.now.map located.now }
    {
        match self.node_at(located) {
            None => None,
            Some(id) => self.node(id),
        }
    }

    /// Puts another object in place of what stands at the path of a name that was found, as `replace` does. It takes
    /// no memory.
    ///
    /// Where nothing stands at the path this is refused as `NotFound`, and nothing changes.
    pub fn replace_located(&mut self, located: &Located, object: NamedObject) -> Result<()>
        ensures change { Does result self.new (replaced located.now object) self.old }
        ensures memory { NotMemory result }
    {
        match self.node_at(located) {
            None => Err(Refusal::Namespace(NamespaceFault::NotFound)),
            Some(id) => {
                self.nodes.replace(id, object);
                Ok(())
            }
        }
    }
}
