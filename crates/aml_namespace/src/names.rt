//! The names that are declared, as numbered nodes.
ghost use Rattle.std.specs.Prelude.{◌≡◌, ◌++◌, ◌+◌, ◌<◌, ◌≤◌, ◌^◌, nat_lt, List, Some, Ok, Err, None, OnOk, OnErr};
ghost use Rattle.std.specs.Prelude.{IfOk, IsErr, IsOkUnless, option_map, ◌∷◌, [], is_some, true};
ghost use Rattle.std.specs.FinMap as map;
ghost use Rattle.ar_space.specs.declared.refusal.Refusal.TheVariants.{OutOfMemory};
ghost use Rattle.ar_space.specs.Outcome.{Answers, NotMemory};
ghost use Rattle.ar_space.specs.Change.{Does};
ghost use Rattle.aml_namespace.specs.Namespace.{root_alone, declared, without_below, replaced, mutexes_released};
ghost use Rattle.aml_namespace.specs.Namespace.{numbered};
ghost use Rattle.aml_objects.specs.declared.entry.NamedObject.TheVariants as object;
ghost use Rattle.aml_namespace.specs.Search.{at_path};
ghost use Rattle.aml_namespace.specs.Numbering.{Numbered};

use crate::index::Index;
use crate::node::Node;
use crate::nodes::Nodes;
use crate::tree::{child, descend, put};
use aml_objects::{Entry, NamedObject, NodeId};
use aml_path::{Path, Seg};
use ar_space::{EvaluationFault, NamespaceFault, Refusal, Result};
use std::alloc::Global;
use std::marker::Model;

/// The namespace: what stands at each path, and the number of the next declaration.
///
/// It is seen as a finite map of paths and that number. Each declaration's number is below the next one, and no two
/// that stand have the same: a number that was given is never given again. Each name is a node under its parent's,
/// and a path is the way down from the root, number 0.
#[derive(Drop)]
pub struct Names {
    pub(crate) nodes: Nodes,
    pub(crate) index: Index,
    pub(crate) next: u64,
}

impl Model for Names {
    ghost use Rattle.aml_namespace.specs.Namespace.{Namespace, namespace_code};
    ghost use Rattle.aml_namespace.specs.Tree.{map_of, child_in, Linked};

    ghost Value = { Namespace };

    ghost coded = { namespace_code };

    ghost view = { λ n. record { map = map_of n.nodes; next = n.next } };

    ghost invariant = { λ n. Linked n.nodes (child_in n.index) n.next };
}

/// The id of the root, which is declared first and lies in the first slot.
pub(crate) fn root_id() -> NodeId
    ensures { result.number ≡ 0 }
{
    NodeId { key: 0, number: 0 }
}

impl Names {
    /// The root alone.
    pub fn new(alloc: Global) -> Result<Names>
        ensures { Answers result (Ok root_alone) }
    {
        let mut nodes = Nodes::new(alloc);
        nodes.insert(root_node())?;
        let index = Index::new(alloc)?;
        Ok(Names {
            nodes,
            index,
            next: 1,
        })
    }

    /// What stands at the node with an id, whatever its key; none where its declaration doesn't stand any more, or
    /// never did. It takes no memory.
    pub fn node(&self, id: NodeId) -> Option<&Entry>
        ensures { option_map (λ entry. entry.now) result ≡ option_map (λ f. f.1) (numbered id.number self.now.map) }
    {
        match self.nodes.get(id) {
            None => None,
            Some(node) => Some(&node.entry),
        }
    }

    /// The node that some segments lead to from the root, and then some more. It takes no memory.
    pub(crate) fn at(&self, front: &[Seg], back: &[Seg]) -> Option<NodeId>
        ensures { option_map (λ id. numbered id.number self.now.map) result ≡
            option_map Some (at_path self.now.map (front.now ++ back.now)) }
    {
        match descend(&self.nodes, &self.index, root_id(), front) {
            None => None,
            Some(scope) => descend(&self.nodes, &self.index, scope, back),
        }
    }

    /// The node at a path. It takes no memory.
    pub fn find(&self, path: &Path) -> Option<NodeId>
        ensures { option_map (λ id. id.number) result ≡ option_map (λ entry. entry.number)
            (map.get self.now.map path.now) }
    {
        descend(&self.nodes, &self.index, root_id(), path.segments())
    }

    /// What stands at a path. It takes no memory.
    pub fn get(&self, path: &Path) -> Option<&Entry>
        ensures { option_map (λ entry. entry.now) result ≡ map.get self.now.map path.now }
    {
        match self.at(&[], path.segments()) {
            None => None,
            Some(id) => self.node(id),
        }
    }

    /// Each declaration's number is below the next one, and no two that stand have the same. It is a law: it does
    /// nothing.
    pub fn numbers_are_given_once(&self)
        ensures { Numbered self.now }
    {
        let _next = self.next;
    }

    /// Whether a number was given to a declaration, which may be gone by now. It takes no memory.
    pub fn was_given(&self, number: u64) -> bool
        ensures { result ≡ nat_lt number self.now.next }
    {
        number < self.next
    }

    /// Declares a name, and gives the number of the declaration.
    ///
    /// A name whose parent doesn't stand is refused as `NotFound`, one that stands already as `Exists`, and one for
    /// which no number is left as `ObjectLimit`. Where a name is refused, as for want of memory, nothing changes.
    pub fn insert(&mut self, path: Path, object: NamedObject) -> Result<u64>
        ensures change { Does result self.new (declared path object) self.old }
        ensures refused { OnErr result (self.new ≡ self.old) }
        ensures memory { IsErr (declared path object self.old).0 → NotMemory result }
    {
        let number = self.next;
        let Some((segment, above)) = path.segments().split_last() else {
            return Err(Refusal::Namespace(NamespaceFault::Exists));
        };
        let Some(parent) = descend(&self.nodes, &self.index, root_id(), above) else {
            return Err(Refusal::Namespace(NamespaceFault::NotFound));
        };
        if child(&self.nodes, &self.index, parent.number, *segment).is_some() {
            return Err(Refusal::Namespace(NamespaceFault::Exists));
        }
        if number == u64::MAX {
            return Err(Refusal::Evaluation(EvaluationFault::ObjectLimit));
        }
        let node = Node {
            segment: *segment,
            parent,
            entry: Entry { number, object },
        };
        put(&mut self.nodes, &mut self.index, node)?;
        self.next += 1;
        Ok(number)
    }

    /// Puts another object in place of what stands at a path, under the number of its declaration. It takes no memory.
    ///
    /// Where nothing stands at the path this is refused as `NotFound`, and nothing changes.
    pub fn replace(&mut self, path: &Path, object: NamedObject) -> Result<()>
        ensures change { Does result self.new (replaced path.now object) self.old }
        ensures memory { NotMemory result }
    {
        match descend(&self.nodes, &self.index, root_id(), path.segments()) {
            None => Err(Refusal::Namespace(NamespaceFault::NotFound)),
            Some(id) => {
                self.nodes.replace(id, object);
                Ok(())
            }
        }
    }

    /// Releases every mutex, however often it was acquired (ACPI 6.5, 19.6, Release). It takes no memory.
    pub fn release_mutexes(&mut self)
        ensures { self.new ≡ mutexes_released self.old }
    {
        self.nodes.release();
    }
}

/// The node of the root. Its segment is the name that the root has where one is asked for.
fn root_node() -> Node
    ensures { result.entry ≡ record { number = 0; object = object.Scope } }
{
    Node {
        segment: Seg::known(*b"____"),
        parent: root_id(),
        entry: Entry {
            number: 0,
            object: NamedObject::Scope,
        },
    }
}
