//! Nodes by id: each under the key that the slab picks, and found by its number where the key isn't known.
ghost use Rattle.std.specs.Prelude.{◌≡◌, ◌≢◌, ℕ, Some, None, true, false, OnOk, OnErr, IfOk, IfSome, IsOkUnless};
ghost use Rattle.std.specs.Prelude.{option_map};
ghost use Rattle.std.specs.FinMap as map;
ghost use Rattle.slab.specs.Slab as slots;
ghost use Rattle.ar_space.specs.declared.refusal.Refusal.TheVariants.{OutOfMemory};
ghost use Rattle.aml_path.specs.declared.segment.Seg.{Seg};
ghost use Rattle.aml_objects.specs.declared.entry.NamedObject.TheVariants.{Data};
ghost use Rattle.aml_objects.specs.declared.value.Value.TheVariants.{Integer};
ghost use Rattle.aml_namespace.specs.declared.node.Node.{Node as Seen};
ghost use Rattle.aml_namespace.specs.Nodes.{Keyed, key_of, object_put, with_node_object, node_released};

use crate::hints::{Hints, PROBES, first_place};
use crate::mutexes::{acquired, release};
use crate::node::Node;
use aml_objects::{NamedObject, NodeId, Value};
use aml_path::Seg;
use ar_space::Result;
use slab::Slab;
use std::alloc::Global;
use std::collections::BTreeMap;
use std::marker::Model;

/// The nodes that stand, seen as a finite map by the numbers of their declarations.
///
/// How many mutexes are acquired is kept beside them, so that nothing is searched for these where there are none. The
/// hints say where the node below another may lie, and each is checked before it is believed.
#[derive(Drop)]
pub(crate) struct Nodes {
    slab: Slab<Node>,
    keys: BTreeMap<u64, usize>,
    hints: Hints,
    acquired: usize,
}

impl Model for Nodes {
    ghost use Rattle.std.specs.Prelude.{◌≡◌};
    ghost use Rattle.std.specs.FinMap as map;
    ghost use Rattle.std.specs.Coded.{coded_ℕ};
    ghost use Rattle.std.specs.Ordering.{nat_cmp};
    ghost use Rattle.aml_namespace.specs.declared.node.Node.{Node as Seen};
    ghost use Rattle.aml_namespace.specs.contracts.node.Node as node_type;

    ghost Value = { map.FinMap nat_cmp Seen };

    ghost coded = { map.code coded_ℕ node_type.the_row.coded };

    ghost use Rattle.aml_namespace.specs.Nodes.{nodes_of, Keyed, acquired_in};

    ghost view = { λ n. nodes_of n.slab.slots n.keys.entries };

    ghost invariant = { λ n. Keyed n.slab.slots n.keys.entries × (n.acquired ≡ acquired_in n.slab.slots) };
}

impl Nodes {
    /// No node. It takes no memory.
    pub(crate) fn new(alloc: Global) -> Nodes
        ensures { result ≡ map.empty }
    {
        Nodes {
            slab: Slab::new(alloc),
            keys: BTreeMap::new(alloc),
            hints: Hints::new(alloc),
            acquired: 0,
        }
    }

    /// The node with an id, while it stands. Whatever the id's key, its number decides. It takes no memory.
    #[inline]
    pub(crate) fn get(&self, id: NodeId) -> Option<&Node>
        ensures { option_map (λ node. node.now) result ≡ map.get self.now id.number }
    {
        match self.slab.get(id.key) {
            Some(node) if node.entry.number == id.number => Some(node),
            _ => self.numbered(id.number),
        }
    }

    /// The node with a number, found by the number alone. Where no node was ever removed, its key is the same number.
    #[cold]
    #[inline(never)]
    fn numbered(&self, number: u64) -> Option<&Node>
        ensures { option_map (λ node. node.now) result ≡ map.get self.now number }
    {
        match self.slab.get(number as usize) {
            Some(node) if node.entry.number == number => Some(node),
            _ => self.searched(number),
        }
    }

    /// The same, wherever the node is.
    fn searched(&self, number: u64) -> Option<&Node>
        ensures { option_map (λ node. node.now) result ≡ map.get self.now number }
    {
        match self.keys.get(&number) {
            None => None,
            Some(key) => self.slab.get(*key),
        }
    }

    /// The id of the node with a number, with its key while it stands.
    pub(crate) fn id_of(&self, number: u64) -> NodeId
        ensures { result.number ≡ number }
    {
        match self.keys.get(&number) {
            None => NodeId::numbered(number),
            Some(key) => NodeId { key: *key, number },
        }
    }

    /// A node below a parent by a segment, if a hint leads to one; where none does, there may be one all the same. It
    /// takes no memory.
    pub(crate) fn hinted(&self, parent: u64, segment: Seg) -> Option<NodeId>
        ensures { IfSome result (λ id. (x : Seen) × (map.get self.now id.number ≡ Some x) ×
            (x.parent.number ≡ parent) × (x.segment ≡ segment)) }
    {
        let first = first_place(parent, segment);
        for step in 0..PROBES {
            let key = self.hints.key_at(first.wrapping_add(step))?;
            if let Some(id) = node_in(&self.slab, key, parent, segment) {
                return Some(id);
            }
        }
        None
    }

    /// Puts a node that is new. Where there is no memory for it, nothing changes.
    pub(crate) fn insert(&mut self, node: Node) -> Result<NodeId>
        requires new { map.get self.old node.entry.number ≡ None }
        ensures put { OnOk result (self.new ≡ map.insert self.old node.entry.number node) }
        ensures id { IfOk result (λ id. id.number ≡ node.entry.number) }
        ensures unchanged { OnErr result (self.new ≡ self.old) }
        ensures memory { IsOkUnless result OutOfMemory }
    {
        let number = node.entry.number;
        let parent = node.parent.number;
        let segment = node.segment;
        let more = acquired(&node.entry.object);
        make_room(&mut self.hints, &self.slab, &self.keys)?;
        self.slab.reserve(1)?;
        self.keys.insert(number, self.slab.vacant_key())?;
        let key = self.slab.insert_reserved(node);
        // So many mutexes are nodes, and the number of nodes fits.
        let _room = self.slab.capacity();
        self.acquired += more;
        self.hints.note(parent, segment, key);
        Ok(NodeId { key, number })
    }

    /// Removes the node with an id, if it stands. It takes no memory.
    pub(crate) fn remove(&mut self, id: NodeId)
        ensures { self.new ≡ map.remove self.old id.number }
    {
        let Some(key) = self.keys.remove(&id.number) else {
            return;
        };
        let node = self.slab.remove(key);
        self.acquired -= acquired(&node.entry.object);
    }

    /// Puts another object into the node with an id, if it stands. It takes no memory.
    pub(crate) fn replace(&mut self, id: NodeId, object: NamedObject)
        ensures { self.new ≡ object_put self.old id.number object }
    {
        let Some(key) = key_of(&self.slab, &self.keys, id) else {
            return;
        };
        // So many mutexes are nodes, and the number of nodes fits.
        let _room = self.slab.capacity();
        let node = &mut self.slab[key];
        let before = acquired(&node.entry.object);
        let after = acquired(&object);
        put_object(node, object);
        self.acquired = self.acquired - before + after;
    }

    /// Puts an integer into the node with an id, if an integer is held there and the id has the node's key; else
    /// nothing changes. It takes no memory.
    pub(crate) fn put_integer(&mut self, id: NodeId, number: u64) -> bool
        ensures put { result ≡ true → self.new ≡ object_put self.old id.number (Data (Integer number)) }
        ensures held { result ≡ true → (x : Seen) → map.get self.old id.number ≡ Some x → (n : ℕ) ×
            (x.entry.object ≡ Data (Integer n)) }
        ensures gone { map.get self.old id.number ≡ None → result ≡ false }
        ensures unchanged { result ≡ false → self.new ≡ self.old }
    {
        if is_integer_at(&self.slab, id) {
            let node = &mut self.slab[id.key];
            put_integer(&mut node.entry.object, number);
            return true;
        }
        false
    }

    /// Releases the mutexes. Where none is acquired, the nodes aren't read.
    pub(crate) fn release(&mut self)
        ensures { (number : ℕ) → map.get self.new number ≡ option_map node_released (map.get self.old number) }
    {
        if self.acquired > 0 {
            release_all(&mut self.slab);
            self.acquired = 0;
        }
    }
}

/// The key of the node with an id, while it stands: the id's own, where that node is in its slot, or the one of the
/// number.
fn key_of(slab: &Slab<Node>, keys: &BTreeMap<u64, usize>, id: NodeId) -> Option<usize>
    ensures { Keyed slab.now.slots keys.now.entries → result ≡ key_of keys.now.entries id.number }
{
    match slab.get(id.key) {
        Some(node) if node.entry.number == id.number => Some(id.key),
        _ => match keys.get(&id.number) {
            None => None,
            Some(key) => Some(*key),
        },
    }
}

/// The id of the node in the slot with a key, if that lies below a parent by a segment.
fn node_in(slab: &Slab<Node>, key: usize, parent: u64, segment: Seg) -> Option<NodeId>
    ensures { IfSome result (λ id. (x : Seen) × (slots.get slab.now key ≡ Some x) × (x.entry.number ≡ id.number) ×
        (x.parent.number ≡ parent) × (x.segment ≡ segment)) }
{
    match slab.get(key) {
        Some(node) if node.parent.number == parent && node.segment == segment => Some(NodeId {
            key,
            number: node.entry.number,
        }),
        _ => None,
    }
}

/// Makes room for one more hint: once there are many, the table is renewed.
fn make_room(hints: &mut Hints, slab: &Slab<Node>, keys: &BTreeMap<u64, usize>) -> Result<()>
    ensures memory { IsOkUnless result OutOfMemory }
{
    if hints.is_full() {
        hints.renew(slab.len())?;
        note_all(hints, slab, keys);
    }
    Ok(())
}

/// Notes where each node lies. It goes over the nodes that stand, and not over all slots: these may be many more.
fn note_all(hints: &mut Hints, slab: &Slab<Node>, keys: &BTreeMap<u64, usize>) {
    for (_, key) in keys {
        if let Some(node) = slab.get(*key) {
            hints.note(node.parent.number, node.segment, *key);
        }
    }
}

/// Puts another object into a node, under the same number.
fn put_object(node: &mut Node, object: NamedObject)
    ensures { node.new ≡ with_node_object object node.old }
{
    node.entry.object = object;
}

/// Whether the node with an id is in the slot with the id's key, and holds an integer.
fn is_integer_at(slab: &Slab<Node>, id: NodeId) -> bool
    ensures { result ≡ true → (x : Seen) × (slots.get slab.now id.key ≡ Some x) × (x.entry.number ≡ id.number) ×
        ((n : ℕ) × (x.entry.object ≡ Data (Integer n))) }
{
    match slab.get(id.key) {
        None => false,
        Some(node) => node.entry.number == id.number && is_integer(&node.entry.object),
    }
}

/// Whether an object is a name that holds an integer.
fn is_integer(object: &NamedObject) -> bool
    ensures { result ≡ true → (n : ℕ) × (object.now ≡ Data (Integer n)) }
{
    match object {
        NamedObject::Data(Value::Integer(_)) => true,
        _ => false,
    }
}

/// Puts an integer in place of the one that an object holds.
fn put_integer(object: &mut NamedObject, number: u64)
    ensures { (n : ℕ) → object.old ≡ Data (Integer n) → object.new ≡ Data (Integer number) }
{
    if let NamedObject::Data(Value::Integer(held)) = object {
        *held = number;
    }
}

/// Releases the mutexes in slots.
fn release_all(slab: &mut Slab<Node>)
    ensures { (key : ℕ) → slots.get slab.new key ≡ option_map node_released (slots.get slab.old key) }
{
    for key in 0..slab.capacity() {
        release_at(slab, key);
    }
}

/// Releases the mutex in the slot with a key, if there is one.
fn release_at(slab: &mut Slab<Node>, key: usize)
    ensures here { slots.get slab.new key ≡ option_map node_released (slots.get slab.old key) }
    ensures others { (k : ℕ) → k ≢ key → slots.get slab.new k ≡ slots.get slab.old k }
{
    if let Some(node) = slab.get_mut(key) {
        release(&mut node.entry.object);
    }
}
