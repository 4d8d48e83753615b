//! Objects of nodes that were found, changed by the nodes' ids.
ghost use Rattle.std.specs.Prelude.{◌≡◌, ℕ, List, Some, None, Ok, true, false};
ghost use Rattle.aml_path.specs.declared.segment.Seg.{Seg as Segment};
ghost use Rattle.aml_objects.specs.declared.entry.Entry.{Entry};
ghost use Rattle.aml_objects.specs.declared.entry.NamedObject.TheVariants.{Data};
ghost use Rattle.aml_objects.specs.declared.value.Value.TheVariants.{Integer};
ghost use Rattle.aml_namespace.specs.Namespace.{numbered, replaced};

use crate::names::Names;
use aml_objects::{NamedObject, NodeId};

impl Names {
    /// Puts another object into the node with an id, under the number of its declaration. Where that doesn't stand,
    /// nothing changes. It takes no memory.
    pub fn replace_node(&mut self, id: NodeId, object: NamedObject)
        ensures change { (f : List Segment × Entry) → numbered id.number self.old.map ≡ Some f →
            replaced f.0 object self.old ≡ (Ok tt, self.new) }
        ensures unchanged { numbered id.number self.old.map ≡ None → self.new ≡ self.old }
    {
        self.nodes.replace(id, object);
    }

    /// Puts an integer into the node with an id, where a name holds an integer there. Where it doesn't, or the id has
    /// not the node's key, it answers no, and nothing changes. It takes no memory.
    pub fn put_integer(&mut self, id: NodeId, number: u64) -> bool
        ensures change { result ≡ true → (f : List Segment × Entry) → numbered id.number self.old.map ≡ Some f →
            replaced f.0 (Data (Integer number)) self.old ≡ (Ok tt, self.new) }
        ensures held { result ≡ true → (f : List Segment × Entry) → numbered id.number self.old.map ≡ Some f →
            (n : ℕ) × (f.1.object ≡ Data (Integer n)) }
        ensures gone { numbered id.number self.old.map ≡ None → result ≡ false }
        ensures unchanged { result ≡ false → self.new ≡ self.old }
    {
        self.nodes.put_integer(id, number)
    }
}
