//! Names of one segment that hold integers or are field units, by the nodes that they find, so that no name and no
//! value is made (ACPI 6.5, 5.3 and 19.3.5.8).
ghost use Rattle.std.specs.Prelude.{◌≡◌, List, Some, None, Ok, true, false, IfSome};
ghost use Rattle.ar_space.specs.Change.{Does};
ghost use Rattle.ar_space.specs.Outcome.{seen};
ghost use Rattle.aml_path.specs.declared.segment.Seg.{Seg as Segment};
ghost use Rattle.aml_objects.specs.declared.entry.Entry.{Entry};
ghost use Rattle.aml_objects.specs.declared.entry.Field.TheVariants as field;
ghost use Rattle.aml_objects.specs.declared.entry.NamedObject.TheVariants.{Data};
ghost use Rattle.aml_objects.specs.declared.entry.NamedObject.TheVariants as objects;
ghost use Rattle.aml_objects.specs.declared.value.Value.{Value as AnyValue};
ghost use Rattle.aml_objects.specs.declared.value.Value.TheVariants.{Integer};
ghost use Rattle.aml_namespace.specs.Namespace.{numbered};
ghost use Rattle.aml_namespace.specs.OneSegment.{segment_name};
ghost use Rattle.aml_namespace.specs.Search.{found, found_or_not};
ghost use Rattle.aml_world.specs.declared.state.invocation.Invocation.TheVariants as invocation;
ghost use Rattle.aml_world.specs.declared.values.store_target.StoreTarget.TheVariants as targets;
ghost use Rattle.aml_world.specs.declared.values.store_target.Stored.TheVariants.{Done, Field};
ghost use Rattle.aml_world.specs.state.Invocations.{use_found};
ghost use Rattle.aml_world.specs.values.Stores.{stored};
ghost use Rattle.aml_world.specs.values.StoreTargets.{target_named};

use crate::state::world_state::WorldState;
use aml_namespace::Scope;
use aml_objects::{FieldUnit, NamedObject, NodeId, Value};
use aml_path::Seg;

impl<S> WorldState<S> {
    /// The node that a name of one segment, without a prefix, finds from a scope, as `search` finds it; none where
    /// that refuses the name, which it does as `NotFound` alone. The path of the node is the target that the name
    /// stands for.
    #[inline]
    pub fn node_named(&self, scope: Scope<'_>, segment: Seg) -> Option<NodeId>
        ensures found { seen (λ id. numbered id.number self.now.names.map) (found_or_not result) ≡
            seen Some (found self.now.names.map scope.entry.path.now (segment_name segment)) }
        ensures target { IfSome result (λ id. (f : List Segment × Entry) →
            numbered id.number self.now.names.map ≡ Some f → Does (Ok (targets.Name f.0)) self.now
            (target_named scope.entry.path.now (segment_name segment)) self.now) }
    {
        self.names().search_segment(scope, segment)
    }

    /// The integer that a name holds which is the node with an id, if it holds one: what the name is where a value
    /// stands.
    #[inline]
    pub fn node_integer(&self, id: NodeId) -> Option<u64>
        ensures held { IfSome result (λ number. (f : List Segment × Entry) →
            numbered id.number self.now.names.map ≡ Some f → f.1.object ≡ Data (Integer number)) }
        ensures used { IfSome result (λ number. (f : List Segment × Entry) → numbered id.number self.now.names.map ≡
            Some f → Does (Ok (invocation.Value (Integer number))) self.now (use_found f 0) self.now) }
        ensures gone { numbered id.number self.now.names.map ≡ None → result ≡ None }
    {
        match self.names().node(id) {
            None => None,
            Some(entry) => integer_of(&entry.object),
        }
    }

    /// The field unit that the node with an id is, if it is one: what the name is where a value stands, and what a
    /// store to it leads to.
    #[inline]
    pub fn node_unit(&self, id: NodeId) -> Option<FieldUnit>
        ensures used { IfSome result (λ unit. (f : List Segment × Entry) → numbered id.number self.now.names.map ≡ Some
            f → Does (Ok (invocation.Field (field.Unit unit))) self.now (use_found f 0) self.now) }
        ensures written { IfSome result (λ unit. (f : List Segment × Entry) →
            numbered id.number self.now.names.map ≡ Some f → (value : AnyValue) →
            Does (Ok (Field (field.Unit unit))) self.now (stored (targets.Name f.0) value) self.now) }
        ensures gone { numbered id.number self.now.names.map ≡ None → result ≡ None }
    {
        match self.names().node(id) {
            None => None,
            Some(entry) => unit_of(&entry.object),
        }
    }

    /// Stores an integer to the node with an id, where a name holds an integer there. Where it holds anything else,
    /// it answers no, and nothing changes: `store` says what comes of it. It takes no memory.
    #[inline]
    pub fn put_integer_at(&mut self, id: NodeId, number: u64) -> bool
        ensures change { result ≡ true → (f : List Segment × Entry) → numbered id.number self.old.names.map ≡ Some f →
            Does (Ok Done) self.new (stored (targets.Name f.0) (Integer number)) self.old }
        ensures gone { numbered id.number self.old.names.map ≡ None → result ≡ false }
        ensures unchanged { result ≡ false → self.new ≡ self.old }
    {
        self.declarations.put_integer(id, number)
    }
}

/// The integer that a name holds, if it holds one.
fn integer_of(object: &NamedObject) -> Option<u64>
    ensures { IfSome result (λ number. object.now ≡ Data (Integer number)) }
{
    match object {
        NamedObject::Data(Value::Integer(number)) => Some(*number),
        _ => None,
    }
}

/// The field unit that an object is, if it is one.
fn unit_of(object: &NamedObject) -> Option<FieldUnit>
    ensures { IfSome result (λ unit. object.now ≡ objects.FieldUnit unit) }
{
    match object {
        NamedObject::FieldUnit(unit) => Some(*unit),
        _ => None,
    }
}
