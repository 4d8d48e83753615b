//! Names where values stand, and calls of control methods (ACPI 6.5, 5.5.2 and 20.2.5).
ghost use Rattle.std.specs.Prelude.{◌≡◌, ◌<◌, List, Some, OnOk};
ghost use Rattle.ar_space.specs.Change.{Does};
ghost use Rattle.ar_space.specs.Outcome.{Answers, NotMemory, seen};
ghost use Rattle.aml_path.specs.declared.segment.Seg.{Seg as Segment};
ghost use Rattle.aml_objects.specs.declared.entry.Entry.{Entry};
ghost use Rattle.aml_namespace.specs.Namespace.{numbered};
ghost use Rattle.aml_namespace.specs.Search.{found};
ghost use Rattle.aml_world.specs.state.Readings.{arguments_of};
ghost use Rattle.aml_world.specs.state.Invocations.{invocation_of_body, invocation_of_object, invocation_of, named_use};
ghost use Rattle.aml_world.specs.state.Invocations.{invocation_found, use_found, left, call_allowed};

use crate::state::invocation::Invocation;
use crate::state::readings::{arguments_of, as_many, read_as};
use crate::state::world_state::WorldState;
use aml_namespace::Scope;
use aml_objects::{Field, MethodBody, NamedObject, NodeId, Reference, Value};
use aml_path::{NameString, Path};
use ar_space::{EvaluationFault, NamespaceFault, Refusal, Result};

/// How many control methods may ever be called one inside another.
const MAX_CALLS: usize = 32;

impl<S> WorldState<S> {
    /// Whether one more call may be made, where so many control methods are being called; refused as `CallDepth` where
    /// these are 32, and as `DepthSetting` where they are as many as this world allows.
    #[tactic(auto, unfolding(crate::specs::state::Invocations::call_allowed, crate::specs::state::Invocations::call_allowed_within))]
    pub fn call_allowed(&self, depth: usize) -> Result<()>
        ensures answer { Does result self.now (call_allowed depth) self.now }
        ensures few { OnOk result (depth < 32) }
        ensures memory { NotMemory result }
    {
        if depth < MAX_CALLS {
            if depth < self.nesting.calls {
                Ok(())
            } else {
                Err(Refusal::Evaluation(EvaluationFault::DepthSetting))
            }
        } else {
            Err(Refusal::Evaluation(EvaluationFault::CallDepth))
        }
    }

    /// What a name is where a value stands, with so many arguments.
    ///
    /// A name that holds a value is that value, a field its bits, a control method a call, and anything else a
    /// reference to it; so is a name that holds a reference. Refused: a name that isn't found as `NotFound`, and
    /// another count than it takes as `ArityChanged`.
    pub fn invocation(
        &self,
        scope: Scope<'_>,
        name: &NameString,
        count: usize,
    ) -> Result<Invocation>
        ensures { Does result self.now (invocation_found scope.entry.path.now name.now count) self.now }
    {
        match self.search(scope, name) {
            Ok(id) => self.use_with(id, count),
            Err(refusal) => Err(refusal),
        }
    }

    /// The node that a name finds from a scope.
    pub fn search(&self, scope: Scope<'_>, name: &NameString) -> Result<NodeId>
        ensures answer { seen (λ id. numbered id.number self.now.names.map) result ≡
            seen Some (found self.now.names.map scope.entry.path.now name.now) }
        ensures memory { NotMemory result }
    {
        self.names().search_in(scope, name)
    }

    /// How many arguments it takes to evaluate the node with an id: those of a control method, none of anything else.
    fn arguments_at(&self, id: NodeId) -> u8
        ensures { (f : List Segment × Entry) → numbered id.number self.now.names.map ≡ Some f →
            result ≡ arguments_of f.1.object }
    {
        match self.names().node(id) {
            None => 0,
            Some(entry) => arguments_of(&entry.object),
        }
    }

    /// What the node is that a name finds, where a value stands with so many arguments; refused as `ArityChanged`
    /// where it takes another count.
    #[tactic(auto, using(ar_space::proofs::Changes::changing), unfolding(crate::specs::state::Invocations::use_found))]
    pub fn use_with(&self, id: NodeId, count: usize) -> Result<Invocation>
        ensures { (f : List Segment × Entry) → numbered id.number self.now.names.map ≡ Some f →
            Does result self.now (use_found f count) self.now }
    {
        as_many(self.arguments_at(id), count)?;
        self.use_of(id)
    }

    /// What a name is where a value stands; refused as `invocation` is, the count of arguments aside.
    #[tactic(auto, unfolding(crate::specs::state::Invocations::named_use))]
    pub fn named_use(&self, scope: Scope<'_>, name: &NameString) -> Result<Invocation>
        ensures { Does result self.now (named_use scope.entry.path.now name.now) self.now }
    {
        match self.names().search_in(scope, name) {
            Ok(id) => self.use_of(id),
            Err(refusal) => Err(refusal),
        }
    }

    /// What the node is that a name finds, where a value stands.
    fn use_of(&self, id: NodeId) -> Result<Invocation>
        ensures { (f : List Segment × Entry) → numbered id.number self.now.names.map ≡ Some f →
            Answers result (invocation_of_object f.0 f.1.number f.1.object) }
    {
        let Some(entry) = self.names().node(id) else {
            return Err(Refusal::Namespace(NamespaceFault::NotFound));
        };
        match &entry.object {
            NamedObject::Data(value) => Ok(Invocation::Value(read_as(entry.number, *value))),
            NamedObject::Method(method) => self.call_of(id, &method.body),
            NamedObject::FieldUnit(unit) => Ok(Invocation::Field(Field::Unit(*unit))),
            NamedObject::BufferField(field) => Ok(Invocation::Field(Field::Buffer(*field))),
            _ => Ok(Invocation::Value(Value::Reference(Reference::Name(entry.number)))),
        }
    }

    fn call_of(&self, id: NodeId, body: &MethodBody) -> Result<Invocation>
        ensures { (f : List Segment × Entry) → numbered id.number self.now.names.map ≡ Some f →
            Answers result (invocation_of_body f.0 body.now) }
    {
        match body {
            MethodBody::Osi => Ok(Invocation::Osi),
            MethodBody::Aml(body) => match self.names().path_of(self.alloc, id)? {
                None => Err(Refusal::Namespace(NamespaceFault::NotFound)),
                Some(path) => Ok(Invocation::Method(path, body.share()?)),
            },
        }
    }

    /// The call of the control method at a path ends: its frame, and the names below it. It takes no memory.
    pub fn leave(&mut self, path: &Path)
        ensures { self.new ≡ left path.now self.old }
    {
        self.close_frame();
        self.remove_below(path);
    }
}
