//! Mutexes (ACPI 6.5, 19.6: Acquire, Release). How often each is acquired is counted; nothing else holds one.
ghost use Rattle.std.specs.Prelude.{◌≡◌, List, Some, None, Ok, true, false, IfSome};
ghost use Rattle.ar_space.specs.Outcome.{AnswersInPlace};
ghost use Rattle.ar_space.specs.Change.{Does, DoesInPlace};
ghost use Rattle.aml_path.specs.declared.segment.Seg.{Seg as Segment};
ghost use Rattle.aml_objects.specs.declared.entry.Entry.{Entry};
ghost use Rattle.aml_objects.specs.declared.entry.NamedObject.TheVariants as object;
ghost use Rattle.aml_namespace.specs.Namespace.{numbered, replaced};
ghost use Rattle.aml_world.specs.declared.values.store_target.StoreTarget.TheVariants as targets;
ghost use Rattle.aml_world.specs.state.State.{on_names};
ghost use Rattle.aml_world.specs.state.Mutexes.{count_of_object, mutex_count, once_more, once_less, acquired};
ghost use Rattle.aml_world.specs.state.Mutexes.{given_back};
ghost use Rattle.aml_world.specs.state.Mutexes.{acquired_by_number, given_back_by_number, acquired_by, given_back_by};
ghost use Rattle.aml_world.specs.state.Mutexes.{acquired_at, given_back_at};

use crate::state::world_state::WorldState;
use crate::values::store_target::StoreTarget;
use aml_namespace::Located;
use aml_objects::{NamedObject, NodeId, Reference};
use ar_space::{EvaluationFault, NamespaceFault, Refusal, Result, ValueFault};

impl<S> WorldState<S> {
    /// Acquires the mutex that is named, by a path or by a reference. Refused: a path where nothing stands as
    /// `NotFound`, a reference to a name that is gone as `DeadReference`, anything else that is no mutex as
    /// `WrongType`, and a mutex that is acquired 2^64 - 1 times as `ObjectLimit`.
    #[tactic(auto, using(ar_space::proofs::Changes::changing))]
    pub fn acquire(&mut self, target: &StoreTarget) -> Result<()>
        ensures { Does result self.new (acquired_at target.now) self.old }
    {
        match target {
            StoreTarget::Nowhere => Err(Refusal::Value(ValueFault::WrongType)),
            StoreTarget::Slot(_) => Err(Refusal::Value(ValueFault::WrongType)),
            StoreTarget::Name(path) => self.acquire_at(path),
            StoreTarget::Refers(reference) => self.acquire_by(*reference),
        }
    }

    /// Releases the mutex that is named, by a path or by a reference. Refused: a path where nothing stands as
    /// `NotFound`, a reference to a name that is gone as `DeadReference`, anything else that is no mutex as
    /// `WrongType`, and a mutex that nobody has acquired as `NotAcquired`.
    #[tactic(auto, using(ar_space::proofs::Changes::changing))]
    pub fn release(&mut self, target: &StoreTarget) -> Result<()>
        ensures { Does result self.new (given_back_at target.now) self.old }
    {
        match target {
            StoreTarget::Nowhere => Err(Refusal::Value(ValueFault::WrongType)),
            StoreTarget::Slot(_) => Err(Refusal::Value(ValueFault::WrongType)),
            StoreTarget::Name(path) => self.release_at(path),
            StoreTarget::Refers(reference) => self.release_by(*reference),
        }
    }

    /// Acquires the mutex that a reference refers to; a reference to anything but a name is refused as `WrongType`.
    #[tactic(auto, using(ar_space::proofs::Changes::changing))]
    fn acquire_by(&mut self, reference: Reference) -> Result<()>
        ensures { Does result self.new (acquired_by reference) self.old }
    {
        match reference {
            Reference::Name(number) => self.acquire_numbered(number),
            Reference::Slot(_, _) => Err(Refusal::Value(ValueFault::WrongType)),
            Reference::Element(_, _) => Err(Refusal::Value(ValueFault::WrongType)),
            Reference::Byte(_, _) => Err(Refusal::Value(ValueFault::WrongType)),
        }
    }

    #[tactic(auto, using(ar_space::proofs::Changes::changing), unfolding(crate::specs::state::Mutexes::acquired_by_number))]
    fn acquire_numbered(&mut self, number: u64) -> Result<()>
        ensures { Does result self.new (acquired_by_number number) self.old }
    {
        let (path, _) = self.placed_declaration(number)?;
        self.acquire_at(&path)
    }

    /// Releases the mutex that a reference refers to; a reference to anything but a name is refused as `WrongType`.
    #[tactic(auto, using(ar_space::proofs::Changes::changing))]
    fn release_by(&mut self, reference: Reference) -> Result<()>
        ensures { Does result self.new (given_back_by reference) self.old }
    {
        match reference {
            Reference::Name(number) => self.release_numbered(number),
            Reference::Slot(_, _) => Err(Refusal::Value(ValueFault::WrongType)),
            Reference::Element(_, _) => Err(Refusal::Value(ValueFault::WrongType)),
            Reference::Byte(_, _) => Err(Refusal::Value(ValueFault::WrongType)),
        }
    }

    #[tactic(auto, using(ar_space::proofs::Changes::changing), unfolding(crate::specs::state::Mutexes::given_back_by_number))]
    fn release_numbered(&mut self, number: u64) -> Result<()>
        ensures { Does result self.new (given_back_by_number number) self.old }
    {
        let (path, _) = self.placed_declaration(number)?;
        self.release_at(&path)
    }

    #[tactic(auto, using(ar_space::proofs::Changes::changing), unfolding(crate::specs::state::Mutexes::acquired))]
    fn acquire_at(&mut self, path: &Located) -> Result<()>
        ensures { DoesInPlace result self.new (acquired path.now) self.old }
    {
        let count = self.mutex_count(path)?;
        let more = once_more(count)?;
        self.put_count(path, more)
    }

    #[tactic(auto, using(ar_space::proofs::Changes::changing), unfolding(crate::specs::state::Mutexes::given_back))]
    fn release_at(&mut self, path: &Located) -> Result<()>
        ensures { DoesInPlace result self.new (given_back path.now) self.old }
    {
        let count = self.mutex_count(path)?;
        let less = once_less(count)?;
        self.put_count(path, less)
    }

    /// Acquires the mutex that the node with an id is. Where it is none, or is acquired 2^64 - 1 times, it answers
    /// no, and nothing changes: `acquire` says why. It takes no memory.
    pub fn acquire_node(&mut self, id: NodeId) -> bool
        ensures change { result ≡ true → (f : List Segment × Entry) → numbered id.number self.old.names.map ≡ Some f →
            Does (Ok tt) self.new (acquired_at (targets.Name f.0)) self.old }
        ensures unchanged { result ≡ false → self.new ≡ self.old }
        ensures gone { numbered id.number self.old.names.map ≡ None → result ≡ false }
    {
        let Some(count) = self.count_at(id) else {
            return false;
        };
        if count == u64::MAX {
            return false;
        }
        self.declarations
            .replace_node(id, NamedObject::Mutex(count + 1));
        true
    }

    /// Releases the mutex that the node with an id is. Where it is none, or nobody has acquired it, it answers no,
    /// and nothing changes: `release` says why. It takes no memory.
    pub fn release_node(&mut self, id: NodeId) -> bool
        ensures change { result ≡ true → (f : List Segment × Entry) → numbered id.number self.old.names.map ≡ Some f →
            Does (Ok tt) self.new (given_back_at (targets.Name f.0)) self.old }
        ensures unchanged { result ≡ false → self.new ≡ self.old }
        ensures gone { numbered id.number self.old.names.map ≡ None → result ≡ false }
    {
        let Some(count) = self.count_at(id) else {
            return false;
        };
        if count == 0 {
            return false;
        }
        self.declarations
            .replace_node(id, NamedObject::Mutex(count - 1));
        true
    }

    /// How often the mutex is acquired that the node with an id is, if it is one.
    fn count_at(&self, id: NodeId) -> Option<u64>
        ensures held { IfSome result (λ count. (f : List Segment × Entry) →
            numbered id.number self.now.names.map ≡ Some f → f.1.object ≡ object.Mutex count) }
        ensures gone { numbered id.number self.now.names.map ≡ None → result ≡ None }
    {
        match self.names().node(id) {
            None => None,
            Some(entry) => count_held(&entry.object),
        }
    }

    #[tactic(auto, using(crate::proofs::Lifted::parts))]
    fn put_count(&mut self, path: &Located, count: u64) -> Result<()>
        ensures { DoesInPlace result self.new (on_names (replaced path.now (object.Mutex count))) self.old }
    {
        self.declarations
            .replace_located(path, NamedObject::Mutex(count))
    }

    /// How often the mutex at a path is acquired.
    #[tactic(auto, unfolding(crate::specs::state::Mutexes::mutex_count))]
    fn mutex_count(&self, path: &Located) -> Result<u64>
        ensures { DoesInPlace result self.now (mutex_count path.now) self.now }
    {
        match self.names().get_located(path) {
            None => Err(Refusal::Namespace(NamespaceFault::NotFound)),
            Some(entry) => count_of(&entry.object),
        }
    }
}

/// How often a mutex is acquired, if an object is one.
fn count_held(held: &NamedObject) -> Option<u64>
    ensures { IfSome result (λ count. held.now ≡ object.Mutex count) }
{
    match held {
        NamedObject::Mutex(count) => Some(*count),
        _ => None,
    }
}

fn count_of(object: &NamedObject) -> Result<u64>
    ensures { AnswersInPlace result (count_of_object object.now) }
{
    match object {
        NamedObject::Mutex(count) => Ok(*count),
        _ => Err(Refusal::Value(ValueFault::WrongType)),
    }
}

pub(crate) fn once_more(count: u64) -> Result<u64>
    ensures { AnswersInPlace result (once_more count) }
{
    if count == u64::MAX {
        return Err(Refusal::Evaluation(EvaluationFault::ObjectLimit));
    }
    Ok(count + 1)
}

fn once_less(count: u64) -> Result<u64>
    ensures { AnswersInPlace result (once_less count) }
{
    if count == 0 {
        return Err(Refusal::Evaluation(EvaluationFault::NotAcquired));
    }
    Ok(count - 1)
}
