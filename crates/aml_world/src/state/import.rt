//! Arguments that callers hand in (ACPI 6.5, 5.5.2.3).
ghost use Rattle.std.specs.Prelude.{◌≡◌, [], map};
ghost use Rattle.ar_space.specs.Change.{Does};
ghost use Rattle.ar_space.specs.Outcome.{Answers, seen};
ghost use Rattle.aml_objects.specs.Objects.{make_string, make_buffer};
ghost use Rattle.aml_world.specs.state.State.{on_objects};
ghost use Rattle.aml_world.specs.state.Given.{given_of, givens};
ghost use Rattle.aml_world.specs.state.Readings.{absolute};
ghost use Rattle.aml_world.specs.state.Drafted.{drafted};
ghost use Rattle.aml_world.specs.state.Importing.{reference_to, imported_by, each_imported, elements_imported};
ghost use Rattle.aml_world.specs.state.Importing.{package_imported, imported, all_imported};

use crate::state::datum::Datum;
use crate::state::world_state::WorldState;
use aml_objects::{Draft, Element, Elements, Octets, Reference, Value};
use aml_path::{NameString, Path, Prefix};
use ar_space::{EvaluationFault, MAX_NESTING, Refusal, Result, ValueFault};
use std::alloc::Global;

impl<S> WorldState<S> {
    /// A value that is handed in, as a value of this world.
    ///
    /// An integer is imported as wide as integers are, and a name as a reference to it. Refused: a name that isn't
    /// found as `NotFound`, a reference as `WrongType`, and as `ObjectLimit` what is too large, packages that nest
    /// more than 64 deep, and too many objects. A refused value makes no object.
    #[tactic(auto, using(crate::proofs::Imports::appending))]
    pub fn import(&mut self, datum: &Datum) -> Result<Value>
        ensures { Does result self.new (imported (given_of datum.now)) self.old }
    {
        let mut draft = Draft::new(self.alloc);
        let value = import_by(self, &mut draft, MAX_NESTING, datum)?;
        self.heap.append(draft)?;
        Ok(value)
    }

    /// Values that are handed in, one after another, each refused as `import` refuses it; the objects of those before
    /// a refused one stay.
    pub fn import_all(&mut self, arguments: &[Datum]) -> Result<Vec<Value>>
        ensures { Does (seen (λ list. list.items) result) self.new
            (all_imported (map given_of arguments.now) []) self.old }
    {
        let mut values = Vec::new(self.alloc);
        for datum in arguments {
            let value = self.import(datum)?;
            values.push(value)?;
        }
        Ok(values)
    }

    /// A reference to the name at a path.
    #[tactic(auto, using(ar_space::proofs::Changes::changing), unfolding(crate::specs::state::Importing::reference_to))]
    fn reference_to(&self, path: &Path) -> Result<Value>
        ensures { Does result self.now (reference_to path.now) self.now }
    {
        let name = absolute(self.alloc, path)?;
        let entry = self.entry(&Path::root(self.alloc), &name)?;
        Ok(Value::Reference(Reference::Name(entry.number)))
    }

    /// A new string of these bytes, in a draft.
    #[tactic(auto, using(crate::proofs::Imports::importing))]
    fn draft_text(&self, draft: &mut Draft, bytes: &Octets) -> Result<Value>
        ensures { Does result (drafted self.now draft.new) (on_objects (make_string bytes.now))
            (drafted self.now draft.old) }
    {
        match bytes.copy(self.alloc) {
            Ok(bytes) => draft.make_string(&self.heap, bytes),
            Err(refusal) => Err(refusal),
        }
    }

    /// A new buffer of these bytes, in a draft.
    #[tactic(auto, using(crate::proofs::Imports::importing))]
    fn draft_bytes(&self, draft: &mut Draft, bytes: &Octets) -> Result<Value>
        ensures { Does result (drafted self.now draft.new) (on_objects (make_buffer bytes.now))
            (drafted self.now draft.old) }
    {
        match bytes.copy(self.alloc) {
            Ok(bytes) => draft.make_buffer(&self.heap, bytes),
            Err(refusal) => Err(refusal),
        }
    }
}

/// A path, as a name that stands for it anywhere.
fn absolute(alloc: Global, path: &Path) -> Result<NameString>
    ensures { Answers result (Ok (absolute path.now)) }
{
    Ok(NameString::new(Prefix::Root, path.copy(alloc)?.into_vec()))
}

/// A value that is handed in: what it makes stands in the draft, behind the objects of the world.
#[cycle(importing)]
#[tactic(auto, using(crate::proofs::Imports::importing))]
fn import_by<S>(
    world: &WorldState<S>,
    draft: &mut Draft,
    levels: usize,
    datum: &Datum,
) -> Result<Value>
    ensures { Does result (drafted world.now draft.new) (imported_by (package_imported levels) (given_of datum.now))
        (drafted world.now draft.old) }
{
    match datum {
        Datum::Nothing => Ok(Value::Uninitialized),
        Datum::Integer(number) => world.integer_kept(*number),
        Datum::Text(bytes) => world.draft_text(draft, bytes),
        Datum::Bytes(bytes) => world.draft_bytes(draft, bytes),
        Datum::Package(list) => import_package(world, draft, levels, list),
        Datum::Named(path) => world.reference_to(path),
        Datum::Reference => Err(Refusal::Value(ValueFault::WrongType)),
    }
}

#[cycle(importing)]
#[tactic(auto, using(crate::proofs::Imports::importing))]
fn import_package<S>(
    world: &WorldState<S>,
    draft: &mut Draft,
    levels: usize,
    list: &[Datum],
) -> Result<Value>
    ensures { Does result (drafted world.now draft.new) (package_imported levels (givens (map given_of list.now)))
        (drafted world.now draft.old) }
{
    if levels == 0 {
        return Err(Refusal::Evaluation(EvaluationFault::ObjectLimit));
    }
    import_elements(world, draft, levels - 1, list)
}

#[cycle(importing)]
#[tactic(auto, using(crate::proofs::Imports::importing), unfolding(crate::specs::state::Importing::elements_imported))]
fn import_elements<S>(
    world: &WorldState<S>,
    draft: &mut Draft,
    levels: usize,
    list: &[Datum],
) -> Result<Value>
    ensures { Does result (drafted world.now draft.new) (elements_imported (package_imported levels)
        (givens (map given_of list.now))) (drafted world.now draft.old) }
{
    let elements = import_each(world, draft, levels, list)?;
    draft.make_package(&world.heap, elements)
}

#[cycle(importing)]
#[tactic(auto, using(ar_space::proofs::Changes::changing))]
fn import_each<S>(
    world: &WorldState<S>,
    draft: &mut Draft,
    levels: usize,
    list: &[Datum],
) -> Result<Elements>
    ensures { Does result (drafted world.now draft.new) (each_imported (package_imported levels)
        (givens (map given_of list.now)) []) (drafted world.now draft.old) }
{
    let mut done = Elements::new(world.alloc);
    for datum in list {
        let value = import_by(world, draft, levels, datum)?;
        done.push(Element::Value(value))?;
    }
    Ok(done)
}
