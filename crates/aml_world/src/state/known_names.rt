//! The names that are declared, and how many arguments they take.
ghost use Rattle.std.specs.Prelude.{◌≡◌, ◌++◌, ◌∷◌, ℕ, List, [], Ok, None, Some, true, false, OnErr, option_map};
ghost use Rattle.ar_space.specs.Change.{Does, DoesInPlace};
ghost use Rattle.ar_space.specs.Outcome.{Answers, seen};
ghost use Rattle.aml_path.specs.declared.segment.Seg.{Seg as Segment};
ghost use Rattle.aml_objects.specs.declared.entry.Entry.{Entry};
ghost use Rattle.aml_objects.specs.declared.entry.NamedObject.TheVariants.{Data};
ghost use Rattle.aml_objects.specs.declared.value.Value.TheVariants.{Integer};
ghost use Rattle.aml_namespace.specs.Namespace.{root_alone, declared, without_below, replaced, mutexes_released};
ghost use Rattle.aml_namespace.specs.Namespace.{numbered};
ghost use Rattle.aml_world.specs.state.Known.{on_known, is_plain};

use aml_arities::Arities;
use aml_marks::Marks;
use aml_namespace::{Located, Names};
use aml_objects::{Body, Entry, NamedObject, NodeId};
use aml_path::Path;
use ar_space::Result;
use std::alloc::Global;
use std::collections::BTreeMap;
use std::marker::Model;
use std::mem;

/// The body of a control method that was scanned: a share of its bytes, the levels that were allowed, and the marks that
/// the scan left.
#[derive(Drop)]
pub(crate) struct ScannedBody {
    pub(crate) body: Body,
    pub(crate) levels: usize,
    pub(crate) marks: Marks,
}

/// The names that are declared, and how many arguments they take as the tables tell.
///
/// How a body reads is up to the arguments that names take. So the marks of each body that was scanned are kept, by the
/// path of its control method, until names come to take other arguments. What is kept is not seen.
#[derive(Drop)]
pub(crate) struct Declarations {
    pub(crate) names: Names,
    pub(crate) arities: Arities,
    pub(crate) kept: BTreeMap<Path, ScannedBody>,
}

impl Model for Declarations {
    ghost use Rattle.aml_world.specs.state.Known.{Known, known_code, known_arities};

    ghost Value = { Known };

    ghost coded = { known_code };

    ghost use Rattle.aml_world.specs.state.KeptBodies.{AreKept};

    ghost view = { λ d. record { names = d.names; arities = d.arities } };

    ghost invariant = { λ d. AreKept (known_arities (record { names = d.names; arities = d.arities })) d.kept.entries };
}

impl Declarations {
    /// The root alone.
    #[tactic(auto, using(crate::proofs::BodyMarks::forgotten))]
    pub(crate) fn new(alloc: Global) -> Result<Declarations>
        ensures { Answers result (Ok (record { names = root_alone; arities = [] })) }
    {
        Ok(Declarations {
            names: Names::new(alloc)?,
            arities: Arities::new(alloc),
            kept: BTreeMap::new(alloc),
        })
    }

    /// Declares a name, as `Names::insert` does. What a name in a body finds may be another one
    /// from then on, so nothing is kept any more; where the declaration is refused, what is kept stays.
    #[tactic(auto, using(crate::proofs::KnownNames::keeping))]
    pub(crate) fn insert(&mut self, path: Path, object: NamedObject) -> Result<u64>
        ensures change { Does result self.new (on_known (declared path object)) self.old }
        ensures refused { OnErr result (self.new ≡ self.old) }
    {
        let declared = self.names.insert(path, object);
        keep_where(&mut self.kept, declared.is_err());
        declared
    }

    /// Removes the names below a path, as `Names::remove_below` does. Where none stood there, what is kept stays.
    #[tactic(auto, using(crate::proofs::KnownNames::keeping))]
    pub(crate) fn remove_below(&mut self, path: &Path)
        ensures { self.new ≡ record self.old { names = without_below path.now self.old.names } }
    {
        let removed = self.names.remove_below(path);
        keep_where(&mut self.kept, !removed);
    }

    /// A path takes so many arguments from now on, as `Arities::add` has it.
    #[tactic(auto, using(crate::proofs::BodyMarks::forgotten))]
    pub(crate) fn add_arity(&mut self, path: Path, count: u8) -> Result<()>
        ensures change { Answers (seen (λ _. self.new) result) (Ok (record self.old {
          arities = self.old.arities ++
              record { path = path; count = count; external = false } ∷ [];
        })) }
        ensures refused { OnErr result (self.new ≡ self.old) }
    {
        forget(&mut self.kept);
        self.arities.add(path, count, false)?;
        Ok(())
    }

    /// Takes over the arguments that names take from now on, and hands out those before. It takes no memory.
    #[tactic(auto, using(crate::proofs::BodyMarks::forgotten))]
    pub(crate) fn replace_arities(&mut self, arities: Arities) -> Arities
        ensures before { result ≡ self.old.arities }
        ensures after { self.new ≡ record self.old { arities = arities } }
    {
        forget(&mut self.kept);
        mem::replace(&mut self.arities, arities)
    }

    /// Releases every mutex, as `Names::release_mutexes` does. A mutex takes no arguments, so what is kept stays.
    #[tactic(auto, using(crate::proofs::KnownNames::keeping))]
    pub(crate) fn release_mutexes(&mut self)
        ensures { self.new ≡ record self.old { names = mutexes_released self.old.names } }
    {
        self.names.release_mutexes();
    }

    /// Puts an integer in place of another, as `Names::put_integer` does. An integer takes no arguments, so what is
    /// kept stays.
    #[tactic(auto, using(crate::proofs::KnownNames::keeping))]
    #[inline]
    pub(crate) fn put_integer(&mut self, id: NodeId, number: u64) -> bool
        ensures change { result ≡ true → (f : List Segment × Entry) → numbered id.number self.old.names.map ≡ Some f →
            replaced f.0 (Data (Integer number)) self.old.names ≡ (Ok tt, self.new.names) }
        ensures arities { self.new.arities ≡ self.old.arities }
        ensures held { result ≡ true → (f : List Segment × Entry) → numbered id.number self.old.names.map ≡ Some f →
            (n : ℕ) × (f.1.object ≡ Data (Integer n)) }
        ensures gone { numbered id.number self.old.names.map ≡ None → result ≡ false }
        ensures unchanged { result ≡ false → self.new ≡ self.old }
    {
        self.names.put_integer(id, number)
    }

    /// Puts another object into a node, as `Names::replace_node` does. Where neither object takes arguments or is an
    /// alias, what is kept stays.
    #[tactic(auto, using(crate::proofs::KnownNames::keeping))]
    pub(crate) fn replace_node(&mut self, id: NodeId, object: NamedObject)
        ensures change { (f : List Segment × Entry) → numbered id.number self.old.names.map ≡ Some f →
            replaced f.0 object self.old.names ≡ (Ok tt, self.new.names) }
        ensures arities { self.new.arities ≡ self.old.arities }
        ensures unchanged { numbered id.number self.old.names.map ≡ None → self.new ≡ self.old }
    {
        let plain = both_plain(&object, self.names.node(id));
        keep_where(&mut self.kept, plain);
        self.names.replace_node(id, object);
    }

    /// Puts another object at a path, as `Names::replace_located` does. Where neither object takes arguments or is an
    /// alias, what is kept stays.
    #[tactic(auto, using(crate::proofs::KnownNames::keeping))]
    pub(crate) fn replace_located(&mut self, located: &Located, object: NamedObject) -> Result<()>
        ensures { DoesInPlace result self.new (on_known (replaced located.now object)) self.old }
    {
        let plain = both_plain(&object, self.names.get_located(located));
        keep_where(&mut self.kept, plain);
        self.names.replace_located(located, object)
    }
}

/// Keeps nothing any more.
fn forget(kept: &mut BTreeMap<Path, ScannedBody>)
    ensures { kept.new.entries ≡ [] }
{
    kept.clear();
}

/// Keeps what is kept, or nothing any more.
fn keep_where(kept: &mut BTreeMap<Path, ScannedBody>, stays: bool)
    ensures stays { stays ≡ true → kept.new.entries ≡ kept.old.entries }
    ensures goes { stays ≡ false → kept.new.entries ≡ [] }
{
    if !stays {
        forget(kept);
    }
}

/// Whether an object and the one that stands where it is to stand take no arguments, and are no aliases.
fn both_plain(object: &NamedObject, standing: Option<&Entry>) -> bool
    ensures new { result ≡ true → is_plain object.now ≡ true }
    ensures old { result ≡ true → (e : Entry) → option_map (λ e. e.now) standing.entry ≡ Some e →
        is_plain e.object ≡ true }
{
    match standing {
        None => false,
        Some(entry) => is_plain(object) && is_plain(&entry.object),
    }
}

/// Whether an object takes no arguments, and is no alias.
fn is_plain(object: &NamedObject) -> bool
    ensures { result ≡ is_plain object.now }
{
    match object {
        NamedObject::Method(_) => false,
        NamedObject::Alias(_) => false,
        _ => true,
    }
}
