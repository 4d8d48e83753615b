//! Match: the first element of a package that meets two tests (ACPI 6.5, 19.6).
ghost use Rattle.std.specs.Prelude.{◌≡◌, ◌≤◌, ◌<◌, Ok};
ghost use Rattle.ar_space.specs.Change.{Does, DoesInPlace};
ghost use Rattle.ar_space.specs.Outcome.{Answers, AnswersInPlace};
ghost use Rattle.aml_objects.specs.Contents.{content_in};
ghost use Rattle.aml_convert.specs.Matching.{is_match};
ghost use Rattle.aml_namespace.specs.Search.{found};
ghost use Rattle.aml_world.specs.values.Searches.{package_of, is_comparable, test_of, searching_from, search_begun};
ghost use Rattle.aml_world.specs.values.Searches.{unless_uninitialized, where_named, name_held, held_by, element_held};
ghost use Rattle.aml_world.specs.values.Searches.{meets, value_meets};

use crate::state::world_state::WorldState;
use crate::values::dereferences::named_once;
use crate::values::store_target::Held;
use aml_convert::{MatchOperator, is_match};
use aml_objects::{Element, Value};
use aml_path::{NameString, Path};
use ar_space::{EvaluationFault, NamespaceFault, Refusal, Result, ValueFault};

/// What Match asks of an element.
#[derive(Clone, Copy, Debug)]
pub struct MatchTest {
    pub operator: MatchOperator,
    /// What the element is compared with: an integer, a string or a buffer.
    pub object: Value,
}

/// What is searched for, and where.
#[derive(Clone, Copy, Debug)]
pub struct Search {
    /// The package.
    pub source: u32,
    /// How many elements it has.
    pub count: usize,
    pub first: MatchTest,
    pub second: MatchTest,
}

/// A search, while elements are left.
#[derive(Clone, Copy, Debug)]
pub struct Searching {
    pub search: Search,
    /// How many elements are left: the last ones.
    pub left: usize,
}

impl<S> WorldState<S> {
    /// The search that Match makes, by the values of its operands and the bytes of its operators. Tested in this
    /// order: what is searched in is a package, the first operator is at most 5 and its object an integer, a string or
    /// a buffer, and so the second ones, else `WrongType`; the start, refused as its conversion to an integer is; and
    /// `IndexLimit` where it isn't below the number of elements.
    #[tactic(auto, using(ar_space::proofs::Changes::changing), unfolding(crate::specs::values::Searches::search_begun))]
    pub fn begin_search(
        &self,
        source: Value,
        first: (u8, Value),
        second: (u8, Value),
        start: Value,
    ) -> Result<Searching>
        ensures { DoesInPlace result self.now (search_begun source first.0 first.1 second.0 second.1 start) self.now }
    {
        let object = package_of(source)?;
        let one = test_of(first.0, first.1)?;
        let other = test_of(second.0, second.1)?;
        let index = self.integer_in(start)?;
        let count = self.size_of_value(Value::Package(object))?;
        let search = Search {
            source: object,
            count: count as usize,
            first: one,
            second: other,
        };
        searching_from(search, index)
    }

    /// What the element of a package at an index holds: a value, or a field that is read next; nothing where it is
    /// uninitialized, or a name that isn't found.
    #[tactic(auto, using(crate::proofs::Lifted::reading), unfolding(crate::specs::values::Searches::element_held))]
    pub fn element_held(&self, object: u32, index: usize) -> Result<Option<Held>>
        ensures { DoesInPlace result self.now (element_held object index) self.now }
    {
        let element = self.objects().element(object, index)?;
        self.held_by(element)
    }

    #[tactic(auto, using(ar_space::proofs::Changes::changing))]
    fn held_by(&self, element: &Element) -> Result<Option<Held>>
        ensures { DoesInPlace result self.now (held_by element.now) self.now }
    {
        match element {
            Element::Value(value) => Ok(unless_uninitialized(*value)),
            Element::Name(name, scope) => self.name_held(name, scope),
        }
    }

    #[tactic(auto, unfolding(crate::specs::values::Searches::name_held))]
    fn name_held(&self, name: &NameString, scope: &Path) -> Result<Option<Held>>
        ensures { DoesInPlace result self.now (name_held name.now scope.now) self.now }
    {
        match self.names().lookup(scope, name) {
            Ok(entry) => Ok(Some(named_once(entry.number, &entry.object))),
            Err(Refusal::Namespace(NamespaceFault::NotFound)) => Ok(None),
            Err(refusal) => Err(refusal),
        }
    }

    /// Whether a value meets both tests of a search.
    #[tactic(auto, using(ar_space::proofs::Changes::changing))]
    pub fn value_meets(&self, search: &Search, value: Value) -> Result<bool>
        ensures { Does result self.now (value_meets search.now value) self.now }
    {
        match value {
            Value::Uninitialized => Ok(false),
            Value::Integer(_) => self.meets(search, value),
            Value::String(_) => self.meets(search, value),
            Value::Buffer(_) => self.meets(search, value),
            Value::Package(_) => self.meets(search, value),
            Value::Reference(_) => self.meets(search, value),
        }
    }

    #[tactic(auto, unfolding(crate::specs::values::Searches::meets))]
    fn meets(&self, search: &Search, value: Value) -> Result<bool>
        ensures { Does result self.now (meets search.now value) self.now }
    {
        if self.meets_test(search.first, value)? {
            return self.meets_test(search.second, value);
        }
        Ok(false)
    }

    /// Whether a value meets a test.
    fn meets_test(&self, test: MatchTest, value: Value) -> Result<bool>
        ensures { Answers result (Ok (is_match self.now.width test.operator (content_in self.now.objects test.object)
            (content_in self.now.objects value))) }
    {
        let object = self.heap.content(test.object);
        let element = self.heap.content(value);
        is_match(self.alloc, self.width, test.operator, object, element)
    }
}

/// The package that a value is; any other value is refused as `WrongType`.
fn package_of(value: Value) -> Result<u32>
    ensures { AnswersInPlace result (package_of value) }
{
    match value {
        Value::Package(object) => Ok(object),
        Value::Uninitialized => Err(Refusal::Value(ValueFault::WrongType)),
        Value::Integer(_) => Err(Refusal::Value(ValueFault::WrongType)),
        Value::String(_) => Err(Refusal::Value(ValueFault::WrongType)),
        Value::Buffer(_) => Err(Refusal::Value(ValueFault::WrongType)),
        Value::Reference(_) => Err(Refusal::Value(ValueFault::WrongType)),
    }
}

/// A test by the byte of its operator and its object; another byte or object is refused as `WrongType`.
fn test_of(number: u8, object: Value) -> Result<MatchTest>
    ensures { AnswersInPlace result (test_of number object) }
{
    match MatchOperator::from_number(u64::from(number)) {
        None => Err(Refusal::Value(ValueFault::WrongType)),
        Some(operator) => {
            if is_comparable(object) {
                return Ok(MatchTest { operator, object });
            }
            Err(Refusal::Value(ValueFault::WrongType))
        }
    }
}

/// Whether elements are compared with a value.
fn is_comparable(value: Value) -> bool
    ensures { result ≡ is_comparable value }
{
    match value {
        Value::Integer(_) => true,
        Value::String(_) => true,
        Value::Buffer(_) => true,
        Value::Uninitialized => false,
        Value::Package(_) => false,
        Value::Reference(_) => false,
    }
}

/// A search that begins at an index; refused as `IndexLimit` where no element stands there.
fn searching_from(search: Search, index: u64) -> Result<Searching>
    ensures { AnswersInPlace result (searching_from search index) }
{
    let index = index as usize;
    if index < search.count {
        return Ok(Searching {
            search,
            left: search.count - index,
        });
    }
    Err(Refusal::Evaluation(EvaluationFault::IndexLimit))
}

/// What an element that is a value holds.
fn unless_uninitialized(value: Value) -> Option<Held>
    ensures { result ≡ unless_uninitialized value }
{
    match value {
        Value::Uninitialized => None,
        Value::Integer(_) => Some(Held::Value(value)),
        Value::String(_) => Some(Held::Value(value)),
        Value::Buffer(_) => Some(Held::Value(value)),
        Value::Package(_) => Some(Held::Value(value)),
        Value::Reference(_) => Some(Held::Value(value)),
    }
}
