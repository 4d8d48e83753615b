//! How an answer is handed out.
ghost use Rattle.std.specs.Prelude.{◌≡◌, [], map};
ghost use Rattle.ar_space.specs.Outcome.{seen};
ghost use Rattle.ar_space.specs.Change.{Does};
ghost use Rattle.aml_objects.specs.Objects.{string_at, buffer_at};
ghost use Rattle.aml_world.specs.state.Given as given;
ghost use Rattle.aml_meaning.specs.Exporting.{text_exported, bytes_exported, reference_exported, value_exported};
ghost use Rattle.aml_meaning.specs.Exporting.{use_exported, name_exported, held_exported, element_exported};
ghost use Rattle.aml_meaning.specs.Exporting.{each_exported, elements_exported, package_exported};

use crate::answers::CALLS_OF_A_FIELD;
use crate::fields::field_given;
use aml_meaning::Running;
use aml_objects::{Element, Reference, Value};
use aml_path::{NameString, Path};
use aml_world::{Datum, NameUse};
use ar_space::{EvaluationFault, Refusal, Result, Space};

/// The value of a package with these elements.
fn package(list: Vec<Datum>) -> Datum
    ensures { given.given_of result ≡ given.Package (given.givens (map given.given_of list.items)) }
{
    Datum::Package(list)
}

#[tactic(auto, using(aml_meaning::proofs::Exports::exporting, crate::proofs::Lent::lent), //
unfolding(aml_meaning::specs::Exporting::text_exported))]
fn text_exported<S: Space>(run: &Running<S>, object: u32) -> Result<Datum>
    ensures { Does (seen given.given_of result) run.now (text_exported object) run.now }
{
    let bytes = run.world.objects().string(run.world.alloc, object)?;
    Ok(Datum::Text(bytes))
}

#[tactic(auto, using(aml_meaning::proofs::Exports::exporting, crate::proofs::Lent::lent), //
unfolding(aml_meaning::specs::Exporting::bytes_exported))]
fn bytes_exported<S: Space>(run: &Running<S>, object: u32) -> Result<Datum>
    ensures { Does (seen given.given_of result) run.now (bytes_exported object) run.now }
{
    let bytes = run.world.objects().buffer(run.world.alloc, object)?;
    Ok(Datum::Bytes(bytes))
}

#[tactic(auto, using(aml_meaning::proofs::Exports::exporting), //
unfolding(aml_meaning::specs::Exporting::reference_exported))]
fn reference_exported<S: Space>(run: &Running<S>, reference: Reference) -> Result<Datum>
    ensures { Does (seen given.given_of result) run.now (reference_exported reference) run.now }
{
    match reference {
        Reference::Name(number) => run.world.path_of(number),
        Reference::Slot(_, _) => Ok(Datum::Reference),
        Reference::Element(_, _) => Ok(Datum::Reference),
        Reference::Byte(_, _) => Ok(Datum::Reference),
    }
}

/// A value as an answer hands it out, with packages nested at most so many levels deep.
#[cycle(exporting)]
#[tactic(auto, using(aml_meaning::proofs::Exports::exporting), //
unfolding(aml_meaning::specs::Exporting::value_exported))]
pub(crate) fn value_exported<S: Space>(
    run: &mut Running<S>,
    levels: usize,
    value: Value,
) -> Result<Datum>
    ensures { Does (seen given.given_of result) run.new (value_exported S.accesses
        (package_exported S.accesses levels) value) run.old }
{
    match value {
        Value::Uninitialized => Ok(Datum::Nothing),
        Value::Integer(number) => Ok(Datum::Integer(number)),
        Value::String(object) => text_exported(run, object),
        Value::Buffer(object) => bytes_exported(run, object),
        Value::Package(object) => package_exported(run, levels, object),
        Value::Reference(reference) => reference_exported(run, reference),
    }
}

#[cycle(exporting)]
#[tactic(auto, using(aml_meaning::proofs::Exports::exporting))]
fn package_exported<S: Space>(run: &mut Running<S>, levels: usize, object: u32) -> Result<Datum>
    ensures { Does (seen given.given_of result) run.new (package_exported S.accesses levels object) run.old }
{
    if levels == 0 {
        return Err(Refusal::Evaluation(EvaluationFault::ObjectLimit));
    }
    elements_exported(run, levels - 1, object)
}

/// The elements are those that the package has when its turn comes. What the address of a field stores into it
/// meanwhile doesn't show.
#[cycle(exporting)]
#[tactic(auto, using(aml_meaning::proofs::Exports::exporting, crate::proofs::Lent::lent), //
unfolding(aml_meaning::specs::Exporting::elements_exported))]
fn elements_exported<S: Space>(run: &mut Running<S>, levels: usize, object: u32) -> Result<Datum>
    ensures { Does (seen given.given_of result) run.new (elements_exported S.accesses
        (package_exported S.accesses levels) object) run.old }
{
    let alloc = run.world.alloc;
    let elements = run.world.objects().elements(alloc, object)?;
    let list = each_exported(run, levels, elements.as_slice())?;
    Ok(package(list))
}

#[cycle(exporting)]
#[tactic(auto, using(aml_meaning::proofs::Exports::exporting))]
fn each_exported<S: Space>(
    run: &mut Running<S>,
    levels: usize,
    elements: &[Element],
) -> Result<Vec<Datum>>
    ensures { Does (seen (λ v. map given.given_of v.items) result) run.new
        (each_exported S.accesses (package_exported S.accesses levels) elements.now []) run.old }
{
    let mut done = Vec::new(run.world.alloc);
    for element in elements {
        let datum = element_exported(run, levels, element)?;
        done.push(datum)?;
    }
    Ok(done)
}

/// An element of a package, which costs a step.
#[cycle(exporting)]
#[tactic(auto, using(aml_meaning::proofs::Exports::exporting), //
unfolding(aml_meaning::specs::Exporting::element_exported))]
fn element_exported<S: Space>(
    run: &mut Running<S>,
    levels: usize,
    element: &Element,
) -> Result<Datum>
    ensures { Does (seen given.given_of result) run.new (element_exported S.accesses
        (package_exported S.accesses levels) element.now) run.old }
{
    run.charge()?;
    held_exported(run, levels, element)
}

#[cycle(exporting)]
#[tactic(auto, using(aml_meaning::proofs::Exports::exporting), unfolding(aml_meaning::specs::Exporting::held_exported))]
fn held_exported<S: Space>(run: &mut Running<S>, levels: usize, element: &Element) -> Result<Datum>
    ensures { Does (seen given.given_of result) run.new (held_exported S.accesses (package_exported S.accesses levels)
        element.now) run.old }
{
    match element {
        Element::Value(value) => value_exported(run, levels, *value),
        Element::Name(name, scope) => name_exported(run, levels, name, scope),
    }
}

#[cycle(exporting)]
#[tactic(auto, using(aml_meaning::proofs::Exports::exporting), unfolding(aml_meaning::specs::Exporting::name_exported))]
fn name_exported<S: Space>(
    run: &mut Running<S>,
    levels: usize,
    name: &NameString,
    scope: &Path,
) -> Result<Datum>
    ensures { Does (seen given.given_of result) run.new (name_exported S.accesses (package_exported S.accesses levels)
        name.now scope.now) run.old }
{
    let found = run.world.name_use(name, scope)?;
    use_exported(run, levels, found)
}

#[cycle(exporting)]
#[tactic(auto, using(aml_meaning::proofs::Exports::exporting), unfolding(aml_meaning::specs::Exporting::use_exported))]
fn use_exported<S: Space>(run: &mut Running<S>, levels: usize, found: NameUse) -> Result<Datum>
    ensures { Does (seen given.given_of result) run.new (use_exported S.accesses
        (package_exported S.accesses levels) found) run.old }
{
    match found {
        NameUse::Value(value) => value_exported(run, levels, value),
        NameUse::Field(field) => field_given(run, CALLS_OF_A_FIELD, field),
        NameUse::Path(path) => Ok(Datum::Named(path)),
    }
}
