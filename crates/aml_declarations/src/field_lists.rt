//! Lists of fields in an operation region, and behind an index field (ACPI 6.5, 19.6: Field, IndexField; 20.2.5.2:
//! FieldList).
ghost use Rattle.std.specs.Prelude.{◌≡◌, ◌≤◌};
ghost use Rattle.ar_space.specs.Change.{Does};
ghost use Rattle.ar_space.specs.Outcome.{NotMemory};
ghost use Rattle.aml_grammar.specs.Apart.{code_of};
ghost use Rattle.aml_terms.specs.AtTree.{at_tree, at_list};
ghost use Rattle.aml_meaning.specs.Meaning.{meaning};
ghost use Rattle.aml_meaning.specs.FieldTerms.{field_list_rule, index_list_rule, fields_laid, elements_laid};
ghost use Rattle.aml_meaning.specs.FieldTerms.{element_laid, named_field, reserved_field, access_field};
ghost use Rattle.aml_meaning.specs.FieldTerms.{named_connection, connection_if, connected_field, is_connection};
ghost use Rattle.aml_meaning.specs.FieldTerms.{has_connection, connections_asked};
ghost use Rattle.aml_frames.specs.Declarations.{coded_tree};

use aml_frames::{Activation, is_named, list_operand, number_operand, told};
use aml_grammar::{Opcode, TermCode, TermReader};
use aml_meaning::{Flow, Running};
use aml_objects::FieldSource;
use aml_terms::{At, RowPlace};
use aml_world::{FieldGroup, FieldLayout, WorldState, access_width, update_rule};
use ar_space::{NameFault, Refusal, Result, Space};

/// Field: the fields of an operation region.
#[tactic(auto, using(aml_meaning::proofs::Runs::running), unfolding(aml_meaning::specs::FieldTerms::field_list_rule))]
pub(crate) fn declare_fields<S: Space>(
    run: &mut Running<S>,
    act: &Activation,
    levels: u8,
    place: RowPlace,
) -> Result<Flow>
    ensures spent { run.new.1 ≤ run.old.1 }
    ensures means { Does result run.new
        (field_list_rule (meaning S.accesses) act.now.scope act.now.depth (coded_tree place act.now levels)) run.old }
{
    let alloc = run.world.alloc;
    let term = act.coded_term(levels, place);
    let elements = list_operand(&term, 2)?;
    ask_for_connections(&run.world, Opcode::Field, elements)?;
    let name = term.name(alloc, 0)?;
    let found = run.world.region_found(act.scope(), &name);
    let region = told(&mut run.world, act, &name, found)?;
    let flags = number_operand(&term, 1)?;
    lay_fields(run, act, FieldSource::Region(region), flags, elements)
}

/// IndexField: the fields behind an index field and a data field.
#[tactic(auto, using(aml_meaning::proofs::Runs::running), unfolding(aml_meaning::specs::FieldTerms::index_list_rule))]
pub(crate) fn declare_index_fields<S: Space>(
    run: &mut Running<S>,
    act: &Activation,
    levels: u8,
    place: RowPlace,
) -> Result<Flow>
    ensures spent { run.new.1 ≤ run.old.1 }
    ensures means { Does result run.new
        (index_list_rule (meaning S.accesses) act.now.scope act.now.depth (coded_tree place act.now levels)) run.old }
{
    let alloc = run.world.alloc;
    let term = act.coded_term(levels, place);
    let elements = list_operand(&term, 3)?;
    ask_for_connections(&run.world, Opcode::IndexField, elements)?;
    let name = term.name(alloc, 0)?;
    let found = run.world.field_found(act.scope(), &name);
    let index = told(&mut run.world, act, &name, found)?;
    let name = term.name(alloc, 1)?;
    let found = run.world.field_found(act.scope(), &name);
    let behind = told(&mut run.world, act, &name, found)?;
    let flags = number_operand(&term, 2)?;
    lay_fields(run, act, FieldSource::Index(index, behind), flags, elements)
}

/// The fields of a list, with these flags.
#[tactic(auto, using(aml_meaning::proofs::Runs::running), unfolding(aml_meaning::specs::FieldTerms::fields_laid))]
pub(crate) fn lay_fields<S: Space>(
    run: &mut Running<S>,
    act: &Activation,
    source: FieldSource,
    flags: u64,
    elements: At<'_>,
) -> Result<Flow>
    ensures spent { run.new.1 ≤ run.old.1 }
    ensures means { Does result run.new (fields_laid act.now.scope act.now.depth source flags
        (at_list elements.entry)) run.old }
{
    let group = FieldGroup {
        source,
        update: update_rule(flags),
    };
    let first = FieldLayout {
        bit_offset: 0,
        access: access_width(flags),
    };
    lay_elements(&mut run.world, act, group, first, &elements)?;
    Ok(Flow::Next)
}

/// Elements of a list of fields, one after another.
fn lay_elements<S: Space>(
    world: &mut WorldState<S>,
    act: &Activation,
    group: FieldGroup,
    first: FieldLayout,
    elements: &At<'_>,
) -> Result<()>
    ensures { Does result world.new (elements_laid group act.now.scope act.now.depth first
        (at_list elements.now)) world.old }
{
    let mut at = first;
    let mut rest = *elements;
    'elements: loop {
        match rest.next() {
            None => return Ok(()),
            Some(item) => {
                at = lay_element(world, act, group, at, &item.first)?;
                rest = item.rest;
            }
        }
    }
}

/// An element of a list of fields: where the fields behind it go on.
#[tactic(auto, using(crate::proofs::DeclaringFields::field_elements))]
fn lay_element<S: Space>(
    world: &mut WorldState<S>,
    act: &Activation,
    group: FieldGroup,
    at: FieldLayout,
    element: &At<'_>,
) -> Result<FieldLayout>
    ensures { Does result world.new (element_laid group act.now.scope act.now.depth (code_of (at_tree element.now)) at
        (at_tree element.now)) world.old }
{
    match element.code() {
        TermCode::NamedField => lay_named(world, act, group, at, element),
        TermCode::ReservedField => lay_reserved(world, act, group, at, element),
        TermCode::AccessField => lay_access(world, act, group, at, element),
        TermCode::ExtendedAccessField => lay_access(world, act, group, at, element),
        TermCode::ConnectField => lay_connection(world, act, group, at, element),
        TermCode::Name => Err(Refusal::Name(NameFault::BadName)),
        TermCode::MethodInvocation => Err(Refusal::Name(NameFault::BadName)),
        TermCode::Opcode(_) => Err(Refusal::Name(NameFault::BadName)),
    }
}

/// A field that is declared.
#[tactic(auto, using(aml_meaning::proofs::Runs::running), unfolding(aml_meaning::specs::FieldTerms::named_field))]
fn lay_named<S: Space>(
    world: &mut WorldState<S>,
    act: &Activation,
    group: FieldGroup,
    at: FieldLayout,
    element: &At<'_>,
) -> Result<FieldLayout>
    ensures { Does result world.new (named_field group act.now.scope act.now.depth at (at_tree element.now)) world.old }
{
    let name = element.name(world.alloc, 0)?;
    let resolved = name.resolve_in(world.alloc, act.scope().path);
    let path = told(world, act, &name, resolved)?;
    let count = number_operand(element, 1)?;
    let laid = world.new_field(group, act.depth() == 0, path, at, count);
    told(world, act, &name, laid)
}

/// Bits that are passed over.
#[tactic(auto, using(aml_meaning::proofs::Runs::running), unfolding(aml_meaning::specs::FieldTerms::reserved_field))]
fn lay_reserved<S: Space>(
    world: &WorldState<S>,
    act: &Activation,
    group: FieldGroup,
    at: FieldLayout,
    element: &At<'_>,
) -> Result<FieldLayout>
    ensures { Does result world.now (reserved_field group act.now.scope act.now.depth at
        (at_tree element.now)) world.now }
{
    let count = number_operand(element, 0)?;
    at.further(count)
}

/// Other accesses for the fields that follow.
#[tactic(auto, using(aml_meaning::proofs::Runs::running), unfolding(aml_meaning::specs::FieldTerms::access_field))]
fn lay_access<S: Space>(
    world: &WorldState<S>,
    act: &Activation,
    group: FieldGroup,
    at: FieldLayout,
    element: &At<'_>,
) -> Result<FieldLayout>
    ensures { Does result world.now (access_field group act.now.scope act.now.depth at
        (at_tree element.now)) world.now }
{
    let flags = number_operand(element, 0)?;
    Ok(at.with_access(flags))
}

/// A Connection: the fields behind it go on where they would without it.
#[tactic(auto, using(aml_meaning::proofs::Runs::running))]
fn lay_connection<S: Space>(
    world: &mut WorldState<S>,
    act: &Activation,
    group: FieldGroup,
    at: FieldLayout,
    element: &At<'_>,
) -> Result<FieldLayout>
    ensures { Does result world.new (connected_field group act.now.scope act.now.depth at
        (at_tree element.now)) world.old }
{
    if is_named(element, 0) {
        return test_connection(world, act, group, at, element);
    }
    Ok(at)
}

/// A Connection that is a name has to be that of a buffer.
#[tactic(auto, using(aml_meaning::proofs::Runs::running), unfolding(aml_meaning::specs::FieldTerms::named_connection))]
fn test_connection<S: Space>(
    world: &mut WorldState<S>,
    act: &Activation,
    group: FieldGroup,
    at: FieldLayout,
    element: &At<'_>,
) -> Result<FieldLayout>
    ensures { Does result world.new (named_connection group act.now.scope act.now.depth at
        (at_tree element.now)) world.old }
{
    let name = element.name(world.alloc, 0)?;
    let found = world.connection_found(act.scope(), &name);
    told(world, act, &name, found)?;
    Ok(at)
}

/// A list in which a Connection stands is refused in a world of the core profile, with the opcode of the list, before
/// anything of it is declared.
#[tactic(auto, using(aml_meaning::proofs::Runs::running))]
fn ask_for_connections<S: Space>(
    world: &WorldState<S>,
    opcode: Opcode,
    elements: At<'_>,
) -> Result<()>
    ensures answer { Does result world.now (connections_asked opcode (at_list elements.entry)) world.now }
    ensures memory { NotMemory result }
{
    if has_connection(elements) {
        return world.ask_for(opcode);
    }
    Ok(())
}

/// Whether a Connection stands in a list of fields.
fn has_connection(elements: At<'_>) -> bool
    ensures { result ≡ has_connection (at_list elements.entry) }
{
    let mut rest = elements;
    'elements: loop {
        match rest.next() {
            None => return false,
            Some(item) => {
                if is_connection(item.first.code()) {
                    return true;
                }
                rest = item.rest;
            }
        }
    }
}

fn is_connection(code: TermCode) -> bool
    ensures { result ≡ is_connection code }
{
    match code {
        TermCode::ConnectField => true,
        _ => false,
    }
}
