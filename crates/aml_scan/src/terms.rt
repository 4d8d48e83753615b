//! Terms, one inside another, gone over without a tree (TermObj of ACPI 6.5, 20.2.5).
ghost use Rattle.std.specs.Prelude.{◌≡◌, ◌<◌, ◌≤◌, length, OnOk, true};
ghost use Rattle.ar_space.specs.Outcome.{seen};
ghost use Rattle.ar_space.specs.Change.{Does};
ghost use Rattle.aml_grammar.specs.State.{times};
ghost use Rattle.aml_grammar.specs.Grammar.{named, named_term, invocation, coded_term, row_term};
ghost use Rattle.aml_grammar.specs.Grammar.{row_operands, packed, operands, operand, list_operand, items, by_arities};
ghost use Rattle.aml_grammar.specs.Grammar.{term_at, below, nothing_earlier, scope_of};
ghost use Rattle.aml_grammar.specs.declared.context.Position.TheVariants as positions;
ghost use Rattle.aml_scan.specs.Scanned.{kept, scanned, has_no_operands};

use crate::before::Before;
use crate::if_else::if_term;
use crate::names::{name_string, starts_name};
use crate::operands as leaf;
use crate::places::{fields, simple_name, super_name, target};
use crate::positions::{
    TermStart, argument_number, at_item, costs_no_level, in_loop, is_if, is_nothing, row_at,
    takes_name,
};
use crate::reader::Reader;
use crate::skip_names::skip_name;
use aml_arities::ArgumentCounts;
use aml_grammar::{Context, Earlier, OperandKind, Position, Row};
use aml_path::Path;
use ar_space::{Refusal, Result, TermFault};

/// A term, with at most this many levels below it.
#[cycle(scan)]
#[tactic(auto, using(crate::proofs::Scans::scanning), //
unfolding(aml_grammar::specs::Grammar::term_at, aml_grammar::specs::Grammar::term_in))]
pub(crate) fn term<C: ArgumentCounts, B: Before>(
    reader: &mut Reader<'_, C, B>,
    levels: usize,
    position: Position,
    scope: &Path,
    context: Context,
) -> Result<()>
    ensures reads { Does result reader.new (scanned (term_at by_arities levels position scope.now context)) reader.old }
    ensures shorter { OnOk result (length reader.new.rest < length reader.old.rest) }
{
    let at = reader.at();
    let next = reader.peek()?;
    let start = TermStart {
        scope,
        context: at_item(context, at),
        at,
    };
    if starts_name(next) {
        named(reader, levels, position, start)
    } else {
        coded_term(reader, levels, position, start)
    }
}

/// A term that begins with a name.
#[cycle(scan)]
#[tactic(auto, using(crate::proofs::Scans::scanning), unfolding(aml_grammar::specs::Grammar::named))]
fn named<C: ArgumentCounts, B: Before>(
    reader: &mut Reader<'_, C, B>,
    levels: usize,
    position: Position,
    start: TermStart<'_>,
) -> Result<()>
    ensures reads { Does result reader.new (scanned (named by_arities (below by_arities levels) position
        start.entry.scope.now start.entry.context start.entry.at)) reader.old }
    ensures shorter { OnOk result (length reader.new.rest < length reader.old.rest) }
{
    if !takes_name(position) {
        return Err(Refusal::Term(TermFault::BadOpcode, start.at));
    }
    if levels == 0 {
        return Err(Refusal::Term(TermFault::TooDeep, start.context.item.unwrap_or(start.at)));
    }
    named_term(reader, levels - 1, position, start)
}

/// A name, which is one alone as an element of a package.
#[cycle(scan)]
#[tactic(auto, using(crate::proofs::Scans::scanning), unfolding(aml_grammar::specs::Grammar::element_name))]
fn named_term<C: ArgumentCounts, B: Before>(
    reader: &mut Reader<'_, C, B>,
    levels: usize,
    position: Position,
    start: TermStart<'_>,
) -> Result<()>
    ensures reads { Does result reader.new (scanned (named_term by_arities (term_at by_arities levels) position
        start.entry.scope.now start.entry.context start.entry.at)) reader.old }
    ensures shorter { OnOk result (length reader.new.rest < length reader.old.rest) }
{
    match position {
        Position::PackageElement => skip_name(reader),
        _ => invocation(reader, levels, start),
    }
}

/// A name and as many terms as it takes arguments. It isn't inlined, so that terms with an opcode take no stack for the
/// name and its path.
#[inline(never)]
#[cycle(scan)]
#[tactic(auto, using(crate::proofs::Scans::scanning), unfolding(aml_grammar::specs::Grammar::invocation))]
fn invocation<C: ArgumentCounts, B: Before>(
    reader: &mut Reader<'_, C, B>,
    levels: usize,
    start: TermStart<'_>,
) -> Result<()>
    ensures reads { Does result reader.new (scanned (invocation by_arities (term_at by_arities levels)
        start.entry.scope.now start.entry.context start.entry.at)) reader.old }
    ensures shorter { OnOk result (length reader.new.rest < length reader.old.rest) }
{
    let name = name_string(reader)?;
    let path = name.resolve_in(reader.alloc, start.scope)?;
    let count = argument_number(reader, start.at, start.scope, &name, &path)?;
    arguments(reader, levels, start.scope, start.context, count)
}

#[cycle(scan)]
fn arguments<C: ArgumentCounts, B: Before>(
    reader: &mut Reader<'_, C, B>,
    levels: usize,
    scope: &Path,
    context: Context,
    count: u8,
) -> Result<()>
    ensures reads { Does result reader.new
        (scanned (times (term_at by_arities levels positions.TermArg scope.now context) count)) reader.old }
    ensures kept { OnOk result (length reader.new.rest ≤ length reader.old.rest) }
{
    'arguments: for _ in 0..count {
        term(reader, levels, Position::TermArg, scope, context)?;
    }
    Ok(())
}

/// A term that begins with an opcode.
#[cycle(scan)]
#[tactic(auto, using(crate::proofs::Scans::scanning), unfolding(aml_grammar::specs::Grammar::coded_term))]
fn coded_term<C: ArgumentCounts, B: Before>(
    reader: &mut Reader<'_, C, B>,
    levels: usize,
    position: Position,
    start: TermStart<'_>,
) -> Result<()>
    ensures reads { Does result reader.new (scanned (coded_term (below by_arities levels) position
        start.entry.scope.now start.entry.context start.entry.at)) reader.old }
    ensures shorter { OnOk result (length reader.new.rest < length reader.old.rest) }
{
    let row = row_at(reader, position, start.context, start.at)?;
    if costs_no_level(row.1, position) {
        return Ok(());
    }
    if levels == 0 {
        return Err(Refusal::Term(TermFault::TooDeep, start.context.item.unwrap_or(start.at)));
    }
    row_term(reader, levels - 1, start, row)
}

#[cycle(scan)]
#[tactic(auto, using(crate::proofs::Scans::scanning), //
unfolding(aml_grammar::specs::Grammar::row_term, aml_grammar::specs::Grammar::plain_term))]
fn row_term<C: ArgumentCounts, B: Before>(
    reader: &mut Reader<'_, C, B>,
    levels: usize,
    start: TermStart<'_>,
    row: Row,
) -> Result<()>
    ensures reads { Does result reader.new (scanned (row_term (term_at by_arities levels)
        start.entry.scope.now start.entry.context start.entry.at row)) reader.old }
    ensures kept { OnOk result (length reader.new.rest ≤ length reader.old.rest) }
{
    if is_if(row.0) {
        if_term(reader, levels, start, row)
    } else {
        row_operands(reader, levels, start, row)
    }
}

/// Whether a row has no operand, as those of constants and locals.
#[tactic(auto, unfolding(crate::specs::Scanned::has_no_operands))]
fn has_no_operands(row: &Row) -> bool
    ensures { result ≡ has_no_operands row.now }
{
    !row.2 && is_nothing(row.3.0)
}

/// The operands of a row of the table.
#[cycle(scan)]
#[tactic(auto, using(crate::proofs::Scans::scanning, crate::proofs::Rows::kept_none))]
pub(crate) fn row_operands<C: ArgumentCounts, B: Before>(
    reader: &mut Reader<'_, C, B>,
    levels: usize,
    start: TermStart<'_>,
    row: Row,
) -> Result<()>
    ensures reads { Does result reader.new (scanned (row_operands (term_at by_arities levels)
        start.entry.scope.now start.entry.context start.entry.at row)) reader.old }
    ensures kept { OnOk result (length reader.new.rest ≤ length reader.old.rest) }
{
    if has_no_operands(&row) {
        return Ok(());
    }
    let kinds = [row.3.0, row.3.1, row.3.2, row.3.3, row.3.4, row.3.5];
    if row.2 {
        packed_operands(reader, levels, start, &kinds)
    } else {
        operands(reader, levels, start, &kinds)
    }
}

/// Operands in a package.
#[cycle(scan)]
#[tactic(auto, using(crate::proofs::Scans::scanning))]
fn packed_operands<C: ArgumentCounts, B: Before>(
    reader: &mut Reader<'_, C, B>,
    levels: usize,
    start: TermStart<'_>,
    kinds: &[OperandKind],
) -> Result<()>
    ensures reads { Does result reader.new (scanned (packed true (operands (term_at by_arities levels)
        start.entry.scope.now start.entry.context start.entry.at kinds.now nothing_earlier))) reader.old }
    ensures kept { OnOk result (length reader.new.rest ≤ length reader.old.rest) }
{
    let outer = reader.enter()?;
    operands(reader, levels, start, kinds)?;
    reader.leave(outer);
    Ok(())
}

#[cycle(scan)]
fn operands<C: ArgumentCounts, B: Before>(
    reader: &mut Reader<'_, C, B>,
    levels: usize,
    start: TermStart<'_>,
    kinds: &[OperandKind],
) -> Result<()>
    ensures reads { Does result reader.new (scanned (operands (term_at by_arities levels)
        start.entry.scope.now start.entry.context start.entry.at kinds.now nothing_earlier)) reader.old }
    ensures kept { OnOk result (length reader.new.rest ≤ length reader.old.rest) }
{
    let mut earlier = Earlier {
        path: None,
        count: 0,
    };
    'operands: for kind in kinds {
        if is_nothing(*kind) {
            return Ok(());
        }
        operand(reader, levels, start, *kind, &mut earlier)?;
    }
    Ok(())
}

/// An operand, and in `earlier` what it leaves for later ones.
#[cycle(scan)]
#[tactic(auto, using(crate::proofs::Scans::scanning), unfolding(aml_grammar::specs::Grammar::operand))]
fn operand<C: ArgumentCounts, B: Before>(
    reader: &mut Reader<'_, C, B>,
    levels: usize,
    start: TermStart<'_>,
    kind: OperandKind,
    earlier: &mut Earlier,
) -> Result<()>
    ensures reads { Does (seen (λ _. earlier.new) result) reader.new (kept (λ x. x.1) (operand (term_at by_arities
        levels) start.entry.scope.now start.entry.context start.entry.at kind earlier.old)) reader.old }
    ensures kept { OnOk result (length reader.new.rest ≤ length reader.old.rest) }
{
    let scope = start.scope;
    let context = start.context;
    match kind {
        OperandKind::TermArg => term(reader, levels, Position::TermArg, scope, context),
        OperandKind::DataObject => term(reader, levels, Position::DataObject, scope, context),
        OperandKind::SuperName => super_name(reader, levels, scope, context),
        OperandKind::Target => target(reader, levels, scope, context),
        OperandKind::SimpleName => simple_name(reader, levels, scope, context),
        OperandKind::TermList => term_list(reader, levels, scope, earlier, context),
        OperandKind::LoopTermList => { term_list(reader, levels, scope, earlier, in_loop(context)) }
        OperandKind::PackageElementList => { element_list(reader, levels, scope, earlier, context) }
        OperandKind::FieldList => fields(reader, levels, scope, context),
        _ => leaf::operand(reader, start, kind, earlier),
    }
}

/// The terms of a term, under the path of its name where it has one.
#[cycle(scan)]
#[tactic(auto, using(crate::proofs::Scans::scanning), unfolding(aml_grammar::specs::Grammar::list_operand))]
fn term_list<C: ArgumentCounts, B: Before>(
    reader: &mut Reader<'_, C, B>,
    levels: usize,
    scope: &Path,
    earlier: &Earlier,
    context: Context,
) -> Result<()>
    ensures reads { Does result reader.new (scanned (list_operand (term_at by_arities levels) positions.ListItem
        (scope_of scope.now earlier.now.path) context)) reader.old }
    ensures kept { OnOk result (length reader.new.rest ≤ length reader.old.rest) }
{
    match &earlier.path {
        None => items(reader, levels, Position::ListItem, scope, context),
        Some(path) => items(reader, levels, Position::ListItem, path, context),
    }
}

/// The elements of a package.
#[cycle(scan)]
#[tactic(auto, using(crate::proofs::Scans::scanning), unfolding(aml_grammar::specs::Grammar::list_operand))]
fn element_list<C: ArgumentCounts, B: Before>(
    reader: &mut Reader<'_, C, B>,
    levels: usize,
    scope: &Path,
    earlier: &Earlier,
    context: Context,
) -> Result<()>
    ensures reads { Does result reader.new (scanned (list_operand (term_at by_arities levels) positions.PackageElement
        (scope_of scope.now earlier.now.path) context)) reader.old }
    ensures kept { OnOk result (length reader.new.rest ≤ length reader.old.rest) }
{
    match &earlier.path {
        None => items(reader, levels, Position::PackageElement, scope, context),
        Some(path) => items(reader, levels, Position::PackageElement, path, context),
    }
}

/// Terms until nothing is left.
#[cycle(scan)]
pub(crate) fn items<C: ArgumentCounts, B: Before>(
    reader: &mut Reader<'_, C, B>,
    levels: usize,
    position: Position,
    scope: &Path,
    context: Context,
) -> Result<()>
    ensures reads { Does result reader.new
        (scanned (items (term_at by_arities levels) position scope.now context)) reader.old }
    ensures kept { OnOk result (length reader.new.rest ≤ length reader.old.rest) }
{
    'items: while !reader.is_empty() {
        term(reader, levels, position, scope, context)?;
    }
    Ok(())
}
