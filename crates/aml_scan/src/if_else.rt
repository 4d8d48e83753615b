//! If and Else, gone over (DefIfElse of ACPI 6.5, 20.2.5.3).
ghost use Rattle.std.specs.Prelude.{◌≡◌, ◌≤◌, length, OnOk, true};
ghost use Rattle.ar_space.specs.Change.{Does};
ghost use Rattle.aml_grammar.specs.Grammar.{if_term, else_part, else_term, packed, list_operand, by_arities, term_at};
ghost use Rattle.aml_grammar.specs.declared.context.Position.TheVariants as positions;
ghost use Rattle.aml_scan.specs.Scanned.{scanned};

use crate::before::Before;
use crate::positions::{TermStart, at_else};
use crate::reader::Reader;
use crate::terms::{items, row_operands};
use aml_arities::ArgumentCounts;
use aml_grammar::{Context, Position, Row};
use aml_path::Path;
use ar_space::Result;

/// The opcode of an Else.
pub const ELSE: u8 = 0xA1;

/// An If, with the Else that may follow it.
#[cycle(scan)]
#[tactic(auto, using(crate::proofs::Scans::scanning), unfolding(aml_grammar::specs::Grammar::if_term))]
pub(crate) fn if_term<C: ArgumentCounts, B: Before>(
    reader: &mut Reader<'_, C, B>,
    levels: usize,
    start: TermStart<'_>,
    row: Row,
) -> Result<()>
    ensures reads { Does result reader.new (scanned (if_term (term_at by_arities levels)
        start.entry.scope.now start.entry.context start.entry.at row)) reader.old }
    ensures kept { OnOk result (length reader.new.rest ≤ length reader.old.rest) }
{
    row_operands(reader, levels, start, row)?;
    else_part(reader, levels, start)
}

#[cycle(scan)]
#[tactic(auto, using(crate::proofs::Scans::scanning), unfolding(aml_grammar::specs::Grammar::else_operand))]
fn else_part<C: ArgumentCounts, B: Before>(
    reader: &mut Reader<'_, C, B>,
    levels: usize,
    start: TermStart<'_>,
) -> Result<()>
    ensures reads { Does result reader.new (scanned (else_part (term_at by_arities levels)
        start.entry.scope.now start.entry.context start.entry.at)) reader.old }
    ensures kept { OnOk result (length reader.new.rest ≤ length reader.old.rest) }
{
    let here = reader.at();
    if reader.is_next(ELSE) {
        else_term(
            reader,
            levels,
            start.scope,
            at_else(start.context, start.at, here),
        )
    } else {
        Ok(())
    }
}

#[cycle(scan)]
#[tactic(auto, using(crate::proofs::Scans::scanning), unfolding(aml_grammar::specs::Grammar::else_term))]
fn else_term<C: ArgumentCounts, B: Before>(
    reader: &mut Reader<'_, C, B>,
    levels: usize,
    scope: &Path,
    context: Context,
) -> Result<()>
    ensures reads { Does result reader.new
        (scanned (else_term (term_at by_arities levels) scope.now context)) reader.old }
    ensures kept { OnOk result (length reader.new.rest ≤ length reader.old.rest) }
{
    reader.byte()?;
    packed_list(reader, levels, scope, context)
}

/// A list in a package.
#[cycle(scan)]
#[tactic(auto, using(crate::proofs::Scans::scanning))]
fn packed_list<C: ArgumentCounts, B: Before>(
    reader: &mut Reader<'_, C, B>,
    levels: usize,
    scope: &Path,
    context: Context,
) -> Result<()>
    ensures reads { Does result reader.new (scanned (packed true (list_operand (term_at by_arities levels)
        positions.ListItem scope.now context))) reader.old }
    ensures kept { OnOk result (length reader.new.rest ≤ length reader.old.rest) }
{
    let outer = reader.enter()?;
    items(reader, levels, Position::ListItem, scope, context)?;
    reader.leave(outer);
    Ok(())
}
