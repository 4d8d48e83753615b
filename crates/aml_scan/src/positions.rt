//! Where a term may stand, and the steps of a term that read no other term.
ghost use Rattle.std.specs.Prelude.{◌≡◌, ◌∷◌, ◌++◌, [], map, Ok};
ghost use Rattle.ar_space.specs.Outcome.{Answers, seen};
ghost use Rattle.aml_grammar.specs.Grammar.{stands, takes_name, costs_no_level, is_module_level, is_if, is_nothing};
ghost use Rattle.aml_grammar.specs.Grammar.{at_item, item_of_else, at_else, in_loop, opcode, admitted_row};
ghost use Rattle.aml_grammar.specs.Grammar.{admitted, row_at, argument_number, by_arities};
ghost use Rattle.aml_scan.specs.Reading.{Reads, MovesOnInPlace};

use crate::before::Before;
use crate::reader::Reader;
use crate::table::row_of;
use aml_arities::ArgumentCounts;
use aml_grammar::{Class, Context, Opcode, OperandKind, Position, Row};
use aml_path::{NameString, Path};
use ar_space::{Refusal, Result, TermFault};

/// Where a term begins that is gone over.
#[derive(Clone, Copy)]
pub(crate) struct TermStart<'a> {
    /// The scope that it stands in.
    pub(crate) scope: &'a Path,
    /// What holds inside it.
    pub(crate) context: Context,
    /// The offset of its first byte.
    pub(crate) at: usize,
}

/// Whether a term may stand in a position.
fn stands(class: Class, position: Position, context: Context) -> bool
    ensures { result ≡ stands class position context }
{
    match position {
        Position::ListItem => match class {
            Class::InLoop => context.in_loop,
            Class::InBody => context.body,
            Class::AfterIf | Class::DebugObject => false,
            _ => true,
        },
        Position::TermArg => matches!(
            class,
            Class::Expression | Class::Data | Class::Reference | Class::Slot
        ),
        Position::DataObject | Position::PackageElement => matches!(class, Class::Data),
        Position::SuperName => {
            matches!(class, Class::Slot | Class::DebugObject | Class::Reference)
        }
    }
}

/// Whether a term may be a name alone.
pub(crate) fn takes_name(position: Position) -> bool
    ensures { result ≡ takes_name position }
{
    matches!(
        position,
        Position::ListItem | Position::TermArg | Position::PackageElement
    )
}

/// Whether a term costs no level: a local, an argument or Debug as a place.
pub(crate) fn costs_no_level(class: Class, position: Position) -> bool
    ensures { result ≡ costs_no_level class position }
{
    match class {
        Class::DebugObject => true,
        Class::Slot => matches!(position, Position::SuperName),
        _ => false,
    }
}

fn is_module_level(class: Class) -> bool
    ensures { result ≡ is_module_level class }
{
    matches!(class, Class::ModuleLevel)
}

/// Whether an Else may follow a term with this opcode.
pub fn is_if(opcode: Opcode) -> bool
    ensures { result ≡ is_if opcode }
{
    matches!(opcode, Opcode::If)
}

/// Whether a term has no operand of this kind, nor any behind it.
pub fn is_nothing(kind: OperandKind) -> bool
    ensures { result ≡ is_nothing kind }
{
    matches!(kind, OperandKind::Nothing)
}

/// What holds inside a term that begins here.
pub(crate) fn at_item(context: Context, here: usize) -> Context
    ensures { result ≡ at_item context here }
{
    Context {
        body: context.body,
        in_loop: context.in_loop,
        item: Some(context.item.unwrap_or(here)),
    }
}

/// What holds inside an Else that begins here: it is an item of its own where its If, which began at `start`, is one.
pub(crate) fn at_else(context: Context, start: usize, here: usize) -> Context
    ensures { result ≡ at_else context start here }
{
    let item = context.item.unwrap_or(start);
    Context {
        body: context.body,
        in_loop: context.in_loop,
        item: Some(if item == start { here } else { item }),
    }
}

/// What holds inside a While.
pub(crate) fn in_loop(context: Context) -> Context
    ensures { result ≡ in_loop context }
{
    Context {
        body: context.body,
        in_loop: true,
        item: context.item,
    }
}

pub const EXT_OP_PREFIX: u8 = 0x5B;

/// The number of an opcode: one byte, or two after ExtOpPrefix.
#[tactic(auto, using(crate::proofs::Steps::reading), unfolding(aml_grammar::specs::Grammar::opcode))]
fn opcode<C: ArgumentCounts, B: Before>(reader: &mut Reader<'_, C, B>) -> Result<u16>
    ensures { MovesOnInPlace result reader.new opcode reader.old }
{
    let first = reader.byte()?;
    if first == EXT_OP_PREFIX {
        let second = reader.byte()?;
        Ok(0x5B00 + u16::from(second))
    } else {
        Ok(u16::from(first))
    }
}

/// The row of the next opcode, which may stand in this position.
#[tactic(auto, using(crate::proofs::Steps::reading), unfolding(aml_grammar::specs::Grammar::row_at))]
pub(crate) fn row_at<C: ArgumentCounts, B: Before>(
    reader: &mut Reader<'_, C, B>,
    position: Position,
    context: Context,
    start: usize,
) -> Result<Row>
    ensures { MovesOnInPlace result reader.new (row_at position context start) reader.old }
{
    let number = opcode(reader)?;
    match row_of(number) {
        None => Err(Refusal::Term(TermFault::BadOpcode, start)),
        Some(row) => {
            if !stands(row.1, position, context) {
                return Err(Refusal::Term(TermFault::BadOpcode, start));
            }
            if context.body && is_module_level(row.1) {
                return Err(Refusal::Term(TermFault::NotInBody, start));
            }
            Ok(*row)
        }
    }
}

/// How many arguments a name takes; a call with arguments is marked.
#[tactic(auto, using(crate::proofs::Steps::reading), //
unfolding(aml_grammar::specs::Grammar::argument_number, aml_grammar::specs::Grammar::by_arities))]
pub(crate) fn argument_number<C: ArgumentCounts, B: Before>(
    reader: &mut Reader<'_, C, B>,
    start: usize,
    scope: &Path,
    name: &NameString,
    path: &Path,
) -> Result<u8>
    ensures { Reads result reader.new (argument_number by_arities start scope.now name.now path.now) reader.old }
{
    let count = reader.arities.arity_of(reader.alloc, name, scope, path)?;
    reader.mark(start, count)?;
    Ok(count)
}
