//! Operands that are places, and field elements, gone over (SuperName of ACPI 6.5, 20.2.2; FieldElement of 20.2.5.2).
ghost use Rattle.std.specs.Prelude.{◌≡◌, ◌<◌, ◌≤◌, length, OnOk};
ghost use Rattle.ar_space.specs.Change.{Does};
ghost use Rattle.aml_grammar.specs.Grammar.{is_slot, super_name, target, simple_name, connection, connect_field, field};
ghost use Rattle.aml_grammar.specs.Grammar.{fields, by_arities, term_at};
ghost use Rattle.aml_scan.specs.Scanned.{scanned};

use crate::before::Before;
use crate::fields::{access_field, extended_access_field, named_field, reserved_field};
use crate::names::starts_name;
use crate::reader::Reader;
use crate::skip_names::skip_name;
use crate::terms::term;
use aml_arities::ArgumentCounts;
use aml_grammar::{Context, Position};
use aml_path::Path;
use ar_space::{NameFault, Refusal, Result, TermFault};

/// The opcode of a Buffer.
const BUFFER: u8 = 0x11;

/// Whether a local or an argument begins with this byte.
#[tactic(auto, unfolding(aml_grammar::specs::Grammar::is_slot))]
fn is_slot(byte: u8) -> bool
    ensures { result ≡ is_slot byte }
{
    (0x60..=0x6E).contains(&byte)
}

/// A place that is read or written: a name, a local, an argument, Debug, or a term that gives a reference.
#[cycle(scan)]
#[tactic(auto, using(crate::proofs::Scans::scanning), //
unfolding(aml_grammar::specs::Grammar::super_name, aml_grammar::specs::Operands::name_operand))]
pub(crate) fn super_name<C: ArgumentCounts, B: Before>(
    reader: &mut Reader<'_, C, B>,
    levels: usize,
    scope: &Path,
    context: Context,
) -> Result<()>
    ensures reads { Does result reader.new
        (scanned (super_name (term_at by_arities levels) scope.now context)) reader.old }
    ensures kept { OnOk result (length reader.new.rest ≤ length reader.old.rest) }
{
    let next = reader.peek()?;
    if next == 0 {
        Err(Refusal::Name(NameFault::BadName))
    } else if starts_name(next) {
        skip_name(reader)
    } else {
        term(reader, levels, Position::SuperName, scope, context)
    }
}

/// A place that a result is stored to, or none.
#[cycle(scan)]
#[tactic(auto, using(crate::proofs::Scans::scanning), unfolding(aml_grammar::specs::Grammar::target))]
pub(crate) fn target<C: ArgumentCounts, B: Before>(
    reader: &mut Reader<'_, C, B>,
    levels: usize,
    scope: &Path,
    context: Context,
) -> Result<()>
    ensures reads { Does result reader.new (scanned (target (term_at by_arities levels) scope.now context)) reader.old }
    ensures kept { OnOk result (length reader.new.rest ≤ length reader.old.rest) }
{
    let next = reader.peek()?;
    if next == 0 {
        reader.byte()?;
        Ok(())
    } else {
        super_name(reader, levels, scope, context)
    }
}

/// A name, a local or an argument.
#[cycle(scan)]
#[tactic(auto, using(crate::proofs::Scans::scanning), unfolding(aml_grammar::specs::Grammar::simple_name))]
pub(crate) fn simple_name<C: ArgumentCounts, B: Before>(
    reader: &mut Reader<'_, C, B>,
    levels: usize,
    scope: &Path,
    context: Context,
) -> Result<()>
    ensures reads { Does result reader.new
        (scanned (simple_name (term_at by_arities levels) scope.now context)) reader.old }
    ensures kept { OnOk result (length reader.new.rest ≤ length reader.old.rest) }
{
    let here = reader.at();
    let next = reader.peek()?;
    if next == 0 || starts_name(next) || is_slot(next) {
        super_name(reader, levels, scope, context)
    } else {
        Err(Refusal::Term(TermFault::BadOpcode, here))
    }
}

/// What the elements after it are connected to: a name or a Buffer.
#[cycle(scan)]
#[tactic(auto, using(crate::proofs::Scans::scanning), //
unfolding(aml_grammar::specs::Grammar::connection, aml_grammar::specs::Operands::name_operand))]
fn connection<C: ArgumentCounts, B: Before>(
    reader: &mut Reader<'_, C, B>,
    levels: usize,
    scope: &Path,
    context: Context,
) -> Result<()>
    ensures reads { Does result reader.new
        (scanned (connection (term_at by_arities levels) scope.now context)) reader.old }
    ensures kept { OnOk result (length reader.new.rest ≤ length reader.old.rest) }
{
    let next = reader.peek()?;
    if starts_name(next) {
        skip_name(reader)
    } else if next == BUFFER {
        term(reader, levels, Position::DataObject, scope, context)
    } else {
        Err(Refusal::Name(NameFault::BadName))
    }
}

#[cycle(scan)]
#[tactic(auto, using(crate::proofs::Scans::scanning), unfolding(aml_grammar::specs::Grammar::connect_field))]
fn connect_field<C: ArgumentCounts, B: Before>(
    reader: &mut Reader<'_, C, B>,
    levels: usize,
    scope: &Path,
    context: Context,
) -> Result<()>
    ensures reads { Does result reader.new
        (scanned (connect_field (term_at by_arities levels) scope.now context)) reader.old }
    ensures shorter { OnOk result (length reader.new.rest < length reader.old.rest) }
{
    reader.byte()?;
    connection(reader, levels, scope, context)
}

#[cycle(scan)]
#[tactic(auto, using(crate::proofs::Scans::scanning), unfolding(aml_grammar::specs::Grammar::field))]
fn field<C: ArgumentCounts, B: Before>(
    reader: &mut Reader<'_, C, B>,
    levels: usize,
    scope: &Path,
    context: Context,
) -> Result<()>
    ensures reads { Does result reader.new (scanned (field (term_at by_arities levels) scope.now context)) reader.old }
    ensures shorter { OnOk result (length reader.new.rest < length reader.old.rest) }
{
    let next = reader.peek()?;
    if next == 0 {
        reserved_field(reader)
    } else if next == 1 {
        access_field(reader)
    } else if next == 2 {
        connect_field(reader, levels, scope, context)
    } else if next == 3 {
        extended_access_field(reader)
    } else {
        named_field(reader, scope, context)
    }
}

/// Field elements until nothing is left.
#[cycle(scan)]
pub(crate) fn fields<C: ArgumentCounts, B: Before>(
    reader: &mut Reader<'_, C, B>,
    levels: usize,
    scope: &Path,
    context: Context,
) -> Result<()>
    ensures reads { Does result reader.new (scanned (fields (term_at by_arities levels) scope.now context)) reader.old }
    ensures kept { OnOk result (length reader.new.rest ≤ length reader.old.rest) }
{
    'fields: while !reader.is_empty() {
        field(reader, levels, scope, context)?;
    }
    Ok(())
}
