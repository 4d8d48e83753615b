//! Operands that hold no terms, gone over without a copy.
ghost use Rattle.std.specs.Prelude.{◌≡◌, ◌≤◌, false, length, OnOk};
ghost use Rattle.ar_space.specs.Outcome.{NotMemory, seen};
ghost use Rattle.ar_space.specs.Change.{Does};
ghost use Rattle.aml_grammar.specs.Operands.{scope_name, alias_source, external_name, declared_name};
ghost use Rattle.aml_grammar.specs.Operands.{integer_operand, method_flags, object_type, argument_count};
ghost use Rattle.aml_grammar.specs.Operands.{bytes_operand, holds_terms};
ghost use Rattle.aml_grammar.specs.Grammar.{Inner, operand};
ghost use Rattle.aml_scan.specs.Scanned.{kept, scanned};

use crate::before::Before;
use crate::declared_names::{declare, declare_earlier, declared_path};
use crate::names::name_string;
use crate::positions::TermStart;
use crate::reader::Reader;
use crate::skip_names::skip_name;
use aml_arities::ArgumentCounts;
use aml_grammar::{Context, Earlier, OperandKind};
use aml_path::Path;
use ar_space::Result;

// ---- names

/// The name of a Scope: its list stands where the name is found, or else at the path that it stands for.
#[tactic(auto, using(crate::proofs::Scans::scanning), unfolding(aml_grammar::specs::Operands::scope_name))]
fn scope_name<C: ArgumentCounts, B: Before>(
    reader: &mut Reader<'_, C, B>,
    scope: &Path,
    earlier: &mut Earlier,
) -> Result<()>
    ensures reads { Does (seen (λ _. earlier.new) result) reader.new
        (kept (λ x. x.1) (scope_name scope.now earlier.old)) reader.old }
    ensures kept { OnOk result (length reader.new.rest ≤ length reader.old.rest) }
{
    let name = name_string(reader)?;
    let path = name.resolve_in(reader.alloc, scope)?;
    let place = reader.arities.found_or(reader.alloc, &name, scope, path)?;
    earlier.path = Some(place);
    Ok(())
}

#[tactic(auto, using(crate::proofs::Scans::scanning), unfolding(aml_grammar::specs::Operands::alias_source))]
fn alias_source<C: ArgumentCounts, B: Before>(
    reader: &mut Reader<'_, C, B>,
    scope: &Path,
    earlier: &mut Earlier,
) -> Result<()>
    ensures reads { Does (seen (λ _. earlier.new) result) reader.new
        (kept (λ x. x.1) (alias_source scope.now earlier.old)) reader.old }
    ensures kept { OnOk result (length reader.new.rest ≤ length reader.old.rest) }
{
    let name = name_string(reader)?;
    let path = name.resolve_in(reader.alloc, scope)?;
    let count = reader.arities.arity_of(reader.alloc, &name, scope, &path)?;
    earlier.count = count;
    Ok(())
}

#[tactic(auto, using(crate::proofs::Scans::scanning), unfolding(aml_grammar::specs::Operands::external_name))]
fn external_name<C: ArgumentCounts, B: Before>(
    reader: &mut Reader<'_, C, B>,
    scope: &Path,
    earlier: &mut Earlier,
) -> Result<()>
    ensures reads { Does (seen (λ _. earlier.new) result) reader.new
        (kept (λ x. x.1) (external_name scope.now earlier.old)) reader.old }
    ensures kept { OnOk result (length reader.new.rest ≤ length reader.old.rest) }
{
    let name = name_string(reader)?;
    let path = name.resolve_in(reader.alloc, scope)?;
    earlier.path = Some(path);
    Ok(())
}

/// A name that the term declares.
#[tactic(auto, using(crate::proofs::Scans::scanning), unfolding(aml_grammar::specs::Operands::declared_name))]
fn declared_name<C: ArgumentCounts, B: Before>(
    reader: &mut Reader<'_, C, B>,
    start: TermStart<'_>,
    count: u8,
    earlier: &mut Earlier,
) -> Result<()>
    ensures reads { Does (seen (λ _. earlier.new) result) reader.new (kept (λ x. x.1) (declared_name
        start.entry.scope.now start.entry.context start.entry.at count earlier.old)) reader.old }
    ensures kept { OnOk result (length reader.new.rest ≤ length reader.old.rest) }
{
    let name = name_string(reader)?;
    let path = declared_path(reader.alloc, start.scope, start.context, start.at, &name)?;
    declare(reader, start.context, &path, count, false)?;
    earlier.path = Some(path);
    Ok(())
}

// ---- numbers and bytes

#[tactic(auto, using(crate::proofs::Scans::scanning), unfolding(aml_grammar::specs::Operands::integer_operand))]
fn integer_operand<C: ArgumentCounts, B: Before>(
    reader: &mut Reader<'_, C, B>,
    width: usize,
) -> Result<()>
    requires { width ≤ 8 }
    ensures reads { Does result reader.new (scanned (integer_operand width)) reader.old }
    ensures kept { OnOk result (length reader.new.rest ≤ length reader.old.rest) }
    ensures memory { NotMemory result }
{
    reader.integer(width)?;
    Ok(())
}

/// The flags of a Method: bits 2 to 0 are its number of arguments.
#[tactic(auto, using(crate::proofs::Scans::scanning), unfolding(aml_grammar::specs::Operands::method_flags))]
fn method_flags<C: ArgumentCounts, B: Before>(
    reader: &mut Reader<'_, C, B>,
    context: Context,
    earlier: &Earlier,
) -> Result<()>
    ensures reads { Does (seen (λ _. earlier.now) result) reader.new
        (kept (λ x. x.1) (method_flags context earlier.now)) reader.old }
    ensures kept { OnOk result (length reader.new.rest ≤ length reader.old.rest) }
{
    let flags = reader.byte()?;
    declare_earlier(reader, context, earlier, flags % 8, false)?;
    Ok(())
}

/// The object type of an External.
#[tactic(auto, using(crate::proofs::Scans::scanning), unfolding(aml_grammar::specs::Operands::object_type))]
fn object_type<C: ArgumentCounts, B: Before>(
    reader: &mut Reader<'_, C, B>,
    earlier: &mut Earlier,
) -> Result<()>
    ensures reads { Does (seen (λ _. earlier.new) result) reader.new
        (kept (λ x. x.1) (object_type earlier.old)) reader.old }
    ensures kept { OnOk result (length reader.new.rest ≤ length reader.old.rest) }
    ensures memory { NotMemory result }
{
    let kind = reader.byte()?;
    earlier.count = kind;
    Ok(())
}

/// The object type of an External that names a control method.
const METHOD_TYPE: u8 = 8;

/// The argument count of an External: it counts where the object type is that of a method.
#[tactic(auto, using(crate::proofs::Scans::scanning), unfolding(aml_grammar::specs::Operands::argument_count))]
fn argument_count<C: ArgumentCounts, B: Before>(
    reader: &mut Reader<'_, C, B>,
    context: Context,
    earlier: &Earlier,
) -> Result<()>
    ensures reads { Does (seen (λ _. earlier.now) result) reader.new
        (kept (λ x. x.1) (argument_count context earlier.now)) reader.old }
    ensures kept { OnOk result (length reader.new.rest ≤ length reader.old.rest) }
{
    let given = reader.byte()?;
    let count = if earlier.count == METHOD_TYPE {
        given
    } else {
        0
    };
    declare_earlier(reader, context, earlier, count, true)?;
    Ok(())
}

/// The rest of a package as bytes.
#[tactic(auto, using(crate::proofs::Scans::scanning), unfolding(aml_grammar::specs::Operands::bytes_operand))]
fn bytes_operand<C: ArgumentCounts, B: Before>(reader: &mut Reader<'_, C, B>) -> Result<()>
    ensures reads { Does result reader.new (scanned bytes_operand) reader.old }
    ensures kept { OnOk result (length reader.new.rest ≤ length reader.old.rest) }
    ensures memory { NotMemory result }
{
    reader.skip_all();
    Ok(())
}

// ---- by kind

/// An operand of a kind that holds no terms.
///
/// It is a function of its own in the program too: inlined, the names and paths of its kinds would take stack at each
/// level of terms.
#[inline(never)]
#[tactic(auto, using(crate::proofs::Scans::scanning), unfolding(aml_grammar::specs::Grammar::operand))]
pub(crate) fn operand<C: ArgumentCounts, B: Before>(
    reader: &mut Reader<'_, C, B>,
    start: TermStart<'_>,
    kind: OperandKind,
    earlier: &mut Earlier,
) -> Result<()>
    requires { holds_terms kind ≡ false }
    ensures reads { (inner_term : Inner) → Does (seen (λ _. earlier.new) result) reader.new (kept (λ x. x.1) (operand
        inner_term start.entry.scope.now start.entry.context start.entry.at kind earlier.old)) reader.old }
    ensures kept { OnOk result (length reader.new.rest ≤ length reader.old.rest) }
{
    match kind {
        OperandKind::NameString => skip_name(reader),
        OperandKind::ScopeName => scope_name(reader, start.scope, earlier),
        OperandKind::AliasSource => alias_source(reader, start.scope, earlier),
        OperandKind::AliasName => {
            let count = earlier.count;
            declared_name(reader, start, count, earlier)
        }
        OperandKind::DeclaredName => declared_name(reader, start, 0, earlier),
        OperandKind::MethodFlags => method_flags(reader, start.context, earlier),
        OperandKind::ExternalName => external_name(reader, start.scope, earlier),
        OperandKind::ObjectType => object_type(reader, earlier),
        OperandKind::ArgumentCount => argument_count(reader, start.context, earlier),
        OperandKind::ByteData => integer_operand(reader, 1),
        OperandKind::WordData => integer_operand(reader, 2),
        OperandKind::DWordData => integer_operand(reader, 4),
        OperandKind::QWordData => integer_operand(reader, 8),
        OperandKind::AsciiCharList => reader.skip_text(),
        OperandKind::ByteList => bytes_operand(reader),
        _ => Ok(()),
    }
}
