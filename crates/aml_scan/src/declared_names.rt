//! Declared names: their paths, and the arguments that they take.
ghost use Rattle.std.specs.Prelude.{◌≡◌, ◌∷◌, ◌++◌, [], false};
ghost use Rattle.ar_space.specs.Outcome.{Answers};
ghost use Rattle.aml_grammar.specs.DeclaredNames.{begins_outside, allowed_path, declared_path};
ghost use Rattle.aml_grammar.specs.Operands.{declare, declare_earlier};
ghost use Rattle.aml_scan.specs.Reading.{Reads};

use crate::before::Before;
use crate::reader::Reader;
use aml_arities::ArgumentCounts;
use aml_grammar::{Context, Earlier};
use aml_path::{NameString, Path, Prefix, Seg};
use ar_space::{NameFault, Refusal, Result, TermFault};
use std::alloc::Global;

/// Whether a name begins at the root or above its scope.
fn begins_outside(name: &NameString) -> bool
    ensures { result ≡ begins_outside name.now }
{
    match name.prefix() {
        Prefix::Root => true,
        Prefix::Parents(count) => count > 0,
    }
}

/// The path that a declared name stands for.
#[tactic(auto, using(ar_space::proofs::Outcomes::answering), //
unfolding(aml_grammar::specs::DeclaredNames::declared_path))]
pub(crate) fn declared_path(
    alloc: Global,
    scope: &Path,
    context: Context,
    start: usize,
    name: &NameString,
) -> Result<Path>
    ensures { Answers result (declared_path scope.now context start name.now) }
{
    if name.segments().is_empty() {
        return Err(Refusal::Name(NameFault::BadName));
    }
    allowed_path(alloc, scope, context, start, name)
}

/// The path of a name that may be declared here: in a body, only of a name without `\` or `^`.
#[tactic(auto, using(ar_space::proofs::Outcomes::answering), //
unfolding(aml_grammar::specs::DeclaredNames::allowed_path))]
fn allowed_path(
    alloc: Global,
    scope: &Path,
    context: Context,
    start: usize,
    name: &NameString,
) -> Result<Path>
    ensures { Answers result (allowed_path scope.now context start name.now) }
{
    let path = name.resolve_in(alloc, scope)?;
    if context.body && begins_outside(name) {
        return Err(Refusal::Term(TermFault::NotInBody, start));
    }
    Ok(path)
}

/// A declaration adds its arity, but not in a body.
#[tactic(auto, using(crate::proofs::Steps::reading))]
pub(crate) fn declare<C: ArgumentCounts, B: Before>(
    reader: &mut Reader<'_, C, B>,
    context: Context,
    path: &Path,
    count: u8,
    external: bool,
) -> Result<()>
    ensures { Reads result reader.new (declare context path.now count external) reader.old }
{
    if context.body {
        return Ok(());
    }
    let path = path.copy(reader.alloc)?;
    reader.arities.added.add(path, count, external)?;
    Ok(())
}

/// A declaration of the path that an earlier operand of the term named.
#[tactic(auto, using(crate::proofs::Steps::reading))]
pub(crate) fn declare_earlier<C: ArgumentCounts, B: Before>(
    reader: &mut Reader<'_, C, B>,
    context: Context,
    earlier: &Earlier,
    count: u8,
    external: bool,
) -> Result<()>
    ensures { Reads result reader.new (declare_earlier context earlier.now.path count external) reader.old }
{
    match &earlier.path {
        None => Ok(()),
        Some(path) => declare(reader, context, path, count, external),
    }
}

/// Declares a segment in the scope where the Field stands, but not in a body.
#[tactic(auto, using(crate::proofs::Steps::reading))]
pub(crate) fn declare_field<C: ArgumentCounts, B: Before>(
    reader: &mut Reader<'_, C, B>,
    scope: &Path,
    context: Context,
    segment: Seg,
) -> Result<()>
    ensures { Reads result reader.new (declare context (scope.now ++ segment ∷ []) 0 false) reader.old }
{
    if context.body {
        return Ok(());
    }
    let path = scope.child(reader.alloc, segment)?;
    reader.arities.added.add(path, 0, false)?;
    Ok(())
}
