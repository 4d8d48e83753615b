//! Field elements that hold no terms, gone over without a copy (FieldElement of ACPI 6.5, 20.2.5.2).
ghost use Rattle.std.specs.Prelude.{◌≡◌};
ghost use Rattle.aml_grammar.specs.Operands.{reserved_field, access_field, extended_access_field, named_field};
ghost use Rattle.aml_scan.specs.Scanned.{scanned};
ghost use Rattle.aml_scan.specs.Reading.{MovesOn, MovesOnInPlace};

use crate::before::Before;
use crate::declared_names::declare_field;
use crate::names::segment;
use crate::reader::Reader;
use aml_arities::ArgumentCounts;
use aml_grammar::Context;
use aml_path::Path;
use ar_space::Result;

/// Bits that are passed over.
#[tactic(auto, using(crate::proofs::Scans::scanning), unfolding(aml_grammar::specs::Operands::reserved_field))]
pub(crate) fn reserved_field<C: ArgumentCounts, B: Before>(
    reader: &mut Reader<'_, C, B>,
) -> Result<()>
    ensures { MovesOnInPlace result reader.new (scanned reserved_field) reader.old }
{
    reader.byte()?;
    reader.bit_count()?;
    Ok(())
}

/// The access and its attribute for the elements after it.
#[tactic(auto, using(crate::proofs::Scans::scanning), unfolding(aml_grammar::specs::Operands::access_field))]
pub(crate) fn access_field<C: ArgumentCounts, B: Before>(
    reader: &mut Reader<'_, C, B>,
) -> Result<()>
    ensures { MovesOnInPlace result reader.new (scanned access_field) reader.old }
{
    reader.byte()?;
    reader.byte()?;
    reader.byte()?;
    Ok(())
}

/// The access, its attribute and its length for the elements after it.
#[tactic(auto, using(crate::proofs::Scans::scanning), unfolding(aml_grammar::specs::Operands::extended_access_field))]
pub(crate) fn extended_access_field<C: ArgumentCounts, B: Before>(
    reader: &mut Reader<'_, C, B>,
) -> Result<()>
    ensures { MovesOnInPlace result reader.new (scanned extended_access_field) reader.old }
{
    reader.byte()?;
    reader.byte()?;
    reader.byte()?;
    reader.byte()?;
    Ok(())
}

/// A segment and a count of bits.
#[tactic(auto, using(crate::proofs::Scans::scanning), unfolding(aml_grammar::specs::Operands::named_field))]
pub(crate) fn named_field<C: ArgumentCounts, B: Before>(
    reader: &mut Reader<'_, C, B>,
    scope: &Path,
    context: Context,
) -> Result<()>
    ensures { MovesOn result reader.new (scanned (named_field scope.now context)) reader.old }
{
    let segment = segment(reader)?;
    declare_field(reader, scope, context, segment)?;
    reader.bit_count()?;
    Ok(())
}
