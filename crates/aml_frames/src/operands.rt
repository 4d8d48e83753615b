//! Operands of terms of which no part is evaluated, by the kind that the grammar gives them.
ghost use Rattle.std.specs.Prelude.{◌≡◌};
ghost use Rattle.ar_space.specs.Outcome.{Answers, NotMemory, seen};
ghost use Rattle.aml_terms.specs.AtTree.{at_tree, at_list};
ghost use Rattle.aml_grammar.specs.Apart.{operand_of, bytes_of};
ghost use Rattle.aml_meaning.specs.Terms.{number_of, list_of, is_named};

use aml_grammar::{OperandView, TermReader};
use aml_objects::Octets;
use aml_terms::At;
use ar_space::{NameFault, Refusal, Result};
use std::alloc::Global;

/// An operand that is a number.
pub fn number_operand(term: &At<'_>, index: usize) -> Result<u64>
    ensures answer { Answers result (number_of (operand_of (at_tree term.now) index)) }
    ensures memory { NotMemory result }
{
    match term.operand(index) {
        OperandView::Number(number) => Ok(number),
        _ => Err(Refusal::Name(NameFault::BadName)),
    }
}

/// Whether an operand is a name.
pub fn is_named(term: &At<'_>, index: usize) -> bool
    ensures { result ≡ is_named (operand_of (at_tree term.now) index) }
{
    match term.operand(index) {
        OperandView::Name => true,
        _ => false,
    }
}

/// An operand that is bytes.
pub fn bytes_operand(alloc: Global, term: &At<'_>, index: usize) -> Result<Octets>
    ensures { Answers result (bytes_of (operand_of (at_tree term.now) index)) }
{
    match term.bytes(alloc, index) {
        Ok(bytes) => Ok(Octets::from_vec(bytes)),
        Err(refusal) => Err(refusal),
    }
}

/// An operand that is a list of terms.
pub fn list_operand<'t>(term: &At<'t>, index: usize) -> Result<At<'t>>
    ensures answer { Answers (seen at_list result) (list_of (operand_of (at_tree term.now) index)) }
    ensures memory { NotMemory result }
{
    match term.operand(index) {
        OperandView::List(part) => Ok(part),
        _ => Err(Refusal::Name(NameFault::BadName)),
    }
}
