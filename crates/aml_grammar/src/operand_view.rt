//! Operands of terms in memory.
ghost use Rattle.std.specs.Prelude.{◌≡◌, ℕ, map, Some, None, option_map};
ghost use Rattle.ar_space.specs.Outcome.{Answers, seen};
ghost use Rattle.aml_grammar.specs.Apart.{Shows, operand_of, name_of, bytes_of};
ghost use Rattle.aml_grammar.specs.PartTree.{part_tree, part_list};
ghost use Rattle.aml_grammar.specs.View.{part_view};

use crate::term::Operand;
use crate::term_part::TermPart;
use crate::term_reader::OperandView;
use aml_path::NameString;
use ar_space::{NameFault, Refusal, Result};
use std::alloc::Global;

/// An operand of a term, from 0, where it has so many.
#[tactic(auto, using(crate::proofs::TermOperands::operands_at))]
pub(crate) fn operand_at<'a>(part: TermPart<'a>, index: usize) -> Option<&'a Operand>
    ensures { option_map (λ o. part_view o.now) result ≡ operand_of (part_tree part.entry) index }
{
    match part {
        TermPart::List(_) => None,
        TermPart::Term(term) => {
            if index < term.operands.len() {
                Some(&term.operands[index])
            } else {
                None
            }
        }
    }
}

pub(crate) fn view_of(operand: &Operand) -> OperandView<TermPart<'_>>
    ensures { Shows part_tree part_list result (Some (part_view operand.now)) }
{
    match operand {
        Operand::Null => OperandView::Null,
        Operand::Name(_) => OperandView::Name,
        Operand::Number(number) => OperandView::Number(*number),
        Operand::Bytes(_) => OperandView::Bytes,
        Operand::Term(term) => OperandView::Term(TermPart::Term(term)),
        Operand::List(terms) => OperandView::List(TermPart::List(terms)),
    }
}

pub(crate) fn name_of(alloc: Global, operand: &Operand) -> Result<NameString>
    ensures { Answers result (name_of (Some (part_view operand.now))) }
{
    match operand {
        Operand::Name(name) => name.copy(alloc),
        _ => Err(Refusal::Name(NameFault::BadName)),
    }
}

pub(crate) fn bytes_of(alloc: Global, operand: &Operand) -> Result<Vec<u8>>
    ensures { Answers (seen (λ v. v.items) result) (bytes_of (Some (part_view operand.now))) }
{
    match operand {
        Operand::Bytes(bytes) => Ok(Vec::from_slice(alloc, bytes)?),
        _ => Err(Refusal::Name(NameFault::BadName)),
    }
}
