//! Readers of terms in memory.
use crate::opcode::TermCode;
use crate::operand_view::{bytes_of, name_of, operand_at, view_of};
use crate::term::Term;
use crate::term_reader::{Item, OperandView, TermReader};
use aml_path::NameString;
use ar_space::{NameFault, Refusal, Result};
use std::alloc::Global;

/// A term in memory, or a list of them.
#[derive(Clone, Copy)]
pub enum TermPart<'a> {
    /// A term.
    Term(&'a Term),
    /// A list of terms.
    List(&'a [Term]),
}

impl<'a> TermReader for TermPart<'a> {
    ghost use Rattle.aml_grammar.specs.PartTree.{part_tree, part_list};

    ghost tree = { part_tree };

    ghost list = { part_list };

    fn code(self) -> TermCode {
        match self {
            TermPart::Term(term) => term.code,
            TermPart::List(_) => TermCode::Name,
        }
    }

    fn operand(self, index: usize) -> OperandView<TermPart<'a>> {
        match operand_at(self, index) {
            Some(operand) => view_of(operand),
            None => OperandView::Absent,
        }
    }

    fn name(self, alloc: Global, index: usize) -> Result<NameString> {
        match operand_at(self, index) {
            Some(operand) => name_of(alloc, operand),
            None => Err(Refusal::Name(NameFault::BadName)),
        }
    }

    fn bytes(self, alloc: Global, index: usize) -> Result<Vec<u8>> {
        match operand_at(self, index) {
            Some(operand) => bytes_of(alloc, operand),
            None => Err(Refusal::Name(NameFault::BadName)),
        }
    }

    fn next(self) -> Option<Item<TermPart<'a>>> {
        match self {
            TermPart::Term(_) => None,
            TermPart::List(terms) => {
                if terms.is_empty() {
                    return None;
                }
                Some(Item {
                    first: TermPart::Term(&terms[0]),
                    rest: TermPart::List(&terms[1..]),
                })
            }
        }
    }
}
