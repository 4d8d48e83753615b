//! Copies of terms in memory, made from any reader of terms.
ghost use Rattle.std.specs.Prelude.{◌≡◌, map, option_map, Ok};
ghost use Rattle.ar_space.specs.Outcome.{Answers, seen};
ghost use Rattle.aml_grammar.specs.Apart.{operand_of};
ghost use Rattle.aml_grammar.specs.View.{part_view, tree_view};
ghost use Rattle.aml_terms.specs.Copying.{operands_of, trees_list};

use aml_grammar::{Operand, OperandView, Term, TermReader};
use ar_space::Result;
use std::alloc::Global;

/// A copy of the terms of a list.
#[cycle(copy)]
#[tactic(auto, using(crate::proofs::Copied::copying))]
pub(crate) fn copied_list<R: TermReader>(alloc: Global, list: R) -> Result<Vec<Term>>
    ensures { Answers (seen (λ v. map tree_view v.items) result) (Ok (trees_list (R.list list))) }
{
    let mut terms = Vec::new(alloc);
    let mut rest = list;
    'items: loop {
        match rest.next() {
            None => return Ok(terms),
            Some(item) => {
                let term = copied_term(alloc, item.first)?;
                terms.push(term)?;
                rest = item.rest;
            }
        }
    }
}

/// A copy of a term.
#[cycle(copy)]
#[tactic(auto, using(crate::proofs::Copied::copying))]
fn copied_term<R: TermReader>(alloc: Global, part: R) -> Result<Term>
    ensures { Answers (seen tree_view result) (Ok (R.tree part)) }
{
    let operands = copied_operands(alloc, part)?;
    Ok(Term {
        code: part.code(),
        operands,
    })
}

/// Copies of the operands of a term.
#[cycle(copy)]
#[tactic(auto, using(crate::proofs::Copied::copying))]
fn copied_operands<R: TermReader>(alloc: Global, part: R) -> Result<Vec<Operand>>
    ensures { Answers (seen (λ v. map part_view v.items) result) (Ok (operands_of (R.tree part))) }
{
    let mut operands = Vec::new(alloc);
    'operands: loop {
        match copied_operand(alloc, part, operands.len())? {
            None => return Ok(operands),
            Some(operand) => operands.push(operand)?,
        }
    }
}

/// A copy of an operand, where there is one.
#[cycle(copy)]
#[tactic(auto, using(crate::proofs::Copied::copying))]
fn copied_operand<R: TermReader>(alloc: Global, part: R, index: usize) -> Result<Option<Operand>>
    ensures { Answers (seen (option_map part_view) result) (Ok (operand_of (R.tree part) index)) }
{
    match part.operand(index) {
        OperandView::Absent => Ok(None),
        OperandView::Null => Ok(Some(Operand::Null)),
        OperandView::Number(number) => Ok(Some(Operand::Number(number))),
        OperandView::Name => {
            let name = part.name(alloc, index)?;
            Ok(Some(Operand::Name(name)))
        }
        OperandView::Bytes => {
            let bytes = part.bytes(alloc, index)?;
            Ok(Some(Operand::Bytes(bytes)))
        }
        OperandView::Term(inner) => {
            let term = copied_term(alloc, inner)?;
            Ok(Some(Operand::Term(term)))
        }
        OperandView::List(list) => {
            let terms = copied_list(alloc, list)?;
            Ok(Some(Operand::List(terms)))
        }
    }
}
