//! Terms taken apart: their codes, their operands, and the items of their lists.
ghost use Rattle.std.specs.Prelude.{◌≡◌, ℕ};

use crate::opcode::TermCode;
use crate::term::{Operand, Term};
use aml_path::NameString;
use ar_space::Result;
use std::alloc::Global;

/// What an operand of a term is. Names and bytes are read by `name` and `bytes`.
#[derive(Clone, Copy)]
pub enum OperandView<R> {
    /// The term has no such operand.
    Absent,
    /// Nothing: a target that is left out, or an Else.
    Null,
    /// A name.
    Name,
    /// A number.
    Number(u64),
    /// Bytes.
    Bytes,
    /// A term.
    Term(R),
    /// A list of terms.
    List(R),
}

/// The first item of a list, and the list of the others.
#[derive(Clone, Copy)]
pub struct Item<R> {
    /// The first item.
    pub first: R,
    /// The list of the others.
    pub rest: R,
}

/// Reads a term part by part. A reader stands at a term or at a list of terms; at the wrong one of them it reads a term
/// without operands, or a list without items.
pub trait TermReader: Copy {
    ghost use Rattle.aml_grammar.specs.Tree.{Tree, Trees};
    ghost use Rattle.aml_grammar.specs.Apart.{code_of, operand_of, Shows, name_of, bytes_of, first_of};
    ghost use Rattle.ar_space.specs.Outcome.{Answers, seen};

    /// The term that it stands at.
    ghost tree: { Self → Tree };

    /// The list that it stands at.
    ghost list: { Self → Trees };

    /// The code of the term.
    fn code(self) -> TermCode
        ensures { result ≡ code_of (tree self) };

    /// An operand of the term, from 0.
    fn operand(self, index: usize) -> OperandView<Self>
        ensures { Shows tree list result (operand_of (tree self) index) };

    /// The name that is an operand of the term; an operand that is none is refused as `BadName`.
    fn name(self, alloc: Global, index: usize) -> Result<NameString>
        ensures { Answers result (name_of (operand_of (tree self) index)) };

    /// The bytes that are an operand of the term; an operand that is none is refused as `BadName`.
    fn bytes(self, alloc: Global, index: usize) -> Result<Vec<u8>>
        ensures { Answers (seen (λ v. v.items) result) (bytes_of (operand_of (tree self) index)) };

    /// The first item of the list and the list of the others, where it has one.
    fn next(self) -> Option<Item<Self>>
        ensures { list self ≡ first_of tree list result };
}
