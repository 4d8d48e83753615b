//! A reader of terms that stands in lent bytes.
ghost use Rattle.std.specs.Prelude.{◌≡◌, ◌-◌, ℕ, option_map, Some};
ghost use Rattle.aml_grammar.specs.Apart.{code_of, operand_of};
ghost use Rattle.aml_marks.specs.Marked.{Below, count_at, a_term, a_field, lent_of};
ghost use Rattle.aml_terms.specs.AtTree.{at_tree, at_list, behind_of, list_of, place_at};

use crate::at::{At, Kind};
use crate::cursor::Cursor;
use crate::lent::{lent_here, name_here, view};
use crate::operands::to_part;
use crate::places::{behind, standing, term_at};
use crate::skip::opcode;
use aml_grammar::{Item, Opcode, OperandView, TermCode, TermReader};
use aml_path::NameString;
use aml_scan::{row_of, starts_name};
use ar_space::{NameFault, Refusal, Result};
use std::alloc::Global;

/// The code of a term.
#[tactic(auto, using(aml_marks::proofs::Walking::walking), //
unfolding(aml_marks::specs::Marked::a_name, aml_marks::specs::Marked::a_call, aml_marks::specs::Marked::with_row, //
aml_marks::specs::Marked::a_coded, aml_marks::specs::Marked::a_term_in, aml_marks::specs::Marked::after, //
aml_marks::specs::Marked::gives))]
fn code_at(cursor: &mut Cursor<'_>, levels: u8, element: bool) -> TermCode
    ensures { (count : ℕ → ℕ) → result ≡ code_of (a_term count levels element cursor.old).0 }
{
    if levels == 0 {
        return TermCode::Name;
    }
    if starts_name(cursor.first()) {
        if element {
            TermCode::Name
        } else {
            TermCode::MethodInvocation
        }
    } else {
        match row_of(opcode(cursor)) {
            None => TermCode::Name,
            Some(row) => TermCode::Opcode(row.0),
        }
    }
}

/// The code of a field element.
#[tactic(auto, //
unfolding(aml_marks::specs::Marked::a_field, aml_marks::specs::Marked::a_reserved_field, //
aml_marks::specs::Marked::an_access_field, aml_marks::specs::Marked::an_extended_access_field, //
aml_marks::specs::Marked::a_connect_field, aml_marks::specs::Marked::a_named_field, //
aml_marks::specs::Marked::after, aml_marks::specs::Marked::gives))]
fn field_code(cursor: &Cursor<'_>) -> TermCode
    ensures { (below : Below) → result ≡ code_of (a_field below cursor.now).0 }
{
    match cursor.first() {
        0 => TermCode::ReservedField,
        1 => TermCode::AccessField,
        2 => TermCode::ConnectField,
        3 => TermCode::ExtendedAccessField,
        _ => TermCode::NamedField,
    }
}

/// The term, or the element of a package, that is left first.
fn term_of<'a>(part: &At<'a>, element: bool) -> At<'a>
    ensures marks { result.marks.now ≡ part.now.marks.now }
    ensures tree { at_tree result ≡
        (a_term (count_at part.now.marks.now) part.now.levels element (place_at part.now)).0 }
    ensures behind { behind_of result.kind (count_at part.now.marks.now) result.levels (place_at result) ≡
        (a_term (count_at part.now.marks.now) part.now.levels element (place_at part.now)).1 }
{
    term_at(
        &Cursor::new(part.at, part.rest),
        part.marks,
        part.levels,
        element,
    )
}

/// The field element that is left first.
fn field_of<'a>(part: &At<'a>) -> At<'a>
    ensures marks { result.marks.now ≡ part.now.marks.now }
    ensures tree { at_tree result ≡
        (a_field (a_term (count_at part.now.marks.now) part.now.levels) (place_at part.now)).0 }
    ensures behind { behind_of result.kind (count_at part.now.marks.now) result.levels (place_at result) ≡
        (a_field (a_term (count_at part.now.marks.now) part.now.levels) (place_at part.now)).1 }
{
    standing(
        &Cursor::new(part.at, part.rest),
        part.marks,
        part.levels,
        0,
        Kind::Field,
    )
}

/// What stands first, and what is left behind it, which has one turn fewer.
fn parted<'a>(part: &At<'a>, first: At<'a>) -> Item<At<'a>>
    requires { first.marks.now ≡ part.now.marks.now }
    ensures first { at_tree result.first ≡ at_tree first.entry }
    ensures rest { at_list result.rest ≡ list_of part.now.kind (count_at part.now.marks.now) part.now.levels
        (part.now.turns - 1) (behind_of first.entry.kind (count_at part.now.marks.now) first.entry.levels
        (place_at first.entry)) }
{
    let rest = standing(
        &behind(&first),
        part.marks,
        part.levels,
        part.turns.saturating_sub(1),
        part.kind,
    );
    Item { first, rest }
}

impl<'a> TermReader for At<'a> {
    ghost use Rattle.aml_terms.specs.AtTree.{at_tree, at_list};

    ghost tree = { at_tree };

    ghost list = { at_list };

    #[tactic(auto, //
    unfolding(aml_marks::specs::Marked::with_row, aml_marks::specs::Marked::an_else, //
    aml_marks::specs::Marked::after, aml_marks::specs::Marked::gives))]
    fn code(self) -> TermCode {
        let mut cursor = Cursor::new(self.at, self.rest);
        match self.kind {
            Kind::Coded(place) => TermCode::Opcode(place.row().0),
            Kind::Term => code_at(&mut cursor, self.levels, false),
            Kind::Element => code_at(&mut cursor, self.levels, true),
            Kind::Else => TermCode::Opcode(Opcode::Else),
            Kind::Field => field_code(&cursor),
            Kind::Items | Kind::Elements | Kind::Arguments | Kind::Fields => TermCode::Name,
        }
    }

    fn operand(self, index: usize) -> OperandView<At<'a>> {
        let mut cursor = Cursor::new(self.at, self.rest);
        match to_part(&self, &mut cursor, index) {
            Some(spot) => view(&cursor, self.marks, spot),
            None => OperandView::Absent,
        }
    }

    fn name(self, alloc: Global, index: usize) -> Result<NameString> {
        let mut cursor = Cursor::new(self.at, self.rest);
        match to_part(&self, &mut cursor, index) {
            Some(spot) => name_here(alloc, &cursor, spot),
            None => Err(Refusal::Name(NameFault::BadName)),
        }
    }

    fn bytes(self, alloc: Global, index: usize) -> Result<Vec<u8>> {
        match lent_bytes(self, index) {
            Some(bytes) => Ok(Vec::from_slice(alloc, bytes)?),
            None => Err(Refusal::Name(NameFault::BadName)),
        }
    }

    #[tactic(auto, using(aml_marks::proofs::Walking::walking))]
    fn next(self) -> Option<Item<At<'a>>> {
        let is_over = self.turns == 0 || self.rest.is_empty();
        match self.kind {
            Kind::Items if !is_over => Some(parted(&self, term_of(&self, false))),
            Kind::Elements if !is_over => Some(parted(&self, term_of(&self, true))),
            Kind::Fields if !is_over => Some(parted(&self, field_of(&self))),
            Kind::Arguments if self.turns > 0 => Some(parted(&self, term_of(&self, false))),
            _ => None,
        }
    }
}

/// The bytes that are an operand of what stands there, lent.
pub fn lent_bytes<'a>(part: At<'a>, index: usize) -> Option<&'a [u8]>
    ensures { option_map (λ b. b.now) result ≡ lent_of (operand_of (at_tree part.entry) index) }
{
    let mut cursor = Cursor::new(part.at, part.rest);
    match to_part(&part, &mut cursor, index) {
        Some(spot) => lent_here(&cursor, spot),
        None => None,
    }
}
