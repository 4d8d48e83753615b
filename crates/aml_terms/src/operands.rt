//! Goes from a term to one of its operands.
ghost use Rattle.std.specs.Prelude.{◌≡◌, ◌<◌, ◌≤◌, ◌∷◌, [], ℕ, length, option_map, Some, true, false};
ghost use Rattle.aml_grammar.specs.Shape.{parts_of};
ghost use Rattle.aml_grammar.specs.Apart.{part_at, operand_of};
ghost use Rattle.aml_grammar.specs.Grammar.{is_if, is_nothing, kinds_of};
ghost use Rattle.aml_marks.specs.Marked.{count_at, a_term, an_else, with_row, all_operands, of_row, over, a_field};
ghost use Rattle.aml_marks.specs.Marked.{an_access_field, an_extended_access_field, a_named_field};
ghost use Rattle.aml_marks.specs.Parting.{kind_count};
ghost use Rattle.aml_terms.specs.AtTree.{at_tree, place_at};
ghost use Rattle.aml_terms.specs.Spots.{spot_part};

use crate::at::{At, Kind};
use crate::cursor::Cursor;
use crate::skip::{is_if, opcode, skip_operand, skip_row};
use crate::spot::Spot;
use aml_grammar::{OperandKind, OperandKinds, Row};
use aml_marks::Marks;
use aml_scan::{is_nothing, row_of, starts_name};

/// Goes to an operand among kinds that stand one after another.
#[tactic(auto, using(aml_marks::proofs::Parting::parting), //
unfolding(aml_marks::specs::Marked::all_operands, aml_marks::specs::Marked::after, //
aml_marks::specs::Marked::gives))]
fn to_kind(
    cursor: &mut Cursor<'_>,
    marks: &Marks,
    levels: u8,
    kinds: &[OperandKind],
    index: usize,
) -> Option<Spot>
    ensures { option_map (λ s. spot_part (count_at marks.now) s cursor.new) result ≡
        part_at (parts_of (all_operands (a_term (count_at marks.now) levels) kinds.now cursor.old).0) index }
{
    let mut left = index;
    'operands: for kind in kinds {
        if is_nothing(*kind) {
            return None;
        }
        if left == 0 {
            return Some(Spot::Operand(*kind, levels));
        }
        skip_operand(cursor, marks, levels, *kind);
        left -= 1;
    }
    None
}

/// How many operands kinds have.
fn kind_count(kinds: &[OperandKind]) -> usize
    ensures count { result ≡ kind_count kinds.now }
    ensures bound { result ≤ length kinds.now }
{
    match kinds {
        [] => 0,
        [kind, rest @ ..] => {
            if is_nothing(*kind) {
                0
            } else {
                1 + kind_count(rest)
            }
        }
    }
}

/// Goes to an operand of a row.
#[inline(always)]
#[tactic(auto, using(aml_marks::proofs::Parting::parting), //
unfolding(aml_marks::specs::Marked::of_row, aml_marks::specs::Marked::inside))]
fn to_row_operand(
    cursor: &mut Cursor<'_>,
    marks: &Marks,
    levels: u8,
    row: &Row,
    index: usize,
) -> Option<Spot>
    ensures { option_map (λ s. spot_part (count_at marks.now) s cursor.new) result ≡
        part_at (parts_of (of_row (a_term (count_at marks.now) levels) row.now cursor.old).0) index }
{
    if row.2 {
        cursor.open();
    }
    to_operand_of_kinds(cursor, marks, levels, &row.3, index)
}

/// Goes to an operand among those of a row. Most often that is the first one, which stands right there.
#[inline(always)]
#[tactic(auto, using(crate::proofs::InOrder::in_order))]
fn to_operand_of_kinds(
    cursor: &mut Cursor<'_>,
    marks: &Marks,
    levels: u8,
    kinds: &OperandKinds,
    index: usize,
) -> Option<Spot>
    ensures { option_map (λ s. spot_part (count_at marks.now) s cursor.new) result ≡
        part_at (parts_of (all_operands (a_term (count_at marks.now) levels) (kinds_of kinds.now) cursor.old).0) index }
{
    if is_nothing(kinds.0) {
        None
    } else if index == 0 {
        Some(Spot::Operand(kinds.0, levels))
    } else {
        to_later_operand(cursor, marks, levels, kinds, index)
    }
}

/// Goes to an operand behind the first one.
#[tactic(auto, using(crate::proofs::InOrder::in_order))]
fn to_later_operand(
    cursor: &mut Cursor<'_>,
    marks: &Marks,
    levels: u8,
    kinds: &OperandKinds,
    index: usize,
) -> Option<Spot>
    requires some { is_nothing kinds.now.0 ≡ false }
    requires later { 0 < index }
    ensures { option_map (λ s. spot_part (count_at marks.now) s cursor.new) result ≡
        part_at (parts_of (all_operands (a_term (count_at marks.now) levels) (kinds_of kinds.now) cursor.old).0) index }
{
    skip_operand(cursor, marks, levels, kinds.0);
    let others = [kinds.1, kinds.2, kinds.3, kinds.4, kinds.5];
    to_kind(cursor, marks, levels, &others, index - 1)
}

/// Goes to an operand of a term with an opcode.
#[inline(always)]
#[tactic(auto, using(aml_marks::proofs::Parting::parting), //
unfolding(aml_marks::specs::Marked::with_row, aml_marks::specs::Marked::after, aml_marks::specs::Marked::gives))]
fn to_operand_of_row(
    cursor: &mut Cursor<'_>,
    marks: &Marks,
    levels: u8,
    row: &Row,
    index: usize,
) -> Option<Spot>
    ensures { option_map (λ s. spot_part (count_at marks.now) s cursor.new) result ≡
        operand_of (with_row (a_term (count_at marks.now) levels) (Some row.now) cursor.old).0 index }
{
    if is_if(row.0) {
        to_operand_of_if(cursor, marks, levels, row, index)
    } else {
        to_row_operand(cursor, marks, levels, row, index)
    }
}

/// Goes to an operand of an If: its Else is its last one.
#[tactic(auto, using(aml_marks::proofs::Parting::parting), //
unfolding(aml_marks::specs::Marked::with_row, aml_marks::specs::Marked::after, aml_marks::specs::Marked::gives))]
fn to_operand_of_if(
    cursor: &mut Cursor<'_>,
    marks: &Marks,
    levels: u8,
    row: &Row,
    index: usize,
) -> Option<Spot>
    requires { is_if row.now.0 ≡ true }
    ensures { option_map (λ s. spot_part (count_at marks.now) s cursor.new) result ≡
        operand_of (with_row (a_term (count_at marks.now) levels) (Some row.now) cursor.old).0 index }
{
    let count = kind_count(&[row.3.0, row.3.1, row.3.2, row.3.3, row.3.4, row.3.5]);
    if index < count {
        return to_row_operand(cursor, marks, levels, row, index);
    }
    if index > count {
        return None;
    }
    skip_row(cursor, marks, levels, row);
    Some(Spot::Else(levels))
}

/// Goes to an operand of a term.
#[tactic(auto, using(aml_marks::proofs::Parting::parting), //
unfolding(aml_marks::specs::Marked::a_name, aml_marks::specs::Marked::a_call, aml_marks::specs::Marked::with_row, //
aml_marks::specs::Marked::a_coded, aml_marks::specs::Marked::a_term_in, aml_marks::specs::Marked::an_operand, //
aml_marks::specs::Marked::after, aml_marks::specs::Marked::gives))]
fn to_operand(
    cursor: &mut Cursor<'_>,
    marks: &Marks,
    levels: u8,
    element: bool,
    index: usize,
) -> Option<Spot>
    ensures { option_map (λ s. spot_part (count_at marks.now) s cursor.new) result ≡
        operand_of (a_term (count_at marks.now) levels element cursor.old).0 index }
{
    if levels == 0 {
        return None;
    }
    if !starts_name(cursor.first()) {
        let number = opcode(cursor);
        return match row_of(number) {
            None => None,
            Some(row) => to_operand_of_row(cursor, marks, levels - 1, row, index),
        };
    }
    if index == 0 {
        return Some(Spot::Operand(OperandKind::NameString, levels - 1));
    }
    if element || index > 1 {
        return None;
    }
    let count = marks.count_at(cursor.at());
    cursor.over_name();
    Some(Spot::Arguments(count, levels - 1))
}

/// Goes to the list of an Else.
#[tactic(auto, using(aml_marks::proofs::Parting::parting), //
unfolding(aml_marks::specs::Marked::an_else, aml_marks::specs::Marked::inside, //
aml_marks::specs::Marked::an_operand, aml_marks::specs::Marked::after, aml_marks::specs::Marked::gives))]
fn to_else_operand(cursor: &mut Cursor<'_>, levels: u8, index: usize) -> Option<Spot>
    ensures { (count : ℕ → ℕ) → option_map (λ s. spot_part count s cursor.new) result ≡
        operand_of (an_else (a_term count levels) cursor.old).0 index }
{
    if index > 0 {
        return None;
    }
    cursor.over(1);
    cursor.open();
    Some(Spot::Operand(OperandKind::TermList, levels))
}

/// Goes to an operand of a field element.
#[tactic(auto, using(aml_marks::proofs::Parting::parting), //
unfolding(aml_marks::specs::Marked::a_field, aml_marks::specs::Marked::a_reserved_field, //
aml_marks::specs::Marked::a_connect_field, aml_marks::specs::Marked::a_named_field, //
aml_marks::specs::Marked::an_operand, aml_marks::specs::Marked::a_name, aml_marks::specs::Marked::after, //
aml_marks::specs::Marked::gives))]
fn to_field_operand(cursor: &mut Cursor<'_>, levels: u8, index: usize) -> Option<Spot>
    ensures { (count : ℕ → ℕ) → option_map (λ s. spot_part count s cursor.new) result ≡
        operand_of (a_field (a_term count levels) cursor.old).0 index }
{
    let next = cursor.first();
    if next == 0 {
        to_only(cursor, Spot::Bits, index)
    } else if next == 1 {
        to_access(cursor, index)
    } else if next == 2 {
        to_only(cursor, Spot::Operand(OperandKind::SuperName, levels), index)
    } else if next == 3 {
        to_extended_access(cursor, index)
    } else {
        to_named(cursor, levels, index)
    }
}

/// Goes to the only operand of a field element, behind its code.
fn to_only(cursor: &mut Cursor<'_>, spot: Spot, index: usize) -> Option<Spot>
    ensures { (count : ℕ → ℕ) → option_map (λ s. spot_part count s cursor.new) result ≡
        part_at (parts_of (spot_part count spot (over 1 cursor.old) ∷ [])) index }
{
    if index > 0 {
        return None;
    }
    cursor.over(1);
    Some(spot)
}

const BYTE: Spot = Spot::Operand(OperandKind::ByteData, 0);

/// Goes to an operand of an access field: the access, or its attribute.
#[tactic(auto, using(aml_marks::proofs::Parting::parting), //
unfolding(aml_marks::specs::Marked::an_access_field, aml_marks::specs::Marked::an_operand, //
aml_marks::specs::Marked::after, aml_marks::specs::Marked::gives))]
fn to_access(cursor: &mut Cursor<'_>, index: usize) -> Option<Spot>
    ensures { (count : ℕ → ℕ) → option_map (λ s. spot_part count s cursor.new) result ≡
        operand_of (an_access_field cursor.old).0 index }
{
    cursor.over(1);
    match index {
        0 => Some(BYTE),
        1 => {
            cursor.over(1);
            Some(BYTE)
        }
        _ => None,
    }
}

/// Goes to an operand of an extended access field: the access, its attribute or its length.
#[tactic(auto, using(aml_marks::proofs::Parting::parting), //
unfolding(aml_marks::specs::Marked::an_extended_access_field, aml_marks::specs::Marked::an_operand, //
aml_marks::specs::Marked::after, aml_marks::specs::Marked::gives))]
fn to_extended_access(cursor: &mut Cursor<'_>, index: usize) -> Option<Spot>
    ensures { (count : ℕ → ℕ) → option_map (λ s. spot_part count s cursor.new) result ≡
        operand_of (an_extended_access_field cursor.old).0 index }
{
    cursor.over(1);
    match index {
        0 => Some(BYTE),
        1 => {
            cursor.over(1);
            Some(BYTE)
        }
        2 => {
            cursor.over(1);
            cursor.over(1);
            Some(BYTE)
        }
        _ => None,
    }
}

/// Goes to an operand of a named field: its name, or its count of bits.
#[tactic(auto, using(aml_marks::proofs::Parting::parting), //
unfolding(aml_marks::specs::Marked::a_named_field, aml_marks::specs::Marked::an_operand, //
aml_marks::specs::Marked::a_name, aml_marks::specs::Marked::after, aml_marks::specs::Marked::gives))]
fn to_named(cursor: &mut Cursor<'_>, levels: u8, index: usize) -> Option<Spot>
    ensures { (count : ℕ → ℕ) → option_map (λ s. spot_part count s cursor.new) result ≡
        operand_of (a_named_field cursor.old).0 index }
{
    match index {
        0 => Some(Spot::Operand(OperandKind::NameString, levels)),
        1 => {
            cursor.over_name();
            Some(Spot::Bits)
        }
        _ => None,
    }
}

/// Goes to an operand of what stands there.
#[tactic(auto, using(aml_marks::proofs::Parting::parting))]
pub(crate) fn to_part<'a>(part: &At<'a>, cursor: &mut Cursor<'a>, index: usize) -> Option<Spot>
    requires { cursor.old ≡ place_at part.now }
    ensures { option_map (λ s. spot_part (count_at part.now.marks.now) s cursor.new) result ≡
        operand_of (at_tree part.now) index }
{
    match part.kind {
        Kind::Coded(place) => {
            to_operand_of_row(cursor, part.marks, part.levels, place.row(), index)
        }
        Kind::Term => to_operand(cursor, part.marks, part.levels, false, index),
        Kind::Element => to_operand(cursor, part.marks, part.levels, true, index),
        Kind::Else => to_else_operand(cursor, part.levels, index),
        Kind::Field => to_field_operand(cursor, part.levels, index),
        Kind::Items | Kind::Elements | Kind::Arguments | Kind::Fields => None,
    }
}
