//! What stands at an operand: its view, its name and its bytes.
ghost use Rattle.std.specs.Prelude.{◌≡◌, ℕ, length, Some, Ok, option_map};
ghost use Rattle.ar_space.specs.Outcome.{Answers};
ghost use Rattle.aml_grammar.specs.Apart.{Shows, name_of};
ghost use Rattle.aml_marks.specs.Marked.{count_at, a_term, an_operand, name_or_term, target_of, a_bit_count};
ghost use Rattle.aml_marks.specs.Marked.{first, lent_of};
ghost use Rattle.aml_terms.specs.AtTree.{at_tree, at_list, list_of};
ghost use Rattle.aml_grammar.specs.Tree.{list};
ghost use Rattle.aml_terms.specs.Spots.{spot_part};

use crate::at::{At, Kind};
use crate::cursor::Cursor;
use crate::places::{standing, term_at};
use crate::spot::Spot;
use aml_grammar::{OperandKind, OperandView};
use aml_marks::Marks;
use aml_path::NameString;
use aml_scan::{ELSE, starts_name, text_length};
use ar_space::{NameFault, Refusal, Result};
use std::alloc::Global;

/// What an operand is.
#[tactic(auto, using(aml_marks::proofs::Parting::parting), //
unfolding(aml_marks::specs::Marked::maybe_else, aml_marks::specs::Marked::gives))]
pub(crate) fn view<'a>(cursor: &Cursor<'a>, marks: &'a Marks, spot: Spot) -> OperandView<At<'a>>
    ensures { Shows at_tree at_list result (Some (spot_part (count_at marks.now) spot cursor.now)) }
{
    match spot {
        Spot::Operand(kind, levels) => view_kind(cursor, marks, levels, kind),
        Spot::Arguments(count, levels) => OperandView::List(standing(
            cursor,
            marks,
            levels,
            usize::from(count),
            Kind::Arguments,
        )),
        Spot::Else(levels) => {
            if cursor.is_next(ELSE) {
                OperandView::Term(standing(cursor, marks, levels, 0, Kind::Else))
            } else {
                OperandView::Null
            }
        }
        Spot::Bits => OperandView::Number(bits(cursor)),
    }
}

fn bits(cursor: &Cursor<'_>) -> u64
    ensures { result ≡ (a_bit_count cursor.now).0 }
{
    let mut copy = Cursor::new(cursor.at(), cursor.rest());
    copy.bit_count()
}

/// What an operand of a kind is.
#[tactic(auto, using(aml_marks::proofs::Parting::parting), //
unfolding(aml_marks::specs::Marked::an_operand, aml_marks::specs::Marked::a_target, //
aml_marks::specs::Marked::a_super_name, aml_marks::specs::Marked::all_items, aml_marks::specs::Marked::fields_left, //
aml_marks::specs::Marked::gives))]
fn view_kind<'a>(
    cursor: &Cursor<'a>,
    marks: &'a Marks,
    levels: u8,
    kind: OperandKind,
) -> OperandView<At<'a>>
    ensures { Shows at_tree at_list result (Some (an_operand (a_term (count_at marks.now) levels) kind cursor.now).0) }
{
    match kind {
        OperandKind::Nothing => OperandView::Null,
        OperandKind::NameString => OperandView::Name,
        OperandKind::ScopeName => OperandView::Name,
        OperandKind::AliasSource => OperandView::Name,
        OperandKind::AliasName => OperandView::Name,
        OperandKind::DeclaredName => OperandView::Name,
        OperandKind::ExternalName => OperandView::Name,
        OperandKind::MethodFlags | OperandKind::ObjectType | OperandKind::ArgumentCount =>
            OperandView::Number(u64::from(cursor.first())),
        OperandKind::ByteData => OperandView::Number(cursor.integer(1)),
        OperandKind::WordData => OperandView::Number(cursor.integer(2)),
        OperandKind::DWordData => OperandView::Number(cursor.integer(4)),
        OperandKind::QWordData => OperandView::Number(cursor.integer(8)),
        OperandKind::AsciiCharList => OperandView::Bytes,
        OperandKind::ByteList => OperandView::Bytes,
        OperandKind::TermArg | OperandKind::DataObject => {
            OperandView::Term(term_at(cursor, marks, levels, false))
        }
        OperandKind::SuperName | OperandKind::SimpleName => view_name_or_term(
            cursor, marks, levels,
        ),
        OperandKind::Target => view_target(cursor, marks, levels),
        OperandKind::TermList | OperandKind::LoopTermList => {
            view_list(cursor, marks, levels, Kind::Items)
        }
        OperandKind::PackageElementList => view_list(cursor, marks, levels, Kind::Elements),
        OperandKind::FieldList => view_list(cursor, marks, levels, Kind::Fields),
    }
}

/// The list that is left.
fn view_list<'a>(
    cursor: &Cursor<'a>,
    marks: &'a Marks,
    levels: u8,
    kind: Kind,
) -> OperandView<At<'a>>
    ensures { Shows at_tree at_list result
        (Some (list (list_of kind (count_at marks.now) levels (length cursor.now.rest) cursor.now))) }
{
    OperandView::List(standing(cursor, marks, levels, cursor.rest().len(), kind))
}

/// A name, or else a term.
#[tactic(auto, using(aml_marks::proofs::Parting::parting))]
fn view_name_or_term<'a>(cursor: &Cursor<'a>, marks: &'a Marks, levels: u8) -> OperandView<At<'a>>
    ensures { Shows at_tree at_list result
        (Some (name_or_term (a_term (count_at marks.now) levels) (first cursor.now.rest) cursor.now).0) }
{
    if starts_name(cursor.first()) {
        OperandView::Name
    } else {
        OperandView::Term(term_at(cursor, marks, levels, false))
    }
}

/// What a target is.
#[tactic(auto, using(aml_marks::proofs::Parting::parting))]
fn view_target<'a>(cursor: &Cursor<'a>, marks: &'a Marks, levels: u8) -> OperandView<At<'a>>
    ensures { Shows at_tree at_list result
        (Some (target_of (a_term (count_at marks.now) levels) (first cursor.now.rest) cursor.now).0) }
{
    if cursor.first() == 0 {
        OperandView::Null
    } else {
        view_name_or_term(cursor, marks, levels)
    }
}

// ---- names and bytes

/// The name at a spot.
#[tactic(auto, using(crate::proofs::Named::naming), //
unfolding(aml_marks::specs::Marked::an_operand, aml_marks::specs::Marked::a_target, //
aml_marks::specs::Marked::a_super_name, aml_marks::specs::Marked::gives, aml_marks::specs::Marked::maybe_else))]
pub(crate) fn name_here(alloc: Global, cursor: &Cursor<'_>, spot: Spot) -> Result<NameString>
    ensures { (count : ℕ → ℕ) → Answers result (name_of (Some (spot_part count spot cursor.now))) }
{
    match spot {
        Spot::Operand(
            OperandKind::NameString
            | OperandKind::ScopeName
            | OperandKind::AliasSource
            | OperandKind::AliasName
            | OperandKind::DeclaredName
            | OperandKind::ExternalName,
            _,
        ) => cursor.name(alloc),
        Spot::Operand(OperandKind::SuperName | OperandKind::SimpleName, _) => {
            if starts_name(cursor.first()) {
                cursor.name(alloc)
            } else {
                Err(Refusal::Name(NameFault::BadName))
            }
        }
        Spot::Operand(OperandKind::Target, _) => {
            let next = cursor.first();
            if next > 0 && starts_name(next) {
                cursor.name(alloc)
            } else {
                Err(Refusal::Name(NameFault::BadName))
            }
        }
        _ => Err(Refusal::Name(NameFault::BadName)),
    }
}

/// The bytes at a spot, lent.
#[tactic(auto, //
unfolding(aml_marks::specs::Marked::an_operand, aml_marks::specs::Marked::a_target, //
aml_marks::specs::Marked::a_super_name, aml_marks::specs::Marked::gives, aml_marks::specs::Marked::maybe_else))]
pub(crate) fn lent_here<'a>(cursor: &Cursor<'a>, spot: Spot) -> Option<&'a [u8]>
    ensures { (count : ℕ → ℕ) → option_map (λ b. b.now) result ≡ lent_of (Some (spot_part count spot cursor.now)) }
{
    match spot {
        Spot::Operand(OperandKind::AsciiCharList, _) => {
            let rest = cursor.rest();
            Some(&rest[..text_length(rest)])
        }
        Spot::Operand(OperandKind::ByteList, _) => Some(cursor.rest()),
        _ => None,
    }
}
