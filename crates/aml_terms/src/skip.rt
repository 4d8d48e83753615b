//! Goes over terms by their marks. It takes no memory and refuses nothing.
ghost use Rattle.std.specs.Prelude.{◌≡◌, Some, false};
ghost use Rattle.aml_grammar.specs.Grammar.{is_if};
ghost use Rattle.aml_marks.specs.Marked.{count_at, a_term, a_call, a_coded, an_opcode, with_row, of_row, all_operands};
ghost use Rattle.aml_marks.specs.Marked.{an_operand, name_or_term, turns_of, maybe_else, an_else, target_of, a_target};
ghost use Rattle.aml_marks.specs.Marked.{a_super_name, all_items, fields_left, a_field, to_end, first, Below};

use crate::cursor::Cursor;
use crate::short::short_length;
use aml_grammar::{Opcode, OperandKind, Row};
use aml_marks::Marks;
use aml_scan::{ELSE, EXT_OP_PREFIX, is_nothing, row_of, starts_name};

/// Goes over a term, with at most this many levels. Most terms are short ones, and take no call.
#[cycle(skip)]
#[inline(always)]
#[tactic(auto, using(crate::proofs::ShortTerms::short_term, aml_marks::proofs::Walking::no_levels), //
unfolding(aml_marks::specs::Marked::gives))]
pub(crate) fn skip_term(cursor: &mut Cursor<'_>, marks: &Marks, levels: u8, element: bool)
    ensures { cursor.new ≡ (a_term (count_at marks.now) levels element cursor.old).1 }
{
    if levels == 0 {
        return;
    }
    let length = short_length(cursor.first());
    if length > 0 {
        cursor.over(usize::from(length));
    } else {
        skip_long_term(cursor, marks, levels, element);
    }
}

/// Goes over a term, whatever its first byte is.
#[cycle(skip)]
#[inline(never)]
#[tactic(auto, using(aml_marks::proofs::Walking::walking), //
unfolding(aml_marks::specs::Marked::a_name, aml_marks::specs::Marked::a_term_in, aml_marks::specs::Marked::after, //
aml_marks::specs::Marked::gives))]
fn skip_long_term(cursor: &mut Cursor<'_>, marks: &Marks, levels: u8, element: bool)
    ensures { cursor.new ≡ (a_term (count_at marks.now) levels element cursor.old).1 }
{
    if levels == 0 {
        return;
    }
    if !starts_name(cursor.first()) {
        skip_coded(cursor, marks, levels - 1);
    } else if element {
        cursor.over_name();
    } else {
        skip_call(cursor, marks, levels - 1);
    }
}

/// Goes over a call: a name and its arguments.
#[cycle(skip)]
#[tactic(auto, using(aml_marks::proofs::Walking::walking), //
unfolding(aml_marks::specs::Marked::a_call, aml_marks::specs::Marked::after, aml_marks::specs::Marked::gives, //
aml_marks::specs::Marked::a_name))]
fn skip_call(cursor: &mut Cursor<'_>, marks: &Marks, levels: u8)
    ensures { cursor.new ≡ (a_call (a_term (count_at marks.now) levels) (count_at marks.now) cursor.old).1 }
{
    let count = marks.count_at(cursor.at());
    cursor.over_name();
    skip_arguments(cursor, marks, levels, usize::from(count));
}

#[cycle(skip)]
#[tactic(auto, using(aml_marks::proofs::Walking::walking))]
pub(crate) fn skip_arguments(cursor: &mut Cursor<'_>, marks: &Marks, levels: u8, count: usize)
    ensures { cursor.new ≡ (turns_of (a_term (count_at marks.now) levels false) count cursor.old).1 }
{
    let mut left = count;
    'arguments: while left > 0 {
        skip_term(cursor, marks, levels, false);
        left -= 1;
    }
}

/// Goes over the number of an opcode: one byte, or two after ExtOpPrefix.
#[tactic(auto, //
unfolding(aml_marks::specs::Marked::an_opcode, aml_marks::specs::Marked::after, aml_marks::specs::Marked::gives))]
pub(crate) fn opcode(cursor: &mut Cursor<'_>) -> u16
    ensures value { result ≡ (an_opcode cursor.old).0 }
    ensures after { cursor.new ≡ (an_opcode cursor.old).1 }
{
    let first = cursor.first();
    cursor.over(1);
    if first == EXT_OP_PREFIX {
        let second = cursor.first();
        cursor.over(1);
        0x5B00 + u16::from(second)
    } else {
        u16::from(first)
    }
}

/// Goes over a term that begins with an opcode.
#[cycle(skip)]
#[tactic(auto, using(aml_marks::proofs::Walking::walking), //
unfolding(aml_marks::specs::Marked::with_row, aml_marks::specs::Marked::a_coded, aml_marks::specs::Marked::after, //
aml_marks::specs::Marked::gives))]
fn skip_coded(cursor: &mut Cursor<'_>, marks: &Marks, levels: u8)
    ensures { cursor.new ≡ (a_coded (a_term (count_at marks.now) levels) cursor.old).1 }
{
    let number = opcode(cursor);
    match row_of(number) {
        None => (),
        Some(row) => skip_row_term(cursor, marks, levels, row),
    }
}

/// Whether an Else may follow a term with this opcode. Every reading of a term asks it, so it takes no call.
#[inline(always)]
pub(crate) fn is_if(opcode: Opcode) -> bool
    ensures { result ≡ is_if opcode }
{
    matches!(opcode, Opcode::If)
}

/// Goes over the operands of a term, and over the Else that may follow an If.
#[cycle(skip)]
#[tactic(auto, using(aml_marks::proofs::Walking::walking), //
unfolding(aml_marks::specs::Marked::with_row, aml_marks::specs::Marked::after, aml_marks::specs::Marked::gives))]
pub(crate) fn skip_row_term(cursor: &mut Cursor<'_>, marks: &Marks, levels: u8, row: &Row)
    ensures { cursor.new ≡ (with_row (a_term (count_at marks.now) levels) (Some row.now) cursor.old).1 }
{
    skip_row(cursor, marks, levels, row);
    if is_if(row.0) {
        skip_else(cursor);
    }
}

/// Goes over the operands of a row: over a package at once.
#[cycle(skip)]
#[tactic(auto, using(aml_marks::proofs::Walking::walking), //
unfolding(aml_marks::specs::Marked::of_row, aml_marks::specs::Marked::inside, //
aml_marks::specs::Marked::all_operands, aml_marks::specs::Marked::gives))]
pub(crate) fn skip_row(cursor: &mut Cursor<'_>, marks: &Marks, levels: u8, row: &Row)
    ensures { cursor.new ≡ (of_row (a_term (count_at marks.now) levels) row.now cursor.old).1 }
{
    if row.2 {
        let outer = cursor.open();
        *cursor = outer;
    } else if !is_nothing(row.3.0) {
        let kinds = [row.3.0, row.3.1, row.3.2, row.3.3, row.3.4, row.3.5];
        skip_operands(cursor, marks, levels, &kinds);
    }
}

#[cycle(skip)]
#[tactic(auto, using(aml_marks::proofs::Walking::walking), //
unfolding(aml_marks::specs::Marked::all_operands, aml_marks::specs::Marked::after, //
aml_marks::specs::Marked::gives))]
fn skip_operands(cursor: &mut Cursor<'_>, marks: &Marks, levels: u8, kinds: &[OperandKind])
    ensures { cursor.new ≡ (all_operands (a_term (count_at marks.now) levels) kinds.now cursor.old).1 }
{
    'operands: for kind in kinds {
        if is_nothing(*kind) {
            return;
        }
        skip_operand(cursor, marks, levels, *kind);
    }
}

/// Goes over an operand.
#[cycle(skip)]
#[tactic(auto, using(aml_marks::proofs::Walking::walking), //
unfolding(aml_marks::specs::Marked::an_operand, aml_marks::specs::Marked::gives, aml_marks::specs::Marked::a_name, //
aml_marks::specs::Marked::a_target, aml_marks::specs::Marked::a_super_name))]
pub(crate) fn skip_operand(cursor: &mut Cursor<'_>, marks: &Marks, levels: u8, kind: OperandKind)
    ensures { cursor.new ≡ (an_operand (a_term (count_at marks.now) levels) kind cursor.old).1 }
{
    match kind {
        OperandKind::Nothing => (),
        OperandKind::NameString
        | OperandKind::ScopeName
        | OperandKind::AliasSource
        | OperandKind::AliasName
        | OperandKind::DeclaredName
        | OperandKind::ExternalName => cursor.over_name(),
        OperandKind::MethodFlags
        | OperandKind::ObjectType
        | OperandKind::ArgumentCount
        | OperandKind::ByteData => cursor.over(1),
        OperandKind::WordData => cursor.over(2),
        OperandKind::DWordData => cursor.over(4),
        OperandKind::QWordData => cursor.over(8),
        OperandKind::AsciiCharList => cursor.over_text(),
        OperandKind::TermArg | OperandKind::DataObject => skip_term(cursor, marks, levels, false),
        OperandKind::SuperName | OperandKind::SimpleName => {
            skip_name_or_term(cursor, marks, levels);
        }
        OperandKind::Target => skip_target(cursor, marks, levels),
        OperandKind::ByteList => cursor.over_all(),
        OperandKind::TermList | OperandKind::LoopTermList => {
            skip_items(cursor, marks, levels, false);
        }
        OperandKind::PackageElementList => skip_items(cursor, marks, levels, true),
        OperandKind::FieldList => skip_fields(cursor, marks, levels),
    }
}

/// Goes over a name, or else a term.
#[cycle(skip)]
#[tactic(auto, using(aml_marks::proofs::Walking::walking), unfolding(aml_marks::specs::Marked::a_name))]
pub(crate) fn skip_name_or_term(cursor: &mut Cursor<'_>, marks: &Marks, levels: u8)
    ensures { cursor.new ≡ (name_or_term (a_term (count_at marks.now) levels) (first cursor.old.rest) cursor.old).1 }
{
    if starts_name(cursor.first()) {
        cursor.over_name();
    } else {
        skip_term(cursor, marks, levels, false);
    }
}

/// Goes over a target: a zero, a name or a term.
#[cycle(skip)]
#[tactic(auto, using(aml_marks::proofs::Walking::walking))]
pub(crate) fn skip_target(cursor: &mut Cursor<'_>, marks: &Marks, levels: u8)
    ensures { cursor.new ≡ (target_of (a_term (count_at marks.now) levels) (first cursor.old.rest) cursor.old).1 }
{
    if cursor.first() == 0 {
        cursor.over(1);
    } else {
        skip_name_or_term(cursor, marks, levels);
    }
}

/// Goes over terms to the end of their list.
#[cycle(skip)]
#[tactic(auto, using(aml_marks::proofs::Walking::walking), unfolding(aml_marks::specs::Marked::all_items))]
fn skip_items(cursor: &mut Cursor<'_>, marks: &Marks, levels: u8, element: bool)
    ensures { cursor.new ≡ (all_items (a_term (count_at marks.now) levels) element cursor.old).1 }
{
    let mut left = cursor.rest().len();
    'items: while left > 0 && !cursor.rest().is_empty() {
        skip_term(cursor, marks, levels, element);
        left -= 1;
    }
}

/// Goes over field elements to the end of their list.
#[cycle(skip)]
#[tactic(auto, using(aml_marks::proofs::Walking::walking), unfolding(aml_marks::specs::Marked::fields_left))]
fn skip_fields(cursor: &mut Cursor<'_>, marks: &Marks, levels: u8)
    ensures { cursor.new ≡ (fields_left (a_term (count_at marks.now) levels) cursor.old).1 }
{
    let mut left = cursor.rest().len();
    'fields: while left > 0 && !cursor.rest().is_empty() {
        skip_field(cursor, marks, levels);
        left -= 1;
    }
}

/// Goes over a field element.
#[cycle(skip)]
#[tactic(auto, using(aml_marks::proofs::Walking::walking), //
unfolding(aml_marks::specs::Marked::a_field, aml_marks::specs::Marked::a_reserved_field, //
aml_marks::specs::Marked::an_access_field, aml_marks::specs::Marked::an_extended_access_field, //
aml_marks::specs::Marked::a_connect_field, aml_marks::specs::Marked::a_named_field, //
aml_marks::specs::Marked::a_super_name, aml_marks::specs::Marked::a_name, aml_marks::specs::Marked::after, //
aml_marks::specs::Marked::gives))]
pub(crate) fn skip_field(cursor: &mut Cursor<'_>, marks: &Marks, levels: u8)
    ensures { cursor.new ≡ (a_field (a_term (count_at marks.now) levels) cursor.old).1 }
{
    let next = cursor.first();
    if next == 0 {
        cursor.over(1);
        cursor.bit_count();
    } else if next == 1 {
        cursor.over(1);
        cursor.over(1);
        cursor.over(1);
    } else if next == 2 {
        cursor.over(1);
        skip_name_or_term(cursor, marks, levels);
    } else if next == 3 {
        cursor.over(1);
        cursor.over(1);
        cursor.over(1);
        cursor.over(1);
    } else {
        cursor.over_name();
        cursor.bit_count();
    }
}

/// Goes over an Else, where one follows.
#[tactic(auto, using(aml_marks::proofs::Walking::walking), //
unfolding(aml_marks::specs::Marked::maybe_else, aml_marks::specs::Marked::gives))]
pub(crate) fn skip_else(cursor: &mut Cursor<'_>)
    ensures { (below : Below) → cursor.new ≡ (maybe_else below cursor.old).1 }
{
    if cursor.is_next(ELSE) {
        over_else(cursor);
    }
}

/// Goes over an Else.
#[tactic(auto, using(aml_marks::proofs::Walking::walking), //
unfolding(aml_marks::specs::Marked::an_else, aml_marks::specs::Marked::inside, aml_marks::specs::Marked::after, //
aml_marks::specs::Marked::gives))]
pub(crate) fn over_else(cursor: &mut Cursor<'_>)
    ensures { (below : Below) → cursor.new ≡ (an_else below cursor.old).1 }
{
    cursor.over(1);
    let outer = cursor.open();
    *cursor = outer;
}
