//! Readers at the beginning of lists and terms.
ghost use Rattle.std.specs.Prelude.{◌≡◌, ◌<◌, ◌≤◌, ◌-◌, ◌∷◌, ℕ, length, drop, false};
ghost use Rattle.aml_grammar.specs.Shape.{trees_of};
ghost use Rattle.aml_marks.specs.Marked.{count_at, a_term, to_end, trees_by, walk_levels};
ghost use Rattle.aml_terms.specs.AtTree.{at_tree, at_list, place_at, behind_of};

use crate::at::{At, Kind};
use crate::cursor::Cursor;
use crate::skip::{opcode, over_else, skip_field, skip_row_term, skip_term};
use aml_marks::Marks;
use aml_scan::{row_place, starts_name};

/// How many levels of terms are read below a list: one level more than the grammar counts, where a local, an argument
/// or Debug as a place costs none.
pub const LEVELS: u8 = 65;

/// What stands where a cursor stands.
pub(crate) fn standing<'a>(
    cursor: &Cursor<'a>,
    marks: &'a Marks,
    levels: u8,
    turns: usize,
    kind: Kind,
) -> At<'a>
    ensures place { place_at result ≡ cursor.now }
    ensures marks { result.marks.now ≡ marks.now }
    ensures levels { result.levels ≡ levels }
    ensures turns { result.turns ≡ turns }
    ensures kind { result.kind ≡ kind }
{
    At {
        at: cursor.at(),
        rest: cursor.rest(),
        marks,
        turns,
        levels,
        kind,
    }
}

/// The term, or the element of a package, where a cursor stands. Its opcode is read at once, so that no reading of an
/// operand looks for its row again. Most opcodes take one byte, and no name begins with such a byte.
#[tactic(auto, using(crate::proofs::CodedTerms::coded_term))]
pub fn term_at<'a>(cursor: &Cursor<'a>, marks: &'a Marks, levels: u8, element: bool) -> At<'a>
    ensures marks { result.marks.now ≡ marks.now }
    ensures tree { at_tree result ≡ (a_term (count_at marks.now) levels element cursor.now).0 }
    ensures behind { behind_of result.kind (count_at marks.now) result.levels (place_at result) ≡
        (a_term (count_at marks.now) levels element cursor.now).1 }
{
    if levels > 0 {
        if let Some(place) = row_place(u16::from(cursor.first())) {
            let mut behind = Cursor::new(cursor.at(), cursor.rest());
            behind.over(1);
            return standing(&behind, marks, levels - 1, 0, Kind::Coded(place));
        }
    }
    other_term_at(cursor, marks, levels, element)
}

/// The same, whatever stands there.
#[inline(never)]
#[tactic(auto, using(aml_marks::proofs::Walking::walking), //
unfolding(aml_marks::specs::Marked::a_coded, aml_marks::specs::Marked::a_term_in, aml_marks::specs::Marked::after, //
aml_marks::specs::Marked::gives))]
fn other_term_at<'a>(cursor: &Cursor<'a>, marks: &'a Marks, levels: u8, element: bool) -> At<'a>
    ensures marks { result.marks.now ≡ marks.now }
    ensures tree { at_tree result ≡ (a_term (count_at marks.now) levels element cursor.now).0 }
    ensures behind { behind_of result.kind (count_at marks.now) result.levels (place_at result) ≡
        (a_term (count_at marks.now) levels element cursor.now).1 }
{
    if levels > 0 && !starts_name(cursor.first()) {
        let mut behind = Cursor::new(cursor.at(), cursor.rest());
        if let Some(place) = row_place(opcode(&mut behind)) {
            return standing(&behind, marks, levels - 1, 0, Kind::Coded(place));
        }
    }
    if element {
        standing(cursor, marks, levels, 0, Kind::Element)
    } else {
        standing(cursor, marks, levels, 0, Kind::Term)
    }
}

/// What stands behind a term, an element of a package, an Else or a field element; of a list, its own place.
pub(crate) fn behind<'a>(term: &At<'a>) -> Cursor<'a>
    ensures { result ≡ behind_of term.now.kind (count_at term.now.marks.now) term.now.levels (place_at term.now) }
{
    let mut cursor = Cursor::new(term.at, term.rest);
    match term.kind {
        Kind::Coded(place) => skip_row_term(&mut cursor, term.marks, term.levels, place.row()),
        Kind::Term => skip_term(&mut cursor, term.marks, term.levels, false),
        Kind::Element => skip_term(&mut cursor, term.marks, term.levels, true),
        Kind::Else => over_else(&mut cursor),
        Kind::Field => skip_field(&mut cursor, term.marks, term.levels),
        Kind::Items | Kind::Elements | Kind::Arguments | Kind::Fields => (),
    }
    cursor
}

/// The list of terms that bytes hold, by the marks that their scan left. It takes no memory.
#[tactic(auto, unfolding(aml_marks::specs::Marked::all_items))]
pub fn list_at<'a>(bytes: &'a [u8], marks: &'a Marks) -> At<'a>
    ensures { at_list result ≡ trees_of (trees_by marks.now bytes.now) }
{
    let cursor = Cursor::new(0, bytes);
    standing(&cursor, marks, LEVELS, bytes.len(), Kind::Items)
}

/// The term at an offset of a list, by the marks that the scan left, and the offset behind it, which is greater and
/// at most the number of bytes. It takes no memory.
///
/// `bytes` begin where the scan began and end where the list ends in which the term stands: what is behind the end of
/// a package is no part of its last term. From offset 0 of all bytes that were scanned, and from each offset that is
/// answered until it is their length, these are the terms of `list_at`, one after another.
#[tactic(auto, using(aml_marks::proofs::Walking::walking))]
pub fn first_term<'a>(bytes: &'a [u8], at: usize, marks: &'a Marks) -> (At<'a>, usize)
    requires { at < length bytes.now }
    ensures tree { at_tree result.0 ≡
        (a_term (count_at marks.now) walk_levels false (record { at = at; rest = drop at bytes.now })).0 }
    ensures next { (a_term (count_at marks.now) walk_levels false (record { at = at; rest = drop at bytes.now })).1 ≡
        record { at = result.1; rest = drop result.1 bytes.now } }
    ensures on { at < result.1 }
    ensures within { result.1 ≤ length bytes.now }
    ensures items { (turns : ℕ) → 0 < turns → (to_end (a_term (count_at marks.now) walk_levels false) turns (record {
      at
          = at;
      rest = drop at bytes.now;
    })).0 ≡ at_tree result.0 ∷ (to_end (a_term (count_at marks.now) walk_levels
        false) (turns - 1) (record { at = result.1; rest = drop result.1 bytes.now })).0 }
{
    let cursor = Cursor::new(at, &bytes[at..]);
    let term = term_at(&cursor, marks, LEVELS, false);
    (term, behind(&term).at())
}
