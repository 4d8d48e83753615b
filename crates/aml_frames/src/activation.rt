//! The table or the control method that is being evaluated, and where evaluation stands in it.
ghost use Rattle.std.specs.Prelude.{◌≡◌, ◌≢◌, ◌<◌, ◌-◌, ◌==◌, ℕ, Bool, length, take, drop, Some, None, true, false, Ok};
ghost use Rattle.ar_space.specs.Outcome.{Answers, NotMemory};
ghost use Rattle.aml_grammar.specs.declared.opcode.Opcode.{Opcode};
ghost use Rattle.aml_grammar.specs.declared.opcode.TermCode.TheVariants as codes;
ghost use Rattle.aml_grammar.specs.Apart.{code_of, operand_of};
ghost use Rattle.aml_grammar.specs.Names.{starts_name};
ghost use Rattle.aml_grammar.specs.Shape.{trees_of};
ghost use Rattle.aml_grammar.specs.State.{is_next};
ghost use Rattle.aml_marks.specs.Marked.{Below, count_at, first, over, name_length, a_name, a_size, a_term, a_call};
ghost use Rattle.aml_marks.specs.Marked.{a_target, turns_of, with_row, maybe_else, fields_left};
ghost use Rattle.aml_scan.specs.RowsAt.{row_at};
ghost use Rattle.aml_scan.specs.declared.row_places.RowPlace.{RowPlace};
ghost use Rattle.aml_terms.specs.AtTree.{at_tree, at_list};
ghost use Rattle.aml_meaning.specs.Terms.{target_kind, number_of};
ghost use Rattle.aml_frames.specs.Places.{Stands, place_between, end_of, at_place, terms, next_term, behind_term};

use crate::frames::Items;
use crate::position::{MethodPath, Position};
use aml_grammar::{OperandView, TermReader};
use aml_meaning::{TargetKind, target_kind};
use aml_namespace::Scope;
use aml_objects::{Body, NodeId};
use aml_path::NameString;
use aml_terms::{At, Cursor, Marks, RowPlace, term_at};
use ar_space::{NameFault, Refusal, Result};
use std::alloc::Global;
use std::marker::Model;
use std::mem;

/// The table or the control method that is being evaluated: a share of its bytes and their marks, the scope that its
/// names stand in, how many control methods are being called, and the place of the next byte. Beside these stand where
/// the term began that is told where evaluation is refused, and which try was given up last: no contract sees them.
#[derive(Drop)]
pub struct Activation {
    pub(crate) bytes: Body,
    marks: Marks,
    scope: MethodPath,
    node: NodeId,
    depth: usize,
    position: Position,
    start: usize,
    given_up: GivenUp,
}

/// A try to evaluate an operator at once that was given up: the bytes that it went over, and where the operators began
/// that it was given up in, one inside another. Of their offsets it keeps the lowest six bits, as bits of a mask.
#[derive(Clone, Copy)]
struct GivenUp {
    from: usize,
    to: usize,
    operators: u64,
}

impl Model for Activation {
    ghost use Rattle.aml_frames.specs.Places.{Site, place_between};

    ghost Value = { Site };

    ghost view = { λ a. record { bytes = a.bytes; marks = a.marks; scope = a.scope; depth = a.depth; place = place_between a.bytes a.position.at a.position.end } };
}

/// The bit of an offset in a mask.
#[inline(always)]
fn offset_bit(offset: usize) -> u64 {
    1 << (offset % 64)
}

/// The bytes between two offsets: as many as there are.
#[inline(always)]
pub(crate) fn between(bytes: &[u8], at: usize, end: usize) -> &[u8]
    ensures { result.now ≡ take (end - at) (drop at bytes.now) }
{
    let first = at.min(bytes.len());
    let last = end.clamp(first, bytes.len());
    &bytes[first..last]
}

/// The first of the bytes between two offsets; zero where there are none.
#[inline(always)]
#[tactic(auto, using(crate::proofs::Between::moving))]
fn first_between(bytes: &[u8], at: usize, end: usize) -> u8
    ensures { result ≡ first (take (end - at) (drop at bytes.now)) }
{
    if at >= end {
        return 0;
    }
    match bytes.get(at) {
        None => 0,
        Some(byte) => *byte,
    }
}

impl Activation {
    /// A list of bytes with its marks, at its first byte. `node` is where the scope is looked for first.
    #[tactic(auto, using(crate::proofs::Between::whole_place))]
    pub fn new(
        bytes: Body,
        marks: Marks,
        scope: MethodPath,
        node: NodeId,
        depth: usize,
    ) -> Activation
        ensures { result ≡ record {
          bytes = bytes;
          marks = marks;
          scope = scope;
          depth = depth;
          place = record {
            at = 0;
            rest = bytes;
          };
        } }
    {
        let end = bytes.as_slice().len();
        Activation {
            bytes,
            marks,
            scope,
            node,
            depth,
            position: Position { at: 0, end },
            start: 0,
            given_up: GivenUp {
                from: 0,
                to: 0,
                operators: 0,
            },
        }
    }

    /// Another share of the same list, at the same byte. It takes no memory, and is refused as `OutOfMemory` where no
    /// more shares can be counted.
    #[tactic(auto, using(ar_space::proofs::Outcomes::answering))]
    pub fn share(&self) -> Result<Activation>
        ensures { Answers result (Ok self.now) }
    {
        let bytes = self.bytes.share()?;
        let marks = self.marks.share()?;
        let scope = self.scope.share()?;
        Ok(Activation {
            bytes,
            marks,
            scope,
            node: self.node,
            depth: self.depth,
            position: self.position,
            start: self.start,
            given_up: self.given_up,
        })
    }

    /// The item of a list that begins here is told where evaluation is refused.
    #[inline(always)]
    pub fn tell_from_here(&mut self)
        ensures { self.new ≡ self.old }
    {
        self.start = self.position.at;
    }

    /// The term that begins at an offset is told where evaluation is refused.
    pub(crate) fn tell_from(&mut self, start: usize)
        ensures { self.new ≡ self.old }
    {
        self.start = start;
    }

    /// Where the term begins that the trace of a refusal names.
    pub(crate) fn start(&self) -> usize {
        self.start
    }

    /// The scope that names stand in.
    #[inline(always)]
    pub fn scope(&self) -> Scope<'_>
        ensures { result.path.now ≡ self.now.scope }
    {
        Scope {
            path: self.scope.path(),
            node: self.node,
        }
    }

    /// The path of the scope, of which shares may be taken.
    pub fn scope_path(&self) -> &MethodPath
        ensures { result.now ≡ self.now.scope }
    {
        &self.scope
    }

    /// Names stand in another scope from here on. Gives the scope that they stood in, with its node.
    pub fn enter(&mut self, scope: MethodPath, node: NodeId) -> (MethodPath, NodeId)
        ensures scope { self.new ≡ record self.old { scope = scope } }
        ensures outer { result.0 ≡ self.old.scope }
    {
        let outer = mem::replace(&mut self.scope, scope);
        let outer_node = self.node;
        self.node = node;
        (outer, outer_node)
    }

    /// How many control methods are being called.
    #[inline(always)]
    pub fn depth(&self) -> usize
        ensures { result ≡ self.now.depth }
    {
        self.depth
    }

    /// Where evaluation stands.
    #[inline(always)]
    pub fn position(&self) -> Position
        ensures { place_between self.now.bytes result.at result.end ≡ self.now.place }
    {
        self.position
    }

    /// Evaluation goes on at a position.
    #[inline(always)]
    pub fn go_to(&mut self, position: Position)
        ensures { self.new ≡ at_place self.old (place_between self.old.bytes position.at position.end) }
    {
        self.position = position;
    }

    /// Evaluation goes back to a position: the try that began there, to evaluate an operator at once, is given up here.
    #[inline(always)]
    pub(crate) fn give_up_from(&mut self, position: Position)
        ensures { self.new ≡ at_place self.old (place_between self.old.bytes position.at position.end) }
    {
        let inner = self.given_up;
        let at = self.position.at;
        let from = position.at;
        // (where this try is given up, one inside of it began that was given up further on)
        let (to, operators) = if at == inner.from {
            (inner.to, inner.operators)
        } else {
            (at, 0)
        };
        self.given_up = GivenUp {
            from,
            to,
            operators: operators | offset_bit(from),
        };
        self.go_to(position);
    }

    /// Whether the operator that begins here is one in which the try was given up that was given up last, but for the
    /// outermost: it isn't tried again. Operators before these are, since the try went over them. Now and then it says
    /// so of another one that the try went over; then that one isn't done at once.
    #[inline(always)]
    pub(crate) fn is_given_up_here(&self) -> bool {
        let GivenUp {
            from,
            to,
            operators,
        } = self.given_up;
        let at = self.position.at;
        from < at && at < to && operators & offset_bit(at) != 0
    }

    /// A cursor at the next byte.
    #[inline(always)]
    #[tactic(auto, using(crate::proofs::Between::moving))]
    fn cursor(&self) -> Cursor<'_>
        ensures place { result ≡ self.now.place }
        ensures stands { Stands self.now.bytes self.now.place }
    {
        let rest = between(self.bytes.as_slice(), self.position.at, self.position.end);
        Cursor::new(self.position.at, rest)
    }

    /// Goes over the opcode of the term that stands next, and gives the place of its row, as `Cursor::take_opcode`
    /// does.
    #[inline(always)]
    #[tactic(auto, using(crate::proofs::Between::moving))]
    pub fn take_opcode(&mut self, levels: u8) -> Option<RowPlace>
        ensures some { (place : RowPlace) → result ≡ Some place → 0 < levels }
        ensures term { (place : RowPlace) → (count : ℕ → ℕ) → (element : Bool) → result ≡ Some place → a_term count
            levels element self.old.place ≡ with_row (a_term count (levels - 1)) (row_at place) self.new.place }
        ensures none { result ≡ None → self.new ≡ self.old }
        ensures moves { self.new ≡ at_place self.old self.new.place }
        ensures uncoded { (count : ℕ → ℕ) → (element : Bool) → (opcode : Opcode) → result ≡ None →
            code_of (a_term count levels element self.old.place).0 ≢ codes.Opcode opcode }
    {
        let mut cursor = self.cursor();
        let place = cursor.take_opcode(levels);
        let position = position_of(&cursor);
        self.go_to(position);
        place
    }

    /// Whether a name begins here.
    #[inline(always)]
    pub fn is_at_name(&self) -> bool
        ensures { result ≡ starts_name (first self.now.place.rest) }
    {
        self.cursor().is_at_name()
    }

    /// Whether a call begins here: a name, with a level left for its arguments.
    pub fn is_at_call(&self, levels: u8) -> bool
        ensures levels { result ≡ true → 0 < levels }
        ensures call { (count : ℕ → ℕ) → result ≡ true → a_term count levels false self.now.place ≡
            a_call (a_term count (levels - 1)) count self.now.place }
        ensures none { (count : ℕ → ℕ) → result ≡ false → code_of (a_term count levels false self.now.place).0 ≢
            codes.MethodInvocation }
    {
        self.cursor().is_at_call(levels)
    }

    /// How many arguments follow the name that begins here.
    #[inline(always)]
    pub fn argument_count(&self) -> u8
        ensures { result ≡ count_at self.now.marks self.now.place.at }
    {
        self.marks.count_at(self.position.at)
    }

    /// The name that begins here; the root where none does. Refused: `OutOfMemory`.
    pub fn name(&self, alloc: Global) -> Result<NameString>
        ensures { Answers result (Ok (a_name self.now.place).0) }
    {
        self.cursor().name(alloc)
    }

    /// The name that begins at a position; the root where none does. Refused: `OutOfMemory`.
    pub fn name_at(&self, alloc: Global, position: Position) -> Result<NameString>
        ensures { Answers result (Ok (a_name (place_between self.now.bytes position.at position.end)).0) }
    {
        self.cursor_at(position).name(alloc)
    }

    /// A reader of the term whose operands stand next, by the place of its row.
    pub fn coded_term(&self, levels: u8, place: RowPlace) -> At<'_>
        ensures { at_tree result ≡ (with_row (terms self.now levels) (row_at place) self.now.place).0 }
    {
        self.cursor().coded_term(&self.marks, levels, place)
    }

    /// A reader of the field elements that are left.
    pub fn field_list(&self, levels: u8) -> At<'_>
        ensures { at_list result ≡ trees_of (fields_left (terms self.now levels) self.now.place).0 }
    {
        self.cursor().field_list(&self.marks, levels)
    }

    /// What is left of the list or package.
    #[inline(always)]
    pub fn rest(&self) -> &[u8]
        ensures { result.now ≡ self.now.place.rest }
    {
        between(self.bytes.as_slice(), self.position.at, self.position.end)
    }

    /// The next byte, or zero.
    #[inline(always)]
    pub fn next_byte(&self) -> u8
        ensures { result ≡ first self.now.place.rest }
    {
        first_between(self.bytes.as_slice(), self.position.at, self.position.end)
    }

    /// Whether this byte stands next.
    #[inline(always)]
    pub fn is_next(&self, byte: u8) -> bool
        ensures { result ≡ is_next byte self.now.place.rest }
    {
        self.cursor().is_next(byte)
    }

    /// So many bytes on, or to the end.
    #[inline(always)]
    #[tactic(auto, using(crate::proofs::Between::moving))]
    pub fn advance(&mut self, count: usize)
        ensures { self.new ≡ at_place self.old (over count self.old.place) }
    {
        let end = self.position.end.min(self.bytes.as_slice().len());
        self.position.at += count.min(end.saturating_sub(self.position.at));
    }

    /// Goes over the name that stands next.
    #[tactic(auto, using(crate::proofs::Between::moving))]
    pub fn over_name(&mut self)
        ensures { self.new ≡ at_place self.old (over (name_length self.old.place.rest) self.old.place) }
    {
        let mut cursor = self.cursor();
        cursor.over_name();
        let position = position_of(&cursor);
        self.go_to(position);
    }

    /// How the term that stands next names a target, with so many levels.
    pub fn target_kind(&self, levels: u8) -> TargetKind
        ensures { result ≡ target_kind (code_of (next_term self.now levels)) }
    {
        target_kind(term_at(&self.cursor(), &self.marks, levels, false).code())
    }

    /// The number that is the operand of a term, by the place of its row.
    pub fn number(&self, levels: u8, place: RowPlace) -> Result<u64>
        ensures answer { Answers result
            (number_of (operand_of (with_row (terms self.now levels) (row_at place) self.now.place).0 0)) }
        ensures memory { NotMemory result }
    {
        match self
            .cursor()
            .coded_term(&self.marks, levels, place)
            .operand(0)
        {
            OperandView::Number(number) => Ok(number),
            _ => Err(Refusal::Name(NameFault::BadName)),
        }
    }

    /// Goes over the term that stands next.
    #[tactic(auto, using(crate::proofs::Between::moving))]
    pub fn over_term(&mut self, levels: u8)
        ensures { self.new ≡ behind_term self.old levels }
    {
        let mut cursor = self.cursor();
        cursor.over_term(&self.marks, levels);
        let position = position_of(&cursor);
        self.go_to(position);
    }

    /// Goes over the operands of a term, by the place of its row, and over the Else that may follow an If.
    #[tactic(auto, using(crate::proofs::Between::moving))]
    pub fn over_operands(&mut self, levels: u8, place: RowPlace)
        ensures { self.new ≡ at_place self.old (with_row (terms self.old levels) (row_at place) self.old.place).1 }
    {
        let mut cursor = self.cursor();
        cursor.over_operands(&self.marks, levels, place);
        let position = position_of(&cursor);
        self.go_to(position);
    }

    /// Goes over so many arguments of a call.
    #[tactic(auto, using(crate::proofs::Between::moving))]
    pub fn over_arguments(&mut self, levels: u8, count: u8)
        ensures { self.new ≡ at_place self.old (turns_of (terms self.old levels false) count self.old.place).1 }
    {
        let mut cursor = self.cursor();
        cursor.over_arguments(&self.marks, levels, count);
        let position = position_of(&cursor);
        self.go_to(position);
    }

    /// Goes over a target.
    #[tactic(auto, using(crate::proofs::Between::moving))]
    pub fn over_target(&mut self, levels: u8)
        ensures { self.new ≡ at_place self.old (a_target (terms self.old levels) self.old.place).1 }
    {
        let mut cursor = self.cursor();
        cursor.over_target(&self.marks, levels);
        let position = position_of(&cursor);
        self.go_to(position);
    }

    /// Goes over an Else, where one follows.
    #[tactic(auto, using(crate::proofs::Between::moving))]
    pub fn over_else(&mut self)
        ensures { (below : Below) → self.new ≡ at_place self.old (maybe_else below self.old.place).1 }
    {
        let mut cursor = self.cursor();
        cursor.over_else();
        let position = position_of(&cursor);
        self.go_to(position);
    }

    /// Goes into the package whose length stands next, and gives what stands behind it.
    #[tactic(auto, using(crate::proofs::Between::moving))]
    pub fn open(&mut self) -> Position
        ensures inside { self.new ≡ at_place self.old (record (a_size self.old.place).1 {
          rest = take (a_size
              self.old.place).0 (a_size self.old.place).1.rest;
        }) }
        ensures outer { place_between self.old.bytes result.at result.end ≡
            over (a_size self.old.place).0 (a_size self.old.place).1 }
    {
        let mut cursor = self.cursor();
        let outer = cursor.open();
        let inside = position_of(&cursor);
        let outside = position_of(&outer);
        self.go_to(inside);
        outside
    }

    /// Whether nothing is left of the list or package.
    #[inline(always)]
    pub fn is_empty(&self) -> bool
        ensures { result ≡ (length self.now.place.rest == 0) }
    {
        self.cursor().rest().is_empty()
    }

    /// What stands behind the Else that may follow at a position.
    #[tactic(auto, using(crate::proofs::Between::moving))]
    pub fn behind_else(&self, outer: Position) -> Position
        ensures { (below : Below) → place_between self.now.bytes result.at result.end ≡
            (maybe_else below (place_between self.now.bytes outer.at outer.end)).1 }
    {
        let mut cursor = self.cursor_at(outer);
        cursor.over_else();
        position_of(&cursor)
    }

    /// A cursor at a position.
    #[tactic(auto, using(crate::proofs::Between::moving))]
    fn cursor_at(&self, position: Position) -> Cursor<'_>
        ensures place { result ≡ place_between self.now.bytes position.at position.end }
        ensures stands { Stands self.now.bytes (place_between self.now.bytes position.at position.end) }
    {
        let rest = between(self.bytes.as_slice(), position.at, position.end);
        Cursor::new(position.at, rest)
    }

    /// All items that are left of the list or package, with evaluation going on at a position behind them.
    pub fn items(&self, levels: u8, outer: Position) -> Items
        ensures { result ≡ record { left = length self.now.place.rest; levels = levels; outer = outer } }
    {
        Items {
            left: self.rest().len(),
            levels,
            outer,
        }
    }
}

/// Where a cursor stands.
#[inline(always)]
fn position_of(cursor: &Cursor<'_>) -> Position
    ensures at { result.at ≡ cursor.now.at }
    ensures end { result.end ≡ end_of cursor.now }
{
    Position {
        at: cursor.at(),
        end: cursor.at() + cursor.rest().len(),
    }
}
