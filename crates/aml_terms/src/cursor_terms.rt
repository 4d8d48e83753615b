//! Terms where a cursor stands: what their opcodes are, what reads them, and what goes over them.
ghost use Rattle.std.specs.Prelude.{◌≡◌, ◌≢◌, ◌<◌, ◌-◌, Some, None, Ok, Bool, ℕ, true, false};
ghost use Rattle.ar_space.specs.Outcome.{Answers};
ghost use Rattle.aml_grammar.specs.declared.opcode.Opcode.{Opcode};
ghost use Rattle.aml_grammar.specs.declared.opcode.TermCode.TheVariants as codes;
ghost use Rattle.aml_grammar.specs.Apart.{code_of};
ghost use Rattle.aml_grammar.specs.Names.{starts_name};
ghost use Rattle.aml_grammar.specs.Shape.{trees_of};
ghost use Rattle.aml_marks.specs.Marked.{Below, count_at, first, a_name, a_term, a_field, an_else, a_call, turns_of};
ghost use Rattle.aml_marks.specs.Marked.{with_row, a_target, maybe_else, fields_left};
ghost use Rattle.aml_marks.specs.Moving.{MovesOn};
ghost use Rattle.aml_scan.specs.RowsAt.{row_at};
ghost use Rattle.aml_scan.specs.declared.row_places.RowPlace.{RowPlace};
ghost use Rattle.aml_terms.specs.AtTree.{at_tree, at_list, place_at};
ghost use Rattle.aml_terms.specs.declared.cursor_terms.Call.{Call};
ghost use Rattle.aml_terms.specs.declared.cursor_terms.Coded.{Coded};

use crate::at::{At, Kind};
use crate::cursor::Cursor;
use crate::places::standing;
use crate::skip::{opcode, skip_arguments, skip_else, skip_row_term, skip_target, skip_term};
use aml_marks::Marks;
use aml_path::{NameString, Prefix};
use aml_scan::{ELSE, RowPlace, read_name, row_place, starts_name};
use ar_space::{Refusal, Result};
use std::alloc::Global;

/// A term whose opcode was read: its operands begin at the cursor.
#[derive(Drop)]
pub struct Coded<'a> {
    /// Where the operands begin.
    pub cursor: Cursor<'a>,
    /// How many levels of terms are read below it.
    pub levels: u8,
    /// Where the row of its opcode stands.
    pub place: RowPlace,
}

/// A call: its name begins at the cursor, and its arguments stand behind the name.
#[derive(Drop)]
pub struct Call<'a> {
    /// Where the name begins.
    pub cursor: Cursor<'a>,
    /// How many levels of terms are read below it.
    pub levels: u8,
}

impl<'a> Cursor<'a> {
    /// Goes over the opcode of the term that stands next, and gives the place of its row. Where a name stands, or no
    /// opcode of the table, or no level is left, nothing changes.
    #[inline(always)]
    #[tactic(auto, using(crate::proofs::CodedTerms::coded_term, crate::proofs::MovingOn::moving))]
    pub fn take_opcode(&mut self, levels: u8) -> Option<RowPlace>
        ensures some { (place : RowPlace) → result ≡ Some place → 0 < levels }
        ensures term { (place : RowPlace) → (count : ℕ → ℕ) → (element : Bool) → result ≡ Some place →
            a_term count levels element self.old ≡ with_row (a_term count (levels - 1)) (row_at place) self.new }
        ensures none { result ≡ None → self.new ≡ self.old }
        ensures moves { MovesOn self.old self.new }
        ensures uncoded { (count : ℕ → ℕ) → (element : Bool) → (opcode : Opcode) → result ≡ None →
            code_of (a_term count levels element self.old).0 ≢ codes.Opcode opcode }
    {
        if levels > 0 {
            if let Some(place) = row_place(u16::from(self.first())) {
                self.over(1);
                return Some(place);
            }
        }
        self.take_any_opcode(levels)
    }

    /// The same, whatever stands there.
    #[inline(never)]
    #[tactic(auto, using(aml_marks::proofs::Walking::walking, crate::proofs::MovingOn::moving), //
    unfolding(aml_marks::specs::Marked::a_call, aml_marks::specs::Marked::with_row, //
    aml_marks::specs::Marked::a_coded, aml_marks::specs::Marked::a_term_in, aml_marks::specs::Marked::after, //
    aml_marks::specs::Marked::gives))]
    fn take_any_opcode(&mut self, levels: u8) -> Option<RowPlace>
        ensures some { (place : RowPlace) → result ≡ Some place → 0 < levels }
        ensures term { (place : RowPlace) → (count : ℕ → ℕ) → (element : Bool) → result ≡ Some place →
            a_term count levels element self.old ≡ with_row (a_term count (levels - 1)) (row_at place) self.new }
        ensures none { result ≡ None → self.new ≡ self.old }
        ensures moves { MovesOn self.old self.new }
        ensures uncoded { (count : ℕ → ℕ) → (element : Bool) → (opcode : Opcode) → result ≡ None →
            code_of (a_term count levels element self.old).0 ≢ codes.Opcode opcode }
    {
        if levels == 0 || starts_name(self.first()) {
            return None;
        }
        let mut behind = Cursor::new(self.at(), self.rest());
        match row_place(opcode(&mut behind)) {
            None => None,
            Some(place) => {
                *self = behind;
                Some(place)
            }
        }
    }

    /// Whether a name begins here.
    #[inline(always)]
    pub fn is_at_name(&self) -> bool
        ensures { result ≡ starts_name (first self.now.rest) }
    {
        starts_name(self.first())
    }

    /// Whether a call begins here: a name, with a level left for its arguments.
    #[inline(always)]
    #[tactic(auto, using(crate::proofs::Calls::calls))]
    pub fn is_at_call(&self, levels: u8) -> bool
        ensures levels { result ≡ true → 0 < levels }
        ensures call { (count : ℕ → ℕ) → result ≡ true → a_term count levels false self.now ≡
            a_call (a_term count (levels - 1)) count self.now }
        ensures none { (count : ℕ → ℕ) → result ≡ false → code_of (a_term count levels false self.now).0 ≢
            codes.MethodInvocation }
    {
        if levels == 0 {
            return false;
        }
        if self.is_at_name() {
            return true;
        }
        false
    }

    /// The name that begins here; the root where none does. Refused: `OutOfMemory`.
    #[tactic(auto, using(crate::proofs::Named::naming), unfolding(aml_marks::specs::Marked::a_name))]
    pub fn name(&self, alloc: Global) -> Result<NameString>
        ensures { Answers result (Ok (a_name self.now).0) }
    {
        match read_name(alloc, self.at(), self.rest()) {
            Ok(name) => Ok(name),
            Err(Refusal::OutOfMemory) => Err(Refusal::OutOfMemory),
            Err(_) => Ok(NameString::new(Prefix::Root, Vec::new(alloc))),
        }
    }

    /// A reader of the term whose operands begin here, by the place of its row.
    pub fn coded_term(&self, marks: &'a Marks, levels: u8, place: RowPlace) -> At<'a>
        ensures { at_tree result ≡ (with_row (a_term (count_at marks.now) levels) (row_at place) self.now).0 }
    {
        standing(self, marks, levels, 0, Kind::Coded(place))
    }

    /// A reader of the field elements that are left.
    #[tactic(auto, unfolding(aml_marks::specs::Marked::fields_left))]
    pub fn field_list(&self, marks: &'a Marks, levels: u8) -> At<'a>
        ensures { at_list result ≡ trees_of (fields_left (a_term (count_at marks.now) levels) self.now).0 }
    {
        standing(self, marks, levels, self.rest().len(), Kind::Fields)
    }

    /// Goes over the term that stands next.
    pub fn over_term(&mut self, marks: &Marks, levels: u8)
        ensures { self.new ≡ (a_term (count_at marks.now) levels false self.old).1 }
    {
        skip_term(self, marks, levels, false);
    }

    /// Goes over the operands of a term, by the place of its row, and over the Else that may follow an If.
    pub fn over_operands(&mut self, marks: &Marks, levels: u8, place: RowPlace)
        ensures { self.new ≡ (with_row (a_term (count_at marks.now) levels) (row_at place) self.old).1 }
    {
        skip_row_term(self, marks, levels, place.row());
    }

    /// Goes over so many arguments of a call.
    pub fn over_arguments(&mut self, marks: &Marks, levels: u8, count: u8)
        ensures { self.new ≡ (turns_of (a_term (count_at marks.now) levels false) count self.old).1 }
    {
        skip_arguments(self, marks, levels, usize::from(count));
    }

    /// Goes over a target.
    #[tactic(auto, unfolding(aml_marks::specs::Marked::a_target))]
    pub fn over_target(&mut self, marks: &Marks, levels: u8)
        ensures { self.new ≡ (a_target (a_term (count_at marks.now) levels) self.old).1 }
    {
        skip_target(self, marks, levels);
    }

    /// Goes over an Else, where one follows.
    pub fn over_else(&mut self)
        ensures { (below : Below) → self.new ≡ (maybe_else below self.old).1 }
    {
        skip_else(self);
    }
}

impl<'a> At<'a> {
    /// The marks of its bytes.
    pub fn marks(&self) -> &'a Marks
        ensures { result.now ≡ self.now.marks.now }
    {
        self.marks
    }

    /// Where the operands of a term begin that has an opcode of the table.
    pub fn coded(&self) -> Option<Coded<'a>>
        ensures some { (c : Coded) → result ≡ Some c → at_tree self.now ≡
            (with_row (a_term (count_at self.now.marks.now) c.levels) (row_at c.place) c.cursor).0 }
        ensures none { (opcode : Opcode) → result ≡ None → code_of (at_tree self.now) ≢ codes.Opcode opcode }
    {
        match self.kind {
            Kind::Coded(place) => Some(Coded {
                cursor: Cursor::new(self.at, self.rest),
                levels: self.levels,
                place,
            }),
            Kind::Term => self.coded_there(false),
            Kind::Element => self.coded_there(true),
            Kind::Else => self.coded_else(),
            Kind::Field => self.coded_field(),
            Kind::Items | Kind::Elements | Kind::Arguments | Kind::Fields => None,
        }
    }

    /// Where the name of a call begins, where the term is a call.
    #[tactic(auto, using(crate::proofs::Calls::calls))]
    pub fn call(&self) -> Option<Call<'a>>
        ensures some { (c : Call) → result ≡ Some c → at_tree self.now ≡
            (a_call (a_term (count_at self.now.marks.now) c.levels) (count_at self.now.marks.now) c.cursor).0 }
        ensures none { result ≡ None → code_of (at_tree self.now) ≢ codes.MethodInvocation }
    {
        match self.kind {
            Kind::Term => self.call_there(),
            Kind::Field => self.call_in_field(),
            Kind::Coded(_) | Kind::Element | Kind::Else => None,
            Kind::Items | Kind::Elements | Kind::Arguments | Kind::Fields => None,
        }
    }

    /// The same of a term.
    #[tactic(auto, using(crate::proofs::Calls::calls))]
    fn call_there(&self) -> Option<Call<'a>>
        ensures some { (c : Call) → (count : ℕ → ℕ) → result ≡ Some c → (a_term count self.now.levels false (place_at
            self.now)).0 ≡ (a_call (a_term count c.levels) count c.cursor).0 }
        ensures none { (count : ℕ → ℕ) → result ≡ None →
            code_of (a_term count self.now.levels false (place_at self.now)).0 ≢ codes.MethodInvocation }
    {
        let cursor = Cursor::new(self.at, self.rest);
        if cursor.is_at_call(self.levels) {
            let levels = self.levels - 1;
            return Some(Call { cursor, levels });
        }
        None
    }

    /// No field element is a call.
    #[tactic(auto, //
    unfolding(aml_marks::specs::Marked::a_field, aml_marks::specs::Marked::a_reserved_field, //
    aml_marks::specs::Marked::an_access_field, aml_marks::specs::Marked::an_extended_access_field, //
    aml_marks::specs::Marked::a_connect_field, aml_marks::specs::Marked::a_named_field, //
    aml_marks::specs::Marked::after, aml_marks::specs::Marked::gives))]
    fn call_in_field(&self) -> Option<Call<'a>>
        ensures result { result ≡ None }
        ensures none { (below : Below) → code_of (a_field below (place_at self.now)).0 ≢ codes.MethodInvocation }
    {
        None
    }

    /// Where the operands begin of a term, or of an element of a package.
    fn coded_there(&self, element: bool) -> Option<Coded<'a>>
        ensures some { (c : Coded) → (count : ℕ → ℕ) → result ≡ Some c → (a_term count self.now.levels element (place_at
            self.now)).0 ≡ (with_row (a_term count c.levels) (row_at c.place) c.cursor).0 }
        ensures none { (count : ℕ → ℕ) → (opcode : Opcode) → result ≡ None →
            code_of (a_term count self.now.levels element (place_at self.now)).0 ≢ codes.Opcode opcode }
    {
        let mut cursor = Cursor::new(self.at, self.rest);
        match cursor.take_opcode(self.levels) {
            None => None,
            Some(place) => Some(Coded {
                cursor,
                levels: self.levels - 1,
                place,
            }),
        }
    }

    /// The same of an Else: its row says what follows its opcode.
    #[tactic(auto, using(crate::proofs::Elses::else_terms))]
    fn coded_else(&self) -> Option<Coded<'a>>
        ensures some { (c : Coded) → (count : ℕ → ℕ) → result ≡ Some c → (an_else (a_term count self.now.levels)
            (place_at self.now)).0 ≡ (with_row (a_term count c.levels) (row_at c.place) c.cursor).0 }
        ensures one { result ≢ None }
    {
        let mut cursor = Cursor::new(self.at, self.rest);
        cursor.over(1);
        match row_place(u16::from(ELSE)) {
            None => None,
            Some(place) => Some(Coded {
                cursor,
                levels: self.levels,
                place,
            }),
        }
    }

    /// No field element has an opcode.
    #[tactic(auto, //
    unfolding(aml_marks::specs::Marked::a_field, aml_marks::specs::Marked::a_reserved_field, //
    aml_marks::specs::Marked::an_access_field, aml_marks::specs::Marked::an_extended_access_field, //
    aml_marks::specs::Marked::a_connect_field, aml_marks::specs::Marked::a_named_field, //
    aml_marks::specs::Marked::after, aml_marks::specs::Marked::gives))]
    fn coded_field(&self) -> Option<Coded<'a>>
        ensures result { result ≡ None }
        ensures none { (below : Below) → (opcode : Opcode) → code_of (a_field below (place_at self.now)).0 ≢
            codes.Opcode opcode }
    {
        None
    }
}
