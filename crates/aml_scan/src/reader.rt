//! A reader over the bytes that are left of a list of terms.
ghost use Rattle.std.specs.Prelude.{◌≡◌, ◌+◌, ◌*◌, ◌^◌, ◌-◌, ◌/◌, ◌<◌, ◌≤◌, ◌==◌, ◌++◌, ◌∷◌, ℕ, List, [], length, take};
ghost use Rattle.std.specs.Prelude.{drop, IfOk, OnOk, Ok, if◌then◌else◌};
ghost use Rattle.ar_space.specs.Outcome.{NotMemory, seen};
ghost use Rattle.ar_space.specs.Change.{Does, DoesInPlace};
ghost use Rattle.aml_grammar.specs.State.{State, look, byte, peek, is_next, next_bytes, all_bytes, text, text_length};
ghost use Rattle.aml_grammar.specs.State.{integer, little_endian, bit_count, size_after, package_size, length_of};
ghost use Rattle.aml_grammar.specs.State.{enter, past, marking};
ghost use Rattle.aml_grammar.specs.Names.{carets, parents};
ghost use Rattle.aml_scan.specs.Scanned.{scanned};
ghost use Rattle.aml_scan.specs.Reading.{MovesOnInPlace};

use crate::before::Before;
use crate::declarations::Declarations;
use aml_arities::{ArgumentCounts, Arities};
use aml_grammar::Mark;
use ar_space::{Refusal, Result, TermFault};
use std::alloc::{AllocError, Global};
use std::marker::Model;

/// What is left of a list or a package and where it begins, the arities so far, and the marks of the calls so far.
#[derive(Drop)]
pub(crate) struct Reader<'a, C: ArgumentCounts, B: Before> {
    /// Where the scan takes its memory.
    pub(crate) alloc: Global,
    at: usize,
    rest: &'a [u8],
    /// The arities so far.
    pub(crate) arities: Declarations<'a, C, B>,
    marks: Vec<Mark>,
}

impl<'a, C: ArgumentCounts, B: Before> Model for Reader<'a, C, B> {
    ghost use Rattle.std.specs.Prelude.{◌+◌, ◌^◌, ◌<◌, length};
    ghost use Rattle.aml_grammar.specs.State.{State};

    ghost Value = { State };

    ghost view = { λ r. record { at = r.at; rest = r.rest.now; arities = r.arities; marks = r.marks.items } };

    ghost invariant = { λ r. r.at + length r.rest.now < 2 ^ 64 };
}

/// What stands after a package, and where it begins.
#[derive(Drop)]
pub(crate) struct Outer<'a> {
    at: usize,
    rest: &'a [u8],
    ghost fits: { at + length rest.now < 2 ^ 64 },
}

impl<'a, C: ArgumentCounts, B: Before> Reader<'a, C, B> {
    pub(crate) fn new(alloc: Global, bytes: &'a [u8], counts: &'a C) -> Reader<'a, C, B>
        requires { C.counts counts.now ≡ B.before }
        ensures { result ≡ record { at = 0; rest = bytes.now; arities = B.before; marks = [] } }
    {
        Reader {
            alloc,
            at: 0,
            rest: bytes,
            arities: Declarations::new(alloc, counts),
            marks: Vec::new(alloc),
        }
    }

    /// A reader of bytes that stand at an offset of their list.
    pub(crate) fn standing(
        alloc: Global,
        at: usize,
        bytes: &'a [u8],
        counts: &'a C,
    ) -> Reader<'a, C, B>
        requires counts { C.counts counts.now ≡ B.before }
        requires fits { at + length bytes.now < 2 ^ 64 }
        ensures { result ≡ record { at = at; rest = bytes.now; arities = B.before; marks = [] } }
    {
        Reader {
            alloc,
            at,
            rest: bytes,
            arities: Declarations::new(alloc, counts),
            marks: Vec::new(alloc),
        }
    }

    /// Where the next byte stands, from the first byte of the handed-in list.
    pub(crate) fn at(&self) -> usize
        ensures { result ≡ self.now.at }
    {
        self.at
    }

    pub(crate) fn is_empty(&self) -> bool
        ensures { result ≡ (length self.now.rest == 0) }
    {
        self.rest.is_empty()
    }

    /// The next byte, which stays.
    #[tactic(auto, unfolding(aml_grammar::specs::State::peek))]
    pub(crate) fn peek(&self) -> Result<u8>
        ensures { DoesInPlace result self.now peek self.now }
    {
        match self.rest {
            [] => Err(Refusal::Term(TermFault::Truncated, self.at)),
            [byte, ..] => Ok(*byte),
        }
    }

    /// Whether this byte stands next.
    pub(crate) fn is_next(&self, byte: u8) -> bool
        ensures { result ≡ is_next byte self.now.rest }
    {
        match self.rest {
            [] => false,
            [next, ..] => *next == byte,
        }
    }

    #[tactic(auto, unfolding(aml_grammar::specs::State::byte))]
    pub(crate) fn byte(&mut self) -> Result<u8>
        ensures { MovesOnInPlace result self.new byte self.old }
    {
        match self.rest {
            [] => Err(Refusal::Term(TermFault::Truncated, self.at)),
            [byte, rest @ ..] => {
                self.at += 1;
                self.rest = rest;
                Ok(*byte)
            }
        }
    }

    #[tactic(auto, unfolding(aml_grammar::specs::State::next_bytes))]
    fn next_bytes(&mut self, count: usize) -> Result<&'a [u8]>
        ensures reads { Does (seen (λ x. x.now) result) self.new (next_bytes count) self.old }
        ensures kept { OnOk result (length self.new.rest ≤ length self.old.rest) }
        ensures count { IfOk result (λ x. length x.now ≡ count) }
        ensures memory { NotMemory result }
    {
        if self.rest.len() < count {
            return Err(Refusal::Term(TermFault::Truncated, self.at + self.rest.len()));
        }
        Ok(self.skip(count))
    }

    /// Goes past the next bytes, and gives them.
    fn skip(&mut self, count: usize) -> &'a [u8]
        requires { count ≤ length self.old.rest }
        ensures after { self.new ≡ past count self.old }
        ensures front { result.now ≡ take count self.old.rest }
    {
        let (front, rest) = self.rest.split_at(count);
        self.at += count;
        self.rest = rest;
        front
    }

    /// Goes past all bytes that are left.
    #[tactic(auto, using(crate::proofs::Scans::scanning), //
    unfolding(aml_grammar::specs::State::all_bytes, crate::specs::Scanned::kept))]
    pub(crate) fn skip_all(&mut self)
        ensures reads { Does (Ok tt) self.new (scanned all_bytes) self.old }
        ensures kept { length self.new.rest ≤ length self.old.rest }
    {
        self.skip(self.rest.len());
    }

    /// Goes past bytes up to a zero, and past it.
    #[tactic(auto, using(crate::proofs::Scans::scanning), unfolding(aml_grammar::specs::State::text))]
    pub(crate) fn skip_text(&mut self) -> Result<()>
        ensures reads { Does result self.new (scanned text) self.old }
        ensures kept { OnOk result (length self.new.rest ≤ length self.old.rest) }
        ensures memory { NotMemory result }
    {
        let count = text_length(self.rest);
        self.next_bytes(count + 1)?;
        Ok(())
    }

    /// The integer of the next bytes, the lowest first.
    #[tactic(auto, using(crate::proofs::Steps::reading), unfolding(aml_grammar::specs::State::integer))]
    pub(crate) fn integer(&mut self, count: usize) -> Result<u64>
        requires { count ≤ 8 }
        ensures reads { Does result self.new (integer count) self.old }
        ensures kept { OnOk result (length self.new.rest ≤ length self.old.rest) }
        ensures bound { IfOk result (λ n. n < 256 ^ count) }
        ensures memory { NotMemory result }
    {
        let bytes = self.next_bytes(count)?;
        Ok(little_endian(bytes))
    }

    /// A count of bits, which is spelled as the length of a package.
    #[tactic(auto, using(crate::proofs::Steps::reading), unfolding(aml_grammar::specs::State::bit_count))]
    pub(crate) fn bit_count(&mut self) -> Result<u64>
        ensures reads { Does result self.new bit_count self.old }
        ensures kept { OnOk result (length self.new.rest ≤ length self.old.rest) }
        ensures memory { NotMemory result }
    {
        let lead = self.byte()?;
        let more = self.integer(usize::from(lead / 64))?;
        Ok(length_of(lead, more))
    }

    #[tactic(auto, using(crate::proofs::Steps::reading), unfolding(aml_grammar::specs::State::package_size))]
    fn package_size(&mut self) -> Result<usize>
        ensures reads { Does result self.new package_size self.old }
        ensures kept { OnOk result (length self.new.rest ≤ length self.old.rest) }
        ensures room { IfOk result (λ n. n ≤ length self.new.rest) }
        ensures memory { NotMemory result }
    {
        let start = self.at;
        let lead = self.byte()?;
        let more = self.integer(usize::from(lead / 64))?;
        let spent = u64::from(lead / 64) + 1;
        self.size_after(start, spent, length_of(lead, more))
    }

    #[tactic(auto, unfolding(aml_grammar::specs::State::size_after))]
    fn size_after(&self, start: usize, spent: u64, total: u64) -> Result<usize>
        ensures reads { Does result self.now (size_after start spent total) self.now }
        ensures room { IfOk result (λ n. n ≤ length self.now.rest) }
        ensures memory { NotMemory result }
    {
        if total < spent || (self.rest.len() as u64) < total - spent {
            return Err(Refusal::Term(TermFault::BadPkgLength, start));
        }
        Ok((total - spent) as usize)
    }

    /// Reads the length of a package, and leaves its bytes alone.
    #[tactic(auto, using(crate::proofs::Steps::reading), unfolding(aml_grammar::specs::State::enter))]
    pub(crate) fn enter(&mut self) -> Result<Outer<'a>>
        ensures reads { Does (seen (λ o. (o.at, o.rest.now)) result) self.new enter self.old }
        ensures kept { OnOk result (length self.new.rest ≤ length self.old.rest) }
        ensures outer { IfOk result (λ o. length o.rest.now ≤ length self.old.rest) }
        ensures memory { NotMemory result }
    {
        let size = self.package_size()?;
        let (inside, after) = self.rest.split_at(size);
        self.rest = inside;
        Ok(Outer {
            at: self.at + size,
            rest: after,
        })
    }

    /// Goes on with what stands after a package.
    pub(crate) fn leave(&mut self, outer: Outer<'a>)
        ensures { self.new ≡ record self.old { at = outer.entry.at; rest = outer.entry.rest.now } }
    {
        self.at = outer.at;
        self.rest = outer.rest;
    }

    /// Goes past the `^` that stand next, and counts them.
    #[tactic(auto, unfolding(aml_grammar::specs::Names::parents))]
    pub(crate) fn parents(&mut self) -> usize
        ensures reads { Does (Ok result) self.new parents self.old }
        ensures kept { length self.new.rest ≤ length self.old.rest }
    {
        let count = carets(self.rest);
        self.skip(count);
        count
    }

    /// The marks of the calls so far, and what the list has declared itself. It takes no memory.
    pub(crate) fn into_noted(self) -> (Vec<Mark>, Arities)
        ensures marks { result.0.items ≡ self.entry.marks }
        ensures arities { B.before ++ result.1 ≡ self.entry.arities }
    {
        (self.marks, self.arities.into_added())
    }

    /// Marks a call that has arguments.
    pub(crate) fn mark(&mut self, offset: usize, count: u8) -> Result<(), AllocError>
        ensures { OnOk result (self.new ≡ marking offset count self.old) }
    {
        if count > 0 {
            self.marks.push(Mark { offset, count })?;
        }
        Ok(())
    }
}

/// How many bytes stand before the first zero.
pub fn text_length(bytes: &[u8]) -> usize
    ensures count { result ≡ text_length bytes.now }
    ensures within { result ≤ length bytes.now }
{
    bytes.iter().take_while(|byte| **byte > 0).count()
}

/// How many `^` the bytes begin with.
pub fn carets(bytes: &[u8]) -> usize
    ensures count { result ≡ carets bytes.now }
    ensures within { result ≤ length bytes.now }
{
    bytes.iter().take_while(|byte| **byte == b'^').count()
}

/// The length that a lead byte of a PkgLength and the number in the bytes after it give (ACPI 6.5, 20.2.4).
pub fn length_of(lead: u8, more: u64) -> u64
    requires { more < 256 ^ (lead / 64) }
    ensures { result ≡ length_of lead more }
{
    if lead < 64 {
        u64::from(lead)
    } else {
        u64::from(lead % 16) + 16 * more
    }
}

/// The integer of up to eight bytes, the lowest first.
pub fn little_endian(bytes: &[u8]) -> u64
    requires { length bytes.now ≤ 8 }
    ensures number { result ≡ little_endian bytes.now }
    ensures bound { result < 256 ^ length bytes.now }
{
    match bytes {
        [] => 0,
        [low, high @ ..] => u64::from(*low) + 256 * little_endian(high),
    }
}
