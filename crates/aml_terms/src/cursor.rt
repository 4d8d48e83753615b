//! A cursor over lent bytes whose steps refuse nothing: what is missing is read as zero, and no step goes past the end.
ghost use Rattle.std.specs.Prelude.{◌≡◌, ◌+◌, ◌^◌, ◌<◌, ◌≤◌, ◌==◌, length, take};
ghost use Rattle.aml_grammar.specs.State.{text_length, is_next};
ghost use Rattle.aml_marks.specs.Marked.{Place, past, over, first, an_integer, a_bit_count, a_size, prefix_length};
ghost use Rattle.aml_marks.specs.Marked.{segments_length, name_length};

use aml_scan::{carets, length_of, little_endian, text_length};
use std::marker::Model;

/// Where the next byte stands, and what is left of the list or package. It moves over the terms of lent bytes (ACPI
/// 6.5, 20.2).
///
/// No step refuses anything: what is missing is read as zero, and no step goes past the end.
#[derive(Drop)]
pub struct Cursor<'a> {
    at: usize,
    rest: &'a [u8],
}

impl<'a> Model for Cursor<'a> {
    ghost use Rattle.std.specs.Prelude.{◌+◌, ◌^◌, ◌<◌, length};
    ghost use Rattle.aml_marks.specs.Marked.{Place};

    ghost Value = { Place };

    ghost view = { λ r. record { at = r.at; rest = r.rest.now } };

    ghost invariant = { λ r. r.at + length r.rest.now < 2 ^ 64 };
}

impl<'a> Cursor<'a> {
    /// A cursor at the first of these bytes, which stands at an offset of those that were scanned. The offset behind
    /// the last byte is less than 2^64.
    pub fn new(at: usize, rest: &'a [u8]) -> Cursor<'a>
        requires { at + length rest.now < 2 ^ 64 }
        ensures { result ≡ record { at = at; rest = rest.now } }
    {
        Cursor { at, rest }
    }

    /// The offset of the next byte.
    pub fn at(&self) -> usize
        ensures value { result ≡ self.now.at }
        ensures bound { result + length self.now.rest < 2 ^ 64 }
    {
        self.at
    }

    /// What is left of the list or package.
    pub fn rest(&self) -> &'a [u8]
        ensures { result.now ≡ self.now.rest }
    {
        self.rest
    }

    /// The next byte, which stays, or zero.
    pub fn first(&self) -> u8
        ensures { result ≡ first self.now.rest }
    {
        match self.rest {
            [] => 0,
            [byte, ..] => *byte,
        }
    }

    /// Whether this byte stands next.
    pub fn is_next(&self, byte: u8) -> bool
        ensures { result ≡ is_next byte self.now.rest }
    {
        match self.rest {
            [] => false,
            [next, ..] => *next == byte,
        }
    }

    fn skip(&mut self, count: usize)
        requires { count ≤ length self.old.rest }
        ensures { self.new ≡ past count self.old }
    {
        self.rest = &self.rest[count..];
        self.at += count;
    }

    /// So many bytes on, or to the end.
    pub fn over(&mut self, count: usize)
        ensures { self.new ≡ over count self.old }
    {
        self.skip(count.min(self.rest.len()));
    }

    /// The integer of the next bytes, the lowest first; missing ones are zero.
    pub(crate) fn integer(&self, count: usize) -> u64
        requires { count ≤ 8 }
        ensures value { result ≡ (an_integer count self.now).0 }
        ensures bound { result < 256 ^ count }
    {
        let here = count.min(self.rest.len());
        little_endian(&self.rest[..here])
    }

    /// A count of bits, which is spelled as the length of a package.
    #[tactic(auto, //
    unfolding(aml_marks::specs::Marked::a_bit_count, aml_marks::specs::Marked::after, //
    aml_marks::specs::Marked::gives))]
    pub(crate) fn bit_count(&mut self) -> u64
        ensures value { result ≡ (a_bit_count self.old).0 }
        ensures after { self.new ≡ (a_bit_count self.old).1 }
    {
        let lead = self.first();
        self.over(1);
        let more = self.integer(usize::from(lead / 64));
        self.over(usize::from(lead / 64));
        length_of(lead, more)
    }

    /// How many bytes of a package follow its length.
    #[tactic(auto, //
    unfolding(aml_marks::specs::Marked::a_size, aml_marks::specs::Marked::after, aml_marks::specs::Marked::gives))]
    fn size(&mut self) -> usize
        ensures value { result ≡ (a_size self.old).0 }
        ensures after { self.new ≡ (a_size self.old).1 }
    {
        let lead = self.first();
        self.over(1);
        let more = self.integer(usize::from(lead / 64));
        self.over(usize::from(lead / 64));
        let spent = u64::from(lead / 64) + 1;
        (length_of(lead, more).saturating_sub(spent)) as usize
    }

    /// Leaves the bytes of a package alone, and gives what stands behind it.
    pub fn open(&mut self) -> Cursor<'a>
        ensures inside { self.new ≡ record (a_size self.old).1 {
          rest = take (a_size self.old).0 (a_size
              self.old).1.rest;
        } }
        ensures outer { result ≡ over (a_size self.old).0 (a_size self.old).1 }
    {
        let size = self.size();
        let here = size.min(self.rest.len());
        let (inside, after) = self.rest.split_at(here);
        self.rest = inside;
        Cursor {
            at: self.at + here,
            rest: after,
        }
    }

    /// Goes over the name that stands next.
    pub fn over_name(&mut self)
        ensures { self.new ≡ over (name_length self.old.rest) self.old }
    {
        self.over(name_length(self.rest));
    }

    /// Goes over the text that stands next, and its zero.
    pub(crate) fn over_text(&mut self)
        ensures { self.new ≡ over (text_length self.old.rest + 1) self.old }
    {
        let count = text_length(self.rest);
        self.over(count + 1);
    }

    /// Goes to the end.
    pub(crate) fn over_all(&mut self)
        ensures { self.new ≡ over (length self.old.rest) self.old }
    {
        self.over(self.rest.len());
    }
}

fn first(bytes: &[u8]) -> u8
    ensures { result ≡ first bytes.now }
{
    match bytes {
        [] => 0,
        [byte, ..] => *byte,
    }
}

/// How many bytes the prefix of a name takes: `\`, or its `^`.
fn prefix_length(bytes: &[u8]) -> usize
    ensures count { result ≡ prefix_length bytes.now }
    ensures within { result ≤ length bytes.now }
{
    if first(bytes) == b'\\' {
        1
    } else {
        carets(bytes)
    }
}

/// How many bytes the segments of a name take, with what counts them.
fn segments_length(bytes: &[u8]) -> usize
    ensures count { result ≡ segments_length bytes.now }
    ensures bound { result ≤ 1022 }
{
    let next = first(bytes);
    if next == 0 {
        1
    } else if next == b'.' {
        9
    } else if next == b'/' {
        2 + 4 * usize::from(first(&bytes[1..]))
    } else {
        4
    }
}

/// How many bytes the name takes that stands next.
fn name_length(bytes: &[u8]) -> usize
    ensures { result ≡ name_length bytes.now }
{
    let prefix = prefix_length(bytes);
    prefix + segments_length(&bytes[prefix..])
}
