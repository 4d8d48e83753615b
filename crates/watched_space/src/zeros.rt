//! Bytes by number, in the order of their numbers, that are 0 until one is written.
ghost use Rattle.std.specs.Prelude.{◌≡◌, [], IfOk, IfErr, if◌then◌else◌, length, nat_lt};
ghost use Rattle.watched_space.specs.NumberedBytes.{IsAt, IsGapFor, with_byte, read_zero, written_zero};

use std::alloc::{AllocError, Global};
use std::marker::Model;

/// How many bytes there may be.
const MOST: usize = 4096;

/// Bytes by number, in ascending order: those that were asked for, 0 until one is written. There is room for 4,096 of
/// them from the start, so that no access takes memory. A search is one by halves; a new byte moves the later ones.
#[derive(Drop)]
pub(crate) struct Zeros {
    bytes: Vec<(u64, u8)>,
}

impl Model for Zeros {
    ghost use Rattle.std.specs.Prelude.{◌≤◌, length};
    ghost use Rattle.std.specs.Vec.{vec_capacity};
    ghost use Rattle.watched_space.specs.NumberedBytes.{Numbered, IsAscending, numbered_code};

    ghost Value = { Numbered };

    ghost coded = { numbered_code };

    ghost view = { λ z. z.bytes.items };

    ghost invariant = { λ z. record { ascends : IsAscending z.bytes.items; few : length z.bytes.items ≤ 4096; room : 4096 ≤ vec_capacity z.bytes } };
}

impl Zeros {
    /// No bytes, and room for all that there may be.
    pub(crate) fn new(alloc: Global) -> Result<Zeros, AllocError>
        ensures { IfOk result (λ z. z ≡ []) }
    {
        Ok(Zeros {
            bytes: Vec::with_capacity(alloc, MOST)?,
        })
    }

    /// The bytes, each with its number.
    pub(crate) fn entries(&self) -> &[(u64, u8)]
        ensures { result.now ≡ self.now }
    {
        &self.bytes
    }

    /// The byte with a number: 0 where it wasn't asked for before. None where there is no more room.
    pub(crate) fn read(&mut self, number: u64) -> Option<u8>
        ensures answer { result ≡ (read_zero self.old number).0 }
        ensures state { self.new ≡ (read_zero self.old number).1 }
    {
        match self.search(number) {
            Ok(at) => Some(self.bytes[at].1),
            Err(at) => {
                if self.insert(at, number, 0) {
                    Some(0)
                } else {
                    None
                }
            }
        }
    }

    /// Writes the byte with a number: `false` where there is no more room.
    pub(crate) fn write(&mut self, number: u64, byte: u8) -> bool
        ensures answer { result ≡ (written_zero self.old number byte).0 }
        ensures state { self.new ≡ (written_zero self.old number byte).1 }
    {
        match self.search(number) {
            Ok(at) => {
                self.bytes[at] = (number, byte);
                true
            }
            Err(at) => self.insert(at, number, byte),
        }
    }
}

impl Zeros {
    /// Where the byte with a number stands, or where it would go.
    fn search(&self, number: u64) -> Result<usize, usize>
        ensures found { IfOk result (IsAt self.now number) }
        ensures absent { IfErr result (IsGapFor self.now number) }
    {
        self.bytes
            .binary_search_by_key(&number, |&(known, _)| known)
    }

    /// Puts a byte where it goes, if there is room.
    fn insert(&mut self, at: usize, number: u64, byte: u8) -> bool
        requires { IsGapFor self.old number at }
        ensures answer { result ≡ nat_lt (length self.old) 4096 }
        ensures state { self.new ≡ (if result then with_byte self.old number byte else self.old) }
    {
        if self.bytes.len() >= MOST {
            return false;
        }
        self.bytes.insert(at, (number, byte)).is_ok()
    }
}
