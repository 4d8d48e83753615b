//! Pages: the bytes at 64 addresses in a row.
ghost use Rattle.std.specs.Prelude.{◌≡◌, ℕ, ◌+◌, ◌^◌, ◌<◌, ◌≤◌, ◌++◌, length, slice_index, Some, None, IfSome, OnOk};
ghost use Rattle.std.specs.Prelude.{is_some, true, false};
ghost use Rattle.std.specs.Int.{bit_at};
ghost use Rattle.ar_space.specs.Pages.{cell};
ghost use Rattle.ar_space.specs.Runs.{run_from, number_from};

use std::alloc::AllocError;

/// How many addresses a page has.
pub(crate) const PLACES: usize = 64;

/// The bytes at 64 addresses in a row. Where the bit of a place is 0, no byte stands there.
#[derive(Clone, Copy)]
pub(crate) struct Page {
    bytes: [u8; PLACES],
    present: u64,
}

impl Page {
    /// A page without bytes.
    pub(crate) fn new() -> Page
        ensures { (at : ℕ) → cell result at ≡ None }
    {
        Page {
            bytes: [0; PLACES],
            present: 0,
        }
    }

    /// The byte at a place of the page, if one stands there.
    pub(crate) fn byte(&self, at: usize) -> Option<u8>
        requires { at < 64 }
        ensures { result ≡ cell self.now at }
    {
        if (self.present >> at) & 1 == 1 {
            Some(self.bytes[at])
        } else {
            None
        }
    }

    /// Notes that bytes stand from a place of the page on.
    fn mark(&mut self, at: usize, count: usize)
        requires { at + count ≤ 64 }
        ensures bytes { self.new.bytes ≡ self.old.bytes }
        ensures put { (n : ℕ) → n < count → bit_at self.new.present (at + n) ≡ 1 }
        ensures below { (i : ℕ) → i < at → bit_at self.new.present i ≡ bit_at self.old.present i }
        ensures above { (i : ℕ) → at + count ≤ i → bit_at self.new.present i ≡ bit_at self.old.present i }
    {
        for n in 0..count {
            self.present |= 1 << (at + n);
        }
    }

    /// Puts bytes from a place of the page on, over earlier ones.
    pub(crate) fn put_all(&mut self, at: usize, bytes: &[u8])
        requires { at + length bytes.now ≤ 64 }
        ensures put { (n : ℕ) → n < length bytes.now → cell self.new (at + n) ≡ Some (slice_index bytes.now n) }
        ensures below { (i : ℕ) → i < at → cell self.new i ≡ cell self.old i }
        ensures above { (i : ℕ) → at + length bytes.now ≤ i → cell self.new i ≡ cell self.old i }
    {
        self.bytes[at..at + bytes.len()].copy_from_slice(bytes);
        self.mark(at, bytes.len());
    }

    /// Appends `count` bytes from a place of the page on, or those before the first that doesn't stand.
    pub(crate) fn append_to(
        &self,
        at: usize,
        count: usize,
        bytes: &mut Vec<u8>,
    ) -> Result<(), AllocError>
        requires { at + count ≤ 64 }
        ensures { OnOk result (bytes.new.items ≡ bytes.old.items ++ run_from (cell self.now) at count) }
    {
        for n in 0..count {
            match self.byte(at + n) {
                Some(byte) => bytes.push(byte)?,
                None => return Ok(()),
            }
        }
        Ok(())
    }

    /// The number that bytes from a place of the page on make, the lowest first, where all of them stand.
    pub(crate) fn number(&self, at: usize, count: usize) -> Option<u64>
        requires { (at + count ≤ 64) × (count ≤ 8) }
        ensures number { result ≡ number_from (cell self.now) at count }
        ensures fits { IfSome result (λ number. number < 256 ^ count) }
    {
        if count == 0 {
            return Some(0);
        }
        let low = self.byte(at)?;
        let high = self.number(at + 1, count - 1)?;
        Some(u64::from(low) + 256 * high)
    }

    /// Puts bytes over those that stand from a place of the page on: `false`, and no change, where one of them
    /// doesn't stand.
    pub(crate) fn replace_all(&mut self, at: usize, bytes: &[u8]) -> bool
        requires { (at + length bytes.now ≤ 64) × (length bytes.now ≤ 8) }
        ensures stood { result ≡ is_some (number_from (cell self.old) at (length bytes.now)) }
        ensures kept { result ≡ false → self.new ≡ self.old }
        ensures put { result ≡ true → (n : ℕ) → n < length bytes.now →
            cell self.new (at + n) ≡ Some (slice_index bytes.now n) }
        ensures below { result ≡ true → (i : ℕ) → i < at → cell self.new i ≡ cell self.old i }
        ensures above { result ≡ true → (i : ℕ) → at + length bytes.now ≤ i → cell self.new i ≡ cell self.old i }
    {
        if self.number(at, bytes.len()).is_none() {
            return false;
        }
        self.put_all(at, bytes);
        true
    }
}
