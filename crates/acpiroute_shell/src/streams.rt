//! What a run reads from and writes to, and whether it failed.
ghost use Rattle.std.specs.Prelude.{◌≡◌, ℕ, ◌<◌, ◌≤◌, Bool, false, List, Option, Some, length, IfOk, OnErr, is_err, []};
ghost use Rattle.std.specs.Prelude.{◌+◌, vec_capacity, vec_len};
ghost use Rattle.std.specs.Io.KnownBytes.{ReadConsumes, WriteAppends};
ghost use Rattle.std.specs.Io.{ReadsAtMost};
ghost use Rattle.acpiroute_shell.specs.Held.{Held};
ghost use Rattle.acpiroute_shell.specs.Reads.{TakesFront};

use std::alloc::Global;
use std::io::{Read, Write};

/// A read or a write failed.
#[derive(Clone, Copy, Debug)]
pub struct Failed;

/// What is read from, until a read fails. Whether one failed is a state of the source, so that a contract can say so
/// of a caller, who sees no more than this trait.
pub trait Source {
    // The bytes that are left, where they are known.
    ghost left: { Self → Option (List ℕ) };

    // Whether a read failed.
    ghost has_failed: { Self → Bool };

    // One read leads from the first state to the second. A source that counts its reads says here that the count is
    // one more.
    ghost one_read: { Self → Self → Type 0 };

    /// The next bytes. None are given only at the end, or where there is no room.
    fn fill(&mut self, chunk: &mut [u8]) -> Result<usize, Failed>
        requires { has_failed self.old ≡ false }
        ensures bound { ReadsAtMost result chunk.new }
        ensures bytes { ReadConsumes (left self.old) (left self.new) result chunk.new }
        ensures fault { has_failed self.new ≡ is_err result }
        ensures read { one_read self.old self.new };
}

/// What is written to, until a write fails.
pub trait Sink {
    ghost held: { Self → Held };

    /// Takes a front part of the text, at least a byte.
    fn put(&mut self, text: &[u8]) -> Result<usize, Failed>
        requires some { 0 < length text.now }
        requires before { (held self.old).has_failed ≡ false }
        ensures count { IfOk result (λ n. (0 < n) × (n ≤ length text.now)) }
        ensures bytes { WriteAppends (held self.old).bytes (held self.new).bytes result text.now }
        ensures fault { (held self.new).has_failed ≡ is_err result };
}

/// Bytes in memory, whose reads never fail.
impl Source for &[u8] {
    ghost left = { λ s. Some s.now };

    ghost has_failed = { λ _. false };

    ghost one_read = { λ before after. TakesFront (Some before.now) (Some after.now) };

    fn fill(&mut self, chunk: &mut [u8]) -> Result<usize, Failed> {
        match Read::read(self, chunk) {
            Ok(n) => Ok(n),
            Err(_) => Err(Failed),
        }
    }
}

/// A reader or a writer of the standard library, and whether a call of it failed. A write that takes no byte is a
/// failed one.
///
/// Its user has to make it with no failure, and to leave its fields alone while a run uses it.
#[derive(Drop)]
pub struct Outside<S> {
    /// The reader or writer.
    pub inner: S,
    /// Whether a call of it failed.
    pub has_failed: bool,
}

impl<S> Outside<S> {
    /// A reader or writer of which no call has failed.
    pub fn new(inner: S) -> Self
        ensures { result ≡ record { inner = inner; has_failed = false } }
    {
        Outside {
            inner,
            has_failed: false,
        }
    }
}

impl<R: Read> Source for Outside<R> {
    ghost left = { λ s. R.remaining s.inner };

    ghost has_failed = { λ s. s.has_failed };

    ghost one_read = { λ before after. TakesFront (R.remaining before.inner) (R.remaining after.inner) };

    fn fill(&mut self, chunk: &mut [u8]) -> Result<usize, Failed> {
        match self.inner.read(chunk) {
            Ok(n) => Ok(n),
            Err(_) => {
                self.has_failed = true;
                Err(Failed)
            }
        }
    }
}

impl<W: Write> Sink for Outside<W> {
    ghost held = { λ s. record { bytes = W.contents s.inner; has_failed = s.has_failed } };

    fn put(&mut self, text: &[u8]) -> Result<usize, Failed> {
        match self.inner.write(text) {
            Ok(n) if n > 0 => Ok(n),
            _ => {
                self.has_failed = true;
                Err(Failed)
            }
        }
    }
}

/// A text in memory that grows. A write to it fails only where memory for it runs out. Tests show that, and no clause
/// says it.
#[derive(Drop)]
pub struct Growing {
    /// What was written.
    pub bytes: Vec<u8>,
    /// Whether a growth was refused.
    pub is_refused: bool,
}

impl Growing {
    /// An empty text. It takes no memory.
    pub fn new(alloc: Global) -> Self
        ensures bytes { result.bytes.items ≡ [] }
        ensures before { result.is_refused ≡ false }
    {
        Growing {
            bytes: Vec::new(alloc),
            is_refused: false,
        }
    }
}

impl Sink for Growing {
    ghost held = { λ s. record { bytes = Some s.bytes.items; has_failed = s.is_refused } };

    fn put(&mut self, text: &[u8]) -> Result<usize, Failed>
        requires some { 0 < length text.now }
        requires before { self.old.is_refused ≡ false }
        ensures count { IfOk result (λ n. (0 < n) × (n ≤ length text.now)) }
        ensures bytes { WriteAppends (Some self.old.bytes.items) (Some self.new.bytes.items) result text.now }
        ensures fault { self.new.is_refused ≡ is_err result }
        ensures full { OnErr result (vec_capacity self.old.bytes < vec_len self.old.bytes + length text.now) }
    {
        match self.bytes.extend_from_slice(text) {
            Ok(()) => Ok(text.len()),
            Err(_) => {
                self.is_refused = true;
                Err(Failed)
            }
        }
    }
}
