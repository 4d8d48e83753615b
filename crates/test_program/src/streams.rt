//! A reader and a writer that give and take little at a time, and fail.
use std::alloc::Global;
use std::io;
use std::io::{Read, Write};

/// After how many calls a stream fails, and with what. It fails once: a call after that would succeed, so a row tells
/// a program that tries again.
#[derive(Clone, Copy)]
pub struct Fault {
    pub calls: u64,
    pub kind: io::ErrorKind,
}

impl Fault {
    /// No fault: more calls than a run makes.
    pub fn none() -> Fault {
        Fault {
            calls: u64::MAX,
            kind: io::ErrorKind::Other,
        }
    }

    /// A fault as a row writes it: `fails at 3 broken pipe` is a broken pipe at the third call.
    pub fn from_text(text: &str) -> Option<Fault> {
        let (_, text) = text.split_once(" at ")?;
        let (place, kind) = text.split_once(' ')?;
        let calls = place.parse::<u64>().ok()?.checked_sub(1)?;
        let kind = kind_named(kind)?;
        Some(Fault { calls, kind })
    }

    /// Counts a call, and fails where it is the one.
    fn count(&mut self) -> io::Result<()> {
        match self.calls.checked_sub(1) {
            Some(calls) => {
                self.calls = calls;
                Ok(())
            }
            None => {
                self.calls = u64::MAX;
                Err(io::Error::from(self.kind))
            }
        }
    }
}

/// The kind of a failure.
fn kind_named(name: &str) -> Option<io::ErrorKind> {
    match name {
        "broken pipe" => Some(io::ErrorKind::BrokenPipe),
        "interrupted" => Some(io::ErrorKind::Interrupted),
        "other" => Some(io::ErrorKind::Other),
        _ => None,
    }
}

/// The faults of the input, the output and the errors.
#[derive(Clone, Copy)]
pub struct Faults {
    pub reader: Fault,
    pub output: Fault,
    pub errors: Fault,
}

impl Faults {
    /// No fault at all.
    pub fn none() -> Faults {
        Faults {
            reader: Fault::none(),
            output: Fault::none(),
            errors: Fault::none(),
        }
    }
}

/// Gives a text, at most a hundred bytes at a time.
#[derive(Drop)]
pub struct FewBytes<'a> {
    pub left: &'a [u8],
    pub fault: Fault,
}

impl<'a> Read for FewBytes<'a> {
    fn read(&mut self, buf: &mut [u8]) -> io::Result<usize> {
        self.fault.count()?;
        let most = buf.len().min(self.left.len()).min(100);
        buf[..most].copy_from_slice(&self.left[..most]);
        self.left = &self.left[most..];
        Ok(most)
    }
}

/// Takes two bytes at a time.
#[derive(Drop)]
pub struct Pairs {
    pub got: Vec<u8>,
    pub fault: Fault,
}

impl Pairs {
    /// A writer that has got nothing yet.
    pub fn new(alloc: Global, fault: Fault) -> Pairs {
        Pairs {
            got: Vec::new(alloc),
            fault,
        }
    }
}

impl Write for Pairs {
    fn write(&mut self, buf: &[u8]) -> io::Result<usize> {
        self.fault.count()?;
        let most = buf.len().min(2);
        self.got.extend_from_slice(&buf[..most])?;
        Ok(most)
    }

    fn flush(&mut self) -> io::Result<()> {
        Ok(())
    }
}
