//! Runs of the program.
ghost use Rattle.std.specs.Prelude.{◌≡◌, false};

use crate::leavings::Leavings;
use crate::streams::{Faults, FewBytes, Pairs};
use acpiroute_lib::{Outside, Reply, run, run_over};
use std::alloc::{AllocError, Global};

/// Runs the program over memory, and nothing else.
fn over_memory(alloc: Global, words: &[&str], input: &[u8]) -> Result<Reply, AllocError> {
    run_over(alloc, words, input)
}

/// Runs the program over streams, and nothing else.
fn over_streams(
    alloc: Global,
    words: &[&str],
    reader: &mut Outside<FewBytes<'_>>,
    output: &mut Outside<Pairs>,
    errors: &mut Outside<Pairs>,
) -> u8
    requires reader { reader.old.has_failed ≡ false }
    requires output { output.old.has_failed ≡ false }
    requires errors { errors.old.has_failed ≡ false }
{
    run(alloc, words, reader, output, errors)
}

/// What the program leaves over these words and this input, read from memory.
pub fn ran(alloc: Global, words: &[&str], input: &[u8]) -> Result<Leavings, AllocError> {
    let reply = over_memory(alloc, words, input)?;
    Ok(Leavings {
        status: reply.status,
        is_told: true,
        output: reply.text,
        errors: reply.line,
        unread: Vec::new(alloc),
    })
}

/// What the program leaves over these words and this input, read and written by streams with these faults.
pub fn ran_over_streams(
    alloc: Global,
    words: &[&str],
    input: &[u8],
    faults: Faults,
) -> Result<Leavings, AllocError> {
    let mut reader = Outside::new(FewBytes {
        left: input,
        fault: faults.reader,
    });
    let mut output = Outside::new(Pairs::new(alloc, faults.output));
    let mut errors = Outside::new(Pairs::new(alloc, faults.errors));
    let status = over_streams(alloc, words, &mut reader, &mut output, &mut errors);
    Ok(Leavings {
        status,
        is_told: !errors.has_failed,
        output: output.inner.got,
        errors: errors.inner.got,
        unread: Vec::from_slice(alloc, reader.inner.left)?,
    })
}
