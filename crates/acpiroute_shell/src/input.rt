//! The whole input.
ghost use Rattle.std.specs.Prelude.{◌≡◌, ◌<◌, ◌+◌, ◌^◌, IfOk, length, false};
ghost use Rattle.acpiroute_shell.specs.ErrorLines.{error_line};
ghost use Rattle.acpiroute_shell.specs.Input.{IsRead, read_as};
ghost use Rattle.acpiroute_shell.specs.Reads.{ReadsWithin};
ghost use Rattle.acpiroute_shell.specs.Stops.{refusal_of};

use crate::streams::Source;
use std::alloc::{AllocError, Global};

/// Why there is no input.
#[derive(Clone, Copy, Debug, PartialEq, Eq)]
pub enum Stop {
    /// Memory ran out.
    OutOfMemory,
    /// A read failed.
    ReadFault,
    /// More than 16 MiB were given.
    TooLong,
}

impl From<AllocError> for Stop {
    ghost use Rattle.acpiroute_shell.specs.declared.input.Stop.TheVariants.{OutOfMemory};

    ghost from_gives = { λ _ r. r ≡ OutOfMemory };

    fn from(_error: AllocError) -> Stop {
        Stop::OutOfMemory
    }
}

impl Stop {
    /// The line that tells of it. It takes no memory.
    #[tactic(auto, using(crate::proofs::Stops::lines))]
    pub fn line(self) -> &'static [u8]
        ensures { result.now ≡ error_line (refusal_of self) }
    {
        match self {
            Stop::OutOfMemory => b"refused 99\n",
            Stop::ReadFault => b"refused 141\n",
            Stop::TooLong => b"refused 143\n",
        }
    }
}

/// Room for the bytes of one read.
fn room(alloc: Global, size: usize) -> Result<Vec<u8>, AllocError>
    ensures { IfOk result (λ v. length v.items ≡ size) }
{
    vec![in alloc; 0u8; size]
}

/// All that a source gives, up to a limit: at most one turn for each byte of the limit, and one more.
fn read_within<R: Source>(
    alloc: Global,
    reader: &mut R,
    limit: usize,
    chunk: &mut [u8],
) -> Result<Vec<u8>, Stop>
    requires some { 0 < length chunk.old }
    requires limit { limit + 1 < 2 ^ 64 }
    requires before { R.has_failed reader.old ≡ false }
    ensures input { IsRead limit (R.left reader.old) (R.has_failed reader.new) (read_as (λ v. v.items) result) }
    ensures reads { ReadsWithin R.one_read (limit + 1) reader.old reader.new }
{
    let mut input = Vec::new(alloc);
    for _ in 0..limit + 1 {
        let n = match reader.fill(chunk) {
            Ok(n) => n,
            Err(_) => return Err(Stop::ReadFault),
        };
        if n == 0 {
            return Ok(input);
        }
        input.extend_from_slice(&chunk[..n])?;
        if input.len() > limit {
            return Err(Stop::TooLong);
        }
    }
    Err(Stop::TooLong)
}

/// The whole input, of at most 16 MiB: `TooLong` where it is longer, `ReadFault` where a read failed. The reader is
/// asked for at most 16,777,217 reads.
pub fn read_input<R: Source>(alloc: Global, reader: &mut R) -> Result<Vec<u8>, Stop>
    requires { R.has_failed reader.old ≡ false }
    ensures input { IsRead 16777216 (R.left reader.old) (R.has_failed reader.new) (read_as (λ v. v.items) result) }
    ensures reads { ReadsWithin R.one_read 16777217 reader.old reader.new }
{
    let mut chunk = room(alloc, 65536)?;
    read_within(alloc, reader, 16_777_216, chunk.as_mut_slice())
}
