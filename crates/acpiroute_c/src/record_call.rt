//! What a call over a record has to say: a reply, or the access that is wanted.
ghost use Rattle.std.specs.Prelude.{◌≡◌, IfOk};
ghost use Rattle.acpiroute_c.specs.RecordCalls.{IsToldReply, code_of_unmade};

use crate::call_access::Unmade;
use acpiroute_lib::{Growing, Reply};
use acpiroute_shell::{Answer, deliver_outcome};
use ar_space::Result;
use recorded_route::WantedAccess;
use std::alloc::{AllocError, Global};

/// What a call over a record has to say.
#[derive(Drop)]
pub(crate) enum Said {
    Reply(Reply),
    Wanted(WantedAccess),
}

/// The reply to an outcome, as the program would write it.
pub(crate) fn reply_to(alloc: Global, outcome: Result<Answer>) -> Result<Reply, AllocError>
    ensures { IfOk result (λ r. IsToldReply outcome r) }
{
    let mut output = Growing::new(alloc);
    let mut errors = Growing::new(alloc);
    let status = deliver_outcome(alloc, b"", outcome, &mut output, &mut errors);
    if output.is_refused || errors.is_refused {
        return Err(AllocError);
    }
    Ok(Reply {
        text: output.bytes,
        line: errors.bytes,
        status,
    })
}

pub(crate) fn code_of_unmade(unmade: Unmade) -> u32
    ensures { result ≡ code_of_unmade unmade }
{
    match unmade {
        Unmade::OutOfMemory => 2,
        Unmade::Malformed => 5,
    }
}
