//! `check`: reads a report, and says whether its claim is valid.
ghost use Rattle.std.specs.Prelude.{◌≡◌, Ok};
ghost use Rattle.ar_space.specs.Outcome.{Answers, NotMemory};
ghost use Rattle.acpiroute_shell.specs.CheckCommand.{verdict_answer, IsCheckAnswer};

use crate::answer::Answer;
use crate::completion::Completion;
use ar_space::Result;
use route_check::{Flaw, check_all};
use route_report::read;
use std::alloc::Global;

/// `yes`, or `no` and the number of the flaw.
fn verdict_answer(alloc: Global, verdict: Result<(), Flaw>) -> Result<Answer>
    ensures { Answers result (Ok (verdict_answer verdict)) }
{
    match verdict {
        Ok(()) => Ok(Answer {
            text: Vec::from_slice(alloc, b"yes\n")?,
            completion: Completion::Done,
        }),
        Err(flaw) => {
            let number = flaw.number();
            Ok(Answer {
                text: format!(in alloc; "no {number}\n")?.into_bytes(),
                completion: Completion::ClaimInvalid,
            })
        }
    }
}

/// What `check` answers: whether the claim of a report holds, or else the number of its first flaw. A refusal of the
/// report is the answer's.
pub fn check_answer(alloc: Global, report: &[u8]) -> Result<Answer>
    ensures { NotMemory result → IsCheckAnswer report.now result }
{
    let claim = read(alloc, report)?;
    let verdict = check_all(alloc, &claim)?;
    verdict_answer(alloc, verdict)
}
