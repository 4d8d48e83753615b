//! The commands.
ghost use Rattle.std.specs.Prelude.{◌≡◌, ◌++◌};
ghost use Rattle.ar_space.specs.Outcome.{NotMemory};
ghost use Rattle.acpiroute_lib.specs.Commands.{IsAnswer};
ghost use Rattle.acpiroute_lib.specs.Passed.{request_passed};

use crate::eval_command::eval_answer;
use crate::machine_end::options_of;
use crate::names_command::names_answer;
use crate::route_command::route_answer;
use crate::why_command::{registers_answer, why_answer};
use acpiroute_shell::{Answer, Request, check_answer};
use ar_space::Result;
use std::alloc::Global;

/// The answer to a request over the whole input. A machine text is given up as soon as it is read, before any table
/// of it is loaded. A report is kept while `check` reads and judges it, and given up with the answer. The lines of what
/// was passed over are put behind those that are told.
pub(crate) fn answer_request(
    alloc: Global,
    request: Request,
    input: Vec<u8>,
    told: &mut Vec<u8>,
) -> Result<Answer>
    ensures answer { NotMemory result → IsAnswer request input.items result }
    ensures told { NotMemory result → told.new.items ≡ told.old.items ++ request_passed request input.items }
{
    match request {
        Request::Route {
            mode,
            evaluation,
            avoid,
            flags,
        } => {
            let options = options_of(avoid.as_slice(), flags);
            route_answer(alloc, mode, evaluation, &options, input, told)
        }
        Request::Why(asking) => why_answer(alloc, &asking, input.as_slice()),
        Request::Registers(asking) => registers_answer(alloc, &asking, input.as_slice()),
        Request::Names { evaluation } => names_answer(alloc, evaluation, input, told),
        Request::Eval {
            mode,
            evaluation,
            path,
            arguments,
        } => eval_answer(alloc, mode, evaluation, (&path, &arguments), input, told),
        Request::Check => check_answer(alloc, input.as_slice()),
    }
}
