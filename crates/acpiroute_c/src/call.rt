//! One call: words and an input in memory, and the reply in the caller's buffers.
ghost use Rattle.std.specs.Prelude.{◌≡◌, IfOk, IfErr, All, false};
ghost use Rattle.std.specs.Str.{IsUtf8};
ghost use Rattle.acpiroute_lib.specs.Runs.{IsReply};
ghost use Rattle.acpiroute_c.specs.Calls.{words_of, options_of, IsCall, code_of_unsaid};
ghost use Rattle.acpiroute_c.specs.declared.call_words.Unsaid.TheVariants.{NotUtf8};

use crate::call_reply::{CallReply, give};
use crate::call_words::{Unsaid, words_of};
use acpiroute_lib::{Reply, run_over};
use std::alloc::Global;

/// What a run of the program over these words and this input has to say.
fn said(alloc: Global, command: &str, options: &[u8], input: &[u8]) -> Result<Reply, Unsaid>
    ensures reply { IfOk result (λ r. IsReply (words_of command.now options.now) false input.now r) }
    ensures utf8 { IfOk result (λ _. All IsUtf8 (options_of options.now)) }
    ensures fault { IfErr result (λ why. why ≡ NotUtf8 → ¬ (All IsUtf8 (options_of options.now))) }
{
    let words = match words_of(alloc, command, options) {
        Ok(words) => words,
        Err(unsaid) => return Err(unsaid),
    };
    match run_over(alloc, words.as_slice(), input) {
        Ok(reply) => Ok(reply),
        Err(_) => Err(Unsaid::OutOfMemory),
    }
}

fn code_of_unsaid(unsaid: Unsaid) -> u32
    ensures { result ≡ code_of_unsaid unsaid }
{
    match unsaid {
        Unsaid::OutOfMemory => 2,
        Unsaid::NotUtf8 => 3,
    }
}

/// Makes a call, and tells how it came out.
pub(crate) fn call(
    alloc: Global,
    command: &str,
    options: &[u8],
    input: &[u8],
    text: &mut [u8],
    line: &mut [u8],
    reply: &mut CallReply,
) -> u32
    ensures { IsCall command.now options.now input.now result (record {
      text = text.old;
      line = line.old;
      reply = reply.old;
    }) (record { text = text.new; line = line.new; reply = reply.new }) }
{
    match said(alloc, command, options, input) {
        Ok(said) => give(&said, text, line, reply),
        Err(unsaid) => code_of_unsaid(unsaid),
    }
}
