//! Runs over memory, where nothing outside has a part in what is answered.
ghost use Rattle.std.specs.Prelude.{IfOk, map, false};
ghost use Rattle.acpiroute_lib.specs.Runs.{IsReply};

use crate::program::run;
use acpiroute_shell::Growing;
use std::alloc::{AllocError, Global};
use std::marker::Model;

/// What a run has to say.
#[derive(Debug, Drop)]
pub struct Reply {
    /// The text for the output.
    pub text: Vec<u8>,
    /// The line for the errors, with its line feed; empty where nothing is told.
    pub line: Vec<u8>,
    /// The exit status, from 0 to 4.
    pub status: u8,
}

impl Model for Reply {
    ghost use Rattle.acpiroute_shell.specs.Deliveries.{Reply as Said};

    ghost Value = { Said };

    ghost view = { λ r. record { text = r.text.items; line = r.line.items; status = r.status } };
}

/// Runs the program over an input in memory, into memory: just what the run has to say, the whole text, the whole
/// line and the status. An error where a growth of the output or the errors is refused.
pub fn run_over(alloc: Global, words: &[&str], input: &[u8]) -> Result<Reply, AllocError>
    ensures { IfOk result (λ r. IsReply (map (λ s. s.now) words.entry.now) false input.now r) }
{
    let mut reader = input;
    let mut output = Growing::new(alloc);
    let mut errors = Growing::new(alloc);
    let status = run(alloc, words, &mut reader, &mut output, &mut errors);
    if output.is_refused || errors.is_refused {
        return Err(AllocError);
    }
    Ok(Reply {
        text: output.bytes,
        line: errors.bytes,
        status,
    })
}
