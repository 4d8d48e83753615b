//! The words of a refusal, for a text that has something more to say behind them.
ghost use Rattle.std.specs.Prelude.{◌≡◌, IfOk};
ghost use Rattle.acpiroute_shell.specs.ErrorLines.{refusal_words};

use crate::delivery::line_of;
use ar_space::Refusal;
use std::alloc::{AllocError, Global};

/// The line of a refusal, without its line feed.
#[tactic(auto, using(crate::proofs::ErrorLines::without_feed))]
pub fn refusal_words(alloc: Global, refusal: &Refusal) -> Result<Vec<u8>, AllocError>
    ensures { IfOk result (λ v. v.items ≡ refusal_words refusal.now) }
{
    let mut line = line_of(alloc, refusal)?;
    let _ = line.pop();
    Ok(line)
}
