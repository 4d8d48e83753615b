//! Lines that are questions with their answers.
ghost use Rattle.std.specs.Prelude.{◌≡◌, ◌≢◌, IfOk, IsSome, IsNone};

use std::alloc::{AllocError, Global};

/// A question, and the answer that is wanted.
#[derive(Clone, Copy)]
pub struct Question<'a> {
    pub asked: &'a str,
    pub wanted: &'a str,
}

impl<'a> Question<'a> {
    /// Reads a line `QUESTION = ANSWER`; with no ` = ` the answer that is wanted is `done`.
    pub fn new(line: &'a str) -> Question<'a> {
        let (asked, wanted) = line.split_once(" = ").unwrap_or((line, "done"));
        Question { asked, wanted }
    }
}

/// What was answered in place of what is wanted, if that is something else.
pub fn difference(
    alloc: Global,
    question: &Question,
    answered: &str,
) -> Result<Option<String>, AllocError>
    ensures same { answered.now ≡ question.now.wanted.now → IfOk result (λ found. IsNone found) }
    ensures other { answered.now ≢ question.now.wanted.now → IfOk result (λ found. IsSome found) }
{
    if answered == question.wanted {
        return Ok(None);
    }
    let asked = question.asked;
    Ok(Some(format!(in alloc; "{asked} = {answered}")?))
}
