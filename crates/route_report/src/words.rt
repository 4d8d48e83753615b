//! The words of a line as numbers and paths.
ghost use Rattle.std.specs.Prelude.{◌≡◌, Ok};
ghost use Rattle.std.specs.Str.{bytes_eq};
ghost use Rattle.ar_space.specs.Outcome.{Answers, AnswersInPlace, NotMemory, seen};
ghost use Rattle.ar_space.specs.declared.refusal.Refusal.TheVariants.{Report};
ghost use Rattle.ar_space.specs.declared.refusal.ReportFault.TheVariants.{BadLine};
ghost use Rattle.aml_path.specs.Text.{text_of, path_of_text};
ghost use Rattle.route_report.specs.Reading.{in_line, word, ended, expected, one_of, number_here, path_here, numbered};
ghost use Rattle.route_report.specs.Reading.{named};

use crate::numerals;
use aml_path::Path;
use ar_space::{Refusal, ReportFault, Result};
use std::alloc::Global;
use text_words::Words;

/// The refusal of the line with this number.
pub(crate) fn bad_line(n: usize) -> Refusal
    ensures { result ≡ Report (BadLine n) }
{
    Refusal::Report(ReportFault::BadLine(n))
}

/// The next word.
#[tactic(auto, using(ar_space::proofs::Outcomes::answering))]
pub(crate) fn word<'a>(n: usize, words: &mut Words<'a>) -> Result<&'a [u8]>
    ensures answer { Answers (seen (λ w. (w.now, words.new)) result) (word n words.old) }
    ensures memory { NotMemory result }
{
    match words.take() {
        Some(word) => Ok(word),
        None => Err(bad_line(n)),
    }
}

/// No word is left.
#[tactic(auto, using(ar_space::proofs::Outcomes::answering))]
pub(crate) fn ended(n: usize, words: &Words<'_>) -> Result<()>
    ensures { AnswersInPlace result (ended n words.now) }
{
    if words.is_ended() {
        Ok(())
    } else {
        Err(bad_line(n))
    }
}

/// The next word is this one.
#[tactic(auto, using(ar_space::proofs::Outcomes::answering), unfolding(crate::specs::Reading::expected))]
pub(crate) fn expected(n: usize, key: &[u8], words: &mut Words<'_>) -> Result<()>
    ensures answer { Answers (seen (λ _. words.new) result) (expected n key.now words.old) }
    ensures memory { NotMemory result }
{
    let word = word(n, words)?;
    if word == key {
        Ok(())
    } else {
        Err(bad_line(n))
    }
}

/// The next word is one of two.
#[tactic(auto, using(ar_space::proofs::Outcomes::answering), unfolding(crate::specs::Reading::one_of))]
pub(crate) fn one_of(n: usize, this: &[u8], that: &[u8], words: &mut Words<'_>) -> Result<()>
    ensures answer { Answers (seen (λ _. words.new) result) (one_of n this.now that.now words.old) }
    ensures memory { NotMemory result }
{
    let word = word(n, words)?;
    if word == this || word == that {
        Ok(())
    } else {
        Err(bad_line(n))
    }
}

/// The next word as a number.
#[tactic(auto, using(ar_space::proofs::Outcomes::answering), unfolding(crate::specs::Reading::numbered))]
pub(crate) fn number(n: usize, words: &mut Words<'_>) -> Result<u32>
    ensures answer { Answers (seen (λ a. (a, words.new)) result) (numbered n words.old) }
    ensures memory { NotMemory result }
{
    let word = word(n, words)?;
    number_here(n, word)
}

/// The next word as a path.
#[tactic(auto, using(ar_space::proofs::Outcomes::answering), unfolding(crate::specs::Reading::named))]
pub(crate) fn path(alloc: Global, n: usize, words: &mut Words<'_>) -> Result<Path>
    ensures { Answers (seen (λ p. (p, words.new)) result) (named n words.old) }
{
    let word = word(n, words)?;
    path_here(alloc, n, word)
}

/// The number that a word is.
#[tactic(auto, using(ar_space::proofs::Outcomes::answering))]
pub(crate) fn number_here(n: usize, word: &[u8]) -> Result<u32>
    ensures { AnswersInPlace result (number_here n word.now) }
{
    match numerals::decimal_of(word) {
        Some(number) => Ok(number),
        None => Err(bad_line(n)),
    }
}

/// The path of a text that may be none, or the line is refused.
fn path_in_line(alloc: Global, n: usize, word: &[u8]) -> Result<Path>
    ensures { Answers result (in_line n (path_of_text word.now)) }
{
    match Path::from_text(alloc, word) {
        Ok(path) => Ok(path),
        Err(Refusal::OutOfMemory) => Err(Refusal::OutOfMemory),
        Err(_) => Err(bad_line(n)),
    }
}

fn is_text_of(alloc: Global, path: &Path, word: &[u8]) -> Result<bool>
    ensures { Answers result (Ok (bytes_eq (text_of path.now) word.now)) }
{
    let text = path.text(alloc)?;
    Ok(text.as_bytes() == word)
}

/// The path that a word is: its segments have four characters each.
#[tactic(auto, using(ar_space::proofs::Outcomes::answering), unfolding(crate::specs::Reading::path_here))]
pub(crate) fn path_here(alloc: Global, n: usize, word: &[u8]) -> Result<Path>
    ensures { Answers result (path_here n word.now) }
{
    let path = path_in_line(alloc, n, word)?;
    if is_text_of(alloc, &path, word)? {
        Ok(path)
    } else {
        Err(bad_line(n))
    }
}
