//! The first line of a report, which says its version.
ghost use Rattle.ar_space.specs.Outcome.{AnswersInPlace};
ghost use Rattle.text_words.specs.Words.{words};
ghost use Rattle.route_report.specs.Reading.{heading, version_here};

use crate::version::Version;
use crate::words::{bad_line, ended, expected, word};
use ar_space::Result;
use text_words::Words;

/// The version that a word is.
#[tactic(auto, using(ar_space::proofs::Outcomes::answering))]
fn version_here(n: usize, word: &[u8]) -> Result<Version>
    ensures { AnswersInPlace result (version_here n word.now) }
{
    if word == b"1".as_slice() {
        Ok(Version::One)
    } else if word == b"2".as_slice() {
        Ok(Version::Two)
    } else if word == b"3".as_slice() {
        Ok(Version::Three)
    } else {
        Err(bad_line(n))
    }
}

/// The first line: a report of version 1, 2 or 3.
#[tactic(auto, using(ar_space::proofs::Outcomes::answering), unfolding(crate::specs::Reading::heading))]
pub(crate) fn heading(n: usize, text: &[u8]) -> Result<Version>
    ensures { AnswersInPlace result (heading n (words text.now)) }
{
    let mut words = Words::of(text);
    expected(n, b"acpiroute", &mut words)?;
    let version = word(n, &mut words)?;
    let version = version_here(n, version)?;
    ended(n, &words)?;
    Ok(version)
}
