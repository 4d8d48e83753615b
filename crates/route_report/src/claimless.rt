//! Lines of a report that claim nothing: some are passed over, and of those that options add the form is tested.
ghost use Rattle.std.specs.Prelude.{◌≡◌};
ghost use Rattle.ar_space.specs.Outcome.{Answers, AnswersInPlace, seen};
ghost use Rattle.route_report.specs.Reading.{is_passed_over, unread, triggered, link_triggered, number_triggered};
ghost use Rattle.route_report.specs.Reading.{source_triggered, trigger, bus_refused, bus_known, bus_state, bus};
ghost use Rattle.route_report.specs.Reading.{unread_line, trigger_line, bus_line, claimless};

use crate::draft::Draft;
use crate::words::{bad_line, ended, number, number_here, one_of, path, word};
use ar_space::Result;
use std::alloc::Global;
use text_words::Words;

/// Whether a line that begins with this word claims nothing.
fn is_passed_over(key: &[u8]) -> bool
    ensures { result ≡ is_passed_over key.now }
{
    key == b"mode".as_slice()
        || key == b"ioapic".as_slice()
        || key == b"override".as_slice()
        || key == b"pin".as_slice()
        || key == b"set".as_slice()
        || key == b"after".as_slice()
}

/// `D R`
#[tactic(auto, using(ar_space::proofs::Outcomes::answering), unfolding(crate::specs::Reading::unread))]
fn unread(alloc: Global, n: usize, words: &mut Words<'_>) -> Result<()>
    ensures { Answers result (unread n words.old) }
{
    path(alloc, n, words)?;
    number(n, words)?;
    ended(n, words)
}

/// `level` or `edge`, and `low` or `high`
#[tactic(auto, using(ar_space::proofs::Outcomes::answering), unfolding(crate::specs::Reading::triggered))]
fn triggered(n: usize, words: &mut Words<'_>) -> Result<()>
    ensures { AnswersInPlace result (triggered n words.old) }
{
    one_of(n, b"level", b"edge", words)?;
    one_of(n, b"low", b"high", words)?;
    ended(n, words)
}

/// `P`, and how it is triggered
#[tactic(auto, using(ar_space::proofs::Outcomes::answering), unfolding(crate::specs::Reading::link_triggered))]
fn link_triggered(alloc: Global, n: usize, words: &mut Words<'_>) -> Result<()>
    ensures { Answers result (link_triggered n words.old) }
{
    path(alloc, n, words)?;
    triggered(n, words)
}

/// `N`, and how it is triggered
#[tactic(auto, using(ar_space::proofs::Outcomes::answering), unfolding(crate::specs::Reading::number_triggered))]
fn number_triggered(n: usize, words: &mut Words<'_>) -> Result<()>
    ensures { AnswersInPlace result (number_triggered n words.old) }
{
    number(n, words)?;
    triggered(n, words)
}

/// What has the interrupt, by the first of the words, and how it is triggered.
#[tactic(auto, using(ar_space::proofs::Outcomes::answering), unfolding(crate::specs::Reading::source_triggered))]
fn source_triggered(alloc: Global, n: usize, key: &[u8], words: &mut Words<'_>) -> Result<()>
    ensures { Answers result (source_triggered n key.now words.old) }
{
    if key == b"link".as_slice() {
        link_triggered(alloc, n, words)
    } else if key == b"wired".as_slice() || key == b"sci".as_slice() {
        number_triggered(n, words)
    } else {
        Err(bad_line(n))
    }
}

/// `link P`, `wired N` or `sci N`, and how that is triggered
#[tactic(auto, using(ar_space::proofs::Outcomes::answering), unfolding(crate::specs::Reading::trigger))]
fn trigger(alloc: Global, n: usize, words: &mut Words<'_>) -> Result<()>
    ensures { Answers result (trigger n words.old) }
{
    let key = word(n, words)?;
    source_triggered(alloc, n, key, words)
}

/// `R`
#[tactic(auto, using(ar_space::proofs::Outcomes::answering), unfolding(crate::specs::Reading::bus_refused))]
fn bus_refused(n: usize, words: &mut Words<'_>) -> Result<()>
    ensures { AnswersInPlace result (bus_refused n words.old) }
{
    number(n, words)?;
    ended(n, words)
}

/// `S B`
#[tactic(auto, using(ar_space::proofs::Outcomes::answering), unfolding(crate::specs::Reading::bus_known))]
fn bus_known(n: usize, segment: &[u8], words: &mut Words<'_>) -> Result<()>
    ensures { AnswersInPlace result (bus_known n segment.now words.old) }
{
    number_here(n, segment)?;
    number(n, words)?;
    ended(n, words)
}

/// `S B`, or `refused R`
#[tactic(auto, using(ar_space::proofs::Outcomes::answering), unfolding(crate::specs::Reading::bus_state))]
fn bus_state(n: usize, words: &mut Words<'_>) -> Result<()>
    ensures { AnswersInPlace result (bus_state n words.old) }
{
    let first = word(n, words)?;
    if first == b"refused".as_slice() {
        bus_refused(n, words)
    } else {
        bus_known(n, first, words)
    }
}

/// `D`, and its bus
#[tactic(auto, using(ar_space::proofs::Outcomes::answering), unfolding(crate::specs::Reading::bus))]
fn bus(alloc: Global, n: usize, words: &mut Words<'_>) -> Result<()>
    ensures { Answers result (bus n words.old) }
{
    path(alloc, n, words)?;
    bus_state(n, words)
}

/// Reads over a device whose interrupts couldn't be read.
#[tactic(auto, using(ar_space::proofs::Outcomes::answering), unfolding(crate::specs::Reading::unread_line))]
fn unread_line(alloc: Global, n: usize, words: &mut Words<'_>, draft: &Draft) -> Result<()>
    ensures { Answers (seen (λ _. draft.now) result) (unread_line n words.old draft.now) }
{
    unread(alloc, n, words)?;
    draft.add_option(n)
}

/// Reads over how an interrupt is triggered.
#[tactic(auto, using(ar_space::proofs::Outcomes::answering), unfolding(crate::specs::Reading::trigger_line))]
fn trigger_line(alloc: Global, n: usize, words: &mut Words<'_>, draft: &Draft) -> Result<()>
    ensures { Answers (seen (λ _. draft.now) result) (trigger_line n words.old draft.now) }
{
    trigger(alloc, n, words)?;
    draft.add_option(n)
}

/// Reads over the bus of a routing table.
#[tactic(auto, using(ar_space::proofs::Outcomes::answering), unfolding(crate::specs::Reading::bus_line))]
fn bus_line(alloc: Global, n: usize, words: &mut Words<'_>, draft: &Draft) -> Result<()>
    ensures { Answers (seen (λ _. draft.now) result) (bus_line n words.old draft.now) }
{
    bus(alloc, n, words)?;
    draft.add_option(n)
}

/// A line by its first word: one that claims nothing.
#[tactic(auto, using(ar_space::proofs::Outcomes::answering), unfolding(crate::specs::Reading::claimless))]
pub(crate) fn claimless(
    alloc: Global,
    n: usize,
    key: &[u8],
    words: &mut Words<'_>,
    draft: &Draft,
) -> Result<()>
    ensures { Answers (seen (λ _. draft.now) result) (claimless n key.now words.old draft.now) }
{
    if key == b"unread".as_slice() {
        unread_line(alloc, n, words, draft)
    } else if key == b"trigger".as_slice() {
        trigger_line(alloc, n, words, draft)
    } else if key == b"bus".as_slice() {
        bus_line(alloc, n, words, draft)
    } else if is_passed_over(key) {
        Ok(())
    } else {
        Err(bad_line(n))
    }
}
