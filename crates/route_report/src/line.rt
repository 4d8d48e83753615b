//! One line of a report.
ghost use Rattle.std.specs.Prelude.{◌≡◌, [], codes};
ghost use Rattle.ar_space.specs.Outcome.{Answers, AnswersInPlace, NotMemory, seen};
ghost use Rattle.text_words.specs.Words.{words};
ghost use Rattle.route_report.specs.Reading.{ascends, with_next, until, offers, offered, link, wired};
ghost use Rattle.route_report.specs.Reading.{sci, ascending_after, avoid, spared, give, busiest, with_path};
ghost use Rattle.route_report.specs.Reading.{set_links, with_number, numbers_after, some_numbers, set, bound};
ghost use Rattle.route_report.specs.Reading.{link_line, wired_line, sci_line, avoid_line, spared_line};
ghost use Rattle.route_report.specs.Reading.{rule_line, give_line, busiest_line, bound_line, keyed, line};

use crate::claimless::claimless;
use crate::draft::Draft;
use crate::report::Rule;
use crate::words::{bad_line, ended, expected, number, number_here, one_of, path, path_here, word};
use aml_path::Path;
use ar_space::Result;
use route_check::Bound;
use route_model::Link;
use std::alloc::Global;
use text_words::Words;

/// Whether a number follows those before it in ascending order.
#[tactic(auto, using(crate::proofs::Steps::last_decides, crate::proofs::Steps::first_follows))]
fn ascends(numbers: &[u32], number: u32) -> bool
    ensures { result ≡ ascends numbers.now number }
{
    let count = numbers.len();
    count == 0 || numbers[count - 1] < number
}

/// A number more, in ascending order.
#[tactic(auto, using(ar_space::proofs::Outcomes::answering), unfolding(crate::specs::Reading::with_next))]
fn add_next(n: usize, numbers: &mut Vec<u32>, word: &[u8]) -> Result<()>
    ensures { Answers (seen (λ _. numbers.new.items) result) (with_next n numbers.old.items word.now) }
{
    let number = number_here(n, word)?;
    if !ascends(numbers, number) {
        return Err(bad_line(n));
    }
    numbers.push(number)?;
    Ok(())
}

/// Offers up to the word `now`, after those before.
fn add_offers(n: usize, offers: &mut Vec<u32>, words: &mut Words<'_>) -> Result<()>
    ensures { Answers (seen (λ _. (offers.new.items, words.new)) result)
        (until n (codes "now") (with_next n) offers.old.items words.old) }
{
    while let Some(word) = words.take() {
        if word == b"now".as_slice() {
            return Ok(());
        }
        add_next(n, offers, word)?;
    }
    Err(bad_line(n))
}

#[tactic(auto, using(ar_space::proofs::Outcomes::answering), unfolding(crate::specs::Reading::offers))]
fn offers(alloc: Global, n: usize, words: &mut Words<'_>) -> Result<Vec<u32>>
    ensures { Answers (seen (λ v. v.items) result) (offers n words.old) }
{
    let first = word(n, words)?;
    let mut offers = Vec::new(alloc);
    add_next(n, &mut offers, first)?;
    add_offers(n, &mut offers, words)?;
    Ok(offers)
}

/// `small low offers N.. now V`, or `extended`, or `high`
#[tactic(auto, using(ar_space::proofs::Outcomes::answering), unfolding(crate::specs::Reading::offered))]
fn offered(alloc: Global, n: usize, words: &mut Words<'_>) -> Result<Vec<u32>>
    ensures { Answers (seen (λ v. v.items) result) (offered n words.old) }
{
    one_of(n, b"small", b"extended", words)?;
    one_of(n, b"low", b"high", words)?;
    expected(n, b"offers", words)?;
    offers(alloc, n, words)
}

/// `P`, and what it offers
#[tactic(auto, using(ar_space::proofs::Outcomes::answering), unfolding(crate::specs::Reading::link))]
fn link(alloc: Global, n: usize, words: &mut Words<'_>) -> Result<Link>
    ensures { Answers result (link n words.old) }
{
    let path = path(alloc, n, words)?;
    let offers = offered(alloc, n, words)?;
    Ok(Link::new(path, offers))
}

/// `N C`
#[tactic(auto, using(ar_space::proofs::Outcomes::answering), unfolding(crate::specs::Reading::wired))]
fn wired(n: usize, words: &mut Words<'_>) -> Result<(u32, u32)>
    ensures { AnswersInPlace result (wired n words.old) }
{
    let interrupt = number(n, words)?;
    let count = number(n, words)?;
    ended(n, words)?;
    Ok((interrupt, count))
}

/// `N` or `none`
#[tactic(auto, using(ar_space::proofs::Outcomes::answering), unfolding(crate::specs::Reading::sci))]
fn sci(n: usize, words: &mut Words<'_>) -> Result<Option<u32>>
    ensures { AnswersInPlace result (sci n words.old) }
{
    let interrupt = word(n, words)?;
    ended(n, words)?;
    if interrupt == b"none".as_slice() {
        Ok(None)
    } else {
        Ok(Some(number_here(n, interrupt)?))
    }
}

/// All words that are left, as numbers in ascending order, after those before.
fn add_ascending(n: usize, numbers: &mut Vec<u32>, words: &mut Words<'_>) -> Result<()>
    ensures { Answers (seen (λ _. numbers.new.items) result) (ascending_after n numbers.old.items words.old) }
{
    while let Some(next) = words.take() {
        add_next(n, numbers, next)?;
    }
    Ok(())
}

/// `-`, or `N..`
#[tactic(auto, using(ar_space::proofs::Outcomes::answering), unfolding(crate::specs::Reading::avoid))]
fn avoid(alloc: Global, n: usize, words: &mut Words<'_>) -> Result<Vec<u32>>
    ensures { Answers (seen (λ v. v.items) result) (avoid n words.old) }
{
    let first = word(n, words)?;
    let mut numbers = Vec::new(alloc);
    if first == b"-".as_slice() {
        ended(n, words)?;
        Ok(numbers)
    } else {
        add_next(n, &mut numbers, first)?;
        add_ascending(n, &mut numbers, words)?;
        Ok(numbers)
    }
}

/// `P N`
#[tactic(auto, using(ar_space::proofs::Outcomes::answering), unfolding(crate::specs::Reading::give))]
fn give(alloc: Global, n: usize, words: &mut Words<'_>) -> Result<(Path, u32)>
    ensures { Answers result (give n words.old) }
{
    let path = path(alloc, n, words)?;
    let interrupt = number(n, words)?;
    ended(n, words)?;
    Ok((path, interrupt))
}

/// `K`
#[tactic(auto, using(ar_space::proofs::Outcomes::answering), unfolding(crate::specs::Reading::busiest))]
fn busiest(n: usize, words: &mut Words<'_>) -> Result<u32>
    ensures { AnswersInPlace result (busiest n words.old) }
{
    let count = number(n, words)?;
    ended(n, words)?;
    Ok(count)
}

/// A path more.
#[tactic(auto, using(ar_space::proofs::Outcomes::answering), unfolding(crate::specs::Reading::with_path))]
fn add_path(alloc: Global, n: usize, paths: &mut Vec<Path>, word: &[u8]) -> Result<()>
    ensures { Answers (seen (λ _. paths.new.items) result) (with_path n paths.old.items word.now) }
{
    let path = path_here(alloc, n, word)?;
    paths.push(path)?;
    Ok(())
}

/// Paths up to the word `over`, after those before.
fn add_paths(alloc: Global, n: usize, paths: &mut Vec<Path>, words: &mut Words<'_>) -> Result<()>
    ensures { Answers (seen (λ _. (paths.new.items, words.new)) result)
        (until n (codes "over") (with_path n) paths.old.items words.old) }
{
    while let Some(word) = words.take() {
        if word == b"over".as_slice() {
            return Ok(());
        }
        add_path(alloc, n, paths, word)?;
    }
    Err(bad_line(n))
}

/// `-` for no path, or one at least, up to the word `over`.
#[tactic(auto, using(ar_space::proofs::Outcomes::answering), unfolding(crate::specs::Reading::set_links))]
fn set_links(alloc: Global, n: usize, first: &[u8], words: &mut Words<'_>) -> Result<Vec<Path>>
    ensures { Answers (seen (λ v. (v.items, words.new)) result) (set_links n first.now words.old) }
{
    let mut links = Vec::new(alloc);
    if first == b"-".as_slice() {
        expected(n, b"over", words)?;
        Ok(links)
    } else {
        add_path(alloc, n, &mut links, first)?;
        add_paths(alloc, n, &mut links, words)?;
        Ok(links)
    }
}

/// A number more.
#[tactic(auto, using(ar_space::proofs::Outcomes::answering), unfolding(crate::specs::Reading::with_number))]
fn add_number(n: usize, numbers: &mut Vec<u32>, word: &[u8]) -> Result<()>
    ensures { Answers (seen (λ _. numbers.new.items) result) (with_number n numbers.old.items word.now) }
{
    let number = number_here(n, word)?;
    numbers.push(number)?;
    Ok(())
}

/// All words that are left, as numbers.
fn numbers(alloc: Global, n: usize, words: &mut Words<'_>) -> Result<Vec<u32>>
    ensures { Answers (seen (λ v. v.items) result) (numbers_after n [] words.old) }
{
    let mut numbers = Vec::new(alloc);
    add_numbers(n, &mut numbers, words)?;
    Ok(numbers)
}

/// All words that are left, as numbers, after those before.
fn add_numbers(n: usize, numbers: &mut Vec<u32>, words: &mut Words<'_>) -> Result<()>
    ensures { Answers (seen (λ _. numbers.new.items) result) (numbers_after n numbers.old.items words.old) }
{
    while let Some(word) = words.take() {
        add_number(n, numbers, word)?;
    }
    Ok(())
}

/// `N..`, one number at least
#[tactic(auto, using(ar_space::proofs::Outcomes::answering), unfolding(crate::specs::Reading::some_numbers))]
fn some_numbers(alloc: Global, n: usize, words: &mut Words<'_>) -> Result<Vec<u32>>
    ensures { Answers (seen (λ v. v.items) result) (some_numbers n words.old) }
{
    let first = word(n, words)?;
    let mut numbers = Vec::new(alloc);
    add_number(n, &mut numbers, first)?;
    add_numbers(n, &mut numbers, words)?;
    Ok(numbers)
}

/// `D N..`
#[tactic(auto, using(ar_space::proofs::Outcomes::answering), unfolding(crate::specs::Reading::spared))]
fn spared(alloc: Global, n: usize, words: &mut Words<'_>) -> Result<Vec<u32>>
    ensures { Answers (seen (λ v. v.items) result) (spared n words.old) }
{
    path(alloc, n, words)?;
    some_numbers(alloc, n, words)
}

/// `P.. over N..`
#[tactic(auto, using(ar_space::proofs::Outcomes::answering), unfolding(crate::specs::Reading::set))]
fn set(alloc: Global, n: usize, first: &[u8], words: &mut Words<'_>) -> Result<Bound>
    ensures { Answers result (set n first.now words.old) }
{
    let links = set_links(alloc, n, first, words)?;
    let interrupts = numbers(alloc, n, words)?;
    Ok(Bound { links, interrupts })
}

/// `none`, or `P.. over N..`
#[tactic(auto, using(ar_space::proofs::Outcomes::answering), unfolding(crate::specs::Reading::bound))]
fn bound(alloc: Global, n: usize, words: &mut Words<'_>) -> Result<Option<Bound>>
    ensures { Answers result (bound n words.old) }
{
    let first = word(n, words)?;
    if first == b"none".as_slice() {
        ended(n, words)?;
        Ok(None)
    } else {
        Ok(Some(set(alloc, n, first, words)?))
    }
}

/// Adds a link.
#[tactic(auto, using(ar_space::proofs::Outcomes::answering), unfolding(crate::specs::Reading::link_line))]
fn link_line(alloc: Global, n: usize, words: &mut Words<'_>, draft: &mut Draft) -> Result<()>
    ensures { Answers (seen (λ _. draft.new) result) (link_line n words.old draft.old) }
{
    let link = link(alloc, n, words)?;
    draft.add_link(n, link)
}

/// Adds a wired interrupt with its count.
#[tactic(auto, using(ar_space::proofs::Outcomes::answering), unfolding(crate::specs::Reading::wired_line))]
fn wired_line(n: usize, words: &mut Words<'_>, draft: &mut Draft) -> Result<()>
    ensures { Answers (seen (λ _. draft.new) result) (wired_line n words.old draft.old) }
{
    let wired = wired(n, words)?;
    draft.add_wired(n, wired)
}

/// Sets the interrupt that the System Control Interrupt is wired to.
#[tactic(auto, using(ar_space::proofs::Outcomes::answering), unfolding(crate::specs::Reading::sci_line))]
fn sci_line(n: usize, words: &mut Words<'_>, draft: &mut Draft) -> Result<()>
    ensures answer { Answers (seen (λ _. draft.new) result) (sci_line n words.old draft.old) }
    ensures memory { NotMemory result }
{
    let sci = sci(n, words)?;
    draft.set_sci(n, sci)
}

/// Sets the interrupts that are avoided.
#[tactic(auto, using(ar_space::proofs::Outcomes::answering), unfolding(crate::specs::Reading::avoid_line))]
fn avoid_line(alloc: Global, n: usize, words: &mut Words<'_>, draft: &mut Draft) -> Result<()>
    ensures { Answers (seen (λ _. draft.new) result) (avoid_line n words.old draft.old) }
{
    let avoid = avoid(alloc, n, words)?;
    draft.set_avoid(n, avoid)
}

/// Adds the interrupts of a device that are spared.
#[tactic(auto, using(ar_space::proofs::Outcomes::answering), unfolding(crate::specs::Reading::spared_line))]
fn spared_line(alloc: Global, n: usize, words: &mut Words<'_>, draft: &mut Draft) -> Result<()>
    ensures { Answers (seen (λ _. draft.new) result) (spared_line n words.old draft.old) }
{
    let interrupts = spared(alloc, n, words)?;
    draft.add_spared(n, interrupts)
}

/// Sets the rule of the choice.
#[tactic(auto, using(ar_space::proofs::Outcomes::answering), unfolding(crate::specs::Reading::rule_line))]
fn rule_line(n: usize, rule: Rule, words: &Words<'_>, draft: &mut Draft) -> Result<()>
    ensures answer { Answers (seen (λ _. draft.new) result) (rule_line n rule words.now draft.old) }
    ensures memory { NotMemory result }
{
    ended(n, words)?;
    draft.set_rule(n, rule)
}

/// Adds what a link is given.
#[tactic(auto, using(ar_space::proofs::Outcomes::answering), unfolding(crate::specs::Reading::give_line))]
fn give_line(alloc: Global, n: usize, words: &mut Words<'_>, draft: &mut Draft) -> Result<()>
    ensures { Answers (seen (λ _. draft.new) result) (give_line n words.old draft.old) }
{
    let give = give(alloc, n, words)?;
    draft.add_give(n, give)
}

/// Sets how busy the busiest interrupt is.
#[tactic(auto, using(ar_space::proofs::Outcomes::answering), unfolding(crate::specs::Reading::busiest_line))]
fn busiest_line(n: usize, words: &mut Words<'_>, draft: &mut Draft) -> Result<()>
    ensures answer { Answers (seen (λ _. draft.new) result) (busiest_line n words.old draft.old) }
    ensures memory { NotMemory result }
{
    let busiest = busiest(n, words)?;
    draft.set_busiest(n, busiest)
}

/// Sets why no assignment has a less busy one.
#[tactic(auto, using(ar_space::proofs::Outcomes::answering), unfolding(crate::specs::Reading::bound_line))]
fn bound_line(alloc: Global, n: usize, words: &mut Words<'_>, draft: &mut Draft) -> Result<()>
    ensures { Answers (seen (λ _. draft.new) result) (bound_line n words.old draft.old) }
{
    let bound = bound(alloc, n, words)?;
    draft.set_bound(n, bound)
}

/// A line by its first word.
#[tactic(auto, using(ar_space::proofs::Outcomes::answering), unfolding(crate::specs::Reading::keyed))]
fn keyed(
    alloc: Global,
    n: usize,
    key: &[u8],
    words: &mut Words<'_>,
    draft: &mut Draft,
) -> Result<()>
    ensures { Answers (seen (λ _. draft.new) result) (keyed n key.now words.old draft.old) }
{
    if key == b"link".as_slice() {
        link_line(alloc, n, words, draft)
    } else if key == b"wired".as_slice() {
        wired_line(n, words, draft)
    } else if key == b"sci".as_slice() {
        sci_line(n, words, draft)
    } else if key == b"avoid".as_slice() {
        avoid_line(alloc, n, words, draft)
    } else if key == b"spared".as_slice() {
        spared_line(alloc, n, words, draft)
    } else if key == b"first".as_slice() {
        rule_line(n, Rule::First, words, draft)
    } else if key == b"spread".as_slice() {
        rule_line(n, Rule::Spread, words, draft)
    } else if key == b"give".as_slice() {
        give_line(alloc, n, words, draft)
    } else if key == b"busiest".as_slice() {
        busiest_line(n, words, draft)
    } else if key == b"bound".as_slice() {
        bound_line(alloc, n, words, draft)
    } else {
        claimless(alloc, n, key, words, draft)
    }
}

/// The n-th line.
#[tactic(auto, using(ar_space::proofs::Outcomes::answering), unfolding(crate::specs::Reading::line))]
pub(crate) fn line(alloc: Global, n: usize, text: &[u8], draft: &mut Draft) -> Result<()>
    ensures { Answers (seen (λ _. draft.new) result) (line n (words text.now) draft.old) }
{
    let mut words = Words::of(text);
    let key = word(n, &mut words)?;
    keyed(alloc, n, key, &mut words, draft)
}
