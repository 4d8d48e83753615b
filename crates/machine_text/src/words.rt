//! The words of a line as numbers and bytes.
ghost use Rattle.std.specs.Prelude.{◌≡◌, ◌≤◌, [], ◌∷◌, length, IfOk};
ghost use Rattle.ar_space.specs.Outcome.{Answers, seen};
ghost use Rattle.machine_text.specs.Words.{number, only_or};
ghost use Rattle.machine_text.specs.MachineText.{here, word, ended, numbered, with_word, bytes_after, all_bytes};
ghost use Rattle.ar_space.specs.declared.refusal.Refusal.TheVariants.{Input};
ghost use Rattle.ar_space.specs.declared.refusal.InputFault.TheVariants.{MachineLine};

use crate::digits;
use ar_space::{InputFault, Refusal, Result};
use text_words::Words;

/// The refusal of the line with this number.
pub(crate) fn bad_line(n: usize) -> Refusal
    ensures { result ≡ Input (MachineLine n) }
{
    Refusal::Input(InputFault::MachineLine(n))
}

/// The next word.
#[tactic(auto, using(ar_space::proofs::Outcomes::answering))]
fn word<'a>(n: usize, words: &mut Words<'a>) -> Result<&'a [u8]>
    ensures { Answers (seen (λ w. (w.now, words.new)) result) (word n words.old) }
{
    match words.take() {
        Some(word) => Ok(word),
        None => Err(bad_line(n)),
    }
}

/// No word is left.
#[tactic(auto, using(ar_space::proofs::Outcomes::answering))]
pub(crate) fn ended(n: usize, words: &Words<'_>) -> Result<()>
    ensures { Answers result (ended n words.now) }
{
    if words.is_ended() {
        Ok(())
    } else {
        Err(bad_line(n))
    }
}

/// The next word, as a number that is at most `most`.
#[tactic(auto, using(ar_space::proofs::Outcomes::answering), unfolding(crate::specs::MachineText::numbered))]
pub(crate) fn number(n: usize, most: u64, words: &mut Words<'_>) -> Result<u64>
    ensures value { Answers (seen (λ a. (a, words.new)) result) (numbered n most words.old) }
    ensures within { IfOk result (λ a. a ≤ most) }
{
    let word = word(n, words)?;
    number_here(n, word, most)
}

/// The bytes of all words, of which there is one at least: `Some` of the byte where there is one word of two digits
/// alone, which takes no buffer; else `None`, and the bytes are in the buffer, in place of what it had.
#[tactic(auto, using(ar_space::proofs::Outcomes::answering), unfolding(crate::specs::MachineText::all_bytes))]
pub(crate) fn bytes(n: usize, words: &mut Words<'_>, buffer: &mut Vec<u8>) -> Result<Option<u8>>
    ensures { Answers (seen (λ only. only_or only buffer.new.items) result) (all_bytes n words.old) }
{
    let first = word(n, words)?;
    if first.len() == 2 && words.is_ended() {
        let only = only_byte(n, first)?;
        return Ok(Some(only));
    }
    buffer.clear();
    bytes_after(n, first, words, buffer)?;
    Ok(None)
}

/// The byte of a word of two digits.
fn only_byte(n: usize, word: &[u8]) -> Result<u8>
    requires { length word.now ≡ 2 }
    ensures { Answers (seen (λ byte. byte ∷ []) result) (bytes_after n [] (word.now ∷ [])) }
{
    match digits::pair(word[0], word[1]) {
        Some(byte) => Ok(byte),
        None => Err(bad_line(n)),
    }
}

/// The number of a word.
#[tactic(auto, using(ar_space::proofs::Outcomes::answering))]
fn number_here(n: usize, word: &[u8], most: u64) -> Result<u64>
    ensures value { Answers result (here n (number most word.now)) }
    ensures within { IfOk result (λ a. a ≤ most) }
{
    match digits::number(word, most) {
        Some(number) => Ok(number),
        None => Err(bad_line(n)),
    }
}

/// Adds the bytes of a word and of the words behind it.
fn bytes_after(n: usize, first: &[u8], words: &mut Words<'_>, all: &mut Vec<u8>) -> Result<()>
    ensures { Answers (seen (λ _. all.new.items) result) (bytes_after n all.old.items (first.now ∷ words.old)) }
{
    add_word(n, all, first)?;
    while let Some(word) = words.take() {
        add_word(n, all, word)?;
    }
    Ok(())
}

/// Adds the bytes of one word, straight from its digits. Memory is taken only where the buffer has no room left.
#[tactic(auto, using(ar_space::proofs::Outcomes::answering))]
fn add_word(n: usize, all: &mut Vec<u8>, word: &[u8]) -> Result<()>
    ensures { Answers (seen (λ _. all.new.items) result) (with_word n all.old.items word.now) }
{
    if word.is_empty() {
        return Err(bad_line(n));
    }
    if word.len() % 2 != 0 {
        return Err(bad_line(n));
    }
    let had = all.len();
    all.resize(had + word.len() / 2, 0)?;
    if digits::decode(word, &mut all.as_mut_slice()[had..]) {
        Ok(())
    } else {
        Err(bad_line(n))
    }
}
