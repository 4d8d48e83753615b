//! One line of the machine text.
ghost use Rattle.std.specs.Prelude.{◌≡◌, ◌≤◌, ◌+◌, ◌++◌, codes, Some, Ok, IfOk, IfSome, if◌then◌else◌, nat_le, nat_lt};
ghost use Rattle.std.specs.Prelude.{option_map, length};
ghost use Rattle.std.specs.List.{list_all};
ghost use Rattle.ar_space.specs.Outcome.{Answers, seen};
ghost use Rattle.machine_text.specs.Words.{only_or};
ghost use Rattle.machine_text.specs.MachineText.{last_of, put_all, bad_line, placed, configured, root, text, is_text};
ghost use Rattle.machine_text.specs.MachineText.{keyed, line};

use crate::address_space::AddressSpace;
use crate::draft::Draft;
use crate::osi_texts::OsiTexts;
use crate::words::{bad_line, bytes, ended, number};
use ar_space::{MAX_TEXTS, Result, Sparse};
use std::alloc::Global;
use std::slice;
use text_words::{Words, cut};

/// How many bytes an `osi` text may have.
const MAX_TEXT: usize = 255;

/// `A bytes..`
#[tactic(auto, using(ar_space::proofs::Outcomes::answering), unfolding(crate::specs::MachineText::placed))]
fn placed(
    n: usize,
    in_space: AddressSpace,
    space: &mut Sparse,
    words: &mut Words<'_>,
    buffer: &mut Vec<u8>,
) -> Result<()>
    ensures { Answers (seen (λ _. space.new) result) (placed n in_space space.old words.old) }
{
    let last = in_space.last();
    let first = number(n, last, words)?;
    let only = bytes(n, words, buffer)?;
    put(n, in_space, space, first, given(&only, buffer))
}

/// The bytes that a line gives: the only one, or those in the buffer.
fn given<'b>(only: &'b Option<u8>, buffer: &'b Vec<u8>) -> &'b [u8]
    ensures { result.now ≡ only_or only.now buffer.now.items }
{
    match only {
        Some(byte) => slice::from_ref(byte),
        None => buffer.as_slice(),
    }
}

/// Puts bytes from a place on, none of them past the last place.
fn put(n: usize, in_space: AddressSpace, space: &mut Sparse, first: u64, bytes: &[u8]) -> Result<()>
    requires { first ≤ last_of in_space }
    ensures { Answers (seen (λ _. space.new) result) (if nat_le (first + length bytes.now) (last_of in_space + 1)
        then Ok (put_all in_space space.old first bytes.now) else bad_line n) }
{
    if !fits(first, bytes.len(), in_space.last()) {
        return Err(bad_line(n));
    }
    in_space.put_all(space, first, bytes)
}

/// Whether none of `count` bytes from a place on stands past the last place.
fn fits(first: u64, count: usize, last: u64) -> bool
    requires { first ≤ last }
    ensures { result ≡ nat_le (first + count) (last + 1) }
{
    count == 0 || count as u64 - 1 <= last - first
}

/// `S B D F R bytes..`
#[tactic(auto, using(ar_space::proofs::Outcomes::answering), unfolding(crate::specs::MachineText::configured))]
fn configured(
    n: usize,
    space: &mut Sparse,
    words: &mut Words<'_>,
    buffer: &mut Vec<u8>,
) -> Result<()>
    ensures { Answers (seen (λ _. space.new) result) (configured n space.old words.old) }
{
    let seg = number(n, 0xFFFF, words)? as u16;
    let bus = number(n, 0xFF, words)? as u8;
    let dev = number(n, 0x1F, words)? as u8;
    let func = number(n, 7, words)? as u8;
    let function = AddressSpace::Pci {
        seg,
        bus,
        dev,
        func,
    };
    placed(n, function, space, words, buffer)
}

/// `A`, once.
#[tactic(auto, using(ar_space::proofs::Outcomes::answering), unfolding(crate::specs::MachineText::root))]
fn root(n: usize, rsdp: Option<u64>, words: &mut Words<'_>) -> Result<Option<u64>>
    ensures { Answers result (root n rsdp words.old) }
{
    let address = number(n, u64::MAX, words)?;
    ended(n, words)?;
    if rsdp.is_some() {
        return Err(bad_line(n));
    }
    Ok(Some(address))
}

/// The rest of the line, as a text that `_OSI` knows.
#[tactic(auto, using(ar_space::proofs::Outcomes::answering), unfolding(crate::specs::MachineText::text))]
fn text(alloc: Global, n: usize, osi: &mut OsiTexts, tail: Option<&[u8]>) -> Result<()>
    ensures { Answers (seen (λ _. osi.new) result) (text n osi.old (option_map (λ s. s.now) tail.entry)) }
{
    match tail {
        Some(text) => {
            if is_text(text) && osi.as_slice().len() < MAX_TEXTS {
                osi.push(alloc, text)?;
                Ok(())
            } else {
                Err(bad_line(n))
            }
        }
        None => Err(bad_line(n)),
    }
}

fn is_ascii(text: &[u8]) -> bool
    ensures { result ≡ list_all (λ b. nat_lt b 128) text.now }
{
    text.iter().all(|b| *b < 128)
}

/// 1 to 255 bytes of ASCII.
fn is_text(text: &[u8]) -> bool
    ensures { result ≡ is_text text.now }
{
    !text.is_empty() && text.len() <= MAX_TEXT && is_ascii(text)
}

/// A line by its first word.
#[tactic(auto, using(ar_space::proofs::Outcomes::answering), unfolding(crate::specs::MachineText::keyed))]
fn keyed(
    alloc: Global,
    n: usize,
    key: &[u8],
    tail: Option<&[u8]>,
    draft: &mut Draft,
    buffer: &mut Vec<u8>,
) -> Result<()>
    ensures { Answers (seen (λ _. draft.new) result) (keyed n key.now (option_map (λ s. s.now) tail.entry) draft.old) }
{
    if key == b"mem".as_slice() {
        placed(
            n,
            AddressSpace::Memory,
            &mut draft.space,
            &mut Words::new(tail),
            buffer,
        )
    } else if key == b"io".as_slice() {
        placed(
            n,
            AddressSpace::Io,
            &mut draft.space,
            &mut Words::new(tail),
            buffer,
        )
    } else if key == b"pci".as_slice() {
        configured(n, &mut draft.space, &mut Words::new(tail), buffer)
    } else if key == b"osi".as_slice() {
        text(alloc, n, &mut draft.osi, tail)
    } else if key == b"rsdp".as_slice() {
        draft.rsdp = root(n, draft.rsdp, &mut Words::new(tail))?;
        Ok(())
    } else {
        Err(bad_line(n))
    }
}

/// `mem A bytes..`, behind the first word.
#[tactic(auto, using(ar_space::proofs::Outcomes::answering), unfolding(crate::specs::MachineText::keyed))]
fn memory(n: usize, tail: &[u8], draft: &mut Draft, buffer: &mut Vec<u8>) -> Result<()>
    ensures { Answers (seen (λ _. draft.new) result) (keyed n (codes "mem") (Some tail.now) draft.old) }
{
    placed(
        n,
        AddressSpace::Memory,
        &mut draft.space,
        &mut Words::new(Some(tail)),
        buffer,
    )
}

/// What follows `mem` and a blank, where a line begins so.
fn behind_mem(text: &[u8]) -> Option<&[u8]>
    ensures { IfSome result (λ tail. text.now ≡ codes "mem " ++ tail.now) }
{
    if text.len() >= 4 && text[0] == b'm' && text[1] == b'e' && text[2] == b'm' && text[3] == b' ' {
        Some(&text[4..])
    } else {
        None
    }
}

/// The n-th line. The buffer is used for its bytes.
#[tactic(auto, using(ar_space::proofs::Outcomes::answering), unfolding(crate::specs::MachineText::line))]
pub(crate) fn line(
    alloc: Global,
    n: usize,
    text: &[u8],
    draft: &mut Draft,
    buffer: &mut Vec<u8>,
) -> Result<()>
    ensures { Answers (seen (λ _. draft.new) result) (line n text.now draft.old) }
{
    // Most lines of a text are of memory.
    if let Some(tail) = behind_mem(text) {
        return memory(n, tail, draft, buffer);
    }
    if text.is_empty() || text[0] == b'#' {
        return Ok(());
    }
    let (key, tail) = cut(text);
    keyed(alloc, n, key, tail, draft, buffer)
}
