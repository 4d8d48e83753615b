//! The values of options.
ghost use Rattle.std.specs.Prelude.{◌≡◌, ◌==◌, IfOk, map, option_map};
ghost use Rattle.std.specs.List.{slice_split};
ghost use Rattle.acpiroute_shell.specs.declared.arguments.Argument.TheVariants as variant;
ghost use Rattle.acpiroute_shell.specs.Values.{number, number_from, with_digit, argument, arguments, arguments_named};
ghost use Rattle.acpiroute_shell.specs.Values.{bytes_of_digits, interrupt, interrupts, few_interrupts};
ghost use Rattle.acpiroute_shell.specs.Values.{interrupts_listed, interrupts_named, mode_named, profile_named};
ghost use Rattle.acpiroute_shell.specs.Values.{steps_named, within_steps, accesses_named, is_true};
ghost use Rattle.acpiroute_shell.specs.Values.{calls_named, within_calls, levels_named, within_levels};

use crate::arguments::{Argument, ArgumentBytes, Arguments};
use crate::interrupts::Interrupts;
use aml_world::Profile;
use hex::FromHexError;
use route_report::Mode;
use std::alloc::{AllocError, Global};

/// A number with one decimal digit more behind it, where that is below 2^64.
#[tactic(auto, unfolding(crate::specs::Values::with_digit))]
fn with_digit(n: u64, digit: u8) -> Option<u64>
    ensures { result ≡ with_digit n digit }
{
    if digit < b'0' || digit > b'9' {
        return None;
    }
    n.checked_mul(10)?.checked_add(u64::from(digit - b'0'))
}

/// The number that decimal digits make.
fn number_of_digits(digits: &[u8]) -> Option<u64>
    ensures { result ≡ number_from 0 digits.now }
{
    let mut n = 0;
    for digit in digits {
        n = with_digit(n, *digit)?;
    }
    Some(n)
}

/// The number below 2^64 that a text is: digits alone, of which the first may be zeros.
#[tactic(auto, unfolding(crate::specs::Values::number))]
pub(crate) fn number(text: &str) -> Option<u64>
    ensures { result ≡ number text.now }
{
    number_in(text.as_bytes())
}

#[tactic(auto, unfolding(crate::specs::Values::number))]
fn number_in(digits: &[u8]) -> Option<u64>
    ensures { result ≡ number digits.now }
{
    if digits.is_empty() {
        return None;
    }
    number_of_digits(digits)
}

/// The bytes of pairs of hexadecimal digits, of either case.
#[tactic(auto, unfolding(crate::specs::Values::bytes_of_digits))]
fn bytes_of_digits(alloc: Global, digits: &[u8]) -> Result<Option<ArgumentBytes>, AllocError>
    ensures { IfOk result (λ r. r ≡ bytes_of_digits digits.now) }
{
    match hex::decode(alloc, digits) {
        Ok(bytes) => Ok(Some(ArgumentBytes::from_vec(bytes))),
        Err(FromHexError::OutOfMemory) => Err(AllocError),
        Err(_) => Ok(None),
    }
}

/// A buffer of these digits.
fn buffer(alloc: Global, digits: &[u8]) -> Result<Option<Argument>, AllocError>
    ensures { IfOk result (λ r. r ≡ option_map variant.Bytes (bytes_of_digits digits.now)) }
{
    match bytes_of_digits(alloc, digits)? {
        Some(bytes) => Ok(Some(Argument::Bytes(bytes))),
        None => Ok(None),
    }
}

fn integer(digits: &[u8]) -> Option<Argument>
    ensures { result ≡ option_map variant.Integer (number digits.now) }
{
    Some(Argument::Integer(number_in(digits)?))
}

/// The argument that a text is: `s:` and the bytes of a string, `b:` and those of a buffer in hexadecimal digits, or
/// a number.
pub(crate) fn argument(alloc: Global, text: &str) -> Result<Option<Argument>, AllocError>
    ensures { IfOk result (λ r. r ≡ argument text.now) }
{
    argument_in(alloc, text.as_bytes())
}

#[tactic(auto, unfolding(crate::specs::Values::argument))]
fn argument_in(alloc: Global, text: &[u8]) -> Result<Option<Argument>, AllocError>
    ensures { IfOk result (λ r. r ≡ argument text.now) }
{
    match text {
        [] => Ok(None),
        [b's', b':', bytes @ ..] => {
            let bytes = ArgumentBytes::from_slice(alloc, bytes)?;
            Ok(Some(Argument::Text(bytes)))
        }
        [b'b', b':', digits @ ..] => buffer(alloc, digits),
        digits => Ok(integer(digits)),
    }
}

/// Each argument of some texts.
fn arguments(alloc: Global, texts: &[&str]) -> Result<Option<Arguments>, AllocError>
    ensures { IfOk result (λ r. r ≡ arguments (map (λ s. s.now) texts.now)) }
{
    let mut list = Vec::new(alloc);
    for text in texts {
        match argument(alloc, text)? {
            Some(argument) => list.push(argument)?,
            None => return Ok(None),
        }
    }
    Ok(Some(Arguments::from_vec(list)))
}

/// The arguments of texts; none where no text is given.
pub(crate) fn arguments_named(
    alloc: Global,
    texts: Option<&[&str]>,
) -> Result<Option<Arguments>, AllocError>
    ensures { IfOk result (λ r. r ≡ arguments_named (option_map (λ t. map (λ s. s.now) t.now) texts.entry)) }
{
    match texts {
        None => Ok(Some(Arguments::from_vec(Vec::new(alloc)))),
        Some(texts) => arguments(alloc, texts),
    }
}

/// The interrupt below 2^32 that digits make.
#[tactic(auto, unfolding(crate::specs::Values::interrupt))]
fn interrupt(digits: &[u8]) -> Option<u32>
    ensures { result ≡ interrupt digits.now }
{
    let n = number_in(digits)?;
    if n <= u64::from(u32::MAX) {
        Some(n as u32)
    } else {
        None
    }
}

/// The parts of a text between commas.
fn parts<'a>(alloc: Global, text: &'a [u8]) -> Result<Vec<&'a [u8]>, AllocError>
    ensures { IfOk result (λ list. map (λ s. s.now) list.items ≡ slice_split (λ b. b == 44) text.now) }
{
    text.split(|byte| *byte == b',').collect(alloc)
}

/// Each interrupt of some texts.
fn interrupts(alloc: Global, texts: &[&[u8]]) -> Result<Option<Vec<u32>>, AllocError>
    ensures { IfOk result (λ r. option_map (λ v. v.items) r ≡ interrupts (map (λ s. s.now) texts.now)) }
{
    let mut list = Vec::new(alloc);
    for digits in texts {
        match interrupt(digits) {
            Some(n) => list.push(n)?,
            None => return Ok(None),
        }
    }
    Ok(Some(list))
}

fn few_interrupts(list: Vec<u32>) -> Option<Interrupts>
    ensures { result ≡ few_interrupts list.items }
{
    if list.len() <= 255 {
        Some(Interrupts::from_vec(list))
    } else {
        None
    }
}

/// 1 to 255 interrupts, separated by commas.
#[tactic(auto, unfolding(crate::specs::Values::interrupts_listed))]
fn interrupts_listed(alloc: Global, text: &[u8]) -> Result<Option<Interrupts>, AllocError>
    ensures { IfOk result (λ r. r ≡ interrupts_listed text.now) }
{
    let parts = parts(alloc, text)?;
    match interrupts(alloc, &parts)? {
        Some(list) => Ok(few_interrupts(list)),
        None => Ok(None),
    }
}

/// The interrupts of a text, 1 to 255; none where no text is given.
pub(crate) fn interrupts_named(
    alloc: Global,
    text: Option<&str>,
) -> Result<Option<Interrupts>, AllocError>
    ensures { IfOk result (λ r. r ≡ interrupts_named (option_map (λ s. s.now) text.entry)) }
{
    match text {
        None => Ok(Some(Interrupts::from_vec(Vec::new(alloc)))),
        Some(text) => interrupts_listed(alloc, text.as_bytes()),
    }
}

/// A mode, `apic` where none is given.
pub(crate) fn mode_named(text: Option<&str>) -> Option<Mode>
    ensures { result ≡ mode_named (option_map (λ s. s.now) text.entry) }
{
    match text {
        None => Some(Mode::Apic),
        Some(text) => {
            if text == "apic" {
                Some(Mode::Apic)
            } else if text == "pic" {
                Some(Mode::Pic)
            } else {
                None
            }
        }
    }
}

/// A profile, `core` where none is given.
pub(crate) fn profile_named(text: Option<&str>) -> Option<Profile>
    ensures { result ≡ profile_named (option_map (λ s. s.now) text.entry) }
{
    match text {
        None => Some(Profile::Core),
        Some(text) => {
            if text == "core" {
                Some(Profile::Core)
            } else if text == "wide" {
                Some(Profile::Wide)
            } else {
                None
            }
        }
    }
}

fn within_steps(n: u64) -> Option<u64>
    ensures { result ≡ within_steps n }
{
    if 1 <= n && n <= 1_000_000_000 {
        Some(n)
    } else {
        None
    }
}

/// A budget of steps, from 1 to 1,000,000,000; 1,000,000 where none is given.
pub(crate) fn steps_named(text: Option<&str>) -> Option<u64>
    ensures { result ≡ steps_named (option_map (λ s. s.now) text.entry) }
{
    match text {
        None => Some(1_000_000),
        Some(text) => within_steps(number(text)?),
    }
}

fn within_calls(n: u64) -> Option<usize>
    ensures { result ≡ within_calls n }
{
    if 1 <= n && n <= 32 {
        Some(n as usize)
    } else {
        None
    }
}

/// How many calls may be made one inside another, from 1 to 32; 32 where none is given.
pub(crate) fn calls_named(text: Option<&str>) -> Option<usize>
    ensures { result ≡ calls_named (option_map (λ s. s.now) text.entry) }
{
    match text {
        None => Some(32),
        Some(text) => within_calls(number(text)?),
    }
}

fn within_levels(n: u64) -> Option<usize>
    ensures { result ≡ within_levels n }
{
    if 1 <= n && n <= 64 {
        Some(n as usize)
    } else {
        None
    }
}

/// How many terms may be one inside another, from 1 to 64; 64 where none is given.
pub(crate) fn levels_named(text: Option<&str>) -> Option<usize>
    ensures { result ≡ levels_named (option_map (λ s. s.now) text.entry) }
{
    match text {
        None => Some(64),
        Some(text) => within_levels(number(text)?),
    }
}

/// A bound of accesses, below 2^64; none where none is given.
pub(crate) fn accesses_named(text: Option<&str>) -> Option<Option<u64>>
    ensures { result ≡ accesses_named (option_map (λ s. s.now) text.entry) }
{
    match text {
        None => Some(None),
        Some(text) => Some(Some(number(text)?)),
    }
}

/// Whether a flag is given, as clap tells it.
pub(crate) fn is_true(text: Option<&str>) -> bool
    ensures { result ≡ is_true (option_map (λ s. s.now) text.entry) }
{
    match text {
        None => false,
        Some(text) => text == "true",
    }
}
