//! The words of a call.
ghost use Rattle.std.specs.Prelude.{◌≡◌, ◌==◌, ◌++◌, [], ◌∷◌, IfOk, IfErr, map, All};
ghost use Rattle.std.specs.Str.{IsUtf8};
ghost use Rattle.std.specs.List.{slice_split};
ghost use Rattle.acpiroute_c.specs.Calls.{words_of, options_of, program_name};
ghost use Rattle.acpiroute_c.specs.declared.call_words.Unsaid.TheVariants.{NotUtf8};

use std::alloc::{AllocError, Global};

/// Why a call has no reply.
#[derive(Clone, Copy, Debug, PartialEq, Eq)]
pub enum Unsaid {
    /// Memory ran out.
    OutOfMemory,
    /// A word of the options is not UTF-8.
    NotUtf8,
}

impl From<AllocError> for Unsaid {
    ghost use Rattle.acpiroute_c.specs.declared.call_words.Unsaid.TheVariants.{OutOfMemory};

    ghost from_gives = { λ _ r. r ≡ OutOfMemory };

    fn from(_error: AllocError) -> Unsaid {
        Unsaid::OutOfMemory
    }
}

/// The parts of a text between blanks.
fn parts<'a>(alloc: Global, text: &'a [u8]) -> Result<Vec<&'a [u8]>, AllocError>
    ensures { IfOk result (λ list. map (λ s. s.now) list.items ≡ slice_split (λ b. b == 32) text.now) }
{
    text.split(|byte| *byte == b' ').collect(alloc)
}

/// The options, parted by single blanks; a text without a byte has none.
fn options_of<'a>(alloc: Global, options: &'a [u8]) -> Result<Vec<&'a [u8]>, AllocError>
    ensures { IfOk result (λ list. map (λ s. s.now) list.items ≡ options_of options.now) }
{
    if options.is_empty() {
        return Ok(Vec::new(alloc));
    }
    parts(alloc, options)
}

/// The words of a call: the program's name, a command, and options.
fn texts<'a>(alloc: Global, command: &'a str, options: &[&'a [u8]]) -> Result<Vec<&'a str>, Unsaid>
    ensures words { IfOk result (λ list. map (λ s. s.now) list.items ≡
        program_name ∷ command.now ∷ map (λ s. s.now) options.now) }
    ensures utf8 { IfOk result (λ _. All (λ s. IsUtf8 s.now) options.now) }
    ensures fault { IfErr result (λ why. why ≡ NotUtf8 → ¬ (All (λ s. IsUtf8 s.now) options.now)) }
{
    let mut list = Vec::new(alloc);
    if list.push("acpiroute").is_err() || list.push(command).is_err() {
        return Err(Unsaid::OutOfMemory);
    }
    for option in options {
        let Ok(text) = str::from_utf8(option) else {
            return Err(Unsaid::NotUtf8);
        };
        if list.push(text).is_err() {
            return Err(Unsaid::OutOfMemory);
        }
    }
    Ok(list)
}

/// The words of a call: the program's name, a command, and options that single blanks part.
pub(crate) fn words_of<'a>(
    alloc: Global,
    command: &'a str,
    options: &'a [u8],
) -> Result<Vec<&'a str>, Unsaid>
    ensures words { IfOk result (λ list. map (λ s. s.now) list.items ≡ words_of command.now options.now) }
    ensures utf8 { IfOk result (λ _. All IsUtf8 (options_of options.now)) }
    ensures fault { IfErr result (λ why. why ≡ NotUtf8 → ¬ (All IsUtf8 (options_of options.now))) }
{
    match options_of(alloc, options) {
        Ok(parts) => texts(alloc, command, parts.as_slice()),
        Err(_) => Err(Unsaid::OutOfMemory),
    }
}
