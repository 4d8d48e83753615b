//! What is told where the value of an option is none of its values: the value, the option, what it takes, and its
//! command's usage.
ghost use Rattle.std.specs.Prelude.{◌≡◌, IfOk};
ghost use Rattle.clap.specs.Words.{kind_of};

use crate::command_line::{eval_command, names_command, route_command};
use crate::values::{
    accesses_named, argument, calls_named, levels_named, mode_named, profile_named, steps_named,
};
use crate::why_words::why_command;
use clap::error::ErrorKind;
use clap::{ArgMatches, Command, Error};
use std::alloc::{AllocError, Global};

/// A value that its option doesn't take.
#[derive(Clone, Copy)]
struct BadValue<'a> {
    value: &'a str,
    /// The option, as usage writes it.
    option: &'static str,
    /// What the option takes.
    takes: &'static str,
}

fn bad_mode<'a>(matches: &ArgMatches<'a>) -> Option<BadValue<'a>> {
    let value = matches.get_str("mode")?;
    if mode_named(Some(value)).is_some() {
        return None;
    }
    Some(BadValue {
        value,
        option: "--mode <MODE>",
        takes: "apic or pic",
    })
}

fn bad_steps<'a>(matches: &ArgMatches<'a>) -> Option<BadValue<'a>> {
    let value = matches.get_str("steps")?;
    if steps_named(Some(value)).is_some() {
        return None;
    }
    Some(BadValue {
        value,
        option: "--steps <N>",
        takes: "a number from 1 to 1000000000",
    })
}

fn bad_profile<'a>(matches: &ArgMatches<'a>) -> Option<BadValue<'a>> {
    let value = matches.get_str("profile")?;
    if profile_named(Some(value)).is_some() {
        return None;
    }
    Some(BadValue {
        value,
        option: "--profile <PROFILE>",
        takes: "core or wide",
    })
}

fn bad_accesses<'a>(matches: &ArgMatches<'a>) -> Option<BadValue<'a>> {
    let value = matches.get_str("accesses")?;
    if accesses_named(Some(value)).is_some() {
        return None;
    }
    Some(BadValue {
        value,
        option: "--accesses <N>",
        takes: "a number below 2^64",
    })
}

fn bad_calls<'a>(matches: &ArgMatches<'a>) -> Option<BadValue<'a>> {
    let value = matches.get_str("calls")?;
    if calls_named(Some(value)).is_some() {
        return None;
    }
    Some(BadValue {
        value,
        option: "--calls <N>",
        takes: "a number from 1 to 32",
    })
}

fn bad_levels<'a>(matches: &ArgMatches<'a>) -> Option<BadValue<'a>> {
    let value = matches.get_str("levels")?;
    if levels_named(Some(value)).is_some() {
        return None;
    }
    Some(BadValue {
        value,
        option: "--levels <N>",
        takes: "a number from 1 to 64",
    })
}

fn bad_argument<'a>(
    alloc: Global,
    matches: &ArgMatches<'a>,
) -> Result<Option<BadValue<'a>>, AllocError> {
    let Some(values) = matches.get_strs("arguments") else {
        return Ok(None);
    };
    for value in values {
        if argument(alloc, value)?.is_none() {
            return Ok(Some(BadValue {
                value,
                option: "[N]...",
                takes: "a decimal number below 2^64, s:TEXT or b:HEX",
            }));
        }
    }
    Ok(None)
}

/// What is wrong with the word behind `why`.
fn bad_question<'a>(matches: &ArgMatches<'a>) -> Option<BadValue<'a>> {
    let value = matches.get_str("question")?;
    let takes = if value != "eval" {
        "only eval may stand here"
    } else if matches.get_str("path").is_none() {
        "a path has to stand behind it"
    } else {
        "not with --dry, --avoid, --spare, --spread, --kernel or --registers"
    };
    Some(BadValue {
        value,
        option: "[eval]",
        takes,
    })
}

/// The first value of a command that its option doesn't take.
fn first_bad<'a>(
    alloc: Global,
    matches: &ArgMatches<'a>,
) -> Result<Option<BadValue<'a>>, AllocError> {
    match bad_mode(matches)
        .or_else(|| bad_steps(matches))
        .or_else(|| bad_profile(matches))
        .or_else(|| bad_accesses(matches))
        .or_else(|| bad_calls(matches))
        .or_else(|| bad_levels(matches))
    {
        Some(bad) => Ok(Some(bad)),
        None => match bad_argument(alloc, matches)? {
            Some(bad) => Ok(Some(bad)),
            None => Ok(bad_question(matches)),
        },
    }
}

fn message(alloc: Global, matches: &ArgMatches<'_>) -> Result<String, AllocError> {
    match first_bad(alloc, matches)? {
        Some(bad) => format!(in alloc;
            "invalid value '{}' for '{}': {}",
            bad.value, bad.option, bad.takes
        ),
        None => String::from_str(alloc, "a value is missing"),
    }
}

/// The command with a name, as usage writes it.
fn command_named<'a>(alloc: Global, name: &str) -> Result<Command<'a>, AllocError> {
    match name {
        "route" => route_command(alloc)?.bin_name("acpiroute route"),
        "why" => why_command(alloc)?.bin_name("acpiroute why"),
        "names" => names_command(alloc)?.bin_name("acpiroute names"),
        _ => eval_command(alloc)?.bin_name("acpiroute eval"),
    }
}

/// The text for a value that is none of its option's.
pub(crate) fn bad_value(alloc: Global, matches: &ArgMatches<'_>) -> Result<Error, AllocError>
    ensures { IfOk result (λ e. kind_of e ≡ ErrorKind.ValueValidation) }
{
    let (name, inner) = matches.subcommand().unwrap_or(("", matches));
    let message = message(alloc, inner)?;
    let mut command = command_named(alloc, name)?;
    command.error(ErrorKind::ValueValidation, &message)
}
