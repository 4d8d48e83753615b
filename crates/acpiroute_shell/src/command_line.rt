//! The command line: one level of commands, whose values are plain texts for clap and read here.
ghost use Rattle.std.specs.Prelude.{◌≡◌, IfOk, IfErr, Some, map, option_map, false, codes};
ghost use Rattle.clap.specs.Words.{app_of, new_app, rows_of, found_of, subcommand_rows_of, FailsBy};
ghost use Rattle.clap.specs.declared.builder.command.Command.TheViews.{out-Command as fields_of};
ghost use Rattle.acpiroute_shell.specs.CommandLine.{app, bare_app, first_route_app, second_route_app};
ghost use Rattle.acpiroute_shell.specs.CommandLine.{third_route_app, route_app, nesting_by, settings_by};
ghost use Rattle.acpiroute_shell.specs.CommandLine.{first_names_app, names_app, first_eval_app, second_eval_app};
ghost use Rattle.acpiroute_shell.specs.CommandLine.{eval_app, check_app, evaluation_by, evaluation_of, settings_of};
ghost use Rattle.acpiroute_shell.specs.CommandLine.{flags_of, route_with, route_by, route_of, names_of, eval_of};
ghost use Rattle.acpiroute_shell.specs.CommandLine.{eval_with, parsed_command, parsed_subcommand, clap_faults};
ghost use Rattle.acpiroute_shell.specs.CommandLine.{command_of, faults_of, asked_of};

use crate::arguments::Arguments;
use crate::bad_values::bad_value;
use crate::help_texts;
use crate::interrupts::Interrupts;
use crate::options::{
    accesses_arg, arguments_arg, avoid_arg, calls_arg, dry_arg, kernel_arg, levels_arg, mode_arg,
    path_arg, profile_arg, spare_arg, spread_arg, steps_arg,
};
use crate::request::{Asked, Evaluation, Flags, Request};
use crate::values::{
    accesses_named, arguments_named, calls_named, interrupts_named, is_true, levels_named,
    mode_named, profile_named, steps_named,
};
use crate::why_words::{why_command, why_of};
use aml_world::{EvaluationSettings, Nesting, Profile};
use ar_space::PathText;
use clap::{ArgMatches, Command, Error};
use route_report::Mode;
use std::alloc::{AllocError, Global};

/// `route`, without its options.
fn bare_route_command<'a>(alloc: Global) -> Command<'a>
    ensures app { app_of result ≡ new_app (codes "route") }
    ensures local { (fields_of result).has_globals ≡ false }
{
    Command::new(alloc, "route")
        .about(
            "Read a machine text from the standard input, route its interrupts, and write the report",
        )
        .after_help(help_texts::ROUTE)
}

/// `route`, without the options that change what it chooses.
fn first_route_command<'a>(alloc: Global) -> Result<Command<'a>, AllocError>
    ensures app { IfOk result (λ c. app_of c ≡ first_route_app) }
    ensures local { IfOk result (λ c. (fields_of c).has_globals ≡ false) }
{
    bare_route_command(alloc)
        .arg(mode_arg(alloc))?
        .arg(steps_arg(alloc))?
        .arg(dry_arg(alloc))?
        .arg(avoid_arg(alloc))
}

/// `route`, without the options that say how much of AML is evaluated and how many accesses are made.
fn second_route_command<'a>(alloc: Global) -> Result<Command<'a>, AllocError>
    ensures app { IfOk result (λ c. app_of c ≡ second_route_app) }
    ensures local { IfOk result (λ c. (fields_of c).has_globals ≡ false) }
{
    first_route_command(alloc)?
        .arg(spare_arg(alloc))?
        .arg(spread_arg(alloc))?
        .arg(kernel_arg(alloc))
}

/// `route`, without the options that say how deep calls and terms may be.
#[inline(never)]
fn third_route_command<'a>(alloc: Global) -> Result<Command<'a>, AllocError>
    ensures app { IfOk result (λ c. app_of c ≡ third_route_app) }
    ensures local { IfOk result (λ c. (fields_of c).has_globals ≡ false) }
{
    second_route_command(alloc)?
        .arg(profile_arg(alloc))?
        .arg(accesses_arg(alloc))
}

pub(crate) fn route_command<'a>(alloc: Global) -> Result<Command<'a>, AllocError>
    ensures app { IfOk result (λ c. app_of c ≡ route_app) }
    ensures local { IfOk result (λ c. (fields_of c).has_globals ≡ false) }
{
    third_route_command(alloc)?
        .arg(calls_arg(alloc))?
        .arg(levels_arg(alloc))
}

/// `names`, without the options that say how deep calls and terms may be.
fn first_names_command<'a>(alloc: Global) -> Result<Command<'a>, AllocError>
    ensures app { IfOk result (λ c. app_of c ≡ first_names_app) }
    ensures local { IfOk result (λ c. (fields_of c).has_globals ≡ false) }
{
    Command::new(alloc, "names")
        .about("Read a machine text from the standard input, and write the names of its namespace")
        .after_help(help_texts::NAMES)
        .arg(steps_arg(alloc))?
        .arg(profile_arg(alloc))?
        .arg(accesses_arg(alloc))
}

pub(crate) fn names_command<'a>(alloc: Global) -> Result<Command<'a>, AllocError>
    ensures app { IfOk result (λ c. app_of c ≡ names_app) }
    ensures local { IfOk result (λ c. (fields_of c).has_globals ≡ false) }
{
    first_names_command(alloc)?
        .arg(calls_arg(alloc))?
        .arg(levels_arg(alloc))
}

/// `eval`, without its options.
fn bare_eval_command<'a>(alloc: Global) -> Command<'a>
    ensures app { app_of result ≡ new_app (codes "eval") }
    ensures local { (fields_of result).has_globals ≡ false }
{
    Command::new(alloc, "eval")
        .about(
            "Read a machine text from the standard input, evaluate an object of its namespace, and write the value",
        )
        .after_help(help_texts::EVAL)
}

/// `eval`, without its path, its arguments, and the options that say how deep calls and terms may be.
fn first_eval_command<'a>(alloc: Global) -> Result<Command<'a>, AllocError>
    ensures app { IfOk result (λ c. app_of c ≡ first_eval_app) }
    ensures local { IfOk result (λ c. (fields_of c).has_globals ≡ false) }
{
    bare_eval_command(alloc)
        .arg(mode_arg(alloc))?
        .arg(steps_arg(alloc))?
        .arg(profile_arg(alloc))?
        .arg(accesses_arg(alloc))
}

/// `eval`, without its path and its arguments.
fn second_eval_command<'a>(alloc: Global) -> Result<Command<'a>, AllocError>
    ensures app { IfOk result (λ c. app_of c ≡ second_eval_app) }
    ensures local { IfOk result (λ c. (fields_of c).has_globals ≡ false) }
{
    first_eval_command(alloc)?
        .arg(calls_arg(alloc))?
        .arg(levels_arg(alloc))
}

pub(crate) fn eval_command<'a>(alloc: Global) -> Result<Command<'a>, AllocError>
    ensures app { IfOk result (λ c. app_of c ≡ eval_app) }
    ensures local { IfOk result (λ c. (fields_of c).has_globals ≡ false) }
{
    second_eval_command(alloc)?
        .arg(path_arg(alloc))?
        .arg(arguments_arg(alloc))
}

fn check_command<'a>(alloc: Global) -> Command<'a>
    ensures app { app_of result ≡ check_app }
    ensures local { (fields_of result).has_globals ≡ false }
{
    Command::new(alloc, "check")
        .about("Read a report from the standard input, and write whether its claim is valid")
        .after_help(help_texts::CHECK)
}

fn bare_command<'a>(alloc: Global) -> Command<'a>
    ensures app { app_of result ≡ bare_app }
    ensures local { (fields_of result).has_globals ≡ false }
{
    Command::new(alloc, "acpiroute")
        .about("Routes the PCI interrupts of a machine by its ACPI tables")
        .after_help(help_texts::PROGRAM)
        .version(help_texts::VERSION)
        .disable_help_subcommand(true)
        .subcommand_required(true)
}

/// The program's commands and options.
fn command<'a>(alloc: Global) -> Result<Command<'a>, AllocError>
    ensures { IfOk result (λ c. app_of c ≡ app) }
{
    bare_command(alloc)
        .subcommand(route_command(alloc)?)?
        .subcommand(why_command(alloc)?)?
        .subcommand(names_command(alloc)?)?
        .subcommand(eval_command(alloc)?)?
        .subcommand(check_command(alloc))
}

/// The words, taken apart by clap.
fn matches<'a>(alloc: Global, words: &'a [&'a str]) -> Result<ArgMatches<'a>, Error>
    ensures ok { IfOk result (λ m. subcommand_rows_of m ≡ command_of (map (λ s. s.now) words.entry.now)) }
    ensures faults { FailsBy (clap_faults (map (λ s. s.now) words.entry.now)) result }
{
    command(alloc)?.try_get_matches_from(words)
}

/// How deep calls and terms may be, where both are said.
#[tactic(auto, unfolding(crate::specs::CommandLine::nesting_by))]
fn nesting_by(calls: Option<usize>, levels: Option<usize>) -> Option<Nesting>
    ensures { result ≡ nesting_by calls levels }
{
    let calls = calls?;
    let levels = levels?;
    Some(Nesting { calls, levels })
}

/// What AML is evaluated with, where its profile is said, and how deep.
#[tactic(auto, unfolding(crate::specs::CommandLine::settings_by))]
fn settings_by(profile: Option<Profile>, nesting: Option<Nesting>) -> Option<EvaluationSettings>
    ensures { result ≡ settings_by profile nesting }
{
    let profile = profile?;
    let nesting = nesting?;
    Some(EvaluationSettings { profile, nesting })
}

/// How AML is evaluated, where its settings, its steps and a bound of accesses are said.
#[tactic(auto, unfolding(crate::specs::CommandLine::evaluation_by))]
fn evaluation_by(
    settings: Option<EvaluationSettings>,
    steps: Option<u64>,
    accesses: Option<Option<u64>>,
) -> Option<Evaluation>
    ensures { result ≡ evaluation_by settings steps accesses }
{
    let settings = settings?;
    let steps = steps?;
    let accesses = accesses?;
    Some(Evaluation {
        settings,
        steps,
        accesses,
    })
}

/// What the options say that AML is evaluated with.
#[tactic(auto, using(crate::proofs::Getters::first_text))]
fn settings_of(matches: &ArgMatches<'_>) -> Option<EvaluationSettings>
    ensures { result ≡ settings_of (rows_of (found_of matches.now)) }
{
    let profile = profile_named(matches.get_str("profile"));
    let calls = calls_named(matches.get_str("calls"));
    let levels = levels_named(matches.get_str("levels"));
    settings_by(profile, nesting_by(calls, levels))
}

/// How the options say that AML is evaluated.
#[tactic(auto, using(crate::proofs::Getters::first_text))]
fn evaluation_of(matches: &ArgMatches<'_>) -> Option<Evaluation>
    ensures { result ≡ evaluation_of (rows_of (found_of matches.now)) }
{
    let steps = steps_named(matches.get_str("steps"));
    let accesses = accesses_named(matches.get_str("accesses"));
    evaluation_by(settings_of(matches), steps, accesses)
}

/// What the options of `route` say.
#[tactic(auto, unfolding(crate::specs::CommandLine::route_of), using(crate::proofs::Getters::first_text))]
pub(crate) fn route_of(alloc: Global, matches: &ArgMatches<'_>) -> Result<Option<Asked>, AllocError>
    ensures { IfOk result (λ r. r ≡ route_of (rows_of (found_of matches.now))) }
{
    let avoid = interrupts_named(alloc, matches.get_str("avoid"))?;
    let mode = mode_named(matches.get_str("mode"));
    let evaluation = evaluation_of(matches);
    Ok(route_by(mode, evaluation, avoid, flags_of(matches)))
}

/// The options of `route` that have no value.
#[tactic(auto, using(crate::proofs::Getters::first_text))]
fn flags_of(matches: &ArgMatches<'_>) -> Flags
    ensures { result ≡ flags_of (rows_of (found_of matches.now)) }
{
    Flags {
        dry: is_true(matches.get_str("dry")),
        spare: is_true(matches.get_str("spare")),
        spread: is_true(matches.get_str("spread")),
        kernel: is_true(matches.get_str("kernel")),
    }
}

/// A request of `route`, where its mode is said, and how AML is evaluated.
#[tactic(auto, unfolding(crate::specs::CommandLine::route_by))]
fn route_by(
    mode: Option<Mode>,
    evaluation: Option<Evaluation>,
    avoid: Option<Interrupts>,
    flags: Flags,
) -> Option<Asked>
    ensures { result ≡ route_by mode evaluation avoid flags }
{
    let mode = mode?;
    let evaluation = evaluation?;
    Some(route_with(mode, evaluation, avoid, flags))
}

/// What `route` is asked where these interrupts are to be avoided, or that they are no list.
fn route_with(mode: Mode, evaluation: Evaluation, avoid: Option<Interrupts>, flags: Flags) -> Asked
    ensures { result ≡ route_with mode evaluation avoid flags }
{
    match avoid {
        None => Asked::BadAvoid,
        Some(avoid) => Asked::For(Request::Route {
            mode,
            evaluation,
            avoid,
            flags,
        }),
    }
}

/// What the options of `names` say.
#[tactic(auto, unfolding(crate::specs::CommandLine::names_of), using(crate::proofs::Getters::first_text))]
fn names_of(matches: &ArgMatches<'_>) -> Option<Asked>
    ensures { result ≡ names_of (rows_of (found_of matches.now)) }
{
    let evaluation = evaluation_of(matches)?;
    Some(Asked::For(Request::Names { evaluation }))
}

/// The text of a path, of its own.
fn path_named(alloc: Global, text: Option<&str>) -> Result<Option<PathText>, AllocError>
    ensures { IfOk result (λ r. r ≡ option_map (λ s. s.now) text.entry) }
{
    match text {
        None => Ok(None),
        Some(text) => Ok(Some(PathText::new(alloc, String::from_str(alloc, text)?)?)),
    }
}

/// A request of `eval`, where all of it is said.
#[tactic(auto, unfolding(crate::specs::CommandLine::eval_with))]
fn eval_with(
    mode: Option<Mode>,
    evaluation: Option<Evaluation>,
    path: Option<PathText>,
    arguments: Option<Arguments>,
) -> Option<Asked>
    ensures { result ≡ eval_with mode evaluation path arguments }
{
    let mode = mode?;
    let evaluation = evaluation?;
    let path = path?;
    let arguments = arguments?;
    Some(Asked::For(Request::Eval {
        mode,
        evaluation,
        path,
        arguments,
    }))
}

/// What the options of `eval` and its words say.
#[tactic(auto, unfolding(crate::specs::CommandLine::eval_of), using(crate::proofs::Getters::texts))]
pub(crate) fn eval_of(alloc: Global, matches: &ArgMatches<'_>) -> Result<Option<Asked>, AllocError>
    ensures { IfOk result (λ r. r ≡ eval_of (rows_of (found_of matches.now))) }
{
    let path = path_named(alloc, matches.get_str("path"))?;
    let arguments = arguments_named(alloc, matches.get_strs("arguments"))?;
    let mode = mode_named(matches.get_str("mode"));
    let evaluation = evaluation_of(matches);
    Ok(eval_with(mode, evaluation, path, arguments))
}

/// The command of this name, with its options.
#[tactic(auto, unfolding(crate::specs::CommandLine::parsed_command))]
fn parsed_command(
    alloc: Global,
    name: &str,
    matches: &ArgMatches<'_>,
) -> Result<Option<Asked>, AllocError>
    ensures { IfOk result (λ r. r ≡ parsed_command name.now (rows_of (found_of matches.now))) }
{
    if name == "route" {
        route_of(alloc, matches)
    } else if name == "why" {
        why_of(alloc, matches)
    } else if name == "names" {
        Ok(names_of(matches))
    } else if name == "eval" {
        eval_of(alloc, matches)
    } else if name == "check" {
        Ok(Some(Asked::For(Request::Check)))
    } else {
        Ok(None)
    }
}

fn parsed_subcommand(alloc: Global, matches: &ArgMatches<'_>) -> Result<Option<Asked>, AllocError>
    ensures { IfOk result (λ r. r ≡ parsed_subcommand (subcommand_rows_of matches.now)) }
{
    match matches.subcommand() {
        Some((name, inner)) => parsed_command(alloc, name, inner),
        None => Ok(None),
    }
}

/// What the words ask for, `BadAvoid` where the text of `--avoid` is no list of interrupts, or the text for the user:
/// any other fault of the words, a wish for help, or that memory ran out.
pub fn parse<'a>(alloc: Global, words: &'a [&'a str]) -> Result<Asked, Error>
    ensures faults { FailsBy (faults_of (map (λ s. s.now) words.entry.now)) result }
    ensures asked { IfOk result (λ a. asked_of (map (λ s. s.now) words.entry.now) ≡ Some a) }
{
    let matches = matches(alloc, words)?;
    match parsed_subcommand(alloc, &matches)? {
        Some(asked) => Ok(asked),
        None => Err(bad_value(alloc, &matches)?),
    }
}
