//! The words of `why`: the options of `route`, or the question of `eval` behind it.
ghost use Rattle.std.specs.Prelude.{◌≡◌, IfOk, false, codes, None, Some};
ghost use Rattle.clap.specs.Words.{app_of, new_app, rows_of, rule_of, found_of};
ghost use Rattle.clap.specs.declared.builder.command.Command.TheViews.{out-Command as fields_of};
ghost use Rattle.acpiroute_shell.specs.CommandLine.{registers_rule, question_rule, question_path_rule};
ghost use Rattle.acpiroute_shell.specs.CommandLine.{first_why_app, second_why_app, third_why_app};
ghost use Rattle.acpiroute_shell.specs.CommandLine.{fourth_why_app, why_app};
ghost use Rattle.acpiroute_shell.specs.CommandLine.{told_of, why_with, why_evaluated, has_route_options};
ghost use Rattle.acpiroute_shell.specs.CommandLine.{why_asked, why_of};

use crate::command_line::{eval_of, route_of};
use crate::help_texts;
use crate::options::{
    accesses_arg, arguments_arg, avoid_arg, calls_arg, dry_arg, kernel_arg, levels_arg, mode_arg,
    profile_arg, spare_arg, spread_arg, steps_arg,
};
use crate::request::{Asked, Asking, Question, Request};
use crate::values::is_true;
use clap::{Arg, ArgAction, ArgMatches, Command};
use std::alloc::{AllocError, Global};

fn registers_arg<'a>(alloc: Global) -> Arg<'a>
    ensures rule { rule_of result ≡ registers_rule }
    ensures local { result.global ≡ false }
{
    Arg::new(alloc, "registers")
        .long("registers")
        .action(ArgAction::SetTrue)
        .help("Write the lines of the registers that the machine text lacks")
}

fn question_arg<'a>(alloc: Global) -> Arg<'a>
    ensures rule { rule_of result ≡ question_rule }
    ensures local { result.global ≡ false }
{
    Arg::new(alloc, "question")
        .value_name("eval")
        .help("Why eval is refused, in place of route")
}

fn question_path_arg<'a>(alloc: Global) -> Arg<'a>
    ensures rule { rule_of result ≡ question_path_rule }
    ensures local { result.global ≡ false }
{
    Arg::new(alloc, "path")
        .value_name("PATH")
        .help("The path of eval")
}

/// `why`, without its options.
fn bare_why_command<'a>(alloc: Global) -> Command<'a>
    ensures app { app_of result ≡ new_app (codes "why") }
    ensures local { (fields_of result).has_globals ≡ false }
{
    Command::new(alloc, "why")
        .about("Read a machine text from the standard input, and tell why route or eval refuses it")
        .after_help(help_texts::WHY)
}

/// `why`, without the options that change what is chosen or told.
fn first_why_command<'a>(alloc: Global) -> Result<Command<'a>, AllocError>
    ensures app { IfOk result (λ c. app_of c ≡ first_why_app) }
    ensures local { IfOk result (λ c. (fields_of c).has_globals ≡ false) }
{
    bare_why_command(alloc)
        .arg(mode_arg(alloc))?
        .arg(steps_arg(alloc))?
        .arg(dry_arg(alloc))?
        .arg(avoid_arg(alloc))
}

/// `why`, without the options that say how AML is evaluated beyond its steps.
fn second_why_command<'a>(alloc: Global) -> Result<Command<'a>, AllocError>
    ensures app { IfOk result (λ c. app_of c ≡ second_why_app) }
    ensures local { IfOk result (λ c. (fields_of c).has_globals ≡ false) }
{
    first_why_command(alloc)?
        .arg(spare_arg(alloc))?
        .arg(spread_arg(alloc))?
        .arg(kernel_arg(alloc))
}

/// `why`, without the options that say how deep calls and terms may be.
#[inline(never)]
fn third_why_command<'a>(alloc: Global) -> Result<Command<'a>, AllocError>
    ensures app { IfOk result (λ c. app_of c ≡ third_why_app) }
    ensures local { IfOk result (λ c. (fields_of c).has_globals ≡ false) }
{
    second_why_command(alloc)?
        .arg(profile_arg(alloc))?
        .arg(accesses_arg(alloc))
}

/// `why`, with the options of `route` alone.
fn fourth_why_command<'a>(alloc: Global) -> Result<Command<'a>, AllocError>
    ensures app { IfOk result (λ c. app_of c ≡ fourth_why_app) }
    ensures local { IfOk result (λ c. (fields_of c).has_globals ≡ false) }
{
    third_why_command(alloc)?
        .arg(calls_arg(alloc))?
        .arg(levels_arg(alloc))
}

pub(crate) fn why_command<'a>(alloc: Global) -> Result<Command<'a>, AllocError>
    ensures app { IfOk result (λ c. app_of c ≡ why_app) }
    ensures local { IfOk result (λ c. (fields_of c).has_globals ≡ false) }
{
    fourth_why_command(alloc)?
        .arg(registers_arg(alloc))?
        .arg(question_arg(alloc))?
        .arg(question_path_arg(alloc))?
        .arg(arguments_arg(alloc))
}

/// How a run ends, or which registers are missing for it.
fn told_of(registers: bool, asking: Asking) -> Asked
    ensures { result ≡ told_of registers asking }
{
    if registers {
        Asked::For(Request::Registers(asking))
    } else {
        Asked::For(Request::Why(asking))
    }
}

/// What is to be told of the run of `route`, in place of its request.
fn why_with(registers: bool, asked: Asked) -> Asked
    ensures { result ≡ why_with registers asked }
{
    match asked {
        Asked::For(
            Request::Route {
                mode,
                evaluation,
                avoid,
                flags,
            },
        ) => {
            let question = Question::Route { avoid, flags };
            told_of(
                registers,
                Asking {
                    mode,
                    evaluation,
                    question,
                },
            )
        }
        other => other,
    }
}

/// What is to be told of the run of `eval`, in place of its request.
fn why_evaluated(asked: Asked) -> Asked
    ensures { result ≡ why_evaluated asked }
{
    match asked {
        Asked::For(
            Request::Eval {
                mode,
                evaluation,
                path,
                arguments,
            },
        ) => Asked::For(Request::Why(Asking {
            mode,
            evaluation,
            question: Question::Eval { path, arguments },
        })),
        other => other,
    }
}

/// Whether options are given that are of no use where an object is evaluated.
#[tactic(auto, using(crate::proofs::Getters::first_text))]
fn has_route_options(matches: &ArgMatches<'_>) -> bool
    ensures { result ≡ has_route_options (rows_of (found_of matches.now)) }
{
    is_true(matches.get_str("dry"))
        || is_true(matches.get_str("spare"))
        || is_true(matches.get_str("spread"))
        || is_true(matches.get_str("kernel"))
        || is_true(matches.get_str("registers"))
        || matches.get_str("avoid").is_some()
}

/// What is asked where `route` is.
#[tactic(auto, using(crate::proofs::Getters::first_text))]
fn why_routed(alloc: Global, matches: &ArgMatches<'_>) -> Result<Option<Asked>, AllocError>
    ensures { IfOk result (λ r. r ≡ why_asked None (rows_of (found_of matches.now))) }
{
    let registers = is_true(matches.get_str("registers"));
    match route_of(alloc, matches)? {
        Some(asked) => Ok(Some(why_with(registers, asked))),
        None => Ok(None),
    }
}

/// What is asked where this word stands behind `why`.
fn why_question(
    alloc: Global,
    word: &str,
    matches: &ArgMatches<'_>,
) -> Result<Option<Asked>, AllocError>
    ensures { IfOk result (λ r. r ≡ why_asked (Some word.now) (rows_of (found_of matches.now))) }
{
    if word == "eval" && !has_route_options(matches) {
        match eval_of(alloc, matches)? {
            Some(asked) => Ok(Some(why_evaluated(asked))),
            None => Ok(None),
        }
    } else {
        Ok(None)
    }
}

/// What the options of `why` and its words say.
#[tactic(auto, unfolding(crate::specs::CommandLine::why_of), using(crate::proofs::Getters::first_text))]
pub(crate) fn why_of(alloc: Global, matches: &ArgMatches<'_>) -> Result<Option<Asked>, AllocError>
    ensures { IfOk result (λ r. r ≡ why_of (rows_of (found_of matches.now))) }
{
    match matches.get_str("question") {
        None => why_routed(alloc, matches),
        Some(word) => why_question(alloc, word, matches),
    }
}
