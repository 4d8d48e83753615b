//! What the words of the command line ask for, as text.
use acpiroute_lib::{
    Argument, Arguments, Asked, Asking, Evaluation, Flags, Interrupts, Profile, Question, Request,
    parse,
};
use aml_world::Nesting;
use ar_space::PathText;
use route_report::Mode;
use std::alloc::{AllocError, Global};

/// The word of a mode.
fn mode_word(mode: Mode) -> &'static str {
    match mode {
        Mode::Apic => "apic",
        Mode::Pic => "pic",
    }
}

/// Bytes in hexadecimal digits, `-` where there is none.
fn digits(alloc: Global, bytes: &[u8]) -> Result<String, AllocError> {
    if bytes.is_empty() {
        return "-".to_string(alloc);
    }
    let mut text = String::new(alloc);
    for byte in bytes {
        let next = format!(in alloc; "{byte:02X}")?;
        text.push_str(next.as_str())?;
    }
    Ok(text)
}

/// An argument behind a blank.
fn argument_text(alloc: Global, argument: &Argument) -> Result<String, AllocError> {
    match argument {
        Argument::Integer(n) => {
            let n = *n;
            format!(in alloc; " {n}")
        }
        Argument::Text(bytes) => {
            let bytes = digits(alloc, bytes.as_slice())?;
            format!(in alloc; " string {bytes}")
        }
        Argument::Bytes(bytes) => {
            let bytes = digits(alloc, bytes.as_slice())?;
            format!(in alloc; " buffer {bytes}")
        }
    }
}

/// Arguments, each behind a blank.
fn arguments_text(alloc: Global, arguments: &Arguments) -> Result<String, AllocError> {
    let mut text = String::new(alloc);
    for argument in arguments.as_slice() {
        let next = argument_text(alloc, argument)?;
        text.push_str(next.as_str())?;
    }
    Ok(text)
}

/// How deep calls and terms may be, as text: nothing where they may be as deep as they ever may.
fn nesting_text(alloc: Global, nesting: Nesting) -> Result<String, AllocError> {
    if nesting == Nesting::deepest() {
        return Ok(String::new(alloc));
    }
    let calls = nesting.calls;
    let levels = nesting.levels;
    format!(in alloc; " calls {calls} levels {levels}")
}

/// How AML is evaluated, as text.
fn evaluation_text(alloc: Global, evaluation: &Evaluation) -> Result<String, AllocError> {
    let steps = evaluation.steps;
    let profile = match evaluation.settings.profile {
        Profile::Core => "",
        Profile::Wide => " wide",
    };
    let nesting = nesting_text(alloc, evaluation.settings.nesting)?;
    match evaluation.accesses {
        None => format!(in alloc; "steps {steps}{profile}{nesting}"),
        Some(accesses) => {
            format!(in alloc; "steps {steps}{profile}{nesting} accesses {accesses}")
        }
    }
}

/// A request of `eval` as text.
fn eval_text(
    alloc: Global,
    mode: Mode,
    evaluation: &Evaluation,
    path: &PathText,
    arguments: &Arguments,
) -> Result<String, AllocError> {
    let mode = mode_word(mode);
    let evaluation = evaluation_text(alloc, evaluation)?;
    let path = path.as_str();
    let arguments = arguments_text(alloc, arguments)?;
    format!(in alloc; "eval mode {mode} {evaluation} path \"{path}\" arguments{arguments}")
}

/// Interrupts that are avoided, each behind a blank, with ` avoid` before them; nothing where there is none.
fn avoid_text(alloc: Global, avoid: &Interrupts) -> Result<String, AllocError> {
    let mut text = String::new(alloc);
    for interrupt in avoid.as_slice() {
        let front = if text.is_empty() { " avoid" } else { "" };
        let next = format!(in alloc; "{front} {interrupt}")?;
        text.push_str(next.as_str())?;
    }
    Ok(text)
}

/// The options of `route` that have no value, each behind a blank, but for `dry`.
fn flags_text(alloc: Global, flags: Flags) -> Result<String, AllocError> {
    let spare = if flags.spare { " spare" } else { "" };
    let spread = if flags.spread { " spread" } else { "" };
    let kernel = if flags.kernel { " kernel" } else { "" };
    format!(in alloc; "{spare}{spread}{kernel}")
}

/// A request of `route` as text.
fn route_text(
    alloc: Global,
    mode: Mode,
    evaluation: &Evaluation,
    avoid: &Interrupts,
    flags: Flags,
) -> Result<String, AllocError> {
    let mode = mode_word(mode);
    let evaluation = evaluation_text(alloc, evaluation)?;
    let dry = if flags.dry { " dry" } else { "" };
    let avoid = avoid_text(alloc, avoid)?;
    let flags = flags_text(alloc, flags)?;
    format!(in alloc; "route mode {mode} {evaluation}{dry}{avoid}{flags}")
}

/// A run of which something is to be told, as text.
fn asking_text(alloc: Global, asking: &Asking) -> Result<String, AllocError> {
    match &asking.question {
        Question::Route { avoid, flags } => {
            route_text(alloc, asking.mode, &asking.evaluation, avoid, *flags)
        }
        Question::Eval { path, arguments } => {
            eval_text(alloc, asking.mode, &asking.evaluation, path, arguments)
        }
    }
}

/// A request as text.
fn request_text(alloc: Global, request: &Request) -> Result<String, AllocError> {
    match request {
        Request::Route {
            mode,
            evaluation,
            avoid,
            flags,
        } => route_text(alloc, *mode, evaluation, avoid, *flags),
        Request::Names { evaluation } => {
            let evaluation = evaluation_text(alloc, evaluation)?;
            format!(in alloc; "names {evaluation}")
        }
        Request::Eval {
            mode,
            evaluation,
            path,
            arguments,
        } => eval_text(alloc, *mode, evaluation, path, arguments),
        Request::Why(asking) => {
            let asking = asking_text(alloc, asking)?;
            format!(in alloc; "why {asking}")
        }
        Request::Registers(asking) => {
            let asking = asking_text(alloc, asking)?;
            format!(in alloc; "why registers {asking}")
        }
        Request::Check => "check".to_string(alloc),
    }
}

/// What words come to, where clap finds no fault in them.
fn asked(alloc: Global, words: &[&str]) -> Option<Asked> {
    parse(alloc, words).ok()
}

/// What words ask for, as text: `fault` where they ask for nothing, `bad avoid` where the text of `--avoid` is no list.
pub fn request_of(alloc: Global, words: &[&str]) -> Result<String, AllocError> {
    match asked(alloc, words) {
        Some(Asked::For(request)) => request_text(alloc, &request),
        Some(Asked::BadAvoid) => "bad avoid".to_string(alloc),
        None => "fault".to_string(alloc),
    }
}
