//! The program: hands its words, input, output and errors to `acpiroute_lib::run`.
#![tactic(auto)]

use acpiroute_lib::{Outside, run};
use std::alloc::{AllocError, Global};
use std::env::Env;
use std::io::{IsTerminal, Read, Write};
use std::process::ExitCode;
use std::{env, io};

/// What is told on the errors where the program is about to wait for lines of a terminal.
const WAITING: &[u8] =
    b"acpiroute: reading the standard input, which is a terminal; Control-D ends it\n";

/// The standard input, which tells before its first read where it is a terminal.
#[derive(Drop)]
struct Announced<R, E> {
    reader: R,
    errors: E,
    is_told: bool,
}

impl<R: Read + IsTerminal, E: Write> Read for Announced<R, E> {
    ghost remaining = { λ s. R.remaining s.reader };

    fn read(&mut self, buf: &mut [u8]) -> io::Result<usize> {
        if !self.is_told {
            self.is_told = true;
            if self.reader.is_terminal() {
                let _ = self.errors.write_all(WAITING);
            }
        }
        self.reader.read(buf)
    }
}

/// The program's words, its own name first. An error where one is not UTF-8, or memory runs out.
fn words<R: Env + AllocGlobal>(rt: &R) -> io::Result<Vec<String>> {
    Ok(env::args(rt)?.collect(rt.alloc())?)
}

/// The texts of words.
fn texts<'a>(alloc: Global, words: &'a [String]) -> Result<Vec<&'a str>, AllocError> {
    let mut texts = Vec::new(alloc);
    for word in words {
        texts.push(word.as_str())?;
    }
    Ok(texts)
}

/// What is told where there are no words.
fn complaint(error: &io::Error) -> &'static str {
    match error.kind() {
        io::ErrorKind::OutOfMemory => "error: out of memory",
        _ => "error: the words of the command line are not UTF-8",
    }
}

fn main(rt: HostRuntime) -> io::Result<ExitCode> {
    let alloc = rt.alloc();
    let words = match words(&rt) {
        Ok(words) => words,
        Err(error) => {
            let complaint = complaint(&error);
            let _ = eprintln!(rt; "{complaint}");
            return Ok(ExitCode::from(2));
        }
    };
    let Ok(texts) = texts(alloc, words.as_slice()) else {
        let _ = eprintln!(rt; "error: out of memory");
        return Ok(ExitCode::from(2));
    };
    let input = Announced {
        reader: rt.reader(),
        errors: rt.stderr(),
        is_told: false,
    };
    let status = run(
        alloc,
        texts.as_slice(),
        &mut Outside::new(input),
        &mut Outside::new(io::writer(&rt)),
        &mut Outside::new(rt.stderr()),
    );
    Ok(ExitCode::from(status))
}
