//! The files of rows that lie where a program runs.
use crate::Subject;
use std::io::Write;
use std::process::ExitCode;
use std::rt::Files;
use std::{fs, io};

/// How many rows came to what they say, and how many to something else.
#[derive(Clone, Copy)]
struct Tally {
    passed: u64,
    failed: u64,
}

/// A row that is being read.
#[derive(Drop)]
struct Open<S> {
    name: String,
    subject: S,
    differs: bool,
}

/// The files of rows, in the order of their names.
fn files<R: Files + AllocGlobal + Clone + Drop>(rt: &R) -> io::Result<Vec<String>> {
    let mut names: Vec<String> = Vec::new(rt.alloc());
    for entry in fs::read_dir(rt, ".")? {
        let entry = entry?;
        if entry.file_name().ends_with(".rows") {
            names.push(entry.file_name().to_string(rt.alloc())?)?;
        }
    }
    names.sort()?;
    Ok(names)
}

/// Prints what a row comes to in place of what it says.
fn tell<R: Print + AllocGlobal>(rt: &R, name: &str, found: &str) -> io::Result<()> {
    println!(rt; "row {name}: {found}")
}

/// Notes what a line came to.
fn note<S: Drop, R: Print + AllocGlobal>(
    rt: &R,
    row: &mut Open<S>,
    found: Option<String>,
) -> io::Result<()> {
    if let Some(found) = found {
        row.differs = true;
        tell(rt, row.name.as_str(), found.as_str())?;
    }
    Ok(())
}

/// Ends a row, if there is one.
fn close<S: Subject, R: Files + Print + AllocGlobal>(
    rt: &R,
    row: Option<Open<S>>,
    tally: &mut Tally,
) -> io::Result<()> {
    let Some(mut row) = row else {
        return Ok(());
    };
    let found = row.subject.end(rt)?;
    note(rt, &mut row, found)?;
    if row.differs {
        tally.failed = tally.failed.saturating_add(1);
    } else {
        tally.passed = tally.passed.saturating_add(1);
    }
    Ok(())
}

/// Puts a line to the row that is being read.
fn put<S: Subject, R: Files + Print + AllocGlobal>(
    rt: &R,
    row: &mut Option<Open<S>>,
    line: &str,
) -> io::Result<()> {
    match row {
        Some(row) => {
            let found = row.subject.take(rt, line)?;
            note(rt, row, found)
        }
        None => Err(io::Error::from(io::ErrorKind::InvalidData)),
    }
}

/// Judges the rows of a file.
fn judge_file<S: Subject, R: Files + Print + AllocGlobal>(
    rt: &R,
    file: &str,
    tally: &mut Tally,
) -> io::Result<()> {
    let text = fs::read_to_string(rt, file)?;
    let mut row: Option<Open<S>> = None;
    for line in text.split('\n') {
        if line.is_empty() || line.starts_with('#') {
            continue;
        }
        if let Some(name) = line.strip_prefix("row ") {
            close(rt, row.take(), tally)?;
            row = Some(Open {
                name: name.to_string(rt.alloc())?,
                subject: S::new(rt)?,
                differs: false,
            });
        } else {
            put(rt, &mut row, line)?;
        }
    }
    close(rt, row, tally)
}

/// Judges all rows of the files `*.rows` that lie where the program runs: prints what each row comes to in place of
/// what it says, and then how many rows came to what they say, and how many not. The status is 1 where one did not.
pub fn judge_rows<S: Subject, R: Files + Print + AllocGlobal + Clone + Drop>(
    rt: &R,
) -> io::Result<ExitCode> {
    let mut tally = Tally {
        passed: 0,
        failed: 0,
    };
    for file in files(rt)?.iter() {
        judge_file::<S, R>(rt, file.as_str(), &mut tally)?;
    }
    println!(rt; "{} rows passed, {} failed", tally.passed, tally.failed)?;
    Ok(ExitCode::from(u8::from(tally.failed != 0)))
}
