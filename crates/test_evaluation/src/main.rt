//! Evaluates AML: what tables declare, what names and control methods answer, and which registers they access; and
//! machines that are made from images of their tables.
//!
//! The folder `data/` holds the rows, and `data/README.md` says how they are written.
#![tactic(auto)]

mod answers;
mod evaluation;
mod given;
mod loading;
mod machines;
mod making;
mod naming;
mod objects;
mod questions;
mod reading;
mod setting;
mod shown;
mod telling;

use crate::evaluation::Evaluation;
use std::io;
use std::process::ExitCode;
use test_rows::judge_rows;

fn main(rt: HostRuntime) -> io::Result<ExitCode> {
    judge_rows::<Evaluation, _>(&rt)
}
