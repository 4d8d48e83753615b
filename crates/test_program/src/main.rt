//! Runs the program over the rows of `data/`, and prints each row that comes to something else than it says.
//! `data/README.md` says how a row is written.
#![tactic(auto)]

mod leavings;
mod lines;
mod refusals;
mod requests;
mod row;
mod running;
mod streams;
mod values;

use crate::row::Row;
use std::io;
use std::process::ExitCode;
use test_rows::judge_rows;

fn main(rt: HostRuntime) -> io::Result<ExitCode> {
    judge_rows::<Row, _>(&rt)
}
