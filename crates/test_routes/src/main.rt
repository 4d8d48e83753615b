//! Judges the rows of `data/`: what `route_check` says of a claim, `route_report` of a report's text, and
//! `route_solve` and `route_spread` of a problem. `data/README.md` says how a row is written.
#![tactic(auto)]

mod answers;
mod claims;
mod earlier_solver;
mod generated;
mod generated_problems;
mod large_problems;
mod option_lines;
mod pins;
mod problems;
mod questions;
mod random;
mod reports;
mod row;
mod sharings;
mod small_problems;
mod texts;
mod words;

use crate::row::RouteRow;
use std::io;
use std::process::ExitCode;
use test_rows::judge_rows;

fn main(rt: HostRuntime) -> io::Result<ExitCode> {
    judge_rows::<RouteRow, _>(&rt)
}
