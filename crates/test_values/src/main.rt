//! Reads rows about the values of AML: conversions and operators on integers, strings and buffers, and the fields of
//! operation regions. `data/README.md` says how rows are written.
#![tactic(auto)]

mod answers;
mod bits;
mod conversions;
mod every_field;
mod fields;
mod operands;
mod operators;
mod places;
mod questions;
mod row;
mod strings;

use crate::row::Row;
use std::io;
use std::process::ExitCode;
use test_rows::judge_rows;

fn main(rt: HostRuntime) -> io::Result<ExitCode> {
    judge_rows::<Row, _>(&rt)
}
