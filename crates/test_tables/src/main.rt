//! Reads rows about the tables of a machine: its register space, the machine text that writes it down, the ACPI
//! tables in its memory, and the resource descriptors of its link devices. `data/README.md` says how rows are
//! written.
#![tactic(auto)]

mod answers;
mod descriptors;
mod distinct;
mod faults;
mod machine_lines;
mod questions;
mod registers;
mod row;
mod structures;
mod tables;
mod traces;

use crate::row::Row;
use std::io;
use std::process::ExitCode;
use test_rows::judge_rows;

fn main(rt: HostRuntime) -> io::Result<ExitCode> {
    judge_rows::<Row, _>(&rt)
}
