//! Routes the interrupts of machines over registers that keep their accesses, and compares what came of setting each
//! link, each access in its order, and the registers afterwards with rows. The rows are in `data/`, whose README says
//! how they are written.
#![tactic(auto)]

mod answers;
mod machine;
mod row;

use crate::row::Row;
use std::io;
use std::process::ExitCode;
use test_rows::judge_rows;

fn main(rt: HostRuntime) -> io::Result<ExitCode> {
    judge_rows::<Row, _>(&rt)
}
