//! Rows that are spoilt on purpose: the programs of rows have to tell what differs, and end with status 1. A question
//! of these rows is answered by itself, and a row that asks `late` differs at its end.
#![tactic(auto)]

use std::io;
use std::process::ExitCode;
use std::rt::Files;
use test_rows::{Question, Subject, difference, judge_rows};

/// A subject that answers each question by the question.
#[derive(Drop)]
struct Echo {
    is_late: bool,
}

impl Subject for Echo {
    fn new<R: AllocGlobal>(_rt: &R) -> io::Result<Echo> {
        Ok(Echo { is_late: false })
    }

    fn take<R: Files + AllocGlobal>(&mut self, rt: &R, line: &str) -> io::Result<Option<String>> {
        let question = Question::new(line);
        self.is_late = self.is_late || question.asked == "late";
        Ok(difference(rt.alloc(), &question, question.asked)?)
    }

    fn end<R: Files + AllocGlobal>(&mut self, rt: &R) -> io::Result<Option<String>> {
        if self.is_late {
            return Ok(Some("late at its end".to_string(rt.alloc())?));
        }
        Ok(None)
    }
}

fn main(rt: HostRuntime) -> io::Result<ExitCode> {
    judge_rows::<Echo, _>(&rt)
}
