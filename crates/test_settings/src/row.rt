//! A row: the lines of a machine text, and the machine once it was asked for.
use crate::answers::answer;
use crate::machine::TracedMachine;
use std::alloc::{AllocError, Global};
use std::io;
use std::rt::Files;
use test_rows::{Exchange, Question, Subject};

/// What a row asks about.
#[derive(Drop)]
pub struct Row {
    /// The lines of the machine text.
    pub text: Vec<u8>,
    /// The machine, once it was asked for.
    pub machine: Option<TracedMachine>,
}

impl Row {
    /// Puts a line, and gives what is answered in place of what is wanted.
    fn put(&mut self, alloc: Global, line: &str) -> Result<Option<String>, AllocError> {
        let question = Question::new(line);
        let mut asked = Exchange::new(alloc, question.asked);
        answer(&mut asked, self);
        asked.difference(&question)
    }
}

impl Subject for Row {
    fn new<R: AllocGlobal>(rt: &R) -> io::Result<Row> {
        Ok(Row {
            text: Vec::new(rt.alloc()),
            machine: None,
        })
    }

    fn take<R: Files + AllocGlobal>(&mut self, rt: &R, line: &str) -> io::Result<Option<String>> {
        Ok(self.put(rt.alloc(), line)?)
    }

    fn end<R: Files + AllocGlobal>(&mut self, _rt: &R) -> io::Result<Option<String>> {
        Ok(None)
    }
}
