//! A row: all that its questions have made so far.

use crate::questions::answer;
use aml_fields::Region;
use aml_objects::FieldUnit;
use ar_space::Sparse;
use std::alloc::{AllocError, Global};
use std::io;
use std::rt::Files;
use test_rows::{Exchange, Question, Subject};

/// What the questions of a row share.
#[derive(Drop)]
pub struct Row {
    pub space: Sparse,
    pub region: Option<Region>,
    pub field: Option<FieldUnit>,
    /// The bytes over which bits are copied.
    pub target: Vec<u8>,
}

impl Row {
    /// Puts a question, and gives what is answered in place of what is wanted.
    fn put(&mut self, alloc: Global, line: &str) -> Result<Option<String>, AllocError> {
        let question = Question::new(line);
        let mut asked = Exchange::new(alloc, question.asked);
        answer(self, &mut asked);
        asked.difference(&question)
    }
}

impl Subject for Row {
    fn new<R: AllocGlobal>(rt: &R) -> io::Result<Row> {
        Ok(Row {
            space: Sparse::new(rt.alloc()),
            region: None,
            field: None,
            target: Vec::new(rt.alloc()),
        })
    }

    fn take<R: Files + AllocGlobal>(&mut self, rt: &R, line: &str) -> io::Result<Option<String>> {
        Ok(self.put(rt.alloc(), line)?)
    }

    fn end<R: Files + AllocGlobal>(&mut self, _rt: &R) -> io::Result<Option<String>> {
        Ok(None)
    }
}
