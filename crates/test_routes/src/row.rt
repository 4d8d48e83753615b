//! A row: a claim, a report and a text, which its questions change in their order.
use crate::claims::empty_claim;
use crate::questions::answer;
use crate::reports::empty_report;
use route_check::Claim;
use route_report::Report;
use std::alloc::Global;
use std::rt::Files;
use std::{fs, io};
use test_rows::{Exchange, Question, Subject};

/// What the questions of a row are put to.
#[derive(Drop)]
pub struct RouteRow {
    /// What is checked; its links and its wired interrupts are what is solved.
    pub claim: Claim,
    /// What is printed.
    pub report: Report,
    /// What is read.
    pub text: Vec<u8>,
}

impl RouteRow {
    /// Puts a question, and gives what is answered in place of what is wanted.
    fn put(&mut self, alloc: Global, line: &str) -> io::Result<Option<String>> {
        let question = Question::new(line);
        let mut asked = Exchange::new(alloc, question.asked);
        answer(self, &mut asked);
        Ok(asked.difference(&question)?)
    }

    /// Puts the bytes of a file behind the text.
    fn put_file<R: Files + AllocGlobal>(&mut self, rt: &R, file: &str) -> io::Result<()> {
        let bytes = fs::read(rt, file)?;
        Ok(self.text.extend_from_slice(bytes.as_slice())?)
    }
}

impl Subject for RouteRow {
    fn new<R: AllocGlobal>(rt: &R) -> io::Result<RouteRow> {
        let alloc = rt.alloc();
        Ok(RouteRow {
            claim: empty_claim(alloc),
            report: empty_report(alloc),
            text: Vec::new(alloc),
        })
    }

    fn take<R: Files + AllocGlobal>(&mut self, rt: &R, line: &str) -> io::Result<Option<String>> {
        match line.strip_prefix("file ") {
            Some(file) => {
                self.put_file(rt, file)?;
                Ok(None)
            }
            None => self.put(rt.alloc(), line),
        }
    }

    fn end<R: Files + AllocGlobal>(&mut self, _rt: &R) -> io::Result<Option<String>> {
        Ok(None)
    }
}
