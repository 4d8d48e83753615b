//! A row: what the program is given, and what it is to come to.
use crate::leavings::Leavings;
use crate::lines::take_line;
use crate::refusals::line_of;
use crate::requests::request_of;
use crate::running::{ran, ran_over_streams};
use crate::streams::Faults;
use crate::values::value_of;
use std::alloc::{AllocError, Global};
use std::io;
use std::rt::Files;
use test_rows::{Question, Subject, difference};

/// Bytes that a run is to leave: just these, or any but none.
#[derive(Drop)]
pub struct Wanted {
    pub bytes: Vec<u8>,
    pub is_any: bool,
}

impl Wanted {
    fn new(alloc: Global) -> Wanted {
        Wanted {
            bytes: Vec::new(alloc),
            is_any: false,
        }
    }

    /// Whether a row says nothing of these bytes.
    fn is_nothing(&self) -> bool {
        self.bytes.is_empty() && !self.is_any
    }

    /// Whether these bytes are what is wanted.
    fn is_met(&self, found: &[u8]) -> bool {
        if self.is_any {
            !found.is_empty()
        } else {
            found == self.bytes.as_slice()
        }
    }
}

/// What a row says.
#[derive(Drop)]
pub struct Row {
    pub words: Vec<String>,
    pub input: Vec<u8>,
    pub faults: Option<Faults>,
    pub status: u8,
    pub is_told: bool,
    pub output: Wanted,
    pub errors: Wanted,
    /// Whether the row says what is left unread.
    pub is_left: bool,
    pub unread: Vec<u8>,
    /// Whether the row asks questions, in place of running the program.
    pub is_asked: bool,
}

impl Row {
    /// The words that the program is given.
    fn texts(&self, alloc: Global) -> Result<Vec<&str>, AllocError> {
        let mut texts: Vec<&str> = Vec::new(alloc);
        for word in self.words.iter() {
            texts.push(word.as_str())?;
        }
        Ok(texts)
    }

    /// What the program leaves.
    fn found(&self, alloc: Global) -> Result<Leavings, AllocError> {
        let words = self.texts(alloc)?;
        let input = self.input.as_slice();
        let is_over_memory = self.faults.is_none() && !self.is_left;
        if is_over_memory {
            return ran(alloc, words.as_slice(), input);
        }
        let faults = self.faults.unwrap_or(Faults::none());
        ran_over_streams(alloc, words.as_slice(), input, faults)
    }

    /// Whether this is left unread that is to be.
    fn is_read_so_far(&self, unread: &[u8]) -> bool {
        !self.is_left || unread == self.unread.as_slice()
    }

    /// Whether a run left what it is to leave.
    fn is_met(&self, found: &Leavings) -> bool {
        found.status == self.status
            && found.is_told == self.is_told
            && self.output.is_met(found.output.as_slice())
            && self.errors.is_met(found.errors.as_slice())
            && self.is_read_so_far(found.unread.as_slice())
    }

    /// What is wrong with a row of questions that also says what a run is to leave.
    fn what_is_mixed(&self, alloc: Global) -> Result<Option<String>, AllocError> {
        let is_bare = self.output.is_nothing() && self.errors.is_nothing() && self.status == 0;
        if is_bare && self.is_told && !self.is_left {
            return Ok(None);
        }
        Ok(Some("questions, and what a run leaves".to_string(alloc)?))
    }

    /// Puts a question, and gives what was answered in place of what is wanted.
    fn asked(&mut self, alloc: Global, line: &str) -> io::Result<Option<String>> {
        self.is_asked = true;
        let question = Question::new(line);
        let answered = answer(alloc, question.asked, self.texts(alloc)?.as_slice())?;
        Ok(difference(alloc, &question, answered.as_str())?)
    }
}

/// What a question comes to, after these words.
fn answer(alloc: Global, asked: &str, words: &[&str]) -> io::Result<String> {
    if let Some(name) = asked.strip_prefix("refusal ") {
        return line_of(alloc, name);
    }
    match asked.strip_prefix("value ") {
        Some(name) => Ok(value_of(alloc, name)?),
        None => Ok(request_of(alloc, words)?),
    }
}

/// Whether a line is a question.
fn is_question(line: &str) -> bool {
    line.starts_with("request = ") || line.starts_with("refusal ") || line.starts_with("value ")
}

impl Subject for Row {
    fn new<R: AllocGlobal>(rt: &R) -> io::Result<Row> {
        let alloc = rt.alloc();
        let mut words = Vec::new(alloc);
        words.push("acpiroute".to_string(alloc)?)?;
        Ok(Row {
            words,
            input: Vec::new(alloc),
            faults: None,
            status: 0,
            is_told: true,
            output: Wanted::new(alloc),
            errors: Wanted::new(alloc),
            is_left: false,
            unread: Vec::new(alloc),
            is_asked: false,
        })
    }

    fn take<R: Files + AllocGlobal>(&mut self, rt: &R, line: &str) -> io::Result<Option<String>> {
        if is_question(line) {
            return self.asked(rt.alloc(), line);
        }
        if take_line(rt, self, line)? {
            return Ok(None);
        }
        Ok(Some(format!(in rt.alloc(); "no line of a row: {line}")?))
    }

    fn end<R: Files + AllocGlobal>(&mut self, rt: &R) -> io::Result<Option<String>> {
        if self.is_asked {
            return Ok(self.what_is_mixed(rt.alloc())?);
        }
        let found = self.found(rt.alloc())?;
        if self.is_met(&found) {
            return Ok(None);
        }
        Ok(Some(found.text(rt.alloc())?))
    }
}
