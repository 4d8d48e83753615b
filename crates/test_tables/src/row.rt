//! A row: all that its questions have made so far.

use crate::questions::answer;
use crate::structures::Structure;
use acpi_resources::{InterruptNumbers, Offer};
use ar_space::Sparse;
use ar_tables::{Image, Tables};
use machine_text::{MachineText, OsiTexts};
use space_trace::Traced;
use std::alloc::Global;
use std::rt::Files;
use std::{fs, io};
use test_rows::{Exchange, Question, Subject};

/// What the questions of a row share.
#[derive(Drop)]
pub struct Row {
    /// What the machine text says: it makes the register space anew.
    pub machine: MachineText,
    /// A register space that keeps the list of its accesses.
    pub trace: Traced<Sparse>,
    pub image: Image,
    pub structures: Vec<Structure>,
    pub tables: Option<Tables>,
    /// The machine text.
    pub text: Vec<u8>,
    pub offer: Option<Offer>,
    /// What a link device is set to.
    pub set: Option<InterruptNumbers>,
}

impl Row {
    /// Puts a question, and gives what is answered in place of what is wanted.
    fn put(&mut self, alloc: Global, line: &str) -> io::Result<Option<String>> {
        let question = Question::new(line);
        let mut asked = Exchange::new(alloc, question.asked);
        answer(self, &mut asked);
        Ok(asked.difference(&question)?)
    }

    /// Puts the questions of a text, up to the first that is answered by something else than what is wanted.
    fn put_all(&mut self, alloc: Global, text: &str) -> io::Result<Option<String>> {
        for line in text.split('\n') {
            if line.is_empty() || line.starts_with('#') {
                continue;
            }
            match self.put(alloc, line) {
                Ok(None) => {}
                found => return found,
            }
        }
        Ok(None)
    }

    /// Puts the questions of a file.
    fn put_file<R: Files + AllocGlobal>(
        &mut self,
        rt: &R,
        file: &str,
    ) -> io::Result<Option<String>> {
        let text = fs::read_to_string(rt, file)?;
        self.put_all(rt.alloc(), text.as_str())
    }
}

impl Subject for Row {
    fn new<R: AllocGlobal>(rt: &R) -> io::Result<Row> {
        let alloc = rt.alloc();
        let machine = MachineText {
            rsdp: 0,
            space: Sparse::new(alloc),
            osi: OsiTexts::new(alloc),
        };
        Ok(Row {
            machine,
            trace: Traced::new(Sparse::new(alloc)),
            image: Image::new(alloc),
            structures: Vec::new(alloc),
            tables: None,
            text: Vec::new(alloc),
            offer: None,
            set: None,
        })
    }

    fn take<R: Files + AllocGlobal>(&mut self, rt: &R, line: &str) -> io::Result<Option<String>> {
        match line.strip_prefix("like ") {
            Some(file) => self.put_file(rt, file),
            None => self.put(rt.alloc(), line),
        }
    }

    fn end<R: Files + AllocGlobal>(&mut self, _rt: &R) -> io::Result<Option<String>> {
        Ok(None)
    }
}
