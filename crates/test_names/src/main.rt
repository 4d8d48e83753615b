//! Puts rows of questions to the libraries of names: paths, lists of AML terms, objects, and the namespace.
//!
//! The rows stand in `data/`, whose `README.md` says how they are written.
#![tactic(auto)]

mod agreement;
mod lists;
mod namespace;
mod objects;
mod parts;
mod paths;
mod shown;
mod values;
mod words;

use crate::lists::Lists;
use crate::namespace::Namespace;
use crate::objects::Objects;
use ar_space::Result;
use std::alloc::{AllocError, Global};
use std::io;
use std::process::ExitCode;
use std::rt::Files;
use test_rows::{Exchange, Question, Subject, judge_rows};

/// What the questions of a row are put to: lists of terms, objects, and a namespace. Paths need nothing that lasts.
#[derive(Drop)]
struct Names {
    lists: Lists,
    objects: Objects,
    namespace: Namespace,
}

impl Names {
    /// No names, no terms, no objects, and a namespace of the root alone.
    fn of(alloc: Global) -> Result<Names> {
        Ok(Names {
            lists: Lists::new(alloc),
            objects: Objects::new(alloc),
            namespace: Namespace::new(alloc)?,
        })
    }

    /// Puts a question, and gives what is answered in place of what is wanted.
    fn put(&mut self, alloc: Global, line: &str) -> Result<Option<String>, AllocError> {
        let question = Question::new(line);
        let mut asked = Exchange::new(alloc, question.asked);
        let word = asked.word();
        let is_answered = paths::answer(&mut asked, word)
            || self.lists.answer(&mut asked, word)
            || self.objects.answer(&mut asked, word)
            || self.namespace.answer(&mut asked, word);
        if !is_answered {
            asked.misunderstand();
        }
        asked.difference(&question)
    }
}

impl Subject for Names {
    fn new<R: AllocGlobal>(rt: &R) -> io::Result<Names> {
        match Names::of(rt.alloc()) {
            Ok(names) => Ok(names),
            Err(_) => Err(io::Error::from(io::ErrorKind::OutOfMemory)),
        }
    }

    fn take<R: Files + AllocGlobal>(&mut self, rt: &R, line: &str) -> io::Result<Option<String>> {
        Ok(self.put(rt.alloc(), line)?)
    }

    fn end<R: Files + AllocGlobal>(&mut self, _rt: &R) -> io::Result<Option<String>> {
        Ok(None)
    }
}

fn main(rt: HostRuntime) -> io::Result<ExitCode> {
    judge_rows::<Names, _>(&rt)
}
