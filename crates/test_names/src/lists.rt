//! Questions about lists of terms, and about how many arguments names take.

use crate::parts;
use crate::shown::show_list;
use aml_path::Path;
use aml_terms::{Arities, Term, parse_list, parse_table};
use std::alloc::Global;
use std::mem;
use test_rows::Exchange;
use test_words::{path, refuse};

/// How many arguments names take, and the terms that were read last.
#[derive(Drop)]
pub struct Lists {
    arities: Arities,
    terms: Vec<Term>,
}

/// The scope that a list is read in: the root where no scope is given.
fn scope(asked: &mut Exchange) -> Path {
    if asked.takes("in ") {
        path(asked)
    } else {
        Path::root(asked.alloc())
    }
}

impl Lists {
    /// No names, and no terms.
    pub fn new(alloc: Global) -> Lists {
        Lists {
            arities: Arities::new(alloc),
            terms: Vec::new(alloc),
        }
    }

    /// Notes how many arguments a name takes.
    fn note(&mut self, asked: &mut Exchange, external: bool) {
        let path = path(asked);
        let count = asked.number(0xFF) as u8;
        if asked.is_well() && self.arities.add(path, count, external).is_err() {
            asked.run_out();
        }
    }

    /// Reads a list of terms.
    fn read(&mut self, asked: &mut Exchange, body: bool) {
        let scope = scope(asked);
        let bytes = asked.bytes();
        match parse_list(asked.alloc(), bytes.as_slice(), &scope, body, &self.arities) {
            Ok(terms) => self.terms = terms,
            Err(refusal) => refuse(asked, refusal),
        }
    }

    /// The terms of a list.
    fn terms(&mut self, asked: &mut Exchange, body: bool) {
        self.read(asked, body);
        show_list(asked, self.terms.as_slice());
    }

    /// How many terms a list has.
    fn count(&mut self, asked: &mut Exchange) {
        let kind = asked.word();
        self.read(asked, kind == "body");
        asked.say_number(self.terms.len() as u64);
    }

    /// Reads a whole table, after which the names that it declares are known.
    fn load(&mut self, asked: &mut Exchange) {
        let bytes = asked.bytes();
        match parse_table(asked.alloc(), bytes.as_slice(), &mut self.arities) {
            Ok(terms) => {
                self.terms = terms;
                asked.say_number(self.terms.len() as u64);
            }
            Err(refusal) => refuse(asked, refusal),
        }
    }

    /// How many arguments a name takes.
    fn arity(&self, asked: &mut Exchange) {
        let path = path(asked);
        match self.arities.arity_at(&path) {
            Some(count) => asked.say_number(u64::from(count)),
            None => asked.say("none"),
        }
    }

    /// Takes all notes out of how many arguments names take, and puts them behind none.
    fn put_behind_none(&mut self, asked: &mut Exchange) {
        let arities = mem::replace(&mut self.arities, Arities::new(asked.alloc()));
        if self.arities.append(arities).is_err() {
            asked.run_out();
        }
    }

    /// Answers a question about lists of terms, and says whether it is one.
    pub fn answer(&mut self, asked: &mut Exchange, word: &str) -> bool {
        match word {
            "takes" => self.note(asked, false),
            "external" => self.note(asked, true),
            "table" => self.terms(asked, false),
            "body" => self.terms(asked, true),
            "count" => self.count(asked),
            "load" => self.load(asked),
            "arity" => self.arity(asked),
            "put-behind-none" => self.put_behind_none(asked),
            _ => return parts::answer(asked, self.terms.as_slice(), word),
        }
        true
    }
}
