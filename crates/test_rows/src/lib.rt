//! Files of rows: what a library or a program is asked, and what it has to answer.
//!
//! A program that reads rows calls [`judge_rows`] in its `main`. Its folder `data/` holds files `*.rows`, and each is
//! lines:
//!
//! - `row NAME` begins a row, for which a new subject is made;
//! - each further line is put to the row's subject, which says what differs from it, if anything does;
//! - an empty line, and one that begins with `#`, says nothing.
//!
//! Most subjects take questions with their answers: `QUESTION = ANSWER`, or `QUESTION` alone where the answer is
//! `done`.
#![tactic(auto)]

mod bytes;
mod exchange;
mod files;
mod question;

pub use bytes::{bytes_of, hexadecimal};
pub use exchange::Exchange;
pub use files::judge_rows;
pub use question::{Question, difference};
use std::io;
use std::rt::Files;

/// What the lines of a row are put to.
pub trait Subject: Drop {
    /// The subject of a new row.
    fn new<R: AllocGlobal>(rt: &R) -> io::Result<Self>
    where
        Self: Sized;

    /// Takes a line of the row, and gives what it comes to in place of what it says, if that is something else.
    fn take<R: Files + AllocGlobal>(&mut self, rt: &R, line: &str) -> io::Result<Option<String>>;

    /// Ends the row, and gives what it comes to in place of what it says, if that is something else.
    fn end<R: Files + AllocGlobal>(&mut self, rt: &R) -> io::Result<Option<String>>;
}
