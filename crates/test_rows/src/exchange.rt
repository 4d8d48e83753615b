//! Questions that are read word for word, and answers that are written word for word.

ghost use Rattle.std.specs.Prelude.{◌≤◌};

use crate::bytes::{bytes_of, hexadecimal, quoted};
use crate::question::{Question, difference};
use std::alloc::{AllocError, Global};

/// A question that is read word for word, and the answer that is written to it word for word.
///
/// What goes wrong is kept, and told at the end. A word that is missing, or isn't what is wanted in its place, stands
/// for nothing, and the answer is `no question`; so it is where words are left.
#[derive(Drop)]
pub struct Exchange<'a> {
    alloc: Global,
    rest: &'a str,
    answer: String,
    is_understood: bool,
    is_refused: bool,
    is_out_of_memory: bool,
}

impl<'a> Exchange<'a> {
    /// A question of which nothing has been read, and no answer.
    pub fn new(alloc: Global, asked: &'a str) -> Exchange<'a> {
        Exchange {
            alloc,
            rest: asked,
            answer: String::new(alloc),
            is_understood: true,
            is_refused: false,
            is_out_of_memory: false,
        }
    }

    /// What allocates.
    pub fn alloc(&self) -> Global {
        self.alloc
    }

    /// Whether all that was read so far was understood, and nothing refused.
    pub fn is_well(&self) -> bool {
        self.is_understood && !self.is_refused && !self.is_out_of_memory
    }

    /// The question isn't understood.
    pub fn misunderstand(&mut self) {
        self.is_understood = false;
    }

    /// There was no memory for something.
    pub fn run_out(&mut self) {
        self.is_out_of_memory = true;
    }

    /// What stands before a mark, which is passed over: all that is left where there is none.
    pub fn until(&mut self, mark: &str) -> &'a str {
        let (front, rest) = self.rest.split_once(mark).unwrap_or((self.rest, ""));
        self.rest = rest;
        front
    }

    /// The next word. A colon at its end is passed over.
    pub fn word(&mut self) -> &'a str {
        let word = self.until(" ");
        word.strip_suffix(':').unwrap_or(word)
    }

    /// Passes over these words if they come next, and says whether they do.
    pub fn takes(&mut self, words: &str) -> bool {
        match self.rest.strip_prefix(words) {
            Some(rest) => {
                self.rest = rest;
                true
            }
            None => false,
        }
    }

    /// All that is left.
    pub fn rest(&mut self) -> &'a str {
        let rest = self.rest;
        self.rest = "";
        rest
    }

    /// The number that a text writes in digits of this radix, at most so much.
    pub fn digits(&mut self, text: &str, radix: u32, limit: u64) -> u64
        requires least { 2 ≤ radix }
        requires most { radix ≤ 36 }
        ensures { result ≤ limit }
    {
        match u64::from_str_radix(text, radix) {
            Ok(number) if number <= limit => number,
            _ => {
                self.is_understood = false;
                0
            }
        }
    }

    /// The next word as a number in decimal digits, at most so much.
    pub fn number(&mut self, limit: u64) -> u64
        ensures { result ≤ limit }
    {
        let word = self.word();
        self.digits(word, 10, limit)
    }

    /// The next word as a number in hexadecimal digits, at most so much.
    pub fn hexadecimal(&mut self, limit: u64) -> u64
        ensures { result ≤ limit }
    {
        let word = self.word();
        self.digits(word, 16, limit)
    }

    /// The bytes that a text writes.
    pub fn bytes_of(&mut self, text: &str) -> Vec<u8> {
        match bytes_of(self.alloc, text) {
            Ok(bytes) => bytes,
            Err(_) => {
                self.is_out_of_memory = true;
                Vec::new(self.alloc)
            }
        }
    }

    /// All that is left, as bytes.
    pub fn bytes(&mut self) -> Vec<u8> {
        let rest = self.rest();
        self.bytes_of(rest)
    }

    /// What a name stands for, and `other` where it is none of these names.
    pub fn one_of<T: Copy>(&mut self, names: &[(&str, T)], name: &str, other: T) -> T {
        for (known, named) in names {
            if *known == name {
                return *named;
            }
        }
        self.is_understood = false;
        other
    }

    /// Answers a text right behind what was answered.
    pub fn push(&mut self, text: &str) {
        if self.is_refused {
            return;
        }
        if self.answer.push_str(text).is_err() {
            self.is_out_of_memory = true;
        }
    }

    /// Puts a mark behind what was answered, if anything was.
    pub fn separate(&mut self, mark: &str) {
        if !self.answer.is_empty() {
            self.push(mark);
        }
    }

    /// Answers words, with a blank before them where others were answered.
    pub fn say(&mut self, words: &str) {
        self.separate(" ");
        self.push(words);
    }

    /// Answers a text that had to be made, right behind what was answered.
    pub fn push_text(&mut self, text: Result<String, AllocError>) {
        match text {
            Ok(text) => self.push(text.as_str()),
            Err(_) => self.is_out_of_memory = true,
        }
    }

    /// Answers a text that had to be made, with a blank before it where others were answered.
    pub fn say_text(&mut self, text: Result<String, AllocError>) {
        self.separate(" ");
        self.push_text(text);
    }

    /// Answers a number in decimal digits.
    pub fn say_number(&mut self, number: u64) {
        let digits = format!(in self.alloc; "{number}");
        self.say_text(digits);
    }

    /// Answers a number in hexadecimal digits.
    pub fn say_hexadecimal(&mut self, number: u64) {
        let digits = format!(in self.alloc; "{number:X}");
        self.say_text(digits);
    }

    /// Answers bytes, two hexadecimal digits a byte.
    pub fn say_bytes(&mut self, bytes: &[u8]) {
        let digits = hexadecimal(self.alloc, bytes);
        self.say_text(digits);
    }

    /// Answers bytes as text between quotation marks, and in hexadecimal digits what can't be read.
    pub fn say_quoted(&mut self, bytes: &[u8]) {
        let text = quoted(self.alloc, bytes);
        self.say_text(text);
    }

    /// Answers `yes` or `no`.
    pub fn say_whether(&mut self, holds: bool) {
        self.say(if holds { "yes" } else { "no" });
    }

    /// Answers a refusal's number in place of what was answered.
    fn say_refused(&mut self, number: u8) {
        self.answer.clear();
        self.say("refused");
        self.say_number(u64::from(number));
    }

    /// Answers that a call refuses, by the refusal's number, in place of all that was or will be answered.
    pub fn refuse(&mut self, number: u8) {
        if !self.is_refused {
            self.say_refused(number);
            self.is_refused = true;
        }
    }

    /// The same of a refusal that names a place: `refused 13 at 7`.
    pub fn refuse_at(&mut self, number: u8, place: &str, at: u64) {
        if !self.is_refused {
            self.say_refused(number);
            self.say(place);
            self.say_number(at);
            self.is_refused = true;
        }
    }

    /// What was answered in place of what is wanted, if that is something else. A question that only does something,
    /// and answers nothing, is answered by `done`.
    pub fn difference(&self, question: &Question) -> Result<Option<String>, AllocError> {
        if self.is_out_of_memory {
            return Err(AllocError);
        }
        let answered = if !self.is_understood || !self.rest.is_empty() {
            "no question"
        } else if self.answer.is_empty() {
            "done"
        } else {
            self.answer.as_str()
        };
        difference(self.alloc, question, answered)
    }
}
