//! The words of a line, parted by single blanks.
ghost use Rattle.std.specs.Prelude.{◌≡◌, ◌==◌, [], ◌∷◌, IfSome, IfNone, option_map, length};
ghost use Rattle.text_words.specs.Words.{words, words_left};

use crate::cuts::cut;
use std::marker::Model;

/// The words that are left of a line; contracts see them as the list of their bytes. `Words::of(b"give it")` yields
/// `give` and `it`. Two blanks in a row have an empty word between them, and a line without a byte is one empty word.
#[derive(Drop)]
pub struct Words<'a> {
    rest: Option<&'a [u8]>,
}

impl<'a> Model for Words<'a> {
    ghost use Rattle.std.specs.Prelude.{ℕ, List, option_map};
    ghost use Rattle.text_words.specs.Words.{words_left};

    ghost Value = { List (List ℕ) };

    ghost view = { λ s. words_left (option_map (λ t. t.now) s.rest) };
}

impl<'a> Words<'a> {
    /// All words of a line: `Words::of(b"give it")`.
    pub fn of(line: &'a [u8]) -> Words<'a>
        ensures { result ≡ words line.now }
    {
        Words { rest: Some(line) }
    }

    /// The words behind the first one, of what `cut` gave with that: `Words::new(cut(b"give it").1)` yields `it`.
    pub fn new(rest: Option<&'a [u8]>) -> Words<'a>
        ensures { result ≡ words_left (option_map (λ t. t.now) rest.entry) }
    {
        Words { rest }
    }

    /// The next word, which is then no longer among those that are left; `None` where none is left:
    /// `while let Some(word) = words.take()`.
    #[tactic(auto, using(crate::proofs::Pieces::words_cut))]
    pub fn take(&mut self) -> Option<&'a [u8]>
        ensures some { IfSome result (λ w. self.old ≡ w.now ∷ self.new) }
        ensures none { IfNone result (self.old ≡ []) }
        ensures spent { IfNone result (self.new ≡ []) }
    {
        let rest = self.rest?;
        let (word, tail) = cut(rest);
        self.rest = tail;
        Some(word)
    }

    /// Whether no word is left: `Words::new(None).is_ended()` is true.
    #[tactic(auto, using(crate::proofs::Pieces::not_ended))]
    pub fn is_ended(&self) -> bool
        ensures { result ≡ (length self.now == 0) }
    {
        self.rest.is_none()
    }
}
