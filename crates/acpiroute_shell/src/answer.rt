//! What a command answers.

use crate::completion::Completion;
use std::marker::Model;

/// The text that a command writes, made whole before the first byte of it goes out, and how it came out.
#[derive(Debug, Drop)]
pub struct Answer {
    /// The text.
    pub text: Vec<u8>,
    /// How it came out.
    pub completion: Completion,
}

impl Model for Answer {
    ghost use Rattle.acpiroute_shell.specs.Written.{Written};

    ghost Value = { Written };

    ghost view = { λ a. record { text = a.text.items; completion = a.completion } };
}
