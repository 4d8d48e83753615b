//! The parts of the program that need no machine: the command line, the whole input, `check`, and writing out an
//! answer or the one line of a refusal. `acpiroute_lib` is built on it.
#![tactic(auto)]

mod answer;
mod arguments;
mod bad_values;
mod check_command;
mod command_line;
mod completion;
mod delivery;
mod error_line;
mod help_texts;
mod input;
mod interrupts;
pub mod laws;
mod options;
mod passed_lines;
mod put;
mod refusal_text;
mod request;
mod streams;
mod values;
mod why_words;

pub use answer::Answer;
pub use arguments::{Argument, ArgumentBytes, Arguments};
pub use check_command::check_answer;
pub use command_line::parse;
pub use completion::Completion;
pub use delivery::{deliver, deliver_outcome};
pub use error_line::write_error_line;
pub use input::{Stop, read_input};
pub use interrupts::Interrupts;
pub use passed_lines::put_passed_lines;
pub use put::{put_hexadecimal, put_number, put_path};
pub use refusal_text::refusal_words;
pub use request::{Asked, Asking, Evaluation, Flags, Question, Request};
pub use streams::{Failed, Growing, Outside, Sink, Source};
