//! The program over any reader and writers: the command line, the whole input, the commands, the one line that tells
//! of a refusal, and the exit status. What of it needs no machine stands in `acpiroute_shell`.
#![tactic(auto)]

mod commands;
mod eval_command;
pub mod laws;
mod link_lines;
mod loading;
mod machine;
mod machine_end;
mod memory;
mod name_lines;
mod names_command;
mod place_words;
mod program;
mod refused_stage;
mod route_command;
mod run_end;
mod value_text;
mod watched_run;
mod why_command;

pub use acpiroute_shell::{
    Argument, ArgumentBytes, Arguments, Asked, Asking, Evaluation, Failed, Flags, Growing,
    Interrupts, Outside, Question, Request, Sink, Source, parse, write_error_line,
};
pub use aml_world::Profile;
pub use eval_command::value_answer;
pub use memory::{Reply, run_over};
pub use program::run;
pub use route_command::{completion_of, report_answer};
pub use value_text::value_line;
