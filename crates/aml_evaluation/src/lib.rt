//! The machine: one loop over a stack of frames in memory, in place of functions that call themselves for terms in terms.
//!
//! Begin with `evaluation` (`call_method`, `ask_integer`) and `stack` (`evaluate_list`). The loop is in `stack`: it takes a term's first step
//! (`terms`), or has the frame on top go on with what it waited for (`resuming`). Items of lists are in `lists`, those
//! that the wide profile passes over in `passing`, turns of a While in `turns`; `waiting` is the stack itself.
//!
//! The parameters `run`, `act` and `levels` are as in `aml_frames`, whose `specs/` define what these steps mean.
#![tactic(auto)]

mod evaluation;
mod lists;
mod passing;
mod resuming;
mod stack;
mod terms;
mod turns;
mod waiting;

pub use evaluation::{ask_integer, call_method};
pub use resuming::resume;
pub use stack::{evaluate, evaluate_list};
