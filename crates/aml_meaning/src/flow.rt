//! What a term that was evaluated leaves.
ghost use Rattle.std.specs.Prelude.{◌≡◌};
ghost use Rattle.ar_space.specs.Outcome.{AnswersInPlace};
ghost use Rattle.aml_meaning.specs.Tasks.{value_in};
ghost use Rattle.aml_meaning.specs.Tasks.{goes_on};
ghost use Rattle.aml_meaning.specs.StatementTerms.{loop_end};
ghost use Rattle.aml_meaning.specs.Calls.{returned_by};

use aml_objects::Value;
use ar_space::{EvaluationFault, Refusal, Result};

/// What a term that was evaluated leaves: its value, and whether the list that it stands in goes on (ACPI 6.5, 19.6).
#[derive(Clone, Copy, Debug, PartialEq, Eq)]
pub enum Flow {
    /// A value.
    Value(Value),
    /// No value: a statement, or a declaration.
    Next,
    /// The loop around the term ends.
    Break,
    /// The next turn of the loop around the term begins.
    Continue,
    /// The control method ends with a value.
    Return(Value),
}

// Each term that is evaluated answers one.
const _: () = prove!(size_of::<Flow>() == 32);

impl Flow {
    /// The value of a term, where one is wanted; a term without one is refused as `NoValue`.
    pub fn value(self) -> Result<Value>
        ensures { AnswersInPlace result (value_in self) }
    {
        match self {
            Flow::Value(value) => Ok(value),
            Flow::Next => Err(Refusal::Evaluation(EvaluationFault::NoValue)),
            Flow::Break => Err(Refusal::Evaluation(EvaluationFault::NoValue)),
            Flow::Continue => Err(Refusal::Evaluation(EvaluationFault::NoValue)),
            Flow::Return(_) => Err(Refusal::Evaluation(EvaluationFault::NoValue)),
        }
    }

    /// Whether a list goes on after an item.
    pub fn goes_on(self) -> bool
        ensures { result ≡ goes_on self }
    {
        match self {
            Flow::Value(_) => true,
            Flow::Next => true,
            Flow::Break => false,
            Flow::Continue => false,
            Flow::Return(_) => false,
        }
    }

    /// How a loop ends with a turn that leaves this, where it does: after Break, and after Return with its value.
    pub fn loop_end(self) -> Option<Flow>
        ensures { result ≡ loop_end self }
    {
        match self {
            Flow::Break => Some(Flow::Next),
            Flow::Return(value) => Some(Flow::Return(value)),
            Flow::Value(_) => None,
            Flow::Next => None,
            Flow::Continue => None,
        }
    }

    /// What a call leaves whose body leaves this: the value of Return, or none.
    pub fn of_call(self) -> Flow
        ensures { result ≡ returned_by self }
    {
        match self {
            Flow::Return(value) => Flow::Value(value),
            Flow::Value(_) => Flow::Next,
            Flow::Next => Flow::Next,
            Flow::Break => Flow::Next,
            Flow::Continue => Flow::Next,
        }
    }
}
