//! The predefined control method `\_OSI` (ACPI 6.5, 5.7.2).
ghost use Rattle.std.specs.Prelude.{◌≡◌};
ghost use Rattle.ar_space.specs.Change.{DoesInPlace};
ghost use Rattle.ar_space.specs.Outcome.{AnswersInPlace};
ghost use Rattle.aml_objects.specs.Contents.{content_of};
ghost use Rattle.aml_world.specs.state.Osi.{same_text, is_known, osi_answer, osi_answered};

use crate::state::slots::value_at;
use crate::state::world_state::WorldState;
use aml_convert::truth;
use aml_objects::{Content, Octets, Value};
use ar_space::{IntegerWidth, Refusal, Result, ValueFault};

impl<S> WorldState<S> {
    /// What `\_OSI` answers to these arguments: True where the first is a string among the texts that the world
    /// knows, False where it is another string. Anything but a string is refused as `WrongType`. It takes no memory.
    #[tactic(auto, unfolding(crate::specs::state::Osi::osi_answered))]
    pub fn osi(&self, arguments: &[Value]) -> Result<Value>
        ensures { DoesInPlace result self.now (osi_answered arguments.now) self.now }
    {
        let asked = self.heap.content(value_at(arguments, 0));
        answer_of(self.width, &self.osi, asked)
    }
}

fn answer_of(width: IntegerWidth, texts: &[Octets], asked: Content<'_>) -> Result<Value>
    ensures { AnswersInPlace result (osi_answer width texts.now (content_of asked.entry)) }
{
    match asked {
        Content::String(text) => Ok(Value::Integer(truth(width, is_known(texts, text)))),
        Content::Integer(_) => Err(Refusal::Value(ValueFault::WrongType)),
        Content::Buffer(_) => Err(Refusal::Value(ValueFault::WrongType)),
        Content::Other => Err(Refusal::Value(ValueFault::WrongType)),
    }
}

fn is_known(texts: &[Octets], text: &[u8]) -> bool
    ensures { result ≡ is_known texts.now text.now }
{
    texts.iter().any(|known| same_text(known, text))
}

fn same_text(known: &Octets, text: &[u8]) -> bool
    ensures { result ≡ same_text known.now text.now }
{
    known.as_slice().cmp(text).is_eq()
}
