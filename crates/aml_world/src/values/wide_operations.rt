//! Terms of the wide profile: whether a world evaluates them, and what they form of values (ACPI 6.5, 19.6).
ghost use Rattle.std.specs.Prelude.{◌≡◌};
ghost use Rattle.ar_space.specs.Change.{Does, DoesInPlace};
ghost use Rattle.ar_space.specs.Outcome.{seen};
ghost use Rattle.aml_convert.specs.Formed.{formed_content};
ghost use Rattle.aml_world.specs.state.Profiles.{asked_for};
ghost use Rattle.aml_world.specs.values.WideOperations.{decoded_in, number_coded, coded_in, decimal_text};
ghost use Rattle.aml_world.specs.values.WideOperations.{new_decimal_string, decimal_string_in, hexadecimal_text};
ghost use Rattle.aml_world.specs.values.WideOperations.{new_hexadecimal_string, hexadecimal_string_in, string_text};
ghost use Rattle.aml_world.specs.values.WideOperations.{string_in, middle_content, middle_in, converted};

use crate::state::profile::Profile;
use crate::state::world_state::WorldState;
use crate::values::operation_kind::Conversion;
use crate::values::operations::integer;
use aml_convert::{
    Formed, code_decimal, decode_decimal, middle, to_decimal_string, to_hexadecimal_string,
    to_string,
};
use aml_grammar::Opcode;
use aml_objects::{Octets, Value};
use ar_space::{EvaluationFault, Refusal, Result};

impl<S> WorldState<S> {
    /// Asks whether a term of the wide profile is evaluated: in a world of the core profile it is refused as
    /// `Unsupported`.
    #[tactic(auto, unfolding(crate::specs::state::Profiles::asked_for, crate::specs::state::Profiles::evaluated_in))]
    pub fn ask_for(&self, opcode: Opcode) -> Result<()>
        ensures { DoesInPlace result self.now (asked_for opcode) self.now }
    {
        match self.profile {
            Profile::Wide => Ok(()),
            Profile::Core => Err(Refusal::Evaluation(EvaluationFault::Unsupported(
                opcode.number(),
            ))),
        }
    }

    /// What an explicit conversion gives of a value; it is refused as that is.
    #[inline(never)]
    #[tactic(auto, using(ar_space::proofs::Changes::changing))]
    pub fn convert(&mut self, conversion: Conversion, value: Value) -> Result<Value>
        ensures { Does result self.new (converted conversion value) self.old }
    {
        match conversion {
            Conversion::DecimalString => self.to_decimal_string(value),
            Conversion::HexadecimalString => self.to_hexadecimal_string(value),
            Conversion::FromDecimal => self.decode_decimal(value),
            Conversion::ToDecimal => self.code_decimal(value),
        }
    }

    /// ToString: a new string of the bytes of a value before the first zero, at most as many as are asked for.
    #[inline(never)]
    #[tactic(auto, using(crate::proofs::Lifted::making), unfolding(crate::specs::values::WideOperations::string_in))]
    pub fn to_string(&mut self, source: Value, count: Value) -> Result<Value>
        ensures { Does result self.new (string_in source count) self.old }
    {
        let text = self.string_text(source, count)?;
        self.heap.make_string(text)
    }

    /// Mid: a part of a value, from a place on, at most as many bytes as are asked for.
    #[inline(never)]
    #[tactic(auto, using(ar_space::proofs::Changes::changing), unfolding(crate::specs::values::WideOperations::middle_in))]
    pub fn middle(&mut self, source: Value, start: Value, count: Value) -> Result<Value>
        ensures { Does result self.new (middle_in source start count) self.old }
    {
        let content = self.middle_content(source, start, count)?;
        self.make_formed(content)
    }

    #[tactic(auto, using(ar_space::proofs::Changes::changing))]
    fn to_decimal_string(&mut self, value: Value) -> Result<Value>
        ensures { Does result self.new (decimal_string_in value) self.old }
    {
        match value {
            Value::String(object) => Ok(Value::String(object)),
            Value::Uninitialized => self.new_decimal_string(Value::Uninitialized),
            Value::Integer(number) => self.new_decimal_string(Value::Integer(number)),
            Value::Buffer(object) => self.new_decimal_string(Value::Buffer(object)),
            Value::Package(object) => self.new_decimal_string(Value::Package(object)),
            Value::Reference(reference) => { self.new_decimal_string(Value::Reference(reference)) }
        }
    }

    #[tactic(auto, using(crate::proofs::Lifted::making), unfolding(crate::specs::values::WideOperations::new_decimal_string))]
    fn new_decimal_string(&mut self, value: Value) -> Result<Value>
        ensures { Does result self.new (new_decimal_string value) self.old }
    {
        let text = self.decimal_text(value)?;
        self.heap.make_string(text)
    }

    #[tactic(auto, unfolding(crate::specs::values::WideOperations::decimal_text))]
    fn decimal_text(&self, value: Value) -> Result<Octets>
        ensures { Does result self.now (decimal_text value) self.now }
    {
        to_decimal_string(self.alloc, self.heap.content(value))
    }

    #[tactic(auto, using(ar_space::proofs::Changes::changing))]
    fn to_hexadecimal_string(&mut self, value: Value) -> Result<Value>
        ensures { Does result self.new (hexadecimal_string_in value) self.old }
    {
        match value {
            Value::String(object) => Ok(Value::String(object)),
            Value::Uninitialized => self.new_hexadecimal_string(Value::Uninitialized),
            Value::Integer(number) => self.new_hexadecimal_string(Value::Integer(number)),
            Value::Buffer(object) => self.new_hexadecimal_string(Value::Buffer(object)),
            Value::Package(object) => self.new_hexadecimal_string(Value::Package(object)),
            Value::Reference(reference) => {
                self.new_hexadecimal_string(Value::Reference(reference))
            }
        }
    }

    #[tactic(auto, using(crate::proofs::Lifted::making), unfolding(crate::specs::values::WideOperations::new_hexadecimal_string))]
    fn new_hexadecimal_string(&mut self, value: Value) -> Result<Value>
        ensures { Does result self.new (new_hexadecimal_string value) self.old }
    {
        let text = self.hexadecimal_text(value)?;
        self.heap.make_string(text)
    }

    #[tactic(auto, unfolding(crate::specs::values::WideOperations::hexadecimal_text))]
    fn hexadecimal_text(&self, value: Value) -> Result<Octets>
        ensures { Does result self.now (hexadecimal_text value) self.now }
    {
        to_hexadecimal_string(self.alloc, self.width, self.heap.content(value))
    }

    #[tactic(auto, using(ar_space::proofs::Changes::changing), unfolding(crate::specs::values::WideOperations::decoded_in))]
    fn decode_decimal(&self, value: Value) -> Result<Value>
        ensures { DoesInPlace result self.now (decoded_in value) self.now }
    {
        let number = self.integer_in(value)?;
        integer(decode_decimal(number))
    }

    #[tactic(auto, using(ar_space::proofs::Changes::changing), unfolding(crate::specs::values::WideOperations::coded_in))]
    fn code_decimal(&self, value: Value) -> Result<Value>
        ensures { DoesInPlace result self.now (coded_in value) self.now }
    {
        let number = self.integer_in(value)?;
        self.number_coded(number)
    }

    #[tactic(auto, unfolding(crate::specs::values::WideOperations::number_coded))]
    fn number_coded(&self, number: u64) -> Result<Value>
        ensures { DoesInPlace result self.now (number_coded number) self.now }
    {
        integer(code_decimal(self.width, number))
    }

    #[tactic(auto, unfolding(crate::specs::values::WideOperations::string_text))]
    fn string_text(&self, source: Value, count: Value) -> Result<Octets>
        ensures { Does result self.now (string_text source count) self.now }
    {
        to_string(
            self.alloc,
            self.width,
            self.heap.content(source),
            self.heap.content(count),
        )
    }

    #[tactic(auto, unfolding(crate::specs::values::WideOperations::middle_content))]
    fn middle_content(&self, source: Value, start: Value, count: Value) -> Result<Formed>
        ensures { Does (seen formed_content result) self.now (middle_content source start count) self.now }
    {
        middle(
            self.alloc,
            self.width,
            self.heap.content(source),
            self.heap.content(start),
            self.heap.content(count),
        )
    }
}
