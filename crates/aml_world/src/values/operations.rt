//! Operators over the values of a world (ACPI 6.5, 19.6).
ghost use Rattle.std.specs.Prelude.{◌≡◌, option_map};
ghost use Rattle.ar_space.specs.Change.{Does, DoesInPlace};
ghost use Rattle.ar_space.specs.Outcome.{AnswersInPlace, NotMemory, seen};
ghost use Rattle.aml_convert.specs.Formed.{formed_content};
ghost use Rattle.aml_objects.specs.Contents as held;
ghost use Rattle.aml_world.specs.state.State.{on_objects};
ghost use Rattle.aml_world.specs.values.Operations.{operated, divided_in, operated_on_one};
ghost use Rattle.aml_world.specs.values.Operations.{integer_operated, operated_logically, lnot_in, compared_in};
ghost use Rattle.aml_world.specs.values.Operations.{truth_of};
ghost use Rattle.aml_world.specs.values.Operations.{joined_contents, joined, made_of, joined_items, joined_resources};
ghost use Rattle.aml_world.specs.values.Operations.{to_integer_in, buffer_bytes, new_buffer_of, to_buffer_in, size_in};
ghost use Rattle.aml_world.specs.values.Operations.{size_of_referent, size_of_value, size_of_object, as_integer, below};
ghost use Rattle.aml_world.specs.values.Operations.{size_held, element_indexed, byte_indexed, indexed};
ghost use Rattle.aml_world.specs.values.Operations.{result_of_two, result_of_one, result_of_test, counted_by};

use crate::state::world_state::WorldState;
use crate::values::object_type::Referent;
use crate::values::operation_kind::{Count, OneOperand, Test, TwoOperands};
use aml_convert::{
    BinaryOperator, Comparison, Division, Formed, LogicalOperator, UnaryOperator, compare, concat,
    concat_resources, divide, explicit_integer, holds, operate_on_one, to_buffer, truth,
};
use aml_objects::{Object, Octets, Reference, Value};
use ar_space::{EvaluationFault, Refusal, Result, ValueFault};

impl<S> WorldState<S> {
    /// What an operator gives of two values. Both are converted first, from left to right, and refused as that is.
    #[inline(never)]
    #[tactic(auto, using(ar_space::proofs::Changes::changing))]
    pub fn operate_on_two(
        &mut self,
        operator: TwoOperands,
        first: Value,
        second: Value,
    ) -> Result<Value>
        ensures { Does result self.new (result_of_two operator first second) self.old }
    {
        match operator {
            TwoOperands::Integers(operator) => self.operate(operator, first, second),
            TwoOperands::Concatenate => self.join(first, second),
            TwoOperands::ConcatenateResources => self.join_resources(first, second),
            TwoOperands::Index => self.index(first, second),
        }
    }

    /// What an operator gives of a value, converted first and refused as that is.
    #[inline(never)]
    #[tactic(auto, using(ar_space::proofs::Changes::changing))]
    pub fn operate_on_one(&mut self, operator: OneOperand, value: Value) -> Result<Value>
        ensures { Does result self.new (result_of_one operator value) self.old }
    {
        match operator {
            OneOperand::Integer(operator) => self.operate_on_integer(operator, value),
            OneOperand::ToBuffer => self.to_buffer(value),
            OneOperand::ToInteger => self.to_integer(value),
        }
    }

    /// Whether a test holds of two values: True or False. Both are converted to integers first, or, where they are
    /// compared, the second to the type of the first, and refused as that is.
    #[inline(never)]
    #[tactic(auto, using(ar_space::proofs::Changes::changing))]
    pub fn test(&self, test: Test, first: Value, second: Value) -> Result<Value>
        ensures { Does result self.now (result_of_test test first second) self.now }
    {
        match test {
            Test::Logical(operator) => self.operate_logically(operator, first, second),
            Test::Compare(comparison) => self.compare(comparison, first, second),
        }
    }

    /// The quotient and the remainder of two values; a divisor of 0 is refused as `DivideByZero`.
    #[inline(never)]
    #[tactic(auto, using(ar_space::proofs::Changes::changing), unfolding(crate::specs::values::Operations::divided_in))]
    pub fn divide(&self, first: Value, second: Value) -> Result<Division>
        ensures { DoesInPlace result self.now (divided_in first second) self.now }
    {
        let x = self.integer_in(first)?;
        let y = self.integer_in(second)?;
        divide(x, y)
    }

    /// True where a value is 0, converted to an integer first and refused as that is.
    #[tactic(auto, using(crate::proofs::IntegerOperations::operating), unfolding(crate::specs::values::Operations::lnot_in))]
    pub fn lnot(&self, value: Value) -> Result<Value>
        ensures { DoesInPlace result self.now (lnot_in value) self.now }
    {
        let x = self.integer_in(value)?;
        Ok(Value::Integer(self.lnot_integer(x)))
    }

    /// The next integer, or the one before.
    pub fn count(&self, count: Count, number: u64) -> Result<Value>
        ensures { DoesInPlace result self.now (counted_by count number) self.now }
    {
        Ok(Value::Integer(self.count_integer(count, number)))
    }

    /// How many bytes a string or a buffer has, or elements a package. Anything else, a field unit that isn't read
    /// among it, is refused as `WrongType`, and what is uninitialized as `NoValue`.
    #[tactic(auto, unfolding(crate::specs::values::Operations::size_in))]
    pub fn size(&self, referent: Referent) -> Result<Value>
        ensures { DoesInPlace result self.now (size_in referent) self.now }
    {
        match self.size_of(referent) {
            Ok(size) => Ok(Value::Integer(size)),
            Err(refusal) => Err(refusal),
        }
    }

    /// A reference to an element of a package, or to a byte of a string or a buffer. Another source is refused as
    /// `WrongType`, and an index past the end as `IndexLimit`.
    #[tactic(auto, using(ar_space::proofs::Changes::changing))]
    fn index(&self, source: Value, index: Value) -> Result<Value>
        ensures { DoesInPlace result self.now (indexed source index) self.now }
    {
        match source {
            Value::Package(object) => self.index_element(object, index),
            Value::String(object) => self.index_byte(source, object, index),
            Value::Buffer(object) => self.index_byte(source, object, index),
            Value::Uninitialized => Err(Refusal::Value(ValueFault::WrongType)),
            Value::Integer(_) => Err(Refusal::Value(ValueFault::WrongType)),
            Value::Reference(_) => Err(Refusal::Value(ValueFault::WrongType)),
        }
    }

    #[tactic(auto, using(ar_space::proofs::Changes::changing), unfolding(crate::specs::values::Operations::element_indexed))]
    fn index_element(&self, object: u32, index: Value) -> Result<Value>
        ensures { DoesInPlace result self.now (element_indexed object index) self.now }
    {
        let index = self.integer_in(index)?;
        let count = self.size_of_value(Value::Package(object))?;
        below(count, index, Reference::Element(object, index as usize))
    }

    #[tactic(auto, using(ar_space::proofs::Changes::changing), unfolding(crate::specs::values::Operations::byte_indexed))]
    fn index_byte(&self, source: Value, object: u32, index: Value) -> Result<Value>
        ensures { DoesInPlace result self.now (byte_indexed source object index) self.now }
    {
        let index = self.integer_in(index)?;
        let count = self.size_of_value(source)?;
        below(count, index, Reference::Byte(object, index as usize))
    }

    #[tactic(auto, using(crate::proofs::IntegerOperations::operating), unfolding(crate::specs::values::Operations::operated))]
    fn operate(&self, operator: BinaryOperator, first: Value, second: Value) -> Result<Value>
        ensures { DoesInPlace result self.now (operated operator first second) self.now }
    {
        let x = self.integer_in(first)?;
        let y = self.integer_in(second)?;
        let number = self.operate_on_integers(operator, x, y)?;
        Ok(Value::Integer(number))
    }

    #[tactic(auto, using(ar_space::proofs::Changes::changing), unfolding(crate::specs::values::Operations::operated_on_one))]
    fn operate_on_integer(&self, operator: UnaryOperator, value: Value) -> Result<Value>
        ensures { DoesInPlace result self.now (operated_on_one operator value) self.now }
    {
        let x = self.integer_in(value)?;
        self.integer_operated(operator, x)
    }

    #[tactic(auto, unfolding(crate::specs::values::Operations::integer_operated))]
    fn integer_operated(&self, operator: UnaryOperator, x: u64) -> Result<Value>
        ensures { DoesInPlace result self.now (integer_operated operator x) self.now }
    {
        Ok(Value::Integer(operate_on_one(operator, self.width, x)))
    }

    #[tactic(auto, using(crate::proofs::IntegerOperations::operating), unfolding(crate::specs::values::Operations::operated_logically))]
    fn operate_logically(
        &self,
        operator: LogicalOperator,
        first: Value,
        second: Value,
    ) -> Result<Value>
        ensures { DoesInPlace result self.now (operated_logically operator first second) self.now }
    {
        let x = self.integer_in(first)?;
        let y = self.integer_in(second)?;
        Ok(Value::Integer(self.test_integers(Test::Logical(operator), x, y)))
    }

    #[tactic(auto, unfolding(crate::specs::values::Operations::compared_in))]
    fn compare(&self, comparison: Comparison, first: Value, second: Value) -> Result<Value>
        ensures { Does result self.now (compared_in comparison first second) self.now }
    {
        match compare(
            self.alloc,
            self.width,
            self.heap.content(first),
            self.heap.content(second),
        ) {
            Ok(order) => Ok(Value::Integer(truth(self.width, holds(comparison, order)))),
            Err(refusal) => Err(refusal),
        }
    }

    #[tactic(auto, using(ar_space::proofs::Changes::changing), unfolding(crate::specs::values::Operations::joined))]
    fn join(&mut self, first: Value, second: Value) -> Result<Value>
        ensures { Does result self.new (joined first second) self.old }
    {
        let contents = self.joined_contents(first, second)?;
        self.make_formed(contents)
    }

    #[tactic(auto, unfolding(crate::specs::values::Operations::joined_contents))]
    fn joined_contents(&self, first: Value, second: Value) -> Result<Formed>
        ensures { Does (seen formed_content result) self.now (joined_contents first second) self.now }
    {
        concat(
            self.alloc,
            self.width,
            self.heap.content(first),
            self.heap.content(second),
        )
    }

    #[tactic(auto, using(crate::proofs::Lifted::making))]
    pub(crate) fn make_formed(&mut self, contents: Formed) -> Result<Value>
        ensures { Does result self.new (on_objects (made_of (formed_content contents))) self.old }
    {
        match contents {
            Formed::String(bytes) => self.heap.make_string(bytes),
            Formed::Buffer(bytes) => self.heap.make_buffer(bytes),
        }
    }

    #[tactic(auto, using(crate::proofs::Lifted::making), unfolding(crate::specs::values::Operations::joined_resources))]
    fn join_resources(&mut self, first: Value, second: Value) -> Result<Value>
        ensures { Does result self.new (joined_resources first second) self.old }
    {
        let bytes = self.joined_items(first, second)?;
        self.heap.make_buffer(bytes)
    }

    #[tactic(auto, unfolding(crate::specs::values::Operations::joined_items))]
    fn joined_items(&self, first: Value, second: Value) -> Result<Octets>
        ensures { Does result self.now (joined_items first second) self.now }
    {
        concat_resources(
            self.alloc,
            self.heap.content(first),
            self.heap.content(second),
        )
    }

    #[tactic(auto, unfolding(crate::specs::values::Operations::to_integer_in))]
    fn to_integer(&self, value: Value) -> Result<Value>
        ensures { DoesInPlace result self.now (to_integer_in value) self.now }
    {
        integer(explicit_integer(self.width, self.heap.content(value)))
    }

    #[tactic(auto, using(ar_space::proofs::Changes::changing))]
    fn to_buffer(&mut self, value: Value) -> Result<Value>
        ensures { Does result self.new (to_buffer_in value) self.old }
    {
        match value {
            Value::Buffer(object) => Ok(Value::Buffer(object)),
            Value::Uninitialized => self.new_buffer_of(Value::Uninitialized),
            Value::Integer(number) => self.new_buffer_of(Value::Integer(number)),
            Value::String(object) => self.new_buffer_of(Value::String(object)),
            Value::Package(object) => self.new_buffer_of(Value::Package(object)),
            Value::Reference(reference) => self.new_buffer_of(Value::Reference(reference)),
        }
    }

    #[tactic(auto, using(crate::proofs::Lifted::making), unfolding(crate::specs::values::Operations::new_buffer_of))]
    fn new_buffer_of(&mut self, value: Value) -> Result<Value>
        ensures { Does result self.new (new_buffer_of value) self.old }
    {
        let bytes = self.buffer_bytes(value)?;
        self.heap.make_buffer(bytes)
    }

    #[tactic(auto, unfolding(crate::specs::values::Operations::buffer_bytes))]
    fn buffer_bytes(&self, value: Value) -> Result<Octets>
        ensures { Does result self.now (buffer_bytes value) self.now }
    {
        to_buffer(self.alloc, self.width, self.heap.content(value))
    }

    fn size_of(&self, referent: Referent) -> Result<u64>
        ensures answer { result ≡ size_of_referent self.now.objects referent }
        ensures memory { NotMemory result }
    {
        match referent {
            Referent::Value(value) => self.size_of_value(value),
            Referent::Object(_) => Err(Refusal::Value(ValueFault::WrongType)),
            Referent::Field(_) => Err(Refusal::Value(ValueFault::WrongType)),
            Referent::Bytes(count) => Ok(count as u64),
        }
    }

    /// How many bytes or elements a value has.
    #[tactic(auto, unfolding(crate::specs::values::Operations::size_held))]
    pub(crate) fn size_of_value(&self, value: Value) -> Result<u64>
        ensures answer { Does result self.now (size_held value) self.now }
        ensures value { result ≡ size_of_value self.now.objects value }
        ensures memory { NotMemory result }
    {
        match value {
            Value::String(object) => size_of_object(self.heap.object(object)),
            Value::Buffer(object) => size_of_object(self.heap.object(object)),
            Value::Package(object) => size_of_object(self.heap.object(object)),
            Value::Uninitialized => Err(Refusal::Evaluation(EvaluationFault::NoValue)),
            Value::Integer(_) => Err(Refusal::Value(ValueFault::WrongType)),
            Value::Reference(_) => Err(Refusal::Value(ValueFault::WrongType)),
        }
    }
}

/// A reference whose index is below a count; another is refused as `IndexLimit`.
fn below(count: u64, index: u64, reference: Reference) -> Result<Value>
    ensures { AnswersInPlace result (below count index reference) }
{
    if index < count {
        Ok(Value::Reference(reference))
    } else {
        Err(Refusal::Evaluation(EvaluationFault::IndexLimit))
    }
}

pub(crate) fn integer(number: Result<u64>) -> Result<Value>
    ensures answer { result ≡ as_integer number }
    ensures memory { NotMemory number → NotMemory result }
{
    match number {
        Ok(number) => Ok(Value::Integer(number)),
        Err(refusal) => Err(refusal),
    }
}

fn size_of_object(object: Option<&Object>) -> Result<u64>
    ensures answer { result ≡ size_of_object (option_map (λ o. o.now) object.entry) }
    ensures memory { NotMemory result }
{
    match object {
        None => Err(Refusal::Value(ValueFault::WrongType)),
        Some(Object::String(bytes)) => Ok(bytes.as_slice().len() as u64),
        Some(Object::Buffer(bytes)) => Ok(bytes.as_slice().len() as u64),
        Some(Object::Package(elements)) => Ok(elements.as_slice().len() as u64),
    }
}
