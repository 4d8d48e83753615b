//! Buffer fields that terms declare: where they begin and how many bits they have (ACPI 6.5, 19.6: CreateField and
//! its like).
ghost use Rattle.std.specs.Prelude.{◌≡◌, ◌+◌, ◌*◌, ◌^◌, ◌<◌};
ghost use Rattle.ar_space.specs.Outcome.{AnswersInPlace};
ghost use Rattle.aml_world.specs.fields.BufferFields.{buffer_of, bits_of_step, bits_of_size};

use crate::values::operation_kind::BufferFieldSize;
use aml_objects::Value;
use ar_space::{Refusal, Result, ValueFault};

impl BufferFieldSize {
    /// The bit at which a field with an index begins: CreateBitField counts bits, the others count bytes.
    pub fn first_bit(self, index: u64) -> u128
        ensures bit { result ≡ bits_of_step self * index }
        ensures limit { result < 2 ^ 68 }
    {
        match self {
            BufferFieldSize::Bit => u128::from(index),
            BufferFieldSize::Byte => 8 * u128::from(index),
            BufferFieldSize::Word => 8 * u128::from(index),
            BufferFieldSize::DWord => 8 * u128::from(index),
            BufferFieldSize::QWord => 8 * u128::from(index),
        }
    }

    /// How many bits a field has.
    pub fn bits(self) -> u32
        ensures { result ≡ bits_of_size self }
    {
        match self {
            BufferFieldSize::Bit => 1,
            BufferFieldSize::Byte => 8,
            BufferFieldSize::Word => 16,
            BufferFieldSize::DWord => 32,
            BufferFieldSize::QWord => 64,
        }
    }
}

/// The buffer that a value is; any other value is refused as `WrongType`.
pub fn buffer_of(value: Value) -> Result<u32>
    ensures { AnswersInPlace result (buffer_of value) }
{
    match value {
        Value::Buffer(object) => Ok(object),
        Value::Uninitialized => Err(Refusal::Value(ValueFault::WrongType)),
        Value::Integer(_) => Err(Refusal::Value(ValueFault::WrongType)),
        Value::String(_) => Err(Refusal::Value(ValueFault::WrongType)),
        Value::Package(_) => Err(Refusal::Value(ValueFault::WrongType)),
        Value::Reference(_) => Err(Refusal::Value(ValueFault::WrongType)),
    }
}
