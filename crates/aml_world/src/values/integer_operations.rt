//! Operators where the operands are integers, so that no value is made (ACPI 6.5, 19.6).
ghost use Rattle.std.specs.Prelude.{◌≡◌, Ok};
ghost use Rattle.ar_space.specs.Change.{Does};
ghost use Rattle.ar_space.specs.Outcome.{NotMemory, seen};
ghost use Rattle.aml_objects.specs.declared.value.Value.TheVariants.{Integer};
ghost use Rattle.aml_convert.specs.Operators.{result_of};
ghost use Rattle.aml_convert.specs.declared.operators.BinaryOperator.TheVariants.{Subtract};
ghost use Rattle.aml_world.specs.declared.values.operation_kind.TwoOperands.TheVariants as two;
ghost use Rattle.aml_world.specs.values.Operations.{lnot_in};
ghost use Rattle.aml_world.specs.values.Operations.{result_of_two, result_of_test, counted_by};

use crate::state::world_state::WorldState;
use crate::values::operation_kind::{Count, Test};
use aml_convert::{BinaryOperator, holds, lnot, operate, operate_logically, truncate, truth};
use ar_space::{IntegerWidth, Result};

impl<S> WorldState<S> {
    /// What an operator gives of two integers, as `operate_on_two` has it. Mod by 0 is refused as `DivideByZero`.
    #[inline]
    #[tactic(auto, using(crate::proofs::IntegerOperations::integers))]
    pub fn operate_on_integers(&self, operator: BinaryOperator, x: u64, y: u64) -> Result<u64>
        ensures answer { Does (seen Integer result) self.now (result_of_two (two.Integers operator) (Integer x)
            (Integer y)) self.now }
        ensures memory { NotMemory result }
    {
        operate(operator, self.width, x, y)
    }

    /// Whether a test holds of two integers, as `test` has it: True or False.
    #[inline]
    #[tactic(auto, using(crate::proofs::IntegerOperations::integers))]
    pub fn test_integers(&self, test: Test, x: u64, y: u64) -> u64
        ensures { Does (Ok (Integer result)) self.now (result_of_test test (Integer x) (Integer y)) self.now }
    {
        match test {
            Test::Logical(operator) => operate_logically(operator, self.width, x, y),
            Test::Compare(comparison) => truth(self.width, holds(comparison, x.cmp(&y))),
        }
    }

    /// True where an integer is 0, and else False, as `lnot` has it.
    #[inline]
    #[tactic(auto, using(crate::proofs::IntegerOperations::integers))]
    pub fn lnot_integer(&self, x: u64) -> u64
        ensures { Does (Ok (Integer result)) self.now (lnot_in (Integer x)) self.now }
    {
        lnot(self.width, x)
    }

    /// The next integer, or the one before, as `count` has it.
    #[inline]
    #[tactic(auto, using(crate::proofs::IntegerOperations::integers))]
    pub fn count_integer(&self, count: Count, x: u64) -> u64
        ensures { Does (Ok (Integer result)) self.now (counted_by count x) self.now }
    {
        match count {
            Count::Increment => truncate(self.width, u128::from(x) + 1),
            Count::Decrement => decrement(self.width, x),
        }
    }
}

/// The integer before one; that before 0 has all bits set.
fn decrement(width: IntegerWidth, x: u64) -> u64
    ensures { result_of Subtract width x 1 ≡ Ok result }
{
    match operate(BinaryOperator::Subtract, width, x, 1) {
        Ok(number) => number,
        Err(_) => x,
    }
}
