//! Whether numbers ascend, and putting them in order.
ghost use Rattle.std.specs.Prelude.{◌↔◌, ℕ, Contains, IsTrue, OnOk};
ghost use Rattle.std.specs.List.Sorted.{IsStrictlyIncreasing};

use std::alloc::AllocError;

/// Whether each number is above the one before it.
pub fn ascends(numbers: &[u32]) -> bool
    ensures { IsTrue result ↔ IsStrictlyIncreasing numbers.now }
{
    for i in 1..numbers.len() {
        if numbers[i] <= numbers[i - 1] {
            return false;
        }
    }
    true
}

/// Puts numbers in ascending order, each of them once.
pub fn put_in_order(numbers: &mut Vec<u32>) -> Result<(), AllocError>
    ensures ascending { OnOk result (IsStrictlyIncreasing numbers.new.items) }
    ensures kept { OnOk result ((n : ℕ) → Contains numbers.old.items n → Contains numbers.new.items n) }
    ensures only { OnOk result ((n : ℕ) → Contains numbers.new.items n → Contains numbers.old.items n) }
{
    if ascends(numbers) {
        return Ok(());
    }
    numbers.sort()?;
    numbers.dedup();
    Ok(())
}
