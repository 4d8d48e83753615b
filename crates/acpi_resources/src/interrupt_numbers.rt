//! A set of interrupts, by their numbers.
ghost use Rattle.std.specs.Prelude.{◌≡◌, IfOk};
ghost use Rattle.std.specs.List.Sorted.{IsStrictlyIncreasing};

use std::alloc::{AllocError, Global};
use std::collections::BTreeSet;
use std::marker::Model;

/// A set of interrupts: their numbers, ascending, each once.
#[derive(Drop, Debug)]
pub struct InterruptNumbers {
    items: Vec<u32>,
}

impl Model for InterruptNumbers {
    ghost use Rattle.std.specs.Prelude.{List, ℕ};
    ghost use Rattle.std.specs.List.Sorted.{IsStrictlyIncreasing};

    ghost Value = { List ℕ };

    ghost view = { λ s. s.items.items };

    ghost invariant = { λ s. IsStrictlyIncreasing s.items.items };
}

impl InterruptNumbers {
    /// Numbers that ascend, each once. It takes no memory.
    pub fn from_vec(items: Vec<u32>) -> InterruptNumbers
        requires { IsStrictlyIncreasing items.items }
        ensures { result ≡ items.items }
    {
        InterruptNumbers { items }
    }

    /// The numbers of a set.
    pub(crate) fn from_set(
        alloc: Global,
        numbers: BTreeSet<u32>,
    ) -> Result<InterruptNumbers, AllocError>
        ensures value { IfOk result (λ s. s ≡ numbers.keys) }
        ensures ascending { IfOk result IsStrictlyIncreasing }
    {
        Ok(InterruptNumbers::from_vec(numbers.into_iter().collect(alloc)?))
    }

    /// The numbers, ascending.
    pub fn as_slice(&self) -> &[u32]
        ensures value { result.now ≡ self.now }
        ensures ascending { IsStrictlyIncreasing self.now }
    {
        &self.items
    }

    /// The numbers, ascending, in a `Vec` of their own. It takes no memory.
    pub fn into_vec(self) -> Vec<u32>
        ensures value { result.items ≡ self }
        ensures ascending { IsStrictlyIncreasing self }
    {
        let InterruptNumbers { items } = self;
        items
    }
}
