//! A list of interrupts.
ghost use Rattle.std.specs.Prelude.{◌≡◌, ◌==◌};
ghost use Rattle.std.proofs.Common.{rules};
ghost use Rattle.std.specs.Cmp.Rules.{comparing};
ghost use Rattle.std.specs.Cmp.Lexicographic.{pointwise};

use std::marker::Model;

/// A list of interrupts, in any order.
#[derive(Debug, Drop)]
pub struct Interrupts {
    list: Vec<u32>,
}

impl Model for Interrupts {
    ghost use Rattle.std.specs.Prelude.{List, ℕ};

    ghost Value = { List ℕ };

    ghost view = { λ i. i.list.items };
}

impl Interrupts {
    /// These interrupts. It takes no memory.
    pub fn from_vec(list: Vec<u32>) -> Interrupts
        ensures { result ≡ list.items }
    {
        Interrupts { list }
    }

    /// The interrupts.
    pub fn as_slice(&self) -> &[u32]
        ensures { result.now ≡ self.now }
    {
        &self.list
    }
}

impl PartialEq for Interrupts {
    ghost eq = { pointwise ◌==◌ };

    ghost laws = { Prim.search (comparing, rules) };

    fn eq(&self, other: &Interrupts) -> bool {
        self.as_slice() == other.as_slice()
    }
}

impl Eq for Interrupts {
    ghost laws = { Prim.search (comparing, rules) };
}
