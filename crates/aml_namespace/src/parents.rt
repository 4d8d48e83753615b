//! Which nodes may have children.
ghost use Rattle.std.specs.Prelude.{◌≡◌, ℕ, true, IsOkUnless};
ghost use Rattle.ar_space.specs.declared.refusal.Refusal.TheVariants.{OutOfMemory};
ghost use Rattle.aml_namespace.specs.Parents.{is_marked};

use ar_space::Result;
use std::alloc::Global;
use std::marker::Model;

/// How many marks there are.
const MARKS: usize = 4096;

/// A mark for each node that has or had a child, at its number modulo how many there are, seen as the list of marks.
///
/// A node that has no mark has no child: so one look tells this of most nodes that never had one.
#[derive(Drop)]
pub(crate) struct Parents {
    marks: Vec<bool>,
}

impl Model for Parents {
    ghost use Rattle.std.specs.Prelude.{◌≡◌, List, Bool, vec_len};

    ghost Value = { List Bool };

    ghost view = { λ p. p.marks.items };

    ghost invariant = { λ p. vec_len p.marks ≡ 4096 };
}

impl Parents {
    /// No mark.
    pub(crate) fn new(alloc: Global) -> Result<Parents>
        ensures memory { IsOkUnless result OutOfMemory }
    {
        let marks = vec![in alloc; false; MARKS]?;
        Ok(Parents { marks })
    }

    /// Whether a node is marked. It takes no memory.
    pub(crate) fn contains(&self, number: u64) -> bool
        ensures { result ≡ is_marked self.now number }
    {
        self.marks[(number % 4096) as usize]
    }

    /// Marks a node. It takes no memory.
    pub(crate) fn insert(&mut self, number: u64)
        ensures here { is_marked self.new number ≡ true }
        ensures others { (n : ℕ) → is_marked self.old n ≡ true → is_marked self.new n ≡ true }
    {
        self.marks[(number % 4096) as usize] = true;
    }
}
