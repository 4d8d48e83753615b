//! Marks at places, which tell of most places that nothing is there.
ghost use Rattle.std.specs.Prelude.{◌≡◌, ℕ, true, OnErr, IsOkUnless};
ghost use Rattle.ar_space.specs.declared.refusal.Refusal.TheVariants.{OutOfMemory};
ghost use Rattle.aml_namespace.specs.Places.{may_be};

use ar_space::Result;
use std::alloc::Global;
use std::marker::Model;

/// The least length of a table that isn't empty.
const LEAST: usize = 64;

/// A table of marks, seen as their list. Where there is none at all, anything may be at any place.
///
/// The places go round, so many share a mark. Once one in eight is marked, the table is to be renewed.
#[derive(Drop)]
pub(crate) struct TakenPlaces {
    /// No mark, or as many as a power of two.
    marks: Vec<bool>,
    /// How many places were marked since the table was last renewed.
    marked: usize,
}

impl Model for TakenPlaces {
    ghost use Rattle.std.specs.Prelude.{List, Bool};

    ghost Value = { List Bool };

    ghost view = { λ m. m.marks.items };
}

impl TakenPlaces {
    /// No mark. It takes no memory.
    pub(crate) fn new(alloc: Global) -> TakenPlaces {
        TakenPlaces {
            marks: Vec::new(alloc),
            marked: 0,
        }
    }

    /// Whether something may be at a place. It takes no memory.
    pub(crate) fn contains(&self, place: usize) -> bool
        ensures { result ≡ may_be self.now place }
    {
        if self.marks.is_empty() {
            return true;
        }
        self.marks[place & (self.marks.len() - 1)]
    }

    /// Marks a place. It takes no memory.
    pub(crate) fn insert(&mut self, place: usize)
        ensures here { may_be self.new place ≡ true }
        ensures others { (p : ℕ) → may_be self.old p ≡ true → may_be self.new p ≡ true }
    {
        if self.marks.is_empty() {
            return;
        }
        let within = place & (self.marks.len() - 1);
        if !self.marks[within] {
            self.marks[within] = true;
            self.marked = self.marked.saturating_add(1);
        }
    }

    /// Whether the table is to be renewed before more is marked.
    pub(crate) fn is_full(&self) -> bool {
        self.marked >= self.marks.len() / 8
    }

    /// Takes all marks away, and makes room for so many. Where there is no memory for them, nothing changes.
    ///
    /// A table most of whose marks were of what is gone keeps its length, so it doesn't grow with all that ever was.
    pub(crate) fn renew(&mut self, count: usize) -> Result<()>
        ensures unchanged { OnErr result (self.new ≡ self.old) }
        ensures memory { IsOkUnless result OutOfMemory }
    {
        let length = self.marks.len();
        let wanted = if count > length / 16 {
            length.saturating_mul(2).max(LEAST)
        } else {
            length
        };
        self.marks.resize(wanted, false)?;
        self.marks.fill(false);
        self.marked = 0;
        Ok(())
    }
}
