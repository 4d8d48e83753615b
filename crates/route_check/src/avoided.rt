//! The interrupts that no link of a claim may be given.
ghost use Rattle.std.specs.Prelude.{◌≡◌};
ghost use Rattle.route_model.specs.Avoided.{is_avoided};

use crate::claim::Claim;
use crate::search::has_number;
use crate::steps::numbers_ascend;
use std::marker::Model;

/// The interrupts that are avoided, and whether it is known that these ascend.
#[derive(Drop)]
pub(crate) struct Avoided<'a> {
    interrupts: &'a [u32],
    ascend: bool,
}

impl<'a> Model for Avoided<'a> {
    ghost use Rattle.std.specs.Prelude.{ℕ, List, IsTrue};
    ghost use Rattle.std.specs.Ordering.{nat_cmp};
    ghost use Rattle.route_check.specs.Ascending.{Ascends};

    ghost Value = { List ℕ };

    ghost view = { λ a. a.interrupts.now };

    ghost invariant = { λ a. IsTrue a.ascend → Ascends nat_cmp (λ m. m) a.interrupts.now };
}

impl<'a> Avoided<'a> {
    /// Those of a claim.
    pub(crate) fn by(claim: &'a Claim) -> Avoided<'a>
        ensures { result ≡ claim.now.avoid }
    {
        let interrupts = claim.avoid();
        Avoided {
            interrupts,
            ascend: numbers_ascend(interrupts),
        }
    }

    /// Whether an interrupt is avoided.
    pub(crate) fn has(&self, n: u32) -> bool
        ensures { result ≡ is_avoided self.now n }
    {
        has_number(self.interrupts, self.ascend, n)
    }
}
