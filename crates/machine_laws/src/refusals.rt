//! The numbers by which refusals are told.
ghost use Rattle.std.specs.Prelude.{◌≡◌, ℕ};
ghost use Rattle.ar_space.specs.Numbers.{number_of};
ghost use Rattle.ar_space.specs.declared.refusal.Refusal.{Refusal};
ghost use Rattle.machine_laws.specs.RefusalNumbers.{IsNumbered};

/// Each refusal is told by the number that `IsNumbered` writes out for it by hand, and by no other. Two refusals that
/// exchange their numbers are refused by this.
pub fn each_refusal_is_told_by_its_number()
    ensures { (e : Refusal) → IsNumbered e (number_of e) }
{}
