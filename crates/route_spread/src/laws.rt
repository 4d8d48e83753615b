//! What holds of all assignments: each law is the contract of a function that does nothing.
ghost use Rattle.std.specs.Prelude.{ℕ, List, Bool};
ghost use Rattle.route_model.specs.Routing.{IsAssignment, IsLeast};
ghost use Rattle.route_spread.specs.Sharing.{IsLeastShared, NotBusier, IsLevelled, HasOffered};

/// Where no link can move to a lower interrupt, with some raised by one, links share as little as they can.
pub fn raised_loads_show_a_least_sharing()
    ensures { (offers : List (List ℕ)) (wired : List (ℕ × ℕ)) (raised : ℕ → Bool) (a : List ℕ) →
        IsLevelled offers wired raised a → IsLeastShared offers wired a }
{}

/// Where links share as little as they can, no assignment has loads that come first when they are sorted from the
/// greatest down.
pub fn a_least_sharing_is_first_by_sorted_loads()
    ensures { (offers : List (List ℕ)) (wired : List (ℕ × ℕ)) (a : List ℕ) → IsLeastShared offers wired a →
        (numbers b : List ℕ) → HasOffered offers numbers → IsAssignment offers b → NotBusier wired numbers a b }
{}

/// Where links share as little as they can, no assignment has a less busy busiest interrupt.
pub fn a_least_sharing_is_least()
    ensures { (offers : List (List ℕ)) (wired : List (ℕ × ℕ)) (a : List ℕ) → IsLeastShared offers wired a →
        IsLeast offers wired a }
{}

/// Where there is an assignment, there is one under which links share as little as they can.
pub fn there_is_a_least_sharing()
    ensures { (offers : List (List ℕ)) (wired : List (ℕ × ℕ)) (a : List ℕ) → IsAssignment offers a →
        (b : List ℕ) × IsLeastShared offers wired b }
{}

/// Where no assignment has loads that come first when they are sorted from the greatest down, links share as little
/// as they can.
pub fn the_first_by_sorted_loads_is_a_least_sharing()
    ensures { (offers : List (List ℕ)) (wired : List (ℕ × ℕ)) (a : List ℕ) → IsAssignment offers a →
        ((numbers b : List ℕ) → HasOffered offers numbers → IsAssignment offers b → NotBusier wired numbers a b) →
        IsLeastShared offers wired a }
{}
