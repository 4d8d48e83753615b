//! What holds of all assignments: each law is the contract of a function that does nothing.
ghost use Rattle.std.specs.Prelude.{ℕ, List, ◌≤◌};
ghost use Rattle.route_model.specs.Routing.{busiest, IsAssignment};
ghost use Rattle.route_model.specs.Bound.{IsLowerBound};

/// With a lower bound no assignment is less busy.
pub fn no_assignment_is_below_a_lower_bound()
    ensures { (offers : List (List ℕ)) (wired : List (ℕ × ℕ)) (k : ℕ) (links interrupts : List ℕ) →
        IsLowerBound offers wired k links interrupts → (b : List ℕ) → IsAssignment offers b → k ≤ busiest wired b }
{}
