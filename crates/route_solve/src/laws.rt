//! What holds of all answers: each law is the contract of a function that does nothing.
ghost use Rattle.std.specs.Prelude.{◌≡◌, ℕ, List};
ghost use Rattle.route_model.specs.Routing.{IsFirstLeast};
ghost use Rattle.route_solve.specs.Shown.{Shown};

/// There is one first least assignment.
pub fn the_first_least_assignment_is_one()
    ensures { (offers : List (List ℕ)) (wired : List (ℕ × ℕ)) (a b : List ℕ) → IsFirstLeast offers wired a →
        IsFirstLeast offers wired b → a ≡ b }
{}

/// There is one set that is shown for a busiest interrupt.
pub fn the_set_is_one()
    ensures { (offers : List (List ℕ)) (wired : List (ℕ × ℕ)) (k : ℕ) (s t u v : List ℕ) → Shown offers wired k s t →
        Shown offers wired k u v → (s ≡ u) × (t ≡ v) }
{}
