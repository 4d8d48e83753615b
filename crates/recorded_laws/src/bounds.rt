//! Runs whose accesses are bounded, and runs over the register space below.
ghost use Rattle.std.specs.Prelude.{◌≡◌, ◌⊎◌, ℕ, List, Some, None};
ghost use Rattle.ar_space.specs.Accesses.{Accesses};
ghost use Rattle.ar_space.specs.Outcome.{Outcome};
ghost use Rattle.route_report.specs.Reports.{RoutingReport};
ghost use Rattle.recorded_route.specs.declared.settings.Settings.{Settings};
ghost use Rattle.recorded_route.specs.Runs.{Description, IsDescribedRun};
ghost use Rattle.watched_space.specs.Metering.{Meter, metered};

/// A run whose accesses are bounded ends with none left, or it is a run without a bound: it comes out with the same
/// report or refusal, and leaves the same space.
#[tactic(auto, using(crate::proofs::Bounding::bounded_run))]
pub fn a_bound_that_is_not_used_up_changes_no_run<S>()
    ensures { (accesses : Accesses S) (settings : Settings) (avoid : List ℕ) (description : Outcome Description)
        (before after : Meter S) (outcome : Outcome RoutingReport) →
        IsDescribedRun (metered accesses) settings avoid description before outcome after
        → (after.left ≡ Some 0) ⊎ IsDescribedRun accesses settings avoid description before.inner outcome after.inner }
{}

/// Where accesses aren't bounded, a run comes out as over the space below, and leaves it so.
#[tactic(auto, using(crate::proofs::Bounding::unbounded_run))]
pub fn a_run_without_a_bound_is_one_over_the_space_below<S>()
    ensures { (accesses : Accesses S) (settings : Settings) (avoid : List ℕ) (description : Outcome Description)
        (before after : S) (outcome : Outcome RoutingReport) →
        IsDescribedRun accesses settings avoid description before outcome after
        → IsDescribedRun (metered accesses) settings avoid description (record { inner = before; left = None }) outcome
        (record { inner = after; left = None }) }
{}
