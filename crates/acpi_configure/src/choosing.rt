//! Which answer to a problem is chosen.
ghost use Rattle.std.specs.Prelude.{◌≡◌, ◌⊎◌, IfOk, IfErr};
ghost use Rattle.ar_space.specs.declared.refusal.Refusal.TheVariants.{OutOfMemory};
ghost use Rattle.route_model.specs.Bound.{IsLowerBound};
ghost use Rattle.route_model.specs.Links.{offers_of};
ghost use Rattle.route_solve.specs.Fits.{Fits};
ghost use Rattle.acpi_configure.specs.Chosen.{Spreads, IsChosen};
ghost use Rattle.acpi_configure.specs.Configured.{Solves};

use crate::laws::a_problem_has_one_answer;
use ar_space::Result;
use route_solve::{Answer, Problem, solve};
use route_spread::laws::a_least_sharing_is_least;
use route_spread::solve_spread;
use std::alloc::Global;

/// The answer to a problem: an assignment under which links share interrupts as little as they can, where they are to
/// `spread`, and else the first least one.
pub(crate) fn choose(alloc: Global, problem: &Problem, spread: bool) -> Result<Answer>
    requires { Fits problem.now }
    ensures chosen { IfOk result (λ answer. IsChosen spread problem.now answer) }
    ensures bound { IfOk result (λ answer. (answer.busiest ≡ 0) ⊎
        IsLowerBound (offers_of problem.now.links) problem.now.wired answer.busiest answer.links answer.interrupts) }
    ensures memory { IfErr result (λ refusal. refusal ≡ OutOfMemory) }
{
    let first = answer_to(alloc, problem)?;
    match spread {
        true => spread_from(alloc, problem, first),
        false => Ok(first),
    }
}

/// The first least answer to a problem.
#[tactic(auto, using(crate::proofs::Reported::solved))]
pub(crate) fn answer_to(alloc: Global, problem: &Problem) -> Result<Answer>
    requires { Fits problem.now }
    ensures solves { IfOk result (λ answer. Solves problem.now answer) }
    ensures bound { IfOk result (λ answer. (answer.busiest ≡ 0) ⊎
        IsLowerBound (offers_of problem.now.links) problem.now.wired answer.busiest answer.links answer.interrupts) }
    ensures memory { IfErr result (λ refusal. refusal ≡ OutOfMemory) }
{
    Ok(solve(alloc, problem)?)
}

/// The answer from which links are moved until they share interrupts as little as they can.
fn spread_from(alloc: Global, problem: &Problem, first: Answer) -> Result<Answer>
    requires solves { Solves problem.now first }
    requires bound { (first.busiest ≡ 0) ⊎ IsLowerBound (offers_of problem.now.links) problem.now.wired first.busiest
        first.links first.interrupts }
    ensures spreads { IfOk result (λ answer. Spreads problem.now answer) }
    ensures bound { IfOk result (λ answer. (answer.busiest ≡ 0) ⊎
        IsLowerBound (offers_of problem.now.links) problem.now.wired answer.busiest answer.links answer.interrupts) }
    ensures memory { IfErr result (λ refusal. refusal ≡ OutOfMemory) }
{
    a_least_sharing_is_least();
    a_problem_has_one_answer();
    let choice = solve_spread(alloc, problem.links(), problem.wired(), &first.choice)?;
    Ok(Answer { choice, ..first })
}
