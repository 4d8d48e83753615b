//! What holds of all problems and of all machines: each law is the contract of a function that does nothing.
ghost use Rattle.std.specs.Prelude.{◌≡◌, ℕ, Bool, true, false, List, Some, Contains};
ghost use Rattle.ar_space.specs.Accesses.{Accesses};
ghost use Rattle.acpi_machine.specs.MachineStates.{MachineState};
ghost use Rattle.route_solve.specs.Problems.{RoutingProblem, RoutingAnswer};
ghost use Rattle.aml_path.specs.declared.segment.Seg.{Seg};
ghost use Rattle.route_report.specs.Reports.{Now, ReportedAfter, RoutingReport};
ghost use Rattle.acpi_configure.specs.AllAsked.{EachIsAsked};
ghost use Rattle.acpi_configure.specs.Configured.{Solves, IsReport};
ghost use Rattle.acpi_configure.specs.Options.{RunOptions, plain};
ghost use Rattle.acpi_configure.specs.ForKernels.{IsReportFor, IsToldBehind};
ghost use Rattle.acpi_configure.specs.WithOptions.{IsReportWith};

use route_solve::laws::{the_first_least_assignment_is_one, the_set_is_one};

/// A problem has one answer: one first least assignment, and one set that shows why none is less busy.
pub fn a_problem_has_one_answer()
    ensures { (problem : RoutingProblem) (one other : RoutingAnswer) → Solves problem one →
        Solves problem other → one ≡ other }
{
    the_first_least_assignment_is_one();
    the_set_is_one();
}

/// A machine has one report, where these interrupts are avoided, and there is one machine that setting its links
/// leaves.
pub fn a_machine_has_one_report<S>()
    ensures { (accesses : Accesses S) (dry : Bool) (avoid : List ℕ) (before after left : MachineState S)
        (one other : RoutingReport) → IsReport accesses dry avoid before after one →
        IsReport accesses dry avoid before left other → (one ≡ other) × (after ≡ left) }
{
    a_problem_has_one_answer();
}

/// The same of a run with options, where links aren't to share interrupts as little as they can: of several such
/// assignments it isn't said which one is chosen.
pub fn a_machine_has_one_report_with_options<S>()
    ensures { (accesses : Accesses S) (options : RunOptions) (before after left : MachineState S)
        (one other : RoutingReport) → options.spread ≡ false → IsReportFor accesses options before after one →
        IsReportFor accesses options before left other → (one ≡ other) × (after ≡ left) }
{
    a_problem_has_one_answer();
}

/// `configure` reports what `configure_with` does without options.
#[tactic(auto, using(crate::proofs::Plain::told_configured, crate::proofs::Plain::told_without))]
pub fn a_run_without_options_is_configure<S>()
    ensures configured { (accesses : Accesses S) (dry : Bool) (avoid : List ℕ) (before after : MachineState S)
        (report : RoutingReport) → IsReportFor accesses (plain dry avoid) before after report →
        IsReport accesses dry avoid before after report }
    ensures without { (accesses : Accesses S) (dry : Bool) (avoid : List ℕ) (before after : MachineState S)
        (report : RoutingReport) → IsReport accesses dry avoid before after report →
        IsReportFor accesses (plain dry avoid) before after report }
{}

/// Where a kernel wants lines, the report is the one without them, with lines more behind all others, and where it
/// wants none it is that report: nothing else of it, and nothing of its claim, is another one.
#[tactic(auto, using(crate::proofs::Telling::told_behind, crate::proofs::Telling::not_told))]
pub fn lines_for_a_kernel_stand_behind_a_report<S>()
    ensures told { (accesses : Accesses S) (options : RunOptions) (before after : MachineState S)
        (report : RoutingReport) (is : IsReportFor accesses options before after report) → options.kernel ≡ true →
        IsToldBehind accesses is.configured is.plain after report }
    ensures without { (accesses : Accesses S) (options : RunOptions) (before after : MachineState S)
        (report : RoutingReport) → options.kernel ≡ false → IsReportFor accesses options before after report →
        IsReportWith accesses options before after report }
{}

/// Where devices are spared, no link is given an interrupt of a device that was asked: of the `_CRS` of a present
/// device that was read.
#[tactic(auto, using(crate::proofs::NotGiven::not_given))]
pub fn an_interrupt_of_another_device_is_not_given<S>()
    ensures { (accesses : Accesses S) (options : RunOptions) (before after : MachineState S) (report : RoutingReport)
        (is : IsReportWith accesses options before after report) (line : ReportedAfter) (interrupts : List ℕ)
        (give : List Seg × ℕ) →
        options.spare ≡ true → Contains is.found.asked line → line.state ≡ Now (Some interrupts) →
        Contains report.gives give → Contains interrupts give.1 → ⊥ }
{}

/// Where devices are spared, each Device that is no link was asked in path order, once the links were, and nothing
/// else: where it has a `_CRS` and is present, what that gives is spared, and where its `_STA` or `_CRS` is refused, a
/// line of the report says so.
pub fn each_other_device_is_asked<S>()
    ensures { (accesses : Accesses S) (options : RunOptions) (before after : MachineState S) (report : RoutingReport)
        (is : IsReportWith accesses options before after report) → options.spare ≡ true →
        EachIsAsked accesses options before report is.found.asked }
{}
