//! Runs in the core profile and in the wide one.
ghost use Rattle.std.specs.Prelude.{◌≡◌, ◌⊎◌, ℕ, List};
ghost use Rattle.ar_space.specs.Accesses.{Accesses};
ghost use Rattle.ar_space.specs.Outcome.{Outcome};
ghost use Rattle.ar_tables.specs.declared.mode.Mode.{Mode};
ghost use Rattle.aml_laws.specs.Widened.{IsLeftOutAt};
ghost use Rattle.acpi_configure.specs.Options.{RunOptions};
ghost use Rattle.route_report.specs.Reports.{RoutingReport};
ghost use Rattle.recorded_route.specs.declared.settings.Settings.{Settings};
ghost use Rattle.recorded_route.specs.Runs.{Description, IsDescribedRun};
ghost use Rattle.acpiroute_shell.specs.Written.{Written};
ghost use Rattle.acpiroute_shell.specs.declared.arguments.Argument.{Argument};
ghost use Rattle.acpiroute_shell.specs.declared.request.Evaluation.{Evaluation};
ghost use Rattle.acpiroute_lib.specs.EvalCommand.{eval_answer};
ghost use Rattle.acpiroute_lib.specs.Machines.{machine_of_text_in};
ghost use Rattle.acpiroute_lib.specs.NamesCommand.{names_answer};
ghost use Rattle.recorded_laws.specs.Widened.{settings_widened, LeavesNothingOut, evaluation_widened, IsWholeReport};

/// A run that leaves nothing out comes out in the wide profile as in the core one, with the same report or refusal,
/// and leaves the same registers, whatever describes the machine.
#[tactic(auto, using(crate::proofs::RunsWidened::described_run_widened))]
pub fn a_whole_run_is_one_in_the_wide_profile<S>()
    ensures { (accesses : Accesses S) (settings : Settings) (avoid : List ℕ) (space : S)
        (description : Outcome Description) (outcome : Outcome RoutingReport) (left : S) →
        LeavesNothingOut outcome → IsDescribedRun accesses settings avoid description space outcome left →
        IsDescribedRun accesses (settings_widened settings) avoid description space outcome left }
{}

/// What the program writes over a machine text, it writes in the wide profile, too: `route`, where its report tells of
/// nothing that the core profile leaves out, and `names` and `eval`, where they aren't refused for what it leaves out
/// or the wide profile passes over.
#[tactic(auto, using(crate::proofs::TextsWidened::widening))]
pub fn the_wide_profile_writes_what_the_core_one_does()
    ensures route { (mode : Mode) (evaluation : Evaluation) (o : RunOptions) (text : List ℕ) (w : Written) →
        IsWholeReport o (machine_of_text_in mode evaluation text) w →
        IsWholeReport o (machine_of_text_in mode (evaluation_widened evaluation) text) w }
    ensures names { (evaluation : Evaluation) (text : List ℕ) → IsLeftOutAt 0 (names_answer evaluation text) ⊎
        (names_answer (evaluation_widened evaluation) text ≡ names_answer evaluation text) }
    ensures eval { (mode : Mode) (evaluation : Evaluation) (path : List ℕ) (arguments : List Argument)
        (text : List ℕ) → IsLeftOutAt 0 (eval_answer mode evaluation path arguments text) ⊎
        (eval_answer mode (evaluation_widened evaluation) path arguments text ≡
        eval_answer mode evaluation path arguments text) }
{}
