//! What holds of all runs: each law is the contract of a function that does nothing.
ghost use Rattle.std.specs.Prelude.{◌≡◌, ℕ, Bool, false, List, Option};
ghost use Rattle.ar_space.specs.Outcome.{Outcome};
ghost use Rattle.ar_tables.specs.declared.mode.Mode.{Mode};
ghost use Rattle.acpi_configure.specs.Options.{RunOptions};
ghost use Rattle.acpiroute_shell.specs.declared.request.Evaluation.{Evaluation};
ghost use Rattle.acpiroute_shell.specs.Held.{Held};
ghost use Rattle.acpiroute_shell.specs.Written.{Written};
ghost use Rattle.acpiroute_lib.specs.Causes.{TellsCause};
ghost use Rattle.acpiroute_lib.specs.RouteCommand.{IsRouteAnswer};
ghost use Rattle.acpiroute_lib.specs.Runs.{Ran};

use crate::machine::Registers;
use acpi_configure::laws::a_machine_has_one_report_with_options;

/// `route` has one answer over a machine text: one report, and so one text, or one refusal. Where links are to share
/// interrupts as little as they can, it isn't said which of several such assignments the report has.
pub fn route_has_one_answer()
    ensures { (mode : Mode) (evaluation : Evaluation) (options : RunOptions) (text : List ℕ)
        (one other : Outcome Written) → options.spread ≡ false → IsRouteAnswer mode evaluation options text one →
        IsRouteAnswer mode evaluation options text other → one ≡ other }
{
    a_machine_has_one_report_with_options::<Registers>();
}

/// A run whose status is 1 tells a refusal by its line on the errors, behind the lines of what was passed over before:
/// `refused 142` where a write to the output failed; else `refused 141` where a read failed; else want of memory, or
/// the refusal that the command answers over the whole input, where nothing is wrong with the words. Where the words ask
/// for help, nothing was passed over, and only its write can fail.
pub fn a_refusal_of_a_run_has_its_cause()
    ensures { (words : List (List ℕ)) (left : Option (List ℕ)) (read_failed : Bool) (status : ℕ)
        (output output2 errors errors2 : Held) →
        Ran words left read_failed status output output2 errors errors2 → status ≡ 1 →
        TellsCause words left read_failed output2.has_failed errors errors2 }
{}
