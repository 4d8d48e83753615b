//! Runs of `why`, whose register space keeps the last access, and the runs of `route` and `eval` that they explain.
ghost use Rattle.std.specs.Prelude.{◌≡◌, ℕ, Bool, List, Ok, Err};
ghost use Rattle.ar_space.specs.declared.refusal.Refusal.{Refusal};
ghost use Rattle.ar_tables.specs.FindTables.{tables_of};
ghost use Rattle.machine_text.specs.MachineText.{machine_text};
ghost use Rattle.machine_text.specs.declared.machine_lines.MachineText.{MachineText};
ghost use Rattle.acpiroute_shell.specs.declared.request.Flags.{Flags};
ghost use Rattle.acpiroute_shell.specs.declared.request.Question.TheVariants.{Route, Eval};
ghost use Rattle.acpiroute_shell.specs.declared.arguments.Argument.{Argument};
ghost use Rattle.acpiroute_lib.specs.EvalCommand.{eval_answer};
ghost use Rattle.acpiroute_lib.specs.Machines.{register_accesses, registers_of};
ghost use Rattle.acpiroute_lib.specs.RouteCommand.{IsRouteAnswer};
ghost use Rattle.ar_space.specs.Accesses.{Accesses};
ghost use Rattle.ar_space.specs.Outcome.{Outcome};
ghost use Rattle.ar_tables.specs.declared.tables.Tables.{Tables};
ghost use Rattle.acpi_machine.specs.MachineStates.{MachineState};
ghost use Rattle.acpi_links.specs.Links.{PresentLink};
ghost use Rattle.acpi_configure.specs.Settling.{settled_unless};
ghost use Rattle.watched_space.specs.Watching.{Watch, watched};
ghost use Rattle.acpiroute_shell.specs.declared.request.Asking.{Asking};
ghost use Rattle.acpiroute_lib.specs.RunEnds.{options_of, run_of};
ghost use Rattle.recorded_laws.specs.Unwatched.{machine_below};

/// Keeping the last access changes no run, up to where what it has to find is found: it is refused by the same
/// refusal as over the space below, or not refused as that isn't, and leaves the same registers.
pub fn keeping_the_last_access_changes_no_run<S>()
    ensures outcome { (accesses : Accesses S) (q : Asking) (tables : Outcome Tables) (osi : List (List ℕ))
        (before : Watch S) →
        (run_of (watched accesses) q tables osi before).0 ≡ (run_of accesses q tables osi before.inner).0 }
    ensures registers { (accesses : Accesses S) (q : Asking) (tables : Outcome Tables) (osi : List (List ℕ))
        (before : Watch S) →
        (run_of (watched accesses) q tables osi before).1.inner ≡ (run_of accesses q tables osi before.inner).1 }
{}

/// Nor does it change how links are set and read: each setting and each reading comes to the same over the space
/// below, and leaves the same machine.
pub fn keeping_the_last_access_changes_no_setting<S>()
    ensures outcome { (accesses : Accesses S) (dry : Bool) (links : List PresentLink) (choice : List ℕ)
        (machine : MachineState (Watch S)) →
        (settled_unless (watched accesses) dry links choice machine).0 ≡
        (settled_unless accesses dry links choice (machine_below machine)).0 }
    ensures machine { (accesses : Accesses S) (dry : Bool) (links : List PresentLink) (choice : List ℕ)
        (machine : MachineState (Watch S)) →
        machine_below (settled_unless (watched accesses) dry links choice machine).1 ≡
        (settled_unless accesses dry links choice (machine_below machine)).1 }
{}

/// The run that `why` makes is the run of `route`, or of `eval`: where that is refused over a machine text, the run is
/// refused by the same refusal.
pub fn why_makes_the_run_that_is_refused()
    ensures route { (q : Asking) (avoid : List ℕ) (flags : Flags) (text : List ℕ) (said : MachineText) (e : Refusal) →
        machine_text text ≡ Ok said → q.question ≡ Route avoid flags →
        IsRouteAnswer q.mode q.evaluation (options_of avoid flags) text (Err e)
        → (run_of register_accesses q (tables_of said.space.memory said.rsdp) said.osi
        (registers_of q.evaluation said.space)).0 ≡ Err e }
    ensures eval { (q : Asking) (path : List ℕ) (arguments : List Argument) (text : List ℕ) (said : MachineText)
        (e : Refusal) → machine_text text ≡ Ok said → q.question ≡ Eval path arguments →
        eval_answer q.mode q.evaluation path arguments text ≡ Err e
        → (run_of register_accesses q (tables_of said.space.memory said.rsdp) said.osi
        (registers_of q.evaluation said.space)).0 ≡ Err e }
{}
