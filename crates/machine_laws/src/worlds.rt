//! What the calls of a machine make of its world.
ghost use Rattle.acpi_configure.specs.Configured.{IsReport};
ghost use Rattle.acpi_configure.specs.Options.{RunOptions};
ghost use Rattle.acpi_configure.specs.WithOptions.{IsReportWith};
ghost use Rattle.acpi_links.specs.Gatherings.{gathered};
ghost use Rattle.acpi_links.specs.Resources.{possible_resources, current_resources};
ghost use Rattle.acpi_links.specs.Settings.{resources_set};
ghost use Rattle.acpi_prt.specs.RoutingTables.{routing_table};
ghost use Rattle.acpi_resources.specs.Records.{InterruptOffer};
ghost use Rattle.machine_laws.specs.Evaluated.{OnlyEvaluated};
ghost use Rattle.route_report.specs.Reports.{RoutingReport};
ghost use Rattle.std.specs.Prelude.{ℕ, List, Bool};
ghost use Rattle.ar_space.specs.Accesses.{Accesses};
ghost use Rattle.ar_space.specs.declared.integer_width.IntegerWidth.{IntegerWidth};
ghost use Rattle.ar_tables.specs.declared.mode.Mode.{Mode};
ghost use Rattle.ar_tables.specs.declared.tables.Tables.{Tables};
ghost use Rattle.aml_path.specs.declared.segment.Seg.{Seg};
ghost use Rattle.aml_world.specs.state.Given.{Given};
ghost use Rattle.aml_world.specs.state.Predefined.{fresh_as};
ghost use Rattle.aml_world.specs.state.State.{State};
ghost use Rattle.aml_world.specs.declared.state.settings.EvaluationSettings.{EvaluationSettings};
ghost use Rattle.aml_laws.specs.Becomes.{Becomes};
ghost use Rattle.aml_laws.specs.PassedNotes.{KeepsTheFirst, GoesOn};
ghost use Rattle.acpi_machine.specs.Calls.{called_where_it_stands, evaluated_object, initialized};
ghost use Rattle.acpi_machine.specs.Loading.{all_loaded, loaded_tables};
ghost use Rattle.acpi_machine.specs.MachineStates.{MachineState};

/// What a machine makes of its world evaluations make of it, one after another, and notes of what the wide profile
/// passes over: by its tables, by each call of initializing, passed over or not, by all of them, and by an object that
/// it evaluates, however these end. So the laws of `aml_laws` that speak of all that evaluations make of a world speak
/// of the worlds of machines.
#[tactic(auto, using(crate::proofs::MachineWorlds::evaluating))]
pub fn a_machine_makes_of_its_world_what_evaluations_do<S>()
    ensures tables { (accesses : Accesses S) (t : Tables) (steps : ℕ) (w : State S) →
        Becomes accesses w (all_loaded accesses t steps w).1 }
    ensures call { (accesses : Accesses S) (p : List Seg) (arguments : List Given) (m : MachineState S) →
        Becomes accesses m.world (called_where_it_stands accesses p arguments m).1.world }
    ensures initialization { (accesses : Accesses S) (mode : Mode) (m : MachineState S) →
        Becomes accesses m.world (initialized accesses mode m).1.world }
    ensures object { (accesses : Accesses S) (p : List Seg) (arguments : List Given) (m : MachineState S) →
        Becomes accesses m.world (evaluated_object accesses p arguments m).1.world }
{}

/// Of what a machine passes over so many are kept as are counted, or 64 where these are more: in the world that its
/// tables leave, in either profile, and also behind calls of initializing that are passed over and behind objects that
/// it evaluates. What was kept before initializing stays, in its order, and the count never falls.
#[tactic(auto, using(crate::proofs::MachineWorlds::first_accesses))]
pub fn the_first_that_a_machine_passes_over_are_kept<S>()
    ensures tables { (accesses : Accesses S) (settings : EvaluationSettings) (width : IntegerWidth) (osi : List (List ℕ))
        (space : S) (t : Tables) (steps : ℕ) →
        KeepsTheFirst (loaded_tables accesses t steps osi (fresh_as settings width osi space)).1.passed }
    ensures initialization { (accesses : Accesses S) (mode : Mode) (m : MachineState S) →
        KeepsTheFirst m.world.passed → KeepsTheFirst (initialized accesses mode m).1.world.passed }
    ensures goes_on { (accesses : Accesses S) (mode : Mode) (m : MachineState S) →
        GoesOn m.world.passed (initialized accesses mode m).1.world.passed }
    ensures object { (accesses : Accesses S) (p : List Seg) (arguments : List Given) (m : MachineState S) →
        KeepsTheFirst m.world.passed → KeepsTheFirst (evaluated_object accesses p arguments m).1.world.passed }
{}

/// What a routing table, what a link device may be set to, what it is set to, setting it, all that is gathered and a
/// report of a machine make of it: evaluations change its world, one after another, and its tables, its mode, the steps
/// of an evaluation and whether it is spent stay. So the laws of evaluations speak of whole runs, but for the buses
/// that a kernel asks for. A call that keeps a mode of its own, or tells of other tables than those of the machine,
/// is refused by this.
pub fn a_run_changes_its_machine_by_evaluations<S>()
    ensures routing_table { (accesses : Accesses S) (device : List Seg) (m : MachineState S) →
        OnlyEvaluated accesses m (routing_table accesses device m).1 }
    ensures possible { (accesses : Accesses S) (link : List Seg) (m : MachineState S) →
        OnlyEvaluated accesses m (possible_resources accesses link m).1 }
    ensures current { (accesses : Accesses S) (link : List Seg) (m : MachineState S) →
        OnlyEvaluated accesses m (current_resources accesses link m).1 }
    ensures setting { (accesses : Accesses S) (link : List Seg) (offer : InterruptOffer) (n : ℕ) (m : MachineState S) →
        OnlyEvaluated accesses m (resources_set accesses link offer n m).1 }
    ensures gathering { (accesses : Accesses S) (avoid : List ℕ) (m : MachineState S) →
        OnlyEvaluated accesses m (gathered accesses avoid m).1 }
    ensures report { (accesses : Accesses S) (dry : Bool) (avoid : List ℕ) (before after : MachineState S)
        (report : RoutingReport) → IsReport accesses dry avoid before after report →
        OnlyEvaluated accesses before after }
    ensures with_options { (accesses : Accesses S) (o : RunOptions) (before after : MachineState S)
        (report : RoutingReport) → IsReportWith accesses o before after report → OnlyEvaluated accesses before after }
{}
