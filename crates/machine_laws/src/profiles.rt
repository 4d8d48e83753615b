//! Machines in the core profile and in the wide one.
ghost use Rattle.std.specs.Prelude.{◌≡◌, ◌⊎◌, ℕ, List, Bool};
ghost use Rattle.ar_space.specs.Accesses.{Accesses};
ghost use Rattle.ar_tables.specs.declared.mode.Mode.{Mode};
ghost use Rattle.ar_tables.specs.declared.tables.Tables.{Tables};
ghost use Rattle.aml_path.specs.declared.segment.Seg.{Seg};
ghost use Rattle.aml_world.specs.state.Given.{Given};
ghost use Rattle.aml_world.specs.state.State.{State};
ghost use Rattle.aml_laws.specs.Widened.{widened, IsLeftOut, IsLeftOutAt};
ghost use Rattle.acpi_resources.specs.Records.{InterruptOffer};
ghost use Rattle.acpi_machine.specs.MachineStates.{MachineState};
ghost use Rattle.acpi_machine.specs.Loading.{loaded_tables};
ghost use Rattle.acpi_machine.specs.Buses.{bus_found};
ghost use Rattle.acpi_machine.specs.Calls.{evaluated_object, initialized};
ghost use Rattle.acpi_prt.specs.RoutingTables.{routing_table};
ghost use Rattle.acpi_links.specs.Resources.{possible_resources, current_resources};
ghost use Rattle.acpi_links.specs.Settings.{resources_set};
ghost use Rattle.acpi_links.specs.Gatherings.{gathered};
ghost use Rattle.acpi_configure.specs.Configured.{IsReport};
ghost use Rattle.acpi_configure.specs.ForKernels.{IsReportFor};
ghost use Rattle.acpi_configure.specs.Options.{RunOptions};
ghost use Rattle.acpi_configure.specs.WithOptions.{IsReportWith};
ghost use Rattle.route_report.specs.Reports.{RoutingReport};
ghost use Rattle.machine_laws.specs.Widened.{machine_widened, call_widened, IsWithheld, TellsNothingLeftOut};

/// What a machine of the core profile answers, the same machine of the wide one answers too: where loading its
/// tables, initializing it, an object, what a link is set to or setting it isn't refused for what the profile leaves
/// out (a term, `Unsupported`, or what lies behind a bridge, `DeepPci`), it comes to the same in the wide profile, and
/// leaves the same machine with the same registers. Loading and initializing may also be refused for what the wide
/// profile passes over.
#[tactic(auto, using(crate::proofs::MachinesWidened::widening_calls))]
pub fn the_wide_profile_calls_as_the_core_one_does<S>()
    ensures tables { (accesses : Accesses S) (t : Tables) (steps : ℕ) (osi : List (List ℕ)) (w : State S) →
        IsLeftOutAt 0 (loaded_tables accesses t steps osi w).0 ⊎
        (loaded_tables accesses t steps osi (widened w) ≡ (
          (loaded_tables accesses t steps osi w).0,
          widened (loaded_tables accesses t steps osi w).1,
        )) }
    ensures initialization { (accesses : Accesses S) (mode : Mode) (s : MachineState S) →
        IsLeftOutAt 0 (initialized accesses mode s).0 ⊎
        (initialized accesses mode (machine_widened s) ≡ call_widened (initialized accesses mode s)) }
    ensures object { (accesses : Accesses S) (p : List Seg) (arguments : List Given) (s : MachineState S) →
        IsLeftOut (evaluated_object accesses p arguments s).0 ⊎
        (evaluated_object accesses p arguments (machine_widened s) ≡
        call_widened (evaluated_object accesses p arguments s)) }
    ensures current { (accesses : Accesses S) (link : List Seg) (s : MachineState S) →
        IsLeftOut (current_resources accesses link s).0 ⊎
        (current_resources accesses link (machine_widened s) ≡ call_widened (current_resources accesses link s)) }
    ensures setting { (accesses : Accesses S) (link : List Seg) (offer : InterruptOffer) (n : ℕ) (s : MachineState S) →
        IsLeftOut (resources_set accesses link offer n s).0 ⊎
        (resources_set accesses link offer n (machine_widened s) ≡
        call_widened (resources_set accesses link offer n s)) }
{}

/// The same of the bus that a routing table is for: where the core profile reaches it, so does the wide one, by the
/// same accesses.
#[tactic(auto, using(crate::proofs::MachinesWidened::bus_widened))]
pub fn the_wide_profile_finds_the_buses_that_the_core_one_does<S>()
    ensures { (accesses : Accesses S) (device : List Seg) (s : MachineState S) →
        IsLeftOut (bus_found accesses device s).0 ⊎ (bus_found accesses device (machine_widened s) ≡ call_widened (bus_found accesses device s)) }
{}

/// The same of a routing table, of what a link may be set to, and of all that is gathered before links are set. The
/// core profile may also refuse an exclusive offer (`Exclusive`), or a `_HID` that is a control method (`NotALink`).
#[tactic(auto, using(crate::proofs::MachinesWidened::widening_links))]
pub fn the_wide_profile_gathers_what_the_core_one_does<S>()
    ensures routing_table { (accesses : Accesses S) (device : List Seg) (s : MachineState S) →
        IsWithheld (routing_table accesses device s).0 ⊎
        (routing_table accesses device (machine_widened s) ≡ call_widened (routing_table accesses device s)) }
    ensures possible { (accesses : Accesses S) (link : List Seg) (s : MachineState S) →
        IsWithheld (possible_resources accesses link s).0 ⊎
        (possible_resources accesses link (machine_widened s) ≡ call_widened (possible_resources accesses link s)) }
    ensures gathering { (accesses : Accesses S) (avoid : List ℕ) (s : MachineState S) →
        IsWithheld (gathered accesses avoid s).0 ⊎
        (gathered accesses avoid (machine_widened s) ≡ call_widened (gathered accesses avoid s)) }
{}

/// A report of a machine is one of the same machine in the wide profile, if no line of it tells of what the
/// profile leaves out, and it leaves the same machine with the same registers: with options, with lines for a kernel,
/// and without.
#[tactic(auto, using(crate::proofs::ReportsWidened::widening_reports, //
crate::proofs::TellingWidened::report_for_kernels_widened))]
pub fn the_wide_profile_reports_what_the_core_one_does<S>()
    ensures report { (accesses : Accesses S) (dry : Bool) (avoid : List ℕ) (before after : MachineState S)
        (report : RoutingReport) → TellsNothingLeftOut report → IsReport accesses dry avoid before after report →
        IsReport accesses dry avoid (machine_widened before) (machine_widened after) report }
    ensures with_options { (accesses : Accesses S) (o : RunOptions) (before after : MachineState S)
        (report : RoutingReport) → TellsNothingLeftOut report → IsReportWith accesses o before after report →
        IsReportWith accesses o (machine_widened before) (machine_widened after) report }
    ensures for_kernels { (accesses : Accesses S) (o : RunOptions) (before after : MachineState S)
        (report : RoutingReport) → TellsNothingLeftOut report → IsReportFor accesses o before after report →
        IsReportFor accesses o (machine_widened before) (machine_widened after) report }
{}
