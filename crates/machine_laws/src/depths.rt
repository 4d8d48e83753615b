//! Machines in which control methods may call one another, and terms may be one inside another, less or more deeply.
ghost use Rattle.std.specs.Prelude.{◌≡◌, ◌⊎◌, ℕ, List};
ghost use Rattle.ar_space.specs.Accesses.{Accesses};
ghost use Rattle.ar_tables.specs.declared.mode.Mode.{Mode};
ghost use Rattle.ar_tables.specs.declared.tables.Tables.{Tables};
ghost use Rattle.aml_path.specs.declared.segment.Seg.{Seg};
ghost use Rattle.aml_world.specs.declared.state.settings.Nesting.{Nesting};
ghost use Rattle.aml_world.specs.state.Given.{Given};
ghost use Rattle.aml_world.specs.state.State.{State};
ghost use Rattle.aml_laws.specs.Deepened.{deepened, IsDepthSetting};
ghost use Rattle.acpi_resources.specs.Records.{InterruptOffer};
ghost use Rattle.acpi_machine.specs.MachineStates.{MachineState};
ghost use Rattle.acpi_machine.specs.Loading.{loaded_tables};
ghost use Rattle.acpi_machine.specs.Buses.{bus_found};
ghost use Rattle.acpi_machine.specs.Calls.{evaluated_object, initialized};
ghost use Rattle.acpi_prt.specs.RoutingTables.{routing_table};
ghost use Rattle.acpi_links.specs.Resources.{possible_resources, current_resources};
ghost use Rattle.acpi_links.specs.Settings.{resources_set};
ghost use Rattle.acpi_links.specs.Gatherings.{gathered};
ghost use Rattle.machine_laws.specs.Deepened.{machine_deepened, call_deepened};

/// What a machine answers that allows few calls and levels, the same machine answers too where it allows more: where
/// loading its tables, initializing it, an object, what a link is set to, setting it or finding a bus isn't refused
/// for the setting (`DepthSetting`), it comes to the same with more, and leaves the same machine with the same
/// registers.
#[tactic(auto, using(crate::proofs::MachinesDeepened::deeper))]
pub fn a_machine_that_allows_more_depth_calls_as_one_that_allows_less<S>()
    ensures tables { (accesses : Accesses S) (more : Nesting) (t : Tables) (steps : ℕ) (osi : List (List ℕ))
        (w : State S) → IsDepthSetting (loaded_tables accesses t steps osi w).0 ⊎
        (loaded_tables accesses t steps osi (deepened more w) ≡ (
          (loaded_tables accesses t steps osi w).0,
          deepened more (loaded_tables accesses t steps osi w).1,
        )) }
    ensures initialization { (accesses : Accesses S) (more : Nesting) (mode : Mode) (s : MachineState S) →
        IsDepthSetting (initialized accesses mode s).0 ⊎
        (initialized accesses mode (machine_deepened more s) ≡ call_deepened more (initialized accesses mode s)) }
    ensures object { (accesses : Accesses S) (more : Nesting) (p : List Seg) (arguments : List Given)
        (s : MachineState S) → IsDepthSetting (evaluated_object accesses p arguments s).0 ⊎
        (evaluated_object accesses p arguments (machine_deepened more s) ≡
        call_deepened more (evaluated_object accesses p arguments s)) }
    ensures current { (accesses : Accesses S) (more : Nesting) (link : List Seg) (s : MachineState S) →
        IsDepthSetting (current_resources accesses link s).0 ⊎
        (current_resources accesses link (machine_deepened more s) ≡
        call_deepened more (current_resources accesses link s)) }
    ensures setting { (accesses : Accesses S) (more : Nesting) (link : List Seg) (offer : InterruptOffer) (n : ℕ)
        (s : MachineState S) → IsDepthSetting (resources_set accesses link offer n s).0 ⊎
        (resources_set accesses link offer n (machine_deepened more s) ≡
        call_deepened more (resources_set accesses link offer n s)) }
    ensures bus { (accesses : Accesses S) (more : Nesting) (device : List Seg) (s : MachineState S) →
        IsDepthSetting (bus_found accesses device s).0 ⊎
        (bus_found accesses device (machine_deepened more s) ≡ call_deepened more (bus_found accesses device s)) }
{}

/// The same of a routing table, of what a link may be set to, and of all that is gathered before links are set.
#[tactic(auto, using(crate::proofs::MachinesDeepened::deeper))]
pub fn a_machine_that_allows_more_depth_gathers_as_one_that_allows_less<S>()
    ensures routing_table { (accesses : Accesses S) (more : Nesting) (device : List Seg) (s : MachineState S) →
        IsDepthSetting (routing_table accesses device s).0 ⊎
        (routing_table accesses device (machine_deepened more s) ≡
        call_deepened more (routing_table accesses device s)) }
    ensures possible { (accesses : Accesses S) (more : Nesting) (link : List Seg) (s : MachineState S) →
        IsDepthSetting (possible_resources accesses link s).0 ⊎
        (possible_resources accesses link (machine_deepened more s) ≡
        call_deepened more (possible_resources accesses link s)) }
    ensures gathering { (accesses : Accesses S) (more : Nesting) (avoid : List ℕ) (s : MachineState S) →
        IsDepthSetting (gathered accesses avoid s).0 ⊎
        (gathered accesses avoid (machine_deepened more s) ≡ call_deepened more (gathered accesses avoid s)) }
{}
