//! The accesses that the calls of a machine make of the register space.
ghost use Rattle.std.specs.Prelude.{◌≡◌, ℕ, List};
ghost use Rattle.ar_space.specs.Accesses.{Accesses};
ghost use Rattle.ar_tables.specs.declared.mode.Mode.{Mode};
ghost use Rattle.ar_tables.specs.declared.tables.Tables.{Tables};
ghost use Rattle.aml_path.specs.declared.segment.Seg.{Seg};
ghost use Rattle.aml_world.specs.state.Given.{Given};
ghost use Rattle.aml_world.specs.state.State.{State};
ghost use Rattle.aml_laws.specs.Noted.{WithNotes, noted, without_notes, TellsNotes};
ghost use Rattle.acpi_resources.specs.Records.{InterruptOffer};
ghost use Rattle.acpi_machine.specs.MachineStates.{MachineState};
ghost use Rattle.acpi_machine.specs.Loading.{loaded_tables};
ghost use Rattle.acpi_machine.specs.Buses.{bus_found};
ghost use Rattle.acpi_machine.specs.Calls.{evaluated_object, initialized};
ghost use Rattle.acpi_prt.specs.RoutingTables.{routing_table};
ghost use Rattle.acpi_links.specs.Resources.{possible_resources, current_resources};
ghost use Rattle.acpi_links.specs.Settings.{resources_set};
ghost use Rattle.acpi_links.specs.Gatherings.{gathered};
ghost use Rattle.machine_laws.specs.Notes.{machine_without_notes, call_without_notes};

/// Noting the accesses of a register space, each with its answer, changes nothing of a machine's calls: what comes of
/// loading its tables, of initializing it, of an object, a routing table, what a link device may be set to, what it
/// is set to, setting it, and all that is gathered before links are set, is the same without notes, and so is the
/// machine after it, with its space.
#[tactic(auto, using(crate::proofs::MachineNoting::unnoted))]
pub fn noting_changes_no_call<S>()
    ensures tables { (accesses : Accesses S) (t : Tables) (steps : ℕ) (osi : List (List ℕ)) (w : State (WithNotes S)) →
        loaded_tables accesses t steps osi (without_notes w) ≡ (
          (loaded_tables (noted accesses) t steps osi w).0,
          without_notes (loaded_tables (noted accesses) t steps osi w).1,
        ) }
    ensures initialization { (accesses : Accesses S) (mode : Mode) (s : MachineState (WithNotes S)) →
        initialized accesses mode (machine_without_notes s) ≡ call_without_notes (initialized (noted accesses) mode s) }
    ensures object { (accesses : Accesses S) (p : List Seg) (arguments : List Given) (s : MachineState (WithNotes S)) →
        evaluated_object accesses p arguments (machine_without_notes s) ≡
        call_without_notes (evaluated_object (noted accesses) p arguments s) }
    ensures routing_table { (accesses : Accesses S) (device : List Seg) (s : MachineState (WithNotes S)) →
        routing_table accesses device (machine_without_notes s) ≡
        call_without_notes (routing_table (noted accesses) device s) }
    ensures possible { (accesses : Accesses S) (link : List Seg) (s : MachineState (WithNotes S)) →
        possible_resources accesses link (machine_without_notes s) ≡
        call_without_notes (possible_resources (noted accesses) link s) }
    ensures current { (accesses : Accesses S) (link : List Seg) (s : MachineState (WithNotes S)) →
        current_resources accesses link (machine_without_notes s) ≡
        call_without_notes (current_resources (noted accesses) link s) }
    ensures setting { (accesses : Accesses S) (link : List Seg) (offer : InterruptOffer) (n : ℕ)
        (s : MachineState (WithNotes S)) →
        resources_set accesses link offer n (machine_without_notes s) ≡
        call_without_notes (resources_set (noted accesses) link offer n s) }
    ensures gathering { (accesses : Accesses S) (avoid : List ℕ) (s : MachineState (WithNotes S)) →
        gathered accesses avoid (machine_without_notes s) ≡ call_without_notes (gathered (noted accesses) avoid s) }
{}

/// Where the tables of a machine, its initialization or an object that it evaluates is refused by a fault of the
/// register space, the last of the call's own accesses is answered with that fault, and all those before it with
/// values. However else the call ends, all its accesses are answered with values: no fault of the register space is
/// passed over.
#[tactic(auto, using(crate::proofs::MachineNotes::notes_of_calls))]
pub fn machine_faults_are_answers_of_the_last_access<S>()
    ensures tables { (accesses : Accesses S) (t : Tables) (steps : ℕ) (osi : List (List ℕ)) (w : State (WithNotes S)) →
        TellsNotes (loaded_tables (noted accesses) t steps osi w).0 w.space
        (loaded_tables (noted accesses) t steps osi w).1.space }
    ensures initialization { (accesses : Accesses S) (mode : Mode) (s : MachineState (WithNotes S)) →
        TellsNotes (initialized (noted accesses) mode s).0 s.world.space
        (initialized (noted accesses) mode s).1.world.space }
    ensures object { (accesses : Accesses S) (p : List Seg) (arguments : List Given) (s : MachineState (WithNotes S)) →
        TellsNotes (evaluated_object (noted accesses) p arguments s).0 s.world.space
        (evaluated_object (noted accesses) p arguments s).1.world.space }
{}

/// The same of a routing table, of what a link device may be set to, of what it is set to, of setting it, and of all
/// that is gathered of a machine before its links are set; and of the bus of a routing table, which a kernel asks for.
#[tactic(auto, using(crate::proofs::MachineNotes::notes_of_links, crate::proofs::FaultsOfBuses::notes_of_bus))]
pub fn routing_faults_are_answers_of_the_last_access<S>()
    ensures routing_table { (accesses : Accesses S) (device : List Seg) (s : MachineState (WithNotes S)) →
        TellsNotes (routing_table (noted accesses) device s).0 s.world.space
        (routing_table (noted accesses) device s).1.world.space }
    ensures possible { (accesses : Accesses S) (link : List Seg) (s : MachineState (WithNotes S)) →
        TellsNotes (possible_resources (noted accesses) link s).0 s.world.space
        (possible_resources (noted accesses) link s).1.world.space }
    ensures current { (accesses : Accesses S) (link : List Seg) (s : MachineState (WithNotes S)) →
        TellsNotes (current_resources (noted accesses) link s).0 s.world.space
        (current_resources (noted accesses) link s).1.world.space }
    ensures setting { (accesses : Accesses S) (link : List Seg) (offer : InterruptOffer) (n : ℕ)
        (s : MachineState (WithNotes S)) →
        TellsNotes (resources_set (noted accesses) link offer n s).0 s.world.space
        (resources_set (noted accesses) link offer n s).1.world.space }
    ensures gathering { (accesses : Accesses S) (avoid : List ℕ) (s : MachineState (WithNotes S)) →
        TellsNotes (gathered (noted accesses) avoid s).0 s.world.space
        (gathered (noted accesses) avoid s).1.world.space }
    ensures bus { (accesses : Accesses S) (device : List Seg) (s : MachineState (WithNotes S)) →
        TellsNotes (bus_found (noted accesses) device s).0 s.world.space
        (bus_found (noted accesses) device s).1.world.space }
{}
