//! Faults of the register space, however a machine comes by them.
ghost use Rattle.std.specs.Prelude.{◌≡◌, ℕ, List, Err};
ghost use Rattle.ar_space.specs.declared.refusal.SpaceFault.{SpaceFault};
ghost use Rattle.ar_space.specs.declared.refusal.Refusal.TheVariants.{Space};
ghost use Rattle.ar_space.specs.Accesses.{Accesses};
ghost use Rattle.ar_tables.specs.declared.mode.Mode.{Mode};
ghost use Rattle.ar_tables.specs.declared.tables.Tables.{Tables};
ghost use Rattle.aml_path.specs.declared.segment.Seg.{Seg};
ghost use Rattle.aml_world.specs.state.Given.{Given};
ghost use Rattle.aml_world.specs.state.State.{State};
ghost use Rattle.aml_laws.specs.SpaceFaults.{LastFaults};
ghost use Rattle.acpi_resources.specs.Records.{InterruptOffer};
ghost use Rattle.acpi_machine.specs.MachineStates.{MachineState};
ghost use Rattle.acpi_machine.specs.Loading.{loaded_tables};
ghost use Rattle.acpi_machine.specs.Calls.{evaluated_object, initialized};
ghost use Rattle.acpi_prt.specs.RoutingTables.{routing_table};
ghost use Rattle.acpi_links.specs.Resources.{possible_resources, current_resources};
ghost use Rattle.acpi_links.specs.Settings.{resources_set};
ghost use Rattle.acpi_links.specs.Gatherings.{gathered};

/// Where the tables of a machine, its initialization or an object that it evaluates is refused by a fault of the
/// register space, accesses that are all answered with values lead to a space at which one more is answered with that
/// fault, and the space is left as that access leaves it. Of the accesses that the call made itself
/// `machine_faults_are_answers_of_the_last_access` says so.
#[tactic(auto, using(crate::proofs::MachineFaults::faults_of_calls))]
pub fn machine_faults_are_reached_by_accesses<S>()
    ensures tables { (accesses : Accesses S) (fault : SpaceFault) (t : Tables) (steps : ℕ)
        (osi : List (List ℕ)) (w : State S) →
        (loaded_tables accesses t steps osi w).0 ≡ Err (Space fault) →
        LastFaults accesses fault w.space (loaded_tables accesses t steps osi w).1.space }
    ensures initialization { (accesses : Accesses S) (fault : SpaceFault) (mode : Mode) (s : MachineState S) →
        (initialized accesses mode s).0 ≡ Err (Space fault) → LastFaults accesses fault s.world.space
        (initialized accesses mode s).1.world.space }
    ensures object { (accesses : Accesses S) (fault : SpaceFault) (p : List Seg) (arguments : List Given)
        (s : MachineState S) →
        (evaluated_object accesses p arguments s).0 ≡ Err (Space fault) →
        LastFaults accesses fault s.world.space (evaluated_object accesses p arguments s).1.world.space }
{}

/// The same of a routing table, of what a link device may be set to, of what it is set to, of setting it, and of all
/// that is gathered of a machine before its links are set.
#[tactic(auto, using(crate::proofs::MachineFaults::faults_of_links))]
pub fn routing_faults_are_reached_by_accesses<S>()
    ensures routing_table { (accesses : Accesses S) (fault : SpaceFault) (device : List Seg) (s : MachineState S) →
        (routing_table accesses device s).0 ≡ Err (Space fault) →
        LastFaults accesses fault s.world.space (routing_table accesses device s).1.world.space }
    ensures possible { (accesses : Accesses S) (fault : SpaceFault) (link : List Seg) (s : MachineState S) →
        (possible_resources accesses link s).0 ≡ Err (Space fault) →
        LastFaults accesses fault s.world.space (possible_resources accesses link s).1.world.space }
    ensures current { (accesses : Accesses S) (fault : SpaceFault) (link : List Seg) (s : MachineState S) →
        (current_resources accesses link s).0 ≡ Err (Space fault) →
        LastFaults accesses fault s.world.space (current_resources accesses link s).1.world.space }
    ensures setting { (accesses : Accesses S) (fault : SpaceFault) (link : List Seg) (offer : InterruptOffer) (n : ℕ)
        (s : MachineState S) →
        (resources_set accesses link offer n s).0 ≡ Err (Space fault) →
        LastFaults accesses fault s.world.space (resources_set accesses link offer n s).1.world.space }
    ensures gathering { (accesses : Accesses S) (fault : SpaceFault) (avoid : List ℕ) (s : MachineState S) →
        (gathered accesses avoid s).0 ≡ Err (Space fault) → LastFaults accesses fault s.world.space
        (gathered accesses avoid s).1.world.space }
{}
