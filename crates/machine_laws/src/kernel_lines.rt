//! The lines of a report that a kernel wants: how interrupts are triggered, and the bus of each routing table.
ghost use Rattle.std.specs.Prelude.{◌≡◌, ◌⊎◌, ◌<◌, ℕ, List, Option, Some, Ok, true, false, map, length, Contains};
ghost use Rattle.ar_space.specs.Accesses.{Accesses};
ghost use Rattle.ar_tables.specs.Fadts.{sci_interrupt};
ghost use Rattle.aml_path.specs.declared.segment.Seg.{Seg};
ghost use Rattle.aml_path.specs.Paths.{path_cmp};
ghost use Rattle.aml_namespace.specs.Walks.{Ascending};
ghost use Rattle.aml_world.specs.declared.state.profile.Profile.TheVariants.{Wide};
ghost use Rattle.aml_world.specs.fields.Bridges.{with_scope, bridges_over};
ghost use Rattle.aml_world.specs.state.Mutexes.{released};
ghost use Rattle.aml_world.specs.fields.PciFunctions.{segment_group, base_bus};
ghost use Rattle.aml_laws.specs.BusesFound.{BusesFound, TellAddresses, TellsPart};
ghost use Rattle.aml_laws.specs.Outside.{Outside};
ghost use Rattle.aml_laws.specs.PciScopes.{IsBridgeAt, NoneSuch};
ghost use Rattle.acpi_machine.specs.Buses.{address_part, bus_found};
ghost use Rattle.acpi_machine.specs.Kinds as kind;
ghost use Rattle.acpi_machine.specs.Kinds.{kind_at};
ghost use Rattle.acpi_machine.specs.MachineStates.{MachineState};
ghost use Rattle.acpi_configure.specs.ForKernels.{IsReportFor};
ghost use Rattle.acpi_configure.specs.Options.{RunOptions};
ghost use Rattle.route_report.specs.declared.report.BusLine.{BusLine};
ghost use Rattle.route_report.specs.declared.report.InterruptSource.TheVariants.{Link, Wired, Sci};
ghost use Rattle.route_report.specs.declared.report.PinLine.{PinLine};
ghost use Rattle.route_report.specs.declared.report.TriggerLine.{TriggerLine};
ghost use Rattle.route_report.specs.Readable.{triggers_told, buses_told};
ghost use Rattle.route_report.specs.Reports.{ReportedLink, RoutingReport};
ghost use Rattle.aml_laws.specs.Reached.{Reached};
ghost use Rattle.route_report.specs.Readable.{claim_of_report};
ghost use Rattle.machine_laws.specs.KernelLines.{HasTrigger, WayHasTrigger, sources_in};
ghost use Rattle.machine_laws.specs.KernelLines.{Governs, IsOverrideTo, IsOverrideOf};
ghost use Rattle.machine_laws.specs.KernelLines.{Follows, IsTriggeredAsOffered, HasTable, HasBus, BusesAsked};
ghost use Rattle.machine_laws.specs.KernelLines.{with_kernel, SameButForKernel, SameBesideWorld};

/// In a report for a kernel the lines `trigger` are of its links, of the interrupts that pins are wired to, and of the
/// System Control Interrupt, in the order of the report's lines. Exactly one is of each link, of each interrupt of a
/// line `wired`, of what each line `pin` leads to, and of the System Control Interrupt, where there is one. A source
/// that is left out, told of twice or told of in another order is refused by this.
pub fn each_source_has_one_line_trigger<S>()
    ensures order { (accesses : Accesses S) (o : RunOptions) (before after : MachineState S) (report : RoutingReport) →
        IsReportFor accesses o before after report → o.kernel ≡ true →
        map (λ (t : TriggerLine). t.source) (triggers_told report.options) ≡ sources_in report }
    ensures links { (accesses : Accesses S) (o : RunOptions) (before after : MachineState S) (report : RoutingReport) →
        IsReportFor accesses o before after report → o.kernel ≡ true → (link : ReportedLink) →
        Contains report.links link → HasTrigger report (Link link.path) }
    ensures wired { (accesses : Accesses S) (o : RunOptions) (before after : MachineState S) (report : RoutingReport) →
        IsReportFor accesses o before after report → o.kernel ≡ true → (wired : ℕ × ℕ) →
        Contains report.wired wired → HasTrigger report (Wired wired.0) }
    ensures pins { (accesses : Accesses S) (o : RunOptions) (before after : MachineState S) (report : RoutingReport) →
        IsReportFor accesses o before after report → o.kernel ≡ true → (pin : PinLine) → Contains report.pins pin →
        WayHasTrigger report pin.route }
    ensures sci { (accesses : Accesses S) (o : RunOptions) (before after : MachineState S) (report : RoutingReport) →
        IsReportFor accesses o before after report → o.kernel ≡ true → (n : ℕ) → report.sci ≡ Some n →
        HasTrigger report (Sci n) }
{}

/// How wired pins and the System Control Interrupt are triggered (ACPI 6.5, 5.2.12.5 and 5.2.9): level and low, as PCI
/// interrupts are, where no interrupt source override of the MADT governs the interrupt; else as the override's flags
/// say. An override governs an interrupt where I/O APICs are used, and it is the first one to that global system
/// interrupt, or for the System Control Interrupt the first one of the source that the FADT names. Flags of another
/// interrupt's override, of a later one, or of one that the 8259 controllers never see are refused by this, and so are
/// flags that are read from other bits.
pub fn interrupts_are_triggered_as_their_overrides_say<S>()
    ensures wired { (accesses : Accesses S) (o : RunOptions) (before after : MachineState S) (report : RoutingReport) →
        IsReportFor accesses o before after report → o.kernel ≡ true → (n : ℕ) (flags : Option ℕ) (line : TriggerLine) →
        Governs before (IsOverrideTo n) flags → Contains (triggers_told report.options) line →
        line.source ≡ Wired n → Follows flags line }
    ensures sci { (accesses : Accesses S) (o : RunOptions) (before after : MachineState S) (report : RoutingReport) →
        IsReportFor accesses o before after report → o.kernel ≡ true → (n : ℕ) (flags : Option ℕ) (line : TriggerLine) →
        Governs before (IsOverrideOf (sci_interrupt before.tables.fadt)) flags →
        Contains (triggers_told report.options) line → line.source ≡ Sci n → Follows flags line }
{}

/// The interrupt of a link is level-triggered, and of the polarity of its own offer, the one that its `_PRS` gave
/// when it was asked in the run. Another link's polarity, or an override's, is refused by this.
pub fn links_are_triggered_as_they_offer<S>()
    ensures { (accesses : Accesses S) (o : RunOptions) (before after : MachineState S) (report : RoutingReport)
        (is : IsReportFor accesses o before after report) → o.kernel ≡ true → (path : List Seg) (line : TriggerLine) →
        Contains (triggers_told report.options) line → line.source ≡ Link path →
        IsTriggeredAsOffered accesses is.is_plain.found.gathering.links path line }
{}

/// In a report for a kernel exactly one line `bus` is of each Device that has a `_PRT` once all links are set, and the
/// lines are of no other device, in path order. Each tells what its own call found, or the number of its refusal, each
/// of the machine that the one before it left. A device that is left out, or whose line tells of another's bus, is
/// refused by this.
pub fn each_routing_table_has_one_line_bus<S>()
    ensures each { (accesses : Accesses S) (o : RunOptions) (before after : MachineState S) (report : RoutingReport)
        (is : IsReportFor accesses o before after report) → o.kernel ≡ true → (device : List Seg) →
        HasTable is.configured device → HasBus report device }
    ensures no_other { (accesses : Accesses S) (o : RunOptions) (before after : MachineState S) (report : RoutingReport)
        (is : IsReportFor accesses o before after report) → o.kernel ≡ true → (line : BusLine) →
        Contains (buses_told report.options) line → HasTable is.configured line.device }
    ensures order { (accesses : Accesses S) (o : RunOptions) (before after : MachineState S) (report : RoutingReport) →
        IsReportFor accesses o before after report → o.kernel ≡ true →
        Ascending path_cmp (map (λ (l : BusLine). l.device) (buses_told report.options)) }
    ensures asked { (accesses : Accesses S) (o : RunOptions) (before after : MachineState S) (report : RoutingReport)
        (is : IsReportFor accesses o before after report) → o.kernel ≡ true →
        BusesAsked accesses (buses_told report.options) is.configured after }
{}

/// The device of each line `pin` has exactly one line `bus`, where it was outside of control methods before the run and
/// is still a Device once all links are set: its routing table stands then, too.
pub fn the_device_of_each_pin_has_one_line_bus<S>()
    ensures { (accesses : Accesses S) (o : RunOptions) (before after : MachineState S) (report : RoutingReport)
        (is : IsReportFor accesses o before after report) → o.kernel ≡ true → (pin : PinLine) →
        Contains report.pins pin → Outside before.world pin.device →
        kind_at is.configured.world.names.map pin.device ≡ Some kind.Device → HasBus report pin.device }
{}

/// The bus of a routing table is in the segment group that the nearest `_SEG` tells, of the device and those above
/// it, and is the one that the nearest `_BBN` tells, 0 where there is none, or that the bridges lead to from there,
/// from the outermost one down to the device itself: each tells its secondary bus on the bus that the one before it
/// told. There are no other accesses, and nothing else changes but that all mutexes are free. In the core profile
/// neither the device nor one above it is a bridge. A bus of another device's objects is refused by this.
pub fn the_bus_of_a_routing_table_is_told_by_its_objects<S>()
    ensures { (accesses : Accesses S) (device : List Seg) (m : MachineState S) (seg bus end : ℕ)
        (addresses : List (ℕ × ℕ)) (after : S) → m.spent ≡ false →
        (m.world.profile ≡ Wide) ⊎ NoneSuch (IsBridgeAt m.world.names.map) device (length device) → seg < 65536 →
        TellsPart (address_part accesses) m.world m.steps segment_group device seg →
        TellsPart (address_part accesses) m.world m.steps base_bus device bus →
        TellAddresses (address_part accesses) m.world m.steps
        (with_scope m.world.names.map device (bridges_over m.world.names.map device (length device))) addresses →
        BusesFound accesses seg bus addresses m.world.space end after → end < 256 →
        bus_found accesses device m ≡ (
          Ok (record { segment = seg; bus = end }),
          record m { world = released (record m.world { space = after }) },
        ) }
{}

/// A run for a kernel is the same run without its lines, and then the calls that ask for the buses: the same options
/// without `kernel` give the same report but for the lines `trigger` and `bus`, with the same claim, and each such
/// report has one with these lines. What the calls for the buses leave differs in the machine's world alone, whose
/// register space they reach by reads and writes. An answer that another choice, or another setting, follows from is
/// refused by this.
pub fn a_run_for_a_kernel_is_one_without_its_lines<S>()
    ensures without { (accesses : Accesses S) (o : RunOptions) (before after : MachineState S) (report : RoutingReport)
        (is : IsReportFor accesses o before after report) → o.kernel ≡ true →
        IsReportFor accesses (with_kernel false o) before is.configured is.plain }
    ensures same { (accesses : Accesses S) (o : RunOptions) (before after : MachineState S) (report : RoutingReport)
        (is : IsReportFor accesses o before after report) → o.kernel ≡ true → SameButForKernel report is.plain }
    ensures claim { (accesses : Accesses S) (o : RunOptions) (before after : MachineState S) (report : RoutingReport)
        (is : IsReportFor accesses o before after report) → claim_of_report report ≡ claim_of_report is.plain }
    ensures machine { (accesses : Accesses S) (o : RunOptions) (before after : MachineState S) (report : RoutingReport)
        (is : IsReportFor accesses o before after report) → o.kernel ≡ true → SameBesideWorld is.configured after }
    ensures registers { (accesses : Accesses S) (o : RunOptions) (before after : MachineState S)
        (report : RoutingReport) (is : IsReportFor accesses o before after report) → o.kernel ≡ true →
        Reached accesses is.configured.world.space after.world.space }
    ensures lines { (accesses : Accesses S) (o : RunOptions) (before after : MachineState S) (plain : RoutingReport) →
        IsReportFor accesses (with_kernel false o) before after plain →
        (report : RoutingReport) × (left : MachineState S) ×
        IsReportFor accesses (with_kernel true o) before left report × SameButForKernel report plain }
{}
