//! The accesses of `configure`, and what its report tells of them.
ghost use Rattle.std.specs.Prelude.{◌≡◌, ℕ, List, Bool};
ghost use Rattle.ar_space.specs.Accesses.{Accesses};
ghost use Rattle.acpi_machine.specs.MachineStates.{MachineState};
ghost use Rattle.acpi_links.specs.Links.{PresentLink};
ghost use Rattle.acpi_configure.specs.Configured.{IsReport};
ghost use Rattle.acpi_configure.specs.Settling.{link_set, link_read};
ghost use Rattle.route_report.specs.declared.report.SetLine.{SetLine};
ghost use Rattle.route_report.specs.Reports.{ReportedAfter, RoutingReport};
ghost use Rattle.aml_laws.specs.Noted.{WithNotes, noted};
ghost use Rattle.machine_laws.specs.Notes.{machine_without_notes};
ghost use Rattle.machine_laws.specs.ReportedNotes.{SetTells, AfterTells, LineTells, ReportTells};

/// Noting accesses changes no report: a report of a machine is one with notes, too, and the machine after it is the
/// same but for them.
pub fn noting_changes_no_report<S>()
    ensures { (accesses : Accesses S) (dry : Bool) (avoid : List ℕ) (before : MachineState (WithNotes S))
        (after : MachineState S) (report : RoutingReport) →
        IsReport accesses dry avoid (machine_without_notes before) after report
        → (left : MachineState (WithNotes S)) × (after ≡ machine_without_notes left) ×
        IsReport (noted accesses) dry avoid before left report }
{}

/// One line of a report: setting a link to an interrupt makes a line, whatever machine it is called on, and so does
/// reading what a link is set to. Where the line tells that its link was refused by a fault of the register space,
/// the last access of that call was answered with that fault, and all those before it with values. With any other
/// line, all accesses of the call were answered with values.
#[tactic(auto, using(crate::proofs::ReportsTold::set_line_told, crate::proofs::ReportsTold::read_line_told))]
pub fn a_line_of_a_report_tells_of_its_accesses<S>()
    ensures set { (accesses : Accesses S) (link : PresentLink) (n : ℕ) (before : MachineState (WithNotes S)) →
        (line : SetLine) × LineTells SetTells (link_set (noted accesses) link n) before line }
    ensures after { (accesses : Accesses S) (link : PresentLink) (before : MachineState (WithNotes S)) →
        (line : ReportedAfter) × LineTells AfterTells (link_read (noted accesses) link) before line }
{}

/// All accesses of a report: those of gathering were answered with values. Unless the run is dry, each link that was
/// found is then set to its interrupt of the answer, and makes a line `set`; and then each of them is read, and makes
/// a line `after`. Each of these calls is made on the machine that the calls before it left, and its line tells of
/// its own accesses, as `a_line_of_a_report_tells_of_its_accesses` says. The report has these lines and no others,
/// and the last call leaves the machine after it.
pub fn the_lines_of_a_report_tell_of_their_accesses<S>()
    ensures { (accesses : Accesses S) (dry : Bool) (avoid : List ℕ) (before after : MachineState (WithNotes S))
        (report : RoutingReport) (is : IsReport (noted accesses) dry avoid before after report) →
        ReportTells accesses is }
{}
