//! How many accesses are made of a register space, where they are bounded.
ghost use Rattle.std.specs.Prelude.{◌≡◌, ℕ, suc, List, Bool, Some, Err};
ghost use Rattle.ar_space.specs.Accesses.{Accesses};
ghost use Rattle.ar_space.specs.declared.refusal.SpaceFault.TheVariants.{Device};
ghost use Rattle.ar_space.specs.declared.space.Place.{Place as Places};
ghost use Rattle.ar_space.specs.declared.space.Width.{Width as Widths};
ghost use Rattle.aml_world.specs.state.State.{State};
ghost use Rattle.aml_laws.specs.Becomes.{Becomes};
ghost use Rattle.aml_laws.specs.Reached.{Reached};
ghost use Rattle.acpi_machine.specs.MachineStates.{MachineState};
ghost use Rattle.acpi_configure.specs.Configured.{IsReport};
ghost use Rattle.route_report.specs.Reports.{RoutingReport};
ghost use Rattle.watched_space.specs.Metering.{Meter, metered};
ghost use Rattle.machine_laws.specs.BoundedAccesses.{MadeAtMost};

/// A report reaches the register space that it leaves by reads and writes alone, one after another.
pub fn a_report_reaches_its_space_by_accesses<S>()
    ensures { (accesses : Accesses S) (dry : Bool) (avoid : List ℕ) (before after : MachineState S)
        (report : RoutingReport) → IsReport accesses dry avoid before after report →
        Reached accesses before.world.space after.world.space }
{}

/// Where accesses of a register space are bounded, no more are made of the space below, whatever evaluations make of a
/// world, and by a report of a machine: those that were made and those that are left are the bound. A bound that counts
/// no access, or is one more, is refused by this.
#[tactic(auto, using(crate::proofs::AccessesBounded::evaluations_bounded))]
pub fn no_more_accesses_are_made_than_the_bound<S>()
    ensures evaluations { (accesses : Accesses S) (bound : ℕ) (w v : State (Meter S)) →
        Becomes (metered accesses) w v → w.space.left ≡ Some bound → MadeAtMost accesses bound w.space v.space }
    ensures reports { (accesses : Accesses S) (bound : ℕ) (dry : Bool) (avoid : List ℕ)
        (before after : MachineState (Meter S)) (report : RoutingReport) →
        IsReport (metered accesses) dry avoid before after report → before.world.space.left ≡ Some bound →
        MadeAtMost accesses bound before.world.space after.world.space }
{}

/// While accesses are left each one is made of the space below and answered as there, and one less is left; with none
/// left it is answered `Device`, and the space below doesn't see it. A bound that refuses an access too early is
/// refused by this.
#[tactic(auto, using(crate::proofs::AccessesBounded::bounding))]
pub fn each_access_within_the_bound_is_made<S>()
    ensures read { (accesses : Accesses S) (m : Meter S) (place : Places) (width : Widths) (n : ℕ) →
        m.left ≡ Some (suc n) → (metered accesses).reads m place width ≡ (
          (accesses.reads m.inner place width).0,
          record { inner = (accesses.reads m.inner place width).1; left = Some n },
        ) }
    ensures no_read { (accesses : Accesses S) (m : Meter S) (place : Places) (width : Widths) → m.left ≡ Some 0 →
        (metered accesses).reads m place width ≡ (Err Device, m) }
    ensures write { (accesses : Accesses S) (m : Meter S) (place : Places) (width : Widths) (value n : ℕ) →
        m.left ≡ Some (suc n) → (metered accesses).writes m place width value ≡ (
          (accesses.writes m.inner place width value).0,
          record { inner = (accesses.writes m.inner place width value).1; left = Some n },
        ) }
    ensures no_write { (accesses : Accesses S) (m : Meter S) (place : Places) (width : Widths) (value : ℕ) →
        m.left ≡ Some 0 → (metered accesses).writes m place width value ≡ (Err Device, m) }
{}
