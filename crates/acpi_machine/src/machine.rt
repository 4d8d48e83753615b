//! A machine, and what it shows without evaluating.
ghost use Rattle.std.specs.Prelude.{◌≡◌, option_map};
ghost use Rattle.acpi_machine.specs.MachineStates.{sci_of};

use crate::mode::is_apic;
use aml_meaning::World;
use aml_world::WorldState;
use ar_space::Space;
use ar_tables::{Fadt, Madt, Mode, Tables, sci_source};
use std::marker::Model;

/// A machine: the world that its tables were loaded into, the tables, how it delivers interrupts, how many steps an
/// evaluation may take, and whether a call ran out of memory.
///
/// After `initialize`, `evaluate_object` or `find_bus` answered `OutOfMemory`, each further call that evaluates answers
/// `Spent` and changes nothing. `evaluate_child` still answers none where no such name stands; where memory runs out for
/// its path alone, nothing changes. Calls with `&self` still return, but nothing is promised of what they show.
#[derive(Drop)]
pub struct Machine<S> {
    pub(crate) world: World<S>,
    pub(crate) tables: Tables,
    pub(crate) mode: Mode,
    pub(crate) steps: u64,
    pub(crate) spent: bool,
}

impl<S> Model for Machine<S> {
    ghost use Rattle.acpi_machine.specs.MachineStates.{MachineState, machine_code};

    ghost Value = { MachineState S };

    ghost coded = { machine_code S.code };

    ghost view = { λ m. record { world = m.world; tables = m.tables; mode = m.mode; steps = m.steps; spent = m.spent } };
}

impl<S: Space> Machine<S> {
    /// The mode that was last handed to `initialize`, whether that was refused or not; `Apic` before.
    pub fn mode(&self) -> Mode
        ensures { result ≡ self.now.mode }
    {
        self.mode
    }

    /// The MADT, where there is one (ACPI 6.5, 5.2.12).
    pub fn madt(&self) -> Option<&Madt>
        ensures { option_map (λ madt. madt.now) result ≡ self.now.tables.madt }
    {
        match &self.tables.madt {
            None => None,
            Some(madt) => Some(madt),
        }
    }

    /// The FADT (ACPI 6.5, 5.2.9).
    pub fn fadt(&self) -> &Fadt
        ensures { result.now ≡ self.now.tables.fadt }
    {
        &self.tables.fadt
    }

    /// The interrupt source of the System Control Interrupt in the machine's mode, as `ar_tables::sci_source` gives
    /// it: none where the FADT names none.
    pub fn sci(&self) -> Option<u32>
        ensures { result ≡ sci_of self.now }
    {
        sci_source(&self.tables, is_apic(self.mode))
    }

    /// The register space, with the accesses made so far.
    pub fn space(&self) -> &S
        ensures { result.now ≡ self.now.world.space }
    {
        self.world.space()
    }

    /// The world that its tables were loaded into, as it is: its `profile`, its register `space` with the accesses made
    /// so far, the refusals that were `passed_over` in loading and in initializing, and the `trace` of the call that
    /// evaluated last, if that was refused: the control methods that were running, the name that was looked for, and
    /// the steps that were left. No contract says that this is the place of a refusal: it is tested.
    ///
    /// ```
    /// if let Err(refusal) = machine.evaluate_object(alloc, &path, Vec::new(alloc)) {
    ///     for place in machine.world().trace().places() {
    ///         println!(rt; "{} at {}", path_text(alloc, &place.scope)?, place.at)?;
    ///     }
    /// }
    /// for item in machine.world().passed_over().kept() {
    ///     println!(rt; "{} in {}", item.refusal, path_text(alloc, &item.scope)?)?;
    /// }
    /// ```
    pub fn world(&self) -> &WorldState<S>
        ensures { result.now ≡ self.now.world }
    {
        &self.world.running.world
    }

    /// Its world, given back.
    pub fn into_world(self) -> WorldState<S>
        ensures { result ≡ self.world }
    {
        self.world.running.world
    }
}
