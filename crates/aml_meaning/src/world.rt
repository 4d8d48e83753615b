//! A world, as callers have it (ACPI 6.5, 5.3 and 5.5).
ghost use Rattle.std.specs.Prelude.{◌≡◌, ◌≢◌, Ok, Err, IfOk, IfErr};
ghost use Rattle.ar_space.specs.declared.refusal.Refusal.TheVariants.{OutOfMemory};
ghost use Rattle.aml_world.specs.state.Predefined.{fresh, fresh_as, predefined};

use crate::running::Running;
use aml_namespace::Names;
use aml_objects::Octets;
use aml_world::{EvaluationSettings, Profile, WorldState};
use ar_space::{IntegerWidth, Refusal, Result};
use std::alloc::Global;
use std::marker::Model;

/// A world: the namespace with its objects, and the register space under it, which evaluation changes.
///
/// Tables are loaded into it, and its objects are evaluated, by the calls of `aml_interp`. What else
/// changes or shows it without evaluating are calls of its state, `world.running.world`, and of the parts of that: its
/// objects (`heap`) and its register space (`space`).
#[derive(Drop)]
pub struct World<S> {
    /// The world's state, and the steps of the evaluation in progress.
    pub running: Running<S>,
}

impl<S> Model for World<S> {
    ghost use Rattle.aml_world.specs.state.State.{State, state_code};

    ghost Value = { State S };

    ghost coded = { state_code S.code };

    ghost view = { λ w. w.running.0 };
}

impl<S> World<S> {
    /// A world of the core profile with the predefined names, over a register space, with the texts that `_OSI` knows
    /// and integers of a width. Where it is refused, which only want of memory does, the register space comes back as
    /// it was.
    pub fn new(
        alloc: Global,
        width: IntegerWidth,
        osi: Vec<Octets>,
        space: S,
    ) -> Result<World<S>, (Refusal, S)>
        ensures world { IfOk result (λ world. predefined (fresh width osi.items space) ≡ (Ok tt, world)) }
        ensures space { IfErr result (λ refused. refused.1 ≡ space) }
        ensures refusal { IfErr result (λ refused. refused.0 ≢ OutOfMemory →
            (predefined (fresh width osi.items space)).0 ≡ Err refused.0) }
    {
        World::with_settings(
            alloc,
            EvaluationSettings::of(Profile::Core),
            width,
            osi,
            space,
        )
    }

    /// A world as `new` makes it, with settings, which it keeps.
    pub fn with_settings(
        alloc: Global,
        settings: EvaluationSettings,
        width: IntegerWidth,
        osi: Vec<Octets>,
        space: S,
    ) -> Result<World<S>, (Refusal, S)>
        ensures world { IfOk result (λ world. predefined (fresh_as settings width osi.items space) ≡ (Ok tt, world)) }
        ensures space { IfErr result (λ refused. refused.1 ≡ space) }
        ensures refusal { IfErr result (λ refused. refused.0 ≢ OutOfMemory →
            (predefined (fresh_as settings width osi.items space)).0 ≡ Err refused.0) }
    {
        match WorldState::new(alloc, settings, width, osi, space) {
            Ok(world) => Ok(World {
                running: Running { world, steps: 0 },
            }),
            Err(refused) => Err(refused),
        }
    }

    /// The register space, given back.
    pub fn into_space(self) -> S
        ensures { result ≡ self.space }
    {
        self.running.world.space
    }

    /// Other texts that `_OSI` knows, in place of those before (ACPI 6.5, 5.7.2). It takes no memory.
    pub fn set_osi(&mut self, osi: Vec<Octets>)
        ensures { self.new ≡ record self.old { osi = osi.items } }
    {
        self.running.world.set_osi(osi);
    }

    /// The names that are declared.
    pub fn names(&self) -> &Names
        ensures { result.now ≡ self.now.names }
    {
        self.running.world.names()
    }

    /// The register space.
    pub fn space(&self) -> &S
        ensures { result.now ≡ self.now.space }
    {
        &self.running.world.space
    }
}
