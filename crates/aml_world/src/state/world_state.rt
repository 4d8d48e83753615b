//! The state of a world, which evaluation changes.
ghost use Rattle.std.specs.Prelude.{◌≡◌, ◌≢◌, Ok, Err, IfOk, IfErr};
ghost use Rattle.ar_space.specs.declared.refusal.Refusal.TheVariants.{OutOfMemory};
ghost use Rattle.aml_world.specs.state.Predefined.{fresh_as, predefined};

use crate::state::frame::Frame;
use crate::state::known_names::Declarations;
use crate::state::passed_over::PassedOver;
use crate::state::profile::Profile;
use crate::state::settings::{EvaluationSettings, Nesting};
use crate::state::trace::Trace;
use aml_namespace::Names;
use aml_objects::{Heap, Octets};
use ar_space::{IntegerWidth, Refusal};
use std::alloc::Global;
use std::marker::Model;

/// The state of a world: what evaluation changes, the register space among it: the namespace, how many arguments its
/// names take, the objects, the frames of the calls in progress with the number of the next one, the texts that
/// `_OSI` knows, how wide integers are, the profile, how deep calls and terms may be, and what was passed over. Beside
/// them stand where evaluation was refused last and where the world takes its memory, which no contract sees.
#[derive(Drop)]
pub struct WorldState<S> {
    pub(crate) declarations: Declarations,
    /// The objects. Whoever puts others in their place takes what names and slots hold from under them.
    pub heap: Heap,
    pub(crate) frames: Vec<Frame>,
    pub(crate) started: u64,
    /// The register space.
    pub space: S,
    pub(crate) osi: Vec<Octets>,
    pub(crate) width: IntegerWidth,
    pub(crate) profile: Profile,
    pub(crate) nesting: Nesting,
    pub(crate) passed: PassedOver,
    pub(crate) trace: Trace,
    /// Where the world takes its memory.
    pub alloc: Global,
}

impl<S> Model for WorldState<S> {
    ghost use Rattle.aml_world.specs.state.State.{State, state_code};

    ghost Value = { State S };

    ghost coded = { state_code S.code };

    ghost view = { λ w. record { names = w.declarations.names; arities = w.declarations.arities; objects = w.heap; frames = w.frames.items; started = w.started; space = w.space; osi = w.osi.items; width = w.width; profile = w.profile; nesting = w.nesting; passed = w.passed } };
}

impl<S> WorldState<S> {
    /// The state with the predefined names alone. Where it is refused, which only want of memory does, the register
    /// space comes back as it was.
    pub fn new(
        alloc: Global,
        settings: EvaluationSettings,
        width: IntegerWidth,
        osi: Vec<Octets>,
        space: S,
    ) -> Result<WorldState<S>, (Refusal, S)>
        ensures world { IfOk result (λ world. predefined (fresh_as settings width osi.items space) ≡ (Ok tt, world)) }
        ensures space { IfErr result (λ refused. refused.1 ≡ space) }
        ensures refusal { IfErr result (λ refused. refused.0 ≢ OutOfMemory →
            (predefined (fresh_as settings width osi.items space)).0 ≡ Err refused.0) }
    {
        let declarations = match Declarations::new(alloc) {
            Ok(declarations) => declarations,
            Err(refusal) => return Err((refusal, space)),
        };
        let mut world = WorldState {
            declarations,
            heap: Heap::new(alloc),
            frames: Vec::new(alloc),
            started: 0,
            space,
            osi,
            width,
            profile: settings.profile,
            nesting: settings.nesting,
            passed: PassedOver::new(alloc),
            trace: Trace::new(alloc),
            alloc,
        };
        match world.predefine() {
            Ok(()) => Ok(world),
            Err(refusal) => Err((refusal, world.space)),
        }
    }

    /// Other texts that `_OSI` knows, in place of those before (ACPI 6.5, 5.7.2). It takes no memory.
    pub fn set_osi(&mut self, osi: Vec<Octets>)
        ensures { self.new ≡ record self.old { osi = osi.items } }
    {
        self.osi = osi;
    }

    /// The names that are declared.
    #[inline]
    pub fn names(&self) -> &Names
        ensures { result.now ≡ self.now.names }
    {
        &self.declarations.names
    }

    /// The objects, to be read.
    pub fn objects(&self) -> &Heap
        ensures { result.now ≡ self.now.objects }
    {
        &self.heap
    }

    /// How wide integers are, which nothing changes.
    #[inline]
    pub fn width(&self) -> IntegerWidth
        ensures { result ≡ self.now.width }
    {
        self.width
    }

    /// The profile, which nothing changes.
    pub fn profile(&self) -> Profile
        ensures { result ≡ self.now.profile }
    {
        self.profile
    }

    /// How deep calls and terms may be one inside another, which nothing changes.
    pub fn nesting(&self) -> Nesting
        ensures { result ≡ self.now.nesting }
    {
        self.nesting
    }

    /// The refusals that were passed over in loading and in initializing; none in the core profile.
    pub fn passed_over(&self) -> &PassedOver
        ensures { result.now ≡ self.now.passed }
    {
        &self.passed
    }

    /// Where the evaluation that was last begun was refused. That this is the place is tested, and no contract says it;
    /// reading it changes nothing.
    pub fn trace(&self) -> &Trace {
        &self.trace
    }

    /// The register space, given back, where the evaluation that was last begun was refused, and what was passed over.
    pub fn into_parts(self) -> (S, Trace, PassedOver)
        ensures space { result.0 ≡ self.space }
        ensures passed { result.2 ≡ self.passed }
    {
        (self.space, self.trace, self.passed)
    }
}
