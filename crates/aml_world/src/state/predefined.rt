//! The names that stand before any table is loaded (ACPI 6.5, 5.3.1 and 5.7).
ghost use Rattle.std.specs.Prelude.{◌≡◌, ◌∷◌, [], Ok, codes};
ghost use Rattle.ar_space.specs.Outcome.{Answers};
ghost use Rattle.aml_objects.specs.Objects.{make_string};
ghost use Rattle.aml_world.specs.state.State.{on_objects};
ghost use Rattle.ar_space.specs.Change.{Does};
ghost use Rattle.aml_world.specs.state.Predefined.{at_root, predefined, predefined_objects, predefined_scopes};

use crate::state::world_state::WorldState;
use aml_objects::{Method, MethodBody, MethodFlags, NamedObject, Octets, Value};
use aml_path::{Path, Seg};
use ar_space::Result;
use std::alloc::Global;

impl<S> WorldState<S> {
    /// The predefined names.
    #[tactic(auto, using(ar_space::proofs::Changes::changing), unfolding(crate::specs::state::Predefined::predefined))]
    pub(crate) fn predefine(&mut self) -> Result<()>
        ensures world { Does result self.new predefined self.old }
        ensures space { self.new.space ≡ self.old.space }
    {
        self.predefine_scopes()?;
        self.predefine_objects()
    }

    #[tactic(auto, using(ar_space::proofs::Changes::changing), unfolding(crate::specs::state::Predefined::predefined_scopes))]
    fn predefine_scopes(&mut self) -> Result<()>
        ensures world { Does result self.new predefined_scopes self.old }
        ensures space { self.new.space ≡ self.old.space }
    {
        self.at_root(*b"_GPE", NamedObject::Scope, 0)?;
        self.at_root(*b"_PR_", NamedObject::Scope, 0)?;
        self.at_root(*b"_SB_", NamedObject::Scope, 0)?;
        self.at_root(*b"_SI_", NamedObject::Scope, 0)?;
        self.at_root(*b"_TZ_", NamedObject::Scope, 0)
    }

    #[tactic(auto, using(ar_space::proofs::Changes::changing), unfolding(crate::specs::state::Predefined::predefined_objects))]
    fn predefine_objects(&mut self) -> Result<()>
        ensures world { Does result self.new predefined_objects self.old }
        ensures space { self.new.space ≡ self.old.space }
    {
        self.at_root(*b"_GL_", NamedObject::Mutex(0), 0)?;
        let text = self.operating_system()?;
        self.at_root(*b"_OS_", NamedObject::Data(text), 0)?;
        self.at_root(*b"_REV", NamedObject::Data(Value::Integer(2)), 0)?;
        let osi = Method {
            flags: MethodFlags { byte: 1 },
            body: MethodBody::Osi,
        };
        self.at_root(*b"_OSI", NamedObject::Method(osi), 1)
    }

    /// A name at the root, given by its four characters, and how many arguments it takes.
    #[tactic(auto, using(ar_space::proofs::Changes::changing), unfolding(crate::specs::state::Predefined::at_root, crate::specs::state::Predefined::takes))]
    fn at_root(&mut self, name: [u8; 4], object: NamedObject, count: u8) -> Result<()>
        ensures world { Does result self.new (at_root name object count) self.old }
        ensures space { self.new.space ≡ self.old.space }
    {
        let segment = Seg::new(name)?;
        let path = below_root(self.alloc, segment)?;
        self.declare(path, object)?;
        let path = below_root(self.alloc, segment)?;
        self.declarations.add_arity(path, count)
    }

    /// The value of `\\_OS_`.
    #[tactic(auto, using(crate::proofs::Lifted::making))]
    fn operating_system(&mut self) -> Result<Value>
        ensures world { Does result self.new (on_objects (make_string (codes "Microsoft Windows NT"))) self.old }
        ensures space { self.new.space ≡ self.old.space }
    {
        let name = Octets::from_vec(Vec::from_slice(self.alloc, b"Microsoft Windows NT")?);
        self.heap.make_string(name)
    }
}

fn below_root(alloc: Global, segment: Seg) -> Result<Path>
    ensures { Answers result (Ok (segment ∷ [])) }
{
    Path::root(alloc).child(alloc, segment)
}
