//! The bodies of control methods.
ghost use Rattle.std.specs.Prelude.{◌≡◌, Ok};
ghost use Rattle.ar_space.specs.Outcome.{Answers};

use crate::object::Octets;
use ar_space::Result;
use std::alloc::Global;
use std::marker::Model;
use std::rc::Rc;

/// The AML of the body of a control method (ACPI 6.5, 20.2.5.2, MethodObj), which is seen as its bytes alone.
///
/// It is a counted share of these bytes: a call takes a share, so that the body stays where it is until the call ends.
#[derive(Debug, Drop)]
pub struct Body {
    bytes: Rc<Octets>,
}

impl Model for Body {
    ghost use Rattle.std.specs.Prelude.{List, ℕ};

    ghost Value = { List ℕ };

    ghost view = { λ b. b.bytes.value };
}

impl Body {
    /// The body that these bytes are.
    pub fn new(alloc: Global, bytes: Octets) -> Result<Body>
        ensures { Answers result (Ok bytes) }
    {
        Ok(Body {
            bytes: Rc::new(alloc, bytes)?,
        })
    }

    /// Another share of the same bytes. It takes no memory, and is refused as `OutOfMemory` where no more shares can be
    /// counted.
    pub fn share(&self) -> Result<Body>
        ensures { Answers result (Ok self.now) }
    {
        Ok(Body {
            bytes: Rc::clone(&self.bytes)?,
        })
    }

    /// The bytes.
    pub fn as_slice(&self) -> &[u8]
        ensures { result.now ≡ self.now }
    {
        self.bytes.as_slice()
    }
}
