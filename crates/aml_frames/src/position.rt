//! Where evaluation stands in a list of bytes, and the path whose names it resolves there.
ghost use Rattle.std.specs.Prelude.{◌≡◌, Ok};
ghost use Rattle.ar_space.specs.Outcome.{Answers};

use aml_path::Path;
use ar_space::Result;
use std::alloc::Global;
use std::marker::Model;
use std::rc::Rc;

/// Where evaluation stands in a list of bytes: the offset of the next byte, and that behind the last one of its list
/// or package.
#[derive(Clone, Copy, Debug)]
pub struct Position {
    pub at: usize,
    pub end: usize,
}

/// The path of a control method or of a scope: a counted share of it.
#[derive(Drop)]
pub struct MethodPath {
    path: Rc<Path>,
}

impl Model for MethodPath {
    ghost use Rattle.std.specs.Prelude.{List};
    ghost use Rattle.aml_path.specs.declared.segment.Seg.{Seg};

    ghost Value = { List Seg };

    ghost view = { λ p. p.path.value };
}

impl MethodPath {
    /// The path that this is.
    pub fn new(alloc: Global, path: Path) -> Result<MethodPath>
        ensures { Answers result (Ok path) }
    {
        Ok(MethodPath {
            path: Rc::new(alloc, path)?,
        })
    }

    /// Another share of the same path. It takes no memory, and is refused as `OutOfMemory` where no more shares can
    /// be counted.
    pub fn share(&self) -> Result<MethodPath>
        ensures { Answers result (Ok self.now) }
    {
        Ok(MethodPath {
            path: Rc::clone(&self.path)?,
        })
    }

    /// The path.
    pub fn path(&self) -> &Path
        ensures { result.now ≡ self.now }
    {
        self.path.as_ref()
    }
}
