//! What the object at a path is, as a name finds it from the root (ACPI 6.5, 5.3).
ghost use Rattle.std.specs.Prelude.{[], Ok};
ghost use Rattle.ar_space.specs.Outcome.{Answers};
ghost use Rattle.ar_space.specs.Change.{Does};
ghost use Rattle.aml_world.specs.state.Readings.{absolute};
ghost use Rattle.aml_world.specs.state.Invocations.{invocation_found};

use aml_path::{NameString, Path, Prefix};
use aml_world::{Invocation, WorldState};
use ar_space::{Result, Space};
use std::alloc::Global;

/// What the object at a path is that is asked for with so many arguments.
pub fn invocation_at<S: Space>(
    world: &WorldState<S>,
    path: &Path,
    count: usize,
) -> Result<Invocation>
    ensures { Does result world.now (invocation_found [] (absolute path.now) count) world.now }
{
    match absolute(world.alloc, path) {
        Ok(name) => from_root(world, &name, count),
        Err(refusal) => Err(refusal),
    }
}

/// What the object is that a name finds from the root and that is asked for with so many arguments.
fn from_root<S: Space>(world: &WorldState<S>, name: &NameString, count: usize) -> Result<Invocation>
    ensures { Does result world.now (invocation_found [] name.now count) world.now }
{
    let root = Path::root(world.alloc);
    world.invocation(world.scope(&root), name, count)
}

/// A path, as a name that stands for it anywhere.
fn absolute(alloc: Global, path: &Path) -> Result<NameString>
    ensures { Answers result (Ok (absolute path.now)) }
{
    Ok(NameString::new(Prefix::Root, path.copy(alloc)?.into_vec()))
}
