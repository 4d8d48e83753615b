//! Shows the namespace of a machine (ACPI 6.5, 5.3).
ghost use Rattle.std.specs.Prelude.{◌≡◌, Ok, map, option_map};
ghost use Rattle.std.specs.List.{filter_map};
ghost use Rattle.ar_space.specs.Outcome.{Answers, seen};
ghost use Rattle.acpi_machine.specs.Kinds.{kind_seen, kind_at, with_kind, kinds_walked};

use crate::kind::{Kind, kind_of};
use crate::machine::Machine;
use aml_namespace::Names;
use aml_path::Path;
use ar_space::{Result, Space};
use std::alloc::Global;

impl<S: Space> Machine<S> {
    /// What stands at a path, the root among them. An alias is shown, and not followed. It takes no memory.
    pub fn find_node(&self, path: &Path) -> Option<Kind<'_>>
        ensures { option_map kind_seen result ≡ kind_at self.now.world.names.map path.now }
    {
        kind_at(self.world.names(), path)
    }

    /// All names but the root, in path order, and what stands there. An alias is shown, and not followed.
    #[tactic(auto, unfolding(crate::specs::Kinds::kinds_walked))]
    pub fn walk_namespace(&self, alloc: Global) -> Result<Vec<(Path, Kind<'_>)>>
        ensures { Answers (seen (λ list. map (λ node. (node.0, kind_seen node.1)) list.items) result)
            (Ok (kinds_walked self.now.world.names.map)) }
    {
        let names = self.world.names();
        with_kinds(alloc, names, names.walk(alloc)?)
    }
}

/// What stands at a path.
fn kind_at<'a>(names: &'a Names, path: &Path) -> Option<Kind<'a>>
    ensures { option_map kind_seen result ≡ kind_at names.now.map path.now }
{
    match names.get(path) {
        None => None,
        Some(entry) => Some(kind_of(&entry.object)),
    }
}

/// What stands at each of some paths where something does.
fn with_kinds(alloc: Global, names: &Names, paths: Vec<Path>) -> Result<Vec<(Path, Kind<'_>)>>
    ensures { Answers (seen (λ list. map (λ node. (node.0, kind_seen node.1)) list.items) result)
        (Ok (filter_map (with_kind names.now.map) paths.items)) }
{
    let mut list = Vec::new(alloc);
    for path in paths {
        match kind_at(names, &path) {
            None => {}
            Some(kind) => list.push((path, kind))?,
        }
    }
    Ok(list)
}
