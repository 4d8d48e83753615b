//! The names below a path, and all names, in order.
ghost use Rattle.std.specs.Prelude.{◌≡◌, ◌||◌, List, Ok, OnOk, IsOkUnless};
ghost use Rattle.std.specs.BTreeSet.{contains, IsOrdered};
ghost use Rattle.ar_space.specs.declared.refusal.Refusal.TheVariants.{OutOfMemory};
ghost use Rattle.aml_path.specs.declared.segment.Seg.{Seg};
ghost use Rattle.aml_path.specs.Paths.{path_cmp};
ghost use Rattle.ar_space.specs.Outcome.{Answers, seen};
ghost use Rattle.aml_namespace.specs.Walks.{children, walked, is_named};

use crate::names::{Names, root_id};
use crate::tree::descend;
use aml_objects::NodeId;
use aml_path::{Path, Seg};
use ar_space::Result;
use std::alloc::Global;
use std::collections::BTreeSet;

impl Names {
    /// The last segments of the names one level below a path, ascending.
    pub fn children(&self, alloc: Global, path: &Path) -> Result<Vec<Seg>>
        ensures { Answers (seen (λ list. list.items) result) (Ok (children path.now self.now.map)) }
    {
        // A number is below the next one.
        let _next = self.next;
        match descend(&self.nodes, &self.index, root_id(), path.segments()) {
            None => Ok(Vec::new(alloc)),
            Some(id) => self.index.children_of(alloc, id.number),
        }
    }

    /// The paths of all names but the root, in path order.
    pub fn walk(&self, alloc: Global) -> Result<Vec<Path>>
        ensures { Answers (seen (λ list. list.items) result) (Ok (walked self.now.map)) }
    {
        let mut paths = BTreeSet::new(alloc);
        for (_, id) in self.index.places() {
            put_named(&mut paths, self.path_of(alloc, *id)?)?;
        }
        listed(alloc, paths)
    }
}

/// Puts a path among others, if there is one and it isn't the root's.
fn put_named(paths: &mut BTreeSet<Path>, path: Option<Path>) -> Result<()>
    ensures put { OnOk result ((q : List Seg) → contains path_cmp paths.new q ≡
        (contains path_cmp paths.old q || is_named q path)) }
    ensures memory { IsOkUnless result OutOfMemory }
{
    match path {
        None => Ok(()),
        Some(path) => {
            if path.depth() == 0 {
                return Ok(());
            }
            paths.insert(path)?;
            Ok(())
        }
    }
}

/// Paths in path order.
fn listed(alloc: Global, paths: BTreeSet<Path>) -> Result<Vec<Path>>
    ensures paths { Answers (seen (λ list. list.items) result) (Ok paths.keys) }
    ensures ordered { IsOrdered path_cmp paths }
{
    let mut list = Vec::new(alloc);
    for path in paths {
        list.push(path)?;
    }
    Ok(list)
}
