//! How many arguments a path takes.
ghost use Rattle.std.specs.Prelude.{ℕ, Bool, List, ◌≡◌, ◌==◌, ◌||◌, ◌++◌, ◌∷◌, [], OnOk, OnErr, IfOk, length, map};
ghost use Rattle.aml_arities.specs.declared.arities.Arity.{Arity};
ghost use Rattle.aml_arities.specs.Arities.{latest, arity_at, greatest, is_told_below};
ghost use Rattle.aml_arities.specs.Counts.{Placed, moved_by};

use crate::counts::CountTree;
use aml_path::{Path, Seg};
use std::alloc::{AllocError, Global};
use std::marker::Model;

/// How many arguments a path takes: as many as its method, none where it is no method.
#[derive(Debug, Drop)]
pub struct Arity {
    /// The path.
    pub path: Path,
    /// How many arguments it takes.
    pub count: u8,
    /// Whether an External names the path; else it is declared.
    pub external: bool,
}

/// Argument counts, lent by whoever knows them: readers of terms look them up, and copy none.
pub trait ArgumentCounts {
    ghost use Rattle.std.specs.Prelude.{List, length};
    ghost use Rattle.aml_arities.specs.declared.arities.Arity.{Arity};
    ghost use Rattle.aml_arities.specs.Arities.{greatest, is_known_below};

    /// The counts, the latest last.
    ghost counts: { Self → List Arity };

    /// The count of the last entry of a path, among those of one sort. It takes no memory.
    fn latest(&self, path: &Path, external: bool) -> Option<u8>
        ensures { result ≡ latest path.now external (counts self.now) };

    /// How many segments of a scope lead to the place below which some segments are a path with a count: of all such
    /// places, from the root down to the scope itself, the deepest. It takes no memory.
    fn deepest(&self, scope: &Path, segments: &[Seg]) -> Option<usize>
        ensures { result ≡ greatest (is_known_below (counts self.now) scope.now segments.now) (length scope.now) };
}

/// An entry: the number of its path, and the rest of an `Arity`. Numbers are `u32` to save memory.
#[derive(Clone, Copy, Debug)]
struct Entry {
    node: u32,
    count: u8,
    external: bool,
}

/// The argument counts of declared paths and of Externals, in the order in which they came.
///
/// At one path a declared name counts before an External, and of two of the same sort the later. Each path is kept
/// once, as a node of a tree, and a count is found from the root down.
#[derive(Debug, Drop)]
pub struct Arities {
    alloc: Global,
    names: CountTree,
    entries: Vec<Entry>,
}

impl Model for Arities {
    ghost use Rattle.std.specs.Prelude.{List};
    ghost use Rattle.aml_arities.specs.declared.arities.Arity.{Arity};
    ghost use Rattle.aml_arities.specs.Counts.{arities_of, Holds};

    ghost Value = { List Arity };

    ghost view = { λ a. arities_of a.names.paths a.entries.items };

    ghost invariant = { λ a. Holds a.names a.entries.items };
}

impl Arities {
    /// No path. It takes no memory.
    pub fn new(alloc: Global) -> Arities
        ensures { result ≡ [] }
    {
        Arities {
            alloc,
            names: CountTree::new(alloc),
            entries: Vec::new(alloc),
        }
    }

    /// Whether there is no entry.
    pub fn is_empty(&self) -> bool
        ensures { result ≡ (length self.now == 0) }
    {
        self.entries.is_empty()
    }

    /// Adds a path, declared or named by an External, as the latest. All memory is taken before the list changes. It
    /// is refused also where the tree would have more than 2^32 nodes. Nodes that were made until then stay, without
    /// counts.
    pub fn add(&mut self, path: Path, count: u8, external: bool) -> Result<(), AllocError>
        ensures ok { OnOk result (self.new ≡ self.old ++ record {
          path = path;
          count = count;
          external = external;
        } ∷ []) }
        ensures err { OnErr result (self.new ≡ self.old) }
    {
        self.entries.reserve(1)?;
        let node = self.names.make(&path)?;
        self.names.add(node, count, external);
        self.entries.push_reserved(Entry {
            node,
            count,
            external,
        });
        Ok(())
    }

    /// Adds all entries of others behind its own. Where memory runs out, or a tree would have more than 2^32 nodes,
    /// the list is as it was.
    ///
    /// The nodes of the list with fewer entries are found or made in the tree of the other. Then its own counts are
    /// put under those that are added, or those that are added over its own.
    pub fn append(&mut self, added: Arities) -> Result<(), AllocError>
        ensures ok { OnOk result (self.new ≡ self.old ++ added) }
        ensures err { OnErr result (self.new ≡ self.old) }
    {
        if self.entries.len() < added.entries.len() {
            self.take_over_with_names(added)
        } else {
            self.take_over(added)
        }
    }

    /// Takes entries over behind its own, with their tree, under whose counts it puts its own. All memory is taken
    /// before anything of its own changes.
    fn take_over_with_names(&mut self, added: Arities) -> Result<(), AllocError>
        ensures ok { OnOk result (self.new ≡ self.old ++ added) }
        ensures err { OnErr result (self.new ≡ self.old) }
    {
        let mut added = added;
        let nodes = added.names.make_all(self.alloc, &self.names)?;
        let mut entries = moved(self.alloc, &self.entries, &nodes)?;
        entries.append(&mut added.entries)?;
        added.names.put_under(&self.names, &nodes);
        self.names = added.names;
        self.entries = entries;
        Ok(())
    }

    /// Takes entries over behind its own, into its own tree, over whose counts it puts theirs. All memory is taken
    /// before the list or a count changes; nodes that were made until then stay, without counts.
    fn take_over(&mut self, added: Arities) -> Result<(), AllocError>
        ensures ok { OnOk result (self.new ≡ self.old ++ added) }
        ensures err { OnErr result (self.new ≡ self.old) }
    {
        let nodes = self.names.make_all(self.alloc, &added.names)?;
        let mut entries = moved(self.alloc, &added.entries, &nodes)?;
        self.entries.append(&mut entries)?;
        self.names.put_over(&added.names, &nodes);
        Ok(())
    }

    /// As `deepest`, of the paths that Externals name. It takes no memory.
    pub fn deepest_external(&self, scope: &Path, segments: &[Seg]) -> Option<usize>
        ensures { result ≡ greatest (is_told_below self.now scope.now segments.now) (length scope.now) }
    {
        self.names.deepest(false, scope, segments)
    }

    /// How many arguments a path takes, where it is known. It takes no memory.
    #[tactic(auto, unfolding(crate::specs::Arities::arity_at))]
    pub fn arity_at(&self, path: &Path) -> Option<u8>
        ensures { result ≡ arity_at self.now path.now }
    {
        match self.latest(path, false) {
            Some(count) => Some(count),
            None => self.latest(path, true),
        }
    }
}

impl ArgumentCounts for Arities {
    ghost counts = { λ arities. arities };

    fn latest(&self, path: &Path, external: bool) -> Option<u8> {
        self.names.latest(path, external)
    }

    fn deepest(&self, scope: &Path, segments: &[Seg]) -> Option<usize> {
        self.names.deepest(true, scope, segments)
    }
}

/// The greater of two depths: of the greatest of which one thing holds and the greatest of which another does, the
/// greatest of which either holds.
pub fn deeper(first: Option<usize>, second: Option<usize>) -> Option<usize>
    ensures { (f g : ℕ → Bool) (n : ℕ) → first ≡ greatest f n → second ≡ greatest g n →
        result ≡ greatest (λ k. f k || g k) n }
{
    match first {
        None => second,
        Some(one) => match second {
            None => first,
            Some(other) => { if one < other { second } else { first } }
        },
    }
}

/// Entries at the nodes to which their own lead.
fn moved(alloc: Global, entries: &[Entry], nodes: &[u32]) -> Result<Vec<Entry>, AllocError>
    requires { Placed (length nodes.now) entries.now }
    ensures { IfOk result (λ moved. moved.items ≡ map (moved_by nodes.now) entries.now) }
{
    let mut list = Vec::with_capacity(alloc, entries.len())?;
    for entry in entries {
        list.push(Entry {
            node: nodes[entry.node as usize],
            count: entry.count,
            external: entry.external,
        })?;
    }
    Ok(list)
}
