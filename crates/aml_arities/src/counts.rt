//! The latest argument counts, by path.
ghost use Rattle.std.specs.Prelude.{◌≡◌, ◌<◌, ◌≤◌, ◌++◌, ℕ, List, [], ◌∷◌, Some, IfOk, OnOk, length, get_or};
ghost use Rattle.std.specs.Prelude.{if◌then◌else◌};
ghost use Rattle.aml_path.specs.declared.segment.Seg.{Seg as Segment};
ghost use Rattle.aml_arities.specs.PathTree.{number_of, Kept, Leads};
ghost use Rattle.aml_arities.specs.Arities.{greatest};
ghost use Rattle.aml_arities.specs.Counts.{count_of, counts_at, with_count, over, shown, is_counted, is_shown};
ghost use Rattle.aml_arities.specs.Counts.{is_shown_below, with_added, SameCounts, BothCounts};

use crate::path_tree::PathTree;
use aml_path::{Path, Seg};
use std::alloc::{AllocError, Global};
use std::marker::Model;

/// The latest argument counts of one path.
#[derive(Clone, Copy, Debug)]
pub struct Counts {
    /// That of the declarations of the path.
    pub declared: Option<u8>,
    /// That of the Externals that name the path.
    pub external: Option<u8>,
}

/// No count of either sort.
const NO_COUNTS: Counts = Counts {
    declared: None,
    external: None,
};

/// The latest argument counts of each path, found from the root down.
///
/// A path past those that have counts has none, so that the root alone takes no memory.
#[derive(Debug, Drop)]
pub(crate) struct CountTree {
    tree: PathTree,
    counts: Vec<Counts>,
}

impl Model for CountTree {
    ghost use Rattle.std.specs.Prelude.{◌≤◌, length};
    ghost use Rattle.aml_arities.specs.Counts.{Counted, counted_code};

    ghost Value = { Counted };

    ghost coded = { counted_code };

    ghost view = { λ t. record { paths = t.tree; counts = t.counts.items } };

    ghost invariant = { λ t. length t.counts.items ≤ length t.tree };
}

impl CountTree {
    /// No count. It takes no memory.
    pub(crate) fn new(alloc: Global) -> CountTree
        ensures { result ≡ record { paths = [] ∷ []; counts = [] } }
    {
        CountTree {
            tree: PathTree::new(alloc),
            counts: Vec::new(alloc),
        }
    }

    /// The latest count of a path, among those of one sort. It takes no memory.
    pub(crate) fn latest(&self, path: &Path, external: bool) -> Option<u8>
        ensures { result ≡ shown self.now path.now external }
    {
        match self.tree.find(path) {
            None => None,
            Some(node) => self.at(node, external),
        }
    }

    /// How many segments of a scope lead to the place below which some segments have a count, the longest such way
    /// from the root down: a count that an External tells, or, with `any`, also one that a declaration has. It takes
    /// no memory.
    pub(crate) fn deepest(&self, any: bool, scope: &Path, segments: &[Seg]) -> Option<usize>
        ensures { result ≡ greatest (is_shown_below any self.now scope.now segments.now) (length scope.now) }
    {
        let mut node = self.tree.root();
        let mut depth = 0;
        let mut deepest = deepest_so_far(None, self.is_shown(any, node, segments), depth);
        let steps = scope.segments();
        for step in steps {
            match self.tree.below(node, *step) {
                None => return deepest,
                Some(next) => node = next,
            }
            depth += 1;
            deepest = deepest_so_far(deepest, self.is_shown(any, node, segments), depth);
        }
        deepest
    }

    /// Whether some segments below the node with a number have a count.
    fn is_shown(&self, any: bool, node: u32, segments: &[Seg]) -> bool
        requires { node < length self.now.paths }
        ensures { result ≡ is_shown any self.now (get_or self.now.paths node [] ++ segments.now) }
    {
        match self.tree.descend(node, segments) {
            None => false,
            Some(below) => self.is_counted(any, below),
        }
    }

    /// Whether the path with a number has a count.
    fn is_counted(&self, any: bool, node: u32) -> bool
        ensures { result ≡ is_counted any (counts_at self.now.counts node) }
    {
        self.at(node, true).is_some() || any && self.at(node, false).is_some()
    }

    /// The latest count under a number, among those of one sort.
    fn at(&self, node: u32, external: bool) -> Option<u8>
        ensures { result ≡ count_of (counts_at self.now.counts node) external }
    {
        let place = node as usize;
        if place < self.counts.len() {
            count_of(&self.counts[place], external)
        } else {
            None
        }
    }

    /// The number of a path, and room for its counts, so that adding one takes no memory. It is refused also where no
    /// number is left.
    pub(crate) fn make(&mut self, path: &Path) -> Result<u32, AllocError>
        ensures kept { Kept self.old.paths self.new.paths }
        ensures same { SameCounts self.old self.new }
        ensures node { IfOk result (λ node. number_of path.now self.new.paths ≡ Some node) }
        ensures room { IfOk result (λ node. node < length self.new.counts) }
    {
        let node = self.tree.make(path)?;
        self.counts.resize(self.tree.len(), NO_COUNTS)?;
        Ok(node)
    }

    /// The numbers of the paths of others, and room for their counts. It is refused also where no number is left.
    pub(crate) fn make_all(
        &mut self,
        alloc: Global,
        others: &CountTree,
    ) -> Result<Vec<u32>, AllocError>
        ensures kept { Kept self.old.paths self.new.paths }
        ensures same { SameCounts self.old self.new }
        ensures nodes { IfOk result (λ nodes. Leads self.new.paths others.now.paths nodes.items) }
        ensures room { OnOk result (length self.new.paths ≤ length self.new.counts) }
    {
        let nodes = self.tree.make_all(alloc, &others.tree)?;
        self.counts.resize(self.tree.len(), NO_COUNTS)?;
        Ok(nodes)
    }

    /// Adds the latest count of the path with a number.
    pub(crate) fn add(&mut self, node: u32, count: u8, external: bool)
        requires { node < length self.old.counts }
        ensures { self.new ≡ with_added self.old node count external }
    {
        let place = node as usize;
        self.counts[place] = with_count(self.counts[place], count, external);
    }

    /// Puts later counts over its own, by the numbers of their paths here. It takes no memory.
    pub(crate) fn put_over(&mut self, later: &CountTree, nodes: &[u32])
        requires leads { Leads self.old.paths later.now.paths nodes.now }
        requires room { length self.old.paths ≤ length self.old.counts }
        ensures paths { self.new.paths ≡ self.old.paths }
        ensures counts { BothCounts self.old later.now self.new }
    {
        put_over(&mut self.counts, &later.counts, nodes);
    }

    /// Puts earlier counts under its own, by the numbers of their paths here. It takes no memory.
    pub(crate) fn put_under(&mut self, earlier: &CountTree, nodes: &[u32])
        requires leads { Leads self.old.paths earlier.now.paths nodes.now }
        requires room { length self.old.paths ≤ length self.old.counts }
        ensures paths { self.new.paths ≡ self.old.paths }
        ensures counts { BothCounts earlier.now self.old self.new }
    {
        put_under(&mut self.counts, &earlier.counts, nodes);
    }
}

/// Puts later counts over some, each at its number.
fn put_over(counts: &mut Vec<Counts>, later: &[Counts], nodes: &[u32])
    requires many { length later.now ≤ length nodes.now }
    requires within { (n : ℕ) → n < length nodes.now → get_or nodes.now n 0 < length counts.old.items }
    ensures long { length counts.new.items ≡ length counts.old.items }
    ensures both { (ps qs : List (List Segment)) → Leads ps qs nodes.now →
        BothCounts (record { paths = ps; counts = counts.old.items }) (record { paths = qs; counts = later.now })
        (record { paths = ps; counts = counts.new.items }) }
{
    for node in 0..later.len() {
        let place = nodes[node] as usize;
        counts[place] = over(later[node], counts[place]);
    }
}

/// Puts earlier counts under some, each at its number.
fn put_under(counts: &mut Vec<Counts>, earlier: &[Counts], nodes: &[u32])
    requires many { length earlier.now ≤ length nodes.now }
    requires within { (n : ℕ) → n < length nodes.now → get_or nodes.now n 0 < length counts.old.items }
    ensures long { length counts.new.items ≡ length counts.old.items }
    ensures both { (ps qs : List (List Segment)) → Leads ps qs nodes.now →
        BothCounts (record { paths = qs; counts = earlier.now }) (record { paths = ps; counts = counts.old.items })
        (record { paths = ps; counts = counts.new.items }) }
{
    for node in 0..earlier.len() {
        let place = nodes[node] as usize;
        counts[place] = over(counts[place], earlier[node]);
    }
}

/// The depth, where something holds there, or else the depth so far.
fn deepest_so_far(so_far: Option<usize>, holds: bool, depth: usize) -> Option<usize>
    ensures { result ≡ if holds then Some depth else so_far }
{
    if holds { Some(depth) } else { so_far }
}

/// The count of one sort.
fn count_of(counts: &Counts, external: bool) -> Option<u8>
    ensures { result ≡ count_of counts.now external }
{
    if external {
        counts.external
    } else {
        counts.declared
    }
}

/// Another count of one sort.
fn with_count(counts: Counts, count: u8, external: bool) -> Counts
    ensures { result ≡ with_count counts count external }
{
    if external {
        Counts {
            declared: counts.declared,
            external: Some(count),
        }
    } else {
        Counts {
            declared: Some(count),
            external: counts.external,
        }
    }
}

/// The later count of each sort, or else the earlier.
fn over(later: Counts, earlier: Counts) -> Counts
    ensures { result ≡ over later earlier }
{
    Counts {
        declared: later.declared.or(earlier.declared),
        external: later.external.or(earlier.external),
    }
}
