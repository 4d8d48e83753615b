//! Paths by number.
ghost use Rattle.std.specs.Prelude.{◌≡◌, ◌<◌, ◌≤◌, ◌+◌, ◌++◌, ◌∷◌, [], List, None, Some, IfOk, get_or, length};
ghost use Rattle.aml_path.specs.declared.segment.Seg.{Seg as Segment};
ghost use Rattle.aml_arities.specs.PathTree.{number_of, Kept, Leads};

use aml_path::{Path, Seg};
use std::alloc::{AllocError, Global};
use std::collections::BTreeMap;
use std::marker::Model;

/// Paths by their numbers, as a tree of nodes. The root's is 0, and each other node is one step from a node with a
/// lower number.
///
/// It is seen as the list of the paths. Numbers are `u32` to save memory.
#[derive(Debug, Drop)]
pub(crate) struct PathTree {
    steps: Vec<(u32, Seg)>,
    index: BTreeMap<(u32, Seg), u32>,
}

impl Model for PathTree {
    ghost use Rattle.std.specs.Prelude.{List};
    ghost use Rattle.aml_path.specs.declared.segment.Seg.{Seg as Segment};
    ghost use Rattle.aml_arities.specs.PathTree.{paths_of, child_in, Linked};

    ghost Value = { List (List Segment) };

    ghost view = { λ t. paths_of t.steps.items };

    ghost invariant = { λ t. Linked t.steps.items (child_in t.index.entries) };
}

impl PathTree {
    /// The root alone. It takes no memory.
    pub(crate) fn new(alloc: Global) -> PathTree
        ensures { result ≡ [] ∷ [] }
    {
        PathTree {
            steps: Vec::new(alloc),
            index: BTreeMap::new(alloc),
        }
    }

    /// How many paths there are.
    pub(crate) fn len(&self) -> usize
        ensures { result ≡ length self.now }
    {
        self.steps.len() + 1
    }

    /// The number of the root. It takes no memory.
    pub(crate) fn root(&self) -> u32
        ensures { number_of [] self.now ≡ Some result }
    {
        // The steps are read for what holds of them.
        let _steps = &self.steps;
        0
    }

    /// The node one segment below another. It takes no memory.
    pub(crate) fn below(&self, parent: u32, segment: Seg) -> Option<u32>
        requires { parent < length self.now }
        ensures here { result ≡ number_of (get_or self.now parent [] ++ segment ∷ []) self.now }
        ensures deeper { result ≡ None → (rest : List Segment) → number_of
            (get_or self.now parent [] ++ segment ∷ rest) self.now ≡ None }
    {
        self.index.get(&(parent, segment)).copied()
    }

    /// The node one segment below another, made where there is none. It is refused also where no number is left.
    fn child(&mut self, parent: u32, segment: Seg) -> Result<u32, AllocError>
        requires { parent < length self.old }
        ensures kept { Kept self.old self.new }
        ensures node { IfOk result (λ node. number_of (get_or self.old parent [] ++ segment ∷ [])
            self.new ≡ Some node) }
    {
        match self.below(parent, segment) {
            Some(node) => Ok(node),
            None => self.push(parent, segment),
        }
    }

    /// Makes the node one segment below another, where there is none.
    fn push(&mut self, parent: u32, segment: Seg) -> Result<u32, AllocError>
        requires within { parent < length self.old }
        requires free { number_of (get_or self.old parent [] ++ segment ∷ []) self.old ≡ None }
        ensures kept { Kept self.old self.new }
        ensures node { IfOk result (λ node. number_of (get_or self.old parent [] ++ segment ∷ [])
            self.new ≡ Some node) }
    {
        let before = self.steps.len();
        if before >= u32::MAX as usize {
            return Err(AllocError);
        }
        let node = before as u32 + 1;
        self.steps.reserve(1)?;
        self.index.insert((parent, segment), node)?;
        self.steps.push_reserved((parent, segment));
        Ok(node)
    }

    /// The step to a node other than the root.
    fn step(&self, before: usize) -> (u32, Seg)
        requires { before + 1 < length self.now }
        ensures parent { result.0 ≤ before }
        ensures path { get_or self.now (before + 1) [] ≡ get_or self.now result.0 [] ++ result.1 ∷ [] }
    {
        self.steps[before]
    }

    /// The number of the path that some segments lead to from a node. It takes no memory.
    pub(crate) fn descend(&self, start: u32, segments: &[Seg]) -> Option<u32>
        requires { start < length self.now }
        ensures { result ≡ number_of (get_or self.now start [] ++ segments.now) self.now }
    {
        // The steps are read for what holds of them.
        let _steps = &self.steps;
        let mut node = start;
        for segment in segments {
            match self.below(node, *segment) {
                None => return None,
                Some(next) => node = next,
            }
        }
        Some(node)
    }

    /// The number of a path. It takes no memory.
    pub(crate) fn find(&self, path: &Path) -> Option<u32>
        ensures { result ≡ number_of path.now self.now }
    {
        self.descend(self.root(), path.segments())
    }

    /// The number of a path, which is given one where it has none. It is refused also where no number is left.
    pub(crate) fn make(&mut self, path: &Path) -> Result<u32, AllocError>
        ensures kept { Kept self.old self.new }
        ensures node { IfOk result (λ node. number_of path.now self.new ≡ Some node) }
    {
        let mut node = self.root();
        let segments = path.segments();
        for segment in segments {
            node = self.child(node, *segment)?;
        }
        Ok(node)
    }

    /// The numbers of another tree's paths, which are given some where they have none. It is refused also where no
    /// number is left.
    pub(crate) fn make_all(
        &mut self,
        alloc: Global,
        others: &PathTree,
    ) -> Result<Vec<u32>, AllocError>
        ensures kept { Kept self.old self.new }
        ensures nodes { IfOk result (λ nodes. Leads self.new others.now nodes.items) }
    {
        let mut nodes = Vec::with_capacity(alloc, others.len())?;
        nodes.push(self.root())?;
        for before in 0..others.steps.len() {
            let (parent, segment) = others.step(before);
            let node = self.child(nodes[parent as usize], segment)?;
            nodes.push(node)?;
        }
        Ok(nodes)
    }
}
