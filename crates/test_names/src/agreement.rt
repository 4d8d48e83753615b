//! A namespace beside an ordered map of paths, over random calls of both.

use aml_namespace::{Located, Names, Scope};
use aml_objects::{Entry, NamedObject, NodeId};
use aml_path::{NameString, Path, Prefix, Seg};
use ar_space::Result;
use std::alloc::Global;
use std::collections::BTreeMap;

/// The namespace, the map of its paths to the numbers of their declarations, the ids of all nodes that ever stood,
/// and the state of the random numbers.
#[derive(Drop)]
struct Pair {
    names: Names,
    map: BTreeMap<Path, u64>,
    given: Vec<NodeId>,
    state: u64,
}

/// A number below `limit`, and the next state of a linear congruential generator.
fn next(state: &mut u64, limit: u64) -> u64 {
    *state = state
        .wrapping_mul(6_364_136_223_846_793_005)
        .wrapping_add(1_442_695_040_888_963_407);
    (*state >> 33).checked_rem(limit).unwrap_or(0)
}

/// One of the segments `A___`, `B___`, `C___` and `D___`.
fn random_segment(state: &mut u64) -> Seg {
    match next(state, 4) {
        0 => Seg::known(*b"A___"),
        1 => Seg::known(*b"B___"),
        2 => Seg::known(*b"C___"),
        _ => Seg::known(*b"D___"),
    }
}

/// A path of one to three segments.
fn random_path(alloc: Global, state: &mut u64) -> Result<Path> {
    let mut path = Path::root(alloc);
    for _ in 0..next(state, 3).saturating_add(1) {
        path = path.child(alloc, random_segment(state))?;
    }
    Ok(path)
}

/// What a search of one segment finds in an ordered map of paths.
fn searched(
    alloc: Global,
    map: &BTreeMap<Path, u64>,
    scope: &Path,
    segment: Seg,
) -> Result<Option<u64>> {
    for above in (0..scope.depth()).rev() {
        let key = scope.below_prefix(alloc, above + 1, &[segment])?;
        if let Some(number) = map.get(&key) {
            return Ok(Some(*number));
        }
    }
    Ok(map.get(&Path::root(alloc).child(alloc, segment)?).copied())
}

/// The name that is one segment.
fn single(alloc: Global, segment: Seg) -> Result<NameString> {
    let mut segments = Vec::new(alloc);
    segments.push(segment)?;
    Ok(NameString::new(Prefix::Parents(0), segments))
}

/// The number of what a name finds in the namespace.
fn looked_up(names: &Names, scope: &Path, name: &NameString) -> Option<u64> {
    match names.lookup(scope, name) {
        Ok(entry) => Some(number_of(entry)),
        Err(_) => None,
    }
}

/// The number of what a name finds from a scope.
fn searched_in(names: &Names, scope: Scope<'_>, name: &NameString) -> Option<u64> {
    match names.lookup_in(scope, name) {
        Ok(entry) => Some(number_of(entry)),
        Err(_) => None,
    }
}

/// The number of what a name finds from a node.
fn found_from(names: &Names, scope: NodeId, name: &NameString) -> Option<u64> {
    match names.search(scope, name) {
        Ok(id) => Some(id.number),
        Err(_) => None,
    }
}

/// The number of a declaration.
fn number_of(entry: &Entry) -> u64 {
    entry.number
}

impl Pair {
    /// Removes the names below a path, from both.
    fn clear(&mut self, path: &Path) {
        self.names.remove_below(path);
        self.map
            .retain(|key: &Path, _number: &mut u64| !key.is_below(path));
    }

    /// Whether both find the same by a random segment.
    fn find_alike(&mut self, alloc: Global, scope: &Path) -> Result<bool> {
        let other = random_path(alloc, &mut self.state)?;
        match other.segments().first() {
            Some(segment) => {
                let found = looked_up(&self.names, scope, &single(alloc, *segment)?);
                Ok(found == searched(alloc, &self.map, scope, *segment)?)
            }
            None => Ok(false),
        }
    }

    /// The path that the map has for a number.
    fn place_of(&self, number: u64) -> Option<&Path> {
        for (path, stands) in &self.map {
            if *stands == number {
                return Some(path);
            }
        }
        None
    }

    /// One of the ids that were ever given, if any was.
    fn random_id(&mut self) -> Option<NodeId> {
        let count = self.given.len() as u64;
        let index = next(&mut self.state, count) as usize;
        self.given.get(index).copied()
    }

    /// Whether a random node, one that stands or is gone, is the one that the map has for its number.
    fn know_alike(&mut self, alloc: Global) -> Result<bool> {
        match self.random_id() {
            Some(id) => self.knows(alloc, id),
            None => Ok(true),
        }
    }

    /// Whether a node has the path that the map has for its number.
    fn knows(&self, alloc: Global, id: NodeId) -> Result<bool> {
        let place = self.place_of(id.number);
        if self.names.node(id).is_some() != place.is_some() {
            return Ok(false);
        }
        match (self.names.path_of(alloc, id)?, place) {
            (Some(path), Some(known)) => Ok(path == *known),
            (None, None) => Ok(true),
            _ => Ok(false),
        }
    }

    /// Whether a name finds the same from a path, whatever node is expected there.
    fn hinted_alike(&mut self, path: &Path, name: &NameString) -> bool {
        let found = looked_up(&self.names, path, name);
        match self.random_id() {
            Some(node) => found == searched_in(&self.names, Scope { path, node }, name),
            None => found == searched_in(&self.names, self.names.scope(path), name),
        }
    }

    /// Whether the same stands at a path, whatever node is expected there.
    fn placed_alike(&mut self, path: Path) -> bool {
        let known = self.map.get(&path).copied();
        match self.random_id() {
            Some(node) => {
                let located = Located::new(path, node);
                known == self.names.get_located(&located).map(number_of)
            }
            None => known == self.names.get(&path).map(number_of),
        }
    }

    /// Whether a random segment finds the same from the node at a path and from the path.
    fn search_alike(&mut self, alloc: Global, scope: &Path) -> Result<bool> {
        let name = single(alloc, random_segment(&mut self.state))?;
        if !self.hinted_alike(scope, &name) {
            return Ok(false);
        }
        match self.names.find(scope) {
            Some(id) => {
                let found = self
                    .names
                    .search(id, &name)
                    .ok()
                    .map(|id: NodeId| id.number);
                Ok(found == looked_up(&self.names, scope, &name))
            }
            None => Ok(!self.map.contains_key(scope)),
        }
    }

    /// Whether the map has the path one level up.
    fn has_parent(&self, alloc: Global, path: &Path) -> Result<bool> {
        match path.parent(alloc)? {
            Some(parent) => Ok(parent.depth() == 0 || self.map.contains_key(&parent)),
            None => Ok(false),
        }
    }

    /// Declares a path in both, and gives whether it was refused exactly as the map says.
    fn declare_alike(&mut self, alloc: Global, path: Path) -> Result<bool> {
        let has_parent = self.has_parent(alloc, &path)?;
        let stands = self.map.contains_key(&path);
        match self.names.insert(path.copy(alloc)?, NamedObject::Device) {
            Ok(number) => {
                match self.names.find(&path) {
                    Some(id) if id.number == number => self.given.push(id)?,
                    _ => return Ok(false),
                }
                self.map.insert(path, number)?;
                Ok(has_parent && !stands)
            }
            Err(refusal) => {
                let number = if has_parent { 60 } else { 61 };
                Ok(refusal.number() == number && (stands || !has_parent))
            }
        }
    }

    /// Makes a random call of both, and gives whether they answer alike.
    fn call_alike(&mut self, alloc: Global) -> Result<bool> {
        let path = random_path(alloc, &mut self.state)?;
        match next(&mut self.state, 13) {
            0 => {
                self.clear(&path);
                Ok(true)
            }
            1..=3 => self.find_alike(alloc, &path),
            4 | 5 => self.know_alike(alloc),
            6 => self.search_alike(alloc, &path),
            7 => Ok(self.placed_alike(path)),
            _ => self.declare_alike(alloc, path),
        }
    }

    /// Whether the names are walked in the order of the map.
    fn walk_alike(&self, alloc: Global) -> Result<bool> {
        let walked = self.names.walk(alloc)?;
        Ok(
            walked.len() == self.map.len()
                && walked
                    .iter()
                    .zip(self.map.keys())
                    .all(|pair| pair.0 == pair.1),
        )
    }
}

/// Whether a namespace and an ordered map of paths answer so many random calls alike, and are walked alike after them.
pub fn agreed(alloc: Global, count: u32, seed: u64) -> Result<bool> {
    let mut pair = Pair {
        names: Names::new(alloc)?,
        map: BTreeMap::new(alloc),
        given: Vec::new(alloc),
        state: seed,
    };
    for _ in 0..count {
        if !pair.call_alike(alloc)? {
            return Ok(false);
        }
    }
    pair.walk_alike(alloc)
}
