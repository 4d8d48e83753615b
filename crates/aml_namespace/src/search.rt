//! What a name finds from a scope (ACPI 6.5, 5.3).
ghost use Rattle.std.specs.Prelude.{◌≡◌, ◌++◌, List, Some, None, Ok, Err, length, option_map, IsErr, MatchOption};
ghost use Rattle.std.specs.Prelude.{MatchResult, ◌-◌, ◌≤◌, take};
ghost use Rattle.ar_space.specs.Outcome.{Answers, NotMemory, seen};
ghost use Rattle.aml_path.specs.declared.segment.Seg.{Seg};
ghost use Rattle.aml_path.specs.Paths.{resolved};
ghost use Rattle.aml_objects.specs.declared.entry.Entry.{Entry};
ghost use Rattle.aml_namespace.specs.Namespace.{numbered};
ghost use Rattle.aml_namespace.specs.Search.{at_path, aliased, search_up, found_or_not, first_found, through};
ghost use Rattle.aml_namespace.specs.Search.{target_of, found, found_from, IsFront};

use crate::names::Names;
use aml_objects::{Entry, NamedObject, NodeId};
use aml_path::{NameString, Path, Prefix, Seg};
use ar_space::{NameFault, NamespaceFault, Refusal, Result};
use std::alloc::Global;

impl Names {
    /// What a name finds from a scope. It takes no memory.
    ///
    /// A single segment without a prefix is searched for in the scope, then in each scope above it; every other name
    /// stands for one path. An alias gives what stands at its target, in one step. Where nothing is found, or an
    /// alias leads to nothing or to another alias, the name is refused as `NotFound`; the null name is refused as
    /// `BadName`, and a name with more `^` than the scope has parents as `AboveRoot`.
    pub fn lookup(&self, scope: &Path, name: &NameString) -> Result<&Entry>
        ensures answer { seen (λ entry. entry.now) result ≡ seen (λ f. f.1) (found self.now.map scope.now name.now) }
        ensures memory { NotMemory result }
    {
        match self.search_at(scope, name) {
            Ok(id) => found_or_not(self.node(id)),
            Err(refusal) => Err(refusal),
        }
    }

    /// The path of what a name finds from a scope, refused as `lookup` is.
    pub fn locate(&self, alloc: Global, scope: &Path, name: &NameString) -> Result<Path>
        ensures answer { Answers result (seen (λ f. f.0) (found self.now.map scope.now name.now)) }
        ensures memory { IsErr (found self.now.map scope.now name.now) → NotMemory result }
    {
        match self.search_at(scope, name) {
            Ok(id) => match self.path_of(alloc, id)? {
                Some(path) => Ok(path),
                None => Err(Refusal::Namespace(NamespaceFault::NotFound)),
            },
            Err(refusal) => Err(refusal),
        }
    }

    /// The node that a name finds from a scope's path, refused as `lookup` is. It takes no memory.
    pub fn search_at(&self, scope: &Path, name: &NameString) -> Result<NodeId>
        ensures answer { seen (λ id. numbered id.number self.now.map) result ≡
            seen Some (found self.now.map scope.now name.now) }
        ensures memory { NotMemory result }
    {
        match self.first_at(scope, name) {
            Ok(first) => self.through(first),
            Err(refusal) => Err(refusal),
        }
    }

    /// The node that a name finds from the scope that is the node with an id; refused as `lookup` is, and as
    /// `NotFound` where the scope doesn't stand. It takes no memory.
    pub fn search(&self, scope: NodeId, name: &NameString) -> Result<NodeId>
        ensures answer { seen (λ id. numbered id.number self.now.map) result ≡
            seen Some (found_from self.now.map scope.number name.now) }
        ensures memory { NotMemory result }
    {
        match self.node(scope) {
            None => Err(Refusal::Namespace(NamespaceFault::NotFound)),
            Some(_) => match self.first_from(scope, name) {
                Ok(first) => self.through(first),
                Err(refusal) => Err(refusal),
            },
        }
    }

    /// What a name finds from a scope's path, aliases not followed.
    fn first_at(&self, scope: &Path, name: &NameString) -> Result<NodeId>
        ensures answer { seen (λ id. numbered id.number self.now.map) result ≡
            seen Some (first_found self.now.map scope.now name.now) }
        ensures memory { NotMemory result }
    {
        if name.is_searched() {
            return found_or_not(self.search_from(scope, name.segments()));
        }
        match front_of(name, scope) {
            Ok(front) => found_or_not(self.at(front, name.segments())),
            Err(refusal) => Err(refusal),
        }
    }

    /// What a name finds from a scope that stands, aliases not followed.
    fn first_from(&self, scope: NodeId, name: &NameString) -> Result<NodeId>
        ensures answer { (f : List Seg × Entry) → numbered scope.number self.now.map ≡ Some f →
            seen (λ id. numbered id.number self.now.map) result ≡ seen Some (first_found self.now.map f.0 name.now) }
        ensures memory { NotMemory result }
    {
        if name.is_searched() {
            return found_or_not(self.search_above(scope, name.segments()));
        }
        match self.front_from(scope, name) {
            Ok(front) => found_or_not(self.below(front, name.segments())),
            Err(refusal) => Err(refusal),
        }
    }

    /// What stands at some segments in a scope's path, or in the nearest scope above it; the scope need not stand.
    pub(crate) fn search_from(&self, scope: &Path, segments: &[Seg]) -> Option<NodeId>
        ensures { option_map (λ id. numbered id.number self.now.map) result ≡
            option_map Some (search_up self.now.map scope.now segments.now (length scope.now)) }
    {
        match self.nearest(scope, segments) {
            None => None,
            Some((_, found)) => Some(found),
        }
    }

    /// What stands at some segments in a scope that stands, or in the nearest scope above it.
    pub(crate) fn search_above(&self, scope: NodeId, segments: &[Seg]) -> Option<NodeId>
        ensures { (f : List Seg × Entry) → numbered scope.number self.now.map ≡ Some f →
            option_map (λ id. numbered id.number self.now.map) result ≡
            option_map Some (search_up self.now.map f.0 segments.now (length f.0)) }
    {
        let mut current = scope;
        'scopes: loop {
            if let Some(found) = self.below(current, segments) {
                return Some(found);
            }
            match self.above(current) {
                None => return None,
                Some((parent, _)) => current = parent,
            }
        }
    }

    /// The node below which a name's own segments stand, from a scope that stands.
    fn front_from(&self, scope: NodeId, name: &NameString) -> Result<NodeId>
        ensures front { (f : List Seg × Entry) → numbered scope.number self.now.map ≡ Some f →
            MatchResult result (λ front. IsFront self.now.map front.number name.now.segments (resolved name.now f.0))
            (λ refusal. resolved name.now f.0 ≡ Err refusal) }
        ensures memory { NotMemory result }
    {
        if name.is_null() {
            return Err(Refusal::Name(NameFault::BadName));
        }
        match name.prefix() {
            Prefix::Root => Ok(self.root()),
            Prefix::Parents(count) => match self.ancestor(scope, count) {
                None => Err(Refusal::Name(NameFault::AboveRoot)),
                Some(front) => Ok(front),
            },
        }
    }

    /// The target of an alias, in one step; any other node that stands is found itself.
    fn through(&self, id: NodeId) -> Result<NodeId>
        ensures answer { (f : List Seg × Entry) → numbered id.number self.now.map ≡ Some f →
            seen (λ id. numbered id.number self.now.map) result ≡ seen Some (through self.now.map f) }
        ensures memory { NotMemory result }
    {
        found_or_not(self.end_of(id))
    }

    /// The same; none where an alias leads to nothing or to another alias.
    pub(crate) fn end_of(&self, id: NodeId) -> Option<NodeId>
        ensures { (f : List Seg × Entry) → numbered id.number self.now.map ≡ Some f →
            seen (λ id. numbered id.number self.now.map) (found_or_not result) ≡ seen Some (through self.now.map f) }
    {
        match self.alias_at(id) {
            None => Some(id),
            Some(path) => self.target(path),
        }
    }

    /// The target of an alias, which is no alias.
    fn target(&self, path: &Path) -> Option<NodeId>
        ensures { seen (λ id. numbered id.number self.now.map) (found_or_not result) ≡
            seen Some (target_of (at_path self.now.map path.now)) }
    {
        match self.at(&[], path.segments()) {
            None => None,
            Some(id) => match self.alias_at(id) {
                None => Some(id),
                Some(_) => None,
            },
        }
    }

    /// Where the alias leads that a node is, if it is one.
    fn alias_at(&self, id: NodeId) -> Option<&Path>
        ensures { (f : List Seg × Entry) → numbered id.number self.now.map ≡ Some f →
            option_map (λ path. path.now) result ≡ aliased f.1.object }
    {
        match self.node(id) {
            None => None,
            Some(entry) => alias_of(&entry.object),
        }
    }
}

/// Where an alias leads.
fn alias_of(object: &NamedObject) -> Option<&Path>
    ensures { option_map (λ path. path.now) result ≡ aliased object.now }
{
    match object {
        NamedObject::Alias(path) => Some(path),
        _ => None,
    }
}

pub(crate) fn found_or_not<T: Drop>(found: Option<T>) -> Result<T>
    ensures answer { result ≡ found_or_not found }
    ensures memory { NotMemory result }
{
    match found {
        None => Err(Refusal::Namespace(NamespaceFault::NotFound)),
        Some(value) => Ok(value),
    }
}

/// The part of the scope that stands before a name's own segments in the path that it stands for.
#[tactic(auto, unfolding(aml_path::specs::Paths::resolved))]
fn front_of<'a>(name: &NameString, scope: &'a Path) -> Result<&'a [Seg]>
    ensures front { MatchResult result (λ front. resolved name.now scope.now ≡ Ok (front.now ++ name.now.segments))
        (λ refusal. resolved name.now scope.now ≡ Err refusal) }
    ensures memory { NotMemory result }
{
    if name.is_null() {
        return Err(Refusal::Name(NameFault::BadName));
    }
    match name.prefix() {
        Prefix::Root => Ok(&[]),
        Prefix::Parents(count) => {
            let depth = scope.depth();
            if depth < count {
                return Err(Refusal::Name(NameFault::AboveRoot));
            }
            Ok(&scope.segments()[..depth - count])
        }
    }
}
