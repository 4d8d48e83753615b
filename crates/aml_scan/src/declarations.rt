//! The arities that hold while a list is read.
ghost use Rattle.std.specs.Prelude.{◌≡◌, ◌≤◌, ◌++◌, ◌∷◌, [], Ok, OnOk, length};
ghost use Rattle.ar_space.specs.Outcome.{Answers};
ghost use Rattle.aml_arities.specs.Arities.{latest, arity_at, known, greatest, is_known_below, search_up, found};
ghost use Rattle.aml_arities.specs.Arities.{arity_of, or_path};

use crate::before::Before;
use aml_arities::{ArgumentCounts, Arities, deeper};
use aml_path::{NameString, Path, Seg};
use ar_space::Result;
use std::alloc::Global;
use std::marker::{Model, PhantomData};

/// The counts that are lent from before a list, and then those that it declares itself.
#[derive(Drop)]
pub(crate) struct Declarations<'a, C: ArgumentCounts, B: Before> {
    lent: &'a C,
    pub(crate) added: Arities,
    before: PhantomData<B>,
}

impl<'a, C: ArgumentCounts, B: Before> Model for Declarations<'a, C, B> {
    ghost use Rattle.std.specs.Prelude.{◌≡◌, List, ◌++◌};
    ghost use Rattle.aml_arities.specs.declared.arities.Arity.{Arity};

    ghost Value = { List Arity };

    ghost view = { λ d. B.before ++ d.added };

    ghost invariant = { λ d. C.counts d.lent.now ≡ B.before };
}

impl<'a, C: ArgumentCounts, B: Before> Declarations<'a, C, B> {
    pub(crate) fn new(alloc: Global, lent: &'a C) -> Declarations<'a, C, B>
        requires { C.counts lent.now ≡ B.before }
        ensures { result ≡ B.before }
    {
        Declarations {
            lent,
            added: Arities::new(alloc),
            before: PhantomData,
        }
    }

    /// What the list has declared itself. It takes no memory.
    pub(crate) fn into_added(self) -> Arities
        ensures { B.before ++ result ≡ self.entry }
    {
        self.added
    }

    #[tactic(auto, using(crate::proofs::Appended::latest_append))]
    fn latest(&self, path: &Path, external: bool) -> Option<u8>
        ensures { result ≡ latest path.now external self.now }
    {
        match self.added.latest(path, external) {
            Some(count) => Some(count),
            None => self.lent.latest(path, external),
        }
    }

    #[tactic(auto, unfolding(aml_arities::specs::Arities::arity_at))]
    fn arity_at(&self, path: &Path) -> Option<u8>
        ensures { result ≡ arity_at self.now path.now }
    {
        match self.latest(path, false) {
            Some(count) => Some(count),
            None => self.latest(path, true),
        }
    }

    /// How many arguments a name takes that stands, without a search, for a path: 0 where it isn't found.
    #[tactic(auto, using(ar_space::proofs::Outcomes::answering), //
    unfolding(aml_arities::specs::Arities::arity_of, aml_arities::specs::Arities::found))]
    pub(crate) fn arity_of(
        &self,
        alloc: Global,
        name: &NameString,
        scope: &Path,
        path: &Path,
    ) -> Result<u8>
        ensures { Answers result (Ok (arity_of self.now scope.now name.now path.now)) }
    {
        if !name.is_searched() {
            return Ok(self.arity_at(path).unwrap_or(0));
        }
        match self.search(alloc, scope, name.segments())? {
            None => Ok(0),
            Some(found) => Ok(self.arity_at(&found).unwrap_or(0)),
        }
    }

    /// The path where a name is found, or else the one that it stands for.
    #[tactic(auto, using(ar_space::proofs::Outcomes::answering), unfolding(aml_arities::specs::Arities::found))]
    pub(crate) fn found_or(
        &self,
        alloc: Global,
        name: &NameString,
        scope: &Path,
        path: Path,
    ) -> Result<Path>
        ensures { Answers result (Ok (or_path path (found self.now scope.now name.now path))) }
    {
        if !name.is_searched() {
            return Ok(path);
        }
        match self.search(alloc, scope, name.segments())? {
            None => Ok(path),
            Some(found) => Ok(found),
        }
    }

    /// The path where some segments are found below the scope, or below the nearest one above it.
    #[tactic(auto, using(ar_space::proofs::Outcomes::answering))]
    fn search(&self, alloc: Global, scope: &Path, segments: &[Seg]) -> Result<Option<Path>>
        ensures { Answers result (Ok (search_up self.now scope.now segments.now (length scope.now))) }
    {
        match self.deepest(scope, segments) {
            None => Ok(None),
            Some(depth) => Ok(Some(scope.below_prefix(alloc, depth, segments)?)),
        }
    }

    /// As `ArgumentCounts::deepest`, of both lists together.
    fn deepest(&self, scope: &Path, segments: &[Seg]) -> Option<usize>
        ensures { result ≡ greatest (is_known_below self.now scope.now segments.now) (length scope.now) }
    {
        let added = self.added.deepest(scope, segments);
        let lent = self.lent.deepest(scope, segments);
        deeper(added, lent)
    }
}
