//! Where an evaluation was refused: the lists of terms that were being evaluated, the name that was looked for, and
//! the steps that were left.
//!
//! A trace is made when an evaluation is refused, and at no other time. No contract says what the trace of a world
//! holds: the clauses here say what a trace shows of what it holds, and that making it changes nothing else that a
//! contract sees.
ghost use Rattle.std.specs.Prelude.{◌≡◌, [], None, false, option_map};

use crate::state::world_state::WorldState;
use aml_path::{NameString, Path};
use ar_space::Result;
use std::alloc::Global;

/// A list of terms that was being evaluated, and the term of it that was.
#[derive(Debug, Drop)]
pub struct TracePlace {
    /// The path of the control method; of a list at module level the scope that names stood in.
    pub scope: Path,
    /// Whether the list is the body of a control method. Any other one stands at module level.
    pub is_body: bool,
    /// The offset of the term: from the first byte of the body, or at module level from the first byte behind the
    /// header of the table. Of nested lists it is the term of the innermost one.
    pub at: usize,
    /// The opcode of the term: one byte, or both with `5B` as the high one. None where the term begins with a name.
    pub code: Option<u16>,
}

/// A name that was looked for, declared or called when evaluation was refused.
#[derive(Debug, Drop)]
pub struct TraceName {
    /// The path that the name stands for in the scope, without a search. Of a name that stands for none it is the
    /// path of its segments below the root.
    pub path: Path,
    /// The scope that the name stood in.
    pub scope: Path,
}

/// Where the evaluation that was last begun was refused; nothing where it wasn't.
#[derive(Debug, Drop)]
pub struct Trace {
    /// The innermost one first, until the trace ends.
    places: Vec<TracePlace>,
    name: Option<TraceName>,
    steps_left: u64,
    is_cut: bool,
}

impl Trace {
    /// A trace of nothing. It takes no memory.
    pub fn new(alloc: Global) -> Trace
        ensures places { result.places.items ≡ [] }
        ensures name { result.name ≡ None }
        ensures whole { result.is_cut ≡ false }
    {
        Trace {
            places: Vec::new(alloc),
            name: None,
            steps_left: 0,
            is_cut: false,
        }
    }

    /// The lists that were being evaluated, outermost first. None where nothing was refused, or before the first term
    /// was begun.
    pub fn places(&self) -> &[TracePlace]
        ensures { result.now ≡ self.now.places.items }
    {
        &self.places
    }

    /// A name whose search, declaration or call was refused, if there was one. It is missing where memory for it ran
    /// out.
    pub fn name(&self) -> Option<&TraceName>
        ensures { option_map (λ name. name.now) result ≡ self.now.name }
    {
        match &self.name {
            None => None,
            Some(name) => Some(name),
        }
    }

    /// How many steps were left when evaluation was refused. Where it wasn't, that says nothing.
    pub fn steps_left(&self) -> u64
        ensures { result ≡ self.now.steps_left }
    {
        self.steps_left
    }

    /// Whether memory ran out while the trace was made: then the outermost places are missing, or the name is.
    pub fn is_cut(&self) -> bool
        ensures { result ≡ self.now.is_cut }
    {
        self.is_cut
    }

    fn clear(&mut self, steps: u64) {
        self.places.clear();
        self.name = None;
        self.steps_left = steps;
        self.is_cut = false;
    }

    fn put_place(&mut self, place: Result<TracePlace>) {
        if self.is_cut {
            return;
        }
        match place {
            Ok(place) => self.push(place),
            Err(_) => self.is_cut = true,
        }
    }

    fn push(&mut self, place: TracePlace) {
        if self.places.push(place).is_err() {
            self.is_cut = true;
        }
    }

    fn put_name(&mut self, name: Result<TraceName>) {
        match name {
            Ok(name) => self.name = Some(name),
            Err(_) => self.is_cut = true,
        }
    }

    fn end(&mut self, steps: u64) {
        self.places.reverse();
        self.steps_left = steps;
    }
}

impl<S> WorldState<S> {
    /// An evaluation begins that may take so many steps: nothing is refused yet.
    pub fn begin_trace(&mut self, steps: u64)
        ensures { self.new ≡ self.old }
    {
        self.trace.clear(steps);
    }

    /// What was refused is passed over: nothing is told of it.
    pub(crate) fn forget_trace(&mut self)
        ensures { self.new ≡ self.old }
    {
        let steps = self.trace.steps_left;
        self.trace.clear(steps);
    }

    /// A list that was being evaluated when evaluation was refused; those around it follow. Where memory for it ran
    /// out, no further place is kept.
    #[cold]
    pub fn put_trace_place(&mut self, place: Result<TracePlace>)
        ensures { self.new ≡ self.old }
    {
        self.trace.put_place(place);
    }

    /// The name that evaluation is refused for, which stands in a scope.
    #[cold]
    pub fn put_trace_name(&mut self, name: &NameString, scope: &Path)
        ensures { self.new ≡ self.old }
    {
        self.trace.put_name(named(self.alloc, name, scope));
    }

    /// The path from outside that evaluation is refused for.
    #[cold]
    pub fn put_trace_path(&mut self, path: &Path)
        ensures { self.new ≡ self.old }
    {
        self.trace.put_name(from_root(self.alloc, path));
    }

    /// So many steps are left.
    #[cold]
    pub fn put_trace_steps(&mut self, steps: u64)
        ensures { self.new ≡ self.old }
    {
        self.trace.steps_left = steps;
    }

    /// All places are told, and so many steps are left.
    #[cold]
    pub fn end_trace(&mut self, steps: u64)
        ensures { self.new ≡ self.old }
    {
        self.trace.end(steps);
    }
}

/// A name and its scope, for a trace.
fn named(alloc: Global, name: &NameString, scope: &Path) -> Result<TraceName> {
    Ok(TraceName {
        path: path_of(alloc, name, scope)?,
        scope: scope.copy(alloc)?,
    })
}

/// A path that was looked for from the root, for a trace.
fn from_root(alloc: Global, path: &Path) -> Result<TraceName> {
    Ok(TraceName {
        path: path.copy(alloc)?,
        scope: Path::root(alloc),
    })
}

/// The path that a name stands for in a scope; of one that stands for none, that of its segments below the root.
fn path_of(alloc: Global, name: &NameString, scope: &Path) -> Result<Path> {
    match name.resolve_in(alloc, scope) {
        Ok(path) => Ok(path),
        Err(_) => Path::root(alloc).below_prefix(alloc, 0, name.segments()),
    }
}
