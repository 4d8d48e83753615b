//! Calls of a namespace, one after another.
ghost use Rattle.std.specs.Prelude.{◌≡◌, false, true, IsErr, IfOk, OnErr, OnOk, IsOkUnless};
ghost use Rattle.ar_space.specs.declared.refusal.Refusal.TheVariants.{OutOfMemory};
ghost use Rattle.ar_space.specs.Outcome.{NotMemory, seen};
ghost use Rattle.aml_namespace.specs.Calls.{answered, inserted, removed, looked_up, located, children_listed};
ghost use Rattle.aml_namespace.specs.Calls.{all_listed, object_replaced, all_released, replies_to, left_by};

use crate::names::Names;
use aml_objects::{Entry, NamedObject};
use aml_path::{NameString, Path, Seg};
use ar_space::{Refusal, Result};
use std::alloc::Global;
use std::collections::VecDeque;
use std::marker::Model;

/// A call of a namespace.
#[derive(Debug, Drop)]
pub enum Call {
    /// A declaration: the path, and what is declared.
    Insert(Path, NamedObject),
    /// The names below a path are removed.
    RemoveBelow(Path),
    /// A search: the scope, and the name.
    Lookup(Path, NameString),
    /// A search for the path alone: the scope, and the name.
    Locate(Path, NameString),
    /// The names one level below a path are listed.
    Children(Path),
    /// All names are listed.
    Walk,
    /// Another object in place of what stands at a path.
    Replace(Path, NamedObject),
    /// Every mutex is released.
    ReleaseMutexes,
}

/// What a call answers.
#[derive(Debug, Drop)]
pub enum Reply {
    /// The number of the declaration, or why there is none.
    Declared(Result<u64>),
    Removed,
    /// The number of the declaration that was found, or why there is none.
    Found(Result<u64>),
    /// The path of what was found, or why there is none.
    Located(Result<Path>),
    /// The last segments of the names one level below a path, ascending.
    Children(SegmentList),
    /// The paths of all names but the root, in path order.
    Walked(PathList),
    /// Whether something stood at the path.
    Replaced(Result<()>),
    Released,
}

/// Segments in a reply, seen as their list.
#[derive(Debug, Drop)]
pub struct SegmentList {
    list: Vec<Seg>,
}

impl Model for SegmentList {
    ghost use Rattle.std.specs.Prelude.{List};
    ghost use Rattle.aml_path.specs.declared.segment.Seg.{Seg as Segment};

    ghost Value = { List Segment };

    ghost view = { λ s. s.list.items };
}

impl SegmentList {
    /// The segments.
    pub fn as_slice(&self) -> &[Seg]
        ensures { result.now ≡ self.now }
    {
        &self.list
    }
}

/// Paths in a reply, seen as their list.
#[derive(Debug, Drop)]
pub struct PathList {
    list: Vec<Path>,
}

impl Model for PathList {
    ghost use Rattle.std.specs.Prelude.{List};
    ghost use Rattle.aml_path.specs.declared.segment.Seg.{Seg as Segment};

    ghost Value = { List (List Segment) };

    ghost view = { λ p. p.list.items };
}

impl PathList {
    /// The paths.
    pub fn as_slice(&self) -> &[Path]
        ensures { result.now ≡ self.now }
    {
        &self.list
    }
}

impl Names {
    /// Answers calls in order. Each reply, and the namespace after them, are those of the finite map of paths and of
    /// the next declaration's number. Only want of memory ends the run.
    pub fn answer_all(&mut self, alloc: Global, calls: VecDeque<Call>) -> Result<Vec<Reply>>
        ensures replies { IfOk result (λ replies. replies.items ≡ replies_to calls.items self.old) }
        ensures namespace { OnOk result (self.new ≡ left_by calls.items self.old) }
        ensures memory { IsOkUnless result OutOfMemory }
    {
        let mut left = calls;
        let mut replies = Vec::new(alloc);
        while let Some(call) = left.pop_front() {
            let reply = self.answer(alloc, call)?;
            replies.push(reply)?;
        }
        Ok(replies)
    }

    /// Answers one call. A refusal of the call is its reply; only want of memory ends the run.
    #[tactic(auto, unfolding(crate::specs::Calls::answered))]
    fn answer(&mut self, alloc: Global, call: Call) -> Result<Reply>
        ensures reply { IfOk result (λ reply. answered call self.old ≡ (reply, self.new)) }
        ensures kept { OnErr result (self.new ≡ self.old) }
        ensures memory { IsOkUnless result OutOfMemory }
    {
        match call {
            Call::Insert(path, object) => self.answer_insert(path, object),
            Call::RemoveBelow(path) => self.answer_remove(path),
            Call::Lookup(scope, name) => self.answer_lookup(scope, name),
            Call::Locate(scope, name) => self.answer_locate(alloc, scope, name),
            Call::Children(path) => self.answer_children(alloc, path),
            Call::Walk => self.answer_walk(alloc),
            Call::Replace(path, object) => self.answer_replace(path, object),
            Call::ReleaseMutexes => self.answer_release(),
        }
    }

    #[tactic(auto, using(crate::proofs::Replies::replied))]
    fn answer_insert(&mut self, path: Path, object: NamedObject) -> Result<Reply>
        ensures reply { IfOk result (λ reply. inserted path object self.old ≡ (reply, self.new)) }
        ensures kept { OnErr result (self.new ≡ self.old) }
        ensures memory { IsOkUnless result OutOfMemory }
    {
        let outcome = self.insert(path, object);
        if is_out_of_memory(&outcome) {
            return Err(Refusal::OutOfMemory);
        }
        Ok(Reply::Declared(outcome))
    }

    fn answer_remove(&mut self, path: Path) -> Result<Reply>
        ensures reply { IfOk result (λ reply. removed path self.old ≡ (reply, self.new)) }
        ensures kept { OnErr result (self.new ≡ self.old) }
        ensures memory { IsOkUnless result OutOfMemory }
    {
        self.remove_below(&path);
        Ok(Reply::Removed)
    }

    fn answer_lookup(&mut self, scope: Path, name: NameString) -> Result<Reply>
        ensures reply { IfOk result (λ reply. looked_up scope name self.old ≡ (reply, self.new)) }
        ensures kept { OnErr result (self.new ≡ self.old) }
        ensures memory { IsOkUnless result OutOfMemory }
    {
        Ok(Reply::Found(number_of(self.lookup(&scope, &name))))
    }

    #[tactic(auto, using(crate::proofs::Replies::place_replied))]
    fn answer_locate(&mut self, alloc: Global, scope: Path, name: NameString) -> Result<Reply>
        ensures reply { IfOk result (λ reply. located scope name self.old ≡ (reply, self.new)) }
        ensures kept { OnErr result (self.new ≡ self.old) }
        ensures memory { IsOkUnless result OutOfMemory }
    {
        let outcome = self.locate(alloc, &scope, &name);
        if is_out_of_memory(&outcome) {
            return Err(Refusal::OutOfMemory);
        }
        Ok(Reply::Located(outcome))
    }

    fn answer_children(&mut self, alloc: Global, path: Path) -> Result<Reply>
        ensures reply { IfOk result (λ reply. children_listed path self.old ≡ (reply, self.new)) }
        ensures kept { OnErr result (self.new ≡ self.old) }
        ensures memory { IsOkUnless result OutOfMemory }
    {
        match self.children(alloc, &path) {
            Ok(list) => Ok(Reply::Children(SegmentList { list })),
            Err(_) => Err(Refusal::OutOfMemory),
        }
    }

    fn answer_walk(&mut self, alloc: Global) -> Result<Reply>
        ensures reply { IfOk result (λ reply. all_listed self.old ≡ (reply, self.new)) }
        ensures kept { OnErr result (self.new ≡ self.old) }
        ensures memory { IsOkUnless result OutOfMemory }
    {
        match self.walk(alloc) {
            Ok(list) => Ok(Reply::Walked(PathList { list })),
            Err(_) => Err(Refusal::OutOfMemory),
        }
    }

    #[tactic(auto, using(crate::proofs::Replies::object_replied))]
    fn answer_replace(&mut self, path: Path, object: NamedObject) -> Result<Reply>
        ensures reply { IfOk result (λ reply. object_replaced path object self.old ≡ (reply, self.new)) }
        ensures kept { OnErr result (self.new ≡ self.old) }
        ensures memory { IsOkUnless result OutOfMemory }
    {
        let outcome = self.replace(&path, object);
        Ok(Reply::Replaced(outcome))
    }

    fn answer_release(&mut self) -> Result<Reply>
        ensures reply { IfOk result (λ reply. all_released self.old ≡ (reply, self.new)) }
        ensures kept { OnErr result (self.new ≡ self.old) }
        ensures memory { IsOkUnless result OutOfMemory }
    {
        self.release_mutexes();
        Ok(Reply::Released)
    }
}

fn is_out_of_memory<T>(outcome: &Result<T>) -> bool
    ensures no { result ≡ false → NotMemory outcome.now }
    ensures yes { result ≡ true → IsErr outcome.now }
{
    matches!(outcome, Err(Refusal::OutOfMemory))
}

fn number_of(found: Result<&Entry>) -> Result<u64>
    ensures { result ≡ seen (λ entry. entry.now.number) found.entry }
{
    match found {
        Ok(entry) => Ok(entry.number),
        Err(refusal) => Err(refusal),
    }
}
