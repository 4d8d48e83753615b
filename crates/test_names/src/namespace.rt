//! Questions about the namespace.

use crate::agreement::agreed;
use crate::shown::show_segment;
use crate::values::{object, show_object};
use crate::words::{name, number, scope};
use aml_namespace::{Call, Names, Reply};
use aml_objects::{Entry, NodeId};
use aml_path::{Path, Seg};
use ar_space::{Refusal, Result};
use std::alloc::Global;
use std::collections::VecDeque;
use std::mem;
use test_rows::Exchange;
use test_words::{path, refuse, say_done, say_path};

/// The namespace, and the calls that are answered next.
#[derive(Drop)]
pub struct Namespace {
    names: Names,
    calls: VecDeque<Call>,
}

/// Answers a declaration: its number, and what was declared.
fn show_entry(asked: &mut Exchange, entry: &Entry) {
    asked.say_number(entry.number);
    show_object(asked, &entry.object);
}

/// Paths in their order, and `none` where there is none.
fn show_paths(asked: &mut Exchange, paths: &[Path]) {
    asked.say(if paths.is_empty() { "none" } else { "" });
    for path in paths {
        say_path(asked, path);
    }
}

/// Segments in their order, and `none` where there is none.
fn show_segments(asked: &mut Exchange, segments: &[Seg]) {
    asked.say(if segments.is_empty() { "none" } else { "" });
    for segment in segments {
        asked.separate(" ");
        show_segment(asked, *segment);
    }
}

/// The number of a declaration, or the refusal.
fn show_outcome(asked: &mut Exchange, outcome: &Result<u64>) {
    match outcome {
        Ok(number) => asked.say_number(*number),
        Err(refusal) => show_refusal(asked, refusal),
    }
}

/// A refusal that a reply holds.
fn show_refusal(asked: &mut Exchange, refusal: &Refusal) {
    asked.say("refused");
    asked.say_number(u64::from(refusal.number()));
}

/// What a call answered.
fn show_reply(asked: &mut Exchange, reply: &Reply) {
    match reply {
        Reply::Declared(outcome) => {
            asked.say("declared");
            show_outcome(asked, outcome);
        }
        Reply::Removed => asked.say("removed"),
        Reply::Found(outcome) => {
            asked.say("found");
            show_outcome(asked, outcome);
        }
        Reply::Located(Ok(path)) => {
            asked.say("located");
            say_path(asked, path);
        }
        Reply::Located(Err(refusal)) => show_refusal(asked, refusal),
        Reply::Children(list) => show_segments(asked, list.as_slice()),
        Reply::Walked(list) => show_paths(asked, list.as_slice()),
        Reply::Replaced(outcome) => {
            asked.say("replaced");
            if let Err(refusal) = outcome {
                show_refusal(asked, refusal);
            }
        }
        Reply::Released => asked.say("released"),
    }
}

/// What calls answered, in their order.
fn show_replies(asked: &mut Exchange, replies: &[Reply]) {
    asked.say(if replies.is_empty() { "none" } else { "" });
    for reply in replies {
        asked.separate(",");
        show_reply(asked, reply);
    }
}

/// A call that a question has: clearing the root where it is none.
fn call(asked: &mut Exchange) -> Call {
    match asked.word() {
        "declare" => {
            let place = path(asked);
            Call::Insert(place, object(asked))
        }
        "lookup" => {
            let name = name(asked);
            Call::Lookup(scope(asked), name)
        }
        "locate" => {
            let name = name(asked);
            Call::Locate(scope(asked), name)
        }
        "replace" => {
            let place = path(asked);
            Call::Replace(place, object(asked))
        }
        "children" => Call::Children(path(asked)),
        "walk" => Call::Walk,
        "release" => Call::ReleaseMutexes,
        "clear" => Call::RemoveBelow(path(asked)),
        _ => {
            asked.misunderstand();
            Call::RemoveBelow(Path::root(asked.alloc()))
        }
    }
}

/// Whether the namespace agrees with an ordered map over random calls.
fn agreement(asked: &mut Exchange) {
    let count = asked.number(0xFFFF_FFFF) as u32;
    let seed = number(asked);
    match agreed(asked.alloc(), count, seed) {
        Ok(agree) => asked.say_whether(agree),
        Err(refusal) => refuse(asked, refusal),
    }
}

impl Namespace {
    /// The root alone.
    pub fn new(alloc: Global) -> Result<Namespace> {
        Ok(Namespace {
            names: Names::new(alloc)?,
            calls: VecDeque::new(alloc),
        })
    }

    /// Declares a name, and gives the number of the declaration.
    fn declare(&mut self, asked: &mut Exchange) {
        let place = path(asked);
        let object = object(asked);
        if asked.is_well() {
            match self.names.insert(place, object) {
                Ok(number) => asked.say_number(number),
                Err(refusal) => refuse(asked, refusal),
            }
        }
    }

    /// Puts something else in place of what stands at a path.
    fn replace(&mut self, asked: &mut Exchange) {
        let place = path(asked);
        let object = object(asked);
        if asked.is_well() {
            say_done(asked, self.names.replace(&place, object));
        }
    }

    /// Removes the names below a path.
    fn clear(&mut self, asked: &mut Exchange) {
        let path = path(asked);
        if asked.is_well() {
            self.names.remove_below(&path);
        }
    }

    /// What stands at a path.
    fn get(&self, asked: &mut Exchange) {
        let path = path(asked);
        match self.names.get(&path) {
            Some(entry) => show_entry(asked, entry),
            None => asked.say("none"),
        }
    }

    /// The path of a declaration that stands.
    fn at_number(&self, asked: &mut Exchange) {
        let number = number(asked);
        match self.names.path_of(asked.alloc(), NodeId::numbered(number)) {
            Ok(Some(path)) => say_path(asked, &path),
            Ok(None) => asked.say("none"),
            Err(refusal) => refuse(asked, refusal),
        }
    }

    /// What a name finds from a scope.
    fn lookup(&self, asked: &mut Exchange) {
        let name = name(asked);
        let scope = scope(asked);
        match self.names.lookup(&scope, &name) {
            Ok(entry) => show_entry(asked, entry),
            Err(refusal) => refuse(asked, refusal),
        }
    }

    /// The path of what a name finds from a scope.
    fn locate(&self, asked: &mut Exchange) {
        let name = name(asked);
        let scope = scope(asked);
        match self.names.locate(asked.alloc(), &scope, &name) {
            Ok(place) => say_path(asked, &place),
            Err(refusal) => refuse(asked, refusal),
        }
    }

    /// What a name finds from the scope that is the node at a path, or from one that doesn't stand.
    fn search(&self, asked: &mut Exchange) {
        let name = name(asked);
        let scope = scope(asked);
        let id = self
            .names
            .find(&scope)
            .unwrap_or(NodeId::numbered(u64::MAX));
        match self.names.search(id, &name) {
            Ok(found) => asked.say_number(found.number),
            Err(refusal) => refuse(asked, refusal),
        }
    }

    /// The paths of all names but the root.
    fn walk(&self, asked: &mut Exchange) {
        match self.names.walk(asked.alloc()) {
            Ok(paths) => show_paths(asked, paths.as_slice()),
            Err(refusal) => refuse(asked, refusal),
        }
    }

    /// The last segments of the names one level below a path.
    fn children(&self, asked: &mut Exchange) {
        let path = path(asked);
        match self.names.children(asked.alloc(), &path) {
            Ok(segments) => show_segments(asked, segments.as_slice()),
            Err(refusal) => refuse(asked, refusal),
        }
    }

    /// Puts down a call that is answered later.
    fn call(&mut self, asked: &mut Exchange) {
        let call = call(asked);
        if asked.is_well() && self.calls.push_back(call).is_err() {
            asked.run_out();
        }
    }

    /// Answers the calls that were put down.
    fn answer_calls(&mut self, asked: &mut Exchange) {
        let calls = mem::replace(&mut self.calls, VecDeque::new(asked.alloc()));
        match self.names.answer_all(asked.alloc(), calls) {
            Ok(replies) => show_replies(asked, replies.as_slice()),
            Err(refusal) => refuse(asked, refusal),
        }
    }

    /// Answers a question that changes the namespace, and says whether it is one.
    fn answer_changes(&mut self, asked: &mut Exchange, word: &str) -> bool {
        match word {
            "declare" => self.declare(asked),
            "replace" => self.replace(asked),
            "clear" => self.clear(asked),
            "release" => self.names.release_mutexes(),
            "call" => self.call(asked),
            "answer" => self.answer_calls(asked),
            _ => return false,
        }
        true
    }

    /// Answers a question about the namespace, and says whether it is one.
    pub fn answer(&mut self, asked: &mut Exchange, word: &str) -> bool {
        match word {
            "get" => self.get(asked),
            "numbered" => self.at_number(asked),
            "lookup" => self.lookup(asked),
            "locate" => self.locate(asked),
            "search" => self.search(asked),
            "walk" => self.walk(asked),
            "children" => self.children(asked),
            "agree" => agreement(asked),
            _ => return self.answer_changes(asked, word),
        }
        true
    }
}
