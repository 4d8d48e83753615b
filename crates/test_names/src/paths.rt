//! Questions about segments, paths and names.

use crate::shown::{show_name, show_segment};
use crate::words::{byte, name, say_outcome, scope, segment};
use aml_path::{Path, Seg, is_lead_name_char, is_name_char};
use std::cmp::Ordering;
use test_rows::Exchange;
use test_words::{count, path, path_of, refuse, say_path};

/// A path with shorter segments filled up.
fn full(asked: &mut Exchange) {
    let text = asked.rest();
    let path = path_of(asked, text);
    say_path(asked, &path);
}

/// The path of one segment.
fn of_segment(asked: &mut Exchange) {
    let segment = segment(asked);
    let child = Path::root(asked.alloc()).child(asked.alloc(), segment);
    say_outcome(asked, child);
}

/// The path one segment below another.
fn child(asked: &mut Exchange) {
    let above = path(asked);
    let segment = segment(asked);
    let child = above.child(asked.alloc(), segment);
    say_outcome(asked, child);
}

/// The path one level up.
fn parent(asked: &mut Exchange) {
    let below = path(asked);
    match below.parent(asked.alloc()) {
        Ok(Some(parent)) => say_path(asked, &parent),
        Ok(None) => asked.say("none"),
        Err(refusal) => refuse(asked, refusal),
    }
}

/// How many segments a path has.
fn depth(asked: &mut Exchange) {
    let depth = path(asked).depth();
    asked.say_number(depth as u64);
}

/// The path of the first segments of a path.
fn first(asked: &mut Exchange) {
    let depth = count(asked);
    let whole = path(asked);
    if depth > whole.depth() {
        asked.misunderstand();
    } else {
        let first = whole.prefix(asked.alloc(), depth);
        say_outcome(asked, first);
    }
}

/// The segments of a path below the first segments of another.
fn joined(asked: &mut Exchange) {
    let depth = count(asked);
    let whole = path(asked);
    let below = path(asked);
    if depth > whole.depth() {
        asked.misunderstand();
    } else {
        let joined = whole.below_prefix(asked.alloc(), depth, below.segments());
        say_outcome(asked, joined);
    }
}

/// Whether a path is below another.
fn is_below(asked: &mut Exchange) {
    let low = path(asked);
    let high = path(asked);
    asked.say_whether(low.is_below(&high));
}

/// The order of two paths.
fn compared(asked: &mut Exchange) {
    let one = path(asked);
    let other = path(asked);
    asked.say(match one.cmp(&other) {
        Ordering::Less => "before",
        Ordering::Equal => "equal",
        Ordering::Greater => "after",
    });
}

/// Whether two texts are the same path.
fn is_same(asked: &mut Exchange) {
    let one = path(asked);
    let other = path(asked);
    asked.say_whether(one == other);
}

/// A copy of a name.
fn copied(asked: &mut Exchange) {
    let name = name(asked);
    match name.copy(asked.alloc()) {
        Ok(copy) => show_name(asked, &copy),
        Err(refusal) => refuse(asked, refusal),
    }
}

/// The path that a name stands for in a scope.
fn resolved(asked: &mut Exchange) {
    let name = name(asked);
    let scope = scope(asked);
    let place = name.resolve_in(asked.alloc(), &scope);
    say_outcome(asked, place);
}

/// A question about a segment.
fn of_segments(asked: &mut Exchange, word: &str) {
    let segment = segment(asked);
    match word {
        "segment" => show_segment(asked, segment),
        _ => asked.say_whether(segment == Seg::known(*b"_SB_")),
    }
}

/// A question about a name.
fn of_names(asked: &mut Exchange, word: &str) {
    let name = name(asked);
    match word {
        "name" => show_name(asked, &name),
        "null" => asked.say_whether(name.is_null()),
        _ => asked.say_whether(name.is_searched()),
    }
}

/// A question about a character of names.
fn of_characters(asked: &mut Exchange, word: &str) {
    let byte = byte(asked);
    match word {
        "lead" => asked.say_whether(is_lead_name_char(byte)),
        _ => asked.say_whether(is_name_char(byte)),
    }
}

/// Answers a question about segments, names and characters, and says whether it is one.
fn answer_of_names(asked: &mut Exchange, word: &str) -> bool {
    match word {
        "segment" | "is-known" => of_segments(asked, word),
        "path-of-segment" => of_segment(asked),
        "known" => show_segment(asked, Seg::known(*b"_SB_")),
        "name" | "null" | "searched" => of_names(asked, word),
        "copy-name" => copied(asked),
        "resolve" => resolved(asked),
        "lead" | "further" => of_characters(asked, word),
        _ => return false,
    }
    true
}

/// Answers a question about segments, paths and names, and says whether it is one.
pub fn answer(asked: &mut Exchange, word: &str) -> bool {
    match word {
        "path" => full(asked),
        "child" => child(asked),
        "parent" => parent(asked),
        "depth" => depth(asked),
        "first" => first(asked),
        "join" => joined(asked),
        "below" => is_below(asked),
        "compare" => compared(asked),
        "same" => is_same(asked),
        _ => return answer_of_names(asked, word),
    }
    true
}
