//! Claims: their parts, what they say, and what `check` says of them.
use crate::answers::say_numbers;
use crate::generated::add_links;
use crate::words::{add_give, add_wired, number, numbers, set_bound, source};
use aml_path::Path;
use route_check::{Bound, Claim, Flaw, check};
use route_model::Link;
use std::alloc::Global;
use test_rows::Exchange;
use test_words::{add, path_of, say_path};

/// A claim that says nothing.
pub fn empty_claim(alloc: Global) -> Claim {
    Claim {
        links: Vec::new(alloc),
        wired: Vec::new(alloc),
        sci: None,
        avoid: Vec::new(alloc),
        gives: Vec::new(alloc),
        busiest: 0,
        bound: None,
        spread: false,
    }
}

/// `link PATH offers N..`
fn add_link(asked: &mut Exchange, links: &mut Vec<Link>) {
    let name = asked.until(" offers ");
    let path = path_of(asked, name);
    let offers = numbers(asked);
    add(asked, links, Link::new(path, offers));
}

/// A flaw in words.
fn flaw_word(flaw: Flaw) -> &'static str {
    match flaw {
        Flaw::NotOffered => "not offered",
        Flaw::LinkMissing => "link missing",
        Flaw::Repeated => "repeated",
        Flaw::BusiestWrong => "busiest wrong",
        Flaw::OfferOutsideSet => "offer outside set",
        Flaw::CountTooSmall => "count too small",
        Flaw::SetEmpty => "set empty",
        Flaw::NotLeastShared => "not least shared",
    }
}

/// `check`
fn checked(asked: &mut Exchange, claim: &Claim) {
    match check(claim) {
        Ok(()) => asked.say("valid"),
        Err(flaw) => {
            asked.say("flaw");
            asked.say_number(u64::from(flaw.number()));
            asked.say(flaw_word(flaw));
        }
    }
}

/// Answers a link and the interrupts that it offers.
pub fn say_link(asked: &mut Exchange, path: &Path, offers: &[u32]) {
    asked.say("link");
    say_path(asked, path);
    asked.say("offers");
    say_numbers(asked, offers);
}

/// Answers the links of a claim.
fn say_links(asked: &mut Exchange, links: &[Link]) {
    for link in links {
        say_link(asked, link.path(), link.offers());
        asked.push(";");
    }
}

/// Answers the wired interrupts of a claim.
fn say_wired(asked: &mut Exchange, wired: &[(u32, u32)]) {
    for (interrupt, count) in wired {
        asked.say("wired");
        say_numbers(asked, &[*interrupt, *count]);
        asked.push(";");
    }
}

/// Answers the source of the System Control Interrupt, if a claim has one.
fn say_sci(asked: &mut Exchange, sci: Option<u32>) {
    if let Some(interrupt) = sci {
        asked.say("sci");
        say_numbers(asked, &[interrupt]);
        asked.push(";");
    }
}

/// Answers the interrupts that a claim avoids, if it avoids any.
fn say_avoid(asked: &mut Exchange, avoid: &[u32]) {
    if !avoid.is_empty() {
        asked.say("avoid");
        say_numbers(asked, avoid);
        asked.push(";");
    }
}

/// Answers what the links of a claim are given.
fn say_gives(asked: &mut Exchange, gives: &[(Path, u32)]) {
    for (link, interrupt) in gives {
        asked.say("give");
        say_path(asked, link);
        asked.say_number(u64::from(*interrupt));
        asked.push(";");
    }
}

/// Answers a set: its links, and its interrupts.
fn say_set(asked: &mut Exchange, bound: &Bound) {
    if bound.links.is_empty() {
        asked.say("-");
    }
    for path in bound.links.iter() {
        say_path(asked, path);
    }
    asked.say("over");
    say_numbers(asked, bound.interrupts.as_slice());
}

/// `claim`
fn say_claim(asked: &mut Exchange, claim: &Claim) {
    say_links(asked, claim.links.as_slice());
    say_wired(asked, claim.wired.as_slice());
    say_sci(asked, claim.sci);
    say_avoid(asked, claim.avoid.as_slice());
    say_gives(asked, claim.gives.as_slice());
    asked.say("busiest");
    asked.say_number(u64::from(claim.busiest));
    asked.push("; bound");
    match &claim.bound {
        Some(bound) => say_set(asked, bound),
        None => asked.say("none"),
    }
}

/// `count links`, `count wired` or `count gives`
fn counted(asked: &mut Exchange, claim: &Claim) {
    let what = asked.word();
    match what {
        "links" => asked.say_number(claim.links.len() as u64),
        "wired" => asked.say_number(claim.wired.len() as u64),
        "gives" => asked.say_number(claim.gives.len() as u64),
        _ => asked.misunderstand(),
    }
}

/// `taken-apart`: the path and the offers of the last link, which is taken out of the claim.
fn taken_apart(asked: &mut Exchange, links: &mut Vec<Link>) {
    match links.pop() {
        Some(link) => {
            let (path, offers) = link.into_parts();
            say_link(asked, &path, offers.as_slice());
        }
        None => asked.misunderstand(),
    }
}

/// A question of a claim.
#[derive(Clone, Copy)]
pub enum Ask {
    Link,
    Links,
    Wired,
    Sci,
    Avoid,
    Give,
    Busiest,
    Bound,
    Check,
    Claim,
    Count,
    TakenApart,
}

/// Answers a question of what a claim says.
fn tell(asked: &mut Exchange, claim: &mut Claim, ask: Ask) {
    match ask {
        Ask::Check => checked(asked, claim),
        Ask::Count => counted(asked, claim),
        Ask::TakenApart => taken_apart(asked, &mut claim.links),
        _ => say_claim(asked, claim),
    }
}

/// Answers a question of a claim.
pub fn answer(asked: &mut Exchange, claim: &mut Claim, ask: Ask) {
    match ask {
        Ask::Link => add_link(asked, &mut claim.links),
        Ask::Links => add_links(asked, &mut claim.links),
        Ask::Wired => add_wired(asked, &mut claim.wired),
        Ask::Sci => claim.sci = source(asked),
        Ask::Avoid => claim.avoid = numbers(asked),
        Ask::Give => add_give(asked, &mut claim.gives),
        Ask::Busiest => claim.busiest = number(asked),
        Ask::Bound => set_bound(asked, &mut claim.bound),
        _ => tell(asked, claim, ask),
    }
}
