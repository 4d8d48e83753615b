//! The public calls: a solver, and a check of any choice.
ghost use Rattle.std.specs.Prelude.{◌≡◌, ◌↔◌, ◌<◌, ◌≤◌, ◌+◌, ◌^◌, ℕ, Contains, IfOk, IsTrue, Ok, false, length};
ghost use Rattle.std.specs.Bool.{OnTrue, OnFalse};
ghost use Rattle.std.specs.List.Sorted.{IsStrictlyIncreasing};
ghost use Rattle.route_model.specs.Links.{offers_of};
ghost use Rattle.route_model.specs.Routing.{given, wired_to, IsAssignment};
ghost use Rattle.route_spread.specs.Marks.{at};
ghost use Rattle.route_numbers.specs.Numbers.{number_at};
ghost use Rattle.route_spread.specs.Sharing.{IsLeastShared};
ghost use Rattle.route_spread.specs.InMemory.{HaveLevelled, WereMoved};
ghost use Rattle.route_spread.specs.Improving.{CanBeImproved, HasSameOffers, IsImproved, IsSharingOf, WereLevelled};

use crate::assignment::Assignment;
use crate::holders::Holders;
use crate::marking::Marks;
use crate::sources::{add_links, add_wired};
use route_model::Link;
use route_numbers::{all_numbers, all_offered, all_places_chosen, all_places_offered};
use std::alloc::{AllocError, Global};

/// Links on interrupts that they offer, and all the memory that moving them takes.
#[derive(Drop)]
struct Sharing {
    /// The interrupts that links offer, ascending: each is known by its place among them.
    numbers: Vec<u32>,
    /// Which of them the links have.
    assignment: Assignment,
    /// What the search for a better one has marked.
    marks: Marks,
}

/// How many sources each interrupt serves.
fn all_loads(
    alloc: Global,
    numbers: &[u32],
    wired: &[(u32, u32)],
    choice: &[usize],
) -> Result<Vec<u128>, AllocError>
    requires ascending { IsStrictlyIncreasing numbers.now }
    requires known { (k : ℕ) → k < length choice.now → at choice.now k < length numbers.now }
    ensures long { IfOk result (λ loads. length loads.items ≡ length numbers.now) }
    ensures loaded { IfOk result (λ loads. (x : ℕ) → x < length numbers.now →
        at loads.items x ≡ given choice.now x + wired_to wired.now (number_at numbers.now x)) }
    ensures small { IfOk result (λ loads. (x : ℕ) → at loads.items x ≤ 2 ^ 100) }
{
    let mut loads: Vec<u128> = vec![in alloc; 0; numbers.len()]?;
    add_wired(&mut loads, numbers, wired);
    add_links(&mut loads, choice);
    Ok(loads)
}

impl Sharing {
    /// Puts links on the interrupts of an assignment.
    fn new(
        alloc: Global,
        links: &[Link],
        wired: &[(u32, u32)],
        choice: &[u32],
    ) -> Result<Sharing, AllocError>
        requires { IsAssignment (offers_of links.now) choice.now }
        ensures { IfOk result (λ s. IsSharingOf (offers_of links.now) wired.now choice.now s) }
    {
        let numbers = all_offered(alloc, links)?;
        let offers = all_places_offered(alloc, &numbers, links)?;
        let choice = all_places_chosen(alloc, &numbers, choice)?;
        let loads = all_loads(alloc, &numbers, wired, &choice)?;
        let holders = Holders::new(alloc, numbers.len(), choice.len())?;
        let marks = Marks::new(alloc, numbers.len())?;
        Ok(Sharing {
            numbers,
            assignment: Assignment {
                offers,
                choice,
                loads,
                holders,
            },
            marks,
        })
    }

    /// Makes the loads less uneven where links can be moved for it. Else no link offers an interrupt that is lower,
    /// with those raised that are marked.
    fn improve(&mut self) -> bool
        requires { CanBeImproved self.old }
        ensures can { CanBeImproved self.new }
        ensures same { HasSameOffers self.old self.new }
        ensures yes { OnTrue result (WereMoved self.old.assignment self.new.assignment) }
        ensures no { OnFalse result (WereLevelled self.old self.new) }
    {
        self.assignment.holders.note(&self.assignment.choice);
        match self.marks.mark(&self.assignment) {
            Some(way) => {
                self.assignment.shift(&self.marks, way);
                true
            }
            None => false,
        }
    }

    /// Moves links until no link offers an interrupt that is lower, with those raised that are marked.
    fn level(&mut self)
        requires { CanBeImproved self.old }
        ensures same { HasSameOffers self.old self.new }
        ensures improved { IsImproved self.old.assignment self.new.assignment }
        ensures levelled { HaveLevelled self.new.assignment self.new.marks }
    {
        while self.improve() {}
    }
}

/// Whether a link offers an interrupt.
fn is_offered(link: &Link, n: u32) -> bool
    ensures { IsTrue result ↔ Contains link.now.offers n }
{
    link.offers().contains(&n)
}

/// Whether a choice gives each link an interrupt that it offers.
fn is_assignment(links: &[Link], choice: &[u32]) -> bool
    ensures { IsTrue result ↔ IsAssignment (offers_of links.now) choice.now }
{
    if links.len() != choice.len() {
        return false;
    }
    for i in 0..links.len() {
        if !is_offered(&links[i], choice[i]) {
            return false;
        }
    }
    true
}

/// Whether links share interrupts as little as they can under a choice, from their offers, the wired counts and the
/// choice alone. No to a choice that is no assignment, for which no memory is taken. An error means that memory ran
/// out.
pub fn is_least_shared(
    alloc: Global,
    links: &[Link],
    wired: &[(u32, u32)],
    choice: &[u32],
) -> Result<bool, AllocError>
    ensures answer { IfOk result (λ yes. IsTrue yes ↔ IsLeastShared (offers_of links.now) wired.now choice.now) }
    ensures no { (IsAssignment (offers_of links.now) choice.now → ⊥) → result ≡ Ok false }
{
    if !is_assignment(links, choice) {
        return Ok(false);
    }
    let mut sharing = Sharing::new(alloc, links, wired, choice)?;
    Ok(!sharing.improve())
}

/// An assignment under which links share interrupts as little as they can: from a first one, links are moved until
/// that is so. Where it is so from the beginning, the first one is the answer. An error means that memory ran out.
pub fn solve_spread(
    alloc: Global,
    links: &[Link],
    wired: &[(u32, u32)],
    first: &[u32],
) -> Result<Vec<u32>, AllocError>
    requires { IsAssignment (offers_of links.now) first.now }
    ensures least { IfOk result (λ choice. IsLeastShared (offers_of links.now) wired.now choice.items) }
    ensures stays { IfOk result (λ choice. IsLeastShared (offers_of links.now) wired.now first.now →
        choice.items ≡ first.now) }
{
    let mut sharing = Sharing::new(alloc, links, wired, first)?;
    sharing.level();
    all_numbers(alloc, &sharing.numbers, &sharing.assignment.choice)
}
