//! The routing problem of present links, of wired pins and of the System Control Interrupt.
ghost use Rattle.std.specs.Prelude.{◌≡◌, ◌≤◌, ◌<◌, ◌+◌, ◌++◌, false, Some, Ok, OnOk, IfOk, All, length, map, sum_by};
ghost use Rattle.std.specs.Prelude.{option_to_list, unwrap_or};
ghost use Rattle.std.specs.BTreeMap.{get, insert_entry, Updates};
ghost use Rattle.std.specs.Map.{keys_of};
ghost use Rattle.std.specs.List.Sorted.{IsStrictlyIncreasing, IsStrictlySortedBy};
ghost use Rattle.std.specs.Ordering.{nat_cmp};
ghost use Rattle.ar_space.specs.Outcome.{Answers, seen};
ghost use Rattle.aml_path.specs.Paths.{path_cmp};
ghost use Rattle.acpi_resources.specs.Numbers.{set_of};
ghost use Rattle.route_solve.specs.Fits.{Fits, IsOffer};
ghost use Rattle.acpi_links.specs.Problems.{wired_number, with_number, wired_numbers, wired_counts, pin_counts};
ghost use Rattle.acpi_links.specs.Problems.{source_numbers, offering, problem_of};
ghost use Rattle.acpi_links.specs.Links.{HasLeft};
ghost use Rattle.route_model.specs.Avoided.{are_all_avoided, without};

use crate::links::PresentLink;
use acpi_prt::{Pin, Route};
use acpi_resources::Offer;
use aml_path::Path;
use ar_space::Result;
use route_model::{Link, without};
use route_solve::Problem;
use std::alloc::{AllocError, Global};
use std::collections::{BTreeMap, BTreeSet};

/// The problem of some present links, in path order, of the pins that are wired to an interrupt, and of the System
/// Control Interrupt, if it has a source. No link offers an interrupt that is avoided.
pub(crate) fn problem_of(
    alloc: Global,
    avoid: &[u32],
    sci: Option<u32>,
    links: &[PresentLink],
    pins: &[(Path, Pin)],
) -> Result<Problem>
    requires pins { length pins.now + length (option_to_list sci) ≤ 4096 }
    requires few { length links.now ≤ 256 }
    requires in_order { IsStrictlySortedBy path_cmp (map (λ link. link.0) links.now) }
    requires left { All (HasLeft avoid.now) links.now }
    ensures value { Answers result (Ok (problem_of avoid.now sci links.now pins.now)) }
    ensures fits { IfOk result Fits }
    ensures few_wired { IfOk result (λ p. length p.wired ≤ 4096) }
{
    let offering = offering_links(alloc, avoid, links)?;
    let numbers = source_numbers(alloc, sci, pins)?;
    let wired = wired_counts(alloc, &numbers)?;
    Ok(Problem {
        links: offering,
        wired,
    })
}

/// The interrupts that pins are wired to, ascending, each with how many pins are: at most 4,096 pins.
pub fn pin_counts(alloc: Global, pins: &[(Path, Pin)]) -> Result<Vec<(u32, u32)>, AllocError>
    requires { length pins.now ≤ 4096 }
    ensures { IfOk result (λ list. list.items ≡ pin_counts pins.now) }
{
    let numbers = wired_numbers(alloc, pins)?;
    wired_counts(alloc, &numbers)
}

/// Each link with what it offers of the interrupts that aren't avoided.
fn offering_links(alloc: Global, avoid: &[u32], links: &[PresentLink]) -> Result<Vec<Link>>
    requires { All (HasLeft avoid.now) links.now }
    ensures value { Answers (seen (λ list. list.items) result) (Ok (map (offering avoid.now) links.now)) }
    ensures offers { IfOk result (λ list. All (λ link. IsOffer link.offers) list.items) }
{
    let mut list = Vec::new(alloc);
    for (path, offer, _) in links {
        list.push(offering(alloc, avoid, path, offer)?)?;
    }
    Ok(list)
}

fn offering(alloc: Global, avoid: &[u32], path: &Path, offer: &Offer) -> Result<Link>
    requires { are_all_avoided avoid.now offer.now.numbers ≡ false }
    ensures value { Answers result (Ok (record { path = path.now; offers = without avoid.now offer.now.numbers })) }
    ensures offer { IfOk result (λ link. IsOffer link.offers) }
{
    let path = path.copy(alloc)?;
    let numbers = without(alloc, avoid, offer.numbers())?;
    Ok(Link::new(path, numbers))
}

/// The interrupts of all wired sources: of the pins, and of the System Control Interrupt, if it has one.
#[tactic(auto, unfolding(crate::specs::Problems::source_numbers))]
fn source_numbers(
    alloc: Global,
    sci: Option<u32>,
    pins: &[(Path, Pin)],
) -> Result<Vec<u32>, AllocError>
    ensures value { IfOk result (λ list. list.items ≡ source_numbers sci pins.now) }
    ensures few { IfOk result (λ list. length list.items ≤ length pins.now + length (option_to_list sci)) }
{
    let mut list = wired_numbers(alloc, pins)?;
    push_sci(&mut list, sci)?;
    Ok(list)
}

fn push_sci(list: &mut Vec<u32>, sci: Option<u32>) -> Result<(), AllocError>
    ensures items { OnOk result (list.new.items ≡ list.old.items ++ option_to_list sci) }
    ensures few { OnOk result (length list.new.items ≤ length list.old.items + length (option_to_list sci)) }
{
    if let Some(n) = sci {
        list.push(n)?;
    }
    Ok(())
}

/// The interrupts that pins are wired to, one for each such pin.
fn wired_numbers(alloc: Global, pins: &[(Path, Pin)]) -> Result<Vec<u32>, AllocError>
    ensures value { IfOk result (λ list. list.items ≡ wired_numbers pins.now) }
    ensures few { IfOk result (λ list. length list.items ≤ length pins.now) }
{
    let mut list = Vec::new(alloc);
    for (_, pin) in pins {
        push_wired(&mut list, &pin.route)?;
    }
    Ok(list)
}

/// Pushes the interrupt that a route is wired to, if it is to one.
fn push_wired(list: &mut Vec<u32>, route: &Route) -> Result<(), AllocError>
    ensures items { OnOk result (list.new.items ≡ with_number list.old.items (wired_number route.now)) }
    ensures few { OnOk result (length list.new.items ≤ length list.old.items + 1) }
{
    match route {
        Route::Wired(n) => list.push(*n)?,
        Route::Link(_) => {}
    }
    Ok(())
}

/// The interrupts of a list, ascending, each with how often it is listed.
fn wired_counts(alloc: Global, numbers: &[u32]) -> Result<Vec<(u32, u32)>, AllocError>
    requires { length numbers.now ≤ 4096 }
    ensures value { IfOk result (λ list. list.items ≡ wired_counts numbers.now) }
    ensures ascending { IfOk result (λ list. IsStrictlyIncreasing (map (λ w. w.0) list.items)) }
    ensures counts { IfOk result (λ list. sum_by (λ w. w.1) list.items ≤ 4096) }
    ensures few { IfOk result (λ list. length list.items ≤ 4096) }
{
    let counts = counts_of(alloc, numbers)?;
    Ok(counts)
}

/// How often each number of a list is listed. Each is found by halving.
fn counts_of(alloc: Global, numbers: &[u32]) -> Result<Vec<(u32, u32)>, AllocError>
    requires { length numbers.now ≤ 4096 }
    ensures value { IfOk result (λ list. list.items ≡ wired_counts numbers.now) }
    ensures keys { IfOk result (λ list. keys_of list.items ≡ set_of numbers.now) }
    ensures ascending { IfOk result (λ list. IsStrictlySortedBy nat_cmp (keys_of list.items)) }
    ensures few { IfOk result (λ list. length list.items ≤ length numbers.now) }
{
    let mut counts = BTreeMap::new(alloc);
    for n in numbers {
        count_one(&mut counts, *n)?;
    }
    Ok(counts_in_order(alloc, counts)?)
}

/// Counts a number once more.
fn count_one(counts: &mut BTreeMap<u32, u32>, n: u32) -> Result<(), AllocError>
    requires { unwrap_or (get nat_cmp counts.old n) 0 < 4096 }
    ensures count { OnOk result (Updates nat_cmp counts.old counts.new n
        (Some (unwrap_or (get nat_cmp counts.old n) 0 + 1))) }
    ensures entries { OnOk result (counts.new.entries ≡ insert_entry nat_cmp counts.old.entries n
        (unwrap_or (get nat_cmp counts.old n) 0 + 1)) }
{
    let before = counts.get(&n).copied().unwrap_or(0);
    counts.insert(n, before + 1)?;
    Ok(())
}

fn counts_in_order(alloc: Global, counts: BTreeMap<u32, u32>) -> Result<Vec<(u32, u32)>, AllocError>
    ensures value { IfOk result (λ list. list.items ≡ counts.entries) }
    ensures ascending { IfOk result (λ list. IsStrictlySortedBy nat_cmp (keys_of list.items)) }
{
    counts.into_iter().collect(alloc)
}

/// The numbers of a list, ascending, each once.
pub fn set_of(alloc: Global, numbers: &[u32]) -> Result<Vec<u32>, AllocError>
    ensures value { IfOk result (λ list. list.items ≡ set_of numbers.now) }
    ensures ascending { IfOk result (λ list. IsStrictlySortedBy nat_cmp list.items) }
    ensures few { IfOk result (λ list. length list.items ≤ length numbers.now) }
{
    let mut set = BTreeSet::new(alloc);
    for n in numbers {
        set.insert(*n)?;
    }
    Ok(ascending(alloc, set)?)
}

fn ascending(alloc: Global, set: BTreeSet<u32>) -> Result<Vec<u32>, AllocError>
    ensures value { IfOk result (λ list. list.items ≡ set.keys) }
    ensures ascending { IfOk result (λ list. IsStrictlySortedBy nat_cmp list.items) }
{
    set.into_iter().collect(alloc)
}
