//! How many sources an interrupt serves. A claim's counts have no bound, so that sums are taken in 128 bits.
ghost use Rattle.std.specs.Prelude.{◌≡◌, ◌==◌, ◌↔◌, IsTrue, ◌-◌, ◌≤◌, ◌^◌, min, map, sum_by, option_to_list};
ghost use Rattle.std.specs.Ordering.{nat_cmp};
ghost use Rattle.route_model.specs.Routing.{greatest, wired_to, given, load, busiest};
ghost use Rattle.route_check.specs.Ascending.{Ascends, AreAligned};
ghost use Rattle.route_check.specs.Valid.{keys_of, choice_of, sci_counts, effective_counts, IsBusiestRight};

use crate::claim::Claim;
use crate::offered::{are_aligned, given_at};
use crate::steps::numbers_ascend;
use aml_path::Path;
use route_model::Link;

/// How many pins are wired to an interrupt, by counts in any order.
fn pins_in_any_order(wired: &[(u32, u32)], n: u32) -> u128
    ensures value { result ≡ wired_to wired.now n }
    ensures small { result ≤ 2 ^ 96 }
{
    let mut total = 0;
    for w in wired {
        if w.0 == n {
            total += u128::from(w.1);
        }
    }
    total
}

/// How many pins are wired to an interrupt.
fn pins_at(wired: &[(u32, u32)], ascend: bool, n: u32) -> u128
    requires { IsTrue ascend → Ascends nat_cmp (λ w. w.0) wired.now }
    ensures value { result ≡ wired_to wired.now n }
    ensures small { result ≤ 2 ^ 96 }
{
    if !ascend {
        return pins_in_any_order(wired, n);
    }
    match wired.binary_search_by(|w| w.0.cmp(&n)) {
        Ok(i) => u128::from(wired[i].1),
        Err(_) => 0,
    }
}

/// 1 for the interrupt of the System Control Interrupt, else 0.
fn sci_at(sci: Option<u32>, n: u32) -> u128
    ensures value { result ≡ wired_to (sci_counts sci) n }
    ensures small { result ≤ 1 }
{
    if sci == Some(n) { 1 } else { 0 }
}

/// How many sources are wired to an interrupt.
fn sources_at(claim: &Claim, ascend: bool, n: u32) -> u128
    requires { IsTrue ascend → Ascends nat_cmp (λ w. w.0) claim.now.wired }
    ensures value { result ≡ wired_to (effective_counts claim.now) n }
    ensures small { result ≤ 2 ^ 97 }
{
    sci_at(claim.sci(), n) + pins_at(claim.wired(), ascend, n)
}

/// Whether it is known that the counts of pins ascend.
fn do_counts_ascend(claim: &Claim) -> bool
    ensures { IsTrue result → Ascends nat_cmp (λ w. w.0) claim.now.wired }
{
    numbers_ascend(claim.wired())
}

/// How many sources are wired to some interrupts, or the greatest number if there are more.
pub(crate) fn sources_at_all(claim: &Claim, interrupts: &[u32]) -> u128
    ensures { result ≡ min (2 ^ 128 - 1) (sum_by (wired_to (effective_counts claim.now)) interrupts.now) }
{
    let ascend = do_counts_ascend(claim);
    let mut total: u128 = 0;
    for n in interrupts {
        total = total.saturating_add(sources_at(claim, ascend, *n));
    }
    total
}

/// How many links are given an interrupt.
fn links_given(links: &[Link], gives: &[(Path, u32)], aligned: bool, n: u32) -> u128
    requires { IsTrue aligned → AreAligned links.now gives.now }
    ensures value { result ≡ given (choice_of links.now gives.now) n }
    ensures small { result ≤ 2 ^ 64 }
{
    let mut total = 0;
    for i in 0..links.len() {
        if given_at(links, gives, aligned, i) == n {
            total += 1;
        }
    }
    total
}

/// How many sources an interrupt serves.
fn load(claim: &Claim, aligned: bool, ascend: bool, n: u32) -> u128
    requires aligned { IsTrue aligned → AreAligned claim.now.links claim.now.gives }
    requires ascend { IsTrue ascend → Ascends nat_cmp (λ w. w.0) claim.now.wired }
    ensures { result ≡ load (effective_counts claim.now) (choice_of claim.now.links claim.now.gives) n }
{
    links_given(claim.links(), claim.gives(), aligned, n) + sources_at(claim, ascend, n)
}

/// The greatest load of an interrupt that is given.
fn busiest_given(claim: &Claim, aligned: bool, ascend: bool) -> u128
    requires aligned { IsTrue aligned → AreAligned claim.now.links claim.now.gives }
    requires ascend { IsTrue ascend → Ascends nat_cmp (λ w. w.0) claim.now.wired }
    ensures { result ≡ greatest (map (load (effective_counts claim.now) (choice_of claim.now.links claim.now.gives))
        (choice_of claim.now.links claim.now.gives)) }
{
    let links = claim.links();
    let gives = claim.gives();
    let mut greatest: u128 = 0;
    for i in 0..links.len() {
        greatest = greatest.max(load(claim, aligned, ascend, given_at(links, gives, aligned, i)));
    }
    greatest
}

/// How many sources are wired to the interrupt of the System Control Interrupt.
fn wired_at_sci(claim: &Claim, ascend: bool) -> u128
    requires { IsTrue ascend → Ascends nat_cmp (λ w. w.0) claim.now.wired }
    ensures { result ≡ greatest (map (wired_to (effective_counts claim.now)) (option_to_list claim.now.sci)) }
{
    match claim.sci() {
        Some(n) => sources_at(claim, ascend, n),
        None => 0,
    }
}

/// The greatest number of sources that are wired to an interrupt.
fn busiest_wired(claim: &Claim, ascend: bool) -> u128
    requires { IsTrue ascend → Ascends nat_cmp (λ w. w.0) claim.now.wired }
    ensures { result ≡ greatest (map (wired_to (effective_counts claim.now)) (keys_of (effective_counts claim.now))) }
{
    let mut greatest = wired_at_sci(claim, ascend);
    for w in claim.wired() {
        greatest = greatest.max(sources_at(claim, ascend, w.0));
    }
    greatest
}

/// How many sources the busiest interrupt serves, of those that are given or wired. Links are counted only where one
/// is given: anywhere else the wired sources are all.
#[tactic(auto, using(crate::proofs::Busiest::given_or_wired))]
fn busiest(claim: &Claim) -> u128
    ensures { result ≡ busiest (effective_counts claim.now) (choice_of claim.now.links claim.now.gives) }
{
    let aligned = are_aligned(claim.links(), claim.gives());
    let ascend = do_counts_ascend(claim);
    let given = busiest_given(claim, aligned, ascend);
    given.max(busiest_wired(claim, ascend))
}

/// Whether the busiest interrupt serves as many sources as the claim says.
pub(crate) fn is_busiest_right(claim: &Claim) -> bool
    ensures { IsTrue result ↔ IsBusiestRight claim.now }
{
    busiest(claim) == u128::from(claim.busiest())
}
