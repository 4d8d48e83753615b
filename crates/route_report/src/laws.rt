//! What holds of all reports: each law is the contract of a function that does nothing.
ghost use Rattle.std.specs.Prelude.{◌≡◌, ◌↔◌, ◌⊎◌, ◌<◌, ◌∷◌, [], ℕ, List, Option, None, Ok, All, Any, Contains, codes};
ghost use Rattle.std.specs.Prelude.{length, map, filter};
ghost use Rattle.std.specs.List.Sorted.{IsPermutation, IsStrictlyIncreasing, IsStrictlySortedBy};
ghost use Rattle.aml_path.specs.Paths.{path_cmp};
ghost use Rattle.route_model.specs.Links.{OfferingLink, paths_of};
ghost use Rattle.route_check.specs.Claimed.{claim_of};
ghost use Rattle.route_check.specs.Claims.{RoutingClaim};
ghost use Rattle.route_report.specs.Counting.{counts};
ghost use Rattle.route_report.specs.EarlierVersions.{IsEarlier, IsWithoutOptions};
ghost use Rattle.route_report.specs.ForKernels.{with_kernel_lines};
ghost use Rattle.route_report.specs.Lines.{lines};
ghost use Rattle.route_report.specs.declared.report.BusLine.{BusLine};
ghost use Rattle.route_report.specs.declared.report.TriggerLine.{TriggerLine};
ghost use Rattle.route_report.specs.Reports.{RoutingReport, SparedDevice};
ghost use Rattle.route_report.specs.Ordered.{barred_by, claim_in_order, IsInOrder, HasSameElements};
ghost use Rattle.route_report.specs.Printing.{text_of_report};
ghost use Rattle.route_report.specs.Reading.{claim_of_text};
ghost use Rattle.route_report.specs.Readable.{IsReadable, IsSmall, spared_by, spared_devices, claim_of_report};

use aml_path::laws::text_is_read_back;

/// The text of a report is read as the report's own claim, its lists in order, where its links, offers and wired
/// interrupts are within the limits of reading: at most 256 links, each with an offer that ascends and isn't empty, at
/// most 4096 wired interrupts, the avoided interrupts in ascending order, each once, and at least one interrupt of each
/// device whose interrupts are spared.
pub fn a_printed_report_is_read_back()
    ensures { (report : RoutingReport) → IsReadable report → IsSmall report →
        claim_of_text (text_of_report report) ≡ Ok (claim_of_report report) }
{
    text_is_read_back();
}

/// Each list of a claim that was read is in order.
pub fn a_claim_that_was_read_is_in_order()
    ensures { (text : List ℕ) (claim : RoutingClaim) → claim_of_text text ≡ Ok claim → IsInOrder claim }
{}

/// A report of version 1 tells of no System Control Interrupt, and avoids no interrupt.
pub fn a_report_of_version_1_has_no_sci_and_avoids_nothing()
    ensures { (text : List ℕ) (ls : List (List ℕ)) (claim : RoutingClaim) → lines text ≡ codes "acpiroute 1" ∷ ls →
        claim_of_text text ≡ Ok claim → (claim.sci ≡ None) × (claim.avoid ≡ []) }
{}

/// A report of version 1 or 2 spares nothing: no line of it tells of options, it doesn't claim that links share
/// interrupts as little as they can, and it avoids just what its line `avoid` says.
pub fn a_report_before_version_3_spares_nothing()
    ensures { (text first : List ℕ) (ls : List (List ℕ)) (claim : RoutingClaim) → IsEarlier first →
        lines text ≡ first ∷ ls → claim_of_text text ≡ Ok claim → IsWithoutOptions ls claim }
{}

/// A report without options spares nothing: its claim avoids just what the report avoids.
pub fn a_report_without_options_spares_nothing()
    ensures { (avoid : List ℕ) → barred_by avoid (spared_by None) ≡ avoid }
{}

/// Where a report spares an interrupt of a device, its claim lets no link have it.
pub fn a_spared_interrupt_is_avoided()
    ensures { (report : RoutingReport) (device : SparedDevice) (n : ℕ) →
        Contains (spared_devices report.options) device → Contains device.interrupts n →
        Contains (claim_of_report report).avoid n }
{}

/// Where a report avoids an interrupt, its claim lets no link have it.
pub fn an_avoided_interrupt_stays_avoided()
    ensures { (report : RoutingReport) (n : ℕ) → Contains report.avoid n → Contains (claim_of_report report).avoid n }
{}

/// What a claim lets no link have is avoided or spared.
pub fn nothing_else_is_avoided()
    ensures { (report : RoutingReport) (n : ℕ) → Contains (claim_of_report report).avoid n → Contains report.avoid n ⊎
        Any (λ s. Contains s.interrupts n) (spared_devices report.options) }
{}

/// Lines for a kernel claim nothing: with them a report that can be read back still can, and claims the same.
pub fn lines_for_a_kernel_claim_nothing()
    ensures readable { (report : RoutingReport) (triggers : List TriggerLine) (buses : List BusLine) →
        IsReadable report → IsReadable (with_kernel_lines report triggers buses) }
    ensures claim { (report : RoutingReport) (triggers : List TriggerLine) (buses : List BusLine) →
        IsReadable report → claim_of_report (with_kernel_lines report triggers buses) ≡ claim_of_report report }
{}

/// Putting the lists of a claim in order neither adds an element nor drops one, and changes nothing else.
pub fn a_claim_in_order_has_the_same_elements()
    ensures { (claim : RoutingClaim) → HasSameElements claim (claim_in_order claim) }
{}

/// Claims whose lists have the same elements, in whatever order, are the same claim once they are in order.
pub fn claims_with_the_same_elements_are_one_in_order()
    ensures { (claim other : RoutingClaim) → HasSameElements claim other → claim_in_order claim ≡ claim_in_order other }
{}

/// A claim whose lists are in order stays as it is, so a report whose lists are in order claims these very lists.
pub fn a_claim_in_order_stays()
    ensures { (claim : RoutingClaim) → IsInOrder claim → claim_in_order claim ≡ claim }
{}

/// The claim that is made of an assignment and its bound is in order, where links are in path order, and wired
/// interrupts, avoided interrupts, the places of the set's links and the set's interrupts ascend.
pub fn the_claim_of_an_assignment_is_in_order()
    ensures { (links : List OfferingLink) (wired : List (ℕ × ℕ)) (sci : Option ℕ) (avoid choice : List ℕ) (k : ℕ)
        (places interrupts : List ℕ) → IsStrictlyIncreasing avoid → IsStrictlySortedBy path_cmp (paths_of links) →
        IsStrictlyIncreasing (map (λ w. w.0) wired) → IsStrictlyIncreasing places →
        All (λ l. l < length links) places → IsStrictlyIncreasing interrupts →
        IsInOrder (claim_of links wired sci avoid choice k places interrupts) }
{}

/// Two texts with the same first line, whose other lines differ in their order alone, are read as the same claim, or
/// neither is read as a claim.
pub fn the_order_of_lines_does_not_matter()
    ensures { (text other first : List ℕ) (ls ms : List (List ℕ)) (claim : RoutingClaim) → lines text ≡ first ∷ ls →
        lines other ≡ first ∷ ms → IsPermutation ls ms → claim_of_text text ≡ Ok claim ↔
        claim_of_text other ≡ Ok claim }
{}

/// Lines that are passed over say nothing, wherever they stand: two texts with the same first line and behind it the
/// same lines that count, in any order, are read as the same claim, or neither is read as a claim.
pub fn lines_that_are_passed_over_say_nothing()
    ensures { (text other first : List ℕ) (ls ms : List (List ℕ)) (claim : RoutingClaim) → lines text ≡ first ∷ ls →
        lines other ≡ first ∷ ms → IsPermutation (filter counts ls) (filter counts ms) →
        claim_of_text text ≡ Ok claim ↔ claim_of_text other ≡ Ok claim }
{}
