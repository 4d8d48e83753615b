//! What holds of the links of every machine: each law is the contract of a function that does nothing.
ghost use Rattle.std.specs.Prelude.{◌≡◌, ◌==◌, ◌+◌, ◌↔◌, ◌≤◌, ℕ, List, Bool, Option, Any, Contains, Ok, length, map};
ghost use Rattle.std.specs.Prelude.{count_by, option_to_list};
ghost use Rattle.std.specs.List.{items_where_true};
ghost use Rattle.std.specs.Option.{is_some};
ghost use Rattle.std.specs.List.Sorted.{IsStrictlyIncreasing, IsStrictlySortedBy};
ghost use Rattle.acpi_resources.specs.Numbers.{set_of};
ghost use Rattle.ar_space.specs.Accesses.{Accesses};
ghost use Rattle.aml_path.specs.declared.segment.Seg.{Seg};
ghost use Rattle.aml_path.specs.Paths.{path_cmp};
ghost use Rattle.acpi_machine.specs.MachineStates.{MachineState};
ghost use Rattle.acpi_prt.specs.declared.pin.Pin.{Pin};
ghost use Rattle.acpi_prt.specs.declared.pin.Route.TheVariants.{Link};
ghost use Rattle.route_model.specs.Routing.{wired_to};
ghost use Rattle.acpi_links.specs.Gatherings.{links_found};
ghost use Rattle.acpi_links.specs.Links.{PresentLink, link_asked, links_named};
ghost use Rattle.acpi_links.specs.Presence.{is_present};
ghost use Rattle.acpi_links.specs.Problems.{pin_counts, offering, problem_of};
ghost use Rattle.acpi_links.specs.Wiring.{is_wired_to};

/// A path is among the links named exactly if the route of a pin leads to it (ACPI 6.5, 6.2.13).
pub fn the_links_named_are_those_that_pins_lead_to()
    ensures { (pins : List (List Seg × Pin)) (link : List Seg) → Contains (links_named pins) link ↔
        Any (λ pin. pin.1.route ≡ Link link) pins }
{}

/// The links named are in path order, so none is named twice.
pub fn the_links_named_are_in_order()
    ensures { (pins : List (List Seg × Pin)) → IsStrictlySortedBy path_cmp (links_named pins) }
{}

/// The links found are some of the links named, in their order: each link named is found once or left out. A link
/// that is asked is found exactly if it is present.
pub fn the_links_found_are_links_named<S>()
    ensures named { (accesses : Accesses S) (avoid : List ℕ) (pins : List (List Seg × Pin)) (links : List PresentLink)
        (before after : MachineState S) → links_found accesses avoid pins before ≡ (Ok links, after)
        → (found : List Bool) × (map (λ link. link.0) links ≡ items_where_true found (links_named pins)) }
    ensures present { (accesses : Accesses S) (avoid : List ℕ) (link : List Seg) (found : Option PresentLink)
        (before after : MachineState S) → link_asked accesses avoid link before ≡ (Ok found, after)
        → (asked : MachineState S) × (is_present accesses link before ≡ (Ok (is_some found), asked)) }
{}

/// As many pins are counted for an interrupt as have a route to it. As many sources are wired to it as pins are
/// counted, and one more where it is the source of the System Control Interrupt. Which interrupts are avoided changes
/// nothing of this.
pub fn as_many_sources_are_wired_as_pins()
    ensures pins { (pins : List (List Seg × Pin)) (interrupt : ℕ) →
        wired_to (pin_counts pins) interrupt ≡ count_by (λ pin. is_wired_to interrupt pin.1.route) pins }
    ensures sources { (avoid : List ℕ) (sci : Option ℕ) (links : List PresentLink) (pins : List (List Seg × Pin))
        (interrupt : ℕ) → wired_to (problem_of avoid sci links pins).wired interrupt ≡
        count_by (λ pin. is_wired_to interrupt pin.1.route) pins + count_by (λ n. n == interrupt) (option_to_list sci) }
{}

/// Pins are counted by interrupt in ascending order, each interrupt once. There are no more counts than pins.
pub fn pins_are_counted_in_order()
    ensures ascend { (pins : List (List Seg × Pin)) → IsStrictlyIncreasing (map (λ w. w.0) (pin_counts pins)) }
    ensures few { (pins : List (List Seg × Pin)) → length (pin_counts pins) ≤ length pins }
{}

/// The numbers of a set ascend, each once.
pub fn the_numbers_of_a_set_ascend()
    ensures { (numbers : List ℕ) → IsStrictlyIncreasing (set_of numbers) }
{}

/// A link of the problem offers an interrupt exactly if the link device offers it and it isn't avoided.
pub fn the_avoided_interrupts_are_not_offered()
    ensures { (avoid : List ℕ) (link : PresentLink) (interrupt : ℕ) →
        Contains (offering avoid link).offers interrupt ↔ (Contains link.1.numbers interrupt ×
        (Contains avoid interrupt → ⊥)) }
{}
