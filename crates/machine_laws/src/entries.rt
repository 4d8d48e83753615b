//! What an entry of a routing table says of a pin (ACPI 6.5, 6.2.13).
ghost use Rattle.std.specs.Prelude.{◌≡◌, ◌<◌, ◌≤◌, ◌^◌, ℕ, List, Some, None, Ok, Err};
ghost use Rattle.ar_space.specs.Accesses.{Accesses};
ghost use Rattle.ar_space.specs.declared.refusal.Refusal.{Refusal};
ghost use Rattle.ar_space.specs.declared.refusal.Refusal.TheVariants.{RoutingTable};
ghost use Rattle.ar_space.specs.declared.refusal.RoutingTableFault.TheVariants.{BadEntry, BadPin, SourceIndex};
ghost use Rattle.aml_path.specs.declared.segment.Seg.{Seg};
ghost use Rattle.aml_world.specs.state.Given.{Given};
ghost use Rattle.aml_world.specs.state.Given as given;
ghost use Rattle.acpi_machine.specs.MachineStates.{MachineState};
ghost use Rattle.acpi_prt.specs.declared.pin.Route.TheVariants.{Wired, Link};
ghost use Rattle.acpi_prt.specs.Links.{link_at};
ghost use Rattle.acpi_prt.specs.RoutingTables.{pin_of};
ghost use Rattle.machine_laws.specs.RoutingEntries.{entry_of, IsAddress, IsSource, IsNoEntry};

/// An entry of a routing table is an address, a pin, a source and a source index (ACPI 6.5, table 6.15): it tells of
/// the pin 0 to 3 of the device whose number is the high word of the address. With the source 0 the pin is wired to
/// the interrupt that the index is. With a name it leads to the link device that is found there, if the index is 0.
/// An entry that was left out tells of no pin. Nothing changes but what finding the link device changes. Parts that
/// are exchanged, and a device number of other bits of the address, are refused by this.
pub fn an_entry_of_a_routing_table_tells_of_a_pin<S>()
    ensures wired { (accesses : Accesses S) (address device function pin index : ℕ) (m : MachineState S) →
        IsAddress address device function → pin < 4 → index < 2 ^ 32 →
        pin_of accesses (entry_of (given.Integer address) (given.Integer pin) (given.Integer 0) (given.Integer index))
        m ≡ (Ok (Some (record { number = device; pin = pin; route = Wired index })), m) }
    ensures linked { (accesses : Accesses S) (address device function pin : ℕ) (name link : List Seg)
        (m after : MachineState S) → IsAddress address device function → pin < 4 →
        link_at accesses name m ≡ (Ok link, after) →
        pin_of accesses (entry_of (given.Integer address) (given.Integer pin) (given.Named name) (given.Integer 0))
        m ≡ (Ok (Some (record { number = device; pin = pin; route = Link link })), after) }
    ensures left_out { (accesses : Accesses S) (m : MachineState S) → pin_of accesses given.Nothing m ≡ (Ok None, m) }
{}

/// What is no entry is refused as `BadEntry`: what is no package of four and wasn't left out, an address, a pin or an
/// index that is no integer of 32 bits, and a source that is neither 0 nor a name. Then a pin above 3 is refused as
/// `BadPin`; then whatever refuses the link device refuses the entry; and last an index at a link device that isn't 0
/// is refused as `SourceIndex`. Until a link device is looked for nothing changes. A test that is left out, and one
/// in the place of another, are refused by this.
pub fn an_entry_that_tells_of_no_pin_is_refused<S>()
    ensures no_entry { (accesses : Accesses S) (g : Given) (m : MachineState S) → IsNoEntry g →
        pin_of accesses g m ≡ (Err (RoutingTable BadEntry), m) }
    ensures no_pin { (accesses : Accesses S) (address pin index : ℕ) (source : Given) (m : MachineState S) →
        address < 2 ^ 32 → 4 ≤ pin → pin < 2 ^ 32 → IsSource source → index < 2 ^ 32 →
        pin_of accesses (entry_of (given.Integer address) (given.Integer pin) source (given.Integer index))
        m ≡ (Err (RoutingTable BadPin), m) }
    ensures no_link { (accesses : Accesses S) (address pin index : ℕ) (name : List Seg) (m after : MachineState S)
        (e : Refusal) → address < 2 ^ 32 → pin < 4 → index < 2 ^ 32 → link_at accesses name m ≡ (Err e, after) →
        pin_of accesses (entry_of (given.Integer address) (given.Integer pin) (given.Named name) (given.Integer index))
        m ≡ (Err e, after) }
    ensures index { (accesses : Accesses S) (address pin index : ℕ) (name link : List Seg)
        (m after : MachineState S) → address < 2 ^ 32 → pin < 4 → 0 < index → index < 2 ^ 32 →
        link_at accesses name m ≡ (Ok link, after) →
        pin_of accesses (entry_of (given.Integer address) (given.Integer pin) (given.Named name) (given.Integer index))
        m ≡ (Err (RoutingTable SourceIndex), after) }
{}
