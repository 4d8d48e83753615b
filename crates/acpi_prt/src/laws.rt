//! What holds of every routing table: each law is the contract of a function that does nothing.
ghost use Rattle.std.specs.Prelude.{◌≡◌, ◌↔◌, List, [], Ok, Contains};
ghost use Rattle.ar_space.specs.Accesses.{Accesses};
ghost use Rattle.aml_path.specs.declared.segment.Seg.{Seg};
ghost use Rattle.aml_world.specs.state.Given.{Given};
ghost use Rattle.acpi_machine.specs.MachineStates.{MachineState};
ghost use Rattle.acpi_prt.specs.declared.pin.Pin.{Pin};
ghost use Rattle.acpi_prt.specs.RoutingTables.{pins_from, routing_table};
ghost use Rattle.acpi_prt.specs.Said.{pins_said, IsFirst, NoneTwice};

/// The pins of a routing table are all different: no two have the same device number and pin (ACPI 6.5, 6.2.13).
pub fn no_pin_stands_twice<S>()
    ensures { (accesses : Accesses S) (device : List Seg) (pins : List Pin) (before after : MachineState S) →
        routing_table accesses device before ≡ (Ok pins, after) → NoneTwice pins }
{}

/// Where the entries of a routing table are read, a pin is in the answer exactly if it is the first that an entry
/// says for its device number and pin. So each device number and pin that an entry says is in the answer, with the
/// route that its first entry says, and nothing else is.
pub fn the_first_entry_of_a_pin_counts<S>()
    ensures { (accesses : Accesses S) (entries : List Given) (pins : List Pin) (before after : MachineState S) →
        pins_from accesses entries [] before ≡ (Ok pins, after)
        → (said : List Pin) × (pins_said accesses entries before ≡ (Ok said, after)) ×
        ((pin : Pin) → Contains pins pin ↔ IsFirst said pin) }
{}
