//! Initializing: which control methods are called, and which calls the wide profile passes over (ACPI 6.5, 5.8.1 and
//! 6.5.1).
ghost use Rattle.std.specs.Prelude.{◌≡◌, List, true, false, Ok, Err};
ghost use Rattle.std.specs.FinMap.{contains_key};
ghost use Rattle.ar_space.specs.Accesses.{Accesses};
ghost use Rattle.ar_space.specs.declared.refusal.Refusal.{Refusal};
ghost use Rattle.ar_tables.specs.declared.mode.Mode.{Mode};
ghost use Rattle.aml_path.specs.declared.segment.Seg.{Seg};
ghost use Rattle.aml_world.specs.state.Given.{Given};
ghost use Rattle.aml_world.specs.state.PassedOver.{is_passable};
ghost use Rattle.aml_world.specs.declared.state.profile.Profile.TheVariants.{Core, Wide};
ghost use Rattle.acpi_machine.specs.MachineStates.{MachineState};
ghost use Rattle.acpi_machine.specs.Calls.{object_answered, called_where_it_stands, initialized};
ghost use Rattle.ar_space.specs.declared.refusal.Refusal.TheVariants.{Machine};
ghost use Rattle.ar_space.specs.declared.refusal.MachineFault.TheVariants.{Spent};
ghost use Rattle.machine_laws.specs.Initializing.{CalledInTurn, initializing_calls};
ghost use Rattle.machine_laws.specs.PassedCalls.{with_passed_call};

/// In the wide profile a call of initializing that is refused by what may be passed over is noted with the path of what
/// was called, and what it changed stays; by any other refusal, and in the core profile, it is refused so. So in the
/// wide profile no such refusal ends initializing.
pub fn calls_of_initializing_are_passed_over<S>()
    ensures noted { (accesses : Accesses S) (p : List Seg) (arguments : List Given) (m after : MachineState S)
        (e : Refusal) → contains_key m.world.names.map p ≡ true →
        object_answered accesses p arguments m ≡ (Err e, after) → after.world.profile ≡ Wide →
        is_passable e ≡ true → called_where_it_stands accesses p arguments m ≡
        (Ok tt, with_passed_call p e after) }
    ensures refused { (accesses : Accesses S) (p : List Seg) (arguments : List Given) (m after : MachineState S)
        (e : Refusal) → contains_key m.world.names.map p ≡ true →
        object_answered accesses p arguments m ≡ (Err e, after) → is_passable e ≡ false →
        called_where_it_stands accesses p arguments m ≡ (Err e, after) }
    ensures core { (accesses : Accesses S) (p : List Seg) (arguments : List Given) (m after : MachineState S)
        (e : Refusal) → contains_key m.world.names.map p ≡ true →
        object_answered accesses p arguments m ≡ (Err e, after) → after.world.profile ≡ Core →
        called_where_it_stands accesses p arguments m ≡ (Err e, after) }
    ensures initializing { (accesses : Accesses S) (mode : Mode) (m : MachineState S) (e : Refusal) →
        m.world.profile ≡ Wide → (initialized accesses mode m).0 ≡ Err e → is_passable e ≡ false }
{}

/// Initializing calls `\_INI`, `\_SB_._INI` and `\_PIC`, in this order and nothing else, the last one with 0 where
/// the 8259 controllers are used and with 1 where I/O APICs are. One that doesn't stand isn't called, and changes
/// nothing. Each is called in the world that the one before it left. Where one is refused, initializing is refused
/// so, and nothing later is called, unless the wide profile passes the refusal over: that is noted, and the next one
/// is called. The machine's mode is the one that is told, however the calls end; a spent machine stays as it is. A
/// method that is called twice, that is left out, that gets another number or that is called though an earlier one
/// was refused is refused by this.
pub fn initializing_calls_three_methods_in_turn<S>()
    ensures calls { (accesses : Accesses S) (mode : Mode) (m : MachineState S) → m.spent ≡ false →
        CalledInTurn accesses (initializing_calls mode) (record m { mode = mode }) (initialized accesses mode m).0
        (initialized accesses mode m).1 }
    ensures spent { (accesses : Accesses S) (mode : Mode) (m : MachineState S) → m.spent ≡ true →
        initialized accesses mode m ≡ (Err (Machine Spent), m) }
{}
