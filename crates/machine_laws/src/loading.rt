//! How the tables of a machine are loaded, how wide its integers are, and which texts `_OSI` knows.
ghost use Rattle.std.specs.Prelude.{◌≡◌, ◌≤◌, ◌<◌, ℕ, ◌∷◌, List, length, slice_index, true, false, Ok, Err};
ghost use Rattle.std.specs.FinMap.{FinMap};
ghost use Rattle.std.specs.Ordering.{nat_cmp};
ghost use Rattle.ar_space.specs.Accesses.{Accesses};
ghost use Rattle.ar_space.specs.declared.refusal.Refusal.TheVariants as refusal;
ghost use Rattle.ar_space.specs.declared.integer_width.IntegerWidth.{IntegerWidth};
ghost use Rattle.ar_space.specs.declared.refusal.EvaluationFault.TheVariants.{ObjectLimit};
ghost use Rattle.ar_space.specs.declared.refusal.MachineFault.TheVariants.{Spent};
ghost use Rattle.ar_space.specs.declared.integer_width.IntegerWidth.TheVariants.{Bits32, Bits64};
ghost use Rattle.ar_space.specs.Outcome.{Outcome};
ghost use Rattle.ar_tables.specs.FindTables.{tables_of};
ghost use Rattle.ar_tables.specs.declared.tables.Tables.{Tables};
ghost use Rattle.aml_world.specs.state.State.{State};
ghost use Rattle.aml_world.specs.state.Predefined.{fresh_as, predefined};
ghost use Rattle.aml_world.specs.declared.state.settings.EvaluationSettings.{EvaluationSettings};
ghost use Rattle.acpi_machine.specs.Calls.{osi_set};
ghost use Rattle.acpi_machine.specs.Loading.{all_loaded, loaded_tables};
ghost use Rattle.acpi_machine.specs.MachineStates.{MachineState};
ghost use Rattle.machine_laws.specs.LoadedInTurn.{LoadedInTurn};
ghost use Rattle.machine_laws.specs.TextsKnown.{with_texts};

/// The tables of a machine are loaded one after another, the DSDT first and then each SSDT in the order of the list,
/// each behind its header of 36 bytes and in the world that the one before it left, where the predefined names stand.
/// The first that is refused ends it. `_OSI` may know sixty-four texts: with more of them no table is loaded, and
/// nothing is changed. A DSDT that is loaded last, an SSDT that is left out, and a header that is read as AML are
/// refused by this.
#[tactic(auto, using(crate::proofs::TablesInTurn::loading))]
pub fn tables_are_loaded_in_turn<S>()
    ensures in_turn { (accesses : Accesses S) (t : Tables) (steps : ℕ) (w end : State S) (r : Outcome (Unit {0})) →
        LoadedInTurn accesses steps (t.dsdt ∷ t.ssdts) w r end → all_loaded accesses t steps w ≡ (r, end) }
    ensures first { (accesses : Accesses S) (t : Tables) (steps : ℕ) (osi : List (List ℕ)) (w before : State S) →
        length osi ≤ 64 → predefined w ≡ (Ok tt, before) →
        loaded_tables accesses t steps osi w ≡ all_loaded accesses t steps before }
    ensures too_many_texts { (accesses : Accesses S) (t : Tables) (steps : ℕ) (osi : List (List ℕ)) (w : State S) →
        64 < length osi → loaded_tables accesses t steps osi w ≡ (Err (refusal.Evaluation ObjectLimit), w) }
{}

/// The texts that `_OSI` knows are those that a machine is given: in the world of its tables those with which it is
/// loaded, and behind `set_osi` those of this call, at most sixty-four, and nothing else changes. More of them are
/// refused as `ObjectLimit`, and a machine on which memory ran out takes none; nothing changes then. That evaluations
/// keep them `evaluation_keeps_the_texts_that_osi_knows` of `aml_laws` says. Texts that are forgotten, and a machine
/// that takes any number of them, are refused by this.
pub fn osi_knows_the_texts_that_a_machine_is_given<S>()
    ensures loaded { (accesses : Accesses S) (settings : EvaluationSettings) (width : IntegerWidth)
        (osi : List (List ℕ)) (space : S) (t : Tables) (steps : ℕ) →
        (loaded_tables accesses t steps osi (fresh_as settings width osi space)).1.osi ≡ osi }
    ensures set { (texts : List (List ℕ)) (m : MachineState S) → m.spent ≡ false → length texts ≤ 64 →
        osi_set texts m ≡ (Ok tt, with_texts texts m) }
    ensures too_many { (texts : List (List ℕ)) (m : MachineState S) → m.spent ≡ false → 64 < length texts →
        osi_set texts m ≡ (Err (refusal.Evaluation ObjectLimit), m) }
    ensures spent { (texts : List (List ℕ)) (m : MachineState S) → m.spent ≡ true →
        osi_set texts m ≡ (Err (refusal.Machine Spent), m) }
{}

/// Integers have 32 bits where the revision of the DSDT, its byte 8, is 0 or 1, and 64 bits where it is 2 or more (ACPI
/// 6.5, 5.2.11.1). A DSDT of revision 1 that makes integers of 64 bits is refused by this.
#[tactic(auto, using(crate::proofs::WidthsFound::the_dsdt_says_how_wide_integers_are))]
pub fn the_dsdt_says_how_wide_integers_are()
    ensures narrow { (image : FinMap nat_cmp ℕ) (rsdp : ℕ) (tables : Tables) → tables_of image rsdp ≡ Ok tables →
        slice_index tables.dsdt 8 < 2 → tables.width ≡ Bits32 }
    ensures wide { (image : FinMap nat_cmp ℕ) (rsdp : ℕ) (tables : Tables) → tables_of image rsdp ≡ Ok tables →
        2 ≤ slice_index tables.dsdt 8 → tables.width ≡ Bits64 }
{}
