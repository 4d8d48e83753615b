//! What is asked of interrupt link devices and of devices with a routing table, by its name (ACPI 6.5, 6.2 and 6.3.7).
ghost use Rattle.std.specs.Prelude.{◌≡◌, [], ◌∷◌, ◌++◌, ℕ, List, Option, Some, None, Bool, true, false, Ok, Err};
ghost use Rattle.ar_space.specs.Accesses.{Accesses};
ghost use Rattle.ar_space.specs.Outcome.{Outcome};
ghost use Rattle.ar_space.specs.declared.refusal.Refusal.{Refusal};
ghost use Rattle.ar_space.specs.declared.refusal.Refusal.TheVariants.{Routing, RoutingTable, Value};
ghost use Rattle.ar_space.specs.declared.refusal.RoutingFault.TheVariants.{NoOffer};
ghost use Rattle.ar_space.specs.declared.refusal.RoutingTableFault.TheVariants.{NotPackage};
ghost use Rattle.ar_space.specs.declared.refusal.ValueFault.TheVariants.{WrongType};
ghost use Rattle.aml_path.specs.declared.segment.Seg.{Seg};
ghost use Rattle.aml_path.specs.Text.{text_of};
ghost use Rattle.aml_world.specs.declared.state.profile.Profile.TheVariants.{Core, Wide};
ghost use Rattle.aml_world.specs.state.Given.{Given, Givens, givens};
ghost use Rattle.aml_world.specs.state.Given as given;
ghost use Rattle.acpi_machine.specs.Calls.{evaluated_object};
ghost use Rattle.acpi_machine.specs.MachineStates.{MachineState};
ghost use Rattle.acpi_resources.specs.declared.exclusives.Exclusives.TheVariants.{Refused, Taken};
ghost use Rattle.acpi_resources.specs.Current.{current_of};
ghost use Rattle.acpi_resources.specs.Offers.{possible_as};
ghost use Rattle.acpi_resources.specs.Records.{InterruptOffer};
ghost use Rattle.acpi_resources.specs.Settings.{setting_of};
ghost use Rattle.acpi_prt.specs.Links.{link_at};
ghost use Rattle.acpi_prt.specs.RoutingTables.{pins_from, routing_table};
ghost use Rattle.acpi_links.specs.Presence.{is_present};
ghost use Rattle.acpi_links.specs.Resources.{possible_resources, current_resources};
ghost use Rattle.acpi_links.specs.Settings.{resources_set};
ghost use Rattle.machine_laws.specs.LinkObjects.{LinkEnds, ObjectAnswers, TellsPresence};
ghost use Rattle.machine_laws.specs.LinkObjects.{status, possible_settings, current_settings, new_settings};
ghost use Rattle.machine_laws.specs.LinkObjects.{routing_table_name};

/// A path leads to the interrupt link device that stands there, or behind an alias there: a Device whose `_HID`, itself
/// or behind an alias, is a name that holds an integer or a string, or in the wide profile a control method, and
/// answers the integer EISAID("PNP0C0F") or the string "PNP0C0F". Where it answers anything else, where there is no
/// such `_HID` and where there is no Device, the path is refused as `NotALink`; what refuses the `_HID` refuses the
/// path. What stands there is found before anything is evaluated, and nothing but the `_HID` is. Another id, and
/// another kind than a Device, are refused by this.
pub fn a_link_is_a_device_with_the_id_of_links<S>()
    ensures { (accesses : Accesses S) (p : List Seg) (m after : MachineState S) (r : Outcome (List Seg)) →
        LinkEnds accesses p m r after → link_at accesses p m ≡ (r, after) }
{}

/// Whether a link device is present, by its `_STA` (ACPI 6.5, 6.3.7): bit 0 of the integer that it answers. Without
/// `_STA` it is present. Any other value is refused as `WrongType`, and what refuses `_STA` refuses the answer. Another
/// bit, another name, and a device without a status that counts as absent, are refused by this.
pub fn a_link_is_present_by_its_status<S>()
    ensures told { (accesses : Accesses S) (link : List Seg) (m after : MachineState S) (answer : Option Given)
        (present : Bool) → ObjectAnswers accesses (link ++ status ∷ []) [] m (Ok answer) after →
        TellsPresence answer present → is_present accesses link m ≡ (Ok present, after) }
    ensures wrong { (accesses : Accesses S) (link : List Seg) (m after : MachineState S) (g : Given) →
        ObjectAnswers accesses (link ++ status ∷ []) [] m (Ok (Some g)) after →
        ((n : ℕ) → g ≡ given.Integer n → ⊥) → is_present accesses link m ≡ (Err (Value WrongType), after) }
    ensures refused { (accesses : Accesses S) (link : List Seg) (m after : MachineState S) (e : Refusal) →
        ObjectAnswers accesses (link ++ status ∷ []) [] m (Err e) after →
        is_present accesses link m ≡ (Err e, after) }
{}

/// What a link device may be set to is what the buffer of its `_PRS` offers (ACPI 6.5, 6.2.12), exclusive offers taken
/// in the wide profile alone; without `_PRS` it offers nothing, `NoOffer`. What it is set to are the numbers in the
/// buffer of its `_CRS` (6.2.2), if there is one. No other value is taken, `WrongType`. It is set by its `_SRS`
/// (6.2.16), if there is one, with the setting as the one argument. What refuses one of these refuses the call. Another
/// name is refused by this.
pub fn links_are_asked_by_their_objects<S>()
    ensures core { (accesses : Accesses S) (link : List Seg) (m after : MachineState S) (bytes : List ℕ) →
        ObjectAnswers accesses (link ++ possible_settings ∷ []) [] m (Ok (Some (given.Bytes bytes))) after →
        after.world.profile ≡ Core → possible_resources accesses link m ≡ (possible_as Refused bytes, after) }
    ensures wide { (accesses : Accesses S) (link : List Seg) (m after : MachineState S) (bytes : List ℕ) →
        ObjectAnswers accesses (link ++ possible_settings ∷ []) [] m (Ok (Some (given.Bytes bytes))) after →
        after.world.profile ≡ Wide → possible_resources accesses link m ≡ (possible_as Taken bytes, after) }
    ensures wrong_offer { (accesses : Accesses S) (link : List Seg) (m after : MachineState S) (g : Given) →
        ObjectAnswers accesses (link ++ possible_settings ∷ []) [] m (Ok (Some g)) after →
        ((bytes : List ℕ) → g ≡ given.Bytes bytes → ⊥) →
        possible_resources accesses link m ≡ (Err (Value WrongType), after) }
    ensures no_offer { (accesses : Accesses S) (link : List Seg) (m after : MachineState S) →
        ObjectAnswers accesses (link ++ possible_settings ∷ []) [] m (Ok None) after →
        possible_resources accesses link m ≡ (Err (Routing (NoOffer (text_of link))), after) }
    ensures refused_offer { (accesses : Accesses S) (link : List Seg) (m after : MachineState S) (e : Refusal) →
        ObjectAnswers accesses (link ++ possible_settings ∷ []) [] m (Err e) after →
        possible_resources accesses link m ≡ (Err e, after) }
    ensures current { (accesses : Accesses S) (link : List Seg) (m after : MachineState S) (bytes numbers : List ℕ) →
        ObjectAnswers accesses (link ++ current_settings ∷ []) [] m (Ok (Some (given.Bytes bytes))) after →
        current_of bytes ≡ Ok numbers → current_resources accesses link m ≡ (Ok (Some numbers), after) }
    ensures bad_current { (accesses : Accesses S) (link : List Seg) (m after : MachineState S) (bytes : List ℕ)
        (e : Refusal) →
        ObjectAnswers accesses (link ++ current_settings ∷ []) [] m (Ok (Some (given.Bytes bytes))) after →
        current_of bytes ≡ Err e → current_resources accesses link m ≡ (Err e, after) }
    ensures wrong_current { (accesses : Accesses S) (link : List Seg) (m after : MachineState S) (g : Given) →
        ObjectAnswers accesses (link ++ current_settings ∷ []) [] m (Ok (Some g)) after →
        ((bytes : List ℕ) → g ≡ given.Bytes bytes → ⊥) →
        current_resources accesses link m ≡ (Err (Value WrongType), after) }
    ensures no_current { (accesses : Accesses S) (link : List Seg) (m after : MachineState S) →
        ObjectAnswers accesses (link ++ current_settings ∷ []) [] m (Ok None) after →
        current_resources accesses link m ≡ (Ok None, after) }
    ensures refused_current { (accesses : Accesses S) (link : List Seg) (m after : MachineState S) (e : Refusal) →
        ObjectAnswers accesses (link ++ current_settings ∷ []) [] m (Err e) after →
        current_resources accesses link m ≡ (Err e, after) }
    ensures set { (accesses : Accesses S) (link : List Seg) (offer : InterruptOffer) (n : ℕ) (m after : MachineState S)
        (g : Given) → ObjectAnswers accesses (link ++ new_settings ∷ []) (given.Bytes (setting_of offer n) ∷ []) m
        (Ok (Some g)) after → resources_set accesses link offer n m ≡ (Ok true, after) }
    ensures not_set { (accesses : Accesses S) (link : List Seg) (offer : InterruptOffer) (n : ℕ)
        (m after : MachineState S) → ObjectAnswers accesses (link ++ new_settings ∷ [])
        (given.Bytes (setting_of offer n) ∷ []) m (Ok None) after →
        resources_set accesses link offer n m ≡ (Ok false, after) }
    ensures refused_set { (accesses : Accesses S) (link : List Seg) (offer : InterruptOffer) (n : ℕ)
        (m after : MachineState S) (e : Refusal) → ObjectAnswers accesses (link ++ new_settings ∷ [])
        (given.Bytes (setting_of offer n) ∷ []) m (Err e) after →
        resources_set accesses link offer n m ≡ (Err e, after) }
{}

/// The routing table of a device is the package that its `_PRT` answers, entry by entry (ACPI 6.5, 6.2.13). Any other
/// value is refused as `NotPackage`, and what refuses `_PRT` refuses the table. Another name is refused by this.
pub fn a_routing_table_is_what_its_device_answers<S>()
    ensures entries { (accesses : Accesses S) (device : List Seg) (m after : MachineState S) (entries : List Given) →
        evaluated_object accesses (device ++ routing_table_name ∷ []) [] m ≡
        (Ok (given.Package (givens entries)), after) →
        routing_table accesses device m ≡ pins_from accesses entries [] after }
    ensures no_package { (accesses : Accesses S) (device : List Seg) (m after : MachineState S) (g : Given) →
        evaluated_object accesses (device ++ routing_table_name ∷ []) [] m ≡ (Ok g, after) →
        ((parts : Givens) → g ≡ given.Package parts → ⊥) →
        routing_table accesses device m ≡ (Err (RoutingTable NotPackage), after) }
    ensures refused { (accesses : Accesses S) (device : List Seg) (m after : MachineState S) (e : Refusal) →
        evaluated_object accesses (device ++ routing_table_name ∷ []) [] m ≡ (Err e, after) →
        routing_table accesses device m ≡ (Err e, after) }
{}
