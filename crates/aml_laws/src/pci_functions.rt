//! The PCI functions that operation regions of PCI_Config belong to.
ghost use Rattle.std.specs.Prelude.{◌≡◌, ◌≢◌, ◌≤◌, ◌<◌, ◌+◌, ◌*◌, ◌-◌, ◌%◌, ◌++◌, ◌∷◌};
ghost use Rattle.std.specs.Prelude.{[], ℕ, List, length, take, codes, Some, None, Ok, Err};
ghost use Rattle.ar_space.specs.declared.refusal.Refusal.TheVariants.{Evaluation, Value};
ghost use Rattle.ar_space.specs.declared.refusal.Refusal.{Refusal};
ghost use Rattle.ar_space.specs.declared.refusal.EvaluationFault.TheVariants.{ArityChanged, CallDepth, DepthSetting};
ghost use Rattle.ar_space.specs.declared.refusal.EvaluationFault.TheVariants.{DeepPci, SpaceKind};
ghost use Rattle.ar_space.specs.declared.refusal.ValueFault.TheVariants.{WrongType};
ghost use Rattle.ar_space.specs.Accesses.{Accesses};
ghost use Rattle.ar_space.specs.Outcome.{Outcome};
ghost use Rattle.aml_fields.specs.declared.region.AddressSpace.{AddressSpace};
ghost use Rattle.aml_fields.specs.declared.region.AddressSpace.TheVariants.{Pci};
ghost use Rattle.aml_path.specs.declared.segment.Seg.{Seg};
ghost use Rattle.aml_world.specs.declared.fields.pci_functions.Sought.TheVariants.{Parent};
ghost use Rattle.aml_world.specs.declared.state.profile.Profile.TheVariants.{Core, Wide};
ghost use Rattle.aml_world.specs.state.State.{State};
ghost use Rattle.aml_world.specs.fields.PciFunctions.{adr, hid, segment_group, base_bus, nearest, pci_function};
ghost use Rattle.aml_world.specs.state.Run.{Run};
ghost use Rattle.aml_objects.specs.declared.entry.Entry.{Entry};
ghost use Rattle.aml_objects.specs.declared.entry.Method.{Method};
ghost use Rattle.aml_objects.specs.declared.entry.NamedObject.{NamedObject};
ghost use Rattle.aml_objects.specs.declared.entry.NamedObject.TheVariants.{Data};
ghost use Rattle.aml_objects.specs.declared.entry.NamedObject.TheVariants as named;
ghost use Rattle.aml_objects.specs.declared.entry.OperationRegion.{OperationRegion};
ghost use Rattle.aml_objects.specs.declared.value.Value.TheVariants.{Integer};
ghost use Rattle.std.specs.FinMap.{get};
ghost use Rattle.aml_world.specs.fields.Fields.{bus_behind_all, pci_address, located};
ghost use Rattle.aml_namespace.specs.Namespace.{Map};
ghost use Rattle.aml_world.specs.fields.Bridges.{bridges_to, secondary_bus};
ghost use Rattle.aml_meaning.specs.FieldCalls.{called_at};
ghost use Rattle.aml_meaning.specs.Meaning.{meaning};
ghost use Rattle.aml_laws.specs.PciScopes.{StandsIn, IsFunctionAt, IsBridgeAt, IsNearestSuch, NoneSuch};
ghost use Rattle.aml_laws.specs.BusesFound.{BusesFound, TellsNumber, TellAddresses, TellsPart};
ghost use Rattle.aml_laws.specs.PciScopes.{IsAskedBridge, IsAmong, GrowFrom};
ghost use Rattle.aml_laws.specs.PciRegions.{RegionStandsIn, located_at};
ghost use Rattle.aml_laws.specs.PciAddresses.{BridgeTells, AddressAnswers, PartAnswers, BridgesLead, AddressFound};
ghost use Rattle.aml_laws.specs.AddressObjects.{HoldsNoValueAt, IsAskedAt, TakesNoArguments, ObjectAnswers};

/// The objects that tell which function a scope belongs to and what its address is have these four names: `_ADR`, the
/// address of a device, `_HID`, its hardware id, `_SEG`, the segment group, and `_BBN`, the base bus number (ACPI 6.5,
/// 6.1.1, 6.1.5, 6.5.6 and 6.5.5). The other laws of PCI functions, and those of the bus of a routing table, speak of
/// the objects of these names. The law excludes any other name.
pub fn the_objects_of_a_pci_address_have_four_names()
    ensures address { adr.bytes ≡ codes "_ADR" }
    ensures hardware_id { hid.bytes ≡ codes "_HID" }
    ensures segment_group { segment_group.bytes ≡ codes "_SEG" }
    ensures base_bus { base_bus.bytes ≡ codes "_BBN" }
{}

/// A scope belongs to the nearest Device with an `_ADR`, of itself and the scopes above it: that is the PCI function of
/// a region of PCI_Config there. A scope without such a Device is refused as `DeepPci`. In the core profile a scope is
/// refused so, too, where a Device above that one has an `_ADR` and no `_HID`; in the wide profile it isn't. Asking
/// changes nothing. For which scope a region asks, `a_region_of_pci_config_is_located_by_its_own_scope` says. The law
/// excludes a search from the root down, one that takes a name that is no Device, and one that begins above the scope.
#[tactic(auto, using(crate::proofs::PciScopes::a_region_of_pci_config_belongs_to_the_nearest_device))]
pub fn a_region_of_pci_config_belongs_to_the_nearest_device<S>()
    ensures nearest { (w : State S) (scope : List Seg) (k : ℕ) →
        IsNearestSuch (IsFunctionAt w.names.map) scope k → NoneSuch (IsBridgeAt w.names.map) scope (k - 1) →
        pci_function scope w ≡ (Ok (take k scope), w) }
    ensures wide { (w : State S) (scope : List Seg) (k : ℕ) → IsNearestSuch (IsFunctionAt w.names.map) scope k →
        w.profile ≡ Wide → pci_function scope w ≡ (Ok (take k scope), w) }
    ensures behind { (w : State S) (scope : List Seg) (k : ℕ) → IsNearestSuch (IsFunctionAt w.names.map) scope k →
        (j : ℕ) → w.profile ≡ Core → j ≤ k - 1 → IsBridgeAt w.names.map (take j scope) →
        pci_function scope w ≡ (Err (Evaluation DeepPci), w) }
    ensures none { (w : State S) (scope : List Seg) → NoneSuch (IsFunctionAt w.names.map) scope (length scope) →
        pci_function scope w ≡ (Err (Evaluation DeepPci), w) }
{}

/// `_SEG` and `_BBN` are those of the nearest scope that has one, of a function's own scope and those above it.
#[tactic(auto, using(crate::proofs::PciScopes::nearest_parent, crate::proofs::PciScopes::no_parent))]
pub fn segment_groups_and_buses_are_the_nearest<S>()
    ensures nearest { (w : State S) (name : Seg) (scope : List Seg) (k : ℕ) →
        IsNearestSuch (StandsIn w.names.map name) scope k →
        nearest (Parent name) scope w ≡ (Ok (Some (take k scope)), w) }
    ensures none { (w : State S) (name : Seg) (scope : List Seg) →
        NoneSuch (StandsIn w.names.map name) scope (length scope) → nearest (Parent name) scope w ≡ (Ok None, w) }
{}

/// Where the address of a function is asked for and one more call is allowed, a name that holds an integer tells it,
/// without a step and without an access, and nothing changes. So what the next laws assume of `_SEG`, `_BBN` and `_ADR`
/// holds of such names. The law excludes an object that is asked for at another path, and one that costs a step.
pub fn a_name_that_holds_an_integer_tells_it<S>()
    ensures { (accesses : Accesses S) (path : List Seg) (entry : Entry) (n : ℕ) →
        entry.object ≡ Data (Integer n) → (depth : ℕ) → depth < 32 → (w : State S) → depth < w.nesting.calls →
        (steps : ℕ) → get w.names.map path ≡ Some entry → TellsNumber (called_at accesses (meaning accesses) depth) w steps path n }
{}

/// The bridges that are asked for the bus behind them, in the wide profile, are those above the function, each once and
/// from the outermost on: the Devices with an `_ADR` and without a `_HID` from which on down to the function no scope
/// has a `_BBN`. The law excludes a list that has another device, that leaves one out, or that begins with the
/// innermost.
#[tactic(auto, using(crate::proofs::AskedBridges::bridges_above_a_function_are_asked_from_the_outermost_on))]
pub fn bridges_above_a_function_are_asked_from_the_outermost_on()
    ensures each { (names : Map) (function bridge : List Seg) → IsAmong bridge (bridges_to names function) →
        IsAskedBridge names function bridge }
    ensures all { (names : Map) (function bridge : List Seg) → IsAskedBridge names function bridge →
        IsAmong bridge (bridges_to names function) }
    ensures order { (names : Map) (function : List Seg) → GrowFrom 0 (bridges_to names function) }
{}

/// The bus behind bridges is found by two reads of each, of its header type and of its secondary bus. The first bridge
/// is read on the bus that is given, each further one on the bus that the one before it told, at the device and the
/// function that its own `_ADR` answers. There are no other accesses. The law excludes a bridge that is asked on
/// another's bus, twice, or by the address of the function below it.
#[tactic(auto, using(crate::proofs::BusesFound::buses_found))]
pub fn each_bridge_is_asked_on_the_bus_that_the_one_above_told<S>()
    ensures { (accesses : Accesses S) (seg : ℕ) → seg < 65536 → (call : List Seg → Run S ℕ) (w : State S)
        (steps bus end : ℕ) (bridges : List (List Seg)) (addresses : List (ℕ × ℕ)) (after : S) →
        TellAddresses call w steps bridges addresses → BusesFound accesses seg bus addresses w.space end after →
        bus_behind_all accesses call seg bus bridges (w, steps) ≡ (Ok end, (record w { space = after }, steps)) }
{}

/// The PCI address of a scope is that of the function that it belongs to: in the segment group that the nearest `_SEG`
/// tells, on the bus that the nearest `_BBN` tells or that the bridges lead to from there, at the device and the
/// function of its `_ADR`. Nothing else is accessed. That a region of PCI_Config has the address of its own scope,
/// `a_region_of_pci_config_is_located_by_its_own_scope` says. The law excludes parts that are exchanged, a bus that is
/// counted from 0 in spite of `_BBN`, and another device's `_ADR`.
#[tactic(auto, using(crate::proofs::BusesFound::address_told))]
pub fn a_pci_address_is_told_by_its_objects<S>()
    ensures { (accesses : Accesses S) (seg : ℕ) → seg < 65536 → (call : List Seg → Run S ℕ) (w : State S)
        (steps bus end dev func : ℕ) (scope path : List Seg) (addresses : List (ℕ × ℕ)) (after : S) →
        pci_function scope w ≡ (Ok path, w) → TellsPart call w steps segment_group path seg →
        TellsPart call w steps base_bus path bus →
        TellAddresses call w steps (bridges_to w.names.map path) addresses →
        BusesFound accesses seg bus addresses w.space end after → end < 256 → dev < 32 → func < 8 →
        TellsNumber call w steps (path ++ adr ∷ []) (dev * 65536 + func) →
        pci_address accesses call scope (w, steps) ≡ (Ok (Pci seg end dev func), (record w { space = after }, steps)) }
{}

/// An operation region of PCI_Config lies in the registers at the PCI address of the very scope that it stands in, at
/// its offset and as long as it was declared. Where that address is refused, so is the region, and asking leaves what
/// the address left. A region of another address space than SystemMemory, SystemIO and PCI_Config is refused as
/// `SpaceKind`, and nothing changes (ACPI 6.5, 5.5.2.4 and 19.6: OperationRegion). The law excludes a region that is
/// located by the scope above its own, PCI_Config under another number than 2, and another refusal of other spaces.
pub fn a_region_of_pci_config_is_located_by_its_own_scope<S>()
    ensures there { (accesses : Accesses S) (call : List Seg → Run S ℕ) (w : State S) (steps n : ℕ) (scope : List Seg)
        (region : OperationRegion) → RegionStandsIn w n scope region → region.space ≡ 2 → (space : AddressSpace)
        (after : State S × ℕ) → pci_address accesses call scope (w, steps) ≡ (Ok space, after) →
        located accesses call n (w, steps) ≡ (Ok (located_at space region), after) }
    ensures refused { (accesses : Accesses S) (call : List Seg → Run S ℕ) (w : State S) (steps n : ℕ)
        (scope : List Seg) (region : OperationRegion) → RegionStandsIn w n scope region → region.space ≡ 2 →
        (e : Refusal) (after : State S × ℕ) → pci_address accesses call scope (w, steps) ≡ (Err e, after) →
        located accesses call n (w, steps) ≡ (Err e, after) }
    ensures other { (accesses : Accesses S) (call : List Seg → Run S ℕ) (w : State S) (steps n : ℕ)
        (scope : List Seg) (region : OperationRegion) → RegionStandsIn w n scope region → 2 < region.space →
        located accesses call n (w, steps) ≡ (Err (Evaluation SpaceKind), (w, steps)) }
{}

/// A device is asked for the bus behind it by a read of its header type and, where the low seven bits of that are 1 or
/// 2, of its secondary bus, which is the answer (PCI-to-PCI Bridge Architecture 1.2, 3.2). A device of any other type
/// is refused as `DeepPci`, and its secondary bus isn't read. A fault that a read answers refuses it, and nothing more
/// is read. Where the segment group, the bus, or the device or the function of the `_ADR` is too great for one, it is
/// refused as `RegionLimit`, and nothing is read (ACPI 6.5, 6.1.1). The law excludes a function of another type that is
/// taken for a bridge, and all functions of a device that are taken for one.
pub fn what_is_no_bridge_tells_no_bus<S>()
    ensures { (accesses : Accesses S) (seg bus dev func : ℕ) → func < 65536 → (s : S) (r : Outcome ℕ) (after : S) →
        BridgeTells accesses seg bus dev func s r after →
        secondary_bus accesses seg bus (dev * 65536 + func) s ≡ (r, after) }
{}

/// The objects of a PCI address are asked one after another, each in the world that the one before it left: `_SEG`,
/// then `_BBN`, then the bridges above the function, from the outermost on, each by its `_ADR` and its registers, and
/// at last the `_ADR` of the function (ACPI 6.5, 5.5.2.4, 6.1.1, 6.5.5 and 6.5.6). The first one that is refused
/// refuses the address, and no later one is asked. A segment group, a bus, a device or a function that is too great for
/// one refuses the address as `RegionLimit`. Where the scope belongs to no function, the address is refused for that,
/// and nothing is asked. There is no other way to an address: one that is told is that of the nearest Device with an
/// `_ADR`, whose objects answered so. The law excludes objects in another order, a refused `_BBN` that counts as 0, and
/// all functions of a device that are taken for one.
pub fn the_objects_of_a_pci_address_are_asked_in_turn<S>()
    ensures in_turn { (accesses : Accesses S) (call : List Seg → Run S ℕ) (w : State S) (steps : ℕ)
        (scope path : List Seg) (r : Outcome AddressSpace) (after : State S × ℕ) →
        pci_function scope w ≡ (Ok path, w) → AddressAnswers accesses call path (w, steps) r after →
        pci_address accesses call scope (w, steps) ≡ (r, after) }
    ensures no_function { (accesses : Accesses S) (call : List Seg → Run S ℕ) (w : State S) (steps : ℕ)
        (scope : List Seg) (e : Refusal) → pci_function scope w ≡ (Err e, w) →
        pci_address accesses call scope (w, steps) ≡ (Err e, (w, steps)) }
    ensures told { (accesses : Accesses S) (call : List Seg → Run S ℕ) (scope : List Seg) (s : State S × ℕ)
        (space : AddressSpace) (after : State S × ℕ) → pci_address accesses call scope s ≡ (Ok space, after) →
        AddressFound accesses call scope s space after }
{}

/// What is asked for an address answers an integer (ACPI 6.5, 6.1.1, 6.5.5 and 6.5.6): a name the one that it holds; a
/// field the one that its bits make, where they are no more than an integer has; and a control method the one that it
/// returns. A control method is called without arguments, one call deeper than the term that accesses the field; the
/// objects of the address of a field that is asked stand one call deeper still. An alias answers as what it leads to.
/// Another value is refused as `WrongType`, even one that converts to an integer, and so is a field of more bits; a
/// name without a value, and a control method that returns none, are refused as `NoValue`. What refuses the control
/// method or the field refuses the object. Inside 32 calls nothing answers (`CallDepth`), nor inside as many as the
/// world allows (`DepthSetting`). A control method that takes arguments isn't called (`ArityChanged`). Of a name that
/// stands for anything else, for example a Device, this says only that nothing answers inside so many calls; what else
/// holds of it, `what_holds_no_value_tells_no_address` says. The law excludes a control method that answers 0, a String
/// that is converted, and 32 calls anew inside a call.
pub fn what_is_asked_for_an_address_answers_an_integer<S>()
    ensures answers { (accesses : Accesses S) (depth : ℕ) → depth < 32 → (w : State S) → depth < w.nesting.calls →
        (steps : ℕ) (path at : List Seg) (o : NamedObject) → IsAskedAt w path at o → (r : Outcome ℕ)
        (after : State S × ℕ) → ObjectAnswers accesses depth (w, steps) at o r after →
        called_at accesses (meaning accesses) depth path (w, steps) ≡ (r, after) }
    ensures deep { (accesses : Accesses S) (w : State S) (steps : ℕ) (path at : List Seg) (o : NamedObject) →
        IsAskedAt w path at o → TakesNoArguments o → (depth : ℕ) → 32 ≤ depth →
        called_at accesses (meaning accesses) depth path (w, steps) ≡ (Err (Evaluation CallDepth), (w, steps)) }
    ensures setting { (accesses : Accesses S) (w : State S) (steps : ℕ) (path at : List Seg) (o : NamedObject) →
        IsAskedAt w path at o → TakesNoArguments o → (depth : ℕ) → depth < 32 → w.nesting.calls ≤ depth →
        called_at accesses (meaning accesses) depth path (w, steps) ≡ (Err (Evaluation DepthSetting), (w, steps)) }
    ensures arguments { (accesses : Accesses S) (w : State S) (steps : ℕ) (path at : List Seg) (o : NamedObject) →
        IsAskedAt w path at o → (m : Method) → o ≡ named.Method m → m.flags.byte % 8 ≢ 0 → (depth : ℕ) →
        called_at accesses (meaning accesses) depth path (w, steps) ≡ (Err (Evaluation ArityChanged), (w, steps)) }
{}

/// An object that holds neither a value nor a field and is no control method, such as a Device, a mutex, an event or a
/// thermal zone, is refused as `WrongType` where an address asks it and one more call is allowed; nothing changes (ACPI
/// 6.5, 6.1.1, 6.5.5 and 6.5.6). So is what an alias leads to. The address is refused so where this object is the
/// nearest `_SEG`, or the nearest `_BBN`, or the `_ADR` of the function, once those that are asked before it have
/// answered. The law excludes a Device that tells 0.
pub fn what_holds_no_value_tells_no_address<S>()
    ensures object { (accesses : Accesses S) (depth : ℕ) → depth < 32 → (w : State S) → depth < w.nesting.calls →
        (steps : ℕ) (path : List Seg) → HoldsNoValueAt w path →
        called_at accesses (meaning accesses) depth path (w, steps) ≡ (Err (Value WrongType), (w, steps)) }
    ensures segment_group { (accesses : Accesses S) (depth : ℕ) → depth < 32 → (w : State S) (steps : ℕ)
        (scope path : List Seg) → pci_function scope w ≡ (Ok path, w) → depth < w.nesting.calls → (k : ℕ) →
        IsNearestSuch (StandsIn w.names.map segment_group) path k →
        HoldsNoValueAt w (take k path ++ segment_group ∷ []) →
        pci_address accesses (called_at accesses (meaning accesses) depth) scope (w, steps) ≡
        (Err (Value WrongType), (w, steps)) }
    ensures base_bus { (accesses : Accesses S) (depth : ℕ) → depth < 32 → (w : State S) (steps : ℕ)
        (scope path : List Seg) → pci_function scope w ≡ (Ok path, w) → (seg : ℕ) (t : State S) (rest : ℕ) →
        PartAnswers (called_at accesses (meaning accesses) depth) segment_group path (w, steps) (Ok seg) (t, rest) →
        depth < t.nesting.calls → (k : ℕ) → IsNearestSuch (StandsIn t.names.map base_bus) path k →
        HoldsNoValueAt t (take k path ++ base_bus ∷ []) →
        pci_address accesses (called_at accesses (meaning accesses) depth) scope (w, steps) ≡
        (Err (Value WrongType), (t, rest)) }
    ensures function { (accesses : Accesses S) (depth : ℕ) → depth < 32 → (w : State S) (steps : ℕ)
        (scope path : List Seg) → pci_function scope w ≡ (Ok path, w) → (seg bus end : ℕ) (t u : State S × ℕ)
        (v : State S) (rest : ℕ) →
        PartAnswers (called_at accesses (meaning accesses) depth) segment_group path (w, steps) (Ok seg) t →
        PartAnswers (called_at accesses (meaning accesses) depth) base_bus path t (Ok bus) u →
        BridgesLead accesses (called_at accesses (meaning accesses) depth) seg bus (bridges_to w.names.map path) u
        (Ok end) (v, rest) → depth < v.nesting.calls → HoldsNoValueAt v (path ++ adr ∷ []) →
        pci_address accesses (called_at accesses (meaning accesses) depth) scope (w, steps) ≡
        (Err (Value WrongType), (v, rest)) }
{}
