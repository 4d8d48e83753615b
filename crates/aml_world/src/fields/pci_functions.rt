//! The PCI function that an operation region of PCI_Config belongs to (ACPI 6.5, 5.5.2.4, 6.1.1, 6.5.5 and 6.5.6).
ghost use Rattle.std.specs.Prelude.{◌≡◌, ◌≤◌, Some, IfSome, length, take, option_map, if◌then◌else◌};
ghost use Rattle.ar_space.specs.Change.{Does};
ghost use Rattle.ar_space.specs.Outcome.{Answers};
ghost use Rattle.std.specs.FinMap.{get};
ghost use Rattle.aml_namespace.specs.Namespace.{numbered};
ghost use Rattle.aml_namespace.specs.Search.{Found};
ghost use Rattle.aml_world.specs.fields.PciFunctions.{adr, hid, segment_group, base_bus, is_device_object, is_device};
ghost use Rattle.aml_world.specs.fields.PciFunctions.{has};
ghost use Rattle.aml_world.specs.fields.PciFunctions.{is_function, is_bridge, fits, nearest_from, nearest, or_deep};
ghost use Rattle.aml_world.specs.fields.PciFunctions.{behind_asked, pci_function};

use crate::state::profile::Profile;
use crate::state::world_state::WorldState;
use aml_namespace::Names;
use aml_objects::{NamedObject, NodeId};
use aml_path::{Path, Seg};
use ar_space::{EvaluationFault, Refusal, Result};

/// What is sought among a scope and those above it.
#[derive(Clone, Copy, Debug, PartialEq, Eq)]
pub enum Sought {
    /// A device with an address (`_ADR`).
    Function,
    /// A device with an address and no hardware id (`_HID`): a bridge, or a function behind one.
    Bridge,
    /// A scope in which a name stands.
    Parent(Seg),
}

/// The name of a device's address.
#[tactic(auto, using(aml_path::proofs::Segments::same_seg))]
pub fn adr() -> Seg
    ensures { result ≡ adr }
{
    Seg::known(*b"_ADR")
}

/// The name of a device's hardware id.
#[tactic(auto, using(aml_path::proofs::Segments::same_seg))]
fn hid() -> Seg
    ensures { result ≡ hid }
{
    Seg::known(*b"_HID")
}

/// The name of a host bridge's PCI segment group.
#[tactic(auto, using(aml_path::proofs::Segments::same_seg))]
pub fn segment_group() -> Seg
    ensures { result ≡ segment_group }
{
    Seg::known(*b"_SEG")
}

/// The name of a host bridge's base bus number.
#[tactic(auto, using(aml_path::proofs::Segments::same_seg))]
pub fn base_bus() -> Seg
    ensures { result ≡ base_bus }
{
    Seg::known(*b"_BBN")
}

impl<S> WorldState<S> {
    /// The nearest of a scope and those above it that is what is sought.
    #[tactic(auto, using(crate::proofs::NearestFunctions::nearest_none, crate::proofs::NearestFunctions::nearest_some))]
    pub fn nearest(&self, sought: Sought, path: &Path) -> Result<Option<Path>>
        ensures { Does result self.now (nearest sought path.now) self.now }
    {
        match nearest_depth(self.names(), sought, path) {
            None => Ok(None),
            Some(depth) => Ok(Some(path.prefix(self.alloc, depth)?)),
        }
    }

    /// The device of the PCI function that a scope belongs to: the nearest one with an address. Where there is none,
    /// or in the core profile a bridge stands above it, this is refused as `DeepPci`.
    #[tactic(auto, using(ar_space::proofs::Changes::changing), unfolding(crate::specs::fields::PciFunctions::pci_function))]
    pub fn pci_function(&self, scope: &Path) -> Result<Path>
        ensures { Does result self.now (pci_function scope.now) self.now }
    {
        let near = self.nearest(Sought::Function, scope)?;
        let device = or_deep(near)?;
        let above = device.prefix(self.alloc, device.depth().saturating_sub(1))?;
        let bridge = self.nearest(Sought::Bridge, &above)?;
        self.ask_behind(bridge)?;
        Ok(device)
    }

    /// Asks whether what lies behind this bridge is reached: where there is none, and in the wide profile. Else it is
    /// refused as `DeepPci`.
    #[tactic(auto, unfolding(crate::specs::fields::PciFunctions::behind_asked))]
    pub fn ask_behind(&self, bridge: Option<Path>) -> Result<()>
        ensures { Does result self.now (behind_asked bridge) self.now }
    {
        match self.profile {
            Profile::Wide => Ok(()),
            Profile::Core => match bridge {
                None => Ok(()),
                Some(_) => Err(Refusal::Evaluation(EvaluationFault::DeepPci)),
            },
        }
    }
}

/// How many segments of a path lead to the nearest scope that is what is sought. It goes down the path once, as far
/// as nodes stand.
fn nearest_depth(names: &Names, sought: Sought, path: &Path) -> Option<usize>
    ensures depth { option_map (λ n. take n path.now) result ≡ nearest_from names.now.map sought
        path.now (length path.now) }
    ensures within { IfSome result (λ n. n ≤ length path.now) }
{
    let mut current = names.root();
    let mut depth = 0;
    let mut nearest = nearer(None, depth, fits(names, sought, current));
    let steps = path.segments();
    for step in steps {
        match names.child_of(current, *step) {
            None => return nearest,
            Some(next) => current = next,
        }
        depth += 1;
        nearest = nearer(nearest, depth, fits(names, sought, current));
    }
    nearest
}

/// Whether a scope that stands is what is sought.
fn fits(names: &Names, sought: Sought, scope: NodeId) -> bool
    ensures { (f : Found) → numbered scope.number names.now.map ≡ Some f → result ≡ fits names.now.map sought f.0 }
{
    match sought {
        Sought::Function => is_function(names, scope),
        Sought::Bridge => is_bridge(names, scope),
        Sought::Parent(segment) => has(names, scope, segment),
    }
}

fn is_function(names: &Names, scope: NodeId) -> bool
    ensures { (f : Found) → numbered scope.number names.now.map ≡ Some f → result ≡ is_function names.now.map f.0 }
{
    is_device(names, scope) && has(names, scope, adr())
}

/// Whether a scope is a device that nothing but its address identifies.
pub(crate) fn is_bridge(names: &Names, scope: NodeId) -> bool
    ensures { (f : Found) → numbered scope.number names.now.map ≡ Some f → result ≡ is_bridge names.now.map f.0 }
{
    is_function(names, scope) && !has(names, scope, hid())
}

/// Whether a name stands in a scope.
pub(crate) fn has(names: &Names, scope: NodeId, segment: Seg) -> bool
    ensures { (f : Found) → numbered scope.number names.now.map ≡ Some f → result ≡ has names.now.map f.0 segment }
{
    names.child_of(scope, segment).is_some()
}

#[tactic(auto, using(aml_namespace::proofs::Numbering::numbered_stands))]
fn is_device(names: &Names, scope: NodeId) -> bool
    ensures { (f : Found) → numbered scope.number names.now.map ≡ Some f → result ≡ is_device (get names.now.map f.0) }
{
    match names.node(scope) {
        None => false,
        Some(entry) => is_device_object(&entry.object),
    }
}

/// A depth at which what is sought was found, or else the one that was found before.
fn nearer(so_far: Option<usize>, depth: usize, fits: bool) -> Option<usize>
    ensures { result ≡ (if fits then Some depth else so_far) }
{
    if fits { Some(depth) } else { so_far }
}

fn is_device_object(object: &NamedObject) -> bool
    ensures { result ≡ is_device_object object.now }
{
    match object {
        NamedObject::Device => true,
        _ => false,
    }
}

fn or_deep(near: Option<Path>) -> Result<Path>
    ensures { Answers result (or_deep near) }
{
    match near {
        None => Err(Refusal::Evaluation(EvaluationFault::DeepPci)),
        Some(path) => Ok(path),
    }
}
