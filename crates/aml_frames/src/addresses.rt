//! The address of a field of a region (ACPI 6.5, 5.5.2.4): that of a region of PCI_Config is asked for, part by part.

use crate::banked::Selector;
use crate::boxed::Boxed;
use crate::uses::Doing;
use aml_objects::{Body, Field};
use aml_path::Path;
use aml_world::RegionField;
use std::collections::VecDeque;

/// An access of a field of a region that was looked up.
#[derive(Drop)]
pub struct RegionAccess {
    /// How many calls may be made one inside another.
    pub calls: usize,
    pub field: RegionField,
    /// What selects its bank, where it is a field of one.
    pub bank: Option<Boxed<Selector>>,
    /// Where the region begins in its address space.
    pub offset: u64,
    /// How many bytes it has.
    pub length: u64,
    pub doing: Doing,
}

/// An access of a field of a region of PCI_Config, while a part of its address is asked for.
#[derive(Drop)]
pub struct PciAccess {
    pub access: RegionAccess,
    /// The device in whose registers the region lies.
    pub device: Path,
    /// The bridges above it whose buses are still to be asked for, from the outermost on.
    pub bridges: VecDeque<Path>,
    /// What is asked for.
    pub part: AddressPart,
}

/// A part of the address of a PCI function, with those before it.
#[derive(Clone, Copy, Debug)]
pub enum AddressPart {
    /// The segment group.
    Segment,
    /// The bus: the segment group is known.
    Bus(u64),
    /// The device and the function of a bridge: the segment group and the bus that the bridge is on are known.
    Bridge(u64, u64),
    /// The device and the function: the segment group and the bus are known.
    Function(u64, u64),
}

/// What a part of an address comes to that is asked for.
#[derive(Drop)]
pub enum Asked {
    /// It is known.
    Known(u64),
    /// It is waited for.
    Waits(Waited),
}

/// What gives a part of an address that is waited for.
#[derive(Drop)]
pub enum Waited {
    /// The control method at this path, with this body, where so many control methods are being called.
    Method(usize, Path, Body),
    /// The bits of a field, with so many calls left for its own address.
    Field(usize, Field),
}

/// The parts of the address of a PCI function: its segment group, its bus, and what its `_ADR` answers.
#[derive(Clone, Copy, Debug)]
pub struct FunctionAddress {
    pub segment: u64,
    pub bus: u64,
    pub address: u64,
}
