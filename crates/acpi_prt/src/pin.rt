//! Pins and where they lead to.
use aml_path::Path;

/// A pin of a PCI device, by an entry of a routing table (ACPI 6.5, 6.2.13).
#[derive(Debug, PartialEq, Eq, Drop)]
pub struct Pin {
    /// The number of the device on its bus.
    pub number: u16,
    /// The pin: 0 to 3 for A to D.
    pub pin: u8,
    /// Where its interrupt leads to.
    pub route: Route,
}

/// Where the interrupt of a pin leads to.
#[derive(Debug, PartialEq, Eq, Drop)]
pub enum Route {
    /// To this global system interrupt.
    Wired(u32),
    /// To the link device at this path.
    Link(Path),
}
