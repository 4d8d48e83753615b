//! What was done when a run was refused.

use aml_path::Path;

/// What was done when a run was refused.
#[derive(Debug, Drop)]
pub enum Stage {
    /// A table was loaded: the DSDT is 0, and SSDTs are counted from 1 in the order of the list of tables.
    Loading(usize),
    /// This object was called, to initialize the machine.
    Calling(Path),
    /// The routing table of this device was read: its `_PRT` was evaluated, and the answer taken apart.
    RoutingTable(Path),
    /// This object was evaluated, and what it answers taken apart.
    Reading(Path),
    /// This link was set to the interrupt that was chosen for it, by `_SRS`.
    Setting(Path),
    /// What this link is set to was read again, by `_CRS`, once all links were set.
    ReadingAgain(Path),
    /// What was found was put together.
    Gathering,
}
