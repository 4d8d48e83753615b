//! PCI interrupt link devices (ACPI 6.5, 6.2.13): what each offers and is set to, setting it,
//! and the routing problem of a machine.
#![tactic(auto)]

mod answers;
mod devices;
mod gathered;
mod gathering;
pub mod laws;
mod links;
mod object_names;
mod presence;
mod problem;
mod resources;
mod sparing;

pub use devices::{list_devices, pins_of_device};
pub use gathered::Gathered;
pub use gathering::gather;
pub use links::{PresentLink, few_links, few_pins, links_named, some_left};
pub use object_names::crs;
pub use presence::is_present;
pub use problem::{pin_counts, set_of};
pub use resources::{get_current_resources, get_possible_resources, set_current_resources};
pub use sparing::avoid_more;
