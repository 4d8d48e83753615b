//! Operation regions and the fields in them.

pub(crate) mod banks;
pub(crate) mod bridges;
pub(crate) mod buffer_fields;
pub(crate) mod field_layout;
pub(crate) mod pci_functions;
pub(crate) mod regions;
pub(crate) mod unit_integers;
