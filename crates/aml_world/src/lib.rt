//! The state of a world, which evaluation changes, and all that changes it (ACPI 6.5, 5.3, 5.5 and 19.3.5).
#![tactic(auto)]

mod fields;
mod state;
mod values;

pub use fields::bridges::secondary_bus;
pub use fields::buffer_fields::buffer_of;
pub use fields::field_layout::{FieldGroup, FieldLayout, access_width, field_size, update_rule};
pub use fields::pci_functions::{Sought, adr, base_bus, segment_group};
pub use fields::regions::{RegionField, RegionSpace, integer_only, pci_space, space_numbered};
pub use state::datum::Datum;
pub use state::frame::Frame;
pub use state::invocation::Invocation;
pub use state::name_use::NameUse;
pub use state::new_objects::MAX_ELEMENTS;
pub use state::passed_over::{PassedItem, PassedOver, is_passable};
pub use state::profile::Profile;
pub use state::settings::{EvaluationSettings, Nesting};
pub use state::trace::{Trace, TraceName, TracePlace};
pub use state::world_state::WorldState;
pub use values::dereferences::reference_in;
pub use values::object_type::{ObjectType, Referent};
pub use values::operation_kind::{
    BufferFieldSize, Conversion, Count, EventChange, OneOperand, Test, TwoOperands,
};
pub use values::searches::{MatchTest, Search, Searching};
pub use values::store_target::{Held, Holding, StoreTarget, Stored};
