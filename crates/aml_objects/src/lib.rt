//! What AML computes with: values, the objects that values name by number, and what stands at a path of the
//! namespace (ACPI 6.5, 5.3, 5.5.2 and 19.3.5).
#![tactic(auto)]

mod body;
mod content;
mod copies;
mod draft;
mod entry;
mod heap;
pub mod laws;
mod making;
mod node;
mod object;
mod value;

pub use body::Body;
pub use content::Content;
pub use draft::Draft;
pub use entry::{
    Bank, BufferField, Entry, Field, FieldSource, FieldUnit, Method, MethodBody, MethodFlags,
    NamedObject, OperationRegion, UpdateRule,
};
pub use heap::Heap;
pub use node::NodeId;
pub use object::{Element, Elements, Object, Octets};
pub use value::{Reference, Slot, Value};
