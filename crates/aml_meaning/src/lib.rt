//! What AML means: the rules of its terms, and a world as callers have it (ACPI 6.5, 5.3, 5.5 and 19.6).
#![tactic(auto)]

mod flow;
mod kinds;
mod running;
mod term_kind;
mod validity;
mod world;

pub use flow::Flow;
pub use kinds::{kind_of, target_kind};
pub use running::Running;
pub use term_kind::{
    DataKind, DeclarationKind, OperatorKind, RegionKind, StatementKind, TargetKind, TermKind,
    WideKind,
};
pub use world::World;
