//! A machine: tables are loaded into a namespace, and objects are evaluated in it (ACPI 6.5, 5.2, 5.3 and 5.5).
#![tactic(auto)]

mod buses;
mod calls;
mod children;
mod kind;
mod loading;
mod machine;
mod mode;
mod named_tables;
mod nodes;

pub use aml_world::{
    EvaluationSettings, Nesting, PassedOver, Profile, Trace, TraceName, TracePlace, WorldState,
};
pub use ar_tables::Mode;
pub use buses::{PciBus, prt};
pub use kind::Kind;
pub use loading::{load_table, load_tables, load_tables_as, load_tables_traced};
pub use machine::Machine;
pub use mode::mode_number;
