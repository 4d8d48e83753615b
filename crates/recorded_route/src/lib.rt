//! Configures the links of a machine whose registers only its caller can access, and evaluates its objects: a run
//! answers each access from a record, and ends by telling the first access that the record does not hold.
#![tactic(auto)]

mod description;
mod ending;
mod evaluation;
mod pins;
mod run;
mod settings;
mod triggering;

pub use description::{TablePart, TablesInMemory};
pub use ending::{Ending, WantedAccess};
pub use evaluation::{Question, evaluate_recorded, evaluate_tables_recorded};
pub use pins::{Pin, RoutedInterrupt, pins_of, sci_of};
pub use recorded_space::{Access, Exchange};
pub use run::{configure_recorded, configure_tables_recorded};
pub use settings::Settings;
pub use triggering::Triggering;
