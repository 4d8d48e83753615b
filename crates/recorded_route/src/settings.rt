//! How a machine is configured.
use acpi_machine::{EvaluationSettings, Mode};

/// How a machine is configured.
#[derive(Clone, Copy, Debug)]
pub struct Settings {
    /// In which profile its AML is evaluated, and how deep.
    pub evaluation: EvaluationSettings,
    /// The interrupt controllers that the machine is told it uses.
    pub mode: Mode,
    /// The budget of steps for each table and each evaluation, from 1 to 1,000,000,000.
    pub steps: u64,
    /// No link is set.
    pub dry: bool,
    /// The report has lines for a kernel.
    pub kernel: bool,
}
