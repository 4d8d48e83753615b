//! How a run ends.

use acpi_explain::Phase;
use ar_space::Refusal;
use route_report::Report;

/// How a run ended.
#[derive(Debug, Drop)]
pub(crate) enum RunEnd {
    /// It was refused. How far it came then is told where a table or an object has a part in it.
    Refused(Option<Phase>, Refusal),
    /// It wasn't. That of `route` has a report.
    Done(Option<Report>),
}
