//! The report of a run: what was found, what was chosen and why it is least busy, line by line; and the claim that is
//! read from such a text.
#![tactic(auto)]

mod claimless;
mod draft;
mod heading;
mod kernel_lines;
pub mod laws;
mod line;
mod lines;
mod numerals;
mod ordered;
mod printing;
mod put;
mod reading;
mod report;
mod version;
mod words;

pub use acpi_resources::{Form, Polarity};
pub use ar_tables::Mode;
pub use printing::print;
pub use put::path_text;
pub use reading::read;
pub use report::{
    After, AfterLine, BusLine, BusState, InterruptSource, IoApicLine, LinkLine, OptionLines,
    OverrideLine, PinLine, PinName, PinRoute, Report, Rule, SetLine, SetOutcome, SparedLine,
    Trigger, TriggerLine, UnreadLine,
};
