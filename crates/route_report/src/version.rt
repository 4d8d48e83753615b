//! The versions of a report.

/// The version of a report, which its first line tells.
#[derive(Clone, Copy, Debug, PartialEq, Eq)]
pub(crate) enum Version {
    /// Without lines of the System Control Interrupt and of the interrupts that are avoided.
    One,
    /// With one line of each.
    Two,
    /// And with the lines that options ask for: of interrupts that are spared, and of the rule of the choice.
    Three,
}
