//! How much of a machine is taken in. What is more is refused.

/// How many texts `_OSI` may know (ACPI 6.5, 5.7.2).
pub const MAX_TEXTS: usize = 64;
/// How many link devices of a machine may be routed, and how many links a report may have.
pub const MAX_LINKS: usize = 256;
/// How many pins may count where the System Control Interrupt counts as one of them, and how many wired interrupts a
/// report may have.
pub const MAX_PINS: usize = 4096;
/// How deep packages may nest where a value is copied, handed in or handed out.
pub const MAX_NESTING: usize = 64;
