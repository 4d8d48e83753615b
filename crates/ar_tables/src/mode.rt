//! How a machine delivers interrupts.

/// Which interrupt controllers of the MADT a machine uses: firmware is told so by `\_PIC` (ACPI 6.5, 5.2.12 and 5.8.1).
#[derive(Clone, Copy, Debug, PartialEq, Eq)]
pub enum Mode {
    /// The two 8259 controllers.
    Pic,
    /// I/O APICs.
    Apic,
}
