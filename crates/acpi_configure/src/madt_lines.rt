//! The lines of the MADT (ACPI 6.5, 5.2.12).
ghost use Rattle.std.specs.Prelude.{◌≡◌, IfOk, option_map};
ghost use Rattle.std.specs.List.{filter_map};
ghost use Rattle.ar_tables.specs.Structures.{entries_in, structures_of};
ghost use Rattle.acpi_configure.specs.Lines.{entries_of, io_apic_of, override_of, io_apics_of, overrides_of};

use ar_tables::{Madt, MadtEntry, madt_entries};
use route_report::{IoApicLine, OverrideLine};
use std::alloc::{AllocError, Global};

/// The lines of the I/O APICs, and those of the interrupt source overrides.
pub(crate) type MadtLines = (Vec<IoApicLine>, Vec<OverrideLine>);

/// The lines of a MADT, each kind in the order of its entries; none where there is no MADT.
#[tactic(auto, unfolding(crate::specs::Lines::io_apics_of, crate::specs::Lines::overrides_of))]
pub(crate) fn madt_lines(alloc: Global, madt: Option<&Madt>) -> Result<MadtLines, AllocError>
    ensures io_apics { IfOk result (λ lines. lines.0.items ≡ io_apics_of (option_map (λ madt. madt.now) madt.entry)) }
    ensures overrides { IfOk result (λ lines. lines.1.items ≡
        overrides_of (option_map (λ madt. madt.now) madt.entry)) }
{
    lines_among(alloc, entries_of(alloc, madt)?)
}

/// The entries of a MADT, none where there is no MADT.
fn entries_of(alloc: Global, madt: Option<&Madt>) -> Result<Vec<MadtEntry>, AllocError>
    ensures { IfOk result (λ list. list.items ≡ entries_of (option_map (λ madt. madt.now) madt.entry)) }
{
    match madt {
        None => Ok(Vec::new(alloc)),
        Some(madt) => entries_in(alloc, madt),
    }
}

fn entries_in(alloc: Global, madt: &Madt) -> Result<Vec<MadtEntry>, AllocError>
    ensures { IfOk result (λ list. list.items ≡ entries_in (structures_of madt.now)) }
{
    madt_entries(madt).collect(alloc)
}

/// The lines of some entries.
fn lines_among(alloc: Global, entries: Vec<MadtEntry>) -> Result<MadtLines, AllocError>
    ensures io_apics { IfOk result (λ lines. lines.0.items ≡ filter_map io_apic_of entries.items) }
    ensures overrides { IfOk result (λ lines. lines.1.items ≡ filter_map override_of entries.items) }
{
    let mut io_apics = Vec::new(alloc);
    let mut overrides = Vec::new(alloc);
    for entry in entries {
        match entry {
            MadtEntry::IoApic {
                id,
                address,
                gsi_base,
            } => io_apics.push(IoApicLine {
                id,
                address,
                gsi_base,
            })?,
            MadtEntry::SourceOverride {
                bus: _,
                source,
                gsi,
                flags,
            } => overrides.push(OverrideLine { source, gsi, flags })?,
        }
    }
    Ok((io_apics, overrides))
}
