//! The interrupt source of the System Control Interrupt (ACPI 6.5, 5.2.9 and 5.2.12.5).
ghost use Rattle.std.specs.Prelude.{◌≡◌, option_map};
ghost use Rattle.ar_tables.specs.Structures.{entries_in, structures_of};
ghost use Rattle.ar_tables.specs.SciSources.{gsi_in, gsi_among, gsi_by, sci_gsi, sci_source};

use crate::madt::{Madt, MadtEntry, madt_entries};
use crate::tables::Tables;

/// The interrupt source of the System Control Interrupt: SCI_INT of the FADT. Where I/O APICs are used (`apic`) it is
/// the global system interrupt of the first interrupt source override of the MADT with this source, if there is one.
/// There is none where SCI_INT is 0 or the FADT ends before it. It takes no memory.
#[tactic(auto, unfolding(crate::specs::SciSources::sci_source))]
pub fn sci_source(tables: &Tables, apic: bool) -> Option<u32>
    ensures { result ≡ sci_source tables.now apic }
{
    if tables.fadt.sci_interrupt() == 0 {
        return None;
    }
    Some(sci_gsi(tables, apic))
}

fn sci_gsi(tables: &Tables, apic: bool) -> u32
    ensures { result ≡ sci_gsi tables.now apic }
{
    let source = u32::from(tables.fadt.sci_interrupt());
    match apic {
        true => gsi_by(&tables.madt, source),
        false => source,
    }
}

fn gsi_by(madt: &Option<Madt>, source: u32) -> u32
    ensures { result ≡ gsi_by madt.now source }
{
    match madt {
        None => source,
        Some(madt) => gsi_among(madt, source),
    }
}

/// The global system interrupt of the first override of a source, or the source where there is none.
fn gsi_among(madt: &Madt, source: u32) -> u32
    ensures { result ≡ gsi_among (entries_in (structures_of madt.now)) source }
{
    for entry in madt_entries(madt) {
        if let Some(gsi) = gsi_in(entry, source) {
            return gsi;
        }
    }
    source
}

/// The global system interrupt that an entry gives a source, if it is an override of it.
fn gsi_in(entry: MadtEntry, source: u32) -> Option<u32>
    ensures { result ≡ gsi_in entry source }
{
    match entry {
        MadtEntry::IoApic { .. } => None,
        MadtEntry::SourceOverride {
            bus: _,
            source: of,
            gsi,
            flags: _,
        } => {
            if u32::from(of) == source {
                Some(gsi)
            } else {
                None
            }
        }
    }
}
