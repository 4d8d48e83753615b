//! The tables of a machine, by signature and number.
ghost use Rattle.std.specs.Prelude.{◌≡◌, option_map, slice_get};
ghost use Rattle.acpi_machine.specs.NamedTables.{single, single_if, table_at, table_numbered};

use crate::machine::Machine;
use ar_space::Space;
use ar_tables::{Madt, Table, Tables};

impl<S: Space> Machine<S> {
    /// The bytes of the n-th table of a signature, counted from 1, with its header: of the one `DSDT`, `FACP` or
    /// `APIC`, or of the `SSDT`s in the order of the list (ACPI 6.5, table 5.5). None of another signature. It takes
    /// no memory.
    pub fn get_table(&self, signature: [u8; 4], n: usize) -> Option<&[u8]>
        ensures { option_map (λ bytes. bytes.now) result ≡ table_numbered self.now.tables signature n }
    {
        if n == 0 {
            None
        } else {
            table_at(&self.tables, &signature, n - 1)
        }
    }
}

/// The bytes of a table of a signature, counted from 0.
fn table_at<'a>(tables: &'a Tables, signature: &[u8], index: usize) -> Option<&'a [u8]>
    ensures { option_map (λ bytes. bytes.now) result ≡ table_at tables.now signature.now index }
{
    if signature == b"DSDT".as_slice() {
        single(tables.dsdt.as_slice(), index)
    } else if signature == b"SSDT".as_slice() {
        nth(tables.ssdts.as_slice(), index)
    } else if signature == b"FACP".as_slice() {
        single(tables.fadt.as_slice(), index)
    } else if signature == b"APIC".as_slice() {
        single_if(&tables.madt, index)
    } else {
        None
    }
}

fn single(table: &[u8], index: usize) -> Option<&[u8]>
    ensures { option_map (λ bytes. bytes.now) result ≡ single table.now index }
{
    if index == 0 { Some(table) } else { None }
}

fn single_if(table: &Option<Madt>, index: usize) -> Option<&[u8]>
    ensures { option_map (λ bytes. bytes.now) result ≡ single_if table.now index }
{
    match table {
        None => None,
        Some(table) => single(table.as_slice(), index),
    }
}

fn nth(tables: &[Table], index: usize) -> Option<&[u8]>
    ensures { option_map (λ bytes. bytes.now) result ≡ slice_get tables.now index }
{
    match tables.get(index) {
        None => None,
        Some(table) => Some(table.as_slice()),
    }
}
