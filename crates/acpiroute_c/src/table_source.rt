//! Where a call over a record has a machine's tables from.
use recorded_route::TablesInMemory;

/// Where a call over a record has a machine's tables from.
#[derive(Clone, Copy)]
pub(crate) enum TableSource<'a> {
    /// A machine text.
    Text(&'a [u8]),
    /// Tables as they stand in memory.
    Memory(TablesInMemory<'a>),
}
