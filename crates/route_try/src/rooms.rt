//! How often an interrupt can be given.
use crate::loads::wired_sources;

/// How many links have an interrupt.
pub(crate) fn count(choice: &[Option<u32>], n: u32) -> usize {
    choice
        .iter()
        .filter(|c| match c {
            Some(m) => *m == n,
            None => false,
        })
        .count()
}

/// How often each interrupt can be given: up to a limit, less the sources that are wired to it and the links that
/// keep it.
#[derive(Clone, Copy)]
pub(crate) struct Rooms<'a> {
    /// How many sources an interrupt may serve.
    pub limit: usize,
    /// Interrupts with the number of sources that are wired to them.
    pub wired: &'a [(u32, u32)],
    /// The interrupts of links that keep theirs.
    pub fixed: &'a [Option<u32>],
}

impl Rooms<'_> {
    /// How often an interrupt can be given.
    pub(crate) fn of(&self, n: u32) -> usize {
        let taken = wired_sources(self.wired, n).saturating_add(count(self.fixed, n));
        self.limit.saturating_sub(taken)
    }
}
