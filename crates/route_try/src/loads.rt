//! How many sources an interrupt serves under an assignment.

/// How many sources are wired to an interrupt.
pub(crate) fn wired_sources(wired: &[(u32, u32)], n: u32) -> usize {
    let mut total: usize = 0;
    for w in wired {
        if w.0 == n {
            total = total.saturating_add(w.1 as usize);
        }
    }
    total
}

/// How many links are given an interrupt.
fn links_given(choice: &[u32], n: u32) -> usize {
    choice.iter().filter(|m| **m == n).count()
}

/// How many sources an interrupt serves.
pub(crate) fn load(wired: &[(u32, u32)], choice: &[u32], n: u32) -> usize {
    links_given(choice, n).saturating_add(wired_sources(wired, n))
}

/// How many sources the busiest interrupt serves, of those that are given or wired.
pub(crate) fn busiest(wired: &[(u32, u32)], choice: &[u32]) -> usize {
    let mut greatest: usize = 0;
    for n in choice {
        greatest = greatest.max(load(wired, choice, *n));
    }
    for w in wired {
        greatest = greatest.max(load(wired, choice, w.0));
    }
    greatest
}
