//! Interrupts that no link is to be given.
ghost use Rattle.std.specs.Prelude.{◌≡◌, IfOk};
ghost use Rattle.route_model.specs.Avoided.{is_avoided, are_all_avoided, without};

use std::alloc::{AllocError, Global};

/// Whether an interrupt is among those that are avoided.
fn is_avoided(avoid: &[u32], n: u32) -> bool
    ensures { result ≡ is_avoided avoid.now n }
{
    avoid.iter().any(|m| *m == n)
}

/// Those of some interrupts that aren't avoided, in their order: without 10, `[5, 10, 11]` is `[5, 11]`.
#[tactic(auto, unfolding(crate::specs::Avoided::without))]
pub fn without(alloc: Global, avoid: &[u32], numbers: &[u32]) -> Result<Vec<u32>, AllocError>
    ensures { IfOk result (λ list. list.items ≡ without avoid.now numbers.now) }
{
    numbers
        .iter()
        .copied()
        .filter(|n| !is_avoided(avoid, *n))
        .collect(alloc)
}

/// Whether all of some interrupts are avoided. It takes no memory.
pub fn are_all_avoided(avoid: &[u32], numbers: &[u32]) -> bool
    ensures { result ≡ are_all_avoided avoid.now numbers.now }
{
    numbers.iter().all(|n| is_avoided(avoid, *n))
}
