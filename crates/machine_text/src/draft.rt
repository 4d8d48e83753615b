//! What the lines of a machine text have said so far.
ghost use Rattle.std.specs.Prelude.{◌≡◌};
ghost use Rattle.machine_text.specs.MachineText.{nothing_said};

use crate::osi_texts::OsiTexts;
use ar_space::Sparse;
use std::alloc::Global;

/// What the lines have said so far.
#[derive(Drop)]
pub(crate) struct Draft {
    pub(crate) rsdp: Option<u64>,
    pub(crate) space: Sparse,
    pub(crate) osi: OsiTexts,
}

impl Draft {
    pub(crate) fn new(alloc: Global) -> Draft
        ensures { result ≡ nothing_said }
    {
        Draft {
            rsdp: None,
            space: Sparse::new(alloc),
            osi: OsiTexts::new(alloc),
        }
    }
}
