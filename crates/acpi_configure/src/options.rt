//! What a run is asked for.
use std::marker::Model;

/// What a run is asked for.
#[derive(Debug, Drop)]
pub struct Options<'a> {
    /// No link is set.
    pub dry: bool,
    /// The interrupts that no link is given.
    pub avoid: &'a [u32],
    /// No link is given an interrupt that the `_CRS` of another present device has.
    pub spare: bool,
    /// Links share interrupts as little as they can.
    pub spread: bool,
    /// The report has lines for a kernel.
    pub kernel: bool,
}

impl<'a> Model for Options<'a> {
    ghost use Rattle.acpi_configure.specs.Options.{RunOptions};

    ghost Value = { RunOptions };

    ghost view = { λ o. record { dry = o.dry; avoid = o.avoid.now; spare = o.spare; spread = o.spread; kernel = o.kernel } };
}
