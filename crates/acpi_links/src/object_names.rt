//! The names of the objects of a device that is asked (ACPI 6.5, 6.2 and 6.3).
ghost use Rattle.std.specs.Prelude.{◌≡◌};
ghost use Rattle.acpi_links.specs.ObjectNames.{sta, prs, crs, srs};

use aml_path::Seg;

/// The name of a device's status (6.3.7).
#[tactic(auto, using(aml_path::proofs::Segments::same_seg))]
pub(crate) fn sta() -> Seg
    ensures { result ≡ sta }
{
    Seg::known(*b"_STA")
}

/// The name of a device's possible resource settings (6.2.12).
#[tactic(auto, using(aml_path::proofs::Segments::same_seg))]
pub(crate) fn prs() -> Seg
    ensures { result ≡ prs }
{
    Seg::known(*b"_PRS")
}

/// The name of a device's current resource settings (6.2.2).
#[tactic(auto, using(aml_path::proofs::Segments::same_seg))]
pub fn crs() -> Seg
    ensures { result ≡ crs }
{
    Seg::known(*b"_CRS")
}

/// The name of the method that sets a device's resources (6.2.16).
#[tactic(auto, using(aml_path::proofs::Segments::same_seg))]
pub(crate) fn srs() -> Seg
    ensures { result ≡ srs }
{
    Seg::known(*b"_SRS")
}
